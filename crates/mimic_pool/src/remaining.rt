//! Items that are handed out one by one, and whose memory is given back meanwhile.
ghost use Rattle.std.specs.Prelude.{◌≡◌, ◌∷◌, [], MatchOption};

use std::marker::Model;

// After how many items memory is given back. To give it back is a call of the system.
const STEP: usize = 8192;

/// Items that are still to be handed out, the first one first.
#[derive(Drop)]
pub struct Remaining<T> {
    // From the last one to the first.
    reversed: Vec<T>,
}

impl<T> Model for Remaining<T> {
    ghost use Rattle.std.specs.Prelude.{List, reverse};

    ghost Value = { List T };

    ghost view = { λ remaining. reverse remaining.reversed.items };
}

impl<T> Remaining<T> {
    /// All of these are to be handed out, in their order.
    pub fn new(mut items: Vec<T>) -> Self
        ensures { result ≡ items.items }
    {
        items.reverse();
        Remaining { reversed: items }
    }

    /// Hands out the next item, and `None` if all were. It gives back the memory of those before it from time to time.
    pub fn next(&mut self) -> Option<T>
        ensures { MatchOption result
            ((self.old ≡ []) × (self.new ≡ []))
            (λ item. self.old ≡ item ∷ self.new) }
    {
        let item = self.reversed.pop()?;
        if self.reversed.len() % STEP == 0 {
            self.reversed.shrink_to_fit();
        }
        Some(item)
    }
}
