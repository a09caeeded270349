//! What a worker takes its trials from.
ghost use Rattle.std.specs.Prelude.{◌≡◌, ◌++◌, ◌∷◌, ◌+◌, ◌<◌, ◌≤◌, [], ℕ, All, IfNone, IfSome, List, MatchOption, length};
ghost use Rattle.mimic_pool.specs.declared.share.Assigned.{Assigned};

use crate::remaining::Remaining;
use crate::row_buffer::RowBuffer;
use crate::share::Assigned;
use mimic_trial::Task;

// Trials, one after another, each with room for its row.
pub(crate) trait Source<T: Task> {
    // From one state to another these trials were handed out, in their order.
    ghost goes_on: { Self → List (Assigned T) → Self → Type 0 };

    // The next trials can be handed out if there is room for this many rows.
    ghost is_ready: { Self → ℕ → Type 0 };

    // How many more trials there are at most.
    ghost most: { Self → ℕ };

    // No trial that it took is left.
    ghost has_ended: { Self → Type 0 };

    // Hands out the next trial, for whose row there is room then. `None` ends the worker.
    fn next<O: RowBuffer>(&mut self, buffer: &mut O) -> Option<Assigned<T>>
        requires ready { is_ready self.old (O.room_in buffer.old) }
        ensures rows { O.rows_in buffer.new ≡ O.rows_in buffer.old }
        ensures as_much { O.room_in buffer.old ≤ O.room_in buffer.new }
        ensures none { IfNone result (goes_on self.old [] self.new × has_ended self.new) }
        ensures next { IfSome result (λ item. goes_on self.old (item ∷ []) self.new × T.can_run item.runner) }
        ensures room { IfSome result (λ _. 1 ≤ O.room_in buffer.new) }
        ensures ready { IfSome result (λ _. (left : ℕ) → O.room_in buffer.new ≡ left + 1 → is_ready self.new left) }
        ensures most { IfSome result (λ _. most self.new < most self.old) };

    // Nothing was handed out yet.
    ghost stays: { (source : Self) → goes_on source [] source };

    // To hand out `items` and then `more` is to hand out both, one after the other.
    ghost joins: { (first mid last : Self) (items more : List (Assigned T)) → goes_on first items mid
        → goes_on mid more last → goes_on first (items ++ more) last };
}

// What is left of a share or of a batch. There must be room for the rows of all of it.
impl<T: Task> Source<T> for Remaining<Assigned<T>> {
    ghost use Rattle.std.proofs.Common.{◌∙◌, ap, append_assoc, refl, sym};

    ghost goes_on = { λ first items last. first ≡ items ++ last };

    ghost is_ready = { λ left room. All (λ item. T.can_run item.runner) left × (length left ≤ room) };

    ghost most = { λ left. length left };

    ghost has_ended = { λ left. left ≡ [] };

    fn next<O: RowBuffer>(&mut self, _buffer: &mut O) -> Option<Assigned<T>> {
        Remaining::next(self)
    }

    ghost stays = { λ _. refl };

    ghost joins = { λ first mid last items more was is. was ∙ ap (λ l. items ++ l) is ∙ sym (append_assoc items more last) };
}
