//! What rows are found by in a table.
ghost use Rattle.std.specs.Prelude.{◌≡◌};
ghost use Rattle.std.specs.Option.{option_copied};
ghost use Rattle.mimic_events.specs.Contents.{entry_read};
ghost use Rattle.mimic_events.specs.Key.{key_read};

use crate::report::Row;
use mimic_trial::Outcome;
use std::hash::{Hash, Hasher};

/// What a row is found by: its kind and its name and, where it is asked, its message. A key is the reference to its row, so it
/// takes little memory.
#[derive(Clone, Copy)]
pub enum Key<'a> {
    /// The kind and the name of the row.
    Trial(&'a Row),
    /// The kind and the name of the row, and the message of its failure, if it has one.
    Failure(&'a Row),
}

impl<'a> Key<'a> {
    // Returns the row whose kind and name it is.
    fn row(&self) -> &'a Row
        ensures { (entry_read result.now).label ≡ (key_read self.now).label }
    {
        match self {
            Key::Trial(row) | Key::Failure(row) => *row,
        }
    }

    // Returns the message, if it is asked and the row has one.
    fn message(&self) -> Option<&'a str>
        ensures { option_copied result ≡ (key_read self.now).message }
    {
        let Key::Failure(row) = self else {
            return None;
        };
        match &row.outcome {
            Outcome::Failed(failed) => failed.message(),
            _ => None,
        }
    }
}

impl PartialEq for Key<'_> {
    ghost use Rattle.std.specs.Cmp.{partial_equiv_from_equiv};
    ghost use Rattle.mimic_events.specs.Key.{is_same, same_laws};

    ghost eq = { is_same };

    ghost laws = { partial_equiv_from_equiv same_laws };

    fn eq(&self, other: &Self) -> bool {
        let (row, other_row) = (self.row(), other.row());
        self.message() == other.message()
            && row.kind == other_row.kind
            && row.name == other_row.name
    }
}

impl Eq for Key<'_> {
    ghost use Rattle.mimic_events.specs.Key.{same_laws};

    ghost laws = { same_laws };
}

impl Hash for Key<'_> {
    ghost use Rattle.std.specs.Cmp.Rules.{hashing};
    ghost use Rattle.std.proofs.Common.{rules};
    ghost use Rattle.mimic_events.specs.Key.{fed_key, key_read};

    ghost hash_input = { λ x. fed_key (key_read x) };

    ghost respects_eq = { Prim.search (hashing, rules) };

    fn hash<H: Hasher>(&self, state: &mut H) {
        self.row().kind.hash(state);
        self.row().name.hash(state);
        self.message().hash(state);
    }
}
