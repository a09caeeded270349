//! What hashes names in tables, and rows of many names.
use mimic_events::Row;
use mimic_trial::Outcome;
use std::alloc::{AllocError, Global};
use std::hash::{BuildHasher, BuildHasherDefault, FoldHasher, Hasher};

// Returns std's default, for calls whose hashes don't matter.
pub(super) fn usual_hashes() -> BuildHasherDefault<FoldHasher> {
    BuildHasherDefault::new()
}

// All names have one hash, so that a table has them in one bucket. This costs time, and changes no answer.
#[derive(Clone, Copy)]
pub(super) struct OneBucket;

impl Hasher for OneBucket {
    ghost write = { λ h _. h };

    ghost finish = { λ _. 0 };

    fn finish(&self) -> u64 {
        0
    }

    fn write(&mut self, _bytes: &[u8]) {}
}

impl BuildHasher for OneBucket {
    type Hasher = OneBucket;

    ghost build_hasher = { λ h. h };

    fn build_hasher(&self) -> OneBucket {
        *self
    }
}

// Adds a hundred trials that passed, named by the prefix and a number.
pub(super) fn add_hundred(
    alloc: Global,
    rows: &mut Vec<Row>,
    prefix: &str,
) -> Result<(), AllocError> {
    for number in 0..100 {
        rows.push(Row {
            name: format!(in alloc; "{prefix}{number}")?,
            kind: String::new(alloc),
            outcome: Outcome::Passed,
            nanos: None,
        })?;
    }
    Ok(())
}
