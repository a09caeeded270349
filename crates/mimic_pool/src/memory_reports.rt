//! Reports into a list in memory.
ghost use Rattle.std.specs.Prelude.{◌≡◌, ◌++◌, ◌∷◌, ◌+◌, ◌<◌, [], OnErr, OnOk};
ghost use Rattle.mimic_pool.specs.Reports.{MayHaveHeard, refused_into, rows_told, told_into};

use crate::reports::{Counts, Reports, Untold};
use mimic_trial::Outcome;
use std::alloc::{AllocError, Global};

/// Reports that a list keeps.
#[derive(Drop)]
pub struct MemoryReports {
    rows: Vec<(usize, Outcome)>,
    alloc: Global,
    counts: Counts,
}

impl MemoryReports {
    /// Nothing was reported yet.
    pub fn new(alloc: Global) -> Self
        ensures rows { rows_told result ≡ [] }
        ensures told { told_into result ≡ 0 }
        ensures refusals { refused_into result ≡ 0 }
    {
        MemoryReports {
            rows: Vec::new(alloc),
            alloc,
            counts: Counts::new(),
        }
    }

    /// The rows that were reported, in their order: each a place and the outcome there.
    pub fn rows(&self) -> &[(usize, Outcome)]
        ensures { result.now ≡ rows_told self.now }
    {
        self.rows.as_slice()
    }

    // Adds a copy of the row. The counts stay.
    fn keep(&mut self, place: usize, outcome: &Outcome) -> Result<(), AllocError>
        ensures kept { OnOk result
            (rows_told self.new ≡ rows_told self.old ++ (place, outcome.now) ∷ []) }
        ensures refused { OnErr result (rows_told self.new ≡ rows_told self.old) }
        ensures counts { self.new.counts ≡ self.old.counts }
    {
        let copy = outcome.try_clone(self.alloc)?;
        self.rows.push((place, copy))?;
        Ok(())
    }
}

impl Reports for MemoryReports {
    ghost told_of = { told_into };

    ghost refused_by = { refused_into };

    ghost heard = { MayHaveHeard };

    /// Adds the row to the list, and counts it as reported, or with `Untold` as refused.
    fn tell(&mut self, place: usize, outcome: &Outcome) -> Result<(), Untold>
        requires room { (told_into self.old < u64.MAX) × (refused_into self.old < u64.MAX) }
        ensures told { OnOk result ((told_into self.new ≡ told_into self.old + 1)
            × (refused_into self.new ≡ refused_into self.old)) }
        ensures untold { OnErr result ((told_into self.new ≡ told_into self.old)
            × (refused_into self.new ≡ refused_into self.old + 1)) }
        ensures kept { OnOk result
            (rows_told self.new ≡ rows_told self.old ++ (place, outcome.now) ∷ []) }
        ensures refused { OnErr result (rows_told self.new ≡ rows_told self.old) }
    {
        let kept = self.keep(place, outcome);
        self.counts.count(kept.is_ok())
    }

    fn refusals(&self) -> u64 {
        self.counts.refusals
    }

    fn told(&self) -> u64 {
        self.counts.told
    }
}
