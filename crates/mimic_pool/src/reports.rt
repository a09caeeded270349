//! What workers report their rows to.
ghost use Rattle.std.specs.Prelude.{◌≡◌, ◌↔◌, ◌++◌, ◌∷◌, ◌+◌, ◌<◌, [], ℕ, IsOk, IsTrue, List, OnErr, OnOk, ⊤};
ghost use Rattle.mimic_trial.specs.Places.{Placed};

use crate::timer::Timer;
use mimic_trial::Outcome;
use std::rt::Clock;

/// A row could not be reported.
#[derive(Clone, Copy, Debug, PartialEq, Eq)]
pub struct Untold;

/// What rows are reported to, each a place and the outcome there, and what counts them.
///
/// What becomes of a row that was reported is left open: it may be lost. So a worker also returns all of its rows.
pub trait Reports {
    /// How many rows were reported.
    ghost told_of: { Self → ℕ };

    /// How many rows could not be reported.
    ghost refused_by: { Self → ℕ };

    /// Whether it may have been handed these rows, one after another, reported or not. If an `impl` says nothing, it may be any rows.
    ghost heard: { Self → List Placed → Type 0 } = { λ _ _. Unit {0} };

    /// Reports one row, and counts it as reported, or with `Untold` as refused.
    fn tell(&mut self, place: usize, outcome: &Outcome) -> Result<(), Untold>
        requires room { (told_of self.old < u64.MAX) × (refused_by self.old < u64.MAX) }
        ensures told { OnOk result ((told_of self.new ≡ told_of self.old + 1)
            × (refused_by self.new ≡ refused_by self.old)) }
        ensures untold { OnErr result ((told_of self.new ≡ told_of self.old)
            × (refused_by self.new ≡ refused_by self.old + 1)) }
        ensures heard { (rows : List Placed) → heard self.old rows
            → heard self.new (rows ++ (place, outcome.now) ∷ []) };

    /// What a worker calls directly before it calls the runner of the trial at the place: marks that the trial runs, if anybody looks,
    /// and reads the clock, if somebody asks how long trials run.
    fn begin(&self, _place: usize) -> Option<u64> {
        None
    }

    /// What a worker calls directly after a runner has returned: marks that its trial doesn't run any more, and notes how long it ran
    /// since the reading.
    fn end(&self, _place: usize, _started: Option<u64>) {}

    /// How many rows could not be reported.
    fn refusals(&self) -> u64
        ensures { result ≡ refused_by self.now };

    /// How many rows were reported.
    fn told(&self) -> u64
        ensures { result ≡ told_of self.now };
}

// Reports to nobody, of trials that no worker took. They are marked while they run, and their times are noted.
#[derive(Drop)]
pub(crate) struct Unheard<'a, R> {
    timer: Timer<'a, R>,
    counts: Counts,
}

impl<'a, R: Clock> Unheard<'a, R> {
    // Nothing was reported yet.
    pub(crate) fn new(timer: Timer<'a, R>) -> Self
        ensures told { result.counts.told ≡ 0 }
        ensures refusals { result.counts.refusals ≡ 0 }
    {
        Unheard {
            timer,
            counts: Counts::new(),
        }
    }
}

impl<'a, R: Clock> Reports for Unheard<'a, R> {
    ghost told_of = { λ reports. reports.counts.told };

    ghost refused_by = { λ reports. reports.counts.refusals };

    fn tell(&mut self, _place: usize, _outcome: &Outcome) -> Result<(), Untold> {
        self.counts.count(true)
    }

    fn begin(&self, place: usize) -> Option<u64> {
        self.timer.begin(place)
    }

    fn end(&self, place: usize, started: Option<u64>) {
        self.timer.end(place, started);
    }

    fn refusals(&self) -> u64 {
        self.counts.refusals
    }

    fn told(&self) -> u64 {
        self.counts.told
    }
}

// How many rows were reported, and how many could not be.
#[derive(Drop)]
pub(crate) struct Counts {
    pub(crate) told: u64,
    pub(crate) refusals: u64,
}

impl Counts {
    // No row was reported yet.
    pub(crate) fn new() -> Self
        ensures told { result.told ≡ 0 }
        ensures refusals { result.refusals ≡ 0 }
    {
        Counts {
            told: 0,
            refusals: 0,
        }
    }

    // Counts one more row, as reported or as refused.
    pub(crate) fn count(&mut self, is_told: bool) -> Result<(), Untold>
        requires room { (self.old.told < u64.MAX) × (self.old.refusals < u64.MAX) }
        ensures same { IsOk result ↔ IsTrue is_told }
        ensures told { OnOk result ((self.new.told ≡ self.old.told + 1)
            × (self.new.refusals ≡ self.old.refusals)) }
        ensures untold { OnErr result ((self.new.told ≡ self.old.told)
            × (self.new.refusals ≡ self.old.refusals + 1)) }
    {
        if is_told {
            self.told += 1;
            Ok(())
        } else {
            self.refusals += 1;
            Err(Untold)
        }
    }
}
