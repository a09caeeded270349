//! What becomes of trials: failures, measurements, outcomes and their counts.
ghost use Rattle.std.specs.Prelude.{◌≡◌, ◌≢◌, ◌↔◌, ◌<◌, ◌^◌, ◌-◌, IfOk, IsTrue, if◌then◌else◌, nat_lt};
ghost use Rattle.mimic_trial.specs.Count.{counts_of};
ghost use Rattle.mimic_trial.specs.Promise.{FitsTypes, PromisesOutcome};
ghost use Rattle.mimic_trial.specs.declared.outcome.Outcome.TheVariants.{Ignored};

pub(crate) mod failed;

use crate::runner::Runner;
pub use failed::Failed;
use std::alloc::{AllocError, Global};
use std::process::ExitCode;

/// What became of a trial.
#[derive(Debug, Drop)]
pub enum Outcome {
    /// The test passed, or the benchmark did in test mode.
    Passed,
    /// The test or benchmark failed.
    Failed(Failed),
    /// The test or benchmark was not run.
    Ignored,
    /// The benchmark was measured.
    Measured(Measurement),
}

impl Outcome {
    /// Returns an equal outcome, or an `Err` if there is no memory for a failure's message.
    pub fn try_clone(&self, alloc: Global) -> Result<Self, AllocError>
        ensures { IfOk result (λ o. o ≡ self.now) }
    {
        Ok(match self {
            Outcome::Passed => Outcome::Passed,
            Outcome::Failed(failed) => Outcome::Failed(failed.try_clone(alloc)?),
            Outcome::Ignored => Outcome::Ignored,
            Outcome::Measured(measured) => Outcome::Measured(*measured),
        })
    }
}

impl PartialEq for Outcome {
    ghost use Rattle.std.specs.Cmp.{decided, partial_equiv_from_equiv};
    ghost use Rattle.mimic_trial.specs.Same.{outcome_decides, same_outcome};

    ghost eq = { same_outcome };

    ghost laws = { partial_equiv_from_equiv (decided same_outcome outcome_decides) };

    /// Whether both are of the same sort, with the same failure or measurement.
    fn eq(&self, other: &Outcome) -> bool
        ensures computed { result ≡ same_outcome self.now other.now }
        ensures same { IsTrue result ↔ (self.now ≡ other.now) }
    {
        match (self, other) {
            (Outcome::Passed, Outcome::Passed) | (Outcome::Ignored, Outcome::Ignored) => true,
            (Outcome::Failed(mine), Outcome::Failed(theirs)) => mine == theirs,
            (Outcome::Measured(mine), Outcome::Measured(theirs)) => mine == theirs,
            _ => false,
        }
    }
}

impl Eq for Outcome {
    ghost use Rattle.std.specs.Cmp.{decided};
    ghost use Rattle.mimic_trial.specs.Same.{outcome_decides, same_outcome};

    ghost laws = { decided same_outcome outcome_decides };
}

/// A test passed if its answer is `Ok`, and failed with what an `Err` holds.
impl From<Result<(), Failed>> for Outcome {
    ghost use Rattle.mimic_trial.specs.Promise.{outcome_of_test};

    ghost from_gives = { λ answer o. o ≡ outcome_of_test answer };

    fn from(answer: Result<(), Failed>) -> Outcome {
        match answer {
            Ok(()) => Outcome::Passed,
            Err(failed) => failed.into_outcome(),
        }
    }
}

/// Calls the runner once, and returns the outcome of its answer, which is never `Ignored`.
///
/// A test's `Ok` has the outcome `Passed`, and every `Err` the outcome `Failed`. In test mode a
/// benchmark's `Ok` is `Passed` and a measurement is dropped. In bench mode a measurement is
/// `Measured`, and a benchmark that measured nothing failed.
#[inline(always)]
pub fn run_single(runner: Runner, test_mode: bool) -> Outcome
    ensures own { PromisesOutcome runner test_mode result }
    ensures called { result ≢ Ignored }
    ensures fits { FitsTypes result }
{
    match runner {
        Runner::Test(test) => test.call().into(),
        Runner::Bench(bench) => match bench.call(test_mode) {
            Ok(_) if test_mode => Outcome::Passed,
            Ok(Some(measured)) => Outcome::Measured(measured),
            Ok(None) => Outcome::Failed(Failed::not_measured()),
            Err(reason) => reason.into_outcome(),
        },
    }
}

/// Counts the outcomes of each sort, and takes the number of trials that were filtered out as it is.
pub fn count_rows(outcomes: &[Outcome], filtered: u64) -> Conclusion
    ensures { result ≡ counts_of outcomes.now filtered }
{
    let mut conclusion = Conclusion::empty(filtered);
    for outcome in outcomes {
        conclusion.count(outcome);
    }
    conclusion
}

/// What a benchmark measured, in nanoseconds.
#[derive(Clone, Copy, Debug, PartialEq, Eq)]
pub struct Measurement {
    /// The average time of an iteration.
    pub avg: u64,
    /// The variance of that time.
    pub variance: u64,
}

/// How many trials had each outcome. After a list all five numbers are 0.
#[derive(Clone, Debug, PartialEq, Eq, Drop)]
pub struct Conclusion {
    /// The trials that were not selected, whichever argument dropped them.
    pub num_filtered_out: u64,
    /// The tests that passed, and the benchmarks that passed in test mode.
    pub num_passed: u64,
    /// The tests and benchmarks that failed.
    pub num_failed: u64,
    /// The tests and benchmarks that were ignored.
    pub num_ignored: u64,
    /// The benchmarks that were measured.
    pub num_measured: u64,
}

impl Conclusion {
    ghost use Rattle.std.specs.Process.{exit_status};

    /// The status that a program ends with if a trial failed.
    pub const FAILED: u8 = 101;

    /// Returns the status for `main` to return: `FAILED` if a trial failed, else 0.
    pub fn exit_code(&self) -> ExitCode
        ensures { exit_status result ≡ (if nat_lt 0 self.now.num_failed then 101 else 0) }
    {
        if self.has_failed() {
            ExitCode::from(Conclusion::FAILED)
        } else {
            ExitCode::SUCCESS
        }
    }

    /// Whether a trial failed.
    pub fn has_failed(&self) -> bool
        ensures { IsTrue result ↔ (0 < self.now.num_failed) }
    {
        self.num_failed > 0
    }
}

impl Conclusion {
    ghost use Rattle.std.specs.Prelude.{ℕ, ◌^◌, ◌-◌, []};
    ghost use Rattle.mimic_trial.specs.Count.{CanCount, counted, counts_of};

    /// Makes a conclusion that counts nothing yet but the trials that were filtered out.
    pub fn empty(filtered_out: u64) -> Self
        ensures { result ≡ counts_of [] filtered_out }
    {
        Conclusion {
            num_filtered_out: filtered_out,
            num_passed: 0,
            num_failed: 0,
            num_ignored: 0,
            num_measured: 0,
        }
    }

    /// Counts one more outcome. The count of its sort has to be below the greatest `u64`.
    pub fn count(&mut self, outcome: &Outcome)
        requires { CanCount self.old outcome.now }
        ensures { self.new ≡ counted self.old outcome.now }
    {
        match outcome {
            Outcome::Passed => self.num_passed += 1,
            Outcome::Failed(_) => self.num_failed += 1,
            Outcome::Ignored => self.num_ignored += 1,
            Outcome::Measured(_) => self.num_measured += 1,
        }
    }
}
