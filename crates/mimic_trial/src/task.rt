//! What a trial runs, and tests that differ in their input alone.
ghost use Rattle.std.specs.Prelude.{◌≡◌, Bool, IfOk};
ghost use Rattle.mimic_trial.specs.declared.outcome.Outcome.{Outcome as AnOutcome};
ghost use Rattle.mimic_trial.specs.Promise.{Answer, IsOutcomeOf};
ghost use Rattle.mimic_trial.specs.Case.{AreTestsOf};

use crate::outcome::failed::Failed;
use crate::outcome::{Outcome, run_single};
use crate::runner::Runner;
use crate::trial::Trial;
use std::alloc::{AllocError, Global};
use std::convert::AsStr;

/// Something that runs once and yields an outcome: your own type, a closure or a boxed closure.
///
/// An `impl` may say which outcomes it gives, and a report then shows one of these. If it says nothing, a report may show
/// any outcome, also `Ignored`.
pub trait Task: Drop {
    /// Whether it may be run. If an `impl` says nothing, it always may.
    ghost can_run: { Self → Type 0 } = { λ _. Unit {0} };

    /// The outcomes that it may give, by whether the mode is the test mode. If an `impl` says nothing, these are all.
    ghost gives: { Self → Bool → AnOutcome → Type 0 } = { λ _ _ _. Unit {0} };

    /// Runs it. In test mode a benchmark is to run its code once, and in bench mode it is to measure.
    fn run(self, test_mode: bool) -> Outcome
        requires { can_run self }
        ensures { gives self test_mode result };
}

impl Task for Runner {
    ghost use Rattle.mimic_trial.specs.Promise.{PromisesOutcome};

    ghost gives = { λ runner mode o. PromisesOutcome runner mode o };

    // An outcome is large: to pass it on through a call takes a tenth of a trial's time.
    #[inline(always)]
    fn run(self, test_mode: bool) -> Outcome {
        run_single(self, test_mode)
    }
}

/// A test: something that is checked once, in either mode. It passes if its check returns `Ok`.
///
/// An `impl` may say which answers it gives, and a report then shows the outcome of one of these.
pub trait Check: Drop {
    /// Whether it may be checked. If an `impl` says nothing, it always may.
    ghost can_check: { Self → Type 0 } = { λ _. Unit {0} };

    /// The answers that it may give. If an `impl` says nothing, these are all.
    ghost answers: { Self → Answer → Type 0 } = { λ _ _. Unit {0} };

    /// Checks it.
    fn check(self) -> Result<(), Failed>
        requires { can_check self }
        ensures { answers self result };
}

impl<C: Check> Task for C {
    ghost use Rattle.mimic_trial.specs.Promise.{outcome_of_test};

    ghost can_run = { λ test. C.can_check test };

    ghost gives = { λ test _ o. (answer : _) × C.answers test answer × (o ≡ outcome_of_test answer) };

    fn run(self, _test_mode: bool) -> Outcome {
        self.check().into()
    }
}

/// A closure that no box holds is a test: it passes if it returns `Ok`.
impl<F: FnOnce() -> Result<(), Failed> + Drop> Check for F {
    ghost can_check = { λ test. F.pre test };

    ghost answers = { λ test answer. F.post test answer };

    fn check(self) -> Result<(), Failed> {
        self()
    }
}

/// Runs what isn't ignored, and drops what is without a call.
#[inline(always)]
pub fn run_unless<T: Task>(ignored: bool, task: T, test_mode: bool) -> Outcome
    requires { T.can_run task }
    ensures { IsOutcomeOf T.gives ignored task test_mode result }
{
    if ignored {
        Outcome::Ignored
    } else {
        task.run(test_mode)
    }
}

/// What runs a case: its input, and the check that all cases share. It passes if the check returns `Ok`.
#[derive(Drop)]
pub struct Case<D: Drop, F: Drop> {
    input: D,
    check: F,
}

impl<D: Drop, F: FnOnce(D) -> Result<(), Failed> + Drop> Task for Case<D, F> {
    ghost use Rattle.mimic_trial.specs.Case.{OutcomesOf};

    ghost can_run = { λ case. F.pre case.check case.input };

    ghost gives = { OutcomesOf F.post };

    fn run(self, _test_mode: bool) -> Outcome {
        let check = self.check;
        check(self.input).into()
    }
}

impl<D: Drop, F: Copy + Drop> Trial<Case<D, F>> {
    /// Makes a test of each case, in their order. A case is a name and an input, and all have the same check.
    pub fn of_cases<N: AsStr + Drop>(
        alloc: Global,
        cases: Vec<(N, D)>,
        check: F,
    ) -> Result<Vec<Self>, AllocError>
        ensures { IfOk result (λ trials. AreTestsOf N.text check cases.items trials.items) }
    {
        let mut trials = Vec::with_capacity(alloc, cases.len())?;
        for (name, input) in cases {
            let name = String::from_str(alloc, name.as_str())?;
            trials.push(Trial::new(name, Case { input, check }))?;
        }
        Ok(trials)
    }
}
