//! What runs a trial: the caller's boxed closure, with the fact that it may be called.
use crate::outcome::Measurement;
use crate::outcome::failed::Failed;

/// The runner of a test. It can be called once.
#[derive(Drop)]
pub struct TestRunner {
    boxed: Box<dyn FnOnce() -> Result<(), Failed> + Send>,
    ghost callable: { pre boxed },
}

impl TestRunner {
    ghost use Rattle.std.specs.Prelude.{◌↔◌};
    ghost use Rattle.mimic_trial.specs.Promise.{TestAnswers};

    /// Makes a runner that promises the answers which the box promises.
    pub fn new(boxed: Box<dyn FnOnce() -> Result<(), Failed> + Send>) -> Self
        requires { pre boxed }
        ensures { (answer : _) → TestAnswers result answer ↔ post boxed answer }
    {
        TestRunner { boxed }
    }

    /// Makes the one call of the box, and returns what it returns.
    pub fn call(self) -> Result<(), Failed>
        ensures { TestAnswers self result }
    {
        let TestRunner { boxed } = self;
        boxed()
    }
}

/// The runner of a benchmark. It can be called once, in test mode or in bench mode.
#[derive(Drop)]
pub struct BenchRunner {
    boxed: Box<dyn FnOnce(bool) -> Result<Option<Measurement>, Failed> + Send>,
    ghost callable: { IsAlwaysCallable boxed },
}

impl BenchRunner {
    ghost use Rattle.std.specs.Prelude.{◌↔◌};
    ghost use Rattle.mimic_trial.specs.Promise.{BenchAnswers};

    /// Makes a runner that promises, in each mode, the answers which the box promises.
    pub fn new(boxed: Box<dyn FnOnce(bool) -> Result<Option<Measurement>, Failed> + Send>) -> Self
        requires { IsAlwaysCallable boxed }
        ensures { (mode : _) (answer : _) → BenchAnswers result mode answer
            ↔ post boxed mode answer }
    {
        BenchRunner { boxed }
    }

    /// Makes the one call of the box, and returns what it returns. In test mode the benchmark is only
    /// run, and in bench mode it is measured.
    pub fn call(self, test_mode: bool) -> Result<Option<Measurement>, Failed>
        ensures { BenchAnswers self test_mode result }
    {
        let BenchRunner { boxed } = self;
        boxed(test_mode)
    }
}

/// What runs a trial.
#[derive(Drop)]
pub enum Runner {
    /// Runs a test.
    Test(TestRunner),
    /// Runs a benchmark.
    Bench(BenchRunner),
}
