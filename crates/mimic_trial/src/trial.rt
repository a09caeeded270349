//! Tests and benchmarks.
ghost use Rattle.std.specs.Prelude.{◌≡◌, ◌↔◌, string_bytes, [], true, false, not};

use crate::outcome::Measurement;
use crate::outcome::failed::Failed;
use crate::runner::{BenchRunner, Runner, TestRunner};
use std::fmt;

/// What is known of a trial before it runs.
#[derive(Debug, Drop)]
pub struct TestInfo {
    /// The name, which rows show. Filters and skip patterns look at it with the kind before it.
    pub name: String,
    /// The kind, shown in brackets before the name. Most trials have none: it is empty.
    pub kind: String,
    /// Whether the trial is ignored if the arguments don't ask for ignored trials.
    pub is_ignored: bool,
    /// Whether the trial is a benchmark.
    pub is_bench: bool,
}

/// A test or a benchmark: what is known of it, and how to run it.
#[derive(Drop)]
pub struct Trial<R = Runner> {
    info: TestInfo,
    runner: R,
}

impl Trial {
    ghost use Rattle.mimic_trial.specs.Promise.{PromisesOutcome, outcome_of_test, outcome_of_bench};
    ghost use Rattle.mimic_trial.specs.Trial.{info_of, runner_of};

    /// Makes a test without a kind and without the ignored flag. It passes if the runner returns `Ok`.
    pub fn test(name: String, runner: Box<dyn FnOnce() -> Result<(), Failed> + Send>) -> Self
        requires { pre runner }
        ensures name { string_bytes (info_of result).name ≡ string_bytes name }
        ensures kind { string_bytes (info_of result).kind ≡ [] }
        ensures flag { (info_of result).is_ignored ≡ false }
        ensures sort { (info_of result).is_bench ≡ false }
        ensures promise { (mode : _) (o : _) → PromisesOutcome (runner_of result) mode o
            ↔ ((answer : _) × post runner answer × (o ≡ outcome_of_test answer)) }
    {
        Trial::new(name, Runner::Test(TestRunner::new(runner)))
    }

    /// Makes a benchmark without a kind and without the ignored flag.
    ///
    /// In test mode the runner is to run its code once and need not measure. In bench mode it is to
    /// measure, and the benchmark fails if it returns `Ok(None)`.
    pub fn bench(
        name: String,
        runner: Box<dyn FnOnce(bool) -> Result<Option<Measurement>, Failed> + Send>,
    ) -> Self
        requires { IsAlwaysCallable runner }
        ensures name { string_bytes (info_of result).name ≡ string_bytes name }
        ensures kind { string_bytes (info_of result).kind ≡ [] }
        ensures flag { (info_of result).is_ignored ≡ false }
        ensures sort { (info_of result).is_bench ≡ true }
        ensures promise { (mode : _) (o : _) → PromisesOutcome (runner_of result) mode o
            ↔ ((answer : _) × post runner mode answer × (o ≡ outcome_of_bench mode answer)) }
    {
        let mut trial = Trial::new(name, Runner::Bench(BenchRunner::new(runner)));
        trial.info.is_bench = true;
        trial
    }
}

impl<R> Trial<R> {
    ghost use Rattle.mimic_trial.specs.Trial.{info_of, runner_of};

    /// Makes a test without a kind and without the ignored flag, over any runner. Its outcome is what the runner gives.
    pub fn new(name: String, runner: R) -> Self
        ensures name { string_bytes (info_of result).name ≡ string_bytes name }
        ensures kind { string_bytes (info_of result).kind ≡ [] }
        ensures flag { (info_of result).is_ignored ≡ false }
        ensures sort { (info_of result).is_bench ≡ false }
        ensures runner { runner_of result ≡ runner }
    {
        let kind = String::new(*name.allocator());
        Trial {
            info: TestInfo {
                name,
                kind,
                is_ignored: false,
                is_bench: false,
            },
            runner,
        }
    }

    /// Makes a trial of what is known of it and any runner. It may be a benchmark.
    pub fn from_parts(info: TestInfo, runner: R) -> Self
        ensures info { info_of result ≡ info }
        ensures runner { runner_of result ≡ runner }
    {
        Trial { info, runner }
    }

    /// Gives the trial this kind, which rows show in brackets before the name.
    pub fn with_kind(mut self, kind: String) -> Self
        ensures info { info_of result ≡ record (info_of self) { kind = kind } }
        ensures runner { runner_of result ≡ runner_of self }
    {
        self.info.kind = kind;
        self
    }

    /// Marks the trial as ignored or not.
    ///
    /// An ignored trial is not run if the arguments have neither `ignored` nor `include_ignored`.
    /// With `ignored`, trials that are not marked are not even selected.
    pub fn with_ignored_flag(mut self, is_ignored: bool) -> Self
        ensures info { info_of result ≡ record (info_of self) { is_ignored = is_ignored } }
        ensures runner { runner_of result ≡ runner_of self }
    {
        self.info.is_ignored = is_ignored;
        self
    }

    /// Returns the name.
    pub fn name(&self) -> &str
        ensures { result.now ≡ string_bytes (info_of self.now).name }
    {
        self.info.name.as_str()
    }

    /// Returns the kind, which is empty if none was set.
    pub fn kind(&self) -> &str
        ensures { result.now ≡ string_bytes (info_of self.now).kind }
    {
        self.info.kind.as_str()
    }

    /// Whether the trial is marked as ignored.
    pub fn has_ignored_flag(&self) -> bool
        ensures { result ≡ (info_of self.now).is_ignored }
    {
        self.info().is_ignored
    }

    /// Whether the trial is a test.
    pub fn is_test(&self) -> bool
        ensures { result ≡ not (info_of self.now).is_bench }
    {
        !self.is_bench()
    }

    /// Whether the trial is a benchmark.
    pub fn is_bench(&self) -> bool
        ensures { result ≡ (info_of self.now).is_bench }
    {
        self.info.is_bench
    }

    /// Returns what is known of the trial before it runs.
    pub fn info(&self) -> &TestInfo
        ensures { result.now ≡ info_of self.now }
    {
        &self.info
    }

    /// Takes the trial apart: what is known of it, and its runner.
    pub fn into_parts(self) -> (TestInfo, R)
        ensures info { result.0 ≡ info_of self }
        ensures runner { result.1 ≡ runner_of self }
    {
        (self.info, self.runner)
    }
}

// This stands for a runner, of which there is nothing to show.
struct OpaqueRunner;

impl fmt::Debug for OpaqueRunner {
    fn fmt<W: fmt::Write>(&self, f: &mut fmt::Formatter<W>) -> fmt::Result {
        f.write_str("<runner>")
    }
}

// Shows a trial as the Rust crate does.
impl<R> fmt::Debug for Trial<R> {
    fn fmt<W: fmt::Write>(&self, f: &mut fmt::Formatter<W>) -> fmt::Result {
        let TestInfo {
            name,
            kind,
            is_ignored,
            is_bench,
        } = &self.info;
        f.debug_struct("Test")
            .field("runner", &OpaqueRunner)
            .field("name", name)
            .field("kind", kind)
            .field("is_ignored", is_ignored)
            .field("is_bench", is_bench)
            .finish()
    }
}
