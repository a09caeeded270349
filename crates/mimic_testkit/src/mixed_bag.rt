//! The trials of `harness`: tests and benchmarks with and without a kind, ignored and not, of every outcome.
ghost use Rattle.std.specs.Prelude.{◌≡◌, IfErr, IfOk, Some, length};
ghost use Rattle.std.specs.Result.{is_ok};

use Answer::{Benchmark, Test};
use libtest_mimic::{Failed, Measurement, Outcome, Task, TestInfo, Trial};
use std::alloc::{AllocError, Global};

/// What is known of a trial, and what its runner answers.
pub struct Entry {
    /// Its name.
    pub name: &'static str,
    /// Its kind, which may be empty.
    pub kind: &'static str,
    /// Whether it has the ignored flag.
    pub is_ignored: bool,
    /// What its runner answers.
    pub answer: Answer,
}

/// What a runner answers: the message if it fails, else nothing for a test, and the average and variance for a benchmark.
#[derive(Clone, Copy)]
pub enum Answer {
    /// That of a test.
    Test(Result<(), &'static str>),
    /// That of a benchmark, the same in both modes.
    Benchmark(Result<(u64, u64), &'static str>),
}

macro_rules! entries {
    ($(($name:literal, $kind:literal, $is_ignored:literal, $answer:expr),)*) => {
        [$(Entry { name: $name, kind: $kind, is_ignored: $is_ignored, answer: $answer }),*]
    };
}

/// The 17 trials of the Rust crate's example `mixed_bag`.
pub static MIXED_BAG: [Entry; 17] = entries![
    ("cat", "", false, Test(Ok(()))),
    ("\"ups\"", "", false, Test(Err("failed to parse \"abc\""))),
    ("dog", "", false, Test(Err("was not a good boy"))),
    ("fox", "apple", false, Test(Ok(()))),
    ("bunny", "apple", false, Test(Err("jumped too high"))),
    ("frog", "", true, Test(Ok(()))),
    ("owl", "", true, Test(Err("broke neck"))),
    ("fly", "banana", true, Test(Ok(()))),
    ("bear", "banana", true, Test(Err("no honey"))),
    ("red", "", false, Benchmark(Ok((32, 3)))),
    ("blue", "", false, Benchmark(Err("sky fell down"))),
    ("yellow", "kiwi", false, Benchmark(Ok((64, 4)))),
    ("green", "kiwi", false, Benchmark(Err("was poisoned"))),
    ("purple", "", true, Benchmark(Ok((100, 5)))),
    ("cyan", "", true, Benchmark(Err("not creative enough"))),
    ("orange", "banana", true, Benchmark(Ok((17, 6)))),
    ("pink", "banana", true, Benchmark(Err("bad"))),
];

/// What the runner of a test answers, in memory that is taken before any trial runs.
pub fn test_answer(
    alloc: Global,
    answer: &Result<(), &'static str>,
) -> Result<Result<(), Failed>, AllocError>
    ensures passed { IfOk result (λ made. is_ok made ≡ is_ok answer.now) }
    ensures message { IfOk result
        (λ made. IfErr made (λ failed. IfErr answer.now (λ message. failed ≡ Some message.now))) }
{
    Ok(match answer {
        Ok(()) => Ok(()),
        Err(message) => Err(Failed::with_message(String::from_str(alloc, message)?)),
    })
}

/// What the runner of a benchmark answers, in memory that is taken before any trial runs.
pub fn benchmark_answer(
    alloc: Global,
    answer: &Result<(u64, u64), &'static str>,
) -> Result<Result<Option<Measurement>, Failed>, AllocError>
    ensures passed { IfOk result (λ made. is_ok made ≡ is_ok answer.now) }
    ensures measured { IfOk result (λ made. IfOk made (λ measurement. IfOk answer.now (λ pair.
        measurement ≡ Some (record { avg = pair.0; variance = pair.1 })))) }
    ensures message { IfOk result
        (λ made. IfErr made (λ failed. IfErr answer.now (λ message. failed ≡ Some message.now))) }
{
    Ok(match answer {
        Ok((avg, variance)) => Ok(Some(Measurement {
            avg: *avg,
            variance: *variance,
        })),
        Err(message) => Err(Failed::with_message(String::from_str(alloc, message)?)),
    })
}

/// A runner that becomes what an entry says. It is plain data, so a trial of it needs no box.
#[derive(Drop)]
pub enum Known {
    /// It passes in both modes.
    Passes,
    /// It fails in both modes.
    Fails(Failed),
    /// It passes in test mode, and else measures this.
    Measures(Measurement),
}

impl Task for Known {
    fn run(self, test_mode: bool) -> Outcome {
        match self {
            Known::Measures(measurement) if !test_mode => Outcome::Measured(measurement),
            Known::Passes | Known::Measures(_) => Outcome::Passed,
            Known::Fails(failed) => Outcome::Failed(failed),
        }
    }
}

impl Known {
    // What the answer says, in memory that is taken before any trial runs.
    fn of_answer(alloc: Global, answer: &Answer) -> Result<Known, AllocError> {
        Ok(match answer {
            Test(Ok(())) => Known::Passes,
            Benchmark(Ok((avg, variance))) => Known::Measures(Measurement {
                avg: *avg,
                variance: *variance,
            }),
            Test(Err(message)) | Benchmark(Err(message)) => {
                Known::Fails(Failed::with_message(String::from_str(alloc, message)?))
            }
        })
    }
}

/// The trials of a table of entries, in their order, each over plain data.
pub fn known_trials(alloc: Global, entries: &[Entry]) -> Result<Vec<Trial<Known>>, AllocError>
    ensures { IfOk result (λ trials. length trials.items ≡ length entries.now) }
{
    let mut trials = Vec::with_capacity(alloc, entries.len())?;
    for entry in entries {
        let info = TestInfo {
            name: String::from_str(alloc, entry.name)?,
            kind: String::from_str(alloc, entry.kind)?,
            is_ignored: entry.is_ignored,
            is_bench: matches!(entry.answer, Benchmark(_)),
        };
        let runner = Known::of_answer(alloc, &entry.answer)?;
        trials.push(Trial::from_parts(info, runner))?;
    }
    Ok(trials)
}

/// The trials of a table of entries, over boxed closures. This is a macro since boxed closures are to be made by the function
/// that hands them in.
#[macro_export]
macro_rules! trials_of {
    ($alloc:expr, $table:expr) => {{
        let mut trials = Vec::new($alloc);
        for entry in &$table {
            let name = String::from_str($alloc, entry.name)?;
            let trial = match &entry.answer {
                $crate::Answer::Test(answer) => {
                    let answer = $crate::test_answer($alloc, answer)?;
                    let runner: Box<dyn FnOnce() -> Result<(), Failed> + Send> = Box::new($alloc, move || answer)?;
                    Trial::test(name, runner)
                }
                $crate::Answer::Benchmark(answer) => {
                    let answer = $crate::benchmark_answer($alloc, answer)?;
                    let runner: Box<dyn FnOnce(bool) -> Result<Option<Measurement>, Failed> + Send> =
                        Box::new($alloc, move |_test_mode: bool| answer)?;
                    Trial::bench(name, runner)
                }
            };
            let kind = String::from_str($alloc, entry.kind)?;
            trials.push(trial.with_kind(kind).with_ignored_flag(entry.is_ignored))?;
        }
        trials
    }};
}
