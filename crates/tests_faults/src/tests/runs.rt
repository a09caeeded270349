//! Runs of trials that are plain data, into writers that may fail.
ghost use Rattle.std.specs.Prelude.{◌≤◌, IfSome};
ghost use Rattle.mimic_trial.specs.Trial.{AllCanRun};

use libtest_mimic::{
    Arguments, Conclusion, Failed, FormatSetting, Outcome, RunError, Schedule, Sink, Spawner,
    Stopwatch, Task, Trial, WriteFault, run, run_from_queue, run_here,
};
use mimic_testkit::{Fault, FaultyWriter, TwoReadings};
use std::alloc::{AllocError, Global};
use std::io::Write;

// A runner that becomes this outcome. It takes no memory.
#[derive(Drop)]
pub(super) struct Becomes(pub(super) Outcome);

impl Task for Becomes {
    fn run(self, _test_mode: bool) -> Outcome {
        self.0
    }
}

// A failure with the message, or else a pass.
pub(super) fn outcome_with(alloc: Global, message: Option<&str>) -> Result<Outcome, AllocError> {
    match message {
        Some(message) => {
            let message = String::from_str(alloc, message)?;
            Ok(Outcome::Failed(Failed::with_message(message)))
        }
        None => Ok(Outcome::Passed),
    }
}

// A trial of this name that fails with the message, or else passes.
pub(super) fn becoming(
    alloc: Global,
    name: &str,
    message: Option<&str>,
) -> Result<Trial<Becomes>, AllocError> {
    let outcome = outcome_with(alloc, message)?;
    Ok(Trial::new(String::from_str(alloc, name)?, Becomes(outcome)))
}

// What asks for this format and this number of threads.
pub(super) fn asking(alloc: Global, format: FormatSetting, threads: Option<usize>) -> Arguments {
    let mut args = Arguments::new(alloc);
    args.format = Some(format);
    args.test_threads = threads;
    args
}

// A writer that has its room.
pub(super) fn roomy(alloc: Global) -> Result<FaultyWriter, AllocError> {
    let mut writer = FaultyWriter::new(alloc);
    writer.bytes = Vec::with_capacity(alloc, 1000)?;
    Ok(writer)
}

// What a run leaves.
#[derive(Drop)]
pub(super) struct Left<W> {
    pub(super) answer: Result<Conclusion, RunError>,
    pub(super) faults: u64,
    // Whether its sink keeps no fault.
    pub(super) is_ended: bool,
    pub(super) writer: W,
    pub(super) is_running: bool,
}

impl<W> Left<W> {
    // How many trials passed, failed, were ignored, were measured and were filtered out, unless the run was refused.
    pub(super) fn counts(&self) -> Option<[u64; 5]> {
        match &self.answer {
            Ok(counts) => Some([
                counts.num_passed,
                counts.num_failed,
                counts.num_ignored,
                counts.num_measured,
                counts.num_filtered_out,
            ]),
            Err(_) => None,
        }
    }
}

impl Left<FaultyWriter> {
    // Whether the run was refused for this fault, which it counted once, or not refused if there is none; and asked
    // nothing of the writer after it.
    pub(super) fn is_stopped_by(&self, fault: Option<Fault>) -> bool {
        let is_told = match (&self.answer, fault) {
            (Ok(_), None) | (Err(RunError::Write(WriteFault::Zero)), Some(Fault::TakesNone)) =>
                true,
            (Err(RunError::Write(WriteFault::Error(error))), Some(Fault::Error(kind))) => {
                error.kind() == kind
            }
            _ => false,
        };
        is_told
            && self.is_ended
            && self.faults == u64::from(fault.is_some())
            && self.writer.calls_after == 0
    }
}

// How trials come to workers.
pub(super) const SCHEDULES: [Schedule; 2] = [Schedule::Shares, Schedule::Queue];

// How trials come to workers, and how many of these there are if the arguments leave it open.
#[derive(Clone, Copy)]
pub(super) struct Workers {
    pub(super) schedule: Schedule,
    pub(super) count: usize,
}

// By workers, as many as the arguments say, or else as there are; by the calling thread if there are none.
pub(super) fn run_with<R: Task + Send + 'static, W: Write, T: Spawner + 'static>(
    rt: &T,
    alloc: Global,
    args: &Arguments,
    tests: Vec<Trial<R>>,
    writer: W,
    workers: Option<Workers>,
) -> Left<W>
    requires runnable { AllCanRun R.can_run tests.items }
    requires some_thread { IfSome workers (λ some. 1 ≤ some.count) }
{
    let mut sink = Sink::new(writer);
    let mut watch = Stopwatch::new(TwoReadings::still());
    let answer = match workers {
        None => run_here(alloc, args, tests, &mut sink, &mut watch, false),
        Some(Workers { schedule, count }) => match schedule {
            Schedule::Shares => run(rt, alloc, args, tests, &mut sink, &mut watch, count, false),
            Schedule::Queue => run_from_queue(
                rt, alloc, args, tests, &mut sink, &mut watch, count, false,
            ),
        },
    };
    Left {
        answer,
        faults: sink.faults(),
        is_ended: !sink.has_fault(),
        writer: sink.into_inner(),
        is_running: watch.is_running(),
    }
}

// By workers if the arguments give a number of threads, to which trials come by the schedule, else by the calling thread.
pub(super) fn run_by<R: Task + Send + 'static, W: Write, T: Spawner + 'static>(
    rt: &T,
    alloc: Global,
    args: &Arguments,
    tests: Vec<Trial<R>>,
    writer: W,
    schedule: Schedule,
) -> Left<W>
    requires { AllCanRun R.can_run tests.items }
{
    if args.test_threads.is_some() {
        let workers = Workers { schedule, count: 1 };
        run_with(rt, alloc, args, tests, writer, Some(workers))
    } else {
        run_with(rt, alloc, args, tests, writer, None)
    }
}

// The same by workers that have shares.
pub(super) fn run_into<R: Task + Send + 'static, T: Spawner + 'static>(
    rt: &T,
    alloc: Global,
    args: &Arguments,
    tests: Vec<Trial<R>>,
    writer: FaultyWriter,
) -> Left<FaultyWriter>
    requires { AllCanRun R.can_run tests.items }
{
    run_by(rt, alloc, args, tests, writer, Schedule::Shares)
}
