//! Writers that fail: what they hold then, what a run returns, and which runners were called.
ghost use Rattle.std.specs.Prelude.{◌^◌, ◌<◌};

use super::faulty_writer::{FAULTS, FULL};
use super::runs::{Left, SCHEDULES, asking, outcome_with, run_by};
use super::{in_all_orders, in_both_orders};
use libtest_mimic::{FormatSetting, Outcome, Schedule, Sink, Spawner, Task, Trial, WriteFault};
use mimic_testkit::{Fault, FaultPlace, FaultyWriter};
use std::alloc::{AllocError, Global};
use std::io::ErrorKind;
use std::process::Abort;
use std::sync::Arc;
use std::sync::atomic::{AtomicU64, Ordering};
use std::test::Fail;

// The reports of two passing tests in JSON.
pub(super) const TWO_PASSING: [&str; 2] = in_both_orders!(
    "{ \"type\": \"suite\", \"event\": \"started\", \"test_count\": 2 }\n",
    "{ \"type\": \"test\", \"event\": \"started\", \"name\": \"a\" }\n{ \"type\": \"test\", \"name\": \"a\", \"event\": \"ok\" }\n",
    "{ \"type\": \"test\", \"event\": \"started\", \"name\": \"b\" }\n{ \"type\": \"test\", \"name\": \"b\", \"event\": \"ok\" }\n",
    "{ \"type\": \"suite\", \"event\": \"ok\", \"passed\": 2, \"failed\": 0, \"ignored\": 0, \"measured\": 0, \"filtered_out\": 0, \"exec_time\": 0 }\n"
);

// A report of some tests, the last of which passes or fails with a message: its text, and those that have its rows in
// another order; how many bytes come before its rows; how many bytes are written, with one thread, before each test runs: all
// up to the end of its announcement; and how many bytes come before its summary, and up to the end of that.
#[derive(Clone, Copy)]
struct Report {
    format: FormatSetting,
    names: &'static [&'static str],
    message: Option<&'static str>,
    texts: &'static [&'static str],
    rows_at: usize,
    runs_at: &'static [usize],
    summary_at: usize,
    len: usize,
}

const PRETTY: Report = Report {
    format: FormatSetting::Pretty,
    names: &["succeeding_test", "failing_test"],
    message: Some("Woops"),
    texts: &in_both_orders!(
        "\nrunning 2 tests\n",
        "test succeeding_test ... ok\n",
        "test failing_test    ... FAILED\n",
        "\nfailures:\n\n---- failing_test ----\nWoops\n\n\nfailures:\n    failing_test\n\ntest result: FAILED. 1 passed; 1 failed; 0 ignored; 0 measured; 0 filtered out; finished in 0.00s\n\n"
    ),
    rows_at: 17,
    runs_at: &[42, 70],
    summary_at: 147,
    len: 247,
};

const TERSE: Report = Report {
    format: FormatSetting::Terse,
    names: &["succeeding_test", "failing_test"],
    message: Some("Woops"),
    texts: &in_both_orders!(
        "\nrunning 2 tests\n",
        ".",
        "F",
        "\nfailures:\n\n---- failing_test ----\nWoops\n\n\nfailures:\n    failing_test\n\ntest result: FAILED. 1 passed; 1 failed; 0 ignored; 0 measured; 0 filtered out; finished in 0.00s\n\n"
    ),
    rows_at: 17,
    runs_at: &[17, 18],
    summary_at: 89,
    len: 189,
};

const JSON: Report = Report {
    format: FormatSetting::Json,
    names: &["succeeding_test", "failing_test"],
    message: Some("Woops"),
    texts: &in_both_orders!(
        "{ \"type\": \"suite\", \"event\": \"started\", \"test_count\": 2 }\n",
        "{ \"type\": \"test\", \"event\": \"started\", \"name\": \"succeeding_test\" }\n{ \"type\": \"test\", \"name\": \"succeeding_test\", \"event\": \"ok\" }\n",
        "{ \"type\": \"test\", \"event\": \"started\", \"name\": \"failing_test\" }\n{ \"type\": \"test\", \"name\": \"failing_test\", \"event\": \"failed\", \"stdout\": \"Error: \\\"Woops\\\"\\n\" }\n",
        "{ \"type\": \"suite\", \"event\": \"failed\", \"passed\": 1, \"failed\": 1, \"ignored\": 0, \"measured\": 0, \"filtered_out\": 0, \"exec_time\": 0 }\n"
    ),
    rows_at: 57,
    runs_at: &[123, 247],
    summary_at: 341,
    len: 470,
};

const JSON_OF_PASSING: Report = Report {
    format: FormatSetting::Json,
    names: &["a", "b"],
    message: None,
    texts: &TWO_PASSING,
    rows_at: 57,
    runs_at: &[109, 208],
    summary_at: 255,
    len: 380,
};

const THREE: Report = Report {
    format: FormatSetting::Pretty,
    names: &["a", "b", "c"],
    message: Some("Woops"),
    texts: &in_all_orders!(
        "\nrunning 3 tests\n",
        "test a ... ok\n",
        "test b ... ok\n",
        "test c ... FAILED\n",
        "\nfailures:\n\n---- c ----\nWoops\n\n\nfailures:\n    c\n\ntest result: FAILED. 2 passed; 1 failed; 0 ignored; 0 measured; 0 filtered out; finished in 0.00s\n\n"
    ),
    rows_at: 17,
    runs_at: &[28, 42, 56],
    summary_at: 111,
    len: 211,
};

// Adds its weight to those of the trials that ran, and becomes its outcome.
#[derive(Drop)]
struct Marks {
    ran: Arc<AtomicU64>,
    weight: u64,
    outcome: Outcome,
}

impl Task for Marks {
    fn run(self, _test_mode: bool) -> Outcome {
        self.ran.fetch_add(self.weight, Ordering::SeqCst);
        self.outcome
    }
}

// A trial of this name and weight that fails with the message, or else passes.
fn marking(
    alloc: Global,
    name: &str,
    weight: u64,
    ran: &Arc<AtomicU64>,
    message: Option<&str>,
) -> Result<Trial<Marks>, AllocError> {
    let name = String::from_str(alloc, name)?;
    let outcome = outcome_with(alloc, message)?;
    let runner = Marks {
        ran: Arc::try_clone(ran)?,
        weight,
        outcome,
    };
    Ok(Trial::new(name, runner))
}

// The weights of the tests.
const WEIGHTS: [u64; 3] = [1, 2, 4];

const FIRST: u64 = 1;

const BOTH: u64 = 3;

// The sums of the weights of the first tests, by how many these are.
const SUMS: [u64; 4] = [0, FIRST, BOTH, 7];

fn sum_of(count: usize) -> Option<u64> {
    SUMS.get(count).copied()
}

// The tests of the report. The last one has its message.
fn tests_of(
    alloc: Global,
    report: &Report,
    ran: &Arc<AtomicU64>,
) -> Result<Vec<Trial<Marks>>, AllocError> {
    let mut tests = Vec::with_capacity(alloc, report.names.len())?;
    for (name, weight) in report.names.iter().zip(&WEIGHTS) {
        let is_last = report.names.last() == Some(name);
        let message = if is_last { report.message } else { None };
        tests.push(marking(alloc, name, *weight, ran, message)?)?;
    }
    Ok(tests)
}

// A report, the most bytes that a write takes, the number of threads, and how trials come to them if they are more than one.
#[derive(Clone, Copy)]
struct Run {
    report: Report,
    most: usize,
    threads: Option<usize>,
    schedule: Schedule,
}

// What the run leaves, and the sum of the weights of the tests that ran. There is none unless all workers have ended: then
// nobody else has the count.
fn run_tests<T: Spawner + 'static>(
    rt: &T,
    alloc: Global,
    run: &Run,
    writer: FaultyWriter,
) -> Result<(Left<FaultyWriter>, Option<u64>), AllocError> {
    let args = asking(alloc, run.report.format, run.threads);
    let ran = Arc::new(alloc, AtomicU64::new(0))?;
    let tests = tests_of(alloc, &run.report, &ran)?;
    let left = run_by(rt, alloc, &args, tests, writer, run.schedule);
    let sum = match Arc::into_inner(ran) {
        Some(ran) => Some(ran.load(Ordering::SeqCst)),
        None => None,
    };
    Ok((left, sum))
}

impl Run {
    fn has_workers(&self) -> bool {
        self.threads.unwrap_or(1) > 1
    }

    // Whether the bytes are a beginning of the report. By workers its rows may come in any order.
    fn begins_with(&self, bytes: &[u8]) -> bool {
        let texts = self.report.texts;
        let orders = if self.has_workers() { texts.len() } else { 1 };
        let mut begins = false;
        for text in texts.iter().take(orders) {
            begins = begins || text.as_bytes().starts_with(bytes);
        }
        begins
    }

    // How many tests have begun with one thread if `len` bytes were written.
    fn begun_at(&self, len: usize) -> usize {
        let mut count: usize = 0;
        for runs_at in self.report.runs_at {
            count = count.saturating_add(usize::from(*runs_at <= len));
        }
        count
    }

    // Whether the tests ran that should have once `len` bytes were written. By workers all run once the title is written; but
    // those that no worker has taken from a queue are not run if the writer fails before all rows are written.
    fn may_have_run(&self, len: usize, sum: Option<u64>) -> bool {
        let report = &self.report;
        let all = sum_of(report.names.len());
        if !self.has_workers() {
            return sum == sum_of(self.begun_at(len));
        }
        if len < report.rows_at {
            return sum == Some(0);
        }
        let may_be_fewer = self.schedule == Schedule::Queue && len < report.summary_at;
        sum == all || may_be_fewer && sum.is_some() && Some(0) < sum && sum < all
    }
}

// Whether the run is stopped when the writer's room is full: what came before is kept, nothing more is asked of the writer, and
// the watch runs on if the summary had not begun.
fn stops_at<T: Spawner + 'static>(
    rt: &T,
    alloc: Global,
    run: &Run,
    writer: FaultyWriter,
    room: usize,
) -> Result<bool, AllocError> {
    let report = &run.report;
    let fault = (room < report.len).then_some(writer.fault);
    let (left, sum) = run_tests(rt, alloc, run, writer)?;
    let bytes = left.writer.bytes.as_slice();
    Ok(
        left.is_stopped_by(fault)
            && bytes.len() == room
            && run.begins_with(bytes)
            && left.is_running == (room < report.summary_at)
            && run.may_have_run(room, sum),
    )
}

// A fault comes at each byte, and behind the last one.
fn check_each_byte<T: Spawner + Abort + 'static>(
    rt: &T,
    alloc: Global,
    run: &Run,
    fault: Fault,
    lasts: bool,
) -> Result<(), AllocError> {
    for room in 0..=run.report.len {
        let mut writer = FaultyWriter::new(alloc)
            .taking(run.most)
            .failing(FaultPlace::Byte(room), fault);
        writer.lasts = lasts;
        assert!(rt; stops_at(rt, alloc, run, writer, room)?, "at {room}");
    }
    Ok(())
}

// Writes of one byte fail in one way, and whole writes in each.
fn check_faults<T: Spawner + Abort + 'static>(
    rt: &T,
    alloc: Global,
    run: &Run,
) -> Result<(), AllocError> {
    for text in run.report.texts {
        assert!(rt; text.len() == run.report.len);
    }
    if run.most == 1 {
        return check_each_byte(rt, alloc, run, FULL, false);
    }
    for (fault, lasts) in &FAULTS {
        check_each_byte(rt, alloc, run, *fault, *lasts)?;
    }
    Ok(())
}

macro_rules! run {
    ($report:expr, $most:expr, $threads:expr) => {
        run!($report, $most, $threads, Schedule::Shares)
    };
    ($report:expr, $most:expr, $threads:expr, $schedule:expr) => {
        Run {
            report: $report,
            most: $most,
            threads: $threads,
            schedule: $schedule,
        }
    };
}

static BY_ONE_THREAD: [Run; 7] = [
    run!(PRETTY, 1, None),
    run!(PRETTY, 1, Some(1)),
    run!(PRETTY, usize::MAX, None),
    run!(TERSE, 1, None),
    run!(TERSE, usize::MAX, Some(1)),
    run!(JSON, 1, None),
    run!(JSON, usize::MAX, Some(1)),
];

// After a fault what came before it is kept and nothing more is asked of the writer, be that well again or not; the
// watch runs on if the summary had not begun.
#[test]
fn stops_at_each_byte(rt: HostRuntime) -> Result<(), Fail> {
    for run in &BY_ONE_THREAD {
        check_faults(&rt, rt.alloc(), run)?;
    }
    Ok(())
}

static BY_WORKERS: [Run; 13] = [
    run!(PRETTY, 1, Some(2), Schedule::Shares),
    run!(PRETTY, usize::MAX, Some(2), Schedule::Shares),
    run!(TERSE, 1, Some(2), Schedule::Shares),
    run!(JSON_OF_PASSING, 1, Some(2), Schedule::Shares),
    run!(JSON_OF_PASSING, usize::MAX, Some(2), Schedule::Shares),
    run!(THREE, usize::MAX, Some(3), Schedule::Shares),
    run!(PRETTY, 1, Some(2), Schedule::Queue),
    run!(PRETTY, usize::MAX, Some(2), Schedule::Queue),
    run!(TERSE, 1, Some(2), Schedule::Queue),
    run!(JSON_OF_PASSING, 1, Some(2), Schedule::Queue),
    run!(JSON_OF_PASSING, usize::MAX, Some(2), Schedule::Queue),
    run!(THREE, 1, Some(3), Schedule::Queue),
    run!(THREE, usize::MAX, Some(3), Schedule::Queue),
];

// With two or three workers the rows come in any order; all else is as with one thread, but all tests run once the title is
// written, or from a queue those that workers have taken.
#[test]
fn stops_workers_at_each_byte(rt: HostRuntime) -> Result<(), Fail> {
    for run in &BY_WORKERS {
        check_faults(&rt, rt.alloc(), run)?;
    }
    Ok(())
}

// How a flush fails.
static FLUSH_FAULTS: [Fault; 3] = [
    FULL,
    Fault::Error(ErrorKind::BrokenPipe),
    Fault::Error(ErrorKind::Interrupted),
];

// A report, the flush that fails, how many bytes are written then, and the weights of the tests that ran.
struct Flush {
    report: Report,
    number: u64,
    len: usize,
    ran: u64,
}

macro_rules! flush {
    ($report:expr, $number:expr, $len:expr, $ran:expr) => {
        Flush {
            report: $report,
            number: $number,
            len: $len,
            ran: $ran,
        }
    };
}

// Pretty flushes after each announcement and once at the end, the others once at the end.
static FLUSHES: [Flush; 5] = [
    flush!(PRETTY, 1, 42, 0),
    flush!(PRETTY, 2, 70, FIRST),
    flush!(PRETTY, 3, 247, BOTH),
    flush!(TERSE, 1, 189, BOTH),
    flush!(JSON, 1, 470, BOTH),
];

// Whether a run by this number of threads is stopped by the flush.
fn stops_at_flush<T: Spawner + 'static>(
    rt: &T,
    alloc: Global,
    flush: &Flush,
    fault: Fault,
    threads: Option<usize>,
) -> Result<bool, AllocError> {
    let writer = FaultyWriter::new(alloc).failing(FaultPlace::Flush(flush.number), fault);
    let run = run!(flush.report, usize::MAX, threads);
    let (left, sum) = run_tests(rt, alloc, &run, writer)?;
    let bytes = left.writer.bytes.as_slice();
    Ok(
        left.is_stopped_by(Some(fault))
            && bytes.len() == flush.len
            && run.begins_with(bytes)
            && left.is_running == (flush.len < flush.report.summary_at)
            && sum == Some(flush.ran),
    )
}

#[test]
fn stops_at_each_flush(rt: HostRuntime) -> Result<(), Fail> {
    for flush in &FLUSHES {
        for fault in FLUSH_FAULTS {
            assert!(rt; stops_at_flush(&rt, rt.alloc(), flush, fault, None)?);
            assert!(rt; stops_at_flush(&rt, rt.alloc(), flush, fault, Some(1))?);
        }
    }
    Ok(())
}

// Whether a run by two workers is stopped by the flush of this number, if there are that many. Behind a flush that fails
// nothing is written.
fn stops_workers<T: Spawner + 'static>(
    rt: &T,
    alloc: Global,
    run: &Run,
    fault: Fault,
    number: u64,
    flushes: u64,
) -> Result<bool, AllocError> {
    let writer = FaultyWriter::new(alloc).failing(FaultPlace::Flush(number), fault);
    let (left, sum) = run_tests(rt, alloc, run, writer)?;
    let bytes = left.writer.bytes.as_slice();
    let is_whole = bytes.len() == run.report.len;
    Ok(
        left.is_stopped_by((number <= flushes).then_some(fault))
            && run.begins_with(bytes)
            && is_whole == (number >= flushes)
            && (is_whole || bytes.ends_with(b" ... "))
            && run.may_have_run(bytes.len(), sum),
    )
}

// With two workers there are as many flushes as with one thread: `flushes`, of which each fails in each way, and one more
// doesn't.
fn check_flushes<T: Spawner + Abort + 'static>(
    rt: &T,
    alloc: Global,
    run: &Run,
    flushes: u64,
) -> Result<(), AllocError>
    requires { flushes < 2 ^ 32 }
{
    for fault in FLUSH_FAULTS {
        for number in 1..=flushes + 1 {
            assert!(rt; stops_workers(rt, alloc, run, fault, number, flushes)?);
        }
    }
    Ok(())
}

#[test]
fn stops_workers_at_each_flush(rt: HostRuntime) -> Result<(), Fail> {
    for schedule in SCHEDULES {
        for (report, flushes) in [(PRETTY, 3), (TERSE, 1), (JSON_OF_PASSING, 1)] {
            let run = run!(report, usize::MAX, Some(2), schedule);
            check_flushes(&rt, rt.alloc(), &run, flushes)?;
        }
    }
    Ok(())
}

#[test]
fn puts_nothing_into_a_full_writer(rt: HostRuntime) -> Result<(), Fail> {
    let writer = FaultyWriter::new(rt.alloc()).failing(FaultPlace::Byte(0), FULL);
    let mut sink = Sink::new(writer.for_ever());
    assert!(rt; sink.put(b"").is_ok());
    assert!(rt; sink.faults() == 0);
    assert!(rt; matches!(sink.put(b"a"), Err(WriteFault::Error(_))));
    assert!(rt; sink.faults() == 1);
    Ok(())
}
