//! Runs in worker threads: that workers run at the same time, which trials wait for others, that rows come as trials end, that each
//! of many trials runs once, and runs without a thread.
use super::runs::{Becomes, Left, SCHEDULES, Workers, asking, outcome_with, run_by, run_with};
use super::writers::TWO_PASSING;
use libtest_mimic::{
    Arguments, Failed, FormatSetting, Measurement, Outcome, RunError, Schedule, Spawner, Task,
    Trial,
};
use std::alloc::{AllocError, Global};
use std::io::Write;
use std::process::ExitCode;
use std::rt::Clock;
use std::sync::Arc;
use std::sync::atomic::{AtomicU64, Ordering};
use std::test::Fail;
use std::time::Duration;
use std::{io, thread};

// How often a trial looks for the others, a millisecond apart, before it gives up.
const TURNS: u64 = 30_000;

// How often a trial that is to give up looks.
const FEW_TURNS: u64 = 100;

// Whether the count reaches the number in time.
fn reaches_in_time<M: Clock>(machine: &M, turns: u64, count: &AtomicU64, number: u64) -> bool {
    for _ in 0..turns {
        if count.load(Ordering::SeqCst) >= number {
            return true;
        }
        thread::sleep(machine, Duration::from_millis(1));
    }
    false
}

// Counts itself, and passes if the count reaches the awaited number in time; else it fails with the message.
#[derive(Drop)]
struct Meets<M> {
    machine: M,
    turns: u64,
    count: Arc<AtomicU64>,
    awaited: u64,
    not_met: String,
}

impl<M: Clock + Drop> Task for Meets<M> {
    fn run(self, _test_mode: bool) -> Outcome {
        self.count.fetch_add(1, Ordering::SeqCst);
        if reaches_in_time(&self.machine, self.turns, &self.count, self.awaited) {
            return Outcome::Passed;
        }
        Outcome::Failed(Failed::with_message(self.not_met))
    }
}

fn new_count(alloc: Global) -> Result<Arc<AtomicU64>, AllocError> {
    Ok(Arc::new(alloc, AtomicU64::new(0))?)
}

// A trial of this name that awaits the number for `turns` turns.
fn meeting<M: Clock + Drop>(
    machine: M,
    alloc: Global,
    name: &str,
    turns: u64,
    count: &Arc<AtomicU64>,
    awaited: u64,
) -> Result<Trial<Meets<M>>, AllocError> {
    let name = String::from_str(alloc, name)?;
    let not_met = String::from_str(alloc, "not met")?;
    let runner = Meets {
        machine,
        turns,
        count: Arc::try_clone(count)?,
        awaited,
        not_met,
    };
    Ok(Trial::new(name, runner))
}

// The name of a trial that counts itself, the number that it awaits then, and for how many turns.
type Meeting = (&'static str, u64, u64);

fn that_meet<M: Clock + Copy + Drop>(
    machine: M,
    alloc: Global,
    meetings: &[Meeting],
) -> Result<Vec<Trial<Meets<M>>>, AllocError> {
    let count = new_count(alloc)?;
    let mut trials = Vec::new(alloc);
    for (name, awaited, turns) in meetings {
        trials.push(meeting(machine, alloc, name, *turns, &count, *awaited)?)?;
    }
    Ok(trials)
}

const ONE: &[Meeting] = &[("a", 1, TURNS)];

const TWO: &[Meeting] = &[("a", 2, TURNS), ("b", 2, TURNS)];

const THREE: &[Meeting] = &[("a", 3, TURNS), ("b", 3, TURNS), ("c", 3, TURNS)];

// What a run by `threads` threads leaves of trials that count themselves.
fn run_meeting<T: Spawner + Clock + 'static>(
    rt: &T,
    alloc: Global,
    meetings: &[Meeting],
    schedule: Schedule,
    threads: usize,
    format: FormatSetting,
) -> Result<Left<Vec<u8>>, AllocError> {
    let args = asking(alloc, format, Some(threads));
    let tests = that_meet(*rt, alloc, meetings)?;
    Ok(run_by(rt, alloc, &args, tests, Vec::new(alloc), schedule))
}

// Trials that all await one another, and by how many threads.
static MEETINGS: [(&[Meeting], usize); 4] = [(TWO, 2), (TWO, 20), (TWO, usize::MAX), (THREE, 3)];

// As many workers as were asked for run at the same time.
#[test]
fn runs_as_many_as_asked(rt: HostRuntime) -> Result<(), Fail> {
    let (alloc, format) = (rt.alloc(), FormatSetting::Pretty);
    for schedule in SCHEDULES {
        for (meetings, threads) in &MEETINGS {
            let left = run_meeting(&rt, alloc, meetings, schedule, *threads, format)?;
            let passed = meetings.len() as u64;
            assert!(rt;
                left.counts() == Some([passed, 0, 0, 0, 0]),
                "{schedule:?} {threads}"
            );
        }
    }
    Ok(())
}

const FIRST_GIVES_UP: &[Meeting] = &[("a", 3, FEW_TURNS), ("b", 3, TURNS), ("c", 3, TURNS)];

// Eight trials, the first of which awaits the others for `$turns` turns.
macro_rules! first_awaits {
    ($turns:expr) => {
        &[
            ("a", 8, $turns),
            ("b", 0, TURNS),
            ("c", 0, TURNS),
            ("d", 0, TURNS),
            ("e", 0, TURNS),
            ("f", 0, TURNS),
            ("g", 0, TURNS),
            ("h", 0, TURNS),
        ]
    };
}

// How trials come to two workers, the trials, and how many pass and fail. The first one of three awaits the last one, for which
// there is no worker until it gives up. The first one of eight awaits all others: of those three have to wait for it in its
// worker's share, and none in a queue.
static WAITS: [(Schedule, &[Meeting], u64, u64); 4] = [
    (Schedule::Shares, FIRST_GIVES_UP, 2, 1),
    (Schedule::Queue, FIRST_GIVES_UP, 2, 1),
    (Schedule::Shares, first_awaits!(FEW_TURNS), 7, 1),
    (Schedule::Queue, first_awaits!(TURNS), 8, 0),
];

#[test]
fn waits_for_a_worker(rt: HostRuntime) -> Result<(), Fail> {
    let (alloc, format) = (rt.alloc(), FormatSetting::Pretty);
    for (schedule, meetings, passed, failed) in &WAITS {
        let left = run_meeting(&rt, alloc, meetings, *schedule, 2, format)?;
        assert!(rt;
            left.counts() == Some([*passed, *failed, 0, 0, 0]),
            "{schedule:?} {passed}"
        );
        let report = str::from_utf8(&left.writer)?;
        let has_failed = *failed > 0;
        assert!(rt; report.contains("test a ... FAILED\n") == has_failed);
        assert!(rt; report.contains("---- a ----\nnot met\n") == has_failed);
    }
    Ok(())
}

// Raises the count to 2 at its third line end.
#[derive(Drop)]
struct Raising {
    line_ends: usize,
    count: Arc<AtomicU64>,
}

impl Write for Raising {
    fn write(&mut self, buf: &[u8]) -> io::Result<usize> {
        for byte in buf {
            self.line_ends = self.line_ends.saturating_add(usize::from(*byte == b'\n'));
        }
        if self.line_ends >= 3 {
            self.count.store(2, Ordering::SeqCst);
        }
        Ok(buf.len())
    }

    fn flush(&mut self) -> io::Result<()> {
        Ok(())
    }
}

// One trial waits until the row of the other is written: it awaits the count of 2, to which the writer raises it.
#[test]
fn writes_a_row_when_its_trial_has_ended(rt: HostRuntime) -> Result<(), Fail> {
    let alloc = rt.alloc();
    for schedule in SCHEDULES {
        let count = new_count(alloc)?;
        let mut tests = Vec::with_capacity(alloc, 2)?;
        tests.push(meeting(rt, alloc, "a", TURNS, &new_count(alloc)?, 1)?)?;
        tests.push(meeting(rt, alloc, "b", TURNS, &count, 2)?)?;
        let writer = Raising {
            line_ends: 0,
            count,
        };
        let (args, workers) = (Arguments::new(alloc), Workers { schedule, count: 2 });
        let left = run_with(&rt, alloc, &args, tests, writer, Some(workers));
        assert!(rt; left.counts() == Some([2, 0, 0, 0, 0]), "{schedule:?}");
    }
    Ok(())
}

// Sleeps for `millis` milliseconds.
#[derive(Drop)]
pub(super) struct Sleeps<M> {
    pub(super) machine: M,
    pub(super) millis: u64,
}

impl<M: Clock + Drop> Task for Sleeps<M> {
    fn run(self, _test_mode: bool) -> Outcome {
        thread::sleep(&self.machine, Duration::from_millis(self.millis));
        Outcome::Passed
    }
}

// Sleeps when it has got the announcement of `b`, until all others have ended.
#[derive(Drop)]
struct Slow<M> {
    machine: M,
    bytes: Vec<u8>,
}

impl<M: Clock + Drop> Write for Slow<M> {
    fn write(&mut self, buf: &[u8]) -> io::Result<usize> {
        self.bytes.extend_from_slice(buf)?;
        if self.bytes.ends_with(b"test b ... ") {
            thread::sleep(&self.machine, Duration::from_millis(300));
        }
        Ok(buf.len())
    }

    fn flush(&mut self) -> io::Result<()> {
        Ok(())
    }
}

// Trials that sleep for different times.
fn that_sleep<M: Clock + Copy + Drop>(
    machine: M,
    alloc: Global,
) -> Result<Vec<Trial<Sleeps<M>>>, AllocError> {
    let mut trials = Vec::new(alloc);
    for (name, millis) in &[("a", 150), ("b", 0), ("c", 225), ("d", 75)] {
        let sleeps = Sleeps {
            machine,
            millis: *millis,
        };
        trials.push(Trial::new(String::from_str(alloc, name)?, sleeps))?;
    }
    Ok(trials)
}

// Rows come in the order in which their trials ended, also those that waited while another was written.
#[test]
fn writes_rows_in_the_order_of_ends(rt: HostRuntime) -> Result<(), Fail> {
    let alloc = rt.alloc();
    for schedule in SCHEDULES {
        let writer = Slow {
            machine: rt,
            bytes: Vec::new(alloc),
        };
        let tests = that_sleep(rt, alloc)?;
        let (args, workers) = (Arguments::new(alloc), Workers { schedule, count: 4 });
        let left = run_with(&rt, alloc, &args, tests, writer, Some(workers));
        assert!(rt; left.counts() == Some([4, 0, 0, 0, 0]));
        let report = str::from_utf8(&left.writer.bytes)?;
        let rows = "test b ... ok\ntest d ... ok\ntest a ... ok\ntest c ... ok\n";
        assert!(rt; report.contains(rows), "{schedule:?}");
    }
    Ok(())
}

// Whether these are the lines of two trials in the one order or the other, those of each together.
fn are_pairs(bytes: &[u8]) -> bool {
    bytes == TWO_PASSING[0].as_bytes() || bytes == TWO_PASSING[1].as_bytes()
}

// Two trials that meet, by two workers and with as many threads as can be counted: the whole
// report, in which the lines of each trial are together, and the counts.
#[test]
fn keeps_pairs_of_lines_together(rt: HostRuntime) -> Result<(), Fail> {
    let (alloc, format) = (rt.alloc(), FormatSetting::Json);
    for schedule in SCHEDULES {
        for threads in [2, usize::MAX] {
            let left = run_meeting(&rt, alloc, TWO, schedule, threads, format)?;
            assert!(rt; are_pairs(&left.writer));
            assert!(rt; left.counts() == Some([2, 0, 0, 0, 0]));
            assert!(rt; left.answer?.exit_code() == ExitCode::from(0));
        }
    }
    Ok(())
}

// How trials come to workers, the numbers of both, and how many trials pass, fail, are ignored and are measured.
pub(super) type Many = (Schedule, u64, usize, [u64; 4]);

pub(super) const QUARTERS: [u64; 4] = [2_500, 2_500, 2_500, 2_500];

static MANY: [Many; 10] = [
    (Schedule::Shares, 10_000, 1, QUARTERS),
    (Schedule::Shares, 10_000, 2, QUARTERS),
    (Schedule::Shares, 10_000, 4, QUARTERS),
    (Schedule::Shares, 10_000, 16, QUARTERS),
    (Schedule::Queue, 10_000, 1, QUARTERS),
    (Schedule::Queue, 10_000, 2, QUARTERS),
    (Schedule::Queue, 10_000, 4, QUARTERS),
    (Schedule::Queue, 10_000, 16, QUARTERS),
    (Schedule::Queue, 5_000, 5_000, [1_250, 1_250, 1_250, 1_250]),
    (Schedule::Queue, 1, 2, [1, 0, 0, 0]),
];

// The trial of this number: of each four one passes, one fails with its number, one measures it, and one is ignored.
fn trial_of(alloc: Global, number: u64) -> Result<Trial<Becomes>, AllocError> {
    let text = format!(in alloc; "{number}")?;
    let outcome = match number % 4 {
        1 => outcome_with(alloc, Some(text.as_str()))?,
        2 => Outcome::Measured(Measurement {
            avg: number,
            variance: 7,
        }),
        _ => Outcome::Passed,
    };
    Ok(Trial::new(text, Becomes(outcome)).with_ignored_flag(number % 4 == 3))
}

fn many_trials(alloc: Global, count: u64) -> Result<Vec<Trial<Becomes>>, AllocError> {
    let mut trials = Vec::new(alloc);
    for number in 0..count {
        trials.push(trial_of(alloc, number)?)?;
    }
    Ok(trials)
}

// What a run of many trials leaves, whose rows have times or not.
pub(super) fn run_many<T: Spawner + 'static>(
    rt: &T,
    alloc: Global,
    many: &Many,
    report_time: bool,
) -> Result<Left<Vec<u8>>, AllocError> {
    let (schedule, count, threads, _) = *many;
    let mut args = asking(alloc, FormatSetting::Json, Some(threads));
    args.report_time = report_time;
    let tests = many_trials(alloc, count)?;
    Ok(run_by(rt, alloc, &args, tests, Vec::new(alloc), schedule))
}

// The two lines of the trial of this number.
fn lines_of(alloc: Global, number: u64) -> Result<String, AllocError> {
    let (kind, end) = match number % 4 {
        0 => ("test", format!(in alloc; r#""event": "ok""#)?),
        1 => (
            "test",
            format!(in alloc; r#""event": "failed", "stdout": "Error: \"{number}\"\n""#)?,
        ),
        2 => (
            "bench",
            format!(in alloc; r#""median": {number}, "deviation": 7"#)?,
        ),
        _ => ("test", format!(in alloc; r#""event": "ignored""#)?),
    };
    format!(in alloc;
        r#"{{ "type": "test", "event": "started", "name": "{number}" }}
{{ "type": "{kind}", "name": "{number}", {end} }}
"#
    )
}

// The report of many trials, in their order.
pub(super) fn report_of(alloc: Global, many: &Many) -> Result<String, AllocError> {
    let (_, count, _, [passed, failed, ignored, measured]) = many;
    let mut report = format!(in alloc;
        r#"{{ "type": "suite", "event": "started", "test_count": {count} }}
"#
    )?;
    for number in 0..*count {
        report.push_str(lines_of(alloc, number)?.as_str())?;
    }
    let event = if *failed > 0 { "failed" } else { "ok" };
    let summary = format!(in alloc;
        r#"{{ "type": "suite", "event": "{event}", "passed": {passed}, "failed": {failed}, "ignored": {ignored}, "measured": {measured}, "filtered_out": 0, "exec_time": 0 }}
"#
    )?;
    report.push_str(summary.as_str())?;
    Ok(report)
}

fn sorted_lines(alloc: Global, report: &str) -> Result<Vec<&str>, AllocError> {
    let mut lines = Vec::new(alloc);
    for line in report.lines() {
        lines.push(line)?;
    }
    lines.sort()?;
    Ok(lines)
}

// Whether the bytes have the lines of the report, in any order.
pub(super) fn has_lines_of(alloc: Global, bytes: &[u8], report: &str) -> Result<bool, Fail> {
    let lines = sorted_lines(alloc, str::from_utf8(bytes)?)?;
    let expected = sorted_lines(alloc, report)?;
    Ok(lines == expected)
}

// Each of many trials runs once, whatever the number of threads: the report has the lines of each once, with its own outcome.
#[test]
fn runs_each_of_many_once(rt: HostRuntime) -> Result<(), Fail> {
    let alloc = rt.alloc();
    for many in &MANY {
        let left = run_many(&rt, alloc, many, false)?;
        let expected = report_of(alloc, many)?;
        let is_same = has_lines_of(alloc, &left.writer, expected.as_str())?;
        assert!(rt; is_same, "{many:?}");
    }
    Ok(())
}

// The trials, the number of threads, a filter, and whether a list is asked; what is counted unless there are no
// threads for a trial, and what is written.
struct Row {
    meetings: &'static [Meeting],
    threads: usize,
    filter: Option<&'static str>,
    list: bool,
    counts: Option<[u64; 5]>,
    text: &'static str,
}

// Without a thread: a trial, no trial, a trial that is filtered out, and a list. With one the trial runs.
static ROWS: [Row; 5] = [
    Row {
        meetings: ONE,
        threads: 0,
        filter: None,
        list: false,
        counts: None,
        text: "",
    },
    Row {
        meetings: &[],
        threads: 0,
        filter: None,
        list: false,
        counts: Some([0, 0, 0, 0, 0]),
        text: "\nrunning 0 tests\n\ntest result: ok. 0 passed; 0 failed; 0 ignored; 0 measured; 0 filtered out; finished in 0.00s\n\n",
    },
    Row {
        meetings: ONE,
        threads: 1,
        filter: None,
        list: false,
        counts: Some([1, 0, 0, 0, 0]),
        text: "\nrunning 1 test\ntest a ... ok\n\ntest result: ok. 1 passed; 0 failed; 0 ignored; 0 measured; 0 filtered out; finished in 0.00s\n\n",
    },
    Row {
        meetings: ONE,
        threads: 0,
        filter: Some("z"),
        list: false,
        counts: Some([0, 0, 0, 0, 1]),
        text: "\nrunning 0 tests\n\ntest result: ok. 0 passed; 0 failed; 0 ignored; 0 measured; 1 filtered out; finished in 0.00s\n\n",
    },
    Row {
        meetings: ONE,
        threads: 0,
        filter: None,
        list: true,
        counts: Some([0, 0, 0, 0, 0]),
        text: "a: test\n",
    },
];

// What a run of a row leaves.
fn run_row<T: Spawner + Clock + 'static>(
    rt: &T,
    alloc: Global,
    row: &Row,
    schedule: Schedule,
) -> Result<Left<Vec<u8>>, AllocError> {
    let mut args = asking(alloc, FormatSetting::Pretty, Some(row.threads));
    args.list = row.list;
    if let Some(filter) = row.filter {
        args.filter.push(String::from_str(alloc, filter)?)?;
    }
    let tests = that_meet(*rt, alloc, row.meetings)?;
    Ok(run_by(rt, alloc, &args, tests, Vec::new(alloc), schedule))
}

#[test]
fn wants_a_thread_for_a_trial(rt: HostRuntime) -> Result<(), Fail> {
    for schedule in SCHEDULES {
        for row in &ROWS {
            let left = run_row(&rt, rt.alloc(), row, schedule)?;
            let is_refused = matches!(left.answer, Err(RunError::ZeroThreads));
            assert!(rt; left.counts() == row.counts);
            assert!(rt; is_refused == row.counts.is_none());
            assert!(rt; left.is_running || !is_refused);
            assert!(rt; left.writer.as_slice() == row.text.as_bytes());
        }
    }
    Ok(())
}
