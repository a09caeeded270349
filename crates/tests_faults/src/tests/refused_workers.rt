//! Memory refused to workers. `.ci/run` refuses each request in turn, and looks for the errors that these tests
//! return; if nothing is refused, each run is whole.
use super::in_all_orders;
use super::runs::{Left, SCHEDULES, asking, becoming, roomy, run_by};
use super::times::{read_back, timed};
use libtest_mimic::{FormatSetting, Outcome, RunError, Schedule, Spawner, Task, Trial};
use mimic_testkit::FaultyWriter;
use std::alloc::{AllocError, Global};
use std::io::Write;
use std::process::Abort;
use std::rt::Clock;
use std::sync::Arc;
use std::sync::atomic::{AtomicBool, AtomicU64, Ordering};
use std::test::Fail;
use std::time::Duration;
use std::{io, thread};

// Counts that it began and, some milliseconds later, that it has ended.
#[derive(Drop)]
struct Slow<M> {
    machine: M,
    steps: Arc<AtomicU64>,
}

impl<M: Clock + Drop> Task for Slow<M> {
    fn run(self, _test_mode: bool) -> Outcome {
        self.steps.fetch_add(1, Ordering::SeqCst);
        thread::sleep(&self.machine, Duration::from_millis(20));
        self.steps.fetch_add(1, Ordering::SeqCst);
        Outcome::Passed
    }
}

static NAMES: [&str; 3] = ["a", "b", "c"];

// Three trials that are slow.
fn slow_trials<M: Clock + Copy + Drop>(
    machine: M,
    alloc: Global,
    steps: &Arc<AtomicU64>,
) -> Result<Vec<Trial<Slow<M>>>, AllocError> {
    let mut tests = Vec::with_capacity(alloc, NAMES.len())?;
    for name in &NAMES {
        let name = String::from_str(alloc, name)?;
        let steps = Arc::try_clone(steps)?;
        tests.push(Trial::new(name, Slow { machine, steps }))?;
    }
    Ok(tests)
}

// The whole report of a run of the trials.
static REPORTS: [&str; 6] = in_all_orders!(
    "\nrunning 3 tests\n",
    "test a ... ok\n",
    "test b ... ok\n",
    "test c ... ok\n",
    "\ntest result: ok. 3 passed; 0 failed; 0 ignored; 0 measured; 0 filtered out; finished in 0.00s\n\n"
);

fn is_whole(bytes: &[u8]) -> bool {
    let mut is_whole = false;
    for report in &REPORTS {
        is_whole = is_whole || bytes == report.as_bytes();
    }
    is_whole
}

// Whether a run with this answer may leave these bytes and call this number of the three runners: all if it is whole; if a
// worker couldn't be started those of the workers before it, which had their shares, and none from a queue; and none if there
// was no memory before the title.
fn may_stand(left: &Left<FaultyWriter>, schedule: Schedule, called: u64) -> bool {
    let bytes = left.writer.bytes.as_slice();
    match (&left.answer, schedule) {
        (Ok(_), _) => is_whole(bytes) && called == 3,
        (Err(RunError::Spawn), Schedule::Shares) => {
            bytes == b"\nrunning 3 tests\n".as_slice() && called < 3
        }
        (Err(RunError::Spawn), Schedule::Queue) => {
            bytes == b"\nrunning 3 tests\n".as_slice() && called == 0
        }
        (Err(_), _) => bytes.is_empty() && called == 0,
    }
}

// What a run by three workers leaves, and how many runners were called. Each has ended, and none is called when the run has
// returned.
fn run_slow<T: Spawner + Clock + Abort + 'static>(
    rt: &T,
    alloc: Global,
    schedule: Schedule,
) -> Result<(Left<FaultyWriter>, u64), AllocError> {
    let args = asking(alloc, FormatSetting::Pretty, Some(3));
    let steps = Arc::new(alloc, AtomicU64::new(0))?;
    let tests = slow_trials(*rt, alloc, &steps)?;
    let left = run_by(rt, alloc, &args, tests, roomy(alloc)?, schedule);
    let taken = steps.load(Ordering::SeqCst);
    thread::sleep(rt, Duration::from_millis(30));
    assert!(rt; taken % 2 == 0 && steps.load(Ordering::SeqCst) == taken);
    Ok((left, taken / 2))
}

// If a worker that has a share can't be started, the title alone is written. If one that takes from a queue can't be started,
// the others run all trials, and the title alone is written if there are none. A worker that was started is joined: its trial
// doesn't run on when the run has returned.
#[test]
fn joins_started_workers(rt: HostRuntime) -> Result<(), Fail> {
    for schedule in SCHEDULES {
        let (left, called) = run_slow(&rt, rt.alloc(), schedule)?;
        assert!(rt; left.faults == 0);
        assert!(rt; may_stand(&left, schedule, called), "{schedule:?}");
        match (left.answer, schedule) {
            (Ok(_), _) => {}
            (Err(RunError::Spawn), Schedule::Shares) => {
                return Err(Fail::new("a worker could not be started"));
            }
            (Err(RunError::Spawn), Schedule::Queue) => {
                return Err(Fail::new("no worker could be started"));
            }
            (Err(error), _) => return Err(error.into()),
        }
    }
    Ok(())
}

static WOOPS: &[u8] = br#"{ "type": "suite", "event": "started", "test_count": 1 }
{ "type": "test", "event": "started", "name": "a" }
{ "type": "test", "name": "a", "event": "failed", "stdout": "Error: \"Woops\"\n" }
{ "type": "suite", "event": "failed", "passed": 0, "failed": 1, "ignored": 0, "measured": 0, "filtered_out": 0, "exec_time": 0 }
"#;

// The row of a failure whose copy was refused is written from what its worker returned when it was joined: a run with one
// worker that returns `Ok` though a request was refused.
#[test]
fn writes_a_row_that_could_not_be_copied(rt: HostRuntime) -> Result<(), Fail> {
    let alloc = rt.alloc();
    let args = asking(alloc, FormatSetting::Json, Some(2));
    for schedule in SCHEDULES {
        let mut tests = Vec::with_capacity(alloc, 1)?;
        tests.push(becoming(alloc, "a", Some("Woops"))?)?;
        let left = run_by(&rt, alloc, &args, tests, roomy(alloc)?, schedule);
        left.answer?;
        assert!(rt; left.writer.bytes.as_slice() == WOOPS);
    }
    Ok(())
}

// What trials and the writer of their report know together.
#[derive(Drop)]
struct Known {
    line_ends: AtomicU64,
    // Whether a trial has waited in vain for the rows before it.
    are_left: AtomicBool,
}

// Counts the line ends that it gets.
#[derive(Drop)]
struct Counting {
    known: Arc<Known>,
    bytes: Vec<u8>,
}

impl Write for Counting {
    fn write(&mut self, buf: &[u8]) -> io::Result<usize> {
        self.bytes.extend_from_slice(buf)?;
        for byte in buf {
            let count = u64::from(*byte == b'\n');
            self.known.line_ends.fetch_add(count, Ordering::SeqCst);
        }
        Ok(buf.len())
    }

    fn flush(&mut self) -> io::Result<()> {
        Ok(())
    }
}

// Waits a millisecond, and then until as many lines were written as are before its row. While the calling thread runs trials it
// writes no row, so they wait in vain there: one for a while, and those behind it no more.
#[derive(Drop)]
struct Following<M> {
    machine: M,
    known: Arc<Known>,
    lines: u64,
}

impl<M: Clock + Drop> Following<M> {
    fn is_to_wait(&self) -> bool {
        self.known.line_ends.load(Ordering::SeqCst) < self.lines
            && !self.known.are_left.load(Ordering::SeqCst)
    }
}

impl<M: Clock + Drop> Task for Following<M> {
    fn run(self, _test_mode: bool) -> Outcome {
        thread::sleep(&self.machine, Duration::from_millis(1));
        for _ in 0..300 {
            if !self.is_to_wait() {
                return Outcome::Passed;
            }
            thread::sleep(&self.machine, Duration::from_millis(1));
        }
        self.known.are_left.store(true, Ordering::SeqCst);
        Outcome::Passed
    }
}

// Eight trials. Before the row of each are the title, and two lines of each row before it.
fn eight_following<M: Clock + Copy + Drop>(
    machine: M,
    alloc: Global,
    known: &Arc<Known>,
) -> Result<Vec<Trial<Following<M>>>, AllocError> {
    let mut tests = Vec::with_capacity(alloc, 8)?;
    for lines in [1, 3, 5, 7, 9, 11, 13, 15] {
        let known = Arc::try_clone(known)?;
        let following = Following {
            machine,
            known,
            lines,
        };
        tests.push(Trial::new(String::new(alloc), following))?;
    }
    Ok(tests)
}

// Each row has the time of its trial, also of one that workers left, which the calling thread runs. One of two workers leaves some if
// the other can't be started, and there is no memory for the rows of more than its equal part.
#[test]
fn times_what_workers_leave(rt: HostRuntime) -> Result<(), Fail> {
    let alloc = rt.alloc();
    let known = Known {
        line_ends: AtomicU64::new(0),
        are_left: AtomicBool::new(false),
    };
    let known = Arc::new(alloc, known)?;
    let tests = eight_following(rt, alloc, &known)?;
    let writer = Counting {
        known: Arc::try_clone(&known)?,
        bytes: Vec::with_capacity(alloc, 2000)?,
    };
    let args = timed(alloc, Some(2));
    let left = run_by(&rt, alloc, &args, tests, writer, Schedule::Queue);
    left.answer?;
    let report = read_back(alloc, &left.writer.bytes)?;
    assert!(rt; report.rows.len() == 8);
    for row in &report.rows {
        assert!(rt; row.nanos.unwrap_or(0) >= 1_000_000, "{:?}", row.nanos);
    }
    if known.are_left.load(Ordering::SeqCst) {
        return Err(Fail::new("workers left trials"));
    }
    Ok(())
}
