//! Rows that arrive otherwise than their workers answer, and rows that don't arrive.
ghost use Rattle.std.specs.Prelude.{◌≤◌, Bool, IfOk, List, length};
ghost use Rattle.libtest_mimic.specs.Gathering.{IsReadyFor};
ghost use Rattle.mimic_pool.specs.WaitingTrials.{Holds, Runs};
ghost use Rattle.mimic_pool.specs.declared.share.Assigned.{Assigned};

use super::runs::SCHEDULES;
use libtest_mimic::pool::{Desk, Reports, Started, WaitingTrials, gather_rows, start_workers};
use libtest_mimic::printer::Printer;
use libtest_mimic::{
    Failed, FormatSetting, Outcome, RunError, Schedule, Sink, Spawner, Task, TestInfo,
};
use mimic_events::Feed;
use mimic_testkit::{Fault, FaultPlace, FaultyWriter, Known};
use std::alloc::{AllocError, Global};
use std::rt::Clock;
use std::sync::atomic::{AtomicU64, Ordering};
use std::sync::{Arc, Wait};
use std::test::Fail;
use std::thread;
use std::time::Duration;

static NAMES: [&str; 4] = ["a", "b", "c", "d"];

// Tests of these names, without a kind.
fn infos_of_all(alloc: Global) -> Result<Vec<TestInfo>, AllocError> {
    let mut infos = Vec::new(alloc);
    for name in &NAMES {
        infos.push(TestInfo {
            name: String::from_str(alloc, name)?,
            kind: String::new(alloc),
            is_ignored: false,
            is_bench: false,
        })?;
    }
    Ok(infos)
}

// `trials` tasks that wait for two workers, none of which is ignored.
fn waiting_tasks<T: Task, R: Wait, F: Fn(usize) -> Result<T, AllocError>>(
    rt: &R,
    alloc: Global,
    schedule: Schedule,
    trials: usize,
    task: F,
) -> Result<WaitingTrials<T>, AllocError>
    requires made { F.IsAlwaysCallable task }
    requires runnable { (made : T) → T.can_run made }
    ensures { IfOk result (λ waiting. (held : List (Assigned T)) × (length held ≤ trials) × Holds T.can_run waiting held) }
{
    let mut waiting = WaitingTrials::new(alloc, schedule, trials, 2)?;
    for place in 0..trials {
        waiting.put(rt, place, task(place)?, false)?;
    }
    Ok(waiting)
}

// What is left when rows were gathered.
#[derive(Drop)]
struct Left {
    // The place that they are refused for.
    differs: Option<usize>,
    faults: u64,
    // Whether the sink keeps no fault.
    is_ended: bool,
    bytes: Vec<u8>,
}

// Writes the rows of workers that were started. This is the one place that calls `gather_rows`, and it promises nothing, so that no
// test carries that contract.
fn gathered<T: Task + Send + 'static, R: Spawner + 'static>(
    rt: &R,
    infos: &[TestInfo],
    started: Started<T>,
    writer: FaultyWriter,
) -> Left
    requires ready { IsReadyFor started (length infos.now) }
    requires running { (mode : Bool) × (trials : List (Assigned T)) × Runs T.gives started.workers mode trials }
{
    let printer = Printer::new(FormatSetting::Json, false, 0, 0);
    let mut sink = Sink::new(writer);
    let differs = match gather_rows(rt, &printer, infos, started, &mut sink) {
        Err(RunError::Arrival { place }) => Some(place),
        _ => None,
    };
    Left {
        differs,
        faults: sink.faults(),
        is_ended: !sink.has_fault(),
        bytes: sink.into_inner().bytes,
    }
}

// Somebody reports the last and the second task as ignored before their workers start. What is left then, if a write at the place
// fails.
fn gather_with_lies<
    T: Task + Send + 'static,
    R: Spawner + 'static,
    F: Fn(usize) -> Result<T, AllocError>,
>(
    rt: &R,
    alloc: Global,
    infos: &[TestInfo],
    schedule: Schedule,
    task: F,
    place: FaultPlace,
) -> Result<Left, Fail>
    requires made { F.IsAlwaysCallable task }
    requires runnable { (made : T) → T.can_run made }
{
    let room = Vec::with_capacity(alloc, infos.len())?;
    let desk = Desk::new(alloc, infos.len())?;
    let waiting = waiting_tasks(rt, alloc, schedule, infos.len(), task)?;
    let (inbox, ready) = waiting.prepare(rt, alloc, infos.len(), false, None)?;
    let mut lies = inbox.reports(*rt, alloc)?;
    let _ = lies.tell(3, &Outcome::Ignored);
    let _ = lies.tell(1, &Outcome::Ignored);
    let Some(workers) = start_workers(rt, alloc, ready, true) else {
        return Err(Fail::new("a worker could not be started"));
    };
    let started = Started {
        inbox,
        workers,
        desk,
        room,
    };
    let writer = FaultyWriter::new(alloc).failing(place, Fault::TakesNone);
    Ok(gathered(rt, infos, started, writer))
}

// The least place that differs is named, and not the first to arrive; also after a write fault, here in the second row. Whether or
// not its test has run then, it was not ignored.
#[test]
fn names_the_least_place_that_differs(rt: HostRuntime) -> Result<(), Fail> {
    let alloc = rt.alloc();
    let infos = infos_of_all(alloc)?;
    for schedule in SCHEDULES {
        for (place, faults) in [(FaultPlace::Nowhere, 0), (FaultPlace::Write(3), 1)] {
            let task = |_place: usize| Ok(Known::Passes);
            let left = gather_with_lies(&rt, alloc, &infos, schedule, task, place)?;
            assert!(rt;
                left.differs == Some(1) && left.faults == faults && left.is_ended,
                "{schedule:?} {place:?}"
            );
        }
    }
    Ok(())
}

// Passes or fails after some milliseconds, and once a number of rows were taken.
#[derive(Drop)]
struct Waits<M> {
    machine: M,
    millis: u64,
    taken: Arc<AtomicU64>,
    awaited: u64,
    fails: bool,
}

impl<M: Clock + Drop> Task for Waits<M> {
    fn run(self, _test_mode: bool) -> Outcome {
        thread::sleep(&self.machine, Duration::from_millis(self.millis));
        for _ in 0..30_000 {
            if self.taken.load(Ordering::SeqCst) >= self.awaited {
                break;
            }
            thread::sleep(&self.machine, Duration::from_millis(1));
        }
        if self.fails {
            Outcome::Failed(Failed::without_message())
        } else {
            Outcome::Passed
        }
    }
}

// How many milliseconds each of four tasks waits, how many rows it awaits then, and whether it fails.
static WAITS: [(u64, u64, bool); 4] = [(60, 0, true), (30, 0, false), (0, 0, false), (0, 3, false)];

// The task at the place.
fn waiting_at<M: Clock + Drop>(
    machine: M,
    place: usize,
    taken: &Arc<AtomicU64>,
) -> Result<Waits<M>, AllocError> {
    let (millis, awaited, fails) = WAITS.get(place).copied().unwrap_or((0, 0, false));
    Ok(Waits {
        machine,
        millis,
        taken: Arc::try_clone(taken)?,
        awaited,
        fails,
    })
}

// Somebody takes all rows but one before those that arrive are written, and counts them. What is left then.
fn gather_without_most<
    T: Task + Send + 'static,
    R: Spawner + 'static,
    F: Fn(usize) -> Result<T, AllocError>,
>(
    rt: &R,
    alloc: Global,
    infos: &[TestInfo],
    schedule: Schedule,
    task: F,
    taken: &AtomicU64,
) -> Result<Left, Fail>
    requires made { F.IsAlwaysCallable task }
    requires runnable { (made : T) → T.can_run made }
{
    let room = Vec::with_capacity(alloc, infos.len())?;
    let desk = Desk::new(alloc, infos.len())?;
    let waiting = waiting_tasks(rt, alloc, schedule, infos.len(), task)?;
    let (mut inbox, ready) = waiting.prepare(rt, alloc, infos.len(), true, None)?;
    let Some(workers) = start_workers(rt, alloc, ready, true) else {
        return Err(Fail::new("a worker could not be started"));
    };
    for _ in 1..infos.len() {
        let _ = inbox.next(rt);
        taken.fetch_add(1, Ordering::SeqCst);
    }
    let started = Started {
        inbox,
        workers,
        desk,
        room,
    };
    Ok(gathered(rt, infos, started, FaultyWriter::new(alloc)))
}

// The rows of the four tasks: that of the last one, which waits until the others were taken, and then those, in the order of their
// places. At the number of each of these is the place of another one, which waits less. How many milliseconds each has at least.
static ROWS: [(&str, u64); 4] = [("d", 0), ("a", 60), ("b", 30), ("c", 0)];

// A row that did not arrive comes after the joins, with the time of its own trial.
#[test]
fn times_rows_that_do_not_arrive(rt: HostRuntime) -> Result<(), Fail> {
    let alloc = rt.alloc();
    let infos = infos_of_all(alloc)?;
    for schedule in SCHEDULES {
        let taken = Arc::new(alloc, AtomicU64::new(0))?;
        let task = |place: usize| waiting_at(rt, place, &taken);
        let left = gather_without_most(&rt, alloc, &infos, schedule, task, &taken)?;
        assert!(rt; left.differs.is_none() && left.faults == 0);
        let mut feed = Feed::new(alloc)?;
        feed.feed(TITLE)?;
        feed.feed(&left.bytes)?;
        let rows = feed.rows().unwrap_or(&[]);
        assert!(rt; rows.len() == ROWS.len(), "{schedule:?}");
        for (row, (name, millis)) in rows.iter().zip(&ROWS) {
            let nanos = row.nanos.ok_or("no time")?;
            assert!(rt;
                row.name.as_str() == *name && nanos >= millis.saturating_mul(1_000_000),
                "{schedule:?} {name} {nanos}"
            );
        }
    }
    Ok(())
}

static TITLE: &[u8] = b"{ \"type\": \"suite\", \"event\": \"started\", \"test_count\": 4 }\n";
