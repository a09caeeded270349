//! An inbox: workers that report to one board, and a thread that takes.
ghost use Rattle.std.specs.Prelude.{◌≤◌, IfOk, List, length};
ghost use Rattle.mimic_pool.specs.WaitingTrials.{Holds};
ghost use Rattle.mimic_pool.specs.declared.share.Assigned.{Assigned};

use super::workers::shares_of_five;
use super::{Plain, numbered};
use mimic_pool::{
    Desk, Inbox, Reports, Rows, RunningTrials, Schedule, Spawner, Untold, WaitingTrials,
    join_workers, put_joined, start_workers, work,
};
use mimic_trial::{Failed, Outcome, Task};
use std::alloc::{AllocError, Global};
use std::cell::Cell;
use std::io::ErrorKind;
use std::process::Abort;
use std::rt::Clock;
use std::sync::atomic::{AtomicU64, Ordering};
use std::sync::{Arc, Wait};
use std::test::Fail;
use std::time::Duration;
use std::{io, thread};

// Whether this row comes next.
fn gives<R: Wait>(rt: &R, inbox: &mut Inbox, place: usize, row: Plain) -> bool {
    match inbox.next(rt) {
        Some((at, outcome)) => at == place && row.is(&outcome),
        None => false,
    }
}

// Whether all have closed and no row waits.
fn is_at_end<R: Wait>(rt: &R, inbox: &mut Inbox) -> bool {
    inbox.next(rt).is_none()
}

// What the board hands back is refused, and the worker closes all the same.
#[test]
fn refuses_what_the_board_hands_back(rt: HostRuntime) -> Result<(), Fail> {
    let mut inbox = Inbox::new(rt.alloc(), 2, 1)?;
    let mut reports = inbox.reports(rt, rt.alloc())?;
    assert!(rt; reports.tell(1, &Outcome::Passed).is_ok());
    assert!(rt; reports.tell(1, &Outcome::Ignored) == Err(Untold));
    assert!(rt; reports.tell(2, &Outcome::Passed) == Err(Untold));
    assert!(rt; reports.told() == 1 && reports.refusals() == 2);
    assert!(rt; gives(&rt, &mut inbox, 1, Plain::Passed));
    drop(reports);
    assert!(rt; is_at_end(&rt, &mut inbox));
    Ok(())
}

const OUTCOMES: [Plain; 5] = [
    Plain::Passed,
    Plain::Failed(None),
    Plain::Failed(Some("x")),
    Plain::Ignored,
    Plain::Measured(2, 3),
];

// A row waits on the board as soon as its worker has reported it, with all that its outcome says.
#[test]
fn reports_each_outcome(rt: HostRuntime) -> Result<(), Fail> {
    for outcome in OUTCOMES {
        let mut inbox = Inbox::new(rt.alloc(), 1, 1)?;
        let mut reports = inbox.reports(rt, rt.alloc())?;
        assert!(rt; reports.tell(0, &outcome.outcome(rt.alloc())?).is_ok());
        assert!(rt; gives(&rt, &mut inbox, 0, outcome));
        assert!(rt; reports.refusals() == 0);
    }
    Ok(())
}

// What a clock reads, one reading after another. `None` is a reading that fails, as do those behind the last one.
type Readings = &'static [Option<u64>];

// A machine whose clock reads these nanoseconds.
#[derive(Drop)]
struct KnownClock<R> {
    rt: R,
    readings: Readings,
    next: Cell<usize>,
}

impl<R> KnownClock<R> {
    fn new(rt: R, readings: Readings) -> Self {
        KnownClock {
            rt,
            readings,
            next: Cell::new(0),
        }
    }
}

impl<R: Wait> Wait for KnownClock<R> {}

impl<R> Clock for KnownClock<R> {
    fn monotonic(&self) -> io::Result<Duration> {
        let next = self.next.get();
        self.next.set(next.saturating_add(1));
        match self.readings.get(next) {
            Some(Some(nanos)) => Ok(Duration::from_nanos(*nanos)),
            _ => Err(io::Error::from(ErrorKind::Unsupported)),
        }
    }

    fn since_1970(&self) -> io::Result<Duration> {
        Err(io::Error::from(ErrorKind::Unsupported))
    }
}

// What the clock reads before and after a trial, and the time that is noted: 0 if it went back or couldn't be read.
static TIMES: [(Readings, u64); 5] = [
    (&[Some(5), Some(12), Some(90)], 7),
    (&[Some(0), Some(u64::MAX)], u64::MAX),
    (&[Some(12), Some(5)], 0),
    (&[None, Some(12)], 0),
    (&[Some(5), None], 0),
];

// A worker notes how long a trial ran at its place, and nowhere else.
#[test]
fn notes_times(rt: HostRuntime) -> Result<(), Fail> {
    for (readings, time) in &TIMES {
        let clock = KnownClock::new(rt, *readings);
        let inbox = Inbox::with_times(rt.alloc(), 3, 1, true, None)?;
        let reports = inbox.reports(clock, rt.alloc())?;
        let started = reports.begin(1);
        reports.end(1, started);
        reports.end(3, started);
        assert!(rt; inbox.time(1) == Some(*time), "{readings:?}");
        assert!(rt; inbox.time(0) == Some(0) && inbox.time(2) == Some(0));
    }
    Ok(())
}

// Five runners, which are dealt out to two workers. The last one is ignored.
const FIVE: [Plain; 5] = [
    Plain::Passed,
    Plain::Failed(None),
    Plain::Passed,
    Plain::Measured(32, 3),
    Plain::Passed,
];

// What the clocks of the two workers read, directly before and directly after each of their trials.
static EVEN_READINGS: Readings = &[
    Some(1_000),
    Some(1_007),
    Some(2_000),
    Some(2_000),
    Some(9_000),
    Some(9_050),
];

static ODD_READINGS: Readings = &[Some(500), Some(800), Some(4_000), Some(4_001)];

// The times of the trials that aren't ignored, by their places: the differences of the readings around each.
static TIMES_OF_FIVE: [u64; 4] = [7, 300, 0, 1];

// Each trial of a worker has its own time, and none has that of the trials before it, too.
#[test]
fn times_each_trial_of_a_worker(rt: HostRuntime) -> Result<(), Fail> {
    let alloc = rt.alloc();
    let inbox = Inbox::with_times(alloc, 5, 2, true, None)?;
    for share in shares_of_five(alloc, FIVE)? {
        let readings = if share.place(0) == Some(0) {
            EVEN_READINGS
        } else {
            ODD_READINGS
        };
        let mut reports = inbox.reports(KnownClock::new(rt, readings), alloc)?;
        let room = Vec::with_capacity(alloc, share.len())?;
        let _ = work(share, true, &mut reports, room);
    }
    for (place, time) in TIMES_OF_FIVE.iter().enumerate() {
        let noted = inbox.time(place);
        assert!(rt; noted == Some(*time), "{place} {noted:?}");
    }
    Ok(())
}

// A machine whose clock reads the square of the number of its readings before.
#[derive(Drop)]
struct SquareClock<R> {
    rt: R,
    readings: Cell<u64>,
}

impl<R: Wait> Wait for SquareClock<R> {}

impl<R> Clock for SquareClock<R> {
    fn monotonic(&self) -> io::Result<Duration> {
        let number = self.readings.get();
        self.readings.set(number.saturating_add(1));
        Ok(Duration::from_nanos(number.saturating_mul(number)))
    }

    fn since_1970(&self) -> io::Result<Duration> {
        Err(io::Error::from(ErrorKind::Unsupported))
    }
}

// There is room for the time of each of many trials. The one at place p runs between the readings 2p and 2p + 1, whose squares differ
// by 4p + 1.
#[test]
fn notes_times_of_many(rt: HostRuntime) -> Result<(), Fail> {
    for places in [300, 70_000] {
        let clock = SquareClock {
            rt,
            readings: Cell::new(0),
        };
        let inbox = Inbox::with_times(rt.alloc(), places, 1, true, None)?;
        let reports = inbox.reports(clock, rt.alloc())?;
        for place in 0..places {
            let started = reports.begin(place);
            reports.end(place, started);
        }
        for place in 0..places {
            let time = (place as u64).saturating_mul(4).saturating_add(1);
            assert!(rt; inbox.time(place) == Some(time), "{place}");
        }
        assert!(rt; inbox.time(places) == Some(0));
    }
    Ok(())
}

// An inbox that isn't timed has no times, and its workers read no clock.
#[test]
fn notes_no_times(rt: HostRuntime) -> Result<(), Fail> {
    let inbox = Inbox::new(rt.alloc(), 1, 1)?;
    let reports = inbox.reports(rt, rt.alloc())?;
    assert!(rt; reports.begin(0).is_none());
    reports.end(0, Some(0));
    assert!(rt; inbox.time(0).is_none());
    Ok(())
}

// Each worker marks the trial that it runs in a cell of its own, until the trial has ended. One for which there is no cell marks none.
#[test]
fn marks_what_runs(rt: HostRuntime) -> Result<(), Fail> {
    let alloc = rt.alloc();
    let running = Arc::new(alloc, RunningTrials::new(alloc, 2)?)?;
    let cells = Arc::try_clone(&running)?;
    let inbox = Inbox::with_times(alloc, 4, 3, false, Some(cells))?;
    let first = inbox.reports(rt, alloc)?;
    let second = inbox.reports(rt, alloc)?;
    let third = inbox.reports(rt, alloc)?;
    assert!(rt; are_marked(&running, [None, None]));
    assert!(rt; second.begin(0).is_none());
    assert!(rt; are_marked(&running, [None, Some(0)]));
    assert!(rt; first.begin(3).is_none() && third.begin(2).is_none());
    assert!(rt; are_marked(&running, [Some(3), Some(0)]));
    second.end(0, None);
    third.end(2, None);
    assert!(rt; are_marked(&running, [Some(3), None]));
    first.end(3, None);
    assert!(rt; are_marked(&running, [None, None]));
    Ok(())
}

// Whether the two cells hold the trials at these places.
fn are_marked(running: &RunningTrials, places: [Option<usize>; 2]) -> bool {
    match running.cells() {
        [first, second] => [first.place(), second.place()] == places,
        _ => false,
    }
}

// Whether these rows come next, and no more.
fn gives_all<R: Wait>(rt: &R, inbox: &mut Inbox, rows: &[(usize, Plain)]) -> bool {
    let mut same = true;
    for (place, row) in rows {
        same = same && gives(rt, inbox, *place, *row);
    }
    same && is_at_end(rt, inbox)
}

// The rows of two workers behind the first one, which is taken while they report.
const ROWS: [(usize, Plain); 5] = [
    (0, Plain::Ignored),
    (3, Plain::Measured(3, 0)),
    (5, Plain::Measured(5, 0)),
    (2, Plain::Passed),
    (4, Plain::Ignored),
];

// Rows come in the order of their reports, whoever made them, also if some were taken between them.
#[test]
fn gives_rows_in_the_order_of_their_reports(rt: HostRuntime) -> Result<(), Fail> {
    let mut inbox = Inbox::new(rt.alloc(), 6, 2)?;
    let mut first = inbox.reports(rt, rt.alloc())?;
    let mut second = inbox.reports(rt, rt.alloc())?;
    assert!(rt; second.tell(1, &Outcome::Passed).is_ok());
    assert!(rt; first.tell(0, &Outcome::Ignored).is_ok());
    assert!(rt; second.tell(3, &numbered(3)).is_ok());
    assert!(rt; gives(&rt, &mut inbox, 1, Plain::Passed));
    assert!(rt; second.tell(5, &numbered(5)).is_ok());
    assert!(rt; first.tell(2, &Outcome::Passed).is_ok());
    drop(first);
    assert!(rt; second.tell(4, &Outcome::Ignored).is_ok());
    drop(second);
    assert!(rt; gives_all(&rt, &mut inbox, &ROWS));
    Ok(())
}

// An outcome that can't be copied is refused, and another row is reported after it.
#[test]
fn refuses_what_it_cannot_copy(rt: HostRuntime) -> Result<(), Fail> {
    let woops = Plain::Failed(Some("Woops"));
    let outcome = woops.outcome(rt.alloc())?;
    let mut inbox = Inbox::new(rt.alloc(), 2, 1)?;
    let mut reports = inbox.reports(rt, rt.alloc())?;
    let told = reports.tell(0, &outcome);
    assert!(rt; reports.tell(1, &Outcome::Passed).is_ok());
    assert!(rt; reports.refusals() == u64::from(told.is_err()));
    if told.is_ok() {
        assert!(rt; gives(&rt, &mut inbox, 0, woops));
    }
    assert!(rt; gives(&rt, &mut inbox, 1, Plain::Passed));
    Ok(())
}

// Returns the number of its place once `rows` rows were taken. If that doesn't happen in time, it fails, and lets no other
// task wait.
#[derive(Drop)]
struct Awaits {
    taken: Arc<AtomicU64>,
    rows: u64,
    place: usize,
}

impl Task for Awaits {
    fn run(self, _test_mode: bool) -> Outcome {
        for _ in 0..10_000_000 {
            if self.taken.load(Ordering::SeqCst) >= self.rows {
                return numbered(self.place);
            }
            thread::yield_now();
        }
        self.taken.store(u64::MAX / 2, Ordering::SeqCst);
        Outcome::Failed(Failed::without_message())
    }
}

// `trials` tasks that wait for two workers, none of which is ignored.
fn waiting_tasks<T: Task, R: Wait, F: Fn(usize) -> Result<T, AllocError>>(
    rt: &R,
    alloc: Global,
    schedule: Schedule,
    trials: usize,
    task: F,
) -> Result<WaitingTrials<T>, AllocError>
    requires made { F.IsAlwaysCallable task }
    requires runnable { (made : T) → T.can_run made }
    ensures { IfOk result (λ waiting. (held : List (Assigned T)) × (length held ≤ trials) × Holds T.can_run waiting held) }
{
    let mut waiting = WaitingTrials::new(alloc, schedule, trials, 2)?;
    for place in 0..trials {
        waiting.put(rt, place, task(place)?, false)?;
    }
    Ok(waiting)
}

// Runs `trials` tasks by two workers, and returns the rows in the order in which they were taken, and what the workers
// returned. `taken` counts the rows.
fn rows_taken<
    T: Task + Send + 'static,
    R: Spawner + 'static,
    F: Fn(usize) -> Result<T, AllocError>,
>(
    rt: &R,
    alloc: Global,
    schedule: Schedule,
    trials: usize,
    task: F,
    taken: &AtomicU64,
) -> Result<(Vec<(usize, Outcome)>, Vec<Rows>), Fail>
    requires made { F.IsAlwaysCallable task }
    requires runnable { (made : T) → T.can_run made }
{
    let mut rows = Vec::with_capacity(alloc, trials)?;
    let waiting = waiting_tasks(rt, alloc, schedule, trials, task)?;
    let (mut inbox, ready) = waiting.prepare(rt, alloc, trials, false, None)?;
    let Some(workers) = start_workers(rt, alloc, ready, true) else {
        return Err(Fail::new("a worker could not be started"));
    };
    for _ in rt.forever() {
        let Some(row) = inbox.next(rt) else {
            break;
        };
        // There is room for each, and one that were lost here would be missed.
        let _ = rows.push(row);
        taken.fetch_add(1, Ordering::SeqCst);
    }
    Ok((rows, join_workers(rt, workers, true)))
}

// How tasks come to two workers, how many there are, and which of them await rows: the one at a multiple of `step` ends once
// as many rows were taken as there are lower places.
#[derive(Clone, Copy)]
struct Asked {
    schedule: Schedule,
    trials: usize,
    step: usize,
}

impl Asked {
    // The task at the place, which returns its number.
    fn task(
        &self,
        alloc: Global,
        place: usize,
        taken: &Arc<AtomicU64>,
    ) -> Result<Awaits, AllocError> {
        let rows = match place.checked_rem(self.step) {
            Some(0) => place as u64,
            _ => 0,
        };
        let taken = Arc::try_clone(taken)?;
        Ok(Awaits { taken, rows, place })
    }
}

// Whether these are the rows of `trials` places, each once and with its number.
fn are_whole(alloc: Global, rows: &[(usize, Outcome)], trials: usize) -> Result<bool, AllocError> {
    let mut came = vec![in alloc; false; trials]?;
    let mut same = rows.len() == trials;
    for (place, outcome) in rows {
        let is_first = came.get(*place) == Some(&false);
        same = same && is_first && *outcome == numbered(*place);
        if is_first {
            came[*place] = true;
        }
    }
    Ok(same)
}

// Whether each of two workers reported the rows of its share in their order.
fn are_in_order(rows: &[(usize, Outcome)]) -> bool {
    let mut next = [0, 1];
    let mut same = true;
    for (place, _) in rows {
        let worker = place % 2;
        same = same && *place == next[worker];
        next[worker] = place.saturating_add(2);
    }
    same
}

// Whether a desk has all that the workers returned, once the rows have arrived.
fn has_all(
    alloc: Global,
    rows: Vec<(usize, Outcome)>,
    joined: &[Rows],
    trials: usize,
) -> Result<bool, AllocError> {
    let mut desk = Desk::new(alloc, trials)?;
    for (place, outcome) in rows {
        desk.arrive(place, outcome);
    }
    Ok(desk.has_all(joined))
}

// Whether the workers returned its number for each of `trials` places.
fn are_numbered(alloc: Global, joined: Vec<Rows>, trials: usize) -> Result<bool, AllocError> {
    let mut outcomes = Vec::with_capacity(alloc, trials)?;
    for _place in 0..trials {
        outcomes.push(Outcome::Ignored)?;
    }
    let outcomes = put_joined(joined, outcomes);
    let mut same = outcomes.len() == trials;
    for place in 0..outcomes.len() {
        same = same && outcomes[place] == numbered(place);
    }
    Ok(same)
}

// Each row comes once, with its own outcome, and those of a share in order, and the workers return the same.
fn check_rows<R: Spawner + Abort + 'static>(
    rt: &R,
    alloc: Global,
    asked: Asked,
) -> Result<(), Fail> {
    let trials = asked.trials;
    let taken = Arc::new(alloc, AtomicU64::new(0))?;
    let task = |place: usize| asked.task(alloc, place, &taken);
    let (rows, joined) = rows_taken(rt, alloc, asked.schedule, trials, task, &taken)?;
    assert!(rt; are_whole(alloc, &rows, trials)?);
    assert!(rt; asked.schedule == Schedule::Queue || are_in_order(&rows));
    assert!(rt; has_all(alloc, rows, &joined, trials)?);
    assert!(rt; are_numbered(alloc, joined, trials)?);
    Ok(())
}

static SCHEDULES: [Schedule; 2] = [Schedule::Shares, Schedule::Queue];

// Two workers report as fast as they can, and each row comes before the workers are joined, also of many trials.
#[test]
fn two_workers_lose_nothing(rt: HostRuntime) -> Result<(), Fail> {
    for round in 0..202 {
        let trials = if round < 200 { 600 } else { 70_000 };
        let asked = Asked {
            schedule: SCHEDULES[round % 2],
            trials,
            step: trials,
        };
        check_rows(&rt, rt.alloc(), asked)?;
    }
    Ok(())
}

// Each task, each of one worker's share, or each third awaits as many rows as there are lower places, so the taking thread is
// often asleep when one ends, or about to be. A wake-up that is lost leaves it asleep while rows wait. Then a task waits in vain,
// and fails.
//
// A run that asked too early whether a row waits lost one in some 7 of 100 rounds.
#[test]
fn no_wake_up_is_lost(rt: HostRuntime) -> Result<(), Fail> {
    for round in 0..66 {
        let asked = Asked {
            schedule: SCHEDULES[round % 2],
            trials: 6_000,
            step: 1 + round % 3,
        };
        check_rows(&rt, rt.alloc(), asked)?;
    }
    Ok(())
}
