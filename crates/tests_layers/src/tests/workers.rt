//! Shares and workers, over reports in memory.
ghost use Rattle.std.specs.Prelude.{◌≤◌, length};
ghost use Rattle.mimic_pool.specs.Share.{AllRunners};

use super::Plain;
use mimic_pool::{MemoryReports, Reports, Share, Untold, deal, work};
use mimic_trial::{Failed, Measurement, Outcome, Runner, Task, TestRunner};
use std::alloc::{AllocError, Global};
use std::cell::Cell;
use std::process::Abort;
use std::sync::Arc;
use std::sync::atomic::{AtomicU64, Ordering};
use std::test::Fail;

// A runner that is the outcome which it returns.
#[derive(Drop)]
pub(super) struct Becomes(Outcome);

impl Task for Becomes {
    fn run(self, _test_mode: bool) -> Outcome {
        self.0
    }
}

// Whether the share has these places, and no more.
fn has_places<T>(share: &Share<T>, places: &[usize]) -> bool {
    let mut same = share.len() == places.len() && share.place(places.len()).is_none();
    for at in 0..places.len() {
        same = same && share.place(at) == Some(places[at]);
    }
    same
}

// Whether dealing `len` runners to as many workers as there are lists gives them these places.
fn are_dealt(alloc: Global, len: usize, dealt: &[&[usize]]) -> Result<bool, AllocError>
    requires { 1 ≤ length dealt.now }
{
    let runners = vec![in alloc; (); len]?;
    let ignored = vec![in alloc; false; len]?;
    let shares = deal(alloc, runners, ignored, dealt.len())?;
    let mut same = true;
    for worker in 0..dealt.len() {
        same = same && has_places(&shares[worker], dealt[worker]);
    }
    Ok(same)
}

#[test]
fn deals_by_remainders(rt: HostRuntime) -> Result<(), Fail> {
    assert!(rt; are_dealt(rt.alloc(), 5, &[&[0, 2, 4], &[1, 3]])?);
    assert!(rt; are_dealt(rt.alloc(), 2, &[&[0], &[1], &[]])?);
    Ok(())
}

fn becoming(alloc: Global, outcome: Plain) -> Result<Becomes, AllocError> {
    Ok(Becomes(outcome.outcome(alloc)?))
}

// The shares of two workers of runners that return these outcomes at the places 0, 1, .. None is ignored but the last one.
pub(super) fn shares_of_five(
    alloc: Global,
    outcomes: [Plain; 5],
) -> Result<Vec<Share<Becomes>>, AllocError> {
    let runners = vec![in alloc;
        becoming(alloc, outcomes[0])?,
        becoming(alloc, outcomes[1])?,
        becoming(alloc, outcomes[2])?,
        becoming(alloc, outcomes[3])?,
        becoming(alloc, outcomes[4])?,
    ]?;
    let ignored = vec![in alloc; false, false, false, false, true]?;
    deal(alloc, runners, ignored, 2)
}

fn is_row(row: &(usize, Outcome), expected: Option<&(usize, Plain)>) -> bool {
    match expected {
        Some((place, outcome)) => row.0 == *place && outcome.is(&row.1),
        None => false,
    }
}

fn have_rows(rows: &[(usize, Outcome)], expected: &[(usize, Plain)]) -> bool {
    let mut same = rows.len() == expected.len();
    for at in 0..rows.len() {
        same = same && is_row(&rows[at], expected.get(at));
    }
    same
}

// What runners return, the last of which is ignored.
const OUTCOMES: [Plain; 5] = [
    Plain::Failed(Some("Woops")),
    Plain::Passed,
    Plain::Measured(32, 3),
    Plain::Passed,
    Plain::Passed,
];

// The rows of the two workers.
static EVEN: [(usize, Plain); 3] = [
    (0, Plain::Failed(Some("Woops"))),
    (2, Plain::Measured(32, 3)),
    (4, Plain::Ignored),
];

static ODD: [(usize, Plain); 2] = [(1, Plain::Passed), (3, Plain::Passed)];

// The rows of the worker whose first place is this.
fn rows_from(first: Option<usize>) -> &'static [(usize, Plain)] {
    if first == Some(0) { &EVEN } else { &ODD }
}

// A worker returns these rows, and counts each as reported or refused. If there was no memory for a copy, the row is returned
// all the same.
fn check_work<T: Task>(
    rt: &impl Abort,
    alloc: Global,
    share: Share<T>,
    test_mode: bool,
    rows: &[(usize, Plain)],
) -> Result<(), AllocError>
    requires { AllRunners T.can_run share }
{
    let room = Vec::with_capacity(alloc, share.len())?;
    let mut reports = MemoryReports::new(alloc);
    let answer = work(share, test_mode, &mut reports, room);
    assert!(rt; have_rows(&answer, rows));
    assert!(rt; reports.told() + reports.refusals() == rows.len() as u64);
    if reports.refusals() > 0 {
        return Err(AllocError);
    }
    assert!(rt; have_rows(reports.rows(), rows));
    Ok(())
}

#[test]
fn tells_what_it_answers(rt: HostRuntime) -> Result<(), Fail> {
    let shares = shares_of_five(rt.alloc(), OUTCOMES)?;
    for share in shares {
        let rows = rows_from(share.place(0));
        check_work(&rt, rt.alloc(), share, false, rows)?;
    }
    Ok(())
}

// Boxed runners: the one that is ignored isn't called. Each that is adds its number.
#[test]
fn drops_what_is_ignored(rt: HostRuntime) -> Result<(), Fail> {
    let alloc = rt.alloc();
    let called = Arc::new(alloc, AtomicU64::new(0))?;
    let first = Arc::try_clone(&called)?;
    let first: Box<dyn FnOnce() -> Result<(), Failed> + Send> = Box::new(alloc, move || {
        first.fetch_add(1, Ordering::SeqCst);
        Ok(())
    })?;
    let second = Arc::try_clone(&called)?;
    let second: Box<dyn FnOnce() -> Result<(), Failed> + Send> = Box::new(alloc, move || {
        second.fetch_add(2, Ordering::SeqCst);
        Ok(())
    })?;
    let runners = vec![in alloc;
        Runner::Test(TestRunner::new(first)),
        Runner::Test(TestRunner::new(second)),
    ]?;
    for share in deal(alloc, runners, vec![in alloc; true, false]?, 1)? {
        check_work(
            &rt,
            alloc,
            share,
            true,
            &[(0, Plain::Ignored), (1, Plain::Passed)],
        )?;
    }
    assert!(rt; called.load(Ordering::SeqCst) == 2);
    Ok(())
}

// Measures how many rows were reported before it runs.
#[derive(Drop)]
struct Counts(Arc<AtomicU64>);

impl Task for Counts {
    fn run(self, _test_mode: bool) -> Outcome {
        Outcome::Measured(Measurement {
            avg: self.0.load(Ordering::SeqCst),
            variance: 0,
        })
    }
}

// Raises a counter that runners see.
#[derive(Drop)]
struct Raises {
    told: u64,
    seen: Arc<AtomicU64>,
}

impl Reports for Raises {
    ghost told_of = { λ reports. reports.told };

    ghost refused_by = { λ _. 0 };

    ghost heard = { λ _ _. Unit {0} };

    fn tell(&mut self, _place: usize, _outcome: &Outcome) -> Result<(), Untold> {
        self.told += 1;
        self.seen.store(self.told, Ordering::SeqCst);
        Ok(())
    }

    fn refusals(&self) -> u64 {
        0
    }

    fn told(&self) -> u64 {
        self.told
    }
}

// The shares of one worker of three such runners.
fn counting_shares(alloc: Global, seen: &Arc<AtomicU64>) -> Result<Vec<Share<Counts>>, AllocError> {
    let runners = vec![in alloc;
        Counts(Arc::try_clone(seen)?),
        Counts(Arc::try_clone(seen)?),
        Counts(Arc::try_clone(seen)?),
    ]?;
    deal(alloc, runners, vec![in alloc; false, false, false]?, 1)
}

// The rows of those runners if each is reported before the next is called.
const COUNTED: [(usize, Plain); 3] = [
    (0, Plain::Measured(0, 0)),
    (1, Plain::Measured(1, 0)),
    (2, Plain::Measured(2, 0)),
];

// Each row is reported before the next runner is called.
#[test]
fn tells_when_a_trial_has_ended(rt: HostRuntime) -> Result<(), Fail> {
    let seen = Arc::new(rt.alloc(), AtomicU64::new(0))?;
    for share in counting_shares(rt.alloc(), &seen)? {
        let room = Vec::with_capacity(rt.alloc(), share.len())?;
        let mut reports = Raises {
            told: 0,
            seen: Arc::try_clone(&seen)?,
        };
        let answer = work(share, false, &mut reports, room);
        assert!(rt; have_rows(&answer, &COUNTED));
    }
    assert!(rt; seen.load(Ordering::SeqCst) == 3);
    Ok(())
}

// A call, and for which place it was.
#[derive(Clone, Copy, Debug, PartialEq, Eq)]
enum Call {
    Begin(usize),
    Run(usize),
    // With the reading that it was given.
    End(usize, Option<u64>),
    Tell(usize),
}

// The calls that were made, one after another.
#[derive(Drop)]
struct Calls {
    alloc: Global,
    made: Cell<Vec<Call>>,
}

impl Calls {
    fn note(&self, call: Call) {
        let mut made = self.made.replace(Vec::new(self.alloc));
        // One that were lost here would be missed.
        let _ = made.push(call);
        self.made.set(made);
    }
}

// Notes that it was called.
#[derive(Drop)]
struct NotedTask<'a> {
    calls: &'a Calls,
    place: usize,
}

impl Task for NotedTask<'_> {
    fn run(self, _test_mode: bool) -> Outcome {
        self.calls.note(Call::Run(self.place));
        Outcome::Passed
    }
}

// Notes what it is called for. Its reading before the trial at place p is 70 + p.
#[derive(Drop)]
struct NotedReports<'a> {
    calls: &'a Calls,
    told: u64,
}

impl Reports for NotedReports<'_> {
    ghost told_of = { λ reports. reports.told };

    ghost refused_by = { λ _. 0 };

    ghost heard = { λ _ _. Unit {0} };

    fn tell(&mut self, place: usize, _outcome: &Outcome) -> Result<(), Untold> {
        self.told += 1;
        self.calls.note(Call::Tell(place));
        Ok(())
    }

    fn begin(&self, place: usize) -> Option<u64> {
        self.calls.note(Call::Begin(place));
        Some((place as u64).saturating_add(70))
    }

    fn end(&self, place: usize, started: Option<u64>) {
        self.calls.note(Call::End(place, started));
    }

    fn refusals(&self) -> u64 {
        0
    }

    fn told(&self) -> u64 {
        self.told
    }
}

// The share of one worker of three such tasks, the second of which is ignored.
fn noted_shares(alloc: Global, calls: &Calls) -> Result<Vec<Share<NotedTask<'_>>>, AllocError> {
    let runners = vec![in alloc;
        NotedTask { calls, place: 0 },
        NotedTask { calls, place: 1 },
        NotedTask { calls, place: 2 },
    ]?;
    deal(alloc, runners, vec![in alloc; false, true, false]?, 1)
}

const CALLS: [Call; 11] = [
    Call::Begin(0),
    Call::Run(0),
    Call::End(0, Some(70)),
    Call::Tell(0),
    Call::Begin(1),
    Call::End(1, Some(71)),
    Call::Tell(1),
    Call::Begin(2),
    Call::Run(2),
    Call::End(2, Some(72)),
    Call::Tell(2),
];

// Directly around its runner a trial is begun and ended, with the reading of its own begin. Only then its row is reported: whoever
// takes the row finds the time noted.
#[test]
fn ends_a_trial_before_it_tells(rt: HostRuntime) -> Result<(), Fail> {
    let alloc = rt.alloc();
    let calls = Calls {
        alloc,
        made: Cell::new(Vec::with_capacity(alloc, CALLS.len())?),
    };
    for share in noted_shares(alloc, &calls)? {
        let room = Vec::with_capacity(alloc, share.len())?;
        let mut reports = NotedReports {
            calls: &calls,
            told: 0,
        };
        let _ = work(share, true, &mut reports, room);
    }
    let made = calls.made.replace(Vec::new(alloc));
    assert!(rt; made.as_slice() == CALLS.as_slice(), "{made:?}");
    Ok(())
}
