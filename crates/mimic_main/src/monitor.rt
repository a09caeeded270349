//! Prints which trials run for too long, while they do.
ghost use Rattle.std.specs.Prelude.{◌≡◌, ◌≢◌, ◌*◌, ◌/◌, ◌-◌, ◌^◌, ◌≤◌, IfSome, IsNone, IsSome, None, Some, false, min, nat_lt, true};
ghost use Rattle.std.specs.Duration.{as_nanos};
ghost use Rattle.mimic_pool.specs.declared.waiting_trials.Schedule.TheVariants.{Queue, Shares};

use crate::full_names::FullNames;
use crate::output::BLOCK;
use arrayvec::ArrayVec;
use libtest_mimic::{Request, RunningTrials, Schedule, Sink, Spawner, Task};
use mimic_printer::{Piece, Place, add_escaped, add_pieces};
use std::alloc::{AllocError, Global};
use std::io::Write;
use std::rt::Clock;
use std::sync::atomic::{AtomicBool, Ordering};
use std::sync::{Arc, Mutex, Wait};
use std::thread;
use std::thread::{JoinHandle, Parker};
use std::time::Duration;

// For how many milliseconds a run waits at its end for a notice that is being written, as to a full pipe that nobody reads.
const LAST_WAIT: u64 = 100;

// For how many milliseconds a run waits at its start if there is no thread left, before its workers are started.
const FIRST_WAIT: u64 = 50;

// A thread that prints a notice of each trial that runs for too long.
pub(crate) struct Monitor {
    running: Arc<RunningTrials>,
    ends: Arc<Ends>,
    thread: JoinHandle<()>,
}

// Which notices are asked for.
#[derive(Drop)]
pub(crate) struct Notices<'a, E> {
    // The program that prints them.
    pub(crate) program: &'a str,
    // How long a trial runs before it is printed, if any is.
    pub(crate) limit: Option<Duration>,
    // Where they go.
    pub(crate) err: E,
}

// Prints notices, in another thread.
#[derive(Drop)]
struct Notifier<E> {
    program: String,
    // What the selected trials are called.
    names: FullNames,
    limit: Duration,
    err: E,
}

impl Monitor {
    // Starts the thread for a run of this request. `None` if no notices are asked for, if no trial runs, if the thread can't be
    // started beside the workers that the run needs, or if there is no memory for it.
    pub(crate) fn start<T: Spawner + 'static, R: Task, E: Write + Send + Drop + 'static>(
        rt: &T,
        alloc: Global,
        request: &Request<'_, R>,
        notices: Notices<'_, E>,
    ) -> Option<Monitor> {
        let Notices {
            program,
            limit,
            err,
        } = notices;
        let limit = limit?;
        if request.selection.args.list {
            return None;
        }
        let names = FullNames::of_trials(alloc, request.selection.trials.as_slice()).ok()?;
        let threads = request.threads().min(names.len());
        if threads == 0 {
            return None;
        }
        let running = Arc::new(alloc, RunningTrials::new(alloc, threads).ok()?).ok()?;
        let ends = Arc::new(alloc, Ends::new()).ok()?;
        let looks = first_looks(alloc, threads).ok()?;
        let notifier = Notifier {
            program: String::from_str(alloc, program).ok()?,
            names,
            limit,
            err,
        };
        let (other, watched) = (*rt, Arc::try_clone(&running).ok()?);
        let awaited = Arc::try_clone(&ends).ok()?;
        let workers = needed_workers(request.threads(), request.schedule, threads);
        let thread = start_beside(rt, alloc, workers, move || {
            watch_over(&other, &watched, &awaited.of_run, looks, notifier);
            awaited.of_thread.has_come();
        })?;
        Some(Monitor {
            running,
            ends,
            thread,
        })
    }

    // Where trials are to be marked while they run. `None` if it can't be shared.
    pub(crate) fn running(&self) -> Option<Arc<RunningTrials>> {
        Arc::try_clone(&self.running).ok()
    }

    // Ends the thread, once it has written the notice that it is writing. If that takes longer, it is let go, and ends with the
    // program.
    pub(crate) fn end<T: Spawner>(self, rt: &T) {
        let Monitor {
            running: _,
            ends,
            thread,
        } = self;
        ends.of_run.has_come();
        if ends.of_thread.wait(rt, Duration::from_millis(LAST_WAIT)) {
            thread.join(rt);
        }
    }
}

// How many workers a run on this number of threads can't do without, if it has no more than `most`: with one thread it has none,
// from a queue one takes all trials, and of those that have shares it needs all.
fn needed_workers(threads: usize, schedule: Schedule, most: usize) -> usize
    ensures none { threads ≡ 1 → result ≡ 0 }
    ensures queue { threads ≢ 1 → schedule ≡ Queue → result ≡ 1 }
    ensures shares { threads ≢ 1 → schedule ≡ Shares → result ≡ most }
{
    match (threads, schedule) {
        (1, _) => 0,
        (_, Schedule::Queue) => 1,
        (_, Schedule::Shares) => most,
    }
}

// Starts the thread, unless it would take the place of one of this number of workers: as many threads, which do nothing, are in
// these places until it is started.
fn start_beside<T: Spawner + 'static, F: FnOnce() + Send + Drop + 'static>(
    rt: &T,
    alloc: Global,
    workers: usize,
    watch: F,
) -> Option<JoinHandle<()>>
    requires { F.pre watch }
{
    let gate = Arc::new(alloc, Mutex::new(())).ok()?;
    let closed = gate.lock(rt);
    let places = hold_places(rt, alloc, workers, &gate)?;
    let thread = thread::spawn(rt, watch).ok();
    drop(closed);
    for place in places {
        place.join(rt);
    }
    if thread.is_none() {
        // The system may give a place back only some time after its thread was joined.
        End::new().wait(rt, Duration::from_millis(FIRST_WAIT));
    }
    thread
}

// Starts this number of threads, which end once the gate is open. `None` if one of them can't be started.
fn hold_places<T: Spawner + 'static>(
    rt: &T,
    alloc: Global,
    count: usize,
    gate: &Arc<Mutex<()>>,
) -> Option<Vec<JoinHandle<()>>> {
    let mut places = Vec::with_capacity(alloc, count).ok()?;
    for _ in 0..count {
        let (other, gate) = (*rt, Arc::try_clone(gate).ok()?);
        let place = thread::spawn(rt, move || drop(gate.lock(&other)));
        places.push(place.ok()?).ok()?;
    }
    Some(places)
}

// The ends that threads wait for.
#[derive(Drop)]
struct Ends {
    // For this one the thread waits that looks at the run.
    of_run: End,
    // For this one the run waits.
    of_thread: End,
}

impl Ends {
    fn new() -> Ends {
        Ends {
            of_run: End::new(),
            of_thread: End::new(),
        }
    }
}

// The end of a run or of a thread, for which another thread waits.
#[derive(Drop)]
struct End {
    is_here: AtomicBool,
    // Where it sleeps meanwhile.
    parker: Parker,
}

impl End {
    fn new() -> End {
        End {
            is_here: AtomicBool::new(false),
            parker: Parker::new(),
        }
    }

    // Waits for it, but no longer than `most`. Returns whether it has come. One thread alone may call it.
    fn wait<T: Wait>(&self, rt: &T, most: Duration) -> bool {
        self.parker.park_timeout(rt, most);
        self.is_here.load(Ordering::SeqCst)
    }

    // It has come. Wakes the thread that waits.
    fn has_come(&self) {
        self.is_here.store(true, Ordering::SeqCst);
        self.parker.unpark();
    }
}

// What was seen in a cell: the place of its trial, when that was first seen again, and whether it was printed.
#[derive(Clone, Copy)]
struct Look {
    place: Option<usize>,
    since: Option<Duration>,
    is_printed: bool,
}

impl Look {
    // Looks at the trial that is there now. Returns whether it has run for too long and wasn't printed yet.
    //
    // The clock is read only for a trial that was seen before, so for none that is fast.
    fn is_slow<T: Clock>(&mut self, rt: &T, place: Option<usize>, limit: Duration) -> bool
        ensures another { place ≢ self.old.place → (result ≡ false)
            × (self.new ≡ record { place = place; since = None; is_printed = false }) }
        ensures slow { result ≡ true → (place ≡ self.old.place) × IsSome place × IsSome self.old.since
            × (self.old.is_printed ≡ false) × (self.new.is_printed ≡ true) }
    {
        if place != self.place {
            *self = Look {
                place,
                since: None,
                is_printed: false,
            };
            return false;
        }
        if place.is_none() || self.is_printed {
            return false;
        }
        match rt.monotonic() {
            Ok(now) => self.is_slow_at(now, limit),
            Err(_) => false,
        }
    }

    // The same, once it was seen again, at this time.
    fn is_slow_at(&mut self, now: Duration, limit: Duration) -> bool
        ensures first { IsNone self.old.since
            → (result ≡ false) × (self.new ≡ record self.old { since = Some now }) }
        ensures later { IfSome self.old.since
            (λ since. (result ≡ nat_lt (as_nanos limit) (as_nanos now - as_nanos since))
            × (self.new ≡ record self.old { is_printed = result })) }
    {
        let Some(since) = self.since else {
            self.since = Some(now);
            return false;
        };
        self.is_printed = now.saturating_sub(since).as_nanos() > limit.as_nanos();
        self.is_printed
    }
}

// Nothing was seen yet in this number of cells.
fn first_looks(alloc: Global, count: usize) -> Result<Vec<Look>, AllocError> {
    let look = Look {
        place: None,
        since: None,
        is_printed: false,
    };
    let mut looks = Vec::with_capacity(alloc, count)?;
    for _ in 0..count {
        looks.push(look)?;
    }
    Ok(looks)
}

// Looks at the trials that run, again and again until the run is over.
fn watch_over<T: Wait + Clock, E: Write + Drop>(
    rt: &T,
    running: &RunningTrials,
    end: &End,
    looks: Vec<Look>,
    notifier: Notifier<E>,
) {
    let (mut looks, mut notifier) = (looks, notifier);
    let pause = notifier.pause();
    for _ in rt.forever() {
        if end.wait(rt, pause) {
            return;
        }
        look_at_all(rt, running, looks.as_mut_slice(), &mut notifier);
    }
}

// Looks at each cell, and prints the trials that have run for too long by now.
fn look_at_all<T: Clock, E: Write>(
    rt: &T,
    running: &RunningTrials,
    looks: &mut [Look],
    notifier: &mut Notifier<E>,
) {
    for (cell, look) in running.cells().iter().zip(looks.iter_mut()) {
        let place = cell.place();
        if look.is_slow(rt, place, notifier.limit) {
            notifier.print(place);
        }
    }
}

impl<E: Write> Notifier<E> {
    // How long the thread sleeps between two looks: an eighth of the limit, but no longer than a second, and at least a millisecond.
    fn pause(&self) -> Duration
        ensures second { as_nanos result ≤ 1_000_000_000 }
        ensures eighth { 8_000_000 ≤ as_nanos self.now.limit → as_nanos result * 8 ≤ as_nanos self.now.limit }
    {
        Duration::from_millis((millis_of(self.limit) / 8).clamp(1, 1000))
    }

    // Prints the trial at the place, if it can be. A line that a block holds is one write, so that no other program's text comes
    // between its parts.
    fn print(&mut self, place: Option<usize>) {
        let program = self.program.as_str();
        let name = place.and_then(|place| self.names.get(place)).unwrap_or(&[]);
        let mut block: Sink<ArrayVec<u8, BLOCK>> = Sink::new(ArrayVec::new());
        add_notice(&mut block, program, name, self.limit);
        if block.has_fault() {
            add_notice(&mut Sink::new(&mut self.err), program, name, self.limit);
        } else {
            let _ = self.err.write_all(block.into_inner().as_slice());
        }
    }
}

// Adds that the trial of this full name has run for longer than the limit.
fn add_notice<W: Write>(sink: &mut Sink<W>, program: &str, name: &[u8], limit: Duration) {
    sink.add(program.as_bytes());
    sink.add(b": ");
    add_escaped(sink, name, Place::Line);
    let (number, unit) = in_words(limit);
    add_pieces(
        sink,
        &[
            Piece::Text(" has been running for over "),
            Piece::Number(number),
            Piece::Text(unit),
            Piece::Text("\n"),
        ],
    );
}

// A time as people say it: whole seconds, if it is some, else milliseconds.
fn in_words(time: Duration) -> (u64, &'static str) {
    match (time.as_secs(), time.subsec_nanos()) {
        (1, 0) => (1, " second"),
        (seconds @ 2.., 0) => (seconds, " seconds"),
        _ => (millis_of(time), " ms"),
    }
}

// Its whole milliseconds.
fn millis_of(time: Duration) -> u64
    ensures { result ≡ min (as_nanos time / 1_000_000) (2 ^ 64 - 1) }
{
    u64::try_from(time.as_millis()).unwrap_or(u64::MAX)
}
