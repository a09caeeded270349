//! Which trial is marked while it runs, for another thread that looks, in a run by one thread.
use libtest_mimic::{
    Arguments, Failed, FormatSetting, Outcome, Request, RunningTrials, Schedule, Selection, Sink,
    Spawner, Stopwatch, Task, Trial, run_request,
};
use mimic_testkit::{Fault, FaultyWriter, TwoReadings};
use std::alloc::{AllocError, Global};
use std::io;
use std::io::Write;
use std::sync::Arc;
use std::test::Fail;

// The place of the trial that is marked, where one thread marks.
fn place_marked(running: &RunningTrials) -> Option<usize> {
    match running.cells() {
        [cell] => cell.place(),
        _ => None,
    }
}

// Passes if the trial at this place is marked while it runs.
#[derive(Drop)]
struct Marked {
    running: Arc<RunningTrials>,
    place: usize,
}

impl Task for Marked {
    fn run(self, _test_mode: bool) -> Outcome {
        if place_marked(&self.running) == Some(self.place) {
            Outcome::Passed
        } else {
            Outcome::Failed(Failed::without_message())
        }
    }
}

// A writer that looks whether a trial is marked while it writes.
#[derive(Drop)]
struct Looking {
    running: Arc<RunningTrials>,
    writer: FaultyWriter,
    has_seen_one: bool,
}

impl Looking {
    fn look(&mut self) {
        self.has_seen_one = self.has_seen_one || place_marked(&self.running).is_some();
    }
}

impl Write for Looking {
    fn write(&mut self, buf: &[u8]) -> io::Result<usize> {
        self.look();
        self.writer.write(buf)
    }

    fn flush(&mut self) -> io::Result<()> {
        self.look();
        self.writer.flush()
    }
}

// The names of trials, and whether each is ignored. Those that are skipped have no place.
static TRIALS: [(&str, bool); 7] = [
    ("skipped", false),
    ("a", true),
    ("b", false),
    ("c", true),
    ("skipped too", false),
    ("d", true),
    ("e", false),
];

fn marked_trials(
    alloc: Global,
    running: &Arc<RunningTrials>,
) -> Result<Vec<Trial<Marked>>, AllocError> {
    let mut trials = Vec::new(alloc);
    let mut place = 0_usize;
    for (name, is_ignored) in &TRIALS {
        let running = Arc::try_clone(running)?;
        let name = String::from_str(alloc, name)?;
        let is_skipped = name.as_str().contains("skipped");
        trials.push(Trial::new(name, Marked { running, place }).with_ignored_flag(*is_ignored))?;
        place = place.saturating_add(usize::from(!is_skipped));
    }
    Ok(trials)
}

// What a run leaves.
#[derive(Drop)]
struct Left {
    // How many trials passed and failed, unless it was refused.
    counts: Option<(u64, u64)>,
    writer: FaultyWriter,
    has_seen_one: bool,
    // Whether a trial is marked when it has ended.
    is_marked: bool,
}

// Runs the trials in one thread.
fn run_marked<T: Spawner + 'static>(
    rt: &T,
    alloc: Global,
    format: FormatSetting,
    writer: FaultyWriter,
) -> Result<Left, Fail> {
    let mut args = Arguments::new(alloc);
    args.format = Some(format);
    args.skip.push(String::from_str(alloc, "skipped")?)?;
    let running = Arc::new(alloc, RunningTrials::new(alloc, 1)?)?;
    let trials = marked_trials(alloc, &running)?;
    let mut sink = Sink::new(Looking {
        running: Arc::try_clone(&running)?,
        writer,
        has_seen_one: false,
    });
    let request = Request {
        selection: Selection::new(&args, trials),
        default_threads: 1,
        auto_colours: false,
        schedule: Schedule::Queue,
        running: Some(Arc::try_clone(&running)?),
    };
    let mut watch = Stopwatch::new(TwoReadings::still());
    watch.start();
    let ended = run_request(rt, alloc, request, &mut sink, &mut watch);
    let looking = sink.into_inner();
    Ok(Left {
        counts: ended
            .ok()
            .map(|counts| (counts.num_passed, counts.num_failed)),
        writer: looking.writer,
        has_seen_one: looking.has_seen_one,
        is_marked: place_marked(&running).is_some(),
    })
}

static FORMATS: [FormatSetting; 3] = [
    FormatSetting::Pretty,
    FormatSetting::Terse,
    FormatSetting::Json,
];

// While a trial runs, its own place among the selected ones is marked, also behind trials that are ignored. When its runner has ended
// it isn't marked any more, so not while its row is written.
#[test]
fn marks_a_trial_while_it_runs(rt: HostRuntime) -> Result<(), Fail> {
    let alloc = rt.alloc();
    for format in FORMATS {
        let left = run_marked(&rt, alloc, format, FaultyWriter::new(alloc))?;
        assert!(rt; left.counts == Some((2, 0)), "{format:?} {:?}", left.counts);
        assert!(rt; !left.has_seen_one && !left.is_marked, "{format:?}");
    }
    Ok(())
}

// After a write fault, whatever was being written, none is marked either.
#[test]
fn marks_nothing_after_a_fault(rt: HostRuntime) -> Result<(), Fail> {
    let alloc = rt.alloc();
    let whole = run_marked(&rt, alloc, FormatSetting::Json, FaultyWriter::new(alloc))?;
    let places = whole.writer.places(alloc)?;
    assert!(rt; !places.is_empty());
    for place in places {
        let writer = FaultyWriter::new(alloc).failing(place, Fault::TakesNone);
        let left = run_marked(&rt, alloc, FormatSetting::Json, writer)?;
        assert!(rt; left.counts.is_none(), "{place:?}");
        assert!(rt; !left.has_seen_one && !left.is_marked, "{place:?}");
    }
    Ok(())
}
