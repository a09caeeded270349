//! Trials that are not run after a write fault.
use super::faulty_writer::FULL;
use super::runs::{Left, asking, run_by};
use libtest_mimic::{FormatSetting, Outcome, Schedule, Spawner, Task, Trial};
use mimic_testkit::{FaultPlace, FaultyWriter};
use std::alloc::{AllocError, Global};
use std::rt::Clock;
use std::sync::Arc;
use std::sync::atomic::{AtomicU64, Ordering};
use std::test::Fail;
use std::thread;
use std::time::Duration;

// How many runners were called, and how many were dropped without a call.
#[derive(Drop)]
struct Counts {
    called: AtomicU64,
    dropped: AtomicU64,
}

// Passes after some milliseconds.
struct Sleeps<M: Clock + Drop> {
    machine: M,
    counts: Arc<Counts>,
    millis: u64,
}

impl<M: Clock + Drop> Drop for Sleeps<M> {
    fn drop(self) {
        let Sleeps {
            machine: _,
            counts,
            millis: _,
        } = self;
        counts.dropped.fetch_add(1, Ordering::SeqCst);
    }
}

impl<M: Clock + Drop> Task for Sleeps<M> {
    fn run(self, _test_mode: bool) -> Outcome {
        // It is taken apart, so it isn't dropped as one that was not called.
        let Sleeps {
            machine,
            counts,
            millis,
        } = self;
        counts.called.fetch_add(1, Ordering::SeqCst);
        thread::sleep(&machine, Duration::from_millis(millis));
        Outcome::Passed
    }
}

// `count` trials. The first one ends at once, and each other one after `millis` milliseconds.
fn that_sleep<M: Clock + Copy + Drop>(
    machine: M,
    alloc: Global,
    count: u64,
    millis: u64,
    counts: &Arc<Counts>,
) -> Result<Vec<Trial<Sleeps<M>>>, AllocError> {
    let mut trials = Vec::new(alloc);
    for number in 0..count {
        let sleeps = Sleeps {
            machine,
            counts: Arc::try_clone(counts)?,
            millis: if number == 0 { 0 } else { millis },
        };
        trials.push(Trial::new(String::new(alloc), sleeps))?;
    }
    Ok(trials)
}

// A run by two workers whose writer fails at the first row: how trials come to them, how many there are, how long each of them but the
// first takes, and how many are called at least and at most. All are that are dealt out. From a queue it is the first one, and what
// each worker takes before the fault is known: one trial, or up to 32 at once of a run of more than 64 trials for each worker. If that
// takes long, on a busy machine, workers may take some more in the meantime.
#[derive(Clone, Copy, Debug)]
struct Ended {
    schedule: Schedule,
    count: u64,
    millis: u64,
    least: u64,
    most: u64,
}

static ENDED: [Ended; 3] = [
    Ended {
        schedule: Schedule::Shares,
        count: 100,
        millis: 1,
        least: 100,
        most: 100,
    },
    Ended {
        schedule: Schedule::Queue,
        count: 100,
        millis: 50,
        least: 1,
        most: 40,
    },
    Ended {
        schedule: Schedule::Queue,
        count: 10_000,
        millis: 4,
        least: 1,
        most: 500,
    },
];

impl Ended {
    // What the run leaves, and how many runners were called and dropped then.
    fn run<T: Spawner + Clock + 'static>(
        &self,
        rt: &T,
        alloc: Global,
        writer: FaultyWriter,
    ) -> Result<(Left<FaultyWriter>, u64, u64), Fail> {
        let counts = Counts {
            called: AtomicU64::new(0),
            dropped: AtomicU64::new(0),
        };
        let counts = Arc::new(alloc, counts)?;
        let args = asking(alloc, FormatSetting::Terse, Some(2));
        let tests = that_sleep(*rt, alloc, self.count, self.millis, &counts)?;
        let left = run_by(rt, alloc, &args, tests, writer, self.schedule);
        let Some(counts) = Arc::into_inner(counts) else {
            return Err(Fail::new("a worker runs on"));
        };
        let called = counts.called.load(Ordering::SeqCst);
        let dropped = counts.dropped.load(Ordering::SeqCst);
        Ok((left, called, dropped))
    }
}

#[test]
fn takes_no_more_after_a_fault(rt: HostRuntime) -> Result<(), Fail> {
    let alloc = rt.alloc();
    for ended in &ENDED {
        let title = format!(in alloc; "\nrunning {} tests\n", ended.count)?;
        let writer = FaultyWriter::new(alloc).failing(FaultPlace::Byte(title.len()), FULL);
        let (left, called, dropped) = ended.run(&rt, alloc, writer)?;
        assert!(rt; left.is_stopped_by(Some(FULL)), "{ended:?}");
        assert!(rt; left.writer.bytes.as_slice() == title.as_bytes());
        assert!(rt;
            ended.least <= called && called <= ended.most,
            "{ended:?} {called}"
        );
        assert!(rt;
            called.saturating_add(dropped) == ended.count,
            "{ended:?} {called} {dropped}"
        );
    }
    Ok(())
}
