//! What a trial runs: a way to sort, and numbers.
ghost use Rattle.std.specs.Prelude.{◌≡◌, ◌↔◌, IsOk};

use crate::numbers::Numbers;
use libtest_mimic::{Failed, Measurement, Outcome, Task, check_eq};
use std::alloc::{AllocError, Global};
use std::collections::BinaryHeap;
use std::io;
use std::rt::Clock;
use std::time::Instant;

const ROUNDS: u64 = 50;

/// How numbers are sorted.
#[derive(Clone, Copy)]
pub(crate) enum Way {
    Stable,
    Unstable,
    Heap,
}

/// A way to sort against numbers, on a machine with a clock.
#[derive(Clone, Copy)]
pub(crate) struct Sorting<M> {
    pub(crate) rt: M,
    pub(crate) way: Way,
    pub(crate) numbers: Numbers,
}

impl Way {
    pub(crate) const ALL: [Way; 3] = [Way::Stable, Way::Unstable, Way::Heap];

    pub(crate) fn name(self) -> &'static str {
        match self {
            Way::Stable => "stable",
            Way::Unstable => "unstable",
            Way::Heap => "heap",
        }
    }

    fn sort(self, mut numbers: Vec<u32>) -> Result<Vec<u32>, AllocError> {
        match self {
            Way::Stable => numbers.sort()?,
            Way::Unstable => numbers.sort_unstable(),
            Way::Heap => numbers = BinaryHeap::from(numbers).into_sorted_vec(),
        }
        Ok(numbers)
    }
}

impl<M: Clock + AllocGlobal + Drop> Task for Sorting<M> {
    // In bench mode tests are ignored, so what runs then is a benchmark.
    fn run(self, test_mode: bool) -> Outcome {
        let ran = if test_mode {
            self.check().map(|()| Outcome::Passed)
        } else {
            self.measure().map(Outcome::Measured)
        };
        match ran {
            Ok(outcome) => outcome,
            Err(failed) => Outcome::Failed(failed),
        }
    }
}

impl<M: Clock + AllocGlobal> Sorting<M> {
    fn check(&self) -> Result<(), Failed> {
        let alloc = self.rt.alloc();
        let (sorted, wanted) = self.sorted_pair()?;
        unless_equal(alloc, &sorted, &wanted)
    }

    // The numbers as they were sorted, and as they are to be.
    fn sorted_pair(&self) -> Result<(Vec<u32>, Vec<u32>), AllocError> {
        let alloc = self.rt.alloc();
        let sorted = self.way.sort(self.numbers.list(alloc)?)?;
        Ok((sorted, self.numbers.sorted().list(alloc)?))
    }

    // The mean of some rounds, and how far the slowest was from the fastest.
    fn measure(&self) -> Result<Measurement, Failed> {
        let alloc = self.rt.alloc();
        let (mut total, mut least, mut most) = (0u64, u64::MAX, 0);
        for _ in 0..ROUNDS {
            let nanos = self
                .nanos()
                .map_err(|error| Failed::because(alloc, &error))?;
            total = total.saturating_add(nanos);
            least = least.min(nanos);
            most = most.max(nanos);
        }
        Ok(Measurement {
            avg: total / ROUNDS,
            variance: most.saturating_sub(least),
        })
    }

    // How long one round takes.
    fn nanos(&self) -> io::Result<u64> {
        let list = self.numbers.list(self.rt.alloc())?;
        let start = Instant::now(&self.rt)?;
        self.way.sort(list)?;
        let elapsed = start.elapsed(&self.rt)?;
        Ok(u64::try_from(elapsed.as_nanos()).unwrap_or(u64::MAX))
    }
}

// Fails if the numbers aren't sorted as they are to be.
fn unless_equal(alloc: Global, sorted: &[u32], wanted: &[u32]) -> Result<(), Failed>
    ensures { IsOk result ↔ (sorted.now ≡ wanted.now) }
{
    check_eq!(in alloc; sorted, wanted)
}
