//! Clocks for runs.
ghost use Rattle.std.specs.Prelude.{◌≡◌};

use std::rt::Clock;

/// The machine's monotonic clock in nanoseconds. A reading that fails, or that no `u64` can hold, repeats the one before
/// it, at first 0.
#[derive(Drop)]
pub struct MonotonicClock<'a, R: Clock> {
    rt: &'a R,
    last: u64,
}

impl<'a, R: Clock> MonotonicClock<'a, R> {
    /// A clock that has read 0.
    pub fn new(rt: &'a R) -> Self {
        MonotonicClock { rt, last: 0 }
    }
}

impl<R: Clock> libtest_mimic::Clock for MonotonicClock<'_, R> {
    fn now(&mut self) -> u64 {
        if let Ok(time) = self.rt.monotonic() {
            self.last = u64::try_from(time.as_nanos()).unwrap_or(self.last);
        }
        self.last
    }
}

/// A clock that never moves, so that a report is always the same.
#[derive(Clone, Copy, Debug)]
pub struct StillClock;

impl libtest_mimic::Clock for StillClock {
    fn now(&mut self) -> u64
        ensures { result ≡ 0 }
    {
        0
    }
}
