//! Clocks whose readings a test knows.
ghost use Rattle.std.specs.Prelude.{◌≡◌};

use libtest_mimic::Clock;
use std::cell::Cell;
use std::io;
use std::io::ErrorKind;
use std::sync::Arc;
use std::sync::atomic::{AtomicU64, Ordering};
use std::time::Duration;

/// Reads the first number of nanoseconds once, and the second from then on.
#[derive(Drop)]
pub struct TwoReadings {
    /// What it reads next.
    pub first: u64,
    /// What it reads after that.
    pub second: u64,
}

impl TwoReadings {
    /// A clock that always reads 0.
    pub fn still() -> TwoReadings
        ensures first { result.first ≡ 0 }
        ensures second { result.second ≡ 0 }
    {
        TwoReadings {
            first: 0,
            second: 0,
        }
    }
}

impl Clock for TwoReadings {
    fn now(&mut self) -> u64
        ensures read { result ≡ self.old.first }
        ensures next { self.new ≡ record self.old { first = self.old.second } }
    {
        let now = self.first;
        self.first = self.second;
        now
    }
}

/// Reads the nanoseconds that others raise, as a runner does while it runs.
#[derive(Drop)]
pub struct RaisedClock {
    /// What it reads.
    pub nanos: Arc<AtomicU64>,
}

impl Clock for RaisedClock {
    fn now(&mut self) -> u64 {
        self.nanos.load(Ordering::SeqCst)
    }
}

/// A machine's clock that reads these durations one after another. `None` is a reading that fails, as are all after the
/// last one.
#[derive(Drop)]
pub struct KnownReadings {
    count: Cell<usize>,
    readings: [Option<Duration>; 6],
}

impl KnownReadings {
    /// A clock with these readings, of which none was read.
    pub fn new(readings: [Option<Duration>; 6]) -> KnownReadings
        ensures { result.readings ≡ readings }
    {
        KnownReadings {
            count: Cell::new(0),
            readings,
        }
    }

    /// How often it was read.
    pub fn count(&self) -> usize {
        self.count.get()
    }
}

impl std::rt::Clock for KnownReadings {
    fn monotonic(&self) -> io::Result<Duration> {
        let count = self.count.get();
        self.count.set(count.saturating_add(1));
        match self.readings.get(count) {
            Some(Some(reading)) => Ok(*reading),
            _ => Err(io::Error::from(ErrorKind::Unsupported)),
        }
    }

    fn since_1970(&self) -> io::Result<Duration> {
        Err(io::Error::from(ErrorKind::Unsupported))
    }
}
