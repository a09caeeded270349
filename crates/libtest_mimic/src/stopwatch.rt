//! The time that a run takes.
ghost use Rattle.std.specs.Prelude.{◌≡◌, ◌↔◌, IsTrue, ◌&&◌, is_some};
ghost use Rattle.libtest_mimic.specs.Prelude.{elapsed_of, IsFresh, IsRunning, StopsAfter, has_time, IsTime};

use mimic_trial::Outcome;
use std::marker::Model;

/// A clock that counts nanoseconds from some moment on.
///
/// Nothing is promised of its readings: if the later one is the smaller, no time has elapsed.
pub trait Clock {
    /// The nanoseconds since that moment.
    fn now(&mut self) -> u64;
}

/// What a watch has read from its clock.
#[derive(Clone, Copy, Debug, PartialEq, Eq)]
enum Readings {
    Fresh,
    Running { started: u64 },
    Stopped { started: u64, stopped: u64 },
}

/// A clock, and what it read at the start and at the end of a run. It can be started once.
#[derive(Drop)]
pub struct Stopwatch<C: Clock> {
    clock: C,
    readings: Readings,
}

impl<C: Clock> Model for Stopwatch<C> {
    ghost use Rattle.libtest_mimic.specs.Prelude.{Watched, watched};

    ghost Value = { Watched };

    ghost view = { λ w. watched w.readings };
}

impl<C: Clock> Stopwatch<C> {
    /// A fresh watch, which has read nothing.
    pub fn new(clock: C) -> Self
        ensures { IsFresh result }
    {
        Stopwatch {
            clock,
            readings: Readings::Fresh,
        }
    }

    /// Reads the clock for the first time.
    pub fn start(&mut self)
        requires { IsFresh self.old }
        ensures { IsRunning self.new }
    {
        let started = self.clock.now();
        self.readings = Readings::Running { started };
    }

    /// Reads the clock for the second time, and keeps the first reading.
    pub fn stop(&mut self)
        requires { IsRunning self.old }
        ensures { StopsAfter self.old self.new }
    {
        if let Readings::Running { started } = self.readings {
            let stopped = self.clock.now();
            self.readings = Readings::Stopped { started, stopped };
        }
    }

    // Reads the clock in between. The two readings that are kept stay.
    pub(crate) fn read(&mut self) -> u64
        ensures { self.new ≡ self.old }
    {
        self.clock.now()
    }

    /// Whether the watch was not started yet.
    pub fn is_fresh(&self) -> bool
        ensures { IsTrue result ↔ IsFresh self.now }
    {
        matches!(self.readings, Readings::Fresh)
    }

    /// Whether the watch was started and not stopped yet.
    pub fn is_running(&self) -> bool
        ensures { IsTrue result ↔ IsRunning self.now }
    {
        matches!(self.readings, Readings::Running { .. })
    }

    /// The nanoseconds between start and stop, 0 if the clock went back. `None` before the stop.
    pub fn elapsed(&self) -> Option<u64>
        ensures { result ≡ elapsed_of self.now }
    {
        match self.readings {
            Readings::Stopped { started, stopped } => Some(stopped.saturating_sub(started)),
            _ => None,
        }
    }
}

// Reads the clock before a trial runs, if times are asked for.
#[inline(always)]
pub(crate) fn start<C: Clock>(watch: &mut Stopwatch<C>, is_asked: bool) -> Option<u64>
    ensures asked { is_some result ≡ is_asked }
    ensures readings { watch.new ≡ watch.old }
{
    if is_asked { Some(watch.read()) } else { None }
}

// Reads the clock after a trial has run, and returns how many nanoseconds it took since that reading: 0 if the clock went back.
#[inline(always)]
pub(crate) fn elapsed<C: Clock>(watch: &mut Stopwatch<C>, started: Option<u64>) -> Option<u64>
    ensures asked { is_some result ≡ is_some started }
    ensures readings { watch.new ≡ watch.old }
{
    let started = started?;
    Some(watch.read().saturating_sub(started))
}

// The time that a row of this outcome shows: only trials that passed or failed have one.
pub(crate) fn time_shown(outcome: &Outcome, nanos: Option<u64>) -> Option<u64>
    ensures { IsTime (is_some nanos && has_time outcome.now) result }
{
    match outcome {
        Outcome::Passed | Outcome::Failed(_) => nanos,
        Outcome::Ignored | Outcome::Measured(_) => None,
    }
}
