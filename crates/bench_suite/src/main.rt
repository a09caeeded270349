//! Measures a run of many trivial tests:
//! `bench_suite N FORMAT THREADS [fail_every K] [captures 1] [work K] [wait MS] [uneven HOW] [dealt 1] [report_time 1]
//! [clock real] [logfile PATH]`
//!
//! The tests are `test_000000` and so on; every K-th fails. Each is a boxed closure: with `captures 1` one that holds
//! its test's number, as a closure over a path would, and with `work K` it goes through K thousand rounds from it. With
//! `wait MS` each is a value that waits MS milliseconds, and may not fail. With `uneven HOW` they don't all wait the same
//! time: with `lognormal` each waits one of sixteen times of a lognormal distribution, by its number (the median is 6 ms, sigma
//! 1); with `fourth` every fourth waits 30 ms and the others 3 ms; with `one` the one in the middle waits a second and the others
//! 3 ms.
//!
//! A worker takes the next test when it is free. With `dealt 1` tests are dealt out to workers beforehand.
//!
//! With `report_time 1` rows say how long their tests ran.
//!
//! The report goes to standard output or the logfile. Its clock never moves, so that the same words always give the same report on
//! one thread; with `clock real` it is the machine's. What was measured goes to standard error: how long making the tests and
//! running them took, and the peak of memory. A failing test that finds no memory for its message fails without one.
#![tactic(auto)]

mod asked;
mod measured;
mod waits;
mod xorshift;

ghost use Rattle.std.specs.Prelude.{◌≡◌, ◌*◌, ◌^◌, ◌-◌, min};
ghost use Rattle.libtest_mimic.specs.Trial.{AllCanRun};

use asked::{Asked, Runners};
use libtest_mimic::{ArgumentsError, Clock, Failed, Outcome, RunError, Task, Trial};
use measured::Measured;
use mimic_main::{
    Machine, MonotonicClock, Program, Sharding, Status, StillClock, hold_closed_streams,
};
use std::alloc::Global;
use std::fs::Files;
use std::io::{Eprint, IsTerminal};
use std::thread;
use std::time::Duration;
use waits::Waits;
use xorshift::rounds;

const NAME: &str = "bench_suite";

fn bench_suite() -> Program<'static> {
    Program::new(NAME, 1)
}

// What a failing test says.
const MESSAGE: &str = "the left side is not equal to the right!";

fn main(rt: HostRuntime) -> Status {
    if let Err(status) = hold_closed_streams(&rt, NAME) {
        return status;
    }
    let ended = match Asked::from_words(&rt) {
        Ok(asked) => measure(&rt, &asked),
        Err(error) => Ok(refuse(&rt, error)),
    };
    bench_suite().end(&rt, ended)
}

// The tests as boxed closures. This is a macro since boxed closures are to be made by the function that hands them in.
macro_rules! boxed_tests {
    ($alloc:expr, $asked:expr) => {{
        let mut tests = Vec::new($alloc);
        for i in 0..$asked.count {
            let fails = $asked.fail_every != 0 && i % $asked.fail_every == $asked.fail_every - 1;
            let runner: Box<dyn FnOnce() -> Result<(), Failed> + Send> = if fails {
                let alloc = $alloc;
                Box::new($alloc, move || Err(failure(alloc))).map_err(RunError::from)?
            } else if $asked.runners == Runners::Captures || $asked.work > 0 {
                let work = $asked.work;
                Box::new($alloc, move || works(i, work)).map_err(RunError::from)?
            } else {
                Box::new($alloc, || Ok(())).map_err(RunError::from)?
            };
            tests.push(Trial::test(test_name($alloc, i)?, runner)).map_err(RunError::from)?;
        }
        tests
    }};
}

// Goes through `work` thousand rounds of xorshift64 from the test's number, none of which ends in 0.
fn works(number: usize, work: u64) -> Result<(), Failed> {
    let state = (number as u64).wrapping_add(1);
    if rounds(state, rounds_of(work)) == 0 {
        Err(Failed::without_message())
    } else {
        Ok(())
    }
}

// How many rounds `work K` asks for.
fn rounds_of(work: u64) -> u64
    ensures { result ≡ min (work * 1000) (2 ^ 64 - 1) }
{
    work.saturating_mul(1000)
}

// A test that waits, and passes then.
#[derive(Drop)]
struct Waiting<M> {
    machine: M,
    time: Duration,
}

impl<M: std::rt::Clock + Drop> Task for Waiting<M> {
    fn run(self, _test_mode: bool) -> Outcome {
        thread::sleep(&self.machine, self.time);
        Outcome::Passed
    }
}

fn waiting_tests<M: Machine + Copy + Drop + Send>(
    rt: &M,
    count: usize,
    waits: Waits,
) -> Result<Vec<Trial<Waiting<M>>>, RunError> {
    let alloc = rt.alloc();
    let mut tests = Vec::new(alloc);
    for i in 0..count {
        let waiting = Waiting {
            machine: *rt,
            time: waits.time(i, count),
        };
        tests.push(Trial::new(test_name(alloc, i)?, waiting))?;
    }
    Ok(tests)
}

fn test_name(alloc: Global, number: usize) -> Result<String, RunError> {
    Ok(format!(in alloc; "test_{number:06}")?)
}

fn failure(alloc: Global) -> Failed {
    match String::from_str(alloc, MESSAGE) {
        Ok(message) => Failed::with_message(message),
        Err(_) => Failed::without_message(),
    }
}

// Prints why the words ask for nothing.
fn refuse<M: Machine>(rt: &M, error: ArgumentsError) -> Status {
    let alloc = rt.alloc();
    let none: Result<Vec<Trial>, RunError> = Ok(Vec::new(alloc));
    bench_suite().run_line(rt, Err(error), Ok(Sharding::none()), none)
}

// Makes the tests and runs them, and prints what that took.
fn measure<M: Machine + Files + Eprint + Copy + Drop + Send + 'static>(
    rt: &M,
    asked: &Asked,
) -> Result<Status, RunError> {
    let alloc = rt.alloc();
    let mut clock = MonotonicClock::new(rt);
    let start = clock.now();
    match asked.runners {
        Runners::Boxes | Runners::Captures => {
            let tests = boxed_tests!(alloc, asked);
            run_tests(rt, asked, since(start, clock), tests)
        }
        Runners::Waits(waits) => {
            let tests = waiting_tests(rt, asked.count, waits)?;
            run_tests(rt, asked, since(start, clock), tests)
        }
    }
}

// Runs the tests, and prints what that took, and what it took to make them.
fn run_tests<M: Machine + Files + Eprint, R: Task + Send + 'static>(
    rt: &M,
    asked: &Asked,
    made: Duration,
    tests: Vec<Trial<R>>,
) -> Result<Status, RunError>
    requires { AllCanRun R.can_run tests.items }
{
    let mut clock = MonotonicClock::new(rt);
    let start = clock.now();
    let status = if let Some(millis) = asked.slow_limit {
        run_as_program(rt, asked, tests, millis)?
    } else if asked.real_clock {
        run_over(rt, asked, tests, MonotonicClock::new(rt))?
    } else {
        run_over(rt, asked, tests, StillClock)?
    };
    let measured = Measured {
        asked,
        made,
        ran: since(start, clock),
        peak: measured::peak(rt),
    };
    let _ = eprintln!(rt; "{measured}");
    Ok(status)
}

// Runs the tests as a program does that prints those which run for longer than this.
fn run_as_program<M: Machine, R: Task + Send + 'static>(
    rt: &M,
    asked: &Asked,
    tests: Vec<Trial<R>>,
    millis: u64,
) -> Result<Status, RunError>
    requires { AllCanRun R.can_run tests.items }
{
    let args = asked.arguments(rt.alloc())?;
    let limit = match millis {
        0 => None,
        _ => Some(Duration::from_millis(millis)),
    };
    let program = bench_suite()
        .with_schedule(asked.schedule)
        .with_slow_limit(limit);
    let tests: Result<Vec<Trial<R>>, RunError> = Ok(tests);
    Ok(program.run_line(rt, Ok(args), Ok(Sharding::none()), tests))
}

// Runs the tests over this clock.
fn run_over<M: Machine + Files + Eprint, R: Task + Send + 'static, C: Clock + Drop>(
    rt: &M,
    asked: &Asked,
    tests: Vec<Trial<R>>,
    clock: C,
) -> Result<Status, RunError>
    requires { AllCanRun R.can_run tests.items }
{
    let alloc = rt.alloc();
    let args = asked.arguments(alloc)?;
    let host = rt.host();
    let mut err = rt.stderr();
    let out = rt.stdout();
    let program = bench_suite()
        .with_schedule(asked.schedule)
        .with_terminal(out.is_terminal());
    let (_, _, status) = program.harness_run(
        &host,
        &host,
        alloc,
        Ok(args),
        tests,
        out,
        &mut err,
        clock,
    );
    Ok(status)
}

// The time since the clock read this.
fn since<K: std::rt::Clock>(start: u64, mut clock: MonotonicClock<'_, K>) -> Duration {
    Duration::from_nanos(clock.now().saturating_sub(start))
}
