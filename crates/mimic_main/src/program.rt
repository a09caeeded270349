//! A program around a run, but for the machine that it runs on.
ghost use Rattle.std.specs.Prelude.{◌≡◌, ◌≤◌, false};
ghost use Rattle.libtest_mimic.specs.Prelude.{AllCanRun, asking, IsSelected};
ghost use Rattle.mimic_main.specs.Ended.{Ended, GotWithout, number_of, status_of, status_without, status_without_part};

use crate::run::run_into;
use crate::sharding::ShardError;
use crate::status::Status;
use libtest_mimic::{
    Arguments, ArgumentsError, Clock, Conclusion, Request, RunError, Schedule, Selection, Spawner,
    Stopwatch, Task, Trial,
};
use mimic_console::{print_line, print_text};
use mimic_trial::Shard;
use std::alloc::Global;
use std::fmt::Display;
use std::fs::Files;
use std::io;
use std::io::Write;
use std::time::Duration;

// For how many seconds a trial runs before it is printed, if the program says nothing else.
const SLOW_SECONDS: u64 = 60;

// Why no report, or only a part of one, was written.
#[derive(Debug, Drop)]
pub(crate) enum Fault {
    Logfile(io::Error),
    Run(RunError),
}

/// A program that runs a harness: how many threads run its trials, how these come to them, whether its reports have colours and
/// go to a terminal, and what it prints of faults.
#[derive(Clone, Copy, Debug, PartialEq, Eq)]
pub struct Program<'a> {
    pub(crate) name: &'a str,
    pub(crate) threads: usize,
    pub(crate) auto_colours: bool,
    pub(crate) prints_causes: bool,
    pub(crate) schedule: Schedule,
    pub(crate) on_terminal: bool,
    pub(crate) slow_limit: Option<Duration>,
    pub(crate) warns_of_equal_names: bool,
    pub ghost some_thread: { 1 ≤ threads },
}

impl<'a> Program<'a> {
    ghost use Rattle.mimic_main.specs.Program.{HasDefaults};

    /// Makes a program of this name, which is printed before a fault. This number of threads runs its trials if the line leaves it
    /// open. Its reports have no colours, it prints faults with their causes, trials that run for over a minute and a warning if
    /// trials have equal names, its workers take trials from one queue, and an output that [`harness_run`](Program::harness_run) is
    /// given is no terminal.
    pub fn new(name: &'a str, threads: usize) -> Program<'a>
        requires { 1 ≤ threads }
        ensures name { result.name.now ≡ name.now }
        ensures threads { result.threads ≡ threads }
        ensures colours { result.auto_colours ≡ false }
        ensures rest { HasDefaults result }
    {
        Program {
            name,
            threads,
            auto_colours: false,
            prints_causes: true,
            schedule: Schedule::Queue,
            on_terminal: false,
            slow_limit: Some(Duration::from_secs(SLOW_SECONDS)),
            warns_of_equal_names: true,
        }
    }

    /// Says whether its reports have colours if the line leaves it open and no logfile is set.
    pub fn with_colours(mut self, auto_colours: bool) -> Program<'a>
        ensures { result ≡ record self.entry { auto_colours = auto_colours } }
    {
        self.auto_colours = auto_colours;
        self
    }

    /// Leaves out of what it prints of a fault the path of the logfile, and what the system said.
    pub fn without_causes(mut self) -> Program<'a>
        ensures { result ≡ record self.entry { prints_causes = false } }
    {
        self.prints_causes = false;
        self
    }

    /// Says how its trials come to workers if more than one thread runs them.
    pub fn with_schedule(mut self, schedule: Schedule) -> Program<'a>
        ensures { result ≡ record self.entry { schedule = schedule } }
    {
        self.schedule = schedule;
        self
    }

    /// Says whether the output that [`harness_run`](Program::harness_run) is given is a terminal, to which a report in terse goes
    /// mark by mark. Calls that are given a machine ask its standard output.
    pub fn with_terminal(mut self, on_terminal: bool) -> Program<'a>
        ensures { result ≡ record self.entry { on_terminal = on_terminal } }
    {
        self.on_terminal = on_terminal;
        self
    }

    /// Says how long a trial runs before it is printed on standard error, once: `PROGRAM: [kind] name has been running for over 60
    /// seconds`. `None` prints none. Without this call it is a minute. Only calls that are given a machine print them.
    pub fn with_slow_limit(mut self, limit: Option<Duration>) -> Program<'a>
        ensures { result ≡ record self.entry { slow_limit = limit } }
    {
        self.slow_limit = limit;
        self
    }

    /// Lets selected trials have the same kind and name. Without this call the first such name, by kind and name, is printed on
    /// standard error before they run, since no reader of the report can tell their rows apart. Only calls that are given a machine
    /// print it, and none if a list is asked for.
    pub fn with_equal_names(mut self) -> Program<'a>
        ensures { result ≡ record self.entry { warns_of_equal_names = false } }
    {
        self.warns_of_equal_names = false;
        self
    }
}

impl Program<'_> {
    /// Runs or lists the trials as the line asks, and returns the writer `out`, the watch over the clock, whose time the report
    /// shows, and the exit status: 0 if no trial failed or help was asked for, 101 if one failed, 1 if the logfile or the run was
    /// refused or there was no memory to read the line, 2 if the line was refused.
    ///
    /// The report or list goes into the logfile, which is made or emptied first; without one it goes to `out`. Help
    /// goes to `out`, the reason for a refusal to `err`. Failing to write either leaves the status as it is. Slow trials are not
    /// printed, since `err` is lent and can't go to the thread that prints them.
    pub fn harness_run<
        T: Spawner + 'static,
        F: Files,
        R: Task + Send + 'static,
        O: Write,
        E: Write,
        C: Clock,
    >(
        &self,
        rt: &T,
        files: &F,
        alloc: Global,
        line: Result<Arguments, ArgumentsError>,
        tests: Vec<Trial<R>>,
        out: O,
        err: &mut E,
        clock: C,
    ) -> (O, Stopwatch<C>, Status)
        requires { AllCanRun R.can_run tests.items }
        ensures { Ended (asking R.gives self.now.threads self.now.auto_colours tests.items) line
            (O.contents out) (O.contents result.0) result.1 (number_of result.2) }
    {
        match line {
            Ok(args) => {
                let request = self.request(&args, tests);
                let (out, watch, ran) = run_into(rt, files, request, clock, out, self.on_terminal);
                (out, watch, self.status_of(ran, args.logfile.as_ref(), err))
            }
            Err(error) => {
                let mut out = out;
                let status = self.status_without(error, &mut out, err);
                (out, Stopwatch::new(clock), status)
            }
        }
    }

    // What a run of the trials is asked that these arguments select.
    pub(crate) fn request<'a, R: Task>(
        &self,
        args: &'a Arguments,
        tests: Vec<Trial<R>>,
    ) -> Request<'a, R>
        ensures args { result.selection.args.now ≡ args.now }
        ensures handed_in { result.selection.handed_in.value ≡ tests }
        ensures selected { IsSelected result.selection }
        ensures threads { result.default_threads ≡ self.now.threads }
        ensures colours { result.auto_colours ≡ self.now.auto_colours }
        ensures runnable { AllCanRun R.can_run tests.items → AllCanRun R.can_run result.selection.trials.items }
    {
        Request {
            selection: Selection::new(args, tests),
            default_threads: self.threads,
            auto_colours: self.auto_colours,
            schedule: self.schedule,
            running: None,
        }
    }

    // The exit status of a run into the logfile, if there is one. A fault is printed.
    pub(crate) fn status_of<E: Write>(
        &self,
        ran: Result<Conclusion, Fault>,
        logfile: Option<&String>,
        err: &mut E,
    ) -> Status
        ensures { number_of result ≡ status_of ran }
    {
        match ran {
            Ok(conclusion) if conclusion.has_failed() => Status::TRIALS_FAILED,
            Ok(_) => Status::SUCCESS,
            Err(fault) => {
                self.print_fault(&fault, logfile, err);
                Status::CANNOT_RUN
            }
        }
    }

    // Prints help, or why a line was refused, and returns the exit status.
    pub(crate) fn status_without<O: Write, E: Write>(
        &self,
        error: ArgumentsError,
        out: &mut O,
        err: &mut E,
    ) -> Status
        ensures status { number_of result ≡ status_without error }
        ensures got { GotWithout error (O.contents out.old) (O.contents out.new) }
    {
        match error {
            ArgumentsError::OutOfMemory => self.refuse(RunError::OutOfMemory, err),
            ArgumentsError::Help(text) => {
                let _ = out.write_all(text.as_bytes());
                Status::SUCCESS
            }
            ArgumentsError::Refused(text) => {
                // The texts of `clap` end with a line end, and others do not.
                print_text(text, err);
                Status::REFUSED_LINE
            }
        }
    }

    // Prints why no part of the trials runs, and returns the exit status.
    pub(crate) fn status_without_part<E: Write>(&self, error: &ShardError, err: &mut E) -> Status
        ensures { number_of result ≡ status_without_part error.now }
    {
        let name = self.name;
        print_line(format_args!("{name}: {error}"), err);
        match error {
            ShardError::OutOfMemory => Status::CANNOT_RUN,
            _ => Status::REFUSED_LINE,
        }
    }

    // Prints which shard runs, and that it has `count` of the `total` trials.
    pub(crate) fn print_shard<E: Write>(
        &self,
        shard: Shard,
        count: usize,
        total: usize,
        err: &mut E,
    ) {
        let (name, shards) = (self.name, shard.count());
        let number = shard.index() + 1;
        print_line(
            format_args!("{name}: shard {number} of {shards}: {count} of {total} trials"),
            err,
        );
    }

    /// Prints why there was no run, in one line on `err`, and returns the exit status 1. A fault in writing changes
    /// nothing.
    pub fn refuse<X: Display + Drop, E: Write>(&self, reason: X, err: &mut E) -> Status
        ensures { number_of result ≡ 1 }
    {
        let name = self.name;
        print_line(format_args!("{name}: {reason}"), err);
        Status::CANNOT_RUN
    }

    // Prints a fault in one line, if it can be written.
    fn print_fault<E: Write>(&self, fault: &Fault, logfile: Option<&String>, err: &mut E) {
        let name = self.name;
        let place = logfile.map_or("standard output", |path| path.as_str());
        match fault {
            Fault::Logfile(error) if self.prints_causes => print_line(
                format_args!("{name}: cannot create the logfile {place}: {error}"),
                err,
            ),
            Fault::Logfile(_) => {
                print_line(format_args!("{name}: cannot create the logfile"), err)
            }
            Fault::Run(RunError::Write(cause)) if self.prints_causes => print_line(
                format_args!("{name}: cannot write the report to {place}: {cause}"),
                err,
            ),
            Fault::Run(error) => print_line(format_args!("{name}: {error}"), err),
        }
    }
}
