//! A whole program on a machine: the calls of its `main`.
ghost use Rattle.std.specs.Prelude.{◌≡◌, ◌≤◌, All, IfErr, IfOk, OnErr, false};
ghost use Rattle.std.specs.NonZero.{non_zero_usize_get};
ghost use Rattle.std.specs.Result.{is_ok};
ghost use Rattle.libtest_mimic.specs.Prelude.{AllCanRun, asking};
ghost use Rattle.mimic_trial.specs.Case.{AreTestsOf};
ghost use Rattle.mimic_main.specs.Ended.{EndsAsAsked, EndsByLine, EndsForLine, EndsInPart, EndsSomehow, IsOfReadLine, number_of, status_without};
ghost use Rattle.mimic_main.specs.Program.{HasDefaults};

use crate::clock::MonotonicClock;
use crate::machine::Machine;
use crate::monitor::{Monitor, Notices};
use crate::program::Program;
use crate::run::run_into;
use crate::sharding::{ShardError, Sharding};
use crate::status::Status;
use libtest_mimic::{Arguments, ArgumentsError, Case, Failed, Request, RunError, Task, Trial};
use mimic_console::shows_colours;
use std::alloc::Global;
use std::convert::AsStr;
use std::fmt::Display;
use std::io::IsTerminal;
use std::num::NonZeroUsize;
use std::{io, thread};

/// Runs or lists the trials as the program's command line and its environment ask, and returns what its `main` is to return.
///
/// If the line does not say how many threads run them, it is as many as the machine can run at once. The report goes to
/// standard output, in colours if [`shows_colours`](crate::shows_colours) says so, or into the logfile. A fault is printed on
/// standard error with its cause. If the trials could not be made, the reason is printed there, and the status is 1. A trial that
/// runs for over a minute is printed there, once, while it runs, and so is, before the run, the first name that several of the
/// selected trials have.
///
/// The process's words and variables are unknown to a contract, so the statuses 0, 1 and 2 stay possible.
pub fn run_program<M: Machine, R: Task + Send + 'static, X: Display + Drop>(
    machine: &M,
    name: &str,
    tests: Result<Vec<Trial<R>>, X>,
) -> Status
    requires { IfOk tests (λ made. AllCanRun R.can_run made.items) }
    ensures made { IfOk tests (λ made. EndsByLine R.gives made.items (number_of result)) }
    ensures refused { OnErr tests (number_of result ≡ 1) }
{
    if let Err(status) = hold_closed_streams(machine, name) {
        return status;
    }
    let line = Arguments::from_args(machine, machine.alloc());
    let sharding = Sharding::from_env(machine);
    let program = Program::on(machine, name);
    program.run_line(machine, line, sharding, tests)
}

/// Opens /dev/null for each standard stream of the program that is closed, so that no file that it opens later gets the stream's
/// descriptor, and with it what is written to the stream. [`run_program`] begins with it, and so does a `main` that opens files
/// itself or calls [`run_line`]. If /dev/null can't be opened, the reason is printed on standard error, and the `Err` is what `main` is
/// to return: the status 1.
//
// To open a file takes a block of 4 KB, which isn't to be on the stack of `main` while trials run.
#[inline(never)]
pub fn hold_closed_streams<M: Machine>(machine: &M, name: &str) -> Result<(), Status>
    ensures { IfErr result (λ status. number_of status ≡ 1) }
{
    machine.hold_closed_streams().map_err(|error| {
        let reason = format_args!("cannot open /dev/null for a closed standard stream: {error}");
        Program::new(name, 1).refuse(reason, &mut machine.stderr())
    })
}

/// Runs or lists the trials as `run_program` does, for a line that was read already, as by a program with words of its own
/// (`Line` of `libtest_mimic`), and for variables that were read by [`Sharding::from_env`](crate::Sharding::from_env).
pub fn run_line<M: Machine, R: Task + Send + 'static, X: Display + Drop>(
    machine: &M,
    name: &str,
    line: Result<Arguments, ArgumentsError>,
    sharding: Result<Sharding, ShardError>,
    tests: Result<Vec<Trial<R>>, X>,
) -> Status
    requires { IfOk tests (λ made. AllCanRun R.can_run made.items) }
    ensures made { IfOk tests (λ made. EndsForLine R.gives made.items line sharding (number_of result)) }
    ensures refused { OnErr tests (number_of result ≡ 1) }
{
    Program::on(machine, name).run_line(machine, line, sharding, tests)
}

/// Ends a program whose line asks for help or was refused: prints the help on standard output, or the reason on standard error, as
/// [`run_line`] does, and returns what `main` is to return: 0 for help, 2 for a refusal, and 1 if there was no memory. It is for programs
/// that make their trials only if their own words are right.
pub fn refuse_line<M: Machine>(machine: &M, name: &str, error: ArgumentsError) -> Status
    ensures { number_of result ≡ status_without error }
{
    Program::new(name, 1).status_without(error, &mut machine.stdout(), &mut machine.stderr())
}

/// Makes tests of a table for [`run_program`]: one for each case, in their order. A case is its name and its input, and passes if
/// the check, which all share, returns `Ok` for its input. Returns `Err` if the table could not be made, or if an allocation fails.
pub fn trials_of_cases<
    N: AsStr + Drop,
    I: Drop,
    F: FnOnce(I) -> Result<(), Failed> + Copy + Drop,
    X: Into<RunError>,
>(
    alloc: Global,
    cases: Result<Vec<(N, I)>, X>,
    check: F,
) -> Result<Vec<Trial<Case<I, F>>>, RunError>
    requires { IfOk cases (λ made. All (λ case. F.pre check case.1) made.items) }
    ensures tests { IfOk result
        (λ tests. IfOk cases (λ made. AreTestsOf N.text check made.items tests.items)) }
    ensures runnable { IfOk result
        (λ tests. AllCanRun (λ case. F.pre case.check case.input) tests.items) }
    ensures refused { OnErr cases (is_ok result ≡ false) }
{
    match cases {
        Ok(cases) => Ok(Trial::of_cases(alloc, cases, check)?),
        Err(error) => Err(error.into()),
    }
}

// The count that the machine gave, and 1 if it gave none.
fn count_or_one(given: io::Result<NonZeroUsize>) -> usize
    ensures some { 1 ≤ result }
    ensures given { IfOk given (λ count. result ≡ non_zero_usize_get count) }
    ensures unknown { OnErr given (result ≡ 1) }
{
    match given {
        Ok(count) => count.get(),
        Err(_) => 1,
    }
}

impl<'a> Program<'a> {
    /// A program of this name that leaves to the machine what a line leaves open: as many threads as that can run at once, and
    /// colours if [`shows_colours`](crate::shows_colours) is true of its standard output. It prints faults with their causes, trials
    /// that run for over a minute and a warning if trials have equal names, and its workers take trials from one queue.
    //
    // To count the machine's threads takes a block of 4 KB, which isn't to be on the stack while trials run.
    #[inline(never)]
    pub fn on<M: Machine>(machine: &M, name: &'a str) -> Program<'a>
        ensures name { result.name.now ≡ name.now }
        ensures rest { HasDefaults result }
    {
        let count = thread::available_parallelism(&machine.host());
        Program::of_machine(name, count, shows_colours(machine, &machine.stdout()))
    }

    // A program of this name on a machine that gives this count of threads, and shows colours or not.
    fn of_machine(name: &'a str, count: io::Result<NonZeroUsize>, colours: bool) -> Program<'a>
        ensures name { result.name.now ≡ name.now }
        ensures threads { IfOk count (λ given. result.threads ≡ non_zero_usize_get given) }
        ensures colours { result.auto_colours ≡ colours }
        ensures rest { HasDefaults result }
    {
        Program::new(name, count_or_one(count)).with_colours(colours)
    }

    /// Runs or lists the trials as the machine's command line asks, whatever the variables of its environment hold, and returns
    /// what `main` is to return.
    ///
    /// Trials that are boxed closures are handed in here, by the function that makes the boxes.
    pub fn run<M: Machine, R: Task + Send + 'static>(
        &self,
        machine: &M,
        tests: Vec<Trial<R>>,
    ) -> Status
        requires { AllCanRun R.can_run tests.items }
        ensures { IsOfReadLine
            (EndsSomehow (asking R.gives self.now.threads self.now.auto_colours tests.items)) (number_of result) }
    {
        let line = Arguments::from_args(machine, machine.alloc());
        let made: Result<Vec<Trial<R>>, RunError> = Ok(tests);
        self.run_line(machine, line, Ok(Sharding::none()), made)
    }

    /// Runs or lists the trials as the line and the variables ask, on the machine's streams and by its clock, and returns what
    /// `main` is to return. A shard is named in one line on standard error, and so is the first name that several of its
    /// selected trials have ([`with_equal_names`](Program::with_equal_names)), and each trial that runs for too long, while it does
    /// ([`with_slow_limit`](Program::with_slow_limit)).
    ///
    /// A fault is printed there, the first of these: the trials could not be made (status 1), the line was refused (2), the
    /// variables were (2), the status file can't be touched (2), the logfile can't be made (1), the run was refused (1). If help
    /// is asked for, it is printed whatever the variables hold. The status is 1, too, if there is no memory for any of this.
    pub fn run_line<M: Machine, R: Task + Send + 'static, X: Display + Drop>(
        &self,
        machine: &M,
        line: Result<Arguments, ArgumentsError>,
        sharding: Result<Sharding, ShardError>,
        tests: Result<Vec<Trial<R>>, X>,
    ) -> Status
        requires { IfOk tests (λ made. AllCanRun R.can_run made.items) }
        ensures made { IfOk tests
            (λ made. EndsAsAsked (asking R.gives self.now.threads self.now.auto_colours) made.items line sharding
            (number_of result)) }
        ensures refused { OnErr tests (number_of result ≡ 1) }
    {
        let mut err = machine.stderr();
        let tests = match tests {
            Ok(tests) => tests,
            Err(reason) => return self.refuse(reason, &mut err),
        };
        let args = match line {
            Ok(args) => args,
            Err(error) => return self.status_without(error, &mut machine.stdout(), &mut err),
        };
        match sharding {
            Ok(sharding) => self.run_part(machine, args, sharding, tests, &mut err),
            Err(error) => self.status_without_part(&error, &mut err),
        }
    }

    // Runs or lists what these variables ask for, and prints which shard of the trials it is.
    fn run_part<M: Machine, R: Task + Send + 'static>(
        &self,
        machine: &M,
        args: Arguments,
        sharding: Sharding,
        tests: Vec<Trial<R>>,
        err: &mut M::Stderr,
    ) -> Status
        requires { AllCanRun R.can_run tests.items }
        ensures { EndsInPart (asking R.gives self.now.threads self.now.auto_colours) tests.items args sharding (number_of result) }
    {
        let host = machine.host();
        let alloc = machine.alloc();
        let (shard, total) = (sharding.shard, tests.len());
        let (args, tests) = match sharding.part(&host, machine, alloc, args, tests) {
            Ok(part) => part,
            Err(error) => return self.status_without_part(&error, err),
        };
        if let Some(shard) = shard {
            self.print_shard(shard, tests.len(), total, err);
        }
        let mut request = self.request(&args, tests);
        self.print_equal_names(alloc, &request.selection, err);
        let monitor = self.monitor(machine, &request);
        request.running = monitor.as_ref().and_then(|monitor| monitor.running());
        let out = machine.stdout();
        let on_terminal = out.is_terminal();
        let clock = MonotonicClock::new(machine);
        let (_, _, ran) = run_into(&host, &host, request, clock, out, on_terminal);
        if let Some(monitor) = monitor {
            monitor.end(&host);
        }
        self.status_of(ran, args.logfile.as_ref(), err)
    }

    // Starts the thread that prints slow trials. `None` if it isn't to, or can't be started: the run goes on without it then.
    fn monitor<M: Machine, R: Task>(
        &self,
        machine: &M,
        request: &Request<'_, R>,
    ) -> Option<Monitor> {
        let notices = Notices {
            program: self.name,
            limit: self.slow_limit,
            err: machine.stderr(),
        };
        Monitor::start(&machine.host(), machine.alloc(), request, notices)
    }

    /// What `main` is to return if making the trials may be refused: what their run returned, or 1 after the reason
    /// is printed on standard error.
    pub fn end<M: Machine, X: Display + Drop>(
        &self,
        machine: &M,
        ended: Result<Status, X>,
    ) -> Status
        ensures ran { IfOk ended (λ status. result ≡ status) }
        ensures refused { OnErr ended (number_of result ≡ 1) }
    {
        match ended {
            Ok(status) => status,
            Err(reason) => self.refuse(reason, &mut machine.stderr()),
        }
    }
}
