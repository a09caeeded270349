//! Runs the program on the machine.
ghost use Rattle.std.specs.Prelude.{◌≡◌, ℕ, List, Option};
ghost use Rattle.std.specs.Process.{exit_status};
ghost use Rattle.readreport.specs.Ending.{EndsSomehow, number_of};

use mimic_events::readreport_run;
use std::io::Eprint;
use std::process::{ExitCode, Termination};

/// The exit status of the program, which its `main` is to return. Only `run_program` makes one, and a program that drops one
/// doesn't compile.
pub(crate) struct Status {
    number: u8,
}

impl Termination for Status {
    fn report<R: Eprint>(self, _rt: &R) -> ExitCode
        ensures { exit_status result ≡ number_of self }
    {
        let Status { number } = self;
        ExitCode::from(number)
    }
}

/// Prints the line of the report on standard input on standard output, or that of a fault on standard error, and returns
/// what `main` is to return.
pub(crate) fn run_program(rt: &HostRuntime) -> Status
    ensures { EndsSomehow (number_of result) }
{
    let (input, out, err) = (&mut rt.stdin(), &mut rt.stdout(), &mut rt.stderr());
    let number = readreport_run(rt.alloc(), input, out, err);
    Status { number }
}
