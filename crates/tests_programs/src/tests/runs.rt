//! Runs of a program over writers that a test hands in.
ghost use Rattle.libtest_mimic.specs.Trial.{AllCanRun};

use libtest_mimic::{Arguments, ArgumentsError, Spawner, Task, Trial};
use mimic_main::{Program, StillClock};
use std::fs::Files;
use std::io::{Eprint, Write};
use std::process::{ExitCode, Termination};

// What a test's runtime is used for.
pub(super) trait Host: Spawner + Files + AllocGlobal + Eprint + 'static {}

impl<H: Spawner + Files + AllocGlobal + Eprint + 'static> Host for H {}

// The output after the program's run as the line asks, and the status. This is the one place that calls `harness_run`, and it
// promises nothing, so that no test carries that contract.
pub(super) fn run_tests<H: Host, R: Task + Send + 'static, O: Write, E: Write>(
    host: &H,
    program: &Program<'_>,
    line: Result<Arguments, ArgumentsError>,
    tests: Vec<Trial<R>>,
    out: O,
    err: &mut E,
) -> (O, ExitCode)
    requires runnable { AllCanRun R.can_run tests.items }
{
    let alloc = host.alloc();
    let (out, _, status) = program.harness_run(
        host, host, alloc, line, tests, out, err, StillClock,
    );
    (out, status.report(host))
}
