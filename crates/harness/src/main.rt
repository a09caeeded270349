//! A harness of 17 trials, which reads a command line.
#![tactic(auto)]

ghost use Rattle.libtest_mimic.specs.Trial.{AllCanRun};

use libtest_mimic::{Arguments, Failed, Measurement, RunError, Task, Trial};
use mimic_main::{Machine, Program, Sharding, Status, hold_closed_streams};
use mimic_testkit::{MIXED_BAG, trials_of};

const NAME: &str = "harness";

fn main(rt: HostRuntime) -> Status {
    if let Err(status) = hold_closed_streams(&rt, NAME) {
        return status;
    }
    let harness = Program::new(NAME, 4).without_causes();
    harness.end(&rt, run_mixed_bag(&rt, &harness))
}

fn run_mixed_bag<M: Machine + 'static>(
    machine: &M,
    harness: &Program<'_>,
) -> Result<Status, RunError> {
    let alloc = machine.alloc();
    let trials = trials_of!(alloc, MIXED_BAG);
    Ok(run_trials(machine, harness, trials))
}

// Runs the trials of the shard that the environment names, as the command line asks.
fn run_trials<M: Machine, R: Task + Send + 'static>(
    machine: &M,
    harness: &Program<'_>,
    trials: Vec<Trial<R>>,
) -> Status
    requires { AllCanRun R.can_run trials.items }
{
    let line = Arguments::from_args(machine, machine.alloc());
    let made: Result<Vec<Trial<R>>, RunError> = Ok(trials);
    harness.run_line(machine, line, Sharding::from_env(machine), made)
}
