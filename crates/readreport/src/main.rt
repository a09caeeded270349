//! Reads a report in JSON from standard input, and prints its counts in one line.
#![tactic(auto)]

mod machine;

use machine::{Status, run_program};

fn main(rt: HostRuntime) -> Status {
    run_program(&rt)
}
