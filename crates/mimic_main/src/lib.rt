//! The outer part of a program that runs a harness: its line, its clock, its logfile, the buffer between a report and the
//! system, what it prints of faults, and its exit status.
//!
//! ```rust
//! use libtest_mimic::check_eq;
//! use mimic_main::{Status, run_program, trials_of_cases};
//!
//! fn main(rt: HostRuntime) -> Status {
//!     let alloc = rt.alloc();
//!     let sums = vec![in alloc;
//!         ("1 + 1", (1, 1, 2)),
//!         ("2 + 2", (2, 2, 5)),
//!         ("7 + 0", (7, 0, 7)),
//!     ];
//!     let tests = trials_of_cases(alloc, sums, move |(left, right, total)| {
//!         check_eq!(in alloc; u16::saturating_add(left, right), total)
//!     });
//!     run_program(&rt, "example", tests)
//! }
//! ```
#![tactic(auto)]

mod clock;
mod entry;
mod equal_names;
mod full_names;
mod machine;
mod monitor;
mod output;
mod policy;
mod program;
mod run;
mod shard_variables;
mod sharding;
mod status;

pub use clock::{MonotonicClock, StillClock};
pub use entry::{hold_closed_streams, refuse_line, run_line, run_program, trials_of_cases};
pub use machine::Machine;
pub use mimic_console::{Streams, print_line, shows_colours};
pub use output::Output;
pub use policy::FlushPolicy;
pub use program::Program;
pub use shard_variables::{ShardFault, shard_from_variables};
pub use sharding::{ShardError, Sharding};
pub use status::Status;
