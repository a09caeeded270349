//! Runs trials and reads back what the run wrote.
//!
//! With an allocator and any `Clock` at hand:
//!
//! ```rust
//! use libtest_mimic::{Arguments, Failed, Stopwatch, Trial};
//! use mimic_roundtrip::run_to_report;
//!
//! let cases = vec![in alloc; ("one", 1), ("two", 2)]?;
//! let tests = Trial::of_cases(alloc, cases, move |number| {
//!     Failed::unless(alloc, number < 2, &"too large")
//! })?;
//! let mut watch = Stopwatch::new(clock);
//! let (counts, report) = run_to_report(alloc, Arguments::new(alloc), tests, &mut watch)?;
//! assert!(rt; report.counts() == counts);
//! assert_eq!(rt; report.rows.len(), 2);
//! ```
#![tactic(auto)]

mod shard;

ghost use Rattle.std.specs.Prelude.{IfOk};
ghost use Rattle.libtest_mimic.specs.Stopwatch.{IsFresh};
ghost use Rattle.libtest_mimic.specs.Trial.{AllCanRun};
ghost use Rattle.mimic_events.specs.Contents.{contents_read};
ghost use Rattle.mimic_roundtrip.specs.Run.{ReportsRun};

use libtest_mimic::{
    Arguments, Clock, Conclusion, FormatSetting, RunError, Sink, Stopwatch, Task, Trial, run_here,
};
use mimic_events::{Report, read_report};
pub use shard::run_shard;
use std::alloc::Global;

/// Runs the selected trials as `run_here` does, and returns its conclusion and its report, as it is read back.
///
/// The report is written to memory, in JSON, also if the arguments ask for a list or another format.
pub fn run_to_report<R: Task, C: Clock>(
    alloc: Global,
    args: Arguments,
    tests: Vec<Trial<R>>,
    watch: &mut Stopwatch<C>,
) -> Result<(Conclusion, Report), RunError>
    requires runnable { AllCanRun R.can_run tests.items }
    requires fresh { IsFresh watch.old }
    ensures { IfOk result
        (λ ran. ReportsRun R.gives args tests.items watch.new ran.0 (contents_read ran.1)) }
{
    let mut args = args;
    args.format = Some(FormatSetting::Json);
    args.quiet = false;
    args.list = false;
    let mut sink = Sink::new(Vec::new(alloc));
    let conclusion = run_here(alloc, &args, tests, &mut sink, watch, false)?;
    let bytes = sink.into_inner();
    let report = read_report(alloc, bytes.as_slice())?.unwrap();
    Ok((conclusion, report))
}
