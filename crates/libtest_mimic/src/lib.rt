//! A test harness of one's own that looks and behaves as that of `rustc --test`.
//!
//! Its layers are crates of their own. What a harness names of them is exported here: texts, trials, arguments,
//! reports, and the parts of a run over worker threads.
//!
//! With an allocator and any [`Clock`] at hand:
//!
//! ```rust
//! use libtest_mimic::{Arguments, Sink, Stopwatch, Trial, check, run_here};
//!
//! let cases = vec![in alloc; ("one", 1), ("two", 2)]?;
//! let tests = Trial::of_cases(alloc, cases, move |number| {
//!     check!(in alloc; number < 2, "{number} is too large")
//! })?;
//! let mut args = Arguments::new(alloc);
//! args.filter.push(String::from_str(alloc, "t")?)?;
//! let mut sink = Sink::new(Vec::new(alloc));
//! let mut watch = Stopwatch::new(clock);
//! let counts = run_here(alloc, &args, tests, &mut sink, &mut watch, false)?;
//! assert_eq!(rt; (counts.num_failed, counts.num_filtered_out), (1, 1));
//! let report = String::from_utf8(sink.into_inner())?;
//! assert!(rt; report.starts_with("\nrunning 1 test\ntest two ... FAILED\n"));
//! ```
#![tactic(auto)]

mod checks;
pub mod printer;
mod request;
mod running;
pub mod select;
mod stopwatch;

pub use mimic_args::{
    Arguments, ArgumentsError, ColorSetting, FormatSetting, Line, UnknownFormat, UnstableFlags,
};
pub use mimic_pool::{RunningTrials, Schedule, Spawner};
pub use mimic_printer::{Sink, WriteFault};
pub use mimic_trial::{
    BenchRunner, Case, Check, Conclusion, Failed, Measurement, Outcome, Runner, Task, TestInfo,
    TestRunner, Trial, count_rows, run_single,
};
pub use request::{Request, Selection};
pub use running::{RunError, run, run_from_queue, run_here, run_request};
pub use stopwatch::{Clock, Stopwatch};

/// What is asked of a run.
pub mod args {
    pub use mimic_args::{
        Arguments, ArgumentsError, ColorSetting, FormatSetting, UnknownFormat, UnstableFlags,
    };
}

/// What becomes of trials: failures, measurements, outcomes and their counts.
pub mod outcome {
    pub use mimic_trial::outcome::{
        Conclusion, Failed, Measurement, Outcome, count_rows, run_single,
    };
}

/// The parts of a run over worker threads, each of use by itself: shares, what workers report and answer, the desk where
/// outcomes arrive, and the rows of workers that one has started.
pub mod pool {
    pub use crate::running::gathering::{Started, gather_rows};
    pub use mimic_pool::{
        Arrival, Board, BoardReports, Desk, Inbox, MemoryReports, Missing, ReadyWorkers, Reports,
        Rows, RunningCell, RunningTrials, Schedule, Share, Untold, WaitingTrials, Workers, deal,
        deal_next, empty_shares, join_workers, put_joined, start_workers, work, worker_count,
    };
}

/// The small texts of reports: grouped numbers, seconds, and texts in JSON.
pub mod text {
    pub use mimic_trial::{
        Escaped, escape_char, exact_seconds, fmt_with_thousand_sep, hundredths, thousands,
    };
}
