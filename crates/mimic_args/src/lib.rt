//! What is asked of a run: its arguments, and the command line that they are read from. A layer of `libtest_mimic`.
//!
//! ```rust
//! use mimic_args::{Arguments, Line};
//!
//! let words = ["program", "--test-threads=2", "--skip", "slow", "sort"];
//! let args = Arguments::from_iter(alloc, &words)?;
//! assert_eq!(rt; args.test_threads, Some(2));
//! assert_eq!(rt; args.skip.first().map(String::as_str), Some("slow"));
//! assert_eq!(rt; args.filter.first().map(String::as_str), Some("sort"));
//! let line = Line::from_iter(alloc, &["program", "cases", "--", "--list"])?;
//! assert_eq!(rt; line.own.first().map(String::as_str), Some("cases"));
//! assert!(rt; line.options?.list);
//! ```
#![tactic(auto)]

ghost use Rattle.std.specs.Prelude.{◌≡◌, IfOk};

mod command_line;
mod copies;
mod error;
mod line;
mod matches;
mod options;

use copies::{all_copied, copied};
pub use error::ArgumentsError;
pub use line::Line;
pub use mimic_trial::{FormatSetting, UnknownFormat};
use std::alloc::{AllocError, Global};

/// When a report has colours.
#[derive(Clone, Copy, Debug, Default, PartialEq, Eq)]
pub enum ColorSetting {
    /// If the caller of a run says so and no logfile is set.
    #[default]
    Auto,
    /// Always, except in formats that have no colour.
    Always,
    /// Never.
    Never,
}

/// What `-Z` may ask for. It has no effect.
#[derive(Clone, Copy, Debug, PartialEq, Eq)]
pub enum UnstableFlags {
    /// `unstable-options`.
    UnstableOptions,
}

/// What is asked of a run.
#[derive(Debug, Drop)]
pub struct Arguments {
    /// Run ignored trials too.
    pub include_ignored: bool,
    /// Run ignored trials alone.
    pub ignored: bool,
    /// Run tests and ignore benchmarks.
    pub test: bool,
    /// Run and measure benchmarks, and ignore tests.
    pub bench: bool,
    /// List the trials and run none.
    pub list: bool,
    /// Has no effect: output isn't captured.
    pub nocapture: bool,
    /// Has no effect: output isn't captured.
    pub show_output: bool,
    /// Say of each trial that passed or failed how long it ran, in its row of the report, as rustc's harness does. Terse
    /// has no times.
    pub report_time: bool,
    /// Has no effect.
    pub unstable_flags: Option<UnstableFlags>,
    /// Filters and skip patterns match only if they are the name or the full name, not if they are a part of it.
    pub exact: bool,
    /// Ask for the terse format, whatever `format` says.
    pub quiet: bool,
    /// How many threads run the trials; `None` leaves it to the caller of the run. With 0 a run of any trial is refused.
    pub test_threads: Option<usize>,
    /// The path of the file that gets the report. The caller of a run opens it.
    pub logfile: Option<String>,
    /// Patterns of trials that are left out.
    pub skip: Vec<String>,
    /// When the report has colours.
    pub color: Option<ColorSetting>,
    /// How the report is written.
    pub format: Option<FormatSetting>,
    /// Patterns. If there are some, a trial that none of them matches is left out.
    pub filter: Vec<String>,
}

impl Arguments {
    ghost use Rattle.mimic_args.specs.Arguments.{AsksNothing, HasSameFields, colours_of, format_of, threads_of};

    /// Makes arguments that ask for nothing: each flag is false, each option `None`, and there is no filter or skip pattern.
    pub fn new(alloc: Global) -> Self
        ensures { AsksNothing result }
    {
        Arguments {
            include_ignored: false,
            ignored: false,
            test: false,
            bench: false,
            list: false,
            nocapture: false,
            show_output: false,
            report_time: false,
            unstable_flags: None,
            exact: false,
            quiet: false,
            test_threads: None,
            logfile: None,
            skip: Vec::new(alloc),
            color: None,
            format: None,
            filter: Vec::new(alloc),
        }
    }

    /// Returns arguments with the same fields.
    pub fn try_clone(&self, alloc: Global) -> Result<Self, AllocError>
        ensures { IfOk result (λ a. HasSameFields self.now a) }
    {
        Ok(Arguments {
            include_ignored: self.include_ignored,
            ignored: self.ignored,
            test: self.test,
            bench: self.bench,
            list: self.list,
            nocapture: self.nocapture,
            show_output: self.show_output,
            report_time: self.report_time,
            unstable_flags: self.unstable_flags,
            exact: self.exact,
            quiet: self.quiet,
            test_threads: self.test_threads,
            logfile: copied(alloc, self.logfile.as_ref())?,
            skip: all_copied(alloc, self.skip.as_slice())?,
            color: self.color,
            format: self.format,
            filter: all_copied(alloc, self.filter.as_slice())?,
        })
    }

    /// Returns the format of the report: terse with `quiet`, else `format`, else pretty.
    pub fn format_used(&self) -> FormatSetting
        ensures { result ≡ format_of self.now }
    {
        if self.quiet {
            FormatSetting::Terse
        } else {
            self.format.unwrap_or_default()
        }
    }

    /// Returns whether the report has colours. `auto` is whether the report goes to a terminal that shows colours. It
    /// counts if the setting is `Auto` or isn't there, and no logfile is set.
    pub fn colours(&self, auto: bool) -> bool
        ensures { result ≡ colours_of self.now auto }
    {
        match self.color.unwrap_or_default() {
            ColorSetting::Auto => auto && self.logfile.is_none(),
            ColorSetting::Always => true,
            ColorSetting::Never => false,
        }
    }

    /// Returns how many threads run the trials: `test_threads`, else `default_threads`.
    pub fn threads(&self, default_threads: usize) -> usize
        ensures { result ≡ threads_of self.now default_threads }
    {
        self.test_threads.unwrap_or(default_threads)
    }
}
