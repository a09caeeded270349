//! Runs suites, as they are published, against the crates that read TOML and URLs, normalize text and split it.
//!
//! A suite of your own needs these:
//!
//! 1. A module with a case, which has a `check`, and `trials`, which reads the cases. A parser that had no memory has not judged
//!    a case: then `check` returns the failure of an `AllocError`, also if the case must be refused.
//! 2. In `Case` a variant and an arm; in `Suite` a variant, its name, and its `trials`; here its `mod` and a line of the usage.
//! 3. In `SuiteError` what may be wrong with its files, and in `crates.txt` the crate that it tests.
//!
//! `code_points` and `lines` are for Unicode's files, and `tagged` is for TOML. All suites use the other modules.
#![tactic(auto)]

mod case;
mod code_points;
mod error;
mod lines;
mod normalization;
mod segmentation;
mod suite;
mod tagged;
mod toml_suite;
mod url_suite;

use libtest_mimic::{ArgumentsError, Line};
use mimic_main::{Sharding, Status, hold_closed_streams, refuse_line, run_line};
use suite::Suite;

const NAME: &str = "conformance";

const USAGE: &str = "\
usage: conformance SUITE PATH [-- OPTIONS]

Runs a trial for each case of a suite:

  toml           the folder tests of toml-test, with valid and invalid below it
  url            the file urltestdata.json of the web-platform-tests
  normalization  Unicode's file NormalizationTest.txt
  graphemes      Unicode's file GraphemeBreakTest.txt
  words          Unicode's file WordBreakTest.txt

`conformance -- --help` shows the options.
";

fn main(rt: HostRuntime) -> Status {
    if let Err(status) = hold_closed_streams(&rt, NAME) {
        return status;
    }
    let alloc = rt.alloc();
    let line = Line::from_args(&rt, alloc);
    let (options, words) = match line.into_operands(alloc, 2..=2, USAGE) {
        Ok(words) => words,
        Err(error) => return refuse_line(&rt, NAME, error),
    };
    let [word, path] = words.as_slice() else {
        unreachable!()
    };
    let Some(suite) = Suite::named(word.as_str()) else {
        let reason = format_args!("no such suite: {word}");
        return refuse_line(&rt, NAME, ArgumentsError::because(alloc, &reason, USAGE));
    };
    let trials = suite.trials(&rt, path);
    run_line(&rt, NAME, Ok(options), Sharding::from_env(&rt), trials)
}
