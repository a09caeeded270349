//! Tests one function against files: `NAME.in` holds what it is given, and `NAME.out` what it must answer.
//!
//! To test a function of your own, copy this crate and exchange the body of `answer`.
#![tactic(auto)]

mod bless;
mod case;

use bless::bless;
use case::FileCase;
use libtest_mimic::{Line, Trial};
use mimic_files::{FolderError, cases_below};
use mimic_main::{Sharding, hold_closed_streams, refuse_line, run_line};
use std::alloc::{AllocError, Global};
use std::path::Path;
use std::process::{ExitCode, Termination};
use std::rt::Files;

const NAME: &str = "example_files";

const USAGE: &str = "\
usage: example_files [--bless] DIR.. [-- OPTIONS]

Runs a trial for each pair NAME.in and NAME.out below the folders. With --bless
it runs none, and writes what is answered into each NAME.out that differs or is
missing, of the trials that OPTIONS select.
`example_files -- --help` shows the options.
";

// The function under test. Its error may be any that can be shown.
pub(crate) fn answer(alloc: Global, input: &str) -> Result<String, AllocError> {
    input.to_uppercase(alloc)
}

// The name of the case that a file of this name belongs to.
fn case_of(file: &str) -> Option<&str> {
    let file = Path::new(file);
    match file.extension() {
        Some("in" | "out") => file.file_stem(),
        _ => None,
    }
}

fn main(rt: HostRuntime) -> ExitCode {
    if let Err(status) = hold_closed_streams(&rt, NAME) {
        return status.report(&rt);
    }
    let alloc = rt.alloc();
    let mut line = Line::from_args(&rt, alloc);
    let blesses = take_bless(&mut line.own);
    let (options, folders) = match line.into_operands(alloc, 1..=usize::MAX, USAGE) {
        Ok(words) => words,
        Err(error) => return refuse_line(&rt, NAME, error).report(&rt),
    };
    match trials_below(rt, &folders) {
        Ok(trials) if blesses && !options.list => bless(&rt, &options, trials),
        trials => run_line(&rt, NAME, Ok(options), Sharding::from_env(&rt), trials).report(&rt),
    }
}

// Takes `--bless` from the program's own words, if it is the first one. Returns whether it was there.
fn take_bless(own: &mut Vec<String>) -> bool {
    let asked = matches!(own.first(), Some(word) if word.as_str() == "--bless");
    if asked {
        own.remove(0);
    }
    asked
}

// A trial for each case below the folders.
fn trials_below<M: Files + AllocGlobal + Copy + Drop>(
    rt: M,
    folders: &[String],
) -> Result<Vec<Trial<FileCase<M>>>, FolderError> {
    let mut trials = Vec::new(rt.alloc());
    for found in cases_below(&rt, folders, case_of)? {
        let case = FileCase {
            rt,
            files: found.files,
        };
        trials.push(Trial::new(found.name, case).with_kind(found.kind))?;
    }
    Ok(trials)
}
