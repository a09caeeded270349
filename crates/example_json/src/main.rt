//! Tests the JSON parser against the files below a folder, which are named as in the JSON test suite of Nicolas Seriot. Reports of
//! a harness are read by its reader, too.
#![tactic(auto)]

mod case;
mod report;

use case::{Expectation, JsonFile};
use libtest_mimic::{Line, Trial};
use mimic_files::{FolderError, cases_below};
use mimic_main::{Sharding, Status, hold_closed_streams, refuse_line, run_line};
use std::rt::Files;

const NAME: &str = "example_json";

const USAGE: &str = "\
usage: example_json DIR [-- OPTIONS]

Runs a trial for each file below the folder: the parser must accept y_*.json and
refuse n_*.json. It may do either with i_*.json, which are ignored trials. In
r_*.json, which are reports of a harness, it must find what their reader finds.
`example_json -- --help` shows the options.
";

// The name of the case that a file of this name is.
fn case_of(file: &str) -> Option<&str> {
    file.strip_suffix(".json")
}

fn main(rt: HostRuntime) -> Status {
    if let Err(status) = hold_closed_streams(&rt, NAME) {
        return status;
    }
    let alloc = rt.alloc();
    let line = Line::from_args(&rt, alloc);
    let (options, folders) = match line.into_operands(alloc, 1..=1, USAGE) {
        Ok(words) => words,
        Err(error) => return refuse_line(&rt, NAME, error),
    };
    let trials = trials_below(rt, &folders);
    run_line(&rt, NAME, Ok(options), Sharding::from_env(&rt), trials)
}

// A trial for each case below the folders whose name says what is expected.
fn trials_below<M: Files + AllocGlobal + Copy + Drop>(
    rt: M,
    folders: &[String],
) -> Result<Vec<Trial<JsonFile<M>>>, FolderError> {
    let mut trials = Vec::new(rt.alloc());
    for found in cases_below(&rt, folders, case_of)? {
        if let Some(expectation) = Expectation::of(found.name.as_str()) {
            let is_open = matches!(expectation, Expectation::Either);
            let file = JsonFile {
                rt,
                files: found.files,
                expectation,
            };
            trials.push(
                Trial::new(found.name, file)
                    .with_kind(found.kind)
                    .with_ignored_flag(is_open),
            )?;
        }
    }
    Ok(trials)
}
