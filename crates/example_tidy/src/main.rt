//! Tests that the texts below a folder are tidy. The program has options and an operand of its own beside those of the harness.
#![tactic(auto)]

mod job;
mod line;

use job::Job;
use libtest_mimic::{TestInfo, Trial};
use line::{Rules, TidyLine};
use mimic_files::{FolderError, Found, cases_below};
use mimic_main::{Sharding, Status, hold_closed_streams, refuse_line, run_line};
use std::rt::{Clock, Files};

const NAME: &str = "example_tidy";

// The name of the case that a file of this name is.
fn case_of(file: &str) -> Option<&str> {
    file.strip_suffix(".txt")
}

fn main(rt: HostRuntime) -> Status {
    if let Err(status) = hold_closed_streams(&rt, NAME) {
        return status;
    }
    let alloc = rt.alloc();
    let line = match TidyLine::from_args(&rt, alloc) {
        Ok(line) => line,
        Err(error) => return refuse_line(&rt, NAME, error),
    };
    let trials = collect(rt, &line.folder, line.rules);
    run_line(&rt, NAME, Ok(line.options), Sharding::from_env(&rt), trials)
}

// A test for each text, and a benchmark of reading it.
fn collect<M: Files + Clock + AllocGlobal + Copy + Drop>(
    rt: M,
    folders: &[String],
    rules: Rules,
) -> Result<Vec<Trial<Job<M>>>, FolderError> {
    let alloc = rt.alloc();
    let mut trials = Vec::new(alloc);
    for found in cases_below(&rt, folders, case_of)? {
        let Found { name, files, kind } = found;
        let info = TestInfo {
            name: format!(in alloc; "read {name}")?,
            kind: kind.clone()?,
            is_ignored: false,
            is_bench: true,
        };
        let read = Job::Read {
            rt,
            files: files.clone()?,
        };
        let check = Job::Check { rt, files, rules };
        trials.push(Trial::new(name, check).with_kind(kind))?;
        trials.push(Trial::from_parts(info, read))?;
    }
    Ok(trials)
}
