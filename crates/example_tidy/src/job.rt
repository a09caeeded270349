//! What a trial runs.
use crate::line::Rules;
use libtest_mimic::{Failed, Measurement, Outcome, Task, check, check_ok};
use mimic_files::CaseFiles;
use std::alloc::Global;
use std::rt::{Clock, Files};
use std::time::Instant;

/// What is done with a text.
#[derive(Drop)]
pub(crate) enum Job<M> {
    /// It must be tidy.
    Check {
        rt: M,
        files: CaseFiles,
        rules: Rules,
    },
    /// It is measured how long reading it takes.
    Read {
        rt: M,
        files: CaseFiles,
    },
}

impl<M: Files + Clock + AllocGlobal + Drop> Task for Job<M> {
    // A benchmark is tested by running it once.
    fn run(self, test_mode: bool) -> Outcome {
        match &self {
            Job::Check { rt, files, rules } => check_text(rt, files, *rules).into(),
            Job::Read { rt, files } => match nanos_to_read(rt, files) {
                Ok(_) if test_mode => Outcome::Passed,
                Ok(avg) => Outcome::Measured(Measurement { avg, variance: 0 }),
                Err(failed) => Outcome::Failed(failed),
            },
        }
    }
}

fn check_text<M: Files + AllocGlobal>(
    rt: &M,
    files: &CaseFiles,
    rules: Rules,
) -> Result<(), Failed> {
    let alloc = rt.alloc();
    let text = check_ok!(in alloc; files.read_text(rt, "txt"))?;
    for (place, line) in text.lines().enumerate() {
        check_line(alloc, rules, place + 1, line)?;
    }
    Ok(())
}

fn check_line(alloc: Global, rules: Rules, number: usize, line: &str) -> Result<(), Failed> {
    let width = line.chars().count();
    check!(in alloc; !line.ends_with(' '), "line {number} ends with a blank")?;
    check!(in alloc; rules.allows_tabs || !line.contains('\t'), "line {number} has a tab")?;
    check!(in alloc; width <= rules.width, "line {number} has {width} characters")
}

// How long it takes to read the text once.
fn nanos_to_read<M: Files + Clock + AllocGlobal>(rt: &M, files: &CaseFiles) -> Result<u64, Failed> {
    let alloc = rt.alloc();
    let start = check_ok!(in alloc; Instant::now(rt))?;
    check_ok!(in alloc; files.read_text(rt, "txt"))?;
    let elapsed = check_ok!(in alloc; start.elapsed(rt))?;
    Ok(u64::try_from(elapsed.as_nanos()).unwrap_or(u64::MAX))
}
