//! Brings the outputs of cases up to date.
use crate::NAME;
use crate::case::FileCase;
use libtest_mimic::select::is_filtered_out;
use libtest_mimic::{Arguments, Trial};
use std::process::ExitCode;

// The exit statuses.
const CANNOT_BLESS: u8 = 1;

const REFUSED_LINE: u8 = 2;

/// Writes the outputs of the selected cases that differ or are missing, prints how many these are, and returns what `main` is to
/// return: 1 if a case has no answer or an output can't be written, and 2 if no case is selected.
pub(crate) fn bless(
    rt: &HostRuntime,
    options: &Arguments,
    trials: Vec<Trial<FileCase<HostRuntime>>>,
) -> ExitCode {
    let (mut selected, mut written) = (0_usize, 0_usize);
    let mut status = ExitCode::SUCCESS;
    for trial in trials {
        if is_filtered_out(options, &trial) {
            continue;
        }
        selected = selected.saturating_add(1);
        let (_info, case) = trial.into_parts();
        match case.bless(rt.process()) {
            Ok(is_new) => written = written.saturating_add(usize::from(is_new)),
            Err(failed) => {
                let reason = failed.message().unwrap_or("out of memory");
                let _ = eprintln!(rt; "{NAME}: {reason}");
                status = ExitCode::from(CANNOT_BLESS);
            }
        }
    }
    if selected == 0 {
        let _ = eprintln!(rt; "{NAME}: --bless: no case is selected");
        return ExitCode::from(REFUSED_LINE);
    }
    match println!(rt; "{written} of {selected} outputs were written") {
        Ok(()) => status,
        Err(_) => ExitCode::from(CANNOT_BLESS),
    }
}
