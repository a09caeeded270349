//! Prints the slowest trials of reports.
use crate::faults::{refuse, refuse_output, status_of_end};
use crate::input::Input;
use crate::{SUCCESS, line, output};
use mimic_events::read_into;
use mimic_printer::OutputFault;
use mimic_reports::{Slowest, write_slowest};
use std::alloc::Global;

// Prints the slowest trials of all files, of those that had ended before one is cut or can't be read on. It also prints why that is.
pub(crate) fn run(rt: &HostRuntime, alloc: Global, line: &line::Slowest) -> u8 {
    let mut slowest = Slowest::new(alloc, line.count);
    let mut status = SUCCESS;
    for file in &line.files {
        let file = file.as_str();
        match read_into(alloc, Input::limited(rt, file), &mut slowest) {
            Ok(ending) => status = status.max(status_of_end(rt, file, &ending)),
            Err(fault) => return refuse(rt, file, &fault),
        }
    }
    match print(rt, alloc, slowest) {
        Ok(()) => status,
        Err(fault) => refuse_output(rt, &fault),
    }
}

fn print(rt: &HostRuntime, alloc: Global, slowest: Slowest) -> Result<(), OutputFault> {
    write_slowest(slowest, &mut output(rt, alloc)?)
}
