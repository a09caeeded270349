//! Prints the failures of reports as known ones.
use crate::faults::{refuse_all, refuse_output, refuse_write, status_with_running};
use crate::input::Input;
use crate::line::Known;
use crate::{SUCCESS, output};
use mimic_expect::write_known;
use mimic_printer::OutputFault;
use std::alloc::Global;

// Prints the failures that have ended in the files, one file after another, and why a report isn't whole. The status says that.
pub(crate) fn run(rt: &HostRuntime, alloc: Global, known: &Known) -> u8 {
    let Ok(mut sink) = output(rt, alloc) else {
        return refuse_all(rt, &OutputFault::OutOfMemory);
    };
    let mut status = SUCCESS;
    for file in &known.files {
        let file = file.as_str();
        match write_known(alloc, Input::new(rt, file), &mut sink) {
            Ok(end) => status = status.max(status_with_running(rt, file, &end)),
            Err(fault) => return refuse_output(rt, &fault),
        }
    }
    match sink.flush() {
        Ok(()) => status,
        Err(fault) => refuse_write(rt, &fault),
    }
}
