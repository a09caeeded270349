//! Prints reports as JUnit's XML.
use crate::faults::{refuse, refuse_output, status_of_end};
use crate::input::{Input, name_of};
use crate::line::{Junit, Root};
use crate::{SUCCESS, output};
use mimic_events::ReadFault;
use mimic_printer::OutputFault;
use mimic_reports::{Suite, status_of, write_junit, write_suite};
use std::alloc::Global;

// Prints the document of all reports, with what could be read of them. It also prints why a report is cut or could not be read. The
// status says that, and, if the line asks for it, else whether a trial failed.
pub(crate) fn run(rt: &HostRuntime, alloc: Global, junit: &Junit) -> u8 {
    let mut suites = Vec::new(alloc);
    let mut status = SUCCESS;
    for file in &junit.files {
        let file = file.as_str();
        let name = match &junit.name {
            Some(name) => name.as_str(),
            None => name_of(file),
        };
        let Ok(suite) = Suite::read(alloc, name, Input::limited(rt, file)) else {
            return refuse(rt, file, &ReadFault::OutOfMemory);
        };
        status = status.max(status_of_end(rt, file, suite.ending()));
        if suites.push(suite).is_err() {
            return refuse(rt, file, &ReadFault::OutOfMemory);
        }
    }
    if junit.shows_failures && status == SUCCESS {
        status = status_of(suites.as_slice());
    }
    match print(rt, alloc, junit.root, suites.as_slice()) {
        Ok(()) => status,
        Err(fault) => refuse_output(rt, &fault),
    }
}

// Prints the document of the reports, or of the one that there is if its element is to be the root: then a line names one file.
fn print(
    rt: &HostRuntime,
    alloc: Global,
    root: Root,
    suites: &[Suite<'_>],
) -> Result<(), OutputFault> {
    let mut sink = output(rt, alloc)?;
    match suites {
        [suite, ..] if root == Root::Testsuite => write_suite(suite, &mut sink)?,
        _ => write_junit(suites, &mut sink)?,
    }
    Ok(())
}
