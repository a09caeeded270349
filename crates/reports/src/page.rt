//! Prints a report as a page of HTML.
use crate::faults::{refuse, refuse_output, status_of_end};
use crate::input::{Input, name_of};
use crate::line::Page;
use crate::output;
use mimic_events::ReadFault;
use mimic_printer::OutputFault;
use mimic_reports::{PageContents, Suite, write_page};
use std::alloc::Global;

// Prints the page of what could be read of the file's report, and why it is cut or could not be read to its end.
pub(crate) fn run(rt: &HostRuntime, alloc: Global, page: &Page) -> u8 {
    let file = page.file.as_str();
    let Ok(suite) = Suite::read(alloc, name_of(file), Input::limited(rt, file)) else {
        return refuse(rt, file, &ReadFault::OutOfMemory);
    };
    match print(rt, alloc, page, &suite) {
        Ok(()) => status_of_end(rt, file, suite.ending()),
        Err(fault) => refuse_output(rt, &fault),
    }
}

fn print(
    rt: &HostRuntime,
    alloc: Global,
    page: &Page,
    suite: &Suite<'_>,
) -> Result<(), OutputFault> {
    let contents = PageContents {
        title: match &page.title {
            Some(title) => title.as_str(),
            None => name_of(page.file.as_str()),
        },
        notes: page.notes.as_slice(),
        rows: suite.rows(),
        ending: suite.ending(),
        cause: suite.cause(),
        most: page.most,
    };
    write_page(&contents, &mut output(rt, alloc)?)?;
    Ok(())
}
