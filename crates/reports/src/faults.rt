//! Prints on standard error why there is no report, or no more of one. Each is one line, whatever a file's name has.
use crate::{CANNOT_RUN, SUCCESS};
use mimic_console::{Streams, print_line};
use mimic_events::{Ending, Label, Stop};
use mimic_printer::{OutputFault, WriteFault};
use std::fmt;
use std::io::ErrorKind;

// Prints what is wrong with a file, and returns the status.
pub(crate) fn refuse<F: fmt::Display>(rt: &HostRuntime, file: &str, fault: &F) -> u8 {
    refuse_all(rt, &format_args!("{file}: {fault}"))
}

// Prints why the report of a file isn't whole, unless it is, and returns the status.
pub(crate) fn status_of_end(rt: &HostRuntime, file: &str, ending: &Ending) -> u8 {
    match ending {
        Ending::Whole { .. } => SUCCESS,
        Ending::Cut(stop) => refuse(rt, file, &Cause(stop)),
        Ending::Failed(error) => refuse(rt, file, error),
    }
}

// The same, and which trial was running.
pub(crate) fn status_with_running(rt: &HostRuntime, file: &str, ending: &Ending) -> u8 {
    match ending {
        Ending::Cut(stop) => refuse(rt, file, &WithRunning(stop)),
        _ => status_of_end(rt, file, ending),
    }
}

// Why a report is cut. One that is none from its first line on may be in another format.
#[derive(Clone, Copy)]
pub(crate) struct Cause<'a>(pub(crate) &'a Stop);

impl fmt::Display for Cause<'_> {
    fn fmt<W: fmt::Write>(&self, f: &mut fmt::Formatter<W>) -> fmt::Result {
        let stop = self.0;
        write!(f, "{stop}{}", hint_of(stop.wrong_line))
    }
}

// The same, and which trial was running.
#[derive(Clone, Copy)]
pub(crate) struct WithRunning<'a>(pub(crate) &'a Stop);

impl fmt::Display for WithRunning<'_> {
    fn fmt<W: fmt::Write>(&self, f: &mut fmt::Formatter<W>) -> fmt::Result {
        let cause = Cause(self.0);
        match &self.0.running {
            Some(Label { name, kind }) if kind.is_empty() => write!(f, "{cause}; running: {name}"),
            Some(Label { name, kind }) => write!(f, "{cause}; running: [{kind}] {name}"),
            None => write!(f, "{cause}"),
        }
    }
}

// What a user may have missed if this line is the first wrong one. Empty unless it is line 1.
pub(crate) fn hint_of(wrong_line: Option<u128>) -> &'static str {
    match wrong_line {
        Some(1) => "; does the program run with --format json?",
        _ => "",
    }
}

// Prints a fault that belongs to no single file, and returns the status.
pub(crate) fn refuse_all<H: Streams, F: fmt::Display>(host: &H, fault: &F) -> u8 {
    print_line(format_args!("reports: {fault}"), &mut host.stderr());
    CANNOT_RUN
}

// Prints why a text was not written to its end, and returns the status.
pub(crate) fn refuse_output<H: Streams>(host: &H, fault: &OutputFault) -> u8 {
    match fault {
        OutputFault::OutOfMemory => refuse_all(host, fault),
        OutputFault::Write(fault) => refuse_write(host, fault),
    }
}

// Prints why standard output took no more, and returns the status. Nothing is printed if it is a pipe that its reader has closed, as
// `head` does.
pub(crate) fn refuse_write<H: Streams>(host: &H, fault: &WriteFault) -> u8 {
    if !is_of_closed_pipe(fault) {
        refuse_all(
            host,
            &format_args!("cannot write to standard output: {fault}"),
        );
    }
    CANNOT_RUN
}

fn is_of_closed_pipe(fault: &WriteFault) -> bool {
    match fault {
        WriteFault::Error(error) => error.kind() == ErrorKind::BrokenPipe,
        WriteFault::Zero => false,
    }
}
