//! Prints what differs in reports from the known failures, and brings the file of these up to date.
use crate::faults::{refuse, refuse_output, status_of_end};
use crate::input::Input;
use crate::line::Expect;
use crate::{CANNOT_RUN, SUCCESS, output, random_hashes};
use mimic_expect::{
    Expectation, ExpectationVerdict, KnownFault, KnownFile, read_known, write_unexpected,
    write_updated,
};
use mimic_files::replace_file;
use mimic_printer::{OutputFault, Sink};
use std::alloc::{AllocError, Global};
use std::hash::RandomState;
use std::io::{Error, ErrorKind, Read};
use std::{fs, io};

// Prints what is unexpected, or why that can't be judged.
pub(crate) fn run(rt: &HostRuntime, alloc: Global, expect: &Expect) -> u8 {
    let file = expect.known.as_str();
    let text = match known_text(rt, alloc, expect) {
        Ok(text) => text,
        Err(error) => return refuse(rt, file, &error),
    };
    let known = match read_known(alloc, &text) {
        Ok(known) => known,
        Err(fault) => return refuse_known(rt, file, &fault),
    };
    let Some(hash_builder) = random_hashes(rt) else {
        return CANNOT_RUN;
    };
    if expect.updates {
        let known_file = KnownFile {
            text: &text,
            known: &known,
        };
        return update(rt, alloc, hash_builder, expect, known_file);
    }
    let judged = match Input::all(rt, alloc, &expect.files) {
        Ok(inputs) => print(rt, alloc, hash_builder, expect, &known, inputs),
        Err(_) => Err(OutputFault::OutOfMemory),
    };
    match judged {
        Ok(verdict) => verdict.status(),
        Err(fault) => refuse_output(rt, &fault),
    }
}

// Returns the text of the file of known failures. One that is to be brought up to date is empty if it isn't there, and refused if it
// can't be replaced.
fn known_text(rt: &HostRuntime, alloc: Global, expect: &Expect) -> io::Result<Vec<u8>> {
    let file = expect.known.as_str();
    if expect.updates && fs::metadata(rt, file).is_ok_and(|metadata| !metadata.is_file()) {
        return Err(Error::new(ErrorKind::InvalidInput, "not a regular file"));
    }
    let mut text = Vec::new(alloc);
    match Input::known(rt, file).read_to_end(&mut text) {
        Err(error) if !expect.updates || error.kind() != ErrorKind::NotFound => Err(error),
        _ => Ok(text),
    }
}

// Prints what is unexpected, and for each file without a whole report why it has none.
fn print<I: Read + Drop>(
    rt: &HostRuntime,
    alloc: Global,
    hash_builder: RandomState,
    expect: &Expect,
    known: &[Expectation],
    inputs: Vec<I>,
) -> Result<ExpectationVerdict, OutputFault> {
    let mut sink = output(rt, alloc)?;
    let options = expect.options;
    let verdict = write_unexpected(alloc, hash_builder, known, inputs, options, &mut sink)?;
    for (file, end) in expect.files.iter().zip(&verdict.ends) {
        status_of_end(rt, file.as_str(), end);
    }
    Ok(verdict)
}

// Prints why no known failures can be read from the file, and what makes some of a report, and returns the status.
fn refuse_known(rt: &HostRuntime, file: &str, fault: &KnownFault) -> u8 {
    match fault {
        KnownFault::Line(line) => {
            let hint = "reports known makes such lines of a report";
            refuse(rt, file, &format_args!("line {line}: {fault}; {hint}"))
        }
        _ => refuse(rt, file, fault),
    }
}

// Prints what is unexpected, and brings the file of known failures up to date if all reports are whole. It returns the status.
fn update(
    rt: &HostRuntime,
    alloc: Global,
    hash_builder: RandomState,
    expect: &Expect,
    known_file: KnownFile<'_>,
) -> u8 {
    let new = match updated(rt, alloc, hash_builder, expect, known_file) {
        Ok(Some(new)) => new,
        Ok(None) => return CANNOT_RUN,
        Err(fault) => return refuse_output(rt, &fault),
    };
    let file = expect.known.as_str();
    match replace(rt, file, known_file.text, &new) {
        Ok(()) => SUCCESS,
        Err(error) => refuse(rt, file, &error),
    }
}

// Prints what is unexpected, and returns the new text. `None` if a report isn't whole.
//
// An input can be read only once, so its bytes are kept meanwhile.
fn updated(
    rt: &HostRuntime,
    alloc: Global,
    hash_builder: RandomState,
    expect: &Expect,
    known_file: KnownFile<'_>,
) -> Result<Option<Vec<u8>>, OutputFault> {
    let files = &expect.files;
    let mut copies: Vec<Vec<u8>> = files.iter().map(|_| Vec::new(alloc)).collect(alloc)?;
    let inputs = copied_inputs(rt, alloc, files, &mut copies)?;
    let verdict = print(rt, alloc, hash_builder, expect, known_file.known, inputs)?;
    if verdict.status() == CANNOT_RUN {
        return Ok(None);
    }
    let reports = copies.iter().map(|copy| copy.as_slice()).collect(alloc)?;
    let mut sink = Sink::new(Vec::new(alloc));
    let lax = expect.options.lax;
    let verdict = write_updated(alloc, hash_builder, known_file, reports, lax, &mut sink)?;
    if !verdict.is_written() {
        return Ok(None);
    }
    Ok(Some(sink.into_inner()))
}

fn copied_inputs<'a>(
    rt: &'a HostRuntime,
    alloc: Global,
    files: &'a [String],
    copies: &'a mut [Vec<u8>],
) -> Result<Vec<Copied<'a>>, AllocError> {
    let mut inputs = Vec::new(alloc);
    for (file, copy) in files.iter().zip(copies.iter_mut()) {
        inputs.push(Copied {
            input: Input::new(rt, file.as_str()),
            copy,
        })?;
    }
    Ok(inputs)
}

// An input whose bytes are copied as they are read.
#[derive(Drop)]
struct Copied<'a> {
    input: Input<'a>,
    copy: &'a mut Vec<u8>,
}

impl Read for Copied<'_> {
    fn read(&mut self, buf: &mut [u8]) -> io::Result<usize> {
        let count = self.input.read(buf)?;
        match self.copy.extend_from_slice(&buf[..count]) {
            Ok(()) => Ok(count),
            Err(_) => Err(ErrorKind::OutOfMemory.into()),
        }
    }
}

// Gives the file a new text, if that is another one or there is no file.
fn replace(rt: &HostRuntime, file: &str, old: &[u8], new: &[u8]) -> io::Result<()> {
    if old == new && fs::metadata(rt, file).is_ok_and(|metadata| metadata.is_file()) {
        return Ok(());
    }
    replace_file(rt, rt.process(), "reports", file, new)
}
