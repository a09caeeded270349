//! One case: reads its files and compares.
use crate::answer;
use libtest_mimic::{Check, Failed, check_ok, fail};
use mimic_files::{CaseFiles, FileError};
use std::fmt;
use std::io::ErrorKind;
use std::process::Process;
use std::rt::Files;

/// What a trial runs: a pair of files.
#[derive(Drop)]
pub(crate) struct FileCase<M> {
    pub(crate) rt: M,
    pub(crate) files: CaseFiles,
}

impl<M: Files + AllocGlobal + Drop> Check for FileCase<M> {
    fn check(self) -> Result<(), Failed> {
        let alloc = self.rt.alloc();
        let answered = self.answered()?;
        let wanted = check_ok!(in alloc; self.files.read_text(&self.rt, "out"))?;
        match first_difference(wanted.as_str(), answered.as_str()) {
            None => Ok(()),
            Some(difference) => {
                let shown = &self.files.shown;
                Err(fail!(in alloc; "{shown}.out: {difference}"))
            }
        }
    }
}

impl<M: Files + AllocGlobal> FileCase<M> {
    /// Makes the answer the output. Returns whether it was another one, or wasn't there. The error says why there is no answer, or
    /// which file can't be read or written. Then the output is as it was.
    pub(crate) fn bless(&self, process: Process) -> Result<bool, Failed> {
        let alloc = self.rt.alloc();
        let answered = self.answered()?;
        if self.is_output(&answered)? {
            return Ok(false);
        }
        check_ok!(in alloc; self.files.write_text(&self.rt, process, "out", answered.as_str()))?;
        Ok(true)
    }

    // Whether the answer is the output already. The error says why the output can't be read nor written.
    fn is_output(&self, answered: &String) -> Result<bool, Failed> {
        match self.files.read_text(&self.rt, "out") {
            Ok(output) => Ok(output == *answered),
            Err(error) => {
                if may_be_written(&error) {
                    Ok(false)
                } else {
                    Err(fail!(in self.rt.alloc(); "{error}"))
                }
            }
        }
    }

    // What the function under test makes of the input.
    fn answered(&self) -> Result<String, Failed> {
        let alloc = self.rt.alloc();
        let given = check_ok!(in alloc; self.files.read_text(&self.rt, "in"))?;
        check_ok!(in alloc; answer(alloc, given.as_str()))
    }
}

// Whether the output that couldn't be read may be written anew: there is none, or it is no text.
fn may_be_written(error: &FileError) -> bool {
    match error {
        FileError::Unreadable { path: _, error } => {
            matches!(error.kind(), ErrorKind::NotFound | ErrorKind::InvalidData)
        }
        _ => false,
    }
}

// The first line, counted from 1, in which two texts differ.
#[derive(Drop)]
struct Difference<'a> {
    number: u64,
    expected: Side<'a>,
    answered: Side<'a>,
}

// A line with its end, or nothing if the text has ended.
#[derive(Clone, Copy)]
struct Side<'a>(Option<&'a str>);

// Line ends count as well: a text whose last line has none differs from one whose last line has one.
fn first_difference<'a>(expected: &'a str, answered: &'a str) -> Option<Difference<'a>> {
    let mut answered = answered.split_inclusive('\n');
    let mut number = 1_u64;
    for line in expected.split_inclusive('\n') {
        let answer = answered.next();
        if answer != Some(line) {
            return Some(Difference {
                number,
                expected: Side(Some(line)),
                answered: Side(answer),
            });
        }
        number = number.saturating_add(1);
    }
    answered.next().map(|line| Difference {
        number,
        expected: Side(None),
        answered: Side(Some(line)),
    })
}

impl fmt::Display for Difference<'_> {
    fn fmt<W: fmt::Write>(&self, f: &mut fmt::Formatter<W>) -> fmt::Result {
        let Difference {
            number,
            expected,
            answered,
        } = self;
        write!(
            f,
            "line {number} differs\nexpected: {expected}\nanswered: {answered}"
        )
    }
}

impl fmt::Display for Side<'_> {
    // With escapes, so that what can't be seen can be distinguished: line ends, blanks at the end, tabs.
    fn fmt<W: fmt::Write>(&self, f: &mut fmt::Formatter<W>) -> fmt::Result {
        match self.0 {
            Some(line) => write!(f, "{line:?}"),
            None => f.write_str("nothing, the text has ended"),
        }
    }
}
