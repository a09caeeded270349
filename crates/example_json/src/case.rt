//! One file: reads it, and parses it.
use crate::report::check_report;
use libtest_mimic::{Check, Failed, check_ok, fail};
use mimic_files::CaseFiles;
use serde_json::Value;
use std::rt::Files;

/// What the parser must do with a file.
#[derive(Clone, Copy)]
pub(crate) enum Expectation {
    Accept,
    Refuse,
    /// The standard leaves it open.
    Either,
    /// Find what the reader of reports finds.
    Report,
}

/// What a trial runs: a file.
#[derive(Drop)]
pub(crate) struct JsonFile<M> {
    pub(crate) rt: M,
    pub(crate) files: CaseFiles,
    pub(crate) expectation: Expectation,
}

impl Expectation {
    /// What the first letter of a name says. Other names are of no test.
    pub(crate) fn of(name: &str) -> Option<Expectation> {
        match name.split_once('_')? {
            ("y", _) => Some(Expectation::Accept),
            ("n", _) => Some(Expectation::Refuse),
            ("i", _) => Some(Expectation::Either),
            ("r", _) => Some(Expectation::Report),
            _ => None,
        }
    }
}

impl<M: Files + AllocGlobal + Drop> Check for JsonFile<M> {
    // What is not UTF-8 is for the parser to refuse.
    fn check(self) -> Result<(), Failed> {
        let alloc = self.rt.alloc();
        let bytes = check_ok!(in alloc; self.files.read_bytes(&self.rt, "json"))?;
        if let Expectation::Report = self.expectation {
            return check_report(alloc, bytes.as_slice());
        }
        let shown = &self.files.shown;
        match (self.expectation, Value::from_slice(alloc, bytes.as_slice())) {
            // A parser without memory has not judged the text.
            (_, Err(error)) if error.is_memory() => {
                Err(fail!(in alloc; "cannot parse {shown}.json: {error}"))
            }
            (Expectation::Accept, Err(error)) => {
                Err(fail!(in alloc; "{shown}.json was refused: {error}"))
            }
            (Expectation::Refuse, Ok(_)) => Err(fail!(in alloc; "{shown}.json was accepted")),
            _ => Ok(()),
        }
    }
}
