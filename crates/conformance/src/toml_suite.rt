//! The suite toml-test: documents that are valid, with their values in tagged JSON beside them, and documents that are not.
use crate::case::Case;
use crate::error::SuiteError;
use crate::tagged::{check_tagged, tagged_table};
use libtest_mimic::{Failed, Trial, fail};
use mimic_files::{CaseFiles, cases_below};
use serde_json::Value;
use std::alloc::AllocError;
use std::rt::Files;

/// A document.
#[derive(Drop)]
pub(crate) struct TomlCase {
    document: Vec<u8>,
    /// Its value in tagged JSON, or nothing if it must be refused.
    expected: Option<Value>,
}

// The name of the case that a file of this name is.
fn case_of(file: &str) -> Option<&str> {
    file.strip_suffix(".toml")
}

/// A trial for each document below the folder.
pub(crate) fn trials<M: Files + AllocGlobal + Copy + Drop>(
    rt: &M,
    folder: &String,
) -> Result<Vec<Trial<Case>>, SuiteError> {
    let mut trials = Vec::new(rt.alloc());
    for found in cases_below(rt, &[folder.as_str()], case_of)? {
        let files = found.files;
        let expected = match found.kind.split('/').next() {
            Some("valid") => Some(expected_value(rt, &files)?),
            Some("invalid") => None,
            _ => return Err(SuiteError::Elsewhere(files.shown)),
        };
        let document = files.read_bytes(rt, "toml")?;
        let case = Case::Toml(TomlCase { document, expected });
        trials.push(Trial::new(found.name, case).with_kind(found.kind))?;
    }
    Ok(trials)
}

// The tagged JSON beside a document.
fn expected_value<M: Files + AllocGlobal>(rt: &M, files: &CaseFiles) -> Result<Value, SuiteError> {
    let alloc = rt.alloc();
    let text = files.read_text(rt, "json")?;
    match Value::from_str(alloc, text.as_str()) {
        Ok(value) => Ok(value),
        Err(error) => Err(SuiteError::Json {
            path: format!(in alloc; "{}.json", files.shown)?,
            error,
        }),
    }
}

impl TomlCase {
    pub(crate) fn check(&self) -> Result<(), Failed> {
        let alloc = *self.document.allocator();
        match toml::table_from_slice(alloc, self.document.as_slice()) {
            Ok(table) => {
                let answered = tagged_table(alloc, &table)?;
                match &self.expected {
                    Some(expected) => check_tagged(alloc, "", expected, &answered),
                    None => Err(fail!(in alloc; "expected a refusal, answered {answered}")),
                }
            }
            // A parser without memory has not judged the document.
            Err(error) if error.is_memory() => Err(AllocError.into()),
            Err(error) => match &self.expected {
                Some(expected) => {
                    Err(fail!(in alloc; "expected {expected}, answered a refusal: {error}"))
                }
                None => Ok(()),
            },
        }
    }
}
