//! Why a suite can't be run.
use mimic_files::{FileError, FolderError};
use std::alloc::AllocError;
use thiserror::Error;

/// Why the cases of a suite are not known: a file or folder can't be read, or isn't as the suite has it.
#[derive(Debug, Drop, Error)]
pub(crate) enum SuiteError {
    #[error("out of memory")]
    OutOfMemory(#[from(alloc)] AllocError),
    #[error("{0}")]
    Folder(#[from] FolderError),
    #[error("{0}")]
    File(#[from] FileError),
    #[error("{path}: {error}")]
    Json {
        path: String,
        error: serde_json::Error,
    },
    #[error("{path}: line {number}: {error}")]
    Line {
        path: String,
        number: usize,
        error: LineError,
    },
    #[error("{0}: it isn't a list")]
    NoList(String),
    #[error("{path}: case {number}: {error}")]
    Entry {
        path: String,
        number: u64,
        error: EntryError,
    },
    #[error("{0}.toml is neither below valid nor below invalid")]
    Elsewhere(String),
    #[error("{0}: no cases")]
    Empty(String),
}

/// Why a line of one of Unicode's files is no case.
#[derive(Debug, Drop, Error)]
pub(crate) enum LineError {
    #[error("out of memory")]
    OutOfMemory(#[from(alloc)] AllocError),
    #[error("it doesn't have five columns that each end with a semicolon")]
    Columns,
    #[error("it doesn't begin and end with ÷")]
    Ends,
    #[error("{0:?} is not the code point of a character")]
    CodePoint(String),
}

/// Why an entry of the list of URLs is no case.
#[derive(Debug, Drop, Error)]
pub(crate) enum EntryError {
    #[error("out of memory")]
    OutOfMemory(#[from(alloc)] AllocError),
    #[error("it has no input that is a text")]
    Input,
    #[error("its base is neither a text nor null")]
    Base,
    #[error("it needs either a text as its href or true as its failure")]
    Outcome,
}
