//! Reads and writes files.
use crate::replace::replace_file;
use std::alloc::{AllocError, Global};
use std::hash::{DefaultHasher, Hasher};
use std::io::ErrorKind;
use std::process::Process;
use std::rt::Files;
use std::{fs, io};
use thiserror::Error;

/// The files of a case, which have one path but for their extensions.
#[derive(Clone, Debug, Drop, PartialEq, Eq, PartialOrd, Ord)]
pub struct CaseFiles {
    /// Their path, without an extension.
    pub path: String,
    /// The same below the folder that was given. Errors have this one, so they are alike on every machine.
    pub shown: String,
}

/// Why a file of a case can't be read or written.
#[derive(Debug, Drop, Error)]
pub enum FileError {
    /// An allocation failed.
    #[error("out of memory")]
    OutOfMemory,
    /// It can't be read. The path of a case's file is the one below the folder that was given.
    #[error("cannot read {path}: {error}")]
    Unreadable { path: String, error: io::Error },
    /// It can't be written.
    #[error("cannot write {path}: {error}")]
    Unwritable { path: String, error: io::Error },
}

impl FileError {
    fn unreadable(alloc: Global, path: &str, error: io::Error) -> FileError {
        match String::from_str(alloc, path) {
            Ok(path) => FileError::Unreadable { path, error },
            Err(error) => error.into(),
        }
    }
}

impl From<AllocError> for FileError {
    fn from(_error: AllocError) -> FileError {
        FileError::OutOfMemory
    }
}

impl CaseFiles {
    /// Returns what the file with this extension holds, as [`read_bytes`] does.
    pub fn read_bytes<M: Files + AllocGlobal>(
        &self,
        rt: &M,
        extension: &str,
    ) -> Result<Vec<u8>, FileError> {
        let file = self.with_extension(rt.alloc(), extension)?;
        bytes_at(rt, file.path.as_str()).map_err(|error| FileError::Unreadable {
            path: file.shown,
            error,
        })
    }

    /// Returns the text of the file with this extension, as [`read_text`] does.
    pub fn read_text<M: Files + AllocGlobal>(
        &self,
        rt: &M,
        extension: &str,
    ) -> Result<String, FileError> {
        let file = self.with_extension(rt.alloc(), extension)?;
        text_at(rt, file.path.as_str()).map_err(|error| FileError::Unreadable {
            path: file.shown,
            error,
        })
    }

    /// Makes the text the content of the file with this extension, as [`replace_file`] does. Threads may write files at once, since
    /// each label has a number that is made of the file's path, as in `.mimic.3d1ca258a0c6b174.PROCESS.new`.
    pub fn write_text<M: Files + AllocGlobal>(
        &self,
        rt: &M,
        process: Process,
        extension: &str,
        text: &str,
    ) -> Result<(), FileError> {
        let alloc = rt.alloc();
        let file = self.with_extension(alloc, extension)?;
        let path = file.path.as_str();
        let label = label_of(alloc, path)?;
        replace_file(rt, process, label.as_str(), path, text.as_bytes()).map_err(|error| {
            FileError::Unwritable {
                path: file.shown,
                error,
            }
        })
    }

    // The paths of the file with this extension.
    fn with_extension(&self, alloc: Global, extension: &str) -> Result<CaseFiles, AllocError> {
        let (path, shown) = (&self.path, &self.shown);
        Ok(CaseFiles {
            path: format!(in alloc; "{path}.{extension}")?,
            shown: format!(in alloc; "{shown}.{extension}")?,
        })
    }
}

// Returns a label for the file that is to replace the one at the path.
fn label_of(alloc: Global, path: &str) -> Result<String, AllocError> {
    let mut hasher = DefaultHasher::new();
    hasher.write(path.as_bytes());
    let number = hasher.finish();
    format!(in alloc; "mimic.{number:x}")
}

/// Returns what the file at the path holds.
///
/// What is no regular file, nor a link to one, is refused with `InvalidInput`. It isn't opened, since a FIFO would be waited for.
/// Other errors are the system's. No contract says what a disk holds.
pub fn read_bytes<M: Files + AllocGlobal>(rt: &M, path: &str) -> Result<Vec<u8>, FileError> {
    match bytes_at(rt, path) {
        Ok(bytes) => Ok(bytes),
        Err(error) => Err(FileError::unreadable(rt.alloc(), path, error)),
    }
}

/// Returns the text of the file at the path. It is read and refused as by [`read_bytes`]; what isn't UTF-8 is refused with
/// `InvalidData`.
pub fn read_text<M: Files + AllocGlobal>(rt: &M, path: &str) -> Result<String, FileError> {
    match text_at(rt, path) {
        Ok(text) => Ok(text),
        Err(error) => Err(FileError::unreadable(rt.alloc(), path, error)),
    }
}

fn bytes_at<M: Files + AllocGlobal>(rt: &M, path: &str) -> io::Result<Vec<u8>> {
    refuse_unless_file(rt, path)?;
    fs::read(rt, path)
}

fn text_at<M: Files + AllocGlobal>(rt: &M, path: &str) -> io::Result<String> {
    refuse_unless_file(rt, path)?;
    fs::read_to_string(rt, path)
}

fn refuse_unless_file<M: Files>(rt: &M, path: &str) -> io::Result<()> {
    if fs::metadata(rt, path)?.is_file() {
        Ok(())
    } else {
        Err(io::Error::new(ErrorKind::InvalidInput, "it is no file"))
    }
}
