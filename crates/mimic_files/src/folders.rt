//! Finds the cases below folders.
use crate::files::CaseFiles;
use std::alloc::{AllocError, AllocFailed, Global};
use std::convert::AsStr;
use std::path::Path;
use std::rt::Files;
use std::{fs, io};
use thiserror::Error;

/// A case below the folders.
#[derive(Drop, PartialEq, Eq, PartialOrd, Ord)]
pub struct Found {
    /// Its name, as the caller made it of a file's name.
    pub name: String,
    /// Its files. Their path is that of its folder, and then its name.
    pub files: CaseFiles,
    /// The path of its folder below the one that was given. Empty for that one itself.
    pub kind: String,
}

/// Why the cases are not known. What a folder holds that can't be read is not known, so no trial may be run then.
#[derive(Debug, Drop, Error)]
pub enum FolderError {
    /// An allocation failed.
    #[error("out of memory")]
    OutOfMemory,
    /// A folder, or an entry of it, can't be read. The error says why, also if there was no memory for it.
    #[error("cannot read the folder {path}: {error}")]
    Unreadable { path: String, error: io::Error },
    /// There are 2^64 - 1 cases and folders, or more.
    #[error("too many cases and folders")]
    TooMany,
}

impl From<AllocError> for FolderError {
    fn from(_error: AllocError) -> FolderError {
        FolderError::OutOfMemory
    }
}

impl<T: Drop> From<AllocFailed<T>> for FolderError {
    fn from(_error: AllocFailed<T>) -> FolderError {
        FolderError::OutOfMemory
    }
}

// Ordered as they are to be returned: the cases of a folder by name, then its sub-folders by name.
#[derive(Drop, PartialEq, Eq, PartialOrd, Ord)]
enum Entry {
    Case(Found),
    Folder(Folder),
}

#[derive(Drop, PartialEq, Eq, PartialOrd, Ord)]
struct Folder {
    path: String,
    // Its path below the folder that was given.
    kind: String,
}

/// Returns the cases below the folders: those of each folder by name, and then those of its sub-folders, which come by name, too.
/// `case_of` makes the name of a case of a file's name, or says that the file is of none; several files may be of one case.
///
/// An entry that is neither a folder nor a regular file, such as a FIFO or a link that leads nowhere, is a case, too, if `case_of` makes
/// a name of its name, so that no case is passed over: reading it fails. No link to a folder is followed, so that the walk can't go in
/// circles. It returns an `Err` if a folder or an entry of it can't be read, if a name isn't UTF-8, or if an allocation failed.
///
/// No contract says what a disk holds.
pub fn cases_below<
    M: Files + AllocGlobal + Copy + Drop,
    S: AsStr,
    F: Fn(&str) -> Option<&str> + Copy,
>(rt: &M, folders: &[S], case_of: F) -> Result<Vec<Found>, FolderError>
    requires { F.IsAlwaysCallable case_of }
{
    let alloc = rt.alloc();
    let mut cases = Vec::new(alloc);
    // What is left to look at, the next one last.
    let mut left = given(alloc, folders)?;
    // A bound for the proof: the walk ends when nothing is left.
    for _ in 0..u64::MAX {
        match left.pop() {
            Some(Entry::Case(found)) => cases.push(found)?,
            Some(Entry::Folder(folder)) => left.append(&mut entries(rt, folder, case_of)?)?,
            None => return Ok(cases),
        }
    }
    Err(FolderError::TooMany)
}

// The folders, the first of them last.
fn given<S: AsStr>(alloc: Global, folders: &[S]) -> Result<Vec<Entry>, AllocError> {
    let mut left = Vec::new(alloc);
    for folder in folders.iter().rev() {
        let path = String::from_str(alloc, folder.as_str())?;
        let kind = String::new(alloc);
        left.push(Entry::Folder(Folder { path, kind }))?;
    }
    Ok(left)
}

// The cases and folders that a folder holds, the first of them last.
fn entries<M: Files + AllocGlobal + Copy + Drop, F: Fn(&str) -> Option<&str> + Copy>(
    rt: &M,
    folder: Folder,
    case_of: F,
) -> Result<Vec<Entry>, FolderError>
    requires { F.IsAlwaysCallable case_of }
{
    match read_entries(rt, &folder, case_of) {
        Ok(mut found) => {
            found.sort_unstable();
            // A case may have several files.
            found.dedup();
            found.reverse();
            Ok(found)
        }
        Err(error) => Err(FolderError::Unreadable {
            path: folder.path,
            error,
        }),
    }
}

// The same in the order of the system. If the name of an entry isn't UTF-8, its type is not known either: it may be a folder.
fn read_entries<M: Files + AllocGlobal + Copy + Drop, F: Fn(&str) -> Option<&str> + Copy>(
    rt: &M,
    folder: &Folder,
    case_of: F,
) -> io::Result<Vec<Entry>>
    requires { F.IsAlwaysCallable case_of }
{
    let mut found = Vec::new(rt.alloc());
    for entry in fs::read_dir(rt, folder.path.as_str())? {
        let entry = entry?;
        let file_type = entry.file_type()?;
        if file_type.is_dir() {
            found.push(Entry::Folder(folder.holding(rt.alloc(), entry.file_name())?))?;
        } else if let Some(name) = case_of(entry.file_name()) {
            found.push(Entry::Case(folder.case(rt.alloc(), name)?))?;
        }
    }
    Ok(found)
}

impl Folder {
    // The folder of this name in this folder.
    fn holding(&self, alloc: Global, name: &str) -> Result<Folder, AllocError> {
        Ok(Folder {
            path: joined(alloc, &self.path, name)?,
            kind: joined(alloc, &self.kind, name)?,
        })
    }

    // The case of this name in this folder.
    fn case(&self, alloc: Global, name: &str) -> Result<Found, AllocError> {
        Ok(Found {
            name: String::from_str(alloc, name)?,
            files: CaseFiles {
                path: joined(alloc, &self.path, name)?,
                shown: joined(alloc, &self.kind, name)?,
            },
            kind: self.kind.clone()?,
        })
    }
}

fn joined(alloc: Global, folder: &String, name: &str) -> Result<String, AllocError> {
    Ok(Path::new(folder.as_str()).join(alloc, name)?.into_string())
}
