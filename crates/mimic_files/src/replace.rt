//! Replaces files, each in one step.
use std::alloc::{AllocError, Global};
use std::fs::{File, OpenFile, Permissions};
use std::io::{Error, ErrorKind, Write};
use std::path::{Path, PathBuf};
use std::process::Process;
use std::rt::Files;
use std::{fs, io, process};

/// Makes this the content of the file at the path, or makes the file if there is none. If the program is killed meanwhile, or the
/// machine crashes, the file has its old content or the new one, whole.
///
/// The content goes into a new file in the same folder, `.LABEL.PROCESS.new` with the number of the process. Once that is on the
/// disk, it takes the name of the old one. If several processes replace a file at once, the last one wins. If threads of one
/// process replace files in one folder at once, each file needs a label of its own. A process that is killed may leave the new file
/// there.
///
/// The permissions of the old file are kept, but neither its owner nor its hard links, nor what others write into it meanwhile. A
/// symbolic link stays, and the file that it leads to is replaced.
///
/// After an error the file is as it was, and the new one is removed if that is possible. `InvalidInput` is the error for what is no
/// regular file, `AlreadyExists` if the new file is there already, and `NotFound` for a link that leads nowhere, or if there is no
/// such folder. Others are `OutOfMemory` and the system's. No contract says what a disk holds.
pub fn replace_file<M: Files + AllocGlobal>(
    rt: &M,
    process: Process,
    label: &str,
    path: &str,
    content: &[u8],
) -> io::Result<()> {
    let alloc = rt.alloc();
    let target = target_of(rt, path)?;
    let permissions = match fs::metadata(rt, &target) {
        Ok(metadata) if metadata.is_file() => Some(metadata.permissions()),
        Ok(_) => return Err(Error::new(ErrorKind::InvalidInput, "not a regular file")),
        Err(error) if error.kind() == ErrorKind::NotFound => None,
        Err(error) => return Err(error),
    };
    let beside = path_beside(alloc, process, label, target.as_path().as_str())?;
    let new = match File::create_new(rt, &beside) {
        Err(error) if error.kind() == ErrorKind::AlreadyExists => {
            let cause = format!(in alloc;
                "the new file beside it, .{label}.PROCESS.new, is there already"
            )?;
            return Err(Error::new(ErrorKind::AlreadyExists, &cause));
        }
        created => created?,
    };
    let replaced = fill(new, content, permissions).and_then(|()| fs::rename(rt, &beside, &target));
    if replaced.is_err() {
        let _ = fs::remove_file(rt, &beside);
    }
    replaced
}

// Returns the path of the file that a path leads to if it is a symbolic link, and else the path itself, which may be in a folder
// whose own path isn't UTF-8. A link that leads nowhere is an error.
fn target_of<M: Files + AllocGlobal>(rt: &M, path: &str) -> io::Result<PathBuf> {
    if Path::new(path).is_symlink(rt) {
        fs::canonicalize(rt, path)
    } else {
        Ok(PathBuf::from_str(rt.alloc(), path)?)
    }
}

// Returns the path of the new file in the folder of the target. Its name is short, so the target's may be as long as names can be.
fn path_beside(
    alloc: Global,
    process: Process,
    label: &str,
    target: &str,
) -> Result<String, AllocError> {
    let id = process::id(process);
    match target.rsplit_once('/') {
        Some((folder, _)) => format!(in alloc; "{folder}/.{label}.{id}.new"),
        None => format!(in alloc; ".{label}.{id}.new"),
    }
}

// Writes the content, down to the disk.
fn fill<F: Write + OpenFile + Drop>(
    mut file: F,
    content: &[u8],
    permissions: Option<Permissions>,
) -> io::Result<()> {
    if let Some(permissions) = permissions {
        file.set_permissions(permissions)?;
    }
    file.write_all(content)?;
    file.sync_all()
}
