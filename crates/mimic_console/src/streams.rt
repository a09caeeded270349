//! The streams of a process.
use std::fs::File;
use std::io;
use std::os::fd::{AsFd, IntoRawFd};
use std::rt::{Stderr, Stdout};

// What is opened for a closed stream.
const NULL: &str = "/dev/null";

// The error of a descriptor that isn't open, `EBADF`.
const BAD_DESCRIPTOR: i32 = 9;

/// The standard streams of a process.
pub trait Streams {
    /// Standard output.
    fn stdout(&self) -> Stdout;

    /// Standard error.
    fn stderr(&self) -> Stderr;

    /// Opens /dev/null for each standard stream that is closed, the other way round: standard input for writing, the others for
    /// reading. So reading or writing the stream still fails, and no file that is opened later gets the stream's descriptor, and with
    /// it what is written to the stream. It is called before a program opens a file that it keeps open.
    ///
    /// It returns an error if a stream is closed and /dev/null can't be opened.
    fn hold_closed_streams(&self) -> io::Result<()>;
}

impl Streams for HostRuntime {
    fn stdout(&self) -> Stdout {
        HostRuntime::stdout(self)
    }

    fn stderr(&self) -> Stderr {
        HostRuntime::stderr(self)
    }

    // A file gets the lowest descriptor that is free. In this order, that is the stream's.
    fn hold_closed_streams(&self) -> io::Result<()> {
        if is_closed(&HostRuntime::stdin(self)) {
            hold(File::options().write(true).open(self, NULL)?);
        }
        if is_closed(&HostRuntime::stdout(self)) {
            hold(File::open(self, NULL)?);
        }
        if is_closed(&HostRuntime::stderr(self)) {
            hold(File::open(self, NULL)?);
        }
        Ok(())
    }
}

fn is_closed<S: AsFd>(stream: &S) -> bool {
    match stream.as_fd().try_clone_to_owned() {
        Ok(_) => false,
        Err(error) => error.raw_os_error() == Some(BAD_DESCRIPTOR),
    }
}

// Keeps the file open until the process ends.
fn hold(file: File) {
    let _ = file.into_raw_fd();
}
