//! What a program runs on.
use libtest_mimic::Spawner;
use mimic_console::Streams;
use std::fs::Files;
use std::io;
use std::io::{IsTerminal, Write};
use std::rt::{Clock, Env, Stderr, Stdout};

/// A machine that a program runs on, as `main` is handed one: its line and environment, its memory, its clock, its threads and
/// files, and its standard streams. A test may hand in another one.
pub trait Machine: Env + AllocGlobal + Clock {
    /// What starts threads and opens files.
    type Host: Spawner + Files + 'static;

    /// Where reports, lists and help go.
    type Stdout: Write + IsTerminal + Drop;

    /// Where faults are printed, and from another thread which trials run for too long.
    type Stderr: Write + Drop + Send + 'static;

    /// What starts its threads and opens its files.
    fn host(&self) -> Self::Host;

    /// Its standard output.
    fn stdout(&self) -> Self::Stdout;

    /// Its standard error.
    fn stderr(&self) -> Self::Stderr;

    /// Sees to it that no file gets the descriptor of a standard stream that is closed, as
    /// [`Streams::hold_closed_streams`] does. A machine without descriptors does nothing.
    fn hold_closed_streams(&self) -> io::Result<()> {
        Ok(())
    }
}

impl<R: Env + AllocGlobal + Clock + Files + Streams + Spawner + 'static> Machine for R {
    type Host = R;

    type Stdout = Stdout;

    type Stderr = Stderr;

    fn host(&self) -> R {
        *self
    }

    fn stdout(&self) -> Stdout {
        Streams::stdout(self)
    }

    fn stderr(&self) -> Stderr {
        Streams::stderr(self)
    }

    fn hold_closed_streams(&self) -> io::Result<()> {
        Streams::hold_closed_streams(self)
    }
}
