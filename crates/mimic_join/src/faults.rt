//! Why readers give no joined report.
ghost use Rattle.std.specs.Prelude.{◌≡◌};
ghost use Rattle.mimic_join.specs.declared.faults.JoinFault.TheVariants.{OutOfMemory, Write as WriteFailed};

use crate::join::Refusal;
use mimic_events::ReadFault;
use mimic_printer::WriteFault;
use std::alloc::{AllocError, AllocFailed};
use std::fmt;
use thiserror::Error;

/// Why readers give no joined report. Its text is what a user is to see, without the name of the reader.
#[derive(Debug, Drop, Error)]
pub enum JoinFault {
    /// An allocation failed. Nothing was written.
    #[error("out of memory")]
    OutOfMemory,
    /// The reader at this place, counted from 0, gives no report. Nothing was written.
    #[error("{fault}")]
    Input { place: usize, fault: ReadFault },
    /// The reports were refused. Nothing was written.
    #[error("{0}")]
    Refused(Refusal),
    /// A write or a flush failed. A beginning of the joined report was written.
    #[error("{0}")]
    Write(WriteFault),
}

impl JoinFault {
    ghost use Rattle.mimic_join.specs.Faults.{line_of, place_of};

    /// Returns the place, counted from 0, of the reader that the fault is in. `None` says that it is in no reader alone.
    pub fn place(&self) -> Option<usize>
        ensures { result ≡ place_of self.now }
    {
        match self {
            JoinFault::Input { place, fault: _ }
            | JoinFault::Refused(
                Refusal::Uneven { place } | Refusal::NamedTwice { place, row: _ },
            ) => { Some(*place) }
            JoinFault::OutOfMemory | JoinFault::Refused(_) | JoinFault::Write(_) => None,
        }
    }

    /// Returns the number, counted from 1, of the line of that reader that the fault is in. `None` says that it is in no line
    /// alone.
    pub fn line(&self) -> Option<u128>
        ensures { result ≡ line_of self.now }
    {
        match self {
            JoinFault::Input {
                place: _,
                fault: ReadFault::WrongLine(number),
            } => Some(*number),
            // The title and two lines for each row come before it.
            JoinFault::Refused(Refusal::NamedTwice { place: _, row }) => {
                Some(2 * *row as u128 + 2)
            }
            _ => None,
        }
    }

    /// Shows the fault with the name of its reader and the number of the line before its text, as `NAME: line 7: TEXT`, each if
    /// there is one. The names are those of all readers, in their order.
    pub fn with_names<'a>(&'a self, names: &'a [String]) -> NamedFault<'a>
        ensures fault { result.fault.now ≡ self.now }
        ensures names { result.names.now ≡ names.now }
    {
        NamedFault { fault: self, names }
    }
}

/// A fault that is shown with the name of its reader.
#[derive(Clone, Copy)]
pub struct NamedFault<'a> {
    fault: &'a JoinFault,
    names: &'a [String],
}

impl NamedFault<'_> {
    fn name(&self) -> Option<&str> {
        let name = self.names.get(self.fault.place()?)?;
        Some(name.as_str())
    }
}

impl fmt::Display for NamedFault<'_> {
    fn fmt<W: fmt::Write>(&self, f: &mut fmt::Formatter<W>) -> fmt::Result {
        if let Some(name) = self.name() {
            write!(f, "{name}: ")?;
        }
        if let Some(line) = self.fault.line() {
            write!(f, "line {line}: ")?;
        }
        write!(f, "{}", self.fault)
    }
}

impl From<AllocError> for JoinFault {
    ghost from_gives = { λ _ fault. fault ≡ OutOfMemory };

    fn from(_error: AllocError) -> JoinFault {
        JoinFault::OutOfMemory
    }
}

impl<T: Drop> From<AllocFailed<T>> for JoinFault {
    ghost from_gives = { λ _ fault. fault ≡ OutOfMemory };

    fn from(_refused: AllocFailed<T>) -> JoinFault {
        JoinFault::OutOfMemory
    }
}

impl From<WriteFault> for JoinFault {
    ghost from_gives = { λ error fault. fault ≡ WriteFailed error };

    fn from(error: WriteFault) -> JoinFault {
        JoinFault::Write(error)
    }
}
