//! Reads pieces of an input.
ghost use Rattle.std.specs.Prelude.{◌≡◌, ◌<◌, IfErr, IfOk, length};
ghost use Rattle.mimic_events.specs.Inputs.{HasFailed, IsNoInterruption, IsPiece};
ghost use Rattle.mimic_events.specs.declared.input.ReadFault.TheVariants.{OutOfMemory};

use std::alloc::{AllocError, AllocFailed};
use std::io;
use std::io::{ErrorKind, Read};
use thiserror::Error;

/// The most bytes that are read at once.
pub const PIECE: usize = 65_536;

/// Reads bytes to the front of the room, and returns how many: 0 at the end of the input. A read that was interrupted is tried
/// again. With a fault nothing was read.
pub fn read_piece<I: Read>(input: &mut I, room: &mut [u8]) -> Result<usize, ReadFault>
    requires { 0 < length room.old }
    ensures piece { IfOk result
        (IsPiece (I.remaining input.old) (I.remaining input.new) room.new) }
    ensures room { length room.new ≡ length room.old }
    ensures fault { IfErr result
        (HasFailed (I.remaining input.old) (I.remaining input.new)) }
    ensures retried { IfErr result IsNoInterruption }
{
    for _ in 0..u64::MAX {
        match input.read(room) {
            Ok(count) => return Ok(count),
            Err(error) => match error.kind() {
                ErrorKind::Interrupted => {}
                ErrorKind::OutOfMemory => return Err(ReadFault::OutOfMemory),
                _ => return Err(ReadFault::Input(error)),
            },
        }
    }
    Err(ReadFault::Input(ErrorKind::Other.into()))
}

/// Why a reader gives no report, or no more of one. Its text is what a user is to see.
#[derive(Debug, Drop, Error)]
pub enum ReadFault {
    /// An allocation failed.
    #[error("out of memory")]
    OutOfMemory,
    /// The reader returned an error other than `Interrupted`.
    #[error("{0}")]
    Input(io::Error),
    /// The line of this number, counted from 1, is the first that no report has there.
    #[error("not what a report has there")]
    WrongLine(u128),
    /// The bytes ended before the report.
    #[error("the report is cut")]
    Cut,
}

impl From<AllocError> for ReadFault {
    ghost from_gives = { λ _ fault. fault ≡ OutOfMemory };

    fn from(_error: AllocError) -> ReadFault {
        ReadFault::OutOfMemory
    }
}

impl<T: Drop> From<AllocFailed<T>> for ReadFault {
    ghost from_gives = { λ _ fault. fault ≡ OutOfMemory };

    fn from(_refused: AllocFailed<T>) -> ReadFault {
        ReadFault::OutOfMemory
    }
}
