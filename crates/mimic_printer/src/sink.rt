//! Counts the faults of a writer.
ghost use Rattle.std.specs.Prelude.{◌≡◌, [], IsOk, false};
ghost use Rattle.mimic_printer.specs.declared.sink.OutputFault.TheVariants.{OutOfMemory, Write as WriteStopped};

use std::alloc::{AllocError, AllocFailed};
use std::io;
use std::io::Write;
use thiserror::Error;

/// Why a write failed.
#[derive(Debug, Drop, Error)]
pub enum WriteFault {
    /// The writer returned an error of any kind, `Interrupted` too.
    #[error("{0}")]
    Error(io::Error),
    /// The writer took none of a piece that isn't empty.
    #[error("the writer took no byte")]
    Zero,
}

/// Why a text was not written to its end. Its text is what a user is to see.
#[derive(Debug, Drop, Error)]
pub enum OutputFault {
    /// An allocation failed.
    #[error("out of memory")]
    OutOfMemory,
    /// A write or a flush failed.
    #[error("{0}")]
    Write(WriteFault),
}

/// Holds a writer, and counts how many of its writes and flushes failed.
///
/// A call `add..` appends its text and returns nothing, so that a text is put together part by part, with no `?` between. The first
/// fault is kept, and the writer isn't called again: what was appended is a beginning of all that was added. Whoever added the last
/// part calls `end`, which hands the fault out and counts it, and the sink is ready for the next text. `put` and `flush` are one
/// part and its end.
///
/// A fault is not tried again. A run that returns `Ok` has counted none, and one that returns a write fault has counted exactly
/// one.
#[derive(Drop)]
pub struct Sink<W: Write> {
    writer: W,
    faults: u64,
    fault: Option<WriteFault>,
}

impl<W: Write> Sink<W> {
    ghost use Rattle.mimic_printer.specs.Sink.{Adds, Ends, HasFaultLeft, Puts, faults_of, keeps_fault, writer_of};

    /// Makes a sink over the writer, with no fault yet.
    pub fn new(writer: W) -> Self
        ensures writer { writer_of result ≡ writer }
        ensures faults { faults_of result ≡ 0 }
        ensures ready { keeps_fault result ≡ false }
    {
        Sink {
            writer,
            faults: 0,
            fault: None,
        }
    }

    /// Returns how many writes and flushes failed so far.
    pub fn faults(&self) -> u64
        ensures { result ≡ faults_of self.now }
    {
        self.faults
    }

    /// Gives the writer back as it is.
    pub fn into_inner(self) -> W
        ensures { result ≡ writer_of self }
    {
        let Sink { writer, .. } = self;
        writer
    }

    /// Returns whether a fault is kept, so that no more is written. A loop that adds many parts can stop then.
    #[inline(always)]
    pub fn has_fault(&self) -> bool
        ensures { result ≡ keeps_fault self.now }
    {
        self.fault.is_some()
    }

    /// Appends the whole piece, in as many writes as the writer wants, and nothing if a fault is kept.
    ///
    /// If a write fails, a beginning of the piece was appended, and the fault is kept until `end` is called.
    pub fn add(&mut self, piece: &[u8])
        ensures { Adds W.contents self.old self.new piece.now }
    {
        if self.fault.is_some() {
            return;
        }
        let mut rest = piece;
        while !rest.is_empty() {
            match self.writer.write(rest) {
                Ok(0) => {
                    self.fault = Some(WriteFault::Zero);
                    return;
                }
                Ok(count) => rest = &rest[count..],
                Err(error) => {
                    self.fault = Some(WriteFault::Error(error));
                    return;
                }
            }
        }
    }

    /// Flushes the writer, which appends nothing, unless a fault is kept. If the flush fails, the fault is kept until `end`
    /// is called.
    pub fn add_flush(&mut self)
        ensures { Adds W.contents self.old self.new [] }
    {
        if self.fault.is_some() {
            return;
        }
        if let Err(error) = self.writer.flush() {
            self.fault = Some(WriteFault::Error(error));
        }
    }

    /// Hands the kept fault out and counts it, or returns `Ok` if all that was added was written. The sink keeps no fault then.
    ///
    /// It is due after the last part of a text, before a `?` of another fault.
    #[inline(always)]
    pub fn end(&mut self) -> Result<(), WriteFault>
        requires { HasFaultLeft self.old }
        ensures { Ends self.old self.new result }
    {
        match self.fault.take() {
            None => Ok(()),
            Some(fault) => {
                self.faults += 1;
                Err(fault)
            }
        }
    }

    /// Appends the whole piece, in as many writes as the writer wants. An empty piece writes nothing.
    ///
    /// With a fault a beginning of the piece was appended, and one more fault is counted.
    #[tactic(auto, using(crate::proofs::Adding::puts_added))]
    pub fn put(&mut self, piece: &[u8]) -> Result<(), WriteFault>
        requires { HasFaultLeft self.old }
        ensures appends { Puts W.contents self.old self.new piece.now result }
        ensures empty { piece.now ≡ [] → IsOk result }
    {
        if piece.is_empty() {
            return Ok(());
        }
        self.add(piece);
        self.end()
    }

    /// Flushes the writer, which appends nothing. With a fault one more fault is counted.
    #[tactic(auto, using(crate::proofs::Adding::puts_added))]
    pub fn flush(&mut self) -> Result<(), WriteFault>
        requires { HasFaultLeft self.old }
        ensures { Puts W.contents self.old self.new [] result }
    {
        self.add_flush();
        self.end()
    }
}

impl From<AllocError> for OutputFault {
    ghost from_gives = { λ _ fault. fault ≡ OutOfMemory };

    fn from(_error: AllocError) -> OutputFault {
        OutputFault::OutOfMemory
    }
}

impl<T: Drop> From<AllocFailed<T>> for OutputFault {
    ghost from_gives = { λ _ fault. fault ≡ OutOfMemory };

    fn from(_refused: AllocFailed<T>) -> OutputFault {
        OutputFault::OutOfMemory
    }
}

impl From<WriteFault> for OutputFault {
    ghost from_gives = { λ error fault. fault ≡ WriteStopped error };

    fn from(error: WriteFault) -> OutputFault {
        OutputFault::Write(error)
    }
}
