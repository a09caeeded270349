//! Gives the rows of an input to whoever takes them.
ghost use Rattle.std.specs.Prelude.{◌≡◌, ◌<◌, ◌-◌, ◌^◌, ◌++◌, ◌∷◌, [], ℕ, IfSome, List, MatchResult, length, IfOk, map};
ghost use Rattle.mimic_printer.specs.Json.{Entry};
ghost use Rattle.mimic_printer.specs.declared.sink.OutputFault.{OutputFault as AnyFault};
ghost use Rattle.mimic_printer.specs.declared.sink.OutputFault.TheVariants.{OutOfMemory};
ghost use Rattle.mimic_events.specs.Contents.{entry_read};
ghost use Rattle.mimic_events.specs.Readings.{HasEndedRows, IsReading};

use crate::Row;
use crate::ending::Ending;
use crate::input::ReadFault;
use crate::rows::InputRows;
use mimic_printer::OutputFault;
use std::alloc::{AllocError, Global};
use std::io::{ErrorKind, Read};

/// Takes the rows of a report, one after another.
pub trait RowTaker {
    /// What these rows, taken in their order, make of it.
    ghost takes: { Self → List Entry → Self → Type 0 };

    /// What holds if it could not take the last one of these rows, or if there was no memory to read on behind them.
    ghost stops: { Self → List Entry → AnyFault → Self → Type 0 };

    /// Takes the next row.
    fn take(&mut self, row: Row) -> Result<(), OutputFault>
        requires { (start : Self) × (entries : List Entry) × takes start entries self.old
            × (length entries < 2 ^ 64 - 1) }
        ensures { (start : Self) (entries : List Entry) → takes start entries self.old → MatchResult result
            (λ _. takes start (entries ++ entry_read row ∷ []) self.new)
            (λ fault. stops start (entries ++ entry_read row ∷ []) fault self.new) };
}

/// Reads a report to its end, or to the first line that no report has there, gives each row that has ended to the taker, in their
/// order, and returns how the report ended. With an error of the reader these are the rows that had ended before it.
///
/// A read that was interrupted is tried again. With a fault of the taker no more is read. Nothing is kept but the line that has not ended.
pub fn read_into<I: Read + Drop, T: RowTaker>(
    alloc: Global,
    input: I,
    taker: &mut T,
) -> Result<Ending, OutputFault>
    requires first { T.takes taker.old [] taker.old }
    requires memory { (rows : List Entry) (now : T) → T.takes taker.old rows now
        → T.stops taker.old rows OutOfMemory now }
    ensures { MatchResult result
        (λ ending. (rows : List Entry) × IfSome (I.remaining input) (IsReading rows ending)
        × T.takes taker.old rows taker.new)
        (λ fault. (rows : List Entry) × IfSome (I.remaining input) (HasEndedRows rows)
        × T.stops taker.old rows fault taker.new) }
{
    let mut rows = InputRows::new(alloc, input)?;
    for _ in 0..u64::MAX {
        match rows.next_row() {
            Ok(Some(row)) => taker.take(row)?,
            Ok(None) => return Ok(rows.finish()?),
            Err(ReadFault::Input(error)) => return Ok(Ending::Failed(error)),
            // Reading rows has no other fault.
            Err(_) => return Err(OutputFault::OutOfMemory),
        }
    }
    Ok(Ending::Failed(ErrorKind::Other.into()))
}

/// What was read of a report that may have no end.
#[derive(Debug, Drop)]
pub struct RowsRead {
    /// The rows that have ended, before the first line that no report has there or the reader's error.
    pub rows: Vec<Row>,
    /// How the report ended.
    pub ending: Ending,
}

/// Reads a report to its end, or to the first line that no report has there, and keeps its rows.
///
/// A read that was interrupted is tried again. It fails only if there is no memory.
pub fn read_rows<I: Read + Drop>(alloc: Global, input: I) -> Result<RowsRead, AllocError>
    ensures { IfOk result (λ read. IfSome (I.remaining input)
        (IsReading (map entry_read read.rows.items) read.ending)) }
{
    let mut rows = Vec::new(alloc);
    match read_into(alloc, input, &mut rows) {
        Ok(ending) => Ok(RowsRead { rows, ending }),
        // To keep rows needs memory, and nothing else.
        Err(_) => Err(AllocError),
    }
}

impl RowTaker for Vec<Row> {
    ghost use Rattle.std.specs.Prelude.{◌≡◌, ◌++◌, map};
    ghost use Rattle.mimic_printer.specs.declared.sink.OutputFault.TheVariants.{OutOfMemory};
    ghost use Rattle.mimic_events.specs.Contents.{entry_read};

    ghost takes = { λ old rows new. map entry_read new.items ≡ map entry_read old.items ++ rows };

    ghost stops = { λ old rows fault new. fault ≡ OutOfMemory };

    fn take(&mut self, row: Row) -> Result<(), OutputFault> {
        self.push(row)?;
        Ok(())
    }
}
