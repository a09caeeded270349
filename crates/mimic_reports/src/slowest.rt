//! Prints the trials that took longest.
ghost use Rattle.std.specs.Prelude.{◌≡◌, [], List, OnOk, map, take};
ghost use Rattle.std.specs.List.{flat_map};
ghost use Rattle.mimic_printer.specs.Sink.{Adds, HasFaultLeft, shown};
ghost use Rattle.mimic_reports.specs.Slowest.{HasSlowest, IsSlowestFirst, LeavesSlowest, Timed, line_text, timed_read};

use crate::seconds::rounded_pieces;
use mimic_events::{Row, RowTaker};
use mimic_printer::{OutputFault, Piece, Place, Sink, add_pieces};
use std::alloc::{AllocError, Global};
use std::cmp::Reverse;
use std::io::Write;

/// The slowest of the rows that it takes, of those that have a time. It keeps at most twice as many as are asked for.
#[derive(Debug, Drop)]
pub struct Slowest {
    count: usize,
    rows: Vec<TimedRow>,
}

// A row that has a time.
#[derive(Debug, Drop)]
struct TimedRow {
    kind: String,
    name: String,
    nanos: u64,
}

impl Slowest {
    /// The slowest `count` of no rows.
    pub fn new(alloc: Global, count: usize) -> Slowest
        ensures count { result.count ≡ count }
        ensures rows { HasSlowest result [] }
    {
        Slowest {
            count,
            rows: Vec::new(alloc),
        }
    }

    // Sorts the rows, and keeps no more than are asked for.
    fn cut(&mut self) -> Result<(), AllocError>
        ensures { OnOk result ((self.new.count ≡ self.old.count) × ((ordered : List Timed)
            × IsSlowestFirst (map timed_read self.old.rows.items) ordered
            × (map timed_read self.new.rows.items ≡ take self.old.count ordered))) }
    {
        self.rows.sort_by_key(|row| Reverse(row.nanos))?;
        self.rows.truncate(self.count);
        Ok(())
    }
}

impl RowTaker for Slowest {
    ghost use Rattle.std.specs.Prelude.{◌≡◌, ◌++◌, List};
    ghost use Rattle.mimic_printer.specs.declared.sink.OutputFault.TheVariants.{OutOfMemory};
    ghost use Rattle.mimic_reports.specs.Slowest.{HasSlowest, Timed, timed_among};

    // It is made for as many, and has the slowest of these rows, too.
    ghost takes = { λ old entries new. (new.count ≡ old.count)
        × ((rows : List Timed) → HasSlowest old rows → HasSlowest new (rows ++ timed_among entries)) };

    ghost stops = { λ old entries fault new. fault ≡ OutOfMemory };

    fn take(&mut self, row: Row) -> Result<(), OutputFault> {
        let Some(nanos) = row.nanos else {
            return Ok(());
        };
        let Row { name, kind, .. } = row;
        self.rows.push(TimedRow { kind, name, nanos })?;
        if self.rows.len() / 2 >= self.count {
            self.cut()?;
        }
        Ok(())
    }
}

/// Prints the slowest of the rows that it took, as many as it was made for, or all if there are fewer, and flushes them: slowest
/// first, and equal times in the order in which they were taken.
///
/// Each has a line: its time in seconds with three decimals, its kind in brackets, and its name. Control characters are shown by
/// their numbers, so that no name ends a line.
///
/// If memory ran out, nothing was written. After a write fault, a beginning of the lines was written.
pub fn write_slowest<W: Write>(slowest: Slowest, sink: &mut Sink<W>) -> Result<(), OutputFault>
    requires { HasFaultLeft sink.old }
    ensures { (rows : List Timed) → HasSlowest slowest rows
        → LeavesSlowest slowest.count rows (shown W.contents sink.old) (shown W.contents sink.new) result }
{
    let mut slowest = slowest;
    slowest.cut()?;
    add_lines(sink, &slowest.rows);
    sink.add_flush();
    sink.end()?;
    Ok(())
}

fn add_lines<W: Write>(sink: &mut Sink<W>, rows: &[TimedRow])
    ensures { Adds W.contents sink.old sink.new
        (flat_map (λ row. line_text (timed_read row)) rows.now) }
{
    for row in rows {
        if sink.has_fault() {
            break;
        }
        add_line(sink, row);
    }
}

#[tactic(auto, unfolding(crate::specs::Slowest::line_text))]
fn add_line<W: Write>(sink: &mut Sink<W>, row: &TimedRow)
    ensures { Adds W.contents sink.old sink.new (line_text (timed_read row.now)) }
{
    let (seconds, dot, tenths, hundredths) = rounded_pieces(row.nanos);
    let pieces = [
        seconds,
        dot,
        tenths,
        hundredths,
        Piece::Text("  "),
        Piece::Bracketed(Place::Line, row.kind.as_str()),
        Piece::Escaped(Place::Line, row.name.as_str()),
        Piece::Text("\n"),
    ];
    add_pieces(sink, &pieces);
}
