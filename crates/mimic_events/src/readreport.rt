//! Prints the numbers of a report in one line, for the program `readreport`.
ghost use Rattle.std.specs.Prelude.{◌≡◌, ◌++◌, ℕ, List, IfErr, IfOk, IfSome, OnOk, string_bytes};
ghost use Rattle.mimic_events.specs.Tally.{HasRead};
ghost use Rattle.mimic_events.specs.declared.readreport.Fault.TheVariants.{OutOfMemory};
ghost use Rattle.mimic_events.specs.Outputs.{Ended, IsOfInput, Leaves, PutsText, counted, counts_line, fault_line};

use crate::input::{ReadFault, read_piece};
use crate::report::Totals;
use crate::tally::Tally;
use itoa::Buffer;
use std::alloc::{AllocError, Global};
use std::io::{Read, Write};

// The exit statuses.
const SUCCESS: u8 = 0;

const FAILURE: u8 = 1;

// The most bytes that are read at once.
const PIECE: usize = 4096;

// Why no line of a report is printed.
#[derive(Clone, Copy, Debug)]
pub(crate) enum Fault {
    Read,
    NoReport,
    // The line could not be written whole, or not be flushed.
    Write,
    OutOfMemory,
}

impl Fault {
    // Returns the line that says which fault it is.
    fn line(self) -> &'static str
        ensures { result.now ≡ fault_line self }
    {
        match self {
            Fault::Read => "cannot read\n",
            Fault::NoReport => "not a report\n",
            Fault::Write => "cannot write\n",
            Fault::OutOfMemory => "out of memory\n",
        }
    }
}

/// Reads a report to the end of the input, prints it in one line on `out`, and returns the exit status 0. If
/// that can't be done, the reason goes to `err` as one line, and the status is 1; a fault in writing it is not reported.
pub fn readreport_run<I: Read, O: Write, E: Write>(
    alloc: Global,
    input: &mut I,
    out: &mut O,
    err: &mut E,
) -> u8
    ensures { Ended (I.remaining input.old) (O.contents out.old) (O.contents out.new)
        (E.contents err.old) (E.contents err.new) result }
{
    match print_report(alloc, input, out) {
        Ok(()) => SUCCESS,
        Err(fault) => {
            let _ = put_text(err, fault.line());
            FAILURE
        }
    }
}

fn print_report<I: Read, O: Write>(alloc: Global, input: &mut I, out: &mut O) -> Result<(), Fault>
    ensures { Leaves (I.remaining input.old) (O.contents out.old) (O.contents out.new) result }
{
    let tally = tallied(alloc, input)?;
    let Some(totals) = tally.finish() else {
        return Err(Fault::NoReport);
    };
    let line = line_of(alloc, &totals)?;
    put_text(out, line.as_str())
}

// Feeds the input to its end, piece by piece. Compiled into `main`, the loop takes longer.
#[inline(never)]
fn tallied<I: Read>(alloc: Global, input: &mut I) -> Result<Tally, Fault>
    ensures read { IfOk result (λ tally. (all : List ℕ) × HasRead tally all
        × IfSome (I.remaining input.old) (λ bytes. all ≡ bytes)) }
    ensures faults { IfErr result IsOfInput }
{
    let mut tally = Tally::new(alloc);
    let mut piece = [0; PIECE];
    for _ in 0..u64::MAX {
        match read_piece(input, &mut piece) {
            Ok(0) => return Ok(tally),
            Ok(count) => tally = tally.feed(&piece[..count])?,
            Err(ReadFault::OutOfMemory) => return Err(Fault::OutOfMemory),
            Err(_) => return Err(Fault::Read),
        }
    }
    Err(Fault::Read)
}

// Writes the text whole and flushes it. What fails is not tried again.
fn put_text<W: Write>(writer: &mut W, text: &str) -> Result<(), Fault>
    ensures { PutsText (W.contents writer.old) (W.contents writer.new) text.now result }
{
    let mut rest = text.as_bytes();
    while !rest.is_empty() {
        match writer.write(rest) {
            Ok(0) | Err(_) => return Err(Fault::Write),
            Ok(count) => rest = &rest[count..],
        }
    }
    match writer.flush() {
        Ok(()) => Ok(()),
        Err(_) => Err(Fault::Write),
    }
}

// Makes the line of a report's numbers, with its line end, so that it is written at once.
fn line_of(alloc: Global, totals: &Totals) -> Result<String, AllocError>
    ensures { IfOk result (λ line. string_bytes line
        ≡ counts_line totals.now.rows totals.now.counts totals.now.nanos) }
{
    let counts = &totals.counts;
    let mut line = String::new(alloc);
    put(&mut line, totals.rows, " trials: ")?;
    put(&mut line, counts.num_passed, " passed; ")?;
    put(&mut line, counts.num_failed, " failed; ")?;
    put(&mut line, counts.num_ignored, " ignored; ")?;
    put(&mut line, counts.num_measured, " measured; ")?;
    put(&mut line, counts.num_filtered_out, " filtered out; ")?;
    put(&mut line, totals.nanos, " ns\n")?;
    Ok(line)
}

// Appends the number in decimal, and then the text.
fn put(line: &mut String, number: u64, text: &str) -> Result<(), AllocError>
    ensures { OnOk result
        (string_bytes line.new ≡ string_bytes line.old ++ counted number text.now) }
{
    line.push_str(Buffer::new().format(number))?;
    line.push_str(text)
}

impl From<AllocError> for Fault {
    ghost from_gives = { λ _ fault. fault ≡ OutOfMemory };

    fn from(_error: AllocError) -> Fault {
        Fault::OutOfMemory
    }
}
