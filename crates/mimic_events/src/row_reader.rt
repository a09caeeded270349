//! Reads the rows of a report one after another, from bytes that come in pieces.
ghost use Rattle.std.specs.Prelude.{◌≡◌, true};
ghost use Rattle.mimic_events.specs.Readers.{NeverBegins, line_front};

use crate::lines::after;
use crate::progress::{Progress, Taken, first_line};
use crate::report::{Label, Row, Totals};
use std::alloc::{AllocError, Global};

// What was read, and what was not. The rows are returned as they end, and none is kept.
#[derive(Debug, Drop)]
pub(crate) struct RowReader {
    // What the lines that were taken said.
    progress: Progress,
    // All that came after these lines, or after `forget` one byte in its place.
    rest: Vec<u8>,
    // Whether the rest begins with a line that doesn't belong there. If not, it has no whole line.
    stuck: bool,
}

impl RowReader {
    ghost use Rattle.std.specs.Prelude.{◌≡◌, [], false, List, IfOk, MatchOption, None, OnOk, option_map};
    ghost use Rattle.mimic_printer.specs.Json.{Entry};
    ghost use Rattle.mimic_events.specs.Contents.{label_read};
    ghost use Rattle.mimic_events.specs.Progress.{IsLine, row_list};
    ghost use Rattle.mimic_events.specs.Readers.{IsSound, PassesRows, ReadsOn, ReadsRow, SumsUp, bytes_of};
    ghost use Rattle.mimic_events.specs.Reading.{Decodes};
    ghost use Rattle.mimic_events.specs.SoFar.{BeginsWithTitle, IsFirstWrong, ShowsRunning};
    ghost use Rattle.mimic_events.specs.Tally.{Forgets};

    // Makes a reader of no bytes yet.
    pub(crate) fn new(alloc: Global) -> Self
        ensures bytes { bytes_of result [] ≡ [] }
        ensures sound { IsSound result [] }
    {
        RowReader {
            progress: Progress::new(),
            rest: Vec::new(alloc),
            stuck: false,
        }
    }

    // Reads the next piece up to the end of a row, and returns that and what follows; or the whole piece, if no row
    // ends. After an `Err` the reader is of no use.
    pub(crate) fn next_row<'a>(
        &mut self,
        alloc: Global,
        piece: &'a [u8],
    ) -> Result<Option<(Row, &'a [u8])>, AllocError>
        ensures { IfOk result (λ found. MatchOption found
            (ReadsOn self.old piece.now self.new [])
            (λ x. ReadsRow self.old piece.now self.new x.0 x.1.now)) }
    {
        let mut left = piece;
        while let Some((end, after)) = first_line(left) {
            if self.stuck {
                break;
            }
            if let Some(row) = self.end_line(alloc, end)? {
                return Ok(Some((row, after)));
            }
            left = after;
        }
        self.rest.extend_from_slice(left)?;
        Ok(None)
    }

    // Reads the rows at the front of the piece that `count_row` counts, and returns what follows. It takes no memory.
    #[tactic(auto, using(crate::proofs::RowReaders::nothing_read, crate::proofs::PlainRows::row_shorter))]
    pub(crate) fn pass_rows<'a>(&mut self, piece: &'a [u8]) -> &'a [u8]
        ensures { PassesRows self.old piece.now self.new result.now }
    {
        let mut left = piece;
        if self.stuck || !self.rest.is_empty() {
            return left;
        }
        while let Some(after) = self.progress.count_row(left) {
            left = after;
        }
        left
    }

    // Reads the end of a line, whose beginning is the rest, and returns the row that ended there.
    fn end_line(&mut self, alloc: Global, end: &[u8]) -> Result<Option<Row>, AllocError>
        requires open { self.old.stuck ≡ false }
        requires line { IsLine end.now }
        ensures { IfOk result (λ row. ReadsOn self.old end.now self.new (row_list row)) }
    {
        if self.rest.is_empty() {
            // A line that came whole is not copied.
            return match self.progress.take_line(alloc, end)? {
                Taken::Read(row) => Ok(row),
                Taken::Astray => {
                    self.stuck = true;
                    self.rest.extend_from_slice(end)?;
                    Ok(None)
                }
            };
        }
        self.rest.extend_from_slice(end)?;
        match self.progress.take_line(alloc, &self.rest)? {
            Taken::Read(row) => {
                self.rest.clear();
                Ok(row)
            }
            Taken::Astray => {
                self.stuck = true;
                Ok(None)
            }
        }
    }

    // Forgets the bytes from a line on that no report has there, also of a line that hasn't ended if no line of a report
    // begins as it does. One byte takes their place: an empty line that of lines that have ended. After an `Err` the
    // reader is of no use.
    pub(crate) fn forget(&mut self) -> Result<(), AllocError>
        ensures { OnOk result (Forgets self.old self.new) }
    {
        if self.stuck {
            self.rest.clear();
            self.rest.push(b'\n')?;
        } else if begins_no_line(&self.rest) {
            self.rest.clear();
            self.rest.push(b'-')?;
        }
        Ok(())
    }

    // Returns how many rows the title announces, if it has ended.
    #[tactic(auto, using(crate::proofs::SoFar::finds_title))]
    pub(crate) fn announced(&self) -> Option<u64>
        ensures { (entries : List Entry) → IsSound self.now entries
            → Decodes BeginsWithTitle (bytes_of self.now entries) result }
    {
        self.progress.announced()
    }

    // Returns the trial that is announced but has no outcome so far.
    #[tactic(auto, using(crate::proofs::SoFar::finds_running))]
    pub(crate) fn running(&self) -> Option<&Label>
        ensures { (entries : List Entry) → IsSound self.now entries → Decodes ShowsRunning
            (bytes_of self.now entries) (option_map (λ label. label_read label.now) result) }
    {
        self.progress.running()
    }

    // Returns the number, from 1, of the first ended line that no report has there.
    #[tactic(auto, using(crate::proofs::Begun::finds_first))]
    pub(crate) fn first_wrong_line(&self) -> Option<u128>
        ensures { (entries : List Entry) → IsSound self.now entries
            → Decodes IsFirstWrong (bytes_of self.now entries) result }
    {
        self.stuck.then_some(self.progress.next_line())
    }

    // Returns what the summary said, if all bytes are a report.
    #[tactic(auto, using(crate::proofs::Readings::no_report))]
    pub(crate) fn into_totals(self) -> Option<Totals>
        ensures { (entries : List Entry) → IsSound self entries
            → SumsUp (bytes_of self entries) entries result }
    {
        if !self.rest.is_empty() {
            return None;
        }
        self.progress.into_totals()
    }
}

// Returns whether no line of a report begins with the bytes, whatever follows them.
fn begins_no_line(bytes: &[u8]) -> bool
    ensures { result ≡ true → NeverBegins line_front bytes.now }
{
    let front = br#"{ "type": ""#;
    after(bytes, front).is_none() && after(front, bytes).is_none()
}
