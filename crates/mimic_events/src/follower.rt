//! Follows a report, and returns its rows one by one.
ghost use Rattle.std.specs.Prelude.{◌≡◌, ◌++◌, [], false, true, IfOk, IsErr, List, MatchOption, None, OnErr, OnOk, option_map, ℕ};
ghost use Rattle.mimic_printer.specs.Json.{Entry};
ghost use Rattle.mimic_events.specs.Contents.{label_read};
ghost use Rattle.mimic_events.specs.Follower.{FollowsOn, FollowsRow, HasFollowed, HasHandedOut, bytes_with, was_refused};
ghost use Rattle.mimic_events.specs.Readers.{SumsUp};
ghost use Rattle.mimic_events.specs.Reading.{Decodes};
ghost use Rattle.mimic_events.specs.SoFar.{BeginsWithTitle, IsFirstWrong, ShowsRunning};

use crate::report::{Label, Row, Totals};
use crate::row_reader::RowReader;
use std::alloc::{AllocError, Global};

/// Reads a report whose bytes come in pieces, cut anywhere, as a `Feed` does, but returns each row when it has ended,
/// and keeps none.
///
/// It keeps the line that has not ended, and all that follows a line that no report has there.
#[derive(Drop)]
pub struct Follower {
    alloc: Global,
    reader: RowReader,
    failed: bool,
}

impl Follower {
    /// Makes a follower that has no bytes yet. It takes no memory so far.
    pub fn new(alloc: Global) -> Follower
        ensures { HasFollowed result [] [] }
    {
        Follower {
            alloc,
            reader: RowReader::new(alloc),
            failed: false,
        }
    }

    /// Takes the next piece up to the end of a row, and returns the row and what is left of the piece, which the next call
    /// is to take. If no row ends, it takes the whole piece, and returns `None`. If an allocation fails, this call and all
    /// later ones are refused.
    pub fn next_row<'a>(&mut self, piece: &'a [u8]) -> Result<Option<(Row, &'a [u8])>, AllocError>
        ensures followed { IfOk result (λ found. MatchOption found
            (FollowsOn self.old piece.now self.new [])
            (λ x. FollowsRow self.old piece.now self.new x.0 x.1.now)) }
        ensures failed { OnErr result (was_refused self.new ≡ true) }
        ensures refused { was_refused self.old ≡ true → IsErr result }
    {
        if self.failed {
            return Err(AllocError);
        }
        // This stays true if the piece isn't read to its end.
        self.failed = true;
        let found = self.reader.next_row(self.alloc, piece)?;
        self.failed = false;
        Ok(found)
    }

    // Returns whether a piece was refused.
    pub(crate) fn was_refused(&self) -> bool
        ensures { result ≡ was_refused self.now }
    {
        self.failed
    }

    // Takes the next piece, and appends the rows that end in it. If an allocation fails, this call and all later ones are
    // refused.
    pub(crate) fn keep_rows(&mut self, piece: &[u8], rows: &mut Vec<Row>) -> Result<(), AllocError>
        requires { HasHandedOut self.old rows.old.items }
        ensures rows { HasHandedOut self.new rows.new.items }
        ensures taken { OnOk result ((was_refused self.new ≡ false) × (bytes_with self.new rows.new.items
            ≡ bytes_with self.old rows.old.items ++ piece.now)) }
        ensures failed { OnErr result (was_refused self.new ≡ true) }
        ensures refused { was_refused self.old ≡ true → IsErr result }
    {
        if self.failed {
            return Err(AllocError);
        }
        // This stays true if the piece isn't read to its end.
        self.failed = true;
        let mut left = piece;
        while let Some((row, after)) = self.reader.next_row(self.alloc, left)? {
            rows.push(row)?;
            left = after;
        }
        self.failed = false;
        Ok(())
    }

    /// Returns how many trials the title announces: `None` before its line has ended, if it is no title, and after a
    /// refused piece.
    pub fn announced(&self) -> Option<u64>
        ensures found { (bytes : List ℕ) (rows : List Entry) → HasFollowed self.now bytes rows
            → Decodes BeginsWithTitle bytes result }
        ensures refused { was_refused self.now ≡ true → result ≡ None }
    {
        if self.failed {
            return None;
        }
        self.reader.announced()
    }

    /// Returns the trial that is announced but has no outcome so far: `None` if there is none, and after a refused
    /// piece. With workers there is none between rows.
    pub fn running(&self) -> Option<&Label>
        ensures found { (bytes : List ℕ) (rows : List Entry) → HasFollowed self.now bytes rows
            → Decodes ShowsRunning bytes (option_map (λ label. label_read label.now) result) }
        ensures refused { was_refused self.now ≡ true → result ≡ None }
    {
        if self.failed {
            return None;
        }
        self.reader.running()
    }

    /// Returns the number, from 1, of the first ended line that no report has there: `None` if there is none, and after a
    /// refused piece. No report has a line after its summary.
    pub fn first_wrong_line(&self) -> Option<u128>
        ensures found { (bytes : List ℕ) (rows : List Entry) → HasFollowed self.now bytes rows
            → Decodes IsFirstWrong bytes result }
        ensures refused { was_refused self.now ≡ true → result ≡ None }
    {
        if self.failed {
            return None;
        }
        self.reader.first_wrong_line()
    }

    /// Returns the numbers of the report that all bytes are together, `None` if they are none, and `Err` after a refused
    /// piece.
    pub fn finish(self) -> Result<Option<Totals>, AllocError>
        ensures totals { IfOk result (λ found. (bytes : List ℕ) (rows : List Entry)
            → HasFollowed self bytes rows → SumsUp bytes rows found) }
        ensures refused { was_refused self ≡ true → IsErr result }
    {
        if self.failed {
            return Err(AllocError);
        }
        Ok(self.reader.into_totals())
    }
}
