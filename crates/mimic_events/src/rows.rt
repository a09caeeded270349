//! Reads the rows of a report one after another.
ghost use Rattle.std.specs.Prelude.{◌≡◌, ◌++◌, ◌∷◌, [], List, Option, IfErr, IfOk, IfSome, MatchOption, None, OnOk, ℕ, false};
ghost use Rattle.mimic_printer.specs.Json.{Entry};
ghost use Rattle.mimic_events.specs.Contents.{entry_read};
ghost use Rattle.mimic_events.specs.Readings.{IsRead};
ghost use Rattle.mimic_events.specs.RowByRow.{HasCome, HasEnded, IsReady, ReadsOn, pending};

use crate::ending::Ending;
use crate::input::{PIECE, ReadFault, read_piece};
use crate::{Follower, Row};
use std::alloc::{AllocError, Global};
use std::io::{ErrorKind, Read};

/// The rows of the report that an input gives, one after another, up to its end or to the first line that no report has there.
/// None is kept.
///
/// It reads at most 64 KB at once.
#[derive(Drop)]
pub struct InputRows<I: Read> {
    alloc: Global,
    input: I,
    follower: Follower,
    // The bytes up to `to` are what the last read gave, and those up to `from` were followed.
    piece: Vec<u8>,
    from: usize,
    to: usize,
}

impl<I: Read + Drop> InputRows<I> {
    /// Prepares to read the input, and reads nothing yet.
    pub fn new(alloc: Global, input: I) -> Result<InputRows<I>, AllocError>
        ensures ready { IfOk result IsReady }
        ensures nothing { IfOk result (λ rows. HasCome I.remaining (I.remaining input) rows []) }
    {
        Ok(InputRows {
            alloc,
            input,
            follower: Follower::new(alloc),
            piece: vec![in alloc; 0; PIECE]?,
            from: 0,
            to: 0,
        })
    }

    /// Returns the next row, and `None` after the last one. A read that was interrupted is tried again. After any other error of the
    /// reader that is no want of memory, such as `WouldBlock`, the next call reads on.
    pub fn next_row(&mut self) -> Result<Option<Row>, ReadFault>
        requires { IsReady self.old }
        ensures ready { OnOk result (IsReady self.new) }
        ensures rows { IfOk result (λ found. (start : Option (List ℕ)) (entries : List Entry)
            → HasCome I.remaining start self.old entries → MatchOption found
            (HasEnded I.remaining start self.new entries)
            (λ row. HasCome I.remaining start self.new (entries ++ entry_read row ∷ []))) }
        ensures fault { IfErr result (ReadsOn I.remaining self.old self.new) }
    {
        for _ in 0..u64::MAX {
            if let Some(row) = self.follow()? {
                return Ok(Some(row));
            }
            if self.follower.first_wrong_line().is_some() {
                return Ok(None);
            }
            if !self.fill()? {
                return Ok(None);
            }
        }
        Err(ReadFault::Input(ErrorKind::Other.into()))
    }

    // Follows what was read up to the end of a row, or to its end.
    fn follow(&mut self) -> Result<Option<Row>, AllocError>
        requires { IsReady self.old }
        ensures ready { OnOk result (IsReady self.new) }
        ensures rows { IfOk result (λ found. (start : Option (List ℕ)) (entries : List Entry)
            → HasCome I.remaining start self.old entries → MatchOption found
            (HasCome I.remaining start self.new entries × (pending I.remaining self.new ≡ []))
            (λ row. HasCome I.remaining start self.new (entries ++ entry_read row ∷ []))) }
        ensures all { IfOk result (λ found. found ≡ None → self.new.from ≡ self.new.to) }
    {
        match self.follower.next_row(&self.piece[self.from..self.to])? {
            Some((row, left)) => {
                self.from = self.to - left.len();
                Ok(Some(row))
            }
            None => {
                self.from = self.to;
                Ok(None)
            }
        }
    }

    // Reads on if all that was read was followed. It returns false at the end of the input.
    fn fill(&mut self) -> Result<bool, ReadFault>
        requires { IsReady self.old }
        ensures ready { OnOk result (IsReady self.new) }
        ensures rows { IfOk result (λ more. (start : Option (List ℕ)) (entries : List Entry)
            → HasCome I.remaining start self.old entries → pending I.remaining self.old ≡ []
            → HasCome I.remaining start self.new entries
            × (more ≡ false → HasEnded I.remaining start self.new entries)) }
        ensures fault { self.old.from ≡ self.old.to → IfErr result (ReadsOn I.remaining self.old self.new) }
    {
        let count = read_piece(&mut self.input, &mut self.piece)?;
        self.from = 0;
        self.to = count;
        Ok(count > 0)
    }

    /// Returns how the report ended, after the last row.
    pub fn finish(self) -> Result<Ending, AllocError>
        ensures { IfOk result (λ ending. (start : Option (List ℕ)) (entries : List Entry)
            → HasEnded I.remaining start self entries → IfSome start (IsRead entries ending)) }
    {
        Ending::of(self.alloc, self.follower)
    }
}
