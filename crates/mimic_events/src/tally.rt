//! Reads the numbers of a report, and keeps none of its rows.
ghost use Rattle.std.specs.Prelude.{◌++◌, [], IfOk, List, ℕ};
ghost use Rattle.mimic_events.specs.Reading.{Decodes};
ghost use Rattle.mimic_events.specs.SoFar.{BeginsWithTitle, IsFirstWrong};
ghost use Rattle.mimic_events.specs.Tally.{HasRead, SpellsTotals};

use crate::report::Totals;
use crate::row_reader::RowReader;
use std::alloc::{AllocError, Global};

/// Reads a report whose bytes come in pieces, cut anywhere, as a `Feed` does, but for its numbers alone.
///
/// It keeps no row: only the line that has not ended, unless that begins as no line of a report does. From the first line
/// on that no report has there, it keeps nothing.
#[derive(Drop)]
pub struct Tally {
    alloc: Global,
    reader: RowReader,
    // The number of bytes that came.
    taken: u64,
}

impl Tally {
    /// Makes a tally of no bytes yet. It takes no memory so far.
    pub fn new(alloc: Global) -> Tally
        ensures { HasRead result [] }
    {
        Tally {
            alloc,
            reader: RowReader::new(alloc),
            taken: 0,
        }
    }

    /// Takes the next piece. If an allocation fails, nothing is left of the tally.
    #[tactic(auto, using(crate::proofs::Tallies::rows_shorter))]
    pub fn feed(self, piece: &[u8]) -> Result<Tally, AllocError>
        ensures { IfOk result
            (λ tally. (bytes : List ℕ) → HasRead self bytes → HasRead tally (bytes ++ piece.now)) }
    {
        let mut tally = self;
        // As if all bytes had been kept, there is no room for more than can be counted.
        tally.taken = tally
            .taken
            .checked_add(piece.len() as u64)
            .ok_or(AllocError)?;
        let mut left = tally.reader.pass_rows(piece);
        while let Some((row, after)) = tally.reader.next_row(tally.alloc, left)? {
            drop(row);
            left = tally.reader.pass_rows(after);
        }
        tally.reader.forget()?;
        Ok(tally)
    }

    /// Returns how many trials the title announces: `None` before its line has ended, and if it is no title.
    #[tactic(auto, using(crate::proofs::Forgetting::title_found))]
    pub fn announced(&self) -> Option<u64>
        ensures { (bytes : List ℕ) → HasRead self.now bytes → Decodes BeginsWithTitle bytes result }
    {
        self.reader.announced()
    }

    /// Returns the number, from 1, of the first ended line that no report has there, and `None` if there is none.
    #[tactic(auto, using(crate::proofs::Forgetting::wrong_found))]
    pub fn first_wrong_line(&self) -> Option<u128>
        ensures { (bytes : List ℕ) → HasRead self.now bytes → Decodes IsFirstWrong bytes result }
    {
        self.reader.first_wrong_line()
    }

    /// Returns the numbers of the report that all bytes are together, and `None` if they are none.
    #[tactic(auto, using(crate::proofs::Forgetting::totals_found))]
    pub fn finish(self) -> Option<Totals>
        ensures { (bytes : List ℕ) → HasRead self bytes → Decodes SpellsTotals bytes result }
    {
        self.reader.into_totals()
    }
}
