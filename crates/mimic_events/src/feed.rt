//! Reads reports, whole and in pieces.
ghost use Rattle.std.specs.Prelude.{◌≡◌, ◌++◌, [], true, false, IfOk, IsErr, MatchOption, OnErr, OnOk, map, option_map, MatchResult};
ghost use Rattle.mimic_events.specs.Contents.{Spells, contents_read, entry_read, label_read};
ghost use Rattle.mimic_events.specs.Feed.{AreEnded, FindsSoFar};
ghost use Rattle.mimic_events.specs.Reading.{Decodes};
ghost use Rattle.mimic_events.specs.SoFar.{BeginsWithTitle, IsFirstWrong, ShowsRunning};
ghost use Rattle.mimic_events.specs.Inputs.{GivesNone, IsReportIn};

use crate::ending::Ending;
use crate::follower::Follower;
use crate::input::ReadFault;
use crate::report::{Label, Report, Row};
use crate::taker::{RowsRead, read_rows};
use std::alloc::{AllocError, Global};
use std::io::Read;
use std::marker::Model;

/// Reads a report whose bytes come in pieces, cut anywhere. Contracts see the bytes so far, and whether an allocation
/// failed.
///
/// A feed keeps the rows that have ended and the line that has not; and all that follows a line that no report has
/// there.
#[derive(Drop)]
pub struct Feed {
    follower: Follower,
    rows: Vec<Row>,
}

impl Model for Feed {
    ghost use Rattle.mimic_events.specs.Feed.{Fed};
    ghost use Rattle.mimic_events.specs.Follower.{HasHandedOut, bytes_with, was_refused};

    ghost Value = { Fed };

    ghost view = { λ f. record {
      bytes = bytes_with f.follower f.rows.items;
      failed = was_refused f.follower;
    } };

    ghost invariant = { λ f. HasHandedOut f.follower f.rows.items };
}

impl Feed {
    /// Makes a feed that has no bytes yet. It takes no memory so far; the `Result` leaves room for that.
    pub fn new(alloc: Global) -> Result<Feed, AllocError>
        ensures { IfOk result (λ feed. feed ≡ record { bytes = []; failed = false }) }
    {
        Ok(Feed {
            follower: Follower::new(alloc),
            rows: Vec::new(alloc),
        })
    }

    /// Takes the next piece. If an allocation fails, this call and all later ones are refused.
    pub fn feed(&mut self, piece: &[u8]) -> Result<(), AllocError>
        ensures taken { OnOk result
            (self.new ≡ record { bytes = self.old.bytes ++ piece.now; failed = false }) }
        ensures failed { OnErr result (self.new.failed ≡ true) }
        ensures refused { self.old.failed ≡ true → IsErr result }
    {
        self.follower.keep_rows(piece, &mut self.rows)
    }

    /// Returns the rows that have ended so far, each by the line end of its outcome, and `None` after a refused piece.
    pub fn rows(&self) -> Option<&[Row]>
        ensures { MatchOption result (self.now.failed ≡ true) (λ rows. (self.now.failed ≡ false)
            × AreEnded self.now.bytes (map entry_read rows.now)) }
    {
        if self.follower.was_refused() {
            return None;
        }
        Some(self.rows.as_slice())
    }

    /// Returns how many trials the title announces: `None` before its line has ended, if it is no title, and after a
    /// refused piece.
    pub fn announced(&self) -> Option<u64>
        ensures { FindsSoFar BeginsWithTitle self.now result }
    {
        self.follower.announced()
    }

    /// Returns the trial that is announced but has no outcome so far: `None` if there is none, and after a refused
    /// piece. With workers there is none between rows.
    pub fn running(&self) -> Option<&Label>
        ensures { FindsSoFar ShowsRunning self.now
            (option_map (λ label. label_read label.now) result) }
    {
        self.follower.running()
    }

    /// Returns the number, from 1, of the first ended line that no report has there: `None` if there is none, and after a
    /// refused piece. No report has a line after its summary.
    pub fn first_wrong_line(&self) -> Option<u128>
        ensures { FindsSoFar IsFirstWrong self.now result }
    {
        self.follower.first_wrong_line()
    }

    /// Returns the report that all bytes are together, `None` if they are none, and `Err` after a refused piece.
    pub fn finish(self) -> Result<Option<Report>, AllocError>
        ensures report { IfOk result
            (λ found. Decodes Spells self.bytes (option_map contents_read found)) }
        ensures refused { self.failed ≡ true → IsErr result }
    {
        let Feed { follower, rows } = self;
        let Some(totals) = follower.finish()? else {
            return Ok(None);
        };
        Ok(Some(Report {
            rows,
            filtered_out: totals.counts.num_filtered_out,
            nanos: totals.nanos,
        }))
    }
}

/// Reads a whole report: `None` if the bytes are no report in JSON.
///
/// A report has one text only. So a byte more or less, other spaces, other ways to write a text or a number,
/// and totals that are not those of the rows are all no report.
pub fn read_report(alloc: Global, bytes: &[u8]) -> Result<Option<Report>, AllocError>
    // The bytes are the report of what was found and of nothing else; if nothing was found, they are no report.
    ensures { IfOk result (λ found. Decodes Spells bytes.now (option_map contents_read found)) }
{
    let mut feed = Feed::new(alloc)?;
    feed.feed(bytes)?;
    feed.finish()
}

/// Reads the report that the reader gives up to its end, in pieces of 64 KB. Only the rows are kept, and the line that has not
/// ended.
///
/// A read that was interrupted is tried again. Behind a piece with a wrong line nothing more is read.
#[tactic(auto, using(crate::proofs::ReadBytes::cut_in, crate::proofs::ReadBytes::wrong_in))]
pub fn read_from<I: Read>(alloc: Global, input: &mut I) -> Result<Report, ReadFault>
    ensures { MatchResult result (IsReportIn (I.remaining input.old))
        (GivesNone (I.remaining input.old)) }
{
    let RowsRead { rows, ending } = read_rows(alloc, input)?;
    match ending {
        Ending::Whole {
            filtered_out,
            nanos,
        } => Ok(Report {
            rows,
            filtered_out,
            nanos,
        }),
        Ending::Cut(stop) => match stop.wrong_line {
            Some(number) => Err(ReadFault::WrongLine(number)),
            None => Err(ReadFault::Cut),
        },
        Ending::Failed(error) => Err(ReadFault::Input(error)),
    }
}
