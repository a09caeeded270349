//! How reports end.
ghost use Rattle.std.specs.Prelude.{◌≡◌, IfOk, option_map};
ghost use Rattle.mimic_printer.specs.Piece.{pieces_text};
ghost use Rattle.mimic_events.specs.Contents.{label_read};
ghost use Rattle.mimic_events.specs.Stops.{ended_part, wrong_part};

use crate::{Follower, Label};
use mimic_printer::{Piece, Sink, add_pieces};
use std::alloc::{AllocError, Global};
use std::io::Write;
use std::{fmt, io};

/// How a report ended.
#[derive(Debug, Drop)]
pub enum Ending {
    /// With its summary, which says how many trials were filtered out, and how many nanoseconds the run took.
    Whole { filtered_out: u64, nanos: u64 },
    /// Before its summary, at the end of the input or at the first line that no report has there.
    Cut(Stop),
    /// Where the reader returned this error.
    Failed(io::Error),
}

/// What is known of a report that has no end.
#[derive(Debug, Drop)]
pub struct Stop {
    /// The number of trials that its title announces. `None` says that it has no title, so that it is no report.
    pub announced: Option<u64>,
    /// The trial that was announced last, if its outcome didn't follow: before the end, or before a line that no report has there.
    pub running: Option<Label>,
    /// The number, from 1, of the first line that no report has there. `None` says that all ended lines are those of a report.
    pub wrong_line: Option<u128>,
}

impl Ending {
    ghost use Rattle.std.specs.Prelude.{◌≡◌, IfOk, List, ℕ};
    ghost use Rattle.mimic_printer.specs.Json.{Entry};
    ghost use Rattle.mimic_events.specs.Follower.{HasFollowed};
    ghost use Rattle.mimic_events.specs.Readings.{EndsAs, has_all, is_whole};

    /// Whether the report has its summary.
    pub fn is_whole(&self) -> bool
        ensures { result ≡ is_whole self.now }
    {
        matches!(self, Ending::Whole { .. })
    }

    /// Whether it has, and no trial was filtered out, so that it has all trials.
    pub fn has_all(&self) -> bool
        ensures { result ≡ has_all self.now }
    {
        match self {
            Ending::Whole { filtered_out, .. } => *filtered_out == 0,
            Ending::Cut(_) | Ending::Failed(_) => false,
        }
    }

    /// Returns how the report ended that was followed to the end of an input, or to its first wrong line.
    pub fn of(alloc: Global, follower: Follower) -> Result<Ending, AllocError>
        ensures { IfOk result (λ ending. (bytes : List ℕ) (entries : List Entry)
            → HasFollowed follower bytes entries → EndsAs bytes entries ending) }
    {
        let announced = follower.announced();
        let wrong_line = follower.first_wrong_line();
        let running = copy_of(alloc, follower.running())?;
        match follower.finish()? {
            Some(totals) => {
                // Reading the number of rows shows that it fits.
                let _rows = totals.rows;
                Ok(Ending::Whole {
                    filtered_out: totals.counts.num_filtered_out,
                    nanos: totals.nanos,
                })
            }
            None => Ok(Ending::Cut(Stop {
                announced,
                running,
                wrong_line,
            })),
        }
    }
}

fn copy_of(alloc: Global, label: Option<&Label>) -> Result<Option<Label>, AllocError>
    ensures { IfOk result (λ copy. option_map label_read copy
        ≡ option_map (λ label. label_read label.now) label.entry) }
{
    let Some(label) = label else {
        return Ok(None);
    };
    Ok(Some(Label {
        name: String::from_str(alloc, label.name.as_str())?,
        kind: String::from_str(alloc, label.kind.as_str())?,
    }))
}

/// Shows why the report is none: which line is wrong, or that it is cut.
impl fmt::Display for Stop {
    fn fmt<W: fmt::Write>(&self, f: &mut fmt::Formatter<W>) -> fmt::Result {
        match self.wrong_line {
            Some(line) => write!(f, "line {line}: not what a report has there"),
            None => write!(f, "the report is cut"),
        }
    }
}

impl Stop {
    ghost use Rattle.mimic_printer.specs.Sink.{Adds};
    ghost use Rattle.mimic_events.specs.Stops.{extent_text};

    /// Adds which line is wrong, if one is, and how far the report goes: `line 7 is no line of a report; the report ends after
    /// 2 of 5 trials`, or `no report` in place of the second part if it has no title. `ended` is how many trials have rows.
    pub fn add_extent<W: Write>(&self, sink: &mut Sink<W>, ended: u128)
        ensures { Adds W.contents sink.old sink.new (extent_text ended self.now) }
    {
        add_pieces(sink, &wrong_pieces(&self.wrong_line));
        add_pieces(sink, &extent_pieces(&ended, self.announced));
    }
}

// Returns the part of the message about the wrong line, which is empty if no line is wrong.
fn wrong_pieces(number: &Option<u128>) -> [Piece<'_>; 3]
    ensures { pieces_text result ≡ wrong_part number.now }
{
    match number {
        Some(number) => [
            Piece::Text("line "),
            Piece::Long(number),
            Piece::Text(" is no line of a report; "),
        ],
        None => [Piece::Text(""), Piece::Text(""), Piece::Text("")],
    }
}

// Returns the part of the message about how far the report goes.
fn extent_pieces(ended: &u128, announced: Option<u64>) -> [Piece<'_>; 5]
    ensures { pieces_text result ≡ ended_part ended.now announced }
{
    match announced {
        Some(announced) => [
            Piece::Text("the report ends after "),
            Piece::Long(ended),
            Piece::Text(" of "),
            Piece::Number(announced),
            Piece::Text(" trials"),
        ],
        None => [
            Piece::Text("no report"),
            Piece::Text(""),
            Piece::Text(""),
            Piece::Text(""),
            Piece::Text(""),
        ],
    }
}
