//! Prints what is unexpected, and the trials that were running.
ghost use Rattle.std.specs.Prelude.{◌≡◌};
ghost use Rattle.mimic_printer.specs.Piece.{first_line};
ghost use Rattle.mimic_printer.specs.Sink.{Adds};
ghost use Rattle.mimic_events.specs.Contents.{entry_read, label_read};
ghost use Rattle.mimic_expect.specs.FindingText.{announced_text, colon, finding_text, message_in, place_text, row_line, running_text, trial_line, trial_text};
ghost use Rattle.mimic_expect.specs.JudgementText.{finding_read};

use crate::judgement::Unexpected;
use crate::options::Lines;
use mimic_events::{Ending, Label, Row};
use mimic_printer::json::{add_announcement, add_outcome};
use mimic_printer::{Piece, Place, Sink, add_pieces};
use mimic_trial::Outcome;
use std::io::Write;

impl Unexpected<'_> {
    // Adds it as one line: what it is, which line of the known failures can go, and the row, or that line if there is no row
    // to show. Nothing in a name or a message ends the line or makes another.
    pub(crate) fn add_to<W: Write>(&self, sink: &mut Sink<W>, lines: Lines)
        ensures { Adds W.contents sink.old sink.new (finding_text lines (finding_read self.now)) }
    {
        match self {
            Unexpected::Failed(row) => {
                sink.add(b"failed: ");
                add_trial(sink, lines, row, message_in(row));
            }
            Unexpected::AnotherMessage { expectation, row } => {
                add_place(sink, "another message, line ", expectation.line);
                add_trial(sink, lines, row, message_in(row));
            }
            Unexpected::Passed(expectation) => {
                add_place(sink, "passed, line ", expectation.line);
                add_trial(sink, lines, &expectation.row, "");
            }
            Unexpected::Absent(expectation) => {
                add_place(sink, "absent, line ", expectation.line);
                add_trial(sink, lines, &expectation.row, "");
            }
        }
    }
}

// Adds a line of the trial that was running when the report was cut, if one was.
pub(crate) fn add_running_line<W: Write>(sink: &mut Sink<W>, lines: Lines, ending: &Ending)
    ensures { Adds W.contents sink.old sink.new (running_text lines ending.now) }
{
    if let Ending::Cut(stop) = ending
        && let Some(label) = &stop.running
    {
        sink.add(b"running: ");
        add_announced(sink, lines, label);
    }
}

// Adds a trial that was announced.
fn add_announced<W: Write>(sink: &mut Sink<W>, lines: Lines, label: &Label)
    ensures { Adds W.contents sink.old sink.new (announced_text lines (label_read label.now)) }
{
    match lines {
        Lines::Json => add_announcement(sink, label.name.as_str(), label.kind.as_str()),
        Lines::Readable => add_trial_line(sink, label.kind.as_str(), label.name.as_str(), ""),
    }
}

// Adds what was found about a line of the known failures, and its number.
#[tactic(auto, unfolding(crate::specs::FindingText::place_text))]
fn add_place<'a, W: Write>(sink: &mut Sink<W>, words: &'a str, line: usize)
    ensures { Adds W.contents sink.old sink.new (place_text words.now line) }
{
    let pieces = [
        Piece::Text(words),
        Piece::Number(line as u64),
        Piece::Text(" can go: "),
    ];
    add_pieces(sink, &pieces);
}

// Adds a trial, and for people this message. In JSON its own message is there, whatever this one is.
fn add_trial<'a, W: Write>(sink: &mut Sink<W>, lines: Lines, row: &Row, message: &'a str)
    ensures { Adds W.contents sink.old sink.new
        (trial_text lines (entry_read row.now) message.now) }
{
    match lines {
        Lines::Json => add_row(sink, row),
        Lines::Readable => add_trial_line(sink, row.kind.as_str(), row.name.as_str(), message),
    }
}

// Returns the message of a failure, and an empty text if there is none.
fn message_in(row: &Row) -> &str
    ensures { result.now ≡ message_in (entry_read row.now) }
{
    match &row.outcome {
        Outcome::Failed(failed) => failed.message().unwrap_or(""),
        Outcome::Passed | Outcome::Ignored | Outcome::Measured(_) => "",
    }
}

// Adds the kind, the name and the first line of the message, and the end of the line.
#[tactic(auto, unfolding(crate::specs::FindingText::trial_line))]
fn add_trial_line<'a, W: Write>(sink: &mut Sink<W>, kind: &'a str, name: &'a str, message: &'a str)
    ensures { Adds W.contents sink.old sink.new (trial_line kind.now name.now message.now) }
{
    let pieces = [
        Piece::Bracketed(Place::Line, kind),
        Piece::Escaped(Place::Line, name),
        Piece::Text(colon(message)),
        Piece::FirstLine(Place::Line, message),
        Piece::Text("\n"),
    ];
    add_pieces(sink, &pieces);
}

// Returns what comes before the first line of a message: nothing if that line is empty.
#[tactic(auto, unfolding(mimic_printer::specs::Piece::first_line))]
fn colon(message: &str) -> &'static str
    ensures { result.now ≡ colon (first_line message.now) }
{
    match message.as_bytes() {
        [] | [b'\n', ..] => "",
        _ => ": ",
    }
}

// Adds the line that a report in JSON has of the outcome, without a time.
pub(crate) fn add_row<W: Write>(sink: &mut Sink<W>, row: &Row)
    ensures { Adds W.contents sink.old sink.new (row_line (entry_read row.now)) }
{
    add_outcome(
        sink,
        row.name.as_str(),
        row.kind.as_str(),
        &row.outcome,
        None,
    );
}
