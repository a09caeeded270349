//! Writes the elements of JUnit's XML.
ghost use Rattle.std.specs.Prelude.{◌≡◌, ◌++◌};
ghost use Rattle.std.specs.List.{concat};
ghost use Rattle.mimic_printer.specs.Piece.{piece_text};
ghost use Rattle.mimic_printer.specs.Sink.{Adds};
ghost use Rattle.mimic_events.specs.Contents.{entry_read};
ghost use Rattle.mimic_reports.specs.Junit.{case_text, class_point, numbers_part, root_start, stop_text, suite_start, time_part, unread_text};

use crate::cut::add_cut;
use crate::seconds::{nearest_thousandths, rounded_pieces};
use mimic_events::{Row, Stop};
use mimic_printer::{Piece, Place, Sink, add_pieces};
use mimic_trial::Outcome;
use std::io::Write;

// What a report, or all reports together, say in numbers.
#[derive(Clone, Copy, Debug, Default, PartialEq, Eq)]
pub(crate) struct Numbers {
    pub(crate) tests: u128,
    pub(crate) failures: u128,
    pub(crate) errors: u128,
    pub(crate) skipped: u128,
    pub(crate) nanos: u128,
}

// Adds the line of a row: its program, its kind, its name, its time, and its end, which begins with the last quote of these.
macro_rules! add_row {
    ($sink:expr, $program:expr, $row:expr, $($end:expr),+) => {{
        let kind = $row.kind.as_str();
        let (time_start, seconds, dot, tenths, hundredths) = time_pieces($row.nanos);
        let pieces = [
            Piece::Text("    <testcase classname=\""),
            Piece::Escaped(Place::Value, $program),
            Piece::Text(point(kind)),
            Piece::Escaped(Place::Value, kind),
            Piece::Text("\" name=\""),
            Piece::Escaped(Place::Value, $row.name.as_str()),
            time_start,
            seconds,
            dot,
            tenths,
            hundredths,
            $($end),+
        ];
        add_pieces($sink, &pieces);
    }};
}

// Adds what comes before the first report.
#[tactic(auto, unfolding(crate::specs::Junit::root_start))]
pub(crate) fn add_root_start<W: Write>(sink: &mut Sink<W>, numbers: &Numbers)
    ensures { Adds W.contents sink.old sink.new (root_start numbers.now) }
{
    sink.add(b"<?xml version=\"1.0\" encoding=\"UTF-8\"?>\n<testsuites");
    add_numbers(sink, numbers);
}

// Adds what comes before the rows of a report.
#[tactic(auto, unfolding(crate::specs::Junit::suite_start))]
pub(crate) fn add_suite_start<W: Write>(sink: &mut Sink<W>, program: &str, numbers: &Numbers)
    ensures { Adds W.contents sink.old sink.new (suite_start program.now numbers.now) }
{
    let front = [
        Piece::Text("  <testsuite name=\""),
        Piece::Escaped(Place::Value, program),
        Piece::Text("\""),
    ];
    add_pieces(sink, &front);
    add_numbers(sink, numbers);
}

// Adds the numbers as attributes, and the end of the tag.
fn add_numbers<W: Write>(sink: &mut Sink<W>, numbers: &Numbers)
    ensures { Adds W.contents sink.old sink.new (concat (numbers_part numbers.now)) }
{
    let thousandths = nearest_thousandths(numbers.nanos);
    let long = (
        numbers.tests,
        numbers.failures,
        numbers.errors,
        numbers.skipped,
        thousandths / 1000,
    );
    let pieces = [
        Piece::Text(" tests=\""),
        Piece::Long(&long.0),
        Piece::Text("\" failures=\""),
        Piece::Long(&long.1),
        Piece::Text("\" errors=\""),
        Piece::Long(&long.2),
        Piece::Text("\" skipped=\""),
        Piece::Long(&long.3),
        Piece::Text("\" time=\""),
        Piece::Long(&long.4),
        Piece::Text("."),
        Piece::Number((thousandths / 100 % 10) as u64),
        Piece::TwoDigits((thousandths % 100) as u8),
        Piece::Text("\">\n"),
    ];
    add_pieces(sink, &pieces);
}

fn point(kind: &str) -> &'static str
    ensures { result.now ≡ class_point kind.now }
{
    if kind.is_empty() { "" } else { "." }
}

// Returns the pieces of a time. Without one their texts are empty, so that each row has as many pieces.
fn time_pieces<'a>(nanos: Option<u64>) -> (Piece<'a>, Piece<'a>, Piece<'a>, Piece<'a>, Piece<'a>)
    ensures { piece_text result.0 ++ (piece_text result.1 ++ (piece_text result.2
        ++ (piece_text result.3 ++ piece_text result.4))) ≡ time_part nanos }
{
    let none = Piece::Text("");
    match nanos {
        None => (none, none, none, none, none),
        Some(nanos) => {
            let (seconds, dot, tenths, hundredths) = rounded_pieces(nanos);
            (Piece::Text("\" time=\""), seconds, dot, tenths, hundredths)
        }
    }
}

// Adds a row.
#[tactic(auto, unfolding(crate::specs::Junit::case_text))]
pub(crate) fn add_case<'a, W: Write>(sink: &mut Sink<W>, program: &'a str, row: &'a Row)
    ensures { Adds W.contents sink.old sink.new (case_text program.now (entry_read row.now)) }
{
    match &row.outcome {
        Outcome::Passed => add_row!(sink, program, row, Piece::Text("\"/>\n")),
        Outcome::Ignored => {
            add_row!(
                sink,
                program,
                row,
                Piece::Text("\"><skipped/></testcase>\n")
            )
        }
        Outcome::Failed(failed) => match failed.message() {
            None => add_row!(
                sink,
                program,
                row,
                Piece::Text("\"><failure type=\"failed\"/></testcase>\n")
            ),
            Some(message) => add_row!(
                sink,
                program,
                row,
                Piece::Text("\"><failure type=\"failed\" message=\""),
                Piece::FirstLine(Place::Value, message),
                Piece::Text("\">"),
                Piece::Escaped(Place::Content, message),
                Piece::Text("</failure></testcase>\n")
            ),
        },
        Outcome::Measured(measurement) => add_row!(
            sink,
            program,
            row,
            Piece::Text("\"><properties><property name=\"ns_per_iter\" value=\""),
            Piece::Number(measurement.avg),
            Piece::Text("\"/><property name=\"deviation\" value=\""),
            Piece::Number(measurement.variance),
            Piece::Text("\"/></properties><system-out>"),
            Piece::Grouped(measurement.avg),
            Piece::Text(" ns/iter (+/- "),
            Piece::Grouped(measurement.variance),
            Piece::Text(")</system-out></testcase>\n")
        ),
    }
}

// Adds that the report stopped after `ended` rows.
pub(crate) fn add_stop<W: Write>(sink: &mut Sink<W>, program: &str, ended: u128, stop: &Stop)
    ensures { Adds W.contents sink.old sink.new (stop_text program.now ended stop.now) }
{
    let front = [
        Piece::Text("    <testcase classname=\""),
        Piece::Escaped(Place::Value, program),
        Piece::Text("\" name=\"(whole report)\"><error type=\"incomplete\" message=\""),
    ];
    add_pieces(sink, &front);
    add_cut(sink, Place::Value, ended, stop);
    sink.add(b"\"/></testcase>\n");
}

// Adds why the report was not read to its end.
#[tactic(auto, unfolding(crate::specs::Junit::unread_text))]
pub(crate) fn add_unread<'a, W: Write>(sink: &mut Sink<W>, program: &'a str, cause: &'a str)
    ensures { Adds W.contents sink.old sink.new (unread_text program.now cause.now) }
{
    let pieces = [
        Piece::Text("    <testcase classname=\""),
        Piece::Escaped(Place::Value, program),
        Piece::Text("\" name=\"(whole report)\"><error type=\"unreadable\" message=\""),
        Piece::Escaped(Place::Value, cause),
        Piece::Text("\"/></testcase>\n"),
    ];
    add_pieces(sink, &pieces);
}
