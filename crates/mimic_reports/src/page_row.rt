//! Writes a row of a page.
ghost use Rattle.std.specs.Prelude.{◌≡◌};
ghost use Rattle.mimic_printer.specs.Sink.{Adds};
ghost use Rattle.mimic_events.specs.Contents.{entry_read};
ghost use Rattle.mimic_reports.specs.Page.{label_part, measurement_part, message_part, row_class, row_end, row_start, row_text, row_word, time_part};

use crate::bar::bar_of;
use crate::human_time::human_pieces;
use crate::page_elements::kind_tags;
use crate::row_id::add_id;
use mimic_events::Row;
use mimic_printer::{Piece, Place, Sink, add_pieces};
use mimic_trial::{Failed, Measurement, Outcome};
use std::io::Write;

// Adds a row, if this is the length of the longest bar.
pub(crate) fn add_row<W: Write>(sink: &mut Sink<W>, row: &Row, longest: u64)
    ensures { Adds W.contents sink.old sink.new (row_text longest (entry_read row.now)) }
{
    add_row_start(sink, row);
    add_label(sink, row.kind.as_str(), row.name.as_str());
    add_time(sink, row.nanos);
    add_row_end(sink, &row.outcome, longest);
}

// Adds what comes before the kind and the name.
fn add_row_start<W: Write>(sink: &mut Sink<W>, row: &Row)
    ensures { Adds W.contents sink.old sink.new (row_start (entry_read row.now)) }
{
    sink.add(b"<li id=\"");
    add_id(sink, row);
    sink.add(row_class(&row.outcome));
    add_id(sink, row);
    sink.add(row_word(&row.outcome));
}

fn row_class(outcome: &Outcome) -> &'static [u8]
    ensures { result.now ≡ row_class outcome.now }
{
    match outcome {
        Outcome::Passed => b"\" class=\"passed\"><a href=\"#",
        Outcome::Ignored => b"\" class=\"ignored\"><a href=\"#",
        Outcome::Failed(_) => b"\" class=\"failed\"><details open><summary><a href=\"#",
        Outcome::Measured(_) => b"\" class=\"measured\"><a href=\"#",
    }
}

fn row_word(outcome: &Outcome) -> &'static [u8]
    ensures { result.now ≡ row_word outcome.now }
{
    match outcome {
        Outcome::Passed => b"\">ok</a> ",
        Outcome::Ignored => b"\">ignored</a> ",
        Outcome::Failed(_) => b"\">FAILED</a> ",
        Outcome::Measured(_) => b"\">bench</a> ",
    }
}

// Adds a kind and a name.
pub(crate) fn add_label<'a, W: Write>(sink: &mut Sink<W>, kind: &'a str, name: &'a str)
    ensures { Adds W.contents sink.old sink.new (label_part kind.now name.now) }
{
    let (kind_start, kind_end) = kind_tags(kind);
    let pieces = [
        Piece::Text(kind_start),
        Piece::Escaped(Place::Html, kind),
        Piece::Text(kind_end),
        Piece::Escaped(Place::Html, name),
        Piece::Text("</bdi>"),
    ];
    add_pieces(sink, &pieces);
}

// Adds how long a trial took, if that is known.
fn add_time<W: Write>(sink: &mut Sink<W>, nanos: Option<u64>)
    ensures { Adds W.contents sink.old sink.new (time_part nanos) }
{
    let Some(nanos) = nanos else {
        return;
    };
    let (great, unit, small, small_unit) = human_pieces(nanos);
    let pieces = [
        Piece::Text(" <span class=\"time\" data-nanos=\""),
        Piece::Number(nanos),
        Piece::Text("\">"),
        great,
        unit,
        small,
        small_unit,
        Piece::Text("</span>"),
    ];
    add_pieces(sink, &pieces);
}

// Adds what follows them.
fn add_row_end<W: Write>(sink: &mut Sink<W>, outcome: &Outcome, longest: u64)
    ensures { Adds W.contents sink.old sink.new (row_end longest outcome.now) }
{
    match outcome {
        Outcome::Passed | Outcome::Ignored => sink.add(b"</li>\n"),
        Outcome::Failed(failed) => add_message(sink, failed),
        Outcome::Measured(measurement) => add_measurement(sink, measurement, longest),
    }
}

fn add_message<W: Write>(sink: &mut Sink<W>, failed: &Failed)
    ensures { Adds W.contents sink.old sink.new (message_part failed.now) }
{
    let Some(message) = failed.message() else {
        sink.add(b"</summary><p>no message</p></details></li>\n");
        return;
    };
    let pieces = [
        Piece::Text("</summary><pre>\n"),
        Piece::Escaped(Place::Html, message),
        Piece::Text("</pre></details></li>\n"),
    ];
    add_pieces(sink, &pieces);
}

fn add_measurement<W: Write>(sink: &mut Sink<W>, measurement: &Measurement, longest: u64)
    ensures { Adds W.contents sink.old sink.new (measurement_part longest measurement.now) }
{
    let pieces = [
        Piece::Text(" <span>"),
        Piece::Grouped(measurement.avg),
        Piece::Text(" ns/iter (+/- "),
        Piece::Grouped(measurement.variance),
        Piece::Text(")</span> <meter aria-hidden=\"true\" max=\""),
        Piece::Number(longest),
        Piece::Text("\" value=\""),
        Piece::Number(bar_of(measurement.avg)),
        Piece::Text("\"></meter></li>\n"),
    ];
    add_pieces(sink, &pieces);
}
