//! What is shown of a row.
ghost use Rattle.std.specs.Prelude.{◌≡◌};
ghost use Rattle.std.specs.Option.{option_copied};
ghost use Rattle.mimic_events.specs.Contents.{entry_read};
ghost use Rattle.mimic_printer.specs.Sink.{Adds};
ghost use Rattle.mimic_watch.specs.Rows.{bench_word, failed_line, failed_word, lines_noun, message_lines, message_text, more_text, row_text};

use mimic_events::Row;
use mimic_printer::{Piece, Place, Sink, add_pieces};
use mimic_trial::Outcome;
use std::io::Write;

// At most this many lines of a message are shown.
const MOST_LINES: usize = 20;

// Adds what is shown of the row: a failure with its message, a measurement, and nothing of others. Their words may have colours.
#[tactic(auto, unfolding(crate::specs::Rows::row_text), using(mimic_printer::proofs::Adding::adds_nothing))]
pub(crate) fn add_row<W: Write>(sink: &mut Sink<W>, colours: bool, row: &Row)
    ensures { Adds W.contents sink.old sink.new (row_text colours (entry_read row.now)) }
{
    let (failed, bench) = words(colours);
    let kind = Piece::Bracketed(Place::Terminal, row.kind.as_str());
    let name = Piece::Escaped(Place::Terminal, row.name.as_str());
    match &row.outcome {
        Outcome::Passed => {}
        Outcome::Ignored => {}
        Outcome::Failed(failure) => {
            let (word, gap, end) = (Piece::Text(failed), Piece::Text(" "), Piece::Text("\n"));
            add_pieces(sink, &[word, gap, kind, name, end]);
            add_message(sink, failure.message());
        }
        Outcome::Measured(measurement) => {
            let pieces = [
                Piece::Text(bench),
                Piece::Text("  "),
                kind,
                name,
                Piece::Text(": "),
                Piece::Grouped(measurement.avg),
                Piece::Text(" ns/iter (+/- "),
                Piece::Grouped(measurement.variance),
                Piece::Text(")\n"),
            ];
            add_pieces(sink, &pieces);
        }
    }
}

// Returns the words of a failure and of a measurement, in red and in cyan if there are colours.
fn words(colours: bool) -> (&'static str, &'static str)
    ensures failed { result.0.now ≡ failed_word colours }
    ensures bench { result.1.now ≡ bench_word colours }
{
    if colours {
        ("\u{1b}[31mFAILED\u{1b}[0m", "\u{1b}[36mbench\u{1b}[0m")
    } else {
        ("FAILED", "bench")
    }
}

// Adds the line that names the row if it failed, and nothing of others.
pub(crate) fn add_failed_line<W: Write>(sink: &mut Sink<W>, row: &Row)
    ensures { Adds W.contents sink.old sink.new
        (failed_line (entry_read row.now).label (entry_read row.now).outcome) }
{
    match &row.outcome {
        Outcome::Failed(_) => {
            let pieces = [
                Piece::Text("    "),
                Piece::Bracketed(Place::Terminal, row.kind.as_str()),
                Piece::Escaped(Place::Terminal, row.name.as_str()),
                Piece::Text("\n"),
            ];
            add_pieces(sink, &pieces);
        }
        _ => {}
    }
}

fn add_message<W: Write>(sink: &mut Sink<W>, message: Option<&str>)
    ensures { Adds W.contents sink.old sink.new (message_text (option_copied message.entry)) }
{
    if let Some(message) = message {
        add_lines(sink, message);
    }
}

// Adds the first lines of a message, and how many more it has.
fn add_lines<W: Write>(sink: &mut Sink<W>, message: &str)
    ensures { Adds W.contents sink.old sink.new (message_lines message.now) }
{
    for line in message.lines().take(MOST_LINES) {
        let line = Piece::Escaped(Place::Terminal, line);
        add_pieces(sink, &[Piece::Text("    "), line, Piece::Text("\n")]);
    }
    add_more(sink, message.lines().count().saturating_sub(MOST_LINES));
}

fn add_more<W: Write>(sink: &mut Sink<W>, count: usize)
    ensures { Adds W.contents sink.old sink.new (more_text count) }
{
    if count > 0 {
        let noun = Piece::Text(lines_noun(count));
        add_pieces(
            sink,
            &[Piece::Text("    .. "), Piece::Number(count as u64), noun],
        );
    }
}

fn lines_noun(count: usize) -> &'static str
    ensures { result.now ≡ lines_noun count }
{
    if count == 1 {
        " more line\n"
    } else {
        " more lines\n"
    }
}
