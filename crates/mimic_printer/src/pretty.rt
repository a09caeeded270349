//! Writes the parts of a report in pretty. Its title, its measurements and its summary are those of terse too.
ghost use Rattle.std.specs.Prelude.{◌≡◌, ◌++◌, Some, codes};
ghost use Rattle.mimic_printer.specs.Report.{noun_text, outcome_line, outcome_word, pretty_announcement, result_summary, running_title, time_mark, untimed_line, verdict_of};
ghost use Rattle.mimic_printer.specs.Sink.{Adds};
ghost use Rattle.mimic_printer.specs.Row.{label_of};

use crate::Printer;
use crate::colour::{colour_end, colour_start};
use crate::columns::{kind_len, name_len};
use crate::piece::{Piece, add_pieces};
use crate::sink::Sink;
use mimic_trial::{Conclusion, Failed, Outcome, TestInfo, hundredths};
use std::io::Write;

// Adds how many trials are run.
#[tactic(auto, unfolding(crate::specs::Report::running_title))]
pub(super) fn add_title<W: Write>(sink: &mut Sink<W>, num_tests: u64)
    ensures { Adds W.contents sink.old sink.new (running_title num_tests) }
{
    let pieces = [
        Piece::Text("\nrunning "),
        Piece::Number(num_tests),
        Piece::Text(noun(num_tests)),
    ];
    add_pieces(sink, &pieces);
}

fn noun(count: u64) -> &'static str
    ensures { result.now ≡ noun_text count }
{
    if count == 1 { " test\n" } else { " tests\n" }
}

// Adds a trial's kind and name, each padded to its column.
#[tactic(auto, using(crate::proofs::Characters::text_small), unfolding(crate::specs::Report::pretty_announcement))]
#[inline(always)]
pub(super) fn add_announcement<W: Write>(sink: &mut Sink<W>, printer: &Printer, info: &TestInfo)
    ensures { Adds W.contents sink.old sink.new
        (pretty_announcement printer.now (label_of info.now)) }
{
    let kind = info.kind.as_str();
    let start = Piece::Text("test ");
    let name = Piece::Text(info.name.as_str());
    let spaces = Piece::Spaces(printer.name_width.saturating_sub(name_len(info)));
    let end = Piece::Text(" ... ");
    // Most trials have no kind, and no other one has a kind for which a column would be left.
    if kind.is_empty() && printer.kind_width == 0 {
        add_pieces(sink, &[start, name, spaces, end]);
    } else {
        let kind_spaces = Piece::Spaces(printer.kind_width.saturating_sub(kind_len(info)));
        let pieces = [
            start,
            Piece::PlainKind(kind),
            kind_spaces,
            name,
            spaces,
            end,
        ];
        add_pieces(sink, &pieces);
    }
}

// Adds an outcome's word, what was measured, the time that the trial took if there is one, and a line end.
#[tactic(auto, unfolding(crate::specs::Report::outcome_line))]
#[inline(always)]
pub(super) fn add_outcome<W: Write>(
    sink: &mut Sink<W>,
    printer: &Printer,
    outcome: &Outcome,
    nanos: Option<u64>,
)
    ensures { Adds W.contents sink.old sink.new (outcome_line printer.now outcome.now nanos) }
{
    match outcome {
        // Most rows end so, and need not be gathered.
        Outcome::Passed if !printer.colour && nanos.is_none() => sink.add(b"ok\n"),
        _ => add_parts(sink, printer, outcome, nanos),
    }
}

// The same of any outcome, part by part.
#[inline(never)]
fn add_parts<W: Write>(sink: &mut Sink<W>, printer: &Printer, outcome: &Outcome, nanos: Option<u64>)
    ensures { Adds W.contents sink.old sink.new (outcome_line printer.now outcome.now nanos) }
{
    add_word(sink, printer, outcome);
    add_end(sink, nanos);
}

// Adds an outcome's word, and what was measured.
#[tactic(auto, unfolding(crate::specs::Report::untimed_line))]
fn add_word<W: Write>(sink: &mut Sink<W>, printer: &Printer, outcome: &Outcome)
    ensures { Adds W.contents sink.old sink.new (untimed_line printer.now outcome.now) }
{
    let start = Piece::Text(colour_start(printer, outcome));
    let word = Piece::Text(word(outcome));
    let end = Piece::Text(colour_end(printer));
    match outcome {
        Outcome::Measured(measurement) => {
            let pieces = [
                start,
                word,
                end,
                Piece::Text(": "),
                Piece::Aligned {
                    number: measurement.avg,
                    width: 11,
                },
                Piece::Text(" ns/iter (+/- "),
                Piece::Grouped(measurement.variance),
                Piece::Text(")"),
            ];
            add_pieces(sink, &pieces)
        }
        _ => add_pieces(sink, &[start, word, end]),
    }
}

// Adds the time that a trial took, if there is one, and a line end.
fn add_end<W: Write>(sink: &mut Sink<W>, nanos: Option<u64>)
    ensures { Adds W.contents sink.old sink.new (time_mark nanos ++ codes "\n") }
{
    match nanos {
        None => sink.add(b"\n"),
        Some(nanos) => add_time(sink, nanos),
    }
}

// Adds the time that a trial took, in seconds to the nearest thousandth, and a line end.
fn add_time<W: Write>(sink: &mut Sink<W>, nanos: u64)
    ensures { Adds W.contents sink.old sink.new (time_mark (Some nanos) ++ codes "\n") }
{
    let all = (u128::from(nanos) + 500_000) / 1_000_000;
    let pieces = [
        Piece::Text(" <"),
        Piece::Number((all / 1000) as u64),
        Piece::Text("."),
        Piece::Number((all / 100 % 10) as u64),
        Piece::TwoDigits((all % 100) as u8),
        Piece::Text("s>\n"),
    ];
    add_pieces(sink, &pieces);
}

fn word(outcome: &Outcome) -> &'static str
    ensures { result.now ≡ outcome_word outcome.now }
{
    match outcome {
        Outcome::Passed => "ok",
        Outcome::Ignored => "ignored",
        Outcome::Failed(_) => "FAILED",
        Outcome::Measured(_) => "bench",
    }
}

// Adds whether the run passed, its counts, and its time in seconds.
#[tactic(auto, unfolding(crate::specs::Report::result_summary))]
pub(super) fn add_summary<W: Write>(
    sink: &mut Sink<W>,
    printer: &Printer,
    conclusion: &Conclusion,
    nanos: u64,
)
    ensures { Adds W.contents sink.old sink.new
        (result_summary printer.now conclusion.now nanos) }
{
    let verdict = verdict(conclusion.num_failed);
    let (seconds, rest) = hundredths(nanos);
    let pieces = [
        Piece::Text("\ntest result: "),
        Piece::Text(colour_start(printer, &verdict)),
        Piece::Text(word(&verdict)),
        Piece::Text(colour_end(printer)),
        Piece::Text(". "),
        Piece::Number(conclusion.num_passed),
        Piece::Text(" passed; "),
        Piece::Number(conclusion.num_failed),
        Piece::Text(" failed; "),
        Piece::Number(conclusion.num_ignored),
        Piece::Text(" ignored; "),
        Piece::Number(conclusion.num_measured),
        Piece::Text(" measured; "),
        Piece::Number(conclusion.num_filtered_out),
        Piece::Text(" filtered out; finished in "),
        Piece::Number(seconds),
        Piece::Text("."),
        Piece::TwoDigits(rest),
        Piece::Text("s\n\n"),
    ];
    add_pieces(sink, &pieces);
}

// Returns the outcome that the whole run is shown with.
fn verdict(failed: u64) -> Outcome
    ensures { result ≡ verdict_of failed }
{
    if failed > 0 {
        Outcome::Failed(Failed::without_message())
    } else {
        Outcome::Passed
    }
}
