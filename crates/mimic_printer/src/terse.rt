//! Writes outcomes in terse: each has a mark and no announcement. All else is as in pretty.
ghost use Rattle.std.specs.Prelude.{◌≡◌, IfNone, IfSome, None};
ghost use Rattle.mimic_printer.specs.declared.Printer.{Printer};
ghost use Rattle.mimic_printer.specs.Report.{outcome_line, outcome_mark, terse_outcome};
ghost use Rattle.mimic_printer.specs.Sink.{Adds};

use crate::colour::{colour_end, colour_start};
use crate::piece::{Piece, add_pieces};
use crate::sink::Sink;
use crate::{Printer, pretty};
use mimic_trial::Outcome;
use std::io::Write;

// Adds the mark of an outcome, or the whole line of a measurement, as pretty has it.
#[tactic(auto, unfolding(crate::specs::Report::outcome_mark))]
#[inline(always)]
pub(super) fn add_outcome<W: Write>(sink: &mut Sink<W>, printer: &Printer, outcome: &Outcome)
    ensures { Adds W.contents sink.old sink.new (terse_outcome printer.now outcome.now) }
{
    match mark(outcome) {
        Some(mark) if !printer.colour => sink.add(mark.as_bytes()),
        _ => add_coloured_or_measured(sink, printer, outcome),
    }
}

// Adds a mark with its colour, or the line of a measurement. It isn't inlined: a plain mark would pay for the room of its pieces.
#[inline(never)]
fn add_coloured_or_measured<W: Write>(sink: &mut Sink<W>, printer: &Printer, outcome: &Outcome)
    ensures { Adds W.contents sink.old sink.new (terse_outcome printer.now outcome.now) }
{
    match mark(outcome) {
        Some(mark) => add_mark(sink, printer, outcome, mark),
        None => pretty::add_outcome(sink, printer, outcome, None),
    }
}

// Returns the mark of an outcome. A measurement has none, since its whole line is written.
fn mark(outcome: &Outcome) -> Option<&'static str>
    ensures mark { IfSome result (λ mark. (p : Printer)
        → terse_outcome p outcome.now ≡ outcome_mark p outcome.now mark.now) }
    ensures line { IfNone result
        ((p : Printer) → terse_outcome p outcome.now ≡ outcome_line p outcome.now None) }
{
    match outcome {
        Outcome::Passed => Some("."),
        Outcome::Failed(_) => Some("F"),
        Outcome::Ignored => Some("i"),
        Outcome::Measured(_) => None,
    }
}

#[tactic(auto, unfolding(crate::specs::Report::outcome_mark))]
#[inline(always)]
fn add_mark<W: Write>(sink: &mut Sink<W>, printer: &Printer, outcome: &Outcome, mark: &str)
    ensures { Adds W.contents sink.old sink.new
        (outcome_mark printer.now outcome.now mark.now) }
{
    if printer.colour {
        let pieces = [
            Piece::Text(colour_start(printer, outcome)),
            Piece::Text(mark),
            Piece::Text(colour_end(printer)),
        ];
        add_pieces(sink, &pieces);
    } else {
        sink.add(mark.as_bytes());
    }
}
