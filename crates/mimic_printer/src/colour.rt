//! The colours of outcomes.
ghost use Rattle.std.specs.Prelude.{◌≡◌};
ghost use Rattle.mimic_printer.specs.Report.{colour_end, colour_start};

use crate::Printer;
use mimic_trial::Outcome;

// Returns what comes directly before an outcome's word or mark: the sequence of its colour.
pub(super) fn colour_start(printer: &Printer, outcome: &Outcome) -> &'static str
    ensures { result.now ≡ colour_start printer.now outcome.now }
{
    if !printer.colour {
        return "";
    }
    match outcome {
        Outcome::Passed => "\u{1b}[32m",
        Outcome::Failed(_) => "\u{1b}[31m",
        Outcome::Ignored => "\u{1b}[33m",
        Outcome::Measured(_) => "\u{1b}[36m",
    }
}

// Returns what comes directly after it.
pub(super) fn colour_end(printer: &Printer) -> &'static str
    ensures { result.now ≡ colour_end printer.now }
{
    if printer.colour { "\u{1b}[0m" } else { "" }
}
