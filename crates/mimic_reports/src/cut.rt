//! Writes how a report ended that is cut.
ghost use Rattle.mimic_printer.specs.Sink.{Adds};
ghost use Rattle.mimic_reports.specs.Cut.{cut_text, running_part};

use mimic_events::Stop;
use mimic_printer::{Piece, Place, Sink, add_pieces};
use std::io::Write;

// Adds how far the report goes, which has rows of `ended` trials, and which trial was running, as they are in the place.
#[tactic(auto, using(mimic_printer::proofs::Adding::adds_then))]
pub(crate) fn add_cut<W: Write>(sink: &mut Sink<W>, place: Place, ended: u128, stop: &Stop)
    ensures { Adds W.contents sink.old sink.new (cut_text place ended stop.now) }
{
    stop.add_extent(sink, ended);
    add_running(sink, place, stop);
}

/// Adds which trial was running when the report was cut, as a part of a line: `; running: [kind] name`, with both as they are in the
/// place. Nothing is added if no trial was running there.
pub fn add_running<W: Write>(sink: &mut Sink<W>, place: Place, stop: &Stop)
    ensures { Adds W.contents sink.old sink.new (running_part place stop.now.running) }
{
    let Some(label) = &stop.running else {
        return;
    };
    let pieces = [
        Piece::Text("; running: "),
        Piece::Bracketed(place, label.kind.as_str()),
        Piece::Escaped(place, label.name.as_str()),
    ];
    add_pieces(sink, &pieces);
}
