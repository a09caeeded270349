//! Writes the lines of a list of trials.
ghost use Rattle.std.specs.Prelude.{◌≡◌};
ghost use Rattle.mimic_printer.specs.List.{list_line, sort_word};
ghost use Rattle.mimic_printer.specs.Sink.{Adds};

use crate::piece::{Piece, add_pieces};
use crate::sink::Sink;
use mimic_trial::TestInfo;
use std::io::Write;

// Adds the line of a trial.
#[tactic(auto, unfolding(crate::specs::List::list_line))]
pub(super) fn add_line<W: Write>(sink: &mut Sink<W>, info: &TestInfo)
    ensures { Adds W.contents sink.old sink.new (list_line info.now) }
{
    let pieces = [
        Piece::PlainKind(info.kind.as_str()),
        Piece::Text(info.name.as_str()),
        Piece::Text(": "),
        Piece::Text(sort_word(info.is_bench)),
        Piece::Text("\n"),
    ];
    add_pieces(sink, &pieces);
}

fn sort_word(is_bench: bool) -> &'static str
    ensures { result.now ≡ sort_word is_bench }
{
    if is_bench { "bench" } else { "test" }
}
