//! Adds texts with their escapes.
ghost use Rattle.std.specs.Prelude.{◌≡◌, ◌++◌, MatchOption, OnOk};
ghost use Rattle.mimic_printer.specs.Sink.{Adds};
ghost use Rattle.mimic_printer.specs.Escapes.{IsNextEscape, escaped};
ghost use Rattle.mimic_printer.specs.EscapeLaws.{EscapeLaws};

use crate::place::{Place, is_plain};
use crate::sink::Sink;
use crate::spelling::{Spelling, front};
use std::alloc::AllocError;
use std::io::Write;

// The first character that may not be written as it is: its place, its spelling, and the place of what follows it.
#[derive(Clone, Copy)]
pub(crate) struct Escape {
    at: usize,
    spelling: Spelling,
    end: usize,
}

// Returns the first character that may not be written as it is, and `None` if all are.
pub(crate) fn first_escape(text: &[u8], place: Place) -> Option<Escape>
    ensures { MatchOption result (escaped place text.now ≡ text.now)
        (IsNextEscape place text.now) }
{
    for (at, byte) in text.iter().enumerate() {
        if !is_plain(*byte) {
            let (spelling, count) = front(&text[at..], place);
            return Some(Escape {
                at,
                spelling,
                end: at + count,
            });
        }
    }
    None
}

/// Adds the text as it is spelled in the place: what is between its escapes at once.
#[tactic(auto, using(crate::proofs::EscapeLaws::escape_laws))]
pub fn add_escaped<W: Write>(sink: &mut Sink<W>, text: &[u8], place: Place)
    ensures written { Adds W.contents sink.old sink.new (escaped place text.now) }

    // Each text can be unescaped, what is written has no markup, and in `Line` and `Terminal` no control character.
    ensures laws { EscapeLaws }
{
    let mut rest = text;
    while let Some(found) = first_escape(rest, place) {
        sink.add(&rest[..found.at]);
        sink.add(found.spelling.as_bytes());
        rest = &rest[found.end..];
    }
    sink.add(rest);
}

/// Appends the text as it is spelled in the place.
pub fn push_escaped(to: &mut Vec<u8>, text: &[u8], place: Place) -> Result<(), AllocError>
    ensures { OnOk result (to.new.items ≡ to.old.items ++ escaped place text.now) }
{
    let mut rest = text;
    while let Some(found) = first_escape(rest, place) {
        to.extend_from_slice(&rest[..found.at])?;
        to.extend_from_slice(found.spelling.as_bytes())?;
        rest = &rest[found.end..];
    }
    to.extend_from_slice(rest)
}
