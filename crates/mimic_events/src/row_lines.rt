//! Reads the two lines of a row at once, and keeps nothing of them.
ghost use Rattle.std.specs.Prelude.{◌≡◌, ◌++◌, IfSome};
ghost use Rattle.mimic_events.specs.LineParts.{BeginsEnd, BeginsEvent, BeginsRow, BeginsTail, SpellsLabel};

use crate::lines::after;
use crate::numbers::time_at;
use crate::quoted_text::plain_text_at;
use mimic_trial::{Failed, Outcome};

// Returns the outcome of the row whose lines the text begins with, and what follows them. It takes no memory, so it returns
// `None` also if the name or the kind has an escape, or the outcome a message or numbers.
pub(crate) fn row_at(text: &[u8]) -> Option<(Outcome, &[u8])>
    ensures { IfSome result (λ found. BeginsRow text.now found.0 found.1.now) }
{
    let rest = after(text, br#"{ "type": "test", "event": "started", "name": ""#)?;
    let (label, rest) = label_at(rest)?;
    let rest = after(rest, b" }\n{ \"type\": \"test\", \"name\": \"")?;
    // A name and a kind can be escaped in one way only.
    let rest = after(rest, label)?;
    word_at(rest)
}

// Splits the text after the name and the kind at its front.
#[inline(always)]
#[tactic(auto, using(crate::proofs::PlainRows::plain_kind, crate::proofs::PlainRows::plain_label))]
fn label_at(text: &[u8]) -> Option<(&[u8], &[u8])>
    ensures { IfSome result (λ found. SpellsLabel found.0.now
        × (text.now ≡ found.0.now ++ found.1.now)) }
{
    let (_name, rest) = plain_text_at(text)?;
    // Most rows have no kind, and one byte shows it.
    let Some(kind) = after(rest, b",") else {
        return Some(text.split_at(text.len() - rest.len()));
    };
    let kind = after(kind, br#" "kind": ""#)?;
    let (kind, rest) = plain_text_at(kind)?;
    if kind.is_empty() {
        return None;
    }
    Some(text.split_at(text.len() - rest.len()))
}

// Returns the outcome that is said in a word at the front of what follows the name and the kind, and what follows it and its time.
#[inline(always)]
fn word_at(text: &[u8]) -> Option<(Outcome, &[u8])>
    ensures { IfSome result (λ found. BeginsTail text.now found.0 found.1.now) }
{
    let (outcome, rest) = event_at(text)?;
    let rest = after_time(rest)?;
    Some((outcome, rest))
}

// Returns the outcome whose word is at the front, and what follows the word.
#[inline(always)]
fn event_at(text: &[u8]) -> Option<(Outcome, &[u8])>
    ensures { IfSome result (λ found. BeginsEvent text.now found.0 found.1.now) }
{
    if let Some(rest) = after(text, br#", "event": "ok""#) {
        return Some((Outcome::Passed, rest));
    }
    if let Some(rest) = after(text, br#", "event": "ignored""#) {
        return Some((Outcome::Ignored, rest));
    }
    let rest = after(text, br#", "event": "failed""#)?;
    Some((Outcome::Failed(Failed::without_message()), rest))
}

// Returns what follows the time, if one is at the front, and the end of the line.
#[inline(always)]
fn after_time(text: &[u8]) -> Option<&[u8]>
    ensures { IfSome result (λ rest. BeginsEnd text.now rest.now) }
{
    // Most reports have no times.
    if let Some(rest) = after(text, b" }\n") {
        return Some(rest);
    }
    let (_nanos, rest) = time_at(text)?;
    after(rest, b" }\n")
}
