//! Reads the lines of a report, each with its line end.
ghost use Rattle.std.specs.Prelude.{◌≡◌, ◌≢◌, ◌∷◌, ◌++◌, ℕ, List, IfOk, MatchOption, IsUtf8, codes, option_map, string_bytes, true, false, map};
ghost use Rattle.mimic_trial.specs.Escape.{escaped};
ghost use Rattle.mimic_events.specs.Contents.{entry_read, label_read};
ghost use Rattle.mimic_printer.specs.Json.{kind_field};
ghost use Rattle.mimic_events.specs.LineParts.{Follows, IsFailedEnd, IsKind, IsMessage, IsQuoted, IsSaid, IsTail, IsTime, SaysFailed, SaysKind};
ghost use Rattle.mimic_events.specs.Reading.{Decodes, IsTitle, IsAnnouncement, IsFailedLine, IsOutcome};
ghost use Rattle.std.specs.List.{concat};

use crate::numbers::{number_at, time_at};
use crate::quoted_text::{after_quoted, quoted_after};
use crate::report::{Label, Row};
use mimic_trial::{Failed, Measurement, Outcome};
use std::alloc::{AllocError, Global};

// Returns the number of rows that a title line announces.
#[tactic(auto, using(crate::proofs::NamedLines::title_is, crate::proofs::NamedLines::title_rest, crate::proofs::NamedLines::title_some))]
pub(crate) fn titled(line: &[u8]) -> Option<u64>
    ensures { Decodes IsTitle line.now result }
{
    let rest = after(
        line,
        br#"{ "type": "suite", "event": "started", "test_count": "#,
    )?;
    match number_at(rest)? {
        (count, end) if end == b" }\n".as_slice() => Some(count),
        _ => None,
    }
}

// Returns the trial that a line announces.
pub(crate) fn announced(alloc: Global, line: &[u8]) -> Result<Option<Label>, AllocError>
    ensures { IfOk result (λ label. Decodes IsAnnouncement line.now (option_map label_read label)) }
{
    let front = br#"{ "type": "test", "event": "started", "name": ""#;
    let Some((name, rest)) = quoted_after(alloc, line, front)? else {
        return Ok(None);
    };
    let Some(kind) = kind_of(alloc, rest)? else {
        return Ok(None);
    };
    match text_of(name) {
        Some(name) => Ok(Some(Label { name, kind })),
        None => Ok(None),
    }
}

// Reads the kind of a trial from what follows the name in its announcement.
fn kind_of(alloc: Global, rest: &[u8]) -> Result<Option<String>, AllocError>
    ensures { IfOk result (λ kind. Decodes IsKind rest.now (option_map string_bytes kind)) }
{
    if rest == b" }\n".as_slice() {
        return Ok(Some(String::new(alloc)));
    }
    let Some(kind) = last_quoted(alloc, rest, br#", "kind": ""#)? else {
        return Ok(None);
    };
    if kind.is_empty() {
        return Ok(None);
    }
    Ok(text_of(kind))
}

// Returns the text in quotes after this front, if the line ends after it.
fn last_quoted(alloc: Global, text: &[u8], front: &[u8]) -> Result<Option<Vec<u8>>, AllocError>
    ensures { IfOk result
        (λ found. Decodes (IsQuoted front.now) text.now (option_map (λ v. v.items) found)) }
{
    match quoted_after(alloc, text, front)? {
        Some((found, end)) if end == b" }\n".as_slice() => Ok(Some(found)),
        _ => Ok(None),
    }
}

// Returns the outcome that a line reports for this trial, and the nanoseconds that it took if the line says so.
pub(crate) fn ended(
    alloc: Global,
    label: &Label,
    line: &[u8],
) -> Result<Option<(Outcome, Option<u64>)>, AllocError>
    ensures { IfOk result (λ end. Decodes (IsOutcome (label_read label.now)) line.now end) }
{
    if let Some(rest) = after_label(line, br#"{ "type": "bench", "name": ""#, label) {
        return Ok(measured(rest));
    }
    match after_label(line, br#"{ "type": "test", "name": ""#, label) {
        Some(rest) => {
            let end = tested(alloc, rest)?;
            Ok(end)
        }
        None => Ok(None),
    }
}

/// Reads one line of a report, with its line end, which says that a trial failed: `None` if it says anything else, or no report
/// has such a line.
///
/// The failure has a message if the line has `stdout`.
pub fn read_failed_line(alloc: Global, line: &[u8]) -> Result<Option<Row>, AllocError>
    ensures { IfOk result (λ found. Decodes IsFailedLine line.now (option_map entry_read found)) }
{
    let Some(label) = label_of(alloc, line)? else {
        return Ok(None);
    };
    let Some((outcome, nanos)) = ended(alloc, &label, line)? else {
        return Ok(None);
    };
    match outcome {
        Outcome::Failed(failed) => Ok(Some(Row {
            name: label.name,
            kind: label.kind,
            outcome: Outcome::Failed(failed),
            nanos,
        })),
        _ => Ok(None),
    }
}

// Returns the trial that the line reports as failed, if it is such a line.
fn label_of(alloc: Global, line: &[u8]) -> Result<Option<Label>, AllocError>
    ensures { IfOk result (λ label. SaysFailed line.now (option_map label_read label)) }
{
    let Some((name, rest)) = quoted_after(alloc, line, br#"{ "type": "test", "name": ""#)? else {
        return Ok(None);
    };
    let kind = kind_at(alloc, rest)?;
    let Some(name) = text_of(name) else {
        return Ok(None);
    };
    match text_of(kind) {
        Some(kind) => Ok(Some(Label { name, kind })),
        None => Ok(None),
    }
}

// Returns the kind that comes before the tail of a failure, if such a tail ends the text.
fn kind_at(alloc: Global, rest: &[u8]) -> Result<Vec<u8>, AllocError>
    ensures { IfOk result (λ kind. SaysKind rest.now kind.items) }
{
    match quoted_after(alloc, rest, br#", "kind": ""#)? {
        Some((kind, _)) => Ok(kind),
        None => Ok(Vec::new(alloc)),
    }
}

// Returns what follows this front, which ends with the name's opening quote, and the name and kind of this trial.
fn after_label<'a>(line: &'a [u8], front: &[u8], label: &Label) -> Option<&'a [u8]>
    ensures { Follows (front.now ++ (escaped (string_bytes label.now.name)
        ++ 34 ∷ kind_field (string_bytes label.now.kind))) line.now result }
{
    let rest = after_quoted(line, front, label.name.as_str())?;
    if label.kind.is_empty() {
        return Some(rest);
    }
    after_quoted(rest, br#", "kind": ""#, label.kind.as_str())
}

// Reads the end of a measured trial from what follows the name and the kind.
fn measured(rest: &[u8]) -> Option<(Outcome, Option<u64>)>
    ensures { Decodes (IsTail true) rest.now result }
{
    let (avg, rest) = number_at(after(rest, br#", "median": "#)?)?;
    let (variance, rest) = number_at(after(rest, br#", "deviation": "#)?)?;
    let nanos = last_time(rest)?;
    Some((Outcome::Measured(Measurement { avg, variance }), nanos))
}

// Reads the end of a trial that was not measured from what follows the name and the kind.
fn tested(alloc: Global, rest: &[u8]) -> Result<Option<(Outcome, Option<u64>)>, AllocError>
    ensures { IfOk result (λ end. Decodes (IsTail false) rest.now end) }
{
    if let Some(rest) = after(rest, br#", "event": "ok""#) {
        return Ok(with_outcome(Outcome::Passed, last_time(rest)));
    }
    if let Some(rest) = after(rest, br#", "event": "ignored""#) {
        return Ok(with_outcome(Outcome::Ignored, last_time(rest)));
    }
    match after(rest, br#", "event": "failed""#) {
        Some(rest) => {
            let end = failed(alloc, rest)?;
            Ok(end)
        }
        None => Ok(None),
    }
}

// Returns the outcome with the time that was read.
fn with_outcome(outcome: Outcome, nanos: Option<Option<u64>>) -> Option<(Outcome, Option<u64>)>
    ensures { result ≡ option_map (λ time. (outcome, time)) nanos }
{
    match nanos {
        Some(nanos) => Some((outcome, nanos)),
        None => None,
    }
}

// Returns the time at the front of a text that has nothing more but the end of the line.
fn last_time(text: &[u8]) -> Option<Option<u64>>
    ensures { Decodes IsTime text.now result }
{
    let (nanos, end) = time_at(text)?;
    if end == b" }\n".as_slice() {
        Some(nanos)
    } else {
        None
    }
}

// Reads the end of a trial that failed from what follows the word.
fn failed(alloc: Global, rest: &[u8]) -> Result<Option<(Outcome, Option<u64>)>, AllocError>
    ensures { IfOk result (λ end. Decodes IsFailedEnd rest.now end) }
{
    let Some((nanos, rest)) = time_at(rest) else {
        return Ok(None);
    };
    match failure(alloc, rest)? {
        Some(failed) => Ok(Some((Outcome::Failed(failed), nanos))),
        None => Ok(None),
    }
}

// Reads the message of a failure, or that there is none, from what follows the word and the time.
fn failure(alloc: Global, rest: &[u8]) -> Result<Option<Failed>, AllocError>
    ensures { IfOk result (λ failed. Decodes IsMessage rest.now failed) }
{
    if rest == b" }\n".as_slice() {
        return Ok(Some(Failed::without_message()));
    }
    match message(alloc, rest)? {
        Some(message) => Ok(Some(Failed::with_message(message))),
        None => Ok(None),
    }
}

// Reads the message of a failure from what follows the word and the time.
fn message(alloc: Global, rest: &[u8]) -> Result<Option<String>, AllocError>
    ensures { IfOk result
        (λ message. Decodes IsSaid rest.now (option_map string_bytes message)) }
{
    let Some(text) = last_quoted(alloc, rest, br#", "stdout": "Error: \""#)? else {
        return Ok(None);
    };
    match before_quote(text) {
        Some(message) => Ok(text_of(message)),
        None => Ok(None),
    }
}

// Returns what comes before the quote and the line end that end the text.
fn before_quote(text: Vec<u8>) -> Option<Vec<u8>>
    ensures { MatchOption result ((m : List ℕ) → text.items ≢ m ++ codes "\"\n")
        (λ m. text.items ≡ m.items ++ codes "\"\n") }
{
    let mut text = text;
    let len = before(text.as_slice(), b"\"\n")?.len();
    text.truncate(len);
    Some(text)
}

// Returns the bytes as a text, if they are UTF-8.
fn text_of(bytes: Vec<u8>) -> Option<String>
    ensures { MatchOption result (¬ (IsUtf8 bytes.items))
        (λ text. (string_bytes text ≡ bytes.items) × IsUtf8 bytes.items) }
{
    String::from_utf8(bytes).ok()
}

// Returns what follows the front, if the text begins with it. Compiled into its caller, a known front is compared in words.
#[inline(always)]
pub(crate) fn after<'a>(text: &'a [u8], front: &[u8]) -> Option<&'a [u8]>
    ensures { MatchOption result ((rest : List ℕ) → text.now ≢ front.now ++ rest)
        (λ rest. text.now ≡ front.now ++ rest.now) }
{
    text.strip_prefix(front)
}

// Returns what follows these fronts, if the text begins with them, one after another.
#[tactic(auto, using(crate::proofs::Fronts::follows_next))]
pub(crate) fn after_all<'a>(text: &'a [u8], fronts: &[&[u8]]) -> Option<&'a [u8]>
    ensures { Follows (concat (map (λ front. front.now) fronts.now)) text.now result }
{
    let mut rest = text;
    for front in fronts {
        rest = after(rest, front)?;
    }
    Some(rest)
}

// Returns what comes before the back, if the text ends with it.
pub(crate) fn before<'a>(text: &'a [u8], back: &[u8]) -> Option<&'a [u8]>
    ensures { MatchOption result ((front : List ℕ) → text.now ≢ front ++ back.now)
        (λ front. text.now ≡ front.now ++ back.now) }
{
    text.strip_suffix(back)
}
