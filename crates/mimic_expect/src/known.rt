//! Reads files of known failures.
ghost use Rattle.std.specs.Prelude.{◌≡◌, ◌+◌, ◌∷◌, ◌++◌, [], ℕ, List, MatchOption, MatchResult, Some, map};
ghost use Rattle.mimic_printer.specs.Json.{HasNoEnd, IsLine};
ghost use Rattle.mimic_events.specs.Reading.{Decodes};
ghost use Rattle.mimic_expect.specs.Known.{AreExpected, CannotSay, expected_read, says_nothing};
ghost use Rattle.mimic_expect.specs.Lines.{AddsLine, CannotAdd};
ghost use Rattle.mimic_expect.specs.declared.known.KnownFault.TheVariants.{OutOfMemory};

use memchr::memchr;
use mimic_events::{Row, read_failed_line};
use std::alloc::{AllocError, AllocFailed, Global};
use thiserror::Error;

/// A failure that is known.
#[derive(Debug, Drop)]
pub struct Expectation {
    /// The failed trial. If its failure has no message, any message is expected. Its time takes no part in what is expected.
    pub row: Row,
    /// The number of its line, counted from 1.
    pub line: usize,
}

/// A file of known failures that is to be brought up to date.
#[derive(Clone, Copy, Debug)]
pub struct KnownFile<'a> {
    /// Its text.
    pub text: &'a [u8],
    /// What [`read_known`] returns for this text.
    pub known: &'a [Expectation],
}

/// Why a file of known failures can't be read. Its text is what a user is to see.
#[derive(Debug, Drop, Error)]
pub enum KnownFault {
    /// An allocation failed.
    #[error("out of memory")]
    OutOfMemory,
    /// The line of this number, counted from 1, is the first that is not empty, not a comment, and not the line of a failed
    /// trial.
    #[error("not the line of a failed trial")]
    Line(usize),
}

/// Reads the bytes of a file of known failures: lines of failed trials, as a report in JSON has them. They may have times. Empty
/// lines and those that begin with `#` are passed over. The last line needs no end.
pub fn read_known(alloc: Global, bytes: &[u8]) -> Result<Vec<Expectation>, KnownFault>
    ensures { MatchResult result
        (λ known. Decodes AreExpected bytes.now (Some (map expected_read known.items)))
        (CannotSay bytes.now) }
{
    let mut known = Vec::new(alloc);
    let mut rest = bytes;
    let mut number = 1;
    while let Some((line, after)) = first_line(rest) {
        add_line(alloc, &mut known, line, number)?;
        number += 1;
        rest = after;
    }
    let mut last = Vec::from_slice(alloc, rest)?;
    last.push(b'\n')?;
    add_line(alloc, &mut known, &last, number)?;
    Ok(known)
}

// Adds what the line of this number says. It has its end.
fn add_line(
    alloc: Global,
    known: &mut Vec<Expectation>,
    line: &[u8],
    number: usize,
) -> Result<(), KnownFault>
    ensures { (front : List ℕ) → line.now ≡ front ++ 10 ∷ [] → MatchResult result
        (λ _. AddsLine number front (map expected_read known.old.items) (map expected_read known.new.items))
        (CannotAdd number front) }
{
    if says_nothing(without_end(line)) {
        return Ok(());
    }
    match read_failed_line(alloc, line)? {
        Some(row) => {
            known.push(Expectation { row, line: number })?;
            Ok(())
        }
        None => Err(KnownFault::Line(number)),
    }
}

// Returns the line without its end.
pub(crate) fn without_end(line: &[u8]) -> &[u8]
    ensures { (front : List ℕ) → line.now ≡ front ++ 10 ∷ [] → result.now ≡ front }
{
    &line[..line.len().saturating_sub(1)]
}

// Whether the line, which has no end, is empty or a comment.
pub(crate) fn says_nothing(line: &[u8]) -> bool
    ensures { result ≡ says_nothing line.now }
{
    matches!(line, [] | [b'#', ..])
}

// Returns the first line, with its end, and what follows it.
pub(crate) fn first_line(bytes: &[u8]) -> Option<(&[u8], &[u8])>
    ensures { MatchOption result (HasNoEnd bytes.now)
        (λ x. (bytes.now ≡ x.0.now ++ x.1.now) × IsLine x.0.now) }
{
    let at = memchr(b'\n', bytes)?;
    Some(bytes.split_at(at + 1))
}

impl From<AllocError> for KnownFault {
    ghost from_gives = { λ _ fault. fault ≡ OutOfMemory };

    fn from(_error: AllocError) -> KnownFault {
        KnownFault::OutOfMemory
    }
}

impl<T: Drop> From<AllocFailed<T>> for KnownFault {
    ghost from_gives = { λ _ fault. fault ≡ OutOfMemory };

    fn from(_refused: AllocFailed<T>) -> KnownFault {
        KnownFault::OutOfMemory
    }
}
