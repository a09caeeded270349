//! Reads texts between the quotes of a JSON string.
ghost use Rattle.std.specs.Prelude.{◌≡◌, ◌++◌, ◌∷◌, ◌+◌, ◌<◌, ◌≤◌, [], IfOk, IfSome, length, option_map, slice_range};
ghost use Rattle.mimic_trial.specs.Escape.{ArePlain, escape, escaped};
ghost use Rattle.mimic_events.specs.LineParts.{Follows, IsPlainText, named_of, control_of, candidate_of, ReadsByte, ReadsEscaped, ReadsQuoted, ReadsNamed};

use crate::lines::after;
use mimic_trial::{escape_byte, next_escape};
use std::alloc::{AllocError, Global};
use std::simd::prelude::*;
use std::str;

// How many bytes are looked at at once.
const LANES: usize = 16;

// Returns the text in quotes after this front, which ends with the opening quote, and what follows the closing one.
#[inline(always)]
#[tactic(auto, using(crate::proofs::NamedLines::named_some))]
pub(crate) fn quoted_after<'a>(
    alloc: Global,
    line: &'a [u8],
    front: &[u8],
) -> Result<Option<(Vec<u8>, &'a [u8])>, AllocError>
    ensures { IfOk result
        (λ found. ReadsNamed front.now line.now (option_map (λ x. (x.0.items, x.1.now)) found)) }
{
    let Some(rest) = after(line, front) else {
        return Ok(None);
    };
    let found = quoted_at(alloc, rest)?;
    Ok(found)
}

// Returns the text up to the closing quote, and what follows the quote, if no byte of the text needs an escape.
#[inline(always)]
pub(crate) fn plain_text_at(bytes: &[u8]) -> Option<(&[u8], &[u8])>
    ensures { IfSome result (λ found. IsPlainText found.0.now
        × (bytes.now ≡ found.0.now ++ 34 ∷ found.1.now)) }
{
    let (text, rest) = plain_at(bytes);
    match rest {
        [b'"', rest @ ..] if str::from_utf8(text).is_ok() => Some((text, rest)),
        _ => None,
    }
}

// Returns what follows this front, which ends with the opening quote, this text, and the closing quote.
#[inline(always)]
#[tactic(auto, using(crate::proofs::Fronts::follows_then, crate::proofs::Fronts::follows_after))]
pub(crate) fn after_quoted<'a>(line: &'a [u8], front: &[u8], text: &str) -> Option<&'a [u8]>
    ensures { Follows (front.now ++ (escaped text.now ++ 34 ∷ [])) line.now result }
{
    let rest = after(line, front)?;
    let rest = after_escaped(rest, text.as_bytes())?;
    after(rest, b"\"")
}

// Returns what follows the escaped form of this text, if the line begins with it.
#[tactic(auto, using(crate::proofs::QuotedTexts::behind_first))]
fn after_escaped<'a>(line: &'a [u8], text: &[u8]) -> Option<&'a [u8]>
    ensures { Follows (escaped text.now) line.now result }
{
    let (same, others) = plain_at(line);
    if same == text {
        // Most texts need no escape.
        return Some(others);
    }
    let (plain, mut left) = plain_at(text);
    let mut rest = after(line, plain)?;
    while let [byte, others @ ..] = left {
        rest = after_spelling(rest, *byte)?;
        let (plain, others) = plain_at(others);
        rest = after(rest, plain)?;
        left = others;
    }
    Some(rest)
}

// Returns what follows the escaped form of this byte, if the text begins with it.
fn after_spelling<'a>(text: &'a [u8], byte: u8) -> Option<&'a [u8]>
    ensures { Follows (escape byte) text.now result }
{
    if byte.is_ascii() {
        after(text, escape_byte(byte).as_str().as_bytes())
    } else {
        after(text, &[byte])
    }
}

// Splits the text after the bytes at its front that need no escape.
#[tactic(auto, using(crate::proofs::PlainLanes::plain_more))]
fn plain_at(text: &[u8]) -> (&[u8], &[u8])
    ensures parts { text.now ≡ result.0.now ++ result.1.now }
    ensures plain { ArePlain result.0.now }
{
    let mut len = 0;
    while text.len() - len >= LANES {
        let plain = plain_lanes(text, len);
        len += plain;
        if plain < LANES {
            return text.split_at(len);
        }
    }
    let rest = &text[len..];
    text.split_at(len + next_escape(rest).unwrap_or(rest.len()))
}

// Looks at `LANES` bytes from `at` on at once, and returns how many come before the first that needs an escape.
#[inline(always)]
fn plain_lanes(text: &[u8], at: usize) -> usize
    requires { at + LANES ≤ length text.now }
    ensures within { result ≤ LANES }
    ensures plain { ArePlain (slice_range text.now at (at + result)) }
{
    let bytes = u8x16::from_slice(&text[at..]);
    let stops = bytes.simd_lt(u8x16::splat(b' '))
        | bytes.simd_eq(u8x16::splat(b'"'))
        | bytes.simd_eq(u8x16::splat(b'\\'));
    (stops.to_bitmask().trailing_zeros() as usize).min(LANES)
}

// Returns the text up to the closing quote, and what follows that.
fn quoted_at(alloc: Global, bytes: &[u8]) -> Result<Option<(Vec<u8>, &[u8])>, AllocError>
    ensures { IfOk result
        (λ found. ReadsQuoted bytes.now (option_map (λ x. (x.0.items, x.1.now)) found)) }
{
    let (text, rest) = escaped_at(alloc, bytes)?;
    match rest {
        [b'"', rest @ ..] => Ok(Some((text, rest))),
        _ => Ok(None),
    }
}

// Returns the text whose escaped form the bytes begin with, as far as they can be unescaped, and what follows.
fn escaped_at(alloc: Global, bytes: &[u8]) -> Result<(Vec<u8>, &[u8]), AllocError>
    ensures { IfOk result (λ found. ReadsEscaped bytes.now found.0.items found.1.now) }
{
    let (plain, mut rest) = plain_at(bytes);
    let mut text = Vec::new(alloc);
    text.extend_from_slice(plain)?;
    while let Some((byte, after)) = unescape(rest) {
        text.push(byte)?;
        let (plain, after) = plain_at(after);
        text.extend_from_slice(plain)?;
        rest = after;
    }
    Ok((text, rest))
}

// Returns the byte whose escaped form the text begins with, and what follows.
#[tactic(auto, using(crate::proofs::Escapes::candidate_at, crate::proofs::Escapes::one_split))]
fn unescape(text: &[u8]) -> Option<(u8, &[u8])>
    ensures { ReadsByte text.now (option_map (λ found. (found.0, found.1.now)) result) }
{
    if let [b'"', ..] = text {
        // No byte's escaped form begins with a quote.
        return None;
    }
    let byte = candidate(text);
    let rest = after_spelling(text, byte)?;
    Some((byte, rest))
}

// Returns the only byte whose escaped form the text can begin with, whether or not it does.
#[tactic(auto, unfolding(crate::specs::LineParts::candidate_of, crate::specs::LineParts::after_backslash, crate::specs::LineParts::after_u))]
fn candidate(text: &[u8]) -> u8
    ensures { result ≡ candidate_of text.now }
{
    match text {
        [b'\\', b'u', _, _, high, low, ..] => control(*high, *low),
        [b'\\', letter, ..] => named(*letter),
        [byte, ..] => *byte,
        [] => 0,
    }
}

// Returns the byte that a backslash and this letter stand for.
fn named(letter: u8) -> u8
    ensures { result ≡ named_of letter }
{
    match letter {
        b'b' => 8,
        b't' => b'\t',
        b'n' => b'\n',
        b'f' => 12,
        b'r' => b'\r',
        other => other,
    }
}

// Returns the control character of two hexadecimal digits.
fn control(high: u8, low: u8) -> u8
    ensures { result ≡ control_of high low }
{
    let front = if high == b'1' { 16 } else { 0 };
    let back = if low <= b'9' {
        low.saturating_sub(b'0')
    } else {
        low.saturating_sub(b'a' - 10)
    };
    front + back
}
