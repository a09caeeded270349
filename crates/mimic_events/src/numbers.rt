//! Reads numbers and seconds, as a report spells them.
ghost use Rattle.std.specs.Prelude.{◌<◌, ◌+◌, ◌*◌, ◌^◌, option_map, SomeIff};
ghost use Rattle.mimic_events.specs.Reading.{Decodes, IsSeconds};
ghost use Rattle.mimic_events.specs.LineParts.{ReadsDigits, ReadsFraction, ReadsNumber, ReadsSeconds, ReadsTime};

use crate::lines::after;
use mimic_trial::NANOS_PER_SECOND;

// Returns the number at the front, and what follows its digits.
pub(crate) fn number_at(bytes: &[u8]) -> Option<(u64, &[u8])>
    ensures { ReadsNumber bytes.now (option_map (λ found. (found.0, found.1.now)) result) }
{
    let (digits, number, rest) = digits_at(bytes)?;
    if digits.is_empty() || digits.len() > 1 && digits[0] == b'0' {
        return None;
    }
    Some((number, rest))
}

// Returns the nanoseconds of a text that is seconds in exact decimal.
pub(crate) fn seconds(text: &[u8]) -> Option<u64>
    ensures { Decodes IsSeconds text.now result }
{
    let (nanos, rest) = seconds_at(text)?;
    if rest.is_empty() { Some(nanos) } else { None }
}

// Returns the time at the front, if its key is there, and what follows it. `None` if what follows the key is no time.
pub(crate) fn time_at(text: &[u8]) -> Option<(Option<u64>, &[u8])>
    ensures { ReadsTime text.now (option_map (λ found. (found.0, found.1.now)) result) }
{
    let Some(rest) = after(text, br#", "exec_time": "#) else {
        return Some((None, text));
    };
    let (nanos, rest) = seconds_at(rest)?;
    Some((Some(nanos), rest))
}

// Returns the nanoseconds of the seconds at the front, and what follows them.
fn seconds_at(bytes: &[u8]) -> Option<(u64, &[u8])>
    ensures { ReadsSeconds bytes.now (option_map (λ found. (found.0, found.1.now)) result) }
{
    let (whole, rest) = number_at(bytes)?;
    let (fraction, rest) = fraction_at(rest)?;
    let nanos = nanos_of(whole, fraction)?;
    Some((nanos, rest))
}

// Returns the nanoseconds of a point and the digits after it, if a point is at the front, and what follows them.
#[tactic(auto, using(crate::proofs::Digits::fraction_fits))]
fn fraction_at(bytes: &[u8]) -> Option<(u64, &[u8])>
    ensures { ReadsFraction bytes.now (option_map (λ found. (found.0, found.1.now)) result) }
{
    let Some(rest) = after(bytes, b".") else {
        return Some((0, bytes));
    };
    let (digits, value, rest) = digits_at(rest)?;
    if digits.is_empty() || digits.len() > 9 || digits[digits.len() - 1] == b'0' {
        return None;
    }
    Some((value * 10_u64.pow(9 - digits.len() as u32), rest))
}

// Returns all digits at the front, the number that they write, and what follows them. `None` if the number is too large.
fn digits_at(bytes: &[u8]) -> Option<(&[u8], u64, &[u8])>
    ensures { ReadsDigits bytes.now (option_map (λ found. (found.0.now, found.1, found.2.now)) result) }
{
    let mut number = 0_u64;
    let mut len = 0;
    while len < bytes.len() && bytes[len].is_ascii_digit() {
        number = number
            .checked_mul(10)?
            .checked_add(u64::from(bytes[len] - b'0'))?;
        len += 1;
    }
    let (digits, rest) = bytes.split_at(len);
    Some((digits, number, rest))
}

// Adds whole seconds and a fraction up in nanoseconds.
fn nanos_of(seconds: u64, fraction: u64) -> Option<u64>
    ensures { SomeIff result (seconds * 10 ^ 9 + fraction < 2 ^ 64) (seconds * 10 ^ 9 + fraction) }
{
    seconds.checked_mul(NANOS_PER_SECOND)?.checked_add(fraction)
}
