//! The small texts of reports: kinds in brackets, numbers with commas, and nanoseconds as seconds.
ghost use Rattle.std.specs.Prelude.{◌≡◌, ◌≢◌, ◌≤◌, ◌++◌, [], IfOk, codes, length, take, decimal, string_bytes, ◌+◌, ◌^◌, ◌<◌, ◌/◌, ◌%◌, ℕ, List};
ghost use Rattle.mimic_trial.specs.Text.{grouped, kind_part, without_commas, nearest_hundredths};
ghost use Rattle.mimic_trial.specs.Seconds.{exact_seconds, fraction_digits, IsExactSeconds};

use itoa::Buffer;
use std::alloc::{AllocError, Global};
use std::str;

/// Returns what comes before and after a kind that is shown before a name: brackets, the closing one with a
/// space after it, and nothing around an empty kind.
pub fn brackets(kind: &str) -> (&'static str, &'static str)
    ensures shown { result.0.now ++ (kind.now ++ result.1.now) ≡ kind_part kind.now }
    ensures opening { kind.now ≢ [] → result.0.now ≡ codes "[" }
{
    if kind.is_empty() {
        ("", "")
    } else {
        ("[", "] ")
    }
}

/// Writes the number in decimal, with a comma between groups of three digits, to the caller's buffer. It takes at most 26 bytes.
pub fn thousands(v: u64, buf: &mut [u8; 26]) -> &str
    ensures text { result.now ≡ grouped (decimal v) }
    ensures short { length result.now ≤ 26 }
    ensures digits { without_commas result.now ≡ decimal v }
{
    let mut digits = Buffer::new();
    let len = write_grouped(digits.format(v).as_bytes(), buf);
    let all = &buf[..];
    str::from_utf8(&all[..len]).unwrap()
}

/// Returns the number as `thousands` writes it, in memory of its own.
pub fn fmt_with_thousand_sep(alloc: Global, v: u64) -> Result<String, AllocError>
    ensures text { IfOk result (λ s. string_bytes s ≡ grouped (decimal v)) }
    ensures digits { IfOk result (λ s. without_commas (string_bytes s) ≡ decimal v) }
{
    String::from_str(alloc, thousands(v, &mut [0; 26]))
}

// Writes the digits with their commas, and returns how many bytes that took.
fn write_grouped(digits: &[u8], buf: &mut [u8; 26]) -> usize
    requires { length digits.now ≤ 20 }
    ensures within { result ≤ 26 }
    ensures written { take result buf.new ≡ grouped digits.now }
{
    let mut at = 0;
    for (i, digit) in digits.iter().enumerate() {
        buf[at] = *digit;
        at += 1;
        let left = digits.len() - i - 1;
        if left > 0 && left % 3 == 0 {
            buf[at] = b',';
            at += 1;
        }
    }
    at
}

/// How many nanoseconds a second has.
pub const NANOS_PER_SECOND: u64 = 1_000_000_000;

/// Returns the nanoseconds as whole seconds and hundredths below 100, to the nearest hundredth, ties up.
pub fn hundredths(nanos: u64) -> (u64, u8)
    ensures seconds { result.0 ≡ nearest_hundredths nanos / 100 }
    ensures rest { result.1 ≡ nearest_hundredths nanos % 100 }
{
    let all = (u128::from(nanos) + 5_000_000) / 10_000_000;
    ((all / 100) as u64, (all % 100) as u8)
}

/// Writes the nanoseconds as seconds in exact decimal to the caller's buffer: there is no point if they are whole, and
/// no zero at the end after a point. The text has at most 21 bytes.
pub fn exact_seconds(nanos: u64, buf: &mut [u8; 32]) -> &str
    ensures text { result.now ≡ exact_seconds nanos }
    ensures short { length result.now ≤ 21 }
    ensures exact { IsExactSeconds nanos result.now }
    ensures only { (other : List ℕ) → IsExactSeconds nanos other → other ≡ result.now }
{
    let len = write_seconds(nanos, buf);
    let all = &buf[..];
    str::from_utf8(&all[..len]).unwrap()
}

// Writes the seconds to the front, and returns where they end.
fn write_seconds(nanos: u64, buf: &mut [u8; 32]) -> usize
    ensures within { result ≤ 21 }
    ensures written { take result buf.new ≡ exact_seconds nanos }
{
    let mut digits = Buffer::new();
    let whole = digits.format(nanos / NANOS_PER_SECOND).as_bytes();
    let len = whole.len();
    buf[..len].copy_from_slice(whole);
    let rest = nanos % NANOS_PER_SECOND;
    if rest == 0 {
        return len;
    }
    buf[len] = b'.';
    write_fraction(rest, buf, len + 1)
}

// Writes the digits after the point from `start` on, and returns where they end.
fn write_fraction(rest: u64, buf: &mut [u8; 32], start: usize) -> usize
    requires small { rest < 10 ^ 9 }
    requires room { start + 9 ≤ 32 }
    ensures within { result ≤ start + 9 }
    ensures written { take result buf.new ≡ take start buf.old ++ fraction_digits 9 rest }
{
    let mut left = rest;
    let mut places = 9;
    let mut at = start;
    while left > 0 {
        places -= 1;
        let unit = 10_u64.pow(places);
        buf[at] = b'0' + (left / unit) as u8;
        left %= unit;
        at += 1;
    }
    at
}
