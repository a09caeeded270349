//! How texts are written between the quotes of a JSON string.
ghost use Rattle.std.specs.Prelude.{◌≡◌, ◌<◌, ◌≤◌, ◌/◌, ◌%◌, ◌∷◌, [], length, take, slice_index, MatchOption};
ghost use Rattle.std.specs.Char.{digit_char};
ghost use Rattle.mimic_trial.specs.Escape.{ArePlain, EscapesCharacters, NeedsEscape, escape, escape_char};

use std::marker::Model;
use std::str;

/// A character as it is written there.
#[derive(Drop)]
pub struct Escaped {
    bytes: [u8; 6],
    len: usize,
}

impl Model for Escaped {
    ghost use Rattle.std.specs.Prelude.{◌≡◌, ◌≤◌, ℕ, List, take, true};
    ghost use Rattle.std.specs.Str.{is_utf8};

    ghost Value = { List ℕ };

    ghost view = { λ e. take e.len e.bytes };

    ghost invariant = { λ e. (e.len ≤ 6) × (is_utf8 (take e.len e.bytes) ≡ true) };
}

impl Escaped {
    /// Returns the text, which has at most six bytes.
    pub fn as_str(&self) -> &str
        ensures text { result.now ≡ self.now }
        ensures short { length result.now ≤ 6 }
    {
        str::from_utf8(&self.bytes[..self.len]).unwrap()
    }

    fn of(text: &str) -> Escaped
        requires { length text.now ≤ 6 }
        ensures { result ≡ text.now }
    {
        let mut bytes = [0; 6];
        bytes[..text.len()].copy_from_slice(text.as_bytes());
        Escaped {
            bytes,
            len: text.len(),
        }
    }

    fn control(byte: u8) -> Escaped
        requires { byte < 32 }
        ensures { result ≡ 92 ∷ 117 ∷ 48 ∷ 48 ∷ digit_char (byte / 16) ∷ digit_char (byte % 16)
            ∷ [] }
    {
        Escaped {
            bytes: [
                b'\\',
                b'u',
                b'0',
                b'0',
                hex_digit(byte / 16),
                hex_digit(byte % 16),
            ],
            len: 6,
        }
    }
}

/// Returns a character as it is written between the quotes of a JSON string (RFC 8259, section 7). It has one spelling.
///
/// `\"`, `\\`, `\b`, `\t`, `\n`, `\f` and `\r` stand for the characters that they usually stand for,
/// `\u00` and two hexadecimal digits in small letters for every other character below U+0020, and every
/// other character for itself, also `/` and U+007F.
pub fn escape_char(c: char) -> Escaped
    ensures spelled { result ≡ escape_char c }

    // To write a text character by character is to write it byte by byte.
    ensures law { EscapesCharacters }
{
    if c.is_ascii() {
        escape_byte(c as u8)
    } else {
        Escaped::of(c.encode_utf8(&mut [0; 4]))
    }
}

/// Does the same for a character that is one byte, as all of ASCII are.
pub fn escape_byte(byte: u8) -> Escaped
    requires { byte < 128 }
    ensures { result ≡ escape byte }
{
    match byte {
        b'"' => Escaped::of("\\\""),
        b'\\' => Escaped::of("\\\\"),
        8 => Escaped::of("\\b"),
        b'\t' => Escaped::of("\\t"),
        b'\n' => Escaped::of("\\n"),
        12 => Escaped::of("\\f"),
        b'\r' => Escaped::of("\\r"),
        _ if byte < b' ' => Escaped::control(byte),
        _ => Escaped::of(char::from(byte).encode_utf8(&mut [0; 4])),
    }
}

/// Returns the place, counted from 0, of the first byte that isn't written as it is, and `None` if all are.
pub fn next_escape(text: &[u8]) -> Option<usize>
    ensures { MatchOption result (ArePlain text.now)
        (λ at. (at < length text.now) × NeedsEscape (slice_index text.now at)
        × ArePlain (take at text.now)) }
{
    for (at, byte) in text.iter().enumerate() {
        if *byte < b' ' || *byte == b'"' || *byte == b'\\' {
            return Some(at);
        }
    }
    None
}

/// Returns a number below 16 as a hexadecimal digit in small letters.
pub fn hex_digit(value: u8) -> u8
    requires { value < 16 }
    ensures { result ≡ digit_char value }
{
    if value < 10 {
        b'0' + value
    } else {
        b'a' + (value - 10)
    }
}
