//! The spellings of characters that can't be written as they are.
ghost use Rattle.std.specs.Prelude.{◌≡◌, ◌<◌, ◌≤◌, ◌+◌, length, slice_index};
ghost use Rattle.mimic_printer.specs.Escapes.{IsSpelling, begins_control, begins_with, front, spelled_byte};

use crate::place::Place;
use mimic_trial::hex_digit;

// What is written for a character.
#[derive(Clone, Copy)]
pub(crate) struct Spelling {
    bytes: [u8; 8],
    len: usize,
}

impl Spelling {
    ghost use Rattle.std.specs.Prelude.{◌≡◌, ◌≤◌, ◌<◌, length};
    ghost use Rattle.mimic_printer.specs.Escapes.{IsSpelling, hexadecimal, numbered};

    fn of(text: &[u8]) -> Spelling
        requires { length text.now ≤ 8 }
        ensures { IsSpelling result text.now }
    {
        let mut bytes = [0; 8];
        bytes[..text.len()].copy_from_slice(text);
        Spelling {
            bytes,
            len: text.len(),
        }
    }

    fn number(code: u8) -> Spelling
        ensures { IsSpelling result (numbered (hexadecimal code)) }
    {
        if code < 16 {
            Spelling::of(&[b'\\', b'u', b'{', hex_digit(code), b'}'])
        } else {
            Spelling::of(&[
                b'\\',
                b'u',
                b'{',
                hex_digit(code / 16),
                hex_digit(code % 16),
                b'}',
            ])
        }
    }

    pub(crate) fn as_bytes(&self) -> &[u8]
        requires { self.now.len ≤ 8 }
        ensures { IsSpelling self.now result.now }
    {
        &self.bytes[..self.len]
    }
}

// Returns the spelling of what comes first in the text, and how many bytes of the text that is.
pub(crate) fn front(text: &[u8], place: Place) -> (Spelling, usize)
    requires { 0 < length text.now }
    ensures spelling { IsSpelling result.0 (front place text.now).0 }
    ensures count { result.1 ≡ (front place text.now).1 + 1 }
    ensures within { result.1 ≤ length text.now }
{
    if begins_with(text, b'\\', b'u', b'{') {
        (Spelling::of(b"\\u{5c}"), 1)
    } else if begins_with(text, 239, 191, 190) && place.has_markup() {
        (Spelling::of(b"\\u{fffe}"), 3)
    } else if begins_with(text, 239, 191, 191) && place.has_markup() {
        (Spelling::of(b"\\u{ffff}"), 3)
    } else if begins_with(text, 226, 128, 168) && place == Place::Line {
        (Spelling::of(b"\\u{2028}"), 3)
    } else if begins_with(text, 226, 128, 169) && place == Place::Line {
        (Spelling::of(b"\\u{2029}"), 3)
    } else if begins_control(text) && !place.is_xml() {
        (Spelling::number(text[1]), 2)
    } else {
        (spelled_byte(text[0], place), 1)
    }
}

// Returns whether the text begins with these bytes.
fn begins_with(text: &[u8], first: u8, second: u8, third: u8) -> bool
    ensures value { result ≡ begins_with first second third text.now }
{
    match text {
        [x, y, z, ..] => *x == first && *y == second && *z == third,
        _ => false,
    }
}

// Returns whether the text begins with a control character of two bytes, of which the second is its number.
fn begins_control(text: &[u8]) -> bool
    ensures { result ≡ begins_control text.now }
{
    match text {
        [x, y, ..] => *x == 194 && *y >= 128 && *y < 160,
        _ => false,
    }
}

// Returns the spelling of a byte that is spelled by itself, without those behind it.
fn spelled_byte(byte: u8, place: Place) -> Spelling
    ensures { IsSpelling result (spelled_byte place byte) }
{
    if !place.forbids(byte) {
        return Spelling::of(&[byte]);
    }
    let text: &[u8] = match byte {
        b'&' => b"&amp;",
        b'<' => b"&lt;",
        b'>' => b"&gt;",
        b'"' => b"&quot;",
        b'\t' if place.is_xml() => b"&#9;",
        b'\n' if place.is_xml() => b"&#10;",
        b'\r' if place.is_xml() => b"&#13;",
        _ => return Spelling::number(byte),
    };
    Spelling::of(text)
}
