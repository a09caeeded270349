//! Writes texts piece by piece, with no memory.
ghost use Rattle.std.specs.Prelude.{◌≡◌, ◌≤◌, ◌++◌, IfSome, decimal, length, slice_index, take};
ghost use Rattle.std.specs.Option.{MatchOption};
ghost use Rattle.mimic_printer.specs.Sink.{Adds};
ghost use Rattle.mimic_trial.specs.Escape.{escaped as json_escaped};
ghost use Rattle.mimic_trial.specs.Seconds.{exact_seconds};
ghost use Rattle.mimic_trial.specs.Text.{spaces, right_aligned, grouped, kind_part};
ghost use Rattle.mimic_printer.specs.Escapes.{escaped};
ghost use Rattle.mimic_printer.specs.Json.{time_field};
ghost use Rattle.mimic_printer.specs.Piece.{bracketed, first_line, kind_text, piece_text, pieces_text};

use crate::escape::{add_escaped, first_escape};
use crate::place::Place;
use crate::sink::Sink;
use itoa::Buffer;
use mimic_trial::{brackets, escape_byte, exact_seconds, next_escape, thousands};
use std::io::Write;

/// A part of a text.
#[derive(Clone, Copy)]
pub enum Piece<'a> {
    /// The text itself.
    Text(&'a str),
    /// The number in decimal.
    Number(u64),
    /// The number in decimal.
    Long(&'a u128),
    /// A number below 100 in two digits.
    TwoDigits(u8),
    /// This number of spaces.
    Spaces(usize),
    /// The number with commas between groups of three digits.
    Grouped(u64),
    /// The same, and spaces before it up to the width in characters.
    Aligned {
        /// The number.
        number: u64,
        /// The width.
        width: usize,
    },
    /// Nanoseconds, as seconds in exact decimal.
    Seconds(u64),
    /// The key of a time in JSON and the nanoseconds, as seconds in exact decimal; nothing without a time.
    Time(Option<u64>),
    /// The text as it is between the quotes of a JSON string.
    Json(&'a str),
    /// What follows a trial's name in JSON: the key of a kind and the kind, up to its last quote, and nothing for an empty kind.
    Kind(&'a str),
    /// The text as it is in the place.
    Escaped(Place, &'a str),
    /// The first line of the text as it is in the place.
    FirstLine(Place, &'a str),
    /// The kind as it is in the place, in brackets and with a space after them, and nothing for an empty kind.
    Bracketed(Place, &'a str),
    /// The kind as it is, in brackets and with a space after them, and nothing for an empty kind.
    PlainKind(&'a str),
}

/// A trial's name in JSON. Most need no escape, and a row that has its name twice looks for escapes once.
#[tactic(auto, using(crate::proofs::Escaping::spelled_as_is))]
#[inline(always)]
pub(crate) fn name_piece<'a>(name: &'a str) -> Piece<'a>
    ensures { piece_text result ≡ json_escaped name.now }
{
    if next_escape(name.as_bytes()).is_some() {
        Piece::Json(name)
    } else {
        Piece::Text(name)
    }
}

// A text of at most this many bytes, as most rows are, is gathered first and added at once.
const ROW: usize = 256;

/// Adds the pieces one after another. A short text goes to the writer at once.
pub fn add_pieces<W: Write>(sink: &mut Sink<W>, pieces: &[Piece<'_>])
    ensures { Adds W.contents sink.old sink.new (pieces_text pieces.now) }
{
    let mut row = [0; ROW];
    match gather(pieces, &mut row) {
        Some(len) => sink.add(&row[..len]),
        None => add_each(sink, pieces),
    }
}

// Adds the pieces one after another, which few rows need.
#[inline(never)]
fn add_each<W: Write>(sink: &mut Sink<W>, pieces: &[Piece<'_>])
    ensures { Adds W.contents sink.old sink.new (pieces_text pieces.now) }
{
    for piece in pieces {
        piece.add(sink);
    }
}

// Gathers the pieces at the front of the row, and returns where they end. `None` if one of them doesn't fit or has no short text.
fn gather(pieces: &[Piece<'_>], row: &mut [u8; ROW]) -> Option<usize>
    ensures { IfSome result
        (λ end. (end ≤ 256) × (take end row.new ≡ pieces_text pieces.now)) }
{
    let mut len = 0;
    for piece in pieces {
        len = piece.write(row, len)?;
    }
    Some(len)
}

// Appends the text after the first `len` bytes of the row, and returns where it ends. `None` if it doesn't fit.
fn append(row: &mut [u8; ROW], len: usize, text: &[u8]) -> Option<usize>
    requires { len ≤ 256 }
    ensures { IfSome result
        (λ end. (end ≤ 256) × (take end row.new ≡ take len row.old ++ text.now)) }
{
    // Most reports have no colours and no kinds.
    if text.is_empty() {
        return Some(len);
    }
    if text.len() > ROW - len {
        return None;
    }
    let end = len + text.len();
    row[len..end].copy_from_slice(text);
    Some(end)
}

// The same of a text in JSON. `None` also if it has escapes.
#[tactic(auto, using(crate::proofs::Escaping::spelled_as_is))]
fn append_json(row: &mut [u8; ROW], len: usize, text: &str) -> Option<usize>
    requires { len ≤ 256 }
    ensures { IfSome result
        (λ end. (end ≤ 256) × (take end row.new ≡ take len row.old ++ json_escaped text.now)) }
{
    if next_escape(text.as_bytes()).is_some() {
        return None;
    }
    append(row, len, text.as_bytes())
}

// The same of a text in a place.
fn append_escaped(row: &mut [u8; ROW], len: usize, text: &[u8], place: Place) -> Option<usize>
    requires { len ≤ 256 }
    ensures { IfSome result
        (λ end. (end ≤ 256) × (take end row.new ≡ take len row.old ++ escaped place text.now)) }
{
    match first_escape(text, place) {
        Some(_) => None,
        None => append(row, len, text),
    }
}

fn append_kind(row: &mut [u8; ROW], len: usize, kind: &str) -> Option<usize>
    requires { len ≤ 256 }
    ensures { IfSome result
        (λ end. (end ≤ 256) × (take end row.new ≡ take len row.old ++ kind_text kind.now)) }
{
    if kind.is_empty() {
        return Some(len);
    }
    let end = append(row, len, KIND_KEY.as_bytes())?;
    append_json(row, end, kind)
}

// The same of a kind in brackets.
fn append_plain_kind(row: &mut [u8; ROW], len: usize, kind: &str) -> Option<usize>
    requires { len ≤ 256 }
    ensures { IfSome result
        (λ end. (end ≤ 256) × (take end row.new ≡ take len row.old ++ kind_part kind.now)) }
{
    if kind.is_empty() {
        return Some(len);
    }
    let (open, close) = brackets(kind);
    let end = append(row, len, open.as_bytes())?;
    let end = append(row, end, kind.as_bytes())?;
    append(row, end, close.as_bytes())
}

// What comes between a name and a kind.
const KIND_KEY: &str = "\", \"kind\": \"";

// The same of nanoseconds, as seconds in exact decimal.
fn append_seconds(row: &mut [u8; ROW], len: usize, nanos: u64) -> Option<usize>
    requires { len ≤ 256 }
    ensures { IfSome result
        (λ end. (end ≤ 256) × (take end row.new ≡ take len row.old ++ exact_seconds nanos)) }
{
    append(row, len, exact_seconds(nanos, &mut [0; 32]).as_bytes())
}

fn append_time(row: &mut [u8; ROW], len: usize, nanos: Option<u64>) -> Option<usize>
    requires { len ≤ 256 }
    ensures { IfSome result
        (λ end. (end ≤ 256) × (take end row.new ≡ take len row.old ++ time_field nanos)) }
{
    match nanos {
        None => Some(len),
        Some(nanos) => {
            let end = append(row, len, TIME_KEY.as_bytes())?;
            append_seconds(row, end, nanos)
        }
    }
}

// What comes before the time that a trial took.
const TIME_KEY: &str = ", \"exec_time\": ";

impl Piece<'_> {
    ghost use Rattle.std.specs.Prelude.{◌≡◌, ◌≤◌, ◌++◌, IfSome, take};
    ghost use Rattle.mimic_printer.specs.Sink.{Adds};
    ghost use Rattle.mimic_printer.specs.Piece.{piece_text};

    // Writes the piece after the first `len` bytes of the row, and returns where it ends. `None` if it doesn't fit, or if it is of a
    // sort that only `add` writes.
    fn write(self, row: &mut [u8; ROW], len: usize) -> Option<usize>
        requires { len ≤ 256 }
        ensures { IfSome result
            (λ end. (end ≤ 256) × (take end row.new ≡ take len row.old ++ piece_text self.entry)) }
    {
        match self {
            Piece::Text(text) => append(row, len, text.as_bytes()),
            Piece::Number(number) => append(row, len, Buffer::new().format(number).as_bytes()),
            Piece::Long(number) => append(row, len, Buffer::new().format(*number).as_bytes()),
            Piece::TwoDigits(number) => {
                append(row, len, &[b'0' + number / 10, b'0' + number % 10])
            }
            Piece::Seconds(nanos) => append_seconds(row, len, nanos),
            Piece::Time(nanos) => append_time(row, len, nanos),
            Piece::Grouped(number) => {
                append(row, len, thousands(number, &mut [0; 26]).as_bytes())
            }
            Piece::Spaces(count) if count <= SPACES.len() => append(row, len, &SPACES[..count]),
            Piece::Json(text) => append_json(row, len, text),
            Piece::Kind(kind) => append_kind(row, len, kind),
            Piece::Escaped(place, text) => append_escaped(row, len, text.as_bytes(), place),
            Piece::FirstLine(place, text) => {
                append_escaped(row, len, first_line(text.as_bytes()), place)
            }
            Piece::Bracketed(_, kind) if kind.is_empty() => Some(len),
            Piece::PlainKind(kind) => append_plain_kind(row, len, kind),
            _ => None,
        }
    }

    fn add<W: Write>(self, sink: &mut Sink<W>)
        ensures { Adds W.contents sink.old sink.new (piece_text self.entry) }
    {
        match self {
            Piece::Text(text) => sink.add(text.as_bytes()),
            Piece::Number(number) => sink.add(Buffer::new().format(number).as_bytes()),
            Piece::Long(number) => sink.add(Buffer::new().format(*number).as_bytes()),
            Piece::TwoDigits(number) => sink.add(&[b'0' + number / 10, b'0' + number % 10]),
            Piece::Spaces(count) => add_spaces(sink, count),
            Piece::Grouped(number) => sink.add(thousands(number, &mut [0; 26]).as_bytes()),
            Piece::Aligned { number, width } => add_aligned(sink, number, width),
            Piece::Seconds(nanos) => add_seconds(sink, nanos),
            Piece::Time(nanos) => add_time(sink, nanos),
            Piece::Json(text) => add_json(sink, text.as_bytes()),
            Piece::Kind(kind) => add_kind(sink, kind),
            Piece::Escaped(place, text) => add_escaped(sink, text.as_bytes(), place),
            Piece::FirstLine(place, text) => {
                add_escaped(sink, first_line(text.as_bytes()), place)
            }
            Piece::Bracketed(place, kind) => add_bracketed(sink, kind, place),
            Piece::PlainKind(kind) => add_plain_kind(sink, kind),
        }
    }
}

// The spaces that are written at once.
const SPACES: [u8; 32] = [b' '; 32];

fn add_spaces<W: Write>(sink: &mut Sink<W>, count: usize)
    ensures { Adds W.contents sink.old sink.new (spaces count) }
{
    let mut left = count;
    while left > 0 {
        let now = left.min(SPACES.len());
        sink.add(&SPACES[..now]);
        left -= now;
    }
}

#[tactic(auto, using(crate::proofs::Adding::adds_then, crate::proofs::Adding::adds_last))]
fn add_aligned<W: Write>(sink: &mut Sink<W>, number: u64, width: usize)
    ensures { Adds W.contents sink.old sink.new
        (right_aligned width (grouped (decimal number))) }
{
    let mut buf = [0; 26];
    let text = thousands(number, &mut buf);
    add_spaces(sink, width.saturating_sub(text.len()));
    sink.add(text.as_bytes());
}

// Adds the text with its escapes in JSON, and what is between them at once.
fn add_json<W: Write>(sink: &mut Sink<W>, text: &[u8])
    ensures { Adds W.contents sink.old sink.new (json_escaped text.now) }
{
    let mut rest = text;
    while let Some(at) = next_escape(rest) {
        sink.add(&rest[..at]);
        sink.add(escape_byte(rest[at]).as_str().as_bytes());
        rest = &rest[at + 1..];
    }
    sink.add(rest);
}

fn add_kind<W: Write>(sink: &mut Sink<W>, kind: &str)
    ensures { Adds W.contents sink.old sink.new (kind_text kind.now) }
{
    if !kind.is_empty() {
        sink.add(KIND_KEY.as_bytes());
        add_json(sink, kind.as_bytes());
    }
}

fn add_time<W: Write>(sink: &mut Sink<W>, nanos: Option<u64>)
    ensures { Adds W.contents sink.old sink.new (time_field nanos) }
{
    if let Some(nanos) = nanos {
        sink.add(TIME_KEY.as_bytes());
        add_seconds(sink, nanos);
    }
}

fn add_seconds<W: Write>(sink: &mut Sink<W>, nanos: u64)
    ensures { Adds W.contents sink.old sink.new (exact_seconds nanos) }
{
    sink.add(exact_seconds(nanos, &mut [0; 32]).as_bytes());
}

fn add_bracketed<W: Write>(sink: &mut Sink<W>, kind: &str, place: Place)
    ensures { Adds W.contents sink.old sink.new (bracketed place kind.now) }
{
    if !kind.is_empty() {
        sink.add(b"[");
        add_escaped(sink, kind.as_bytes(), place);
        sink.add(b"] ");
    }
}

fn add_plain_kind<W: Write>(sink: &mut Sink<W>, kind: &str)
    ensures { Adds W.contents sink.old sink.new (kind_part kind.now) }
{
    let (open, close) = brackets(kind);
    sink.add(open.as_bytes());
    sink.add(kind.as_bytes());
    sink.add(close.as_bytes());
}

// Returns the text up to its first line end.
fn first_line(text: &[u8]) -> &[u8]
    ensures { result.now ≡ first_line text.now }
{
    for (at, byte) in text.iter().enumerate() {
        if *byte == b'\n' {
            return &text[..at];
        }
    }
    text
}
