//! Writes the ids of rows, which a link to a page can name.
ghost use Rattle.std.specs.Prelude.{◌≡◌, ◌<◌, MatchOption, length, slice_index, take, false};
ghost use Rattle.mimic_printer.specs.Sink.{Adds};
ghost use Rattle.mimic_events.specs.Contents.{entry_read};
ghost use Rattle.mimic_reports.specs.RowIds.{StayAll, id_part, id_text, stays};

use mimic_events::Row;
use mimic_printer::Sink;
use mimic_trial::hex_digit;
use std::io::Write;

// Adds the id of a row.
pub(crate) fn add_id<W: Write>(sink: &mut Sink<W>, row: &Row)
    ensures { Adds W.contents sink.old sink.new (id_text (entry_read row.now).label) }
{
    add_part(sink, row.kind.as_str().as_bytes());
    sink.add(b"/");
    add_part(sink, row.name.as_str().as_bytes());
}

// Adds a text as it is in an id: what is between its escapes at once.
fn add_part<W: Write>(sink: &mut Sink<W>, text: &[u8])
    ensures { Adds W.contents sink.old sink.new (id_part text.now) }
{
    let mut rest = text;
    while let Some(at) = first_escape(rest) {
        sink.add(&rest[..at]);
        sink.add(&[b'~', hex_digit(rest[at] / 16), hex_digit(rest[at] % 16)]);
        rest = &rest[at + 1..];
    }
    sink.add(rest);
}

// Returns the place of the first byte that isn't in an id as it is, and `None` if all are.
fn first_escape(text: &[u8]) -> Option<usize>
    ensures { MatchOption result (StayAll text.now)
        (λ at. (at < length text.now) × (stays (slice_index text.now at) ≡ false)
        × StayAll (take at text.now)) }
{
    for (at, byte) in text.iter().enumerate() {
        if !stays(*byte) {
            return Some(at);
        }
    }
    None
}

// Whether the byte is in an id as it is.
fn stays(byte: u8) -> bool
    ensures { result ≡ stays byte }
{
    matches!(byte, b'a'..=b'z' | b'A'..=b'Z' | b'0'..=b'9' | b'-' | b'.' | b':' | b'_')
}
