//! Lines on standard error.
ghost use Rattle.std.specs.Prelude.{◌≡◌};

use arrayvec::ArrayVec;
use std::fmt::Display;
use std::io::Write;
use std::{fmt, io};

// How long a line is at most that is one write: as many bytes as a pipe on Linux takes at once, with no other program's bytes between
// them.
const BLOCK: usize = 4096;

/// Prints a line, if it can be written. Control characters in it, as a path may have them, are by number, like `\u{1b}`: so it is
/// one line, and none acts on a terminal. A line of at most 4096 bytes is one write, so that no other program's text comes between
/// its parts.
pub fn print_line<L: Display + Drop, E: Write>(line: L, err: &mut E) {
    let mut text: ArrayVec<u8, BLOCK> = ArrayVec::new();
    let _ = match put_line(&mut text, &line) {
        Ok(()) => err.write_all(text.as_slice()),
        Err(_) => put_line(err, &line),
    };
}

fn put_line<L: Display, W: Write>(out: &mut W, line: &L) -> io::Result<()> {
    let mut numbering = Numbering(&mut *out);
    if fmt::Write::write_fmt(&mut numbering, format_args!("{line}")).is_err() {
        return Err(io::ErrorKind::WriteZero.into());
    }
    out.write_all(b"\n")
}

// A writer of texts, which writes control characters by number, and by number too a backslash that looks like such a number.
#[derive(Drop)]
struct Numbering<'a, W>(&'a mut W);

impl<W: Write> fmt::Write for Numbering<'_, W> {
    ghost write_str_gives = { λ s bs t. t.0.ghost_name ≡ s.0.ghost_name };

    fn write_str(&mut self, text: &str) -> fmt::Result {
        for (at, c) in text.char_indices() {
            let put = if is_numbered(c) || begins_number(text, at) {
                write!(self.0, "\\u{{{:x}}}", u32::from(c))
            } else {
                self.0.write_all(c.encode_utf8(&mut [0; 4]).as_bytes())
            };
            if put.is_err() {
                return Err(fmt::Error);
            }
        }
        Ok(())
    }
}

// Whether a character acts on a terminal or ends a line.
fn is_numbered(c: char) -> bool {
    c.is_control() || matches!(c, '\u{2028}' | '\u{2029}')
}

// Whether the text has there what a number begins with.
fn begins_number(text: &str, at: usize) -> bool {
    text.get(at..).is_some_and(|rest| rest.starts_with("\\u{"))
}

/// Prints a text, and a line end if it has none, if they can be written. It is one write if there is memory for the line end.
pub fn print_text<E: Write>(mut text: String, err: &mut E) {
    let _ = if text.as_str().ends_with('\n') || text.push('\n').is_ok() {
        err.write_all(text.as_bytes())
    } else {
        writeln!(err, "{text}")
    };
}
