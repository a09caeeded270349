//! The two lines below the rows: how far the run is.
ghost use Rattle.std.specs.Prelude.{◌≡◌, ◌<◌, ◌++◌, IfOk, None, Some, chars, nat_lt, option_map, string_bytes};
ghost use Rattle.mimic_trial.specs.Text.{kind_part};
ghost use Rattle.mimic_events.specs.Contents.{label_read};
ghost use Rattle.mimic_printer.specs.Sink.{Adds};
ghost use Rattle.mimic_watch.specs.Moments.{drawn_text, room_after};
ghost use Rattle.mimic_watch.specs.Frames.{announced_part, bar, columns_of, cut, failed_part, first_line, fitting, frame, front_text, log_line, mark, mark_columns, marks, part_if, plain_byte, second_line, shaped, span, time_text, waiting_line};

use crate::text::{add_headed, text_of};
use mimic_events::Label;
use mimic_printer::{Piece, Place, Sink, add_escaped, add_pieces};
use mimic_trial::brackets;
use std::alloc::{AllocError, Global};
use std::io::Write;
use unicode_width::UnicodeWidthChar;

// How many columns the bar has between its brackets.
const CELLS: usize = 6;

/// What a report is shown on.
#[derive(Clone, Copy)]
pub struct Screen {
    /// Whether it is a terminal that knows escape sequences, so that lines can be drawn again.
    pub live: bool,
    /// How many columns a line of how far the run is has at most. On a terminal, parts of lines that are wider than its window
    /// would be left over.
    pub columns: usize,
    /// Whether the words of outcomes have the harness's colours.
    pub colours: bool,
}

/// Erases two lines, with the cursor at the start of the first, and leaves it there.
///
/// What a narrower window wraps of them is below, so all below is erased. The space keeps `ESC[J` off the first column: in the
/// window's first line some terminals would put all that they show into their history.
pub const ERASE: &str = "\r \u{1b}[J\r\u{1b}[K";

// What the first line says. Times are in seconds.
#[derive(Clone, Copy)]
pub(crate) struct View {
    // How many cells of the bar are filled.
    pub(crate) cells: usize,
    // How many rows the report announces, once it does.
    pub(crate) announced: Option<u64>,
    // How many rows have ended, and how many of them failed.
    pub(crate) ended: u64,
    pub(crate) failed: u64,
    // The time since the start, and what the other rows may take.
    pub(crate) elapsed: u64,
    pub(crate) left: Option<u64>,
}

// Returns how far the run is, and what it waits for: two lines on a terminal, and else one.
pub(crate) fn drawn_text(
    alloc: Global,
    screen: Screen,
    view: &View,
    running: Option<&Label>,
    quiet: u64,
) -> Result<Vec<u8>, AllocError>
    ensures { IfOk result (λ drawn. drawn.items
        ≡ drawn_text screen view.now (option_map (λ label. label_read label.now) running.entry) quiet) }
{
    let first = first_line(alloc, screen.columns, view)?;
    if screen.live {
        live_text(alloc, screen.columns, &first, running, quiet)
    } else {
        log_text(alloc, screen.columns, &first, running, quiet)
    }
}

// Returns two lines, with the cursor at the start of the first.
fn live_text(
    alloc: Global,
    columns: usize,
    first: &[u8],
    running: Option<&Label>,
    quiet: u64,
) -> Result<Vec<u8>, AllocError>
    ensures { IfOk result (λ drawn. drawn.items
        ≡ frame first.now (second_line columns (option_map (λ label. label_read label.now) running.entry) quiet)) }
{
    let second = second_line(alloc, columns, running, quiet)?;
    let mut drawn = Sink::new(Vec::new(alloc));
    drawn.add(b"\x1b[?7l\r");
    drawn.add(first);
    drawn.add(b"\x1b[J\n");
    drawn.add(&second);
    drawn.add(b"\x1b[1A\r\x1b[?7h");
    text_of(drawn)
}

// Returns both lines in one, as a log has them.
fn log_text(
    alloc: Global,
    columns: usize,
    first: &[u8],
    running: Option<&Label>,
    quiet: u64,
) -> Result<Vec<u8>, AllocError>
    ensures { IfOk result (λ drawn. drawn.items
        ≡ log_line first.now (second_line (room_after columns first.now) (option_map (λ label. label_read label.now) running.entry) quiet)) }
{
    let room = columns.saturating_sub(first.len()).saturating_sub(2);
    let second = second_line(alloc, room, running, quiet)?;
    let mut drawn = Sink::new(Vec::new(alloc));
    drawn.add(first);
    add_headed(&mut drawn, b"; ", &second);
    drawn.add(b"\n");
    text_of(drawn)
}

// Whether a first line has a bar, the time that has passed, and the time left: from the shape with all of them on. What is left of
// a run is of more use than the others.
static SHAPES: [(bool, bool, bool); 5] = [
    (true, true, true),
    (true, false, true),
    (false, true, true),
    (false, false, true),
    (false, false, false),
];

// Returns the first line: the fullest that fits into the columns.
fn first_line(alloc: Global, columns: usize, view: &View) -> Result<Vec<u8>, AllocError>
    ensures { IfOk result (λ line. line.items ≡ first_line columns view.now) }
{
    for shape in &SHAPES {
        let line = shaped(alloc, view, shape)?;
        if line.len() <= columns {
            return Ok(line);
        }
    }
    Ok(Vec::new(alloc))
}

// Returns a line of this shape.
#[tactic(auto, unfolding(crate::specs::Frames::shaped))]
fn shaped(alloc: Global, view: &View, shape: &(bool, bool, bool)) -> Result<Vec<u8>, AllocError>
    ensures { IfOk result (λ line. line.items ≡ shaped view.now shape.now) }
{
    let (bar, elapsed, left) = *shape;
    let mut line = Sink::new(Vec::new(alloc));
    add_bar(&mut line, bar, view.cells);
    add_pieces(&mut line, &[Piece::Number(view.ended)]);
    add_announced(&mut line, view.announced);
    add_failed(&mut line, view.failed);
    add_span(&mut line, elapsed, Some(view.elapsed), b"");
    add_span(&mut line, left, view.left, b" left");
    text_of(line)
}

// Adds a bar with `cells` cells filled, if the line has one.
fn add_bar<W: Write>(sink: &mut Sink<W>, has: bool, cells: usize)
    ensures { Adds W.contents sink.old sink.new (part_if has (bar cells)) }
{
    if has {
        let cells = cells.min(CELLS);
        let (full, empty): (&[u8], &[u8]) = (b"======", b"      ");
        sink.add(b"[");
        sink.add(&full[..cells]);
        sink.add(&empty[cells..]);
        sink.add(b"] ");
    }
}

fn add_announced<W: Write>(sink: &mut Sink<W>, announced: Option<u64>)
    ensures { Adds W.contents sink.old sink.new (announced_part announced) }
{
    if let Some(announced) = announced {
        add_pieces(sink, &[Piece::Text("/"), Piece::Number(announced)]);
    }
}

fn add_failed<W: Write>(sink: &mut Sink<W>, failed: u64)
    ensures { Adds W.contents sink.old sink.new (failed_part failed) }
{
    if failed > 0 {
        let pieces = [
            Piece::Text(" "),
            Piece::Number(failed),
            Piece::Text(" failed"),
        ];
        add_pieces(sink, &pieces);
    }
}

// Adds the time, if it is known, and what follows it, if the line has them.
fn add_span<W: Write>(sink: &mut Sink<W>, has: bool, seconds: Option<u64>, after: &[u8])
    ensures { Adds W.contents sink.old sink.new (part_if has (span seconds after.now)) }
{
    if has {
        if let Some(seconds) = seconds {
            sink.add(b" ");
            add_time(sink, seconds);
            sink.add(after);
        }
    }
}

const MINUTE: u64 = 60;

const HOUR: u64 = 3_600;

// Adds a time as people say it: `42s`, `5:42`, `1:02:10`.
fn add_time<W: Write>(sink: &mut Sink<W>, seconds: u64)
    ensures { Adds W.contents sink.old sink.new (time_text seconds) }
{
    let minute = Piece::TwoDigits((seconds / MINUTE % 60) as u8);
    let second = Piece::TwoDigits((seconds % MINUTE) as u8);
    let colon = Piece::Text(":");
    if seconds < MINUTE {
        add_pieces(sink, &[Piece::Number(seconds), Piece::Text("s")]);
    } else if seconds < HOUR {
        add_pieces(sink, &[Piece::Number(seconds / MINUTE), colon, second]);
    } else {
        add_pieces(
            sink,
            &[Piece::Number(seconds / HOUR), colon, minute, colon, second],
        );
    }
}

// Returns the second line: the trial that is waited for, if it is known, and for how many seconds no row has ended. It is empty
// unless that is long.
#[tactic(auto, unfolding(crate::specs::Frames::second_line))]
fn second_line(
    alloc: Global,
    columns: usize,
    running: Option<&Label>,
    quiet: u64,
) -> Result<Vec<u8>, AllocError>
    ensures { IfOk result (λ line. line.items
        ≡ second_line columns (option_map (λ label. label_read label.now) running.entry) quiet) }
{
    if quiet < LONG {
        return Ok(Vec::new(alloc));
    }
    match running {
        Some(label) => waiting_for(alloc, columns, label, quiet),
        None => waiting(alloc, columns, quiet),
    }
}

// The number of seconds from which it is long that no row has ended.
const LONG: u64 = 2;

fn waiting(alloc: Global, columns: usize, quiet: u64) -> Result<Vec<u8>, AllocError>
    ensures { IfOk result (λ line. line.items ≡ waiting_line columns None quiet) }
{
    let mut text = Sink::new(Vec::from_slice(alloc, b"nothing ended for ")?);
    add_time(&mut text, quiet);
    front_of(alloc, columns, &text_of(text)?)
}

fn waiting_for(
    alloc: Global,
    columns: usize,
    label: &Label,
    quiet: u64,
) -> Result<Vec<u8>, AllocError>
    ensures { IfOk result (λ line. line.items ≡ waiting_line columns (Some (label_read label.now)) quiet) }
{
    let mut text = Sink::new(Vec::from_slice(alloc, b"waiting ")?);
    add_time(&mut text, quiet);
    text.add(b" for ");
    let front = front_of(alloc, columns, &text_of(text)?)?;
    let name = label_text(alloc, label)?;
    let room = columns.saturating_sub(front.len());
    let mut line = Sink::new(front);
    add_cut(&mut line, room, name.as_str());
    text_of(line)
}

// Returns the trial's kind in brackets, if it has one, and its name.
fn label_text(alloc: Global, label: &Label) -> Result<String, AllocError>
    ensures { IfOk result (λ text. string_bytes text
        ≡ kind_part (label_read label.now).kind ++ (label_read label.now).name) }
{
    let (open, close) = brackets(label.kind.as_str());
    let mut text = String::from_str(alloc, open)?;
    text.push_str(label.kind.as_str())?;
    text.push_str(close)?;
    text.push_str(label.name.as_str())?;
    Ok(text)
}

// Returns what the columns have room for, with a question mark for each character that isn't a printable one of ASCII.
fn front_of(alloc: Global, columns: usize, text: &[u8]) -> Result<Vec<u8>, AllocError>
    ensures { IfOk result (λ line. line.items ≡ front_text columns text.now) }
{
    text.iter()
        .filter_map(|byte| plain(*byte))
        .take(columns)
        .collect(alloc)
}

// Returns what the line has for a byte of a text: `None` for a byte that begins no character.
fn plain(byte: u8) -> Option<u8>
    ensures { result ≡ plain_byte byte }
{
    match byte {
        b' '..=b'~' => Some(byte),
        128..=191 => None,
        _ => Some(b'?'),
    }
}

// Adds the text; of one that is wider than the columns as much as leaves room for two points, and these or as many as fit.
fn add_cut<W: Write>(sink: &mut Sink<W>, columns: usize, text: &str)
    ensures { Adds W.contents sink.old sink.new (cut columns (chars text.now)) }
{
    if is_wider(columns, text) {
        add_fitting(sink, columns.saturating_sub(2), text);
        let points: &[u8] = b"..";
        sink.add(&points[..columns.min(2)]);
    } else {
        add_fitting(sink, columns, text);
    }
}

// Returns whether the text is wider than the columns.
fn is_wider(columns: usize, text: &str) -> bool
    ensures { result ≡ nat_lt columns (columns_of (chars text.now)) }
{
    let mut room = columns;
    for c in text.chars() {
        let wide = mark_columns(c);
        if room < wide {
            return true;
        }
        room -= wide;
    }
    false
}

// Adds the characters that fit.
fn add_fitting<W: Write>(sink: &mut Sink<W>, columns: usize, text: &str)
    ensures { Adds W.contents sink.old sink.new (marks (fitting columns (chars text.now))) }
{
    let mut room = columns;
    for c in text.chars() {
        let wide = mark_columns(c);
        if room < wide {
            return;
        }
        add_mark(sink, c);
        room -= wide;
    }
}

fn add_mark<W: Write>(sink: &mut Sink<W>, c: char)
    ensures { Adds W.contents sink.old sink.new (mark c) }
{
    add_escaped(sink, c.encode_utf8(&mut [0; 4]).as_bytes(), Place::Terminal);
}

fn mark_columns(c: char) -> usize
    ensures { result ≡ mark_columns c }
{
    match c.width() {
        Some(width) => width.max(1),
        None => 6,
    }
}
