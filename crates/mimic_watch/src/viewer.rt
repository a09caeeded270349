//! Shows a report as it comes.
ghost use Rattle.std.specs.Prelude.{◌≡◌, IfOk, MatchResult, OnOk};
ghost use Rattle.mimic_printer.specs.Sink.{Adds, HasFaultLeft, shown};
ghost use Rattle.mimic_watch.specs.Frames.{FirstLinesFit, SecondLinesFit};
ghost use Rattle.mimic_watch.specs.Watched.{HasFailed, HasWatched, failures_part, last_text};
ghost use Rattle.mimic_watch.specs.Viewers.{IsReady, put_text};

use crate::frame::{ERASE, Screen, View, drawn_text};
use crate::pace::{Pace, nanos};
use crate::row::{add_failed_line, add_row};
use crate::text::{add_headed, text_of};
use crate::verdict::{WatchFault, WatchVerdict};
use mimic_events::{Ending, Follower, PIECE, ReadFault, Row, read_piece};
use mimic_printer::{Printer, Sink};
use mimic_trial::{Conclusion, FormatSetting, Outcome};
use std::alloc::{AllocError, Global};
use std::io::{ErrorKind, Read, Write};
use std::mem::replace;
use std::rt::Clock;

// On a terminal, what rows show waits for the next drawing unless it has this number of bytes or more.
const BLOCK: usize = 65_536;

// What has come of a report.
#[derive(Drop)]
struct Viewer {
    alloc: Global,
    screen: Screen,
    follower: Follower,
    // The rows that have ended, and how many of them have each outcome.
    ended: u64,
    counts: Conclusion,
    // What rows show and was not put yet.
    waiting: Vec<u8>,
    // The lines that name the rows that failed.
    failed: Vec<u8>,
    // Room for what is put at once.
    text: Vec<u8>,
    pace: Pace,
}

/// Shows a report as its bytes come, up to their end or to the first line that no report has there: each failure and each
/// measurement once, and at last the names of the failures and the harness's summary.
///
/// On a terminal two lines below say how far the run is, at most ten times a second; each time it is one write, which
/// leaves the terminal as it was. Else one line reports this every ten seconds, with no escape sequence. A reader that returns
/// `TimedOut` or `WouldBlock` says that nothing has come for a while. Rows that have passed are not kept.
pub fn watch<I: Read, W: Write, C: Clock>(
    alloc: Global,
    input: &mut I,
    sink: &mut Sink<W>,
    clock: &C,
    screen: Screen,
) -> Result<WatchVerdict, WatchFault>
    requires { HasFaultLeft sink.old }
    ensures watched { MatchResult result
        (HasWatched screen (I.remaining input.old) (shown W.contents sink.old) (shown W.contents sink.new))
        (HasFailed screen (I.remaining input.old) (I.remaining input.new) (shown W.contents sink.old) (shown W.contents sink.new)) }

    // No first line is wider than its columns.
    ensures first { FirstLinesFit }

    // No second line is, and it has no control character.
    ensures second { SecondLinesFit }
{
    let now = nanos(clock, 0);
    let viewer = Viewer::new(alloc, screen, now);
    run(viewer, input, sink, clock, now)
}

// Shows the whole report by a viewer that has seen nothing.
fn run<I: Read, W: Write, C: Clock>(
    mut viewer: Viewer,
    input: &mut I,
    sink: &mut Sink<W>,
    clock: &C,
    mut now: u64,
) -> Result<WatchVerdict, WatchFault>
    requires { IsReady viewer sink.old }
    ensures { MatchResult result
        (HasWatched viewer.screen (I.remaining input.old) (shown W.contents sink.old) (shown W.contents sink.new))
        (HasFailed viewer.screen (I.remaining input.old) (I.remaining input.new)
        (shown W.contents sink.old) (shown W.contents sink.new)) }
{
    let mut room = [0; PIECE];
    for _ in 0..u64::MAX {
        if viewer.read(input, &mut room)? {
            let verdict = viewer.finish(sink)?;
            sink.end()?;
            return Ok(verdict);
        }
        now = nanos(clock, now);
        viewer.show(sink, now)?;
        sink.end()?;
    }
    Err(WatchFault::Read(ReadFault::Input(ErrorKind::Other.into())))
}

// Returns a fault that says more than that nothing has come yet.
fn go_on(fault: ReadFault) -> Result<(), ReadFault> {
    match fault {
        ReadFault::Input(error) => match error.kind() {
            ErrorKind::TimedOut | ErrorKind::WouldBlock => Ok(()),
            _ => Err(ReadFault::Input(error)),
        },
        fault => Err(fault),
    }
}

impl Viewer {
    ghost use Rattle.std.specs.Prelude.{◌≡◌, ◌<◌, ◌++◌, [], ℕ, List, IfOk, IfSome, OnErr, OnOk, length};
    ghost use Rattle.std.specs.Io.KnownBytes.{Consumes};
    ghost use Rattle.mimic_printer.specs.Sink.{Adds};
    ghost use Rattle.mimic_events.specs.Contents.{entry_read};
    ghost use Rattle.mimic_watch.specs.Watched.{failures_part, last_text};
    ghost use Rattle.mimic_watch.specs.Rows.{failed_line, row_text};
    ghost use Rattle.mimic_watch.specs.Viewers.{DrawsSeen, EndsSeen, HasSeen, ReadsOn, SeesOn, SeesRow, ShowsOn, StaysSeen, put_text};

    fn new(alloc: Global, screen: Screen, now: u64) -> Viewer
        ensures seen { HasSeen result [] [] [] }
        ensures screen { result.screen ≡ screen }
    {
        Viewer {
            alloc,
            screen,
            follower: Follower::new(alloc),
            ended: 0,
            counts: Conclusion::empty(0),
            waiting: Vec::new(alloc),
            failed: Vec::new(alloc),
            text: Vec::new(alloc),
            pace: Pace::new(now),
        }
    }

    // Reads the next piece, unless nothing has come yet, and returns whether the input is over: it is at its end, or a line is
    // wrong.
    fn read<I: Read>(&mut self, input: &mut I, room: &mut [u8]) -> Result<bool, ReadFault>
        requires { 0 < length room.old }
        ensures read { IfOk result
            (ReadsOn (I.remaining input.old) (I.remaining input.new) self.old self.new) }
        ensures room { length room.new ≡ length room.old }
        ensures fault { OnErr result
            ((rest : List ℕ) × Consumes (I.remaining input.old) (I.remaining input.new) rest) }
    {
        match read_piece(input, room) {
            Ok(0) => Ok(true),
            Ok(count) => {
                self.take(&room[..count])?;
                Ok(self.follower.first_wrong_line().is_some())
            }
            Err(fault) => {
                go_on(fault)?;
                Ok(false)
            }
        }
    }

    // Takes the next piece. What the rows that end in it show waits.
    fn take(&mut self, piece: &[u8]) -> Result<(), AllocError>
        ensures seen { OnOk result (SeesOn self.old piece.now self.new) }
        ensures screen { OnOk result (self.new.screen ≡ self.old.screen) }
    {
        let mut rest = piece;
        while let Some((row, left)) = self.follower.next_row(rest)? {
            self.add(&row)?;
            rest = left;
        }
        Ok(())
    }

    // Counts a row that has ended, and lets wait what it shows.
    #[tactic(auto, unfolding(crate::specs::Rows::row_text))]
    fn add(&mut self, row: &Row) -> Result<(), AllocError>
        ensures { OnOk result (SeesRow self.old (entry_read row.now) self.new) }
    {
        self.ended = self.ended.saturating_add(1);
        let counts = &mut self.counts;
        match &row.outcome {
            Outcome::Passed => counts.num_passed = counts.num_passed.saturating_add(1),
            Outcome::Failed(_) => counts.num_failed = counts.num_failed.saturating_add(1),
            Outcome::Ignored => counts.num_ignored = counts.num_ignored.saturating_add(1),
            Outcome::Measured(_) => counts.num_measured = counts.num_measured.saturating_add(1),
        }
        match &row.outcome {
            Outcome::Passed | Outcome::Ignored => Ok(()),
            Outcome::Failed(_) | Outcome::Measured(_) => self.add_texts(row),
        }
    }

    // Lets wait what the row shows, and the line that names it if it failed.
    fn add_texts(&mut self, row: &Row) -> Result<(), AllocError>
        ensures shown { OnOk result (self.new.waiting.items
            ≡ self.old.waiting.items ++ row_text self.old.screen.colours (entry_read row.now)) }
        ensures failed { OnOk result (self.new.failed.items
            ≡ self.old.failed.items ++ failed_line (entry_read row.now).label (entry_read row.now).outcome) }
        ensures rest { OnOk result
            (self.new ≡ record self.old { waiting = self.new.waiting; failed = self.new.failed }) }
    {
        let mut waiting = Sink::new(replace(&mut self.waiting, Vec::new(self.alloc)));
        add_row(&mut waiting, self.screen.colours, row);
        self.waiting = text_of(waiting)?;
        let mut failed = Sink::new(replace(&mut self.failed, Vec::new(self.alloc)));
        add_failed_line(&mut failed, row);
        self.failed = text_of(failed)?;
        Ok(())
    }

    // Returns what is drawn at this time below what rows show, which may be nothing, and `None` if nothing is put at all.
    fn drawn(&mut self, now: u64) -> Result<Option<Vec<u8>>, AllocError>
        ensures seen { OnOk result (StaysSeen self.old self.new) }
        ensures screen { OnOk result (self.new.screen ≡ self.old.screen) }
        ensures drawn { IfOk result (λ found. IfSome found (λ drawn. DrawsSeen self.new drawn.items)) }
    {
        let ran = self.ended.saturating_sub(self.counts.num_ignored);
        self.pace.note(now, self.ended, ran);
        if self.pace.is_due(self.screen.live) {
            self.pace.draw();
            return Ok(Some(self.drawing()?));
        }
        let least = if self.screen.live { BLOCK } else { 1 };
        if self.waiting.len() >= least {
            Ok(Some(Vec::new(self.alloc)))
        } else {
            Ok(None)
        }
    }

    // Returns how far the run is: two lines on a terminal, and else one.
    fn drawing(&self) -> Result<Vec<u8>, AllocError>
        ensures { IfOk result (λ drawn. DrawsSeen self.now drawn.items) }
    {
        let announced = self.follower.announced();
        let rows = announced.unwrap_or(self.ended);
        let view = View {
            cells: cells(self.ended, rows),
            announced,
            ended: self.ended,
            failed: self.counts.num_failed,
            elapsed: self.pace.elapsed(),
            left: self.pace.left(rows.saturating_sub(self.ended)),
        };
        let running = self.follower.running();
        let quiet = self.pace.quiet();
        let drawn = drawn_text(self.alloc, self.screen, &view, running, quiet)?;
        Ok(drawn)
    }

    // Adds what waits with what is drawn below it at this time, if either is due.
    fn show<W: Write>(&mut self, sink: &mut Sink<W>, now: u64) -> Result<(), AllocError>
        ensures added { OnOk result ((text : List ℕ) × Adds W.contents sink.old sink.new text × ShowsOn self.old self.new text) }
        ensures fault { OnErr result (sink.new ≡ sink.old) }
    {
        let Some(drawn) = self.drawn(now)? else {
            return Ok(());
        };
        let erases = self.screen.live && !self.waiting.is_empty();
        set_moment(&mut self.text, erases, &self.waiting, &drawn)?;
        sink.add(&self.text);
        sink.add_flush();
        self.waiting.clear();
        Ok(())
    }

    // Adds what waits, and of a whole report the names of the failures and the summary.
    fn finish<W: Write>(self, sink: &mut Sink<W>) -> Result<WatchVerdict, AllocError>
        ensures verdict { IfOk result (EndsSeen self) }
        ensures added { IfOk result (λ verdict. Adds W.contents sink.old sink.new (put_text self.screen.live self.waiting.items []
            ++ last_text self.screen.colours (failures_part self.failed.items) verdict.counts verdict.ending)) }
        ensures fault { OnErr result (sink.new ≡ sink.old) }
    {
        let ending = Ending::of(self.alloc, self.follower)?;
        let verdict = WatchVerdict::new(self.counts, ending);
        let mut text = self.text;
        set_moment(&mut text, self.screen.live, &self.waiting, b"")?;
        sink.add(&text);
        sink.add_flush();
        add_last(sink, self.screen.colours, &self.failed, &verdict);
        Ok(verdict)
    }
}

// How many cells of a bar are filled by `ended` of `rows` rows.
fn cells(ended: u64, rows: u64) -> usize {
    if rows == 0 {
        return 0;
    }
    (u128::from(ended) * 6 / u128::from(rows)).min(6) as usize
}

// Makes the text that of a moment.
fn set_moment(
    text: &mut Vec<u8>,
    erases: bool,
    waiting: &[u8],
    drawn: &[u8],
) -> Result<(), AllocError>
    ensures { OnOk result (text.new.items ≡ put_text erases waiting.now drawn.now) }
{
    text.clear();
    if erases {
        text.extend_from_slice(ERASE.as_bytes())?;
    }
    text.extend_from_slice(waiting)?;
    text.extend_from_slice(drawn)
}

// Adds of a whole report these lines, which name failures, and the summary.
fn add_last<W: Write>(sink: &mut Sink<W>, colours: bool, lines: &[u8], verdict: &WatchVerdict)
    ensures { Adds W.contents sink.old sink.new
        (last_text colours (failures_part lines.now) verdict.now.counts verdict.now.ending) }
{
    if let Ending::Whole { nanos, .. } = &verdict.ending {
        let printer = Printer {
            format: FormatSetting::Pretty,
            colour: colours,
            name_width: 0,
            kind_width: 0,
        };
        add_headed(sink, b"\nfailures:\n", lines);
        printer.add_summary(sink, &verdict.counts, *nanos);
        sink.add_flush();
    }
}
