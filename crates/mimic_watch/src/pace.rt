//! When something is drawn, and how long the rest of a run takes.
use std::rt::Clock;

// Times are in nanoseconds.
const SECOND: u64 = 1_000_000_000;

// The shortest time between two drawings on a terminal, and between two lines without one.
const TENTH: u64 = SECOND / 10;

const LINES_APART: u64 = 10 * SECOND;

// Before this time the time left is not shown.
const SURE: u64 = SECOND / 2;

// How many marks are kept.
const SPAN: usize = 10;

// How many trials had run at a time at which one ended.
#[derive(Clone, Copy)]
struct Mark {
    at: u64,
    ran: u64,
}

// What a run's clock has read.
#[derive(Clone, Copy)]
pub(crate) struct Pace {
    started: u64,
    now: u64,
    // How many rows have ended, when the last one did, and whether it did since the last drawing.
    rows: u64,
    ended: u64,
    is_fresh: bool,
    drawn: u64,
    // How many trials have run, and when the last of them ended. Ignored ones don't run.
    ran: u64,
    ran_at: u64,
    // The last marks, at least a second apart, in turn.
    marks: [Mark; SPAN],
    marked: u64,
    turn: usize,
}

// Returns what the clock reads, or what it read before if it reads nothing.
pub(crate) fn nanos<C: Clock>(clock: &C, before: u64) -> u64 {
    match clock.monotonic() {
        Ok(time) => u64::try_from(time.as_nanos()).unwrap_or(before),
        Err(_) => before,
    }
}

impl Pace {
    // Begins at this time.
    pub(crate) fn new(now: u64) -> Pace {
        Pace {
            started: now,
            now,
            rows: 0,
            ended: now,
            is_fresh: true,
            drawn: now,
            ran: 0,
            ran_at: now,
            marks: [Mark { at: now, ran: 0 }; SPAN],
            marked: now,
            turn: 0,
        }
    }

    // Notes the time, and how many rows have ended and how many of their trials have run.
    pub(crate) fn note(&mut self, now: u64, rows: u64, ran: u64) {
        self.now = now;
        if rows != self.rows {
            self.rows = rows;
            self.ended = now;
            self.is_fresh = true;
        }
        if ran != self.ran {
            self.ran = ran;
            self.ran_at = now;
            self.mark();
        }
    }

    // Marks that a trial has ended now, unless the last mark is less than a second old.
    fn mark(&mut self) {
        if self.now.saturating_sub(self.marked) >= SECOND {
            let at = self.turn % SPAN;
            self.marks[at] = Mark {
                at: self.now,
                ran: self.ran,
            };
            self.marked = self.now;
            self.turn = (at + 1) % SPAN;
        }
    }

    // Whether it is time to draw on a terminal, or to write a line without one.
    pub(crate) fn is_due(&self, live: bool) -> bool {
        let since = self.now.saturating_sub(self.drawn);
        if live {
            since >= SECOND || self.is_fresh && since >= TENTH
        } else {
            since >= LINES_APART
        }
    }

    // Notes that something was drawn.
    pub(crate) fn draw(&mut self) {
        self.drawn = self.now;
        self.is_fresh = false;
    }

    // For how many seconds the run has gone on.
    pub(crate) fn elapsed(&self) -> u64 {
        self.now.saturating_sub(self.started) / SECOND
    }

    // For how many seconds no row has ended.
    pub(crate) fn quiet(&self) -> u64 {
        self.now.saturating_sub(self.ended) / SECOND
    }

    // In how many seconds the other rows end: each takes as long as those that ran since the oldest mark took on average, and as
    // long as the next one is waited for is taken off, but no more than it takes itself.
    //
    // Only the ends of trials that ran are marked, so ignored rows make a run neither faster nor slower, and while nothing ends
    // the average stays what it was: a trial that hangs holds the estimate still. Less than a second is not shown.
    pub(crate) fn left(&self, rows: u64) -> Option<u64> {
        if self.now.saturating_sub(self.started) < SURE || rows == 0 {
            return None;
        }
        let mark = self.marks[self.turn % SPAN];
        let nanos = self.ran_at.saturating_sub(mark.at);
        let ran = self.ran.saturating_sub(mark.ran);
        if ran == 0 {
            return None;
        }
        let all = u128::from(rows) * u128::from(nanos) / u128::from(ran);
        let waited = self.now.saturating_sub(self.ran_at).min(nanos / ran);
        let left = all.saturating_sub(u128::from(waited)) / u128::from(SECOND);
        u64::try_from(left).ok().filter(|left| *left > 0)
    }
}
