//! How long each trial runs, and which one runs now.
use crate::shared_board::SharedBoard;
use std::rt::Clock;

// Marks and times the trials that a thread runs, if the board has room for that.
#[derive(Clone, Copy)]
pub(crate) struct Timer<'a, R> {
    pub(crate) rt: &'a R,
    pub(crate) board: &'a SharedBoard,
    // The number of the thread's cell.
    pub(crate) cell: usize,
}

impl<'a, R: Clock> Timer<'a, R> {
    // Marks that the trial at the place runs. Returns the clock's nanoseconds before its runner is called; `None` if the board has no
    // room for times, or if the clock can't be read.
    #[inline]
    pub(crate) fn begin(&self, place: usize) -> Option<u64> {
        if let Some(cell) = self.board.cell(self.cell) {
            cell.set(place);
        }
        if self.board.is_timed() {
            nanos(self.rt)
        } else {
            None
        }
    }

    // Marks that no trial runs. Notes how long the one at the place has run since that reading: 0 if the clock went back.
    #[inline]
    pub(crate) fn end(&self, place: usize, started: Option<u64>) {
        if let Some(cell) = self.board.cell(self.cell) {
            cell.clear();
        }
        let Some(started) = started else { return };
        if let Some(ended) = nanos(self.rt) {
            self.board.note(place, ended.saturating_sub(started));
        }
    }
}

// The nanoseconds that the clock shows. `None` if it can't be read, or shows 2^64 nanoseconds or more.
fn nanos<R: Clock>(rt: &R) -> Option<u64> {
    let now = rt.monotonic().ok()?;
    u64::try_from(now.as_nanos()).ok()
}
