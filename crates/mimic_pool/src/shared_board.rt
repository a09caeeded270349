//! The board of a run, under its lock.
ghost use Rattle.std.specs.Prelude.{◌≡◌, ◌≢◌, ◌+◌, ◌≤◌, ◌↔◌, [], IfErr, IfOk, IsTrue};
ghost use Rattle.std.specs.VecDeque.{deque_capacity, deque_len};
ghost use Rattle.mimic_pool.specs.Board.{after_report};

use crate::board::Board;
use crate::running::{RunningCell, RunningTrials};
use mimic_trial::Outcome;
use std::alloc::{AllocError, Global};
use std::collections::VecDeque;
use std::sync::atomic::{AtomicU64, Ordering};
use std::sync::{Arc, Condvar, Mutex, MutexGuard, Wait};
use std::thread::yield_now;

// How often a thread lets others run before it sleeps until the lock is released. A call holds the lock for a moment, and to
// sleep and be woken takes much longer.
const YIELDS: u64 = 8;

// The board that all workers share with the one thread that takes their rows. Each call takes the lock once.
#[derive(Drop)]
pub(crate) struct SharedBoard {
    board: Mutex<Board>,
    has_changed: Condvar,
    // How many nanoseconds each trial ran, by its place; empty if nobody asks. A worker notes a time before it reports the row, so
    // whoever has taken the row reads that time.
    times: Vec<AtomicU64>,
    // Where workers mark the trials that they run, if anybody looks.
    running: Option<Arc<RunningTrials>>,
}

impl SharedBoard {
    pub(crate) fn new(
        board: Board,
        times: Vec<AtomicU64>,
        running: Option<Arc<RunningTrials>>,
    ) -> Self {
        SharedBoard {
            board: Mutex::new(board),
            has_changed: Condvar::new(),
            times,
            running,
        }
    }

    // The number of the cell of one more worker.
    pub(crate) fn next_cell(&self) -> usize {
        match &self.running {
            Some(running) => running.next_number(),
            None => 0,
        }
    }

    // The cell of this number, if anybody looks.
    #[inline]
    pub(crate) fn cell(&self, number: usize) -> Option<&RunningCell> {
        match &self.running {
            Some(running) => running.cell(number),
            None => None,
        }
    }

    // Whether there is room for the trials' times.
    pub(crate) fn is_timed(&self) -> bool {
        !self.times.is_empty()
    }

    // Notes how many nanoseconds the trial at the place ran.
    pub(crate) fn note(&self, place: usize, nanos: u64) {
        if let Some(time) = self.times.get(place) {
            time.store(nanos, Ordering::Relaxed);
        }
    }

    // How many nanoseconds the trial at the place ran, 0 if no time was noted there.
    pub(crate) fn time(&self, place: usize) -> u64 {
        match self.times.get(place) {
            Some(time) => time.load(Ordering::Relaxed),
            None => 0,
        }
    }

    fn lock<R: Wait>(&self, rt: &R) -> MutexGuard<'_, Board> {
        for _ in 0..YIELDS {
            if let Some(board) = self.board.try_lock() {
                return board;
            }
            yield_now();
        }
        self.board.lock(rt)
    }

    // Reports the row. One that the board doesn't accept is handed back.
    pub(crate) fn report<R: Wait>(
        &self,
        rt: &R,
        place: usize,
        outcome: Outcome,
    ) -> Result<(), Outcome> {
        let mut board = self.lock(rt);
        let one_waited = report_behind(&mut board, place, outcome)?;
        drop(board);
        if !one_waited {
            self.has_changed.notify_one();
        }
        Ok(())
    }

    // One more worker reports no more.
    pub(crate) fn close_one<R: Wait>(&self, rt: &R) {
        let mut board = self.lock(rt);
        board.close_one();
        let is_last = board.all_closed();
        drop(board);
        if is_last {
            self.has_changed.notify_one();
        }
    }

    // Waits while no row waits and not all workers have closed. Then it takes the rows that wait, but no more than `most`, for
    // which there must be room.
    pub(crate) fn take_waiting<R: Wait>(
        &self,
        rt: &R,
        most: usize,
        rows: &mut VecDeque<(usize, Outcome)>,
    )
        requires room { deque_len rows.old + most ≤ deque_capacity rows.old }
        ensures capacity { deque_capacity rows.new ≡ deque_capacity rows.old }
    {
        let board = self.lock(rt);
        // No wake-up is lost. This thread sleeps only if it saw, under the lock, that no row waits and not all workers have
        // closed. Two things end that: a report while no row waits, and the last close. Each notifies once it has released
        // the lock, and a notification after this thread has released it ends the sleep. A report after a row that waits
        // need not notify, since the first of these has done so or is about to.
        let mut board = self.has_changed.wait_while(rt, board, |board| {
            !board.has_waiting() && !board.all_closed()
        });
        let is_worth_waking = board.has_waiting() || board.all_closed();
        prove!(is_worth_waking);
        for _ in 0..most {
            let Some(row) = board.take() else {
                break;
            };
            rows.push_back_reserved(row);
        }
    }
}

// Reports the row, and returns whether another one waited before it. Both happen under the lock that the caller holds, so no row can
// be taken between them.
fn report_behind(board: &mut Board, place: usize, outcome: Outcome) -> Result<bool, Outcome>
    ensures waited { IfOk result (λ one_waited. IsTrue one_waited ↔ (board.old.waiting ≢ [])) }
    ensures board { board.new ≡ after_report board.old (place, outcome) }
    ensures handed_back { IfErr result (λ back. back ≡ outcome) }
{
    let one_waited = board.has_waiting();
    board.report(place, outcome)?;
    Ok(one_waited)
}

// Room for a time of each of `count` trials.
pub(crate) fn zero_times(alloc: Global, count: usize) -> Result<Vec<AtomicU64>, AllocError> {
    let mut times = Vec::with_capacity(alloc, count)?;
    times.resize_with(count, || AtomicU64::new(0))?;
    Ok(times)
}
