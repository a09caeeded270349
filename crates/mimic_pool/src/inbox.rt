//! What workers have reported, for the one thread that takes it.
ghost use Rattle.std.specs.Prelude.{◌≡◌, ◌≤◌, IfOk, false, is_some};
ghost use Rattle.mimic_pool.specs.Board.{empty_board};
ghost use Rattle.mimic_pool.specs.Inbox.{CanTake, board_of, is_timed};
ghost use Rattle.mimic_pool.specs.Reports.{refused_to, told_to};

use crate::board::Board;
use crate::board_reports::BoardReports;
use crate::running::RunningTrials;
use crate::shared_board::{SharedBoard, zero_times};
use mimic_trial::Outcome;
use std::alloc::{AllocError, Global};
use std::collections::VecDeque;
use std::snapshot::Snapshot;
use std::sync::{Arc, Wait};
use std::thread::yield_now;

// How many rows are taken under one lock at most, so that writing them doesn't ask for it row by row.
const BATCH: usize = 256;

// How often the taking thread lets workers run, at most, before it asks for the lock.
const MOST_TURNS: usize = 32;

/// The rows that workers report to one board, in the order of their reports. Contracts see what the board is for, and not
/// what is behind its lock.
///
/// Only one thread takes them, since an inbox has no copy and `next` may change it. No call keeps the lock.
#[derive(Drop)]
pub struct Inbox {
    board: Arc<SharedBoard>,
    // Rows that were taken from the board, and not yet from the inbox.
    batch: VecDeque<(usize, Outcome)>,
    // How often the taking thread lets workers run before it takes the next batch.
    turns: usize,
    timed: bool,
    // The board before anything was reported.
    empty: Snapshot<Board>,
}

impl Inbox {
    /// An inbox of `n` places for `workers`, none of which has reported.
    pub fn new(alloc: Global, n: usize, workers: usize) -> Result<Inbox, AllocError>
        ensures board { IfOk result (λ inbox. board_of inbox ≡ empty_board n workers) }
        ensures timed { IfOk result (λ inbox. is_timed inbox ≡ false) }
        ensures room { IfOk result (λ inbox. 1 ≤ n → CanTake inbox) }
    {
        Inbox::with_times(alloc, n, workers, false, None)
    }

    /// An inbox as `new` makes it. If it is timed, the workers note there for how many nanoseconds the trial at each place ran. In
    /// `running` they mark which trials run, if anybody looks.
    pub fn with_times(
        alloc: Global,
        n: usize,
        workers: usize,
        timed: bool,
        running: Option<Arc<RunningTrials>>,
    ) -> Result<Inbox, AllocError>
        ensures board { IfOk result (λ inbox. board_of inbox ≡ empty_board n workers) }
        ensures timed { IfOk result (λ inbox. is_timed inbox ≡ timed) }
        ensures room { IfOk result (λ inbox. 1 ≤ n → CanTake inbox) }
    {
        let board = Board::new(alloc, n, workers)?;
        let empty = Snapshot::of(&board);
        let times = zero_times(alloc, if timed { n } else { 0 })?;
        let board = Arc::new(alloc, SharedBoard::new(board, times, running))?;
        let batch = VecDeque::with_capacity(alloc, n.min(BATCH))?;
        Ok(Inbox {
            board,
            batch,
            turns: 0,
            timed,
            empty,
        })
    }

    /// What one of the workers reports its rows to. No memory but that of copies is taken. Nothing is promised of what becomes of
    /// the rows: they are behind a lock.
    pub fn reports<R: Wait + Drop>(
        &self,
        rt: R,
        alloc: Global,
    ) -> Result<BoardReports<R>, AllocError>
        ensures told { IfOk result (λ reports. told_to reports ≡ 0) }
        ensures refusals { IfOk result (λ reports. refused_to reports ≡ 0) }
    {
        Ok(BoardReports::new(rt, alloc, self.board()?))
    }

    // The board that all workers share.
    pub(crate) fn board(&self) -> Result<Arc<SharedBoard>, AllocError> {
        Arc::try_clone(&self.board)
    }

    /// Takes the next row, and waits while there is none and a worker is still to close. `None` says that all have closed
    /// and every row was taken. No contract promises which row it is, nor that there is one: the rows are behind a lock.
    pub fn next<R: Wait>(&mut self, rt: &R) -> Option<(usize, Outcome)>
        ensures timed { is_timed self.new ≡ is_timed self.old }
        ensures room { CanTake self.old → CanTake self.new }
    {
        if self.batch.is_empty() {
            // Whoever asks for the lock keeps a worker from it. So if many rows came and none was left, workers run first, and
            // more come under one lock.
            let_others_run(self.turns);
            let most = self.batch.capacity();
            self.board.take_waiting(rt, most, &mut self.batch);
            let taken = self.batch.len();
            self.turns = if taken < most {
                taken.min(MOST_TURNS)
            } else {
                0
            };
        }
        self.batch.pop_front()
    }

    /// For how many nanoseconds the trial at the place ran, as the worker that ran it noted before it reported the row; 0 if none did.
    /// `None` if the inbox isn't timed. No contract promises which number it is: others write it.
    pub fn time(&self, place: usize) -> Option<u64>
        ensures { is_some result ≡ is_timed self.now }
    {
        if self.timed {
            Some(self.board.time(place))
        } else {
            None
        }
    }
}

fn let_others_run(turns: usize) {
    for _ in 0..turns {
        yield_now();
    }
}
