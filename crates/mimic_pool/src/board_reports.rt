//! Reports to a board.
ghost use Rattle.std.specs.Prelude.{◌≡◌};
ghost use Rattle.mimic_pool.specs.Reports.{HasCountedAll, refused_to, told_to};

use crate::reports::{Counts, Reports, Untold};
use crate::shared_board::SharedBoard;
use crate::timer::Timer;
use mimic_trial::Outcome;
use std::alloc::Global;
use std::rt::Clock;
use std::sync::{Arc, Wait};

/// Rows of which copies are reported to the board that all workers share. The worker closes when this is dropped, whether or
/// not its rows were reported.
///
/// A row is refused if no copy of it can be made, or if the board hands it back.
pub struct BoardReports<R: Wait + Drop> {
    rt: R,
    alloc: Global,
    board: Arc<SharedBoard>,
    // The number of the cell in which the worker marks the trial that it runs.
    cell: usize,
    counts: Counts,
}

impl<R: Wait + Drop> BoardReports<R> {
    // Nothing was reported yet.
    pub(crate) fn new(rt: R, alloc: Global, board: Arc<SharedBoard>) -> Self
        ensures told { told_to result ≡ 0 }
        ensures refusals { refused_to result ≡ 0 }
    {
        let cell = board.next_cell();
        BoardReports {
            rt,
            alloc,
            board,
            cell,
            counts: Counts::new(),
        }
    }

    // Marks and times the worker's trials.
    fn timer(&self) -> Timer<'_, R> {
        Timer {
            rt: &self.rt,
            board: &self.board,
            cell: self.cell,
        }
    }
}

impl<R: Wait + Drop> Drop for BoardReports<R> {
    fn drop(self) {
        let BoardReports {
            rt,
            alloc: _,
            board,
            cell: _,
            counts: _,
        } = self;
        board.close_one(&rt);
    }
}

impl<R: Wait + Clock + Drop> Reports for BoardReports<R> {
    ghost told_of = { told_to };

    ghost refused_by = { refused_to };

    ghost heard = { HasCountedAll };

    fn tell(&mut self, place: usize, outcome: &Outcome) -> Result<(), Untold> {
        // The copy is made before the lock is asked for.
        let is_told = match outcome.try_clone(self.alloc) {
            Ok(copy) => self.board.report(&self.rt, place, copy).is_ok(),
            Err(_) => false,
        };
        self.counts.count(is_told)
    }

    fn begin(&self, place: usize) -> Option<u64> {
        self.timer().begin(place)
    }

    fn end(&self, place: usize, started: Option<u64>) {
        self.timer().end(place, started);
    }

    fn refusals(&self) -> u64 {
        self.counts.refusals
    }

    fn told(&self) -> u64 {
        self.counts.told
    }
}
