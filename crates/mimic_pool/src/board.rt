//! The board that workers report rows to.
ghost use Rattle.std.specs.Prelude.{◌≡◌, ◌≢◌, ◌++◌, ◌∷◌, [], ◌↔◌, ◌<◌, ◌≤◌, IfErr, IfNone, IfOk, IfSome, IsOk, IsTrue, OnOk, List, slice_get};
ghost use Rattle.mimic_trial.specs.Places.{Placed};
ghost use Rattle.mimic_pool.specs.Arrivals.{first_arrivals};
ghost use Rattle.mimic_pool.specs.Board.{Agrees, HandsOnFirstReports, HasHistory, accepts, after_close, after_report, after_take, empty_board};

use crate::rows::Rows;
use mimic_trial::Outcome;
use std::alloc::{AllocError, Global};
use std::marker::Model;

/// Rows that workers reported, each a place and the outcome there, and how many of the workers have closed. Contracts see
/// both, and which rows wait to be taken.
///
/// A report of a place is accepted once. The rows are taken in the order of their reports.
#[derive(Drop)]
pub struct Board {
    rows: Rows,
    // For each place whether it was reported.
    reported: Vec<bool>,
    workers: usize,
    closed: usize,
}

impl Model for Board {
    ghost use Rattle.mimic_pool.specs.Board.{Posted};
    ghost use Rattle.mimic_pool.specs.Posted.{IsBoard, posted};

    ghost Value = { Posted };

    ghost view = { posted };

    ghost invariant = { IsBoard };
}

impl Board {
    /// A board of `n` places for this many workers. Nothing was reported, and no worker has closed. All of its memory is taken
    /// here.
    ///
    /// Whatever calls workers and the taking thread make on it from here on, in whatever order: the rows that were taken, and
    /// after them those that still wait, are of each place the first report, in the order of the reports. So no row that was
    /// accepted is lost, doubled, changed or overtaken.
    pub fn new(alloc: Global, n: usize, workers: usize) -> Result<Board, AllocError>
        ensures empty { IfOk result (λ board. board ≡ empty_board n workers) }
        ensures agrees { IfOk result (λ board. Agrees board []) }
        ensures law { OnOk result HandsOnFirstReports }
    {
        let rows = Rows::with_capacity(alloc, n)?;
        let reported = vec![in alloc; false; n]?;
        Ok(Board {
            rows,
            reported,
            workers,
            closed: 0,
        })
    }

    /// Accepts the first report of a place of the board: the row waits after the others. Any other report is handed back,
    /// and changes nothing.
    pub fn report(&mut self, place: usize, outcome: Outcome) -> Result<(), Outcome>
        ensures accepted { IsOk result ↔ IsTrue (accepts self.old place) }
        ensures handed_back { IfErr result (λ back. back ≡ outcome) }
        ensures board { self.new ≡ after_report self.old (place, outcome) }
        ensures agrees { (reports : List Placed) → Agrees self.old reports
            → Agrees self.new (reports ++ (place, outcome) ∷ []) }
    {
        if place >= self.reported.len() || self.reported[place] {
            return Err(outcome);
        }
        self.reported[place] = true;
        self.rows.push_reserved(place, outcome);
        Ok(())
    }

    /// Takes the row that waits longest, if one does.
    pub fn take(&mut self) -> Option<(usize, Outcome)>
        ensures none { IfNone result ((self.old.waiting ≡ []) × (self.new ≡ self.old)) }
        ensures some { IfSome result (λ row. self.old.waiting ≡ row ∷ self.new.waiting) }
        ensures board { self.new ≡ after_take self.old }
        ensures agrees { (reports : List Placed) → Agrees self.old reports
            → Agrees self.new reports }
        ensures row { (reports : List Placed) → Agrees self.old reports
            → result ≡ slice_get (first_arrivals self.old.places reports) self.old.taken }
    {
        self.rows.next()
    }

    /// Closes one more worker. If all have closed, nothing changes.
    pub fn close_one(&mut self)
        ensures board { self.new ≡ after_close self.old }
        ensures agrees { (reports : List Placed) → Agrees self.old reports
            → Agrees self.new reports }
    {
        if self.closed < self.workers {
            self.closed += 1;
        }
    }

    /// Whether all workers have closed.
    pub fn all_closed(&self) -> bool
        ensures { IsTrue result ↔ (self.now.closed ≡ self.now.workers) }
    {
        self.closed == self.workers
    }

    /// Whether a row waits to be taken.
    pub fn has_waiting(&self) -> bool
        ensures { IsTrue result ↔ (self.now.waiting ≢ []) }
    {
        self.rows.len() > 0
    }

    /// All places that were reported, in the order of their reports.
    pub fn order(&self) -> &[usize]
        ensures order { result.now ≡ self.now.order }
        ensures history { HasHistory self.now }
    {
        self.rows.order()
    }

    /// How many of the rows that were reported were taken.
    pub fn taken(&self) -> usize
        ensures taken { result ≡ self.now.taken }
        ensures history { HasHistory self.now }
    {
        self.rows.taken()
    }
}
