//! The desk where outcomes arrive from the workers.
ghost use Rattle.std.specs.Prelude.{◌≡◌, ◌-◌, ◌++◌, ◌∷◌, [], ◌↔◌, ◌<◌, ◌≤◌, All, IfErr, IfOk, IsTrue, List, MatchResult, OnOk, Some, length, map, slice_get, slice_index_or, vec_capacity, vec_len, ℕ};
ghost use Rattle.std.specs.Iterator.{YieldsFirst, item_count};
ghost use Rattle.std.specs.List.{range_with_len};
ghost use Rattle.std.specs.List.Sorted.{IsPermutation};
ghost use Rattle.std.specs.Option.{option_copied};
ghost use Rattle.mimic_trial.specs.Places.{Placed, placed_at, places_of};
ghost use Rattle.mimic_trial.specs.declared.outcome.Outcome.{Outcome as AnOutcome};
ghost use Rattle.mimic_pool.specs.Arrivals.{AgreesAt, arrival_of, arrived_at, first_arrivals, missing_of, order_of, rows_after};
ghost use Rattle.mimic_pool.specs.OutcomeKinds.{kept_of};
ghost use Rattle.mimic_pool.specs.Missing.{free_from, missing_items};
ghost use Rattle.mimic_pool.specs.Returned.{HasAll, StandsFor};
ghost use Rattle.mimic_pool.specs.Rows.{rows_in};
ghost use Rattle.mimic_pool.specs.Numbers.{Begins};

use crate::rows::Rows;
use mimic_trial::Outcome;
use std::alloc::{AllocError, Global};
use std::marker::Model;

/// What a desk answers to an arrival.
#[derive(Clone, Copy, Debug, PartialEq, Eq)]
pub enum Arrival {
    /// It is the first one at its place, and the desk keeps it.
    First,
    /// An outcome arrived at its place before.
    Again,
    /// The desk has no such place.
    Stranger,
}

/// The first arrivals of outcomes at places, counted from 0. Contracts see the number of places, and the first arrivals
/// in the order in which they came.
///
/// Outcomes may be lost on their way, come twice, come from nowhere, and come in any order.
#[derive(Drop)]
pub struct Desk {
    // For each place: 0 if nothing arrived there, else the number of its outcome among these, counted from 1.
    numbers: Vec<usize>,
    // `Passed`, `Ignored`, and behind these two each other outcome that arrived.
    outcomes: Vec<Outcome>,
    order: Vec<usize>,
}

impl Model for Desk {
    ghost use Rattle.mimic_pool.specs.Arrivals.{Arrived};
    ghost use Rattle.mimic_pool.specs.Numbers.{IsDesk, arrived_of};

    ghost Value = { Arrived };

    ghost view = { arrived_of };

    ghost invariant = { IsDesk };
}

impl Desk {
    /// A desk of `n` places at which nothing arrived yet. All of its memory is taken here.
    pub fn new(alloc: Global, n: usize) -> Result<Desk, AllocError>
        ensures { IfOk result (λ desk. desk ≡ record { places = n; rows = [] }) }
    {
        let Some(all) = n.checked_add(2) else {
            return Err(AllocError);
        };
        let numbers = vec![in alloc; 0; n]?;
        let mut outcomes = Vec::with_capacity(alloc, all)?;
        outcomes.push_reserved(Outcome::Passed);
        outcomes.push_reserved(Outcome::Ignored);
        let order = Vec::with_capacity(alloc, n)?;
        Ok(Desk {
            numbers,
            outcomes,
            order,
        })
    }

    /// Takes an arrival. Only the first one at a place of the desk changes it.
    pub fn arrive(&mut self, place: usize, outcome: Outcome) -> Arrival
        ensures answer { result ≡ arrival_of self.old place }
        ensures places { self.new.places ≡ self.old.places }
        ensures rows { self.new.rows ≡ rows_after self.old.places self.old.rows (place, outcome) }
        ensures history { (arrivals : List Placed)
            → self.old.rows ≡ first_arrivals self.old.places arrivals
            → self.new.rows ≡ first_arrivals self.old.places (arrivals ++ (place, outcome) ∷ []) }
    {
        if place >= self.numbers.len() {
            return Arrival::Stranger;
        }
        if self.numbers[place] != 0 {
            return Arrival::Again;
        }
        self.numbers[place] = numbered(outcome, &mut self.outcomes);
        self.order.push_reserved(place);
        Arrival::First
    }

    /// The first outcome that arrived at the place.
    pub fn outcome(&self, place: usize) -> Option<&Outcome>
        ensures { option_copied result ≡ arrived_at place self.now.rows }
    {
        let number = *self.numbers.get(place)?;
        if number == 0 {
            return None;
        }
        Some(&self.outcomes[number - 1])
    }

    /// The places of the first arrivals, in the order in which they came. They and those that are missing are all places, each
    /// once.
    pub fn order(&self) -> &[usize]
        ensures places { result.now ≡ places_of self.now.rows }
        ensures whole { IsPermutation (places_of self.now.rows ++ missing_of self.now)
            (range_with_len 0 self.now.places) }
    {
        self.order.as_slice()
    }

    /// The places at which nothing arrived, rising. Those of `order` and then these are all places, each once.
    pub fn missing(&self) -> Missing<'_>
        ensures places { missing_items result ≡ missing_of self.now }
        ensures order { (arrivals : List Placed)
            → self.now.rows ≡ first_arrivals self.now.places arrivals
            → places_of self.now.rows ++ missing_items result ≡ order_of self.now.places arrivals }
        ensures whole { IsPermutation (places_of self.now.rows ++ missing_items result)
            (range_with_len 0 self.now.places) }
    {
        Missing {
            numbers: self.numbers.as_slice(),
            next: 0,
        }
    }

    /// Compares the first arrivals with the outcomes that workers returned: `joined` has that of each place at its index. An
    /// `Err` names the least place that differs. Places at which nothing arrived are passed over.
    pub fn settle(&self, joined: &[Outcome]) -> Result<(), usize>
        requires { length joined.now ≡ self.now.places }
        ensures settled { MatchResult result
            (λ _. (place : ℕ) → AgreesAt self.now.rows joined.now place)
            (λ differs. (¬ AgreesAt self.now.rows joined.now differs)
            × ((place : ℕ) → place < differs → AgreesAt self.now.rows joined.now place)) }
        ensures rows { OnOk result
            (self.now.rows ≡ placed_at (places_of self.now.rows) joined.now) }
        ensures below { IfErr result (λ place. place < self.now.places) }
    {
        for place in 0..self.numbers.len() {
            if !agrees(self.outcome(place), &joined[place]) {
                return Err(place);
            }
        }
        Ok(())
    }

    /// Whether something arrived at each place, and each of the rows that workers returned is what arrived at its place.
    /// Then the desk has all outcomes, and the rows need not be put at their places.
    pub fn has_all(&self, joined: &[Rows]) -> bool
        ensures all { IsTrue result ↔ HasAll self.now (map rows_in joined.now) }
        ensures outcomes { IsTrue result → StandsFor self.now (map rows_in joined.now) }
    {
        if self.order.len() < self.numbers.len() {
            return false;
        }
        for rows in joined {
            if !rows.have_arrived(self) {
                return false;
            }
        }
        true
    }

    /// Lets an outcome arrive at each place at which nothing has, in rising order: the one that `outcomes` has at that index.
    pub fn arrive_missing(&mut self, outcomes: Vec<Outcome>)
        requires { vec_len outcomes ≡ self.old.places }
        ensures places { self.new.places ≡ self.old.places }
        ensures rows { self.new.rows ≡ self.old.rows ++ placed_at (missing_of self.old) outcomes.items }
        ensures whole { IsPermutation (places_of self.new.rows) (range_with_len 0 self.new.places) }
    {
        if self.order.len() == self.numbers.len() {
            return;
        }
        let mut place = 0;
        for outcome in outcomes {
            // If something arrived there before, this changes nothing.
            self.arrive(place, outcome);
            place += 1;
        }
    }

    /// The first arrival of this number, counted from 0 in the order in which they came: its place, and its outcome. There must be
    /// one, as at an index of a slice.
    pub fn row(&self, number: usize) -> (usize, &Outcome)
        requires { number < length self.now.rows }
        ensures { slice_get self.now.rows number ≡ Some (result.0, result.1.now) }
    {
        let place = self.order[number];
        (place, &self.outcomes[self.numbers[place] - 1])
    }
}

/// The places of a desk at which nothing arrived, rising.
#[derive(Drop)]
pub struct Missing<'a> {
    numbers: &'a [usize],
    next: usize,
}

impl<'a> Iterator for Missing<'a> {
    type Item = usize;

    ghost next_gives = { YieldsFirst missing_items };

    ghost remaining = { item_count missing_items };

    fn next(&mut self) -> Option<usize> {
        while self.next < self.numbers.len() {
            let place = self.next;
            self.next += 1;
            if self.numbers[place] == 0 {
                return Some(place);
            }
        }
        None
    }
}

// The number of the outcome, which is put behind the others if it isn't one of the first two.
fn numbered(outcome: Outcome, outcomes: &mut Vec<Outcome>) -> usize
    requires begins { Begins outcomes.old.items }
    requires room { vec_len outcomes.old < vec_capacity outcomes.old }
    ensures outcomes { outcomes.new.items ≡ outcomes.old.items ++ kept_of outcome }
    ensures room { vec_capacity outcomes.new ≡ vec_capacity outcomes.old }
    ensures number { (1 ≤ result) × (slice_get outcomes.new.items (result - 1) ≡ Some outcome) }
{
    match outcome {
        Outcome::Passed => 1,
        Outcome::Ignored => 2,
        Outcome::Failed(_) | Outcome::Measured(_) => {
            outcomes.push_reserved(outcome);
            outcomes.len()
        }
    }
}

// Whether nothing arrived, or this outcome.
fn agrees(found: Option<&Outcome>, joined: &Outcome) -> bool
    ensures { IsTrue result ↔ ((o : AnOutcome) → option_copied found.entry ≡ Some o
        → joined.now ≡ o) }
{
    match found {
        Some(outcome) => *joined == *outcome,
        None => true,
    }
}
