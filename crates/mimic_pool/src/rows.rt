//! Rows in their order, of most of which only the outcome's kind is kept.
ghost use Rattle.std.specs.Prelude.{◌≡◌, ◌++◌, ◌∷◌, [], ◌+◌, ◌≤◌, ◌↔◌, IfNone, IfOk, IfSome, IsTrue, OnOk, Some, drop, length, map, vec_len};
ghost use Rattle.std.specs.Option.{option_copied};
ghost use Rattle.std.specs.VecDeque.{deque_items, deque_len};
ghost use Rattle.mimic_pool.specs.Joined.{put_all, put_each};
ghost use Rattle.mimic_pool.specs.OutcomeKinds.{outcome_by, weight_of};
ghost use Rattle.mimic_pool.specs.Returned.{HaveArrived};
ghost use Rattle.mimic_pool.specs.Rows.{rows_in};

use crate::desk::Desk;
use crate::outcome_kind::{OutcomeKind, keep, restored, weight};
use mimic_trial::Outcome;
use std::alloc::{AllocError, Global};
use std::collections::VecDeque;
use std::marker::Model;

/// Rows, each a place and the outcome there: those that a worker returns, or that wait at a board. Contracts see the rows that
/// were not taken, in their order, the places of all, how many were taken, and how many more there is room for.
///
/// A row whose outcome is `Passed` or `Ignored` takes nine bytes.
#[derive(Drop)]
pub struct Rows {
    places: Vec<usize>,
    kinds: Vec<OutcomeKind>,
    // Outcomes of which the kind doesn't say all, of rows that were not taken, in order.
    kept: VecDeque<Outcome>,
    taken: usize,
}

impl Model for Rows {
    ghost use Rattle.mimic_pool.specs.Rows.{Returned};

    ghost Value = { Returned };

    ghost use Rattle.mimic_pool.specs.OutcomeKinds.{AreRows, returned_of};

    ghost view = { returned_of };

    ghost invariant = { AreRows };
}

impl Rows {
    /// Room for `n` rows. All of its memory is taken here.
    pub fn with_capacity(alloc: Global, n: usize) -> Result<Rows, AllocError>
        ensures empty { IfOk result (λ rows. rows.items ≡ []) }
        ensures order { IfOk result (λ rows. rows.order ≡ []) }
        ensures taken { IfOk result (λ rows. rows.taken ≡ 0) }
        ensures room { IfOk result (λ rows. n ≤ rows.room) }
    {
        let kept = VecDeque::with_capacity(alloc, n)?;
        let kinds = Vec::with_capacity(alloc, n)?;
        let places = Vec::with_capacity(alloc, n)?;
        Ok(Rows {
            places,
            kinds,
            kept,
            taken: 0,
        })
    }

    /// Makes room for this many more rows, if there is memory. It makes more than that if there are many rows, so that rows that are
    /// added one by one seldom take memory.
    pub fn reserve(&mut self, more: usize) -> Result<(), AllocError>
        ensures items { self.new.items ≡ self.old.items }
        ensures order { self.new.order ≡ self.old.order }
        ensures taken { self.new.taken ≡ self.old.taken }
        ensures as_much { self.old.room ≤ self.new.room }
        ensures room { OnOk result (more ≤ self.new.room) }
    {
        let len = self.places.len();
        if more <= self.places.capacity() - len {
            return Ok(());
        }
        let growth = more.max(len);
        // The places come last, since there is to be a kind and a kept outcome for each.
        let all = len.saturating_add(growth);
        self.kept
            .reserve_exact(all.saturating_sub(self.kept.len()))?;
        self.kinds.reserve_exact(growth)?;
        self.places.reserve_exact(growth)?;
        Ok(())
    }

    /// How many rows were not taken.
    pub fn len(&self) -> usize
        ensures { result ≡ length self.now.items }
    {
        self.places.len() - self.taken
    }

    /// Adds a row behind the others. There must be room for it.
    pub fn push_reserved(&mut self, place: usize, outcome: Outcome)
        requires { 1 ≤ self.old.room }
        ensures items { self.new.items ≡ self.old.items ++ (place, outcome) ∷ [] }
        ensures order { self.new.order ≡ self.old.order ++ place ∷ [] }
        ensures taken { self.new.taken ≡ self.old.taken }
        ensures room { self.old.room ≡ self.new.room + 1 }
    {
        let kind = keep(outcome, &mut self.kept);
        self.kinds.push_reserved(kind);
        self.places.push_reserved(place);
    }

    /// Takes the first row of those that were not taken.
    pub fn next(&mut self) -> Option<(usize, Outcome)>
        ensures none { IfNone result ((self.old.items ≡ []) × (self.new ≡ self.old)) }
        ensures some { IfSome result (λ row. self.old.items ≡ row ∷ self.new.items) }
        ensures order { self.new.order ≡ self.old.order }
        ensures taken { IfSome result (λ _. self.new.taken ≡ self.old.taken + 1) }
        ensures room { self.new.room ≡ self.old.room }
    {
        if self.taken >= self.places.len() {
            return None;
        }
        let place = self.places[self.taken];
        let outcome = restored(self.kinds[self.taken], &mut self.kept);
        self.taken += 1;
        Some((place, outcome))
    }

    /// The places of all rows that were added, in their order.
    pub fn order(&self) -> &[usize]
        ensures { result.now ≡ self.now.order }
    {
        self.places.as_slice()
    }

    /// How many of the rows that were added were taken.
    pub fn taken(&self) -> usize
        ensures { result ≡ self.now.taken }
    {
        self.taken
    }

    // Whether each of the rows is what arrived at its place.
    pub(crate) fn have_arrived(&self, desk: &Desk) -> bool
        ensures { IsTrue result ↔ HaveArrived desk.now self.now.items }
    {
        let mut kept = 0;
        for number in self.taken..self.places.len() {
            let kind = self.kinds[number];
            if !is_of_kind(desk.outcome(self.places[number]), kind, &self.kept, kept) {
                return false;
            }
            kept += weight(kind);
        }
        true
    }
}

// Whether `found` is the outcome of the kind: the kept one at `index`, if the kind doesn't say all of it.
fn is_of_kind(
    found: Option<&Outcome>,
    kind: OutcomeKind,
    kept: &VecDeque<Outcome>,
    index: usize,
) -> bool
    requires { index + weight_of kind ≤ deque_len kept.now }
    ensures { IsTrue result ↔ (option_copied found.entry ≡ Some (outcome_by kind (drop index (deque_items kept.now)))) }
{
    match kind {
        OutcomeKind::Passed => matches!(found, Some(Outcome::Passed)),
        OutcomeKind::Ignored => matches!(found, Some(Outcome::Ignored)),
        OutcomeKind::Kept => found == kept.get(index),
    }
}

/// Puts the rows that workers returned at their places, and returns the outcomes. A row that has no place there is passed
/// over.
pub fn put_joined(joined: Vec<Rows>, mut outcomes: Vec<Outcome>) -> Vec<Outcome>
    ensures put { result.items ≡ put_each (map rows_in joined.items) outcomes.items }
    ensures len { vec_len result ≡ vec_len outcomes }
{
    for rows in joined {
        outcomes = put_rows(rows, outcomes);
    }
    outcomes
}

// Puts the outcomes at their places. One that has none is passed over.
fn put_rows(mut rows: Rows, mut outcomes: Vec<Outcome>) -> Vec<Outcome>
    ensures put { result.items ≡ put_all rows.items outcomes.items }
    ensures len { vec_len result ≡ vec_len outcomes }
{
    while let Some((place, outcome)) = rows.next() {
        if let Some(old) = outcomes.get_mut(place) {
            *old = outcome;
        }
    }
    outcomes
}
