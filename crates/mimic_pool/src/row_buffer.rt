//! Where a worker puts its rows.
ghost use Rattle.std.specs.Prelude.{◌≡◌, ◌++◌, ◌∷◌, ◌+◌, ◌-◌, ◌≤◌, [], ℕ, List, OnOk, vec_capacity, vec_len};
ghost use Rattle.mimic_trial.specs.Places.{Placed};

use crate::rows::Rows;
use mimic_trial::Outcome;
use std::alloc::AllocError;

// What a worker puts its rows into, each a place and the outcome there. No row takes memory.
pub(crate) trait RowBuffer {
    // The rows, in their order.
    ghost rows_in: { Self → List Placed };

    // How many more rows there is room for.
    ghost room_in: { Self → ℕ };

    // Makes room for this many more rows, if there is memory.
    fn reserve(&mut self, rows: usize) -> Result<(), AllocError>
        ensures rows { rows_in self.new ≡ rows_in self.old }
        ensures as_much { room_in self.old ≤ room_in self.new }
        ensures room { OnOk result (rows ≤ room_in self.new) };

    // Puts a row behind the others.
    fn put(&mut self, place: usize, outcome: Outcome)
        requires room { 1 ≤ room_in self.old }
        ensures rows { rows_in self.new ≡ rows_in self.old ++ (place, outcome) ∷ [] }
        ensures room { room_in self.old ≡ room_in self.new + 1 };
}

impl RowBuffer for Vec<(usize, Outcome)> {
    ghost rows_in = { λ rows. rows.items };

    ghost room_in = { λ rows. vec_capacity rows - vec_len rows };

    fn reserve(&mut self, rows: usize) -> Result<(), AllocError> {
        Vec::reserve(self, rows)
    }

    fn put(&mut self, place: usize, outcome: Outcome) {
        self.push_reserved((place, outcome));
    }
}

impl RowBuffer for Rows {
    ghost rows_in = { λ rows. rows.items };

    ghost room_in = { λ rows. rows.room };

    fn reserve(&mut self, rows: usize) -> Result<(), AllocError> {
        Rows::reserve(self, rows)
    }

    fn put(&mut self, place: usize, outcome: Outcome) {
        self.push_reserved(place, outcome);
    }
}
