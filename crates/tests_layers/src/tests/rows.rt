//! The rows that a worker returns, by themselves.
use super::Plain;
use mimic_pool::Rows;
use std::alloc::{AllocError, Global};
use std::test::Fail;

// Outcomes that fit in a mark, and such that don't.
const OUTCOMES: [Plain; 5] = [
    Plain::Passed,
    Plain::Failed(Some("Woops")),
    Plain::Ignored,
    Plain::Measured(32, 3),
    Plain::Failed(None),
];

// The outcome of the row at this place.
fn outcome_at(place: usize) -> Plain {
    OUTCOMES[place % OUTCOMES.len()]
}

// Adds rows at the places from this one up to that, each into room that is made for it.
fn add(alloc: Global, rows: &mut Rows, from: usize, to: usize) -> Result<(), AllocError> {
    for place in from..to {
        let outcome = outcome_at(place).outcome(alloc)?;
        rows.reserve(1)?;
        rows.push_reserved(place, outcome);
    }
    Ok(())
}

// Whether the rows at those places come next.
fn gives(rows: &mut Rows, from: usize, to: usize) -> bool {
    let mut same = true;
    for place in from..to {
        let Some((at, outcome)) = rows.next() else {
            return false;
        };
        same = same && at == place && outcome_at(place).is(&outcome);
    }
    same
}

// Rows are kept when room is made, and those that were taken are not given again; so too if there is no memory for the room.
#[test]
fn makes_room_for_more_rows(rt: HostRuntime) -> Result<(), Fail> {
    let alloc = rt.alloc();
    let mut rows = Rows::with_capacity(alloc, 2)?;
    add(alloc, &mut rows, 0, 7)?;
    assert!(rt; gives(&mut rows, 0, 3));
    add(alloc, &mut rows, 7, 40)?;
    rows.reserve(1_000)?;
    assert!(rt; rows.reserve(usize::MAX).is_err());
    assert!(rt; rows.len() == 37);
    add(alloc, &mut rows, 40, 50)?;
    assert!(rt; gives(&mut rows, 3, 50));
    assert!(rt; rows.next().is_none());
    Ok(())
}
