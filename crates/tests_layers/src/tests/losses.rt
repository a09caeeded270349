//! A desk that gets a list with losses, repeats and strangers.
ghost use Rattle.std.specs.Prelude.{◌≡◌, IfOk, vec_len};

use super::workers::shares_of_five;
use super::{Plain, numbered};
use mimic_pool::{Arrival, Desk, Reports, Untold, work};
use mimic_trial::Outcome;
use std::alloc::{AllocError, Global};
use std::test::Fail;

// Leaves out every second row. It keeps each other one twice, and then its outcome with a place that the desk doesn't have.
#[derive(Drop)]
struct Losing {
    told: u64,
    places: usize,
    arrivals: Vec<(usize, Outcome)>,
    alloc: Global,
}

impl Losing {
    fn keep(&mut self, place: usize, outcome: &Outcome) -> Result<(), AllocError>
        ensures { self.new.told ≡ self.old.told }
    {
        let copy = outcome.try_clone(self.alloc)?;
        self.arrivals.push((place, copy))?;
        Ok(())
    }
}

impl Reports for Losing {
    ghost told_of = { λ reports. reports.told };

    ghost refused_by = { λ _. 0 };

    ghost heard = { λ _ _. Unit {0} };

    fn tell(&mut self, place: usize, outcome: &Outcome) -> Result<(), Untold> {
        self.told += 1;
        if self.told % 2 == 1 {
            let _ = self.keep(place, outcome);
            let _ = self.keep(place, outcome);
            let _ = self.keep(self.places, outcome);
        }
        Ok(())
    }

    fn refusals(&self) -> u64 {
        0
    }

    fn told(&self) -> u64 {
        self.told
    }
}

// Lets the next row come to the desk, if there is one. The list is in reverse order, so the next is its last.
fn next_arrives(desk: &mut Desk, list: &mut Vec<(usize, Outcome)>) -> Option<Arrival>
    ensures { desk.new.places ≡ desk.old.places }
{
    match list.pop() {
        Some((place, outcome)) => Some(desk.arrive(place, outcome)),
        None => None,
    }
}

// Whether a desk takes the three rows that the list has for one that was reported: as the first at its place, as one that
// came before, and as a stranger.
fn three_arrive(desk: &mut Desk, list: &mut Vec<(usize, Outcome)>) -> bool
    ensures { desk.new.places ≡ desk.old.places }
{
    next_arrives(desk, list) == Some(Arrival::First)
        && next_arrives(desk, list) == Some(Arrival::Again)
        && next_arrives(desk, list) == Some(Arrival::Stranger)
}

// The outcome at each place. The last one is ignored, whatever its runner is.
const OUTCOMES: [Plain; 5] = [
    Plain::Measured(0, 0),
    Plain::Measured(1, 0),
    Plain::Measured(2, 0),
    Plain::Measured(3, 0),
    Plain::Ignored,
];

// The places that arrived, and then those that are missing.
const ORDER: [usize; 5] = [0, 4, 1, 2, 3];

// How many arrived.
const ARRIVED: usize = 3;

// What arrives of the rows of two workers: the worker's that is dealt first comes last, and the list is in reverse order.
fn lossy_list(alloc: Global) -> Result<Vec<(usize, Outcome)>, Fail> {
    let mut list = Vec::new(alloc);
    for share in shares_of_five(alloc, OUTCOMES)? {
        let room = Vec::with_capacity(alloc, share.len())?;
        let mut reports = Losing {
            told: 0,
            places: 5,
            arrivals: Vec::new(alloc),
            alloc,
        };
        work(share, false, &mut reports, room);
        if reports.arrivals.len() as u64 != reports.told.div_ceil(2).saturating_mul(3) {
            return Err(Fail::new("no memory for an arrival"));
        }
        list.append(&mut reports.arrivals)?;
    }
    list.reverse();
    Ok(list)
}

// What the workers return, by place.
fn returned(alloc: Global) -> Result<Vec<Outcome>, AllocError>
    ensures { IfOk result (λ outcomes. vec_len outcomes ≡ 5) }
{
    Ok(vec![in alloc;
        numbered(0),
        numbered(1),
        numbered(2),
        numbered(3),
        Outcome::Ignored,
    ]?)
}

// Whether the desk shows at the place what its worker returned, or nothing if the row was lost.
fn shows(desk: &Desk, place: usize, has_arrived: bool) -> bool {
    match (desk.outcome(place), OUTCOMES.get(place)) {
        (Some(outcome), Some(returned)) => has_arrived && returned.is(outcome),
        (None, _) => !has_arrived,
        _ => false,
    }
}

// Of two workers' rows 0, 2, 4 and 1, 3 the list has 0, 4 and 1, each twice with a stranger behind. The desk keeps those, the
// others are missing, and it agrees with what the workers return, of which those that are missing arrive then.
#[test]
fn settles_a_list_with_losses(rt: HostRuntime) -> Result<(), Fail> {
    let mut list = lossy_list(rt.alloc())?;
    let mut desk = Desk::new(rt.alloc(), 5)?;
    assert!(rt; three_arrive(&mut desk, &mut list));
    assert!(rt; three_arrive(&mut desk, &mut list));
    assert!(rt; three_arrive(&mut desk, &mut list));
    assert!(rt; list.is_empty());
    assert!(rt; desk.order() == ORDER.split_at(ARRIVED).0);
    for row in 0..ORDER.len() {
        assert!(rt; shows(&desk, ORDER[row], row < ARRIVED));
    }
    let outcomes = returned(rt.alloc())?;
    assert!(rt; desk.settle(&outcomes).is_ok());
    desk.arrive_missing(outcomes);
    assert!(rt; desk.order() == ORDER.as_slice());
    for place in 0..ORDER.len() {
        assert!(rt; shows(&desk, place, true));
    }
    Ok(())
}
