//! The desk, beside a plain computation of what it is to show.
ghost use Rattle.std.specs.Prelude.{◌≡◌, IfOk, vec_len};

use super::{Plain, numbered};
use mimic_pool::{Arrival, Desk};
use mimic_trial::Outcome;
use std::alloc::{AllocError, Global};
use std::process::Abort;
use std::test::Fail;

// Whether the desk shows this outcome at the place, or none.
fn shows_at(desk: &Desk, place: usize, want: Option<Plain>) -> bool {
    match (desk.outcome(place), want) {
        (Some(outcome), Some(plain)) => plain.is(outcome),
        (None, None) => true,
        _ => false,
    }
}

// The outcomes of three places.
fn outcomes_of(alloc: Global, outcomes: [Plain; 3]) -> Result<Vec<Outcome>, AllocError>
    ensures { IfOk result (λ made. vec_len made ≡ 3) }
{
    Ok(vec![in alloc;
        outcomes[0].outcome(alloc)?,
        outcomes[1].outcome(alloc)?,
        outcomes[2].outcome(alloc)?,
    ]?)
}

// What the desk returns if workers return these three outcomes.
fn settled(alloc: Global, desk: &Desk, joined: [Plain; 3]) -> Result<Result<(), usize>, AllocError>
    requires { desk.now.places ≡ 3 }
{
    let joined = outcomes_of(alloc, joined)?;
    Ok(desk.settle(&joined))
}

// Whether the desk shows this row as the one of this number, or none.
fn shows_row(desk: &Desk, number: usize, want: Option<(usize, Plain)>) -> bool {
    if number >= desk.order().len() {
        return want.is_none();
    }
    let (place, outcome) = desk.row(number);
    match want {
        Some((at, plain)) => place == at && plain.is(outcome),
        None => false,
    }
}

// The first two places at which nothing arrived.
fn two_missing(desk: &Desk) -> [Option<usize>; 2] {
    let mut missing = desk.missing();
    let first = missing.next();
    [first, missing.next()]
}

// Whether the desk shows arrivals at the places 2 and 0, which are numbered by them.
fn shows_two_arrivals(desk: &Desk) -> bool {
    desk.order() == [2, 0].as_slice()
        && shows_at(desk, 2, Some(Plain::Measured(2, 0)))
        && shows_at(desk, 1, None)
        && shows_at(desk, 7, None)
        && two_missing(desk) == [Some(1), None]
        && shows_row(desk, 0, Some((2, Plain::Measured(2, 0))))
        && shows_row(desk, 1, Some((0, Plain::Measured(0, 0))))
        && shows_row(desk, 2, None)
}

// What workers may return beside those two arrivals, and what the desk makes of it.
const RETURNED: [([Plain; 3], Result<(), usize>); 2] = [
    (
        [Plain::Measured(0, 0), Plain::Ignored, Plain::Measured(2, 0)],
        Ok(()),
    ),
    (
        [Plain::Ignored, Plain::Ignored, Plain::Measured(2, 0)],
        Err(0),
    ),
];

#[test]
fn keeps_first_arrivals(rt: HostRuntime) -> Result<(), Fail> {
    let mut desk = Desk::new(rt.alloc(), 3)?;
    assert!(rt; desk.arrive(2, numbered(2)) == Arrival::First);
    assert!(rt; desk.arrive(2, numbered(1)) == Arrival::Again);
    assert!(rt; desk.arrive(7, numbered(2)) == Arrival::Stranger);
    assert!(rt; desk.arrive(0, numbered(0)) == Arrival::First);
    assert!(rt; shows_two_arrivals(&desk));
    for (joined, answer) in RETURNED {
        assert!(rt; settled(rt.alloc(), &desk, joined)? == answer);
    }
    Ok(())
}

// The number of the first arrival at the place.
fn first_at(arrivals: &[usize], place: usize) -> Option<usize> {
    for number in 0..arrivals.len() {
        if arrivals[number] == place {
            return Some(number);
        }
    }
    None
}

// What a desk of three places returns for the arrival of this number, if there is one.
fn expected_answer(arrivals: &[usize], number: usize) -> Option<Arrival> {
    let place = *arrivals.get(number)?;
    Some(if place >= 3 {
        Arrival::Stranger
    } else if first_at(arrivals, place) == Some(number) {
        Arrival::First
    } else {
        Arrival::Again
    })
}

// The places that came, in the order of their first arrivals, and then those that are missing; and how many came.
fn expected_order(alloc: Global, arrivals: &[usize]) -> Result<(Vec<usize>, usize), AllocError> {
    let mut order = Vec::new(alloc);
    for number in 0..arrivals.len() {
        let place = arrivals[number];
        if place < 3 && first_at(arrivals, place) == Some(number) {
            order.push(place)?;
        }
    }
    let came = order.len();
    for place in 0..3 {
        if first_at(arrivals, place).is_none() {
            order.push(place)?;
        }
    }
    Ok((order, came))
}

// What a desk of three places shows at the place.
fn expected_at(arrivals: &[usize], place: usize) -> Option<Plain> {
    match first_at(arrivals, place) {
        Some(number) if place < 3 => Some(Plain::Measured(number as u64, 0)),
        _ => None,
    }
}

// The joined outcome at the place: the one that arrived first, or another one if the place is among the changed.
fn joined_at(arrivals: &[usize], changed: [bool; 3], place: usize) -> Plain {
    match expected_at(arrivals, place) {
        Some(arrived) if changed.get(place) != Some(&true) => arrived,
        _ => Plain::Passed,
    }
}

// The least place that arrived and is among the changed.
fn expected_difference(arrivals: &[usize], changed: [bool; 3]) -> Result<(), usize> {
    for place in 0..3 {
        if first_at(arrivals, place).is_some() && changed.get(place) == Some(&true) {
            return Err(place);
        }
    }
    Ok(())
}

// Lets the arrival of this number come to the desk, if there is one.
fn arrives(desk: &mut Desk, arrivals: &[usize], number: usize) -> Option<Arrival>
    ensures { desk.new.places ≡ desk.old.places }
{
    match arrivals.get(number) {
        Some(place) => Some(desk.arrive(*place, numbered(number))),
        None => None,
    }
}

// The places that the desk shows: those that came, and then those that are missing; and how many came.
fn shown_order(alloc: Global, desk: &Desk) -> Result<(Vec<usize>, usize), AllocError> {
    let mut order = Vec::new(alloc);
    order.extend_from_slice(desk.order())?;
    for place in desk.missing() {
        order.push(place)?;
    }
    Ok((order, desk.order().len()))
}

// The row of this number, of all places in this order, if each that didn't arrive is ignored.
fn expected_row(order: &[usize], arrivals: &[usize], number: usize) -> Option<(usize, Plain)> {
    let place = *order.get(number)?;
    Some((
        place,
        expected_at(arrivals, place).unwrap_or(Plain::Ignored),
    ))
}

// The desk shows the arrivals, and then a row of each place.
fn shows(
    rt: &impl Abort,
    alloc: Global,
    mut desk: Desk,
    arrivals: &[usize],
) -> Result<(), AllocError>
    requires { desk.places ≡ 3 }
{
    for place in 0..5 {
        assert!(rt; shows_at(&desk, place, expected_at(arrivals, place)));
    }
    let expected = expected_order(alloc, arrivals)?;
    assert!(rt; shown_order(alloc, &desk)? == expected);
    desk.arrive_missing(outcomes_of(alloc, [Plain::Ignored; 3])?);
    for number in 0..5 {
        assert!(rt; shows_row(&desk, number, expected_row(&expected.0, arrivals, number)));
    }
    Ok(())
}

// Each set of the three places is changed in turn.
fn settles(
    rt: &impl Abort,
    alloc: Global,
    desk: &Desk,
    arrivals: &[usize],
) -> Result<(), AllocError>
    requires { desk.now.places ≡ 3 }
{
    for set in 0..8 {
        let changed = [set % 2 == 1, set / 2 % 2 == 1, set / 4 == 1];
        let joined = [
            joined_at(arrivals, changed, 0),
            joined_at(arrivals, changed, 1),
            joined_at(arrivals, changed, 2),
        ];
        let want = expected_difference(arrivals, changed);
        assert!(rt; settled(alloc, desk, joined)? == want);
    }
    Ok(())
}

// The list of this number among those of `len` arrivals.
fn arrivals_of(alloc: Global, list: usize, len: usize) -> Result<Vec<usize>, AllocError> {
    let mut arrivals = Vec::new(alloc);
    let mut left = list;
    for _ in 0..len {
        arrivals.push(left % 4)?;
        left /= 4;
    }
    Ok(arrivals)
}

// A desk of three places takes the arrivals, and shows what it is to.
fn check_list(rt: &impl Abort, alloc: Global, arrivals: &[usize]) -> Result<(), Fail> {
    let mut desk = Desk::new(alloc, 3)?;
    assert!(rt; arrives(&mut desk, arrivals, 0) == expected_answer(arrivals, 0));
    assert!(rt; arrives(&mut desk, arrivals, 1) == expected_answer(arrivals, 1));
    assert!(rt; arrives(&mut desk, arrivals, 2) == expected_answer(arrivals, 2));
    assert!(rt; arrives(&mut desk, arrivals, 3) == expected_answer(arrivals, 3));
    settles(rt, alloc, &desk, arrivals)?;
    shows(rt, alloc, desk, arrivals)?;
    Ok(())
}

// All 341 lists of up to four arrivals at the places 0 to 3, of which the desk has three.
#[test]
fn shows_each_short_list(rt: HostRuntime) -> Result<(), Fail> {
    for (len, lists) in [(0, 1), (1, 4), (2, 16), (3, 64), (4, 256)] {
        for list in 0..lists {
            let arrivals = arrivals_of(rt.alloc(), list, len)?;
            check_list(&rt, rt.alloc(), &arrivals)?;
        }
    }
    Ok(())
}
