//! How long tests wait.
use crate::xorshift::rounds;
use std::time::Duration;

/// How long each test waits.
#[derive(Clone, Copy, PartialEq, Eq)]
pub(crate) enum Waits {
    // All wait this number of milliseconds.
    Alike(u64),
    // Each one of sixteen times of a lognormal distribution, by its number.
    Lognormal,
    // Every fourth 30 milliseconds, the others 3.
    EveryFourth,
    // The one in the middle a second, the others 3 milliseconds.
    OneLong,
}

// The quantiles at (i + 1/2) / 16 of the lognormal distribution with a median of 6 milliseconds and a sigma of 1, in
// microseconds.
const LOGNORMAL: [u64; 16] = [
    931, 1606, 2185, 2760, 3362, 4013, 4733, 5547, 6489, 7606, 8971, 10707, 13042, 16473, 22416,
    38648,
];

impl Waits {
    /// What the word behind `uneven` asks for, if it is one.
    pub(crate) fn uneven(how: &str) -> Option<Waits> {
        match how {
            "lognormal" => Some(Waits::Lognormal),
            "fourth" => Some(Waits::EveryFourth),
            "one" => Some(Waits::OneLong),
            _ => None,
        }
    }

    /// How long the test of this number waits, of `count` tests.
    pub(crate) fn time(self, number: usize, count: usize) -> Duration {
        match self {
            Waits::Alike(millis) => Duration::from_millis(millis),
            Waits::Lognormal => lognormal_time(number),
            Waits::EveryFourth if number % 4 == 3 => Duration::from_millis(30),
            Waits::OneLong if number == count / 2 => Duration::from_secs(1),
            Waits::EveryFourth | Waits::OneLong => Duration::from_millis(3),
        }
    }
}

// The time of the test of this number: three rounds mix the number, and the four highest bits of that choose the time.
fn lognormal_time(number: usize) -> Duration {
    let mixed = rounds((number as u64).wrapping_add(1), 3);
    Duration::from_micros(LOGNORMAL[(mixed >> 60) as usize])
}
