//! What no clause covers of faults, refused memory, hostile texts and worker threads: which answer comes, how much is written
//! then, and what was still asked of writers and runners. Lengths, places and texts are worked by hand from the format's rules;
//! a report that was cut short is compared with the whole one, whose text the tests of whole runs know.
mod arrivals;
mod dropped;
mod faulty_writer;
mod lists;
mod memory;
mod refusals;
mod refused_workers;
mod requests;
mod runs;
mod texts;
mod threads;
mod times;
mod writers;

// A text of four parts, and the same with the second and the third the other way round.
macro_rules! in_both_orders {
    ($title:literal, $first:literal, $second:literal, $end:literal) => {
        [
            concat!($title, $first, $second, $end),
            concat!($title, $second, $first, $end),
        ]
    };
}

use in_both_orders;

// A text of five parts, with the three in the middle in each order.
macro_rules! in_all_orders {
    ($title:literal, $first:literal, $second:literal, $third:literal, $end:literal) => {
        [
            concat!($title, $first, $second, $third, $end),
            concat!($title, $first, $third, $second, $end),
            concat!($title, $second, $first, $third, $end),
            concat!($title, $second, $third, $first, $end),
            concat!($title, $third, $first, $second, $end),
            concat!($title, $third, $second, $first, $end),
        ]
    };
}

use in_all_orders;
