//! A harness of its own in few lines: a table of sums, of which one is wrong.
#![tactic(auto)]

use libtest_mimic::check_eq;
use mimic_main::{Status, run_program, trials_of_cases};

fn main(rt: HostRuntime) -> Status {
    let alloc = rt.alloc();
    let sums = vec![in alloc;
        ("1 + 1", (1, 1, 2)),
        ("2 + 2", (2, 2, 5)),
        ("7 + 0", (7, 0, 7)),
    ];
    let tests = trials_of_cases(alloc, sums, move |(left, right, total)| {
        check_eq!(in alloc; u16::saturating_add(left, right), total)
    });
    run_program(&rt, "example_sums", tests)
}
