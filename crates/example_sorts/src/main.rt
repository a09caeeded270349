//! Tests and benchmarks as plain data: each way to sort against each list of numbers.
#![tactic(auto)]

mod numbers;
mod sorting;

use libtest_mimic::{RunError, TestInfo, Trial};
use mimic_main::{Status, run_program};
use numbers::Numbers;
use sorting::{Sorting, Way};
use std::alloc::AllocError;
use std::rt::Clock;

fn main(rt: HostRuntime) -> Status {
    run_program(&rt, "example_sorts", trials(rt))
}

// A function can make trials and return them, since no box holds what they run.
fn trials<M: Clock + AllocGlobal + Copy + Drop>(rt: M) -> Result<Vec<Trial<Sorting<M>>>, RunError> {
    let mut trials = Vec::new(rt.alloc());
    for way in Way::ALL {
        trials.append(&mut trials_of(rt, way)?)?;
    }
    Ok(trials)
}

// The tests and the benchmarks of one way.
fn trials_of<M: Clock + AllocGlobal + Copy + Drop>(
    rt: M,
    way: Way,
) -> Result<Vec<Trial<Sorting<M>>>, AllocError> {
    let mut trials = Vec::new(rt.alloc());
    for numbers in Numbers::ALL {
        let sorting = Sorting { rt, way, numbers };
        trials.push(test(sorting)?)?;
        trials.push(benchmark(sorting)?)?;
    }
    Ok(trials)
}

fn test<M: AllocGlobal + Copy + Drop>(
    sorting: Sorting<M>,
) -> Result<Trial<Sorting<M>>, AllocError> {
    let alloc = sorting.rt.alloc();
    let name = format!(in alloc; "{}", sorting.numbers)?;
    let kind = String::from_str(alloc, sorting.way.name())?;
    let is_slow = sorting.numbers.are_many();
    Ok(
        Trial::new(name, sorting)
            .with_kind(kind)
            .with_ignored_flag(is_slow),
    )
}

fn benchmark<M: AllocGlobal + Copy + Drop>(
    sorting: Sorting<M>,
) -> Result<Trial<Sorting<M>>, AllocError> {
    let alloc = sorting.rt.alloc();
    let info = TestInfo {
        name: format!(in alloc; "time of {}", sorting.numbers)?,
        kind: String::from_str(alloc, sorting.way.name())?,
        is_ignored: sorting.numbers.are_many(),
        is_bench: true,
    };
    Ok(Trial::from_parts(info, sorting))
}
