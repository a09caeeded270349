//! Joins reports, with hashes of any kind, and shows a fault of joining.
use super::hashing::{OneBucket, add_hundred, usual_hashes};
use mimic_events::Report;
use mimic_join::{JoinFault, Refusal, joined};
use std::alloc::{AllocError, Global};
use std::hash::BuildHasher;
use std::test::Fail;

// Joins reports. This is the one place that calls `joined`, and it promises nothing, so that no test carries that contract.
pub(super) fn join<S: BuildHasher + Drop>(
    alloc: Global,
    hash_builder: S,
    reports: Vec<Report>,
    shards: usize,
    equal_names: bool,
) -> Result<Result<Report, Refusal>, AllocError> {
    joined(alloc, hash_builder, reports, shards, equal_names)
}

// What is shown for a fault of the reports A, B and C.
pub(super) fn shown(alloc: Global, fault: &JoinFault) -> Result<String, Fail> {
    let mut names = Vec::new(alloc);
    for name in ["A", "B", "C"] {
        names.push(String::from_str(alloc, name)?)?;
    }
    Ok(format!(in alloc; "{}", fault.with_names(&names))?)
}

// A report of three hundred trials, a hundred with each prefix.
fn report_of(alloc: Global, prefixes: [&str; 3]) -> Result<Report, AllocError> {
    let mut rows = Vec::new(alloc);
    for prefix in prefixes {
        add_hundred(alloc, &mut rows, prefix)?;
    }
    Ok(Report {
        rows,
        filtered_out: 0,
        nanos: 0,
    })
}

// Joins two such reports. The first one has two trials of each name `a0` to `a99`.
fn join_with<S: BuildHasher + Drop>(
    alloc: Global,
    hash_builder: S,
    second: [&str; 3],
) -> Result<Result<Report, Refusal>, AllocError> {
    let reports = vec![in alloc;
        report_of(alloc, ["a", "a", "b"])?,
        report_of(alloc, second)?,
    ]?;
    join(alloc, hash_builder, reports, 2, false)
}

// The prefixes of the second report, and why it is refused.
static SECONDS: [([&str; 3], Option<Refusal>); 2] = [
    (["c", "c", "d"], None),
    (
        ["c", "b", "d"],
        Some(Refusal::NamedTwice { place: 1, row: 100 }),
    ),
];

// Equal names are found whatever the hashes are, and only these.
#[test]
fn finds_names_by_any_hashes(rt: HostRuntime) -> Result<(), Fail> {
    let alloc = rt.alloc();
    for (second, refusal) in &SECONDS {
        let joined = join_with(alloc, usual_hashes(), *second)?;
        assert!(rt; join_with(alloc, OneBucket, *second)? == joined);
        assert!(rt; joined.err() == *refusal);
    }
    Ok(())
}
