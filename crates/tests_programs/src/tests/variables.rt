//! The pair of variables that names a shard.
use mimic_main::shard_from_variables;
use mimic_trial::{Shard, Trial, shard_of};
use std::alloc::{AllocError, Global};
use std::test::Fail;

// Good pairs: the total, the index, and both as numbers.
static GOOD: [(&str, &str, usize, usize); 6] = [
    ("1", "0", 1, 0),
    ("4", "0", 4, 0),
    ("4", "3", 4, 3),
    ("0020", "019", 20, 19),
    (
        "18446744073709551615",
        "18446744073709551614",
        usize::MAX,
        usize::MAX - 1,
    ),
    ("00000000000000000000007", "6", 7, 6),
];

#[test]
fn reads_good_pairs(rt: HostRuntime) {
    assert!(rt; shard_from_variables(None, None) == Ok(None));
    for (total, index, count, place) in &GOOD {
        let shard = shard_from_variables(Some(total), Some(index));
        assert!(rt; shard == Ok(Shard::new(*place, *count)), "{total} {index}");
    }
}

// Pairs that name no shard, and what is shown.
static REFUSED: [(Option<&str>, Option<&str>, &str); 9] = [
    (
        Some("4"),
        None,
        "TEST_SHARD_INDEX is missing, but TEST_TOTAL_SHARDS is set",
    ),
    (
        None,
        Some("0"),
        "TEST_TOTAL_SHARDS is missing, but TEST_SHARD_INDEX is set",
    ),
    (
        None,
        Some(""),
        "TEST_TOTAL_SHARDS is missing, but TEST_SHARD_INDEX is set",
    ),
    (
        Some("0"),
        Some("0"),
        "TEST_TOTAL_SHARDS is not a number of shards",
    ),
    (
        Some("00"),
        Some("x"),
        "TEST_TOTAL_SHARDS is not a number of shards",
    ),
    (
        Some("18446744073709551616"),
        Some("0"),
        "TEST_TOTAL_SHARDS is not a number of shards",
    ),
    (
        Some("4"),
        Some("+1"),
        "TEST_SHARD_INDEX is not a number below TEST_TOTAL_SHARDS",
    ),
    (
        Some("4"),
        Some("4"),
        "TEST_SHARD_INDEX is not a number below TEST_TOTAL_SHARDS",
    ),
    (
        Some("1"),
        Some("1"),
        "TEST_SHARD_INDEX is not a number below TEST_TOTAL_SHARDS",
    ),
];

// What is shown for a pair that names no shard.
fn shown(alloc: Global, total: Option<&str>, index: Option<&str>) -> Result<String, Fail> {
    match shard_from_variables(total, index) {
        Err(fault) => Ok(format!(in alloc; "{fault}")?),
        Ok(_) => Err(Fail::new("a shard")),
    }
}

#[test]
fn refuses_other_pairs(rt: HostRuntime) -> Result<(), Fail> {
    for (total, index, text) in &REFUSED {
        let shown = shown(rt.alloc(), *total, *index)?;
        assert!(rt; shown.as_str() == *text, "{shown}");
    }
    Ok(())
}

// Shards of the letters from a to g: the count, the index, and the letters.
static SHARDS: [(usize, usize, &str); 7] = [
    (1, 0, "abcdefg"),
    (3, 0, "adg"),
    (3, 1, "be"),
    (3, 2, "cf"),
    (7, 6, "g"),
    (8, 7, ""),
    (usize::MAX, 0, "a"),
];

// Trials of the letters.
fn letters(alloc: Global) -> Result<Vec<Trial<()>>, AllocError> {
    let mut trials = Vec::new(alloc);
    for name in ["a", "b", "c", "d", "e", "f", "g"] {
        trials.push(Trial::new(String::from_str(alloc, name)?, ()))?;
    }
    Ok(trials)
}

// The letters of a shard.
fn letters_of(alloc: Global, index: usize, count: usize) -> Result<String, Fail> {
    let shard = Shard::new(index, count).ok_or("no shard")?;
    let mut names = String::new(alloc);
    for trial in &shard_of(alloc, shard, letters(alloc)?)? {
        names.push_str(trial.name())?;
    }
    Ok(names)
}

#[test]
fn takes_trials_of_a_shard(rt: HostRuntime) -> Result<(), Fail> {
    for (count, index, letters) in &SHARDS {
        let names = letters_of(rt.alloc(), *index, *count)?;
        assert!(rt; names.as_str() == *letters, "{names}");
    }
    Ok(())
}
