//! The 17 trials of `harness`, run in shards by one thread and a clock that never moves.
use super::hashing::usual_hashes;
use super::joining::join;
use super::reading::join_into;
use libtest_mimic::{Arguments, Stopwatch, Trial, run_here};
use mimic_events::Report;
use mimic_printer::Sink;
use mimic_roundtrip::run_shard;
use mimic_testkit::{Known, MIXED_BAG, TwoReadings, known_trials};
use mimic_trial::{Shard, shard_of};
use std::alloc::Global;
use std::process::Abort;
use std::test::Fail;

// What the words of a line ask for.
fn asked(alloc: Global, words: &[&str]) -> Result<Arguments, Fail> {
    if words.is_empty() {
        return Err(Fail::new("no line"));
    }
    Ok(Arguments::from_iter(alloc, words).ok().ok_or("refused")?)
}

// The trials of a shard.
fn trials_of(alloc: Global, index: usize, count: usize) -> Result<Vec<Trial<Known>>, Fail> {
    let shard = Shard::new(index, count).ok_or("no shard")?;
    Ok(shard_of(alloc, shard, known_trials(alloc, &MIXED_BAG)?)?)
}

// What a run of a shard writes. Shard 0 of 1 has all trials.
fn written(alloc: Global, words: &[&str], index: usize, count: usize) -> Result<Vec<u8>, Fail> {
    let args = asked(alloc, words)?;
    let trials = trials_of(alloc, index, count)?;
    let mut sink = Sink::new(Vec::new(alloc));
    let mut watch = Stopwatch::new(TwoReadings::still());
    run_here(alloc, &args, trials, &mut sink, &mut watch, false)?;
    Ok(sink.into_inner())
}

// What each of `count` shards writes.
fn parts(alloc: Global, words: &[&str], count: usize) -> Result<Vec<Vec<u8>>, Fail> {
    let mut parts = Vec::new(alloc);
    for index in 0..count {
        parts.push(written(alloc, words, index, count)?)?;
    }
    Ok(parts)
}

// The joined report of `count` shards.
fn joined_of(alloc: Global, words: &[&str], count: usize) -> Result<Vec<u8>, Fail> {
    let parts = parts(alloc, words, count)?;
    let mut inputs = Vec::new(alloc);
    for part in &parts {
        inputs.push(part.as_slice())?;
    }
    let (bytes, joined) = join_into(alloc, inputs, count, Vec::new(alloc));
    joined.ok().ok_or("refused")?;
    Ok(bytes)
}

// Whether the line is in the text exactly once.
fn stands_once(line: &str, text: &str) -> bool {
    let mut stands = false;
    for other in text.lines() {
        if other == line {
            if stands {
                return false;
            }
            stands = true;
        }
    }
    stands
}

// Whether the texts have the same lines, each once, in any order.
fn have_same_lines(a: &str, b: &str) -> bool {
    for line in a.lines() {
        if !stands_once(line, b) {
            return false;
        }
    }
    a.lines().count() == b.lines().count()
}

// Whether a line drops trials, and its words. If it does, the rows of the joined report may be in another order.
static LINES: [(bool, &[&str]); 9] = [
    (false, &["suite", "--format=json"]),
    (false, &["suite", "--format=json", "--include-ignored"]),
    (false, &["suite", "--format=json", "--test"]),
    (false, &["suite", "--format=json", "--bench"]),
    (true, &["suite", "--format=json", "--skip", "o"]),
    (true, &["suite", "--format=json", "--ignored"]),
    (
        true,
        &[
            "suite",
            "--format=json",
            "--ignored",
            "--bench",
            "--skip",
            "banana",
        ],
    ),
    (true, &["suite", "--format=json", "b", "ow"]),
    (true, &["suite", "--format=json", "--exact", "nothing"]),
];

// Checks that the joined report of `count` shards is that of a whole run. Its order may differ if trials are dropped.
fn check_joined(
    rt: &impl Abort,
    alloc: Global,
    drops: bool,
    words: &[&str],
    count: usize,
) -> Result<(), Fail> {
    let whole = written(alloc, words, 0, 1)?;
    let joined = joined_of(alloc, words, count)?;
    assert!(rt; drops || joined == whole, "{count} shards");
    let (whole, joined) = (str::from_utf8(&whole)?, str::from_utf8(&joined)?);
    assert!(rt; have_same_lines(whole, joined), "{count} shards");
    Ok(())
}

#[test]
fn joins_suites(rt: HostRuntime) -> Result<(), Fail> {
    for (drops, words) in &LINES {
        for count in 1..21 {
            check_joined(&rt, rt.alloc(), *drops, words, count)?;
        }
    }
    Ok(())
}

// The lists of `count` shards, one after another.
fn lists(alloc: Global, count: usize) -> Result<String, Fail> {
    let mut lists = String::new(alloc);
    for part in &parts(alloc, &["suite", "--list"], count)? {
        lists.push_str(str::from_utf8(part)?)?;
    }
    Ok(lists)
}

// The lists of all shards have the lines of the whole list.
#[test]
fn lists_each_trial_once(rt: HostRuntime) -> Result<(), Fail> {
    let alloc = rt.alloc();
    let whole = lists(alloc, 1)?;
    assert!(rt; whole.lines().count() == 17);
    for count in 2..21 {
        let lists = lists(alloc, count)?;
        assert!(rt;
            have_same_lines(whole.as_str(), lists.as_str()),
            "{count} shards"
        );
    }
    Ok(())
}

// The report of a run of a shard.
fn report_of(alloc: Global, index: usize, count: usize) -> Result<Report, Fail> {
    let shard = Shard::new(index, count).ok_or("no shard")?;
    let trials = known_trials(alloc, &MIXED_BAG)?;
    let mut watch = Stopwatch::new(TwoReadings::still());
    let (_, report) = run_shard(alloc, Arguments::new(alloc), shard, trials, &mut watch)?;
    Ok(report)
}

// A report that was joined is what one run reports.
#[test]
fn joins_reports_of_runs(rt: HostRuntime) -> Result<(), Fail> {
    let alloc = rt.alloc();
    let reports = vec![in alloc; report_of(alloc, 0, 2)?, report_of(alloc, 1, 2)?]?;
    let joined = join(alloc, usual_hashes(), reports, 2, false)?;
    assert!(rt; joined == Ok(report_of(alloc, 0, 1)?));
    Ok(())
}
