//! Runs that ask for no memory, and so start no thread: lists, and runs of no selected trial. All that is handed in is made beforehand,
//! and it is as much in each of these tests. `.ci/run` counts the requests of each: they are as many as those of the one that runs
//! nothing.
use super::runs::{Becomes, asking, becoming, roomy, run_by};
use libtest_mimic::{Arguments, FormatSetting, Schedule, Spawner, Trial};
use mimic_testkit::FaultyWriter;
use std::alloc::{AllocError, Global};
use std::process::Abort;
use std::test::Fail;

// What is handed in.
#[derive(Drop)]
struct Handed {
    args: Arguments,
    tests: Vec<Trial<Becomes>>,
    writer: FaultyWriter,
}

// Two tests, of which those are skipped whose names have the word.
fn hand_in(alloc: Global, threads: Option<usize>, skipped: &str) -> Result<Handed, AllocError> {
    let mut args = asking(alloc, FormatSetting::Pretty, threads);
    args.skip.push(String::from_str(alloc, skipped)?)?;
    let mut tests = Vec::with_capacity(alloc, 2)?;
    tests.push(becoming(alloc, "test_a", None)?)?;
    tests.push(becoming(alloc, "test_b", None)?)?;
    Ok(Handed {
        args,
        tests,
        writer: roomy(alloc)?,
    })
}

static LIST: &[u8] = b"test_a: test\ntest_b: test\n";

static NONE_SELECTED: &[u8] =
    b"\nrunning 0 tests\n\ntest result: ok. 0 passed; 0 failed; 0 ignored; 0 measured; 2 filtered out; finished in 0.00s\n\n";

// A number of threads, to which trials come by the schedule, or the calling thread.
const WAYS: [(Option<usize>, Schedule); 3] = [
    (None, Schedule::Queue),
    (Some(4), Schedule::Shares),
    (Some(4), Schedule::Queue),
];

// A list or a run that skips the names with the word writes this text, whoever runs it.
fn check<T: Spawner + Abort + 'static>(
    rt: &T,
    alloc: Global,
    skipped: &str,
    is_list: bool,
    text: &[u8],
) -> Result<(), Fail> {
    for (threads, schedule) in WAYS {
        let Handed {
            mut args,
            tests,
            writer,
        } = hand_in(alloc, threads, skipped)?;
        args.list = is_list;
        let left = run_by(rt, alloc, &args, tests, writer, schedule);
        assert!(rt;
            left.is_stopped_by(None) && left.writer.bytes.as_slice() == text,
            "{threads:?} {schedule:?}"
        );
    }
    Ok(())
}

#[test]
fn makes_what_is_handed_in(rt: HostRuntime) -> Result<(), Fail> {
    for (threads, _) in WAYS {
        let handed = hand_in(rt.alloc(), threads, "none")?;
        assert!(rt; handed.tests.len() == 2 && handed.writer.bytes.is_empty());
    }
    Ok(())
}

#[test]
fn lists(rt: HostRuntime) -> Result<(), Fail> {
    check(&rt, rt.alloc(), "none", true, LIST)
}

#[test]
fn runs_none(rt: HostRuntime) -> Result<(), Fail> {
    check(&rt, rt.alloc(), "test", false, NONE_SELECTED)
}
