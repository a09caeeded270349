//! Refused memory: what may be returned if the Nth allocation fails, for any N. `.ci/run` makes each fail in
//! turn; without it none does, and a test shows what comes with ample memory alone. All that is handed in is made
//! beforehand; if that fails, a test says nothing.
use super::in_both_orders;
use super::runs::{Becomes, Left, asking, becoming, roomy, run_by};
use libtest_mimic::{Arguments, ArgumentsError, FormatSetting, RunError, Schedule, Spawner, Trial};
use mimic_testkit::FaultyWriter;
use std::alloc::{AllocError, Global};
use std::test::Fail;

static TITLE: &[u8] = b"{ \"type\": \"suite\", \"event\": \"started\", \"test_count\": 2 }\n";

// The reports of a run of two tests.
static REPORTS: [&str; 2] = in_both_orders!(
    "{ \"type\": \"suite\", \"event\": \"started\", \"test_count\": 2 }\n",
    "{ \"type\": \"test\", \"event\": \"started\", \"name\": \"a\" }\n{ \"type\": \"test\", \"name\": \"a\", \"event\": \"ok\" }\n",
    "{ \"type\": \"test\", \"event\": \"started\", \"name\": \"b\", \"kind\": \"k\" }\n{ \"type\": \"test\", \"name\": \"b\", \"kind\": \"k\", \"event\": \"failed\", \"stdout\": \"Error: \\\"Woops\\\"\\n\" }\n",
    "{ \"type\": \"suite\", \"event\": \"failed\", \"passed\": 1, \"failed\": 1, \"ignored\": 0, \"measured\": 0, \"filtered_out\": 0, \"exec_time\": 0 }\n"
);

fn two_tests(alloc: Global) -> Result<Vec<Trial<Becomes>>, AllocError> {
    let mut tests = Vec::with_capacity(alloc, 2)?;
    tests.push(becoming(alloc, "a", None)?)?;
    let kind = String::from_str(alloc, "k")?;
    tests.push(becoming(alloc, "b", Some("Woops"))?.with_kind(kind))?;
    Ok(tests)
}

// What a run of the two tests with these arguments leaves.
fn run_two<T: Spawner + 'static>(
    rt: &T,
    alloc: Global,
    args: &Arguments,
    schedule: Schedule,
) -> Result<Left<FaultyWriter>, AllocError> {
    let tests = two_tests(alloc)?;
    Ok(run_by(rt, alloc, args, tests, roomy(alloc)?, schedule))
}

// How many threads are asked for, and how trials come to them if they are more than one.
static ASKED: [(Option<usize>, Schedule); 4] = [
    (None, Schedule::Shares),
    (Some(1), Schedule::Queue),
    (Some(2), Schedule::Shares),
    (Some(2), Schedule::Queue),
];

// Whether a run may leave this if it wants memory or, with workers, threads.
fn is_allowed(left: &Left<FaultyWriter>, threads: usize) -> bool {
    let bytes = left.writer.bytes.as_slice();
    match &left.answer {
        Ok(_) => { bytes == REPORTS[0].as_bytes() || threads > 1 && bytes == REPORTS[1].as_bytes() }
        Err(RunError::OutOfMemory) => bytes.is_empty(),
        Err(RunError::Spawn) => threads > 1 && bytes == TITLE,
        Err(_) => false,
    }
}

#[test]
fn runs_whole_or_not_at_all(rt: HostRuntime) -> Result<(), Fail> {
    for (threads, schedule) in ASKED {
        let args = asking(rt.alloc(), FormatSetting::Json, threads);
        let left = run_two(&rt, rt.alloc(), &args, schedule)?;
        assert!(rt;
            is_allowed(&left, threads.unwrap_or(1)),
            "{threads:?} {schedule:?}"
        );
        assert!(rt; left.is_ended && left.faults == 0);
    }
    Ok(())
}

static NONE_SELECTED: &[u8] =
    b"\nrunning 0 tests\n\ntest result: ok. 0 passed; 0 failed; 0 ignored; 0 measured; 2 filtered out; finished in 0.00s\n\n";

// Whether a run of the two tests with these arguments isn't refused, and leaves this.
fn leaves<T: Spawner + 'static>(
    rt: &T,
    alloc: Global,
    args: &Arguments,
    schedule: Schedule,
    text: &[u8],
) -> Result<bool, AllocError> {
    let left = run_two(rt, alloc, args, schedule)?;
    Ok(left.is_stopped_by(None) && left.writer.bytes.as_slice() == text)
}

// A list, and a run of no selected trial.
#[test]
fn wants_no_memory_for_a_list(rt: HostRuntime) -> Result<(), Fail> {
    let alloc = rt.alloc();
    for (threads, schedule) in ASKED {
        let mut args = asking(alloc, FormatSetting::Pretty, threads);
        args.list = true;
        assert!(rt;
            leaves(&rt, alloc, &args, schedule, b"a: test\n[k] b: test\n")?,
            "{threads:?} {schedule:?}"
        );
        args.list = false;
        args.skip.push(String::new(alloc))?;
        assert!(rt;
            leaves(&rt, alloc, &args, schedule, NONE_SELECTED)?,
            "{threads:?} {schedule:?}"
        );
    }
    Ok(())
}

static WORDS: [&str; 7] = [
    "harness",
    "--skip",
    "a",
    "--format=json",
    "--logfile",
    "log",
    "b",
];

// Whether these are what the words say.
fn are_of_words(args: &Arguments) -> bool {
    args.skip.len() == 1
        && args.skip[0].as_str() == "a"
        && args.filter.len() == 1
        && args.filter[0].as_str() == "b"
        && args.format == Some(FormatSetting::Json)
        && args
            .logfile
            .as_ref()
            .is_some_and(|path| path.as_str() == "log")
}

#[test]
fn reads_a_line_or_wants_memory(rt: HostRuntime) {
    match &Arguments::from_iter(rt.alloc(), &WORDS) {
        Ok(args) => assert!(rt; are_of_words(args)),
        Err(ArgumentsError::OutOfMemory) => {}
        Err(_) => assert!(rt; false),
    }
}
