//! Runs of selected trials and of benchmarks, and lists.
use super::in_memory::{Asked, Case, Left, NOTHING, check_cases, run_ample, run_known};
use super::{bench_trial, test_trial};
use libtest_mimic::{
    ColorSetting, Failed, FormatSetting, Measurement, Outcome, RunError, Task, TestInfo, Trial,
};
use mimic_testkit::Answer::{Benchmark, Test};
use mimic_testkit::Entry;
use std::alloc::{AllocError, Global};
use std::sync::Arc;
use std::sync::atomic::{AtomicU64, Ordering};
use std::test::Fail;

// Adds its weight to those of the trials that ran, and passes.
#[derive(Drop)]
struct Marks {
    ran: Arc<AtomicU64>,
    weight: u64,
}

impl Task for Marks {
    fn run(self, _test_mode: bool) -> Outcome {
        self.ran.fetch_add(self.weight, Ordering::SeqCst);
        Outcome::Passed
    }
}

// What is known of a trial that marks: its name, its kind, whether it is ignored, whether it is a benchmark, and its weight.
type Marked = (&'static str, &'static str, bool, bool, u64);

fn marking(
    alloc: Global,
    marked: Marked,
    ran: &Arc<AtomicU64>,
) -> Result<Trial<Marks>, AllocError> {
    let (name, kind, is_ignored, is_bench, weight) = marked;
    let info = TestInfo {
        name: String::from_str(alloc, name)?,
        kind: String::from_str(alloc, kind)?,
        is_ignored,
        is_bench,
    };
    let ran = Arc::try_clone(ran)?;
    Ok(Trial::from_parts(info, Marks { ran, weight }))
}

// What a run of trials that mark leaves, and the sum of the weights of those that ran.
fn run_marked(alloc: Global, asked: &Asked, table: &[Marked]) -> Result<(Left, u64), Fail> {
    let ran = Arc::new(alloc, AtomicU64::new(0))?;
    let mut tests = Vec::with_capacity(alloc, table.len())?;
    for marked in table {
        tests.push(marking(alloc, *marked, &ran)?)?;
    }
    let left = run_ample(alloc, asked, tests)?;
    Ok((left, ran.load(Ordering::SeqCst)))
}

const CAT: u64 = 1;

const FLY: u64 = 2;

static CAT_AND_FLY: [Marked; 2] = [
    ("cat", "", false, false, CAT),
    ("fly", "banana", true, false, FLY),
];

// What is asked of a run of `cat` and of the ignored `fly` of kind `banana`: the flags, and what comes out: the counts, the
// sum of the weights of those that ran, and the text.
struct Row {
    include_ignored: bool,
    ignored: bool,
    list: bool,
    counts: [u64; 5],
    ran: u64,
    text: &'static [u8],
}

static ROWS: [Row; 6] = [
    Row {
        include_ignored: false,
        ignored: false,
        list: false,
        counts: [1, 0, 1, 0, 0],
        ran: CAT,
        text: b"\nrunning 2 tests\ntest          cat ... ok\ntest [banana] fly ... ignored\n\ntest result: ok. 1 passed; 0 failed; 1 ignored; 0 measured; 0 filtered out; finished in 0.00s\n\n",
    },
    Row {
        include_ignored: true,
        ignored: false,
        list: false,
        counts: [2, 0, 0, 0, 0],
        ran: CAT + FLY,
        text: b"\nrunning 2 tests\ntest          cat ... ok\ntest [banana] fly ... ok\n\ntest result: ok. 2 passed; 0 failed; 0 ignored; 0 measured; 0 filtered out; finished in 0.00s\n\n",
    },
    Row {
        include_ignored: false,
        ignored: true,
        list: false,
        counts: [1, 0, 0, 0, 1],
        ran: FLY,
        text: b"\nrunning 1 test\ntest [banana] fly ... ok\n\ntest result: ok. 1 passed; 0 failed; 0 ignored; 0 measured; 1 filtered out; finished in 0.00s\n\n",
    },
    Row {
        include_ignored: true,
        ignored: true,
        list: false,
        counts: [1, 0, 0, 0, 1],
        ran: FLY,
        text: b"\nrunning 1 test\ntest [banana] fly ... ok\n\ntest result: ok. 1 passed; 0 failed; 0 ignored; 0 measured; 1 filtered out; finished in 0.00s\n\n",
    },
    Row {
        include_ignored: false,
        ignored: false,
        list: true,
        counts: [0, 0, 0, 0, 0],
        ran: 0,
        text: b"cat: test\n[banana] fly: test\n",
    },
    Row {
        include_ignored: false,
        ignored: true,
        list: true,
        counts: [0, 0, 0, 0, 0],
        ran: 0,
        text: b"[banana] fly: test\n",
    },
];

#[test]
fn runs_ignored_trials_as_asked(rt: HostRuntime) -> Result<(), Fail> {
    for row in &ROWS {
        let asked = Asked {
            include_ignored: row.include_ignored,
            ignored: row.ignored,
            list: row.list,
            ..NOTHING
        };
        let (left, ran) = run_marked(rt.alloc(), &asked, &CAT_AND_FLY)?;
        assert!(rt; left.counts() == row.counts);
        assert!(rt; left.bytes() == row.text);
        assert!(rt; ran == row.ran);
        assert!(rt; left.writer.flushes > 0);
    }
    Ok(())
}

const FROG: u64 = 2;

static THREE: [Marked; 3] = [
    ("dog", "", false, false, 1),
    ("frog", "", true, false, FROG),
    ("orange", "banana", true, true, 4),
];

static IGNORED_ORANGE: &[u8] =
    b"\nrunning 2 tests\ntest          frog   ... ok\ntest [banana] orange ... ignored\n\ntest result: ok. 1 passed; 0 failed; 1 ignored; 0 measured; 1 filtered out; finished in 0.00s\n\n";

// The words `--test --ignored o`: a benchmark that is asked for by its flag is ignored, and its runner not called.
#[test]
fn ignores_benchmarks_of_a_test_run(rt: HostRuntime) -> Result<(), Fail> {
    let asked = Asked {
        test: true,
        ignored: true,
        filter: Some("o"),
        ..NOTHING
    };
    let (left, ran) = run_marked(rt.alloc(), &asked, &THREE)?;
    assert!(rt; left.bytes() == IGNORED_ORANGE);
    assert!(rt; ran == FROG);
    Ok(())
}

// A trial that isn't ignored.
macro_rules! entry {
    ($name:literal, $kind:literal, $answer:expr) => {
        Entry {
            name: $name,
            kind: $kind,
            is_ignored: false,
            answer: $answer,
        }
    };
}

static FOO_BAR: [Entry; 3] = [
    entry!("foo", "", Test(Ok(()))),
    entry!("bar", "", Test(Ok(()))),
    entry!("barro", "", Test(Ok(()))),
];

const ALL_LISTED: &[u8] = b"foo: test\nbar: test\nbarro: test\n";

const NONE_SELECTED: &[u8] =
    b"\nrunning 0 tests\n\ntest result: ok. 0 passed; 0 failed; 0 ignored; 0 measured; 3 filtered out; finished in 0.00s\n\n";

// A filter, a skip pattern, whether they are exact, how many of `foo`, `bar` and `barro` they select and drop, and the
// list of those that they select.
type Selected = (
    Option<&'static str>,
    Option<&'static str>,
    bool,
    u64,
    u64,
    &'static [u8],
);

static SELECTED: [Selected; 12] = [
    (None, None, false, 3, 0, ALL_LISTED),
    (Some("foo"), None, false, 1, 2, b"foo: test\n"),
    (Some("bar"), None, false, 2, 1, b"bar: test\nbarro: test\n"),
    (Some("bar"), None, true, 1, 2, b"bar: test\n"),
    (Some("bar"), Some("barro"), false, 1, 2, b"bar: test\n"),
    (None, Some("peter"), false, 3, 0, ALL_LISTED),
    (None, Some("bar"), false, 1, 2, b"foo: test\n"),
    (None, Some("bar"), true, 2, 1, b"foo: test\nbarro: test\n"),
    (Some(""), None, false, 3, 0, ALL_LISTED),
    (None, Some(""), false, 0, 3, b""),
    (Some(""), None, true, 0, 3, b""),
    (None, Some(""), true, 3, 0, ALL_LISTED),
];

// Whether a run with these patterns counts and lists what they select.
fn selects(alloc: Global, row: &Selected) -> Result<bool, RunError> {
    let (filter, skip, exact, selected, dropped, list) = *row;
    let mut asked = Asked {
        filter,
        skip,
        exact,
        ..NOTHING
    };
    let run = run_known(alloc, &asked, &FOO_BAR)?;
    asked.list = true;
    let listed = run_known(alloc, &asked, &FOO_BAR)?;
    Ok(
        run.counts() == [selected, 0, 0, 0, dropped]
            && (selected > 0 || run.bytes() == NONE_SELECTED)
            && listed.bytes() == list,
    )
}

#[test]
fn selects_by_patterns(rt: HostRuntime) -> Result<(), Fail> {
    for row in &SELECTED {
        assert!(rt;
            selects(rt.alloc(), row)?,
            "{:?} {:?} {}",
            row.0,
            row.1,
            row.2
        );
    }
    Ok(())
}

// What a run of a test and a benchmark over boxed closures leaves, and 1 for the test and 2 for the benchmark if they ran. The
// benchmark measures, or returns nothing. It fails if its mode isn't the one that is asked for.
fn run_boxed(alloc: Global, asked: &Asked, measures: bool) -> Result<(Left, u64), Fail> {
    let bench = asked.bench;
    let ran = Arc::new(alloc, AtomicU64::new(0))?;
    let tested = Arc::try_clone(&ran)?;
    let measured = Arc::try_clone(&ran)?;
    let mut tests = Vec::new(alloc);
    tests.push(test_trial!(alloc, "t", move || {
        tested.fetch_add(1, Ordering::SeqCst);
        Ok(())
    }))?;
    tests.push(bench_trial!(alloc, "b", move |test_mode: bool| {
        measured.fetch_add(2, Ordering::SeqCst);
        if test_mode == bench {
            return Err(Failed::without_message());
        }
        Ok(measures.then_some(Measurement {
            avg: 1_234_567,
            variance: 89,
        }))
    }))?;
    let left = run_ample(alloc, asked, tests)?;
    Ok((left, ran.load(Ordering::SeqCst)))
}

// The flags for tests and benchmarks, whether the benchmark measures, which of them run, and the beginning of the report.
static BOXED: [(bool, bool, bool, u64, &[u8]); 6] = [
    (
        false,
        false,
        true,
        3,
        b"\nrunning 2 tests\ntest t ... ok\ntest b ... ok\n\ntest result: ok.",
    ),
    (
        false,
        false,
        false,
        3,
        b"\nrunning 2 tests\ntest t ... ok\ntest b ... ok\n\ntest result: ok.",
    ),
    (
        true,
        false,
        true,
        1,
        b"\nrunning 2 tests\ntest t ... ok\ntest b ... ignored\n\ntest result: ok.",
    ),
    (
        false,
        true,
        true,
        2,
        b"\nrunning 2 tests\ntest t ... ignored\ntest b ... bench:   1,234,567 ns/iter (+/- 89)\n\ntest result: ok.",
    ),
    (
        false,
        true,
        false,
        2,
        b"\nrunning 2 tests\ntest t ... ignored\ntest b ... FAILED\n\nfailures:\n\n---- b ----\nbench runner returned `Ok(None)` in bench mode\n\n",
    ),
    (
        true,
        true,
        true,
        0,
        b"\nrunning 2 tests\ntest t ... ignored\ntest b ... ignored\n\ntest result: ok.",
    ),
];

// A benchmark that measures, or returns nothing, by the arguments; with both flags nothing is run.
#[test]
fn runs_benchmarks_as_asked(rt: HostRuntime) -> Result<(), Fail> {
    for (test, bench, measures, want, text) in &BOXED {
        let asked = Asked {
            test: *test,
            bench: *bench,
            ..NOTHING
        };
        let (left, ran) = run_boxed(rt.alloc(), &asked, *measures)?;
        assert!(rt;
            left.bytes().starts_with(*text),
            "{test} {bench} {measures}"
        );
        assert!(rt; ran == *want);
    }
    Ok(())
}

const TERSE: Asked = Asked {
    format: Some(FormatSetting::Terse),
    ..NOTHING
};

static TERSE_CASES: [Case; 2] = [
    Case {
        asked: Asked {
            quiet: true,
            bench: true,
            ..NOTHING
        },
        table: &[
            entry!("t", "", Test(Ok(()))),
            entry!("b", "", Benchmark(Ok((32, 3)))),
        ],
        is_whole: true,
        text: "\nrunning 2 tests\nibench:          32 ns/iter (+/- 3)\n\ntest result: ok. 0 passed; 0 failed; 1 ignored; 1 measured; 0 filtered out; finished in 0.00s\n\n",
    },
    Case {
        asked: Asked {
            color: Some(ColorSetting::Always),
            ..TERSE
        },
        table: &[entry!("t", "", Test(Ok(())))],
        is_whole: true,
        text: "\nrunning 1 test\n\x1b[32m.\x1b[0m\ntest result: \x1b[32mok\x1b[0m. 1 passed; 0 failed; 0 ignored; 0 measured; 0 filtered out; finished in 0.00s\n\n",
    },
];

// Terse has the whole line of a measurement. One passing test in terse and coloured.
#[test]
fn reports_in_terse(rt: HostRuntime) -> Result<(), Fail> {
    check_cases(&rt, rt.alloc(), &TERSE_CASES)?;
    let coloured = &TERSE_CASES[1];
    let left = run_known(rt.alloc(), &coloured.asked, coloured.table)?;
    assert!(rt; left.writer.flushes == 1);
    Ok(())
}

static MEASUREMENTS: [Case; 2] = [
    Case {
        asked: Asked {
            bench: true,
            ..TERSE
        },
        table: &[entry!("b", "", Benchmark(Ok((1_234_567, 89))))],
        is_whole: true,
        text: "\nrunning 1 test\nbench:   1,234,567 ns/iter (+/- 89)\n\ntest result: ok. 0 passed; 0 failed; 0 ignored; 1 measured; 0 filtered out; finished in 0.00s\n\n",
    },
    Case {
        asked: Asked {
            bench: true,
            format: Some(FormatSetting::Pretty),
            ..NOTHING
        },
        table: &[entry!("b", "", Benchmark(Ok((32, 3))))],
        is_whole: true,
        text: "\nrunning 1 test\ntest b ... bench:          32 ns/iter (+/- 3)\n\ntest result: ok. 0 passed; 0 failed; 0 ignored; 1 measured; 0 filtered out; finished in 0.00s\n\n",
    },
];

#[test]
fn reports_measurements(rt: HostRuntime) -> Result<(), Fail> {
    check_cases(&rt, rt.alloc(), &MEASUREMENTS)
}

static PADDED: [Case; 1] = [Case {
    asked: Asked {
        skip: Some("skipped"),
        ..NOTHING
    },
    table: &[
        entry!("\u{e9}", "", Test(Ok(()))),
        entry!("ab", "k", Test(Ok(()))),
        entry!("skipped for its length", "", Test(Ok(()))),
    ],
    is_whole: false,
    text: "\nrunning 2 tests\ntest     \u{e9}  ... ok\ntest [k] ab ... ok\n",
}];

// A name of one character in two bytes beside one of two, which has a kind: widths count characters, and not
// those of a trial that is skipped.
#[test]
fn pads_kinds_by_characters(rt: HostRuntime) -> Result<(), Fail> {
    check_cases(&rt, rt.alloc(), &PADDED)
}

const JSON_BENCH: Asked = Asked {
    bench: true,
    format: Some(FormatSetting::Json),
    ..NOTHING
};

const JSON_TEST: Asked = Asked {
    test: true,
    format: Some(FormatSetting::Json),
    ..NOTHING
};

// The title, the announcement and the row.
static IN_JSON: [Case; 4] = [
    Case {
        asked: JSON_BENCH,
        table: &[entry!("b", "a\\b", Benchmark(Ok((1_234_567, 89))))],
        is_whole: false,
        text: r#"{ "type": "suite", "event": "started", "test_count": 1 }
{ "type": "test", "event": "started", "name": "b", "kind": "a\\b" }
{ "type": "bench", "name": "b", "kind": "a\\b", "median": 1234567, "deviation": 89 }
"#,
    },
    Case {
        asked: JSON_TEST,
        table: &[entry!("b", "a\\b", Benchmark(Ok((1_234_567, 89))))],
        is_whole: false,
        text: r#"{ "type": "suite", "event": "started", "test_count": 1 }
{ "type": "test", "event": "started", "name": "b", "kind": "a\\b" }
{ "type": "test", "name": "b", "kind": "a\\b", "event": "ignored" }
"#,
    },
    Case {
        asked: JSON_BENCH,
        table: &[entry!("b", "", Benchmark(Ok((1_234_567, 89))))],
        is_whole: false,
        text: r#"{ "type": "suite", "event": "started", "test_count": 1 }
{ "type": "test", "event": "started", "name": "b" }
{ "type": "bench", "name": "b", "median": 1234567, "deviation": 89 }
"#,
    },
    Case {
        asked: JSON_TEST,
        table: &[entry!("b", "", Benchmark(Ok((1_234_567, 89))))],
        is_whole: false,
        text: r#"{ "type": "suite", "event": "started", "test_count": 1 }
{ "type": "test", "event": "started", "name": "b" }
{ "type": "test", "name": "b", "event": "ignored" }
"#,
    },
];

// A benchmark in JSON, with a kind and without: its announcement, what was measured, and the same ignored.
#[test]
fn reports_benchmarks_in_json(rt: HostRuntime) -> Result<(), Fail> {
    check_cases(&rt, rt.alloc(), &IN_JSON)
}

static QUOTED: [Entry; 1] = [entry!("a\"b", "", Test(Ok(())))];

// A list is the same in every format, and has no colour.
#[test]
fn lists_in_each_format(rt: HostRuntime) -> Result<(), Fail> {
    for format in &[
        FormatSetting::Pretty,
        FormatSetting::Terse,
        FormatSetting::Json,
    ] {
        let asked = Asked {
            list: true,
            format: Some(*format),
            color: Some(ColorSetting::Always),
            ..NOTHING
        };
        let left = run_known(rt.alloc(), &asked, &QUOTED)?;
        assert!(rt; left.bytes() == b"a\"b: test\n".as_slice());
    }
    Ok(())
}
