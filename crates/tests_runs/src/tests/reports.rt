//! Whole reports over memory.
use super::in_memory::{Asked, Left, NOTHING, run_ample, run_by_clock, run_in_workers};
use super::test_trial;
use libtest_mimic::{
    ColorSetting, Failed, FormatSetting, Outcome, RunError, Schedule, Spawner, Stopwatch, Task,
    Trial,
};
use mimic_testkit::{Known, MIXED_BAG, RaisedClock, TWO_TESTS_JSON, TwoReadings, known_trials};
use std::alloc::{AllocError, Global};
use std::process::ExitCode;
use std::sync::Arc;
use std::sync::atomic::{AtomicU64, Ordering};
use std::test::Fail;

const TWO_TESTS: &str =
    "\nrunning 2 tests\ntest succeeding_test ... ok\ntest failing_test    ... FAILED\n\nfailures:\n\n---- failing_test ----\nWoops\n\n\nfailures:\n    failing_test\n\ntest result: FAILED. 1 passed; 1 failed; 0 ignored; 0 measured; 0 filtered out; finished in 0.00s\n\n";

const TWO_TESTS_TERSE: &str =
    "\nrunning 2 tests\n.F\nfailures:\n\n---- failing_test ----\nWoops\n\n\nfailures:\n    failing_test\n\ntest result: FAILED. 1 passed; 1 failed; 0 ignored; 0 measured; 0 filtered out; finished in 0.00s\n\n";

const TWO_TESTS_COLOURED: &str =
    "\nrunning 2 tests\ntest succeeding_test ... \x1b[32mok\x1b[0m\ntest failing_test    ... \x1b[31mFAILED\x1b[0m\n\nfailures:\n\n---- failing_test ----\nWoops\n\n\nfailures:\n    failing_test\n\ntest result: \x1b[31mFAILED\x1b[0m. 1 passed; 1 failed; 0 ignored; 0 measured; 0 filtered out; finished in 0.00s\n\n";

static NO_TESTS: &[u8] =
    b"\nrunning 0 tests\n\ntest result: ok. 0 passed; 0 failed; 0 ignored; 0 measured; 0 filtered out; finished in 0.00s\n\n";

static MESSAGES: &[u8] =
    b"\nrunning 4 tests\ntest a ... FAILED\ntest b ... FAILED\ntest c ... FAILED\ntest f ... FAILED\n\nfailures:\n\n---- a ----\n\n---- b ----\n\n\n---- c ----\none\ntwo\n\n---- f ----\n7\n\n\nfailures:\n    a\n    b\n    c\n    f\n\ntest result: FAILED. 0 passed; 4 failed; 0 ignored; 0 measured; 0 filtered out; finished in 0.00s\n\n";

// A format, a colour setting, the report, and how often it is flushed.
#[derive(Clone, Copy)]
struct Look {
    format: Option<FormatSetting>,
    color: Option<ColorSetting>,
    report: &'static str,
    flushes: u64,
}

static LOOKS: [Look; 4] = [
    Look {
        format: None,
        color: None,
        report: TWO_TESTS,
        flushes: 3,
    },
    Look {
        format: Some(FormatSetting::Terse),
        color: None,
        report: TWO_TESTS_TERSE,
        flushes: 1,
    },
    Look {
        format: Some(FormatSetting::Pretty),
        color: Some(ColorSetting::Always),
        report: TWO_TESTS_COLOURED,
        flushes: 3,
    },
    Look {
        format: Some(FormatSetting::Json),
        color: Some(ColorSetting::Always),
        report: TWO_TESTS_JSON,
        flushes: 1,
    },
];

// What a run of one test that passes and one that fails leaves, each over a boxed closure.
fn run_two(alloc: Global, asked: &Asked) -> Result<Left, Fail> {
    let woops = String::from_str(alloc, "Woops")?;
    let mut tests = Vec::new(alloc);
    tests.push(test_trial!(alloc, "succeeding_test", || Ok(())))?;
    tests.push(test_trial!(
        alloc,
        "failing_test",
        move || Err(Failed::with_message(woops))
    ))?;
    Ok(run_ample(alloc, asked, tests)?)
}

#[test]
fn reports_two_tests(rt: HostRuntime) -> Result<(), Fail> {
    assert!(rt; TWO_TESTS.len() == 247);
    assert!(rt; TWO_TESTS_COLOURED.len() == 274);
    for look in &LOOKS {
        let asked = Asked {
            format: look.format,
            color: look.color,
            ..NOTHING
        };
        let left = run_two(rt.alloc(), &asked)?;
        assert!(rt; left.counts() == [1, 1, 0, 0, 0]);
        assert!(rt; left.conclusion.has_failed());
        assert!(rt; left.conclusion.exit_code() == ExitCode::from(101));
        assert!(rt; left.bytes() == look.report.as_bytes());
        assert!(rt; left.writer.flushes == look.flushes);
    }
    Ok(())
}

fn run_none(alloc: Global, asked: &Asked, clock: TwoReadings) -> Result<Left, RunError> {
    run_by_clock(alloc, asked, Vec::<Trial<Known>>::new(alloc), clock)
}

#[test]
fn reports_no_tests(rt: HostRuntime) -> Result<(), Fail> {
    let left = run_none(rt.alloc(), &NOTHING, TwoReadings::still())?;
    assert!(rt; !left.conclusion.has_failed());
    assert!(rt; left.conclusion.exit_code() == ExitCode::from(0));
    assert!(rt; left.bytes() == NO_TESTS);
    Ok(())
}

const PRETTY: Asked = Asked {
    format: Some(FormatSetting::Pretty),
    ..NOTHING
};

const JSON: Asked = Asked {
    format: Some(FormatSetting::Json),
    ..NOTHING
};

// The format, the clock's readings, and the end of the report.
static READINGS: [(Asked, u64, u64, &[u8]); 12] = [
    (PRETTY, 700, 1_500_000_700, b"finished in 1.50s\n\n"),
    (PRETTY, 9, 4, b"finished in 0.00s\n\n"),
    (PRETTY, 0, 4_999_999, b" 0.00s\n\n"),
    (PRETTY, 0, 5_000_000, b" 0.01s\n\n"),
    (PRETTY, 0, 995_000_000, b" 1.00s\n\n"),
    (PRETTY, 0, u64::MAX, b"finished in 18446744073.71s\n\n"),
    (JSON, 700, 1_500_000_700, b": 1.5 }\n"),
    (JSON, 9, 4, b": 0 }\n"),
    (JSON, 0, 4_999_999, b": 0.004999999 }\n"),
    (JSON, 0, 5_000_000, b": 0.005 }\n"),
    (JSON, 0, 995_000_000, b": 0.995 }\n"),
    (JSON, 0, u64::MAX, b": 18446744073.709551615 }\n"),
];

#[test]
fn tells_the_time(rt: HostRuntime) -> Result<(), Fail> {
    assert!(rt; Stopwatch::new(TwoReadings::still()).is_fresh());
    for (asked, first, second, end) in &READINGS {
        let clock = TwoReadings {
            first: *first,
            second: *second,
        };
        let left = run_none(rt.alloc(), asked, clock)?;
        assert!(rt; left.elapsed == Some(second.saturating_sub(*first)));
        assert!(rt; left.bytes().ends_with(end));
    }
    Ok(())
}

// The calling thread, or how trials come to two workers.
const BY: [Option<Schedule>; 3] = [None, Some(Schedule::Shares), Some(Schedule::Queue)];

// The ends of a report of a second and a half, in pretty and in JSON.
const LATER: &[u8] = b"; finished in 1.50s\n\n";

static LATER_JSON: &[u8] = b", \"exec_time\": 1.5 }\n";

// Whether the run lasted a second and a half by its watch and its report, which has this end.
fn is_later(left: &Left, end: &[u8]) -> bool {
    left.elapsed == Some(1_500_000_000) && left.bytes().ends_with(end)
}

// What a run by two workers leaves that lasts a second and a half.
fn run_later<T: Spawner + 'static>(
    rt: &T,
    alloc: Global,
    mut asked: Asked,
    schedule: Schedule,
) -> Result<Left, RunError> {
    asked.threads = Some(2);
    let clock = TwoReadings {
        first: 700,
        second: 1_500_000_700,
    };
    let tests = known_trials(alloc, &MIXED_BAG[..2])?;
    run_in_workers(rt, alloc, &asked, tests, clock, schedule)
}

// With workers it is reported from the first two readings too.
#[test]
fn tells_the_time_of_workers(rt: HostRuntime) -> Result<(), Fail> {
    for schedule in [Schedule::Shares, Schedule::Queue] {
        let left = run_later(&rt, rt.alloc(), PRETTY, schedule)?;
        assert!(rt; is_later(&left, LATER));
        let left = run_later(&rt, rt.alloc(), JSON, schedule)?;
        assert!(rt; is_later(&left, LATER_JSON));
    }
    Ok(())
}

// Raises the clock that a run reads when it is dropped, whether or not it ran.
struct Raises(Arc<AtomicU64>);

impl Drop for Raises {
    fn drop(self) {
        let Raises(nanos) = self;
        nanos.fetch_add(1_500_000_000, Ordering::SeqCst);
    }
}

impl Task for Raises {
    fn run(self, _test_mode: bool) -> Outcome {
        Outcome::Passed
    }
}

// What a run of one trial that raises the clock leaves, by workers with this schedule, or by the calling thread.
fn run_raising<T: Spawner + 'static>(
    rt: &T,
    alloc: Global,
    mut asked: Asked,
    by: Option<Schedule>,
) -> Result<Left, RunError> {
    asked.threads = by.map(|_| 2);
    let name = String::from_str(alloc, "a")?;
    let mut tests = Vec::with_capacity(alloc, 1)?;
    let nanos = Arc::new(alloc, AtomicU64::new(0))?;
    tests.push(Trial::new(name, Raises(Arc::try_clone(&nanos)?)))?;
    let clock = RaisedClock { nanos };
    match by {
        Some(schedule) => run_in_workers(rt, alloc, &asked, tests, clock, schedule),
        None => run_by_clock(alloc, &asked, tests, clock),
    }
}

// The time reported is that which the trials took, by one thread and by a worker: a runner raises the clock as it ends.
#[test]
fn times_the_trials(rt: HostRuntime) -> Result<(), Fail> {
    for by in BY {
        let left = run_raising(&rt, rt.alloc(), PRETTY, by)?;
        assert!(rt; is_later(&left, LATER));
        let left = run_raising(&rt, rt.alloc(), JSON, by)?;
        assert!(rt; is_later(&left, LATER_JSON));
    }
    Ok(())
}

// The selection takes time as well: a trial that is filtered out raises the clock.
#[test]
fn times_the_selection(rt: HostRuntime) -> Result<(), Fail> {
    for by in BY {
        let asked = Asked {
            skip: Some("a"),
            ..PRETTY
        };
        let left = run_raising(&rt, rt.alloc(), asked, by)?;
        assert!(rt; left.counts() == [0, 0, 0, 0, 1]);
        assert!(rt; is_later(&left, LATER));
    }
    Ok(())
}

// A trial that fails: its name, and its message if it has one.
type Failing = (&'static str, Option<&'static str>);

// A failure with this message, if there is one.
fn saying(alloc: Global, message: Option<&str>) -> Result<Failed, AllocError> {
    Ok(match message {
        Some(text) => Failed::with_message(String::from_str(alloc, text)?),
        None => Failed::without_message(),
    })
}

// What a run of trials that fail leaves.
fn run_failing(alloc: Global, asked: &Asked, table: &[Failing]) -> Result<Left, Fail> {
    let mut tests = Vec::new(alloc);
    for (name, message) in table {
        let fails = Known::Fails(saying(alloc, *message)?);
        tests.push(Trial::new(String::from_str(alloc, name)?, fails))?;
    }
    Ok(run_ample(alloc, asked, tests)?)
}

static SHOWN: [Failing; 4] = [
    ("a", None),
    ("b", Some("")),
    ("c", Some("one\ntwo")),
    ("f", Some("7")),
];

// Messages: none, an empty one, one of two lines, and a number. A failure with an empty message has one line end more than one
// without a message.
#[test]
fn shows_an_empty_message(rt: HostRuntime) -> Result<(), Fail> {
    let left = run_failing(rt.alloc(), &NOTHING, &SHOWN)?;
    assert!(rt; left.bytes() == MESSAGES);
    Ok(())
}

static ODD: [Failing; 3] = [
    ("a", None),
    ("b", Some("")),
    (
        "a\"b\\\n\u{1}\u{7f}",
        Some("\u{0}\u{8}\u{b}\u{1f}/\u{e9}\t\r\u{c}"),
    ),
];

static ESCAPED: [&str; 4] = [
    "{ \"type\": \"test\", \"name\": \"a\", \"event\": \"failed\" }\n",
    "{ \"type\": \"test\", \"name\": \"b\", \"event\": \"failed\", \"stdout\": \"Error: \\\"\\\"\\n\" }\n",
    "\"started\", \"name\": \"a\\\"b\\\\\\n\\u0001\u{7f}\" }\n",
    "\"name\": \"a\\\"b\\\\\\n\\u0001\u{7f}\", \"event\": \"failed\", \"stdout\": \"Error: \\\"\\u0000\\b\\u000b\\u001f/\u{e9}\\t\\r\\f\\\"\\n\" }\n",
];

// Names and messages in JSON: no message, an empty one, and characters that are escaped and that are not.
#[test]
fn escapes_names_and_messages(rt: HostRuntime) -> Result<(), Fail> {
    let left = run_failing(rt.alloc(), &JSON, &ODD)?;
    let text = str::from_utf8(left.bytes())?;
    for line in &ESCAPED {
        assert!(rt; text.contains(*line), "{line}");
    }
    Ok(())
}
