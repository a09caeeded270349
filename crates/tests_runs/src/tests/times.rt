//! How long trials ran, as their rows say it, by clocks whose readings are known.
use super::in_memory::{Asked, NOTHING, asking, run_by_clock, run_in_workers};
use libtest_mimic::{
    Clock, ColorSetting, FormatSetting, Outcome, Schedule, Sink, Spawner, Stopwatch, Task, Trial,
    run_here,
};
use mimic_testkit::Answer::{Benchmark, Test};
use mimic_testkit::{Entry, MIXED_BAG, RaisedClock, known_trials};
use std::alloc::{AllocError, Global};
use std::io;
use std::io::Write;
use std::sync::Arc;
use std::sync::atomic::{AtomicU64, Ordering};
use std::test::Fail;

// Reads these nanoseconds, one after another. The last one stays.
#[derive(Drop)]
struct Listed {
    readings: &'static [u64],
}

impl Clock for Listed {
    fn now(&mut self) -> u64 {
        match self.readings {
            [now, later @ ..] => {
                if !later.is_empty() {
                    self.readings = later;
                }
                *now
            }
            [] => 0,
        }
    }
}

macro_rules! entry {
    ($name:literal, $kind:literal, $is_ignored:literal, $answer:expr) => {
        Entry {
            name: $name,
            kind: $kind,
            is_ignored: $is_ignored,
            answer: $answer,
        }
    };
}

const TRIALS: &[Entry] = &[
    entry!("none", "", false, Test(Ok(()))),
    entry!("five", "", false, Test(Err("Woops"))),
    entry!("below", "", false, Test(Ok(()))),
    entry!("tie", "k", false, Test(Ok(()))),
    entry!("ignored", "", true, Test(Ok(()))),
    entry!("back", "", false, Test(Ok(()))),
    entry!("longest", "", false, Test(Ok(()))),
    entry!("again", "k", false, Test(Err("one\ntwo"))),
    entry!("measures", "", false, Benchmark(Ok((32, 3)))),
    entry!("breaks", "", false, Benchmark(Err("three"))),
];

// The clock at the start, before and after each of these trials in turn, and at the end. It goes back twice while a trial runs, and
// often between trials.
const READINGS: &[u64] = &[
    700,
    1_000,
    1_000,
    0,
    5_000_000,
    10_000_000,
    15_499_999,
    10_000_000,
    15_500_000,
    1_000_000_000,
    9_000_000_000,
    5,
    4,
    0,
    u64::MAX,
    u64::MAX,
    0,
    650_000_000,
    1_000_000_000,
    1_000_000_000,
    62_000_000_000,
    1_500_000_700,
];

const TWO: &[Entry] = &[
    entry!("a", "", false, Test(Ok(()))),
    entry!("b", "", false, Test(Err("Woops"))),
];

const BENCHES: &[Entry] = &[
    entry!("t", "", false, Test(Ok(()))),
    entry!("m", "", false, Benchmark(Ok((32, 3)))),
    entry!("f", "", false, Benchmark(Err("Woops"))),
];

const BENCH_READINGS: &[u64] = &[0, 0, 1_000_000, 0, 5_000_000, 0, 350_000_000, 0];

const TIMED: Asked = Asked {
    report_time: true,
    ..NOTHING
};

const TIMED_TERSE: Asked = Asked {
    format: Some(FormatSetting::Terse),
    ..TIMED
};

const TIMED_JSON: Asked = Asked {
    format: Some(FormatSetting::Json),
    ..TIMED
};

const JSON: Asked = Asked {
    format: Some(FormatSetting::Json),
    ..NOTHING
};

// What is asked of a run of trials, the readings of its clock, and the whole report.
struct Row {
    asked: Asked,
    table: &'static [Entry],
    readings: &'static [u64],
    report: &'static str,
}

static ROWS: [Row; 9] = [
    Row {
        asked: TIMED,
        table: TRIALS,
        readings: READINGS,
        report: "\nrunning 10 tests\ntest     none     ... ok <0.000s>\ntest     five     ... FAILED <0.005s>\ntest     below    ... ok <0.005s>\ntest [k] tie      ... ok <0.006s>\ntest     ignored  ... ignored\ntest     back     ... ok <0.000s>\ntest     longest  ... ok <18446744073.710s>\ntest [k] again    ... FAILED <0.000s>\ntest     measures ... ok <0.350s>\ntest     breaks   ... FAILED <61.000s>\n\nfailures:\n\n---- five ----\nWoops\n\n---- again ----\none\ntwo\n\n---- breaks ----\nthree\n\n\nfailures:\n    five\n    again\n    breaks\n\ntest result: FAILED. 6 passed; 3 failed; 1 ignored; 0 measured; 0 filtered out; finished in 1.50s\n\n",
    },
    Row {
        asked: TIMED_TERSE,
        table: TRIALS,
        readings: READINGS,
        report: "\nrunning 10 tests\n.F..i..F.F\nfailures:\n\n---- five ----\nWoops\n\n---- again ----\none\ntwo\n\n---- breaks ----\nthree\n\n\nfailures:\n    five\n    again\n    breaks\n\ntest result: FAILED. 6 passed; 3 failed; 1 ignored; 0 measured; 0 filtered out; finished in 1.50s\n\n",
    },
    Row {
        asked: TIMED_JSON,
        table: TRIALS,
        readings: READINGS,
        report: r#"{ "type": "suite", "event": "started", "test_count": 10 }
{ "type": "test", "event": "started", "name": "none" }
{ "type": "test", "name": "none", "event": "ok", "exec_time": 0 }
{ "type": "test", "event": "started", "name": "five" }
{ "type": "test", "name": "five", "event": "failed", "exec_time": 0.005, "stdout": "Error: \"Woops\"\n" }
{ "type": "test", "event": "started", "name": "below" }
{ "type": "test", "name": "below", "event": "ok", "exec_time": 0.005499999 }
{ "type": "test", "event": "started", "name": "tie", "kind": "k" }
{ "type": "test", "name": "tie", "kind": "k", "event": "ok", "exec_time": 0.0055 }
{ "type": "test", "event": "started", "name": "ignored" }
{ "type": "test", "name": "ignored", "event": "ignored" }
{ "type": "test", "event": "started", "name": "back" }
{ "type": "test", "name": "back", "event": "ok", "exec_time": 0 }
{ "type": "test", "event": "started", "name": "longest" }
{ "type": "test", "name": "longest", "event": "ok", "exec_time": 18446744073.709551615 }
{ "type": "test", "event": "started", "name": "again", "kind": "k" }
{ "type": "test", "name": "again", "kind": "k", "event": "failed", "exec_time": 0, "stdout": "Error: \"one\ntwo\"\n" }
{ "type": "test", "event": "started", "name": "measures" }
{ "type": "test", "name": "measures", "event": "ok", "exec_time": 0.35 }
{ "type": "test", "event": "started", "name": "breaks" }
{ "type": "test", "name": "breaks", "event": "failed", "exec_time": 61, "stdout": "Error: \"three\"\n" }
{ "type": "suite", "event": "failed", "passed": 6, "failed": 3, "ignored": 1, "measured": 0, "filtered_out": 0, "exec_time": 1.5 }
"#,
    },
    // What was measured has no time, and neither have tests, which are ignored then.
    Row {
        asked: Asked {
            bench: true,
            ..TIMED
        },
        table: BENCHES,
        readings: BENCH_READINGS,
        report: "\nrunning 3 tests\ntest t ... ignored\ntest m ... bench:          32 ns/iter (+/- 3)\ntest f ... FAILED <0.350s>\n\nfailures:\n\n---- f ----\nWoops\n\n\nfailures:\n    f\n\ntest result: FAILED. 0 passed; 1 failed; 1 ignored; 1 measured; 0 filtered out; finished in 0.00s\n\n",
    },
    Row {
        asked: Asked {
            bench: true,
            ..TIMED_TERSE
        },
        table: BENCHES,
        readings: BENCH_READINGS,
        report: "\nrunning 3 tests\nibench:          32 ns/iter (+/- 3)\nF\nfailures:\n\n---- f ----\nWoops\n\n\nfailures:\n    f\n\ntest result: FAILED. 0 passed; 1 failed; 1 ignored; 1 measured; 0 filtered out; finished in 0.00s\n\n",
    },
    Row {
        asked: Asked {
            bench: true,
            ..TIMED_JSON
        },
        table: BENCHES,
        readings: BENCH_READINGS,
        report: r#"{ "type": "suite", "event": "started", "test_count": 3 }
{ "type": "test", "event": "started", "name": "t" }
{ "type": "test", "name": "t", "event": "ignored" }
{ "type": "test", "event": "started", "name": "m" }
{ "type": "bench", "name": "m", "median": 32, "deviation": 3 }
{ "type": "test", "event": "started", "name": "f" }
{ "type": "test", "name": "f", "event": "failed", "exec_time": 0.35, "stdout": "Error: \"Woops\"\n" }
{ "type": "suite", "event": "failed", "passed": 0, "failed": 1, "ignored": 1, "measured": 1, "filtered_out": 0, "exec_time": 0 }
"#,
    },
    Row {
        asked: Asked {
            color: Some(ColorSetting::Always),
            ..TIMED
        },
        table: TWO,
        readings: &[0, 0, 5_000_000, 0, 1_500_000_000, 0],
        report: "\nrunning 2 tests\ntest a ... \x1b[32mok\x1b[0m <0.005s>\ntest b ... \x1b[31mFAILED\x1b[0m <1.500s>\n\nfailures:\n\n---- b ----\nWoops\n\n\nfailures:\n    b\n\ntest result: \x1b[31mFAILED\x1b[0m. 1 passed; 1 failed; 0 ignored; 0 measured; 0 filtered out; finished in 0.00s\n\n",
    },
    // Without the option the second reading is that at the end.
    Row {
        asked: NOTHING,
        table: TWO,
        readings: &[0, 1_500_000_000, 0],
        report: "\nrunning 2 tests\ntest a ... ok\ntest b ... FAILED\n\nfailures:\n\n---- b ----\nWoops\n\n\nfailures:\n    b\n\ntest result: FAILED. 1 passed; 1 failed; 0 ignored; 0 measured; 0 filtered out; finished in 1.50s\n\n",
    },
    Row {
        asked: JSON,
        table: TWO,
        readings: &[0, 1_500_000_000, 0],
        report: r#"{ "type": "suite", "event": "started", "test_count": 2 }
{ "type": "test", "event": "started", "name": "a" }
{ "type": "test", "name": "a", "event": "ok" }
{ "type": "test", "event": "started", "name": "b" }
{ "type": "test", "name": "b", "event": "failed", "stdout": "Error: \"Woops\"\n" }
{ "type": "suite", "event": "failed", "passed": 1, "failed": 1, "ignored": 0, "measured": 0, "filtered_out": 0, "exec_time": 1.5 }
"#,
    },
];

// Rows of passed and failed trials say how long their trials ran, in each format as it says it, and 0 if the clock went back.
#[test]
fn writes_times(rt: HostRuntime) -> Result<(), Fail> {
    let alloc = rt.alloc();
    for row in &ROWS {
        let tests = known_trials(alloc, row.table)?;
        let clock = Listed {
            readings: row.readings,
        };
        let left = run_by_clock(alloc, &row.asked, tests, clock)?;
        let text = str::from_utf8(left.bytes())?;
        assert!(rt; text == row.report, "{text}");
    }
    Ok(())
}

// Counts its readings, and reads their number.
#[derive(Drop)]
struct Counting {
    count: Arc<AtomicU64>,
}

impl Clock for Counting {
    fn now(&mut self) -> u64 {
        self.count.fetch_add(1, Ordering::SeqCst)
    }
}

// What is asked of a run of the 17 trials, how they come to workers if `run_here` isn't called, and how often the clock is read.
type Counted = (Asked, Option<Schedule>, u64);

// It is read at the start and at the end, and with the option twice for each selected trial, also if that is ignored, or if the
// format shows no times. With one worker trials run in the calling thread; with two the machine's clock times them. A list is no run:
// it reads the clock at its start.
static COUNTED: [Counted; 17] = [
    (NOTHING, None, 2),
    (JSON, None, 2),
    (
        Asked {
            bench: true,
            ..NOTHING
        },
        None,
        2,
    ),
    (TIMED, None, 36),
    (TIMED_TERSE, None, 36),
    (TIMED_JSON, None, 36),
    (
        Asked {
            test: true,
            ..TIMED
        },
        None,
        36,
    ),
    (
        Asked {
            bench: true,
            ..TIMED
        },
        None,
        36,
    ),
    (
        Asked {
            filter: Some("apple"),
            ..TIMED
        },
        None,
        6,
    ),
    (
        Asked {
            filter: Some("nothing"),
            ..TIMED
        },
        None,
        2,
    ),
    (
        Asked {
            list: true,
            ..TIMED
        },
        None,
        1,
    ),
    (
        Asked {
            threads: Some(1),
            ..NOTHING
        },
        Some(Schedule::Shares),
        2,
    ),
    (
        Asked {
            threads: Some(1),
            ..TIMED
        },
        Some(Schedule::Shares),
        36,
    ),
    (
        Asked {
            threads: Some(1),
            ..TIMED
        },
        Some(Schedule::Queue),
        36,
    ),
    (
        Asked {
            threads: Some(2),
            ..NOTHING
        },
        Some(Schedule::Shares),
        2,
    ),
    (
        Asked {
            threads: Some(2),
            ..TIMED
        },
        Some(Schedule::Shares),
        2,
    ),
    (
        Asked {
            threads: Some(2),
            ..TIMED
        },
        Some(Schedule::Queue),
        2,
    ),
];

// How often the clock of a run of the 17 trials is read.
fn readings_of<T: Spawner + 'static>(
    rt: &T,
    alloc: Global,
    asked: &Asked,
    by: Option<Schedule>,
) -> Result<u64, Fail> {
    let count = Arc::new(alloc, AtomicU64::new(0))?;
    let clock = Counting {
        count: Arc::try_clone(&count)?,
    };
    let tests = known_trials(alloc, &MIXED_BAG)?;
    let _ = match by {
        Some(schedule) => run_in_workers(rt, alloc, asked, tests, clock, schedule)?,
        None => run_by_clock(alloc, asked, tests, clock)?,
    };
    Ok(count.load(Ordering::SeqCst))
}

#[test]
fn reads_the_clock(rt: HostRuntime) -> Result<(), Fail> {
    for (number, (asked, by, want)) in COUNTED.iter().enumerate() {
        let count = readings_of(&rt, rt.alloc(), asked, *by)?;
        assert!(rt; count == *want, "{number}: {count}");
    }
    Ok(())
}

// Raises the clock that the run reads by this many milliseconds while it runs.
#[derive(Drop)]
struct Raises {
    nanos: Arc<AtomicU64>,
    millis: u64,
}

impl Task for Raises {
    fn run(self, _test_mode: bool) -> Outcome {
        self.nanos
            .fetch_add(self.millis.saturating_mul(1_000_000), Ordering::SeqCst);
        Outcome::Passed
    }
}

// A writer that raises it by a second with each write and each flush.
#[derive(Drop)]
struct RaisingWriter {
    nanos: Arc<AtomicU64>,
    bytes: Vec<u8>,
}

impl RaisingWriter {
    fn raise(&self) {
        self.nanos.fetch_add(1_000_000_000, Ordering::SeqCst);
    }
}

impl Write for RaisingWriter {
    fn write(&mut self, buf: &[u8]) -> io::Result<usize> {
        self.raise();
        self.bytes.extend_from_slice(buf)?;
        Ok(buf.len())
    }

    fn flush(&mut self) -> io::Result<()> {
        self.raise();
        Ok(())
    }
}

// Trials that raise the clock, the last of which has the ignored flag.
fn that_raise(alloc: Global, nanos: &Arc<AtomicU64>) -> Result<Vec<Trial<Raises>>, AllocError> {
    let mut tests = Vec::new(alloc);
    for (name, millis, is_ignored) in &[
        ("a", 5, false),
        ("b", 0, false),
        ("c", 350, false),
        ("d", 7, true),
    ] {
        let nanos = Arc::try_clone(nanos)?;
        let raises = Raises {
            nanos,
            millis: *millis,
        };
        let name = String::from_str(alloc, name)?;
        tests.push(Trial::new(name, raises).with_ignored_flag(*is_ignored))?;
    }
    Ok(tests)
}

// What a run of them writes by the calling thread.
fn written_by_raising(alloc: Global, asked: &Asked) -> Result<Vec<u8>, Fail> {
    let nanos = Arc::new(alloc, AtomicU64::new(0))?;
    let tests = that_raise(alloc, &nanos)?;
    let args = asking(alloc, asked)?;
    let mut sink = Sink::new(RaisingWriter {
        nanos: Arc::try_clone(&nanos)?,
        bytes: Vec::new(alloc),
    });
    let mut watch = Stopwatch::new(RaisedClock { nanos });
    run_here(alloc, &args, tests, &mut sink, &mut watch, false)?;
    Ok(sink.into_inner().bytes)
}

// What is asked of the run, and its rows.
static RAISED: [(Asked, &str); 2] = [
    (
        TIMED,
        "\nrunning 4 tests\ntest a ... ok <0.005s>\ntest b ... ok <0.000s>\ntest c ... ok <0.350s>\ntest d ... ignored\n\n",
    ),
    (
        TIMED_JSON,
        r#"{ "type": "suite", "event": "started", "test_count": 4 }
{ "type": "test", "event": "started", "name": "a" }
{ "type": "test", "name": "a", "event": "ok", "exec_time": 0.005 }
{ "type": "test", "event": "started", "name": "b" }
{ "type": "test", "name": "b", "event": "ok", "exec_time": 0 }
{ "type": "test", "event": "started", "name": "c" }
{ "type": "test", "name": "c", "event": "ok", "exec_time": 0.35 }
{ "type": "test", "event": "started", "name": "d" }
{ "type": "test", "name": "d", "event": "ignored" }
"#,
    ),
];

// A row has the time of its runner alone: what writing took doesn't count, neither before the trial nor after it.
#[test]
fn times_runners_alone(rt: HostRuntime) -> Result<(), Fail> {
    for (asked, rows) in &RAISED {
        let bytes = written_by_raising(rt.alloc(), asked)?;
        let text = str::from_utf8(&bytes)?;
        assert!(rt; text.starts_with(*rows), "{text}");
    }
    Ok(())
}
