//! How long trials ran, as the rows of workers say it. With workers it is the clock of the handle that starts their threads that is
//! read, and not the run's.
use super::runs::{SCHEDULES, asking, becoming, outcome_with, run_by};
use super::threads::{Many, QUARTERS, Sleeps, has_lines_of, report_of, run_many};
use libtest_mimic::{Arguments, FormatSetting, Outcome, Schedule, Sink, Spawner, Trial};
use mimic_events::{Report, Row, read_report, write_report};
use mimic_testkit::FaultyWriter;
use std::alloc::{AllocError, Global};
use std::io;
use std::io::ErrorKind;
use std::process::Abort;
use std::rt::Clock;
use std::sync::Wait;
use std::test::Fail;
use std::thread::Threads;
use std::time::Duration;

// What asks for a report in JSON whose rows have times.
pub(super) fn timed(alloc: Global, threads: Option<usize>) -> Arguments {
    let mut args = asking(alloc, FormatSetting::Json, threads);
    args.report_time = true;
    args
}

pub(super) fn read_back(alloc: Global, bytes: &[u8]) -> Result<Report, Fail> {
    Ok(read_report(alloc, bytes)?.ok_or("no report")?)
}

// The name of a trial, and how many milliseconds it waits.
type Waiting = (&'static str, u64);

static WAITS: [Waiting; 3] = [("a", 20), ("b", 40), ("c", 80)];

fn that_wait<M: Clock + Copy + Drop>(
    machine: M,
    alloc: Global,
    waits: &[Waiting],
) -> Result<Vec<Trial<Sleeps<M>>>, AllocError> {
    let mut trials = Vec::new(alloc);
    for (name, millis) in waits {
        let sleeps = Sleeps {
            machine,
            millis: *millis,
        };
        trials.push(Trial::new(String::from_str(alloc, name)?, sleeps))?;
    }
    Ok(trials)
}

// The report of a run of trials that wait, and how many nanoseconds the whole run took.
fn run_waiting<T: Spawner + 'static>(
    rt: &T,
    alloc: Global,
    waits: &[Waiting],
    threads: usize,
    schedule: Schedule,
) -> Result<(Report, u128), Fail> {
    let args = timed(alloc, Some(threads));
    let tests = that_wait(*rt, alloc, waits)?;
    let before = rt.monotonic()?.as_nanos();
    let left = run_by(rt, alloc, &args, tests, Vec::new(alloc), schedule);
    let after = rt.monotonic()?.as_nanos();
    left.answer?;
    Ok((
        read_back(alloc, &left.writer)?,
        after.saturating_sub(before),
    ))
}

// The time of the row of this name, which is there once.
fn time_of(report: &Report, name: &str) -> Option<u64> {
    let mut rows = report.rows.iter().filter(|row| row.name.as_str() == name);
    let row = rows.next()?;
    if rows.next().is_some() {
        return None;
    }
    row.nanos
}

// The row of a trial has the time of that trial: it is at least what it waits, and the run takes no less. The run's own clock stands.
#[test]
fn times_trials_that_wait(rt: HostRuntime) -> Result<(), Fail> {
    for schedule in SCHEDULES {
        for threads in [2, 4] {
            let (report, took) = run_waiting(&rt, rt.alloc(), &WAITS, threads, schedule)?;
            assert!(rt; report.rows.len() == WAITS.len() && report.nanos == 0);
            for (name, millis) in &WAITS {
                let nanos = time_of(&report, name).ok_or("no time")?;
                assert!(rt;
                    millis.saturating_mul(1_000_000) <= nanos && u128::from(nanos) <= took,
                    "{schedule:?} {threads} {name} {nanos} {took}"
                );
            }
        }
    }
    Ok(())
}

// The first and the third are the share of one of two workers.
static LONG_FIRST: [Waiting; 3] = [("a", 500), ("b", 0), ("c", 0)];

// A trial's time doesn't begin with that of the trial before it in its worker's share.
#[test]
fn times_a_trial_behind_a_long_one(rt: HostRuntime) -> Result<(), Fail> {
    let (report, _) = run_waiting(&rt, rt.alloc(), &LONG_FIRST, 2, Schedule::Shares)?;
    let long = time_of(&report, "a").ok_or("no time")?;
    let behind = time_of(&report, "c").ok_or("no time")?;
    assert!(rt;
        behind < 500_000_000 && 500_000_000 <= long,
        "{behind} {long}"
    );
    Ok(())
}

static NUMBERS: [usize; 4] = [1, 2, 4, 16];

// Whether a trial with this outcome was run as a test, so that its row may have a time.
fn has_time(outcome: &Outcome) -> bool {
    matches!(outcome, Outcome::Passed | Outcome::Failed(_))
}

// Runs many trials, checks which rows have times, and returns the report.
fn check_many<T: Spawner + Abort + 'static>(
    rt: &T,
    alloc: Global,
    many: &Many,
    report_time: bool,
) -> Result<Report, Fail> {
    let (_, count, threads, [passed, failed, ignored, measured]) = *many;
    let left = run_many(rt, alloc, many, report_time)?;
    assert!(rt;
        left.counts() == Some([passed, failed, ignored, measured, 0]),
        "{many:?}"
    );
    let report = read_back(alloc, &left.writer)?;
    assert!(rt; report.rows.len() as u64 == count, "{many:?}");
    for row in &report.rows {
        let is_timed = report_time && has_time(&row.outcome);
        assert!(rt; row.nanos.is_some() == is_timed, "{many:?} {}", row.name);
        // One thread reads the run's clock, which stands.
        assert!(rt;
            threads > 1 || row.nanos.unwrap_or(0) == 0,
            "{many:?} {}",
            row.name
        );
    }
    Ok(report)
}

// Takes the times out of the rows, and returns what is written then.
fn without_times(alloc: Global, mut report: Report) -> Result<Vec<u8>, Fail> {
    for row in report.rows.iter_mut() {
        row.nanos = None;
    }
    let mut sink = Sink::new(Vec::new(alloc));
    write_report(&report, &mut sink)?;
    Ok(sink.into_inner())
}

// Of many trials each that passed or failed has a time, and no other has, whatever the number of threads. All else is as without
// times: the report has the lines of each trial once, with its own outcome.
#[test]
fn times_each_of_many(rt: HostRuntime) -> Result<(), Fail> {
    let alloc = rt.alloc();
    for schedule in SCHEDULES {
        for threads in NUMBERS {
            let many = (schedule, 10_000, threads, QUARTERS);
            let report = check_many(&rt, alloc, &many, true)?;
            let bytes = without_times(alloc, report)?;
            let expected = report_of(alloc, &many)?;
            let is_same = has_lines_of(alloc, &bytes, expected.as_str())?;
            assert!(rt; is_same, "{many:?}");
        }
    }
    Ok(())
}

// Without the option none has.
#[test]
fn times_none_unasked(rt: HostRuntime) -> Result<(), Fail> {
    for schedule in SCHEDULES {
        for threads in NUMBERS {
            let many = (schedule, 10_000, threads, QUARTERS);
            check_many(&rt, rt.alloc(), &many, false)?;
        }
    }
    Ok(())
}

// The name and kind of a trial, and the message if it fails. Each looks like a time or a part of a line around one.
type Hostile = (&'static str, &'static str, Option<&'static str>);

static HOSTILE: [Hostile; 10] = [
    ("\"", "\"", None),
    ("\"", "\\", Some("\"")),
    ("a\nb", "\n", Some("\n")),
    ("\"exec_time\": 1", "", None),
    ("\", \"exec_time\": 1", "\"exec_time\": 1", None),
    (
        ", \"event\": \"ok\"",
        ", \"event\": \"ok\"",
        Some("\"exec_time\": 1"),
    ),
    (
        "\", \"event\": \"ok\", \"exec_time\": 1 }\n",
        "\", \"event\": \"ok\", \"exec_time\": 1 }\n",
        Some("\", \"exec_time\": 1 }\n"),
    ),
    ("0.35", "exec_time", Some("")),
    ("a <0.350s>\n", "\0\u{1}\u{8}\u{b}\u{1f}", None),
    (
        "\u{1b}[2J\r\t\u{7f}\u{85}\u{2028}\u{1f600}",
        "",
        Some("\0\u{1}\u{8}\u{b}\u{1f}"),
    ),
];

// Whether the row is of this trial, and has a time.
fn is_of(alloc: Global, row: &Row, hostile: &Hostile) -> Result<bool, AllocError> {
    let (name, kind, message) = hostile;
    let outcome = outcome_with(alloc, *message)?;
    Ok(
        row.name.as_str() == *name
            && row.kind.as_str() == *kind
            && row.outcome == outcome
            && row.nanos.is_some(),
    )
}

// How many of the rows are of this trial and have a time.
fn count_of(alloc: Global, report: &Report, hostile: &Hostile) -> Result<u64, AllocError> {
    let mut count = 0_u64;
    for row in &report.rows {
        if is_of(alloc, row, hostile)? {
            count = count.saturating_add(1);
        }
    }
    Ok(count)
}

// The report of a run of these trials, by the calling thread or by two workers.
fn run_hostile<T: Spawner + 'static>(
    rt: &T,
    alloc: Global,
    threads: Option<usize>,
    schedule: Schedule,
) -> Result<Report, Fail> {
    let mut tests = Vec::new(alloc);
    for (name, kind, message) in &HOSTILE {
        let kind = String::from_str(alloc, kind)?;
        tests.push(becoming(alloc, name, *message)?.with_kind(kind))?;
    }
    let args = timed(alloc, threads);
    let left = run_by(rt, alloc, &args, tests, FaultyWriter::new(alloc), schedule);
    left.answer?;
    read_back(alloc, &left.writer.bytes)
}

// Texts beside times are read back as they are, and are no times.
#[test]
fn reads_back_hostile_texts_beside_times(rt: HostRuntime) -> Result<(), Fail> {
    let alloc = rt.alloc();
    for schedule in SCHEDULES {
        for threads in [None, Some(1), Some(2)] {
            let report = run_hostile(&rt, alloc, threads, schedule)?;
            assert!(rt; report.rows.len() == HOSTILE.len());
            for hostile in &HOSTILE {
                let count = count_of(alloc, &report, hostile)?;
                assert!(rt; count == 1, "{hostile:?} {threads:?} {schedule:?}");
            }
        }
    }
    Ok(())
}

// The machine's threads, and a clock that always reads this, if it can be read.
#[derive(Clone, Copy, Drop)]
struct Standing<R> {
    rt: R,
    reading: Option<Duration>,
}

impl<R: Wait> Wait for Standing<R> {}

impl<R: Threads> Threads for Standing<R> {}

impl<R> Clock for Standing<R> {
    fn monotonic(&self) -> io::Result<Duration> {
        match self.reading {
            Some(reading) => Ok(reading),
            None => Err(io::Error::from(ErrorKind::Unsupported)),
        }
    }

    fn since_1970(&self) -> io::Result<Duration> {
        Err(io::Error::from(ErrorKind::Unsupported))
    }
}

// By a clock that stands the time is 0, and also if it can't be read, or reads more nanoseconds than are counted.
#[test]
fn times_by_a_clock_that_stands(rt: HostRuntime) -> Result<(), Fail> {
    let alloc = rt.alloc();
    let second = Duration::from_secs(1);
    for schedule in SCHEDULES {
        for reading in [Some(second), None, Some(Duration::MAX)] {
            let machine = Standing { rt, reading };
            let left = run_many(&machine, alloc, &(schedule, 8, 2, [2, 2, 2, 2]), true)?;
            let report = read_back(alloc, &left.writer)?;
            assert!(rt; report.rows.len() == 8);
            for row in &report.rows {
                let time = has_time(&row.outcome).then_some(0);
                assert!(rt; row.nanos == time, "{schedule:?} {reading:?} {}", row.name);
            }
        }
    }
    Ok(())
}
