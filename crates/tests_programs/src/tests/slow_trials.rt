//! Trials that run for too long, and what is printed of them meanwhile.
use super::known_machine::{NO_OPTIONS, Printed, Streams, Words, known_machine, run_program_on};
use super::runs::Host;
use libtest_mimic::{Failed, Outcome, Task, Trial};
use mimic_main::Program;
use std::alloc::{AllocError, Global};
use std::process::ExitCode;
use std::rt::Clock;
use std::sync::Arc;
use std::sync::atomic::Ordering;
use std::test::Fail;
use std::thread;
use std::thread::yield_now;
use std::time::{Duration, Instant};

// A trial that runs until this number of notices was printed, and then looks for more of them for some time.
#[derive(Drop)]
struct Waits {
    printed: Arc<Printed>,
    awaited: usize,
    looks: u64,
}

impl Task for Waits {
    fn run(self, _test_mode: bool) -> Outcome {
        for _ in 0..1_000_000_000 {
            if self.printed.writes.load(Ordering::SeqCst) >= self.awaited {
                break;
            }
            yield_now();
        }
        for _ in 0..self.looks {
            if self.printed.writes.load(Ordering::SeqCst) > self.awaited {
                return Outcome::Failed(Failed::without_message());
            }
        }
        Outcome::Passed
    }
}

// A trial's kind and name, how many notices it waits for, and how often it looks for another one then.
type Awaiting = (&'static str, &'static str, usize, u64);

// A run: its trials, how many threads run them, the limit in milliseconds, and the lines that it prints, in any order.
#[derive(Drop)]
struct Row {
    trials: &'static [Awaiting],
    threads: usize,
    limit: Option<u64>,
    lines: &'static [&'static str],
}

const LIMIT: Option<u64> = Some(20);

// More than the limit takes.
const LOOKS: u64 = 100_000_000;

// For rows in which some trials are fast, also on a busy machine.
const LONGER: Option<u64> = Some(300);

// Instead of how often a trial looks: it is ignored.
const IGNORED: u64 = u64::MAX;

static ROWS: [Row; 10] = [
    Row {
        trials: &[("", "slow", 1, LOOKS)],
        threads: 1,
        limit: LIMIT,
        lines: &["program: slow has been running for over 20 ms\n"],
    },
    Row {
        trials: &[
            ("", "a", 0, 0),
            ("net", "b", 2, LOOKS),
            ("", "c", 2, LOOKS),
            ("", "d", 0, 0),
        ],
        threads: 4,
        limit: LONGER,
        lines: &[
            "program: [net] b has been running for over 300 ms\n",
            "program: c has been running for over 300 ms\n",
        ],
    },
    // One after another in one thread.
    Row {
        trials: &[("", "a", 1, LOOKS), ("", "b", 0, 0), ("", "c", 2, LOOKS)],
        threads: 1,
        limit: LONGER,
        lines: &[
            "program: a has been running for over 300 ms\n",
            "program: c has been running for over 300 ms\n",
        ],
    },
    // Behind one that is ignored.
    Row {
        trials: &[
            ("", "a", 0, IGNORED),
            ("", "b", 1, LOOKS),
            ("", "c", 0, IGNORED),
        ],
        threads: 1,
        limit: LIMIT,
        lines: &["program: b has been running for over 20 ms\n"],
    },
    Row {
        trials: &[("", "a", 0, 0), ("", "b", 0, 0), ("", "c", 0, 0)],
        threads: 2,
        limit: Some(60_000),
        lines: &[],
    },
    Row {
        trials: &[("", "a", 0, LOOKS), ("", "b", 0, 0)],
        threads: 1,
        limit: None,
        lines: &[],
    },
    // What is no letter of a line is written by its number.
    Row {
        trials: &[("k\t", "one\ntwo \u{1b}[31m", 1, LOOKS)],
        threads: 1,
        limit: LIMIT,
        lines: &["program: [k\\u{9}] one\\u{a}two \\u{1b}[31m has been running for over 20 ms\n"],
    },
    Row {
        trials: &[("", "slow", 1, LOOKS)],
        threads: 2,
        limit: Some(1000),
        lines: &["program: slow has been running for over 1 second\n"],
    },
    Row {
        trials: &[("", "slow", 1, LOOKS)],
        threads: 1,
        limit: Some(1001),
        lines: &["program: slow has been running for over 1001 ms\n"],
    },
    Row {
        trials: &[("", "slow", 1, LOOKS)],
        threads: 1,
        limit: Some(2000),
        lines: &["program: slow has been running for over 2 seconds\n"],
    },
];

// What is left of a run.
#[derive(Drop)]
struct Left {
    status: ExitCode,
    printed: String,
}

// Runs the trials, which are to be printed once they have run for longer than the limit. A closed standard error takes nothing.
fn run_limited<H: Host>(
    host: H,
    alloc: Global,
    row: &Row,
    words: Words,
    is_closed: bool,
) -> Result<Left, Fail> {
    let streams = Streams::new(alloc)?;
    let mut machine = known_machine(host, alloc, words, &streams);
    machine.is_closed = is_closed;
    let trials = waiting(alloc, row.trials, &streams.err)?;
    let program = Program::new("program", row.threads.max(1))
        .with_slow_limit(row.limit.map(|millis| Duration::from_millis(millis)))
        .with_equal_names();
    let status = run_program_on(&machine, &program, trials);
    Ok(Left {
        status,
        printed: String::from_utf8(streams.into_printed(alloc))?,
    })
}

// The trials of a row.
fn waiting(
    alloc: Global,
    awaiting: &[Awaiting],
    printed: &Arc<Printed>,
) -> Result<Vec<Trial<Waits>>, AllocError> {
    let mut trials = Vec::new(alloc);
    for (kind, name, awaited, looks) in awaiting {
        let runner = Waits {
            printed: Arc::try_clone(printed)?,
            awaited: *awaited,
            looks: *looks,
        };
        let trial = Trial::new(String::from_str(alloc, name)?, runner);
        let trial = trial.with_ignored_flag(*looks == IGNORED);
        trials.push(trial.with_kind(String::from_str(alloc, kind)?))?;
    }
    Ok(trials)
}

// Whether the text is these lines, each once, in any order.
fn has_lines(text: &str, lines: &[&str]) -> bool {
    let mut bytes = 0_usize;
    for line in lines {
        if !text.contains(*line) {
            return false;
        }
        bytes = bytes.saturating_add(line.len());
    }
    text.len() == bytes
}

// Each trial that runs for too long is printed once, while it runs, and others are not.
#[test]
fn prints_slow_trials(rt: HostRuntime) -> Result<(), Fail> {
    for row in &ROWS {
        let left = run_limited(rt, rt.alloc(), row, NO_OPTIONS, false)?;
        assert!(rt; left.status == ExitCode::SUCCESS);
        assert!(rt;
            has_lines(left.printed.as_str(), row.lines),
            "{:?}",
            left.printed
        );
    }
    Ok(())
}

// Sleeps, once a number of notices were printed.
#[derive(Drop)]
struct Sleeps<M> {
    machine: M,
    printed: Arc<Printed>,
    awaited: usize,
    millis: u64,
}

impl<M: Clock + Drop> Task for Sleeps<M> {
    fn run(self, _test_mode: bool) -> Outcome {
        for _ in 0..1_000_000_000 {
            if self.printed.writes.load(Ordering::SeqCst) >= self.awaited {
                break;
            }
            yield_now();
        }
        thread::sleep(&self.machine, Duration::from_millis(self.millis));
        Outcome::Passed
    }
}

// The name of a trial, how many notices it awaits, and how many milliseconds it sleeps then.
type Sleeping = (&'static str, usize, u64);

// In milliseconds.
const LONGEST: u64 = 800;

// Trials that run one after another in one thread, and what is printed of those that run for longer than `LONGEST`. In the first row
// none does, but all together do.
static SLEEPING: [(&[Sleeping], &str); 2] = [
    (&[("a", 0, 600), ("b", 0, 600)], ""),
    (
        &[("a", 1, 0), ("b", 0, 450)],
        "program: a has been running for over 800 ms\n",
    ),
];

// What is printed of a run of them.
fn printed_of<H: Host>(host: H, alloc: Global, trials: &[Sleeping]) -> Result<String, Fail> {
    let streams = Streams::new(alloc)?;
    let machine = known_machine(host, alloc, NO_OPTIONS, &streams);
    let mut tests = Vec::new(alloc);
    for (name, awaited, millis) in trials {
        let runner = Sleeps {
            machine: host,
            printed: Arc::try_clone(&streams.err)?,
            awaited: *awaited,
            millis: *millis,
        };
        tests.push(Trial::new(String::from_str(alloc, name)?, runner))?;
    }
    let program = Program::new("program", 1).with_slow_limit(Some(Duration::from_millis(LONGEST)));
    let _ = run_program_on(&machine, &program, tests);
    Ok(String::from_utf8(streams.into_printed(alloc))?)
}

// How long a trial runs is counted from its own start, and not from that of the trial before it in its thread.
#[test]
fn counts_from_the_start_of_each_trial(rt: HostRuntime) -> Result<(), Fail> {
    for (trials, text) in &SLEEPING {
        let printed = printed_of(rt, rt.alloc(), trials)?;
        assert!(rt; printed.as_str() == *text, "{printed:?}");
    }
    Ok(())
}

// Of some that are selected, it is the one that runs whose name is printed.
#[test]
fn prints_slow_trials_among_selected(rt: HostRuntime) -> Result<(), Fail> {
    for threads in [1, 2] {
        let row = Row {
            trials: &[
                ("", "skipped", 0, 0),
                ("", "a", 0, 0),
                ("net", "skipped", 0, 0),
                ("net", "b", 1, LOOKS),
            ],
            threads,
            limit: LONGER,
            lines: &["program: [net] b has been running for over 300 ms\n"],
        };
        let words: Words = &[b"program", b"--skip", b"skipped"];
        let left = run_limited(rt, rt.alloc(), &row, words, false)?;
        assert!(rt; left.status == ExitCode::SUCCESS);
        assert!(rt;
            has_lines(left.printed.as_str(), row.lines),
            "{:?}",
            left.printed
        );
    }
    Ok(())
}

// Sixteen that run at the same time, of which each waits until all were printed.
#[test]
fn prints_all_of_many_threads(rt: HostRuntime) -> Result<(), Fail> {
    static TRIALS: [Awaiting; 16] = [("", "trial", 16, LOOKS); 16];
    let row = Row {
        trials: &TRIALS,
        threads: 16,
        limit: LIMIT,
        lines: &[],
    };
    let left = run_limited(rt, rt.alloc(), &row, NO_OPTIONS, false)?;
    let line = "program: trial has been running for over 20 ms\n";
    assert!(rt; left.status == ExitCode::SUCCESS);
    assert!(rt; left.printed.len() == 16 * line.len());
    assert!(rt;
        left.printed
            .as_str()
            .split(line)
            .all(|rest| rest.is_empty())
    );
    Ok(())
}

// While nobody takes what is printed, the run waits for the thread that prints it only a little longer.
#[test]
fn ends_with_a_notice_that_nobody_reads(rt: HostRuntime) -> Result<(), Fail> {
    let alloc = rt.alloc();
    let streams = Streams::new(alloc)?;
    let machine = known_machine(rt, alloc, NO_OPTIONS, &streams);
    let runner = Sleeps {
        machine: rt,
        printed: Arc::try_clone(&streams.err)?,
        awaited: 0,
        millis: 200,
    };
    let tests = vec![in alloc; Trial::new(String::from_str(alloc, "slow")?, runner)]?;
    let program = Program::new("program", 1).with_slow_limit(Some(Duration::from_millis(20)));
    let taken = streams.err.bytes.lock(&rt);
    let start = Instant::now(&rt)?;
    let status = run_program_on(&machine, &program, tests);
    let took = start.elapsed(&rt)?;
    assert!(rt; taken.is_empty() && streams.err.writes.load(Ordering::SeqCst) == 0);
    drop(taken);
    assert!(rt; status == ExitCode::SUCCESS);
    assert!(rt; took.as_millis() < 2000, "{took:?}");
    Ok(())
}

// If nothing can be printed, the run is as it would be without.
#[test]
fn runs_without_standard_error(rt: HostRuntime) -> Result<(), Fail> {
    let row = Row {
        trials: &[("", "a", 0, LOOKS), ("", "b", 0, 0)],
        threads: 1,
        limit: LIMIT,
        lines: &[],
    };
    let left = run_limited(rt, rt.alloc(), &row, NO_OPTIONS, true)?;
    assert!(rt; left.status == ExitCode::SUCCESS && left.printed.is_empty());
    Ok(())
}
