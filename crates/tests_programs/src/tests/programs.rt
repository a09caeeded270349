//! What a program reports, and the status that it ends with.
ghost use Rattle.libtest_mimic.specs.Trial.{AllCanRun};

use super::outputs::Marked;
use super::runs::{Host, run_tests};
use libtest_mimic::pool::{Arrival, Untold};
use libtest_mimic::{
    Arguments, Failed, FormatSetting, Outcome, RunError, Schedule, Task, Trial, WriteFault,
};
use mimic_main::{Program, StillClock};
use mimic_testkit::{Fault, FaultPlace, FaultyWriter};
use std::alloc::{AllocError, Global};
use std::fmt::Debug;
use std::io::{ErrorKind, Write};
use std::process::{Abort, ExitCode, Termination};
use std::sync::Arc;
use std::sync::atomic::{AtomicU64, Ordering};
use std::test::Fail;
use std::{fs, io, thread};

fn plain() -> Program<'static> {
    Program::new("plain", 4).without_causes()
}

fn telling() -> Program<'static> {
    Program::new("telling", 4).with_colours(true)
}

// A test that passes.
#[derive(Drop)]
struct Pass;

impl Task for Pass {
    fn run(self, _test_mode: bool) -> Outcome {
        Outcome::Passed
    }
}

// Takes two bytes, and then fails.
fn narrow(alloc: Global) -> FaultyWriter {
    let full = Fault::Error(ErrorKind::StorageFull);
    FaultyWriter::new(alloc)
        .failing(FaultPlace::Byte(2), full)
        .for_ever()
}

// What asks for this format, and for this number of threads and a logfile if there are some.
fn asking(
    alloc: Global,
    format: FormatSetting,
    threads: Option<usize>,
    logfile: Option<&str>,
) -> Result<Arguments, AllocError> {
    let mut args = Arguments::new(alloc);
    args.format = Some(format);
    args.test_threads = threads;
    if let Some(path) = logfile {
        args.logfile = Some(String::from_str(alloc, path)?);
    }
    Ok(args)
}

// What a program leaves.
#[derive(Drop)]
struct Left<O> {
    out: O,
    err: String,
    status: ExitCode,
}

// Runs the tests, and keeps what is printed on standard error.
fn run_program<H: Host, R: Task + Send + 'static, O: Write + Drop>(
    rt: &H,
    program: &Program<'_>,
    args: Arguments,
    tests: Vec<Trial<R>>,
    out: O,
) -> Result<Left<O>, Fail>
    requires runnable { AllCanRun R.can_run tests.items }
{
    let alloc = rt.alloc();
    let mut err: Vec<u8> = Vec::new(alloc);
    let (out, status) = run_tests(rt, program, Ok(args), tests, out, &mut err);
    let err = String::from_utf8(err)?;
    Ok(Left { out, err, status })
}

// Tests of these names, which pass.
fn passing(alloc: Global, names: &[&str]) -> Result<Vec<Trial<Pass>>, AllocError> {
    let mut tests = Vec::new(alloc);
    for name in names {
        tests.push(Trial::new(String::from_str(alloc, name)?, Pass))?;
    }
    Ok(tests)
}

// Runs one test, which passes.
fn run_one<H: Host, O: Write + Drop>(
    rt: &H,
    program: &Program<'_>,
    args: Arguments,
    out: O,
) -> Result<Left<O>, Fail> {
    run_program(rt, program, args, passing(rt.alloc(), &["a"])?, out)
}

// What a test finds in a file: this and nothing else when it runs, or this part at some time while it runs.
#[derive(Clone, Copy, Debug)]
enum Found {
    Whole(&'static str),
    InTime(&'static str),
}

// A test that passes if it finds this in the file at the path.
#[derive(Drop)]
struct Finds {
    rt: HostRuntime,
    path: &'static str,
    found: Found,
}

impl Finds {
    fn has_found(&self, bytes: &[u8]) -> bool {
        match (self.found, str::from_utf8(bytes)) {
            (Found::Whole(text), Ok(report)) => report == text,
            (Found::InTime(part), Ok(report)) => report.contains(part),
            _ => false,
        }
    }

    // How often it looks into the file.
    fn looks(&self) -> u64 {
        match self.found {
            Found::Whole(_) => 1,
            Found::InTime(_) => 1_000_000,
        }
    }
}

impl Task for Finds {
    fn run(self, _test_mode: bool) -> Outcome {
        for _ in 0..self.looks() {
            if let Ok(bytes) = fs::read(&self.rt, self.path)
                && self.has_found(&bytes)
            {
                return Outcome::Passed;
            }
        }
        Outcome::Failed(Failed::without_message())
    }
}

// A format, how many threads run two tests, and what the first and the second of them find.
type Look = (FormatSetting, usize, Found, Found);

const ONE_RUNS: &str = "{ \"type\": \"suite\", \"event\": \"started\", \"test_count\": 2 }\n\
    { \"type\": \"test\", \"event\": \"started\", \"name\": \"a\" }\n";

const OTHER_RUNS: &str = "{ \"type\": \"suite\", \"event\": \"started\", \"test_count\": 2 }\n\
    { \"type\": \"test\", \"event\": \"started\", \"name\": \"a\" }\n\
    { \"type\": \"test\", \"name\": \"a\", \"event\": \"ok\" }\n\
    { \"type\": \"test\", \"event\": \"started\", \"name\": \"b\" }\n";

// With one thread what came before, with the announcement of the running test. With workers the title when the tests run, and in
// pretty and JSON the row of a test when it has ended, while the other one still runs.
static LOOKS: [Look; 6] = [
    (
        FormatSetting::Pretty,
        1,
        Found::Whole("\nrunning 2 tests\ntest a ... "),
        Found::Whole("\nrunning 2 tests\ntest a ... ok\ntest b ... "),
    ),
    (
        FormatSetting::Terse,
        1,
        Found::Whole("\nrunning 2 tests\n"),
        Found::Whole("\nrunning 2 tests\n"),
    ),
    (
        FormatSetting::Json,
        1,
        Found::Whole(ONE_RUNS),
        Found::Whole(OTHER_RUNS),
    ),
    (
        FormatSetting::Pretty,
        4,
        Found::InTime("\nrunning 2 tests\n"),
        Found::InTime("test a ... ok\n"),
    ),
    (
        FormatSetting::Terse,
        4,
        Found::InTime("\nrunning 2 tests\n"),
        Found::InTime("\nrunning 2 tests\n"),
    ),
    (
        FormatSetting::Json,
        4,
        Found::InTime("\"test_count\": 2 }\n"),
        Found::InTime("\"name\": \"a\", \"event\": \"ok\" }\n"),
    ),
];

// The two tests, over the file at the path.
fn finders(
    rt: HostRuntime,
    look: &Look,
    path: &'static str,
) -> Result<Vec<Trial<Finds>>, AllocError> {
    let mut tests = Vec::new(rt.alloc());
    for (name, found) in [("a", look.2), ("b", look.3)] {
        let finds = Finds { rt, path, found };
        tests.push(Trial::new(String::from_str(rt.alloc(), name)?, finds))?;
    }
    Ok(tests)
}

// On standard output and in a logfile.
#[test]
fn shows_what_runs_and_what_has_ended(rt: HostRuntime) -> Result<(), Fail> {
    let path = "shows_what_runs_and_what_has_ended";
    for look in &LOOKS {
        for logfile in [None, Some(path)] {
            let args = asking(rt.alloc(), look.0, Some(look.1), logfile)?;
            let out = fs::create(&rt, if logfile.is_some() { "/dev/null" } else { path })?;
            let left = run_program(&rt, &plain(), args, finders(rt, look, path)?, out)?;
            assert!(rt; left.status == ExitCode::SUCCESS, "{:?} {}", look.0, look.1);
        }
    }
    fs::remove_file(&rt, path)?;
    Ok(())
}

// A test that leaves a file when it runs.
#[derive(Drop)]
struct Leaves {
    rt: HostRuntime,
    path: &'static str,
}

impl Task for Leaves {
    fn run(self, _test_mode: bool) -> Outcome {
        match fs::create(&self.rt, self.path) {
            Ok(_) => Outcome::Passed,
            Err(_) => Outcome::Failed(Failed::without_message()),
        }
    }
}

fn leavers(rt: HostRuntime, path: &'static str) -> Result<Vec<Trial<Leaves>>, AllocError> {
    let mut tests = Vec::new(rt.alloc());
    for name in ["a", "b", "c", "d"] {
        tests.push(Trial::new(String::from_str(rt.alloc(), name)?, Leaves { rt, path }))?;
    }
    Ok(tests)
}

static UNTITLED: [(FormatSetting, usize, Option<&str>); 12] = [
    (FormatSetting::Pretty, 1, None),
    (FormatSetting::Pretty, 1, Some("/dev/full")),
    (FormatSetting::Pretty, 4, None),
    (FormatSetting::Pretty, 4, Some("/dev/full")),
    (FormatSetting::Terse, 1, None),
    (FormatSetting::Terse, 1, Some("/dev/full")),
    (FormatSetting::Terse, 4, None),
    (FormatSetting::Terse, 4, Some("/dev/full")),
    (FormatSetting::Json, 1, None),
    (FormatSetting::Json, 1, Some("/dev/full")),
    (FormatSetting::Json, 4, None),
    (FormatSetting::Json, 4, Some("/dev/full")),
];

// If the title can't be written, on standard output or in a logfile, no test is run.
#[test]
fn runs_nothing_without_a_title(rt: HostRuntime) -> Result<(), Fail> {
    let path = "runs_nothing_without_a_title";
    for row in &UNTITLED {
        let args = asking(rt.alloc(), row.0, Some(row.1), row.2)?;
        let left = run_program(&rt, &plain(), args, leavers(rt, path)?, narrow(rt.alloc()))?;
        let is_told = left.err.as_str() == "plain: cannot write the report\n";
        assert!(rt;
            is_told && left.status == ExitCode::from(1),
            "{:?} {}",
            row.0,
            row.1
        );
        assert!(rt; fs::read(&rt, path).is_err(), "{:?} {}", row.0, row.1);
    }
    Ok(())
}

// A test that counts itself, and passes if `awaited` tests have done so before it has looked `looks` times.
#[derive(Drop)]
pub(super) struct Awaits {
    count: Arc<AtomicU64>,
    awaited: u64,
    looks: u64,
}

impl Task for Awaits {
    fn run(self, _test_mode: bool) -> Outcome {
        self.count.fetch_add(1, Ordering::SeqCst);
        for _ in 0..self.looks {
            if self.count.load(Ordering::SeqCst) >= self.awaited {
                return Outcome::Passed;
            }
            thread::yield_now();
        }
        Outcome::Failed(Failed::without_message())
    }
}

// Eight tests, the first of which awaits the others.
pub(super) fn eight_tests(alloc: Global, looks: u64) -> Result<Vec<Trial<Awaits>>, AllocError> {
    let count = Arc::new(alloc, AtomicU64::new(0))?;
    let mut tests = Vec::new(alloc);
    for awaited in [8, 0, 0, 0, 0, 0, 0, 0] {
        let awaits = Awaits {
            count: Arc::try_clone(&count)?,
            awaited,
            looks,
        };
        tests.push(Trial::new(String::from_str(alloc, "a")?, awaits))?;
    }
    Ok(tests)
}

// How tests come to two workers, how often the first one looks for the others, and the status: from a queue the other worker takes
// them all, and in the first worker's share three wait behind it, so it fails however often it looks.
pub(super) static SCHEDULED: [(Schedule, u64, u8); 2] = [
    (Schedule::Queue, 10_000_000, 0),
    (Schedule::Shares, 1_000, 101),
];

// Over a vector, which serves as standard output.
#[test]
fn deals_out_or_queues(rt: HostRuntime) -> Result<(), Fail> {
    for (schedule, looks, status) in &SCHEDULED {
        let program = Program::new("plain", 2).with_schedule(*schedule);
        let args = Arguments::new(rt.alloc());
        let tests = eight_tests(rt.alloc(), *looks)?;
        let out: Vec<u8> = Vec::new(rt.alloc());
        let left = run_program(&rt, &program, args, tests, out)?;
        assert!(rt; left.status == ExitCode::from(*status), "{schedule:?}");
        assert!(rt;
            left.out.ends_with(b"; finished in 0.00s\n\n"),
            "{schedule:?}"
        );
    }
    Ok(())
}

const TITLE: &str = "{ \"type\": \"suite\", \"event\": \"started\", \"test_count\": 1 }\n";

const TITLE_AND_ANNOUNCEMENT: &str = r#"{ "type": "suite", "event": "started", "test_count": 1 }
{ "type": "test", "event": "started", "name": "a" }
"#;

const ROW: &str = r#"{ "type": "test", "event": "started", "name": "a" }
{ "type": "test", "name": "a", "event": "ok" }
"#;

// A format, whether the output is a terminal, the number of threads, and what the first write of the report of one test has, and
// the second one: with one thread first the title and the announcement, with more the title, and then the row. In terse it is
// the title, and on a terminal the mark, too.
static WRITES: [(FormatSetting, bool, usize, &str, &str); 8] = [
    (
        FormatSetting::Pretty,
        false,
        1,
        "\nrunning 1 test\ntest a ... ",
        "",
    ),
    (
        FormatSetting::Pretty,
        true,
        4,
        "\nrunning 1 test\n",
        "test a ... ok\n",
    ),
    (FormatSetting::Json, true, 1, TITLE_AND_ANNOUNCEMENT, ""),
    (FormatSetting::Json, false, 4, TITLE, ROW),
    (FormatSetting::Terse, false, 1, "\nrunning 1 test\n", ""),
    (FormatSetting::Terse, false, 4, "\nrunning 1 test\n", ""),
    (FormatSetting::Terse, true, 1, "\nrunning 1 test\n", "."),
    (FormatSetting::Terse, true, 4, "\nrunning 1 test\n", "."),
];

// Whether the first write of the row's report, and the second one if it is known, are as the row says.
fn writes_so<H: Host>(
    host: &H,
    row: &(FormatSetting, bool, usize, &str, &str),
) -> Result<bool, Fail> {
    let alloc = host.alloc();
    let (format, is_terminal, threads, first, second) = row;
    let args = asking(alloc, *format, Some(*threads), None)?;
    let program = plain().with_terminal(*is_terminal);
    let left = run_one(host, &program, args, Marked::new(alloc, usize::MAX))?;
    let marks = left.out.marks.as_slice();
    let len = first.len().saturating_add(second.len());
    Ok(
        left.status == ExitCode::SUCCESS
            && marks.first() == Some(&first.len())
            && (second.is_empty() || marks.get(1) == Some(&len)),
    )
}

#[test]
fn writes_at_once_what_comes_at_once(rt: HostRuntime) -> Result<(), Fail> {
    for row in &WRITES {
        assert!(rt; writes_so(&rt, row)?, "{:?} {}", row.0, row.2);
    }
    Ok(())
}

// A report of two tests that passed, and one that has their rows the other way round.
static REPORTS: [&str; 2] = [
    r#"{ "type": "suite", "event": "started", "test_count": 2 }
{ "type": "test", "event": "started", "name": "a" }
{ "type": "test", "name": "a", "event": "ok" }
{ "type": "test", "event": "started", "name": "b" }
{ "type": "test", "name": "b", "event": "ok" }
{ "type": "suite", "event": "ok", "passed": 2, "failed": 0, "ignored": 0, "measured": 0, "filtered_out": 0, "exec_time": 0 }
"#,
    r#"{ "type": "suite", "event": "started", "test_count": 2 }
{ "type": "test", "event": "started", "name": "b" }
{ "type": "test", "name": "b", "event": "ok" }
{ "type": "test", "event": "started", "name": "a" }
{ "type": "test", "name": "a", "event": "ok" }
{ "type": "suite", "event": "ok", "passed": 2, "failed": 0, "ignored": 0, "measured": 0, "filtered_out": 0, "exec_time": 0 }
"#,
];

// Runs two tests that pass, by this number of threads.
fn run_two<H: Host>(rt: &H, threads: usize, out: FaultyWriter) -> Result<Left<FaultyWriter>, Fail> {
    let alloc = rt.alloc();
    let args = asking(alloc, FormatSetting::Json, Some(threads), None)?;
    run_program(rt, &telling(), args, passing(alloc, &["a", "b"])?, out)
}

// Whether the line reports this fault. A write of nothing is reported by the sink, or as an error by the buffer.
fn tells_cause(alloc: Global, line: &str, fault: Fault) -> Result<bool, Fail> {
    let cause = line
        .strip_prefix("telling: cannot write the report to standard output: ")
        .unwrap_or("");
    let (kind, is_zero) = match fault {
        Fault::Error(kind) => (kind, false),
        Fault::TakesNone => (ErrorKind::WriteZero, true),
    };
    let by_system = format!(in alloc; "{}\n", io::Error::from(kind))?;
    Ok(cause == by_system.as_str() || is_zero && cause == "the writer took no byte\n")
}

// Whether a report into a writer that fails once is a beginning of a whole one, nothing more is asked for, and the program prints
// the fault with its cause. How many flushes there are is for the threads to say.
fn ends_so(
    alloc: Global,
    left: &Left<FaultyWriter>,
    place: FaultPlace,
    fault: Fault,
) -> Result<bool, Fail> {
    let bytes = left.out.bytes.as_slice();
    let [report, reordered] = REPORTS;
    let is_beginning = report.as_bytes().starts_with(bytes)
        || reordered.as_bytes().starts_with(bytes);
    let is_at_place = !matches!(place, FaultPlace::Byte(count) if count != bytes.len());
    let is_printed = if left.out.has_failed {
        tells_cause(alloc, left.err.as_str(), fault)?
    } else {
        left.err.is_empty()
    };
    let status = ExitCode::from(u8::from(left.out.has_failed));
    let is_quiet = left.out.calls_after == 0;
    Ok(is_beginning && is_at_place && is_printed && is_quiet && left.status == status)
}

// The first place, and the fault there, that leads to another end.
fn first_wrong_end<H: Host>(host: &H, threads: usize) -> Result<Option<(FaultPlace, Fault)>, Fail> {
    let alloc = host.alloc();
    let whole = run_two(host, threads, FaultyWriter::new(alloc))?;
    for place in whole.out.places(alloc)? {
        for fault in Fault::ALL {
            let writer = FaultyWriter::new(alloc).failing(place, fault);
            let left = run_two(host, threads, writer)?;
            if !ends_so(alloc, &left, place, fault)? {
                return Ok(Some((place, fault)));
            }
        }
    }
    Ok(None)
}

#[test]
fn ends_at_a_fault(rt: HostRuntime) -> Result<(), Fail> {
    let alloc = rt.alloc();
    let count = REPORTS[0].len();
    for threads in [1, 2] {
        let whole = run_two(&rt, threads, FaultyWriter::new(alloc))?;
        assert!(rt; whole.out.bytes.len() == count);
        let by_bytes = run_two(&rt, threads, FaultyWriter::new(alloc).taking(1))?;
        assert!(rt; by_bytes.out.bytes.len() == count);
        let wrong = first_wrong_end(&rt, threads)?;
        assert!(rt; wrong.is_none(), "{wrong:?}");
    }
    Ok(())
}

// What `Debug` shows of a value.
fn check_debug<T: Debug>(
    rt: &impl Abort,
    alloc: Global,
    value: &T,
    text: &str,
) -> Result<(), Fail> {
    let shown = format!(in alloc; "{value:?}")?;
    assert!(rt; shown.as_str() == text, "{shown}");
    Ok(())
}

// The public types of a run, as a derived `Debug` shows them.
#[test]
fn shows_values(rt: HostRuntime) -> Result<(), Fail> {
    let alloc = rt.alloc();
    check_debug(&rt, alloc, &RunError::OutOfMemory, "OutOfMemory")?;
    check_debug(
        &rt,
        alloc,
        &RunError::Write(WriteFault::Zero),
        "Write(Zero)",
    )?;
    check_debug(&rt, alloc, &RunError::ZeroThreads, "ZeroThreads")?;
    check_debug(&rt, alloc, &RunError::Spawn, "Spawn")?;
    let arrival = RunError::Arrival { place: 7 };
    check_debug(&rt, alloc, &arrival, "Arrival { place: 7 }")
}

// The same for those of a program.
#[test]
fn shows_values_of_programs(rt: HostRuntime) -> Result<(), Fail> {
    let alloc = rt.alloc();
    check_debug(&rt, alloc, &Arrival::Stranger, "Stranger")?;
    check_debug(&rt, alloc, &Untold, "Untold")?;
    check_debug(&rt, alloc, &StillClock, "StillClock")?;
    let program =
        "Program { name: \"telling\", threads: 4, auto_colours: true, prints_causes: true, schedule: Queue, on_terminal: false, slow_limit: Some(60s), warns_of_equal_names: true }";
    check_debug(&rt, alloc, &telling(), program)
}

#[test]
fn shows_a_status(rt: HostRuntime) -> Result<(), Fail> {
    let mut err: Vec<u8> = Vec::new(rt.alloc());
    let status = plain().refuse(RunError::Spawn, &mut err);
    let shown = format!(in rt.alloc(); "{status:?}");
    assert!(rt; status.report(&rt) == ExitCode::from(1));
    assert!(rt; shown?.as_str() == "Status { number: 1 }");
    Ok(())
}
