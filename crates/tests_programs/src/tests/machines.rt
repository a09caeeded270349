//! Whole programs, on a machine whose parts are known.
use super::known_machine::{
    NO_OPTIONS, Streams, Variables, Words, known_machine, run_on, run_program_on,
};
use super::programs::{SCHEDULED, eight_tests};
use super::runs::Host;
use libtest_mimic::{Arguments, ArgumentsError, Failed, Line, Outcome, RunError, Task, Trial};
use mimic_main::{Program, Sharding, Status, refuse_line, run_line, trials_of_cases};
use std::alloc::{AllocError, Global};
use std::fmt::Display;
use std::process::{ExitCode, Termination};
use std::sync::Arc;
use std::sync::atomic::{AtomicUsize, Ordering};
use std::test::Fail;
use std::{fmt, thread};

// A test that passes.
#[derive(Drop)]
struct Pass;

impl Task for Pass {
    fn run(self, _test_mode: bool) -> Outcome {
        Outcome::Passed
    }
}

// Variables, whether the output is a terminal, and whether the report has colours: on a terminal that can show them, if `NO_COLOR`
// is unset or empty.
static COLOURS: [(Variables, bool, bool); 10] = [
    (&[("TERM", b"xterm-256color")], true, true),
    (&[("TERM", b"xterm-256color")], false, false),
    (&[("TERM", b"vt52")], true, true),
    (&[("TERM", b"")], true, true),
    (&[("TERM", b"dumb")], true, false),
    (&[], true, false),
    (&[("TERM", b"xterm"), ("NO_COLOR", b"1")], true, false),
    (&[("TERM", b"xterm"), ("NO_COLOR", b"yes")], true, false),
    (&[("TERM", b"xterm"), ("NO_COLOR", b"")], true, true),
    (&[("TERM", b"xterm"), ("NO_COLOR", b"")], false, false),
];

// One test.
fn one_test(alloc: Global) -> Result<Vec<Trial<Pass>>, AllocError> {
    let mut tests = Vec::new(alloc);
    tests.push(Trial::new(String::from_str(alloc, "a")?, Pass))?;
    Ok(tests)
}

// Whether a test runs there, and its report has colours or not, and the time that the clock measured.
fn shows_as_known<H: Host>(
    host: H,
    alloc: Global,
    row: &(Variables, bool, bool),
) -> Result<bool, Fail> {
    let (variables, is_terminal, is_coloured) = row;
    let streams = Streams::new(alloc)?;
    let mut machine = known_machine(host, alloc, NO_OPTIONS, &streams);
    machine.variables = variables;
    machine.is_terminal = *is_terminal;
    let status = run_on(&machine, Ok(one_test(alloc)?));
    let report = String::from_utf8(streams.out.bytes.replace(Vec::new(alloc)))?;
    let report = report.as_str();
    Ok(
        status == ExitCode::SUCCESS
            && report.contains("\u{1b}[32mok") == *is_coloured
            && report.ends_with("; finished in 1.50s\n\n"),
    )
}

#[test]
fn goes_by_its_machine(rt: HostRuntime) -> Result<(), Fail> {
    for row in &COLOURS {
        assert!(rt; shows_as_known(rt, rt.alloc(), row)?, "{:?}", row.0);
    }
    Ok(())
}

// A line that asks for a report in terse by one thread.
const TERSE: Words = &[b"program", b"--format", b"terse", b"--test-threads", b"1"];

// How many writes the report of one test takes, on a machine whose output is a terminal or not.
fn writes_of<H: Host>(host: H, alloc: Global, is_terminal: bool) -> Result<usize, Fail> {
    let tests = one_test(alloc)?;
    let streams = Streams::new(alloc)?;
    let mut machine = known_machine(host, alloc, TERSE, &streams);
    machine.is_terminal = is_terminal;
    let _status = run_on(&machine, Ok(tests));
    Ok(streams.out.writes.get())
}

// A mark goes out at once to the machine's terminal, and else with its line.
#[test]
fn asks_its_machine_for_a_terminal(rt: HostRuntime) -> Result<(), Fail> {
    let lines = writes_of(rt, rt.alloc(), false)?;
    let marks = writes_of(rt, rt.alloc(), true)?;
    assert!(rt; lines > 0 && marks > lines, "{lines} {marks}");
    Ok(())
}

// Whether the text is printed if this is why the tests could not be made.
fn is_refused<H: Host>(
    host: H,
    alloc: Global,
    refusal: RunError,
    text: &str,
) -> Result<bool, AllocError> {
    let streams = Streams::new(alloc)?;
    let machine = known_machine(host, alloc, NO_OPTIONS, &streams);
    let tests: Result<Vec<Trial<Pass>>, RunError> = Err(refusal);
    Ok(run_on(&machine, tests) == ExitCode::from(1) && streams.have_only_printed(alloc, text))
}

// If the tests could not be made, the reason is printed under the program's name.
#[test]
fn prints_why_tests_were_not_made(rt: HostRuntime) -> Result<(), AllocError> {
    let alloc = rt.alloc();
    let memory = "program: out of memory\n";
    assert!(rt; is_refused(rt, alloc, RunError::OutOfMemory, memory)?);
    let threads = "program: no threads to run trials\n";
    assert!(rt; is_refused(rt, alloc, RunError::ZeroThreads, threads)?);
    let worker = "program: cannot start a worker\n";
    assert!(rt; is_refused(rt, alloc, RunError::Spawn, worker)?);
    let arrival = "program: outcome of trial 7 differs from its worker's answer\n";
    assert!(rt; is_refused(rt, alloc, RunError::Arrival { place: 7 }, arrival)?);
    Ok(())
}

// Why there are no tests.
#[derive(Clone, Copy)]
struct Unmade {
    wrong: usize,
    all: usize,
}

impl Display for Unmade {
    fn fmt<W: fmt::Write>(&self, f: &mut fmt::Formatter<W>) -> fmt::Result {
        write!(f, "{} of {} lines are wrong", self.wrong, self.all)
    }
}

// The same holds for a program whose line was read already, if a table of cases could not be made, and for one that ends before
// it has a line, with a reason of its own.
#[test]
fn prints_under_its_name(rt: HostRuntime) -> Result<(), AllocError> {
    let alloc = rt.alloc();
    let streams = Streams::new(alloc)?;
    let machine = known_machine(rt, alloc, NO_OPTIONS, &streams);
    let cases: Result<Vec<(&str, u8)>, RunError> = Err(RunError::Spawn);
    let tests = trials_of_cases(alloc, cases, |_input: u8| Ok(()));
    let status = run_line(
        &machine,
        "by_line",
        Ok(Arguments::new(alloc)),
        Ok(Sharding::none()),
        tests,
    )
    .report(&rt);
    assert!(rt; status == ExitCode::from(1));
    assert!(rt; streams.have_only_printed(alloc, "by_line: cannot start a worker\n"));
    let streams = Streams::new(alloc)?;
    let machine = known_machine(rt, alloc, NO_OPTIONS, &streams);
    let ended: Result<Status, Unmade> = Err(Unmade { wrong: 2, all: 7 });
    let status = Program::on(&machine, "by_end")
        .end(&machine, ended)
        .report(&rt);
    assert!(rt; status == ExitCode::from(1));
    assert!(rt; streams.have_only_printed(alloc, "by_end: 2 of 7 lines are wrong\n"));
    Ok(())
}

// What ends a program before it has trials, its status, and what it prints on standard output and on standard error.
static ENDINGS: [(Ending, u8, &str, &str); 3] = [
    (Ending::Help, 0, "usage: early FILE\n", ""),
    (
        Ending::Refused,
        2,
        "",
        "error: no such suite: x\n\nusage: early FILE\n",
    ),
    (Ending::OutOfMemory, 1, "", "early: out of memory\n"),
];

#[derive(Clone, Copy)]
enum Ending {
    Help,
    Refused,
    OutOfMemory,
}

impl Ending {
    fn error(self, alloc: Global) -> Result<ArgumentsError, AllocError> {
        let usage = "usage: early FILE\n";
        Ok(match self {
            Ending::Help => ArgumentsError::Help(String::from_str(alloc, usage)?),
            Ending::Refused => {
                ArgumentsError::because(alloc, &format_args!("no such suite: {}", "x"), usage)
            }
            Ending::OutOfMemory => ArgumentsError::OutOfMemory,
        })
    }
}

#[test]
fn ends_before_it_has_trials(rt: HostRuntime) -> Result<(), Fail> {
    let alloc = rt.alloc();
    for (ending, status, out, err) in &ENDINGS {
        let streams = Streams::new(alloc)?;
        let machine = known_machine(rt, alloc, NO_OPTIONS, &streams);
        let ended = refuse_line(&machine, "early", ending.error(alloc)?).report(&rt);
        assert!(rt; ended == ExitCode::from(*status));
        let printed = String::from_utf8(streams.out.bytes.replace(Vec::new(alloc)))?;
        assert!(rt; printed.as_str() == *out, "{printed}");
        assert!(rt; streams.into_printed(alloc).as_slice() == err.as_bytes());
    }
    Ok(())
}

// Lines without any word, even the program's name, and with a word that is no text, also after one that asks for help.
static UNREADABLE: [Words; 3] = [
    &[],
    &[b"program", b"a", b"\xff"],
    &[b"program", b"--help", b"\xff"],
];

// Whether the line is refused, and has no words of the program's own either.
fn is_unreadable<H: Host>(host: H, alloc: Global, words: Words) -> Result<bool, Fail> {
    let tests = one_test(alloc)?;
    let streams = Streams::new(alloc)?;
    let machine = known_machine(host, alloc, words, &streams);
    let line = Line::from_args(&machine, alloc);
    let shown = format!(in alloc; "{line:?}")?;
    let is_line_refused = shown.as_str()
        == "Line { own: [], options: Err(Refused(\"cannot read the arguments\")) }";
    let is_refused = run_on(&machine, Ok(tests)) == ExitCode::from(2);
    let is_printed = streams.have_only_printed(alloc, "cannot read the arguments\n");
    Ok(is_line_refused && is_refused && is_printed)
}

#[test]
fn refuses_words_that_are_no_text(rt: HostRuntime) -> Result<(), Fail> {
    for words in &UNREADABLE {
        assert!(rt; is_unreadable(rt, rt.alloc(), words)?);
    }
    Ok(())
}

// A test that passes once `awaited` of them run.
#[derive(Drop)]
struct Meets {
    running: Arc<AtomicUsize>,
    awaited: usize,
}

impl Task for Meets {
    fn run(self, _test_mode: bool) -> Outcome {
        self.running.fetch_add(1, Ordering::SeqCst);
        for _ in 0..100_000_000 {
            if self.running.load(Ordering::SeqCst) >= self.awaited {
                return Outcome::Passed;
            }
        }
        Outcome::Failed(Failed::without_message())
    }
}

// If the line leaves it open, as many tests run at once as the machine can run.
#[test]
fn runs_in_the_threads_of_its_machine(rt: HostRuntime) -> Result<(), Fail> {
    let alloc = rt.alloc();
    let awaited = thread::available_parallelism(&rt)?.get();
    let running = Arc::new(alloc, AtomicUsize::new(0))?;
    let mut tests = Vec::new(alloc);
    for number in 0..awaited {
        let name = format!(in alloc; "{number}")?;
        let running = running.clone()?;
        tests.push(Trial::new(name, Meets { running, awaited }))?;
    }
    let streams = Streams::new(alloc)?;
    let machine = known_machine(rt, alloc, NO_OPTIONS, &streams);
    assert!(rt; run_on(&machine, Ok(tests)) == ExitCode::SUCCESS);
    Ok(())
}

// Tests come to workers as the program says.
#[test]
fn deals_out_or_queues_on_a_machine(rt: HostRuntime) -> Result<(), Fail> {
    let alloc = rt.alloc();
    for (schedule, looks, status) in &SCHEDULED {
        let program = Program::new("plain", 2)
            .with_schedule(*schedule)
            .with_equal_names();
        let streams = Streams::new(alloc)?;
        let machine = known_machine(rt, alloc, NO_OPTIONS, &streams);
        let ran = run_program_on(&machine, &program, eight_tests(alloc, *looks)?);
        assert!(rt; ran == ExitCode::from(*status), "{schedule:?}");
    }
    Ok(())
}
