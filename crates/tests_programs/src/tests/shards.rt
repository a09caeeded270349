//! Programs in shards: what the variables of an environment ask, and what is printed of them.
use super::known_machine::{
    NO_OPTIONS, PRESENT_SECONDS, Streams, Variables, Words, known_machine, run_on,
};
use super::runs::Host;
use libtest_mimic::{Outcome, RunError, Task, Trial};
use mimic_main::Program;
use std::alloc::{AllocError, Global};
use std::fs;
use std::process::{Abort, ExitCode, Termination};
use std::sync::Arc;
use std::sync::atomic::{AtomicUsize, Ordering};
use std::test::Fail;
use std::time::{Duration, UNIX_EPOCH};

// A test that counts its runs, in the decimal place that is its own.
#[derive(Drop)]
struct Counts {
    runs: Arc<AtomicUsize>,
    place: usize,
}

impl Task for Counts {
    fn run(self, _test_mode: bool) -> Outcome {
        self.runs.fetch_add(self.place, Ordering::SeqCst);
        Outcome::Passed
    }
}

static FIVE: [(&str, usize); 5] = [("a", 1), ("b", 10), ("c", 100), ("d", 1000), ("e", 10000)];

// Tests of the names `a` to `e`.
fn five_tests(alloc: Global, runs: &Arc<AtomicUsize>) -> Result<Vec<Trial<Counts>>, Fail> {
    let mut tests = Vec::new(alloc);
    for (name, place) in &FIVE {
        let name = String::from_str(alloc, name)?;
        let (runs, place) = (Arc::try_clone(runs)?, *place);
        tests.push(Trial::new(name, Counts { runs, place }))?;
    }
    Ok(tests)
}

// What a program of five tests leaves: its status, what it has printed, and how often each test ran, in a decimal place each,
// that of the first one last.
#[derive(Drop)]
struct Left {
    status: ExitCode,
    out: String,
    err: String,
    runs: usize,
}

fn run_five<H: Host>(
    host: H,
    alloc: Global,
    words: Words,
    variables: Variables,
) -> Result<Left, Fail> {
    let runs = Arc::new(alloc, AtomicUsize::new(0))?;
    let streams = Streams::new(alloc)?;
    let mut machine = known_machine(host, alloc, words, &streams);
    machine.variables = variables;
    let status = run_on(&machine, Ok(five_tests(alloc, &runs)?));
    Ok(Left {
        status,
        out: String::from_utf8(streams.out.bytes.replace(Vec::new(alloc)))?,
        err: String::from_utf8(streams.into_printed(alloc))?,
        runs: runs.load(Ordering::SeqCst),
    })
}

const TOTAL: &str = "TEST_TOTAL_SHARDS";

const INDEX: &str = "TEST_SHARD_INDEX";

const STATUS_FILE: &str = "TEST_SHARD_STATUS_FILE";

const ONLY: &str = "TESTBRIDGE_TEST_ONLY";

const LIST: Words = &[b"program", b"--list"];

const NO_LOGFILE: Words = &[b"program", b"--logfile", b"no_folder/log"];

const NO_THREADS: Words = &[b"program", b"--test-threads", b"0"];

// The first of two shards.
const HALF: Variables = &[(TOTAL, b"2"), (INDEX, b"0")];

const HALF_RUNS: &str = "program: shard 1 of 2: 3 of 5 trials\n";

const NO_TOTAL: &str = "program: TEST_TOTAL_SHARDS is missing, but TEST_SHARD_INDEX is set\n";

const NO_INDEX: &str = "program: TEST_SHARD_INDEX is missing, but TEST_TOTAL_SHARDS is set\n";

const ODD_TOTAL: &str = "program: TEST_TOTAL_SHARDS is not a number of shards\n";

const ODD_INDEX: &str = "program: TEST_SHARD_INDEX is not a number below TEST_TOTAL_SHARDS\n";

// The words of a line, variables, the status, which tests run, and what is printed on standard error. A line without a filter
// takes that of the variables, and selects of its shard. If more is wrong, the first fault is printed. If a status file can't
// be touched, no test has run yet.
type End = (Words, Variables, u8, usize, &'static str);

static ENDS: [End; 28] = [
    (NO_OPTIONS, &[], 0, 11111, ""),
    (NO_OPTIONS, HALF, 0, 10101, HALF_RUNS),
    (
        NO_OPTIONS,
        &[(TOTAL, b"2"), (INDEX, b"1")],
        0,
        1010,
        "program: shard 2 of 2: 2 of 5 trials\n",
    ),
    (
        NO_OPTIONS,
        &[(TOTAL, b"1"), (INDEX, b"0")],
        0,
        11111,
        "program: shard 1 of 1: 5 of 5 trials\n",
    ),
    (
        NO_OPTIONS,
        &[(TOTAL, b"7"), (INDEX, b"6")],
        0,
        0,
        "program: shard 7 of 7: 0 of 5 trials\n",
    ),
    (NO_OPTIONS, &[(ONLY, b"b")], 0, 10, ""),
    (NO_OPTIONS, &[(ONLY, b"")], 0, 11111, ""),
    (&[b"program", b"a", b"c"], &[(ONLY, b"b")], 0, 101, ""),
    (&[b"program", b"--skip", b"b"], &[(ONLY, b"b")], 0, 0, ""),
    (&[b"program", b"--exact"], &[(ONLY, b"d")], 0, 1000, ""),
    (
        NO_OPTIONS,
        &[(TOTAL, b"2"), (INDEX, b"0"), (ONLY, b"c")],
        0,
        100,
        HALF_RUNS,
    ),
    (
        NO_OPTIONS,
        &[(TOTAL, b"2"), (INDEX, b"0"), (ONLY, b"d")],
        0,
        0,
        HALF_RUNS,
    ),
    (&[b"program", b"a", b"b"], HALF, 0, 1, HALF_RUNS),
    (NO_OPTIONS, &[(INDEX, b"x")], 2, 0, NO_TOTAL),
    (NO_OPTIONS, &[(TOTAL, b"4")], 2, 0, NO_INDEX),
    (NO_OPTIONS, &[(TOTAL, b"")], 2, 0, NO_INDEX),
    (NO_OPTIONS, &[(TOTAL, b"0"), (INDEX, b"x")], 2, 0, ODD_TOTAL),
    (NO_OPTIONS, &[(TOTAL, b"4"), (INDEX, b"4")], 2, 0, ODD_INDEX),
    (
        NO_OPTIONS,
        &[(TOTAL, b"\xff"), (INDEX, b"x")],
        2,
        0,
        "program: TEST_TOTAL_SHARDS is not UTF-8\n",
    ),
    (
        NO_OPTIONS,
        &[(TOTAL, b"x"), (INDEX, b"\xff")],
        2,
        0,
        "program: TEST_SHARD_INDEX is not UTF-8\n",
    ),
    (
        NO_OPTIONS,
        &[(ONLY, b"\xff")],
        2,
        0,
        "program: TESTBRIDGE_TEST_ONLY is not UTF-8\n",
    ),
    (
        NO_OPTIONS,
        &[(TOTAL, b"1"), (INDEX, b"0"), (STATUS_FILE, b"\xff")],
        2,
        0,
        "program: TEST_SHARD_STATUS_FILE is not UTF-8\n",
    ),
    (
        NO_OPTIONS,
        &[(TOTAL, b"1"), (INDEX, b"0"), (STATUS_FILE, b"")],
        2,
        0,
        "program: cannot touch the status file : No such file or directory (os error 2)\n",
    ),
    (NO_OPTIONS, &[(STATUS_FILE, b"/")], 0, 11111, ""),
    (
        NO_LOGFILE,
        &[(TOTAL, b"2"), (INDEX, b"2"), (STATUS_FILE, b"/")],
        2,
        0,
        ODD_INDEX,
    ),
    (
        NO_LOGFILE,
        &[(TOTAL, b"2"), (INDEX, b"0"), (STATUS_FILE, b"/")],
        2,
        0,
        "program: cannot touch the status file /: Is a directory (os error 21)\n",
    ),
    (
        NO_LOGFILE,
        HALF,
        1,
        0,
        "program: shard 1 of 2: 3 of 5 trials\n\
        program: cannot create the logfile no_folder/log: No such file or directory (os error 2)\n",
    ),
    (
        NO_THREADS,
        HALF,
        1,
        0,
        "program: shard 1 of 2: 3 of 5 trials\nprogram: no threads to run trials\n",
    ),
];

// Runs the tests, and checks what is left.
fn check_end<H: Host + Abort>(host: H, end: &End) -> Result<(), Fail> {
    let (words, variables, status, runs, text) = end;
    let left = run_five(host, host.alloc(), words, variables)?;
    assert!(host; left.err.as_str() == *text, "{text} {}", left.err);
    let is_right = left.status == ExitCode::from(*status)
        && left.runs == *runs
        && left.out.is_empty() == (*status != 0);
    assert!(host; is_right, "{text}");
    Ok(())
}

#[test]
fn ends_as_the_variables_ask(rt: HostRuntime) -> Result<(), Fail> {
    for end in &ENDS {
        check_end(rt, end)?;
    }
    Ok(())
}

// The words of a line, the pair of a shard, and what is printed on standard output.
static OUTPUTS: [(Words, Variables, &str); 4] = [
    (
        NO_OPTIONS,
        &[(TOTAL, b"6"), (INDEX, b"5")],
        "\nrunning 0 tests\n\n\
        test result: ok. 0 passed; 0 failed; 0 ignored; 0 measured; 0 filtered out; finished in 1.50s\n\n",
    ),
    (LIST, HALF, "a: test\nc: test\ne: test\n"),
    (LIST, &[(TOTAL, b"3"), (INDEX, b"1")], "b: test\ne: test\n"),
    (LIST, &[(TOTAL, b"6"), (INDEX, b"5")], ""),
];

#[test]
fn prints_of_its_shard(rt: HostRuntime) -> Result<(), Fail> {
    for (words, variables, text) in &OUTPUTS {
        let left = run_five(rt, rt.alloc(), words, variables)?;
        assert!(rt; left.status == ExitCode::SUCCESS && left.runs == 0);
        assert!(rt; left.out.as_str() == *text, "{}", left.out);
    }
    Ok(())
}

const TOUCHED: &[u8] = b"touches_its_status_file";

const TOUCHING: Variables = &[(TOTAL, b"2"), (INDEX, b"0"), (STATUS_FILE, TOUCHED)];

// The words of a line, variables, the status, and whether the file is touched.
static TOUCHES: [(Words, Variables, u8, bool); 9] = [
    (NO_OPTIONS, TOUCHING, 0, true),
    (LIST, TOUCHING, 0, true),
    (&[b"program", b"--help"], TOUCHING, 0, false),
    (&[b"program", b"--no-option"], TOUCHING, 2, false),
    (
        NO_OPTIONS,
        &[(TOTAL, b"9"), (INDEX, b"8"), (STATUS_FILE, TOUCHED)],
        0,
        true,
    ),
    (
        NO_OPTIONS,
        &[(TOTAL, b"2"), (INDEX, b"2"), (STATUS_FILE, TOUCHED)],
        2,
        false,
    ),
    (
        NO_OPTIONS,
        &[(TOTAL, b"2"), (STATUS_FILE, TOUCHED)],
        2,
        false,
    ),
    (
        NO_OPTIONS,
        &[
            (TOTAL, b"2"),
            (INDEX, b"0"),
            (STATUS_FILE, TOUCHED),
            (ONLY, b"\xff"),
        ],
        2,
        false,
    ),
    (NO_OPTIONS, &[(STATUS_FILE, TOUCHED)], 0, false),
];

const PATH: &str = "touches_its_status_file";

// The status of a program of five tests.
fn status_of<H: Host>(host: H, words: Words, variables: Variables) -> Result<ExitCode, Fail> {
    Ok(run_five(host, host.alloc(), words, variables)?.status)
}

// Whether the file was changed at the present time.
fn is_touched<H: Host>(host: H) -> Result<bool, Fail> {
    let present = UNIX_EPOCH.checked_add(Duration::from_secs(PRESENT_SECONDS));
    let changed = fs::metadata(&host, PATH)?.modified()?;
    Ok(Some(changed) == present)
}

// A file that is touched keeps its content and was changed at the present time, or is made.
#[test]
fn touches_its_status_file(rt: HostRuntime) -> Result<(), Fail> {
    for (words, variables, status, touches) in &TOUCHES {
        fs::write(&rt, PATH, "stays")?;
        assert!(rt; status_of(rt, words, variables)? == ExitCode::from(*status));
        assert!(rt; is_touched(rt)? == *touches);
        assert!(rt; fs::read_to_string(&rt, PATH)?.as_str() == "stays");
    }
    fs::remove_file(&rt, PATH)?;
    status_of(rt, NO_OPTIONS, TOUCHING)?;
    fs::remove_file(&rt, PATH)?;
    Ok(())
}

// Whatever else is wrong.
#[test]
fn prints_first_why_tests_were_not_made(rt: HostRuntime) -> Result<(), AllocError> {
    let alloc = rt.alloc();
    let streams = Streams::new(alloc)?;
    let mut machine = known_machine(rt, alloc, &[b"program", b"--no-option"], &streams);
    machine.variables = &[(TOTAL, b"x")];
    let unmade: Result<Vec<Trial<Counts>>, RunError> = Err(RunError::Spawn);
    assert!(rt; run_on(&machine, unmade) == ExitCode::from(1));
    assert!(rt; streams.have_only_printed(alloc, "program: cannot start a worker\n"));
    Ok(())
}

// `Program::run` goes by the line alone.
#[test]
fn runs_without_variables(rt: HostRuntime) -> Result<(), Fail> {
    let alloc = rt.alloc();
    let runs = Arc::new(alloc, AtomicUsize::new(0))?;
    let streams = Streams::new(alloc)?;
    let mut machine = known_machine(rt, alloc, NO_OPTIONS, &streams);
    machine.variables = &[(TOTAL, b"5"), (INDEX, b"x"), (ONLY, b"a")];
    let unsharded = Program::new("unsharded", 1);
    let status = unsharded.run(&machine, five_tests(alloc, &runs)?);
    assert!(rt; status.report(&rt) == ExitCode::SUCCESS);
    assert!(rt;
        runs.load(Ordering::SeqCst) == 11111 && streams.err.writes.load(Ordering::SeqCst) == 0
    );
    Ok(())
}
