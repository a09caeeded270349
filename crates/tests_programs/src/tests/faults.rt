//! Writers that fail once and then are well: a report is whole, or a beginning of it is written and nothing is done any more.
use libtest_mimic::{
    Arguments, Conclusion, Failed, FormatSetting, Outcome, Request, RunError, Schedule, Selection,
    Sink, Spawner, Stopwatch, Task, Trial, WriteFault, run_request,
};
use mimic_main::{FlushPolicy, Output, StillClock};
use mimic_testkit::{Fault, FaultPlace, FaultyWriter};
use std::alloc::{AllocError, Global};
use std::io;
use std::io::{ErrorKind, Write};
use std::sync::Arc;
use std::sync::atomic::{AtomicBool, AtomicU64, Ordering};
use std::test::Fail;

// Whether the writer has failed, and how many tests ran after that.
#[derive(Drop)]
struct Seen {
    has_failed: AtomicBool,
    runs_after: AtomicU64,
}

// Lets its tests know, too, whether it has failed.
#[derive(Drop)]
struct Telling {
    writer: FaultyWriter,
    seen: Arc<Seen>,
}

impl Write for Telling {
    fn write(&mut self, buf: &[u8]) -> io::Result<usize> {
        let written = self.writer.write(buf);
        let has_failed = self.writer.has_failed;
        self.seen.has_failed.store(has_failed, Ordering::SeqCst);
        written
    }

    fn flush(&mut self) -> io::Result<()> {
        let flushed = self.writer.flush();
        let has_failed = self.writer.has_failed;
        self.seen.has_failed.store(has_failed, Ordering::SeqCst);
        flushed
    }
}

// A test of this outcome, which counts the runs after the writer has failed.
#[derive(Drop)]
struct Watched {
    outcome: Outcome,
    seen: Arc<Seen>,
}

impl Task for Watched {
    fn run(self, _test_mode: bool) -> Outcome {
        let Watched { outcome, seen } = self;
        let late = u64::from(seen.has_failed.load(Ordering::SeqCst));
        seen.runs_after.fetch_add(late, Ordering::SeqCst);
        outcome
    }
}

// What a run of three tests leaves.
#[derive(Drop)]
struct Left {
    is_ok: bool,
    writer: FaultyWriter,
    runs_after: u64,
}

// A test that passes, one that fails with a message of two lines, and one of a long name: a part of the name, how often the
// name has it, and the message.
static THREE_TESTS: [(&str, usize, Option<&str>); 3] = [
    ("passes", 1, None),
    ("fails\t", 1, Some("first line\nsecond \"line\"")),
    ("long name ", 26, None),
];

// A failure with the message, or else a pass.
fn outcome_with(alloc: Global, message: Option<&str>) -> Result<Outcome, AllocError> {
    Ok(match message {
        Some(text) => Outcome::Failed(Failed::with_message(String::from_str(alloc, text)?)),
        None => Outcome::Passed,
    })
}

fn three_tests(alloc: Global, seen: &Arc<Seen>) -> Result<Vec<Trial<Watched>>, AllocError> {
    let mut tests = Vec::new(alloc);
    for (name, repeats, message) in &THREE_TESTS {
        let name = name.repeat(alloc, *repeats)?;
        let outcome = outcome_with(alloc, *message)?;
        let seen = Arc::try_clone(seen)?;
        tests.push(Trial::new(name, Watched { outcome, seen }))?;
    }
    Ok(tests)
}

// Runs the three tests in one thread.
fn run_three<T: Spawner + 'static>(
    rt: &T,
    alloc: Global,
    args: &Arguments,
    policy: FlushPolicy,
    writer: FaultyWriter,
) -> Result<Left, Fail> {
    let seen = Seen {
        has_failed: AtomicBool::new(false),
        runs_after: AtomicU64::new(0),
    };
    let seen = Arc::new(alloc, seen)?;
    let tests = three_tests(alloc, &seen)?;
    let output = Output::new(policy, Telling { writer, seen });
    let request = Request {
        selection: Selection::new(args, tests),
        default_threads: 1,
        auto_colours: false,
        schedule: Schedule::Queue,
        running: None,
    };
    let mut sink = Sink::new(output);
    let mut watch = Stopwatch::new(StillClock);
    watch.start();
    let ran = run_request(rt, alloc, request, &mut sink, &mut watch);
    let (telling, finished) = sink.into_inner().finish();
    assert_memory(&ran)?;
    Ok(Left {
        is_ok: ran.is_ok() && finished.is_ok(),
        writer: telling.writer,
        runs_after: telling.seen.runs_after.load(Ordering::SeqCst),
    })
}

// A refused allocation is no fault of the writer.
fn assert_memory(ran: &Result<Conclusion, RunError>) -> Result<(), Fail> {
    match ran {
        Err(RunError::OutOfMemory) => Err(RunError::OutOfMemory.into()),
        _ => Ok(()),
    }
}

impl Left {
    // Whether the run was refused, a beginning was written, nothing more was asked of the writer, though it was well again, and
    // no runner was called.
    fn is_right(&self, whole: &[u8]) -> bool {
        let is_quiet = self.writer.calls_after == 0 && self.runs_after == 0;
        let is_beginning = whole.starts_with(self.writer.bytes.as_slice());
        self.writer.has_failed && !self.is_ok && is_quiet && is_beginning
    }
}

// The first place, and the fault there, that leads to a run that isn't right. The faults come in turn.
fn first_wrong_place<T: Spawner + 'static>(
    rt: &T,
    alloc: Global,
    args: &Arguments,
    policy: FlushPolicy,
) -> Result<Option<(FaultPlace, Fault)>, Fail> {
    let whole = run_three(rt, alloc, args, policy, FaultyWriter::new(alloc))?;
    let faults = Fault::ALL;
    for (number, place) in whole.writer.places(alloc)?.into_iter().enumerate() {
        let fault = faults[number % faults.len()];
        let writer = FaultyWriter::new(alloc).failing(place, fault);
        let left = run_three(rt, alloc, args, policy, writer)?;
        if !left.is_right(whole.writer.bytes.as_slice()) {
            return Ok(Some((place, fault)));
        }
    }
    Ok(None)
}

// The same of a report in this format by each of the policies, and then of a list.
fn first_wrong_in<T: Spawner + 'static>(
    rt: &T,
    alloc: Global,
    format: FormatSetting,
    policies: [FlushPolicy; 2],
) -> Result<Option<(FaultPlace, Fault)>, Fail> {
    let mut args = Arguments::new(alloc);
    args.format = Some(format);
    for policy in policies {
        let wrong = first_wrong_place(rt, alloc, &args, policy)?;
        if wrong.is_some() {
            return Ok(wrong);
        }
    }
    args.list = true;
    first_wrong_place(rt, alloc, &args, FlushPolicy::WhenFull)
}

// As a report by one thread and by two is written out.
#[test]
fn stops_pretty_at_each_place(rt: HostRuntime) -> Result<(), Fail> {
    let policies = [FlushPolicy::OnFlush, FlushPolicy::OnLineEnd];
    let wrong = first_wrong_in(&rt, rt.alloc(), FormatSetting::Pretty, policies)?;
    assert!(rt; wrong.is_none(), "{wrong:?}");
    Ok(())
}

// As a report is written out to a file and to a terminal.
#[test]
fn stops_terse_at_each_place(rt: HostRuntime) -> Result<(), Fail> {
    let policies = [FlushPolicy::OnLineEnd, FlushPolicy::Always];
    let wrong = first_wrong_in(&rt, rt.alloc(), FormatSetting::Terse, policies)?;
    assert!(rt; wrong.is_none(), "{wrong:?}");
    Ok(())
}

// As a report by one thread and by two is written out.
#[test]
fn stops_json_at_each_place(rt: HostRuntime) -> Result<(), Fail> {
    let policies = [FlushPolicy::OnEvenLineEnd, FlushPolicy::OnLineEnd];
    let wrong = first_wrong_in(&rt, rt.alloc(), FormatSetting::Json, policies)?;
    assert!(rt; wrong.is_none(), "{wrong:?}");
    Ok(())
}

static POLICIES: [FlushPolicy; 5] = [
    FlushPolicy::Always,
    FlushPolicy::OnFlush,
    FlushPolicy::OnLineEnd,
    FlushPolicy::OnEvenLineEnd,
    FlushPolicy::WhenFull,
];

// A piece that fills a block, by each policy, with a writer that fails once: no call is well after that, flushes neither.
#[test]
fn fails_after_a_fault(rt: HostRuntime) -> Result<(), Fail> {
    for policy in &POLICIES {
        let writer = FaultyWriter::new(rt.alloc()).failing(FaultPlace::Write(1), Fault::ALL[0]);
        let mut output = Output::new(*policy, writer);
        assert!(rt; output.write_all(&[0; 4096]).is_err());
        assert!(rt; output.flush().is_err());
        assert!(rt; output.write_all(b"a").is_err());
        let (writer, finished) = output.finish();
        assert!(rt; finished.is_err());
        assert!(rt; writer.calls_after == 0);
    }
    Ok(())
}

// The place at which a writer fails, how, and the kind of error that the call reports.
static TOLD: [(FaultPlace, Fault, ErrorKind); 4] = [
    (
        FaultPlace::Write(1),
        Fault::Error(ErrorKind::StorageFull),
        ErrorKind::StorageFull,
    ),
    (
        FaultPlace::Write(1),
        Fault::Error(ErrorKind::Interrupted),
        ErrorKind::Interrupted,
    ),
    (FaultPlace::Write(1), Fault::TakesNone, ErrorKind::WriteZero),
    (
        FaultPlace::Byte(10),
        Fault::Error(ErrorKind::StorageFull),
        ErrorKind::StorageFull,
    ),
];

// The kind of the error that a write reports, if it reports one.
fn kind_of(put: Result<(), WriteFault>) -> Option<ErrorKind> {
    match put {
        Err(WriteFault::Error(error)) => Some(error.kind()),
        _ => None,
    }
}

// A piece through a sink and a buffer, with a writer that fails once: the call that had the fault reports what it was, and each
// later one fails without asking the writer.
#[test]
fn tells_a_fault_at_its_call(rt: HostRuntime) -> Result<(), Fail> {
    for (place, fault, kind) in &TOLD {
        let writer = FaultyWriter::new(rt.alloc()).failing(*place, *fault);
        let mut sink = Sink::new(Output::new(FlushPolicy::OnLineEnd, writer));
        assert!(rt; sink.put(b"waits").is_ok());
        assert!(rt; kind_of(sink.put(b" and goes out\n")) == Some(*kind));
        assert!(rt; sink.put(b"a").is_err());
        assert!(rt; sink.put(b"a\n").is_err());
        assert!(rt; sink.flush().is_err());
        let (writer, finished) = sink.into_inner().finish();
        assert!(rt; finished.is_err());
        assert!(rt; writer.calls_after == 0);
        assert!(rt; b"waits and goes out\n".starts_with(writer.bytes.as_slice()));
    }
    Ok(())
}
