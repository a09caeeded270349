//! The program over memory: its line, its statuses, and what it reports of faults.
use super::feeding::NO_ROWS;
use mimic_events::readreport_run;
use mimic_testkit::{Fault, FaultPlace, FaultyWriter};
use std::alloc::{AllocError, Global};
use std::io;
use std::io::{ErrorKind, Read};
use std::test::Fail;

const ONE_ROW: &str = r#"{ "type": "suite", "event": "started", "test_count": 1 }
{ "type": "test", "event": "started", "name": "b" }
{ "type": "bench", "name": "b", "median": 32, "deviation": 3 }
{ "type": "suite", "event": "ok", "passed": 0, "failed": 0, "ignored": 0, "measured": 1, "filtered_out": 16, "exec_time": 1.000000005 }
"#;

const FLY: &str = r#"{ "type": "suite", "event": "started", "test_count": 1 }
{ "type": "test", "event": "started", "name": "fly", "kind": "banana" }
{ "type": "test", "name": "fly", "kind": "banana", "event": "ignored" }
{ "type": "suite", "event": "ok", "passed": 0, "failed": 0, "ignored": 1, "measured": 0, "filtered_out": 16, "exec_time": 0 }
"#;

// The rows of two trials that passed, one that failed, four that were ignored and three that were measured: how many, their
// type, and their fields.
static MIXED: [(usize, &str, &str); 4] = [
    (2, "test", "\"event\": \"ok\""),
    (1, "test", "\"event\": \"failed\""),
    (4, "test", "\"event\": \"ignored\""),
    (3, "bench", "\"median\": 32, \"deviation\": 3"),
];

// A report of those rows.
fn mixed_report(alloc: Global) -> Result<String, AllocError> {
    let mut report = String::new(alloc);
    report.push_str("{ \"type\": \"suite\", \"event\": \"started\", \"test_count\": 10 }\n")?;
    for (count, kind, fields) in &MIXED {
        for _ in 0..*count {
            report.push_str("{ \"type\": \"test\", \"event\": \"started\", \"name\": \"t\" }\n")?;
            for part in &[
                "{ \"type\": \"",
                kind,
                "\", \"name\": \"t\", ",
                fields,
                " }\n",
            ] {
                report.push_str(part)?;
            }
        }
    }
    report.push_str(
        "{ \"type\": \"suite\", \"event\": \"failed\", \"passed\": 2, \"failed\": 1, \"ignored\": 4, \"measured\": 3, \"filtered_out\": 16, \"exec_time\": 0.000000005 }\n",
    )?;
    Ok(report)
}

// These bytes come a few at a time, each time after an interruption, to a reader that asks for 4,096 at most. A fault may
// follow them.
#[derive(Drop)]
struct Input<'a> {
    left: &'a [u8],
    fault: Option<ErrorKind>,
    interrupted: bool,
}

impl Read for Input<'_> {
    fn read(&mut self, buf: &mut [u8]) -> io::Result<usize> {
        if buf.len() > 4096 {
            return Err(io::Error::from(ErrorKind::InvalidInput));
        }
        self.interrupted = !self.interrupted;
        if self.interrupted {
            return Err(io::Error::from(ErrorKind::Interrupted));
        }
        let count = buf.len().min(self.left.len()).min(7);
        if count == 0 && !buf.is_empty() {
            return match self.fault {
                Some(kind) => Err(io::Error::from(kind)),
                None => Ok(0),
            };
        }
        buf[..count].copy_from_slice(&self.left[..count]);
        self.left = &self.left[count..];
        Ok(count)
    }
}

// Whether the program leaves this on its two outputs, and its status says whether the second is empty.
fn leaves(
    alloc: Global,
    bytes: &[u8],
    fault: Option<ErrorKind>,
    mut out: FaultyWriter,
    told: (&str, &str),
) -> bool {
    let mut input = Input {
        left: bytes,
        fault,
        interrupted: false,
    };
    let mut err: Vec<u8> = Vec::new(alloc);
    let status = readreport_run(alloc, &mut input, &mut out, &mut err);
    status == u8::from(!told.1.is_empty())
        && out.bytes.as_slice() == told.0.as_bytes()
        && err.as_slice() == told.1.as_bytes()
}

// Whether a reader and a writer that are well leave this.
fn tells(alloc: Global, bytes: &[u8], out: &str, err: &str) -> bool {
    leaves(alloc, bytes, None, FaultyWriter::new(alloc), (out, err))
}

// Reports of no rows, one, and one with a kind, and what is printed of them.
static REPORTS: [(&str, &str); 3] = [
    (
        NO_ROWS,
        "0 trials: 0 passed; 0 failed; 0 ignored; 0 measured; 0 filtered out; 0 ns\n",
    ),
    (ONE_ROW, ONE_ROW_TOLD),
    (
        FLY,
        "1 trials: 0 passed; 0 failed; 1 ignored; 0 measured; 16 filtered out; 0 ns\n",
    ),
];

const ONE_ROW_TOLD: &str =
    "1 trials: 0 passed; 0 failed; 0 ignored; 1 measured; 16 filtered out; 1000000005 ns\n";

const MIXED_TOLD: &str =
    "10 trials: 2 passed; 1 failed; 4 ignored; 3 measured; 16 filtered out; 5 ns\n";

// The number of trials that passed in a report that takes more than 65,536 reads.
const MANY: usize = 2_500;

// The two lines of a trial that passed.
const PASSED: &str = r#"{ "type": "test", "event": "started", "name": "t" }
{ "type": "test", "name": "t", "event": "ok" }
"#;

// Their report.
fn long_report(alloc: Global) -> Result<String, AllocError> {
    let mut report = format!(in alloc;
        "{{ \"type\": \"suite\", \"event\": \"started\", \"test_count\": {MANY} }}\n"
    )?;
    for _ in 0..MANY {
        report.push_str(PASSED)?;
    }
    report.push_str(
        "{ \"type\": \"suite\", \"event\": \"ok\", \"passed\": 2500, \"failed\": 0, \"ignored\": 0, \"measured\": 0, \"filtered_out\": 0, \"exec_time\": 0 }\n",
    )?;
    Ok(report)
}

const MANY_TOLD: &str =
    "2500 trials: 2500 passed; 0 failed; 0 ignored; 0 measured; 0 filtered out; 0 ns\n";

// It reads as long as there is input, also behind a report.
#[test]
fn reads_to_the_end_of_the_input(rt: HostRuntime) -> Result<(), Fail> {
    let alloc = rt.alloc();
    let report = long_report(alloc)?;
    let bytes = report.as_str().as_bytes();
    assert!(rt; tells(alloc, bytes, MANY_TOLD, ""));
    let fault = Some(ErrorKind::BrokenPipe);
    let told = ("", "cannot read\n");
    assert!(rt;
        leaves(
            alloc,
            b"no report\n\n\n",
            fault,
            FaultyWriter::new(alloc),
            told
        )
    );
    Ok(())
}

// Also one of ten rows, with seven different numbers.
#[test]
fn tells_reports(rt: HostRuntime) -> Result<(), Fail> {
    for (report, line) in &REPORTS {
        assert!(rt; tells(rt.alloc(), report.as_bytes(), line, ""), "{line}");
    }
    let mixed = mixed_report(rt.alloc())?;
    assert!(rt; tells(rt.alloc(), mixed.as_str().as_bytes(), MIXED_TOLD, ""));
    Ok(())
}

#[test]
fn refuses_other_input(rt: HostRuntime) {
    let one_row = ONE_ROW.as_bytes();
    for bytes in &[
        b"".as_slice(),
        b"\n",
        b"\xff",
        &one_row[1..],
        &one_row[..one_row.len() - 1],
    ] {
        assert!(rt; tells(rt.alloc(), bytes, "", "not a report\n"));
    }
}

// Whether this is printed of a fault behind the first `count` bytes of a report of one row.
fn tells_of_fault(alloc: Global, count: usize, kind: ErrorKind, told: &str) -> bool {
    match ONE_ROW.as_bytes().get(..count) {
        Some(bytes) => leaves(
            alloc,
            bytes,
            Some(kind),
            FaultyWriter::new(alloc),
            ("", told),
        ),
        None => false,
    }
}

// A read that fails in the middle, or when all has come, is reported as such, whatever came before it.
#[test]
fn tells_of_faulty_input(rt: HostRuntime) {
    let (alloc, len) = (rt.alloc(), ONE_ROW.len());
    assert!(rt; tells_of_fault(alloc, 0, ErrorKind::BrokenPipe, "cannot read\n"));
    assert!(rt; tells_of_fault(alloc, 100, ErrorKind::BrokenPipe, "cannot read\n"));
    assert!(rt; tells_of_fault(alloc, len, ErrorKind::BrokenPipe, "cannot read\n"));
    assert!(rt; tells_of_fault(alloc, len, ErrorKind::OutOfMemory, "out of memory\n"));
}

// Whether a write or a flush that fails at the place is reported, whatever its fault, and leaves this output.
fn tells_of_full(alloc: Global, place: FaultPlace, out: &str) -> bool {
    let mut is_told = true;
    for fault in Fault::ALL {
        let writer = FaultyWriter::new(alloc).failing(place, fault);
        let told = (out, "cannot write\n");
        is_told = is_told && leaves(alloc, ONE_ROW.as_bytes(), None, writer, told);
    }
    is_told
}

// A beginning of the line may have been written when a write or the flush fails.
#[test]
fn tells_of_a_full_output(rt: HostRuntime) {
    assert!(rt; tells_of_full(rt.alloc(), FaultPlace::Byte(0), ""));
    assert!(rt; tells_of_full(rt.alloc(), FaultPlace::Byte(8), "1 trials"));
    assert!(rt; tells_of_full(rt.alloc(), FaultPlace::Flush(1), ONE_ROW_TOLD));
}
