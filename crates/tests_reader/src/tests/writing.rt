//! Reports that are written: those that were built, those that were read, and those that a writer takes in part.
use super::feeding::altered;
use super::reports::{ALL_SORTS, KINDS, all_sorts, ignored_trial, two_tests};
use libtest_mimic::{Sink, WriteFault};
use mimic_events::{Report, read_report, write_report};
use mimic_testkit::{Fault, FaultPlace, FaultyWriter, TWO_TESTS_JSON};
use std::alloc::{AllocError, Global};
use std::process::Abort;
use std::test::Fail;

// Whether the report is written as this text.
fn is_written_as(alloc: Global, report: &Report, text: &str) -> bool {
    let mut sink = Sink::new(Vec::new(alloc));
    let is_written = write_report(report, &mut sink).is_ok();
    is_written && sink.faults() == 0 && sink.into_inner().as_slice() == text.as_bytes()
}

#[test]
fn writes_built_reports(rt: HostRuntime) -> Result<(), Fail> {
    let alloc = rt.alloc();
    assert!(rt; is_written_as(alloc, &two_tests(alloc)?, TWO_TESTS_JSON));
    assert!(rt; is_written_as(alloc, &all_sorts(alloc)?, ALL_SORTS));
    Ok(())
}

// Whether the text is read, and then written as it was.
pub(super) fn is_written_back(alloc: Global, text: &str) -> Result<bool, AllocError> {
    Ok(match &read_report(alloc, text.as_bytes())? {
        Some(report) => is_written_as(alloc, report, text),
        None => false,
    })
}

// Numbers at their limits, in place of the time and of a deviation, and a hostile name.
static LIMITS: [(&str, &str); 4] = [
    ("\"exec_time\": 1.5", "\"exec_time\": 18446744073.709551615"),
    ("\"exec_time\": 1.5", "\"exec_time\": 0.000000001"),
    ("\"deviation\": 0", "\"deviation\": 18446744073709551615"),
    (
        "Error: \\\"\\\"\\n",
        "Error: \\\"\u{feff}\u{7f}\u{2028}\u{10ffff}\\\\\\\"\\n",
    ),
];

#[test]
fn writes_back_what_was_read(rt: HostRuntime) -> Result<(), Fail> {
    let alloc = rt.alloc();
    for (old, new) in &LIMITS {
        let text = altered(alloc, ALL_SORTS, old, new)?;
        assert!(rt; is_written_back(alloc, text.as_str())?, "{new}");
    }
    for (fields, _, _) in &KINDS {
        let text = ignored_trial(alloc, fields, fields)?;
        assert!(rt; is_written_back(alloc, text.as_str())?, "{fields}");
    }
    Ok(())
}

// Whether the report was refused by this fault of its writer.
fn is_refused_by(written: Result<(), WriteFault>, fault: Fault) -> bool {
    match (written, fault) {
        (Err(WriteFault::Zero), Fault::TakesNone) => true,
        (Err(WriteFault::Error(error)), Fault::Error(kind)) => error.kind() == kind,
        _ => false,
    }
}

// The writer fails in this way after this number of bytes: it has got these, and is asked for nothing more.
fn check_fault(
    rt: &impl Abort,
    alloc: Global,
    report: &Report,
    place: usize,
    fault: Fault,
) -> Result<(), Fail> {
    let writer = FaultyWriter::new(alloc).failing(FaultPlace::Byte(place), fault);
    let mut sink = Sink::new(writer);
    assert!(rt;
        is_refused_by(write_report(report, &mut sink), fault),
        "{place}, {fault:?}"
    );
    assert!(rt; sink.faults() == 1, "{place}, {fault:?}");
    let writer = sink.into_inner();
    let front = ALL_SORTS.as_bytes().get(..place).ok_or("too far")?;
    assert!(rt;
        writer.bytes.as_slice() == front && writer.calls_after == 0,
        "{place}, {fault:?}"
    );
    Ok(())
}

#[test]
fn stops_at_a_fault(rt: HostRuntime) -> Result<(), Fail> {
    let alloc = rt.alloc();
    let report = all_sorts(alloc)?;
    for place in 0..ALL_SORTS.len() {
        for fault in &Fault::ALL {
            check_fault(&rt, alloc, &report, place, *fault)?;
        }
    }
    Ok(())
}
