//! Reports whose rows have times: what they say, and what is no report.
use super::feeding::altered;
use super::reports::{Known, are_refused, check_two_pieces, outcome_of};
use super::writing::is_written_back;
use mimic_events::{Report, Row, Totals};
use mimic_trial::Conclusion;
use std::alloc::{AllocError, Global};
use std::test::Fail;

// Each sort of row with a time, and one without.
const TIMED: &str = r#"{ "type": "suite", "event": "started", "test_count": 7 }
{ "type": "test", "event": "started", "name": "zero" }
{ "type": "test", "name": "zero", "event": "ok", "exec_time": 0 }
{ "type": "test", "event": "started", "name": "short", "kind": "k" }
{ "type": "test", "name": "short", "kind": "k", "event": "ok", "exec_time": 0.005 }
{ "type": "test", "event": "started", "name": "failed" }
{ "type": "test", "name": "failed", "event": "failed", "exec_time": 0.005499999 }
{ "type": "test", "event": "started", "name": "message" }
{ "type": "test", "name": "message", "event": "failed", "exec_time": 18446744073.709551615, "stdout": "Error: \"Woops\"\n" }
{ "type": "test", "event": "started", "name": "\", \"exec_time\": 1" }
{ "type": "test", "name": "\", \"exec_time\": 1", "event": "ok" }
{ "type": "test", "event": "started", "name": "ignored" }
{ "type": "test", "name": "ignored", "event": "ignored", "exec_time": 1 }
{ "type": "test", "event": "started", "name": "measured" }
{ "type": "bench", "name": "measured", "median": 1, "deviation": 2, "exec_time": 0.25 }
{ "type": "suite", "event": "failed", "passed": 3, "failed": 2, "ignored": 1, "measured": 1, "filtered_out": 0, "exec_time": 9 }
"#;

// The name, the kind, the outcome and the time of each row.
static ROWS: [(&str, &str, Known, Option<u64>); 7] = [
    ("zero", "", Known::Passed, Some(0)),
    ("short", "k", Known::Passed, Some(5_000_000)),
    ("failed", "", Known::Failed(None), Some(5_499_999)),
    ("message", "", Known::Failed(Some("Woops")), Some(u64::MAX)),
    ("\", \"exec_time\": 1", "", Known::Passed, None),
    ("ignored", "", Known::Ignored, Some(1_000_000_000)),
    ("measured", "", Known::Measured(1, 2), Some(250_000_000)),
];

fn timed(alloc: Global) -> Result<Report, AllocError> {
    let mut rows = Vec::with_capacity(alloc, ROWS.len())?;
    for (name, kind, known, nanos) in &ROWS {
        rows.push(Row {
            name: String::from_str(alloc, name)?,
            kind: String::from_str(alloc, kind)?,
            outcome: outcome_of(alloc, *known)?,
            nanos: *nanos,
        })?;
    }
    Ok(Report {
        rows,
        filtered_out: 0,
        nanos: 9_000_000_000,
    })
}

fn timed_totals() -> Totals {
    Totals {
        rows: 7,
        counts: Conclusion {
            num_filtered_out: 0,
            num_passed: 3,
            num_failed: 2,
            num_ignored: 1,
            num_measured: 1,
        },
        nanos: 9_000_000_000,
    }
}

#[test]
fn reads_times(rt: HostRuntime) -> Result<(), Fail> {
    let alloc = rt.alloc();
    check_two_pieces(&rt, alloc, TIMED, &timed(alloc)?, &timed_totals())?;
    assert!(rt; is_written_back(alloc, TIMED)?);
    Ok(())
}

// A part of the text, and another one in its place, with which it is no report.
static OTHERS: [(&str, &str); 15] = [
    ("0.005 }", "+0.005 }"),
    ("0.005 }", "-0.005 }"),
    ("0.005 }", "5e-3 }"),
    ("0.005 }", "0.0050 }"),
    ("0.005 }", "00.005 }"),
    ("0.005 }", ".005 }"),
    ("0.005 }", "0.005.1 }"),
    ("0.005 }", "0. }"),
    ("0.005 }", " }"),
    ("0.005 }", "\"0.005\" }"),
    (
        "\"exec_time\": 0.005 }",
        "\"exec_time\": 0.005, \"exec_time\": 0.005 }",
    ),
    (
        "\"event\": \"ok\", \"exec_time\": 0.005",
        "\"exec_time\": 0.005, \"event\": \"ok\"",
    ),
    (
        "\"exec_time\": 18446744073.709551615, \"stdout\": \"Error: \\\"Woops\\\"\\n\"",
        "\"stdout\": \"Error: \\\"Woops\\\"\\n\", \"exec_time\": 18446744073.709551615",
    ),
    ("18446744073.709551615", "18446744073.709551616"),
    (
        "\"name\": \"zero\" }",
        "\"name\": \"zero\", \"exec_time\": 0 }",
    ),
];

#[test]
fn refuses_other_times(rt: HostRuntime) -> Result<(), Fail> {
    let alloc = rt.alloc();
    for (old, new) in &OTHERS {
        let text = altered(alloc, TIMED, old, new)?;
        assert!(rt; are_refused(alloc, &[text.as_bytes()])?, "{new}");
    }
    Ok(())
}
