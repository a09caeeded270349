//! What a run writes in JSON, read back.
use super::feeding::{altered, fed_each_byte};
use libtest_mimic::{
    Arguments, Conclusion, Failed, FormatSetting, Measurement, Outcome, Sink, Stopwatch, Trial,
    run_here,
};
use mimic_events::{Report, Row, read_report};
use mimic_roundtrip::run_to_report;
use mimic_testkit::Answer::{Benchmark, Test};
use mimic_testkit::{Answer, Entry, MIXED_BAG, TwoReadings, known_trials};
use std::alloc::{AllocError, Global};
use std::process::Abort;
use std::test::Fail;

// The outcome of a trial that has no ignored flag. In bench mode tests are ignored, and benchmarks measure.
fn outcome_of(alloc: Global, answer: Answer, bench: bool) -> Result<Outcome, AllocError> {
    Ok(match answer {
        Test(_) if bench => Outcome::Ignored,
        Test(Ok(())) => Outcome::Passed,
        Test(Err(message)) | Benchmark(Err(message)) => {
            Outcome::Failed(Failed::with_message(String::from_str(alloc, message)?))
        }
        Benchmark(Ok((avg, variance))) if bench => Outcome::Measured(Measurement { avg, variance }),
        Benchmark(Ok(_)) => Outcome::Passed,
    })
}

// One test that passes and one that fails.
static TWO_TRIALS: [Entry; 2] = [
    Entry {
        name: "succeeding_test",
        kind: "",
        is_ignored: false,
        answer: Test(Ok(())),
    },
    Entry {
        name: "failing_test",
        kind: "",
        is_ignored: false,
        answer: Test(Err("Woops")),
    },
];

// A name that ends as a name with a kind does, and a name with that kind.
static ALIKE: [Entry; 2] = [
    Entry {
        name: "a\", \"kind\": \"b",
        kind: "",
        is_ignored: false,
        answer: Test(Ok(())),
    },
    Entry {
        name: "a",
        kind: "b",
        is_ignored: false,
        answer: Test(Ok(())),
    },
];

const ALIKE_REPORT: &str = r#"{ "type": "suite", "event": "started", "test_count": 2 }
{ "type": "test", "event": "started", "name": "a\", \"kind\": \"b" }
{ "type": "test", "name": "a\", \"kind\": \"b", "event": "ok" }
{ "type": "test", "event": "started", "name": "a", "kind": "b" }
{ "type": "test", "name": "a", "kind": "b", "event": "ok" }
{ "type": "suite", "event": "ok", "passed": 2, "failed": 0, "ignored": 0, "measured": 0, "filtered_out": 0, "exec_time": 0 }
"#;

// Runs the trials of a table into memory, in JSON. The clock reads these nanoseconds once, and one and a half seconds from
// then on.
fn written(
    alloc: Global,
    bench: bool,
    table: &[Entry],
    first: u64,
) -> Result<(Conclusion, Vec<u8>), Fail> {
    let mut args = Arguments::new(alloc);
    args.format = Some(FormatSetting::Json);
    args.bench = bench;
    let mut sink = Sink::new(Vec::new(alloc));
    let mut watch = Stopwatch::new(TwoReadings {
        first,
        second: 1_500_000_000,
    });
    let trials = known_trials(alloc, table)?;
    let conclusion = run_here(alloc, &args, trials, &mut sink, &mut watch, false)?;
    Ok((conclusion, sink.into_inner()))
}

// Whether the row is that of the trial.
fn is_of_trial(alloc: Global, row: &Row, entry: &Entry, bench: bool) -> Result<bool, AllocError> {
    let outcome = if entry.is_ignored {
        Outcome::Ignored
    } else {
        outcome_of(alloc, entry.answer, bench)?
    };
    Ok(row.name.as_str() == entry.name && row.kind.as_str() == entry.kind && row.outcome == outcome)
}

// The report has a row for each trial of the table, in its order, and no others were filtered out.
fn check_report(
    rt: &impl Abort,
    alloc: Global,
    report: &Report,
    table: &[Entry],
    bench: bool,
) -> Result<(), AllocError> {
    assert!(rt; report.filtered_out == 0);
    assert!(rt; report.rows.len() == table.len());
    for (row, entry) in report.rows.iter().zip(table) {
        assert!(rt; is_of_trial(alloc, row, entry, bench)?, "{}", entry.name);
    }
    Ok(())
}

// What is read from the bytes that a run wrote, which has the counts that the run returned.
fn read_back(alloc: Global, bytes: &[u8], counts: &Conclusion) -> Result<Report, Fail> {
    let report = read_report(alloc, bytes)?.ok_or("no report")?;
    if report.counts() == *counts {
        Ok(report)
    } else {
        Err(Fail::new("other counts"))
    }
}

// The report lasts one and a half seconds.
#[test]
fn reads_back_what_a_run_wrote(rt: HostRuntime) -> Result<(), Fail> {
    let alloc = rt.alloc();
    for bench in [false, true] {
        let (conclusion, bytes) = written(alloc, bench, &MIXED_BAG, 0)?;
        assert!(rt; str::from_utf8(&bytes)?.lines().count() == 36);
        let report = read_back(alloc, &bytes, &conclusion)?;
        assert!(rt; report.nanos == 1_500_000_000);
        check_report(&rt, alloc, &report, &MIXED_BAG, bench)?;
    }
    Ok(())
}

// Parts of the report of two trials, and what is no report in their place.
static OTHERS: [(&str, &str); 8] = [
    ("\"exec_time\": 0 }\n", "\"exec_time\": 0 }"),
    ("\"exec_time\": 0 }\n", "\"exec_time\": 0 }\n\n"),
    ("\"test_count\": 2", "\"test_count\": 02"),
    ("\"test_count\": 2", "\"test_count\": 1"),
    ("\"exec_time\": 0", "\"exec_time\": 0.50"),
    ("\\n\" }", "\\u000a\" }"),
    ("\"passed\": 1", "\"passed\": 2"),
    (
        "\"name\": \"failing_test\", \"event\": \"failed\"",
        "\"name\": \"failing_tests\", \"event\": \"failed\"",
    ),
];

// Whether the bytes are no report, at once or byte by byte.
fn are_refused(alloc: Global, bytes: &[u8]) -> Result<bool, AllocError> {
    let is_read = read_report(alloc, bytes)?.is_some();
    let is_fed = fed_each_byte(alloc, bytes)?.is_some();
    Ok(!is_read && !is_fed)
}

// Whether the bytes are the same report byte by byte.
fn are_fed_as(alloc: Global, bytes: &[u8], want: &Report) -> Result<bool, AllocError> {
    Ok(fed_each_byte(alloc, bytes)?.is_some_and(|report| report == *want))
}

// The report of two trials is read as the run wrote it, also byte by byte.
#[test]
fn reads_two_trials_as_they_were_written(rt: HostRuntime) -> Result<(), Fail> {
    let alloc = rt.alloc();
    let (conclusion, bytes) = written(alloc, false, &TWO_TRIALS, 1_500_000_000)?;
    let report = read_back(alloc, &bytes, &conclusion)?;
    assert!(rt; report.nanos == 0);
    check_report(&rt, alloc, &report, &TWO_TRIALS, false)?;
    assert!(rt; are_fed_as(alloc, &bytes, &report)?);
    Ok(())
}

// Whether the text is no report with the one part in place of the other, at once or byte by byte.
fn is_refused_with(alloc: Global, text: &str, old: &str, new: &str) -> Result<bool, Fail> {
    let other = altered(alloc, text, old, new)?;
    Ok(are_refused(alloc, other.as_str().as_bytes())?)
}

// Nothing is read that is written otherwise.
#[test]
fn refuses_what_no_run_wrote(rt: HostRuntime) -> Result<(), Fail> {
    let alloc = rt.alloc();
    assert!(rt; are_refused(alloc, b"")?);
    let (_, bytes) = written(alloc, false, &TWO_TRIALS, 1_500_000_000)?;
    let text = str::from_utf8(&bytes)?;
    for (old, new) in &OTHERS {
        assert!(rt; is_refused_with(alloc, text, old, new)?, "{new} for {old}");
    }
    Ok(())
}

// No name is taken for a kind.
#[test]
fn tells_names_from_kinds(rt: HostRuntime) -> Result<(), Fail> {
    let alloc = rt.alloc();
    let (conclusion, bytes) = written(alloc, false, &ALIKE, 1_500_000_000)?;
    assert!(rt; bytes.as_slice() == ALIKE_REPORT.as_bytes());
    let report = read_back(alloc, &bytes, &conclusion)?;
    check_report(&rt, alloc, &report, &ALIKE, false)?;
    assert!(rt; are_fed_as(alloc, &bytes, &report)?);
    Ok(())
}

#[test]
fn returns_the_report_of_a_run(rt: HostRuntime) -> Result<(), Fail> {
    let alloc = rt.alloc();
    let clock = TwoReadings {
        first: 0,
        second: 1_500_000_000,
    };
    let cases = vec![in alloc; ("one", 1), ("two", 2)]?;
    let tests = Trial::of_cases(alloc, cases, move |number| {
        Failed::unless(alloc, number < 2, &"too large")
    })?;
    let mut watch = Stopwatch::new(clock);
    let (counts, report) = run_to_report(alloc, Arguments::new(alloc), tests, &mut watch)?;
    assert!(rt; report.counts() == counts);
    assert!(rt; report.rows.len() == 2);
    Ok(())
}
