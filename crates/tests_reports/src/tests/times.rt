//! What is the same of a report whose rows have times and of one without them, and what is printed of the slowest trials of no reports.
//! Expected texts are worked out by hand.
use super::compare::compare;
use super::expect::{judged, numbers};
use super::hashing::usual_hashes;
use super::lines::{announced, failed, ignored, measured, passed, summary, text_of, title};
use super::reading::Slow;
use super::watching::{LOG, TERMINAL, watched_pieces};
use mimic_events::{Report, read_from};
use mimic_printer::Sink;
use mimic_reports::{Slowest, write_slowest};
use std::alloc::Global;
use std::test::Fail;

// Rows of each outcome with times, and some without.
pub(super) const TIMED: &[&str] = &[
    title!(8),
    announced!("plain"),
    passed!("plain" @ "0.35"),
    announced!(["k"] "b"),
    failed!(["k"] "b" @ "1.4999995", "no\\nno"),
    announced!("c"),
    ignored!("c"),
    announced!("d"),
    passed!("d"),
    announced!(["k"] "e"),
    passed!(["k"] "e" @ "0.35"),
    announced!("m"),
    measured!("m" @ "61", 1234, 5),
    announced!("z"),
    passed!("z" @ "0"),
    announced!("short"),
    failed!("short" @ "0.000499999"),
    summary!("failed", 4, 2, 1, 1, 13, "62.5"),
];

// The same report without them.
const PLAIN: &[&str] = &[
    title!(8),
    announced!("plain"),
    passed!("plain"),
    announced!(["k"] "b"),
    failed!(["k"] "b", "no\\nno"),
    announced!("c"),
    ignored!("c"),
    announced!("d"),
    passed!("d"),
    announced!(["k"] "e"),
    passed!(["k"] "e"),
    announced!("m"),
    measured!("m", 1234, 5),
    announced!("z"),
    passed!("z"),
    announced!("short"),
    failed!("short"),
    summary!("failed", 4, 2, 1, 1, 13, "62.5"),
];

fn report_of(alloc: Global, lines: &[&str]) -> Result<Report, Fail> {
    let text = text_of(alloc, lines)?;
    Ok(read_from(alloc, &mut Slow::of(text.as_str()))?)
}

// Whether the reports are the same but for the times of the rows, which only the first one has.
fn differ_in_times(timed: Report, plain: &Report) -> bool {
    let mut timed = timed;
    let mut count = 0_u64;
    for row in timed.rows.iter_mut() {
        count = count.saturating_add(u64::from(row.nanos.is_some()));
        row.nanos = None;
    }
    count > 0 && timed == *plain
}

#[test]
fn has_the_same_report_without_times(rt: HostRuntime) -> Result<(), Fail> {
    let alloc = rt.alloc();
    let plain = report_of(alloc, PLAIN)?;
    assert!(rt; differ_in_times(report_of(alloc, TIMED)?, &plain));
    Ok(())
}

// The rows of the report as a watch shows them elsewhere than on a terminal.
const WATCHED: &str =
    "FAILED [k] b\n    no\n    no\nbench  m: 1,234 ns/iter (+/- 5)\nFAILED short\n\nfailures:\n    [k] b\n    short\n\ntest result: FAILED. 4 passed; 2 failed; 1 ignored; 1 measured; 13 filtered out; finished in 62.50s\n\n";

// A watch shows no time of a row, on a terminal or elsewhere.
#[test]
fn watches_the_same_without_times(rt: HostRuntime) -> Result<(), Fail> {
    let alloc = rt.alloc();
    for screen in [LOG, TERMINAL] {
        let timed = watched_pieces(alloc, TIMED, 1, screen)?;
        let plain = watched_pieces(alloc, PLAIN, 1, screen)?;
        assert!(rt; timed == plain, "{}", timed.1);
        assert!(rt;
            timed.0 == 101 && (screen.live || timed.1.as_str() == WATCHED),
            "{}",
            timed.1
        );
    }
    Ok(())
}

// Lines of known failures, the status, and what is printed.
static JUDGED: [(&[&str], u8, &[&str]); 3] = [
    (
        &[],
        101,
        &[
            "failed: ",
            failed!(["k"] "b", "no\\nno"),
            "failed: ",
            failed!("short"),
            numbers!(0, 2, 0, 0, 0),
        ],
    ),
    // The line of a known failure may have a time, which expects nothing.
    (
        &[
            failed!(["k"] "b" @ "1.4999995", "no\\nno"),
            failed!("short" @ "7"),
        ],
        0,
        &[numbers!(2, 0, 0, 0, 0)],
    ),
    (
        &[
            failed!(["k"] "b" @ "2", "other"),
            failed!("short"),
            failed!("plain" @ "3"),
        ],
        101,
        &[
            "another message, line 1 can go: ",
            failed!(["k"] "b", "no\\nno"),
            "passed, line 3 can go: ",
            failed!("plain"),
            numbers!(1, 0, 1, 1, 0),
        ],
    ),
];

// Times take no part in what is unexpected, and no line that is printed has one.
#[test]
fn judges_the_same_without_times(rt: HostRuntime) -> Result<(), Fail> {
    let alloc = rt.alloc();
    for (known, status, expected) in &JUDGED {
        let expected = text_of(alloc, expected)?;
        for lines in [TIMED, PLAIN] {
            let (verdict, printed) = judged(alloc, known, &[(lines, None)])?;
            assert!(rt;
                verdict.status() == *status && printed == expected,
                "{printed}"
            );
        }
    }
    Ok(())
}

const UNCHANGED: &str =
    "0 new failure; 0 regressed; 0 missing; 0 not run; 0 new; 0 not run before; 0 newly ignored; 0 newly passing; 0 another message; 2 still failing; 6 unchanged; 0 slower; 0 faster\n";

// What takes longer has not changed by that.
#[test]
fn compares_the_same_without_times(rt: HostRuntime) -> Result<(), Fail> {
    let alloc = rt.alloc();
    for (old, new) in [(TIMED, PLAIN), (PLAIN, TIMED), (TIMED, TIMED)] {
        let (old, new) = (text_of(alloc, old)?, text_of(alloc, new)?);
        let (old, new) = (Slow::of(old.as_str()), Slow::of(new.as_str()));
        let (bytes, compared) = compare(alloc, usual_hashes(), old, new);
        let status = compared?.status();
        let text = String::from_utf8(bytes)?;
        assert!(rt; status == 0 && text.as_str() == UNCHANGED, "{text}");
    }
    Ok(())
}

// What is printed of the slowest trials of no reports. It promises nothing, so that no test carries the contract of
// `write_slowest`.
fn slowest_of_none(alloc: Global) -> Result<String, Fail> {
    let mut sink = Sink::new(Vec::new(alloc));
    write_slowest(Slowest::new(alloc, 20), &mut sink)?;
    Ok(String::from_utf8(sink.into_inner())?)
}

// A line of the program names at least one report.
#[test]
fn prints_nothing_of_no_reports(rt: HostRuntime) -> Result<(), Fail> {
    let text = slowest_of_none(rt.alloc())?;
    assert!(rt; text.is_empty(), "{text}");
    Ok(())
}
