//! What no clause states about two reports: what is compared if a reader fails, or if all texts have one hash. Expected texts are
//! worked out by hand.
use super::hashing::{OneBucket, add_hundred, usual_hashes};
use super::lines::{Y_AND_X, announced, failed, measured, passed, summary, text_of, title};
use super::reading::Slow;
use mimic_compare::{ComparisonOptions, ComparisonVerdict, write_comparison};
use mimic_events::{Ending, Report, Row, write_report};
use mimic_printer::{OutputFault, Sink};
use mimic_trial::{Failed, Outcome};
use std::alloc::{AllocError, Global};
use std::hash::BuildHasher;
use std::io::ErrorKind;
use std::test::Fail;

// The options of a line that has none.
pub(super) const OPTIONS: ComparisonOptions = ComparisonOptions {
    slower: 125,
    lists_not_run: false,
};

// Compares what the readers give, and returns what is written, and the verdict. It promises nothing, so that no test carries the
// contract of `write_comparison`.
pub(super) fn compare<S: BuildHasher + Copy>(
    alloc: Global,
    hash_builder: S,
    old: Slow<'_>,
    new: Slow<'_>,
) -> (Vec<u8>, Result<ComparisonVerdict, OutputFault>) {
    let mut sink = Sink::new(Vec::new(alloc));
    let compared = write_comparison(alloc, hash_builder, old, new, &OPTIONS, &mut sink);
    (sink.into_inner(), compared)
}

// Two reports.
pub(super) const BEFORE: &[&str] = &[
    title!(5),
    announced!("gone"),
    passed!("gone"),
    announced!("better"),
    failed!("better", "x"),
    announced!("worse"),
    passed!("worse"),
    announced!(["k"] "b"),
    measured!(["k"] "b", 1234, 5),
    announced!("other"),
    failed!("other", "x"),
    summary!("failed", 2, 2, 0, 1, 0, "0"),
];

pub(super) const AFTER: &[&str] = &[
    title!(6),
    announced!("fresh"),
    passed!("fresh"),
    announced!("other"),
    failed!("other", "y"),
    announced!(["k"] "b"),
    measured!(["k"] "b", 2345, 6),
    announced!("bad"),
    failed!("bad", "x"),
    announced!("worse"),
    failed!("worse", "x"),
    announced!("better"),
    passed!("better"),
    summary!("failed", 2, 3, 0, 1, 0, "0"),
];

const CUT: &[&str] = &[title!(1), announced!("a"), failed!("a", "x")];

const OF_A_READER: &str =
    "new failure: a: y\n1 new failure; 0 regressed; 0 missing; 0 not run; 0 new; 0 not run before; 0 newly ignored; 0 newly passing; 0 another message; 0 still failing; 0 unchanged; 0 slower; 0 faster\n";

// If a reader fails, the rows are compared that have ended.
#[test]
fn compares_what_a_reader_gave(rt: HostRuntime) -> Result<(), Fail> {
    let alloc = rt.alloc();
    let (old, new) = (text_of(alloc, CUT)?, text_of(alloc, Y_AND_X)?);
    let mut failing = Slow::of(old.as_str());
    failing.fails = Some(ErrorKind::Other);
    let new = Slow::of(new.as_str());
    let (bytes, compared) = compare(alloc, usual_hashes(), failing, new);
    let verdict = compared?;
    let text = String::from_utf8(bytes)?;
    assert!(rt;
        verdict.status() == 101 && text.as_str() == OF_A_READER,
        "{text}"
    );
    assert!(rt; matches!(&verdict.old, Ending::Failed(_)), "{verdict:?}");
    assert!(rt; verdict.new.is_whole(), "{verdict:?}");
    Ok(())
}

// Nothing is printed if the reader of the old report fails before a row has ended.
#[test]
fn prints_nothing_beside_a_reader_that_gave_no_row(rt: HostRuntime) -> Result<(), Fail> {
    let alloc = rt.alloc();
    let new = text_of(alloc, Y_AND_X)?;
    for old in ["", title!(1), "what"] {
        let mut failing = Slow::of(old);
        failing.fails = Some(ErrorKind::Other);
        let new = Slow::of(new.as_str());
        let (bytes, compared) = compare(alloc, usual_hashes(), failing, new);
        let verdict = compared?;
        assert!(rt; verdict.status() == 1 && bytes.is_empty(), "{verdict:?}");
        assert!(rt; matches!(&verdict.old, Ending::Failed(_)), "{verdict:?}");
        assert!(rt; verdict.new.is_whole(), "{verdict:?}");
    }
    Ok(())
}

// Adds a hundred failures of this name, whose messages are the prefix and a number.
fn add_failures(
    alloc: Global,
    rows: &mut Vec<Row>,
    name: &str,
    prefix: &str,
) -> Result<(), AllocError> {
    for number in 0..100 {
        let message = format!(in alloc; "{prefix}{number}")?;
        rows.push(Row {
            name: String::from_str(alloc, name)?,
            kind: String::new(alloc),
            outcome: Outcome::Failed(Failed::with_message(message)),
            nanos: None,
        })?;
    }
    Ok(())
}

// The text of a report: a hundred trials that passed of each prefix, and a hundred failures of each name and prefix.
fn many(alloc: Global, passed: &[&str], failures: &[(&str, &str)]) -> Result<String, Fail> {
    let mut rows = Vec::new(alloc);
    for prefix in passed {
        add_hundred(alloc, &mut rows, prefix)?;
    }
    for (name, prefix) in failures {
        add_failures(alloc, &mut rows, name, prefix)?;
    }
    let report = Report {
        rows,
        filtered_out: 0,
        nanos: 0,
    };
    let mut sink = Sink::new(Vec::new(alloc));
    write_report(&report, &mut sink)?;
    Ok(String::from_utf8(sink.into_inner())?)
}

// Of `a` and `c` there are fewer rows, and of `b` and `d` more. The failures of `x` have the same messages, and those of `y` others.
const NUMBERS: &str =
    "\n0 new failure; 0 regressed; 200 missing; 0 not run; 200 new; 0 not run before; 0 newly ignored; 0 newly passing; 1 another message; 1 still failing; 0 unchanged; 0 slower; 0 faster\n";

// Kinds, names and messages are found whatever the hashes are.
#[test]
fn compares_by_any_hashes(rt: HostRuntime) -> Result<(), Fail> {
    let alloc = rt.alloc();
    let old = [("x", "p"), ("x", "q"), ("y", "p"), ("y", "q")];
    let old = many(alloc, &["a", "a", "b", "c"], &old)?;
    let new = [("y", "p"), ("y", "p"), ("x", "q"), ("x", "p")];
    let new = many(alloc, &["d", "b", "b", "a"], &new)?;
    let (old, new) = (old.as_str(), new.as_str());
    let (bytes, compared) = compare(alloc, usual_hashes(), Slow::of(old), Slow::of(new));
    compared?;
    let (others, compared) = compare(alloc, OneBucket, Slow::of(old), Slow::of(new));
    compared?;
    assert!(rt; bytes == others);
    let text = String::from_utf8(bytes)?;
    assert!(rt; text.as_str().ends_with(NUMBERS), "{text}");
    Ok(())
}
