//! Reports by themselves: what the definition of a report takes and refuses, at once, in pieces and in numbers alone.
use super::feeding::{NO_ROWS, altered, fed, fed_each_byte};
use mimic_events::{Feed, Report, Row, Tally, Totals, read_report};
use mimic_testkit::TWO_TESTS_JSON;
use mimic_trial::{Conclusion, Failed, Measurement, Outcome};
use std::alloc::{AllocError, Global};
use std::fmt::Debug;
use std::process::Abort;
use std::test::Fail;

// Every outcome, and every sort of character in names and in a message.
pub(super) const ALL_SORTS: &str = r#"{ "type": "suite", "event": "started", "test_count": 5 }
{ "type": "test", "event": "started", "name": "a\"b\\\n\u0001é" }
{ "type": "test", "name": "a\"b\\\n\u0001é", "event": "ignored" }
{ "type": "test", "event": "started", "name": "" }
{ "type": "test", "name": "", "event": "failed" }
{ "type": "test", "event": "started", "name": "n" }
{ "type": "test", "name": "n", "event": "failed", "stdout": "Error: \"\"\n" }
{ "type": "test", "event": "started", "name": "n" }
{ "type": "test", "name": "n", "event": "failed", "stdout": "Error: \"\b\t\f\r\u0000\u000b\u001f/\"\n\"\n" }
{ "type": "test", "event": "started", "name": "b" }
{ "type": "bench", "name": "b", "median": 18446744073709551615, "deviation": 0 }
{ "type": "suite", "event": "failed", "passed": 0, "failed": 3, "ignored": 1, "measured": 1, "filtered_out": 18446744073709551615, "exec_time": 1.5 }
"#;

// What is known of an outcome.
#[derive(Clone, Copy)]
pub(super) enum Known {
    Passed,
    // With this message, or without any.
    Failed(Option<&'static str>),
    Ignored,
    Measured(u64, u64),
}

pub(super) fn outcome_of(alloc: Global, known: Known) -> Result<Outcome, AllocError> {
    Ok(match known {
        Known::Passed => Outcome::Passed,
        Known::Failed(None) => Outcome::Failed(Failed::without_message()),
        Known::Failed(Some(message)) => {
            Outcome::Failed(Failed::with_message(String::from_str(alloc, message)?))
        }
        Known::Ignored => Outcome::Ignored,
        Known::Measured(avg, variance) => Outcome::Measured(Measurement { avg, variance }),
    })
}

// A row without a kind.
fn row(alloc: Global, name: &str, known: Known) -> Result<Row, AllocError> {
    Ok(Row {
        name: String::from_str(alloc, name)?,
        kind: String::new(alloc),
        outcome: outcome_of(alloc, known)?,
        nanos: None,
    })
}

// Rows without a kind: their names, and what is known of their outcomes.
fn rows_of(alloc: Global, known: &[(&str, Known)]) -> Result<Vec<Row>, AllocError> {
    let mut rows = Vec::with_capacity(alloc, known.len())?;
    for (name, outcome) in known {
        rows.push(row(alloc, name, *outcome)?)?;
    }
    Ok(rows)
}

static ROWS_OF_ALL_SORTS: [(&str, Known); 5] = [
    ("a\"b\\\n\u{1}\u{e9}", Known::Ignored),
    ("", Known::Failed(None)),
    ("n", Known::Failed(Some(""))),
    (
        "n",
        Known::Failed(Some("\u{8}\t\u{c}\r\u{0}\u{b}\u{1f}/\"\n")),
    ),
    ("b", Known::Measured(u64::MAX, 0)),
];

// The report whose text is `ALL_SORTS`.
pub(super) fn all_sorts(alloc: Global) -> Result<Report, AllocError> {
    Ok(Report {
        rows: rows_of(alloc, &ROWS_OF_ALL_SORTS)?,
        filtered_out: u64::MAX,
        nanos: 1_500_000_000,
    })
}

static ROWS_OF_TWO_TESTS: [(&str, Known); 2] = [
    ("succeeding_test", Known::Passed),
    ("failing_test", Known::Failed(Some("Woops"))),
];

// The report whose text is `TWO_TESTS_JSON`.
pub(super) fn two_tests(alloc: Global) -> Result<Report, AllocError> {
    Ok(Report {
        rows: rows_of(alloc, &ROWS_OF_TWO_TESTS)?,
        filtered_out: 0,
        nanos: 0,
    })
}

// What a tally returns for these pieces.
fn tallied(alloc: Global, pieces: &[&[u8]]) -> Result<Option<Totals>, AllocError> {
    let mut tally = Tally::new(alloc);
    for piece in pieces {
        tally = tally.feed(piece)?;
    }
    Ok(tally.finish())
}

// The numbers of `ALL_SORTS`.
fn all_totals() -> Totals {
    Totals {
        rows: 5,
        counts: Conclusion {
            num_filtered_out: u64::MAX,
            num_passed: 0,
            num_failed: 3,
            num_ignored: 1,
            num_measured: 1,
        },
        nanos: 1_500_000_000,
    }
}

// The numbers of `TWO_TESTS_JSON`.
fn two_totals() -> Totals {
    Totals {
        rows: 2,
        counts: Conclusion {
            num_filtered_out: 0,
            num_passed: 1,
            num_failed: 1,
            num_ignored: 0,
            num_measured: 0,
        },
        nanos: 0,
    }
}

fn displays<T: Debug>(alloc: Global, value: &T, text: &str) -> Result<bool, AllocError> {
    let shown = format!(in alloc; "{value:?}")?;
    Ok(shown.as_str() == text)
}

const REPORT_SHOWN: &str =
    "Report { rows: [Row { name: \"succeeding_test\", kind: \"\", outcome: Passed, nanos: None }, Row { name: \"failing_test\", kind: \"\", outcome: Failed(Failed { msg: Some(\"Woops\") }), nanos: None }], filtered_out: 0, nanos: 0 }";

const TOTALS_SHOWN: &str =
    "Totals { rows: 2, counts: Conclusion { num_filtered_out: 0, num_passed: 1, num_failed: 1, num_ignored: 0, num_measured: 0 }, nanos: 0 }";

// A report with its rows, and its numbers, as a derived `Debug` shows them.
#[test]
fn shows_values(rt: HostRuntime) -> Result<(), Fail> {
    let report = two_tests(rt.alloc())?;
    assert!(rt; displays(rt.alloc(), &report, REPORT_SHOWN)?);
    assert!(rt; displays(rt.alloc(), &two_totals(), TOTALS_SHOWN)?);
    Ok(())
}

// Whether a feed returns this report for these pieces, and a tally its numbers.
fn are_taken(
    alloc: Global,
    pieces: &[&[u8]],
    want: &Report,
    totals: &Totals,
) -> Result<bool, AllocError> {
    let is_fed = fed(alloc, pieces)?.is_some_and(|report| report == *want);
    let is_tallied = tallied(alloc, pieces)?.is_some_and(|found| found == *totals);
    Ok(is_fed && is_tallied)
}

// Whether neither a feed nor a tally takes these pieces.
pub(super) fn are_refused(alloc: Global, pieces: &[&[u8]]) -> Result<bool, AllocError> {
    let is_fed = fed(alloc, pieces)?.is_some();
    let is_tallied = tallied(alloc, pieces)?.is_some();
    Ok(!is_fed && !is_tallied)
}

// Whether the bytes are a report.
fn are_report(alloc: Global, bytes: &[u8]) -> Result<bool, AllocError> {
    Ok(read_report(alloc, bytes)?.is_some())
}

// Whether the bytes are this report, which has these numbers.
fn are_this_report(
    alloc: Global,
    bytes: &[u8],
    want: &Report,
    totals: &Totals,
) -> Result<bool, AllocError> {
    Ok(match &read_report(alloc, bytes)? {
        Some(report) => report.counts() == totals.counts && *report == *want,
        None => false,
    })
}

// The report is read at once, and cut in two at each place, so also within numbers, escapes and characters.
pub(super) fn check_two_pieces(
    rt: &impl Abort,
    alloc: Global,
    text: &str,
    want: &Report,
    totals: &Totals,
) -> Result<(), AllocError> {
    let bytes = text.as_bytes();
    assert!(rt; are_this_report(alloc, bytes, want, totals)?);
    for at in 0..=bytes.len() {
        let (front, back) = bytes.split_at(at);
        assert!(rt;
            are_taken(alloc, &[front, b"", back], want, totals)?,
            "{at}"
        );
    }
    Ok(())
}

#[test]
fn reads_two_pieces(rt: HostRuntime) -> Result<(), Fail> {
    let alloc = rt.alloc();
    let two = two_tests(alloc)?;
    check_two_pieces(&rt, alloc, TWO_TESTS_JSON, &two, &two_totals())?;
    check_two_pieces(&rt, alloc, ALL_SORTS, &all_sorts(alloc)?, &all_totals())?;
    Ok(())
}

// A row is shown from the end of its outcome's line on, whatever follows, and not before.
#[test]
fn shows_rows_as_they_end(rt: HostRuntime) -> Result<(), Fail> {
    let alloc = rt.alloc();
    let two = two_tests(alloc)?;
    check_rows_before(
        &rt,
        alloc,
        TWO_TESTS_JSON,
        &two,
        "\"passed\": 1",
        "\"passed\": 2",
    )?;
    let five = all_sorts(alloc)?;
    check_rows_before(
        &rt,
        alloc,
        ALL_SORTS,
        &five,
        "\"failed\": 3",
        "\"failed\": 2",
    )
}

// The text has these rows, also with that part of its summary in place of the other.
fn check_rows_before(
    rt: &impl Abort,
    alloc: Global,
    text: &str,
    want: &Report,
    old: &str,
    new: &str,
) -> Result<(), Fail> {
    let wrong = altered(alloc, text, old, new)?;
    check_rows(rt, alloc, text, want, true)?;
    check_rows(rt, alloc, wrong.as_str(), want, false)
}

// Whether the bytes of a line are taken one by one and then its end, with `before` of the rows shown before the end, and
// `behind` of them behind it.
fn is_line_taken(
    feed: &mut Feed,
    line: &str,
    rows: &[Row],
    before: usize,
    behind: usize,
) -> Result<bool, AllocError> {
    let mut are_shown = true;
    for byte in line.as_bytes().chunks(1) {
        feed.feed(byte)?;
        are_shown = are_shown && feed.rows() == rows.get(..before);
    }
    feed.feed(b"\n")?;
    Ok(are_shown && feed.rows() == rows.get(..behind))
}

// The text has these rows, and is a report or has a wrong summary behind them.
fn check_rows(
    rt: &impl Abort,
    alloc: Global,
    text: &str,
    want: &Report,
    is_report: bool,
) -> Result<(), Fail> {
    let mut feed = Feed::new(alloc)?;
    let mut lines: usize = 0;
    let mut shown = 0;
    for line in text.lines() {
        // Behind the title each row has two lines.
        let behind = lines / 2;
        assert!(rt;
            is_line_taken(&mut feed, line, &want.rows, shown, behind)?,
            "{line}"
        );
        shown = behind;
        lines = lines.saturating_add(1);
    }
    assert!(rt; shown == want.rows.len());
    assert!(rt; feed.finish()?.is_some() == is_report);
    Ok(())
}

// Whether this is the report whose text is `ALL_SORTS`.
fn is_all_sorts(alloc: Global, report: &Option<Report>) -> Result<bool, AllocError> {
    let want = all_sorts(alloc)?;
    Ok(report.as_ref().is_some_and(|report| *report == want))
}

// Each byte comes by itself. After it the rows so far are shown, or memory was wanting, and then it is from there on. If the
// Nth allocation fails, for any N, no assertion does.
#[test]
fn stays_refused_for_want_of_memory(rt: HostRuntime) -> Result<(), Fail> {
    let alloc = rt.alloc();
    let mut feed = Feed::new(alloc)?;
    let mut is_refused = false;
    for byte in ALL_SORTS.as_bytes().chunks(1) {
        let taken = feed.feed(byte);
        assert!(rt; !(is_refused && taken.is_ok()));
        is_refused = taken.is_err();
        assert!(rt; feed.rows().is_none() == is_refused);
    }
    match feed.finish() {
        Ok(report) => assert!(rt; !is_refused && is_all_sorts(alloc, &report)?),
        Err(AllocError) => assert!(rt; is_refused),
    }
    Ok(())
}

// The same holds of a report that is read at once, and of its numbers.
#[test]
fn reads_all_or_wants_memory(rt: HostRuntime) -> Result<(), Fail> {
    let alloc = rt.alloc();
    if let Ok(report) = read_report(alloc, ALL_SORTS.as_bytes()) {
        assert!(rt; is_all_sorts(alloc, &report)?);
    }
    if let Ok(tally) = Tally::new(alloc).feed(ALL_SORTS.as_bytes()) {
        assert!(rt; tally.finish() == Some(all_totals()));
    }
    Ok(())
}

// Neither a text behind something, nor with something behind it, is a report.
fn check_other_pieces(rt: &impl Abort, alloc: Global, text: &str) -> Result<(), Fail> {
    let all = text.as_bytes();
    let title = text
        .split_inclusive('\n')
        .next()
        .ok_or("no line")?
        .as_bytes();
    for other in &[b"\n".as_slice(), b"{", title, all] {
        assert!(rt; are_refused(alloc, &[other, all])?);
    }
    for other in &[b"\n".as_slice(), b" "] {
        assert!(rt; are_refused(alloc, &[all, other])?);
    }
    Ok(())
}

#[test]
fn refuses_other_pieces(rt: HostRuntime) -> Result<(), Fail> {
    assert!(rt; are_refused(rt.alloc(), &[b"", b""])?);
    check_other_pieces(&rt, rt.alloc(), TWO_TESTS_JSON)?;
    check_other_pieces(&rt, rt.alloc(), ALL_SORTS)
}

// Times in seconds, and their nanoseconds.
static TIMES: [(&str, u64); 5] = [
    ("\"exec_time\": 0 ", 0),
    ("\"exec_time\": 0.000000001 ", 1),
    ("\"exec_time\": 0.005 ", 5_000_000),
    ("\"exec_time\": 10 ", 10_000_000_000),
    ("\"exec_time\": 18446744073.709551615 ", u64::MAX),
];

// How many rows a report of no trials with this time has, and how long it lasts.
fn rows_and_nanos(alloc: Global, time: &str) -> Result<Option<(usize, u64)>, Fail> {
    let text = altered(alloc, NO_ROWS, TIMES[0].0, time)?;
    Ok(match &read_report(alloc, text.as_str().as_bytes())? {
        Some(report) => Some((report.rows.len(), report.nanos)),
        None => None,
    })
}

#[test]
fn reads_numbers(rt: HostRuntime) -> Result<(), Fail> {
    for (time, nanos) in &TIMES {
        assert!(rt;
            rows_and_nanos(rt.alloc(), time)? == Some((0, *nanos)),
            "{time}"
        );
    }
    Ok(())
}

// Parts of the report of every outcome, and what is no report in their place.
static OTHER_TEXTS: [(&str, &str); 46] = [
    // Whole lines, and what comes before, between and behind them.
    (ALL_SORTS, ""),
    (ALL_SORTS, "\n"),
    ("\"exec_time\": 1.5 }\n", "\"exec_time\": 1.5 }"),
    ("\"exec_time\": 1.5 }\n", "\"exec_time\": 1.5 }\n\n"),
    (
        "\"exec_time\": 1.5 }\n",
        "\"exec_time\": 1.5 }\n{ \"type\": \"suite\", \"event\": \"started\", \"test_count\": 0 }\n",
    ),
    ("5 }\n", "5 }\r\n"),
    ("5 }\n", "5 }\n\n"),
    ("{ \"type\": \"suite\"", " { \"type\": \"suite\""),
    ("{ \"type\": \"suite\"", "\u{feff}{ \"type\": \"suite\""),
    ("\"type\": \"suite\"", "\"type\":\"suite\""),
    // Numbers.
    ("\"test_count\": 5", "\"test_count\": 05"),
    ("\"test_count\": 5", "\"test_count\": +5"),
    ("\"test_count\": 5", "\"test_count\": "),
    ("\"test_count\": 5", "\"test_count\": 4"),
    ("\"test_count\": 5", "\"test_count\": 6"),
    ("\"test_count\": 5", "\"test_count\": 18446744073709551621"),
    ("\"passed\": 0", "\"passed\": 1"),
    ("\"failed\": 3", "\"failed\": 2"),
    ("\"ignored\": 1", "\"ignored\": 01"),
    ("\"measured\": 1", "\"measured\": 0"),
    ("615, \"deviation\"", "616, \"deviation\""),
    ("615, \"exec_time\"", "616, \"exec_time\""),
    ("\"exec_time\": 1.5", "\"exec_time\": 1.50"),
    ("\"exec_time\": 1.5", "\"exec_time\": 1.0"),
    ("\"exec_time\": 1.5", "\"exec_time\": 1."),
    ("\"exec_time\": 1.5", "\"exec_time\": .5"),
    ("\"exec_time\": 1.5", "\"exec_time\": 1e0"),
    ("\"exec_time\": 1.5", "\"exec_time\": 1.5000000000"),
    ("\"exec_time\": 1.5", "\"exec_time\": 0.0000000001"),
    ("\"exec_time\": 1.5", "\"exec_time\": 18446744073.709551616"),
    // Names, words and messages.
    ("\"name\": \"b\", \"median\"", "\"name\": \"c\", \"median\""),
    (
        "\"event\": \"failed\", \"passed\"",
        "\"event\": \"ok\", \"passed\"",
    ),
    ("\"event\": \"ignored\" }", "\"event\": \"ignore\" }"),
    ("\\n\" }", "\\u000a\" }"),
    ("\\n\" }", "\n\" }"),
    ("\\n\" }", "\" }"),
    ("Error: ", "error: "),
    ("\\b\\t", "\\u0008\\t"),
    ("\\b\\t", "\\b\t"),
    ("\\u001f", "\\u001F"),
    ("\\u001f", "\\u00"),
    ("\\u001f", "\u{1f}"),
    ("\\u001f/", "\\u001f\\/"),
    ("\\u001f/", "\\u0041"),
    ("\\u001f/", "\""),
    ("\\u001f/", "\\"),
];

// Whether the report of every outcome is none with the one part in place of the other.
fn is_none_with(alloc: Global, old: &str, new: &str) -> Result<bool, Fail> {
    let text = altered(alloc, ALL_SORTS, old, new)?;
    Ok(!are_report(alloc, text.as_str().as_bytes())?)
}

#[test]
fn refuses_other_texts(rt: HostRuntime) -> Result<(), Fail> {
    for (old, new) in &OTHER_TEXTS {
        assert!(rt; is_none_with(rt.alloc(), old, new)?, "{new} for {old}");
    }
    Ok(())
}

// A report of one ignored trial, with these fields for its name and its kind in its two lines.
pub(super) fn ignored_trial(alloc: Global, first: &str, second: &str) -> Result<String, Fail> {
    Ok(format!(in alloc;
        "{{ \"type\": \"suite\", \"event\": \"started\", \"test_count\": 1 }}
{{ \"type\": \"test\", \"event\": \"started\", {first} }}
{{ \"type\": \"test\", {second}, \"event\": \"ignored\" }}
{{ \"type\": \"suite\", \"event\": \"ok\", \"passed\": 0, \"failed\": 0, \"ignored\": 1, \"measured\": 0, \"filtered_out\": 16, \"exec_time\": 0 }}
"
    )?)
}

// Fields that both lines of a trial have, and the name and the kind that they mean.
pub(super) static KINDS: [(&str, &str, &str); 5] = [
    (r#""name": "fly", "kind": "banana""#, "fly", "banana"),
    (r#""name": "fly""#, "fly", ""),
    (r#""name": "a", "kind": "b""#, "a", "b"),
    (r#""name": "a\", \"kind\": \"b""#, "a\", \"kind\": \"b", ""),
    (
        r#""name": "", "kind": "\"\\\n\u0001/é\"""#,
        "",
        "\"\\\n\u{1}/\u{e9}\"",
    ),
];

// Whether this is a report of one ignored trial of this name and kind, beside 16 others.
fn is_of_ignored(report: &Option<Report>, name: &str, kind: &str) -> bool {
    match report
        .as_ref()
        .map(|report| (report.rows.as_slice(), report.filtered_out))
    {
        Some(([row], 16)) => {
            row.name.as_str() == name
                && row.kind.as_str() == kind
                && matches!(row.outcome, Outcome::Ignored)
        }
        _ => false,
    }
}

// Whether a report with these fields is read as that of one trial, at once and byte by byte.
fn is_kind_read(alloc: Global, fields: &str, name: &str, kind: &str) -> Result<bool, Fail> {
    let text = ignored_trial(alloc, fields, fields)?;
    let bytes = text.as_str().as_bytes();
    let is_read = is_of_ignored(&read_report(alloc, bytes)?, name, kind);
    Ok(is_read && is_of_ignored(&fed_each_byte(alloc, bytes)?, name, kind))
}

#[test]
fn reads_kinds(rt: HostRuntime) -> Result<(), Fail> {
    for (fields, name, kind) in &KINDS {
        assert!(rt; is_kind_read(rt.alloc(), fields, name, kind)?, "{fields}");
    }
    Ok(())
}

const BARE: &str = r#""name": "fly""#;

const WITH_KIND: &str = r#""name": "fly", "kind": "banana""#;

const EMPTY_KIND: &str = r#""name": "fly", "kind": """#;

const KIND_FIRST: &str = r#""kind": "banana", "name": "fly""#;

// Fields of the two lines of a trial that make no report.
static OTHER_KINDS: [(&str, &str); 12] = [
    (WITH_KIND, BARE),
    (BARE, WITH_KIND),
    (WITH_KIND, r#""name": "fly", "kind": "bananas""#),
    (WITH_KIND, r#""name": "bee", "kind": "banana""#),
    (WITH_KIND, KIND_FIRST),
    (EMPTY_KIND, BARE),
    (BARE, EMPTY_KIND),
    (EMPTY_KIND, EMPTY_KIND),
    (KIND_FIRST, KIND_FIRST),
    (
        r#""name": "fly", "kind": "\u0062""#,
        r#""name": "fly", "kind": "\u0062""#,
    ),
    (
        r#""name": "fly", "kind": "b", "kind": "b""#,
        r#""name": "fly", "kind": "b", "kind": "b""#,
    ),
    (
        r#""name": "fly", "kind": "b"#,
        r#""name": "fly", "kind": "b"#,
    ),
];

// Whether a trial with these fields in its two lines makes no report, nor the numbers of one.
fn is_kind_refused(alloc: Global, first: &str, second: &str) -> Result<bool, Fail> {
    let text = ignored_trial(alloc, first, second)?;
    let bytes = text.as_str().as_bytes();
    let is_tallied = tallied(alloc, &[bytes])?.is_some();
    Ok(!is_tallied && !are_report(alloc, bytes)?)
}

#[test]
fn refuses_other_kinds(rt: HostRuntime) -> Result<(), Fail> {
    for (first, second) in &OTHER_KINDS {
        assert!(rt;
            is_kind_refused(rt.alloc(), first, second)?,
            "{first}, {second}"
        );
    }
    Ok(())
}

// Whether a report that announces too many rows is none, nor is its title.
// A report whose name, kind and message are one character each, no two of them the same.
const ONE_CHARACTER_EACH: &str = r#"{ "type": "suite", "event": "started", "test_count": 1 }
{ "type": "test", "event": "started", "name": "é", "kind": "è" }
{ "type": "test", "name": "é", "kind": "è", "event": "failed", "stdout": "Error: \"ê\"\n" }
{ "type": "suite", "event": "failed", "passed": 0, "failed": 1, "ignored": 0, "measured": 0, "filtered_out": 0, "exec_time": 0 }
"#;

// The text with these bytes in place of each such character.
fn with_bytes(alloc: Global, text: &str, mark: &str, bytes: &[u8]) -> Result<Vec<u8>, AllocError> {
    let mut changed = Vec::new(alloc);
    for (number, part) in text.split(mark).enumerate() {
        if number > 0 {
            changed.extend_from_slice(bytes)?;
        }
        changed.extend_from_slice(part.as_bytes())?;
    }
    Ok(changed)
}

// With bytes that are no UTF-8 it is no report, wherever they are. They aren't taken for a want of memory.
#[test]
fn refuses_what_is_no_text(rt: HostRuntime) -> Result<(), Fail> {
    let alloc = rt.alloc();
    assert!(rt; are_report(alloc, ONE_CHARACTER_EACH.as_bytes())?);
    for mark in ["é", "è", "ê"] {
        for bytes in [b"\xff".as_slice(), b"\xc3", b"\xed\xa0\x80", b"\xc0\xaf"] {
            let changed = with_bytes(alloc, ONE_CHARACTER_EACH, mark, bytes)?;
            assert!(rt; !are_report(alloc, changed.as_slice())?);
        }
    }
    Ok(())
}

fn is_too_long(alloc: Global, report: &str, count: &str) -> Result<bool, Fail> {
    let text = altered(alloc, report, count, "18446744073709551615 }")?;
    let title = text.as_str().split_inclusive('\n').next().ok_or("no line")?;
    let is_title = are_report(alloc, title.as_bytes())?;
    Ok(!is_title && !are_report(alloc, text.as_str().as_bytes())?)
}

// A title may announce more rows than any memory holds: room is taken for the rows that come, and not for those.
#[test]
fn takes_no_room_for_rows_that_do_not_come(rt: HostRuntime) -> Result<(), Fail> {
    assert!(rt; is_too_long(rt.alloc(), NO_ROWS, "0 }")?);
    assert!(rt; is_too_long(rt.alloc(), ALL_SORTS, "5 }")?);
    Ok(())
}
