//! Names, kinds and messages that look like other parts of a report: what is written of them, and what is read back.
use super::runs::{Left, asking, becoming, outcome_with, run_into};
use libtest_mimic::{FormatSetting, Outcome, Spawner};
use mimic_events::{Feed, Report, read_report};
use mimic_testkit::FaultyWriter;
use std::alloc::{AllocError, Global};
use std::test::Fail;

// A name, a kind, the message of a failure, and how they are written in the lines of the trial: the name, the part of the kind,
// and what follows `"event": `.
#[derive(Clone, Copy)]
struct Vector {
    name: &'static str,
    kind: &'static str,
    message: Option<&'static str>,
    written: &'static str,
    kind_written: &'static str,
    event: &'static str,
}

// All characters below U+0020. In JSON 5 of them take two bytes each, and 27 take six.
const CONTROLS: &str =
    "\0\u{1}\u{2}\u{3}\u{4}\u{5}\u{6}\u{7}\u{8}\t\n\u{b}\u{c}\r\u{e}\u{f}\u{10}\u{11}\u{12}\u{13}\u{14}\u{15}\u{16}\u{17}\u{18}\u{19}\u{1a}\u{1b}\u{1c}\u{1d}\u{1e}\u{1f}";

const CONTROLS_WRITTEN: &str =
    r#"\u0000\u0001\u0002\u0003\u0004\u0005\u0006\u0007\b\t\n\u000b\f\r\u000e\u000f\u0010\u0011\u0012\u0013\u0014\u0015\u0016\u0017\u0018\u0019\u001a\u001b\u001c\u001d\u001e\u001f"#;

static VECTORS: [Vector; 6] = [
    Vector {
        name: r#"{ "type": "test", "name": "x", "event": "ok" }"#,
        kind: r#"k", "event": "ok" }"#,
        message: None,
        written: r#"{ \"type\": \"test\", \"name\": \"x\", \"event\": \"ok\" }"#,
        kind_written: r#", "kind": "k\", \"event\": \"ok\" }""#,
        event: r#""ok""#,
    },
    Vector {
        name: "a",
        kind: "\"",
        message: Some("\""),
        written: "a",
        kind_written: r#", "kind": "\"""#,
        event: r#""failed", "stdout": "Error: \"\"\"\n""#,
    },
    Vector {
        name: "a",
        kind: "] a ... ok\ntest [",
        message: Some("\"\n"),
        written: "a",
        kind_written: r#", "kind": "] a ... ok\ntest [""#,
        event: r#""failed", "stdout": "Error: \"\"\n\"\n""#,
    },
    Vector {
        name: "a",
        kind: "\\",
        message: Some("\\"),
        written: "a",
        kind_written: r#", "kind": "\\""#,
        event: r#""failed", "stdout": "Error: \"\\\"\n""#,
    },
    Vector {
        name: CONTROLS,
        kind: "\0\u{8}\u{b}\u{1f}",
        message: None,
        written: CONTROLS_WRITTEN,
        kind_written: r#", "kind": "\u0000\b\u000b\u001f""#,
        event: r#""ok""#,
    },
    Vector {
        name: "\u{1f600}",
        kind: "/\u{7f}\u{e9}",
        message: None,
        written: "\u{1f600}",
        kind_written: ", \"kind\": \"/\u{7f}\u{e9}\"",
        event: r#""ok""#,
    },
];

// The same trial with no kind.
fn without_kind(mut vector: Vector) -> Vector {
    vector.kind = "";
    vector.kind_written = "";
    vector
}

const PASSED: &str = r#" }
{ "type": "suite", "event": "ok", "passed": 1, "failed": 0, "ignored": 0, "measured": 0, "filtered_out": 0, "exec_time": 0 }
"#;

const FAILED: &str = r#" }
{ "type": "suite", "event": "failed", "passed": 0, "failed": 1, "ignored": 0, "measured": 0, "filtered_out": 0, "exec_time": 0 }
"#;

// The four lines of a run of this one trial.
fn four_lines(alloc: Global, vector: Vector) -> Result<String, AllocError> {
    let mut text = String::new(alloc);
    for part in &[
        "{ \"type\": \"suite\", \"event\": \"started\", \"test_count\": 1 }\n",
        "{ \"type\": \"test\", \"event\": \"started\", \"name\": \"",
        vector.written,
        "\"",
        vector.kind_written,
        " }\n{ \"type\": \"test\", \"name\": \"",
        vector.written,
        "\"",
        vector.kind_written,
        ", \"event\": ",
        vector.event,
        if vector.message.is_some() {
            FAILED
        } else {
            PASSED
        },
    ] {
        text.push_str(part)?;
    }
    Ok(text)
}

const SHOWN_PASSED: &str =
    "\ntest result: ok. 1 passed; 0 failed; 0 ignored; 0 measured; 0 filtered out; finished in 0.00s\n\n";

const SHOWN_FAILED: &str =
    "\n\ntest result: FAILED. 0 passed; 1 failed; 0 ignored; 0 measured; 0 filtered out; finished in 0.00s\n\n";

// The report of a run of this one trial in pretty, which has all texts as they are.
fn shown(alloc: Global, vector: Vector) -> Result<String, AllocError> {
    let [opening, closing] = if vector.kind.is_empty() {
        ["", ""]
    } else {
        ["[", "] "]
    };
    let announcement = [
        "\nrunning 1 test\ntest ",
        opening,
        vector.kind,
        closing,
        vector.name,
        " ... ",
    ];
    let end = match vector.message {
        None => ["ok\n", "", "", "", "", "", SHOWN_PASSED],
        Some(message) => [
            "FAILED\n\nfailures:\n\n---- ",
            vector.name,
            " ----\n",
            message,
            "\n\n\nfailures:\n    ",
            vector.name,
            SHOWN_FAILED,
        ],
    };
    let mut text = String::new(alloc);
    for part in &announcement {
        text.push_str(part)?;
    }
    for part in &end {
        text.push_str(part)?;
    }
    Ok(text)
}

// What a feed answers of these bytes, one by one.
fn fed(alloc: Global, bytes: &[u8]) -> Result<Option<Report>, AllocError> {
    let mut feed = Feed::new(alloc)?;
    for byte in bytes.chunks(1) {
        feed.feed(byte)?;
    }
    feed.finish()
}

// What a run of this one trial writes.
fn written<T: Spawner + 'static>(
    rt: &T,
    alloc: Global,
    vector: Vector,
    format: FormatSetting,
    threads: Option<usize>,
) -> Result<Vec<u8>, AllocError> {
    let args = asking(alloc, format, threads);
    let kind = String::from_str(alloc, vector.kind)?;
    let mut tests = Vec::with_capacity(alloc, 1)?;
    tests.push(becoming(alloc, vector.name, vector.message)?.with_kind(kind))?;
    let left = run_into(rt, alloc, &args, tests, FaultyWriter::new(alloc));
    Ok(left.writer.bytes)
}

// Whether the report has one row, of this trial.
fn is_of_one(report: Option<Report>, vector: Vector, outcome: &Outcome) -> bool {
    match report.as_ref().map(|report| report.rows.as_slice()) {
        Some([row]) => {
            row.name.as_str() == vector.name
                && row.kind.as_str() == vector.kind
                && row.outcome == *outcome
        }
        _ => false,
    }
}

// Whether the bytes are read as this trial, at once and byte by byte.
fn is_read_as(alloc: Global, bytes: &[u8], vector: Vector) -> Result<bool, AllocError> {
    let outcome = outcome_with(alloc, vector.message)?;
    let at_once = is_of_one(read_report(alloc, bytes)?, vector, &outcome);
    Ok(at_once && is_of_one(fed(alloc, bytes)?, vector, &outcome))
}

// Whether a run of this trial writes its four lines, and they are read back as this trial, at once and byte by byte.
fn is_read_back<T: Spawner + 'static>(
    rt: &T,
    alloc: Global,
    vector: Vector,
    threads: Option<usize>,
) -> Result<bool, AllocError> {
    let text = four_lines(alloc, vector)?;
    let written = written(rt, alloc, vector, FormatSetting::Json, threads)?;
    let is_written = written.as_slice() == text.as_str().as_bytes();
    Ok(is_written && is_read_as(alloc, &written, vector)?)
}

// With its kind and without, by one thread and by a worker.
static WAYS: [(bool, Option<usize>); 4] = [
    (true, None),
    (true, Some(2)),
    (false, None),
    (false, Some(2)),
];

// The trial with its kind, or without.
fn with_kind_if(has_kind: bool, vector: Vector) -> Vector {
    if has_kind {
        vector
    } else {
        without_kind(vector)
    }
}

#[test]
fn reads_back_hostile_texts(rt: HostRuntime) -> Result<(), Fail> {
    assert!(rt; CONTROLS.len() == 32 && CONTROLS_WRITTEN.len() == 172);
    for vector in &VECTORS {
        for (has_kind, threads) in &WAYS {
            let vector = with_kind_if(*has_kind, *vector);
            assert!(rt; is_read_back(&rt, rt.alloc(), vector, *threads)?);
        }
    }
    Ok(())
}

// Whether a run of this trial shows its texts as they are.
fn is_shown<T: Spawner + 'static>(
    rt: &T,
    alloc: Global,
    vector: Vector,
    threads: Option<usize>,
) -> Result<bool, AllocError> {
    let text = shown(alloc, vector)?;
    let bytes = written(rt, alloc, vector, FormatSetting::Pretty, threads)?;
    Ok(bytes.as_slice() == text.as_str().as_bytes())
}

#[test]
fn shows_hostile_texts(rt: HostRuntime) -> Result<(), Fail> {
    for vector in &VECTORS {
        for (has_kind, threads) in &WAYS {
            let vector = with_kind_if(*has_kind, *vector);
            assert!(rt; is_shown(&rt, rt.alloc(), vector, *threads)?);
        }
    }
    Ok(())
}

// A name of one character in four bytes, and what is no text in its place: half of a pair, another spelling of `/`, the same
// character cut short, one of two bytes cut short, and a byte that no text has.
static NO_TEXTS: [&[u8]; 5] = [
    b"\xed\xa0\x80",
    b"\xc0\xaf",
    b"\xf0\x9f\x98",
    b"\xc3",
    b"\xff",
];

// The text, which begins otherwise, with these bytes in place of that character.
fn with_bytes(alloc: Global, text: &str, bytes: &[u8]) -> Result<Vec<u8>, AllocError> {
    let mut altered = Vec::new(alloc);
    for part in text.split("\u{1f600}") {
        if !altered.is_empty() {
            altered.extend_from_slice(bytes)?;
        }
        altered.extend_from_slice(part.as_bytes())?;
    }
    Ok(altered)
}

// Whether these bytes are read as a report: at once, and byte by byte.
fn are_read(alloc: Global, bytes: &[u8]) -> Result<(bool, bool), AllocError> {
    let at_once = read_report(alloc, bytes)?.is_some();
    Ok((at_once, fed(alloc, bytes)?.is_some()))
}

#[test]
fn reads_no_name_that_is_no_text(rt: HostRuntime) -> Result<(), Fail> {
    let alloc = rt.alloc();
    assert!(rt; "\u{1f600}".as_bytes() == b"\xf0\x9f\x98\x80".as_slice());
    let text = four_lines(alloc, VECTORS[5])?;
    assert!(rt; are_read(alloc, text.as_str().as_bytes())? == (true, true));
    for bad in &NO_TEXTS {
        let bytes = with_bytes(alloc, text.as_str(), bad)?;
        assert!(rt; are_read(alloc, &bytes)? == (false, false));
    }
    Ok(())
}

// What a run of passing trials of these names leaves.
fn run_named<T: Spawner + 'static>(
    rt: &T,
    alloc: Global,
    names: &[&str],
    threads: Option<usize>,
) -> Result<Left<FaultyWriter>, AllocError> {
    let args = asking(alloc, FormatSetting::Pretty, threads);
    let mut tests = Vec::new(alloc);
    for name in names {
        tests.push(becoming(alloc, name, None)?)?;
    }
    Ok(run_into(rt, alloc, &args, tests, FaultyWriter::new(alloc)))
}

// Whether there is a line, of 70,013 bytes with its line end, which has this front, and a passing test's end.
fn is_long_row(line: Option<&str>, front: &str) -> bool {
    match line {
        Some(line) => {
            line.len() == 70_012 && line.starts_with(front) && line.ends_with(" ... ok")
        }
        None => false,
    }
}

// Whether the rows behind the two lines of the title are as long, and three lines come after them.
fn are_long_rows(text: &str) -> bool {
    let mut lines = text.lines();
    lines.next().is_some()
        && lines.next().is_some()
        && is_long_row(lines.next(), "test aaa")
        && is_long_row(lines.next(), "test b  ")
        && lines.count() == 3
}

// Each row is as long as the long name's, the short name's too.
#[test]
fn pads_to_a_long_name(rt: HostRuntime) -> Result<(), Fail> {
    let long = "a".repeat(rt.alloc(), 70_000)?;
    for threads in &[None, Some(1)] {
        let left = run_named(&rt, rt.alloc(), &[long.as_str(), "b"], *threads)?;
        assert!(rt; are_long_rows(str::from_utf8(&left.writer.bytes)?));
    }
    Ok(())
}

static TWO_LINES: &[u8] =
    b"\nrunning 1 test\ntest a\nb ... ok\n\ntest result: ok. 1 passed; 0 failed; 0 ignored; 0 measured; 0 filtered out; finished in 0.00s\n\n";

// In pretty a name is written as it is, and no line that it forges is counted.
#[test]
fn shows_a_name_of_two_lines(rt: HostRuntime) -> Result<(), Fail> {
    for threads in &[None, Some(2)] {
        let left = run_named(&rt, rt.alloc(), &["a\nb"], *threads)?;
        assert!(rt; left.writer.bytes.as_slice() == TWO_LINES);
        assert!(rt; left.counts() == Some([1, 0, 0, 0, 0]));
    }
    Ok(())
}
