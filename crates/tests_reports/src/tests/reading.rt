//! Reports that are read from readers, and texts of readers that are no reports.
use super::hashing::usual_hashes;
use super::joining::shown;
use mimic_join::{JoinFault, join_reports};
use mimic_printer::Sink;
use mimic_trial::Conclusion;
use std::alloc::Global;
use std::io;
use std::io::{ErrorKind, Read, Write};
use std::process::Abort;
use std::test::Fail;

const FIRST: &str = r#"{ "type": "suite", "event": "started", "test_count": 1 }
{ "type": "test", "event": "started", "name": "a\"b", "kind": "k" }
{ "type": "test", "name": "a\"b", "kind": "k", "event": "failed", "stdout": "Error: \"no\"\n" }
{ "type": "suite", "event": "failed", "passed": 0, "failed": 1, "ignored": 0, "measured": 0, "filtered_out": 2, "exec_time": 1.5 }
"#;

const SECOND: &str = r#"{ "type": "suite", "event": "started", "test_count": 1 }
{ "type": "test", "event": "started", "name": "c" }
{ "type": "test", "name": "c", "event": "ok" }
{ "type": "suite", "event": "ok", "passed": 1, "failed": 0, "ignored": 0, "measured": 0, "filtered_out": 1, "exec_time": 0.25 }
"#;

const BOTH: &str = r#"{ "type": "suite", "event": "started", "test_count": 2 }
{ "type": "test", "event": "started", "name": "a\"b", "kind": "k" }
{ "type": "test", "name": "a\"b", "kind": "k", "event": "failed", "stdout": "Error: \"no\"\n" }
{ "type": "test", "event": "started", "name": "c" }
{ "type": "test", "name": "c", "event": "ok" }
{ "type": "suite", "event": "failed", "passed": 1, "failed": 1, "ignored": 0, "measured": 0, "filtered_out": 3, "exec_time": 1.5 }
"#;

// A reader over a text, which gives at most `most` bytes a read. Every second read is interrupted, and after the text it
// fails if `fails` has an error.
#[derive(Drop)]
pub(super) struct Slow<'a> {
    bytes: &'a [u8],
    most: usize,
    interrupts: bool,
    pub(super) fails: Option<ErrorKind>,
}

impl Read for Slow<'_> {
    fn read(&mut self, buf: &mut [u8]) -> io::Result<usize> {
        self.interrupts = !self.interrupts;
        if self.interrupts {
            return Err(ErrorKind::Interrupted.into());
        }
        let count = self.bytes.len().min(buf.len()).min(self.most);
        if count == 0 {
            return match self.fails {
                Some(kind) => Err(kind.into()),
                None => Ok(0),
            };
        }
        let (now, later) = self.bytes.split_at(count);
        buf[..count].copy_from_slice(now);
        self.bytes = later;
        Ok(count)
    }
}

impl<'a> Slow<'a> {
    pub(super) fn of(text: &'a str) -> Slow<'a> {
        Slow {
            bytes: text.as_bytes(),
            most: 7,
            interrupts: false,
            fails: None,
        }
    }
}

// Joins what the readers of `shards` shards give, and returns the writer, and how that ended. This is the one place that calls
// `join_reports`, and it promises nothing, so that no test carries that contract.
pub(super) fn join_into<I: Read + Drop, W: Write>(
    alloc: Global,
    inputs: Vec<I>,
    shards: usize,
    writer: W,
) -> (W, Result<Conclusion, JoinFault>) {
    let mut sink = Sink::new(writer);
    let joined = join_reports(alloc, usual_hashes(), inputs, shards, false, &mut sink);
    (sink.into_inner(), joined)
}

// Joins what two readers give, and returns what was written, and the text of the fault.
fn outcome_of(
    alloc: Global,
    first: Slow<'_>,
    second: Slow<'_>,
) -> Result<(Vec<u8>, Option<String>), Fail> {
    let inputs = vec![in alloc; first, second]?;
    let (bytes, joined) = join_into(alloc, inputs, 2, Vec::new(alloc));
    let fault = match joined {
        Ok(_) => None,
        Err(fault) => Some(shown(alloc, &fault)?),
    };
    Ok((bytes, fault))
}

#[test]
fn joins_what_is_read(rt: HostRuntime) -> Result<(), Fail> {
    let alloc = rt.alloc();
    let (bytes, fault) = outcome_of(alloc, Slow::of(FIRST), Slow::of(SECOND))?;
    assert!(rt; fault.is_none());
    assert!(rt; str::from_utf8(&bytes)? == BOTH);
    Ok(())
}

// A part of the second report, what replaces it, and what is shown then.
static ODD: [(&str, &str, &str); 9] = [
    (SECOND, "", "B: the report is cut"),
    (SECOND, "no line", "B: the report is cut"),
    ("0.25 }\n", "0.25 }", "B: the report is cut"),
    (
        "{ \"type\": \"suite\", \"event\": \"ok\"",
        "{",
        "B: line 4: not what a report has there",
    ),
    (
        "{ \"type\": \"suite\", \"event\": \"started\"",
        "{",
        "B: line 1: not what a report has there",
    ),
    (
        "\"name\": \"c\", \"event\": \"ok\"",
        "\"name\": \"d\", \"event\": \"ok\"",
        "B: line 3: not what a report has there",
    ),
    (
        "\"passed\": 1",
        "\"passed\": 2",
        "B: line 4: not what a report has there",
    ),
    (
        "0.25 }\n",
        "0.25 }\n\n",
        "B: line 5: not what a report has there",
    ),
    (
        SECOND,
        FIRST,
        "B: line 2: its trial is in a report before it too",
    ),
];

// The text with `new` in place of the first `old`.
fn altered(alloc: Global, text: &str, old: &str, new: &str) -> Result<String, Fail> {
    let (front, back) = text.split_once(old).ok_or("not in the text")?;
    Ok(format!(in alloc; "{front}{new}{back}")?)
}

// Checks that what the readers give is refused with the text `shown`, and nothing is written.
fn check_refused(
    rt: &impl Abort,
    alloc: Global,
    first: Slow<'_>,
    second: Slow<'_>,
    shown: &str,
) -> Result<(), Fail> {
    let (bytes, fault) = outcome_of(alloc, first, second)?;
    let fault = fault.ok_or("joined")?;
    assert!(rt; fault.as_str() == shown && bytes.is_empty(), "{fault}");
    Ok(())
}

#[test]
fn refuses_what_is_no_report(rt: HostRuntime) -> Result<(), Fail> {
    let alloc = rt.alloc();
    for (old, new, shown) in &ODD {
        let second = altered(alloc, SECOND, old, new)?;
        check_refused(
            &rt,
            alloc,
            Slow::of(FIRST),
            Slow::of(second.as_str()),
            shown,
        )?;
    }
    Ok(())
}

// The first reader fails after its text, or its text is cut; what the second gives doesn't count.
#[test]
fn refuses_the_first_reader(rt: HostRuntime) -> Result<(), Fail> {
    let mut first = Slow::of(FIRST);
    first.fails = Some(ErrorKind::PermissionDenied);
    check_refused(
        &rt,
        rt.alloc(),
        first,
        Slow::of("no line\n"),
        "A: permission denied",
    )?;
    check_refused(
        &rt,
        rt.alloc(),
        Slow::of(""),
        Slow::of("no line\n"),
        "A: the report is cut",
    )
}
