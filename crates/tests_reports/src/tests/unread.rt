//! Reports whose reader fails, as JUnit's XML. Expected texts are worked out by hand.
use super::lines::text_of;
use super::reading::Slow;
use super::times::TIMED;
use mimic_printer::Sink;
use mimic_reports::{Suite, status_of, write_junit, write_suite};
use std::alloc::Global;
use std::io;
use std::io::{ErrorKind, Read};
use std::test::Fail;

// A reader that fails after its text, with a cause that would be markup.
#[derive(Drop)]
struct Unreadable<'a>(Slow<'a>);

impl Read for Unreadable<'_> {
    fn read(&mut self, buf: &mut [u8]) -> io::Result<usize> {
        match self.0.read(buf) {
            Ok(0) => Err(io::Error::new(ErrorKind::TimedOut, "timed out & <more>")),
            read => read,
        }
    }
}

// Returns the report of the program `a` whose reader fails after the text.
fn unread(alloc: Global, text: &str) -> Result<Suite<'static>, Fail> {
    Ok(Suite::read(alloc, "a", Unreadable(Slow::of(text)))?)
}

// Returns the document of two such reports, the second one of no text.
fn junit_of(alloc: Global, lines: &[&str]) -> Result<String, Fail> {
    let text = text_of(alloc, lines)?;
    let suites = vec![in alloc; unread(alloc, text.as_str())?, unread(alloc, "")?]?;
    let mut sink = Sink::new(Vec::new(alloc));
    write_junit(&suites, &mut sink)?;
    Ok(String::from_utf8(sink.into_inner())?)
}

const ERROR: &str =
    r#"    <testcase classname="a" name="(whole report)"><error type="unreadable" message="timed out &amp; &lt;more&gt;"/></testcase>
"#;

const EMPTY: &str =
    r#"  <testsuite name="a" tests="1" failures="0" errors="1" skipped="0" time="0.000">
"#;

// How many lines come before the fault, the numbers of both reports and of the first, and its rows.
static UNREAD: [(usize, &str, &str, &str); 4] = [
    (
        0,
        r#""2" failures="0" errors="2""#,
        r#""1" failures="0""#,
        "",
    ),
    (
        2,
        r#""2" failures="0" errors="2""#,
        r#""1" failures="0""#,
        "",
    ),
    (
        3,
        r#""3" failures="0" errors="2""#,
        r#""2" failures="0""#,
        "    <testcase classname=\"a\" name=\"plain\" time=\"0.350\"/>\n",
    ),
    (
        6,
        r#""4" failures="1" errors="2""#,
        r#""3" failures="1""#,
        "    <testcase classname=\"a\" name=\"plain\" time=\"0.350\"/>\n    <testcase classname=\"a.k\" name=\"b\" time=\"1.500\"><failure type=\"failed\" message=\"no\">no\nno</failure></testcase>\n",
    ),
];

// The rows that had ended are there, and last an error with the cause.
#[test]
fn writes_unread_reports(rt: HostRuntime) -> Result<(), Fail> {
    let alloc = rt.alloc();
    for (count, all, numbers, rows) in &UNREAD {
        let text = junit_of(alloc, &TIMED[..*count])?;
        let start = format!(in alloc;
            "<?xml version=\"1.0\" encoding=\"UTF-8\"?>\n<testsuites tests={all} skipped=\"0\" time=\"0.000\">\n  <testsuite name=\"a\" tests={numbers} errors=\"1\" skipped=\"0\" time=\"0.000\">\n"
        )?;
        let end = format!(in alloc;
            "{ERROR}  </testsuite>\n{EMPTY}{ERROR}  </testsuite>\n</testsuites>\n"
        )?;
        let expected = format!(in alloc; "{start}{rows}{end}")?;
        assert!(rt; text == expected, "{text}");
    }
    Ok(())
}

// The element of such a report is the root of a document, too.
#[test]
fn writes_an_unread_report_alone(rt: HostRuntime) -> Result<(), Fail> {
    let alloc = rt.alloc();
    let mut sink = Sink::new(Vec::new(alloc));
    write_suite(&unread(alloc, "")?, &mut sink)?;
    let text = String::from_utf8(sink.into_inner())?;
    let expected = format!(in alloc;
        "<?xml version=\"1.0\" encoding=\"UTF-8\"?>\n{EMPTY}{ERROR}  </testsuite>\n"
    )?;
    assert!(rt; text == expected, "{text}");
    Ok(())
}

// A report with its summary isn't whole either if its reader fails behind it, and status 1 comes before that of failures.
#[test]
fn unread_reports_have_status_1(rt: HostRuntime) -> Result<(), Fail> {
    let alloc = rt.alloc();
    let text = text_of(alloc, TIMED)?;
    let suites = vec![in alloc; unread(alloc, text.as_str())?]?;
    let status = status_of(&suites);
    assert!(rt; status == 1, "{status}");
    Ok(())
}
