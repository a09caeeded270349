//! What no clause states about a page: its notes, and why a report is unread. The expected text is worked out by hand.
use super::lines::{A_FAILED, read};
use mimic_events::{Ending, RowsRead};
use mimic_printer::{Sink, WriteFault};
use mimic_reports::{PageContents, write_page};
use std::alloc::Global;
use std::io::{ErrorKind, Write};
use std::test::Fail;

// Writes the page to the writer, and returns the writer, and how that ended. This is the one place that calls `write_page`, and it
// promises nothing, so that no test carries that contract.
fn write_into<W: Write>(contents: &PageContents<'_>, writer: W) -> (W, Result<(), WriteFault>) {
    let mut sink = Sink::new(writer);
    let written = write_page(contents, &mut sink);
    (sink.into_inner(), written)
}

fn page_with(alloc: Global, contents: &PageContents<'_>) -> Result<String, Fail> {
    let (bytes, written) = write_into(contents, Vec::new(alloc));
    written?;
    Ok(String::from_utf8(bytes)?)
}

// A report that can't be read to its end, with notes that would be markup.
#[test]
fn shows_notes_and_why_a_report_is_unread(rt: HostRuntime) -> Result<(), Fail> {
    let alloc = rt.alloc();
    let RowsRead { rows, .. } = read(alloc, A_FAILED)?;
    let ending = Ending::Failed(ErrorKind::TimedOut.into());
    let notes = vec![in alloc;
        String::from_str(alloc, "host: a&b")?,
        String::from_str(alloc, "")?,
    ]?;
    let contents = PageContents {
        title: "t",
        notes: notes.as_slice(),
        rows: rows.as_slice(),
        ending: &ending,
        cause: "no <disk>",
        most: 0,
    };
    let page = page_with(alloc, &contents)?;
    let heading =
        "<h1><bdi>t</bdi> <strong class=\"failed\">unread</strong></h1>\n<p><bdi>host: a&amp;b</bdi></p>\n<p><bdi></bdi></p>\n<p class=\"cut\">the report can't be read to its end: <bdi>no &lt;disk&gt;</bdi>; trials that ended before: 1</p>\n<div class=\"bar\"";
    assert!(rt; page.contains(heading), "{page}");
    assert!(rt; page.contains("<li id=\"/a\" class=\"failed\">"));
    Ok(())
}
