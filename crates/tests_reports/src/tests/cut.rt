//! What is joined of reports that are cut, as after runs were killed, and what is shown of a text that is none. Expected texts are
//! worked out by hand.
use super::hashing::usual_hashes;
use super::lines::{KILLED, announced, failed, passed, read, summary, text_of, title};
use super::reading::Slow;
use mimic_events::{Ending, RowsRead};
use mimic_join::{JoinFault, Joined, join_cut_reports};
use mimic_printer::Sink;
use mimic_reports::show_cut;
use std::alloc::Global;
use std::io::{ErrorKind, Read, Write};
use std::test::Fail;

// What is shown of these lines. It promises nothing, so that no test carries the contract of `show_cut`.
fn cut_shown(alloc: Global, lines: &[&str]) -> Result<String, Fail> {
    let RowsRead { rows, ending } = read(alloc, lines)?;
    let Ending::Cut(stop) = ending else {
        return Err("a whole report".into());
    };
    let mut sink = Sink::new(Vec::new(alloc));
    show_cut(alloc, rows, &stop, false, &mut sink)?;
    Ok(String::from_utf8(sink.into_inner())?)
}

// The program shows nothing then.
#[test]
fn shows_no_report(rt: HostRuntime) -> Result<(), Fail> {
    let text = cut_shown(rt.alloc(), &[])?;
    assert!(rt; text.as_str() == "\nno report\n", "{text}");
    Ok(())
}

// Joins what can be read of these readers, and returns the writer, and what was read. This is the one place that calls
// `join_cut_reports`, and it promises nothing, so that no test carries that contract.
pub(super) fn join_cut_into<I: Read + Drop, W: Write>(
    alloc: Global,
    inputs: Vec<I>,
    shards: usize,
    writer: W,
) -> (W, Result<Joined, JoinFault>) {
    let mut sink = Sink::new(writer);
    let joined = join_cut_reports(alloc, usual_hashes(), inputs, shards, false, &mut sink);
    (sink.into_inner(), joined)
}

// The report of a shard that ended.
const ENDED: &[&str] = &[
    title!(1),
    announced!("c"),
    passed!("c"),
    summary!("ok", 1, 0, 0, 0, 0, "1"),
];

// The rows of both, with their titles as one.
const BOTH: &[&str] = &[
    title!(4),
    announced!("a"),
    failed!("a", "x"),
    announced!("c"),
    passed!("c"),
];

// A shard that was killed, one whose report can't be read to its end, and one that ended. The rows of the second aren't kept.
#[test]
fn joins_what_has_ended(rt: HostRuntime) -> Result<(), Fail> {
    let alloc = rt.alloc();
    let (killed, ended) = (text_of(alloc, KILLED)?, text_of(alloc, ENDED)?);
    let mut failing = Slow::of(ended.as_str());
    failing.fails = Some(ErrorKind::TimedOut);
    let inputs = vec![in alloc;
        Slow::of(killed.as_str()),
        failing,
        Slow::of(ended.as_str()),
    ]?;
    let (bytes, joined) = join_cut_into(alloc, inputs, 3, Vec::new(alloc));
    assert!(rt; str::from_utf8(&bytes)? == text_of(alloc, BOTH)?.as_str());
    let Joined::Cut(reads) = joined? else {
        return Err("whole reports".into());
    };
    let [cut, unread, whole] = reads.as_slice() else {
        return Err("other reads".into());
    };
    let (Ending::Cut(stop), Ending::Failed(error)) = (&cut.ending, &unread.ending) else {
        return Err("other endings".into());
    };
    assert!(rt; cut.rows.len() == 1 && stop.announced == Some(3) && stop.wrong_line.is_none());
    assert!(rt; matches!(&stop.running, Some(label) if label.name.as_str() == "b"));
    assert!(rt; error.kind() == ErrorKind::TimedOut);
    assert!(rt; whole.ending.is_whole() && whole.rows.len() == 1);
    Ok(())
}
