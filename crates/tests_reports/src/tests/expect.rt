//! What no clause states about known failures: what inputs give that are cut or fail, what is no file of known failures, and what is
//! written of a new one if the writer fails or a report is cut. Expected texts are worked out by hand.
use super::hashing::usual_hashes;
use super::lines::{A_FAILED, FILTERED, NONE, announced, failed, passed, summary, text_of, title};
use super::reading::Slow;
use mimic_events::Ending;
use mimic_expect::{
    ExpectOptions, Expectation, ExpectationVerdict, KnownFault, KnownFile, Lines, UpdateVerdict,
    read_known, write_unexpected, write_updated,
};
use mimic_printer::{OutputFault, Sink};
use mimic_testkit::{Fault, FaultPlace, FaultyWriter};
use std::alloc::{AllocError, Global};
use std::hash::BuildHasher;
use std::io::{ErrorKind, Read, Write};
use std::test::Fail;

// The line of numbers: how many known failures were met, and how many failed, passed, failed with another message, and are
// absent.
macro_rules! numbers {
    ($met:literal, $failed:literal, $passed:literal, $other:literal, $absent:literal) => {
        concat!(
            $met,
            " known failures; ",
            $failed,
            " failed; ",
            $passed,
            " passed; ",
            $other,
            " with another message; ",
            $absent,
            " absent\n"
        )
    };
}

pub(super) use numbers;

// Judges what the readers give, and returns the writer, and the verdict. This is the one place that calls `write_unexpected`,
// and it promises nothing, so that no test carries that contract.
fn judge<S: BuildHasher + Copy, I: Read + Drop, W: Write>(
    alloc: Global,
    hash_builder: S,
    known: &[Expectation],
    inputs: Vec<I>,
    options: ExpectOptions,
    writer: W,
) -> (W, Result<ExpectationVerdict, OutputFault>) {
    let mut sink = Sink::new(writer);
    let judged = write_unexpected(alloc, hash_builder, known, inputs, options, &mut sink);
    (sink.into_inner(), judged)
}

// Brings a text up to date by what the readers give, and returns the writer, and the verdict. This is the one place that calls
// `write_updated`, and it promises nothing either.
fn update<S: BuildHasher + Copy, I: Read + Drop, W: Write>(
    alloc: Global,
    hash_builder: S,
    file: KnownFile<'_>,
    inputs: Vec<I>,
    writer: W,
) -> (W, Result<UpdateVerdict, OutputFault>) {
    let mut sink = Sink::new(writer);
    let updated = write_updated(alloc, hash_builder, file, inputs, false, &mut sink);
    (sink.into_inner(), updated)
}

// Reads known failures. This is the one place that calls `read_known`, and it promises nothing either.
fn known_in(alloc: Global, lines: &[&str]) -> Result<Result<Vec<Expectation>, KnownFault>, Fail> {
    let text = text_of(alloc, lines)?;
    Ok(read_known(alloc, text.as_bytes()))
}

// An input: its lines, and the error after them, if it fails.
pub(super) type Input = (&'static [&'static str], Option<ErrorKind>);

fn readers_of<'a>(
    alloc: Global,
    texts: &'a [String],
    inputs: &[Input],
) -> Result<Vec<Slow<'a>>, AllocError> {
    let mut readers = Vec::new(alloc);
    for (text, (_, fails)) in texts.iter().zip(inputs) {
        let mut reader = Slow::of(text.as_str());
        reader.fails = *fails;
        readers.push(reader)?;
    }
    Ok(readers)
}

fn texts_of(alloc: Global, inputs: &[Input]) -> Result<Vec<String>, AllocError> {
    let mut texts = Vec::new(alloc);
    for (lines, _) in inputs {
        texts.push(text_of(alloc, lines)?)?;
    }
    Ok(texts)
}

// Unexpected trials are printed in JSON.
const OPTIONS: ExpectOptions = ExpectOptions {
    lax: false,
    lines: Lines::Json,
};

// Judges the inputs by known failures, and returns the verdict, and what is printed.
pub(super) fn judged(
    alloc: Global,
    known: &[&str],
    inputs: &[Input],
) -> Result<(ExpectationVerdict, String), Fail> {
    let known = known_in(alloc, known)??;
    let texts = texts_of(alloc, inputs)?;
    let readers = readers_of(alloc, &texts, inputs)?;
    let hash_builder = usual_hashes();
    let (bytes, verdict) = judge(
        alloc,
        hash_builder,
        &known,
        readers,
        OPTIONS,
        Vec::new(alloc),
    );
    Ok((verdict?, String::from_utf8(bytes)?))
}

// A report of two failures.
const FINDINGS: &[&str] = &[
    title!(2),
    announced!("a"),
    failed!("a", "y"),
    announced!("b"),
    failed!("b"),
    summary!("failed", 0, 2, 0, 0, 0, "0"),
];

// Inputs, the status, how each ended, and what is printed if `a` is known to fail with `x`.
static INPUTS: [(&[Input], u8, &str, &[&str]); 10] = [
    (
        &[(A_FAILED, None), (NONE, None)],
        0,
        "whole\nwhole\n",
        &[numbers!(1, 0, 0, 0, 0)],
    ),
    // The line expects one failure in both reports together.
    (
        &[(A_FAILED, None), (A_FAILED, None)],
        101,
        "whole\nwhole\n",
        &["failed: ", failed!("a", "x"), numbers!(1, 1, 0, 0, 0)],
    ),
    // The trial may have been filtered out.
    (
        &[(NONE, None), (FILTERED, None)],
        0,
        "whole\nwhole\n",
        &[numbers!(0, 0, 0, 0, 0)],
    ),
    // The trial that was running isn't absent.
    (
        &[(NONE, None), (&[title!(1), announced!("a")], None)],
        1,
        "whole\nthe report is cut\n",
        &["running: ", announced!("a"), numbers!(0, 0, 0, 0, 0)],
    ),
    // Each report that was cut names the trial that was running, behind what is unexpected of all, as the report has it. A line that
    // has not ended doesn't count, and no report names a trial that has ended.
    (
        &[
            (
                &[title!(2), announced!(["\\u001b"] "b\\n"), "{ \"type\""],
                None,
            ),
            (
                &[
                    title!(2),
                    announced!("a"),
                    failed!("a", "y"),
                    announced!("c"),
                ],
                None,
            ),
            (&[title!(3), announced!("d"), passed!("d"), "{"], None),
        ],
        1,
        "the report is cut\nthe report is cut\nthe report is cut\n",
        &[
            "another message, line 1 can go: ",
            failed!("a", "y"),
            "running: ",
            announced!(["\\u001b"] "b\\n"),
            "running: ",
            announced!("c"),
            numbers!(0, 0, 0, 1, 0),
        ],
    ),
    (
        &[(&[title!(1), announced!("a"), "what\n"], None)],
        1,
        "line 3: not what a report has there\n",
        &["running: ", announced!("a"), numbers!(0, 0, 0, 0, 0)],
    ),
    // Nothing counts after the wrong line.
    (
        &[(
            &[
                title!(2),
                announced!("a"),
                failed!("a", "x"),
                "what\n",
                announced!("b"),
                failed!("b"),
            ],
            None,
        )],
        1,
        "line 4: not what a report has there\n",
        &[numbers!(1, 0, 0, 0, 0)],
    ),
    // What is unexpected is printed even if an input has no report.
    (
        &[(&[], None), (FINDINGS, None)],
        1,
        "the report is cut\nwhole\n",
        &[
            "failed: ",
            failed!("b"),
            "another message, line 1 can go: ",
            failed!("a", "y"),
            numbers!(0, 1, 0, 1, 0),
        ],
    ),
    (
        &[
            (&[title!(1), announced!("a")], Some(ErrorKind::BrokenPipe)),
            (A_FAILED, None),
        ],
        1,
        "broken pipe\nwhole\n",
        &[numbers!(1, 0, 0, 0, 0)],
    ),
    // Of an input that fails, all rows are judged that came before.
    (
        &[(
            &[
                title!(3),
                announced!("a"),
                failed!("a", "x"),
                announced!("b"),
                failed!("b"),
                announced!("c"),
            ],
            Some(ErrorKind::BrokenPipe),
        )],
        1,
        "broken pipe\n",
        &["failed: ", failed!("b"), numbers!(1, 1, 0, 0, 0)],
    ),
];

// Shows how each input ended, in a line.
fn shown(alloc: Global, ends: &[Ending]) -> Result<String, AllocError> {
    let mut shown = String::new(alloc);
    for end in ends {
        let line = match end {
            Ending::Whole { .. } => String::from_str(alloc, "whole\n")?,
            Ending::Cut(stop) => format!(in alloc; "{stop}\n")?,
            Ending::Failed(error) => format!(in alloc; "{error}\n")?,
        };
        shown.push_str(line.as_str())?;
    }
    Ok(shown)
}

#[test]
fn judges_what_inputs_give(rt: HostRuntime) -> Result<(), Fail> {
    let alloc = rt.alloc();
    for (inputs, status, ends, expected) in &INPUTS {
        let (verdict, printed) = judged(alloc, &[failed!("a", "x")], inputs)?;
        let expected = text_of(alloc, expected)?;
        assert!(rt;
            verdict.status() == *status && printed == expected,
            "{printed}"
        );
        let shown = shown(alloc, &verdict.ends)?;
        assert!(rt; shown.as_str() == *ends, "{shown}");
    }
    Ok(())
}

// A file, a report, and the new file.
const OLD: &[&str] = &[
    "# Two failures of one kind\n",
    "\n",
    failed!("met" @ "1.5", "x"),
    failed!("any"),
    "# It goes\n",
    failed!("passed", "x"),
    failed!("other", "x"),
    failed!("absent"),
    failed!(["\\u001b"] "a\\n\\\\u{41}", "x\\n# y"),
    "#",
];

const NOW: &[&str] = &[
    title!(7),
    announced!("new"),
    failed!("new" @ "2", "\\n# x\\n"),
    announced!("other"),
    failed!("other", "y\\nz"),
    announced!("met"),
    failed!("met", "x"),
    announced!("any"),
    failed!("any", "z"),
    announced!("passed"),
    passed!("passed"),
    announced!(["\\u001b"] "a\\n\\\\u{41}"),
    failed!(["\\u001b"] "a\\n\\\\u{41}", "x\\n# y"),
    announced!(["k"] "new"),
    failed!(["k"] "new"),
    summary!("failed", 1, 6, 0, 0, 0, "0"),
];

const NEW: &[&str] = &[
    "# Two failures of one kind\n",
    "\n",
    failed!("met" @ "1.5", "x"),
    failed!("any"),
    "# It goes\n",
    failed!("other", "y\\nz"),
    failed!(["\\u001b"] "a\\n\\\\u{41}", "x\\n# y"),
    "#\n",
    failed!("new", "\\n# x\\n"),
    failed!(["k"] "new"),
];

// Brings the lines of a file up to date, and returns the new text, and the verdict.
fn updated(
    alloc: Global,
    lines: &[&str],
    inputs: &[Input],
) -> Result<(String, UpdateVerdict), Fail> {
    let text = text_of(alloc, lines)?;
    let texts = texts_of(alloc, inputs)?;
    let readers = readers_of(alloc, &texts, inputs)?;
    let known = known_in(alloc, lines)??;
    let file = KnownFile {
        text: text.as_bytes(),
        known: &known,
    };
    let (bytes, verdict) = update(alloc, usual_hashes(), file, readers, Vec::new(alloc));
    Ok((String::from_utf8(bytes)?, verdict?))
}

// A writer that fails at a byte returns its fault, and has what comes before.
#[test]
fn updates_a_writer_that_fails(rt: HostRuntime) -> Result<(), Fail> {
    let alloc = rt.alloc();
    let (old, now, new) = (
        text_of(alloc, OLD)?,
        text_of(alloc, NOW)?,
        text_of(alloc, NEW)?,
    );
    let known = read_known(alloc, old.as_bytes())?;
    let file = KnownFile {
        text: old.as_bytes(),
        known: &known,
    };
    for count in 0..new.len() {
        let inputs = vec![in alloc; Slow::of(now.as_str())]?;
        let fault = Fault::Error(ErrorKind::StorageFull);
        let writer = FaultyWriter::new(alloc).failing(FaultPlace::Byte(count), fault);
        let (writer, updated) = update(alloc, usual_hashes(), file, inputs, writer);
        let fault = updated.err().ok_or("written")?;
        let shown = format!(in alloc; "{fault}")?;
        assert!(rt; shown.as_str() == "no storage space", "{shown}");
        let before = &new.as_bytes()[..count];
        assert!(rt; writer.calls_after == 0 && writer.bytes.as_slice() == before);
    }
    Ok(())
}

// Inputs that are no whole reports, and how each ended.
static NOT_WHOLE: [(&[Input], &str); 3] = [
    (
        &[(A_FAILED, None), (&[title!(1), announced!("a")], None)],
        "whole\nthe report is cut\n",
    ),
    (
        &[(&[title!(1), "what\n"], None)],
        "line 2: not what a report has there\n",
    ),
    (
        &[(NONE, None), (A_FAILED, Some(ErrorKind::BrokenPipe))],
        "whole\nbroken pipe\n",
    ),
];

#[test]
fn updates_nothing_by_cut_reports(rt: HostRuntime) -> Result<(), Fail> {
    let alloc = rt.alloc();
    for (inputs, ends) in &NOT_WHOLE {
        let (text, verdict) = updated(alloc, &[failed!("a")], inputs)?;
        assert!(rt; !verdict.is_written() && text.is_empty(), "{text}");
        let shown = shown(alloc, &verdict.ends)?;
        assert!(rt; shown.as_str() == *ends, "{shown}");
    }
    Ok(())
}

// Lines with one that isn't the line of a failed trial, and the number of that line.
static UNREAD: [(&[&str], usize); 5] = [
    (A_FAILED, 1),
    (&[failed!("a"), "\n", passed!("a")], 3),
    (&[failed!("a"), " # why\n", "what\n"], 2),
    (&["\r\n"], 1),
    // A report doesn't escape this letter.
    (&[failed!("\\u0061")], 1),
];

#[test]
fn refuses_other_lines(rt: HostRuntime) -> Result<(), Fail> {
    for (lines, number) in &UNREAD {
        let fault = known_in(rt.alloc(), lines)?.err().ok_or("read")?;
        assert!(rt;
            matches!(&fault, KnownFault::Line(line) if line == number),
            "{fault:?}"
        );
        let shown = format!(in rt.alloc(); "{fault}")?;
        assert!(rt;
            shown.as_str() == "not the line of a failed trial",
            "{shown}"
        );
    }
    Ok(())
}
