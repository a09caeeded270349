//! When an output writes its bytes out.
use libtest_mimic::{Arguments, FormatSetting};
use mimic_main::{FlushPolicy, Output};
use std::alloc::Global;
use std::io;
use std::io::Write;
use std::test::Fail;

// Takes `most` bytes at most in a write, keeps how many it has got after each one, and counts flushes.
#[derive(Drop)]
pub(super) struct Marked {
    most: usize,
    len: usize,
    pub(super) marks: Vec<usize>,
    flushes: usize,
}

impl Marked {
    pub(super) fn new(alloc: Global, most: usize) -> Marked {
        Marked {
            most,
            len: 0,
            marks: Vec::new(alloc),
            flushes: 0,
        }
    }
}

impl Write for Marked {
    fn write(&mut self, buf: &[u8]) -> io::Result<usize> {
        let count = buf.len().min(self.most);
        self.len = self.len.saturating_add(count);
        self.marks.push(self.len)?;
        Ok(count)
    }

    fn flush(&mut self) -> io::Result<()> {
        self.flushes = self.flushes.saturating_add(1);
        Ok(())
    }
}

// An output over an empty one, which takes what it gets.
fn marking(rt: &HostRuntime, policy: FlushPolicy) -> Output<Marked> {
    Output::new(policy, Marked::new(rt.alloc(), usize::MAX))
}

// A policy, how many bytes its writer has after each write, and how often it is flushed.
static HANDED_ON: [(FlushPolicy, &[usize], usize); 5] = [
    (FlushPolicy::Always, &[2, 4, 5], 1),
    (FlushPolicy::OnFlush, &[2, 5], 2),
    (FlushPolicy::OnLineEnd, &[4, 5], 1),
    (FlushPolicy::OnEvenLineEnd, &[5], 1),
    (FlushPolicy::WhenFull, &[5], 1),
];

// Two bytes and a flush, a line of two bytes, and one byte more. One policy acts on the flush and flushes the writer, and the
// end flushes it, too.
#[test]
fn hands_on_as_asked(rt: HostRuntime) -> Result<(), Fail> {
    for (policy, marks, flushes) in &HANDED_ON {
        let mut output = marking(&rt, *policy);
        output.write_all(b"ab")?;
        output.flush()?;
        output.write_all(b"c\n")?;
        output.write_all(b"d")?;
        let (writer, finished) = output.finish();
        finished?;
        assert!(rt; writer.marks.as_slice() == *marks, "{policy:?}");
        assert!(rt; writer.flushes == *flushes, "{policy:?}");
    }
    Ok(())
}

// A policy, and how often its writer is flushed.
static FLUSHED: [(FlushPolicy, usize); 5] = [
    (FlushPolicy::Always, 1),
    (FlushPolicy::OnFlush, 3),
    (FlushPolicy::OnLineEnd, 1),
    (FlushPolicy::OnEvenLineEnd, 1),
    (FlushPolicy::WhenFull, 1),
];

// A line and two flushes. The writer may buffer, too, so a flush that is passed on reaches it though nothing waits, and so does
// the end.
#[test]
fn flushes_its_writer_if_nothing_waits(rt: HostRuntime) -> Result<(), Fail> {
    for (policy, flushes) in &FLUSHED {
        let mut output = marking(&rt, *policy);
        output.write_all(b"a\n")?;
        output.flush()?;
        output.flush()?;
        let (writer, finished) = output.finish();
        finished?;
        assert!(rt; writer.len == 2, "{policy:?}");
        assert!(rt; writer.flushes == *flushes, "{policy:?}");
    }
    Ok(())
}

// A whole block waits, what comes behind it begins the next one, and a piece that fills a block by itself never waits.
#[test]
fn hands_on_whole_blocks(rt: HostRuntime) -> Result<(), Fail> {
    let mut output = marking(&rt, FlushPolicy::WhenFull);
    output.write_all(&[0; 4000])?;
    output.write_all(&[0; 96])?;
    output.write_all(&[0; 1])?;
    output.write_all(&[0; 4096])?;
    output.write_all(&[0; 2])?;
    let (writer, finished) = output.finish();
    finished?;
    assert!(rt; writer.marks.as_slice() == [4096, 4097, 8193, 8195].as_slice());
    Ok(())
}

static PIECES: [&str; 7] = ["one piece\n", "many", " pieces", "\n", "\n", "the", " end"];

// A line goes out in one write, whether it comes in one piece or in many.
#[test]
fn hands_on_whole_lines(rt: HostRuntime) -> Result<(), Fail> {
    let mut output = marking(&rt, FlushPolicy::OnLineEnd);
    for piece in &PIECES {
        output.write_all(piece.as_bytes())?;
    }
    let (writer, finished) = output.finish();
    finished?;
    assert!(rt; writer.marks.as_slice() == [10, 22, 23, 30].as_slice());
    Ok(())
}

const PAIRS: &[&str] = &[
    "title\n", "a\n", "b", "\n", "c\n", "d\n", "e\n", "f\n", "end",
];

// The most bytes that a write takes, pieces, and how many bytes the writer has after each write.
static SECOND_LINES: [(usize, &[&str], &[usize]); 2] = [
    (usize::MAX, PAIRS, &[8, 12, 16, 21]),
    (
        3,
        &["one\n", "two\n", "abc\n", "def\n", "end"],
        &[3, 6, 8, 11, 14, 16, 19],
    ),
];

// Of lines in pairs behind a title the first of each pair goes out with the end of the one before: in one write, or in as many as the
// writer wants.
#[test]
fn hands_on_second_lines(rt: HostRuntime) -> Result<(), Fail> {
    for (most, pieces, marks) in &SECOND_LINES {
        let mut output = Output::new(FlushPolicy::OnEvenLineEnd, Marked::new(rt.alloc(), *most));
        for piece in *pieces {
            output.write_all(piece.as_bytes())?;
            output.flush()?;
        }
        let (writer, finished) = output.finish();
        finished?;
        assert!(rt; writer.marks.as_slice() == *marks);
        assert!(rt; writer.flushes == 1);
    }
    Ok(())
}

// A format, whether the output is a terminal, a number of threads, and the policy of such a report.
static CHOSEN: [(FormatSetting, bool, usize, FlushPolicy); 12] = [
    (FormatSetting::Pretty, false, 1, FlushPolicy::OnFlush),
    (FormatSetting::Pretty, false, 2, FlushPolicy::OnLineEnd),
    (FormatSetting::Pretty, true, 1, FlushPolicy::OnFlush),
    (FormatSetting::Pretty, true, 2, FlushPolicy::OnLineEnd),
    (FormatSetting::Terse, false, 1, FlushPolicy::OnLineEnd),
    (FormatSetting::Terse, false, 2, FlushPolicy::OnLineEnd),
    (FormatSetting::Terse, true, 1, FlushPolicy::Always),
    (FormatSetting::Terse, true, 2, FlushPolicy::Always),
    (FormatSetting::Json, false, 1, FlushPolicy::OnEvenLineEnd),
    (FormatSetting::Json, false, 2, FlushPolicy::OnLineEnd),
    (FormatSetting::Json, true, 1, FlushPolicy::OnEvenLineEnd),
    (FormatSetting::Json, true, 2, FlushPolicy::OnLineEnd),
];

// The number of threads is the default, or asked for. A list goes out in blocks.
#[test]
fn chooses_by_format_threads_and_terminal(rt: HostRuntime) -> Result<(), Fail> {
    let mut args = Arguments::new(rt.alloc());
    for (format, is_terminal, threads, policy) in &CHOSEN {
        args.format = Some(*format);
        args.list = false;
        args.test_threads = None;
        assert!(rt; FlushPolicy::of_run(&args, *threads, *is_terminal) == *policy);
        args.test_threads = Some(*threads);
        assert!(rt; FlushPolicy::of_run(&args, 7, *is_terminal) == *policy);
        args.list = true;
        assert!(rt; FlushPolicy::of_run(&args, 1, *is_terminal) == FlushPolicy::WhenFull);
    }
    Ok(())
}
