//! The buffered output between a report and the system.
ghost use Rattle.std.specs.Prelude.{◌≡◌, ◌↔◌, ◌+◌, ◌<◌, ◌≤◌, ◌-◌, ◌++◌, ℕ, [], drop, false, length, take, true, IfOk, IsErr, IsOk, IsTrue, Ok, OnErr, OnOk};
ghost use Rattle.std.specs.Io.{WritesAtMost};
ghost use Rattle.std.specs.Io.KnownBytes.{Appends, Keeps, WriteAppends};
ghost use Rattle.mimic_main.specs.Output.{CountsLine, CanWait, HandsOn, SamePolicy, StaysStopped, StopsAtNothing, ends_line, flushes_by, given_to, goes_out, has_odd_lines, has_stopped, waiting_of, writer_of};
ghost use Rattle.mimic_main.specs.Policy.{acts_on_flush, goes_out_by};
ghost use Rattle.mimic_main.specs.declared.output.TheConstants.{BLOCK};

use crate::policy::FlushPolicy;
use arrayvec::ArrayVec;
use std::io;
use std::io::{ErrorKind, Write};

// How many bytes wait at most: as many as a pipe on Linux takes at once, with no other program's bytes between them.
pub(crate) const BLOCK: usize = 4096;

/// A buffered writer, in which up to 4096 bytes wait. It allocates nothing. What waits in one that is dropped and not finished
/// is lost.
///
/// A write error is returned by the call that met it, or by the next call if part of the text was accepted. After it nothing
/// more is written, and every later call fails.
#[derive(Drop)]
pub struct Output<W: Write> {
    writer: W,
    waiting: ArrayVec<u8, BLOCK>,
    policy: FlushPolicy,
    // An odd number of texts that end a line was taken whole.
    has_odd_lines: bool,
    has_failed: bool,
    // The fault after the front of a text that was taken. The next call returns it.
    unreported: Option<io::Error>,
}

impl<W: Write> Output<W> {
    /// An empty buffer.
    pub fn new(policy: FlushPolicy, writer: W) -> Self
        ensures bytes { given_to W.contents result ≡ W.contents writer }
        ensures policy { flushes_by result ≡ policy }
        ensures lines { has_odd_lines result ≡ false }
        ensures runs { has_stopped result ≡ false }
    {
        Output {
            writer,
            waiting: ArrayVec::new(),
            policy,
            has_odd_lines: false,
            has_failed: false,
            unreported: None,
        }
    }

    /// Writes out what is left, flushes the writer and gives it back. With a fault it has got a beginning of all bytes.
    pub fn finish(mut self) -> (W, io::Result<()>)
        ensures whole { OnOk result.1 (Keeps (given_to W.contents self) (W.contents result.0)) }
        ensures beginning { HandsOn (given_to W.contents self) (W.contents result.0) }
        ensures stopped { has_stopped self ≡ true → IsErr result.1
            × (W.contents result.0 ≡ W.contents (writer_of self)) }
    {
        let finished = self.hand_on_and_flush();
        let Output { writer, .. } = self;
        (writer, finished)
    }

    // Writes out what waits, up to a fault.
    fn hand_on(&mut self) -> io::Result<()>
        ensures bytes { Keeps (given_to W.contents self.old) (given_to W.contents self.new) }
        ensures empty { OnOk result (waiting_of self.new ≡ []) }
        ensures front { (n : ℕ) × (n ≤ length (waiting_of self.old))
            × (waiting_of self.new ≡ drop n (waiting_of self.old))
            × Appends (W.contents (writer_of self.old)) (W.contents (writer_of self.new)) (take n (waiting_of self.old)) }
        ensures same { SamePolicy self.old self.new }
        ensures stops { OnErr result (has_stopped self.new ≡ true) }
        ensures stopped { StaysStopped self.old self.new result }
    {
        if self.has_failed {
            return Err(self.earlier_fault());
        }
        let (taken, handed) = put_all(&mut self.writer, self.waiting.as_slice());
        self.has_failed = handed.is_err();
        if self.has_failed {
            self.waiting.drain(..taken);
        } else {
            self.waiting.clear();
        }
        handed
    }

    // The fault that was not returned yet, else that there was one.
    fn earlier_fault(&mut self) -> io::Error
        ensures bytes { given_to W.contents self.new ≡ given_to W.contents self.old }
        ensures waiting { waiting_of self.new ≡ waiting_of self.old }
        ensures writer { writer_of self.new ≡ writer_of self.old }
        ensures same { SamePolicy self.old self.new }
        ensures stopped { has_stopped self.new ≡ has_stopped self.old }
    {
        match self.unreported.take() {
            Some(error) => error,
            None => io::Error::from(ErrorKind::BrokenPipe),
        }
    }

    fn hand_on_and_flush(&mut self) -> io::Result<()>
        ensures bytes { Keeps (given_to W.contents self.old) (given_to W.contents self.new) }
        ensures empty { OnOk result (waiting_of self.new ≡ []) }
        ensures same { SamePolicy self.old self.new }
        ensures stops { OnErr result (has_stopped self.new ≡ true) }
        ensures stopped { StaysStopped self.old self.new result }
    {
        self.hand_on()?;
        let flushed = self.writer.flush();
        self.has_failed = flushed.is_err();
        flushed
    }

    // Writes a text that goes out, finds no room, or comes after a fault. A fault is large, so this is kept out of the way of
    // texts that just wait.
    #[inline(never)]
    fn write_out(&mut self, text: &[u8], ends_line: bool) -> io::Result<usize>
        ensures bound { WritesAtMost result text.now }
        ensures bytes { WriteAppends (given_to W.contents self.old)
            (given_to W.contents self.new) result text.now }
        ensures policy { flushes_by self.new ≡ flushes_by self.old }
        ensures lines { IfOk result (CountsLine self.old self.new text.now ends_line) }
        ensures out { goes_out_by (flushes_by self.old) ends_line (has_odd_lines self.old) ≡ true
            → OnOk result (waiting_of self.new ≡ []) }
        ensures nothing { StopsAtNothing self.new text.now result }
        ensures stops { OnErr result (has_stopped self.new ≡ true) }
        ensures stopped { StaysStopped self.old self.new result }
    {
        if self.has_failed {
            return Err(self.earlier_fault());
        }
        if text.len() >= BLOCK || self.goes_out(ends_line) {
            let count = self.write_through(text)?;
            self.has_odd_lines ^= ends_line && count == text.len();
            return Ok(count);
        }
        self.hand_on()?;
        self.keep(text);
        self.has_odd_lines ^= ends_line;
        Ok(text.len())
    }

    // Writes out what waits and then the text, in one write if both fit into a block and the writer takes them at once.
    fn write_through(&mut self, text: &[u8]) -> io::Result<usize>
        ensures bound { WritesAtMost result text.now }
        ensures bytes { WriteAppends (given_to W.contents self.old)
            (given_to W.contents self.new) result text.now }
        ensures empty { OnOk result (waiting_of self.new ≡ []) }
        ensures same { SamePolicy self.old self.new }
        ensures nothing { StopsAtNothing self.new text.now result }
        ensures stops { OnErr result (has_stopped self.new ≡ true) }
    {
        if !self.waiting.is_empty() {
            if self.can_wait(text.len()) {
                return self.write_together(text);
            }
            self.hand_on()?;
        }
        if text.is_empty() {
            return Ok(0);
        }
        let written = self.writer.write(text);
        self.has_failed = !matches!(written, Ok(1..));
        written
    }

    // Writes out what waits and the text at once.
    fn write_together(&mut self, text: &[u8]) -> io::Result<usize>
        requires { length (waiting_of self.old) + length text.now ≤ BLOCK }
        ensures bound { WritesAtMost result text.now }
        ensures bytes { WriteAppends (given_to W.contents self.old)
            (given_to W.contents self.new) result text.now }
        ensures empty { OnOk result (waiting_of self.new ≡ []) }
        ensures same { SamePolicy self.old self.new }
        ensures nothing { StopsAtNothing self.new text.now result }
        ensures stops { OnErr result (has_stopped self.new ≡ true) }
    {
        self.keep(text);
        let fault = self.hand_on().err();
        let taken = take_back(&mut self.waiting, text.len());
        match fault {
            Some(error) if taken == 0 => Err(error),
            unreported => {
                self.unreported = unreported;
                Ok(taken)
            }
        }
    }

    // Lets the text wait, too.
    fn keep(&mut self, text: &[u8])
        requires { length (waiting_of self.old) + length text.now ≤ BLOCK }
        ensures kept { waiting_of self.new ≡ waiting_of self.old ++ text.now }
        ensures writer { writer_of self.new ≡ writer_of self.old }
        ensures same { SamePolicy self.old self.new }
        ensures runs { has_stopped self.new ≡ has_stopped self.old }
    {
        // For a mark in terse, copying a slice takes longer than all else.
        if let [byte] = text {
            self.waiting.push(*byte);
            return;
        }
        let Ok(()) = self.waiting.try_extend_from_slice(text) else {
            unreachable!()
        };
    }

    // Whether a text goes out at once, by whether it ends a line.
    fn goes_out(&self, ends_line: bool) -> bool
        ensures { result ≡ goes_out_by (flushes_by self.now) ends_line (has_odd_lines self.now) }
    {
        // Most texts of a report in terse end no line.
        if !ends_line {
            return matches!(self.policy, FlushPolicy::Always);
        }
        match self.policy {
            FlushPolicy::Always | FlushPolicy::OnLineEnd => true,
            FlushPolicy::OnEvenLineEnd => self.has_odd_lines,
            FlushPolicy::OnFlush | FlushPolicy::WhenFull => false,
        }
    }

    // Whether what waits goes out at a flush.
    fn acts_on_flush(&self) -> bool
        ensures { result ≡ acts_on_flush (flushes_by self.now) }
    {
        matches!(self.policy, FlushPolicy::OnFlush)
    }

    // Whether `count` bytes more can wait. A whole block does not.
    fn can_wait(&self, count: usize) -> bool
        ensures { IsTrue result ↔ CanWait self.now count }
    {
        count < BLOCK && count <= self.waiting.remaining_capacity()
    }
}

// Takes `count` bytes back from the end of what waits, and returns how many of them wait no longer.
fn take_back(waiting: &mut ArrayVec<u8, BLOCK>, count: usize) -> usize
    ensures waiting { waiting.new.items ≡ take
        (length waiting.old.items - count) waiting.old.items }
    ensures taken { result ≡ count - length waiting.old.items }
{
    let left = waiting.len();
    waiting.truncate(left.saturating_sub(count));
    count.saturating_sub(left)
}

impl<W: Write> Write for Output<W> {
    ghost contents = { given_to W.contents };

    fn write(&mut self, buf: &[u8]) -> io::Result<usize>
        ensures bound { WritesAtMost result buf.now }
        ensures bytes { WriteAppends (given_to W.contents self.old)
            (given_to W.contents self.new) result buf.now }
        ensures policy { flushes_by self.new ≡ flushes_by self.old }
        ensures lines { IfOk result (CountsLine self.old self.new buf.now (ends_line buf.now)) }
        ensures out { goes_out self.old buf.now ≡ true → OnOk result (waiting_of self.new ≡ []) }
        ensures waits { goes_out self.old buf.now ≡ false → CanWait self.old (length buf.now)
            → writer_of self.new ≡ writer_of self.old }
        ensures taken { has_stopped self.old ≡ false → goes_out self.old buf.now ≡ false
            → CanWait self.old (length buf.now)
            → (result ≡ Ok (length buf.now)) × (has_stopped self.new ≡ false) }
        ensures nothing { StopsAtNothing self.new buf.now result }
        ensures stops { OnErr result (has_stopped self.new ≡ true) }
        ensures stopped { StaysStopped self.old self.new result }
    {
        let ends_line = buf.ends_with(b"\n");
        if self.has_failed || self.goes_out(ends_line) || !self.can_wait(buf.len()) {
            return self.write_out(buf, ends_line);
        }
        self.keep(buf);
        self.has_odd_lines ^= ends_line;
        Ok(buf.len())
    }

    fn flush(&mut self) -> io::Result<()>
        ensures bytes { Keeps (given_to W.contents self.old) (given_to W.contents self.new) }
        ensures same { SamePolicy self.old self.new }
        ensures out { acts_on_flush (flushes_by self.old) ≡ true
            → OnOk result (waiting_of self.new ≡ []) }
        ensures waits { acts_on_flush (flushes_by self.old) ≡ false
            → writer_of self.new ≡ writer_of self.old }
        ensures untouched { has_stopped self.old ≡ false
            → acts_on_flush (flushes_by self.old) ≡ false
            → IsOk result × (self.new ≡ self.old) }
        ensures stops { OnErr result (has_stopped self.new ≡ true) }
        ensures stopped { StaysStopped self.old self.new result }
    {
        if self.has_failed || self.acts_on_flush() {
            self.hand_on_and_flush()?;
        }
        Ok(())
    }
}

// Writes the bytes to the writer, in as many writes as it wants, up to a fault. Returns how many it took.
fn put_all<W: Write>(writer: &mut W, bytes: &[u8]) -> (usize, io::Result<()>)
    ensures bound { result.0 ≤ length bytes.now }
    ensures all { OnOk result.1 (result.0 ≡ length bytes.now) }
    ensures bytes { Appends (W.contents writer.old) (W.contents writer.new)
        (take result.0 bytes.now) }
{
    let mut taken = 0;
    while taken < bytes.len() {
        match writer.write(&bytes[taken..]) {
            Ok(0) => return (taken, Err(io::Error::from(ErrorKind::WriteZero))),
            Ok(count) => taken += count,
            Err(error) => return (taken, Err(error)),
        }
    }
    (taken, Ok(()))
}
