//! A writer over memory that takes as many bytes a call as a test says, and fails when the test wants it to.
ghost use Rattle.std.specs.Prelude.{◌≡◌, ◌≤◌, ◌+◌, [], Some, false, length, true, IfOk, OnErr};
ghost use Rattle.std.specs.Io.{WritesAtMost};
ghost use Rattle.std.specs.Io.KnownBytes.{Keeps, WriteAppends};

use std::alloc::{AllocError, Global};
use std::io;
use std::io::{ErrorKind, Write};

/// What a call does that fails. None takes any bytes.
#[derive(Clone, Copy, Debug, PartialEq, Eq)]
pub enum Fault {
    /// It answers an error of this kind.
    Error(ErrorKind),
    /// A write answers that it took no bytes, and a flush an error of the kind `WriteZero`.
    TakesNone,
}

impl Fault {
    /// An error that stays one, an error that is no reason to give up, and a write of nothing.
    pub const ALL: [Fault; 3] = [
        Fault::Error(ErrorKind::StorageFull),
        Fault::Error(ErrorKind::Interrupted),
        Fault::TakesNone,
    ];
}

/// The first call that fails.
#[derive(Clone, Copy, Debug, PartialEq, Eq)]
pub enum FaultPlace {
    /// No call does.
    Nowhere,
    /// The write after this number of bytes, empty or not. The write that comes up to them takes no more.
    Byte(usize),
    /// The write of this number, from 1.
    Write(u64),
    /// The flush of this number, from 1.
    Flush(u64),
}

/// A writer that keeps what it takes.
///
/// It counts what is asked of it, and separately what is asked after it has failed, so that a test can see that nothing is. The
/// first call that finds no memory fails too, wherever that is.
#[derive(Debug, Drop)]
pub struct FaultyWriter {
    /// All that it has taken.
    pub bytes: Vec<u8>,
    /// How many writes it was asked for.
    pub writes: u64,
    /// How many flushes it was asked for.
    pub flushes: u64,
    /// Whether a call has failed.
    pub has_failed: bool,
    /// How many calls came after the first one that failed.
    pub calls_after: u64,
    /// The most bytes that a write takes.
    pub most: usize,
    /// When it fails.
    pub place: FaultPlace,
    /// How it fails.
    pub fault: Fault,
    /// Whether each call after the first one that failed fails too, also a flush.
    pub lasts: bool,
}

impl FaultyWriter {
    /// A writer that takes all bytes, each write whole.
    pub fn new(alloc: Global) -> FaultyWriter
        ensures bytes { result.bytes.items ≡ [] }
        ensures well { result.has_failed ≡ false }
        ensures calls { result.calls_after ≡ 0 }
    {
        FaultyWriter {
            bytes: Vec::new(alloc),
            writes: 0,
            flushes: 0,
            has_failed: false,
            calls_after: 0,
            most: usize::MAX,
            place: FaultPlace::Nowhere,
            fault: Fault::TakesNone,
            lasts: false,
        }
    }

    /// The same writer, which takes at most `most` bytes a write.
    pub fn taking(mut self, most: usize) -> FaultyWriter
        ensures { result ≡ record self { most = most } }
    {
        self.most = most;
        self
    }

    /// The same writer, whose call at the place fails in this way, and no other call does.
    pub fn failing(mut self, place: FaultPlace, fault: Fault) -> FaultyWriter
        ensures { result ≡ record self { place = place; fault = fault } }
    {
        self.place = place;
        self.fault = fault;
        self
    }

    /// The same writer, which never is well again after its first fault.
    pub fn for_ever(mut self) -> FaultyWriter
        ensures { result ≡ record self { lasts = true } }
    {
        self.lasts = true;
        self
    }

    /// Each place at which a run can fail that makes the same calls as this writer got: each byte, write and flush.
    pub fn places(&self, alloc: Global) -> Result<Vec<FaultPlace>, AllocError>
        ensures { IfOk result
            (λ places. length places.items ≡ length self.now.bytes.items +
            (self.now.writes + self.now.flushes)) }
    {
        let bytes = (0..self.bytes.len()).map(FaultPlace::Byte);
        let writes = (0..self.writes).map(|number| FaultPlace::Write(number + 1));
        let flushes = (0..self.flushes).map(|number| FaultPlace::Flush(number + 1));
        bytes.chain(writes).chain(flushes).collect(alloc)
    }

    // Whether the call that is asked for now fails; `is_at_place` says whether it is the one at the place.
    fn fails(&mut self, is_at_place: bool) -> bool
        ensures bytes { self.new.bytes ≡ self.old.bytes }
        ensures tells { result ≡ true → self.new.has_failed ≡ true }
        ensures counts { self.old.has_failed ≡ true → 1 ≤ self.new.calls_after }
    {
        if self.has_failed {
            self.calls_after = self.calls_after.saturating_add(1);
            return self.lasts;
        }
        self.has_failed = is_at_place;
        is_at_place
    }

    // How many bytes more it takes before it fails.
    fn room(&self) -> usize {
        match self.place {
            FaultPlace::Byte(count) if !self.has_failed => count.saturating_sub(self.bytes.len()),
            _ => usize::MAX,
        }
    }
}

impl Write for FaultyWriter {
    ghost contents = { λ w. Some w.bytes.items };

    fn write(&mut self, buf: &[u8]) -> io::Result<usize>
        ensures bound { WritesAtMost result buf.now }
        ensures bytes { WriteAppends (Some self.old.bytes.items)
            (Some self.new.bytes.items) result buf.now }
        ensures tells { OnErr result (self.new.has_failed ≡ true) }
        ensures counts { self.old.has_failed ≡ true → 1 ≤ self.new.calls_after }
    {
        self.writes = self.writes.saturating_add(1);
        let is_at_place = match self.place {
            FaultPlace::Byte(count) => count <= self.bytes.len(),
            FaultPlace::Write(number) => number == self.writes,
            FaultPlace::Nowhere | FaultPlace::Flush(_) => false,
        };
        if self.fails(is_at_place) {
            return match self.fault {
                Fault::Error(kind) => Err(io::Error::from(kind)),
                Fault::TakesNone => Ok(0),
            };
        }
        let count = buf.len().min(self.most).min(self.room());
        if let Err(error) = self.bytes.extend_from_slice(&buf[..count]) {
            self.has_failed = true;
            return Err(error.into());
        }
        Ok(count)
    }

    fn flush(&mut self) -> io::Result<()>
        ensures bytes { Keeps (Some self.old.bytes.items) (Some self.new.bytes.items) }
        ensures tells { OnErr result (self.new.has_failed ≡ true) }
        ensures counts { self.old.has_failed ≡ true → 1 ≤ self.new.calls_after }
    {
        self.flushes = self.flushes.saturating_add(1);
        let is_at_place = matches!(self.place, FaultPlace::Flush(number) if number == self.flushes);
        if !self.fails(is_at_place) {
            return Ok(());
        }
        Err(io::Error::from(match self.fault {
            Fault::Error(kind) => kind,
            Fault::TakesNone => ErrorKind::WriteZero,
        }))
    }
}
