//! Bytes on their way from the thread that reads to the one that shows.
use crate::input::FirstLine;
use std::alloc::{AllocError, Global};
use std::io::{ErrorKind, Read};
use std::rt::Clock;
use std::sync::{Condvar, Mutex, Wait};
use std::time::Duration;
use std::{io, thread};

// The most bytes that are read at once.
const PIECE: usize = 65_536;

// From this many bytes on, the reading thread waits until they are taken.
const FULL: usize = 1 << 20;

// How long the showing thread waits for bytes.
const TICK_MILLIS: u64 = 100;

// How long the reading thread waits if an input that doesn't block has nothing yet.
const PAUSE_MILLIS: u64 = 10;

// What was read and not taken yet, whether a piece was lost and whether the input is over, and the fault if there was one, until
// it is returned.
#[derive(Drop)]
struct Held {
    bytes: Vec<u8>,
    is_lost: bool,
    is_over: bool,
    fault: Option<io::Error>,
}

/// What both threads share.
#[derive(Drop)]
pub(crate) struct Pipe {
    held: Mutex<Held>,
    came: Condvar,
    taken: Condvar,
}

impl Pipe {
    /// Makes an empty pipe.
    pub(crate) fn new(alloc: Global) -> Result<Pipe, AllocError> {
        Ok(Pipe {
            held: Mutex::new(Held {
                bytes: Vec::with_capacity(alloc, FULL + PIECE)?,
                is_lost: false,
                is_over: false,
                fault: None,
            }),
            came: Condvar::new(),
            taken: Condvar::new(),
        })
    }

    // Appends the piece to the bytes that were not taken yet, once there are fewer than `FULL`.
    fn put<R: Wait>(&self, rt: &R, piece: &[u8]) {
        let held = self.held.lock(rt);
        let mut held = self
            .taken
            .wait_while(rt, held, |held| held.bytes.len() >= FULL);
        let was_empty = held.bytes.is_empty();
        // After a piece that was lost, nothing more is appended.
        if !held.is_lost && held.bytes.extend_from_slice(piece).is_err() {
            held.is_lost = true;
            held.fault = Some(io::Error::from(ErrorKind::OutOfMemory));
        }
        drop(held);
        if was_empty {
            self.came.notify_one();
        }
    }

    fn end<R: Wait>(&self, rt: &R, fault: Option<io::Error>) {
        let mut held = self.held.lock(rt);
        held.is_over = true;
        if !held.is_lost {
            held.fault = fault;
        }
        drop(held);
        self.came.notify_one();
    }
}

/// Reads the input to its end, or until its first line is too long for a report, and puts it into the pipe for the other thread. An
/// input that says that it would block, or that it timed out, is asked again after a pause.
pub(crate) fn pump<R: Wait + Clock, I: Read>(rt: &R, input: &mut I, pipe: &Pipe) {
    let mut piece = [0; PIECE];
    let mut first_line = FirstLine::of_report();
    let mut fault = None;
    for _ in 0..u64::MAX {
        match input.read(&mut piece) {
            Ok(0) => break,
            Ok(count) => {
                if let Err(error) = first_line.read_on(&piece[..count]) {
                    fault = Some(error);
                    break;
                }
                pipe.put(rt, &piece[..count]);
            }
            Err(error) => match error.kind() {
                ErrorKind::Interrupted => {}
                ErrorKind::WouldBlock | ErrorKind::TimedOut => {
                    thread::sleep(rt, Duration::from_millis(PAUSE_MILLIS));
                }
                _ => {
                    fault = Some(error);
                    break;
                }
            },
        }
    }
    pipe.end(rt, fault);
}

/// What comes through the pipe, as a reader that returns `TimedOut` if nothing came for a tenth of a second.
#[derive(Drop)]
pub(crate) struct Incoming<'a, R: Wait + Clock> {
    rt: &'a R,
    pipe: &'a Pipe,
    bytes: Vec<u8>,
    at: usize,
}

impl<'a, R: Wait + Clock> Incoming<'a, R> {
    pub(crate) fn new(rt: &'a R, alloc: Global, pipe: &'a Pipe) -> Self {
        Incoming {
            rt,
            pipe,
            bytes: Vec::new(alloc),
            at: 0,
        }
    }

    /// Reads to the end, and keeps nothing.
    pub(crate) fn drain(&mut self) {
        for _ in 0..u64::MAX {
            match self.refill() {
                Ok(true) => {}
                Err(error) if error.kind() == ErrorKind::TimedOut => {}
                _ => return,
            }
        }
    }

    // Waits a while for bytes, and takes all that came. It returns false at the end.
    fn refill(&mut self) -> io::Result<bool> {
        self.bytes.clear();
        self.at = 0;
        let rt = self.rt;
        let tick = Duration::from_millis(TICK_MILLIS);
        let held = self.pipe.held.lock(rt);
        let (mut held, _) = self.pipe.came.wait_timeout_while(rt, held, tick, |held| {
            held.bytes.is_empty() && !held.is_over
        });
        let state = &mut *held;
        if !state.bytes.is_empty() {
            std::mem::swap(&mut self.bytes, &mut state.bytes);
            drop(held);
            self.pipe.taken.notify_one();
            return Ok(true);
        }
        match state.fault.take() {
            Some(error) => Err(error),
            None if state.is_over => Ok(false),
            None => Err(io::Error::from(ErrorKind::TimedOut)),
        }
    }
}

impl<R: Wait + Clock> Read for Incoming<'_, R> {
    fn read(&mut self, buf: &mut [u8]) -> io::Result<usize> {
        if self.at >= self.bytes.len() && !self.refill()? {
            return Ok(0);
        }
        let left = self.bytes.get(self.at..).unwrap_or(&[]);
        let count = buf.len().min(left.len());
        buf[..count].copy_from_slice(&left[..count]);
        self.at = self.at.saturating_add(count);
        Ok(count)
    }
}
