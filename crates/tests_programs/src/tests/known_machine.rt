//! A machine whose parts are known.
ghost use Rattle.std.specs.Io.{WritesAtMost};
ghost use Rattle.std.specs.Prelude.{IfOk};
ghost use Rattle.libtest_mimic.specs.Trial.{AllCanRun};

use super::runs::Host;
use libtest_mimic::{RunError, Task, Trial};
use mimic_main::{Machine, Program, run_program};
use std::alloc::{Alloc, AllocError, Global};
use std::cell::Cell;
use std::env::FillError;
use std::io;
use std::io::{ErrorKind, IsTerminal, Write};
use std::process::{ExitCode, Termination};
use std::rt::{Clock, Env};
use std::sync::atomic::{AtomicUsize, Ordering};
use std::sync::{Arc, Mutex};
use std::thread::yield_now;
use std::time::Duration;

// The variables of an environment, each a name and a value, which need not be text.
pub(super) type Variables = &'static [(&'static str, &'static [u8])];

// The words of a command line, which need not be text.
pub(super) type Words = &'static [&'static [u8]];

// The present time of a known machine, in seconds since 1970.
pub(super) const PRESENT_SECONDS: u64 = 1_000_000_000;

// What a stream of the machine has got.
#[derive(Drop)]
pub(super) struct Got {
    pub(super) bytes: Cell<Vec<u8>>,
    pub(super) writes: Cell<usize>,
}

impl Got {
    fn nothing(alloc: Global) -> Got {
        Got {
            bytes: Cell::new(Vec::new(alloc)),
            writes: Cell::new(0),
        }
    }
}

// What standard error has got, from whatever thread.
#[derive(Drop)]
pub(super) struct Printed {
    pub(super) bytes: Mutex<Vec<u8>>,
    pub(super) writes: AtomicUsize,
}

// A machine that is known but for its host: its line, its variables, whether its output is a terminal, and whether its standard
// error is closed. Its clock reads one and a half seconds more each time, its present time stays, and its streams can be read
// afterwards.
#[derive(Drop)]
pub(super) struct KnownMachine<'a, H> {
    host: H,
    alloc: Global,
    words: Words,
    pub(super) variables: Variables,
    pub(super) is_terminal: bool,
    pub(super) is_closed: bool,
    readings: Cell<u64>,
    streams: &'a Streams,
}

impl<H> Env for KnownMachine<'_, H> {
    fn arg(&self, i: usize, buf: &mut [u8]) -> Result<usize, FillError> {
        match self.words.get(i) {
            Some(word) => fill(word, buf),
            None => Err(FillError::NotPresent),
        }
    }

    fn var(&self, name: &str, buf: &mut [u8]) -> Result<usize, FillError> {
        for (known, value) in self.variables {
            if *known == name {
                return fill(value, buf);
            }
        }
        Err(FillError::NotPresent)
    }

    fn var_at(&self, _i: usize, _buf: &mut [u8]) -> Result<usize, FillError> {
        Err(FillError::NotPresent)
    }
}

// Copies the bytes to the front of the buffer.
fn fill(bytes: &[u8], buf: &mut [u8]) -> Result<usize, FillError>
    ensures { WritesAtMost result buf.new }
{
    if bytes.len() > buf.len() {
        return Err(FillError::TooLong);
    }
    buf[..bytes.len()].copy_from_slice(bytes);
    Ok(bytes.len())
}

impl<H> Alloc for KnownMachine<'_, H> {
    type A = Global;

    fn alloc(&self) -> Global {
        self.alloc
    }
}

impl<H> Clock for KnownMachine<'_, H> {
    fn monotonic(&self) -> io::Result<Duration> {
        let readings = self.readings.get();
        self.readings.set(readings.saturating_add(1));
        Ok(Duration::from_millis(readings.saturating_mul(1500)))
    }

    fn since_1970(&self) -> io::Result<Duration> {
        Ok(Duration::from_secs(PRESENT_SECONDS))
    }
}

// Standard output of the machine.
#[derive(Drop)]
pub(super) struct Stream<'a> {
    alloc: Global,
    is_terminal: bool,
    got: &'a Got,
}

impl IsTerminal for Stream<'_> {
    fn is_terminal(&self) -> bool {
        self.is_terminal
    }
}

impl Write for Stream<'_> {
    fn write(&mut self, buf: &[u8]) -> io::Result<usize> {
        let mut bytes = self.got.bytes.replace(Vec::new(self.alloc));
        let extended = bytes.extend_from_slice(buf);
        self.got.bytes.set(bytes);
        self.got.writes.set(self.got.writes.get().saturating_add(1));
        extended?;
        Ok(buf.len())
    }

    fn flush(&mut self) -> io::Result<()> {
        Ok(())
    }
}

// Standard error of the machine. `None` is closed.
#[derive(Drop)]
pub(super) struct ErrorStream {
    printed: Option<Arc<Printed>>,
}

impl Write for ErrorStream {
    fn write(&mut self, buf: &[u8]) -> io::Result<usize> {
        let Some(printed) = &self.printed else {
            return Err(io::Error::from(ErrorKind::BrokenPipe));
        };
        for _ in 0..u64::MAX {
            if let Some(mut bytes) = printed.bytes.try_lock() {
                bytes.extend_from_slice(buf)?;
                break;
            }
            yield_now();
        }
        printed.writes.fetch_add(1, Ordering::SeqCst);
        Ok(buf.len())
    }

    fn flush(&mut self) -> io::Result<()> {
        Ok(())
    }
}

impl<'a, H: Host> Machine for KnownMachine<'a, H> {
    type Host = H;

    type Stdout = Stream<'a>;

    type Stderr = ErrorStream;

    fn host(&self) -> H {
        self.host
    }

    fn stdout(&self) -> Stream<'a> {
        Stream {
            alloc: self.alloc,
            is_terminal: self.is_terminal,
            got: &self.streams.out,
        }
    }

    fn stderr(&self) -> ErrorStream {
        let printed = if self.is_closed {
            None
        } else {
            Arc::try_clone(&self.streams.err).ok()
        };
        ErrorStream { printed }
    }
}

// What the streams of a machine have got.
#[derive(Drop)]
pub(super) struct Streams {
    pub(super) out: Got,
    pub(super) err: Arc<Printed>,
}

impl Streams {
    pub(super) fn new(alloc: Global) -> Result<Streams, AllocError> {
        let printed = Printed {
            bytes: Mutex::new(Vec::new(alloc)),
            writes: AtomicUsize::new(0),
        };
        Ok(Streams {
            out: Got::nothing(alloc),
            err: Arc::new(alloc, printed)?,
        })
    }

    // What standard error has got, once no other thread has it.
    pub(super) fn into_printed(self, alloc: Global) -> Vec<u8> {
        match Arc::into_inner(self.err) {
            Some(printed) => printed.bytes.into_inner(),
            None => Vec::new(alloc),
        }
    }

    // Whether standard error has got this text in one write, and standard output nothing.
    pub(super) fn have_only_printed(self, alloc: Global, text: &str) -> bool {
        let is_alone = self.err.writes.load(Ordering::SeqCst) == 1 && self.out.writes.get() == 0;
        is_alone && self.into_printed(alloc).as_slice() == text.as_bytes()
    }
}

// A machine of this line, which has no variables, and whose output is no terminal.
pub(super) fn known_machine<H>(
    host: H,
    alloc: Global,
    words: Words,
    streams: &Streams,
) -> KnownMachine<'_, H> {
    KnownMachine {
        host,
        alloc,
        words,
        variables: &[],
        is_terminal: false,
        is_closed: false,
        readings: Cell::new(0),
        streams,
    }
}

// Runs the tests, and returns the status. This is the one place that calls `run_program`, and it promises nothing, so that no test
// carries that contract.
pub(super) fn run_on<H: Host, R: Task + Send + 'static>(
    machine: &KnownMachine<'_, H>,
    tests: Result<Vec<Trial<R>>, RunError>,
) -> ExitCode
    requires { IfOk tests (λ made. AllCanRun R.can_run made.items) }
{
    run_program(machine, "program", tests).report(&machine.host)
}

// Runs the tests by the program, as a line without options asks, and returns the status. It promises nothing, too.
pub(super) fn run_program_on<H: Host, R: Task + Send + 'static>(
    machine: &KnownMachine<'_, H>,
    program: &Program<'_>,
    tests: Vec<Trial<R>>,
) -> ExitCode
    requires { AllCanRun R.can_run tests.items }
{
    program.run(machine, tests).report(&machine.host)
}

// A line of the program's name alone.
pub(super) const NO_OPTIONS: Words = &[b"program"];
