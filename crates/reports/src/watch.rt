//! Shows the report on standard input as it comes.
use crate::faults::{WithRunning, refuse_all, refuse_output};
use crate::line::Watch;
use crate::pump::{Incoming, Pipe, pump};
use mimic_console::{Streams, shows_colours};
use mimic_events::{Ending, ReadFault};
use mimic_printer::Sink;
use mimic_watch::{ERASE, Screen, WatchFault, watch};
use std::alloc::Global;
use std::io::{IsTerminal, Stdin, Stdout, Write};
use std::rt::{Clock, Env};
use std::sync::{Arc, Wait};
use std::thread::Threads;
use std::{env, thread};

// How many columns a line has on a terminal, whose width isn't known, and elsewhere.
const NARROW: usize = 39;

const WIDE: usize = 79;

/// What a watch needs of the handle that `main` gets: threads that wait for each other, a clock, an environment, and standard
/// error.
pub(crate) trait Host: Threads
    + Wait
    + Clock
    + Env
    + AllocGlobal
    + Streams
    + Copy
    + Drop
    + Send
    + 'static {}

impl<H: Threads + Wait + Clock + Env + AllocGlobal + Streams + Copy + Drop + Send + 'static> Host
    for H {}

/// Shows the report while another thread reads it, and returns the status of the run. If there is none, it prints why and
/// returns 1.
///
/// Unless the input itself fails, it is read to its end, so that no pipe is closed on the harness.
pub(crate) fn run<H: Host>(
    host: &H,
    alloc: Global,
    watch: &Watch,
    stdin: Stdin,
    stdout: Stdout,
) -> u8 {
    let Ok(pipe) = Pipe::new(alloc) else {
        return refuse_all(host, &ReadFault::OutOfMemory);
    };
    let Ok(pipe) = Arc::new(alloc, pipe) else {
        return refuse_all(host, &ReadFault::OutOfMemory);
    };
    let Ok(theirs) = Arc::try_clone(&pipe) else {
        return refuse_all(host, &ReadFault::OutOfMemory);
    };
    let (other, mut stdin) = (*host, stdin);
    let reader = match thread::spawn(host, move || pump(&other, &mut stdin, &theirs)) {
        Ok(reader) => reader,
        Err(error) => return refuse_all(host, &error),
    };
    let mut incoming = Incoming::new(host, alloc, &pipe);
    let screen = screen_of(host, watch, &stdout);
    let status = show(host, alloc, &mut incoming, screen, stdout);
    incoming.drain();
    reader.join(host);
    status
}

fn show<H: Host>(
    host: &H,
    alloc: Global,
    incoming: &mut Incoming<'_, H>,
    screen: Screen,
    stdout: Stdout,
) -> u8 {
    let mut sink = Sink::new(stdout);
    match watch(alloc, incoming, &mut sink, host, screen) {
        Ok(verdict) => {
            if let Ending::Cut(stop) = &verdict.ending {
                refuse_all(host, &WithRunning(stop));
            }
            verdict.status()
        }
        Err(fault) => {
            if screen.live {
                let _ = sink.into_inner().write_all(ERASE.as_bytes());
            }
            match &fault {
                WatchFault::Read(_) => refuse_all(host, &fault),
                WatchFault::Write(fault) => refuse_output(host, fault),
            }
        }
    }
}

fn screen_of<H: Host>(host: &H, watch: &Watch, stdout: &Stdout) -> Screen {
    let live = stdout.is_terminal() && knows_escapes(host);
    let columns = match watch.columns.or(columns_of(host)) {
        Some(columns) => columns,
        None if live => NARROW,
        None => WIDE,
    };
    Screen {
        live,
        columns,
        colours: shows_colours(host, stdout),
    }
}

// The number in the variable `COLUMNS`, if it is one and not 0.
fn columns_of<H: Host>(host: &H) -> Option<usize> {
    let text = env::var(host, "COLUMNS").ok()?;
    text.as_str()
        .parse::<usize>()
        .ok()
        .filter(|columns| *columns > 0)
}

// Whether `TERM` names a terminal that knows escape sequences.
fn knows_escapes<H: Host>(host: &H) -> bool {
    env::var(host, "TERM").is_ok_and(|term| !term.is_empty() && term.as_str() != "dumb")
}
