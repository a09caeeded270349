//! Reads reports in JSON: joins those of shards into one, compares them, and prints them in other forms.
#![tactic(auto)]

ghost use Rattle.std.specs.Prelude.{◌≡◌, IfOk};
ghost use Rattle.mimic_printer.specs.Sink.{faults_of};

mod by_name;
mod compare;
mod expect;
mod faults;
mod input;
mod join;
mod junit;
mod known;
mod line;
mod page;
mod pump;
mod show;
mod slowest;
mod watch;

use clap::error::ErrorKind;
use faults::{refuse_all, refuse_write};
use line::{Line, LineError};
use mimic_console::Streams;
use mimic_printer::{Sink, WriteFault};
use mimic_trial::Conclusion;
use std::alloc::{AllocError, Global};
use std::hash::RandomState;
use std::io;
use std::io::{BufWriter, Stdout};
use std::process::ExitCode;

// How many bytes of a report are buffered at most before they are written.
const BLOCK: usize = 65_536;

// The exit statuses.
const SUCCESS: u8 = 0;

const CANNOT_RUN: u8 = 1;

const REFUSED_LINE: u8 = 2;

const TRIALS_FAILED: u8 = Conclusion::FAILED;

fn main(rt: HostRuntime) -> ExitCode {
    let alloc = rt.alloc();
    if let Err(error) = rt.hold_closed_streams() {
        let fault = format_args!("cannot open /dev/null for a closed standard stream: {error}");
        return ExitCode::from(refuse_all(&rt, &fault));
    }
    let status = match Line::from_args(&rt, alloc) {
        Ok(Line::Join(join)) => join::run(&rt, alloc, &join),
        Ok(Line::Junit(junit)) => junit::run(&rt, alloc, &junit),
        Ok(Line::Show(show)) => show::run(&rt, alloc, &show),
        Ok(Line::Expect(expect)) => expect::run(&rt, alloc, &expect),
        Ok(Line::Known(known)) => known::run(&rt, alloc, &known),
        Ok(Line::Compare(compare)) => compare::run(&rt, alloc, &compare),
        Ok(Line::Page(page)) => page::run(&rt, alloc, &page),
        Ok(Line::Slowest(slowest)) => slowest::run(&rt, alloc, &slowest),
        Ok(Line::Watch(watch)) => watch::run(&rt, alloc, &watch, rt.stdin(), rt.stdout()),
        Err(error) => refuse(&rt, &error),
    };
    ExitCode::from(status)
}

// Returns standard output, with no fault yet. What is written is buffered.
fn output(rt: &HostRuntime, alloc: Global) -> Result<Sink<BufWriter<Stdout>>, AllocError>
    ensures { IfOk result (λ sink. faults_of sink ≡ 0) }
{
    match BufWriter::with_capacity(alloc, BLOCK, rt.stdout()) {
        Ok(out) => Ok(Sink::new(out)),
        Err(_) => Err(AllocError),
    }
}

// Returns what hashes kinds, names and messages, with keys that nobody knows beforehand, or prints why there are none.
fn random_hashes(rt: &HostRuntime) -> Option<RandomState> {
    RandomState::new(rt)
        .map_err(|error| refuse_all(rt, &format_args!("cannot get random bytes: {error}")))
        .ok()
}

// Prints help, or why the line was refused.
fn refuse(rt: &HostRuntime, error: &LineError) -> u8 {
    match error {
        LineError::OutOfMemory(_) => refuse_all(rt, error),
        LineError::Unread(cause) if cause.kind() == io::ErrorKind::OutOfMemory => {
            refuse_all(rt, error)
        }
        LineError::Unread(_)
        | LineError::TwoInputs
        | LineError::NoName
        | LineError::ManyFiles
        | LineError::SameNumbers { .. }
        | LineError::NamelessInput
        | LineError::InputUpdated
        | LineError::NoSubcommand => {
            refuse_all(rt, error);
            REFUSED_LINE
        }
        LineError::Shown(error) if error.kind() == ErrorKind::OutOfMemory => {
            let _ = error.print(rt);
            CANNOT_RUN
        }
        LineError::Shown(error) => match error.print(rt) {
            _ if error.use_stderr() => REFUSED_LINE,
            Ok(()) => SUCCESS,
            Err(fault) => refuse_write(rt, &WriteFault::Error(fault)),
        },
    }
}
