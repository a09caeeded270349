//! The warning of trials that have equal names.
use super::known_machine::{NO_OPTIONS, Streams, Words, known_machine, run_program_on};
use super::runs::Host;
use libtest_mimic::{Outcome, Task, Trial};
use mimic_main::Program;
use std::alloc::{AllocError, Global};
use std::process::ExitCode;
use std::test::Fail;

#[derive(Clone, Copy)]
struct Passes;

impl Task for Passes {
    fn run(self, _test_mode: bool) -> Outcome {
        Outcome::Passed
    }
}

// The kinds and names of a program's trials, the words of its line, and what it prints on standard error.
struct Row {
    trials: &'static [(&'static str, &'static str)],
    words: Words,
    printed: &'static str,
}

const A: &[(&str, &str)] = &[("", "a"), ("", "b"), ("", "a")];

static ROWS: [Row; 10] = [
    Row {
        trials: &[],
        words: NO_OPTIONS,
        printed: "",
    },
    Row {
        trials: &[("", "a"), ("k", "a"), ("", "b"), ("k", "b"), ("", "[k] b")],
        words: NO_OPTIONS,
        printed: "",
    },
    Row {
        trials: A,
        words: NO_OPTIONS,
        printed: "program: warning: several trials are named a\n",
    },
    // One of several such names, once.
    Row {
        trials: &[
            ("k", "b"),
            ("", "z"),
            ("k", "a"),
            ("k", "b"),
            ("k", "a"),
            ("k", "a"),
            ("", "y"),
        ],
        words: NO_OPTIONS,
        printed: "program: warning: several trials are named [k] a\n",
    },
    Row {
        trials: &[("k\n", "\u{1b}"), ("k\n", "\u{1b}")],
        words: NO_OPTIONS,
        printed: "program: warning: several trials are named [k\\u{a}] \\u{1b}\n",
    },
    Row {
        trials: &[("", ""), ("", "")],
        words: NO_OPTIONS,
        printed: "program: warning: several trials are named \n",
    },
    // Those that are selected.
    Row {
        trials: A,
        words: &[b"program", b"--skip", b"a"],
        printed: "",
    },
    Row {
        trials: A,
        words: &[b"program", b"a"],
        printed: "program: warning: several trials are named a\n",
    },
    // A list, and a call for help.
    Row {
        trials: A,
        words: &[b"program", b"--list"],
        printed: "",
    },
    Row {
        trials: A,
        words: &[b"program", b"--help"],
        printed: "",
    },
];

// Runs the program over the trials, and returns what it prints on standard error. No trial fails.
fn printed_by<H: Host>(
    host: H,
    alloc: Global,
    program: &Program<'_>,
    row: &Row,
) -> Result<String, Fail> {
    let streams = Streams::new(alloc)?;
    let machine = known_machine(host, alloc, row.words, &streams);
    let status = run_program_on(&machine, program, passing(alloc, row.trials)?);
    if status != ExitCode::SUCCESS {
        return Err(Fail::new("the program didn't end well"));
    }
    Ok(String::from_utf8(streams.into_printed(alloc))?)
}

fn passing(alloc: Global, names: &[(&str, &str)]) -> Result<Vec<Trial<Passes>>, AllocError> {
    let mut trials = Vec::new(alloc);
    for (kind, name) in names {
        let trial = Trial::new(String::from_str(alloc, name)?, Passes);
        trials.push(trial.with_kind(String::from_str(alloc, kind)?))?;
    }
    Ok(trials)
}

#[test]
fn warns_of_equal_names(rt: HostRuntime) -> Result<(), Fail> {
    for row in &ROWS {
        for threads in [1, 2] {
            let program = Program::new("program", threads);
            let printed = printed_by(rt, rt.alloc(), &program, row)?;
            assert!(rt; printed.as_str() == row.printed, "{printed:?}");
        }
    }
    Ok(())
}

#[test]
fn may_have_equal_names(rt: HostRuntime) -> Result<(), Fail> {
    let program = Program::new("program", 1).with_equal_names();
    for row in &ROWS {
        let printed = printed_by(rt, rt.alloc(), &program, row)?;
        assert!(rt; printed.is_empty(), "{printed:?}");
    }
    Ok(())
}
