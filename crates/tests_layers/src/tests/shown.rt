//! What `Debug` shows of each public type that has it, as Rust's derives write it, and the texts of errors.
use mimic_args::{Arguments, ArgumentsError, ColorSetting, Line, UnstableFlags};
use mimic_printer::{Printer, WriteFault};
use mimic_trial::{
    Conclusion, Failed, FormatSetting, Measurement, Outcome, TestInfo, Trial, UnknownFormat,
};
use std::alloc::{AllocError, Global};
use std::fmt::{Debug, Display};
use std::io;
use std::io::ErrorKind;
use std::process::Abort;
use std::test::Fail;

pub(super) fn check_debug<T: Debug>(
    rt: &impl Abort,
    alloc: Global,
    value: &T,
    text: &str,
) -> Result<(), Fail> {
    let shown = format!(in alloc; "{value:?}")?;
    assert!(rt; shown.as_str() == text, "{shown}");
    Ok(())
}

fn check_display<T: Display>(
    rt: &impl Abort,
    alloc: Global,
    value: &T,
    text: &str,
) -> Result<(), Fail> {
    let shown = format!(in alloc; "{value}")?;
    assert!(rt; shown.as_str() == text, "{shown}");
    Ok(())
}

const MEASURED: Measurement = Measurement {
    avg: 32,
    variance: 3,
};

// Values that own no memory.
#[test]
fn shows_plain_values(rt: HostRuntime) -> Result<(), Fail> {
    let alloc = rt.alloc();
    check_debug(&rt, alloc, &FormatSetting::Json, "Json")?;
    check_debug(&rt, alloc, &UnknownFormat, "UnknownFormat")?;
    check_debug(&rt, alloc, &ColorSetting::Never, "Never")?;
    check_debug(
        &rt,
        alloc,
        &UnstableFlags::UnstableOptions,
        "UnstableOptions",
    )?;
    check_debug(
        &rt,
        alloc,
        &MEASURED,
        "Measurement { avg: 32, variance: 3 }",
    )?;
    let printer = Printer::new(FormatSetting::Terse, true, 3, 4);
    let text = "Printer { format: Terse, colour: true, name_width: 3, kind_width: 4 }";
    check_debug(&rt, alloc, &printer, text)?;
    let counts = Conclusion {
        num_filtered_out: 1,
        num_passed: 2,
        num_failed: 3,
        num_ignored: 4,
        num_measured: 5,
    };
    let text =
        "Conclusion { num_filtered_out: 1, num_passed: 2, num_failed: 3, num_ignored: 4, num_measured: 5 }";
    check_debug(&rt, alloc, &counts, text)?;
    let fault = WriteFault::Error(io::Error::from(ErrorKind::StorageFull));
    check_debug(&rt, alloc, &fault, "Error(Kind(StorageFull))")?;
    check_debug(&rt, alloc, &WriteFault::Zero, "Zero")
}

#[test]
fn shows_plain_outcomes(rt: HostRuntime) -> Result<(), Fail> {
    let alloc = rt.alloc();
    check_debug(&rt, alloc, &Outcome::Passed, "Passed")?;
    check_debug(&rt, alloc, &Outcome::Ignored, "Ignored")?;
    let text = "Measured(Measurement { avg: 32, variance: 3 })";
    check_debug(&rt, alloc, &Outcome::Measured(MEASURED), text)?;
    check_debug(
        &rt,
        alloc,
        &Failed::without_message(),
        "Failed { msg: None }",
    )
}

fn named(alloc: Global, name: &str, kind: &str) -> Result<TestInfo, AllocError> {
    Ok(TestInfo {
        name: String::from_str(alloc, name)?,
        kind: String::from_str(alloc, kind)?,
        is_ignored: false,
        is_bench: true,
    })
}

#[test]
fn shows_trials(rt: HostRuntime) -> Result<(), Fail> {
    let info = named(rt.alloc(), "a\"b", "k")?;
    let text = "TestInfo { name: \"a\\\"b\", kind: \"k\", is_ignored: false, is_bench: true }";
    check_debug(&rt, rt.alloc(), &info, text)?;
    let text =
        "Test { runner: <runner>, name: \"a\\\"b\", kind: \"k\", is_ignored: false, is_bench: true }";
    check_debug(&rt, rt.alloc(), &Trial::from_parts(info, ()), text)
}

#[test]
fn shows_failures(rt: HostRuntime) -> Result<(), Fail> {
    let failed = Failed::with_message(String::from_str(rt.alloc(), "x\n")?);
    check_debug(&rt, rt.alloc(), &failed, "Failed { msg: Some(\"x\\n\") }")?;
    let text = "Failed(Failed { msg: Some(\"x\\n\") })";
    check_debug(&rt, rt.alloc(), &Outcome::Failed(failed), text)
}

const NO_ARGUMENTS: &str =
    "Arguments { include_ignored: false, ignored: false, test: false, bench: false, list: false, nocapture: false, show_output: false, report_time: false, unstable_flags: None, exact: false, quiet: false, test_threads: None, logfile: None, skip: [], color: None, format: None, filter: [] }";

#[test]
fn shows_lines(rt: HostRuntime) -> Result<(), Fail> {
    let alloc = rt.alloc();
    check_debug(&rt, alloc, &Arguments::new(alloc), NO_ARGUMENTS)?;
    let mut own = Vec::new(alloc);
    own.push(String::from_str(alloc, "a")?)?;
    let options = Err(ArgumentsError::OutOfMemory);
    let text = "Line { own: [\"a\"], options: Err(OutOfMemory) }";
    check_debug(&rt, alloc, &Line { own, options }, text)
}

fn help(alloc: Global, text: &str) -> Result<ArgumentsError, AllocError> {
    Ok(ArgumentsError::Help(String::from_str(alloc, text)?))
}

fn refused(alloc: Global, text: &str) -> Result<ArgumentsError, AllocError> {
    Ok(ArgumentsError::Refused(String::from_str(alloc, text)?))
}

static HELD: [&str; 3] = [
    "",
    "Usage: harness [OPTIONS] [FILTER]...\n",
    "error: {0} \"x\"\n\n",
];

// The text of an error of a command line is the held one.
#[test]
fn tells_errors_that_hold_texts(rt: HostRuntime) -> Result<(), Fail> {
    for held in &HELD {
        check_display(&rt, rt.alloc(), &help(rt.alloc(), held)?, held)?;
        check_display(&rt, rt.alloc(), &refused(rt.alloc(), held)?, held)?;
    }
    Ok(())
}

// The text of the one that holds none, and what `Debug` shows of each.
#[test]
fn tells_errors_of_command_lines(rt: HostRuntime) -> Result<(), Fail> {
    let alloc = rt.alloc();
    check_display(&rt, alloc, &ArgumentsError::OutOfMemory, "out of memory")?;
    check_display(&rt, alloc, &UnknownFormat, "no such format")?;
    check_debug(&rt, alloc, &ArgumentsError::OutOfMemory, "OutOfMemory")?;
    check_debug(&rt, alloc, &help(alloc, "a\n")?, "Help(\"a\\n\")")?;
    check_debug(&rt, alloc, &refused(alloc, "b")?, "Refused(\"b\")")
}
