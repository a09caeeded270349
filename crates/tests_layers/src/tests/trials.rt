//! Trials and outcomes: calls one by one, with what no run shows of them.
use super::shown::check_debug;
use mimic_trial::{BenchRunner, Failed, Measurement, Outcome, Runner, run_single};
use std::alloc::{AllocError, Global};
use std::fmt;
use std::test::Fail;

// The outcome of a benchmark that measures nothing, whose message is kept without memory.
fn not_measured(alloc: Global) -> Result<Outcome, AllocError> {
    let measures_nothing: Box<dyn FnOnce(bool) -> Result<Option<Measurement>, Failed> + Send> =
        Box::new(alloc, |_mode: bool| Ok(None))?;
    Ok(run_single(Runner::Bench(BenchRunner::new(measures_nothing)), false))
}

fn is_copied(alloc: Global, outcome: &Outcome) -> bool {
    match &outcome.try_clone(alloc) {
        Ok(copy) => *copy == *outcome,
        Err(_) => false,
    }
}

const MEASURED: Measurement = Measurement {
    avg: 32,
    variance: 3,
};

// A failure with a message, the message kept without memory, and the others.
#[test]
fn copies_outcomes(rt: HostRuntime) -> Result<(), Fail> {
    let alloc = rt.alloc();
    let failed = Failed::with_message(String::from_str(alloc, "Woops")?);
    assert!(rt; is_copied(alloc, &Outcome::Failed(failed)));
    assert!(rt; is_copied(alloc, &Outcome::Failed(Failed::without_message())));
    assert!(rt; is_copied(alloc, &not_measured(alloc)?));
    assert!(rt; is_copied(alloc, &Outcome::Passed));
    assert!(rt; is_copied(alloc, &Outcome::Ignored));
    assert!(rt; is_copied(alloc, &Outcome::Measured(MEASURED)));
    Ok(())
}

// `Debug` shows the message that is kept without memory, too.
#[test]
fn shows_the_fixed_message(rt: HostRuntime) -> Result<(), Fail> {
    let text = "Failed(Failed { msg: Some(\"bench runner returned `Ok(None)` in bench mode\") })";
    check_debug(&rt, rt.alloc(), &not_measured(rt.alloc())?, text)
}

#[test]
fn copies_messages(rt: HostRuntime) -> Result<(), Fail> {
    let woops = Failed::with_message(String::from_str(rt.alloc(), "Woops")?);
    let copy = woops.try_clone(rt.alloc())?;
    assert!(rt; copy == woops);
    assert!(rt; copy.message() == Some("Woops"));
    Ok(())
}

// Displays nothing, and fails.
struct Mute;

impl fmt::Display for Mute {
    fn fmt<W: fmt::Write>(&self, _f: &mut fmt::Formatter<W>) -> fmt::Result {
        Err(fmt::Error)
    }
}

#[test]
fn keeps_what_is_displayed(rt: HostRuntime) -> Result<(), Fail> {
    assert!(rt; Failed::from_display(rt.alloc(), &7)?.message() == Some("7"));
    assert!(rt; Failed::from_display(rt.alloc(), &"")?.message() == Some(""));
    assert!(rt; Failed::from_display(rt.alloc(), &Mute).is_err());
    Ok(())
}

// Whether the check failed with this message, or without any.
fn fails_with(checked: &Result<(), Failed>, message: Option<&str>) -> bool {
    match checked {
        Ok(()) => false,
        Err(failed) => failed.message() == message,
    }
}

const UNEQUAL: &str = "assertion `left == right` failed\n  left: \"a\"\n right: \"b\"";

// What a failure says if its reason can be displayed, and if not.
#[test]
fn fails_because_of_what_it_says(rt: HostRuntime) {
    assert!(rt; Failed::because(rt.alloc(), &7).message() == Some("7"));
    assert!(rt; Failed::because(rt.alloc(), &Mute).message() == None);
}

// What a check that failed says likewise. One that holds is `Ok`.
#[test]
fn fails_unless_it_holds(rt: HostRuntime) {
    let alloc = rt.alloc();
    assert!(rt; Failed::unless(alloc, true, &"wrong").is_ok());
    assert!(rt; Failed::unless_equal(alloc, &"a", &"a").is_ok());
    assert!(rt; fails_with(&Failed::unless(alloc, false, &"wrong"), Some("wrong")));
    assert!(rt; fails_with(&Failed::unless(alloc, false, &Mute), None));
    assert!(rt; fails_with(&Failed::unless_equal(alloc, &"a", &"b"), Some(UNEQUAL)));
}
