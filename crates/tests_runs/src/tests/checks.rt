//! Checks, and the messages of their failures.
use libtest_mimic::{Check, Failed, Outcome, Task, Trial, check, check_eq, check_ok, fail};
use std::alloc::{AllocError, Global};
use std::num::ParseIntError;
use std::test::Fail;

// The message of a check that failed.
fn message_of<T: Drop>(alloc: Global, checked: Result<T, Failed>) -> Result<String, AllocError> {
    match &checked {
        Ok(_) => String::from_str(alloc, "passed"),
        Err(failed) => String::from_str(alloc, failed.message().unwrap_or("none")),
    }
}

fn number_in(text: &str) -> Result<u64, ParseIntError> {
    text.parse()
}

// What memory refuses.
fn refused() -> Result<u64, AllocError> {
    Err(AllocError)
}

// A check that hands on what memory refuses.
fn needs_memory() -> Result<u64, Failed> {
    Ok(refused()?)
}

#[test]
fn fails_with_messages(rt: HostRuntime) -> Result<(), Fail> {
    let alloc = rt.alloc();
    let (one, two) = (1, 2);
    let messages = [
        (message_of(alloc, check!(in alloc; one < two))?, "passed"),
        (
            message_of(alloc, check!(in alloc; two < one))?,
            "check failed: two < one",
        ),
        (
            message_of(alloc, check!(in alloc; two < one, "{two} is too large"))?,
            "2 is too large",
        ),
        (
            message_of(alloc, check_eq!(in alloc; one, two))?,
            "assertion `left == right` failed\n  left: 1\n right: 2",
        ),
        (
            message_of(alloc, check_ok!(in alloc; number_in("x")))?,
            "invalid digit found in string",
        ),
        (
            message_of(alloc, check_ok!(in alloc; number_in("x"), "line {two}"))?,
            "line 2: invalid digit found in string",
        ),
        (
            message_of::<u64>(alloc, Err(fail!(in alloc; "{two} of {one}")))?,
            "2 of 1",
        ),
        (message_of(alloc, needs_memory())?, "out of memory"),
    ];
    for (message, expected) in &messages {
        assert!(rt; message.as_str() == *expected, "{message}");
    }
    Ok(())
}

#[test]
fn gives_the_value_of_an_ok(rt: HostRuntime) -> Result<(), Fail> {
    let alloc = rt.alloc();
    assert!(rt; check_ok!(in alloc; number_in("7")).is_ok_and(|number| number == 7));
    assert!(rt; check_ok!(in alloc; number_in("7"), "line 2").is_ok_and(|number| number == 7));
    Ok(())
}

// A number that is to be small.
#[derive(Drop)]
struct IsSmall {
    alloc: Global,
    number: u64,
}

impl Check for IsSmall {
    fn check(self) -> Result<(), Failed> {
        let (alloc, number) = (self.alloc, self.number);
        check!(in alloc; number < 2, "{number} is too large")
    }
}

#[test]
fn checks_a_type_of_its_own(rt: HostRuntime) -> Result<(), Fail> {
    let alloc = rt.alloc();
    for test_mode in [true, false] {
        assert!(rt; IsSmall { alloc, number: 1 }.run(test_mode) == Outcome::Passed);
        let trial = Trial::new(
            String::from_str(alloc, "two")?,
            IsSmall { alloc, number: 2 },
        );
        let (_info, task) = trial.into_parts();
        let expected = Outcome::Failed(fail!(in alloc; "2 is too large"));
        assert!(rt; task.run(test_mode) == expected);
    }
    Ok(())
}
