//! The lines of reports in JSON, and small reports. Names, kinds and messages are given as reports escape them.
use super::reading::Slow;
use mimic_events::{RowsRead, read_rows};
use std::alloc::{AllocError, Global};
use std::test::Fail;

// The title of a report, with the number of its trials.
macro_rules! title {
    ($count:literal) => {
        concat!(
            "{ \"type\": \"suite\", \"event\": \"started\", \"test_count\": ",
            $count,
            " }\n"
        )
    };
}

// The announcement of a trial.
macro_rules! announced {
    ($([$kind:literal])? $name:literal) => {
        concat!(
            "{ \"type\": \"test\", \"event\": \"started\", \"name\": \"",
            $name,
            $("\", \"kind\": \"", $kind,)?
            "\" }\n"
        )
    };
}

// The outcome of a trial that passed, with its seconds if it has them.
macro_rules! passed {
    ($([$kind:literal])? $name:literal $(@ $seconds:literal)?) => {
        concat!(
            "{ \"type\": \"test\", \"name\": \"",
            $name,
            $("\", \"kind\": \"", $kind,)?
            "\", \"event\": \"ok\"",
            $(", \"exec_time\": ", $seconds,)?
            " }\n"
        )
    };
}

// The outcome of a trial that was ignored.
macro_rules! ignored {
    ($([$kind:literal])? $name:literal) => {
        concat!(
            "{ \"type\": \"test\", \"name\": \"",
            $name,
            $("\", \"kind\": \"", $kind,)?
            "\", \"event\": \"ignored\" }\n"
        )
    };
}

// The outcome of a trial that failed, with its seconds and its message if it has them.
macro_rules! failed {
    ($([$kind:literal])? $name:literal $(@ $seconds:literal)? $(, $message:literal)?) => {
        concat!(
            "{ \"type\": \"test\", \"name\": \"",
            $name,
            $("\", \"kind\": \"", $kind,)?
            "\", \"event\": \"failed\"",
            $(", \"exec_time\": ", $seconds,)?
            $(", \"stdout\": \"Error: \\\"", $message, "\\\"\\n\"",)?
            " }\n"
        )
    };
}

// The outcome of a benchmark, with its average and variance, and with its seconds if it has them.
macro_rules! measured {
    ($([$kind:literal])? $name:literal $(@ $seconds:literal)?, $average:literal, $variance:literal) => {
        concat!(
            "{ \"type\": \"bench\", \"name\": \"",
            $name,
            $("\", \"kind\": \"", $kind,)?
            "\", \"median\": ",
            $average,
            ", \"deviation\": ",
            $variance,
            $(", \"exec_time\": ", $seconds,)?
            " }\n"
        )
    };
}

// The summary: how many trials passed, failed, were ignored, were measured and were filtered out, and the seconds.
macro_rules! summary {
    ($event:literal, $passed:literal, $failed:literal, $ignored:literal, $measured:literal, $filtered:literal, $seconds:literal) => {
        concat!(
            "{ \"type\": \"suite\", \"event\": \"",
            $event,
            "\", \"passed\": ",
            $passed,
            ", \"failed\": ",
            $failed,
            ", \"ignored\": ",
            $ignored,
            ", \"measured\": ",
            $measured,
            ", \"filtered_out\": ",
            $filtered,
            ", \"exec_time\": ",
            $seconds,
            " }\n"
        )
    };
}

pub(super) use announced;
pub(super) use failed;
pub(super) use ignored;
pub(super) use measured;
pub(super) use passed;
pub(super) use summary;
pub(super) use title;

// Returns the lines as one text.
pub(super) fn text_of(alloc: Global, lines: &[&str]) -> Result<String, AllocError> {
    let mut text = String::new(alloc);
    for line in lines {
        text.push_str(line)?;
    }
    Ok(text)
}

// Returns what is read from the lines.
pub(super) fn read(alloc: Global, lines: &[&str]) -> Result<RowsRead, Fail> {
    let text = text_of(alloc, lines)?;
    Ok(read_rows(alloc, Slow::of(text.as_str()))?)
}

// Reports without a row. From the second one a trial was filtered out.
pub(super) const NONE: &[&str] = &[title!(0), summary!("ok", 0, 0, 0, 0, 0, "0")];

pub(super) const FILTERED: &[&str] = &[title!(0), summary!("ok", 0, 0, 0, 0, 1, "0")];

// A report of one trial, and one of two with the same name.
pub(super) const A_FAILED: &[&str] = &[
    title!(1),
    announced!("a"),
    failed!("a", "x"),
    summary!("failed", 0, 1, 0, 0, 0, "0"),
];

pub(super) const Y_AND_X: &[&str] = &[
    title!(2),
    announced!("a"),
    failed!("a", "y"),
    announced!("a"),
    failed!("a", "x"),
    summary!("failed", 0, 2, 0, 0, 0, "0"),
];

// A run with one thread that was killed after a failure, in the next trial.
pub(super) const KILLED: &[&str] = &[
    title!(3),
    announced!("a"),
    failed!("a", "x"),
    announced!(["k"] "b"),
];
