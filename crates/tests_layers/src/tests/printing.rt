//! The parts of a report one by one.
ghost use Rattle.std.specs.Prelude.{◌≡◌, IfOk, length};

use mimic_printer::{Printer, Sink, WriteFault};
use mimic_trial::{Failed, FormatSetting, Measurement, Outcome, TestInfo, Trial};
use std::alloc::{AllocError, Global};
use std::test::Fail;

fn info(alloc: Global, name: &str, kind: &str, is_ignored: bool) -> Result<TestInfo, AllocError> {
    Ok(TestInfo {
        name: String::from_str(alloc, name)?,
        kind: String::from_str(alloc, kind)?,
        is_ignored,
        is_bench: false,
    })
}

// The parts of a report over two infos, of which the second failed before the first, and a list of ignored trials.
fn parts_printed(
    alloc: Global,
    infos: &[TestInfo],
    outcomes: &[Outcome],
    tests: &[Trial<()>],
) -> Result<Vec<u8>, WriteFault>
    requires infos { length infos.now ≡ 2 }
    requires outcomes { length outcomes.now ≡ 2 }
{
    let printer = Printer::new(FormatSetting::Pretty, false, 3, 4);
    let mut sink = Sink::new(Vec::new(alloc));
    printer.print_title(&mut sink, 1)?;
    printer.print_test(&mut sink, &infos[0])?;
    printer.print_test(&mut sink, &infos[1])?;
    printer.print_failures(&mut sink, infos, &[1, 0], outcomes)?;
    Printer::write_list(tests, true, &mut sink)?;
    Ok(sink.into_inner())
}

static PARTS: &[u8] =
    b"\nrunning 1 test\ntest     a   ... test [k] bcd ... \nfailures:\n\n---- bcd ----\n\n---- a ----\n\n\nfailures:\n    bcd\n    a\nb: test\n";

fn failed() -> Outcome {
    Outcome::Failed(Failed::without_message())
}

// The infos of `a`, and of `bcd`, which has a kind.
fn two_infos(alloc: Global) -> Result<Vec<TestInfo>, AllocError>
    ensures { IfOk result (λ infos. length infos.items ≡ 2) }
{
    let mut infos = Vec::new(alloc);
    infos.push(info(alloc, "a", "", false)?)?;
    infos.push(info(alloc, "bcd", "k", false)?)?;
    Ok(infos)
}

// The trials `a`, and `b`, which is ignored.
fn two_trials(alloc: Global) -> Result<Vec<Trial<()>>, AllocError> {
    let mut tests = Vec::new(alloc);
    tests.push(Trial::from_parts(info(alloc, "a", "", false)?, ()))?;
    tests.push(Trial::from_parts(info(alloc, "b", "", true)?, ()))?;
    Ok(tests)
}

#[test]
fn prints_parts(rt: HostRuntime) -> Result<(), Fail> {
    let infos = two_infos(rt.alloc())?;
    let tests = two_trials(rt.alloc())?;
    let bytes = parts_printed(rt.alloc(), &infos, &[failed(), failed()], &tests)?;
    assert!(rt; bytes.as_slice() == PARTS);
    Ok(())
}

// An outcome in a format, with or without colour, printed.
fn outcome_printed(
    alloc: Global,
    format: FormatSetting,
    colour: bool,
    outcome: &Outcome,
) -> Result<Vec<u8>, Fail> {
    let info = info(alloc, "a", "", false)?;
    let mut sink = Sink::new(Vec::new(alloc));
    Printer::new(format, colour, 0, 0).print_single_outcome(&mut sink, &info, outcome)?;
    Ok(sink.into_inner())
}

// An outcome that is plain data.
#[derive(Clone, Copy, Debug)]
enum Plain {
    Passed,
    Ignored,
    // The average and the variance.
    Measured(u64, u64),
}

fn outcome_of(plain: Plain) -> Outcome {
    match plain {
        Plain::Passed => Outcome::Passed,
        Plain::Ignored => Outcome::Ignored,
        Plain::Measured(avg, variance) => Outcome::Measured(Measurement { avg, variance }),
    }
}

// What is printed of outcomes: the format, whether in colour, the outcome, and the text.
static PRINTED: [(FormatSetting, bool, Plain, &str); 8] = [
    (FormatSetting::Pretty, false, Plain::Ignored, "ignored\n"),
    (FormatSetting::Terse, false, Plain::Ignored, "i"),
    (
        FormatSetting::Terse,
        true,
        Plain::Ignored,
        "\x1b[33mi\x1b[0m",
    ),
    (
        FormatSetting::Terse,
        true,
        Plain::Passed,
        "\x1b[32m.\x1b[0m",
    ),
    (
        FormatSetting::Pretty,
        false,
        Plain::Measured(100_000_000, 0),
        "bench: 100,000,000 ns/iter (+/- 0)\n",
    ),
    (
        FormatSetting::Pretty,
        false,
        Plain::Measured(12_345_678_901, 1000),
        "bench: 12,345,678,901 ns/iter (+/- 1,000)\n",
    ),
    (
        FormatSetting::Pretty,
        false,
        Plain::Measured(1_234_567, 89),
        "bench:   1,234,567 ns/iter (+/- 89)\n",
    ),
    (
        FormatSetting::Terse,
        true,
        Plain::Measured(1_234_567, 89),
        "\x1b[36mbench\x1b[0m:   1,234,567 ns/iter (+/- 89)\n",
    ),
];

#[test]
fn prints_outcomes(rt: HostRuntime) -> Result<(), Fail> {
    for (format, colour, plain, want) in &PRINTED {
        let bytes = outcome_printed(rt.alloc(), *format, *colour, &outcome_of(*plain))?;
        assert!(rt; bytes.as_slice() == want.as_bytes(), "{plain:?}");
    }
    Ok(())
}

// The time of a trial, and what is printed of it in pretty, in seconds to the nearest thousandth, ties up.
static TIMES: [(u64, &str); 7] = [
    (0, "ok <0.000s>\n"),
    (499_999, "ok <0.000s>\n"),
    (500_000, "ok <0.001s>\n"),
    (5_499_999, "ok <0.005s>\n"),
    (350_000_000, "ok <0.350s>\n"),
    (59_999_500_000, "ok <60.000s>\n"),
    (u64::MAX, "ok <18446744073.710s>\n"),
];

// An outcome with a time in a format, with or without colour, printed after its announcement and in a row.
fn timed_printed(
    alloc: Global,
    format: FormatSetting,
    colour: bool,
    outcome: &Outcome,
    nanos: u64,
) -> Result<(Vec<u8>, Vec<u8>), Fail> {
    let info = info(alloc, "a", "", false)?;
    let printer = Printer::new(format, colour, 0, 0);
    let mut sink = Sink::new(Vec::new(alloc));
    printer.print_test(&mut sink, &info)?;
    printer.print_timed_outcome(&mut sink, &info, outcome, Some(nanos))?;
    let mut row = Sink::new(Vec::new(alloc));
    printer.print_timed_row(&mut row, &info, outcome, Some(nanos))?;
    Ok((sink.into_inner(), row.into_inner()))
}

#[test]
fn prints_rounded_times(rt: HostRuntime) -> Result<(), Fail> {
    for (nanos, want) in &TIMES {
        let (bytes, row) = timed_printed(
            rt.alloc(),
            FormatSetting::Pretty,
            false,
            &Outcome::Passed,
            *nanos,
        )?;
        assert!(rt;
            bytes.as_slice() == row.as_slice() && bytes.ends_with(want.as_bytes()),
            "{nanos}"
        );
    }
    Ok(())
}

// What is printed of outcomes that took 350 milliseconds: the format, whether in colour, the outcome, and the row.
static TIMED: [(FormatSetting, bool, Plain, &str); 8] = [
    (
        FormatSetting::Pretty,
        false,
        Plain::Passed,
        "test a ... ok <0.350s>\n",
    ),
    (
        FormatSetting::Pretty,
        true,
        Plain::Passed,
        "test a ... \x1b[32mok\x1b[0m <0.350s>\n",
    ),
    (
        FormatSetting::Pretty,
        false,
        Plain::Ignored,
        "test a ... ignored <0.350s>\n",
    ),
    (
        FormatSetting::Pretty,
        false,
        Plain::Measured(1_234_567, 89),
        "test a ... bench:   1,234,567 ns/iter (+/- 89) <0.350s>\n",
    ),
    (FormatSetting::Terse, false, Plain::Passed, "."),
    (
        FormatSetting::Terse,
        false,
        Plain::Measured(1_234_567, 89),
        "bench:   1,234,567 ns/iter (+/- 89)\n",
    ),
    (
        FormatSetting::Json,
        false,
        Plain::Passed,
        "{ \"type\": \"test\", \"event\": \"started\", \"name\": \"a\" }\n{ \"type\": \"test\", \"name\": \"a\", \"event\": \"ok\", \"exec_time\": 0.35 }\n",
    ),
    (
        FormatSetting::Json,
        false,
        Plain::Measured(7, 8),
        "{ \"type\": \"test\", \"event\": \"started\", \"name\": \"a\" }\n{ \"type\": \"bench\", \"name\": \"a\", \"median\": 7, \"deviation\": 8, \"exec_time\": 0.35 }\n",
    ),
];

#[test]
fn prints_times(rt: HostRuntime) -> Result<(), Fail> {
    for (format, colour, plain, want) in &TIMED {
        let (bytes, row) = timed_printed(
            rt.alloc(),
            *format,
            *colour,
            &outcome_of(*plain),
            350_000_000,
        )?;
        assert!(rt;
            bytes.as_slice() == row.as_slice() && bytes.as_slice() == want.as_bytes(),
            "{plain:?}"
        );
    }
    Ok(())
}

// A failure with a message: in JSON the time comes before the message.
#[test]
fn prints_the_time_of_a_failure(rt: HostRuntime) -> Result<(), Fail> {
    let alloc = rt.alloc();
    let failed = Outcome::Failed(Failed::with_message(String::from_str(alloc, "Woops")?));
    let (bytes, _) = timed_printed(alloc, FormatSetting::Json, false, &failed, 1)?;
    assert!(rt;
        bytes.ends_with(
            b"\"event\": \"failed\", \"exec_time\": 0.000000001, \"stdout\": \"Error: \\\"Woops\\\"\\n\" }\n"
        )
    );
    let (bytes, _) = timed_printed(alloc, FormatSetting::Pretty, false, &failed, 1_500_000_000)?;
    assert!(rt; bytes.ends_with(b"FAILED <1.500s>\n"));
    Ok(())
}
