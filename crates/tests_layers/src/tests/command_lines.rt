//! Command lines, as words after the program's name, and what they give. What is refused is as in the Rust crate, and
//! help has the same options in our own words.
ghost use Rattle.std.specs.Prelude.{◌<◌, IfOk, vec_len};

use super::shown::check_debug;
use mimic_args::{Arguments, ArgumentsError, ColorSetting, FormatSetting, Line, UnknownFormat};
use std::alloc::{AllocError, Global};
use std::test::Fail;

// Worked by hand: after two spaces, how an option is written, in as many columns as the longest and two more, and then
// what it does.
const HELP: &str = "Usage: harness [OPTIONS] [FILTER]...

Arguments:
  [FILTER]...  Run only tests whose full name, `[kind] name`, contains one of the FILTERs

Options:
      --include-ignored         Run ignored tests as well
      --ignored                 Run only ignored tests
      --test                    Run tests; benchmarks count as ignored
      --bench                   Run and measure benchmarks; tests count as ignored
      --list                    List tests and benchmarks, and run none
      --nocapture               Print output of tests at once (no effect: it is never held back)
      --show-output             Print output of tests that pass (no effect: it is never held back)
      --report-time             Show how long each test ran
      --exact                   Match each FILTER exactly, not as a part of a full name
  -q, --quiet                   Use the terse format
  -Z <FLAG>                     Unstable options (no effect) [possible values: unstable-options]
      --test-threads <THREADS>  Number of threads used for running tests in parallel
      --logfile <PATH>          Write the report to the file PATH
      --skip <FILTER>           Skip tests that match FILTER; may be given many times
      --color <WHEN>            When to use colours [possible values: auto, always, never]
      --format <FORMAT>         How to write the report [possible values: pretty, terse, json]
  -h, --help                    Print help
";

// One word for each option, and one for the filter.
static WORDS: [&str; 18] = [
    "--include-ignored",
    "--ignored",
    "--test",
    "--bench",
    "--list",
    "--nocapture",
    "--show-output",
    "--report-time",
    "--exact",
    "--quiet",
    "-q",
    "--format=terse",
    "--color=never",
    "-Zunstable-options",
    "--test-threads=2",
    "--logfile=log",
    "--skip=a",
    "b",
];

// Lines, and their arguments as `Debug` shows them.
static LINES_READ: [(&str, &str); 9] = [
    (
        "harness",
        "Arguments { include_ignored: false, ignored: false, test: false, bench: false, list: false, nocapture: false, show_output: false, report_time: false, unstable_flags: None, exact: false, quiet: false, test_threads: None, logfile: None, skip: [], color: None, format: None, filter: [] }",
    ),
    (
        "harness d --skip a --include-ignored --skip b -Z unstable-options --test-threads 3 --logfile=log --color never --format terse --bench c",
        r#"Arguments { include_ignored: true, ignored: false, test: false, bench: true, list: false, nocapture: false, show_output: false, report_time: false, unstable_flags: Some(UnstableOptions), exact: false, quiet: false, test_threads: Some(3), logfile: Some("log"), skip: ["a", "b"], color: Some(Never), format: Some(Terse), filter: ["d", "c"] }"#,
    ),
    (
        "harness -q --test --ignored --list --nocapture --show-output --report-time --exact",
        "Arguments { include_ignored: false, ignored: true, test: true, bench: false, list: true, nocapture: true, show_output: true, report_time: true, unstable_flags: None, exact: true, quiet: true, test_threads: None, logfile: None, skip: [], color: None, format: None, filter: [] }",
    ),
    (
        "harness --report-time",
        "Arguments { include_ignored: false, ignored: false, test: false, bench: false, list: false, nocapture: false, show_output: false, report_time: true, unstable_flags: None, exact: false, quiet: false, test_threads: None, logfile: None, skip: [], color: None, format: None, filter: [] }",
    ),
    (
        "harness --report-time --list --format json",
        "Arguments { include_ignored: false, ignored: false, test: false, bench: false, list: true, nocapture: false, show_output: false, report_time: true, unstable_flags: None, exact: false, quiet: false, test_threads: None, logfile: None, skip: [], color: None, format: Some(Json), filter: [] }",
    ),
    (
        "harness --color=auto --format pretty --test-threads 0",
        "Arguments { include_ignored: false, ignored: false, test: false, bench: false, list: false, nocapture: false, show_output: false, report_time: false, unstable_flags: None, exact: false, quiet: false, test_threads: Some(0), logfile: None, skip: [], color: Some(Auto), format: Some(Pretty), filter: [] }",
    ),
    (
        "harness --color=always --format json --test-threads 1",
        "Arguments { include_ignored: false, ignored: false, test: false, bench: false, list: false, nocapture: false, show_output: false, report_time: false, unstable_flags: None, exact: false, quiet: false, test_threads: Some(1), logfile: None, skip: [], color: Some(Always), format: Some(Json), filter: [] }",
    ),
    (
        "harness --test-threads +5",
        "Arguments { include_ignored: false, ignored: false, test: false, bench: false, list: false, nocapture: false, show_output: false, report_time: false, unstable_flags: None, exact: false, quiet: false, test_threads: Some(5), logfile: None, skip: [], color: None, format: None, filter: [] }",
    ),
    (
        "harness --test-threads 18446744073709551615 -Zunstable-options --skip=-x",
        r#"Arguments { include_ignored: false, ignored: false, test: false, bench: false, list: false, nocapture: false, show_output: false, report_time: false, unstable_flags: Some(UnstableOptions), exact: false, quiet: false, test_threads: Some(18446744073709551615), logfile: None, skip: ["-x"], color: None, format: None, filter: [] }"#,
    ),
];

// The words of a line, of which there is at least one.
fn words_of(alloc: Global, line: &'static str) -> Result<Vec<&'static str>, AllocError>
    ensures { IfOk result (λ words. 0 < vec_len words) }
{
    line.split(' ').collect(alloc)
}

// The arguments of a line: a copy of what is read from its words.
fn copy_of_line(alloc: Global, line: &'static str) -> Result<Arguments, Fail> {
    let words = words_of(alloc, line)?;
    let args = Arguments::from_iter(alloc, words.as_slice())?;
    Ok(args.try_clone(alloc)?)
}

// The same from the matches of a line.
fn of_matches(alloc: Global, line: &'static str) -> Result<Arguments, Fail> {
    let words = words_of(alloc, line)?;
    let matches = Arguments::command(alloc)?.try_get_matches_from(words.as_slice())?;
    Ok(Arguments::from_matches(alloc, &matches)?)
}

// A line gives its arguments, and so do its matches and a copy.
#[test]
fn reads_lines(rt: HostRuntime) -> Result<(), Fail> {
    for (line, text) in &LINES_READ {
        check_debug(&rt, rt.alloc(), &of_matches(rt.alloc(), line)?, text)?;
        check_debug(&rt, rt.alloc(), &copy_of_line(rt.alloc(), line)?, text)?;
    }
    Ok(())
}

static FORMATS: [(&str, FormatSetting); 3] = [
    ("pretty", FormatSetting::Pretty),
    ("terse", FormatSetting::Terse),
    ("json", FormatSetting::Json),
];

#[test]
fn names_formats(rt: HostRuntime) {
    for (name, format) in &FORMATS {
        assert!(rt; name.parse::<FormatSetting>() == Ok(*format));
        assert!(rt; format.name() == *name);
    }
    assert!(rt; "JSON".parse::<FormatSetting>() == Err(UnknownFormat));
}

// What comes of a line: `taken`, `help` if its whole text is printed, and else the first line of the refusal.
fn answer_of(read: &Result<Arguments, ArgumentsError>) -> &str {
    match read {
        Ok(_) => "taken",
        Err(ArgumentsError::Help(text)) if text.as_str() == HELP => "help",
        Err(ArgumentsError::Refused(text)) => text.as_str().lines().next().unwrap_or("empty"),
        Err(_) => "other",
    }
}

// Lines, and what comes of them. The texts are those of the Rust crate `clap`.
const LINES_REFUSED: &str = "\
harness --nope => error: unexpected argument '--nope' found
harness --lis => error: unexpected argument '--lis' found
harness -V => error: unexpected argument '-V' found
harness -qx => error: unexpected argument '-x' found
harness -Z => error: a value is required for '-Z <FLAG>' but none was supplied
harness --test-threads => error: a value is required for '--test-threads <THREADS>' but none was supplied
harness --logfile -q => error: a value is required for '--logfile <PATH>' but none was supplied
harness --skip => error: a value is required for '--skip <FILTER>' but none was supplied
harness --color => error: a value is required for '--color <WHEN>' but none was supplied
harness --format --help => error: a value is required for '--format <FORMAT>' but none was supplied
harness -Zunstable-options -Zunstable-options => error: the argument '-Z <FLAG>' cannot be used multiple times
harness --test-threads=2 --test-threads=2 => error: the argument '--test-threads <THREADS>' cannot be used multiple times
harness --logfile=a --logfile=b => error: the argument '--logfile <PATH>' cannot be used multiple times
harness --skip=a --skip=a => taken
harness --color=auto --color=never => error: the argument '--color <WHEN>' cannot be used multiple times
harness --format=pretty --format=json => error: the argument '--format <FORMAT>' cannot be used multiple times
harness --list --list => error: the argument '--list' cannot be used multiple times
harness --report-time --report-time => error: the argument '--report-time' cannot be used multiple times
harness -qq => error: the argument '--quiet' cannot be used multiple times
harness -Z= => error: a value is required for '-Z <FLAG>' but none was supplied
harness --test-threads= => error: invalid value '' for '--test-threads <THREADS>': cannot parse integer from empty string
harness --logfile= => taken
harness --skip= => taken
harness --color= => error: a value is required for '--color <WHEN>' but none was supplied
harness --format= => error: a value is required for '--format <FORMAT>' but none was supplied
harness -Z other => error: invalid value 'other' for '-Z <FLAG>'
harness --test-threads=x => error: invalid value 'x' for '--test-threads <THREADS>': invalid digit found in string
harness --test-threads=-1 => error: invalid value '-1' for '--test-threads <THREADS>': invalid digit found in string
harness --test-threads -1 => error: unexpected argument '-1' found
harness --test-threads=18446744073709551616 => error: invalid value '18446744073709551616' for '--test-threads <THREADS>': number too large to fit in target type
harness --skip -x => error: unexpected argument '-x' found
harness --color=Auto => error: invalid value 'Auto' for '--color <WHEN>'
harness --format=xml => error: invalid value 'xml' for '--format <FORMAT>'
harness --list=true => error: unexpected value 'true' for '--list' found; no more were expected
harness --report-time=x => error: unexpected value 'x' for '--report-time' found; no more were expected
harness --report-time x => taken
harness --test --bench => error: the argument '--test' cannot be used with '--bench'
harness --bench a --test => error: the argument '--bench' cannot be used with '--test'
harness -q --format json => error: the argument '--quiet' cannot be used with '--format <FORMAT>'
harness --format=json --quiet => error: the argument '--format <FORMAT>' cannot be used with '--quiet'
harness --test --bench --nope => error: unexpected argument '--nope' found
harness -h => help
harness -h --test --bench => help
harness --test --bench --help => help
harness --help --format=json -q => help
harness --quiet --format=json -h => help
harness --help --nope => help
harness --nope --help => error: unexpected argument '--nope' found
harness --test -- --bench => taken
harness --test --bench -- a => error: the argument '--test' cannot be used with '--bench'
harness -- --nope => taken
harness a b c d => taken";

#[test]
fn refuses_lines(rt: HostRuntime) -> Result<(), Fail> {
    for row in LINES_REFUSED.lines() {
        let (line, answer) = row.split_once(" => ").unwrap_or((row, ""));
        let words = words_of(rt.alloc(), line)?;
        let read = Arguments::from_iter(rt.alloc(), words.as_slice());
        assert!(rt; answer_of(&read) == answer, "{row}");
    }
    Ok(())
}

// Whether a line may not use the first word before the second.
fn is_refused(first: &str, second: &str) -> bool {
    match (first, second) {
        ("--skip=a", "--skip=a") | ("b", "b") => false,
        ("--test", "--bench") | ("--bench", "--test") => true,
        ("--quiet" | "-q" | "--format=terse", "--quiet" | "-q" | "--format=terse") => true,
        _ => first == second,
    }
}

// Whether a line of these words is refused, or taken, as it may be.
fn is_answered_well(alloc: Global, first: &str, second: &str) -> bool {
    match answer_of(&Arguments::from_iter(alloc, &["harness", first, second])) {
        "taken" => !is_refused(first, second),
        answer => answer.starts_with("error: ") && is_refused(first, second),
    }
}

#[test]
fn takes_all_pairs_but_those_excluded(rt: HostRuntime) {
    for first in &WORDS {
        for second in &WORDS {
            assert!(rt;
                is_answered_well(rt.alloc(), first, second),
                "{first} {second}"
            );
        }
    }
}

// The setting, whether the caller says so, whether there is a logfile, and whether a report has colours.
static COLOURS: [(Option<ColorSetting>, bool, bool, bool); 4] = [
    (Some(ColorSetting::Always), false, true, true),
    (Some(ColorSetting::Auto), true, true, false),
    (None, true, false, true),
    (Some(ColorSetting::Never), true, false, false),
];

#[test]
fn settles_colours(rt: HostRuntime) -> Result<(), Fail> {
    let alloc = rt.alloc();
    for (color, auto, has_logfile, want) in &COLOURS {
        let mut args = Arguments::new(alloc);
        args.color = *color;
        if *has_logfile {
            args.logfile = Some(String::from_str(alloc, "log")?);
        }
        assert!(rt; args.colours(*auto) == *want);
    }
    assert!(rt; ColorSetting::default() == ColorSetting::Auto);
    Ok(())
}

#[test]
fn settles_the_format(rt: HostRuntime) {
    assert!(rt; FormatSetting::default() == FormatSetting::Pretty);
    let mut args = Arguments::new(rt.alloc());
    assert!(rt; args.format_used() == FormatSetting::Pretty);
    args.quiet = true;
    assert!(rt; args.format_used() == FormatSetting::Terse);
}

// Lines, and the words of their own and the filter that they give, if their options were read.
static LINES: [(&str, &str); 7] = [
    ("program", "[] "),
    ("program a b", "[\"a\", \"b\"] "),
    ("program a --", "[\"a\"] "),
    ("program a -- b", "[\"a\"] b"),
    ("program -- b", "[] b"),
    ("program a -- -- --list", "[\"a\"] --list"),
    ("program --list -- --nope", "[\"--list\"] refused"),
];

fn line_of(alloc: Global, text: &'static str) -> Result<Line, Fail> {
    let words = words_of(alloc, text)?;
    Ok(Line::from_iter(alloc, words.as_slice())?)
}

// The filter that a line's options give, or that they were refused.
fn filter_of(line: &Line) -> &str {
    match &line.options {
        Ok(args) => args.filter.first().map_or("", String::as_str),
        Err(_) => "refused",
    }
}

// What a line gives, as the table shows it.
fn shown(alloc: Global, line: &Line) -> Result<String, AllocError> {
    let filter = filter_of(line);
    Ok(format!(in alloc; "{:?} {filter}", line.own)?)
}

#[test]
fn reads_words_of_its_own(rt: HostRuntime) -> Result<(), Fail> {
    for (text, expected) in &LINES {
        let line = line_of(rt.alloc(), text)?;
        let shown = shown(rt.alloc(), &line)?;
        assert!(rt; shown.as_str() == *expected, "{shown}");
    }
    Ok(())
}

const USAGE: &str = "usage: program FILE..\n";

// How the usage of the harness begins, which shows where its options are.
const HARNESS_USAGE: &str = "\n\nUsage: program .. -- ";

// What a program of one or two operands makes of a line.
#[derive(Clone, Copy, Debug, PartialEq, Eq)]
enum Took<'a> {
    // The number of operands, and whether a list is asked.
    Operands(usize, bool),
    Help,
    // For this reason.
    Refused(&'a str),
    // By its options: the usage is that of the harness.
    Options,
}

// Lines, and what a program that takes one or two operands makes of them.
static OPERANDS: [(&str, Took<'static>); 13] = [
    (
        "program",
        Took::Refused("too few arguments: 0 of at least 1"),
    ),
    ("program a", Took::Operands(1, false)),
    ("program a b -- --list", Took::Operands(2, true)),
    (
        "program a b c",
        Took::Refused("too many arguments: 3 of at most 2"),
    ),
    (
        "program a --list",
        Took::Refused("unexpected argument '--list' before '--'"),
    ),
    ("program --help", Took::Help),
    ("program -h", Took::Help),
    ("program a --help b c -- --list", Took::Help),
    ("program --help -x", Took::Help),
    (
        "program -x --help",
        Took::Refused("unexpected argument '-x' before '--'"),
    ),
    (
        "program -",
        Took::Refused("unexpected argument '-' before '--'"),
    ),
    ("program a -- --nope", Took::Options),
    ("program --help -- --nope", Took::Options),
];

// What a refusal of a line is. `None` is one for want of memory.
fn refusal_of(error: &ArgumentsError) -> Option<Took<'_>> {
    match error {
        ArgumentsError::Help(text) if text.as_str() == USAGE => Some(Took::Help),
        ArgumentsError::Refused(text) if text.contains(HARNESS_USAGE) => Some(Took::Options),
        ArgumentsError::Refused(text) => Some(Took::Refused(reason_in(text.as_str())?)),
        _ => None,
    }
}

// The reason in the text of a refusal, which the usage follows.
fn reason_in(text: &str) -> Option<&str> {
    text.strip_prefix("error: ")?
        .strip_suffix(USAGE)?
        .strip_suffix("\n\n")
}

// Whether a program of one or two operands makes this of the line.
fn is_taken_as(alloc: Global, line: Line, expected: Took<'static>) -> bool {
    match &line.into_operands(alloc, 1..=2, USAGE) {
        Ok((args, operands)) => expected == Took::Operands(operands.len(), args.list),
        Err(error) => refusal_of(error) == Some(expected),
    }
}

#[test]
fn takes_operands(rt: HostRuntime) -> Result<(), Fail> {
    for (text, expected) in &OPERANDS {
        let line = line_of(rt.alloc(), text)?;
        assert!(rt; is_taken_as(rt.alloc(), line, *expected), "{text}");
    }
    Ok(())
}
