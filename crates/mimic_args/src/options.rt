//! The options of a harness, as they are declared to `clap`.
ghost use Rattle.std.specs.Prelude.{◌≡◌, ◌++◌, ◌∷◌, [], false, IfOk, Some, codes, map};
ghost use Rattle.clap.specs.Walk.{texts};
ghost use Rattle.mimic_args.specs.CommandLine.{AddsLocal, AreReaders, ReadsOnly, alone, colour_rule, declared_of, excluding, filter_rule, flag_rule, format_rule, named_flag, option_rule, quiet_rule, read_by, skip_rule, test_rule, threads_rule, unstable_rule, valued};
ghost use Rattle.clap.specs.declared.builder.value_parser.ValueParser.{ValueParser};
ghost use Rattle.mimic_args.specs.Matched.{colour_name, colours, unstable_name, unstables};
ghost use Rattle.mimic_trial.specs.Formats.{format_name, formats};

use clap::{Arg, ArgAction, value_parser};
use std::alloc::{AllocError, Global};

static COLOURS: [&str; 3] = ["auto", "always", "never"];

static FORMATS: [&str; 3] = ["pretty", "terse", "json"];

static UNSTABLE: [&str; 1] = ["unstable-options"];

// The flags before `--test`, and those between it and `--quiet`: their names, and what help says of them.
pub(super) static IGNORED_FLAGS: [(&str, &str); 2] = [
    ("include-ignored", "Run ignored tests as well"),
    ("ignored", "Run only ignored tests"),
];

pub(super) static OTHER_FLAGS: [(&str, &str); 6] = [
    (
        "bench",
        "Run and measure benchmarks; tests count as ignored",
    ),
    ("list", "List tests and benchmarks, and run none"),
    (
        "nocapture",
        "Print output of tests at once (no effect: it is never held back)",
    ),
    (
        "show-output",
        "Print output of tests that pass (no effect: it is never held back)",
    ),
    ("report-time", "Show how long each test ran"),
    (
        "exact",
        "Match each FILTER exactly, not as a part of a full name",
    ),
];

// Adds a flag for each of these names, and then the last one.
pub(super) fn add_flags<'a>(
    alloc: Global,
    args: &mut Vec<Arg<'a>>,
    named: &[(&'a str, &'a str)],
    last: Arg<'a>,
) -> Result<(), AllocError>
    requires { last.global ≡ false }
    ensures { IfOk result (λ _. AddsLocal args.old.items
        (map named_flag named.now ++ declared_of last.entry ∷ []) args.new.items) }
{
    for (name, help) in named {
        add(args, flag(alloc, name, help))?;
    }
    add(args, last)
}

// Adds the options that have values, and the filters.
pub(super) fn add_valued<'a>(alloc: Global, args: &mut Vec<Arg<'a>>) -> Result<(), AllocError>
    ensures { IfOk result (λ _. (u : ValueParser) × (c : ValueParser) × (f : ValueParser)
        × AreReaders u c f × AddsLocal args.old.items (valued u c f) args.new.items) }
{
    add(args, unstable(alloc))?;
    add(args, test_threads(alloc))?;
    add(args, logfile(alloc))?;
    add(args, skip(alloc))?;
    add(args, colour(alloc))?;
    add(args, format(alloc))?;
    add(args, filter(alloc))
}

// Adds an argument. `push` returns the argument if there is no memory, and inlined, each call would have a place for that on the
// stack of who adds them all.
#[inline(never)]
fn add<'a>(args: &mut Vec<Arg<'a>>, arg: Arg<'a>) -> Result<(), AllocError>
    ensures { IfOk result (λ _. args.new.items ≡ args.old.items ++ arg.entry ∷ []) }
{
    args.push(arg)?;
    Ok(())
}

// Forbids a line to use the argument together with the other one.
pub(super) fn excluded<'a>(arg: Arg<'a>, other: &'a str) -> Result<Arg<'a>, AllocError>
    ensures declared { IfOk result
        (λ r. declared_of r ≡ excluding (declared_of arg.entry) other.entry.now) }
    ensures local { IfOk result (λ r. r.global ≡ arg.entry.global) }
{
    arg.conflicts_with(other)
}

// Each call of `clap` moves the argument that it adds to. If the functions that make arguments were inlined, the stack of who
// declares them all would have a place for each of these copies, some 65 KB.
#[inline(never)]
fn flag<'a>(alloc: Global, name: &'a str, help: &'a str) -> Arg<'a>
    ensures declared { declared_of result ≡ alone (flag_rule name.entry.now) }
    ensures local { result.global ≡ false }
{
    Arg::new(alloc, name)
        .long(name)
        .help(help)
        .action(ArgAction::SetTrue)
}

fn option<'a>(alloc: Global, name: &'a str, value: &'a str, help: &'a str) -> Arg<'a>
    ensures declared { declared_of result ≡ alone (option_rule name.entry.now) }
    ensures local { result.global ≡ false }
{
    Arg::new(alloc, name)
        .long(name)
        .value_name(value)
        .help(help)
}

pub(super) fn test<'a>(alloc: Global) -> Arg<'a>
    ensures declared { declared_of result ≡ alone test_rule }
    ensures local { result.global ≡ false }
{
    flag(alloc, "test", "Run tests; benchmarks count as ignored")
}

pub(super) fn quiet<'a>(alloc: Global) -> Arg<'a>
    ensures declared { declared_of result ≡ alone quiet_rule }
    ensures local { result.global ≡ false }
{
    flag(alloc, "quiet", "Use the terse format").short('q')
}

#[inline(never)]
fn unstable<'a>(alloc: Global) -> Arg<'a>
    ensures declared { ReadsOnly (map unstable_name unstables) (alone unstable_rule)
        (declared_of result) }
    ensures local { result.global ≡ false }
{
    let arg = Arg::new(alloc, "unstable").short('Z').value_name("FLAG");
    let help = "Unstable options (no effect)";
    one_of(arg.help(help), UNSTABLE.as_slice())
}

#[inline(never)]
fn test_threads<'a>(alloc: Global) -> Arg<'a>
    ensures declared { declared_of result ≡ alone threads_rule }
    ensures local { result.global ≡ false }
{
    let help = "Number of threads used for running tests in parallel";
    let arg = option(alloc, "test-threads", "THREADS", help);
    arg.value_parser(value_parser!(usize))
}

#[inline(never)]
fn logfile<'a>(alloc: Global) -> Arg<'a>
    ensures declared { declared_of result ≡ alone (option_rule (codes "logfile")) }
    ensures local { result.global ≡ false }
{
    let help = "Write the report to the file PATH";
    option(alloc, "logfile", "PATH", help)
}

#[inline(never)]
fn skip<'a>(alloc: Global) -> Arg<'a>
    ensures declared { declared_of result ≡ alone skip_rule }
    ensures local { result.global ≡ false }
{
    let help = "Skip tests that match FILTER; may be given many times";
    option(alloc, "skip", "FILTER", help).action(ArgAction::Append)
}

#[inline(never)]
fn colour<'a>(alloc: Global) -> Arg<'a>
    ensures declared { ReadsOnly (map colour_name colours) (alone colour_rule)
        (declared_of result) }
    ensures local { result.global ≡ false }
{
    let help = "When to use colours";
    one_of(option(alloc, "color", "WHEN", help), COLOURS.as_slice())
}

#[inline(never)]
fn format<'a>(alloc: Global) -> Arg<'a>
    ensures declared { ReadsOnly (map format_name formats) (alone format_rule)
        (declared_of result) }
    ensures local { result.global ≡ false }
{
    let help = "How to write the report";
    one_of(option(alloc, "format", "FORMAT", help), FORMATS.as_slice())
}

#[inline(never)]
fn filter<'a>(alloc: Global) -> Arg<'a>
    ensures declared { declared_of result ≡ alone filter_rule }
    ensures local { result.global ≡ false }
{
    let help = "Run only tests whose full name, `[kind] name`, contains one of the FILTERs";
    let arg = Arg::new(alloc, "filter").value_name("FILTER").help(help);
    arg.action(ArgAction::Append)
}

// Makes the argument take only these names as its value.
fn one_of<'a>(arg: Arg<'a>, names: &'a [&'a str]) -> Arg<'a>
    ensures declared { ReadsOnly (texts names.entry.now) (declared_of arg.entry)
        (declared_of result) }
    ensures local { result.global ≡ arg.entry.global }
{
    arg.value_parser(names)
}
