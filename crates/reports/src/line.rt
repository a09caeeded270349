//! What a command line asks for.
use crate::by_name::in_order;
use crate::input::{STANDARD, name_of};
use clap::error::ErrorKind;
use clap::{Arg, ArgAction, ArgMatches, Command, value_parser};
use mimic_expect::{ExpectOptions, Lines};
use std::alloc::{AllocError, Global};
use std::{env, io};
use thiserror::Error;

// What `--color` takes.
static COLOURS: [&str; 3] = ["auto", "always", "never"];

// What `--root` takes.
static ROOTS: [&str; 2] = ["testsuites", "testsuite"];

// The factor of `--slower` if the line doesn't say it.
const SLOWER: &str = "1.25";

// How many of the slowest trials are printed if the line doesn't say it.
const SLOWEST: &str = "20";

/// The reports in these files are to be joined, as those of `shards` shards.
#[derive(Debug, Drop)]
pub(crate) struct Join {
    pub(crate) shards: usize,
    pub(crate) equal_names: bool,
    /// Whether what can be read is joined if reports are cut, unreadable or absent.
    pub(crate) cut: bool,
    /// Whether the files were put in the order of the numbers in their names.
    pub(crate) by_name: bool,
    pub(crate) files: Vec<String>,
}

/// The reports in these files are to be printed as JUnit's XML.
#[derive(Debug, Drop)]
pub(crate) struct Junit {
    /// The name of their program. With `None`, there is one report, and it gets the name of its file.
    pub(crate) name: Option<String>,
    /// Whether the status says that a trial failed.
    pub(crate) shows_failures: bool,
    pub(crate) root: Root,
    pub(crate) files: Vec<String>,
}

/// The root of a document of JUnit's XML.
#[derive(Clone, Copy, Debug, PartialEq, Eq)]
pub(crate) enum Root {
    /// An element that has those of all reports.
    Testsuites,
    /// The element of the one report that there is.
    Testsuite,
}

/// When a report has colours.
#[derive(Clone, Copy, Debug)]
pub(crate) enum Colours {
    /// If standard output shows colours, as for a report of the harness.
    Auto,
    Always,
    Never,
}

/// The report in this file, or only its failures, is to be printed as the harness prints it.
#[derive(Debug, Drop)]
pub(crate) struct Show {
    pub(crate) only_failed: bool,
    pub(crate) colours: Colours,
    pub(crate) file: String,
}

/// The reports in these files are to be compared with the known failures in a file.
#[derive(Debug, Drop)]
pub(crate) struct Expect {
    /// How they are compared, and how what is found is printed.
    pub(crate) options: ExpectOptions,
    /// Whether the file is to be brought up to date. It isn't standard input then.
    pub(crate) updates: bool,
    pub(crate) known: String,
    pub(crate) files: Vec<String>,
}

/// The failures of the reports in these files are to be printed as known ones.
#[derive(Debug, Drop)]
pub(crate) struct Known {
    pub(crate) files: Vec<String>,
}

/// The reports in these two files are to be compared.
#[derive(Debug, Drop)]
pub(crate) struct Compare {
    /// The factor by which a time is slower or faster than before, in hundredths.
    pub(crate) slower: u64,
    /// Whether kinds and names are listed that were not run in one report.
    pub(crate) lists_not_run: bool,
    pub(crate) old: String,
    pub(crate) new: String,
}

/// The report in this file is to be printed as a page of HTML.
#[derive(Debug, Drop)]
pub(crate) struct Page {
    /// What is in its heading. With `None`, it is the name of the file.
    pub(crate) title: Option<String>,
    /// What is below its heading.
    pub(crate) notes: Vec<String>,
    /// How many rows of trials that did not fail are listed at most.
    pub(crate) most: u64,
    pub(crate) file: String,
}

/// The slowest trials of the reports in these files are to be printed.
#[derive(Debug, Drop)]
pub(crate) struct Slowest {
    /// How many are printed at most.
    pub(crate) count: usize,
    pub(crate) files: Vec<String>,
}

/// The report on standard input is to be shown as it comes.
#[derive(Clone, Copy, Debug)]
pub(crate) struct Watch {
    /// How many columns a line of how far the run is has at most, if the line says it.
    pub(crate) columns: Option<usize>,
}

/// What a line asks for.
#[derive(Debug, Drop)]
pub(crate) enum Line {
    Join(Join),
    Junit(Junit),
    Show(Show),
    Expect(Expect),
    Known(Known),
    Compare(Compare),
    Page(Page),
    Slowest(Slowest),
    Watch(Watch),
}

/// Why a line asks for nothing.
#[derive(Debug, Drop, Error)]
pub(crate) enum LineError {
    #[error("out of memory")]
    OutOfMemory(#[from(alloc)] AllocError),
    /// The words could not be read.
    #[error("cannot read the arguments: {0}")]
    Unread(io::Error),
    /// Standard input is named twice.
    #[error("standard input can be read once only")]
    TwoInputs,
    /// The files may be those of shards, so their names say no program.
    #[error("junit of several files, or of one whose name is a number, needs --name PROGRAM")]
    NoName,
    /// One report is to be the root of a document, and there are several.
    #[error("junit --root testsuite takes one FILE")]
    ManyFiles,
    /// Two files are to be ordered whose names have the same numbers, or none.
    #[error("--by-name can't order {first} and {second}, whose names have the same numbers or none")]
    SameNumbers { first: String, second: String },
    /// Standard input is to be ordered by a name.
    #[error("--by-name can't order standard input, which has no name")]
    NamelessInput,
    /// Standard input is to be brought up to date.
    #[error("expect --update can't write standard input, so KNOWN must be a file")]
    InputUpdated,
    /// No subcommand is named that is read here.
    #[error("no subcommand")]
    NoSubcommand,
    /// Help was asked for, or `clap` refused the line.
    #[error("{0}")]
    Shown(clap::Error),
}

impl Line {
    /// Reads the program's line.
    pub(crate) fn from_args(rt: &HostRuntime, alloc: Global) -> Result<Line, LineError> {
        let words: Vec<String> = env::args(rt).map_err(LineError::Unread)?.collect(alloc)?;
        let matches = command(alloc)?
            .try_get_matches_from(words.as_slice())
            .map_err(LineError::Shown)?;
        Line::from_matches(alloc, &matches)
    }

    fn from_matches(alloc: Global, matches: &ArgMatches<'_>) -> Result<Line, LineError> {
        Ok(match matches.subcommand() {
            Some(("join", join)) => Line::Join(Join::from_matches(alloc, join)?),
            Some(("junit", junit)) => Line::Junit(Junit::from_matches(alloc, junit)?),
            Some(("show", show)) => Line::Show(Show::from_matches(alloc, show)?),
            Some(("expect", expect)) => Line::Expect(Expect::from_matches(alloc, expect)?),
            Some(("known", known)) => Line::Known(Known {
                files: files_of(alloc, known)?,
            }),
            Some(("compare", compare)) => Line::Compare(Compare::from_matches(alloc, compare)?),
            Some(("page", page)) => Line::Page(Page::from_matches(alloc, page)?),
            Some(("slowest", slowest)) => Line::Slowest(Slowest::from_matches(alloc, slowest)?),
            Some(("watch", watch)) => Line::Watch(Watch {
                columns: watch.get_one::<usize>("columns"),
            }),
            // `clap` has refused a line with no subcommand or with another one.
            _ => return Err(LineError::NoSubcommand),
        })
    }
}

impl Join {
    fn from_matches(alloc: Global, matches: &ArgMatches<'_>) -> Result<Join, LineError> {
        let by_name = matches.get_flag("by-name");
        let files = files_of(alloc, matches)?;
        Ok(Join {
            // `--shards` is required.
            shards: matches.get_one::<usize>("shards").unwrap_or(0),
            equal_names: matches.get_flag("equal-names"),
            cut: matches.get_flag("cut"),
            by_name,
            files: if by_name {
                in_order(alloc, files)?
            } else {
                files
            },
        })
    }
}

impl Junit {
    fn from_matches(alloc: Global, matches: &ArgMatches<'_>) -> Result<Junit, LineError> {
        let name = matches
            .get_str("name")
            .map(|name| String::from_str(alloc, name))
            .transpose()?;
        let root = match matches.get_str("root") {
            Some("testsuite") => Root::Testsuite,
            _ => Root::Testsuites,
        };
        let files = files_of(alloc, matches)?;
        if root == Root::Testsuite && files.len() > 1 {
            return Err(LineError::ManyFiles);
        }
        if name.is_none() && !is_of_program(&files) {
            return Err(LineError::NoName);
        }
        Ok(Junit {
            name,
            shows_failures: matches.get_flag("status"),
            root,
            files,
        })
    }
}

impl Show {
    fn from_matches(alloc: Global, matches: &ArgMatches<'_>) -> Result<Show, LineError> {
        Ok(Show {
            only_failed: matches.get_flag("failed"),
            colours: match matches.get_str("color") {
                Some("always") => Colours::Always,
                Some("never") => Colours::Never,
                _ => Colours::Auto,
            },
            // `FILE` is required.
            file: String::from_str(alloc, matches.get_str("FILE").unwrap_or(STANDARD))?,
        })
    }
}

impl Expect {
    fn from_matches(alloc: Global, matches: &ArgMatches<'_>) -> Result<Expect, LineError> {
        let known = matches.get_str("KNOWN").unwrap_or(STANDARD);
        let files = files_of(alloc, matches)?;
        let updates = matches.get_flag("update");
        if known == STANDARD && updates {
            return Err(LineError::InputUpdated);
        }
        if known == STANDARD && files.iter().any(|file| file.as_str() == STANDARD) {
            return Err(LineError::TwoInputs);
        }
        Ok(Expect {
            options: ExpectOptions {
                lax: matches.get_flag("lax"),
                lines: if matches.get_flag("lines") {
                    Lines::Json
                } else {
                    Lines::Readable
                },
            },
            updates,
            // `KNOWN` is required.
            known: String::from_str(alloc, known)?,
            files,
        })
    }
}

impl Compare {
    fn from_matches(alloc: Global, matches: &ArgMatches<'_>) -> Result<Compare, LineError> {
        // Both are required.
        let old = matches.get_str("OLD").unwrap_or(STANDARD);
        let new = matches.get_str("NEW").unwrap_or(STANDARD);
        if old == STANDARD && new == STANDARD {
            return Err(LineError::TwoInputs);
        }
        // `--slower` has a default.
        let factor = matches.get_str("slower").unwrap_or(SLOWER);
        let Some(slower) = hundredths_of(factor) else {
            return Err(LineError::Shown(wrong_factor(alloc, factor)?));
        };
        Ok(Compare {
            slower,
            lists_not_run: matches.get_flag("missing"),
            old: String::from_str(alloc, old)?,
            new: String::from_str(alloc, new)?,
        })
    }
}

impl Page {
    fn from_matches(alloc: Global, matches: &ArgMatches<'_>) -> Result<Page, LineError> {
        let title = matches
            .get_str("title")
            .map(|title| String::from_str(alloc, title))
            .transpose()?;
        let mut notes = Vec::new(alloc);
        for note in matches.get_strs("note").unwrap_or(&[]) {
            notes.push(String::from_str(alloc, note)?)?;
        }
        Ok(Page {
            title,
            notes,
            most: if matches.get_flag("failed") {
                0
            } else {
                matches.get_one::<u64>("rows").unwrap_or(u64::MAX)
            },
            // `FILE` is required.
            file: String::from_str(alloc, matches.get_str("FILE").unwrap_or(STANDARD))?,
        })
    }
}

impl Slowest {
    fn from_matches(alloc: Global, matches: &ArgMatches<'_>) -> Result<Slowest, LineError> {
        Ok(Slowest {
            // `-n` has a default.
            count: matches.get_one::<usize>("count").unwrap_or(0),
            files: files_of(alloc, matches)?,
        })
    }
}

// Returns the factor in hundredths. `None` if it is no number of at least 1 with at most two decimals, or if it is too great.
fn hundredths_of(factor: &str) -> Option<u64> {
    let (whole, decimals) = match factor.split_once('.') {
        Some((whole, decimals)) => (whole, decimals_of(decimals)?),
        None => (factor, 0),
    };
    if !whole.bytes().all(|byte| byte.is_ascii_digit()) {
        return None;
    }
    let hundredths = whole
        .parse::<u64>()
        .ok()?
        .checked_mul(100)?
        .checked_add(decimals)?;
    if hundredths < 100 {
        return None;
    }
    Some(hundredths)
}

// Returns one or two decimals in hundredths.
fn decimals_of(decimals: &str) -> Option<u64> {
    match decimals.as_bytes() {
        [tenths @ b'0'..=b'9'] => Some(u64::from(*tenths - b'0') * 10),
        [tenths @ b'0'..=b'9', hundredths @ b'0'..=b'9'] => {
            Some(u64::from(*tenths - b'0') * 10 + u64::from(*hundredths - b'0'))
        }
        _ => None,
    }
}

// Returns the error of a line whose factor is none.
fn wrong_factor(alloc: Global, factor: &str) -> Result<clap::Error, AllocError> {
    let message = format!(in alloc;
        "invalid value '{factor}' for '--slower <FACTOR>': a factor is a number of at least 1 with at most two decimals"
    )?;
    command(alloc)?.error(ErrorKind::ValueValidation, message.as_str())
}

// Returns the names of the files. At most one of them is standard input.
fn files_of(alloc: Global, matches: &ArgMatches<'_>) -> Result<Vec<String>, LineError> {
    let mut files = Vec::new(alloc);
    let mut inputs = 0_u64;
    for file in matches.get_strs("FILE").unwrap_or(&[]) {
        if *file == STANDARD {
            inputs = inputs.saturating_add(1);
        }
        files.push(String::from_str(alloc, file)?)?;
    }
    if inputs > 1 {
        return Err(LineError::TwoInputs);
    }
    Ok(files)
}

// Whether the name of this file, which is the only one, may be that of a program. Those of shards are often numbers.
fn is_of_program(files: &[String]) -> bool {
    match files {
        [file] => !name_of(file.as_str())
            .bytes()
            .all(|byte| byte.is_ascii_digit()),
        _ => false,
    }
}

// The subcommands.
#[derive(Clone, Copy)]
enum Subcommand {
    Join,
    Junit,
    Show,
    Expect,
    Known,
    Compare,
    Page,
    Slowest,
    Watch,
}

static SUBCOMMANDS: [Subcommand; 9] = [
    Subcommand::Join,
    Subcommand::Junit,
    Subcommand::Show,
    Subcommand::Expect,
    Subcommand::Known,
    Subcommand::Compare,
    Subcommand::Page,
    Subcommand::Slowest,
    Subcommand::Watch,
];

fn command<'a>(alloc: Global) -> Result<Command<'a>, AllocError> {
    let mut command = Command::new(alloc, "reports")
        .about("Reads reports in JSON")
        .subcommand_required(true);
    for subcommand in &SUBCOMMANDS {
        command = command.subcommand(subcommand.command(alloc)?)?;
    }
    Ok(command)
}

impl Subcommand {
    fn command<'a>(self, alloc: Global) -> Result<Command<'a>, AllocError> {
        match self {
            Subcommand::Join => join_command(alloc),
            Subcommand::Junit => junit_command(alloc),
            Subcommand::Show => show_command(alloc),
            Subcommand::Expect => expect_command(alloc),
            Subcommand::Known => known_command(alloc),
            Subcommand::Compare => compare_command(alloc),
            Subcommand::Page => page_command(alloc),
            Subcommand::Slowest => slowest_command(alloc),
            Subcommand::Watch => watch_command(alloc),
        }
    }
}

fn join_command<'a>(alloc: Global) -> Result<Command<'a>, AllocError> {
    let shards = option(alloc, "shards", "N", "How many shards there are")
        .value_parser(value_parser!(usize))
        .required(true);
    let equal_names = flag(
        alloc,
        "equal-names",
        "Let trials in two shards have the same kind and name",
    );
    let cut = flag(
        alloc,
        "cut",
        "Join what can be read, also if reports are cut, unreadable or absent",
    );
    let by_name = flag(
        alloc,
        "by-name",
        "Take the reports in the order of the numbers in the files' names",
    );
    let files = files(
        alloc,
        "The shards' reports in JSON, from index 0 on if not --by-name; - is standard input",
    );
    Command::new(alloc, "join")
        .about("Print one report of all shards")
        .args(vec![in alloc; shards, equal_names, cut, by_name, files]?)
}

fn junit_command<'a>(alloc: Global) -> Result<Command<'a>, AllocError> {
    let name = option(
        alloc,
        "name",
        "PROGRAM",
        "The name of the program; else that of the one file, without its ending",
    );
    let status = flag(alloc, "status", "End with 101 if a trial failed");
    let root = option(
        alloc,
        "root",
        "ELEMENT",
        "The root element of the document, testsuite only for one FILE",
    )
    .value_parser(ROOTS.as_slice())
    .default_value(ROOTS[0]);
    let files = files(alloc, "Reports in JSON; - is standard input");
    Command::new(alloc, "junit")
        .about("Print reports as JUnit's XML")
        .args(vec![in alloc; name, status, root, files]?)
}

fn show_command<'a>(alloc: Global) -> Result<Command<'a>, AllocError> {
    let failed = flag(alloc, "failed", "Print the failures alone");
    let color = option(alloc, "color", "WHEN", "When to use colours").value_parser(
        COLOURS.as_slice(),
    );
    let file = file(alloc, "FILE", "A report in JSON; - is standard input");
    Command::new(alloc, "show")
        .about("Print a report as the harness does")
        .args(vec![in alloc; failed, color, file]?)
}

fn expect_command<'a>(alloc: Global) -> Result<Command<'a>, AllocError> {
    let lax = flag(alloc, "lax", "Let known failures pass");
    let lines = flag(alloc, "lines", "Print trials as lines in JSON");
    let update = flag(
        alloc,
        "update",
        "Bring KNOWN up to date, if the reports are whole",
    );
    let known = file(
        alloc,
        "KNOWN",
        "Lines of failed trials of a report, with # comments between; - is standard input",
    );
    let files = files(alloc, "Reports in JSON; - is standard input");
    Command::new(alloc, "expect")
        .about("Print what is not as known failures say")
        .args(vec![in alloc; lax, lines, update, known, files]?)
}

fn known_command<'a>(alloc: Global) -> Result<Command<'a>, AllocError> {
    Command::new(alloc, "known")
        .about("Print the failures of reports, as expect reads them")
        .arg(files(alloc, "Reports in JSON; - is standard input"))
}

fn compare_command<'a>(alloc: Global) -> Result<Command<'a>, AllocError> {
    let old = file(alloc, "OLD", "A report in JSON; - is standard input");
    let new = file(alloc, "NEW", "A later report in JSON; - is standard input");
    let slower = option(
        alloc,
        "slower",
        "FACTOR",
        "Print times that changed by more than this factor",
    )
    .default_value(SLOWER);
    let missing = flag(
        alloc,
        "missing",
        "Print also what a report lacks since it is cut or trials were filtered out",
    );
    Command::new(alloc, "compare")
        .about("Print what is not in a report as in an older one")
        .args(vec![in alloc; slower, missing, old, new]?)
}

fn page_command<'a>(alloc: Global) -> Result<Command<'a>, AllocError> {
    let title = option(
        alloc,
        "title",
        "TEXT",
        "What is in the heading; else the file's name, without its ending",
    );
    let note = option(alloc, "note", "TEXT", "A line below the heading").action(ArgAction::Append);
    let failed = flag(alloc, "failed", "List the failures alone");
    let rows = option(
        alloc,
        "rows",
        "N",
        "How many trials that did not fail to list at most",
    )
    .value_parser(value_parser!(u64))
    .conflicts_with("failed")?;
    let file = file(alloc, "FILE", "A report in JSON; - is standard input");
    Command::new(alloc, "page")
        .about("Print a report as a page of HTML")
        .args(vec![in alloc; title, note, failed, rows, file]?)
}

fn slowest_command<'a>(alloc: Global) -> Result<Command<'a>, AllocError> {
    let count = Arg::new(alloc, "count")
        .short('n')
        .value_name("COUNT")
        .value_parser(value_parser!(usize))
        .default_value(SLOWEST)
        .help("How many trials to print at most");
    let files = files(
        alloc,
        "Reports in JSON, of runs with --report-time; - is standard input",
    );
    Command::new(alloc, "slowest")
        .about("Print the slowest trials of reports")
        .args(vec![in alloc; count, files]?)
}

fn watch_command<'a>(alloc: Global) -> Result<Command<'a>, AllocError> {
    let columns = option(
        alloc,
        "columns",
        "N",
        "How wide lines of how far the run is may be; else COLUMNS, 39 on a terminal, or 79",
    )
    .value_parser(value_parser!(usize));
    Command::new(alloc, "watch")
        .about("Show the report on standard input as it comes")
        .arg(columns)
}

// An option without a value.
fn flag<'a>(alloc: Global, id: &'a str, help: &'a str) -> Arg<'a> {
    Arg::new(alloc, id)
        .long(id)
        .action(ArgAction::SetTrue)
        .help(help)
}

// An option with a value, which help calls `value`.
fn option<'a>(alloc: Global, id: &'a str, value: &'a str, help: &'a str) -> Arg<'a> {
    Arg::new(alloc, id).long(id).value_name(value).help(help)
}

// A word that names a file.
fn file<'a>(alloc: Global, id: &'a str, help: &'a str) -> Arg<'a> {
    Arg::new(alloc, id).required(true).help(help)
}

// Words that name files. There is at least one.
fn files<'a>(alloc: Global, help: &'a str) -> Arg<'a> {
    file(alloc, "FILE", help).action(ArgAction::Append)
}
