//! The program's line: the options of the harness, and options and an operand of its own.
use clap::{Arg, ArgAction, ArgMatches, Command, value_parser};
use libtest_mimic::{Arguments, ArgumentsError};
use std::alloc::{AllocError, Global};
use std::env;

/// What makes a text tidy, beside that no line ends with a blank.
#[derive(Clone, Copy)]
pub(crate) struct Rules {
    /// How many characters a line may have.
    pub(crate) width: usize,
    pub(crate) allows_tabs: bool,
}

/// What a line asks for.
#[derive(Drop)]
pub(crate) struct TidyLine {
    pub(crate) options: Arguments,
    pub(crate) folder: Vec<String>,
    pub(crate) rules: Rules,
}

impl TidyLine {
    /// Reads the program's line. The error is help, or why the line was refused.
    pub(crate) fn from_args(rt: &HostRuntime, alloc: Global) -> Result<TidyLine, ArgumentsError> {
        let Ok(args) = env::args(rt) else {
            let text = String::from_str(alloc, "cannot read the arguments")?;
            return Err(ArgumentsError::Refused(text));
        };
        let words: Vec<String> = args.collect(alloc)?;
        match command(alloc)?.try_get_matches_from(words.as_slice()) {
            Ok(matches) => Ok(TidyLine::from_matches(alloc, &matches)?),
            Err(error) => Err(ArgumentsError::from_clap(alloc, &error)?),
        }
    }

    fn from_matches(alloc: Global, matches: &ArgMatches<'_>) -> Result<TidyLine, AllocError> {
        let folder = matches.get_str("folder").unwrap_or("");
        Ok(TidyLine {
            options: Arguments::from_matches(alloc, matches)?,
            folder: vec![in alloc; String::from_str(alloc, folder)?]?,
            rules: Rules {
                // `--width` has a default.
                width: matches.get_one::<usize>("width").unwrap_or(0),
                allows_tabs: matches.get_flag("tabs"),
            },
        })
    }
}

// The options of a harness, and those of this program. The folder comes before the filters.
fn command<'a>(alloc: Global) -> Result<Command<'a>, AllocError> {
    let folder = Arg::new(alloc, "folder")
        .value_name("DIR")
        .required(true)
        .index(1)
        .help("The folder whose texts are tested");
    let width = Arg::new(alloc, "width")
        .long("width")
        .value_name("N")
        .value_parser(value_parser!(usize))
        .default_value("80")
        .help("How many characters a line may have");
    let tabs = Arg::new(alloc, "tabs")
        .long("tabs")
        .action(ArgAction::SetTrue)
        .help("Allow tabs");
    Arguments::command(alloc)?
        .mut_arg("filter", |filter| Ok(filter.index(2)))?
        .args(vec![in alloc; folder, width, tabs]?)
}
