//! Reads arguments from a command line.
ghost use Rattle.std.specs.Prelude.{◌≡◌, ◌<◌, ◌⊎◌, IfErr, IfOk, List, false, length, map, vec_len};
ghost use Rattle.clap.specs.Values.{kind_of};
ghost use Rattle.clap.specs.Words.{Text};
ghost use Rattle.clap.specs.declared.error.kind.ErrorKind.TheVariants as Kind;
ghost use Rattle.clap.specs.declared.builder.value_parser.ValueParser.{ValueParser};
ghost use Rattle.std.specs.IoError.{error_kind};
ghost use Rattle.std.specs.Vec.Iter.{into_iter_len};
ghost use Rattle.std.specs.declared.io.ErrorKind.TheVariants as IoKind;
ghost use Rattle.mimic_args.specs.declared.error.ArgumentsError.TheVariants.{OutOfMemory};
ghost use Rattle.mimic_args.specs.CommandLine.{IsErrorFor, AreReaders, IsMeaningOf, IsRefusalOf, declared_of, harness_options, options_of, options_with};
ghost use Rattle.mimic_args.specs.Matched.{IsReadFrom, asks_for_excluded, entries_of};

use crate::matches::{
    colour_of, format_of, is_set, text_of, text_under, texts_of, threads_of, unstable_of,
};
use crate::options::{IGNORED_FLAGS, OTHER_FLAGS, add_flags, add_valued, excluded, quiet, test};
use crate::{Arguments, ArgumentsError};
use clap::error::ErrorKind;
use clap::{Arg, ArgMatches, Command};
use std::alloc::{AllocError, Global};
use std::convert::AsStr;
use std::env::Args;
use std::rt::Env;
use std::{env, io};

impl Arguments {
    /// Declares the options of a harness to `clap`. A line may not use `--test` with `--bench`, nor
    /// `--quiet` with `--format`.
    pub fn command<'a>(alloc: Global) -> Result<Command<'a>, AllocError>
        ensures { IfOk result (λ r. (u : ValueParser) × (c : ValueParser) × (f : ValueParser)
            × AreReaders u c f × (options_of r ≡ harness_options u c f)) }
    {
        let test = excluded(test(alloc), "bench")?;
        let quiet = excluded(quiet(alloc), "format")?;
        command_of(alloc, test, quiet)
    }

    /// Reads each field from what the matches hold under the id of its option. A text that names nothing, or is no
    /// number, gives `None`.
    pub fn from_matches(alloc: Global, matches: &ArgMatches<'_>) -> Result<Arguments, AllocError>
        ensures { IfOk result (λ a. IsReadFrom (entries_of matches.now) a) }
    {
        Ok(Arguments {
            include_ignored: is_set(matches, "include-ignored"),
            ignored: is_set(matches, "ignored"),
            test: is_set(matches, "test"),
            bench: is_set(matches, "bench"),
            list: is_set(matches, "list"),
            nocapture: is_set(matches, "nocapture"),
            show_output: is_set(matches, "show-output"),
            report_time: is_set(matches, "report-time"),
            unstable_flags: unstable_of(matches),
            exact: is_set(matches, "exact"),
            quiet: is_set(matches, "quiet"),
            test_threads: threads_of(matches),
            logfile: text_of(alloc, matches, "logfile")?,
            skip: texts_of(alloc, matches, "skip")?,
            color: colour_of(matches),
            format: format_of(matches),
            filter: texts_of(alloc, matches, "filter")?,
        })
    }

    /// Reads arguments from words, of which the first is the program's name.
    ///
    /// It returns `Help` if the first fault of the line is a call for help. It returns `Refused` if the first fault is
    /// another one, or if the line has no fault but asks for two options that exclude one another.
    pub fn from_iter<S: AsStr>(alloc: Global, words: &[S]) -> Result<Arguments, ArgumentsError>
        requires { 0 < length words.now }
        ensures taken { IfOk result (λ a. IsMeaningOf (map S.text words.now) a) }
        ensures refused { IfErr result (λ e. IsRefusalOf (map S.text words.now) e) }
    {
        let command = command_of(alloc, test(alloc), quiet(alloc))?;
        let matches = match command.try_get_matches_from(words) {
            Ok(matches) => matches,
            Err(error) => return Err(error_of(alloc, &error)?),
        };
        if asks_for_excluded(&matches) {
            return Err(ArgumentsError::Refused(text_of_excluded(alloc, words)?));
        }
        let args = Arguments::from_matches(alloc, &matches)?;
        Ok(args)
    }

    /// Reads the program's arguments from the words that the runtime hands in.
    ///
    /// It returns `Refused` with the text `cannot read the arguments` also if a word is not UTF-8, or if there are
    /// no words.
    pub fn from_args<R: Env + AllocGlobal>(
        rt: &R,
        alloc: Global,
    ) -> Result<Arguments, ArgumentsError>
        ensures { IfOk result (λ a. (line : List Text) × IsMeaningOf line a) }
    {
        Arguments::from_read(alloc, env::args(rt))
    }

    // Reads arguments from the program's words, if these could be read.
    fn from_read(alloc: Global, read: io::Result<Args>) -> Result<Arguments, ArgumentsError>
        ensures meaning { IfOk result (λ a. (line : List Text) × IsMeaningOf line a) }
        ensures memory { IfErr read
            (λ error. error_kind error ≡ IoKind.OutOfMemory → result ≡ Err OutOfMemory) }
    {
        let words = words_of(alloc, read)?;
        Arguments::from_iter(alloc, words.as_slice())
    }
}

impl ArgumentsError {
    /// Returns the error for a line that `clap` refused, for a program that declares options of its own beside those of
    /// [`Arguments::command`]. It is `Help`, with the text to print, if help or a version was asked for, `OutOfMemory` if
    /// `clap` had no memory, and else `Refused`, with what is wrong and how the program is used.
    ///
    /// It returns an `Err` if there is no memory for the text.
    pub fn from_clap(alloc: Global, error: &clap::Error) -> Result<ArgumentsError, AllocError>
        ensures { IfOk result (λ e. IsErrorFor (kind_of error.now ≡ Kind.OutOfMemory)
            ((kind_of error.now ≡ Kind.DisplayHelp) ⊎ (kind_of error.now ≡ Kind.DisplayVersion)) e) }
    {
        match error.kind() {
            ErrorKind::DisplayVersion => Ok(ArgumentsError::Help(error.to_string(alloc)?)),
            _ => error_of(alloc, error),
        }
    }
}

// Returns the words of a line, if they could be read: the program's name, and the words after it.
pub(crate) fn words_of(alloc: Global, read: io::Result<Args>) -> Result<Vec<String>, ArgumentsError>
    ensures some { IfOk result (λ words. 0 < vec_len words) }
    ensures memory { IfErr read
        (λ error. error_kind error ≡ IoKind.OutOfMemory → result ≡ Err OutOfMemory) }
    ensures read { IfOk read
        (λ words. 0 < into_iter_len words → IfErr result (λ error. error ≡ OutOfMemory)) }
{
    let args = match read {
        Ok(args) => args,
        Err(error) => return Err(unread(alloc, &error)?),
    };
    let words: Vec<String> = args.collect(alloc)?;
    if words.is_empty() {
        return Err(refused_with(alloc, "cannot read the arguments")?);
    }
    Ok(words)
}

// Declares the options of a harness. The caller passes the flags `--test` and `--quiet`.
fn command_of<'a>(alloc: Global, test: Arg<'a>, quiet: Arg<'a>) -> Result<Command<'a>, AllocError>
    requires { (test.global ≡ false) × (quiet.global ≡ false) }
    ensures { IfOk result (λ r. (u : ValueParser) × (c : ValueParser) × (f : ValueParser)
        × AreReaders u c f × (options_of r
        ≡ options_with (declared_of test.entry) (declared_of quiet.entry) u c f)) }
{
    let mut args = Vec::with_capacity(alloc, 17)?;
    add_flags(alloc, &mut args, IGNORED_FLAGS.as_slice(), test)?;
    add_flags(alloc, &mut args, OTHER_FLAGS.as_slice(), quiet)?;
    add_valued(alloc, &mut args)?;
    Command::new(alloc, "harness").args(args)
}

// Returns whether the matches ask for two options that exclude one another.
fn asks_for_excluded(matches: &ArgMatches<'_>) -> bool
    ensures { result ≡ asks_for_excluded (entries_of matches.now) }
{
    if is_set(matches, "test") && is_set(matches, "bench") {
        return true;
    }
    is_set(matches, "quiet") && text_under(matches, "format").is_some()
}

// Returns the text with which `clap` refuses a line that asks for two options that exclude one another.
fn text_of_excluded<S: AsStr>(alloc: Global, words: &[S]) -> Result<String, ArgumentsError>
    ensures { IfErr result (λ e. e ≡ OutOfMemory) }
{
    let command = Arguments::command(alloc)?;
    let error = match command.try_get_matches_from(words) {
        // `clap` takes no such line. If it did, the line would still be refused.
        Ok(_) => return Ok(String::from_str(alloc, "two options exclude each other")?),
        Err(error) => error,
    };
    match error.kind() {
        ErrorKind::OutOfMemory => Err(ArgumentsError::OutOfMemory),
        _ => Ok(error.to_string(alloc)?),
    }
}

// Returns the error for words that could not be read.
fn unread(alloc: Global, error: &io::Error) -> Result<ArgumentsError, AllocError>
    ensures { IfOk result (λ e. IsErrorFor (error_kind error.now ≡ IoKind.OutOfMemory) ⊥ e) }
{
    match error.kind() {
        io::ErrorKind::OutOfMemory => Ok(ArgumentsError::OutOfMemory),
        _ => refused_with(alloc, "cannot read the arguments"),
    }
}

fn refused_with(alloc: Global, text: &str) -> Result<ArgumentsError, AllocError>
    ensures { IfOk result (λ e. IsErrorFor ⊥ ⊥ e) }
{
    Ok(ArgumentsError::Refused(String::from_str(alloc, text)?))
}

// Returns the error for a line that `clap` refused.
fn error_of(alloc: Global, error: &clap::Error) -> Result<ArgumentsError, AllocError>
    ensures { IfOk result (λ e. IsErrorFor (kind_of error.now ≡ Kind.OutOfMemory)
        (kind_of error.now ≡ Kind.DisplayHelp) e) }
{
    match error.kind() {
        ErrorKind::OutOfMemory => Ok(ArgumentsError::OutOfMemory),
        ErrorKind::DisplayHelp => Ok(ArgumentsError::Help(error.to_string(alloc)?)),
        _ => Ok(ArgumentsError::Refused(error.to_string(alloc)?)),
    }
}
