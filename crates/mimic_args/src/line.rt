//! A command line with words of the program's own.
ghost use Rattle.std.specs.Prelude.{◌≡◌, ◌<◌, IfErr, IfOk, List, length, map, option_map, string_bytes};
ghost use Rattle.std.specs.List.{find};
ghost use Rattle.std.specs.Range.{range_inclusive_end, range_inclusive_start};
ghost use Rattle.clap.specs.Words.{Text};
ghost use Rattle.mimic_args.specs.Line.{AreOperands, IsLine, IsOwnLength, IsLineOf, RefusesOperands, is_option, own_words};

use crate::command_line::words_of;
use crate::copies::all_copied;
use crate::{Arguments, ArgumentsError};
use std::alloc::{AllocError, Global};
use std::convert::AsStr;
use std::env::Args;
use std::ops::RangeInclusive;
use std::rt::Env;
use std::{env, io};

/// A command line of the form `PROGRAM OWN.. [-- OPTIONS]`.
#[derive(Debug, Drop)]
pub struct Line {
    /// The program's own words: those before the first `--`, in their order.
    pub own: Vec<String>,
    /// What the words after the first `--` ask of the harness. Without such words nothing is asked.
    pub options: Result<Arguments, ArgumentsError>,
}

impl Line {
    /// Reads the line of these words, of which the first is the program's name.
    pub fn from_iter<S: AsStr>(alloc: Global, words: &[S]) -> Result<Line, AllocError>
        requires { 0 < length words.now }
        ensures { IfOk result (λ line. IsLineOf (map S.text words.now) line) }
    {
        let mut name = String::from_str(alloc, words[0].as_str())?;
        // So the usage that the harness prints shows where its options are.
        name.push_str(" .. --")?;
        let (_, words) = words.split_at(1);
        let own = own_length(words);
        let (_, asked) = words.split_at(words.len().min(own + 1));
        let mut line = vec![in alloc; name]?;
        line.append(&mut all_copied(alloc, asked)?)?;
        Ok(Line {
            own: all_copied(alloc, &words[..own])?,
            options: Arguments::from_iter(alloc, line.as_slice()),
        })
    }

    /// Reads the program's line from the words that the runtime hands in.
    ///
    /// If they can't be read, there are no own words, and `options` has the error of [`Arguments::from_args`].
    pub fn from_args<R: Env + AllocGlobal>(rt: &R, alloc: Global) -> Line
        ensures { (words : List Text) × IsLine words result }
    {
        match Line::from_read(alloc, env::args(rt)) {
            Ok(line) => line,
            Err(error) => Line {
                own: Vec::new(alloc),
                options: Err(error),
            },
        }
    }

    /// Returns what the options ask for, and the program's own words if they are as many operands as it takes.
    ///
    /// It takes the numbers of operands in `count`, and no operand begins with `-`. If the first own word that begins
    /// with `-` is `--help` or `-h`, this returns `Help` with the text `usage`. If it is another word, or if there are too
    /// few or too many words, this returns the `Refused` of [`ArgumentsError::because`]. If the options gave an error, that
    /// is returned instead.
    pub fn into_operands(
        self,
        alloc: Global,
        count: RangeInclusive<usize>,
        usage: &str,
    ) -> Result<(Arguments, Vec<String>), ArgumentsError>
        ensures taken { IfOk result (λ r. (self.options ≡ Ok r.0) × (r.1 ≡ self.own)
            × AreOperands (range_inclusive_start count) (range_inclusive_end count)
            (own_words self)) }
        ensures options { IfErr self.options (λ error. result ≡ Err error) }
        ensures refused { IfOk self.options (λ _. IfErr result
            (RefusesOperands usage.now (range_inclusive_start count) (range_inclusive_end count)
            (own_words self))) }
    {
        let Line { own, options } = self;
        let options = options?;
        let (found, least, most) = (own.len(), *count.start(), *count.end());
        match first_option(&own) {
            Some(option) if option == "--help" || option == "-h" => {
                Err(ArgumentsError::Help(String::from_str(alloc, usage)?))
            }
            Some(option) => {
                let reason = format_args!("unexpected argument '{option}' before '--'");
                Err(ArgumentsError::because(alloc, &reason, usage))
            }
            None if found < least => {
                let reason = format_args!("too few arguments: {found} of at least {least}");
                Err(ArgumentsError::because(alloc, &reason, usage))
            }
            None if found > most => {
                let reason = format_args!("too many arguments: {found} of at most {most}");
                Err(ArgumentsError::because(alloc, &reason, usage))
            }
            None => Ok((options, own)),
        }
    }

    fn from_read(alloc: Global, read: io::Result<Args>) -> Result<Line, ArgumentsError>
        ensures { IfOk result (λ line. (words : List Text) × IsLine words line) }
    {
        let words = words_of(alloc, read)?;
        Ok(Line::from_iter(alloc, words.as_slice())?)
    }
}

// Returns the first of the words that begins with a hyphen.
fn first_option(words: &[String]) -> Option<&str>
    ensures { option_map (λ word. word.now) result ≡ find is_option (map string_bytes words.now) }
{
    words
        .iter()
        .map(String::as_str)
        .find(|word| is_option(word))
}

fn is_option(word: &str) -> bool
    ensures { result ≡ is_option word.now }
{
    word.starts_with('-')
}

// Counts the words before the first `--`.
fn own_length<S: AsStr>(words: &[S]) -> usize
    ensures { IsOwnLength (map S.text words.now) result }
{
    for (own, word) in words.iter().enumerate() {
        if word.as_str() == "--" {
            return own;
        }
    }
    words.len()
}
