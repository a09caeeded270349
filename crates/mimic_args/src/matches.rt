//! What a parsed line holds for each field of the arguments.
ghost use Rattle.std.specs.Prelude.{◌≡◌, IfOk, codes, map, option_and_then, option_map, string_bytes};
ghost use Rattle.clap.specs.Words.{all_of, first_of};
ghost use Rattle.mimic_args.specs.Matched.{IsNumberOf, colour_name, colours, entries_of, first_text, is_set, texts_of, unstable_name, unstables};
ghost use Rattle.mimic_trial.specs.Formats.{format_name, formats, named};

use crate::copies::{all_copied, copied};
use crate::{ColorSetting, FormatSetting, UnstableFlags};
use clap::ArgMatches;
use std::alloc::{AllocError, Global};

// Returns the first text under an id.
pub(super) fn text_under<'a>(matches: &ArgMatches<'a>, id: &str) -> Option<&'a str>
    ensures { option_map (λ s. s.now) result ≡ first_of id.now (entries_of matches.now) }
{
    matches.get_str(id)
}

// Returns the texts of all uses of an id.
fn texts_under<'m, 'a>(matches: &'m ArgMatches<'a>, id: &str) -> Option<&'m [&'a str]>
    ensures { option_map (λ s. map (λ v. v.now) s.now) result
        ≡ all_of id.now (entries_of matches.now) }
{
    matches.get_strs(id)
}

pub(super) fn is_set(matches: &ArgMatches<'_>, id: &str) -> bool
    ensures { result ≡ is_set (entries_of matches.now) id.now }
{
    text_under(matches, id) == Some("true")
}

pub(super) fn text_of(
    alloc: Global,
    matches: &ArgMatches<'_>,
    id: &str,
) -> Result<Option<String>, AllocError>
    ensures { IfOk result
        (λ o. option_map string_bytes o ≡ first_text (entries_of matches.now) id.now) }
{
    copied(alloc, text_under(matches, id).as_ref())
}

pub(super) fn texts_of(
    alloc: Global,
    matches: &ArgMatches<'_>,
    id: &str,
) -> Result<Vec<String>, AllocError>
    ensures { IfOk result
        (λ v. map string_bytes v.items ≡ texts_of (entries_of matches.now) id.now) }
{
    match texts_under(matches, id) {
        Some(texts) => all_copied(alloc, texts),
        None => Ok(Vec::new(alloc)),
    }
}

pub(super) fn threads_of(matches: &ArgMatches<'_>) -> Option<usize>
    ensures { IsNumberOf (first_text (entries_of matches.now) (codes "test-threads")) result }
{
    text_under(matches, "test-threads")?.parse::<usize>().ok()
}

pub(super) fn colour_of(matches: &ArgMatches<'_>) -> Option<ColorSetting>
    ensures { result ≡ option_and_then (named colour_name colours)
        (first_text (entries_of matches.now) (codes "color")) }
{
    match text_under(matches, "color")? {
        "auto" => Some(ColorSetting::Auto),
        "always" => Some(ColorSetting::Always),
        "never" => Some(ColorSetting::Never),
        _ => None,
    }
}

pub(super) fn format_of(matches: &ArgMatches<'_>) -> Option<FormatSetting>
    ensures { result ≡ option_and_then (named format_name formats)
        (first_text (entries_of matches.now) (codes "format")) }
{
    text_under(matches, "format")?.parse::<FormatSetting>().ok()
}

pub(super) fn unstable_of(matches: &ArgMatches<'_>) -> Option<UnstableFlags>
    ensures { result ≡ option_and_then (named unstable_name unstables)
        (first_text (entries_of matches.now) (codes "unstable")) }
{
    match text_under(matches, "unstable")? {
        "unstable-options" => Some(UnstableFlags::UnstableOptions),
        _ => None,
    }
}
