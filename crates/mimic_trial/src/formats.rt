//! The formats of a report, and their names.
ghost use Rattle.std.specs.Prelude.{◌≡◌, Some};
ghost use Rattle.std.specs.Result.{result_ok};
ghost use Rattle.mimic_trial.specs.Formats.{format_name, formats, named};

use std::str::FromStr;
use thiserror::Error;

/// How a report is written.
#[derive(Clone, Copy, Debug, Default, PartialEq, Eq)]
pub enum FormatSetting {
    /// One line for each trial.
    #[default]
    Pretty,
    /// One character for each trial, and one line for each measurement.
    Terse,
    /// One object on each line, which tools read: two for each trial, and two more.
    Json,
}

impl FormatSetting {
    /// Returns the name of the format, as `--format` takes it.
    pub fn name(self) -> &'static str
        ensures name { result.now ≡ format_name self }
        ensures read_back { named format_name formats result.now ≡ Some self }
    {
        match self {
            FormatSetting::Pretty => "pretty",
            FormatSetting::Terse => "terse",
            FormatSetting::Json => "json",
        }
    }
}

/// Reads a format's name.
impl FromStr for FormatSetting {
    type Err = UnknownFormat;

    ghost from_str_gives = { λ text r. result_ok r ≡ named format_name formats text };

    fn from_str(text: &str) -> Result<FormatSetting, UnknownFormat> {
        match text {
            "pretty" => Ok(FormatSetting::Pretty),
            "terse" => Ok(FormatSetting::Terse),
            "json" => Ok(FormatSetting::Json),
            _ => Err(UnknownFormat),
        }
    }
}

/// The text is not the name of a format.
#[derive(Clone, Copy, Debug, PartialEq, Eq, Error)]
#[error("no such format")]
pub struct UnknownFormat;
