//! The suites by name.
use crate::case::Case;
use crate::error::SuiteError;
use crate::segmentation::Unit;
use crate::{normalization, segmentation, toml_suite, url_suite};
use libtest_mimic::Trial;
use mimic_files::read_text;
use std::rt::Files;

/// A suite.
#[derive(Clone, Copy)]
pub(crate) enum Suite {
    Toml,
    Url,
    Normalization,
    Graphemes,
    Words,
}

impl Suite {
    /// The suite that a command line calls by this name.
    pub(crate) fn named(name: &str) -> Option<Suite> {
        match name {
            "toml" => Some(Suite::Toml),
            "url" => Some(Suite::Url),
            "normalization" => Some(Suite::Normalization),
            "graphemes" => Some(Suite::Graphemes),
            "words" => Some(Suite::Words),
            _ => None,
        }
    }

    /// A trial for each case in the file or folder at the path. It is an error if there is none, since a run of nothing passes.
    pub(crate) fn trials<M: Files + AllocGlobal + Copy + Drop>(
        self,
        rt: &M,
        path: &String,
    ) -> Result<Vec<Trial<Case>>, SuiteError> {
        let trials = match self {
            Suite::Toml => toml_suite::trials(rt, path)?,
            Suite::Url => url_suite::trials(path, &read_text(rt, path.as_str())?)?,
            Suite::Normalization => normalization::trials(path, &read_text(rt, path.as_str())?)?,
            Suite::Graphemes => segmentation::trials(
                Unit::Grapheme,
                path,
                &read_text(rt, path.as_str())?,
            )?,
            Suite::Words => segmentation::trials(Unit::Word, path, &read_text(rt, path.as_str())?)?,
        };
        if trials.is_empty() {
            return Err(SuiteError::Empty(path.clone()?));
        }
        Ok(trials)
    }
}
