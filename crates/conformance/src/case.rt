//! What a trial runs.
use crate::normalization::NormalizationCase;
use crate::segmentation::BreakCase;
use crate::toml_suite::TomlCase;
use crate::url_suite::UrlCase;
use libtest_mimic::{Check, Failed};

/// A case of a suite.
#[derive(Drop)]
pub(crate) enum Case {
    Toml(TomlCase),
    Url(UrlCase),
    Normalization(NormalizationCase),
    Break(BreakCase),
}

impl Check for Case {
    fn check(self) -> Result<(), Failed> {
        match &self {
            Case::Toml(case) => case.check(),
            Case::Url(case) => case.check(),
            Case::Normalization(case) => case.check(),
            Case::Break(case) => case.check(),
        }
    }
}
