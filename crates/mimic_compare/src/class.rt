//! What became of a kind and a name from one report to another.
ghost use Rattle.std.specs.Prelude.{◌≡◌, IfOk};
ghost use Rattle.mimic_compare.specs.Classes.{class_of, failures, ignored};

use crate::fates::{BothFates, KeptFate};
use crate::messages::have_other_messages;
use mimic_trial::Outcome;
use std::alloc::{AllocError, Global};
use std::hash::BuildHasher;

/// What became of a kind and a name from an old report to a new one.
#[derive(Clone, Copy, Debug, PartialEq, Eq)]
pub enum Class {
    /// More of its rows failed, and the old report has no row of it that didn't fail.
    NewFailure,
    /// More of its rows failed, and the old report has one that didn't.
    Regressed,
    /// It has fewer rows, and all trials are in both reports.
    Missing,
    /// It has fewer rows, but an input is no whole report, or trials were filtered out of one.
    NotRun,
    /// It has more rows, and all trials are in both reports.
    New,
    /// It has more rows, but an input is no whole report, or trials were filtered out of one.
    NotRunBefore,
    /// More of its rows were ignored.
    NewlyIgnored,
    /// Fewer of its rows failed or were ignored.
    NewlyPassing,
    /// As many of its rows failed, with other messages.
    AnotherMessage,
    /// As many of its rows failed, at least one, with the same messages.
    StillFailing,
    /// None of these.
    Unchanged,
}

impl Class {
    // Returns the class of a kind and a name with these rows.
    pub(crate) fn of<S: BuildHasher + Copy>(
        alloc: Global,
        hash_builder: S,
        fates: &BothFates,
        is_judged: bool,
    ) -> Result<Class, AllocError>
        ensures { IfOk result (λ class. class ≡ class_of is_judged fates.now.old fates.now.new) }
    {
        let (old, new) = (fates.old.as_slice(), fates.new.as_slice());
        let (old_failed, new_failed) = (failed_in(old), failed_in(new));
        let (old_ignored, new_ignored) = (ignored_in(old), ignored_in(new));
        Ok(if old_failed < new_failed {
            if old_failed == old.len() {
                Class::NewFailure
            } else {
                Class::Regressed
            }
        } else if new.len() < old.len() {
            if is_judged {
                Class::Missing
            } else {
                Class::NotRun
            }
        } else if old.len() < new.len() {
            if is_judged {
                Class::New
            } else {
                Class::NotRunBefore
            }
        } else if old_ignored < new_ignored {
            Class::NewlyIgnored
        } else if new_failed < old_failed || new_ignored < old_ignored {
            Class::NewlyPassing
        } else if new_failed == 0 {
            Class::Unchanged
        } else if have_other_messages(alloc, hash_builder, old, new)? {
            Class::AnotherMessage
        } else {
            Class::StillFailing
        })
    }
}

// Returns how many of the rows failed.
fn failed_in(fates: &[KeptFate]) -> usize
    ensures { result ≡ failures fates.now }
{
    fates.iter().filter(|fate| fate.failed().is_some()).count()
}

// Returns how many of the rows were ignored.
fn ignored_in(fates: &[KeptFate]) -> usize
    ensures { result ≡ ignored fates.now }
{
    fates
        .iter()
        .filter(|fate| matches!(fate.other(), Some(Outcome::Ignored)))
        .count()
}
