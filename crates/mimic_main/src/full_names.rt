//! What trials are called.
ghost use Rattle.std.specs.Prelude.{◌≡◌, ◌-◌, ◌++◌, ◌∷◌, ◌<◌, ◌≤◌, [], IfOk, MatchOption, None, OnOk, Some, drop, length, slice_get, slice_index_or, take};
ghost use Rattle.mimic_main.specs.FullNames.{full_name_of, full_names_of};

use libtest_mimic::Trial;
use mimic_trial::TestInfo;
use std::alloc::{AllocError, Global};
use std::marker::Model;

// Full names, each a kind in brackets, if there is one, and a name. Contracts see them in their order.
#[derive(Drop)]
pub(crate) struct FullNames {
    // The names one after another, and the byte at which each ends.
    names: Vec<u8>,
    ends: Vec<usize>,
}

impl Model for FullNames {
    ghost use Rattle.std.specs.Prelude.{ℕ, List, length};
    ghost use Rattle.mimic_main.specs.FullNames.{AreEnds, parts_of};

    ghost Value = { List (List ℕ) };

    ghost view = { λ full. parts_of full.names.items 0 full.ends.items };

    ghost invariant = { λ full. AreEnds (length full.names.items) 0 full.ends.items };
}

impl FullNames {
    // Those of these trials, in their order.
    pub(crate) fn of_trials<R>(alloc: Global, trials: &[Trial<R>]) -> Result<FullNames, AllocError>
        ensures { IfOk result (λ names. names ≡ full_names_of trials.now) }
    {
        let mut names = Vec::new(alloc);
        let mut ends = Vec::with_capacity(alloc, trials.len())?;
        for trial in trials {
            push_full_name(&mut names, trial.info())?;
            ends.push(names.len())?;
        }
        Ok(FullNames { names, ends })
    }

    // How many there are.
    pub(crate) fn len(&self) -> usize
        ensures { result ≡ length self.now }
    {
        self.ends.len()
    }

    // The name of the trial at the place, counted from 0.
    pub(crate) fn get(&self, place: usize) -> Option<&[u8]>
        ensures { MatchOption result (slice_get self.now place ≡ None) (λ name. slice_get self.now place ≡ Some name.now) }
    {
        let end = *self.ends.get(place)?;
        let start = end_before(&self.ends, place);
        Some(part(&self.names, start, end))
    }
}

// Where the part before the one at this place ends, and 0 if there is none.
fn end_before(ends: &[usize], place: usize) -> usize
    requires { place < length ends.now }
    ensures { result ≡ slice_index_or (0 ∷ ends.now) place 0 }
{
    match place.checked_sub(1) {
        Some(before) => ends[before],
        None => 0,
    }
}

// The part of the text between these places.
fn part(text: &[u8], start: usize, end: usize) -> &[u8]
    requires rising { start ≤ end }
    requires within { end ≤ length text.now }
    ensures { result.now ≡ take (end - start) (drop start text.now) }
{
    &text[start..end]
}

// Appends the full name of a trial.
fn push_full_name(names: &mut Vec<u8>, info: &TestInfo) -> Result<(), AllocError>
    ensures { OnOk result (names.new.items ≡ names.old.items ++ full_name_of info.now) }
{
    if !info.kind.is_empty() {
        names.extend_from_slice(b"[")?;
        names.extend_from_slice(info.kind.as_bytes())?;
        names.extend_from_slice(b"] ")?;
    }
    names.extend_from_slice(info.name.as_bytes())
}
