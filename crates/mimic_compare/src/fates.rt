//! What the rows of a kind and a name say, as it is kept.
ghost use Rattle.std.specs.Prelude.{◌≡◌, ◌++◌, ◌∷◌, [], IfOk, MatchOption, OnOk, false, option_to_list, unwrap_or};
ghost use Rattle.std.specs.Option.{option_copied};
ghost use Rattle.mimic_trial.specs.Count.{is_failed};
ghost use Rattle.mimic_trial.specs.declared.outcome.Outcome.TheVariants as outcome;
ghost use Rattle.mimic_compare.specs.Changes.{measurement_of};
ghost use Rattle.mimic_compare.specs.Trials.{both, with_fate};

use mimic_trial::{Failed, Measurement, Outcome};
use std::alloc::{AllocError, Global};
use std::hash::{Hash, Hasher};
use std::marker::Model;
use std::{mem, slice};

// A kind and a name.
#[derive(Drop)]
pub(crate) struct TrialLabel {
    pub(crate) kind: String,
    pub(crate) name: String,
}

impl Model for TrialLabel {
    ghost use Rattle.std.specs.Prelude.{string_bytes};
    ghost use Rattle.mimic_printer.specs.Row.{Label};

    ghost Value = { Label };

    ghost view = { λ n. record { kind = string_bytes n.kind; name = string_bytes n.name } };
}

impl PartialEq for TrialLabel {
    ghost use Rattle.std.specs.Cmp.{decided, partial_equiv_from_equiv};
    ghost use Rattle.mimic_events.specs.Key.{same_label};
    ghost use Rattle.mimic_events.proofs.Keys.{same_label-decides};

    ghost eq = { same_label };

    ghost laws = { partial_equiv_from_equiv (decided same_label same_label-decides) };

    fn eq(&self, other: &Self) -> bool {
        self.kind == other.kind && self.name == other.name
    }
}

impl Eq for TrialLabel {
    ghost use Rattle.std.specs.Cmp.{decided};
    ghost use Rattle.mimic_events.specs.Key.{same_label};
    ghost use Rattle.mimic_events.proofs.Keys.{same_label-decides};

    ghost laws = { decided same_label same_label-decides };
}

impl Hash for TrialLabel {
    ghost use Rattle.std.specs.Prelude.{◌++◌};
    ghost use Rattle.std.specs.Cmp.Rules.{hashing};
    ghost use Rattle.std.specs.Hash as fed;
    ghost use Rattle.std.proofs.Common.{rules};

    ghost hash_input = { λ label. fed.str label.kind ++ fed.str label.name };

    ghost respects_eq = { Prim.search (hashing, rules) };

    fn hash<H: Hasher>(&self, state: &mut H) {
        self.kind.hash(state);
        self.name.hash(state);
    }
}

// What a row says after its kind and its name. If the trial passed, it takes no memory beside this.
#[derive(Drop)]
pub(crate) struct KeptFate {
    // `None` if it passed.
    other: Option<Box<Outcome>>,
    nanos: Option<u64>,
}

impl Model for KeptFate {
    ghost use Rattle.mimic_compare.specs.Fates.{Fate};

    ghost Value = { Fate };

    ghost use Rattle.mimic_compare.specs.Kept.{outcome_kept};

    ghost view = { λ f. record { outcome = outcome_kept f.other; nanos = f.nanos } };
}

impl KeptFate {
    pub(crate) fn new(
        alloc: Global,
        outcome: Outcome,
        nanos: Option<u64>,
    ) -> Result<KeptFate, AllocError>
        ensures { IfOk result (λ fate. fate ≡ record { outcome = outcome; nanos = nanos }) }
    {
        let other = match outcome {
            Outcome::Passed => None,
            other => Some(Box::new(alloc, other)?),
        };
        Ok(KeptFate { other, nanos })
    }

    // Returns the outcome if it isn't `Passed`.
    pub(crate) fn other(&self) -> Option<&Outcome>
        ensures { unwrap_or (option_copied result) outcome.Passed ≡ self.now.outcome }
    {
        match &self.other {
            None => None,
            Some(other) => Some(other),
        }
    }

    // Returns the failure, if it is one.
    pub(crate) fn failed(&self) -> Option<&Failed>
        ensures { MatchOption result (is_failed self.now.outcome ≡ false)
            (λ failed. self.now.outcome ≡ outcome.Failed failed.now) }
    {
        match self.other() {
            Some(Outcome::Failed(failed)) => Some(failed),
            _ => None,
        }
    }

    // Returns what was measured, if anything was.
    pub(crate) fn measurement(&self) -> Option<Measurement>
        ensures { option_to_list result ≡ measurement_of self.now.outcome }
    {
        match self.other() {
            Some(Outcome::Measured(measurement)) => Some(*measurement),
            _ => None,
        }
    }

    pub(crate) fn nanos(&self) -> Option<u64>
        ensures { result ≡ self.now.nanos }
    {
        self.nanos
    }
}

// What the rows of one report say. One row takes no memory beside this.
#[derive(Drop)]
pub(crate) struct Fates {
    kept: Kept,
}

#[derive(Drop)]
enum Kept {
    Nothing,
    One(KeptFate),
    Many(Vec<KeptFate>),
}

impl Model for Fates {
    ghost use Rattle.std.specs.Prelude.{List};
    ghost use Rattle.mimic_compare.specs.Fates.{Fate};

    ghost Value = { List Fate };

    ghost use Rattle.mimic_compare.specs.Kept.{fates_kept};

    ghost view = { λ f. fates_kept f.kept };
}

impl Fates {
    pub(crate) fn new() -> Fates
        ensures { result ≡ [] }
    {
        Fates {
            kept: Kept::Nothing,
        }
    }

    // Adds a row.
    fn push(&mut self, alloc: Global, fate: KeptFate) -> Result<(), AllocError>
        ensures { OnOk result (self.new ≡ self.old ++ fate ∷ []) }
    {
        self.kept = mem::replace(&mut self.kept, Kept::Nothing).with(alloc, fate)?;
        Ok(())
    }

    // Returns all, in the order in which they came.
    pub(crate) fn as_slice(&self) -> &[KeptFate]
        ensures { result.now ≡ self.now }
    {
        match &self.kept {
            Kept::Nothing => &[],
            Kept::One(fate) => slice::from_ref(fate),
            Kept::Many(fates) => fates.as_slice(),
        }
    }
}

impl Kept {
    ghost use Rattle.std.specs.Prelude.{◌≡◌, ◌++◌, ◌∷◌, [], IfOk};
    ghost use Rattle.mimic_compare.specs.Kept.{fates_kept};

    // Returns all with one more row.
    fn with(self, alloc: Global, fate: KeptFate) -> Result<Kept, AllocError>
        ensures { IfOk result (λ kept. fates_kept kept ≡ fates_kept self ++ fate ∷ []) }
    {
        Ok(match self {
            Kept::Nothing => Kept::One(fate),
            Kept::One(first) => {
                let mut fates = Vec::new(alloc);
                fates.push(first)?;
                fates.push(fate)?;
                Kept::Many(fates)
            }
            Kept::Many(fates) => {
                let mut fates = fates;
                fates.push(fate)?;
                Kept::Many(fates)
            }
        })
    }
}

// Which of two reports.
#[derive(Clone, Copy)]
pub(crate) enum Side {
    Old,
    New,
}

// What the rows of both reports say.
#[derive(Drop)]
pub(crate) struct BothFates {
    pub(crate) old: Fates,
    pub(crate) new: Fates,
}

impl BothFates {
    pub(crate) fn new() -> BothFates
        ensures { result ≡ both [] [] }
    {
        BothFates {
            old: Fates::new(),
            new: Fates::new(),
        }
    }

    // Adds a row of a report.
    pub(crate) fn push(
        &mut self,
        alloc: Global,
        side: Side,
        fate: KeptFate,
    ) -> Result<(), AllocError>
        ensures { OnOk result (self.exit.now ≡ with_fate side fate self.entry.now) }
    {
        match side {
            Side::Old => self.old.push(alloc, fate),
            Side::New => self.new.push(alloc, fate),
        }
    }
}
