//! Keeps rows by their kinds and names, and compares them.
ghost use Rattle.std.specs.Prelude.{◌≡◌, ◌∷◌, [], IfOk, OnOk};
ghost use Rattle.mimic_events.specs.Contents.{entry_read};
ghost use Rattle.mimic_compare.specs.Trials.{Come, Holds, Keeps, found_among};

use crate::class::Class;
use crate::fates::{BothFates, KeptFate, Side, TrialLabel};
use indexmap::IndexMap;
use mimic_events::{Row, RowTaker};
use mimic_printer::OutputFault;
use std::alloc::{AllocError, Global};
use std::hash::BuildHasher;
use std::marker::Model;

// What the rows say, by their kinds and names, in the order in which these first came.
pub(crate) type Trials<S> = IndexMap<TrialLabel, BothFates, S>;

// Keeps what the rows of a report say.
#[derive(Drop)]
pub(crate) struct Keeper<S: BuildHasher> {
    pub(crate) alloc: Global,
    pub(crate) trials: Trials<S>,
    pub(crate) side: Side,
}

impl<S: BuildHasher> RowTaker for Keeper<S> {
    ghost use Rattle.std.specs.Prelude.{◌≡◌};
    ghost use Rattle.mimic_printer.specs.declared.sink.OutputFault.TheVariants.{OutOfMemory};
    ghost use Rattle.mimic_compare.specs.Trials.{Keeps};

    ghost takes = { λ old rows new. (new.side ≡ old.side) × Keeps old.trials new.trials old.side rows };

    ghost stops = { λ old rows fault new. fault ≡ OutOfMemory };

    fn take(&mut self, row: Row) -> Result<(), OutputFault> {
        keep_row(self.alloc, &mut self.trials, self.side, row)?;
        Ok(())
    }
}

// Keeps what the row says.
fn keep_row<S: BuildHasher>(
    alloc: Global,
    trials: &mut Trials<S>,
    side: Side,
    row: Row,
) -> Result<(), AllocError>
    ensures { OnOk result (Keeps trials.old trials.new side (entry_read row ∷ [])) }
{
    let Row {
        name,
        kind,
        outcome,
        nanos,
    } = row;
    let fate = KeptFate::new(alloc, outcome, nanos)?;
    let fates = trials
        .entry(TrialLabel { kind, name })?
        .or_insert(BothFates::new());
    fates.push(alloc, side, fate)?;
    Ok(())
}

// A kind and a name of one report or both.
#[derive(Drop)]
pub(crate) struct Comparison<'a> {
    pub(crate) label: &'a TrialLabel,
    pub(crate) fates: &'a BothFates,
    pub(crate) class: Class,
}

impl<'a> Model for Comparison<'a> {
    ghost use Rattle.mimic_compare.specs.Classes.{Compared};

    ghost Value = { Compared };

    ghost view = { λ c. record { label = c.label.now; class = c.class; old = c.fates.now.old; new = c.fates.now.new } };
}

// Compares the rows of each kind and name.
pub(crate) fn compare_trials<S: BuildHasher + Copy>(
    alloc: Global,
    trials: &Trials<S>,
    is_judged: bool,
) -> Result<Vec<Comparison<'_>>, AllocError>
    ensures { IfOk result (λ found. (come : Come) → Holds trials.now come
        → found.items ≡ found_among is_judged come) }
{
    // Whoever chose the names chose the messages too.
    let hash_builder = *trials.hasher();
    let mut found = Vec::with_capacity(alloc, trials.len())?;
    for (label, fates) in trials.iter() {
        let class = Class::of(alloc, hash_builder, fates, is_judged)?;
        found.push(Comparison {
            label,
            fates,
            class,
        })?;
    }
    Ok(found)
}
