//! Finds benchmarks and trials that take another time in a new report than in an old one.
ghost use Rattle.std.specs.Prelude.{◌≡◌, ◌++◌, IfOk, OnOk, option_to_list};
ghost use Rattle.mimic_compare.specs.Changes.{AreRanked, average_changes, changes_in, changes_of, is_beyond, measurements, only, time_changes, times_taken};

use crate::fates::{KeptFate, TrialLabel};
use crate::trials::Comparison;
use mimic_trial::Measurement;
use std::alloc::{AllocError, Global};
use std::cmp::Ordering;
use std::marker::Model;

// What has changed.
#[derive(Clone, Copy)]
pub(crate) enum Quantity {
    // The average of a benchmark.
    Average,
    // The time that a trial took.
    Time,
}

// A number of nanoseconds in both reports.
#[derive(Drop)]
pub(crate) struct Change<'a> {
    pub(crate) label: &'a TrialLabel,
    pub(crate) quantity: Quantity,
    pub(crate) old: u64,
    pub(crate) new: u64,
}

impl<'a> Model for Change<'a> {
    ghost use Rattle.mimic_compare.specs.Changes.{Change as Changed};

    ghost Value = { Changed };

    ghost view = { λ c. record { label = c.label.now; quantity = c.quantity; old = c.old; new = c.new } };
}

impl Change<'_> {
    ghost use Rattle.std.specs.Prelude.{◌≡◌};
    ghost use Rattle.std.specs.Ordering.{is_lt};
    ghost use Rattle.mimic_compare.specs.Changes.{is_greater, is_slower, numerator};

    pub(crate) fn is_slower(&self) -> bool
        ensures { result ≡ is_slower self.now }
    {
        self.old < self.new
    }

    // Returns what the new number counts in its ratio to the old one.
    fn numerator(&self) -> u64
        ensures { result ≡ numerator self.now }
    {
        if self.old == 0 { 1 } else { self.new }
    }

    // Compares by the ratio: the greater one is first.
    fn compare(&self, other: &Change<'_>) -> Ordering
        ensures { is_lt result ≡ is_greater self.now other.now }
    {
        let mine = u128::from(self.numerator()) * u128::from(other.old);
        let others = u128::from(other.numerator()) * u128::from(self.old);
        others.cmp(&mine)
    }
}

// Whether the greater number is more than the other one times the factor, which is in hundredths.
fn is_beyond(factor: u64, old: u64, new: u64) -> bool
    ensures { result ≡ is_beyond factor old new }
{
    let (factor, old, new) = (u128::from(factor), u128::from(old), u128::from(new));
    factor * old < 100 * new || factor * new < 100 * old
}

// Returns what was measured if that was once.
fn only_measurement(fates: &[KeptFate]) -> Option<Measurement>
    ensures { result ≡ only (measurements fates.now) }
{
    let mut found = None;
    for fate in fates {
        if let Some(measurement) = fate.measurement() {
            if found.is_some() {
                return None;
            }
            found = Some(measurement);
        }
    }
    found
}

// Returns the time if one row has one.
fn only_time(fates: &[KeptFate]) -> Option<u64>
    ensures { result ≡ only (times_taken fates.now) }
{
    let mut found = None;
    for fate in fates {
        if let Some(nanos) = fate.nanos() {
            if found.is_some() {
                return None;
            }
            found = Some(nanos);
        }
    }
    found
}

// Returns the change of a benchmark's average, if there is one that counts.
fn average_change(
    factor: u64,
    label: &TrialLabel,
    old: Option<Measurement>,
    new: Option<Measurement>,
) -> Option<Change<'_>>
    ensures { option_to_list result ≡ average_changes factor label.now old new }
{
    let (Some(old), Some(new)) = (old, new) else {
        return None;
    };
    let distance = old.avg.abs_diff(new.avg);
    if is_beyond(factor, old.avg, new.avg) && old.variance < distance && new.variance < distance {
        Some(Change {
            label,
            quantity: Quantity::Average,
            old: old.avg,
            new: new.avg,
        })
    } else {
        None
    }
}

// Times that differ by less than this many nanoseconds are taken for the same.
const NOTICEABLE: u64 = 10_000_000;

// Returns the change of a trial's time, if there is one that counts.
fn time_change(
    factor: u64,
    label: &TrialLabel,
    old: Option<u64>,
    new: Option<u64>,
) -> Option<Change<'_>>
    ensures { option_to_list result ≡ time_changes factor label.now old new }
{
    let (Some(old), Some(new)) = (old, new) else {
        return None;
    };
    if is_beyond(factor, old, new) && NOTICEABLE <= old.abs_diff(new) {
        Some(Change {
            label,
            quantity: Quantity::Time,
            old,
            new,
        })
    } else {
        None
    }
}

// Adds the changes of a kind and a name.
fn add_changes<'a>(
    changes: &mut Vec<Change<'a>>,
    factor: u64,
    comparison: &Comparison<'a>,
) -> Result<(), AllocError>
    ensures { OnOk result (changes.new.items ≡ changes.old.items ++ changes_of factor comparison.now) }
{
    let label = comparison.label;
    let (old, new) = (
        comparison.fates.old.as_slice(),
        comparison.fates.new.as_slice(),
    );
    let (average, time) = (only_measurement(old), only_time(old));
    if let Some(change) = average_change(factor, label, average, only_measurement(new)) {
        changes.push(change)?;
    }
    if let Some(change) = time_change(factor, label, time, only_time(new)) {
        changes.push(change)?;
    }
    Ok(())
}

// Returns the changes of all kinds and names, the greatest ratio first.
pub(crate) fn ranked_changes<'a>(
    alloc: Global,
    factor: u64,
    found: &[Comparison<'a>],
) -> Result<Vec<Change<'a>>, AllocError>
    ensures { IfOk result (λ changes. AreRanked (changes_in factor found.now) changes.items) }
{
    let mut changes = Vec::new(alloc);
    for comparison in found {
        add_changes(&mut changes, factor, comparison)?;
    }
    changes.sort_by(|one, other| one.compare(other))?;
    Ok(changes)
}
