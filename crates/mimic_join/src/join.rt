//! The reports of shards as one.
ghost use Rattle.std.specs.Prelude.{◌≡◌, IfOk, MatchResult, map, ◌<◌, ◌++◌, List, length, All, AllPairs, Contains, OnOk, MatchOption, slice_index_or, ◌≤◌, ◌^◌};
ghost use Rattle.mimic_join.specs.Joined.{CanBeShards, IsRefused, Joins, JoinLaws, filtered_out_of, greatest, time_of, HaveOwnNames, IsNamedTwice, FallsByOne, IsUneven, trials_in};
ghost use Rattle.mimic_printer.specs.Row.{Label};
ghost use Rattle.mimic_events.specs.Key.{HasTrials, label_in};
ghost use Rattle.mimic_events.specs.declared.report.Row.{Row};

use crate::order::rows_in_turn;
use mimic_events::{Key, Report, Row};
use std::alloc::{AllocError, Global};
use std::collections::HashSet;
use std::hash::BuildHasher;
use thiserror::Error;

/// Why reports are not joined. Places count from 0.
#[derive(Clone, Copy, Debug, PartialEq, Eq, Error)]
pub enum Refusal {
    /// There are not as many reports as shards.
    #[error("the number of shards is {shards}, but that of reports is {reports}")]
    Number { reports: usize, shards: usize },
    /// The report at this place has more trials than one before it, or at least two less. No list has such shards.
    #[error("its number of trials doesn't fit those of the reports before it")]
    Uneven { place: usize },
    /// In the report at this place, this row has a kind and a name that are in a report before it too.
    #[error("its trial is in a report before it too")]
    NamedTwice { place: usize, row: usize },
    /// The number of all trials that were filtered out doesn't fit in a `u64`.
    #[error("too many trials were filtered out")]
    TooMany,
}

/// Joins the reports of `shards` shards, which are in the order of their indices, into one: it has the rows of all in turn,
/// the number of all trials that were filtered out, and the time of the longest run, since they ran side by side.
///
/// In turn comes the first row of each report, then the second of each, and so on; a report without more rows is passed over.
/// Reports that can't be those of the shards of one list are refused. The same kind and name in two reports is refused too,
/// unless the suite has `equal_names`.
/// It isn't seen if a report is of another suite, with names of its own and a number of trials that fits, nor if the flags of
/// one run were others.
///
/// Kinds and names are found in a hash table that hashes by `hash_builder`. If its hashes are known beforehand, as those of std's
/// default are, whoever chooses the names can give all of them one hash, and the time is in proportion to the square of the rows.
/// So pass a [`RandomState`](std::hash::RandomState) if others choose the names.
#[tactic(auto, using(crate::proofs::Laws::join_laws))]
pub fn joined<S: BuildHasher + Drop>(
    alloc: Global,
    hash_builder: S,
    reports: Vec<Report>,
    shards: usize,
    equal_names: bool,
) -> Result<Result<Report, Refusal>, AllocError>
    ensures joined { IfOk result (λ answer. Joins shards equal_names reports.items answer) }

    // What holds of all reports that are joined: each row comes once, and the reports of all shards have each trial once.
    ensures laws { JoinLaws }
{
    let totals = totals_of(alloc, hash_builder, &reports, shards, equal_names)?;
    let (filtered_out, nanos) = match totals {
        Ok(totals) => totals,
        Err(refusal) => return Ok(Err(refusal)),
    };
    let rows = rows_in_turn(alloc, reports)?;
    Ok(Ok(Report {
        rows,
        filtered_out,
        nanos,
    }))
}

// Returns the number of all trials that were filtered out and the time of the longest run, or why the reports are not joined.
pub(crate) fn totals_of<S: BuildHasher + Drop>(
    alloc: Global,
    hash_builder: S,
    reports: &[Report],
    shards: usize,
    equal_names: bool,
) -> Result<Result<(u64, u64), Refusal>, AllocError>
    ensures { IfOk result (λ answer. MatchResult answer
        (λ x. CanBeShards shards equal_names reports.now × (x.0 ≡ filtered_out_of reports.now)
        × (x.1 ≡ greatest (map time_of reports.now)))
        (IsRefused shards equal_names reports.now)) }
{
    if reports.len() != shards {
        let reports = reports.len();
        return Ok(Err(Refusal::Number { reports, shards }));
    }
    if let Some(place) = uneven(reports) {
        return Ok(Err(Refusal::Uneven { place }));
    }
    let Some(totals) = totals(reports) else {
        return Ok(Err(Refusal::TooMany));
    };
    if equal_names {
        return Ok(Ok(totals));
    }
    match named_twice(alloc, hash_builder, reports)? {
        Some((place, row)) => Ok(Err(Refusal::NamedTwice { place, row })),
        None => Ok(Ok(totals)),
    }
}

// Returns the place of the first report with a row whose kind and name are in a report before it, and that of its first such
// row.
pub(crate) fn named_twice<S: BuildHasher + Drop>(
    alloc: Global,
    hash_builder: S,
    reports: &[Report],
) -> Result<Option<(usize, usize)>, AllocError>
    ensures { IfOk result (λ found. MatchOption found (AllPairs HaveOwnNames reports.now)
        (λ at. IsNamedTwice reports.now at.0 at.1)) }
{
    // As many as can be counted.
    let rows = reports.iter().fold(
        0_usize,
        |rows, report| rows.saturating_add(report.rows.len()),
    );
    let mut seen = HashSet::with_capacity_and_hasher(alloc, rows, hash_builder)?;
    for (place, report) in reports.iter().enumerate() {
        if let Some(row) = seen_row(&seen, &report.rows) {
            return Ok(Some((place, row)));
        }
        add_names(&mut seen, &report.rows)?;
    }
    Ok(None)
}

// Returns the place of the first row whose kind and name were seen.
#[inline(never)]
fn seen_row<S: BuildHasher>(seen: &HashSet<Key<'_>, S>, rows: &[Row]) -> Option<usize>
    ensures { (labels : List Label) → HasTrials seen.now labels → MatchOption result
        (All (λ row. ¬ Contains labels (label_in row)) rows.now)
        (λ place. (place < length rows.now)
        × ((d : Row) → Contains labels (label_in (slice_index_or rows.now place d)))) }
{
    for (place, row) in rows.iter().enumerate() {
        if (&*seen).contains(&Key::Trial(row)) {
            return Some(place);
        }
    }
    None
}

#[inline(never)]
fn add_names<'a, S: BuildHasher>(
    seen: &mut HashSet<Key<'a>, S>,
    rows: &'a [Row],
) -> Result<(), AllocError>
    ensures { OnOk result ((labels : List Label) → HasTrials seen.old labels
        → HasTrials seen.new (labels ++ map label_in rows.now)) }
{
    for row in rows {
        seen.insert(Key::Trial(row))?;
    }
    Ok(())
}

// Returns the place of the first report that has more trials than one before it, or at least two less.
pub(crate) fn uneven(reports: &[Report]) -> Option<usize>
    ensures { MatchOption result (AllPairs FallsByOne reports.now) (IsUneven reports.now) }
{
    let mut first = 0;
    let mut last = 0;
    for (place, report) in reports.iter().enumerate() {
        let trials = trials_of(report);
        if place == 0 {
            first = trials;
        } else if last < trials || trials + 1 < first {
            return Some(place);
        }
        last = trials;
    }
    None
}

// Returns how many trials were given to the run of the report. The sum may pass a `u64`.
fn trials_of(report: &Report) -> u128
    ensures trials { result ≡ trials_in report.now }
    ensures fits { result < 2 ^ 65 }
{
    let filtered_out = report.filtered_out;
    report.rows.len() as u128 + u128::from(filtered_out)
}

// Returns the number of all trials that were filtered out, and the greatest time. `None` says that the number doesn't fit.
pub(crate) fn totals(reports: &[Report]) -> Option<(u64, u64)>
    ensures { MatchOption result (2 ^ 64 ≤ filtered_out_of reports.now)
        (λ x. (x.0 ≡ filtered_out_of reports.now) × (x.1 ≡ greatest (map time_of reports.now))) }
{
    let mut filtered_out = 0_u64;
    let mut nanos = 0;
    for report in reports {
        let Some(sum) = filtered_out.checked_add(report.filtered_out) else {
            return None;
        };
        filtered_out = sum;
        nanos = nanos.max(report.nanos);
    }
    Some((filtered_out, nanos))
}
