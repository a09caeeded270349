//! Judges the rows of reports by known failures.
ghost use Rattle.std.specs.Prelude.{◌≡◌, ◌++◌, IfOk, OnOk, count_by, filter, map, option_map};
ghost use Rattle.std.specs.List.{flat_map, list_any};
ghost use Rattle.std.specs.Option.{is_some, option_to_list};
ghost use Rattle.mimic_trial.specs.Count.{is_failed, is_ignored_outcome};
ghost use Rattle.mimic_events.specs.Contents.{entry_read};
ghost use Rattle.mimic_expect.specs.Expect.{FailedRow, answers, counts, fate, findings_with, has_passed, is_absent_line, is_failed_row, is_other_message, is_passed_line, keyed, labelled, left_by, meets, rows_with, unanswered, unmet_by, without};
ghost use Rattle.mimic_expect.specs.JudgementText.{entries_read, expected_at, finding_read, lines_left, rows_left};
ghost use Rattle.mimic_expect.specs.Known.{expected_read};

use crate::keyed_items::KeyedItems;
use crate::known::Expectation;
use mimic_events::{Key, Row};
use mimic_trial::Outcome;
use std::alloc::{AllocError, Global};
use std::hash::BuildHasher;

// What is not as the known failures say.
#[derive(Clone, Copy)]
pub(crate) enum Unexpected<'a> {
    // The row failed, and no line expects that.
    Failed(&'a Row),
    // The row failed with another message than the line says.
    AnotherMessage {
        expectation: &'a Expectation,
        row: &'a Row,
    },
    // The trial of the line passed or was measured.
    Passed(&'a Expectation),
    // No row of the trial of the line is there.
    Absent(&'a Expectation),
}

// Returns the expectations, to be found by what they say about failures.
fn keyed_expectations<S: BuildHasher + Copy>(
    alloc: Global,
    hash_builder: S,
    known: &[Expectation],
) -> Result<KeyedItems<'_, &Expectation, S>, AllocError>
    ensures { IfOk result (λ items. lines_left items ≡ keyed (map expected_read known.now)) }
{
    let mut items = Vec::new(alloc);
    for expectation in known {
        items.push((Key::Failure(&expectation.row), expectation))?;
    }
    KeyedItems::new(alloc, hash_builder, &items)
}

// Returns the rows, to be found by their kinds and names.
fn keyed_rows<'a, S: BuildHasher + Copy>(
    alloc: Global,
    hash_builder: S,
    rows: &[&'a Row],
) -> Result<KeyedItems<'a, &'a Row, S>, AllocError>
    ensures { IfOk result (λ items. rows_left items ≡ labelled (entries_read rows.now)) }
{
    let mut items = Vec::new(alloc);
    for row in rows {
        items.push((Key::Trial(row), *row))?;
    }
    KeyedItems::new(alloc, hash_builder, &items)
}

// Returns the rows that failed.
pub(crate) fn failed_in(alloc: Global, rows: &[Row]) -> Result<Vec<&Row>, AllocError>
    ensures { IfOk result
        (λ found. map (λ row. row.now) found.items ≡ filter (λ row. is_failed row.outcome) rows.now) }
{
    rows.iter()
        .filter(|row| matches!(row.outcome, Outcome::Failed(_)))
        .collect(alloc)
}

fn passed_in(alloc: Global, rows: &[Row]) -> Result<Vec<&Row>, AllocError>
    ensures { IfOk result
        (λ found. map (λ row. row.now) found.items ≡ filter (λ row. has_passed row.outcome) rows.now) }
{
    rows.iter()
        .filter(|row| matches!(row.outcome, Outcome::Passed | Outcome::Measured(_)))
        .collect(alloc)
}

fn ignored_in(alloc: Global, rows: &[Row]) -> Result<Vec<&Row>, AllocError>
    ensures { IfOk result
        (λ found. map (λ row. row.now) found.items
        ≡ filter (λ row. is_ignored_outcome row.outcome) rows.now) }
{
    rows.iter()
        .filter(|row| matches!(row.outcome, Outcome::Ignored))
        .collect(alloc)
}

// Takes what the failure meets, if anything.
fn meet<'a, S: BuildHasher + Copy>(
    items: &mut KeyedItems<'a, &'a Expectation, S>,
    row: &'a Row,
) -> bool
    ensures met { result ≡ is_some (meets (lines_left items.old) (entry_read row.now)) }
    ensures left { lines_left items.new ≡ without (lines_left items.old) (entry_read row.now) }
{
    items.take(&Key::Failure(row)).is_some() || items.take(&Key::Trial(row)).is_some()
}

// Returns the failures that meet nothing, and takes from the expectations those that the others meet.
fn unmet_in<'a, S: BuildHasher + Copy>(
    alloc: Global,
    items: &mut KeyedItems<'a, &'a Expectation, S>,
    failed: &[&'a Row],
) -> Result<Vec<&'a Row>, AllocError>
    ensures { IfOk result
        (λ unmet. (entries_read unmet.items ≡ unmet_by (lines_left items.old) (entries_read failed.now))
        × (lines_left items.new ≡ left_by (lines_left items.old) (entries_read failed.now))) }
{
    let mut unmet = Vec::new(alloc);
    for row in failed {
        if !meet(items, row) {
            unmet.push(*row)?;
        }
    }
    Ok(unmet)
}

// Returns the rows that expectations can take, in the order in which they are taken.
pub(crate) fn others_in<'a>(
    alloc: Global,
    unmet: Vec<&'a Row>,
    rows: &'a [Row],
) -> Result<Vec<&'a Row>, AllocError>
    ensures { IfOk result (λ others. map (λ row. row.now) others.items
        ≡ map (λ row. row.now) unmet.entry.items ++ (filter (λ row. has_passed row.outcome) rows.now
        ++ filter (λ row. is_ignored_outcome row.outcome) rows.now)) }
{
    let mut others = unmet;
    others.extend_from_slice(&passed_in(alloc, rows)?)?;
    others.extend_from_slice(&ignored_in(alloc, rows)?)?;
    Ok(others)
}

// Returns what is unexpected about a line and the row that it took, if anything is.
fn finding<'a>(
    expectation: &'a Expectation,
    row: Option<&'a Row>,
    are_all: bool,
) -> Option<Unexpected<'a>>
    ensures { option_to_list (option_map finding_read result)
        ≡ fate are_all (expected_read expectation.now, option_map (λ row. entry_read row.now) row.entry) }
{
    let Some(row) = row else {
        return if are_all {
            Some(Unexpected::Absent(expectation))
        } else {
            None
        };
    };
    match &row.outcome {
        Outcome::Failed(_) => Some(Unexpected::AnotherMessage { expectation, row }),
        Outcome::Passed | Outcome::Measured(_) => Some(Unexpected::Passed(expectation)),
        Outcome::Ignored => None,
    }
}

// Adds what is unexpected about the lines that are left, and takes their rows from `others`.
fn add_findings<'a, S: BuildHasher + Copy>(
    unexpected: &mut Vec<Unexpected<'a>>,
    others: &mut KeyedItems<'a, &'a Row, S>,
    left: &[&'a Expectation],
    are_all: bool,
) -> Result<(), AllocError>
    ensures { OnOk result ((map finding_read unexpected.new.items ≡ map finding_read unexpected.old.items
        ++ flat_map (fate are_all) (answers (rows_left others.old) (expected_at left.now)))
        × (rows_left others.new ≡ unanswered (rows_left others.old) (expected_at left.now))) }
{
    for expectation in left {
        let row = others.take(&Key::Trial(&expectation.row));
        if let Some(found) = finding(expectation, row, are_all) {
            unexpected.push(found)?;
        }
    }
    Ok(())
}

// Adds the failures among the rows.
fn add_failures<'a>(
    unexpected: &mut Vec<Unexpected<'a>>,
    rows: &[&'a Row],
) -> Result<(), AllocError>
    ensures { OnOk result (map finding_read unexpected.new.items ≡ map finding_read unexpected.old.items
        ++ map FailedRow (rows_with is_failed (entries_read rows.now))) }
{
    for row in rows {
        if let Outcome::Failed(_) = &row.outcome {
            unexpected.push(Unexpected::Failed(*row))?;
        }
    }
    Ok(())
}

// What rows say, judged by known failures.
#[derive(Drop)]
pub(crate) struct Judgement<'a> {
    // The number of failures that are as a line says.
    pub(crate) met: usize,
    // What is unexpected: first what the lines say that no failure met, in their order, and then the failures that no line
    // expects, in the order of their rows.
    pub(crate) unexpected: Vec<Unexpected<'a>>,
}

// Returns the expectations that no failure meets, and the failures that meet none.
pub(crate) fn meeting<'a, S: BuildHasher + Copy>(
    alloc: Global,
    hash_builder: S,
    known: &'a [Expectation],
    failed: &[&'a Row],
) -> Result<(Vec<&'a Expectation>, Vec<&'a Row>), AllocError>
    ensures { IfOk result (λ found. (expected_at found.0.items
        ≡ map (λ x. x.1) (left_by (keyed (map expected_read known.now)) (entries_read failed.now)))
        × (entries_read found.1.items
        ≡ unmet_by (keyed (map expected_read known.now)) (entries_read failed.now))) }
{
    let mut items = keyed_expectations(alloc, hash_builder, known)?;
    let unmet = unmet_in(alloc, &mut items, failed)?;
    Ok((items.left(alloc)?, unmet))
}

// Returns what is unexpected about the expectations that are left, and then the failures among the rows that none of them took.
pub(crate) fn findings_of<'a, S: BuildHasher + Copy>(
    alloc: Global,
    hash_builder: S,
    left: &[&'a Expectation],
    others: &[&'a Row],
    are_all: bool,
) -> Result<Vec<Unexpected<'a>>, AllocError>
    ensures { IfOk result (λ unexpected. map finding_read unexpected.items
        ≡ findings_with (expected_at left.now) (entries_read others.now) are_all) }
{
    let mut items = keyed_rows(alloc, hash_builder, others)?;
    let mut unexpected = Vec::new(alloc);
    add_findings(&mut unexpected, &mut items, left, are_all)?;
    add_failures(&mut unexpected, &items.left(alloc)?)?;
    Ok(unexpected)
}

impl Judgement<'_> {
    // Whether anything is unexpected that counts: with `lax` a line whose trial passed doesn't.
    pub(crate) fn is_unexpected(&self, lax: bool) -> bool
        ensures { result ≡ list_any (λ found. counts lax (finding_read found)) self.now.unexpected.items }
    {
        self.unexpected.iter().any(|found| found.counts(lax))
    }

    // Counts the failures that no line expects.
    pub(crate) fn failed(&self) -> usize
        ensures { result ≡ count_by (λ found. is_failed_row (finding_read found)) self.now.unexpected.items }
    {
        self.unexpected
            .iter()
            .filter(|found| matches!(found, Unexpected::Failed(_)))
            .count()
    }

    // Counts the failures with another message than a line says.
    pub(crate) fn another_message(&self) -> usize
        ensures { result ≡ count_by (λ found. is_other_message (finding_read found)) self.now.unexpected.items }
    {
        self.unexpected
            .iter()
            .filter(|found| matches!(found, Unexpected::AnotherMessage { .. }))
            .count()
    }

    // Counts the lines whose trial passed or was measured.
    pub(crate) fn passed(&self) -> usize
        ensures { result ≡ count_by (λ found. is_passed_line (finding_read found)) self.now.unexpected.items }
    {
        self.unexpected
            .iter()
            .filter(|found| matches!(found, Unexpected::Passed(_)))
            .count()
    }

    // Counts the lines whose trial is absent.
    pub(crate) fn absent(&self) -> usize
        ensures { result ≡ count_by (λ found. is_absent_line (finding_read found)) self.now.unexpected.items }
    {
        self.unexpected
            .iter()
            .filter(|found| matches!(found, Unexpected::Absent(_)))
            .count()
    }
}

impl Unexpected<'_> {
    // Whether it makes the judgement one with unexpected rows.
    pub(crate) fn counts(&self, lax: bool) -> bool
        ensures { result ≡ counts lax (finding_read self.now) }
    {
        match self {
            Unexpected::Passed(_) => !lax,
            Unexpected::Failed(_) | Unexpected::AnotherMessage { .. } | Unexpected::Absent(_) => {
                true
            }
        }
    }
}
