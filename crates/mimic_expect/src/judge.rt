//! Judges rows that come one by one.
ghost use Rattle.std.specs.Prelude.{◌≡◌, ◌++◌, ◌∷◌, [], IfOk, MatchResult, length, map, option_to_list};
ghost use Rattle.mimic_trial.specs.Count.{is_failed};
ghost use Rattle.mimic_events.specs.Contents.{entry_read};
ghost use Rattle.mimic_expect.specs.Expect.{findings, is_known, keyed, known_rows, met_by, rows_with, unknown_failures};
ghost use Rattle.mimic_expect.specs.JudgedRows.{labels_known, matters};
ghost use Rattle.mimic_events.specs.Key.{HasTrials};
ghost use Rattle.mimic_expect.specs.JudgementText.{finding_read};
ghost use Rattle.mimic_expect.specs.Known.{expected_read};

use crate::judgement::{Judgement, failed_in, findings_of, meeting, others_in};
use crate::known::Expectation;
use mimic_events::{Key, Row, RowTaker};
use mimic_printer::OutputFault;
use mimic_trial::Outcome;
use std::alloc::{AllocError, Global};
use std::collections::HashSet;
use std::hash::BuildHasher;
use std::marker::Model;

// Judges rows that come one by one. It keeps those whose kind and name a known failure has, and others only if it is asked to.
//
// Contracts see the known failures and the rows that were kept.
#[derive(Drop)]
pub(crate) struct Judge<'a, S: BuildHasher> {
    known: &'a [Expectation],
    labels: HashSet<Key<'a>, S>,
    rows: Vec<Row>,
}

impl<'a, S: BuildHasher> Model for Judge<'a, S> {
    ghost use Rattle.std.specs.Prelude.{map};
    ghost use Rattle.mimic_events.specs.Contents.{entry_read};
    ghost use Rattle.mimic_events.specs.Key.{HasTrials};
    ghost use Rattle.mimic_expect.specs.JudgedRows.{Judged, labels_known};
    ghost use Rattle.mimic_expect.specs.Known.{expected_read};

    ghost Value = { Judged };

    ghost view = { λ j. record {
      known = map expected_read j.known.now;
      rows = map entry_read j.rows.items;
    } };

    ghost invariant = { λ j. HasTrials j.labels (labels_known j.known.now) };
}

impl<'a, S: BuildHasher + Copy> Judge<'a, S> {
    // Makes a judge that has seen no row yet.
    pub(crate) fn new(
        alloc: Global,
        hash_builder: S,
        known: &'a [Expectation],
    ) -> Result<Judge<'a, S>, AllocError>
        ensures { IfOk result (λ judge. judge ≡ record { known = map expected_read known.now; rows = [] }) }
    {
        let labels = labels_in(alloc, hash_builder, known)?;
        Ok(Judge {
            known,
            labels,
            rows: Vec::new(alloc),
        })
    }

    // Takes a row. One whose kind and name some known failure has is kept. Any other failure is handed back: it is unexpected
    // whatever follows. The rest is dropped.
    pub(crate) fn row(&mut self, row: Row) -> Result<Option<Row>, AllocError>
        ensures { MatchResult result (λ unknown. (self.new.known ≡ self.old.known)
            × (self.new.rows ≡ self.old.rows ++ known_rows self.old.known (entry_read row ∷ []))
            × (map entry_read (option_to_list unknown) ≡ unknown_failures self.old.known (entry_read row ∷ [])))
            (λ _. unknown_failures self.old.known (entry_read row ∷ []) ≡ []) }
    {
        if self.knows(&row) {
            self.rows.push(row)?;
            return Ok(None);
        }
        let Outcome::Failed(_) = &row.outcome else {
            return Ok(None);
        };
        Ok(Some(row))
    }

    // Whether the row can change what is found.
    fn matters(&self, row: &Row) -> bool
        ensures { result ≡ matters self.now.known (entry_read row.now) }
    {
        match &row.outcome {
            Outcome::Failed(_) => true,
            _ => self.knows(row),
        }
    }

    // Whether some known failure has the kind and name of the row.
    fn knows(&self, row: &Row) -> bool
        ensures { result ≡ is_known self.now.known (entry_read row.now) }
    {
        (&self.labels).contains(&Key::Trial(row))
    }

    // Judges the rows that were kept.
    pub(crate) fn finish(&self, alloc: Global, are_all: bool) -> Result<Judgement<'_>, AllocError>
        ensures met { IfOk result (λ judgement. judgement.met
            ≡ length (met_by (keyed self.now.known) (rows_with is_failed self.now.rows))) }
        ensures unexpected { IfOk result (λ judgement. map finding_read judgement.unexpected.items
            ≡ findings self.now.known self.now.rows are_all) }
    {
        let hash_builder = *self.labels.hasher();
        let failed = failed_in(alloc, &self.rows)?;
        let (left, unmet) = meeting(alloc, hash_builder, self.known, &failed)?;
        let met = failed.len() - unmet.len();
        let others = others_in(alloc, unmet, &self.rows)?;
        let unexpected = findings_of(alloc, hash_builder, &left, &others, are_all)?;
        Ok(Judgement { met, unexpected })
    }
}

// Keeps the rows that matter.
impl<S: BuildHasher + Copy> RowTaker for Judge<'_, S> {
    ghost use Rattle.std.specs.Prelude.{◌≡◌};
    ghost use Rattle.mimic_printer.specs.declared.sink.OutputFault.TheVariants.{OutOfMemory};
    ghost use Rattle.mimic_expect.specs.JudgedRows.{Keeps};

    ghost takes = { λ old rows new. Keeps old new rows };

    ghost stops = { λ old rows fault new. fault ≡ OutOfMemory };

    fn take(&mut self, row: Row) -> Result<(), OutputFault> {
        if self.matters(&row) {
            self.rows.push(row)?;
        }
        Ok(())
    }
}

// Returns the kinds and names of the known failures.
fn labels_in<S: BuildHasher + Copy>(
    alloc: Global,
    hash_builder: S,
    known: &[Expectation],
) -> Result<HashSet<Key<'_>, S>, AllocError>
    ensures { IfOk result (λ labels. HasTrials labels (labels_known known.now)) }
{
    let mut labels = HashSet::with_hasher(alloc, hash_builder);
    for expectation in known {
        labels.insert(Key::Trial(&expectation.row))?;
    }
    Ok(labels)
}
