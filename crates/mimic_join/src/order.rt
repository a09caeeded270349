//! The rows of reports in turn.
ghost use Rattle.std.specs.Prelude.{◌≡◌, All, IfOk, List, map};
ghost use Rattle.std.specs.List.{AllZip, flat_map};
ghost use Rattle.std.specs.Iterator.{AlwaysYields, IsFinite};
ghost use Rattle.mimic_events.specs.declared.report.Row.{Row};
ghost use Rattle.mimic_join.specs.Cut.{ended_rows};
ghost use Rattle.mimic_join.specs.Joined.{rows_in};
ghost use Rattle.mimic_join.specs.Turns.{in_turn};
ghost use Rattle.mimic_trial.specs.Count.{counts_of};
ghost use Rattle.mimic_printer.specs.Sink.{Adds};
ghost use Rattle.mimic_events.specs.Written.{row_lines};

use crate::cut::ended_rows;
use mimic_events::{Report, Row, RowsRead, add_row};
use mimic_printer::Sink;
use mimic_trial::Conclusion;
use std::alloc::{AllocError, Global};
use std::collections::VecDeque;
use std::io::Write;

// Returns the rows of the reports in turn.
pub(crate) fn rows_in_turn(alloc: Global, reports: Vec<Report>) -> Result<Vec<Row>, AllocError>
    ensures { IfOk result (λ rows. rows.items ≡ in_turn (map rows_in reports.items)) }
{
    let lists = reports.into_iter().map(|report| report.rows.into_iter());
    taken_in_turn(alloc, lists.collect(alloc)?)
}

// Returns the rows of the reports in turn. They stay where they are, so that no second list of them is kept.
pub(crate) fn refs_in_turn(alloc: Global, reports: &[Report]) -> Result<Vec<&Row>, AllocError>
    ensures { IfOk result
        (λ rows. map (λ row. row.now) rows.items ≡ in_turn (map rows_in reports.now)) }
{
    let lists = reports.iter().map(|report| report.rows.iter());
    taken_in_turn(alloc, lists.collect(alloc)?)
}

// Returns the rows that have ended in the reports, in turn. They stay where they are.
pub(crate) fn ended_in_turn(alloc: Global, reads: &[RowsRead]) -> Result<Vec<&Row>, AllocError>
    ensures { IfOk result
        (λ rows. map (λ row. row.now) rows.items ≡ in_turn (map ended_rows reads.now)) }
{
    let lists = reads.iter().map(|read| ended_rows(read).iter());
    taken_in_turn(alloc, lists.collect(alloc)?)
}

// Takes the rows of the lists in turn. The first row of the first list comes, and what is left of that list goes behind the
// others.
#[inline(never)]
fn taken_in_turn<I: Iterator>(alloc: Global, lists: Vec<I>) -> Result<Vec<I::Item>, AllocError>
where
    I::Item: Drop,
    requires { All (λ list. I.can_next list × IsFinite (I.remaining list)) lists.items }
    ensures { IfOk result (λ rows. (row_in : I.Item → Row) (lists_in : List (List Row))
        → AllZip (AlwaysYields I.next_gives row_in) lists.items lists_in
        → map row_in rows.items ≡ in_turn lists_in) }
{
    let mut lists = VecDeque::from_vec(lists);
    let mut rows = Vec::new(alloc);
    while let Some(mut list) = lists.pop_front() {
        if let Some(row) = list.next() {
            rows.push(row)?;
            lists.push_back(list)?;
        }
    }
    Ok(rows)
}

// Counts the rows with each outcome.
pub(crate) fn counts_of_refs(rows: &[&Row], filtered_out: u64) -> Conclusion
    ensures { result ≡ counts_of (map (λ row. row.now.outcome) rows.now) filtered_out }
{
    let mut counts = Conclusion::empty(filtered_out);
    for row in rows {
        counts.count(&row.outcome);
    }
    counts
}

// Adds the rows, which are elsewhere.
#[inline(never)]
pub(crate) fn add_rows<W: Write>(sink: &mut Sink<W>, rows: &[&Row])
    ensures { Adds W.contents sink.old sink.new (flat_map (λ row. row_lines row.now) rows.now) }
{
    for row in rows {
        if sink.has_fault() {
            break;
        }
        add_row(sink, row);
    }
}
