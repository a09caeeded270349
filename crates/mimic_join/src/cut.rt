//! Joins what can be read of the reports of shards, some of which may be cut.
ghost use Rattle.std.specs.Prelude.{◌≡◌, ◌-◌, ◌^◌, ◌<◌, [], IfOk, MatchOption, MatchResult, length, map, min, sum};
ghost use Rattle.std.specs.List.{flat_map};
ghost use Rattle.std.specs.Option.{option_to_list};
ghost use Rattle.mimic_printer.specs.Sink.{Adds, HasFaultLeft, shown};
ghost use Rattle.mimic_join.specs.Cut.{AreReadOf, LeavesCut, are_whole, cut_text, ended_rows, title_in, titles_in, wholes_in};

use crate::faults::JoinFault;
use crate::inputs::add_joined;
use crate::order::{add_rows, ended_in_turn};
use mimic_events::{Ending, Report, Row, RowsRead, read_rows};
use mimic_printer::Sink;
use mimic_printer::json::add_title;
use mimic_trial::Conclusion;
use std::alloc::{AllocError, Global};
use std::hash::BuildHasher;
use std::io::{Read, Write};

/// What was joined.
#[derive(Debug, Drop)]
pub enum Joined {
    /// Whole reports of all shards, to one with these counts.
    Whole(Conclusion),
    /// What was read of each shard, to a cut report.
    Cut(Vec<RowsRead>),
}

/// Reads the reports of `shards` shards, one reader after another, and joins what can be read of them.
///
/// If all are whole, and there are no fewer than shards, it does what [`join_reports`](crate::join_reports) does, which refuses more.
/// Otherwise it writes a cut report, and flushes it: a title with the sum of the numbers that their titles announce, at most 2^64 - 1,
/// and the rows that have ended in them, in turn, each once. There is no summary. It writes nothing if there is no title. It isn't
/// seen then if a trial is in two of the reports, or if they can't be those of shards of one list.
///
/// A reader that fails counts as one without a title: the rows that it gave before are not written.
#[tactic(auto, using(mimic_printer::proofs::Adding::puts_added))]
pub fn join_cut_reports<S: BuildHasher + Drop, I: Read + Drop, O: Write>(
    alloc: Global,
    hash_builder: S,
    inputs: Vec<I>,
    shards: usize,
    equal_names: bool,
    sink: &mut Sink<O>,
) -> Result<Joined, JoinFault>
    requires { HasFaultLeft sink.old }
    ensures { LeavesCut (map I.remaining inputs.items) shards equal_names
        (shown O.contents sink.old) (shown O.contents sink.new) result }
{
    let reads = read_all(alloc, inputs)?;
    if reads.len() < shards || !are_whole(&reads) {
        add_cut(alloc, &reads, sink)?;
        sink.end()?;
        return Ok(Joined::Cut(reads));
    }
    let reports = wholes_of(alloc, reads)?;
    let counts = match add_joined(alloc, hash_builder, &reports, shards, equal_names, sink)? {
        Ok(counts) => counts,
        Err(refusal) => return Err(JoinFault::Refused(refusal)),
    };
    sink.end()?;
    Ok(Joined::Whole(counts))
}

// Reads what can be read of each reader.
fn read_all<I: Read + Drop>(alloc: Global, inputs: Vec<I>) -> Result<Vec<RowsRead>, AllocError>
    ensures { IfOk result (λ reads. AreReadOf (map I.remaining inputs.items) reads.items) }
{
    let mut reads = Vec::new(alloc);
    for input in inputs {
        reads.push(read_rows(alloc, input)?)?;
    }
    Ok(reads)
}

// The report, if all of it was read.
fn report_in(read: RowsRead) -> Option<Report>
    ensures { option_to_list result ≡ wholes_in read }
{
    let RowsRead { rows, ending } = read;
    match ending {
        Ending::Whole {
            filtered_out,
            nanos,
        } => Some(Report {
            rows,
            filtered_out,
            nanos,
        }),
        Ending::Cut(_) | Ending::Failed(_) => None,
    }
}

// How many trials the report's title announces, if it has one.
fn announced(read: &RowsRead) -> Option<u64>
    ensures { option_to_list result ≡ title_in read.now }
{
    match &read.ending {
        Ending::Whole { .. } => Some(read.rows.len() as u64),
        Ending::Cut(stop) => stop.announced,
        Ending::Failed(_) => None,
    }
}

// The rows that have ended in the report, unless its reader failed.
pub(crate) fn ended_rows(read: &RowsRead) -> &[Row]
    ensures { result.now ≡ ended_rows read.now }
{
    match &read.ending {
        Ending::Whole { .. } | Ending::Cut(_) => &read.rows,
        Ending::Failed(_) => &[],
    }
}

// Whether all of each report was read.
fn are_whole(reads: &[RowsRead]) -> bool
    ensures { result ≡ are_whole reads.now }
{
    reads.iter().all(|read| read.ending.is_whole())
}

// Returns the reports of which all was read.
fn wholes_of(alloc: Global, reads: Vec<RowsRead>) -> Result<Vec<Report>, AllocError>
    ensures { IfOk result (λ reports. reports.items ≡ flat_map wholes_in reads.items) }
{
    let mut reports = Vec::new(alloc);
    for read in reads {
        if let Some(report) = report_in(read) {
            reports.push(report)?;
        }
    }
    Ok(reports)
}

// Adds a cut report of what was read, and a flush behind it.
fn add_cut<W: Write>(
    alloc: Global,
    reads: &[RowsRead],
    sink: &mut Sink<W>,
) -> Result<(), AllocError>
    ensures { MatchResult result (λ _. Adds W.contents sink.old sink.new (cut_text reads.now)) (λ _. sink.new ≡ sink.old) }
{
    let rows = ended_in_turn(alloc, reads)?;
    let Some(announced) = announced_together(reads) else {
        return Ok(());
    };
    add_title(sink, announced);
    add_rows(sink, rows.as_slice());
    sink.add_flush();
    Ok(())
}

// Returns how many trials the titles announce together, at most the greatest number that a title can have. `None` says that there
// is no title.
fn announced_together(reads: &[RowsRead]) -> Option<u64>
    ensures { MatchOption result (titles_in reads.now ≡ [])
        (λ all. (0 < length (titles_in reads.now)) × (all ≡ min (sum (titles_in reads.now)) (2 ^ 64 - 1))) }
{
    let mut sum = None;
    for read in reads {
        if let Some(count) = announced(read) {
            sum = Some(sum.unwrap_or(0_u64).saturating_add(count));
        }
    }
    sum
}
