//! Joins reports from readers into a writer.
ghost use Rattle.std.specs.Prelude.{◌≡◌, ◌<◌, ◌^◌, MatchResult, map};
ghost use Rattle.mimic_printer.specs.Json.{conclusion_of};
ghost use Rattle.mimic_printer.specs.Sink.{Adds, HasFaultLeft, shown};
ghost use Rattle.mimic_join.specs.Inputs.{AreReportsIn, CannotRead, Leaves, joined_text};
ghost use Rattle.mimic_join.specs.Joined.{CanBeShards, IsRefused, filtered_out_of, joined_contents};

use crate::faults::JoinFault;
use crate::join::{Refusal, totals_of};
use crate::order::{add_rows, counts_of_refs, refs_in_turn};
use mimic_events::{Report, read_from};
use mimic_printer::Sink;
use mimic_printer::json::{add_summary, add_title};
use mimic_trial::Conclusion;
use std::alloc::{AllocError, Global};
use std::hash::BuildHasher;
use std::io::{Read, Write};

/// Reads the reports of `shards` shards, one reader after another, joins them as `joined` does, and writes the joined report in
/// JSON. It returns the counts of that report.
///
/// A reader is dropped when it has been read. All rows are kept, and none of the texts.
pub fn join_reports<S: BuildHasher + Drop, I: Read + Drop, O: Write>(
    alloc: Global,
    hash_builder: S,
    inputs: Vec<I>,
    shards: usize,
    equal_names: bool,
    sink: &mut Sink<O>,
) -> Result<Conclusion, JoinFault>
    requires { HasFaultLeft sink.old }
    ensures { Leaves (map I.remaining inputs.items) shards equal_names
        (shown O.contents sink.old) (shown O.contents sink.new) result }
{
    let reports = read_all(alloc, inputs)?;
    let counts = match add_joined(alloc, hash_builder, &reports, shards, equal_names, sink)? {
        Ok(counts) => counts,
        Err(refusal) => return Err(JoinFault::Refused(refusal)),
    };
    sink.end()?;
    Ok(counts)
}

// Joins the reports as `joined` does, and adds the joined report and a flush, unless they can't be joined. Returns its counts.
pub(crate) fn add_joined<S: BuildHasher + Drop, W: Write>(
    alloc: Global,
    hash_builder: S,
    reports: &[Report],
    shards: usize,
    equal_names: bool,
    sink: &mut Sink<W>,
) -> Result<Result<Conclusion, Refusal>, AllocError>
    ensures { MatchResult result (λ answer. MatchResult answer
        (λ counts. CanBeShards shards equal_names reports.now × (filtered_out_of reports.now < 2 ^ 64)
        × (counts ≡ conclusion_of (joined_contents reports.now))
        × Adds W.contents sink.old sink.new (joined_text reports.now))
        (λ refusal. IsRefused shards equal_names reports.now refusal × (sink.new ≡ sink.old)))
        (λ _. sink.new ≡ sink.old) }
{
    let totals = totals_of(alloc, hash_builder, reports, shards, equal_names)?;
    let (filtered_out, nanos) = match totals {
        Ok(totals) => totals,
        Err(refusal) => return Ok(Err(refusal)),
    };
    let rows = refs_in_turn(alloc, reports)?;
    let rows = rows.as_slice();
    let counts = counts_of_refs(rows, filtered_out);
    add_title(sink, rows.len() as u64);
    add_rows(sink, rows);
    add_summary(sink, &counts, nanos);
    sink.add_flush();
    Ok(Ok(counts))
}

// Reads the report of each reader.
fn read_all<I: Read + Drop>(alloc: Global, inputs: Vec<I>) -> Result<Vec<Report>, JoinFault>
    ensures { MatchResult result
        (λ reports. AreReportsIn (map I.remaining inputs.items) reports.items)
        (CannotRead (map I.remaining inputs.items)) }
{
    let mut reports = Vec::new(alloc);
    let mut place = 0;
    for mut input in inputs {
        match read_from(alloc, &mut input) {
            Ok(report) => reports.push(report)?,
            Err(fault) => return Err(JoinFault::Input { place, fault }),
        }
        place += 1;
    }
    Ok(reports)
}
