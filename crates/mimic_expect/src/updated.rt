//! Brings files of known failures up to date.
ghost use Rattle.std.specs.Prelude.{◌≡◌, ◌∷◌, [], ◌++◌, IfOk, List, filter, map};
ghost use Rattle.std.specs.List.{AllZip, flat_map, list_all};
ghost use Rattle.std.specs.Option.{option_copied, option_map};
ghost use Rattle.mimic_printer.specs.Sink.{Adds, HasFaultLeft, shown};
ghost use Rattle.mimic_events.specs.Readings.{InputRead, IsReadOf, is_whole};
ghost use Rattle.mimic_expect.specs.Changes.{HasChanges, read_at};
ghost use Rattle.mimic_expect.specs.Expect.{counts};
ghost use Rattle.mimic_expect.specs.JudgedRows.{Keeps};
ghost use Rattle.mimic_expect.specs.JudgementText.{finding_read};
ghost use Rattle.mimic_expect.specs.Known.{expected_read, lines_of};
ghost use Rattle.mimic_expect.specs.Updated.{line_of, replaced_by, LeavesUpdate, UpdateLaws, added_line, kept_line, kept_lines, update_text};
ghost use Rattle.mimic_expect.specs.Verdict.{ends_of, rows_of};

use crate::judge::Judge;
use crate::judgement::Unexpected;
use crate::known::{KnownFile, first_line, says_nothing, without_end};
use crate::unexpected::add_row;
use crate::verdict::have_all;
use mimic_events::{Ending, read_into};
use mimic_printer::{OutputFault, Sink};
use std::alloc::{AllocError, Global};
use std::collections::HashMap;
use std::hash::BuildHasher;
use std::io::{Read, Write};

/// What was read to bring a file of known failures up to date.
#[derive(Debug, Drop)]
pub struct UpdateVerdict {
    /// How each input ended, in their order.
    pub ends: Vec<Ending>,
}

impl UpdateVerdict {
    /// Whether each input was a whole report, so that the new text was written.
    pub fn is_written(&self) -> bool
        ensures { result ≡ list_all is_whole self.now.ends.items }
    {
        self.ends.iter().all(|end| end.is_whole())
    }
}

/// Writes the text of a file of known failures as reports have it now, and flushes it. `file` has the old one.
///
/// What becomes of a line is what [`write_unexpected`](crate::write_unexpected) finds about it. Comments, empty lines, and the lines
/// of known failures about which nothing is found stay as they are. If a failure has another message now, the line that
/// [`write_known`](crate::write_known) writes of it takes the place of the old one. The line of a trial that passed goes, but with
/// `lax` it stays. That of an absent trial goes. Behind them come the lines of the failures that are not known, in the order of the
/// reports. If the last line of the old text has no end, it gets one.
///
/// Failures and rows of known kinds and names are kept meanwhile, and no others. Tables of kinds, names and messages hash by
/// `hash_builder`, as those of `write_unexpected` do.
///
/// If an input is no whole report, nothing is written: the verdict says how each ended. Without memory nothing was written either,
/// and with a fault of the writer a beginning.
#[tactic(auto, using(crate::proofs::UpdatedTexts::update_laws))]
pub fn write_updated<S: BuildHasher + Copy, I: Read + Drop, W: Write>(
    alloc: Global,
    hash_builder: S,
    file: KnownFile<'_>,
    inputs: Vec<I>,
    lax: bool,
    sink: &mut Sink<W>,
) -> Result<UpdateVerdict, OutputFault>
    requires { HasFaultLeft sink.old }
    ensures update { LeavesUpdate I.remaining inputs.items
        (λ read. update_text file.entry.text.now (map expected_read file.entry.known.now) read lax)
        (shown W.contents sink.old) (shown W.contents sink.new) result }

    // What the findings are about, and what the new text says.
    ensures laws { UpdateLaws }
{
    let mut judge = Judge::new(alloc, hash_builder, file.known)?;
    let ends = keep_inputs(alloc, inputs, &mut judge)?;
    let verdict = UpdateVerdict { ends };
    if !verdict.is_written() {
        return Ok(verdict);
    }
    let judgement = judge.finish(alloc, have_all(&verdict.ends))?;
    let found = counting(alloc, &judgement.unexpected, lax)?;
    let changes = changes_of(alloc, &found)?;
    add_kept(sink, file.text, &changes);
    add_unknown(sink, &found);
    sink.add_flush();
    sink.end()?;
    Ok(verdict)
}

// Gives the judge the rows of the inputs that matter, and returns how each ended.
fn keep_inputs<S: BuildHasher + Copy, I: Read + Drop>(
    alloc: Global,
    inputs: Vec<I>,
    judge: &mut Judge<'_, S>,
) -> Result<Vec<Ending>, AllocError>
    ensures { IfOk result (λ ends. (read : List InputRead)
        × AllZip (λ input r. IsReadOf (I.remaining input) r) inputs.items read
        × (ends.items ≡ ends_of read) × Keeps judge.old judge.new (rows_of read)) }
{
    let mut ends = Vec::new(alloc);
    for input in inputs {
        // To keep rows needs memory, and nothing else.
        let Ok(ending) = read_into(alloc, input, judge) else {
            return Err(AllocError);
        };
        ends.push(ending)?;
    }
    Ok(ends)
}

// Returns what counts of what is unexpected.
fn counting<'a>(
    alloc: Global,
    unexpected: &[Unexpected<'a>],
    lax: bool,
) -> Result<Vec<Unexpected<'a>>, AllocError>
    ensures { IfOk result (λ found. found.items
        ≡ filter (λ found. counts lax (finding_read found)) unexpected.now) }
{
    unexpected
        .iter()
        .copied()
        .filter(|found| found.counts(lax))
        .collect(alloc)
}

// Returns what was found about lines, to be found by their numbers.
fn changes_of<'a>(
    alloc: Global,
    found: &[Unexpected<'a>],
) -> Result<HashMap<usize, Unexpected<'a>>, AllocError>
    ensures { IfOk result (λ changes. HasChanges changes (map finding_read found.now)) }
{
    let mut changes = HashMap::new(alloc);
    for one in found {
        if let Some(line) = one.line() {
            changes.insert(line, *one)?;
        }
    }
    Ok(changes)
}

// Adds what becomes of the lines of the text.
fn add_kept<'a, W: Write>(sink: &mut Sink<W>, text: &[u8], changes: &HashMap<usize, Unexpected<'a>>)
    ensures { Adds W.contents sink.old sink.new
        (kept_lines (read_at changes.now) 1 (lines_of text.now)) }
{
    let mut rest = text;
    let mut number = 1;
    while let Some((line, after)) = first_line(rest) {
        if sink.has_fault() {
            return;
        }
        add_kept_line(sink, without_end(line), changes.get(&number));
        number += 1;
        rest = after;
    }
    if !rest.is_empty() {
        add_kept_line(sink, rest, changes.get(&number));
    }
}

// Adds what becomes of a line, by what was found about it. It has no end, and gets one.
fn add_kept_line<'a, W: Write>(sink: &mut Sink<W>, line: &[u8], found: Option<&Unexpected<'a>>)
    ensures { Adds W.contents sink.old sink.new
        (kept_line line.now (option_map finding_read (option_copied found.entry))) }
{
    match found {
        Some(found) if !says_nothing(line) => add_replacement(sink, found),
        _ => add_line(sink, line),
    }
}

// Adds the line, and its end.
#[tactic(auto, using(mimic_printer::proofs::Adding::adds_then))]
fn add_line<W: Write>(sink: &mut Sink<W>, line: &[u8])
    ensures { Adds W.contents sink.old sink.new (line.now ++ 10 ∷ []) }
{
    sink.add(line);
    sink.add(b"\n");
}

// Adds what replaces a line about which this was found.
fn add_replacement<W: Write>(sink: &mut Sink<W>, found: &Unexpected<'_>)
    ensures { Adds W.contents sink.old sink.new (replaced_by (finding_read found.now)) }
{
    if let Unexpected::AnotherMessage { row, .. } = found {
        add_row(sink, row);
    }
}

// Adds the lines of the failures that are not known.
fn add_unknown<W: Write>(sink: &mut Sink<W>, found: &[Unexpected<'_>])
    ensures { Adds W.contents sink.old sink.new
        (flat_map (λ one. added_line (finding_read one)) found.now) }
{
    for one in found {
        if sink.has_fault() {
            break;
        }
        add_if_unknown(sink, one);
    }
}

fn add_if_unknown<W: Write>(sink: &mut Sink<W>, found: &Unexpected<'_>)
    ensures { Adds W.contents sink.old sink.new (added_line (finding_read found.now)) }
{
    if let Unexpected::Failed(row) = found {
        add_row(sink, row);
    }
}

impl Unexpected<'_> {
    // The number of the line that it is about.
    fn line(&self) -> Option<usize>
        ensures { result ≡ line_of (finding_read self.now) }
    {
        match self {
            Unexpected::Failed(_) => None,
            Unexpected::AnotherMessage { expectation, .. }
            | Unexpected::Passed(expectation)
            | Unexpected::Absent(expectation) => Some(expectation.line),
        }
    }
}
