//! Writes what of reports is unexpected.
ghost use Rattle.std.specs.Prelude.{[], ◌≡◌, ◌<◌, ◌-◌, ◌^◌, List, IfSome, MatchResult, map};
ghost use Rattle.std.specs.List.{AllZip, flat_map};
ghost use Rattle.mimic_printer.specs.Json.{Entry};
ghost use Rattle.mimic_printer.specs.Sink.{Adds, HasFaultLeft, shown};
ghost use Rattle.mimic_events.specs.Readings.{HasEndedRows, InputRead, IsReading, IsReadOf};
ghost use Rattle.mimic_expect.specs.Expect.{ExpectLaws};
ghost use Rattle.mimic_expect.specs.FindingText.{finding_text, running_text, unknown_text};
ghost use Rattle.mimic_expect.specs.JudgedRows.{Judges};
ghost use Rattle.mimic_expect.specs.JudgementText.{finding_read, judgement_numbers, judgement_text};
ghost use Rattle.mimic_expect.specs.Known.{expected_read};
ghost use Rattle.mimic_expect.specs.KnownText.{StoppedBy};
ghost use Rattle.mimic_expect.specs.Verdict.{AreBegun, LeavesVerdict, ends_of, rows_of};

use crate::judge::Judge;
use crate::judgement::{Judgement, Unexpected};
use crate::known::Expectation;
use crate::options::{ExpectOptions, Lines};
use crate::unexpected::add_running_line;
use crate::verdict::{ExpectationVerdict, have_all};
use mimic_events::{Ending, Row, RowTaker, read_into};
use mimic_printer::{OutputFault, Piece, Sink, add_pieces};
use std::alloc::Global;
use std::hash::BuildHasher;
use std::io::{Read, Write};

/// Writes what of the reports is not as the known failures say, each once and as one line, then a line of the numbers, and
/// flushes it. Of a report that is not whole the rows are judged that have ended. If the last line of it that has ended, or the last
/// before a wrong one, announces a trial, this one was running: its line comes before the numbers.
///
/// A failure meets one known failure of its kind and name: the first one of its message that is left, or else the first one of
/// any message. Each known failure that is left then takes a row of its kind and name that has met nothing: a failure, which
/// has another message, or else one that passed or was measured, or else an ignored one, about which nothing is written. A
/// known failure that finds no row is absent. This is written only if each input is a whole report and no trial was filtered
/// out. With `options.lax` a known failure that passed is written, but doesn't count.
///
/// A failure whose kind and name no known failure has is written as soon as it is read. Rows of known kinds and names are kept,
/// and no others.
///
/// Kinds, names and messages are found in hash tables that hash by `hash_builder`. If its hashes are known beforehand, as those of
/// std's default are, whoever chooses these texts can give all of them one hash, and then each is looked for among all of them. So
/// pass a [`RandomState`](std::hash::RandomState) if others choose them.
///
/// If an input fails, the others are still judged: the verdict says how each ended, and of that one rows are judged that have ended
/// in a front of its bytes. Without memory the lines were written of the failures that no known failure has, among rows that were
/// judged so of some first inputs and of the next one. With a fault of the writer a beginning of such lines, or of the whole text,
/// was written.
#[tactic(auto, using(crate::proofs::Strangers::expect_laws))]
pub fn write_unexpected<S: BuildHasher + Copy, I: Read + Drop, W: Write>(
    alloc: Global,
    hash_builder: S,
    known: &[Expectation],
    inputs: Vec<I>,
    options: ExpectOptions,
    sink: &mut Sink<W>,
) -> Result<ExpectationVerdict, OutputFault>
    requires { HasFaultLeft sink.old }
    ensures verdict { LeavesVerdict I.remaining (map expected_read known.now) inputs.items options
        (shown W.contents sink.old) (shown W.contents sink.new) result }

    // What it means to meet a line, and that the findings are those of all rows together.
    ensures laws { ExpectLaws }
{
    let mut judge = Judge::new(alloc, hash_builder, known)?;
    let (failed, ends) = judge_inputs(alloc, inputs, &mut judge, options.lines, sink)?;
    let judgement = judge.finish(alloc, have_all(&ends))?;
    add_judgement(sink, options.lines, &judgement, failed, &ends);
    sink.add_flush();
    sink.end()?;
    Ok(ExpectationVerdict {
        is_unexpected: failed > 0 || judgement.is_unexpected(options.lax),
        ends,
    })
}

// Judges the rows of the inputs. It returns how many failures have a kind and a name that no known failure has, and how each input
// ended.
fn judge_inputs<S: BuildHasher + Copy, I: Read + Drop, W: Write>(
    alloc: Global,
    inputs: Vec<I>,
    judge: &mut Judge<'_, S>,
    lines: Lines,
    sink: &mut Sink<W>,
) -> Result<(u128, Vec<Ending>), OutputFault>
    requires { HasFaultLeft sink.old }
    ensures { MatchResult result
        (λ x. (read : List InputRead)
        × AllZip (λ input r. IsReadOf (I.remaining input) r) inputs.items read
        × (x.1.items ≡ ends_of read)
        × Judges lines judge.old judge.new (rows_of read) x.0
        (shown W.contents sink.old) (shown W.contents sink.new) × (x.0 < 2 ^ 128 - 2 ^ 64))
        (λ fault. (rows : List Entry) × AreBegun I.remaining inputs.items rows
        × StoppedBy fault (shown W.contents sink.old) (shown W.contents sink.new)
        (unknown_text lines judge.old.known rows)) }
{
    let mut failed = 0_u128;
    let mut ends = Vec::new(alloc);
    for input in inputs {
        let (count, ending) = judge_input(alloc, input, judge, lines, sink)?;
        failed += u128::from(count);
        ends.push(ending)?;
    }
    Ok((failed, ends))
}

// Judges the rows of an input. It returns how many failures have a kind and a name that no known failure has, and how the input
// ended.
fn judge_input<S: BuildHasher + Copy, I: Read + Drop, W: Write>(
    alloc: Global,
    input: I,
    judge: &mut Judge<'_, S>,
    lines: Lines,
    sink: &mut Sink<W>,
) -> Result<(u64, Ending), OutputFault>
    requires { HasFaultLeft sink.old }
    ensures { MatchResult result
        (λ x. (entries : List Entry) × IfSome (I.remaining input) (IsReading entries x.1)
        × Judges lines judge.old judge.new entries x.0
        (shown W.contents sink.old) (shown W.contents sink.new))
        (λ fault. (rows : List Entry) × IfSome (I.remaining input) (HasEndedRows rows)
        × StoppedBy fault (shown W.contents sink.old) (shown W.contents sink.new)
        (unknown_text lines judge.old.known rows)) }
{
    let mut judging = Judging {
        judge,
        lines,
        sink,
        failed: 0,
    };
    let ending = judging.read(alloc, input)?;
    Ok((judging.failed, ending))
}

// Judges the rows that it takes, and counts and writes the failures whose kind and name no known failure has.
#[derive(Drop)]
struct Judging<'a, 'k, 's, S: BuildHasher, W: Write> {
    judge: &'a mut Judge<'k, S>,
    lines: Lines,
    sink: &'s mut Sink<W>,
    failed: u64,
}

impl<S: BuildHasher + Copy, W: Write> Judging<'_, '_, '_, S, W> {
    // Judges the rows of the input, and returns how it ended. The toolchain proves no call of `read_into` in the function that makes
    // the `Judging`, since that borrows a `Judge`.
    fn read<I: Read + Drop>(&mut self, alloc: Global, input: I) -> Result<Ending, OutputFault>
        requires { ⟦<Judging<'static, 'static, 'static, S, W> as RowTaker>⟧.takes self.old [] self.old }
        ensures { MatchResult result
            (λ ending. (rows : List Entry) × IfSome (I.remaining input) (IsReading rows ending)
            × ⟦<Judging<'static, 'static, 'static, S, W> as RowTaker>⟧.takes self.old rows self.new)
            (λ fault. (rows : List Entry) × IfSome (I.remaining input) (HasEndedRows rows)
            × ⟦<Judging<'static, 'static, 'static, S, W> as RowTaker>⟧.stops self.old rows fault self.new) }
    {
        read_into(alloc, input, self)
    }
}

impl<S: BuildHasher + Copy, W: Write> RowTaker for Judging<'_, '_, '_, S, W> {
    ghost use Rattle.std.specs.Prelude.{◌≡◌};
    ghost use Rattle.mimic_printer.specs.Sink.{shown};
    ghost use Rattle.mimic_expect.specs.FindingText.{unknown_text};
    ghost use Rattle.mimic_expect.specs.JudgedRows.{Judges};
    ghost use Rattle.mimic_expect.specs.KnownText.{StaysSink, StoppedBy};

    ghost takes = { λ old rows new. (new.judge.ghost_name ≡ old.judge.ghost_name) × (new.lines ≡ old.lines)
        × StaysSink old.sink new.sink
        × Judges old.lines old.judge.now new.judge.now rows new.failed
        (shown W.contents old.sink.now) (shown W.contents new.sink.now) };

    ghost stops = { λ old rows fault new. (new.judge.ghost_name ≡ old.judge.ghost_name)
        × (new.sink.ghost_name ≡ old.sink.ghost_name)
        × StoppedBy fault (shown W.contents old.sink.now) (shown W.contents new.sink.now)
        (unknown_text old.lines old.judge.now.known rows) };

    fn take(&mut self, row: Row) -> Result<(), OutputFault> {
        let Some(unknown) = self.judge.row(row)? else {
            return Ok(());
        };
        Unexpected::Failed(&unknown).add_to(self.sink, self.lines);
        self.sink.end()?;
        self.failed += 1;
        Ok(())
    }
}

// Adds what the judgement says, the trials that were running at these ends, and the numbers, to which these failures count that
// were written before.
fn add_judgement<W: Write>(
    sink: &mut Sink<W>,
    lines: Lines,
    judgement: &Judgement<'_>,
    failed: u128,
    ends: &[Ending],
)
    requires { failed < 2 ^ 128 - 2 ^ 64 }
    ensures { Adds W.contents sink.old sink.new (judgement_text lines judgement.now failed ends.now) }
{
    add_unexpected(sink, lines, &judgement.unexpected);
    add_running(sink, lines, ends);
    add_numbers(sink, judgement, failed);
}

// Adds a line of each.
fn add_unexpected<W: Write>(sink: &mut Sink<W>, lines: Lines, unexpected: &[Unexpected<'_>])
    ensures { Adds W.contents sink.old sink.new
        (flat_map (λ found. finding_text lines (finding_read found)) unexpected.now) }
{
    for found in unexpected {
        if sink.has_fault() {
            break;
        }
        found.add_to(sink, lines);
    }
}

// Adds a line of each trial that was running when its report was cut.
fn add_running<W: Write>(sink: &mut Sink<W>, lines: Lines, ends: &[Ending])
    ensures { Adds W.contents sink.old sink.new (flat_map (running_text lines) ends.now) }
{
    for ending in ends {
        add_running_line(sink, lines, ending);
    }
}

// Adds the line of the numbers, to which these failures count that were written before.
fn add_numbers<W: Write>(sink: &mut Sink<W>, judgement: &Judgement<'_>, failed: u128)
    requires { failed < 2 ^ 128 - 2 ^ 64 }
    ensures { Adds W.contents sink.old sink.new (judgement_numbers judgement.now failed) }
{
    let failed = failed + judgement.failed() as u128;
    let pieces = [
        Piece::Number(judgement.met as u64),
        Piece::Text(" known failures; "),
        Piece::Long(&failed),
        Piece::Text(" failed; "),
        Piece::Number(judgement.passed() as u64),
        Piece::Text(" passed; "),
        Piece::Number(judgement.another_message() as u64),
        Piece::Text(" with another message; "),
        Piece::Number(judgement.absent() as u64),
        Piece::Text(" absent\n"),
    ];
    add_pieces(sink, &pieces);
}
