//! Keeps how far the lines of a report were read.
ghost use Rattle.std.specs.Prelude.{◌≡◌, ◌+◌, ◌++◌, ◌≤◌, MatchOption};
ghost use Rattle.mimic_printer.specs.Json.{IsLine, HasNoEnd};
ghost use Rattle.mimic_trial.specs.Count.{total_of};
ghost use Rattle.mimic_events.specs.Stage.{begun, most};

use crate::lines::{announced, ended, titled};
use crate::report::{Label, Row, Totals};
use crate::row_lines::row_at;
use crate::summary::summed;
use memchr::memchr;
use mimic_trial::Conclusion;
use std::alloc::{AllocError, Global};
use std::mem;

// What became of a line.
pub(crate) enum Taken {
    // It doesn't belong there.
    Astray,
    // It was read, and may have ended a row.
    Read(Option<Row>),
}

// What the lines so far said.
#[derive(Debug, Drop)]
pub(crate) struct Progress {
    stage: Stage,
    // The number of rows that the title announced, and 0 before it.
    announced: u64,
    // The number of rows that have come, and of each outcome among them.
    done: u64,
    counts: Conclusion,
    ghost counted: { total_of counts ≡ done },
    ghost within: { done + begun stage ≤ most stage announced },
}

impl Progress {
    ghost use Rattle.std.specs.Prelude.{◌≡◌, ◌+◌, [], List, IfOk, option_map};
    ghost use Rattle.mimic_printer.specs.Json.{Entry};
    ghost use Rattle.mimic_events.specs.Contents.{label_read};
    ghost use Rattle.mimic_events.specs.Progress.{CountsRow, IsCounted, Moves, HasTotals, announced_from, lines_from, next_of, running_from, start, state_with};

    // Makes a progress of no line yet.
    pub(crate) fn new() -> Self
        ensures start { state_with result [] ≡ start }
        ensures counted { IsCounted result [] }
    {
        Progress {
            stage: Stage::Title,
            announced: 0,
            done: 0,
            counts: Conclusion::empty(0),
        }
    }

    // Takes the next line, if it belongs there. If it doesn't, nothing changes.
    pub(crate) fn take_line(&mut self, alloc: Global, line: &[u8]) -> Result<Taken, AllocError>
        ensures { IfOk result (λ taken. (entries : List Entry) → IsCounted self.old entries
            → Moves self.old entries line.now self.new taken) }
    {
        let row = match &mut self.stage {
            Stage::Title => {
                let Some(count) = titled(line) else {
                    return Ok(Taken::Astray);
                };
                self.announced = count;
                self.stage = Stage::Row;
                None
            }
            Stage::Row if self.done < self.announced => {
                let Some(label) = announced(alloc, line)? else {
                    return Ok(Taken::Astray);
                };
                self.stage = Stage::Outcome(label);
                None
            }
            Stage::Row => {
                let Some((filtered_out, nanos)) = summed(&self.counts, line) else {
                    return Ok(Taken::Astray);
                };
                self.stage = Stage::Over(filtered_out, nanos);
                None
            }
            Stage::Outcome(label) => {
                let Some((outcome, nanos)) = ended(alloc, label, line)? else {
                    return Ok(Taken::Astray);
                };
                let name = mem::replace(&mut label.name, String::new(alloc));
                let kind = mem::replace(&mut label.kind, String::new(alloc));
                self.stage = Stage::Row;
                self.done += 1;
                self.counts.count(&outcome);
                Some(Row {
                    name,
                    kind,
                    outcome,
                    nanos,
                })
            }
            Stage::Over(_, _) => return Ok(Taken::Astray),
        };
        Ok(Taken::Read(row))
    }

    // Counts the row whose lines the text begins with, and returns what follows them, if a row comes next and `row_at` reads its
    // lines. If not, nothing changes.
    pub(crate) fn count_row<'a>(&mut self, text: &'a [u8]) -> Option<&'a [u8]>
        ensures { MatchOption result (self.new ≡ self.old)
            (λ rest. CountsRow self.old text.now self.new rest.now) }
    {
        match self.stage {
            Stage::Row if self.done < self.announced => {}
            _ => return None,
        }
        let (outcome, rest) = row_at(text)?;
        self.done += 1;
        self.counts.count(&outcome);
        Some(rest)
    }

    // Returns how many rows the title announced, if it was read.
    pub(crate) fn announced(&self) -> Option<u64>
        ensures { result ≡ announced_from (next_of self.now.stage) self.now.announced }
    {
        match self.stage {
            Stage::Title => None,
            Stage::Row | Stage::Outcome(_) | Stage::Over(_, _) => Some(self.announced),
        }
    }

    // Returns the trial that was announced, if its outcome comes next.
    pub(crate) fn running(&self) -> Option<&Label>
        ensures { option_map (λ label. label_read label.now) result
            ≡ running_from (next_of self.now.stage) }
    {
        match &self.stage {
            Stage::Outcome(label) => Some(label),
            Stage::Title | Stage::Row | Stage::Over(_, _) => None,
        }
    }

    // Returns the number of the line that comes next, from 1: before it are the title, and two lines for each row.
    pub(crate) fn next_line(&self) -> u128
        ensures { result ≡ lines_from (next_of self.now.stage) self.now.done + 1 }
    {
        let of_rows = 2 * u128::from(self.done);
        match self.stage {
            Stage::Title => 1,
            Stage::Row => of_rows + 2,
            Stage::Outcome(_) | Stage::Over(_, _) => of_rows + 3,
        }
    }

    // Returns what the lines said in numbers, if the summary was the last of them.
    pub(crate) fn into_totals(self) -> Option<Totals>
        ensures { (entries : List Entry) → IsCounted self entries
            → HasTotals (state_with self entries) result }
    {
        match self.stage {
            Stage::Over(filtered_out, nanos) => Some(Totals {
                rows: self.done,
                counts: Conclusion {
                    num_filtered_out: filtered_out,
                    ..self.counts
                },
                nanos,
            }),
            _ => None,
        }
    }
}

// Returns the first line, with its end, and what follows it.
#[tactic(auto, using(crate::proofs::FirstLines::line_before))]
pub(crate) fn first_line(bytes: &[u8]) -> Option<(&[u8], &[u8])>
    ensures { MatchOption result (HasNoEnd bytes.now)
        (λ x. (bytes.now ≡ x.0.now ++ x.1.now) × IsLine x.0.now) }
{
    let at = memchr(b'\n', bytes)?;
    Some(bytes.split_at(at + 1))
}

// Which line comes next.
#[derive(Debug, Drop)]
pub(crate) enum Stage {
    // The title.
    Title,
    // The announcement of a row, or the summary if all rows have come.
    Row,
    // The outcome of the trial that was announced.
    Outcome(Label),
    // None: the summary said how many trials were filtered out, and the nanoseconds.
    Over(u64, u64),
}
