//! Writes the failures at the end of a report: the messages of the trials that failed, and their names.
ghost use Rattle.std.specs.Prelude.{◌≡◌, ◌<◌, List, Some, length, slice_get};
ghost use Rattle.std.specs.List.{flat_map, list_any};
ghost use Rattle.mimic_trial.specs.Count.{is_failed};
ghost use Rattle.mimic_printer.specs.Row.{PrintedRow, label_of, outcomes_of, row_of};
ghost use Rattle.mimic_printer.specs.Failures.{row_part};
ghost use Rattle.mimic_printer.specs.Report.{failed_name, failure_text, failures_if_any};
ghost use Rattle.mimic_printer.specs.Sink.{Adds};

use crate::piece::{Piece, add_pieces};
use crate::sink::Sink;
use mimic_trial::{Outcome, TestInfo};
use std::io::Write;

/// Rows of which the failures are shown, in whatever form they are held: each is a trial's info with its outcome. They are
/// numbered from 0, and a printer asks for each up to three times.
pub trait ShownRows {
    /// Whether they may be shown. If an `impl` says nothing, they always may.
    ghost can_show: { Self → Type 0 } = { λ _. Unit {0} };

    /// The rows, in their order.
    ghost rows_of: { Self → List PrintedRow };

    /// Returns how many rows there are.
    fn len(&self) -> usize
        requires { can_show self.now }
        ensures { result ≡ length (rows_of self.now) };

    /// Returns the row of this number.
    fn row(&self, number: usize) -> (&TestInfo, &Outcome)
        requires can_show { can_show self.now }
        requires within { number < length (rows_of self.now) }
        ensures { slice_get (rows_of self.now) number
            ≡ Some (row_of result.0.now result.1.now) };
}

// Rows one after another.
#[derive(Clone, Copy)]
pub(crate) struct Kept<'a> {
    pub(crate) rows: &'a [(TestInfo, Outcome)],
}

impl<'a> ShownRows for Kept<'a> {
    ghost use Rattle.mimic_printer.specs.Row.{rows_from};

    ghost rows_of = { λ kept. rows_from kept.rows.now };

    fn len(&self) -> usize {
        self.rows.len()
    }

    fn row(&self, number: usize) -> (&TestInfo, &Outcome) {
        let row = &self.rows[number];
        (&row.0, &row.1)
    }
}

// The rows at the places of `order`, in that order. Infos and outcomes are by place.
#[derive(Clone, Copy)]
pub(crate) struct Placed<'a> {
    pub(crate) infos: &'a [TestInfo],
    pub(crate) order: &'a [usize],
    pub(crate) outcomes: &'a [Outcome],
}

impl<'a> ShownRows for Placed<'a> {
    ghost use Rattle.std.specs.Prelude.{◌≡◌, ◌<◌, All, length, map};
    ghost use Rattle.mimic_trial.specs.Places.{placed_at};
    ghost use Rattle.mimic_printer.specs.Row.{label_of, rows_at};

    // Each place has an info and an outcome.
    ghost can_show = { λ placed. (length placed.infos.now ≡ length placed.outcomes.now)
        × All (λ p. p < length placed.infos.now) placed.order.now };

    ghost rows_of = { λ placed. rows_at (map label_of placed.infos.now)
        (placed_at placed.order.now placed.outcomes.now) };

    fn len(&self) -> usize {
        self.order.len()
    }

    fn row(&self, number: usize) -> (&TestInfo, &Outcome) {
        let place = self.order[number];
        (&self.infos[place], &self.outcomes[place])
    }
}

// What is shown of a row that failed: first come all messages, and then all names.
#[derive(Clone, Copy)]
enum Part {
    Message,
    Name,
}

// Adds the failures of the rows, and nothing if none failed.
pub(crate) fn add_failures<W: Write, R: ShownRows>(sink: &mut Sink<W>, rows: &R)
    requires { R.can_show rows.now }
    ensures { Adds W.contents sink.old sink.new (failures_if_any (R.rows_of rows.now)) }
{
    if any_failed(rows) {
        sink.add(b"\nfailures:\n\n");
        add_each(sink, rows, Part::Message);
        sink.add(b"\nfailures:\n");
        add_each(sink, rows, Part::Name);
    }
}

// Returns whether one of the rows failed.
fn any_failed<R: ShownRows>(rows: &R) -> bool
    requires { R.can_show rows.now }
    ensures { result ≡ list_any is_failed (outcomes_of (R.rows_of rows.now)) }
{
    for number in 0..rows.len() {
        if matches!(rows.row(number).1, Outcome::Failed(_)) {
            return true;
        }
    }
    false
}

// Adds this part of each row that failed.
fn add_each<W: Write, R: ShownRows>(sink: &mut Sink<W>, rows: &R, part: Part)
    requires { R.can_show rows.now }
    ensures { Adds W.contents sink.old sink.new
        (flat_map (row_part part) (R.rows_of rows.now)) }
{
    for number in 0..rows.len() {
        if sink.has_fault() {
            break;
        }
        let (info, outcome) = rows.row(number);
        add_part(sink, part, info, outcome);
    }
}

fn add_part<'a, W: Write>(sink: &mut Sink<W>, part: Part, info: &'a TestInfo, outcome: &'a Outcome)
    ensures { Adds W.contents sink.old sink.new
        (row_part part (row_of info.now outcome.now)) }
{
    match part {
        Part::Message => add_message(sink, info, outcome),
        Part::Name => add_name(sink, info, outcome),
    }
}

fn add_message<'a, W: Write>(sink: &mut Sink<W>, info: &'a TestInfo, outcome: &'a Outcome)
    ensures { Adds W.contents sink.old sink.new
        (failure_text (label_of info.now) outcome.now) }
{
    let Outcome::Failed(failed) = outcome else {
        return;
    };
    let start = Piece::Text("---- ");
    let name = Piece::Text(info.name.as_str());
    match failed.message() {
        None => add_pieces(sink, &[start, name, Piece::Text(" ----\n\n")]),
        Some(message) => {
            let pieces = [
                start,
                name,
                Piece::Text(" ----\n"),
                Piece::Text(message),
                Piece::Text("\n\n"),
            ];
            add_pieces(sink, &pieces)
        }
    }
}

fn add_name<W: Write>(sink: &mut Sink<W>, info: &TestInfo, outcome: &Outcome)
    ensures { Adds W.contents sink.old sink.new
        (failed_name (label_of info.now) outcome.now) }
{
    if matches!(outcome, Outcome::Failed(_)) {
        let name = Piece::Text(info.name.as_str());
        add_pieces(sink, &[Piece::Text("    "), name, Piece::Text("\n")]);
    }
}
