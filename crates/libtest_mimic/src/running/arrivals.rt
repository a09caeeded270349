//! Adds rows as workers report them.
ghost use Rattle.std.specs.Prelude.{◌≡◌, ◌<◌, ◌≤◌, All, drop, length, map};
ghost use Rattle.libtest_mimic.specs.Prelude.{AddsRows, AreArrived, AreTimed, is_timed, label_of, places_of, rows_at};
ghost use Rattle.mimic_printer.specs.declared.sink.Sink.{Sink as TheSink};

use crate::stopwatch::time_shown;
use mimic_pool::{Arrival, Desk, Inbox};
use mimic_printer::{Printer, Sink};
use mimic_trial::{Outcome, TestInfo};
use std::io::Write;
use std::sync::Wait;

// Adds the rows of first arrivals as they come, until all workers have ended or a fault is kept.
pub(super) fn add_arrivals<W: Write, T: Wait>(
    rt: &T,
    printer: &Printer,
    infos: &[TestInfo],
    inbox: &mut Inbox,
    desk: &mut Desk,
    sink: &mut Sink<W>,
)
    requires { desk.old.places ≡ length infos.now }
    ensures places { desk.new.places ≡ desk.old.places }
    ensures timed { is_timed inbox.new ≡ is_timed inbox.old }
    ensures arrived { (base : TheSink W)
        → AddsRows W.contents printer.now (AreArrived (is_timed inbox.old) infos.now desk.old) base sink.old
        → AddsRows W.contents printer.now (AreArrived (is_timed inbox.old) infos.now desk.new) base sink.new }
{
    for _ in rt.forever() {
        let Some(row) = inbox.next(rt) else {
            break;
        };
        add_arrival(printer, infos, inbox, desk, row, sink);
        if sink.has_fault() {
            break;
        }
    }
}

// Adds the row of an arrival, if it is the first at its place.
fn add_arrival<W: Write>(
    printer: &Printer,
    infos: &[TestInfo],
    inbox: &Inbox,
    desk: &mut Desk,
    row: (usize, Outcome),
    sink: &mut Sink<W>,
)
    requires { desk.old.places ≡ length infos.now }
    ensures places { desk.new.places ≡ desk.old.places }
    ensures arrived { (base : TheSink W)
        → AddsRows W.contents printer.now (AreArrived (is_timed inbox.now) infos.now desk.old) base sink.old
        → AddsRows W.contents printer.now (AreArrived (is_timed inbox.now) infos.now desk.new) base sink.new }
{
    let (place, outcome) = row;
    match desk.arrive(place, outcome) {
        Arrival::First => {
            let Some(outcome) = desk.outcome(place) else {
                unreachable!()
            };
            let nanos = time_shown(outcome, inbox.time(place));
            printer.add_row(sink, &infos[place], outcome, nanos);
        }
        Arrival::Again | Arrival::Stranger => {}
    }
}

// Adds the rows from this number on, which arrived after the workers were joined.
pub(super) fn add_missing<W: Write>(
    printer: &Printer,
    infos: &[TestInfo],
    inbox: &Inbox,
    desk: &Desk,
    first: usize,
    sink: &mut Sink<W>,
)
    requires places { All (λ place. place < length infos.now) (places_of desk.now.rows) }
    requires first { first ≤ length desk.now.rows }
    ensures { AddsRows W.contents printer.now
        (AreTimed (is_timed inbox.now) (drop first (rows_at (map label_of infos.now) desk.now.rows))) sink.old sink.new }
{
    for number in first..desk.order().len() {
        let (place, returned) = desk.row(number);
        let nanos = time_shown(returned, inbox.time(place));
        printer.add_row(sink, &infos[place], returned, nanos);
    }
}
