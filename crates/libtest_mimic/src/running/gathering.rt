//! Gathers the rows of workers.
ghost use Rattle.std.specs.Prelude.{ℕ, ◌≡◌, ◌≢◌, ◌≤◌, Bool, IfErr, List, MatchResult, Some, length, map, slice_get, vec_capacity, vec_len};
ghost use Rattle.std.specs.Option.{option_copied};
ghost use Rattle.libtest_mimic.specs.Prelude.{AreRowsOf, arrived_at, Assigned, assigned_from, Completes, GatheringRefused, HasFaultLeft, is_timed, IsGathered, IsOfRows, IsReadyFor, PutsArrived, rows_in, Runs, runs_all, shown};
ghost use Rattle.mimic_trial.specs.declared.outcome.Outcome.{Outcome as AnOutcome};

use crate::running::RunError;
use crate::running::arrivals::{add_arrivals, add_missing};
use mimic_pool::{Desk, Inbox, Rows, Spawner, Workers, join_workers, put_joined};
use mimic_printer::{Printer, Sink};
use mimic_trial::{Outcome, Task, TestInfo};
use std::io::Write;

/// Workers that were started, and what is at hand for their rows.
pub struct Started<R: Task> {
    /// Where their rows come from.
    pub inbox: Inbox,
    /// The workers.
    pub workers: Workers<R>,
    /// A desk at which nothing has arrived, with a place for each trial.
    pub desk: Desk,
    /// Room for an outcome of each trial, which is taken only if a row did not arrive or differs, or after a write fault.
    pub room: Vec<Outcome>,
}

/// Writes the rows of workers that were started, as `run` does after the title: those that arrive, each when it does, and
/// after the workers have been joined those that did not. Returns the desk, at which an outcome of each trial has arrived then.
/// If the inbox is timed, each row of a trial that passed or failed has the time that is noted there.
///
/// `infos` are by place, counted from 0. It is refused for a write fault, or with `Arrival` for the least place at which
/// the first arrival differs from what its worker returned, also after a write fault. After a write fault, workers take no more
/// trials from a queue, and those that are left there are dropped.
pub fn gather_rows<R: Task + Send + 'static, W: Write, T: Spawner + 'static>(
    rt: &T,
    printer: &Printer,
    infos: &[TestInfo],
    started: Started<R>,
    sink: &mut Sink<W>,
) -> Result<Desk, RunError>
    requires room { HasFaultLeft sink.old }
    requires ready { IsReadyFor started (length infos.now) }
    requires running { (mode : Bool) × (trials : List (Assigned R)) × Runs R.gives started.workers mode trials }
    ensures rows { (runners : List R) (flags : List Bool) (test_mode : Bool)
        → length runners ≡ length infos.now → length flags ≡ length infos.now
        → Runs R.gives started.workers test_mode (assigned_from 0 runners flags)
        → MatchResult result
        (λ desk. IsGathered R.gives test_mode (assigned_from 0 runners flags) desk
        × PutsArrived (is_timed started.inbox) printer.now infos.now desk (shown W.contents sink.old) (shown W.contents sink.new))
        (λ e. GatheringRefused R.gives test_mode (assigned_from 0 runners flags) (runs_all started.workers)
        (AreRowsOf (is_timed started.inbox) infos.now) printer.now (shown W.contents sink.old) (shown W.contents sink.new) e) }
    ensures refused { IfErr result IsOfRows }
{
    let Started {
        mut inbox,
        workers,
        mut desk,
        room,
    } = started;
    add_arrivals(rt, printer, infos, &mut inbox, &mut desk, sink);
    let written = sink.end();
    let whole = written.is_ok();
    let joined = join_workers(rt, workers, whole);
    let arrived = desk.order().len();
    complete(&mut desk, joined, infos.len(), room, whole)?;
    // A write fault waits until here, since an outcome that differs is reported in its place.
    written?;
    add_missing(printer, infos, &inbox, &desk, arrived, sink);
    sink.end()?;
    Ok(desk)
}

// Compares what arrived with what the workers returned. At places at which nothing arrived, what they returned arrives now. If
// they ran the whole, mostly all has arrived and is the same: then no row is copied.
fn complete(
    desk: &mut Desk,
    joined: Vec<Rows>,
    count: usize,
    room: Vec<Outcome>,
    whole: bool,
) -> Result<(), RunError>
    requires places { desk.old.places ≡ count }
    requires empty { vec_len room ≡ 0 }
    requires fits { count ≤ vec_capacity room }
    ensures places { desk.new.places ≡ desk.old.places }
    ensures completed { Completes whole desk.old (map rows_in joined.items) desk.new result }
{
    if whole && desk.has_all(&joined) {
        return Ok(());
    }
    let outcomes = put_joined(joined, others_than(desk, room, count));
    if let Err(place) = desk.settle(&outcomes) {
        return Err(RunError::Arrival { place });
    }
    desk.arrive_missing(outcomes);
    Ok(())
}

// For each place an outcome other than the one that arrived there. It is what is compared if no worker returned one.
fn others_than(desk: &Desk, mut room: Vec<Outcome>, count: usize) -> Vec<Outcome>
    requires empty { vec_len room ≡ 0 }
    requires fits { count ≤ vec_capacity room }
    ensures len { vec_len result ≡ count }
    ensures others { (place : ℕ) (o : AnOutcome) → arrived_at place desk.now.rows ≡ Some o
        → slice_get result.items place ≢ Some o }
{
    for place in 0..count {
        room.push_reserved(other_than(desk.outcome(place)));
    }
    room
}

// An outcome that isn't this one.
fn other_than(outcome: Option<&Outcome>) -> Outcome
    ensures { option_copied outcome.entry ≢ Some result }
{
    match outcome {
        Some(Outcome::Ignored) => Outcome::Passed,
        _ => Outcome::Ignored,
    }
}
