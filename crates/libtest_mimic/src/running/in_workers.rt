//! Runs trials in worker threads.
ghost use Rattle.std.specs.Prelude.{◌≡◌, ◌≢◌, ◌≤◌, [], Bool, IfOk, List, MatchResult, length, map};
ghost use Rattle.libtest_mimic.specs.Prelude.{AllCanRun, AreSupplied, assigned_from, awaited, HasFaultLeft, Holds, IsGathered, IsRunning, OnNothingWritten, PutsTitled, Reports, RowsRefused, selected_suite, shown, threads_of, counts_of};

use crate::request::{Request, Selection};
use crate::running::RunError;
use crate::running::gathering::{Started, gather_rows};
use crate::running::tally::add_summary;
use crate::select::is_ignored;
use crate::stopwatch::{Clock, Stopwatch};
use mimic_args::Arguments;
use mimic_pool::{
    Desk, Remaining, RunningTrials, Spawner, WaitingTrials, start_workers, worker_count,
};
use mimic_printer::{Printer, ShownRows, Sink};
use mimic_trial::{Conclusion, Outcome, Task, TestInfo, Trial};
use std::alloc::{AllocError, Global};
use std::io::Write;
use std::sync::{Arc, Wait};

// Runs the trials in workers, one for each thread, but no more than there are trials, and writes their report.
pub(super) fn run_in_workers<R: Task + Send + 'static, W: Write, C: Clock, T: Spawner + 'static>(
    rt: &T,
    alloc: Global,
    request: Request<'_, R>,
    printer: Printer,
    sink: &mut Sink<W>,
    watch: &mut Stopwatch<C>,
) -> Result<Conclusion, RunError>
    requires several { 2 ≤ threads_of request.selection.args.now request.default_threads }
    requires some { request.selection.trials.items ≢ [] }
    requires runnable { AllCanRun R.can_run request.selection.trials.items }
    requires running { IsRunning watch.old }
    requires room { HasFaultLeft sink.old }
    ensures reported { Reports R.gives (threads_of request.entry.selection.args.now request.entry.default_threads)
        (selected_suite request.entry.selection printer) (shown W.contents sink.old) (shown W.contents sink.new) watch.new result }
    ensures unwritten { OnNothingWritten result (sink.new ≡ sink.old) }
{
    let threads = request.threads();
    let Request {
        selection,
        schedule,
        running,
        ..
    } = request;
    let Selection {
        args,
        trials,
        filtered_out,
        ..
    } = selection;
    let count = worker_count(threads, trials.len());
    let waiting = WaitingTrials::new(alloc, schedule, trials.len(), count)?;
    let (infos, waiting) = take_apart(rt, alloc, args, trials, waiting)?;
    let supplied = Supplied {
        alloc,
        waiting,
        timed: args.report_time,
        running,
    };
    let infos = infos.as_slice();
    let desk = write_rows(rt, &printer, infos, supplied, !args.bench, sink)?;
    let rows = DeskRows { infos, desk: &desk };
    printer.print_failures_in(sink, &rows)?;
    let conclusion = count_outcomes(&desk, filtered_out);
    add_summary(&printer, &conclusion, sink, watch);
    sink.end()?;
    Ok(conclusion)
}

// Runners on their way to workers, and what these are to note.
#[derive(Drop)]
struct Supplied<R: Task> {
    alloc: Global,
    waiting: WaitingTrials<R>,
    timed: bool,
    running: Option<Arc<RunningTrials>>,
}

// What is known of each trial, and the runners, which wait for workers.
fn take_apart<R: Task, T: Wait>(
    rt: &T,
    alloc: Global,
    args: &Arguments,
    trials: Vec<Trial<R>>,
    waiting: WaitingTrials<R>,
) -> Result<(Vec<TestInfo>, WaitingTrials<R>), AllocError>
    requires empty { Holds R.can_run waiting [] }
    requires runnable { AllCanRun R.can_run trials.items }
    ensures supplied { IfOk result
        (λ parts. AreSupplied R.can_run args.now trials.items parts.0.items parts.1) }
    ensures workers { IfOk result (λ parts. awaited parts.1 ≡ awaited waiting) }
{
    let mut waiting = waiting;
    let mut infos = Vec::with_capacity(alloc, trials.len())?;
    let mut left = Remaining::new(trials);
    while let Some(trial) = left.next() {
        let is_ignored = is_ignored(args, &trial);
        let (info, runner) = trial.into_parts();
        waiting.put(rt, infos.len(), runner, is_ignored)?;
        infos.push(info)?;
    }
    Ok((infos, waiting))
}

// Runs the trials in workers, and writes the title and the rows. Returns the desk where they arrived.
//
// No memory is taken after the title, except for what `ReadyWorkers` names.
fn write_rows<R: Task + Send + 'static, W: Write, T: Spawner + 'static>(
    rt: &T,
    printer: &Printer,
    infos: &[TestInfo],
    supplied: Supplied<R>,
    test_mode: bool,
    sink: &mut Sink<W>,
) -> Result<Desk, RunError>
    requires room { HasFaultLeft sink.old }
    requires few { awaited supplied.waiting ≤ length infos.now }
    requires held { (runners : List R) × (flags : List Bool) × (length runners ≡ length infos.now)
        × (length flags ≡ length infos.now) × Holds R.can_run supplied.waiting (assigned_from 0 runners flags) }
    ensures rows { (runners : List R) (flags : List Bool) → length runners ≡ length infos.now
        → length flags ≡ length infos.now
        → Holds R.can_run supplied.waiting (assigned_from 0 runners flags)
        → MatchResult result
        (λ desk. IsGathered R.gives test_mode (assigned_from 0 runners flags) desk
        × PutsTitled supplied.timed printer.now infos.now desk (shown W.contents sink.old) (shown W.contents sink.new))
        (λ e. RowsRefused R.gives test_mode (assigned_from 0 runners flags) supplied.timed printer.now infos.now
        (shown W.contents sink.old) (shown W.contents sink.new) e) }
    ensures unwritten { OnNothingWritten result (sink.new ≡ sink.old) }
{
    let Supplied {
        alloc,
        waiting,
        timed,
        running,
    } = supplied;
    let count = infos.len();
    let (inbox, ready) = waiting.prepare(rt, alloc, count, timed, running)?;
    let desk = Desk::new(alloc, count)?;
    let room = Vec::with_capacity(alloc, count)?;
    printer.print_title(sink, count as u64)?;
    let Some(workers) = start_workers(rt, alloc, ready, test_mode) else {
        return Err(RunError::Spawn);
    };
    let started = Started {
        inbox,
        workers,
        desk,
        room,
    };
    gather_rows(rt, printer, infos, started, sink)
}

// The rows that arrived at the desk. Infos are by place.
#[derive(Clone, Copy)]
struct DeskRows<'a> {
    infos: &'a [TestInfo],
    desk: &'a Desk,
}

impl<'a> ShownRows for DeskRows<'a> {
    ghost use Rattle.std.specs.Prelude.{◌<◌, All, length, map};
    ghost use Rattle.libtest_mimic.specs.Prelude.{label_of, places_of, rows_at};

    // Each place has an info.
    ghost can_show = { λ rows. All (λ place. place < length rows.infos.now) (places_of rows.desk.now.rows) };

    ghost rows_of = { λ rows. rows_at (map label_of rows.infos.now) rows.desk.now.rows };

    fn len(&self) -> usize {
        self.desk.order().len()
    }

    fn row(&self, number: usize) -> (&TestInfo, &Outcome) {
        let (place, outcome) = self.desk.row(number);
        (&self.infos[place], outcome)
    }
}

// Counts the outcomes that arrived at the desk, and takes the number of trials that were filtered out as it is.
fn count_outcomes(desk: &Desk, filtered_out: u64) -> Conclusion
    ensures { result ≡ counts_of (map (λ row. row.1) desk.now.rows) filtered_out }
{
    let mut conclusion = Conclusion::empty(filtered_out);
    for number in 0..desk.order().len() {
        let (_, outcome) = desk.row(number);
        conclusion.count(outcome);
    }
    conclusion
}
