//! Runs trials in the calling thread, one after another.
ghost use Rattle.std.specs.Prelude.{◌≡◌, [], vec_len};
ghost use Rattle.libtest_mimic.specs.Prelude.{AllCanRun, HasCounted, HasFaultLeft, HasRoomFor, IsRunning, OnNothingWritten, Reports, RowsRun, selected_suite, shown};

use crate::request::{Request, Selection};
use crate::running::RunError;
use crate::running::tally::{Tally, add_summary};
use crate::select::is_ignored;
use crate::stopwatch::{Clock, Stopwatch, elapsed, start, time_shown};
use mimic_pool::{RunningCell, RunningTrials};
use mimic_printer::{Printer, Sink};
use mimic_trial::{Conclusion, Task, run_unless};
use std::alloc::Global;
use std::io::Write;
use std::sync::Arc;

// Runs the trials in their order, and writes their report. It marks the trial that runs, if anybody looks.
pub(super) fn run_in_order<R: Task, W: Write, C: Clock>(
    alloc: Global,
    request: Request<'_, R>,
    printer: Printer,
    sink: &mut Sink<W>,
    watch: &mut Stopwatch<C>,
) -> Result<Conclusion, RunError>
    requires runnable { AllCanRun R.can_run request.selection.trials.items }
    requires running { IsRunning watch.old }
    requires room { HasFaultLeft sink.old }
    ensures reported { Reports R.gives 1 (selected_suite request.entry.selection printer) (shown W.contents sink.old)
        (shown W.contents sink.new) watch.new result }
    ensures unwritten { OnNothingWritten result (sink.new ≡ sink.old) }
{
    let count = request.selection.trials.len();
    let mut tally = Tally::with_capacity(alloc, count, request.selection.filtered_out)?;
    printer.add_title(sink, count as u64);
    run_rows(request, &printer, &mut tally, sink, watch);
    tally.add_failures(&printer, sink);
    // The watch runs on if a write failed before the summary.
    sink.end()?;
    add_summary(&printer, tally.conclusion(), sink, watch);
    sink.end()?;
    Ok(tally.into_conclusion())
}

// The cell of the thread that calls, if anybody looks.
fn next_cell(running: Option<&Arc<RunningTrials>>) -> Option<&RunningCell> {
    running?.next_cell()
}

// Runs the trials in their order, and adds the row of each: its announcement before it runs. None runs once a fault is kept.
fn run_rows<R: Task, W: Write, C: Clock>(
    request: Request<'_, R>,
    printer: &Printer,
    tally: &mut Tally,
    sink: &mut Sink<W>,
    watch: &mut Stopwatch<C>,
)
    requires empty { HasCounted tally.old request.selection.filtered_out [] }
    requires runnable { AllCanRun R.can_run request.selection.trials.items }
    requires capacity { HasRoomFor tally.old (vec_len request.selection.trials) }
    ensures rows { RowsRun R.gives W.contents (selected_suite request.entry.selection printer.now) sink.old sink.new tally.new }
    ensures readings { watch.new ≡ watch.old }
{
    let Request {
        selection,
        running,
        ..
    } = request;
    let Selection { args, trials, .. } = selection;
    let cell = next_cell(running.as_ref());
    let mut place = 0_usize;
    for trial in trials {
        let ignored = is_ignored(args, &trial);
        let (info, runner) = trial.into_parts();
        printer.add_test(sink, &info);
        if sink.has_fault() {
            break;
        }
        mark(cell, place);
        let started = start(watch, args.report_time);
        let outcome = run_unless(ignored, runner, !args.bench);
        unmark(cell);
        let nanos = time_shown(&outcome, elapsed(watch, started));
        printer.add_outcome(sink, &info, &outcome, nanos);
        tally.record(info, outcome);
        place = place.wrapping_add(1);
    }
}

// Marks that the trial at the place runs, if anybody looks.
#[inline(always)]
fn mark(cell: Option<&RunningCell>, place: usize) {
    if let Some(cell) = cell {
        cell.set(place);
    }
}

// Marks that no trial runs.
#[inline(always)]
fn unmark(cell: Option<&RunningCell>) {
    if let Some(cell) = cell {
        cell.clear();
    }
}
