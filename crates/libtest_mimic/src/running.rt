//! Runs trials and writes their report.
ghost use Rattle.std.specs.Prelude.{◌≡◌, ◌≢◌, ◌≤◌, [], Err};
ghost use Rattle.libtest_mimic.specs.Prelude.{AllCanRun, asked_by, asking, done, HasFaultLeft, IsFresh, IsRun, IsRunning, IsSelected, Lists, shown, threads_of};

mod arrivals;
pub(crate) mod gathering;
mod in_order;
mod in_workers;
pub(crate) mod tally;

use crate::request::{Request, Selection};
use crate::stopwatch::{Clock, Stopwatch};
use in_order::run_in_order;
use in_workers::run_in_workers;
use mimic_args::Arguments;
use mimic_pool::{Schedule, Spawner};
use mimic_printer::{Printer, Sink, WriteFault};
use mimic_trial::{Conclusion, Task, Trial};
use std::alloc::{AllocError, AllocFailed, Global};
use std::io::Write;
use thiserror::Error;

/// Why a run was refused.
#[derive(Debug, Drop, Error)]
pub enum RunError {
    /// An allocation before the title failed: nothing was written.
    #[error("out of memory")]
    OutOfMemory,
    /// A write or a flush failed. A start of the report, or a beginning of the list, was written.
    #[error("cannot write the report")]
    Write(#[source] WriteFault),
    /// There was no thread to run the selected trials. Nothing was written.
    #[error("no threads to run trials")]
    ZeroThreads,
    /// A worker could not be started, or not even the first one if they take from a queue. The title alone was written, and the
    /// workers that were started were joined.
    #[error("cannot start a worker")]
    Spawn,
    /// An outcome that a worker reported differs from what it returned in the end. It is that of the trial at this place
    /// among the selected ones, counted from 0, the least one if there are several. Any part of the report may have been
    /// written.
    #[error("outcome of trial {place} differs from its worker's answer")]
    Arrival { place: usize },
}

/// Runs the selected trials, each once, and writes their report; or writes the list of them, if a list is asked.
///
/// The number of threads is `test_threads` of the arguments, else `default_threads`. With one, trials run in their order in
/// the calling thread, as `run_here` runs them. With more, that many workers run them, but never more than there are trials:
/// each worker has a share, which is dealt out beforehand. The trial at place p of the selected ones, counted from 0, goes to the
/// worker whose number is p modulo the number of workers. Rows are written as they arrive, each when its trial has ended, and a row
/// that could not be reported comes after the others. With no thread, a run of a selected trial is refused.
///
/// With `report_time` of the arguments, workers read the clock of `rt` directly before they call a runner and directly after it has
/// returned, and the row of a trial that passed or failed shows the difference. A clock that went back, or can't be read, gives 0.
///
/// The counts that it returns, the watch, `auto_colours` and ignored trials are as with `run_here`. After a write fault the
/// workers end their shares, and are joined.
pub fn run<R: Task + Send + 'static, W: Write, C: Clock, T: Spawner + 'static>(
    rt: &T,
    alloc: Global,
    args: &Arguments,
    tests: Vec<Trial<R>>,
    sink: &mut Sink<W>,
    watch: &mut Stopwatch<C>,
    default_threads: usize,
    auto_colours: bool,
) -> Result<Conclusion, RunError>
    requires room { HasFaultLeft sink.old }
    requires fresh { IsFresh watch.old }
    requires runnable { AllCanRun R.can_run tests.items }
    requires some_thread { 1 ≤ default_threads }
    ensures { IsRun (threads_of args.now default_threads) (asking R.gives default_threads auto_colours tests.items args.now)
        (done W.contents sink.old sink.new watch.new result) (sink.new ≡ sink.old) }
{
    watch.start();
    let request = Request {
        selection: Selection::new(args, tests),
        default_threads,
        auto_colours,
        schedule: Schedule::Shares,
        running: None,
    };
    run_request(rt, alloc, request, sink, watch)
}

/// Runs the selected trials as `run` does, but with more than one thread the workers take them from one queue: each takes the next
/// one when it is free. So no trial waits behind a slow one while another worker is free. In a run of at least 128 trials for each
/// worker they take several at once, at most 32, and a slow trial holds up those that were taken with it.
///
/// If a worker can't be started, no more are started, and the others run all trials. The run is refused with `Spawn` only if
/// there are none. If a worker has no memory for more rows, it takes no more trials. Those that all workers leave are run in
/// the calling thread, after the workers have ended, and their rows come last. After a write fault the workers take no more
/// trials, and those that are left in the queue are dropped once the workers have been joined.
pub fn run_from_queue<R: Task + Send + 'static, W: Write, C: Clock, T: Spawner + 'static>(
    rt: &T,
    alloc: Global,
    args: &Arguments,
    tests: Vec<Trial<R>>,
    sink: &mut Sink<W>,
    watch: &mut Stopwatch<C>,
    default_threads: usize,
    auto_colours: bool,
) -> Result<Conclusion, RunError>
    requires room { HasFaultLeft sink.old }
    requires fresh { IsFresh watch.old }
    requires runnable { AllCanRun R.can_run tests.items }
    requires some_thread { 1 ≤ default_threads }
    ensures { IsRun (threads_of args.now default_threads) (asking R.gives default_threads auto_colours tests.items args.now)
        (done W.contents sink.old sink.new watch.new result) (sink.new ≡ sink.old) }
{
    watch.start();
    let request = Request {
        selection: Selection::new(args, tests),
        default_threads,
        auto_colours,
        schedule: Schedule::Queue,
        running: None,
    };
    run_request(rt, alloc, request, sink, watch)
}

/// Runs or lists the trials that were selected, as the request says: as `run` does if they are dealt out, and as `run_from_queue` does if
/// they wait in a queue. The watch was started already; it is stopped directly before the summary is written.
///
/// The marks of the trials that run change nothing in the run. No contract says what they are.
pub fn run_request<R: Task + Send + 'static, W: Write, C: Clock, T: Spawner + 'static>(
    rt: &T,
    alloc: Global,
    request: Request<'_, R>,
    sink: &mut Sink<W>,
    watch: &mut Stopwatch<C>,
) -> Result<Conclusion, RunError>
    requires room { HasFaultLeft sink.old }
    requires running { IsRunning watch.old }
    requires selected { IsSelected request.selection }
    requires runnable { AllCanRun R.can_run request.selection.trials.items }
    requires some_thread { 1 ≤ request.default_threads }
    ensures { IsRun (threads_of request.entry.selection.args.now request.entry.default_threads) (asked_by R.gives request.entry)
        (done W.contents sink.old sink.new watch.new result) (sink.new ≡ sink.old) }
{
    let trials = request.selection.trials.as_slice();
    if request.selection.args.list {
        return write_list(trials, sink);
    }
    let printer = request.printer();
    let threads = request.threads();
    if threads == 1 || trials.is_empty() {
        return run_in_order(alloc, request, printer, sink, watch);
    }
    if threads == 0 {
        return Err(RunError::ZeroThreads);
    }
    run_in_workers(rt, alloc, request, printer, sink, watch)
}

// Writes the list of the trials, and a flush behind it.
fn write_list<R, W: Write>(trials: &[Trial<R>], sink: &mut Sink<W>) -> Result<Conclusion, RunError>
    requires { HasFaultLeft sink.old }
    ensures { Lists trials.now (shown W.contents sink.old) (shown W.contents sink.new) result }
{
    Printer::add_list(trials, false, sink);
    sink.add_flush();
    sink.end()?;
    Ok(Conclusion::empty(0))
}

/// Runs the selected trials in their order, each once, in the calling thread, and writes their report;
/// or writes the list of them, if a list is asked.
///
/// It returns the counts of the report, and five zeros after a list. `test_threads` has no effect.
/// The watch is started before anything else and stopped directly before the summary is written; after
/// a list, or a refusal that came before the summary, it is running. `auto_colours` says whether the
/// report has colours if the arguments leave it open. An ignored trial's runner is not called, and
/// after a write fault no further one is.
///
/// With `report_time` of the arguments, the watch's clock is also read directly before each trial and directly after it, and the row of
/// one that passed or failed shows how many nanoseconds it took (as in rustc's harness): 0 if the clock went back.
pub fn run_here<R: Task, W: Write, C: Clock>(
    alloc: Global,
    args: &Arguments,
    tests: Vec<Trial<R>>,
    sink: &mut Sink<W>,
    watch: &mut Stopwatch<C>,
    auto_colours: bool,
) -> Result<Conclusion, RunError>
    requires room { HasFaultLeft sink.old }
    requires fresh { IsFresh watch.old }
    requires runnable { AllCanRun R.can_run tests.items }
    ensures { IsRun 1 (asking R.gives 1 auto_colours tests.items args.now)
        (done W.contents sink.old sink.new watch.new result) (sink.new ≡ sink.old) }
{
    watch.start();
    let request = Request {
        selection: Selection::new(args, tests),
        default_threads: 1,
        auto_colours,
        schedule: Schedule::Queue,
        running: None,
    };
    if args.list {
        return write_list(request.selection.trials.as_slice(), sink);
    }
    let printer = request.printer();
    run_in_order(alloc, request, printer, sink, watch)
}

impl From<AllocError> for RunError {
    ghost use Rattle.libtest_mimic.specs.declared.running.RunError.TheVariants.{OutOfMemory};

    ghost from_gives = { λ _ error. error ≡ OutOfMemory };

    fn from(_error: AllocError) -> RunError {
        RunError::OutOfMemory
    }
}

impl<T: Drop> From<AllocFailed<T>> for RunError {
    ghost use Rattle.libtest_mimic.specs.declared.running.RunError.TheVariants.{OutOfMemory};

    ghost from_gives = { λ _ error. error ≡ OutOfMemory };

    fn from(failed: AllocFailed<T>) -> RunError {
        AllocError::from(failed).into()
    }
}

impl From<WriteFault> for RunError {
    ghost use Rattle.libtest_mimic.specs.declared.running.RunError.TheVariants.{Write};

    ghost from_gives = { λ fault error. error ≡ Write fault };

    fn from(fault: WriteFault) -> RunError {
        RunError::Write(fault)
    }
}
