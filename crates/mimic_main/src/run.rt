//! A run into a buffered writer.
ghost use Rattle.std.specs.Prelude.{◌≡◌, ◌≤◌, Err, IfErr, IfOk, IsNone, IsOk, IsSome, Ok};
ghost use Rattle.mimic_printer.specs.declared.sink.WriteFault.TheVariants.{Error};
ghost use Rattle.libtest_mimic.specs.declared.running.RunError.TheVariants.{Write};
ghost use Rattle.libtest_mimic.specs.Prelude.{AllCanRun, asked_by, IsSelected};
ghost use Rattle.mimic_main.specs.Ended.{IfOfRun};
ghost use Rattle.mimic_main.specs.Output.{given_to};
ghost use Rattle.mimic_main.specs.Run.{GotBeginning, IsLawful, Ran};

use crate::output::Output;
use crate::policy::FlushPolicy;
use crate::program::Fault;
use libtest_mimic::{
    Clock, Conclusion, Request, RunError, Sink, Spawner, Stopwatch, Task, WriteFault, run_request,
};
use std::alloc::Global;
use std::fs::Files;
use std::io::Write;
use std::{fs, io};

// Runs or lists the trials of the request into the logfile if there is one, which is made or emptied first, else to `out`, which may be
// a terminal. Gives back `out` and the watch over the clock, which is fresh if the logfile could not be made.
pub(crate) fn run_into<
    R: Task + Send + 'static,
    O: Write,
    C: Clock,
    T: Spawner + 'static,
    F: Files,
>(
    rt: &T,
    files: &F,
    request: Request<'_, R>,
    clock: C,
    out: O,
    on_terminal: bool,
) -> (O, Stopwatch<C>, Result<Conclusion, Fault>)
    requires selected { IsSelected request.selection }
    requires runnable { AllCanRun R.can_run request.selection.trials.items }
    requires some_thread { 1 ≤ request.default_threads }
    ensures ran { IsNone request.entry.selection.args.now.logfile
        → IfOk result.2 (Ran (asked_by R.gives request.entry) (O.contents out) (O.contents result.0) result.1) }
    ensures beginning { IsNone request.entry.selection.args.now.logfile
        → IfErr result.2 (λ fault. IfOfRun fault
        (GotBeginning (asked_by R.gives request.entry) (O.contents out) (O.contents result.0) result.1)) }
    ensures nothing { IsSome request.entry.selection.args.now.logfile → result.0 ≡ out }
    ensures lawful { IfOk result.2 (IsLawful (asked_by R.gives request.entry)) }
{
    let args = request.selection.args;
    let alloc = *request.selection.trials.allocator();
    // A buffer is large, so each is made where it is used: the thread that calls may have a small stack.
    let Some(path) = &args.logfile else {
        let policy = FlushPolicy::of_run(args, request.default_threads, on_terminal);
        let output = Output::new(policy, out);
        let (out, watch, ran) = run_buffered(rt, alloc, request, clock, output);
        return (out, watch, ran.map_err(Fault::Run));
    };
    match fs::create(files, path.as_str()) {
        Ok(file) => {
            let policy = FlushPolicy::of_run(args, request.default_threads, false);
            let logfile = Output::new(policy, file);
            let (_, watch, ran) = run_buffered(rt, alloc, request, clock, logfile);
            (out, watch, ran.map_err(Fault::Run))
        }
        Err(error) => (out, Stopwatch::new(clock), Err(Fault::Logfile(error))),
    }
}

// Runs or lists the trials of the request, writes out what the buffer holds at the end, and gives the writer back, and the watch over
// the clock, which is started after the trials were selected and whose time the report shows.
//
// A fault in writing the last bytes out is a fault of the run.
fn run_buffered<R: Task + Send + 'static, W: Write, C: Clock, T: Spawner + 'static>(
    rt: &T,
    alloc: Global,
    request: Request<'_, R>,
    clock: C,
    output: Output<W>,
) -> (W, Stopwatch<C>, Result<Conclusion, RunError>)
    requires selected { IsSelected request.selection }
    requires runnable { AllCanRun R.can_run request.selection.trials.items }
    requires some_thread { 1 ≤ request.default_threads }
    ensures ran { IfOk result.2
        (Ran (asked_by R.gives request.entry) (given_to W.contents output) (W.contents result.0) result.1) }
    ensures beginning { IfErr result.2
        (GotBeginning (asked_by R.gives request.entry) (given_to W.contents output) (W.contents result.0) result.1) }
    ensures lawful { IfOk result.2 (IsLawful (asked_by R.gives request.entry)) }
{
    let mut sink = Sink::new(output);
    let mut watch = Stopwatch::new(clock);
    watch.start();
    let ran = run_request(rt, alloc, request, &mut sink, &mut watch);
    let (writer, finished) = sink.into_inner().finish();
    (writer, watch, settled(ran, finished))
}

// What a run returned, if what was left could be written out.
fn settled(
    ran: Result<Conclusion, RunError>,
    finished: io::Result<()>,
) -> Result<Conclusion, RunError>
    ensures answered { IfOk result (λ c. ran ≡ Ok c) }
    ensures finished { IsOk result → IsOk finished }
    ensures kept { IsOk finished → result ≡ ran }
    ensures refused { IfErr ran (λ fault. result ≡ Err fault) }
    ensures cause { IsOk ran → IfErr finished (λ error. result ≡ Err (Write (Error error))) }
{
    let conclusion = ran?;
    match finished {
        Ok(()) => Ok(conclusion),
        Err(error) => Err(RunError::Write(WriteFault::Error(error))),
    }
}
