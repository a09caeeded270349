//! What is asked of a run.
ghost use Rattle.std.specs.Prelude.{◌≡◌, IsFalse, ◌↔◌};
ghost use Rattle.libtest_mimic.specs.Prelude.{kind_width_of, labels_of, name_width_of, printer_for, PrintsAs, threads_of, AllCanRun, filtered_out_of, IsDropped, IsSelected, IsSelection};

use crate::select::{drops_nothing, is_filtered_out};
use mimic_args::{Arguments, FormatSetting};
use mimic_pool::{RunningTrials, Schedule};
use mimic_printer::{Printer, widths_of_trials};
use mimic_trial::{Task, Trial};
use std::snapshot::Snapshot;
use std::sync::Arc;

/// What is asked of a run, and who looks at it.
#[derive(Drop)]
pub struct Request<'a, R> {
    /// Its trials, and the arguments that selected them.
    pub selection: Selection<'a, R>,
    /// How many threads run the trials if the arguments leave it open, at least 1.
    pub default_threads: usize,
    /// Whether its report has colours if the arguments leave it open.
    pub auto_colours: bool,
    /// How the trials come to workers if more than one thread runs them.
    pub schedule: Schedule,
    /// Where each thread marks the trial that it runs, by its place among the selected ones, if anybody looks. A thread for which there
    /// is no cell marks none.
    pub running: Option<Arc<RunningTrials>>,
}

impl<R: Task> Request<'_, R> {
    /// How many threads are to run the trials.
    pub fn threads(&self) -> usize
        ensures { result ≡ threads_of self.now.selection.args.now self.now.default_threads }
    {
        self.selection.args.threads(self.default_threads)
    }

    // A printer that prints as that of the run does: only in pretty it has columns for the trials.
    pub(crate) fn printer(&self) -> Printer
        ensures { PrintsAs result (printer_for self.now.selection.args.now self.now.auto_colours
            (labels_of self.now.selection.trials.items)) }
    {
        let args = self.selection.args;
        let format = args.format_used();
        let (name_width, kind_width) = columns_for(format, self.selection.trials.as_slice());
        Printer::new(
            format,
            args.colours(self.auto_colours),
            name_width,
            kind_width,
        )
    }
}

// The widths of its columns. Only pretty has columns, so for other formats the trials aren't looked at.
fn columns_for<R>(format: FormatSetting, trials: &[Trial<R>]) -> (usize, usize)
    ensures names { format ≡ FormatSetting.Pretty
        → result.0 ≡ name_width_of (labels_of trials.now) }
    ensures kinds { format ≡ FormatSetting.Pretty
        → result.1 ≡ kind_width_of (labels_of trials.now) }
{
    match format {
        FormatSetting::Pretty => widths_of_trials(trials),
        FormatSetting::Terse | FormatSetting::Json => (0, 0),
    }
}

/// The trials that arguments select of those that were handed in, in their order.
#[derive(Drop)]
pub struct Selection<'a, R> {
    /// The arguments.
    pub args: &'a Arguments,
    /// The selected trials.
    pub trials: Vec<Trial<R>>,
    /// How many others were handed in.
    pub filtered_out: u64,
    /// All that were handed in, as contracts know them.
    pub handed_in: Snapshot<Vec<Trial<R>>>,
}

impl<'a, R: Task> Selection<'a, R> {
    /// Selects among these trials, and drops the others.
    pub fn new(args: &'a Arguments, tests: Vec<Trial<R>>) -> Selection<'a, R>
        ensures args { result.args.now ≡ args.now }
        ensures handed_in { result.handed_in.value ≡ tests }
        ensures selected { IsSelected result }
        ensures runnable { AllCanRun R.can_run tests.items → AllCanRun R.can_run result.trials.items }
    {
        let handed_in = Snapshot::of(&tests);
        let mut trials = tests;
        let filtered_out = drop_others(args, &mut trials);
        Selection {
            args,
            trials,
            filtered_out,
            handed_in,
        }
    }
}

// Keeps the selected trials alone, and returns how many were dropped.
fn drop_others<R: Drop>(args: &Arguments, trials: &mut Vec<Trial<R>>) -> u64
    ensures selection { IsSelection args.now trials.old.items trials.new.items }
    ensures dropped { result ≡ filtered_out_of trials.old.items trials.new.items }
{
    if drops_nothing::<R>(args) {
        return 0;
    }
    let count = trials.len();
    trials.retain(
        |trial| -> bool
            ensures { IsFalse result ↔ IsDropped args.entry.now trial.now }
        { !is_filtered_out(args, trial) },
    );
    (count - trials.len()) as u64
}
