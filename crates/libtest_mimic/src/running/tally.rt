//! What a run keeps of the trials that ran: their counts, and those that failed.
ghost use Rattle.std.specs.Prelude.{ℕ, ◌≡◌, ◌+◌, ◌∷◌, ◌++◌, [], IfOk, IsOk, List, vec_len};
ghost use Rattle.libtest_mimic.specs.Prelude.{Adds, failures_text, AddsSummary, IsRunning};

use crate::stopwatch::{Clock, Stopwatch};
use mimic_printer::{Printer, Sink};
use mimic_trial::{Conclusion, Outcome, TestInfo};
use std::alloc::{AllocError, Global};
use std::io::Write;

// The counts so far, and the trials that failed with their outcomes, in their order. The room is made
// beforehand; room that no failure takes costs no memory that is touched.
#[derive(Drop)]
pub(crate) struct Tally {
    conclusion: Conclusion,
    failures: Vec<(TestInfo, Outcome)>,
}

impl Tally {
    ghost use Rattle.libtest_mimic.specs.Prelude.{CanCount, HasCounted, HasRoomFor, PrintedRow, row_of};

    // Nothing is counted yet, and there is room for `trials` failures.
    pub(crate) fn with_capacity(
        alloc: Global,
        trials: usize,
        filtered_out: u64,
    ) -> Result<Self, AllocError>
        ensures counted { IfOk result (λ t. HasCounted t filtered_out []) }
        ensures room { IfOk result (λ t. HasRoomFor t trials) }
        ensures succeeds { trials ≡ 0 → IsOk result }
    {
        Ok(Tally {
            conclusion: Conclusion::empty(filtered_out),
            failures: Vec::with_capacity(alloc, trials)?,
        })
    }

    // Counts the outcome, and keeps both if the trial failed.
    pub(crate) fn record(&mut self, info: TestInfo, outcome: Outcome)
        requires counts { CanCount self.old.conclusion outcome }
        requires room { HasRoomFor self.old (vec_len self.old.failures + 1) }
        ensures counted { (filtered_out : ℕ) (rows : List PrintedRow)
            → HasCounted self.old filtered_out rows
            → HasCounted self.new filtered_out (rows ++ row_of info outcome ∷ []) }
        ensures room { (count : ℕ) → HasRoomFor self.old count → HasRoomFor self.new count }
    {
        self.conclusion.count(&outcome);
        if let Outcome::Failed(_) = outcome {
            self.failures.push_reserved((info, outcome));
        }
    }

    // Adds the failures of all rows that were counted.
    pub(crate) fn add_failures<W: Write>(&self, printer: &Printer, sink: &mut Sink<W>)
        ensures { (filtered_out : ℕ) (rows : List PrintedRow)
            → HasCounted self.now filtered_out rows
            → Adds W.contents sink.old sink.new (failures_text printer.now rows) }
    {
        printer.add_failures_of(sink, &self.failures);
    }

    // The counts.
    pub(crate) fn conclusion(&self) -> &Conclusion
        ensures { result.now ≡ self.now.conclusion }
    {
        &self.conclusion
    }

    // Gives the counts, and drops what was kept of the failures.
    pub(crate) fn into_conclusion(self) -> Conclusion
        ensures { result ≡ self.conclusion }
    {
        let Tally { conclusion, .. } = self;
        conclusion
    }
}

// Stops the watch, and directly after that adds the summary with its time. A flush ends the report.
pub(super) fn add_summary<W: Write, C: Clock>(
    printer: &Printer,
    conclusion: &Conclusion,
    sink: &mut Sink<W>,
    watch: &mut Stopwatch<C>,
)
    requires { IsRunning watch.old }
    ensures { AddsSummary W.contents printer.now conclusion.now sink.old sink.new watch.new }
{
    watch.stop();
    let nanos = watch.elapsed().unwrap_or(0);
    printer.add_summary(sink, conclusion, nanos);
    sink.add_flush();
}
