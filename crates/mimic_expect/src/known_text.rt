//! Writes the failures of a report as known ones.
ghost use Rattle.mimic_printer.specs.Sink.{HasFaultLeft, shown};
ghost use Rattle.mimic_expect.specs.KnownText.{LeavesKnown, SayFailures};

use crate::unexpected::add_row;
use mimic_events::{Ending, Row, RowTaker, read_into};
use mimic_printer::{OutputFault, Sink};
use mimic_trial::Outcome;
use std::alloc::Global;
use std::io::{Read, Write};

/// Writes the failures of a report as [`read_known`](crate::read_known) reads them: a line for each that has ended, in their order,
/// as the report has it, but without a time. It returns how the report ended. If the reader fails, the lines are those of failures
/// that had ended. It doesn't flush, so that the failures of more reports can follow.
///
/// Without memory the lines were written of failures among rows that have ended in a front of the input's bytes. With a fault of the
/// writer a beginning of such lines was written.
#[tactic(auto, using(crate::proofs::KnownTexts::say_failures))]
pub fn write_known<I: Read + Drop, W: Write>(
    alloc: Global,
    input: I,
    sink: &mut Sink<W>,
) -> Result<Ending, OutputFault>
    requires { HasFaultLeft sink.old }
    ensures known { LeavesKnown (I.remaining input) (shown W.contents sink.old)
        (shown W.contents sink.new) result }

    // The lines are read back as these failures.
    ensures law { SayFailures }
{
    read_into(alloc, input, &mut Failures { sink })
}

// Writes the failures among the rows that it takes.
#[derive(Drop)]
struct Failures<'a, W: Write> {
    sink: &'a mut Sink<W>,
}

impl<W: Write> RowTaker for Failures<'_, W> {
    ghost use Rattle.std.specs.Prelude.{◌≡◌};
    ghost use Rattle.mimic_printer.specs.Sink.{Put, shown};
    ghost use Rattle.mimic_expect.specs.KnownText.{StaysSink, StoppedBy, known_text};

    ghost takes = { λ old rows new. StaysSink old.sink new.sink
        × Put (shown W.contents old.sink.now) (shown W.contents new.sink.now) (known_text rows) };

    ghost stops = { λ old rows fault new. (new.sink.ghost_name ≡ old.sink.ghost_name)
        × StoppedBy fault (shown W.contents old.sink.now) (shown W.contents new.sink.now) (known_text rows) };

    fn take(&mut self, row: Row) -> Result<(), OutputFault> {
        let Outcome::Failed(_) = &row.outcome else {
            return Ok(());
        };
        add_row(self.sink, &row);
        self.sink.end()?;
        Ok(())
    }
}
