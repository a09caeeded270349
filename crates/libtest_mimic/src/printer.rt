//! Writes the parts of a report.
ghost use Rattle.libtest_mimic.specs.Prelude.{HasFaultLeft, list_text, listed, Puts};

pub use mimic_printer::{Printer, ShownRows, widths};
use mimic_printer::{Sink, WriteFault};
use mimic_trial::Trial;
use std::io::Write;

/// Writes the list: one line for each trial, or with `ignored` for each that is marked as ignored.
pub fn write_list<W: Write, R>(
    tests: &[Trial<R>],
    ignored: bool,
    sink: &mut Sink<W>,
) -> Result<(), WriteFault>
    requires { HasFaultLeft sink.old }
    ensures { Puts W.contents sink.old sink.new (list_text (listed ignored tests.now)) result }
{
    Printer::write_list(tests, ignored, sink)
}
