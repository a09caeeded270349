//! Writes reports as JUnit's XML.
ghost use Rattle.std.specs.Prelude.{◌≡◌, length, map, string_bytes};
ghost use Rattle.std.specs.List.{flat_map};
ghost use Rattle.mimic_printer.specs.Sink.{Adds, HasFaultLeft, Puts};
ghost use Rattle.mimic_events.specs.Contents.{entry_read};
ghost use Rattle.mimic_reports.specs.Junit.{alone_text, case_text, ending_text, junit_text, numbers_of, suite_text, total};
ghost use Rattle.mimic_printer.specs.EscapeLaws.{EscapeLaws};

use crate::junit_elements::{
    Numbers, add_case, add_root_start, add_stop, add_suite_start, add_unread,
};
use crate::suite::Suite;
use mimic_events::{Ending, Row};
use mimic_printer::{Sink, WriteFault};
use std::io::Write;

// Returns the numbers of all reports together.
fn total_of(suites: &[Suite<'_>]) -> Numbers
    ensures { result ≡ total (map numbers_of suites.now) }
{
    let mut all = Numbers::default();
    for suite in suites {
        let numbers = suite.numbers();
        all.tests += numbers.tests;
        all.failures += numbers.failures;
        all.errors += numbers.errors;
        all.skipped += numbers.skipped;
        all.nanos += numbers.nanos;
    }
    all
}

/// Writes the reports, in their order, as one document of JUnit's XML, and flushes it. A report that isn't whole has one more row, with
/// an error. With a fault of the writer a beginning of the document was written.
#[tactic(auto, using(mimic_printer::proofs::EscapeLaws::escape_laws))]
pub fn write_junit<W: Write>(suites: &[Suite<'_>], sink: &mut Sink<W>) -> Result<(), WriteFault>
    requires { HasFaultLeft sink.old }
    ensures document { Puts W.contents sink.old sink.new (junit_text suites.now) result }

    // Each text can be unescaped, and escaped text has no markup.
    ensures laws { EscapeLaws }
{
    add_root_start(sink, &total_of(suites));
    add_suites(sink, suites);
    sink.add(b"</testsuites>\n");
    sink.add_flush();
    sink.end()
}

/// Writes one report as a document of JUnit's XML whose root is the report's own element, for readers that know no `<testsuites>`, and
/// flushes it.
#[tactic(auto, using(mimic_printer::proofs::EscapeLaws::escape_laws))]
pub fn write_suite<W: Write>(suite: &Suite<'_>, sink: &mut Sink<W>) -> Result<(), WriteFault>
    requires { HasFaultLeft sink.old }
    ensures document { Puts W.contents sink.old sink.new (alone_text suite.now) result }

    // Each text can be unescaped, and escaped text has no markup.
    ensures laws { EscapeLaws }
{
    sink.add(b"<?xml version=\"1.0\" encoding=\"UTF-8\"?>\n");
    add_suite(sink, suite);
    sink.add_flush();
    sink.end()
}

fn add_suites<W: Write>(sink: &mut Sink<W>, suites: &[Suite<'_>])
    ensures { Adds W.contents sink.old sink.new (flat_map suite_text suites.now) }
{
    for suite in suites {
        if sink.has_fault() {
            break;
        }
        add_suite(sink, suite);
    }
}

fn add_suite<W: Write>(sink: &mut Sink<W>, suite: &Suite<'_>)
    ensures { Adds W.contents sink.old sink.new (suite_text suite.now) }
{
    add_suite_start(sink, suite.program, &suite.numbers());
    add_rows(sink, suite.program, suite.rows());
    add_ending(sink, suite);
    sink.add(b"  </testsuite>\n");
}

fn add_rows<W: Write>(sink: &mut Sink<W>, program: &str, rows: &[Row])
    ensures { Adds W.contents sink.old sink.new
        (flat_map (λ row. case_text program.now (entry_read row)) rows.now) }
{
    for row in rows {
        if sink.has_fault() {
            break;
        }
        add_case(sink, program, row);
    }
}

// Adds what follows the rows.
#[tactic(auto, using(mimic_printer::proofs::Adding::adds_nothing))]
fn add_ending<W: Write>(sink: &mut Sink<W>, suite: &Suite<'_>)
    ensures { Adds W.contents sink.old sink.new (ending_text suite.now.program.now
        (length suite.now.rows.items) suite.now.ending (string_bytes suite.now.cause)) }
{
    match suite.ending() {
        Ending::Whole { .. } => {}
        Ending::Cut(stop) => add_stop(sink, suite.program, suite.rows().len() as u128, stop),
        Ending::Failed(_) => add_unread(sink, suite.program, suite.cause()),
    }
}
