//! Writes reports, as those that were read or built.
ghost use Rattle.std.specs.Prelude.{◌≡◌, All, OnOk, false, true};
ghost use Rattle.std.specs.List.{flat_map};
ghost use Rattle.mimic_printer.specs.Json.{FitsTime, json_report};
ghost use Rattle.mimic_printer.specs.Sink.{Adds, HasFaultLeft, Puts, keeps_fault};
ghost use Rattle.mimic_trial.specs.Promise.{FitsTypes};
ghost use Rattle.mimic_events.specs.Contents.{Spells, contents_read};
ghost use Rattle.mimic_events.specs.Reading.{IsReadAs};
ghost use Rattle.mimic_events.specs.Written.{FitsRow, row_lines};

use crate::report::{Report, Row, counts_of_rows};
use mimic_printer::json::{add_summary, add_title};
use mimic_printer::{Sink, WriteFault, json};
use mimic_trial::Outcome;
use std::io::Write;

/// Writes the report in JSON: the one text that `read_report` reads as this report. It takes no memory.
///
/// With a fault a beginning of the text was written.
pub fn write_report<W: Write>(report: &Report, sink: &mut Sink<W>) -> Result<(), WriteFault>
    requires { HasFaultLeft sink.old }
    ensures written { Puts W.contents sink.old sink.new
        (json_report (contents_read report.now)) result }
    ensures spelled { OnOk result
        (Spells (contents_read report.now) (json_report (contents_read report.now))) }
    ensures reads_back { OnOk result
        (IsReadAs Spells (json_report (contents_read report.now)) (contents_read report.now)) }
{
    let Report {
        rows,
        filtered_out,
        nanos,
    } = report;
    add_title(sink, rows.len() as u64);
    add_rows(sink, rows);
    add_summary(sink, &counts_of_rows(rows, *filtered_out), *nanos);
    sink.end()
}

// Adds the rows up to a fault. Without one all were looked at.
fn add_rows<W: Write>(sink: &mut Sink<W>, rows: &[Row])
    ensures written { Adds W.contents sink.old sink.new (flat_map row_lines rows.now) }
    ensures fits { keeps_fault sink.new ≡ false → All FitsRow rows.now }
{
    for row in rows {
        if sink.has_fault() {
            break;
        }
        add_row(sink, row);
    }
}

/// Adds the two lines of a row in JSON: its announcement and its outcome. It takes no memory.
#[tactic(auto, using(crate::proofs::Writing::row_added))]
pub fn add_row<W: Write>(sink: &mut Sink<W>, row: &Row)
    ensures written { Adds W.contents sink.old sink.new (row_lines row.now) }
    ensures fits { FitsRow row.now }
{
    prove!(row_fits(row));
    json::add_row(
        sink,
        row.name.as_str(),
        row.kind.as_str(),
        &row.outcome,
        row.nanos,
    );
}

// Shows that the name, the kind and the message of a row are text, and that its numbers fit.
fn row_fits(row: &Row) -> bool
    ensures fits { FitsRow row.now }
    ensures always { result ≡ true }
{
    let (_name, _kind) = (row.name.as_str(), row.kind.as_str());
    outcome_fits(&row.outcome) && time_fits(row.nanos)
}

fn outcome_fits(outcome: &Outcome) -> bool
    ensures fits { FitsTypes outcome.now }
    ensures always { result ≡ true }
{
    match outcome {
        Outcome::Passed | Outcome::Ignored => true,
        Outcome::Measured(measurement) => {
            let _avg = measurement.avg;
            let _variance = measurement.variance;
            true
        }
        Outcome::Failed(failed) => {
            let _message = failed.message();
            true
        }
    }
}

fn time_fits(nanos: Option<u64>) -> bool
    ensures fits { FitsTime nanos }
    ensures always { result ≡ true }
{
    match nanos {
        None => true,
        Some(_nanos) => true,
    }
}
