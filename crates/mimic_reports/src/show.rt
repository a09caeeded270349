//! Prints reports as the harness prints them in pretty, and how one ended that is cut.
ghost use Rattle.std.specs.Prelude.{◌≡◌, ◌++◌, IfOk, map, max, string_bytes};
ghost use Rattle.mimic_trial.specs.Count.{counts_of};
ghost use Rattle.mimic_trial.specs.Text.{kind_part};
ghost use Rattle.mimic_printer.specs.Report.{report_text};
ghost use Rattle.mimic_printer.specs.Row.{label_of, outcomes_of};
ghost use Rattle.mimic_printer.specs.Sink.{Adds, HasFaultLeft, LeavesText, shown};
ghost use Rattle.mimic_printer.specs.Widths.{kind_chars, kind_width_of, name_chars, name_width_of};
ghost use Rattle.mimic_reports.specs.Show.{cut_line, cut_part, cut_report_text, failures_part, full_failure, kept_row, kept_rows, pretty_cut, pretty_failures, pretty_printer, pretty_report, printed_row, rows_and_failures, title_if_any};

use crate::cut::add_cut;
use mimic_events::{Ending, Report, Row, Stop};
use mimic_printer::{OutputFault, Place, Printer, ShownRows, Sink, widths};
use mimic_trial::{Conclusion, FormatSetting, Outcome, TestInfo, brackets};
use std::alloc::{AllocError, Global};
use std::io::Write;
use std::slice;

/// Prints the report as the harness prints a run in pretty, with or without colours, and flushes it: the title, each row once
/// in its order with the time that its trial took, if the report says so, the failures and the summary.
///
/// Memory is taken for the list of the rows, and none for their texts.
#[tactic(auto, using(mimic_printer::proofs::Adding::puts_added))]
pub fn show_report<W: Write>(
    alloc: Global,
    report: Report,
    colours: bool,
    sink: &mut Sink<W>,
) -> Result<(), OutputFault>
    requires { HasFaultLeft sink.old }
    ensures { LeavesText (pretty_report colours report) (shown W.contents sink.old)
        (shown W.contents sink.new) result }
{
    let (counts, nanos) = (report.counts(), report.nanos);
    let rows = rows_to_print(alloc, report.rows)?;
    add_report(sink, &printer_for(&rows, colours), &rows, &counts, nanos);
    sink.end()?;
    Ok(())
}

/// Prints the failures among these rows, which have ended in a report, as the harness prints them in pretty, but each under its full
/// name, `[kind] name`, and flushes them. If the report is cut, an empty line follows, and one that says how far it goes: `the report
/// ends after 1 of 3 trials; running: [kind] name`. A trial is named if its announcement is the last line that has ended, or the last
/// before a wrong one. Control characters of its kind and name are shown by their numbers.
///
/// Why the reader failed is not printed. Nothing is written if the report isn't cut and no trial failed.
#[tactic(auto, using(mimic_printer::proofs::Adding::puts_added))]
pub fn show_failures<W: Write>(
    alloc: Global,
    rows: Vec<Row>,
    ending: &Ending,
    sink: &mut Sink<W>,
) -> Result<(), OutputFault>
    requires { HasFaultLeft sink.old }
    ensures { LeavesText (pretty_failures rows.items ending.now) (shown W.contents sink.old)
        (shown W.contents sink.new) result }
{
    let rows = rows_to_print(alloc, rows)?;
    let rows = with_full_names(alloc, rows)?;
    add_failures(sink, &rows, ending);
    sink.end()?;
    Ok(())
}

/// Prints what has ended in a cut report as the harness prints it in pretty, with or without colours, and flushes it.
///
/// The title has the number of trials that the report's title announces. Each row comes once, in its order, as [`show_report`] prints
/// it, and then come the failures. In place of a summary, an empty line follows, and one that says how far the report goes, as
/// [`show_failures`] prints it. The columns are as wide as these rows need.
///
/// Without a title the report has no rows, and these two lines are all that is printed.
#[tactic(auto, using(mimic_printer::proofs::Adding::puts_added))]
pub fn show_cut<W: Write>(
    alloc: Global,
    rows: Vec<Row>,
    stop: &Stop,
    colours: bool,
    sink: &mut Sink<W>,
) -> Result<(), OutputFault>
    requires { HasFaultLeft sink.old }
    ensures { LeavesText (pretty_cut colours rows.items stop.now) (shown W.contents sink.old)
        (shown W.contents sink.new) result }
{
    let rows = rows_to_print(alloc, rows)?;
    add_cut_report(sink, &printer_for(&rows, colours), &rows, stop);
    sink.end()?;
    Ok(())
}

// A row as a printer takes it.
#[derive(Debug, Drop)]
struct KeptRow {
    info: TestInfo,
    outcome: Outcome,
    nanos: Option<u64>,
}

// Rows of which the failures are shown. Failures have no times.
#[derive(Clone, Copy)]
struct KeptRows<'a> {
    rows: &'a [KeptRow],
}

impl<'a> ShownRows for KeptRows<'a> {
    ghost use Rattle.std.specs.Prelude.{map};
    ghost use Rattle.mimic_printer.specs.Row.{row_of};

    ghost rows_of = { λ kept. map (λ row. row_of row.info row.outcome) kept.rows.now };

    fn len(&self) -> usize {
        self.rows.len()
    }

    fn row(&self, number: usize) -> (&TestInfo, &Outcome) {
        let row = &self.rows[number];
        (&row.info, &row.outcome)
    }
}

// Returns the rows, with each failure under its full name.
fn with_full_names(alloc: Global, rows: Vec<KeptRow>) -> Result<Vec<KeptRow>, AllocError>
    ensures { IfOk result (λ named. kept_rows named.items ≡ map full_failure (kept_rows rows.items)) }
{
    let mut named = Vec::with_capacity(alloc, rows.len())?;
    for row in rows {
        named.push(with_full_name(alloc, row)?)?;
    }
    Ok(named)
}

fn with_full_name(alloc: Global, row: KeptRow) -> Result<KeptRow, AllocError>
    ensures { IfOk result (λ named. kept_row named ≡ full_failure (kept_row row)) }
{
    let Outcome::Failed(_) = &row.outcome else {
        return Ok(row);
    };
    let mut row = row;
    row.info.name = full_name(alloc, row.info.kind.as_str(), row.info.name.as_str())?;
    Ok(row)
}

// Returns a kind in brackets, if it isn't empty, and a name.
fn full_name(alloc: Global, kind: &str, name: &str) -> Result<String, AllocError>
    ensures { IfOk result (λ full. string_bytes full ≡ kind_part kind.now ++ name.now) }
{
    let (open, close) = brackets(kind);
    let mut full = String::from_str(alloc, open)?;
    full.push_str(kind)?;
    full.push_str(close)?;
    full.push_str(name)?;
    Ok(full)
}

// Returns the rows as a printer takes them. Their texts stay where they are. A printer looks at neither flag.
fn rows_to_print(alloc: Global, rows: Vec<Row>) -> Result<Vec<KeptRow>, AllocError>
    ensures { IfOk result
        (λ printed. kept_rows printed.items ≡ map printed_row rows.items) }
{
    let mut printed = Vec::with_capacity(alloc, rows.len())?;
    for row in rows {
        let Row {
            name,
            kind,
            outcome,
            nanos,
        } = row;
        let info = TestInfo {
            name,
            kind,
            is_ignored: false,
            is_bench: false,
        };
        printed.push(KeptRow {
            info,
            outcome,
            nanos,
        })?;
    }
    Ok(printed)
}

// Returns the printer of a run with these rows.
fn printer_for(rows: &[KeptRow], colours: bool) -> Printer
    ensures { result ≡ pretty_printer colours (kept_rows rows.now) }
{
    let (name_width, kind_width) = columns_for(rows);
    Printer {
        format: FormatSetting::Pretty,
        colour: colours,
        name_width,
        kind_width,
    }
}

fn columns_for(rows: &[KeptRow]) -> (usize, usize)
    ensures names { result.0 ≡ name_width_of (map (λ row. label_of row.info) rows.now) }
    ensures kinds { result.1 ≡ kind_width_of (map (λ row. label_of row.info) rows.now) }
{
    rows.iter()
        .fold((0, 0), |columns, row| wide_enough(columns, &row.info))
}

// Widens the columns to what the trial takes, if that is more.
fn wide_enough(columns: (usize, usize), info: &TestInfo) -> (usize, usize)
    ensures names { result.0 ≡ max (name_chars (label_of info.now)) columns.0 }
    ensures kinds { result.1 ≡ max (kind_chars (label_of info.now)) columns.1 }
{
    let (name, kind) = widths(slice::from_ref(info));
    (name.max(columns.0), kind.max(columns.1))
}

// Adds the whole report of the rows, if these are its counts.
fn add_report<W: Write>(
    sink: &mut Sink<W>,
    printer: &Printer,
    rows: &[KeptRow],
    counts: &Conclusion,
    nanos: u64,
)
    requires { counts.now
        ≡ counts_of (outcomes_of (kept_rows rows.now)) counts.now.num_filtered_out }
    ensures { Adds W.contents sink.old sink.new
        (report_text printer.now (kept_rows rows.now) counts.now.num_filtered_out nanos) }
{
    printer.add_title(sink, rows.len() as u64);
    add_rows_and_failures(sink, printer, rows);
    printer.add_summary(sink, counts, nanos);
    sink.add_flush();
}

// Adds each row, and then the failures among them.
fn add_rows_and_failures<W: Write>(sink: &mut Sink<W>, printer: &Printer, rows: &[KeptRow])
    ensures { Adds W.contents sink.old sink.new
        (rows_and_failures printer.now (kept_rows rows.now)) }
{
    for row in rows {
        if sink.has_fault() {
            return;
        }
        printer.add_row(sink, &row.info, &row.outcome, row.nanos);
    }
    printer.add_failures(sink, &KeptRows { rows });
}

// Adds the failures among the rows, and how the report ended.
fn add_failures<W: Write>(sink: &mut Sink<W>, rows: &[KeptRow], ending: &Ending)
    ensures { Adds W.contents sink.old sink.new
        (failures_part (kept_rows rows.now) ending.now) }
{
    Printer::new(FormatSetting::Pretty, false, 0, 0).add_failures(sink, &KeptRows { rows });
    add_ending(sink, rows.len(), ending);
    sink.add_flush();
}

// Adds what was read of a report that is cut, if these are the rows that have ended in it.
fn add_cut_report<W: Write>(sink: &mut Sink<W>, printer: &Printer, rows: &[KeptRow], stop: &Stop)
    ensures { Adds W.contents sink.old sink.new
        (cut_report_text printer.now (kept_rows rows.now) stop.now) }
{
    add_title_if_any(sink, printer, stop.announced);
    add_rows_and_failures(sink, printer, rows);
    add_cut_line(sink, rows.len(), stop);
    sink.add_flush();
}

fn add_title_if_any<W: Write>(sink: &mut Sink<W>, printer: &Printer, announced: Option<u64>)
    ensures { Adds W.contents sink.old sink.new (title_if_any printer.now announced) }
{
    if let Some(announced) = announced {
        printer.add_title(sink, announced);
    }
}

// Adds how a report ended, after `ended` rows: nothing unless it is cut.
fn add_ending<W: Write>(sink: &mut Sink<W>, ended: usize, ending: &Ending)
    ensures { Adds W.contents sink.old sink.new (cut_part ended ending.now) }
{
    match ending {
        Ending::Cut(stop) => add_cut_line(sink, ended, stop),
        Ending::Whole { .. } | Ending::Failed(_) => {}
    }
}

// Adds how far a report goes that is cut, behind an empty line, after `ended` rows.
fn add_cut_line<W: Write>(sink: &mut Sink<W>, ended: usize, stop: &Stop)
    ensures { Adds W.contents sink.old sink.new (cut_line ended stop.now) }
{
    sink.add(b"\n");
    add_cut(sink, Place::Line, ended as u128, stop);
    sink.add(b"\n");
}
