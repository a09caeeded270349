//! Prints a report as the harness prints it in the pretty format.
use crate::faults::{refuse, refuse_output, status_of_end};
use crate::input::Input;
use crate::line::{Colours, Show};
use crate::{SUCCESS, TRIALS_FAILED, output};
use mimic_console::shows_colours;
use mimic_events::{Ending, ReadFault, Report, Row, RowsRead, counts_of_rows, read_rows};
use mimic_printer::OutputFault;
use mimic_reports::{show_cut, show_failures, show_report};
use mimic_trial::{Failed, Outcome};
use std::alloc::{AllocError, Global};
use std::io::IsTerminal;

// Prints what has ended in the report of the file, or only its failures, and why it is cut or there is none.
pub(crate) fn run(rt: &HostRuntime, alloc: Global, show: &Show) -> u8 {
    let file = show.file.as_str();
    let Ok(RowsRead { rows, ending }) = read_rows(alloc, Input::limited(rt, file)) else {
        return refuse(rt, file, &ReadFault::OutOfMemory);
    };
    let status = if counts_of_rows(&rows, 0).has_failed() {
        TRIALS_FAILED
    } else {
        SUCCESS
    };
    if let Err(fault) = print(rt, alloc, show, rows, &ending) {
        return refuse_output(rt, &fault);
    }
    match &ending {
        Ending::Whole { .. } => status,
        _ => status_of_end(rt, file, &ending),
    }
}

fn print(
    rt: &HostRuntime,
    alloc: Global,
    show: &Show,
    mut rows: Vec<Row>,
    ending: &Ending,
) -> Result<(), OutputFault> {
    if rt.stdout().is_terminal() {
        number_controls(alloc, &mut rows)?;
    }
    let colours = has_colours(rt, show.colours);
    let mut sink = output(rt, alloc)?;
    match ending {
        Ending::Failed(_) => Ok(()),
        _ if show.only_failed => show_failures(alloc, rows, ending, &mut sink),
        Ending::Whole {
            filtered_out,
            nanos,
        } => {
            let report = Report {
                rows,
                filtered_out: *filtered_out,
                nanos: *nanos,
            };
            show_report(alloc, report, colours, &mut sink)
        }
        Ending::Cut(stop) if stop.announced.is_some() => {
            show_cut(alloc, rows, stop, colours, &mut sink)
        }
        // Without a title it is no report.
        Ending::Cut(_) => Ok(()),
    }
}

fn has_colours(rt: &HostRuntime, colours: Colours) -> bool {
    match colours {
        Colours::Auto => shows_colours(rt, &rt.stdout()),
        Colours::Always => true,
        Colours::Never => false,
    }
}

// Replaces characters U+0080 to U+009F in kinds, names and messages by their numbers, since some terminals take them for escapes.
// Escapes that begin with U+001B stay, as in a run: messages have colours by them.
fn number_controls(alloc: Global, rows: &mut [Row]) -> Result<(), AllocError> {
    for row in rows.iter_mut() {
        if let Some(kind) = numbered(alloc, row.kind.as_str())? {
            row.kind = kind;
        }
        if let Some(name) = numbered(alloc, row.name.as_str())? {
            row.name = name;
        }
        if let Outcome::Failed(failed) = &row.outcome
            && let Some(message) = failed.message()
            && let Some(message) = numbered(alloc, message)?
        {
            row.outcome = Outcome::Failed(Failed::with_message(message));
        }
    }
    Ok(())
}

// Returns the text with these characters by number, and with `\u{`, which looks like a number, as `\u{5c}u{`. Returns `None` if it
// has neither.
fn numbered(alloc: Global, text: &str) -> Result<Option<String>, AllocError> {
    if !text.char_indices().any(|(at, c)| is_numbered(text, at, c)) {
        return Ok(None);
    }
    let mut numbered = String::new(alloc);
    for (at, c) in text.char_indices() {
        if is_numbered(text, at, c) {
            write!(numbered, "\\u{{{:x}}}", u32::from(c))?;
        } else {
            numbered.push(c)?;
        }
    }
    Ok(Some(numbered))
}

// Whether this character of the text is written by number.
fn is_numbered(text: &str, at: usize, c: char) -> bool {
    match c {
        '\\' => text.get(at..).is_some_and(|rest| rest.starts_with("\\u{")),
        _ => matches!(c, '\u{80}'..='\u{9f}'),
    }
}
