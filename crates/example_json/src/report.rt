//! Reads the report of a harness by two readers.
use libtest_mimic::{Failed, check_eq, check_ok, fail};
use mimic_events::{Label, Row, read_report};
use mimic_json::read_line;
use serde_json::Value;
use std::alloc::{AllocError, Global};

/// Fails unless the bytes are a report in JSON, and the parser finds the same trials in its lines as the reader of reports, in the
/// same order.
pub(crate) fn check_report(alloc: Global, bytes: &[u8]) -> Result<(), Failed> {
    let Some(report) = read_report(alloc, bytes)? else {
        return Err(fail!(in alloc; "it is no report"));
    };
    let text = check_ok!(in alloc; str::from_utf8(bytes))?;
    check_eq!(in alloc; parsed(alloc, text)?, labels_of(alloc, report.rows)?)
}

fn labels_of(alloc: Global, rows: Vec<Row>) -> Result<Vec<Label>, AllocError> {
    let mut labels = Vec::new(alloc);
    for Row { name, kind, .. } in rows {
        labels.push(Label { name, kind })?;
    }
    Ok(labels)
}

// The trials whose outcomes these lines have, by the parser.
fn parsed(alloc: Global, text: &str) -> Result<Vec<Label>, Failed> {
    let mut labels = Vec::new(alloc);
    for line in text.lines() {
        let value = check_ok!(in alloc; read_line(alloc, line))?;
        if is_of_outcome(&value) {
            add_label(&mut labels, &value)?;
        }
    }
    Ok(labels)
}

// The text under the key, which may be missing.
fn text_under<'a>(value: &'a Value, key: &str) -> &'a str {
    value.get(key).and_then(Value::as_str).unwrap_or_default()
}

// Of the lines that have a name the other ones announce a trial.
fn is_of_outcome(value: &Value) -> bool {
    value.get("name").is_some() && text_under(value, "event") != "started"
}

fn add_label(labels: &mut Vec<Label>, value: &Value) -> Result<(), AllocError> {
    let alloc = *labels.allocator();
    labels.push(Label {
        name: String::from_str(alloc, text_under(value, "name"))?,
        kind: String::from_str(alloc, text_under(value, "kind"))?,
    })?;
    Ok(())
}
