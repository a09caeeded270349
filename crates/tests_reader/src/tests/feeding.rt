//! What tests of reports share: a report of no trials, a report that is altered, and one that comes in pieces.
use mimic_events::{Feed, Report};
use std::alloc::{AllocError, Global};
use std::test::Fail;

pub(super) const NO_ROWS: &str = r#"{ "type": "suite", "event": "started", "test_count": 0 }
{ "type": "suite", "event": "ok", "passed": 0, "failed": 0, "ignored": 0, "measured": 0, "filtered_out": 0, "exec_time": 0 }
"#;

// The report with the part `new` in place of its part `old`.
pub(super) fn altered(alloc: Global, report: &str, old: &str, new: &str) -> Result<String, Fail> {
    let (front, back) = report.split_once(old).ok_or("not in the report")?;
    Ok(format!(in alloc; "{front}{new}{back}")?)
}

// What a feed returns for these pieces.
pub(super) fn fed(alloc: Global, pieces: &[&[u8]]) -> Result<Option<Report>, AllocError> {
    let mut feed = Feed::new(alloc)?;
    for piece in pieces {
        feed.feed(piece)?;
    }
    feed.finish()
}

// What a feed returns for these bytes, which come one by one.
pub(super) fn fed_each_byte(alloc: Global, bytes: &[u8]) -> Result<Option<Report>, AllocError> {
    let mut feed = Feed::new(alloc)?;
    for byte in bytes.chunks(1) {
        feed.feed(byte)?;
    }
    feed.finish()
}
