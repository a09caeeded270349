//! What is large: a reader that says of it that there was no memory would meet its contract.
use mimic_events::{Tally, read_report};
use std::alloc::Global;
use std::test::Fail;

const ROWS: usize = 70_000;

// A report of tests that passed, of some 10 MB.
fn long_report(alloc: Global) -> Result<String, Fail> {
    let mut text = format!(in alloc;
        "{{ \"type\": \"suite\", \"event\": \"started\", \"test_count\": {ROWS} }}\n"
    )?;
    for _ in 0..ROWS {
        text.push_str(
            r#"{ "type": "test", "event": "started", "name": "a name of some length" }
{ "type": "test", "name": "a name of some length", "event": "ok" }
"#,
        )?;
    }
    let end = r#""failed": 0, "ignored": 0, "measured": 0, "filtered_out": 0, "exec_time": 0 }"#;
    let summary = format!(in alloc;
        "{{ \"type\": \"suite\", \"event\": \"ok\", \"passed\": {ROWS}, {end}\n"
    )?;
    text.push_str(summary.as_str())?;
    Ok(text)
}

#[test]
fn reads_a_long_report_at_once(rt: HostRuntime) -> Result<(), Fail> {
    let alloc = rt.alloc();
    let text = long_report(alloc)?;
    let report = read_report(alloc, text.as_bytes())?.ok_or("no report")?;
    assert!(rt; report.rows.len() == ROWS);
    let totals = Tally::new(alloc).feed(text.as_bytes())?.finish();
    assert!(rt; totals.is_some_and(|totals| totals.counts.num_passed == ROWS as u64));
    Ok(())
}
