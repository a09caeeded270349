//! A report whose text tests share.

/// The report in JSON of two tests, one that passes and one that fails.
pub const TWO_TESTS_JSON: &str = r#"{ "type": "suite", "event": "started", "test_count": 2 }
{ "type": "test", "event": "started", "name": "succeeding_test" }
{ "type": "test", "name": "succeeding_test", "event": "ok" }
{ "type": "test", "event": "started", "name": "failing_test" }
{ "type": "test", "name": "failing_test", "event": "failed", "stdout": "Error: \"Woops\"\n" }
{ "type": "suite", "event": "failed", "passed": 1, "failed": 1, "ignored": 0, "measured": 0, "filtered_out": 0, "exec_time": 0 }
"#;
