//! Reads back the reports that a harness of `libtest_mimic` writes in JSON, and with [`read_failed_line`] the line of a failure
//! alone.
//!
//! ```rust
//! use mimic_events::Feed;
//! use mimic_trial::Outcome;
//!
//! const ONE_ROW: &str = r#"{ "type": "suite", "event": "started", "test_count": 1 }
//! { "type": "test", "event": "started", "name": "fly", "kind": "banana" }
//! { "type": "test", "name": "fly", "kind": "banana", "event": "ok" }
//! { "type": "suite", "event": "ok", "passed": 1, "failed": 0, "ignored": 0, "measured": 0, "filtered_out": 16, "exec_time": 0.5 }
//! "#;
//!
//! let mut feed = Feed::new(alloc)?;
//! for line in ONE_ROW.split_inclusive('\n') {
//!     feed.feed(line.as_bytes())?;
//! }
//! for row in feed.rows().unwrap_or(&[]) {
//!     assert_eq!(rt; (row.kind.as_str(), row.name.as_str()), ("banana", "fly"));
//!     assert!(rt; row.outcome == Outcome::Passed);
//! }
//! let report = feed.finish()?.ok_or("no report")?;
//! assert_eq!(rt; report.counts().num_passed, 1);
//! assert_eq!(rt; (report.filtered_out, report.nanos), (16, 500_000_000));
//! ```
//!
//! Any reader is read by [`read_from`], to a whole report, and by [`read_rows`], [`read_into`] or [`InputRows`], to the rows of what
//! may have no end:
//!
//! ```rust
//! use mimic_events::{Ending, read_from, read_rows};
//!
//! let report = read_from(alloc, &mut whole_file)?;
//! let read = read_rows(alloc, any_file)?;
//! match read.ending {
//!     Ending::Whole { filtered_out, nanos } => {}
//!     Ending::Cut(stop) => {}
//!     Ending::Failed(error) => {}
//! }
//! ```
#![tactic(auto)]

mod ending;
mod feed;
mod follower;
mod input;
mod key;
mod lines;
mod numbers;
mod progress;
mod quoted_text;
mod readreport;
mod report;
mod row_lines;
mod row_reader;
mod rows;
mod summary;
mod taker;
mod tally;
mod write;

pub use ending::{Ending, Stop};
pub use feed::{Feed, read_from, read_report};
pub use follower::Follower;
pub use input::{PIECE, ReadFault, read_piece};
pub use key::Key;
pub use lines::read_failed_line;
pub use readreport::readreport_run;
pub use report::{Label, Report, Row, Totals, counts_of_rows};
pub use rows::InputRows;
pub use taker::{RowTaker, RowsRead, read_into, read_rows};
pub use tally::Tally;
pub use write::{add_row, write_report};
