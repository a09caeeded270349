//! Shows reports: as JUnit's XML, as a page of HTML that needs nothing from outside, or as the harness prints them, also if they are
//! cut; and shows their slowest trials.
//!
//! ```rust
//! use mimic_events::read_from;
//! use mimic_printer::Sink;
//! use mimic_reports::{PageContents, Suite, show_report, write_page};
//!
//! let report = read_from(alloc, &mut report_file)?;
//! // In pretty, without colours:
//! show_report(alloc, report, false, &mut terminal)?;
//! let suite = Suite::read(alloc, "harness", any_file)?;
//! let page = PageContents {
//!     title: "harness",
//!     notes: &[],
//!     rows: suite.rows(),
//!     ending: suite.ending(),
//!     cause: suite.cause(),
//!     most: u64::MAX,
//! };
//! write_page(&page, &mut Sink::new(page_file))?;
//! ```
#![tactic(auto)]

mod bar;
mod cut;
mod human_time;
mod junit;
mod junit_elements;
mod page;
mod page_elements;
mod page_row;
mod row_id;
mod script;
mod seconds;
mod show;
mod slowest;
mod style;
mod suite;

pub use cut::add_running;
pub use junit::{write_junit, write_suite};
pub use page::{PageContents, write_page};
pub use show::{show_cut, show_failures, show_report};
pub use slowest::{Slowest, write_slowest};
pub use suite::{Suite, status_of};
