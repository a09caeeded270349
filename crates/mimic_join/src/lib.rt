//! Joins the reports of all shards of a suite to one.
//!
//! ```rust
//! use mimic_events::{read_from, write_report};
//! use mimic_join::{join_reports, joined};
//! use mimic_printer::Sink;
//! use std::hash::RandomState;
//!
//! let first = read_from(alloc, &mut first_file)?;
//! let second = read_from(alloc, &mut second_file)?;
//! let hash_builder = RandomState::new(&rt)?;
//! let whole = joined(alloc, hash_builder, vec![in alloc; first, second]?, 2, false)??;
//! write_report(&whole, &mut sink)?;
//! // The same from readers to a writer, with less memory:
//! let inputs = vec![in alloc; first_file, second_file]?;
//! let counts = join_reports(alloc, hash_builder, inputs, 2, false, &mut sink)?;
//! assert!(rt; !counts.has_failed());
//! ```
#![tactic(auto)]

mod cut;
mod faults;
mod inputs;
mod join;
mod order;

pub use cut::{Joined, join_cut_reports};
pub use faults::{JoinFault, NamedFault};
pub use inputs::join_reports;
pub use join::{Refusal, joined};
