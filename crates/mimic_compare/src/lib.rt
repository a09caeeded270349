//! Compares two reports by kind and name, and prints what became of each.
//!
//! ```rust
//! use mimic_compare::{ComparisonOptions, write_comparison};
//! use std::hash::RandomState;
//!
//! let options = ComparisonOptions { slower: 125, lists_not_run: false };
//! let hash_builder = RandomState::new(&rt)?;
//! let verdict = write_comparison(alloc, hash_builder, old_file, new_file, &options, &mut sink)?;
//! let status = verdict.status();
//! ```
#![tactic(auto)]

mod change;
mod class;
mod fates;
mod lines;
mod messages;
mod trials;
mod verdict;

pub use class::Class;
pub use verdict::{ComparisonOptions, ComparisonVerdict, write_comparison};
