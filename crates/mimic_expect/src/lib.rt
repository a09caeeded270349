//! Known failures, and what of the rows of reports is not as they say.
//!
//! ```rust
//! use mimic_expect::{ExpectOptions, Lines, read_known, write_unexpected};
//! use std::hash::RandomState;
//!
//! let known = read_known(alloc, &bytes)?;
//! let options = ExpectOptions {
//!     lax: false,
//!     lines: Lines::Readable,
//! };
//! let hash_builder = RandomState::new(&rt)?;
//! let verdict = write_unexpected(alloc, hash_builder, &known, readers, options, &mut sink)?;
//! verdict.status()
//! ```
#![tactic(auto)]

mod inputs;
mod judge;
mod judgement;
mod keyed_items;
mod known;
mod known_text;
mod options;
mod unexpected;
mod updated;
mod verdict;

pub use inputs::write_unexpected;
pub use known::{Expectation, KnownFault, KnownFile, read_known};
pub use known_text::write_known;
pub use options::{ExpectOptions, Lines};
pub use updated::{UpdateVerdict, write_updated};
pub use verdict::ExpectationVerdict;
