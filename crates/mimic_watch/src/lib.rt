//! Shows a JSON report as it comes: its failures and measurements, and on a terminal how far the run is.
//!
//! ```rust
//! use mimic_events::Ending;
//! use mimic_printer::Sink;
//! use mimic_watch::{Screen, watch};
//!
//! let mut sink = Sink::new(stdout);
//! let screen = Screen { live: is_terminal, columns: 79, colours: false };
//! let verdict = watch(alloc, &mut input, &mut sink, &clock, screen)?;
//! match verdict.ending {
//!     Ending::Whole { filtered_out, nanos } => {}
//!     Ending::Cut(stop) => {}
//!     // An error of the reader is a fault of `watch`.
//!     Ending::Failed(_) => {}
//! }
//! ```
#![tactic(auto)]

mod frame;
mod pace;
mod row;
mod text;
mod verdict;
mod viewer;

pub use frame::{ERASE, Screen};
pub use verdict::{WatchFault, WatchVerdict};
pub use viewer::watch;
