//! What a program prints on its standard streams besides its output: lines of faults. And whether its output has colours.
//!
//! ```rust
//! use mimic_console::{Streams, print_line, shows_colours};
//! use std::fmt::Display;
//!
//! fn refuse<H: Streams, F: Display>(host: &H, fault: &F) {
//!     print_line(format_args!("example: {fault}"), &mut host.stderr());
//! }
//!
//! let colours = shows_colours(&rt, &rt.stdout());
//! ```
#![tactic(auto)]

mod colours;
mod lines;
mod streams;

pub use colours::shows_colours;
pub use lines::{print_line, print_text};
pub use streams::Streams;
