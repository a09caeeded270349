//! Cases in files: finds them below folders, reads their files, and replaces these. For programs whose trials are files, beside
//! `libtest_mimic`.
//!
//! ```rust
//! use mimic_files::{Found, cases_below};
//!
//! let case_of = |file: &str| file.strip_suffix(".in");
//! for Found { name, files, kind } in cases_below(&rt, folders, case_of)? {
//!     let input = files.read_text(&rt, "in")?;
//! }
//! ```
#![tactic(auto)]

mod files;
mod folders;
mod replace;

pub use files::{CaseFiles, FileError, read_bytes, read_text};
pub use folders::{FolderError, Found, cases_below};
pub use replace::replace_file;
