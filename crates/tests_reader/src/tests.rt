//! What no clause covers: that reports are read if memory is ample, and what the definition of a report takes and refuses.
//! Expected values are worked by hand from the format's rules.
mod feeding;
mod large;
mod questions;
mod readreport;
mod reports;
mod runs_read_back;
mod times;
mod writing;
