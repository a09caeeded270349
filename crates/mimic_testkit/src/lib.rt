//! What tests share: a writer that fails when a test wants it to, clocks whose readings are known, the 17 trials of
//! `harness`, and a report. No library lists this crate.
//!
//! ```rust
//! use mimic_testkit::{Fault, FaultPlace, FaultyWriter};
//! use std::io::{ErrorKind, Write};
//!
//! let full = Fault::Error(ErrorKind::StorageFull);
//! let mut writer = FaultyWriter::new(rt.alloc()).failing(FaultPlace::Byte(3), full);
//! assert!(rt; writer.write_all(b"ab").is_ok());
//! assert!(rt; writer.write_all(b"cd").is_err());
//! assert!(rt; writer.bytes.as_slice() == b"abc".as_slice());
//! assert!(rt; writer.has_failed);
//! assert_eq!(rt; writer.calls_after, 0);
//! ```
#![tactic(auto)]

mod clocks;
mod faulty_writer;
mod mixed_bag;
mod two_tests;

pub use clocks::{KnownReadings, RaisedClock, TwoReadings};
pub use faulty_writer::{Fault, FaultPlace, FaultyWriter};
pub use mixed_bag::{Answer, Entry, Known, MIXED_BAG, benchmark_answer, known_trials, test_answer};
pub use two_tests::TWO_TESTS_JSON;
