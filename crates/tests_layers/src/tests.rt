//! Calls of the layers one by one, with what no run shows of them. Of shares, workers and rows on their way: that calls succeed, that a
//! worker reports the rows that it returns, and worked rows.
mod board;
mod command_lines;
mod desk;
mod inbox;
mod losses;
mod printing;
mod rows;
mod shown;
mod texts;
mod trials;
mod workers;

use mimic_trial::{Failed, Measurement, Outcome};
use std::alloc::{AllocError, Global};

// The outcome of this number, which no other number has.
fn numbered(number: usize) -> Outcome {
    Outcome::Measured(Measurement {
        avg: number as u64,
        variance: 0,
    })
}

// An outcome as plain data.
#[derive(Clone, Copy, Debug, PartialEq, Eq)]
enum Plain {
    Passed,
    // With this message, or without any.
    Failed(Option<&'static str>),
    Ignored,
    // With this average and variance.
    Measured(u64, u64),
}

impl Plain {
    fn outcome(self, alloc: Global) -> Result<Outcome, AllocError> {
        Ok(match self {
            Plain::Passed => Outcome::Passed,
            Plain::Failed(None) => Outcome::Failed(Failed::without_message()),
            Plain::Failed(Some(message)) => {
                Outcome::Failed(Failed::with_message(String::from_str(alloc, message)?))
            }
            Plain::Ignored => Outcome::Ignored,
            Plain::Measured(avg, variance) => Outcome::Measured(Measurement { avg, variance }),
        })
    }

    // Whether the outcome is this one.
    fn is(self, outcome: &Outcome) -> bool {
        match (self, outcome) {
            (Plain::Passed, Outcome::Passed) | (Plain::Ignored, Outcome::Ignored) => true,
            (Plain::Failed(message), Outcome::Failed(failed)) => failed.message() == message,
            (Plain::Measured(avg, variance), Outcome::Measured(measured)) => {
                measured.avg == avg && measured.variance == variance
            }
            _ => false,
        }
    }
}
