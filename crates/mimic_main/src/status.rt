//! The status that a program ends with.
ghost use Rattle.std.specs.Prelude.{◌≡◌};
ghost use Rattle.std.specs.Process.{exit_status};
ghost use Rattle.mimic_main.specs.Ended.{number_of};

use libtest_mimic::Conclusion;
use std::io::Eprint;
use std::process::{ExitCode, Termination};

/// The exit status of a program, which its `main` is to return. Only this crate can make one or take one apart, and a program
/// that drops one doesn't compile.
#[derive(Debug, PartialEq, Eq)]
pub struct Status {
    number: u8,
}

impl Status {
    // No trial failed, or help was asked for.
    pub(crate) const SUCCESS: Status = Status { number: 0 };

    pub(crate) const CANNOT_RUN: Status = Status { number: 1 };

    pub(crate) const REFUSED_LINE: Status = Status { number: 2 };

    pub(crate) const TRIALS_FAILED: Status = Status {
        number: Conclusion::FAILED,
    };

    /// The number that a process ends with.
    pub fn number(&self) -> u8
        ensures { result ≡ number_of self.now }
    {
        self.number
    }

    pub(crate) fn into_number(self) -> u8
        ensures { result ≡ number_of self }
    {
        let Status { number } = self;
        number
    }
}

impl Termination for Status {
    fn report<R: Eprint>(self, _rt: &R) -> ExitCode
        ensures { exit_status result ≡ number_of self }
    {
        ExitCode::from(self.into_number())
    }
}
