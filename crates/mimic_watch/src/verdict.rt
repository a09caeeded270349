//! How a watch ends.
ghost use Rattle.std.specs.Prelude.{◌≡◌};
ghost use Rattle.mimic_printer.specs.declared.sink.OutputFault.TheVariants.{OutOfMemory, Write as WriteStopped};
ghost use Rattle.mimic_watch.specs.declared.verdict.WatchFault.TheVariants.{Read, Write};

use mimic_events::{Ending, ReadFault};
use mimic_printer::{OutputFault, WriteFault};
use mimic_trial::Conclusion;
use std::alloc::AllocError;
use thiserror::Error;

/// What the report was that was watched.
#[derive(Debug, Drop)]
pub struct WatchVerdict {
    /// How many of the rows that have ended have each outcome. Unless the report is whole, it counts no trial as filtered out.
    pub counts: Conclusion,
    /// How the report ended.
    pub ending: Ending,
}

impl WatchVerdict {
    ghost use Rattle.std.specs.Prelude.{List};
    ghost use Rattle.mimic_trial.specs.Count.{counts_of};
    ghost use Rattle.mimic_printer.specs.Json.{Entry, outcomes_in};
    ghost use Rattle.mimic_watch.specs.Watched.{AreCounts, status_of};

    /// The status of a watch of a report that isn't whole.
    pub const CUT: u8 = 1;

    // Returns the verdict on a report whose rows have these counts. The ending says how many trials were filtered out.
    pub(crate) fn new(mut counts: Conclusion, ending: Ending) -> WatchVerdict
        ensures ending { result.ending ≡ ending }
        ensures counts { (entries : List Entry) → counts ≡ counts_of (outcomes_in entries) 0 → AreCounts entries result }
    {
        if let Ending::Whole { filtered_out, .. } = &ending {
            counts.num_filtered_out = *filtered_out;
        }
        WatchVerdict { counts, ending }
    }

    /// Returns the status that a program is to end with: 101 if a trial failed, 0 if none did, and 1 if the report isn't whole.
    pub fn status(&self) -> u8
        ensures { result ≡ status_of self.now.counts self.now.ending }
    {
        match &self.ending {
            Ending::Whole { .. } if self.counts.has_failed() => Conclusion::FAILED,
            Ending::Whole { .. } => 0,
            Ending::Cut(_) | Ending::Failed(_) => WatchVerdict::CUT,
        }
    }
}

/// Why a watch ended before its input did. Its text is what a user is to see.
#[derive(Debug, Drop, Error)]
pub enum WatchFault {
    /// No more could be read. `TimedOut` and `WouldBlock` are no such errors of the reader.
    #[error("{0}")]
    Read(ReadFault),
    /// No more could be written.
    #[error("{0}")]
    Write(OutputFault),
}

impl From<ReadFault> for WatchFault {
    ghost from_gives = { λ error fault. fault ≡ Read error };

    fn from(error: ReadFault) -> WatchFault {
        WatchFault::Read(error)
    }
}

impl From<AllocError> for WatchFault {
    ghost from_gives = { λ _ fault. fault ≡ Write OutOfMemory };

    fn from(_error: AllocError) -> WatchFault {
        WatchFault::Write(OutputFault::OutOfMemory)
    }
}

impl From<WriteFault> for WatchFault {
    ghost from_gives = { λ error fault. fault ≡ Write (WriteStopped error) };

    fn from(error: WriteFault) -> WatchFault {
        WatchFault::Write(OutputFault::Write(error))
    }
}
