//! What is found when reports are judged by known failures.
ghost use Rattle.std.specs.Prelude.{◌≡◌};
ghost use Rattle.std.specs.List.{list_all};
ghost use Rattle.mimic_events.specs.Readings.{has_all, is_whole};
ghost use Rattle.mimic_expect.specs.Verdict.{status_of};

use mimic_events::Ending;
use mimic_trial::Conclusion;

/// What was found in the reports of inputs.
#[derive(Debug, Drop)]
pub struct ExpectationVerdict {
    /// Whether anything is unexpected that counts.
    pub is_unexpected: bool,
    /// How each input ended, in their order.
    pub ends: Vec<Ending>,
}

impl ExpectationVerdict {
    /// Returns the exit status: 1 if an input is no whole report, else 101 if anything is unexpected that counts, else 0.
    pub fn status(&self) -> u8
        ensures { result ≡ status_of self.now }
    {
        match (self.are_whole(), self.is_unexpected) {
            (false, _) => 1,
            (true, true) => Conclusion::FAILED,
            (true, false) => 0,
        }
    }

    // Whether each input was a whole report.
    fn are_whole(&self) -> bool
        ensures { result ≡ list_all is_whole self.now.ends.items }
    {
        self.ends.iter().all(|end| end.is_whole())
    }
}

// Whether each input was a whole report out of which no trial was filtered.
pub(crate) fn have_all(ends: &[Ending]) -> bool
    ensures { result ≡ list_all has_all ends.now }
{
    ends.iter().all(|end| end.has_all())
}
