//! Reports, as they are read back.
ghost use Rattle.std.specs.Prelude.{◌≡◌, map};
ghost use Rattle.mimic_trial.specs.Count.{counts_of};

use mimic_trial::{Conclusion, Outcome};

/// What a report shows of a trial before its outcome.
#[derive(Debug, PartialEq, Eq, Drop)]
pub struct Label {
    /// The trial's name, without its kind.
    pub name: String,
    /// The trial's kind, which may be empty.
    pub kind: String,
}

/// What a report says about one trial.
#[derive(Debug, PartialEq, Eq, Drop)]
pub struct Row {
    /// The trial's name, without its kind.
    pub name: String,
    /// The trial's kind, which may be empty.
    pub kind: String,
    /// What became of the trial.
    pub outcome: Outcome,
    /// How long it took in nanoseconds, if the report says so.
    pub nanos: Option<u64>,
}

/// What a report says.
#[derive(Debug, PartialEq, Eq, Drop)]
pub struct Report {
    /// The trials that ran or were ignored, in the order of the report.
    pub rows: Vec<Row>,
    /// The number of trials that were filtered out.
    pub filtered_out: u64,
    /// The time that the run took, in nanoseconds.
    pub nanos: u64,
}

impl Report {
    /// Counts the trials with each outcome, as the harness that ran them did.
    pub fn counts(&self) -> Conclusion
        ensures { result
            ≡ counts_of (map (λ row. row.outcome) self.now.rows.items) self.now.filtered_out }
    {
        counts_of_rows(&self.rows, self.filtered_out)
    }
}

/// What a report says in numbers.
#[derive(Debug, PartialEq, Eq, Drop)]
pub struct Totals {
    /// The number of trials that ran or were ignored.
    pub rows: u64,
    /// The number of trials with each outcome, as the harness that ran them returned it.
    pub counts: Conclusion,
    /// The time that the run took, in nanoseconds.
    pub nanos: u64,
}

/// Counts the rows with each outcome; `filtered_out` is how many trials were filtered out.
pub fn counts_of_rows(rows: &[Row], filtered_out: u64) -> Conclusion
    ensures { result ≡ counts_of (map (λ row. row.outcome) rows.now) filtered_out }
{
    let mut counts = Conclusion::empty(filtered_out);
    for row in rows {
        counts.count(&row.outcome);
    }
    counts
}
