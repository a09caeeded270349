//! Reads reports that are to be written in XML or HTML.
ghost use Rattle.std.specs.Prelude.{◌≡◌, ◌^◌, IfOk, IfSome, map, string_bytes};
ghost use Rattle.std.specs.List.{list_all, list_any};
ghost use Rattle.mimic_events.specs.Contents.{entry_read};
ghost use Rattle.mimic_events.specs.Readings.{IsReading, is_whole};
ghost use Rattle.mimic_reports.specs.Junit.{numbers_of};
ghost use Rattle.mimic_reports.specs.Suites.{AreWithin, IsCauseOf, has_failures, status_of};

use crate::junit_elements::Numbers;
use mimic_events::{Ending, Row, RowsRead, counts_of_rows, read_rows};
use mimic_trial::Conclusion;
use std::alloc::{AllocError, Global};
use std::io::Read;

/// A report that was read, with the name of its program.
#[derive(Debug, Drop)]
pub struct Suite<'a> {
    pub(crate) program: &'a str,
    pub(crate) rows: Vec<Row>,
    pub(crate) ending: Ending,
    pub(crate) cause: String,
}

impl<'a> Suite<'a> {
    /// Reads a report, and keeps its rows. Of what isn't a whole report these are the rows that have ended, before the first line that
    /// no report has there or the reader's error. It fails only if there is no memory.
    pub fn read<I: Read + Drop>(
        alloc: Global,
        program: &'a str,
        input: I,
    ) -> Result<Suite<'a>, AllocError>
        ensures read { IfOk result (λ suite. IfSome (I.remaining input) (IsReading (map entry_read suite.rows.items) suite.ending)
            × (suite.program.now ≡ program.now)) }
        ensures cause { IfOk result (λ suite. IsCauseOf suite.ending (string_bytes suite.cause)) }
    {
        let RowsRead { rows, ending } = read_rows(alloc, input)?;
        let cause = match &ending {
            Ending::Failed(error) => format!(in alloc; "{error}")?,
            Ending::Whole { .. } | Ending::Cut(_) => String::new(alloc),
        };
        Ok(Suite {
            program,
            rows,
            ending,
            cause,
        })
    }
}

impl Suite<'_> {
    /// Returns how the report ended.
    pub fn ending(&self) -> &Ending
        ensures { result.now ≡ self.now.ending }
    {
        &self.ending
    }

    /// Returns the rows.
    pub fn rows(&self) -> &[Row]
        ensures { result.now ≡ self.now.rows.items }
    {
        self.rows.as_slice()
    }

    /// Returns why the reader failed, as a user is to see it. The text is empty if it didn't.
    pub fn cause(&self) -> &str
        ensures { result.now ≡ string_bytes self.now.cause }
    {
        self.cause.as_str()
    }

    // Whether a trial of the report failed.
    fn has_failures(&self) -> bool
        ensures { result ≡ has_failures self.now }
    {
        self.numbers().failures > 0
    }

    // Returns the numbers of the report.
    pub(crate) fn numbers(&self) -> Numbers
        ensures numbers { result ≡ numbers_of self.now }
        ensures small { AreWithin (2 ^ 64) result }
    {
        let counts = counts_of_rows(&self.rows, 0);
        let (errors, nanos) = match &self.ending {
            Ending::Whole { nanos, .. } => (0, u128::from(*nanos)),
            Ending::Cut(_) | Ending::Failed(_) => (1, 0),
        };
        Numbers {
            tests: self.rows.len() as u128 + errors,
            failures: u128::from(counts.num_failed),
            errors,
            skipped: u128::from(counts.num_ignored),
            nanos,
        }
    }
}

/// Returns the exit status of a program that goes by these reports: 1 if one of them isn't whole, else 101 if a trial of one failed, else
/// 0.
pub fn status_of(suites: &[Suite<'_>]) -> u8
    ensures { result ≡ status_of suites.now }
{
    match (are_whole(suites), have_failures(suites)) {
        (false, _) => 1,
        (true, true) => Conclusion::FAILED,
        (true, false) => 0,
    }
}

fn are_whole(suites: &[Suite<'_>]) -> bool
    ensures { result ≡ list_all (λ suite. is_whole suite.ending) suites.now }
{
    suites.iter().all(|suite| suite.ending.is_whole())
}

fn have_failures(suites: &[Suite<'_>]) -> bool
    ensures { result ≡ list_any has_failures suites.now }
{
    suites.iter().any(|suite| suite.has_failures())
}
