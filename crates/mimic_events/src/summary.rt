//! Reads the line that ends a report.
ghost use Rattle.std.specs.Prelude.{◌≡◌, List};
ghost use Rattle.std.specs.List.{concat};
ghost use Rattle.mimic_printer.specs.Json.{Entry, summary_front};
ghost use Rattle.mimic_events.specs.LineParts.{Follows, IsTotals};
ghost use Rattle.mimic_events.specs.Reading.{Decodes, HasCounts, IsSummary};

use crate::lines::{after, after_all, before};
use crate::numbers::{number_at, seconds};
use itoa::Buffer;
use mimic_printer::json_verdict;
use mimic_trial::Conclusion;

// Returns the number of trials that were filtered out and the nanoseconds, if the line is a summary with these counts.
pub(crate) fn summed(counts: &Conclusion, line: &[u8]) -> Option<(u64, u64)>
    ensures { (entries : List Entry) → HasCounts counts.now entries
        → Decodes (IsSummary entries) line.now result }
{
    totals(after_counts(line, counts)?)
}

// Reads the number of trials that were filtered out and the nanoseconds from what follows the counts of outcomes.
#[tactic(auto, using(crate::proofs::Summaries::behind_key))]
fn totals(rest: &[u8]) -> Option<(u64, u64)>
    ensures { Decodes IsTotals rest.now result }
{
    let (filtered_out, rest) = number_at(rest)?;
    let rest = after(rest, br#", "exec_time": "#)?;
    let nanos = seconds(before(rest, b" }\n")?)?;
    Some((filtered_out, nanos))
}

// Returns what follows a summary line up to the four counts of outcomes, if the text begins with that.
fn after_counts<'a>(line: &'a [u8], counts: &Conclusion) -> Option<&'a [u8]>
    ensures { Follows (concat (summary_front counts.now)) line.now result }
{
    after_all(
        line,
        &[
            br#"{ "type": "suite", "event": ""#,
            json_verdict(counts.num_failed).as_bytes(),
            br#"", "passed": "#,
            Buffer::new().format(counts.num_passed).as_bytes(),
            br#", "failed": "#,
            Buffer::new().format(counts.num_failed).as_bytes(),
            br#", "ignored": "#,
            Buffer::new().format(counts.num_ignored).as_bytes(),
            br#", "measured": "#,
            Buffer::new().format(counts.num_measured).as_bytes(),
            br#", "filtered_out": "#,
        ],
    )
}
