//! Compares two reports and prints what became of each kind and name.
ghost use Rattle.std.specs.Prelude.{◌≡◌, ◌==◌, ◌&&◌, not};
ghost use Rattle.indexmap.specs.IndexMap.{index_map_len};
ghost use Rattle.mimic_printer.specs.Sink.{HasFaultLeft, shown};
ghost use Rattle.mimic_compare.specs.Written.{ComparisonLaws, LeavesComparison, has_title};

use crate::change::ranked_changes;
use crate::class::Class;
use crate::fates::Side;
use crate::lines::{add_comparison, count_of};
use crate::trials::{Comparison, Keeper, Trials, compare_trials};
use indexmap::IndexMap;
use mimic_events::{Ending, read_into};
use mimic_printer::{OutputFault, Sink};
use mimic_trial::Conclusion;
use std::alloc::Global;
use std::hash::BuildHasher;
use std::io::{Read, Write};

/// What of a comparison is printed.
#[derive(Clone, Copy, Debug, PartialEq, Eq)]
pub struct ComparisonOptions {
    /// By what factor, in hundredths, a time must change to be printed: 125 is 1.25. With 100 or less no factor is too small.
    pub slower: u64,
    /// Whether [`Class::NotRun`] and [`Class::NotRunBefore`] have lines.
    pub lists_not_run: bool,
}

/// What a comparison found.
#[derive(Debug, Drop)]
pub struct ComparisonVerdict {
    /// How many kinds and names are new failures.
    pub new_failures: usize,
    /// How many regressed.
    pub regressed: usize,
    /// How many are missing.
    pub missing: usize,
    /// How the old input ended.
    pub old: Ending,
    /// How the new input ended.
    pub new: Ending,
}

impl ComparisonVerdict {
    ghost use Rattle.std.specs.Prelude.{◌≡◌};
    ghost use Rattle.mimic_compare.specs.Written.{status_of, verdict_on};

    // Returns the verdict on what was found in inputs that ended so.
    fn on(found: &[Comparison<'_>], old: Ending, new: Ending) -> ComparisonVerdict
        ensures { result ≡ verdict_on found.now old new }
    {
        ComparisonVerdict {
            new_failures: count_of(found, Class::NewFailure),
            regressed: count_of(found, Class::Regressed),
            missing: count_of(found, Class::Missing),
            old,
            new,
        }
    }

    /// Returns the status of a program: 101 if there is a new failure, or something regressed or is missing, else 1 if an input is no
    /// whole report, else 0.
    pub fn status(&self) -> u8
        ensures { result ≡ status_of self.now }
    {
        if self.new_failures > 0 || self.regressed > 0 || self.missing > 0 {
            Conclusion::FAILED
        } else if self.old.is_whole() && self.new.is_whole() {
            0
        } else {
            1
        }
    }
}

// Whether nothing of a report was read: neither one of these rows nor a title.
fn shows_nothing<S: BuildHasher>(trials: &Trials<S>, ending: &Ending) -> bool
    ensures { result ≡ (index_map_len trials.now == 0 && not (has_title ending.now)) }
{
    trials.is_empty()
        && match ending {
            Ending::Whole { .. } => false,
            Ending::Cut(stop) => stop.announced.is_none(),
            Ending::Failed(_) => true,
        }
}

/// Compares two reports by kind and name, prints what became of each, and flushes it.
///
/// Each kind and name is of the first [`Class`] that fits. The lines come class by class, and within a class in the order of the old
/// report and then of the new one. `StillFailing` and `Unchanged` have no lines, and `NotRun` and `NotRunBefore` have them only if the
/// options say so. A line of `NewFailure`, `Regressed` or `AnotherMessage` ends with the first line of the message of the first failure
/// in the new report.
///
/// After them come the averages and the times that changed by more than the factor, the greatest ratio of the new number to the old
/// one first, and equal ratios in the order of the old report and then of the new one. An average is compared if the kind and the
/// name were measured once in each report, and a time if one row of them in each report has one. Averages must also differ by more
/// than either deviation, and times by ten milliseconds or more.
///
/// The last line has the numbers of all classes, and how many averages and times are slower and faster. Control characters of names
/// and messages are shown by their numbers, so that none of them ends a line.
///
/// A kind and a name can be missing or new only if both inputs are whole reports and nothing was filtered out of them. If an input
/// fails or is cut, the rows are compared that have ended, and the verdict says how each input ended. If nothing of the old one could
/// be read, so that it has no row, and either no title or an error of its reader, nothing is printed, and all numbers are 0.
///
/// Each kind and name is kept once, with the outcomes and the times of its rows. Time and memory are in proportion to the rows.
/// Kinds, names and messages are found in hash tables that hash by `hash_builder`. If its hashes are known beforehand, as those of
/// std's default are, whoever chooses these texts can give all of them one hash, and the time is in proportion to the square of the
/// rows. So pass a [`RandomState`](std::hash::RandomState) if others choose them.
///
/// If memory ran out, nothing was written. After a write fault, a beginning of the whole was written.
#[tactic(auto, using(crate::proofs::Laws::comparison_laws))]
pub fn write_comparison<S: BuildHasher + Copy, I: Read + Drop, W: Write>(
    alloc: Global,
    hash_builder: S,
    old: I,
    new: I,
    options: &ComparisonOptions,
    sink: &mut Sink<W>,
) -> Result<ComparisonVerdict, OutputFault>
    requires { HasFaultLeft sink.old }
    ensures written { LeavesComparison I.remaining old new options.now (shown W.contents sink.old)
        (shown W.contents sink.new) result }

    // Each kind and name is in one class, only what didn't fail before regressed, the status says whether one is worse, and no name or
    // message ends a line.
    ensures laws { ComparisonLaws }
{
    let mut keeper = Keeper {
        alloc,
        trials: IndexMap::with_hasher(alloc, hash_builder),
        side: Side::Old,
    };
    let old = read_into(alloc, old, &mut keeper)?;
    let is_refused = shows_nothing(&keeper.trials, &old);
    keeper.side = Side::New;
    let new = read_into(alloc, new, &mut keeper)?;
    if is_refused {
        return Ok(ComparisonVerdict::on(&[], old, new));
    }
    let found = compare_trials(alloc, &keeper.trials, old.has_all() && new.has_all())?;
    let changes = ranked_changes(alloc, options.slower, &found)?;
    add_comparison(sink, &found, &changes, options.lists_not_run);
    sink.end()?;
    Ok(ComparisonVerdict::on(&found, old, new))
}
