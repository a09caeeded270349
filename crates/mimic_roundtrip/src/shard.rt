//! Runs the trials of one shard.
ghost use Rattle.std.specs.Prelude.{IfOk};
ghost use Rattle.libtest_mimic.specs.Stopwatch.{IsFresh};
ghost use Rattle.libtest_mimic.specs.Trial.{AllCanRun};
ghost use Rattle.mimic_events.specs.Contents.{contents_read};
ghost use Rattle.mimic_roundtrip.specs.Joined.{ShardLaws, ReportsTrials};
ghost use Rattle.mimic_roundtrip.specs.Run.{ReportsRun};
ghost use Rattle.mimic_trial.specs.Shard.{shard_of};

use crate::run_to_report;
use libtest_mimic::{Arguments, Clock, Conclusion, RunError, Stopwatch, Task, Trial};
use mimic_events::Report;
use mimic_trial::{Shard, shard_of};
use std::alloc::Global;

/// Runs the selected trials of the shard, as `run_to_report` does.
///
/// The reports of all shards, joined by `mimic_join::joined`, are a report of all trials.
pub fn run_shard<R: Task, C: Clock>(
    alloc: Global,
    args: Arguments,
    shard: Shard,
    tests: Vec<Trial<R>>,
    watch: &mut Stopwatch<C>,
) -> Result<(Conclusion, Report), RunError>
    requires runnable { AllCanRun R.can_run tests.items }
    requires fresh { IsFresh watch.old }

    // The conclusion has the report's counts, and the report has the trials of this shard in their order, with the watch's time.
    ensures run { IfOk result
        (λ ran. ReportsRun R.gives args (shard_of shard.count shard.index tests.items)
        watch.new ran.0 (contents_read ran.1)) }

    // So it is a report of the trials of this shard, as one by any number of threads is.
    ensures trials { IfOk result
        (λ ran. ReportsTrials R.gives args (shard_of shard.count shard.index tests.items)
        (contents_read ran.1)) }

    // So is what any run writes of a shard, with any number of threads, and the joined report of all shards is one of all
    // trials.
    ensures laws { ShardLaws R.gives }
{
    let trials = shard_of(alloc, shard, tests)?;
    run_to_report(alloc, args, trials, watch)
}
