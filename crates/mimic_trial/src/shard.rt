//! A shard, and the trials that belong to it.
ghost use Rattle.std.specs.Prelude.{◌≡◌, ◌<◌, ◌≤◌, ◌∷◌, ◌++◌, [], IfNone, IfOk, IfSome, OnOk, if◌then◌else◌};
ghost use Rattle.mimic_trial.specs.Shard.{ShardsAreAll, shard_of};
ghost use Rattle.mimic_trial.specs.declared.trial.Trial.{Trial};

use crate::Trial;
use std::alloc::{AllocError, Global};

/// One of several runs that share the trials of a suite: its index, counted from 0, and how many they are.
#[derive(Clone, Copy, Debug, PartialEq, Eq)]
pub struct Shard {
    index: usize,
    count: usize,
    pub ghost within: { index < count },
}

impl Shard {
    /// The shard `index` of `count`. `None` says that there is none, since the index is not below the count.
    pub fn new(index: usize, count: usize) -> Option<Shard>
        ensures shard { IfSome result (λ shard. (shard.index ≡ index) × (shard.count ≡ count)) }
        ensures none { IfNone result (count ≤ index) }
    {
        if index < count {
            Some(Shard { index, count })
        } else {
            None
        }
    }

    /// Its index, counted from 0. It is below the count.
    pub fn index(&self) -> usize
        ensures { result ≡ self.now.index }
    {
        self.index
    }

    /// How many shards there are.
    pub fn count(&self) -> usize
        ensures { result ≡ self.now.count }
    {
        self.count
    }
}

/// The trials that belong to the shard, in their order: those whose place, counted from 0, leaves the shard's index if it is
/// divided by the count. The shards of all indices have together each trial once.
pub fn shard_of<R: Drop>(
    alloc: Global,
    shard: Shard,
    tests: Vec<Trial<R>>,
) -> Result<Vec<Trial<R>>, AllocError>
    ensures shard { IfOk result
        (λ kept. kept.items ≡ shard_of shard.count shard.index tests.items) }
    ensures law { ShardsAreAll (Trial R) }
{
    let mut kept = Vec::new(alloc);
    let mut place = 0;
    for test in tests {
        push_if(&mut kept, test, place % shard.count == shard.index)?;
        place += 1;
    }
    Ok(kept)
}

// Appends the test if it is wanted.
fn push_if<T: Drop>(kept: &mut Vec<T>, test: T, wanted: bool) -> Result<(), AllocError>
    ensures { OnOk result (kept.new.items ≡ kept.old.items ++ (if wanted then test ∷ [] else [])) }
{
    if wanted {
        kept.push(test)?;
    }
    Ok(())
}
