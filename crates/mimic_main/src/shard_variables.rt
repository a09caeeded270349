//! The shard that variables of the environment name.
ghost use Rattle.std.specs.Prelude.{◌<◌, ◌^◌, SomeIff};
ghost use Rattle.std.specs.Option.{option_copied};
ghost use Rattle.std.specs.Str.Parse.{IsNumeral, digits_value};
ghost use Rattle.mimic_main.specs.ShardVariables.{GivesShard, IsNamedBy};

use mimic_trial::Shard;
use thiserror::Error;

/// What is wrong with the variables. Its text is what a user is to see.
#[derive(Clone, Copy, Debug, PartialEq, Eq, Error)]
pub enum ShardFault {
    /// There is an index, but no total.
    #[error("TEST_TOTAL_SHARDS is missing, but TEST_SHARD_INDEX is set")]
    NoTotal,
    /// There is a total, but no index.
    #[error("TEST_SHARD_INDEX is missing, but TEST_TOTAL_SHARDS is set")]
    NoIndex,
    /// The total is no number, or 0.
    #[error("TEST_TOTAL_SHARDS is not a number of shards")]
    InvalidTotal,
    /// The index is no number, or not below the total.
    #[error("TEST_SHARD_INDEX is not a number below TEST_TOTAL_SHARDS")]
    InvalidIndex,
}

/// Reads the pair of variables by which Bazel names a shard: `TEST_TOTAL_SHARDS` and `TEST_SHARD_INDEX`, which counts
/// from 0. Without both there is no shard: `Ok(None)`.
///
/// A number is decimal digits alone: no sign, no space, and not too great for a `usize`. A fault of the total comes before
/// one of the index.
pub fn shard_from_variables(
    total: Option<&str>,
    index: Option<&str>,
) -> Result<Option<Shard>, ShardFault>
    ensures { GivesShard (option_copied total.entry) (option_copied index.entry) result }
{
    match (total, index) {
        (None, None) => Ok(None),
        (None, Some(_)) => Err(ShardFault::NoTotal),
        (Some(_), None) => Err(ShardFault::NoIndex),
        (Some(total), Some(index)) => Ok(Some(named(total, index)?)),
    }
}

// The shard of this index out of this total, both as texts.
fn named(total: &str, index: &str) -> Result<Shard, ShardFault>
    ensures { IsNamedBy total.now index.now result }
{
    let count = number(total).ok_or(ShardFault::InvalidTotal)?;
    if count == 0 {
        return Err(ShardFault::InvalidTotal);
    }
    let index = number(index).ok_or(ShardFault::InvalidIndex)?;
    Shard::new(index, count).ok_or(ShardFault::InvalidIndex)
}

// The number that decimal digits alone write. `parse` also takes a sign.
fn number(text: &str) -> Option<usize>
    ensures { SomeIff result (IsNumeral 10 text.now × (digits_value 10 text.now < 2 ^ 64))
        (digits_value 10 text.now) }
{
    if text.starts_with('+') {
        return None;
    }
    text.parse().ok()
}
