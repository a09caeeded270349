//! What the variables of an environment ask of a program, beside its line.
ghost use Rattle.std.specs.Prelude.{◌≡◌, IfErr, IfOk, IsSome, OnErr, option_map, string_bytes};
ghost use Rattle.mimic_main.specs.Sharding.{HasFilterOf, IsPartFault, IsReadSharding, IsUnreadable, no_sharding, trials_of, unless_empty};
ghost use Rattle.mimic_main.specs.declared.sharding.ShardError.TheVariants.{NoShard, OutOfMemory};

use crate::shard_variables::{ShardFault, shard_from_variables};
use libtest_mimic::{Arguments, Trial};
use mimic_trial::{Shard, shard_of};
use std::alloc::{AllocError, Global};
use std::env::VarError;
use std::fs::{FileTimes, Files, OpenFile, OpenOptions};
use std::rt::{Clock, Env};
use std::time::SystemTime;
use std::{env, io};
use thiserror::Error;

/// What the variables of an environment ask of a program, beside its line. Their names are Bazel's.
#[derive(Debug, Drop)]
pub struct Sharding {
    /// The shard whose trials run, by `TEST_TOTAL_SHARDS` and `TEST_SHARD_INDEX`. Without one all run.
    pub shard: Option<Shard>,
    /// The path of a file that is touched before the first trial of a shard, by `TEST_SHARD_STATUS_FILE`.
    pub status_file: Option<String>,
    /// The filter of a line that has none, by `TESTBRIDGE_TEST_ONLY`.
    pub filter: Option<String>,
}

/// Why a program takes no part of its trials. Its text is what a user is to see.
#[derive(Debug, Drop, Error)]
pub enum ShardError {
    /// An allocation failed.
    #[error("out of memory")]
    OutOfMemory,
    /// The variable of this name isn't UTF-8.
    #[error("{0} is not UTF-8")]
    NotUtf8(&'static str),
    /// The pair of variables names no shard.
    #[error("{0}")]
    NoShard(ShardFault),
    /// The status file can't be made, or its time can't be set.
    #[error("cannot touch the status file {path}: {cause}")]
    StatusFile { path: String, cause: io::Error },
}

impl From<AllocError> for ShardError {
    ghost from_gives = { λ _ error. error ≡ OutOfMemory };

    fn from(_error: AllocError) -> ShardError {
        ShardError::OutOfMemory
    }
}

impl From<ShardFault> for ShardError {
    ghost from_gives = { λ fault error. error ≡ NoShard fault };

    fn from(fault: ShardFault) -> ShardError {
        ShardError::NoShard(fault)
    }
}

impl Sharding {
    /// Asks for nothing: all trials run, and a line has its own filters alone.
    pub fn none() -> Sharding
        ensures { result ≡ no_sharding }
    {
        Sharding {
            shard: None,
            status_file: None,
            filter: None,
        }
    }

    /// Reads the variables of this environment: the pair first, with it the status file, and last the filter, of which an empty
    /// one is none. The first that is invalid is the error.
    pub fn from_env<R: Env + AllocGlobal>(rt: &R) -> Result<Sharding, ShardError>
        ensures { IsReadSharding result }
    {
        let total = text_of(rt, "TEST_TOTAL_SHARDS")?;
        let index = text_of(rt, "TEST_SHARD_INDEX")?;
        let shard = shard_from_variables(total.as_deref(), index.as_deref())?;
        let status_file = match shard {
            Some(_) => text_of(rt, "TEST_SHARD_STATUS_FILE")?,
            None => None,
        };
        let filter = unless_empty(text_of(rt, "TESTBRIDGE_TEST_ONLY")?);
        Ok(Sharding {
            shard,
            status_file,
            filter,
        })
    }

    // The arguments and the trials of a run by these variables, once the status file is touched.
    pub(crate) fn part<F: Files, C: Clock, R: Drop>(
        self,
        files: &F,
        clock: &C,
        alloc: Global,
        args: Arguments,
        tests: Vec<Trial<R>>,
    ) -> Result<(Arguments, Vec<Trial<R>>), ShardError>
        ensures args { IfOk result (λ part. HasFilterOf self.filter args part.0) }
        ensures trials { IfOk result (λ part. part.1.items ≡ trials_of self tests.items) }
        ensures fault { IfErr result (IsPartFault self) }
    {
        let args = with_filter(args, self.filter)?;
        let Some(shard) = self.shard else {
            return Ok((args, tests));
        };
        let tests = shard_of(alloc, shard, tests)?;
        if let Some(path) = self.status_file
            && let Err(cause) = touch(files, clock, path.as_str())
        {
            return Err(ShardError::StatusFile { path, cause });
        }
        Ok((args, tests))
    }
}

// The text of a variable, if it is set.
fn text_of<R: Env + AllocGlobal>(rt: &R, name: &'static str) -> Result<Option<String>, ShardError>
    ensures { IfErr result IsUnreadable }
{
    match env::var(rt, name) {
        Ok(text) => Ok(Some(text)),
        Err(VarError::NotPresent) => Ok(None),
        Err(VarError::NotUnicode) => Err(ShardError::NotUtf8(name)),
        Err(VarError::OutOfMemory) => Err(ShardError::OutOfMemory),
    }
}

// The text, unless it is empty.
fn unless_empty(text: Option<String>) -> Option<String>
    ensures { option_map string_bytes result ≡ unless_empty (option_map string_bytes text) }
{
    match text {
        Some(text) if !text.is_empty() => Some(text),
        _ => None,
    }
}

// The arguments, with this filter if they have none.
fn with_filter(mut args: Arguments, filter: Option<String>) -> Result<Arguments, AllocError>
    ensures taken { IfOk result (HasFilterOf filter args) }
    ensures memory { OnErr result (IsSome filter) }
{
    if let Some(filter) = filter
        && args.filter.is_empty()
    {
        args.filter.push(filter)?;
    }
    Ok(args)
}

// Makes the file, or gives it the present time as that of its last change. Its content stays.
fn touch<F: Files, C: Clock>(files: &F, clock: &C, path: &str) -> io::Result<()> {
    let mut options = OpenOptions::new();
    options.append(true).create(true);
    let file = options.open(files, path)?;
    file.set_times(FileTimes::new().set_modified(SystemTime::now(clock)?))
}
