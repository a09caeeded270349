//! Shares of the trials, one for each worker, and batches of a queue.
ghost use Rattle.std.specs.Prelude.{◌≡◌, ◌≤◌, ◌∷◌, ◌++◌, All, Bool, IfOk, List, OnErr, OnOk, [], length, map, slice_get, vec_len};
ghost use Rattle.std.specs.Int.{div_ceil};
ghost use Rattle.mimic_pool.specs.Share.{AreShares, HasRoom, IsDealt, items_of, places_in};
ghost use Rattle.mimic_pool.specs.declared.share.Assigned.{Assigned};

use crate::remaining::Remaining;
use mimic_trial::Runner;
use std::alloc::{AllocError, Global};

// A trial's place, its runner, and whether it is ignored.
#[derive(Drop)]
pub(crate) struct Assigned<T> {
    pub(crate) place: usize,
    pub(crate) runner: T,
    pub(crate) ignored: bool,
}

/// Runners with their places, in rising order of these: the share of one worker, or one batch of a queue.
#[derive(Drop)]
pub struct Share<T = Runner> {
    pub(crate) items: Vec<Assigned<T>>,
}

impl<T> Share<T> {
    // Its items, to be handed out one by one.
    pub(crate) fn into_remaining(self) -> Remaining<Assigned<T>>
        ensures { result ≡ items_of self }
    {
        Remaining::new(self.items)
    }

    /// The number of its places.
    pub fn len(&self) -> usize
        ensures { result ≡ length (items_of self.now) }
    {
        self.items.len()
    }

    /// Its `i`-th place, counted from 0, and `None` from its length on.
    pub fn place(&self, i: usize) -> Option<usize>
        ensures { result ≡ slice_get (places_in self.now) i }
    {
        match self.items.get(i) {
            Some(item) => Some(item.place),
            None => None,
        }
    }
}

/// Deals the runners at the places 0, 1, .. out to `workers`. The runner at a place goes, with its flag, to the
/// worker whose number is the place's remainder by the number of workers.
///
/// `ignored` has a flag for each place: whether the runner there is not to be called.
pub fn deal<T: Drop>(
    alloc: Global,
    runners: Vec<T>,
    ignored: Vec<bool>,
    workers: usize,
) -> Result<Vec<Share<T>>, AllocError>
    requires same_length { vec_len runners ≡ vec_len ignored }
    requires some_worker { 1 ≤ workers }
    ensures len { IfOk result (λ shares. vec_len shares ≡ workers) }
    ensures dealt { IfOk result
        (λ shares. IsDealt runners.items ignored.items workers shares.items) }
{
    let mut shares = empty_shares(alloc, runners.len(), workers)?;
    let mut place = 0;
    for runner in runners {
        deal_next(&mut shares, place, runner, ignored[place])?;
        place += 1;
    }
    Ok(shares)
}

/// The shares of `workers` before anything is dealt to them. Each has room for its equal part of `runners`.
pub fn empty_shares<T: Drop>(
    alloc: Global,
    runners: usize,
    workers: usize,
) -> Result<Vec<Share<T>>, AllocError>
    requires some_worker { 1 ≤ workers }
    ensures len { IfOk result (λ shares. vec_len shares ≡ workers) }
    ensures empty { IfOk result (λ shares. IsDealt [] [] workers shares.items) }
    ensures room { IfOk result (λ shares. All (HasRoom (div_ceil runners workers)) shares.items) }
{
    let room = runners.div_ceil(workers);
    let mut shares = Vec::with_capacity(alloc, workers)?;
    for _worker in 0..workers {
        let items = Vec::with_capacity(alloc, room)?;
        shares.push_reserved(Share { items });
    }
    Ok(shares)
}

/// Deals one runner more, as [`deal`] does: the one at `place`, after those at all places before it. If an allocation
/// fails, the shares keep what they have, and the runner is dropped.
pub fn deal_next<T: Drop>(
    shares: &mut Vec<Share<T>>,
    place: usize,
    runner: T,
    ignored: bool,
) -> Result<(), AllocError>
    requires some_worker { 1 ≤ vec_len shares.old }
    ensures len { vec_len shares.new ≡ vec_len shares.old }
    ensures dealt { OnOk result ((trials : List (Assigned T)) → AreShares trials (vec_len shares.old) shares.old.items
        → AreShares (trials ++ record { place = place; runner = runner; ignored = ignored } ∷ []) (vec_len shares.old) shares.new.items) }
    ensures refused { OnErr result (map items_of shares.new.items ≡ map items_of shares.old.items) }
{
    let item = Assigned {
        place,
        runner,
        ignored,
    };
    let worker = place % shares.len();
    shares[worker].items.push(item)?;
    Ok(())
}
