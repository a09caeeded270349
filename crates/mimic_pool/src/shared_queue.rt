//! The queue that all workers share, under the rule that what was put is what was taken and what is left.
ghost use Rattle.std.specs.Prelude.{◌≡◌, ◌++◌, ◌+◌, ◌-◌, ◌<◌, ◌≤◌, [], IfNone, IfOk, IfSome, length};
ghost use Rattle.std.specs.List.Sorted.{IsPermutation};
ghost use Rattle.crossbeam_queue.specs.SegTies.{IsSegPassOf};
ghost use Rattle.mimic_pool.specs.Balance.{IsItem, account, account_of, all_parts};
ghost use Rattle.mimic_pool.specs.Share.{items_of};

use crate::share::{Assigned, Share};
use crossbeam_queue::protocol::{Join, Lesson, Outcome as Step, Protocol, Split};
use crossbeam_queue::{RuledSegQueue, SegPass};
use mimic_trial::Task;
use std::alloc::{AllocError, Global};
use std::collections::LinkedList;
use std::marker::PhantomData;
use std::sync::Wait;
use std::sync::atomic::{AtomicUsize, Ordering};

// How many trials a batch has at most. A worker ends what it has taken before it sees that a run is to end, and small batches keep
// all workers busy to the end.
pub(crate) const MOST_IN_BATCH: usize = 32;

// What the owner of a pass has put and taken, and its parts of the right to know the whole. No value of it is made.
pub(crate) struct Account<T> {
    pub(crate) parts: u64,
    pub(crate) put: LinkedList<Assigned<T>>,
    pub(crate) taken: LinkedList<Assigned<T>>,
}

// The rule.
pub(crate) struct Balanced<T> {
    of: PhantomData<T>,
}

impl<T: Task> Protocol<Share<T>, Account<T>> for Balanced<T> {
    ghost use Rattle.std.specs.Prelude.{[]};
    ghost use Rattle.mimic_pool.specs.Balance.{IsBalanced, account, all_parts};

    ghost holds = { IsBalanced T.can_run };

    ghost first = { account all_parts [] [] };
}

// One part goes to a new pass, whose owner has put and taken nothing; or the account of another pass is added to this one.
struct Parts;

impl<T> Split<Account<T>> for Parts {
    ghost use Rattle.std.specs.Prelude.{◌-◌, []};
    ghost use Rattle.mimic_pool.specs.Balance.{account};

    ghost left = { λ v. account (v.parts - 1) v.put v.taken };

    ghost right = { λ _. account 1 [] [] };
}

impl<T> Join<Account<T>> for Parts {
    ghost use Rattle.std.specs.Prelude.{◌+◌, ◌++◌, []};
    ghost use Rattle.mimic_pool.specs.Balance.{account};

    ghost both = { λ v w. account (v.parts + w.parts) (v.put ++ w.put) (v.taken ++ w.taken) };

    ghost spent = { account 0 [] [] };
}

// A batch was put.
struct Puts;

impl<T> Step<Share<T>, Account<T>> for Puts {
    ghost use Rattle.std.specs.Prelude.{◌≡◌, ◌++◌};
    ghost use Rattle.mimic_pool.specs.Balance.{account};
    ghost use Rattle.mimic_pool.specs.Share.{items_of};

    ghost then = { λ v share w. w ≡ account v.parts (v.put ++ items_of share) v.taken };
}

// A batch was taken.
struct Takes<T> {
    of: PhantomData<T>,
}

impl<T: Task> Step<Share<T>, Account<T>> for Takes<T> {
    ghost use Rattle.mimic_pool.specs.Balance.{Took};

    ghost then = { Took T.can_run };
}

impl<T: Task> Lesson<Share<T>, Account<T>> for Takes<T> {
    ghost use Rattle.mimic_pool.specs.Balance.{Balances};

    ghost fact = { Balances };
}

// Batches of consecutive trials. Each worker takes the next batch when it is free.
pub(crate) struct SharedQueue<T: Task> {
    pub(crate) queue: RuledSegQueue<Share<T>, Account<T>, Balanced<T>>,
    // The workers with a number below it may take.
    limit: AtomicUsize,
}

// What one thread has put and taken. It has no bytes.
pub(crate) type QueuePass<T> = SegPass<Share<T>, Account<T>>;

impl<T: Task> Drop for SharedQueue<T> {
    fn drop(self) {
        let SharedQueue { queue, limit: _ } = self;
        queue.destroy();
    }
}

impl<T: Task> SharedQueue<T> {
    // Nothing was put yet, and each worker may take.
    pub(crate) fn new(alloc: Global) -> Result<(SharedQueue<T>, QueuePass<T>), AllocError>
        ensures ours { IfOk result (λ made. IsSegPassOf made.0.queue made.1) }
        ensures account { IfOk result (λ made. account_of made.1 ≡ account all_parts [] []) }
    {
        let (queue, pass) = RuledSegQueue::with_rule(alloc)?;
        let limit = AtomicUsize::new(usize::MAX);
        Ok((SharedQueue { queue, limit }, pass))
    }

    // Puts a batch behind the others. If there is no memory, it is handed back.
    pub(crate) fn put<R: Wait>(
        &self,
        rt: &R,
        pass: &mut QueuePass<T>,
        share: Share<T>,
    ) -> Result<(), Share<T>>
        requires ours { IsSegPassOf self.now.queue pass.old }
        requires parts { 0 < (account_of pass.old).parts }
        requires item { IsItem T.can_run share }
        ensures ours { IsSegPassOf self.now.queue pass.new }
        ensures put { IfOk result (λ _. account_of pass.new
            ≡ account (account_of pass.old).parts ((account_of pass.old).put ++ items_of share) (account_of pass.old).taken) }
    {
        self.queue.push_as::<Puts, R>(rt, pass, share)
    }

    // Takes the next batch. If there is none, and the pass has all parts, the trials that were put are those that were taken.
    pub(crate) fn take<R: Wait>(&self, rt: &R, pass: &mut QueuePass<T>) -> Option<Share<T>>
        requires ours { IsSegPassOf self.now.queue pass.old }
        requires parts { 0 < (account_of pass.old).parts }
        ensures ours { IsSegPassOf self.now.queue pass.new }
        ensures none { IfNone result (account_of pass.new ≡ account_of pass.old) }
        ensures whole { IfNone result ((account_of pass.old).parts ≡ all_parts
            → IsPermutation (account_of pass.old).put (account_of pass.old).taken) }
        ensures taken { IfSome result (λ share. account_of pass.new
            ≡ account (account_of pass.old).parts (account_of pass.old).put ((account_of pass.old).taken ++ items_of share)) }
        ensures item { IfSome result (IsItem T.can_run) }
        ensures below { IfSome result (λ _. (account_of pass.old).parts ≡ all_parts
            → length (account_of pass.new).taken ≤ length (account_of pass.new).put) }
    {
        self.queue.pop_as::<Takes<T>, R>(rt, pass)
    }

    // A pass of one part, whose owner has put and taken nothing.
    pub(crate) fn another(&self, pass: &mut QueuePass<T>) -> QueuePass<T>
        requires ours { IsSegPassOf self.now.queue pass.old }
        requires parts { 1 < (account_of pass.old).parts }
        ensures ours { IsSegPassOf self.now.queue pass.new }
        ensures other { IsSegPassOf self.now.queue result }
        ensures left { account_of pass.new
            ≡ account ((account_of pass.old).parts - 1) (account_of pass.old).put (account_of pass.old).taken }
        ensures new { account_of result ≡ account 1 [] [] }
    {
        self.queue.another::<Parts>(pass)
    }

    // Takes in what another has put and taken, and its parts.
    pub(crate) fn absorb(&self, pass: &mut QueuePass<T>, other: QueuePass<T>)
        requires ours { IsSegPassOf self.now.queue pass.old }
        requires other { IsSegPassOf self.now.queue other }
        requires parts { 0 < (account_of pass.old).parts }
        ensures ours { IsSegPassOf self.now.queue pass.new }
        ensures both { account_of pass.new ≡ account ((account_of pass.old).parts + (account_of other).parts)
            ((account_of pass.old).put ++ (account_of other).put) ((account_of pass.old).taken ++ (account_of other).taken) }
    {
        self.queue.absorb::<Parts>(pass, other)
    }

    // Whether the worker of this number may take.
    pub(crate) fn is_open_to(&self, number: usize) -> bool {
        number < self.limit.load(Ordering::SeqCst)
    }

    // From now on only the workers with a number below this one may take.
    pub(crate) fn close_from(&self, number: usize) {
        self.limit.store(number, Ordering::SeqCst);
    }
}
