//! How trials get to workers.
ghost use Rattle.std.specs.Prelude.{◌≡◌, ◌++◌, ◌∷◌, ◌≤◌, ◌||◌, [], Bool, IfOk, IfSome, List, OnOk, length, map, min, true, vec_len};
ghost use Rattle.mimic_trial.specs.declared.outcome.Outcome.{Outcome as AnOutcome};
ghost use Rattle.mimic_pool.specs.Board.{empty_board};
ghost use Rattle.mimic_pool.specs.Inbox.{board_of, is_timed};
ghost use Rattle.mimic_pool.specs.Joined.{AreJoined, AreOutcomes, HavePlaces, put_each};
ghost use Rattle.mimic_pool.specs.Rows.{rows_in};
ghost use Rattle.mimic_pool.specs.Share.{assigned_from};
ghost use Rattle.mimic_pool.specs.Shares.{AreOfShares};
ghost use Rattle.mimic_pool.specs.WaitingTrials.{AreReady, awaited, Holds, OnShares, Runs, runs_all, started_in, workers_of};
ghost use Rattle.mimic_pool.specs.declared.share.Assigned.{Assigned};

use crate::inbox::Inbox;
use crate::queue::{
    Queue, QueueWorkers, ReadyQueueWorkers, join_queue_workers, prepare_queue_workers,
    start_queue_workers,
};
use crate::rows::Rows;
use crate::running::RunningTrials;
use crate::share::{Assigned, Share, deal_next, empty_shares};
use crate::share_workers::{ReadyShareWorkers, ShareWorkers};
use crate::shares::{join_share_workers, prepare_share_workers, start_share_workers};
use crate::spawner::Spawner;
use mimic_trial::Task;
use std::alloc::{AllocError, Global};
use std::sync::{Arc, Wait};

/// Which worker runs which trial.
#[derive(Clone, Copy, Debug, PartialEq, Eq)]
pub enum Schedule {
    /// Trials are dealt out beforehand: the one at a place goes to the worker whose number is the place's remainder by the number
    /// of workers.
    Shares,
    /// Trials wait in one queue, and a worker takes the next ones when it is free.
    Queue,
}

/// How many workers run `trials` on `threads`: one for each thread, but never more than there are trials.
pub fn worker_count(threads: usize, trials: usize) -> usize
    ensures { result ≡ min threads trials }
{
    threads.min(trials)
}

/// Trials that wait for workers.
#[derive(Drop)]
pub enum WaitingTrials<T: Task> {
    /// A share for each worker.
    Shares(Vec<Share<T>>),
    /// One queue for all workers.
    Queue(Queue<T>),
}

/// Workers that can be started. All memory is taken by then, except for copies of messages, for the threads, and for rows of a
/// worker that takes more trials from a queue than its equal part.
#[derive(Drop)]
pub enum ReadyWorkers<T: Task> {
    /// A worker for each share.
    Shares(ReadyShareWorkers<T>),
    /// Workers that take from one queue.
    Queue(ReadyQueueWorkers<T>),
}

/// Workers that were started.
pub enum Workers<T: Task> {
    /// Each runs its share.
    Shares(ShareWorkers<T>),
    /// They take from one queue.
    Queue(QueueWorkers<T>),
}

impl<T: Task> WaitingTrials<T> {
    /// For `workers`, which are to run `trials`, before any is put.
    pub fn new(
        alloc: Global,
        schedule: Schedule,
        trials: usize,
        workers: usize,
    ) -> Result<WaitingTrials<T>, AllocError>
        requires some_worker { 1 ≤ workers }
        ensures empty { IfOk result (λ waiting. Holds T.can_run waiting []) }
        ensures workers { IfOk result (λ waiting. awaited waiting ≡ workers) }
    {
        match schedule {
            Schedule::Shares => Ok(WaitingTrials::Shares(empty_shares(alloc, trials, workers)?)),
            Schedule::Queue => Ok(WaitingTrials::Queue(Queue::new(alloc, trials, workers)?)),
        }
    }

    /// Puts one trial more: its place, its runner, and whether that is not to be called. If an allocation fails, trials may have
    /// been dropped, and `self` is of no more use.
    pub fn put<R: Wait>(
        &mut self,
        rt: &R,
        place: usize,
        runner: T,
        ignored: bool,
    ) -> Result<(), AllocError>
        requires held { (trials : List (Assigned T)) × Holds T.can_run self.old trials }
        requires runnable { T.can_run runner }
        ensures put { OnOk result ((trials : List (Assigned T)) → Holds T.can_run self.old trials
            → Holds T.can_run self.new (trials ++ record { place = place; runner = runner; ignored = ignored } ∷ [])) }
        ensures workers { awaited self.new ≡ awaited self.old }
    {
        match self {
            WaitingTrials::Shares(shares) => deal_next(shares, place, runner, ignored),
            WaitingTrials::Queue(queue) => {
                let item = Assigned {
                    place,
                    runner,
                    ignored,
                };
                queue.put(rt, item)
            }
        }
    }

    /// Makes the workers ready to run the trials, of which there are `count`, and the inbox to which they will
    /// report. If `timed`, they note there how long each trial runs. In `running` they mark which ones run, if anybody looks.
    pub fn prepare<R: Wait>(
        self,
        rt: &R,
        alloc: Global,
        count: usize,
        timed: bool,
        running: Option<Arc<RunningTrials>>,
    ) -> Result<(Inbox, ReadyWorkers<T>), AllocError>
        requires held { (trials : List (Assigned T)) × Holds T.can_run self trials }
        ensures inbox { IfOk result (λ made. board_of made.0 ≡ empty_board count (workers_of made.1)) }
        ensures timed { IfOk result (λ made. is_timed made.0 ≡ timed) }
        ensures workers { IfOk result (λ made. workers_of made.1 ≡ awaited self) }
        ensures ready { IfOk result (λ made. (trials : List (Assigned T)) → length trials ≤ count
            → Holds T.can_run self trials → AreReady T.can_run made.1 trials) }
    {
        match self {
            WaitingTrials::Shares(shares) => {
                let (inbox, ready) = prepare_share_workers(alloc, shares, count, timed, running)?;
                Ok((inbox, ReadyWorkers::Shares(ready)))
            }
            WaitingTrials::Queue(queue) => {
                let (inbox, ready) = prepare_queue_workers(
                    rt, alloc, queue, count, timed, running,
                )?;
                Ok((inbox, ReadyWorkers::Queue(ready)))
            }
        }
    }
}

/// Starts the workers. `None` if one that has a share can't be started, or if none that takes from a queue can be; then the
/// workers that were started are joined. After `None` nothing more may be taken from the inbox: it waits for all workers, and
/// some were never started.
pub fn start_workers<T: Task + Send + 'static, R: Spawner + 'static>(
    rt: &R,
    alloc: Global,
    ready: ReadyWorkers<T>,
    test_mode: bool,
) -> Option<Workers<T>>
    requires ready { (trials : List (Assigned T)) × AreReady T.can_run ready trials }
    ensures started { IfSome result (λ workers. (trials : List (Assigned T)) → AreReady T.can_run ready trials
        → Runs T.gives workers test_mode trials) }
    ensures each { IfSome result (λ workers. OnShares workers (started_in workers ≡ workers_of ready)) }
    ensures no_more { IfSome result (λ workers. started_in workers ≤ workers_of ready) }
{
    match ready {
        ReadyWorkers::Shares(ready) => {
            let workers = start_share_workers(rt, alloc, ready, test_mode)?;
            Some(Workers::Shares(workers))
        }
        ReadyWorkers::Queue(ready) => {
            let workers = start_queue_workers(rt, alloc, ready, test_mode)?;
            Some(Workers::Queue(workers))
        }
    }
}

/// Joins the workers, and returns the rows of each: a place and the outcome there, for each trial that it ran, in the order in
/// which it ran them. Unless `whole` is set, workers that take from a queue end what they have taken and take no more, and the
/// trials that are left there are dropped. A worker that has a share runs all of it, in rising order of the places.
pub fn join_workers<T: Task + Send + 'static, R: Spawner>(
    rt: &R,
    workers: Workers<T>,
    whole: bool,
) -> Vec<Rows>
    requires running { (mode : Bool) × (trials : List (Assigned T)) × Runs T.gives workers mode trials }
    ensures joined { (mode : Bool) (trials : List (Assigned T)) → Runs T.gives workers mode trials
        → AreJoined T.gives mode trials (runs_all workers || whole) (map rows_in result.items) }
    ensures workers { OnShares workers (vec_len result ≡ started_in workers) }
    ensures places { (mode : Bool) (runners : List T) (flags : List Bool)
        → Runs T.gives workers mode (assigned_from 0 runners flags)
        → HavePlaces (runs_all workers || whole) (length (assigned_from 0 runners flags)) (map rows_in result.items) }
    ensures shares { (mode : Bool) (runners : List T) (flags : List Bool)
        → Runs T.gives workers mode (assigned_from 0 runners flags)
        → OnShares workers (AreOfShares T.gives mode (assigned_from 0 runners flags) (map rows_in result.items)) }
    ensures outcomes { (mode : Bool) (runners : List T) (flags : List Bool)
        → Runs T.gives workers mode (assigned_from 0 runners flags)
        → (runs_all workers || whole) ≡ true
        → (outcomes : List AnOutcome) → length outcomes ≡ length (assigned_from 0 runners flags)
        → AreOutcomes T.gives mode (assigned_from 0 runners flags) (put_each (map rows_in result.items) outcomes) }
{
    match workers {
        Workers::Shares(workers) => join_share_workers(rt, workers),
        Workers::Queue(workers) => join_queue_workers(rt, workers, whole),
    }
}
