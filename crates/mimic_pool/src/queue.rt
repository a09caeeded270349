//! Trials in a queue, and workers that take them when they are free.
ghost use Rattle.std.specs.Prelude.{◌≡◌, ◌++◌, ◌∷◌, ◌+◌, ◌<◌, ◌≤◌, [], All, Bool, IfErr, IfOk, IfSome, List, OnOk, length, map, vec_len, ℕ};
ghost use Rattle.std.specs.Arc.{arc_value};
ghost use Rattle.crossbeam_queue.specs.SegTies.{IsSegPassOf};
ghost use Rattle.mimic_trial.specs.Places.{Placed};
ghost use Rattle.mimic_pool.specs.Balance.{account_of, all_parts};
ghost use Rattle.mimic_pool.specs.Board.{empty_board};
ghost use Rattle.mimic_pool.specs.Inbox.{board_of, is_timed};
ghost use Rattle.mimic_pool.specs.Joined.{AnswersSome, AreJoined};
ghost use Rattle.mimic_pool.specs.Queue.{AreReadyQueueWorkers, HasAnswers, HasTaken, HoldsQueue, IsFilling, IsFresh, IsJob, RunsQueue};
ghost use Rattle.mimic_pool.specs.Rows.{rows_in};
ghost use Rattle.mimic_pool.specs.Share.{AllRunners, items_of};
ghost use Rattle.mimic_pool.specs.declared.share.Assigned.{Assigned};

use crate::inbox::Inbox;
use crate::queue_source::{AnswersTaken, EndedWorker, ReadyQueueWorker, work_from_queue};
use crate::reports::Unheard;
use crate::rows::Rows;
use crate::running::RunningTrials;
use crate::share::{Assigned, Share};
use crate::shared_board::SharedBoard;
use crate::shared_queue::{MOST_IN_BATCH, QueuePass, SharedQueue};
use crate::spawner::Spawner;
use crate::timer::Timer;
use crate::worker::work_from;
use mimic_trial::Task;
use std::alloc::{AllocError, Global};
use std::rt::Clock;
use std::snapshot::Snapshot;
use std::sync::{Arc, Wait};
use std::thread::PromisedHandle;
use std::{mem, thread};

// Each worker takes this many batches or more, if all take equally many.
const BATCHES_A_WORKER: usize = 64;

type QueueHandle<T> = PromisedHandle<EndedWorker<T>, AnswersTaken<T>>;

/// Trials that wait for workers, in the order in which they were put.
#[derive(Drop)]
pub struct Queue<T: Task> {
    pub(crate) queue: Arc<SharedQueue<T>>,
    pub(crate) pass: QueuePass<T>,
    // The batch that is being filled, which is not in the queue yet, and how many trials it gets.
    pub(crate) next: Share<T>,
    pub(crate) size: usize,
    pub(crate) workers: usize,
    pub(crate) alloc: Global,
}

/// Workers that can be started, and room for their handles and for what each returns.
#[derive(Drop)]
pub struct ReadyQueueWorkers<T: Task> {
    pub(crate) workers: Vec<ReadyQueueWorker<T>>,
    pub(crate) handles: Vec<QueueHandle<T>>,
    pub(crate) ended: EndedWorkers<T>,
}

/// Workers that were started, and what the others returned, which could not be started.
pub struct QueueWorkers<T: Task> {
    pub(crate) handles: Vec<QueueHandle<T>>,
    pub(crate) ended: EndedWorkers<T>,
    pub(crate) test_mode: bool,
}

// What workers that have ended returned, and room for what each of the others will.
#[derive(Drop)]
pub(crate) struct EndedWorkers<T: Task> {
    pub(crate) queue: Arc<SharedQueue<T>>,
    pub(crate) pass: QueuePass<T>,
    pub(crate) joined: Vec<Rows>,
    // Room for the rows of trials that no worker took, and the board that has room for their times.
    pub(crate) spare: Rows,
    pub(crate) board: Arc<SharedBoard>,
}

impl<T: Task> Queue<T> {
    // An empty queue, from which `workers` will take `trials`.
    pub(crate) fn new(alloc: Global, trials: usize, workers: usize) -> Result<Queue<T>, AllocError>
        requires some_worker { 1 ≤ workers }
        ensures empty { IfOk result (λ queue. HoldsQueue T.can_run queue []) }
        ensures workers { IfOk result (λ queue. queue.workers ≡ workers) }
    {
        let (queue, pass) = SharedQueue::new(alloc)?;
        let queue = Arc::new(alloc, queue)?;
        let size = (trials / BATCHES_A_WORKER / workers)
            .max(1)
            .min(MOST_IN_BATCH);
        let items = Vec::with_capacity(alloc, size)?;
        Ok(Queue {
            queue,
            pass,
            next: Share { items },
            size,
            workers,
            alloc,
        })
    }

    // Puts a trial behind the others. If an allocation fails, trials are dropped, and the queue is of no more use.
    pub(crate) fn put<R: Wait>(&mut self, rt: &R, item: Assigned<T>) -> Result<(), AllocError>
        requires held { (trials : List (Assigned T)) × HoldsQueue T.can_run self.old trials }
        requires runnable { T.can_run item.runner }
        ensures put { OnOk result ((trials : List (Assigned T)) → HoldsQueue T.can_run self.old trials
            → HoldsQueue T.can_run self.new (trials ++ item ∷ [])) }
        ensures workers { self.new.workers ≡ self.old.workers }
    {
        self.next.items.push(item)?;
        if self.next.len() < self.size {
            return Ok(());
        }
        self.flush(rt)
    }

    // Puts the batch that was being filled into the queue, and begins another one.
    fn flush<R: Wait>(&mut self, rt: &R) -> Result<(), AllocError>
        requires held { (trials : List (Assigned T)) × IsFilling T.can_run self.old trials }
        requires few { length (items_of self.old.next) ≤ self.old.size }
        ensures put { OnOk result ((trials : List (Assigned T)) → IsFilling T.can_run self.old trials
            → HoldsQueue T.can_run self.new trials) }
        ensures empty { OnOk result (items_of self.new.next ≡ []) }
        ensures workers { self.new.workers ≡ self.old.workers }
    {
        if self.next.len() == 0 {
            return Ok(());
        }
        let items = Vec::with_capacity(self.alloc, self.size)?;
        let batch = mem::replace(&mut self.next, Share { items });
        match self.queue.put(rt, &mut self.pass, batch) {
            Ok(()) => Ok(()),
            Err(_) => Err(AllocError),
        }
    }
}

// Makes the workers of the queue ready to run its trials, of which there are `count`, and an inbox to which they will report.
pub(crate) fn prepare_queue_workers<T: Task, R: Wait>(
    rt: &R,
    alloc: Global,
    queue: Queue<T>,
    count: usize,
    timed: bool,
    running: Option<Arc<RunningTrials>>,
) -> Result<(Inbox, ReadyQueueWorkers<T>), AllocError>
    requires held { (trials : List (Assigned T)) × HoldsQueue T.can_run queue trials }
    ensures inbox { IfOk result (λ made. board_of made.0 ≡ empty_board count (vec_len made.1.workers)) }
    ensures timed { IfOk result (λ made. is_timed made.0 ≡ timed) }
    ensures workers { IfOk result (λ made. vec_len made.1.workers ≡ queue.workers) }
    ensures ready { IfOk result (λ made. (trials : List (Assigned T)) → length trials ≤ count
        → HoldsQueue T.can_run queue trials → AreReadyQueueWorkers made.1 trials) }
{
    let mut queue = queue;
    queue.flush(rt)?;
    let inbox = Inbox::with_times(alloc, count, queue.workers, timed, running)?;
    let Queue {
        queue,
        mut pass,
        workers,
        ..
    } = queue;
    let workers = workers_at_queue(alloc, &queue, &mut pass, workers, count, &inbox)?;
    let handles = Vec::with_capacity(alloc, workers.len())?;
    let joined = Vec::with_capacity(alloc, workers.len() + 1)?;
    let spare = Rows::with_capacity(alloc, count)?;
    let board = inbox.board()?;
    let ended = EndedWorkers {
        queue,
        pass,
        joined,
        spare,
        board,
    };
    let ready = ReadyQueueWorkers {
        workers,
        handles,
        ended,
    };
    Ok((inbox, ready))
}

// A worker for each of those of the inbox, with a pass, and with room for an equal part of `count` rows and for a batch more.
fn workers_at_queue<T: Task>(
    alloc: Global,
    queue: &Arc<SharedQueue<T>>,
    pass: &mut QueuePass<T>,
    workers: usize,
    count: usize,
    inbox: &Inbox,
) -> Result<Vec<ReadyQueueWorker<T>>, AllocError>
    requires ours { IsSegPassOf (arc_value queue.now).queue pass.old }
    requires parts { (account_of pass.old).parts ≡ all_parts }
    requires some_worker { 1 ≤ workers }
    requires inbox { (board_of inbox.now).workers ≡ workers }
    ensures len { IfOk result (λ ready. vec_len ready ≡ workers) }
    ensures ours { OnOk result (IsSegPassOf (arc_value queue.now).queue pass.new) }
    ensures put { OnOk result ((account_of pass.new).put ≡ (account_of pass.old).put) }
    ensures taken { OnOk result ((account_of pass.new).taken ≡ (account_of pass.old).taken) }
    ensures parts { IfOk result (λ ready. (account_of pass.new).parts + vec_len ready ≡ all_parts) }
    ensures some_part { OnOk result (0 < (account_of pass.new).parts) }
    ensures fresh { IfOk result (λ ready. All (IsFresh (arc_value queue.now).queue) ready.items) }
{
    let room = count.div_ceil(workers).saturating_add(MOST_IN_BATCH);
    let budget = (count as u64).saturating_add(MOST_IN_BATCH as u64);
    let mut ready = Vec::with_capacity(alloc, workers)?;
    for number in 0..workers {
        let rows = Rows::with_capacity(alloc, room)?;
        let board = inbox.board()?;
        let shared = Arc::try_clone(queue)?;
        ready.push_reserved(ReadyQueueWorker {
            queue: shared,
            pass: queue.another(pass),
            rows,
            board,
            number,
            budget,
        });
    }
    Ok(ready)
}

// Starts the workers. If one can't be started, no more are started, and the others take all trials. `None` if there are none.
pub(crate) fn start_queue_workers<T: Task + Send + 'static, R: Spawner + 'static>(
    rt: &R,
    alloc: Global,
    ready: ReadyQueueWorkers<T>,
    test_mode: bool,
) -> Option<QueueWorkers<T>>
    requires ready { (trials : List (Assigned T)) × AreReadyQueueWorkers ready trials }
    ensures started { IfSome result (λ workers. (trials : List (Assigned T)) → AreReadyQueueWorkers ready trials
        → RunsQueue T.gives workers test_mode trials) }
    ensures no_more { IfSome result (λ workers. vec_len workers.handles ≤ vec_len ready.workers) }
{
    let ReadyQueueWorkers {
        workers,
        mut handles,
        mut ended,
    } = ready;
    for worker in workers {
        match start_queue_worker(rt, alloc, &ended.queue, worker, test_mode) {
            Ok(handle) => handles.push_reserved(handle),
            Err(worker) => ended.absorb(worker),
        }
    }
    if handles.is_empty() {
        return None;
    }
    Some(QueueWorkers {
        handles,
        ended,
        test_mode,
    })
}

// Starts a worker. If no thread can be made for it, or none could be made for an earlier one, it takes no trial, and ends here.
fn start_queue_worker<T: Task + Send + 'static, R: Spawner + 'static>(
    rt: &R,
    alloc: Global,
    queue: &SharedQueue<T>,
    worker: ReadyQueueWorker<T>,
    test_mode: bool,
) -> Result<QueueHandle<T>, EndedWorker<T>>
    requires fresh { IsFresh queue.now.queue worker }
    ensures started { IfOk result (IsJob queue.now.queue test_mode) }
    ensures ended { IfErr result (HasTaken T.gives test_mode queue.now.queue) }
{
    let (worker_rt, number) = (*rt, worker.number);
    if !queue.is_open_to(number) {
        return Err(work_from_queue(worker_rt, alloc, worker, test_mode));
    }
    let promise = AnswersTaken {
        queue: Snapshot::of(queue),
        test_mode,
    };
    let started = thread::spawn_with(
        rt,
        promise,
        move || -> EndedWorker<T>
            requires fresh { IsFresh (arc_value worker.queue).queue worker }
            ensures { HasTaken T.gives test_mode (arc_value worker.queue).queue result }
        { work_from_queue(worker_rt, alloc, worker, test_mode) },
    );
    match started {
        Ok(handle) => Ok(handle),
        Err(refused) => {
            queue.close_from(number);
            Err((refused.value)())
        }
    }
}

// Joins the workers, and returns the rows of each, and last those of trials that no worker took. Unless `whole` is set, workers
// end what they have taken and take no more, and the trials that are left are dropped.
pub(crate) fn join_queue_workers<T: Task + Send + 'static, R: Spawner>(
    rt: &R,
    workers: QueueWorkers<T>,
    whole: bool,
) -> Vec<Rows>
    requires running { (mode : Bool) × (trials : List (Assigned T)) × RunsQueue T.gives workers mode trials }
    ensures joined { (mode : Bool) (trials : List (Assigned T)) → RunsQueue T.gives workers mode trials
        → AreJoined T.gives mode trials whole (map rows_in result.items) }
{
    let QueueWorkers {
        handles,
        mut ended,
        test_mode,
    } = workers;
    if !whole {
        ended.queue.close_from(0);
    }
    for handle in handles {
        ended.absorb(handle.join(rt));
    }
    ended.take_left(rt, test_mode, whole)
}

impl<T: Task> EndedWorkers<T> {
    // Takes in what a worker returned.
    fn absorb(&mut self, worker: EndedWorker<T>)
        requires answered { (mode : Bool) × (out : ℕ) × (trials : List (Assigned T))
            × HasAnswers T.gives mode self.old (out + 1) trials × HasTaken T.gives mode (arc_value self.old.queue).queue worker }
        ensures queue { (arc_value self.new.queue).queue ≡ (arc_value self.old.queue).queue }
        ensures answered { (mode : Bool) (out : ℕ) (trials : List (Assigned T)) → HasAnswers T.gives mode self.old (out + 1) trials
            → HasTaken T.gives mode (arc_value self.old.queue).queue worker → HasAnswers T.gives mode self.new out trials }
    {
        let EndedWorker { rows, pass } = worker;
        self.queue.absorb(&mut self.pass, pass);
        self.joined.push_reserved(rows);
    }

    // Takes all trials that are left, by the pass that has all parts, and runs them, or drops them if not all are to be run.
    // Returns the rows of each worker, and last those of the trials that it ran.
    fn take_left<R: Wait + Clock + Copy>(self, rt: &R, test_mode: bool, whole: bool) -> Vec<Rows>
        requires answered { (trials : List (Assigned T)) × HasAnswers T.gives test_mode self 0 trials }
        ensures joined { (trials : List (Assigned T)) → HasAnswers T.gives test_mode self 0 trials
            → AreJoined T.gives test_mode trials whole (map rows_in result.items) }
    {
        let EndedWorkers {
            queue,
            mut pass,
            mut joined,
            spare,
            board,
        } = self;
        // All workers have ended, so each cell is free.
        let timer = Timer {
            rt,
            board: &board,
            cell: 0,
        };
        let mut rows = spare;
        for _ in rt.forever() {
            let Some(batch) = queue.take(rt, &mut pass) else {
                joined.push_reserved(rows);
                return joined;
            };
            rows = end_batch(timer, batch, test_mode, whole, rows);
        }
        unreachable!()
    }
}

// Runs the batch, or drops it if not all trials are to be run.
fn end_batch<T: Task, R: Clock + Copy>(
    timer: Timer<'_, R>,
    batch: Share<T>,
    test_mode: bool,
    whole: bool,
    rows: Rows,
) -> Rows
    requires runnable { AllRunners T.can_run batch }
    requires fits { length (items_of batch) ≤ rows.room }
    ensures room { rows.room ≤ result.room + length (items_of batch) }
    ensures answers { (taken : List (Assigned T)) (before : List Placed)
        → AnswersSome T.gives test_mode whole taken (before ++ rows.items)
        → AnswersSome T.gives test_mode whole (taken ++ items_of batch) (before ++ result.items) }
{
    if !whole {
        return rows;
    }
    let mut reports = Unheard::new(timer);
    let (_, rows) = work_from(batch.into_remaining(), test_mode, &mut reports, rows);
    rows
}
