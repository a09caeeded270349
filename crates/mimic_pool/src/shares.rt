//! Trials that are dealt out to workers beforehand.
ghost use Rattle.std.specs.Prelude.{◌≡◌, ◌≤◌, [], Bool, IfOk, IfSome, List, length, map, true, vec_len};
ghost use Rattle.mimic_pool.specs.Answers.{Answers};
ghost use Rattle.mimic_pool.specs.Board.{empty_board};
ghost use Rattle.mimic_pool.specs.Inbox.{board_of, is_timed};
ghost use Rattle.mimic_pool.specs.Rows.{rows_in};
ghost use Rattle.mimic_pool.specs.Share.{AllRunners, assigned_from, items_of};
ghost use Rattle.mimic_pool.specs.Joined.{AreJoined};
ghost use Rattle.mimic_pool.specs.Shares.{AreDealt, AreOfShares, RunsShares, shares_of};
ghost use Rattle.mimic_pool.specs.declared.share.Assigned.{Assigned};

use crate::board_reports::BoardReports;
use crate::inbox::Inbox;
use crate::rows::Rows;
use crate::running::RunningTrials;
use crate::share::Share;
use crate::share_workers::{
    AnswersShare, Handles, ReadyShareWorker, ReadyShareWorkers, ShareWorkers,
};
use crate::spawner::Spawner;
use crate::worker::work_from;
use mimic_trial::Task;
use std::alloc::{AllocError, Global};
use std::snapshot::Snapshot;
use std::sync::Arc;
use std::thread;
use std::thread::{PromisedHandle, Threads};

// Makes a worker ready for each share, and an inbox to which they will report their rows, of which there are `count`.
pub(crate) fn prepare_share_workers<T: Task>(
    alloc: Global,
    shares: Vec<Share<T>>,
    count: usize,
    timed: bool,
    running: Option<Arc<RunningTrials>>,
) -> Result<(Inbox, ReadyShareWorkers<T>), AllocError>
    ensures inbox { IfOk result (λ made. board_of made.0 ≡ empty_board count (vec_len made.1.workers)) }
    ensures timed { IfOk result (λ made. is_timed made.0 ≡ timed) }
    ensures workers { IfOk result (λ made. vec_len made.1.workers ≡ vec_len shares) }
    ensures ready { IfOk result (λ made. (trials : List (Assigned T)) → AreDealt T.can_run shares.items trials
        → AreDealt T.can_run (shares_of made.1.workers.items) trials) }
{
    let len = shares.len();
    let inbox = Inbox::with_times(alloc, count, len, timed, running)?;
    let workers = workers_for_shares(alloc, shares, &inbox)?;
    let ready = ReadyShareWorkers {
        workers,
        handles: Vec::with_capacity(alloc, len)?,
        joined: Vec::with_capacity(alloc, len)?,
    };
    Ok((inbox, ready))
}

// Starts a worker for each share. `None` if one can't be started; then no more are, and those that were started are joined. The
// others never close.
pub(crate) fn start_share_workers<T: Task + Send + 'static, R: Spawner + 'static>(
    rt: &R,
    alloc: Global,
    ready: ReadyShareWorkers<T>,
    test_mode: bool,
) -> Option<ShareWorkers<T>>
    requires ready { (trials : List (Assigned T)) × AreDealt T.can_run (shares_of ready.workers.items) trials }
    ensures started { IfSome result (λ workers. (trials : List (Assigned T))
        → AreDealt T.can_run (shares_of ready.workers.items) trials → RunsShares workers test_mode trials) }
    ensures each { IfSome result (λ workers. vec_len workers.handles ≡ vec_len ready.workers) }
{
    let ReadyShareWorkers {
        workers,
        mut handles,
        joined,
    } = ready;
    for worker in workers {
        match start_share_worker(rt, alloc, worker, test_mode) {
            Some(handle) => handles.push_reserved(handle),
            None => {
                end_each(rt, handles);
                return None;
            }
        }
    }
    Some(ShareWorkers { handles, joined })
}

// Joins the workers, and drops what they return.
fn end_each<T: Task + Send + 'static, R: Threads>(rt: &R, handles: Handles<T>) {
    for handle in handles {
        handle.join(rt);
    }
}

// Joins the workers one after another, which run their shares to the end, and returns the rows of each. It takes no memory.
pub(crate) fn join_share_workers<T: Task + Send + 'static, R: Threads>(
    rt: &R,
    workers: ShareWorkers<T>,
) -> Vec<Rows>
    requires running { (mode : Bool) × (trials : List (Assigned T)) × RunsShares workers mode trials }
    ensures joined { (mode : Bool) (trials : List (Assigned T)) → RunsShares workers mode trials
        → AreJoined T.gives mode trials true (map rows_in result.items) }
    ensures workers { vec_len result ≡ vec_len workers.handles }
    ensures shares { (mode : Bool) (runners : List T) (flags : List Bool) → RunsShares workers mode (assigned_from 0 runners flags)
        → AreOfShares T.gives mode (assigned_from 0 runners flags) (map rows_in result.items) }
{
    let ShareWorkers {
        handles,
        mut joined,
    } = workers;
    for handle in handles {
        joined.push_reserved(handle.join(rt));
    }
    joined
}

// A worker for each share, with room for its rows, and the board of the inbox.
fn workers_for_shares<T: Task>(
    alloc: Global,
    shares: Vec<Share<T>>,
    inbox: &Inbox,
) -> Result<Vec<ReadyShareWorker<T>>, AllocError>
    requires workers { (board_of inbox.now).workers ≡ vec_len shares }
    ensures shares { IfOk result (λ ready. shares_of ready.items ≡ shares.items) }
    ensures len { IfOk result (λ ready. vec_len ready ≡ vec_len shares) }
{
    let mut ready = Vec::with_capacity(alloc, shares.len())?;
    for share in shares {
        let rows = Rows::with_capacity(alloc, share.len())?;
        let board = inbox.board()?;
        ready.push_reserved(ReadyShareWorker { share, rows, board });
    }
    Ok(ready)
}

// Starts one worker. `None` if no thread can be made.
fn start_share_worker<T: Task + Send + 'static, R: Spawner + 'static>(
    rt: &R,
    alloc: Global,
    worker: ReadyShareWorker<T>,
    test_mode: bool,
) -> Option<PromisedHandle<Rows, AnswersShare<T>>>
    requires runnable { AllRunners T.can_run worker.share }
    ensures share { IfSome result (λ handle. handle.promise.share.value ≡ worker.share) }
    ensures mode { IfSome result (λ handle. handle.promise.test_mode ≡ test_mode) }
{
    let ReadyShareWorker { share, rows, board } = worker;
    let promise = AnswersShare {
        share: Snapshot::of(&share),
        test_mode,
    };
    let worker_rt = *rt;
    let started = thread::spawn_with(
        rt,
        promise,
        move || -> Rows
            requires runnable { AllRunners T.can_run share }
            requires empty { rows.items ≡ [] }
            requires fits { length (items_of share) ≤ rows.room }
            ensures { Answers T.gives test_mode (items_of share) result.items }
        {
            let mut reports = BoardReports::new(worker_rt, alloc, board);
            let (_, rows) = work_from(share.into_remaining(), test_mode, &mut reports, rows);
            rows
        },
    );
    started.ok()
}
