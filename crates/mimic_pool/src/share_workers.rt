//! Workers of shares before they are started, what their threads promise, and those that were started.
ghost use Rattle.std.specs.Prelude.{◌≡◌, ◌≤◌, [], length, vec_capacity, vec_len};
ghost use Rattle.mimic_pool.specs.Share.{items_of};

use crate::rows::Rows;
use crate::share::Share;
use crate::shared_board::SharedBoard;
use mimic_trial::Task;
use std::snapshot::Snapshot;
use std::sync::Arc;
use std::thread::{Promise, PromisedHandle};

// A worker that can be started: its share, room for its rows, and the board that it reports to.
#[derive(Drop)]
pub(crate) struct ReadyShareWorker<T> {
    pub(crate) share: Share<T>,
    pub(crate) rows: Rows,
    pub(crate) board: Arc<SharedBoard>,
    pub(crate) ghost empty: { rows.items ≡ [] },
    pub(crate) ghost fits: { length (items_of share) ≤ rows.room },
}

// What a worker's thread promises: it returns an outcome for each trial of its share.
#[derive(Drop)]
pub(crate) struct AnswersShare<T> {
    pub(crate) share: Snapshot<Share<T>>,
    pub(crate) test_mode: bool,
}

impl<T: Task> Promise<Rows> for AnswersShare<T> {
    ghost use Rattle.mimic_pool.specs.Answers.{Answers};
    ghost use Rattle.mimic_pool.specs.Share.{items_of};

    ghost kept_by = { λ promise rows. Answers T.gives promise.test_mode (items_of promise.share.value) rows.items };
}

// The handles of workers that were started, in the order of their shares.
pub(crate) type Handles<T> = Vec<PromisedHandle<Rows, AnswersShare<T>>>;

/// Workers that can be started, each with a share, and room for their handles and for what each returns.
#[derive(Drop)]
pub struct ReadyShareWorkers<T: Task> {
    pub(crate) workers: Vec<ReadyShareWorker<T>>,
    pub(crate) handles: Handles<T>,
    pub(crate) joined: Vec<Rows>,
    pub(crate) ghost no_handles: { vec_len handles ≡ 0 },
    pub(crate) ghost none_joined: { vec_len joined ≡ 0 },
    pub(crate) ghost fits: { vec_len workers ≤ vec_capacity handles },
    pub(crate) ghost fits_joined: { vec_len workers ≤ vec_capacity joined },
}

/// Workers that were started, each on its share, and room for what each returns.
pub struct ShareWorkers<T: Task> {
    pub(crate) handles: Handles<T>,
    pub(crate) joined: Vec<Rows>,
    pub(crate) ghost none_joined: { vec_len joined ≡ 0 },
    pub(crate) ghost fits: { vec_len handles ≤ vec_capacity joined },
}
