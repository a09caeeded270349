//! Workers that take their trials from a queue.
ghost use Rattle.std.specs.Prelude.{◌≡◌, ◌+◌, ◌<◌, ◌≤◌, [], All, IfSome, length};
ghost use Rattle.std.specs.Arc.{arc_value};
ghost use Rattle.mimic_pool.specs.Queue.{GoesOn, HasTaken, IsFresh, MayTake, most_of};

use crate::board_reports::BoardReports;
use crate::remaining::Remaining;
use crate::row_buffer::RowBuffer;
use crate::rows::Rows;
use crate::share::Assigned;
use crate::shared_board::SharedBoard;
use crate::shared_queue::{MOST_IN_BATCH, QueuePass, SharedQueue};
use crate::source::Source;
use crate::spawner::Spawner;
use crate::worker::work_from;
use mimic_trial::Task;
use std::alloc::Global;
use std::snapshot::Snapshot;
use std::sync::{Arc, Wait};
use std::thread::Promise;

// A worker's end of a queue. It takes the next batch once it has handed out the one before.
#[derive(Drop)]
pub(crate) struct QueueSource<T: Task, R: Wait + Drop> {
    pub(crate) rt: R,
    pub(crate) queue: Arc<SharedQueue<T>>,
    pub(crate) pass: QueuePass<T>,
    pub(crate) left: Remaining<Assigned<T>>,
    // Its number among the workers, from 0.
    pub(crate) number: usize,
    // How many more trials it takes at most.
    pub(crate) budget: u64,
}

impl<T: Task, R: Wait + Drop> QueueSource<T, R> {
    // Takes the next batch, if the worker may, and has room for the rows of the largest one.
    fn take<O: RowBuffer>(&mut self, buffer: &mut O) -> Option<()>
        requires ready { MayTake T.can_run self.old (O.room_in buffer.old) }
        requires none_left { self.old.left ≡ [] }
        ensures rows { O.rows_in buffer.new ≡ O.rows_in buffer.old }
        ensures as_much { O.room_in buffer.old ≤ O.room_in buffer.new }
        ensures goes_on { GoesOn self.old [] self.new }
        ensures ready { IfSome result (λ _. MayTake T.can_run self.new (O.room_in buffer.new)) }
        ensures none { result ≡ None → self.new.left ≡ [] }
        ensures most { most_of self.new ≤ most_of self.old }
    {
        if self.budget < MOST_IN_BATCH as u64 || !self.queue.is_open_to(self.number) {
            return None;
        }
        buffer.reserve(MOST_IN_BATCH).ok()?;
        let share = self.queue.take(&self.rt, &mut self.pass)?;
        self.budget -= share.len() as u64;
        self.left = share.into_remaining();
        Some(())
    }
}

impl<T: Task, R: Wait + Drop> Source<T> for QueueSource<T, R> {
    ghost use Rattle.mimic_pool.specs.Queue.{GoesOn, MayTake, goes_nowhere, goes_on_twice, most_of};

    ghost goes_on = { GoesOn };

    ghost is_ready = { MayTake T.can_run };

    ghost most = { most_of };

    ghost has_ended = { λ source. source.left ≡ [] };

    fn next<O: RowBuffer>(&mut self, buffer: &mut O) -> Option<Assigned<T>> {
        if let Some(item) = self.left.next() {
            return Some(item);
        }
        self.take(buffer)?;
        self.left.next()
    }

    ghost stays = { goes_nowhere };

    ghost joins = { goes_on_twice };
}

// A worker that can be started: its end of the queue, room for its rows, and the board that it reports to.
#[derive(Drop)]
pub(crate) struct ReadyQueueWorker<T: Task> {
    pub(crate) queue: Arc<SharedQueue<T>>,
    pub(crate) pass: QueuePass<T>,
    pub(crate) rows: Rows,
    pub(crate) board: Arc<SharedBoard>,
    pub(crate) number: usize,
    pub(crate) budget: u64,
}

// What a worker returns: its rows, and its pass.
#[derive(Drop)]
pub(crate) struct EndedWorker<T> {
    pub(crate) rows: Rows,
    pub(crate) pass: QueuePass<T>,
}

// What a worker's thread promises: an own outcome of each trial that it took, in their order.
#[derive(Drop)]
pub(crate) struct AnswersTaken<T: Task> {
    pub(crate) queue: Snapshot<SharedQueue<T>>,
    pub(crate) test_mode: bool,
}

impl<T: Task> Promise<EndedWorker<T>> for AnswersTaken<T> {
    ghost use Rattle.mimic_pool.specs.Queue.{HasTaken};

    ghost kept_by = { λ promise ended. HasTaken T.gives promise.test_mode promise.queue.value.queue ended };
}

// Takes and runs trials until there are none left, or it may take none. The worker closes at the board at the end.
pub(crate) fn work_from_queue<T: Task, R: Spawner>(
    rt: R,
    alloc: Global,
    worker: ReadyQueueWorker<T>,
    test_mode: bool,
) -> EndedWorker<T>
    requires fresh { IsFresh (arc_value worker.queue).queue worker }
    ensures { HasTaken T.gives test_mode (arc_value worker.queue).queue result }
{
    let ReadyQueueWorker {
        queue,
        pass,
        rows,
        board,
        number,
        budget,
    } = worker;
    let mut reports = BoardReports::new(rt, alloc, board);
    let source = QueueSource {
        rt,
        queue,
        pass,
        left: Remaining::new(Vec::new(alloc)),
        number,
        budget,
    };
    let (source, rows) = work_from(source, test_mode, &mut reports, rows);
    let QueueSource { pass, .. } = source;
    EndedWorker { rows, pass }
}
