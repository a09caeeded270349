//! Trials in shares or in a queue, workers in threads, what these report and return, and what is made of it. A layer of
//! `libtest_mimic`.
//!
//! ```rust
//! use mimic_pool::{Arrival, Desk};
//! use mimic_trial::Outcome;
//!
//! let mut desk = Desk::new(alloc, 3)?;
//! assert_eq!(rt; desk.arrive(2, Outcome::Passed), Arrival::First);
//! assert_eq!(rt; desk.arrive(2, Outcome::Ignored), Arrival::Again);
//! assert_eq!(rt; desk.arrive(0, Outcome::Passed), Arrival::First);
//! assert_eq!(rt; desk.order(), [2, 0].as_slice());
//! assert_eq!(rt; desk.missing().next(), Some(1));
//! let joined = [Outcome::Passed, Outcome::Ignored, Outcome::Passed];
//! assert_eq!(rt; desk.settle(&joined), Ok(()));
//! ```
#![tactic(auto)]

mod board;
mod board_reports;
mod desk;
mod inbox;
mod memory_reports;
mod outcome_kind;
mod queue;
mod queue_source;
mod remaining;
mod reports;
mod row_buffer;
mod rows;
mod running;
mod share;
mod share_workers;
mod shared_board;
mod shared_queue;
mod shares;
mod source;
mod spawner;
mod timer;
mod waiting_trials;
mod worker;

pub use board::Board;
pub use board_reports::BoardReports;
pub use desk::{Arrival, Desk, Missing};
pub use inbox::Inbox;
pub use memory_reports::MemoryReports;
pub use queue::{Queue, QueueWorkers, ReadyQueueWorkers};
pub use remaining::Remaining;
pub use reports::{Reports, Untold};
pub use rows::{Rows, put_joined};
pub use running::{RunningCell, RunningTrials};
pub use share::{Share, deal, deal_next, empty_shares};
pub use share_workers::{ReadyShareWorkers, ShareWorkers};
pub use spawner::Spawner;
pub use waiting_trials::{
    ReadyWorkers, Schedule, WaitingTrials, Workers, join_workers, start_workers, worker_count,
};
pub use worker::work;
