//! The kinds of outcomes. Of most outcomes the kind says all.
ghost use Rattle.std.specs.Prelude.{◌≡◌, ◌++◌, ◌<◌, ◌≤◌};
ghost use Rattle.std.specs.VecDeque.{deque_capacity, deque_items, deque_len};
ghost use Rattle.mimic_pool.specs.OutcomeKinds.{kept_after, kept_of, kind_of, outcome_by, weight_of};

use mimic_trial::Outcome;
use std::collections::VecDeque;

// What is kept for a row: of most outcomes the kind alone.
#[derive(Clone, Copy)]
pub(crate) enum OutcomeKind {
    // The outcome is `Passed`.
    Passed,
    // The outcome is `Ignored`.
    Ignored,
    // The outcome is among the kept ones.
    Kept,
}

// The kind of the outcome, which is kept if its kind doesn't say all of it.
pub(crate) fn keep(outcome: Outcome, kept: &mut VecDeque<Outcome>) -> OutcomeKind
    requires { deque_len kept.old < deque_capacity kept.old }
    ensures kind { result ≡ kind_of outcome }
    ensures kept { deque_items kept.new ≡ deque_items kept.old ++ kept_of outcome }
    ensures room { deque_capacity kept.new ≡ deque_capacity kept.old }
{
    match outcome {
        Outcome::Passed => OutcomeKind::Passed,
        Outcome::Ignored => OutcomeKind::Ignored,
        Outcome::Failed(_) | Outcome::Measured(_) => {
            kept.push_back_reserved(outcome);
            OutcomeKind::Kept
        }
    }
}

// The outcome of the kind, which is taken out of the kept ones if it is among them.
pub(crate) fn restored(kind: OutcomeKind, kept: &mut VecDeque<Outcome>) -> Outcome
    requires { weight_of kind ≤ deque_len kept.old }
    ensures outcome { result ≡ outcome_by kind (deque_items kept.old) }
    ensures kept { deque_items kept.new ≡ kept_after kind (deque_items kept.old) }
    ensures room { deque_capacity kept.new ≡ deque_capacity kept.old }
{
    match kind {
        OutcomeKind::Passed => Outcome::Passed,
        OutcomeKind::Ignored => Outcome::Ignored,
        OutcomeKind::Kept => {
            let Some(outcome) = kept.pop_front() else {
                unreachable!()
            };
            outcome
        }
    }
}

// How many kept outcomes belong to the kind.
pub(crate) fn weight(kind: OutcomeKind) -> usize
    ensures { result ≡ weight_of kind }
{
    match kind {
        OutcomeKind::Kept => 1,
        OutcomeKind::Passed | OutcomeKind::Ignored => 0,
    }
}
