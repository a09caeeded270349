//! The board by itself.
use super::Plain;
use mimic_pool::Board;
use std::alloc::{AllocError, Global};
use std::test::Fail;

// A call of the board, and what it returns.
#[derive(Clone, Copy)]
enum Step {
    // Whether the row is accepted. Else its outcome is handed back.
    Report(usize, Plain, bool),
    Take(Option<(usize, Plain)>),
    HasWaiting(bool),
    // Whether all workers have closed then.
    CloseOne(bool),
}

const STEPS: [Step; 13] = [
    Step::Report(2, Plain::Passed, true),
    Step::Report(2, Plain::Failed(None), false),
    Step::Report(3, Plain::Passed, false),
    Step::Report(0, Plain::Ignored, true),
    Step::HasWaiting(true),
    Step::Take(Some((2, Plain::Passed))),
    Step::Take(Some((0, Plain::Ignored))),
    Step::Take(None),
    Step::HasWaiting(false),
    Step::Report(2, Plain::Passed, false),
    Step::CloseOne(false),
    Step::CloseOne(true),
    Step::CloseOne(true),
];

// Whether the board accepts the row, and else hands its outcome back.
fn reports(
    alloc: Global,
    board: &mut Board,
    place: usize,
    row: Plain,
) -> Result<Option<bool>, AllocError> {
    Ok(match board.report(place, row.outcome(alloc)?) {
        Ok(()) => Some(true),
        Err(back) => row.is(&back).then_some(false),
    })
}

// Whether the board gives this row, or none.
fn takes(board: &mut Board, row: Option<(usize, Plain)>) -> bool {
    match (board.take(), row) {
        (Some((place, outcome)), Some((at, plain))) => place == at && plain.is(&outcome),
        (None, None) => true,
        _ => false,
    }
}

// Whether the call returns what the step says.
fn is_as_said(alloc: Global, board: &mut Board, step: Step) -> Result<bool, AllocError> {
    Ok(match step {
        Step::Report(place, row, accepted) => {
            reports(alloc, board, place, row)? == Some(accepted)
        }
        Step::Take(row) => takes(board, row),
        Step::HasWaiting(waiting) => board.has_waiting() == waiting,
        Step::CloseOne(all) => {
            board.close_one();
            board.all_closed() == all
        }
    })
}

#[test]
fn hands_on_what_was_reported(rt: HostRuntime) -> Result<(), Fail> {
    let mut board = Board::new(rt.alloc(), 3, 2)?;
    for step in &STEPS {
        assert!(rt; is_as_said(rt.alloc(), &mut board, *step)?);
    }
    assert!(rt; board.order() == [2, 0].as_slice() && board.taken() == 2);
    Ok(())
}
