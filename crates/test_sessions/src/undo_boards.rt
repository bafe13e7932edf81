//! A long game that is taken back move by move: after each `undo` the diagram and the chains are those before
//! the move.
use crate::help::sessions::result_of;
use go_board::Size;
use goref::Session;
use std::alloc::{AllocError, Global};
use std::process::Abort;

/// The diagram, and the chains after an empty line.
fn board(
    rt: &impl Abort,
    alloc: Global,
    session: &mut Session<Global>,
) -> Result<Vec<u8>, AllocError> {
    let mut text = result_of(rt, alloc, session, b"showboard")?;
    let chains = result_of(rt, alloc, session, b"goref-chains")?;
    text.extend_from_slice(b"\n\n")?;
    text.extend_from_slice(chains.as_slice())?;
    Ok(text)
}

/// Thirty moves of each colour; the board before each.
fn boards_before_moves(
    rt: &impl Abort,
    alloc: Global,
    session: &mut Session<Global>,
) -> Result<Vec<Vec<u8>>, AllocError> {
    let mut boards = Vec::new(alloc);
    for _ in 0..30u32 {
        for line in [b"genmove b".as_slice(), b"genmove w".as_slice()] {
            boards.push(board(rt, alloc, session)?)?;
            result_of(rt, alloc, session, line)?;
        }
    }
    Ok(boards)
}

/// Takes a move back, and asserts that the board is the one before it.
fn comes_again(
    rt: &impl Abort,
    alloc: Global,
    session: &mut Session<Global>,
    before: &[u8],
) -> Result<(), AllocError> {
    result_of(rt, alloc, session, b"undo")?;
    let again = board(rt, alloc, session)?;
    assert!(rt; again.as_slice() == before);
    Ok(())
}

/// Takes each move back, and asserts that the board is the one before it.
fn all_come_again(
    rt: &impl Abort,
    alloc: Global,
    session: &mut Session<Global>,
    boards: &[Vec<u8>],
) {
    for before in boards.iter().rev() {
        let ended = comes_again(rt, alloc, session, before.as_slice());
        assert!(rt; ended == Ok(()));
    }
}

#[test]
fn diagrams_and_chains_come_again(rt: HostRuntime) {
    let mut session = Session::new(rt.alloc(), Size::new(5).expect(&rt, "a size"));
    let boards = boards_before_moves(&rt, rt.alloc(), &mut session).expect(&rt, "memory");
    assert_eq!(rt; boards.len(), 60);
    all_come_again(&rt, rt.alloc(), &mut session, boards.as_slice());
}
