ghost use Rattle.std.specs.Prelude.{◌≡◌};

use go_board::Point;
use std::alloc::AllocError;
use thiserror::Error;

/// Why a move can't be played.
#[derive(Clone, Copy, Debug, PartialEq, Eq, Error)]
pub enum PlayError {
    /// The point holds a stone.
    #[error("the point is on a stone")]
    Occupied,
    /// The point is past the board's edge.
    #[error("the point is off the board")]
    OffBoard,
    /// The play repeats a position or a situation. The number says after how many moves that first came.
    #[error("the play repeats the position after {0} moves")]
    Repeats(usize),
    /// There was no memory for the move.
    #[error("out of memory")]
    Memory,
}

/// Why a grid can't be the start of a game.
#[derive(Clone, Copy, Debug, PartialEq, Eq, Error)]
pub enum SetupError {
    /// The first point in point order whose chain has no liberty.
    #[error("a chain has no liberty")]
    NoLiberty(Point),
    /// There was no memory for the game.
    #[error("out of memory")]
    Memory,
}

impl From<AllocError> for SetupError {
    ghost use Rattle.go_game.specs.declared.error.SetupError.TheVariants.{Memory};

    ghost from_gives = { λ _ error. error ≡ Memory };

    fn from(_: AllocError) -> SetupError {
        SetupError::Memory
    }
}
