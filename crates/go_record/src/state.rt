//! The types of a walk. They can't be in `walk.rt`: a struct with a ghost field gets all `ghost use` lines of
//! its file, and those of `walk.rt` name definitions that need these types.
ghost use Rattle.go_board.specs.Komi.{IsKomi};

use go_board::{Colour, Grid};

/// Which of the later events a walk visits.
#[derive(Clone, Copy)]
pub(crate) enum Remaining {
    All,
    /// This number of moves more are played. With 0 the walk still visits set-up. It is over when it meets the
    /// next move.
    Moves(u32),
    Nothing,
}

/// A walk along a main line. It has the stones set up and the colour to move, until it plays a move. From
/// then on it plays on the game.
#[derive(Drop)]
pub(crate) struct Walk {
    pub(crate) komi: i64,
    pub(crate) grid: Grid,
    /// The colour that the last PL named, until a move was played.
    pub(crate) given_mover: Option<Colour>,
    /// Whether the walk played a move, so that the game has begun.
    pub(crate) has_played: bool,
    pub(crate) remaining: Remaining,
    pub ghost in_range: { IsKomi komi },
}
