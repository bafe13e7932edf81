ghost use Rattle.std.specs.Prelude.{◌++◌, ◌∷◌, [], ℕ, List};
ghost use Rattle.go_record.specs.MainLine.{Event, move_met};
ghost use Rattle.go_record.specs.inner.Progress.{AreMoves};

use go_board::Colour;

/// The moves that were met in a node. Most nodes have one move. It is kept, so those nodes are read once.
#[derive(Clone, Copy)]
pub(crate) enum MovesMet<'a> {
    NoMove,
    /// A colour's move, with its value.
    OneMove(Colour, &'a [u8]),
    MoreMoves,
}

impl<'a> MovesMet<'a> {
    /// Meets one more move.
    pub(crate) fn meet(&mut self, colour: Colour, value: &'a [u8])
        ensures { (node : ℕ) (before : List Event) → AreMoves node self.old before
            → AreMoves node self.new (before ++ move_met node colour value.now ∷ []) }
    {
        *self = match *self {
            MovesMet::NoMove => MovesMet::OneMove(colour, value),
            MovesMet::OneMove(_, _) | MovesMet::MoreMoves => MovesMet::MoreMoves,
        };
    }
}
