ghost use Rattle.std.specs.Prelude.{◌≡◌};
ghost use Rattle.go_game.specs.Standings.{mover_by};

use go_board::{Colour, Packed};
use go_history::Key;

/// Which repetitions are illegal. Passes are legal under both rules.
#[derive(Clone, Copy, Debug, PartialEq, Eq)]
pub enum Superko {
    /// A play is illegal if the colouring after it came before.
    Positional,
    /// A play is illegal if the colouring after it came before with the same colour to move.
    Situational,
}

impl Superko {
    /// The key of a pack and the colour to move, as the rule sees them.
    pub(crate) fn key(self, pack: Packed, mover: Colour) -> Key
        ensures pack { result.pack ≡ pack }
        ensures mover { result.mover ≡ mover_by self mover }
    {
        let mover = match self {
            Superko::Positional => None,
            Superko::Situational => Some(mover),
        };
        Key { pack, mover }
    }
}
