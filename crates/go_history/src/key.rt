use go_board::{Colour, Packed};
use std::hash::{Hash, Hasher};

/// What a history tells apart: a colouring, by its pack, and the colour that is to move where a
/// rule asks for it.
#[derive(Clone, Copy, PartialEq, Eq)]
pub struct Key {
    pub pack: Packed,
    pub mover: Option<Colour>,
}

impl Hash for Key {
    ghost use Rattle.std.specs.Cmp.Rules.{hashing};
    ghost use Rattle.std.specs.Prelude.{◌∷◌, []};
    ghost use Rattle.std.proofs.Common.{rules};
    ghost use Rattle.go_board.specs.PackBytes.{bytes_of};

    ghost hash_input = { λ k. bytes_of k.pack ∷ [] };

    ghost respects_eq = { Prim.search (hashing, rules) };

    // Only the pack is hashed: a game seldom has one colouring with both colours to move.
    fn hash<H: Hasher>(&self, state: &mut H) {
        self.pack.hash(state);
    }
}
