//! Counts of the stones that were taken. A move adds to them, and its undo subtracts the same numbers.
ghost use Rattle.std.specs.Prelude.{◌≡◌, ◌<◌, ◌≤◌, ◌+◌, ◌^◌};

use go_board::{Colour, Taken};

/// How many stones of each colour were taken.
#[derive(Clone, Copy, Debug, PartialEq, Eq)]
pub struct Prisoners {
    pub black: u64,
    pub white: u64,
}

impl Prisoners {
    ghost use Rattle.go_board.specs.declared.colour.Colour.TheVariants.{Black, White};
    ghost use Rattle.go_game.specs.Prisoners.{share_of};
    ghost use Rattle.go_game.specs.inner.Counters.{prisoners_in};

    /// Those of one colour.
    pub fn of(self, colour: Colour) -> u64
        ensures { result ≡ prisoners_in self colour }
    {
        match colour {
            Colour::Black => self.black,
            Colour::White => self.white,
        }
    }

    /// Adds what a move of a colour took.
    pub fn add(&mut self, colour: Colour, taken: Taken)
        requires black { self.old.black + share_of colour taken Black < 2 ^ 64 }
        requires white { self.old.white + share_of colour taken White < 2 ^ 64 }
        ensures black { self.new.black ≡ self.old.black + share_of colour taken Black }
        ensures white { self.new.white ≡ self.old.white + share_of colour taken White }
    {
        match colour {
            Colour::Black => {
                self.black += u64::from(taken.own);
                self.white += u64::from(taken.theirs);
            }
            Colour::White => {
                self.white += u64::from(taken.own);
                self.black += u64::from(taken.theirs);
            }
        }
    }

    /// Takes off what a move of a colour took.
    pub fn give_back(&mut self, colour: Colour, taken: Taken)
        requires black { share_of colour taken Black ≤ self.old.black }
        requires white { share_of colour taken White ≤ self.old.white }
        ensures black { self.old.black ≡ self.new.black + share_of colour taken Black }
        ensures white { self.old.white ≡ self.new.white + share_of colour taken White }
    {
        match colour {
            Colour::Black => {
                self.black -= u64::from(taken.own);
                self.white -= u64::from(taken.theirs);
            }
            Colour::White => {
                self.white -= u64::from(taken.own);
                self.black -= u64::from(taken.theirs);
            }
        }
    }
}
