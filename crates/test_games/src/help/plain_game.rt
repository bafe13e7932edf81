//! The plain body of a game. It keeps the grid after each move, and finds a repetition by comparing the new
//! grid with all of them.
use go_board::{Colour, Grid, Move, Taken, Vertex, plain};
use go_game::{PlayError, Superko};
use std::alloc::{AllocError, Global};

/// Whether a rule sees no difference between two grids, each with the colour to move on it.
fn repeats(superko: Superko, old: (&Grid, Colour), new: (&Grid, Colour)) -> bool {
    let is_same_mover = match superko {
        Superko::Positional => true,
        Superko::Situational => old.1 == new.1,
    };
    is_same_mover && old.0.is_same_as(new.0)
}

/// A game by the plain body: its start, the grid and the colour to move after each move, and what
/// each move took.
#[derive(Drop)]
pub struct PlainGame {
    pub superko: Superko,
    pub start: Grid,
    pub first: Colour,
    pub grids: Vec<(Grid, Colour), Global>,
    pub made: Vec<(Move, Taken), Global>,
}

impl PlainGame {
    pub fn new(alloc: Global, superko: Superko, start: Grid, first: Colour) -> PlainGame {
        PlainGame {
            superko,
            start,
            first,
            grids: Vec::new(alloc),
            made: Vec::new(alloc),
        }
    }

    /// The grid after the last move.
    pub fn present(&self) -> Grid {
        match self.grids.last() {
            Some((grid, _)) => grid.copy(),
            None => self.start.copy(),
        }
    }

    /// The colour that is to move.
    pub fn mover(&self) -> Colour {
        match self.made.last() {
            Some((made, _)) => made.colour.other(),
            None => self.first,
        }
    }

    /// After how many moves a grid came up first, if it did. By the situational rule that is with this colour
    /// to move.
    fn first_at(&self, grid: &Grid, mover: Colour) -> Option<usize> {
        let superko = self.superko;
        if repeats(superko, (&self.start, self.first), (grid, mover)) {
            return Some(0);
        }
        let mut stood = self.grids.iter();
        let number = stood.position(|(old, next)| repeats(superko, (old, *next), (grid, mover)))?;
        Some(number.wrapping_add(1))
    }

    /// The result of a move: the grid after it and what it took, or why it is refused.
    pub fn outcome(&self, made: Move) -> Result<(Grid, Taken), PlayError> {
        let mut after = self.present();
        let p = match made.vertex {
            Vertex::Pass => return Ok((after, Taken { theirs: 0, own: 0 })),
            Vertex::At(p) => p,
        };
        if !p.on(after.size()) {
            return Err(PlayError::OffBoard);
        }
        if after.get(p).is_some() {
            return Err(PlayError::Occupied);
        }
        let taken = plain::place(&mut after, made.colour, p);
        match self.first_at(&after, made.colour.other()) {
            Some(number) => Err(PlayError::Repeats(number)),
            None => Ok((after, taken)),
        }
    }

    /// How many stones of a colour were taken.
    pub fn prisoners(&self, colour: Colour) -> u64 {
        let mut count = 0u64;
        for (made, taken) in &self.made {
            let share = if made.colour == colour {
                taken.own
            } else {
                taken.theirs
            };
            count = count.wrapping_add(u64::from(share));
        }
        count
    }

    /// Makes a move that leaves this grid and takes these numbers of stones.
    pub fn push(&mut self, made: Move, after: Grid, taken: Taken) -> Result<(), AllocError> {
        self.grids.push((after, made.colour.other()))?;
        self.made.push((made, taken))?;
        Ok(())
    }

    /// Takes the last move back, if there is one.
    pub fn undo(&mut self) -> Option<Move> {
        let (made, _) = self.made.pop()?;
        let _ = self.grids.pop();
        Some(made)
    }
}
