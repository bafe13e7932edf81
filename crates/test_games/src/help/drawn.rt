//! Random starts and moves, and counts of the results of moves. The counts show whether the rare cases came
//! up.
use crate::help::plain_game::PlainGame;
use go_board::{Colour, Grid, Move, Point, Size, Taken, Vertex, plain};
use go_game::PlayError;
use rand_core::Rng;
use rand_pcg::Pcg32;

/// Draws a colour.
pub fn any_colour(random: &mut Pcg32) -> Colour {
    if random.next_u32().is_multiple_of(2) {
        Colour::Black
    } else {
        Colour::White
    }
}

/// Draws a stone, or none on one point of three.
fn any_stone(random: &mut Pcg32) -> Option<Colour> {
    let colour = any_colour(random);
    if random.next_u32().is_multiple_of(3) {
        None
    } else {
        Some(colour)
    }
}

/// Draws a grid on which some chains may have no liberty.
fn any_grid(random: &mut Pcg32, size: Size) -> Grid {
    let mut grid = Grid::new(size);
    for number in 0..size.points() {
        let p = Point::numbered(size, number);
        if p.on(grid.size()) {
            grid.set(p, any_stone(random));
        }
    }
    grid
}

/// Draws a grid on which each chain has a liberty.
pub fn any_start(random: &mut Pcg32, size: Size) -> Grid {
    let mut grid = any_grid(random, size);
    for _ in 0..size.points() {
        match plain::first_dead(&grid) {
            Some(p) if p.on(grid.size()) => grid.set(p, None),
            _ => break,
        }
    }
    grid
}

/// Draws a vertex: a pass now and then, a point that may be off the board. On large boards most are
/// in two corners, so that chains meet there.
fn any_vertex(random: &mut Pcg32, size: Size) -> Vertex {
    if random.next_u32().is_multiple_of(16) {
        return Vertex::Pass;
    }
    let all = u32::from(size.lines()) + 1;
    let corner = if all > 5 && !random.next_u32().is_multiple_of(8) {
        5
    } else {
        all
    };
    let skipped = if random.next_u32().is_multiple_of(2) {
        0
    } else {
        all - corner
    };
    let col = skipped + random.next_u32() % corner;
    let row = skipped + random.next_u32() % corner;
    Vertex::At(Point {
        col: col as u8,
        row: row as u8,
    })
}

/// Draws a move.
fn any_move(random: &mut Pcg32, size: Size) -> Move {
    let colour = any_colour(random);
    let vertex = any_vertex(random, size);
    Move { colour, vertex }
}

/// Whether a move takes stones or is refused for a repetition.
fn is_rare(plain: &PlainGame, made: Move) -> bool {
    match plain.outcome(made) {
        Ok((_, taken)) => taken.theirs > 0 || taken.own > 0,
        Err(why) => matches!(why, PlayError::Repeats(_)),
    }
}

/// Draws a move, one that takes stones or repeats if a few tries find such.
pub fn next_move(random: &mut Pcg32, plain: &PlainGame) -> Move {
    let size = plain.start.size();
    for _ in 0..7 {
        let made = any_move(random, size);
        if is_rare(plain, made) {
            return made;
        }
    }
    any_move(random, size)
}

/// How often moves passed, took the opponent's stones, took their own, took a single stone and that
/// their own, were refused for a repetition, and were taken back.
#[derive(Clone, Copy)]
pub struct Seen {
    passes: u32,
    captures: u32,
    suicides: u32,
    returns: u32,
    repetitions: u32,
    undos: u32,
}

impl Seen {
    pub fn new() -> Seen {
        Seen {
            passes: 0,
            captures: 0,
            suicides: 0,
            returns: 0,
            repetitions: 0,
            undos: 0,
        }
    }

    /// Counts a move and what it came to.
    pub fn count(&mut self, made: Move, outcome: &Result<(Grid, Taken), PlayError>) {
        let passes = made.vertex == Vertex::Pass;
        self.passes = self.passes.wrapping_add(u32::from(passes));
        match outcome {
            Ok((_, taken)) => {
                self.captures = self.captures.wrapping_add(u32::from(taken.theirs > 0));
                self.suicides = self.suicides.wrapping_add(u32::from(taken.own > 0));
                self.returns = self.returns.wrapping_add(u32::from(taken.own == 1));
            }
            Err(why) => {
                let repeats = matches!(why, PlayError::Repeats(_));
                self.repetitions = self.repetitions.wrapping_add(u32::from(repeats));
            }
        }
    }

    /// Counts a move that was taken back.
    pub fn count_undo(&mut self) {
        self.undos = self.undos.wrapping_add(1);
    }

    /// Whether a move took a single stone and that its own, so that the colouring came back.
    pub fn has_returns(&self) -> bool {
        self.returns > 0
    }

    /// Whether each of those that come up by both rules came up.
    pub fn has_all(&self) -> bool {
        self.passes > 0
            && self.captures > 0
            && self.suicides > 0
            && self.repetitions > 0
            && self.undos > 0
    }
}
