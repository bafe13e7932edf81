//! Stones and board sizes drawn at random, about as games of people have them. No stone is ever taken off
//! here, so a point is drawn only once in a game.
ghost use Rattle.std.specs.Prelude.{◌<◌};

use crate::random::Random;
use go_board::{Colour, MAX_POINTS, Point, Size};

/// A game as far as it is drawn: which points were given stones. As in games that people play, most
/// stones come near the last one, keep liberties, and few are taken.
#[derive(Drop)]
pub struct Drawn {
    size: Size,
    stones: [Option<Colour>; MAX_POINTS],
    last: Point,
}

/// What stands beside a point.
#[derive(Clone, Copy)]
struct Near {
    empty: u8,
    foes: u8,
}

/// How often a point is drawn, at most.
const TRIES: u32 = 24;

impl Drawn {
    pub fn new(size: Size) -> Drawn {
        Drawn {
            size,
            stones: [None; MAX_POINTS],
            last: Point { col: 3, row: 3 },
        }
    }

    pub fn size(&self) -> Size {
        self.size
    }

    /// Draws a point for a stone of this colour, and gives it that stone.
    pub fn draw(&mut self, colour: Colour, random: &mut Random) -> Option<Point> {
        for tried in 0..TRIES {
            let at = self.any_point(random);
            if self.suits(at, colour, tried) {
                self.put(at, colour);
                self.last = at;
                return Some(at);
            }
        }
        None
    }

    /// Gives a point a stone.
    pub fn put(&mut self, at: Point, colour: Colour) {
        let place = self.place(at);
        if let Some(stone) = self.stones.get_mut(place) {
            *stone = Some(colour);
        }
    }

    /// Whether a point has no stone.
    pub fn is_free(&self, at: Point) -> bool {
        matches!(self.stones.get(self.place(at)), Some(None))
    }

    fn place(&self, at: Point) -> usize {
        usize::from(at.row)
            .wrapping_mul(usize::from(self.size.lines()))
            .wrapping_add(usize::from(at.col))
    }

    /// A point near the last one, mostly, or any other.
    fn any_point(&self, random: &mut Random) -> Point {
        let lines = u32::from(self.size.lines());
        if random.one_in(5) {
            return Point {
                col: random.below(lines) as u8,
                row: random.below(lines) as u8,
            };
        }
        Point {
            col: line_near(self.last.col, random),
            row: line_near(self.last.row, random),
        }
    }

    fn suits(&self, at: Point, colour: Colour, tried: u32) -> bool {
        if !at.on(self.size) || !self.is_free(at) {
            return false;
        }
        let near = self.beside(at, colour);
        near.empty >= 2 && near.foes <= 1 || tried > 8 && near.empty >= 1 && near.foes <= 2
    }

    fn beside(&self, at: Point, colour: Colour) -> Near {
        let mut near = Near { empty: 0, foes: 0 };
        let beside = [
            (at.col, at.row.wrapping_sub(1)),
            (at.col.wrapping_sub(1), at.row),
            (at.col.wrapping_add(1), at.row),
            (at.col, at.row.wrapping_add(1)),
        ];
        for (col, row) in beside {
            self.count(Point { col, row }, colour, &mut near);
        }
        near
    }

    fn count(&self, at: Point, colour: Colour, near: &mut Near) {
        if !at.on(self.size) {
            return;
        }
        match self.stones.get(self.place(at)) {
            Some(None) => near.empty = near.empty.wrapping_add(1),
            Some(Some(stone)) if *stone != colour => near.foes = near.foes.wrapping_add(1),
            _ => {}
        }
    }
}

/// A line up to three from this one, which may be off the board.
fn line_near(line: u8, random: &mut Random) -> u8 {
    line.wrapping_add(random.below(7) as u8).wrapping_sub(3)
}

/// The colour of the move with this number.
pub fn colour_of(number: u32) -> Colour {
    if number.is_multiple_of(2) {
        Colour::Black
    } else {
        Colour::White
    }
}

/// A size by how often it is played: mostly 19 lines, and 13 and 9.
pub fn any_size(random: &mut Random) -> Size {
    match random.below(8) {
        0 => Size::new(9).unwrap(),
        1 | 2 => Size::new(13).unwrap(),
        _ => usual_size(),
    }
}

/// 19 lines.
pub fn usual_size() -> Size {
    Size::new(19).unwrap()
}

/// A point as it is seen from one of the eight sides of a board.
pub fn turned(at: Point, size: Size, side: u32) -> Point {
    let last = size.lines() - 1;
    let (col, row) = if side % 2 == 0 {
        (at.col, at.row)
    } else {
        (at.row, at.col)
    };
    Point {
        col: if side / 2 % 2 == 0 {
            col
        } else {
            last.wrapping_sub(col)
        },
        row: if side / 4 % 2 == 0 {
            row
        } else {
            last.wrapping_sub(row)
        },
    }
}
