//! The colour of each point of a board, in one array that has room for the largest board. A grid keeps no
//! chains and no liberties.
ghost use Rattle.std.specs.Prelude.{◌≡◌, ◌<◌, ◌≤◌, ◌*◌, ◌↔◌, None, IsTrue, is_some, length, not, replicate, slice_set, take};
ghost use Rattle.std.specs.List.{list_any};

use crate::colour::is_same;
use crate::{Colour, MAX_POINTS, Point, Size};
use std::marker::Model;

/// A colouring of the points of a board: each is empty, black or white.
#[derive(Drop)]
pub struct Grid {
    size: Size,
    cells: [Option<Colour>; MAX_POINTS],
}

impl Model for Grid {
    ghost use Rattle.std.specs.Prelude.{◌≡◌, ◌≤◌, ◌*◌, length, take};
    ghost use Rattle.go_board.specs.declared.size.TheConstants.{MAX_LINES, MAX_POINTS};
    ghost use Rattle.go_board.specs.Grids.{GridValue};

    ghost Value = { GridValue };

    ghost view = { λ g. record {
      lines = g.size;
      colours = take (g.size * g.size) g.cells;
    } };

    ghost invariant = { λ g. (length g.cells ≡ MAX_POINTS) × (g.size ≤ MAX_LINES) };
}

impl Grid {
    ghost use Rattle.go_board.specs.Colours.{colour_at};
    ghost use Rattle.go_board.specs.Points.{IsOn, number_of};

    /// A board of this size with no stone.
    pub fn new(size: Size) -> Grid
        ensures lines { result.lines ≡ size }
        ensures colours { result.colours ≡ replicate (size * size) None }
    {
        Grid {
            size,
            cells: [None; MAX_POINTS],
        }
    }

    /// The size of the board.
    pub fn size(&self) -> Size
        ensures lines { result ≡ self.now.lines }
        ensures whole { length self.now.colours ≡ result * result }
    {
        self.size
    }

    /// Another grid with the same colours.
    pub fn copy(&self) -> Grid
        ensures { result ≡ self.now }
    {
        Grid {
            size: self.size,
            cells: self.cells,
        }
    }

    /// The colour of a point of the board, or none where it is empty.
    pub fn get(&self, p: Point) -> Option<Colour>
        requires { IsOn self.now.lines p }
        ensures { result ≡ colour_at self.now.colours (number_of self.now.lines p) }
    {
        let number = p.index(self.size);
        self.cells[usize::from(number)]
    }

    /// The colour of the point with this number; a point past the board counts as empty.
    pub(crate) fn colour_of(&self, number: usize) -> Option<Colour>
        ensures { result ≡ colour_at self.now.colours number }
    {
        if number < usize::from(self.size.points()) {
            self.cells[number]
        } else {
            None
        }
    }

    /// Whether it has no stone.
    pub fn is_vacant(&self) -> bool
        ensures { result ≡ not (list_any is_some self.now.colours) }
    {
        for number in 0..usize::from(self.size().points()) {
            if self.colour_of(number).is_some() {
                return false;
            }
        }
        true
    }

    /// Gives a point of the board a colour, or empties it.
    pub fn set(&mut self, p: Point, colour: Option<Colour>)
        requires { IsOn self.old.lines p }
        ensures lines { self.new.lines ≡ self.old.lines }
        ensures colours { self.new.colours ≡ slice_set self.old.colours
            (number_of self.old.lines p) colour }
    {
        self.cells[usize::from(p.index(self.size))] = colour;
    }

    /// Whether two grids have the same size and the same colours.
    pub fn is_same_as(&self, other: &Grid) -> bool
        ensures { IsTrue result ↔ (self.now ≡ other.now) }
    {
        let size = self.size();
        if other.size().lines() != size.lines() {
            return false;
        }
        for number in 0..size.points() {
            let at = Point::numbered(size, number);
            if !is_same(self.get(at), other.get(at)) {
                return false;
            }
        }
        true
    }
}
