//! A board and its colours. The files of `board/` have its plays, its packs, and the answers about its
//! chains.
ghost use Rattle.std.specs.Prelude.{◌≡◌, ◌<◌, ◌≤◌, ◌+◌, ◌*◌, ℕ, [], None, length, replicate, slice_index};
ghost use Rattle.go_board.specs.Points.{IsOn};
ghost use Rattle.go_board.specs.Reaching.{area};
ghost use Rattle.go_board.specs.Rows.{AreStones};
ghost use Rattle.go_board.specs.declared.colour.Colour.{Colour};
ghost use Rattle.go_board.specs.declared.size.TheConstants.{MAX_POINTS};
ghost use Rattle.go_chains.specs.declared.cells.TheConstants.{CELLS};
ghost use Rattle.go_chains.specs.Cells.{code_at};
ghost use Rattle.go_chains.specs.Sound.{IsKept};
ghost use Rattle.go_chains.specs.Boards.{grid_of, shown};
ghost use Rattle.go_chains.specs.inner.StoneRows.{IsRowOfStones};
ghost use Rattle.go_board.specs.Grids.{stone_at};

mod chains;
mod packs;
mod plays;

use crate::cells::Cells;
use go_board::rows::{ByColour, Rows, areas_of, with_stone};
use go_board::{Area, Colour, Grid, Meter, Open, Point, Size, laws};
use std::marker::Model;

/// A board that keeps its chains and their liberties, changed in place by each play. `K` is the kind of the
/// meter (`go_board/src/meter.rt`). `play`, `rewind`, `is_quiet` and `liberties_with` are generic over `K`.
/// Code that is generic over `K` can't make a meter, so these four count with the caller's.
#[derive(Drop)]
pub struct Board<K = Open> {
    size: Size,
    /// The tables of colours, labels, links, sizes and liberties.
    cells: Cells<K>,
}

impl<K> Model for Board<K> {
    ghost use Rattle.go_chains.specs.Sound.{IsKept};
    ghost use Rattle.go_chains.specs.Boards.{BoardValue};

    ghost Value = { BoardValue };

    ghost view = { λ b. record {
      lines = b.size;
      cells = b.cells.numbers;
      trace = b.cells.trace;
    } };

    ghost invariant = { λ b. IsKept b.size b.cells.numbers };
}

impl<K> Board<K> {
    /// The size of the board.
    pub fn size(&self) -> Size
        ensures lines { result ≡ self.now.lines }
        ensures whole { length (grid_of self.now) ≡ result * result }
        ensures kept { IsKept self.now.lines self.now.cells }
    {
        self.size
    }
}

impl Board<Open> {
    /// A board of this size with no stone.
    pub fn new(size: Size) -> Board<Open>
        ensures lines { result.lines ≡ size }
        ensures colours { grid_of result ≡ replicate (size * size) None }
        ensures cells { result.cells ≡ replicate CELLS 0 }
        ensures trace { result.trace ≡ [] }
        ensures kept { IsKept result.lines result.cells }
    {
        Board {
            size,
            cells: Cells::new(),
        }
    }

    /// Takes all stones off, and gives the board this size. It empties the colour cells of the new size's
    /// points. Cells past them keep what they had. It counts nothing.
    pub fn clear(&mut self, size: Size)
        ensures lines { self.new.lines ≡ size }
        ensures colours { grid_of self.new ≡ replicate (size * size) None }
        ensures writes { length self.new.trace ≡ length self.old.trace + size * size }
        ensures rest { (k : ℕ) → size * size ≤ k
            → slice_index self.new.cells k ≡ slice_index self.old.cells k }
        ensures kept { IsKept self.new.lines self.new.cells }
    {
        empty_points(&mut self.cells, usize::from(size.points()));
        self.size = size;
    }

    /// The colour of a point of the board, or none where it is empty.
    pub fn colour_at(&self, p: Point) -> Option<Colour>
        requires { IsOn self.now.lines p }
        ensures { result ≡ stone_at (shown self.now) p }
    {
        laws::points_by_number();
        let mut meter = Meter::new();
        let place = usize::from(p.index(self.size));
        Colour::coded(self.cells.get(place, &mut meter))
    }

    /// The colours of the board.
    pub fn grid(&self) -> Grid
        ensures lines { result.lines ≡ self.now.lines }
        ensures colours { result.colours ≡ grid_of self.now }
    {
        let size = self.size();
        let mut grid = Grid::new(size);
        for number in 0..size.points() {
            let at = Point::numbered(size, number);
            grid.set(at, self.colour_at(at));
        }
        grid
    }

    /// The stones of both colours in one row, a bit for each column.
    fn stones_in(&self, row: usize) -> ByColour<u32>
        requires { row < self.now.lines }
        ensures black { IsRowOfStones self.now Colour.Black row result.black }
        ensures white { IsRowOfStones self.now Colour.White row result.white }
    {
        let lines = usize::from(self.size().lines());
        let mut meter = Meter::new();
        let mut stones = ByColour { black: 0, white: 0 };
        for col in 0..lines {
            let colour = Colour::coded(self.cells.get(row * lines + col, &mut meter));
            stones.black = with_stone(stones.black, col, colour, Colour::Black);
            stones.white = with_stone(stones.white, col, colour, Colour::White);
        }
        stones
    }

    /// The stones of both colours, as words of rows.
    pub fn stones(&self) -> ByColour<Rows>
        ensures black { AreStones self.now.lines (grid_of self.now) Colour.Black result.black }
        ensures white { AreStones self.now.lines (grid_of self.now) Colour.White result.white }
    {
        let mut stones = ByColour::none();
        for row in 0..usize::from(self.size().lines()) {
            let here = self.stones_in(row);
            stones.black[row] = here.black;
            stones.white[row] = here.white;
        }
        stones
    }

    /// How many points count for each colour: its stones, and the empty points that reach that
    /// colour alone.
    pub fn area(&self) -> Area
        ensures black { result.black ≡ area self.now.lines (grid_of self.now) Colour.Black }
        ensures white { result.white ≡ area self.now.lines (grid_of self.now) Colour.White }
    {
        let stones = self.stones();
        areas_of(
            &stones.black,
            &stones.white,
            usize::from(self.size().lines()),
        )
    }
}

/// Empties the first points, as many as `points` says.
fn empty_points(cells: &mut Cells, points: usize)
    requires { points ≤ MAX_POINTS }
    ensures empty { (p : ℕ) → p < points → code_at cells.new.numbers p ≡ 0 }
    ensures rest { (k : ℕ) → points ≤ k
        → slice_index cells.new.numbers k ≡ slice_index cells.old.numbers k }
    ensures writes { length cells.new.trace ≡ length cells.old.trace + points }
{
    let mut meter = Meter::new();
    for number in 0..points {
        cells.set(number, 0, &mut meter);
    }
}
