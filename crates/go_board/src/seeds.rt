//! Where a flood begins.
ghost use Rattle.std.specs.Prelude.{◌≡◌, ◌<◌, ◌*◌, ◌↔◌, ℕ, [], IsTrue};
ghost use Rattle.go_board.specs.Points.{IsOn, number_of};
ghost use Rattle.go_board.specs.inner.Flood.{AreJoined, AreReaching, Grows, HasRoom, IsBeside, IsMarked, IsSeed, IsSeeding};

use crate::colour::is_same;
use crate::flood::{Marks, Waiting, mark, no_marks, spread};
use crate::{Colour, Grid, Point, put_neighbours};
use arrayvec::ArrayVec;

/// Whether a point has a neighbour of this colour.
fn is_beside(grid: &Grid, p: Point, colour: Option<Colour>) -> bool
    requires { IsOn grid.now.lines p }
    ensures { IsTrue result
        ↔ IsBeside grid.now.lines grid.now.colours (number_of grid.now.lines p) colour }
{
    let mut beside = ArrayVec::new();
    put_neighbours(p, grid.size(), &mut beside);
    for q in beside.as_slice() {
        if is_same(grid.get(*q), colour) {
            return true;
        }
    }
    false
}

/// Marks a point of the one colour that has a neighbour of the other.
fn mark_seed(
    grid: &Grid,
    at: Point,
    from: Option<Colour>,
    to: Option<Colour>,
    marks: &mut Marks,
    waiting: &mut Waiting,
)
    requires on { IsOn grid.now.lines at }
    requires room { HasRoom marks.old waiting.old.items }
    ensures grows { Grows
        (λ j. (j ≡ number_of grid.now.lines at) × IsSeed grid.now.lines grid.now.colours from to j)
        marks.old waiting.old.items marks.new waiting.new.items }
    ensures marked { IsSeed grid.now.lines grid.now.colours from to (number_of grid.now.lines at)
        → IsMarked marks.new (number_of grid.now.lines at) }
{
    if is_same(grid.get(at), from) {
        if is_beside(grid, at, to) {
            mark(at.index(grid.size()), marks, waiting);
        }
    }
}

/// Marks each point of the one colour that has a neighbour of the other.
fn mark_seeds(
    grid: &Grid,
    from: Option<Colour>,
    to: Option<Colour>,
    marks: &mut Marks,
    waiting: &mut Waiting,
)
    requires none { (j : ℕ) → IsMarked marks.old j → ⊥ }
    requires room { HasRoom marks.old waiting.old.items }
    requires empty { waiting.old.items ≡ [] }
    ensures { IsSeeding grid.now.lines grid.now.colours from to (grid.now.lines * grid.now.lines)
        marks.new waiting.new.items }
{
    let size = grid.size();
    for number in 0..size.points() {
        mark_seed(
            grid,
            Point::numbered(size, number),
            from,
            to,
            marks,
            waiting,
        );
    }
}

/// The points of the one colour from which a path of that colour leads to a neighbour of one of the
/// other.
pub fn reaching(grid: &Grid, from: Option<Colour>, to: Option<Colour>) -> Marks
    ensures { AreReaching grid.now.lines grid.now.colours from to result }
{
    let mut marks = no_marks();
    let mut waiting = ArrayVec::new();
    mark_seeds(grid, from, to, &mut marks, &mut waiting);
    spread(grid, &mut marks, &mut waiting);
    marks
}

/// The points that a path of one colour joins to a point.
pub fn joined_to(grid: &Grid, p: Point) -> Marks
    requires { IsOn grid.now.lines p }
    ensures { AreJoined grid.now.lines grid.now.colours (number_of grid.now.lines p) result }
{
    let mut marks = no_marks();
    let mut waiting = ArrayVec::new();
    mark(p.index(grid.size()), &mut marks, &mut waiting);
    spread(grid, &mut marks, &mut waiting);
    marks
}
