//! The flood: from the marked points it marks all that paths of one colour lead to.
ghost use Rattle.std.specs.Prelude.{◌≡◌, ◌<◌, ◌*◌, ◌↔◌, ℕ, [], Option, Contains};
ghost use Rattle.go_board.specs.Colours.{colour_at};
ghost use Rattle.go_board.specs.Points.{IsOn, number_of};
ghost use Rattle.go_board.specs.inner.Flood.{Grows, HasRoom, IsJoinedTo, IsMarked, IsStep};

use crate::{Colour, Grid, MAX_POINTS, Point, put_neighbours};
use arrayvec::ArrayVec;

/// For each number of a point, whether it is marked.
pub type Marks = [bool; MAX_POINTS];

/// The marked points whose neighbours weren't looked at yet.
pub type Waiting = ArrayVec<u16, MAX_POINTS>;

/// No point is marked.
pub fn no_marks() -> Marks
    ensures none { (j : ℕ) → IsMarked result j → ⊥ }
    ensures room { HasRoom result [] }
{
    [false; MAX_POINTS]
}

/// Marks a point, which waits then, unless it was marked before.
pub fn mark(number: u16, marks: &mut Marks, waiting: &mut Waiting)
    requires on { number < MAX_POINTS }
    requires room { HasRoom marks.old waiting.old.items }
    ensures grows { Grows (λ j. j ≡ number) marks.old waiting.old.items marks.new
        waiting.new.items }
    ensures marked { IsMarked marks.new number }
{
    let place = usize::from(number);
    if !marks[place] {
        marks[place] = true;
        waiting.push(number);
    }
}

/// Marks a point if it has this colour.
fn mark_coloured(
    grid: &Grid,
    at: Point,
    colour: Option<Colour>,
    marks: &mut Marks,
    waiting: &mut Waiting,
)
    requires on { IsOn grid.now.lines at }
    requires room { HasRoom marks.old waiting.old.items }
    ensures grows { Grows (λ j. (j ≡ number_of grid.now.lines at)
        × (colour_at grid.now.colours (number_of grid.now.lines at) ≡ colour))
        marks.old waiting.old.items marks.new waiting.new.items }
    ensures marked { colour_at grid.now.colours (number_of grid.now.lines at) ≡ colour
        → IsMarked marks.new (number_of grid.now.lines at) }
{
    if grid.get(at) == colour {
        mark(at.index(grid.size()), marks, waiting);
    }
}

/// Marks the neighbours of a point that have its colour.
fn mark_beside(grid: &Grid, p: Point, marks: &mut Marks, waiting: &mut Waiting)
    requires on { IsOn grid.now.lines p }
    requires room { HasRoom marks.old waiting.old.items }
    ensures grows { Grows (IsStep grid.now.lines grid.now.colours (number_of grid.now.lines p))
        marks.old waiting.old.items marks.new waiting.new.items }
    ensures done { (j : ℕ) → IsStep grid.now.lines grid.now.colours (number_of grid.now.lines p) j
        → IsMarked marks.new j }
{
    let colour = grid.get(p);
    let mut beside = ArrayVec::new();
    put_neighbours(p, grid.size(), &mut beside);
    for q in beside.as_slice() {
        mark_coloured(grid, *q, colour, marks, waiting);
    }
}

/// Marks all that paths of one colour lead to from a marked point. Each marked point waits at
/// first.
pub fn spread(grid: &Grid, marks: &mut Marks, waiting: &mut Waiting)
    requires room { HasRoom marks.old waiting.old.items }
    requires on { (j : ℕ) → IsMarked marks.old j → j < grid.now.lines * grid.now.lines }
    requires wait { (j : ℕ) → IsMarked marks.old j → Contains waiting.old.items j }
    requires marked { (j : ℕ) → Contains waiting.old.items j → IsMarked marks.old j }
    ensures { (j : ℕ) → IsMarked marks.new j
        ↔ IsJoinedTo grid.now.lines grid.now.colours marks.old j }
{
    while let Some(number) = waiting.pop() {
        mark_beside(grid, Point::numbered(grid.size(), number), marks, waiting);
    }
}
