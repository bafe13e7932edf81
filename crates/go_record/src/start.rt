//! Stones set up on a grid, and the colour that moves first.
ghost use Rattle.std.specs.Prelude.{◌≡◌, ◌≤◌, ℕ, All, IfNone, List, None, OnSome, Some, length};
ghost use Rattle.go_board.specs.declared.point.Point.{Point};
ghost use Rattle.go_board.specs.Points.{IsOn};
ghost use Rattle.go_board.specs.Reaching.{is_same};
ghost use Rattle.go_sgf.specs.BoardValues.{points_by_values};
ghost use Rattle.go_sgf.specs.MainLine.{IsLeft};
ghost use Rattle.go_sgf.specs.Record.{Property};
ghost use Rattle.go_sgf.specs.Rectangles.{listed};
ghost use Rattle.go_record.specs.inner.Progress.{IsAmongValues};
ghost use Rattle.go_record.specs.Walks.{colour_stated, opening_mover, holds_stones, with_points};

use go_board::{Colour, Grid, Point};
use go_sgf::{MainLine, Rectangle, Row, points_in, trim};

/// Gives the points of a property's values a colour, or empties them, value by value. None where a value is
/// malformed. The points of the values before it are set then.
pub(crate) fn set_points(
    grid: &mut Grid,
    colour: Option<Colour>,
    cursor: &mut MainLine<'_>,
) -> Option<()>
    ensures lines { grid.new.lines ≡ grid.old.lines }
    ensures set { OnSome result ((values : List (List ℕ)) (later : List Property)
        (nodes : List (List Property)) → IsLeft cursor.old values later nodes
        → (ps : List Point) × (points_by_values grid.old.lines values ≡ Some ps)
        × (grid.new.colours ≡ with_points grid.old.lines colour grid.old.colours ps)) }
    ensures bad { IfNone result ((values : List (List ℕ)) (later : List Property)
        (nodes : List (List Property)) → IsLeft cursor.old values later nodes
        → points_by_values grid.old.lines values ≡ None) }
    ensures cursor { (later : List Property) (nodes : List (List Property))
        → IsAmongValues cursor.old later nodes → IsAmongValues cursor.new later nodes }
    ensures onward { length cursor.new ≤ length cursor.old }
{
    let size = grid.size();
    while let Some(value) = cursor.next_value() {
        set_rows(grid, colour, points_in(value, size)?);
    }
    Some(())
}

fn set_rows(grid: &mut Grid, colour: Option<Colour>, rectangle: Rectangle)
    requires { All (IsOn grid.old.lines) (listed rectangle) }
    ensures lines { grid.new.lines ≡ grid.old.lines }
    ensures colours { grid.new.colours
        ≡ with_points grid.old.lines colour grid.old.colours (listed rectangle) }
{
    for number in 0..rectangle.rows() {
        set_row(grid, colour, rectangle.row(number));
    }
}

fn set_row(grid: &mut Grid, colour: Option<Colour>, row: Row)
    requires { All (IsOn grid.old.lines) row }
    ensures lines { grid.new.lines ≡ grid.old.lines }
    ensures colours { grid.new.colours ≡ with_points grid.old.lines colour grid.old.colours row }
{
    for point in row {
        grid.set(point, colour);
    }
}

/// The colour that a value names, in upper or lower case, with white space at both ends skipped.
pub(crate) fn colour_of(value: &[u8]) -> Option<Colour>
    ensures { result ≡ colour_stated value.now }
{
    Colour::named(trim(value))
}

/// The colour that moves first: the given one, or else White if there are only black stones, or else Black.
pub(crate) fn first_mover(grid: &Grid, given: Option<Colour>) -> Colour
    ensures { result ≡ opening_mover grid.now.lines grid.now.colours given }
{
    match given {
        Some(colour) => colour,
        None if has_stones(grid, Colour::Black) && !has_stones(grid, Colour::White) => {
            Colour::White
        }
        None => Colour::Black,
    }
}

fn has_stones(grid: &Grid, colour: Colour) -> bool
    ensures { result ≡ holds_stones grid.now.lines grid.now.colours colour }
{
    let size = grid.size();
    for number in 0..size.points() {
        if is_of(grid.get(Point::numbered(size, number)), colour) {
            return true;
        }
    }
    false
}

/// Whether the colour of a point is this one.
pub(crate) fn is_of(point: Option<Colour>, colour: Colour) -> bool
    ensures { result ≡ is_same point (Some colour) }
{
    match point {
        Some(stone) => stone == colour,
        None => false,
    }
}
