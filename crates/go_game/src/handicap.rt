//! How many handicap stones a board of each size can have, where they go, and grids with black stones.
ghost use Rattle.std.specs.Prelude.{◌≡◌, ◌≤◌, ◌<◌, ◌+◌, ◌*◌, ◌++◌, ◌%◌, ◌==◌, ◌&&◌, ℕ, All, IfSome, false, length, min, nat_lt, option_map};
ghost use Rattle.go_board.specs.declared.size.TheConstants.{MAX_LINES};
ghost use Rattle.go_board.specs.Points.{IsOn};
ghost use Rattle.go_board.specs.Reaching.{is_dead};
ghost use Rattle.go_game.specs.Handicaps.{fixed, greatest, handicap_points, near, crossing, stones_on_board, where_wanted};

use arrayvec::ArrayVec;
use go_board::{Colour, Grid, Point, Size, laws};

/// The most handicap stones that a board of this size has places for: none below 7 lines, 4 at 7
/// and at even sizes, else 9.
pub fn greatest_handicap(size: Size) -> u32
    ensures { result ≡ greatest size }
{
    let lines = size.lines();
    if lines < 7 {
        return 0;
    }
    if lines == 7 || lines % 2 == 0 { 4 } else { 9 }
}

/// The points of `number` handicap stones, or none where the number isn't from 2 to the greatest.
pub fn fixed_points(size: Size, number: u32) -> Option<ArrayVec<Point, 9>>
    ensures points { option_map (λ points. points.items) result ≡ fixed size number }
    ensures on { IfSome result (λ points. All (IsOn size) points.items) }
{
    if number < 2 || greatest_handicap(size) < number {
        return None;
    }
    Some(points_of(size.lines(), number))
}

/// The points of a valid number of stones: corners, sides, ends, centre.
fn points_of(lines: u8, number: u32) -> ArrayVec<Point, 9>
    requires lines { (6 < lines) × (lines ≤ MAX_LINES) }
    requires number { number ≤ 9 }
    ensures { result.items ≡ handicap_points lines number }
{
    let near = near_line(lines);
    let far = lines - 1 - near;
    let middle = lines / 2;
    let corners = [at(near, near), at(far, far), at(near, far), at(far, near)];
    let mut points = ArrayVec::new();
    push_where(&mut points, true, corners.split_at(first_of(number)).0);
    push_where(
        &mut points,
        number >= 6,
        &[at(near, middle), at(far, middle)],
    );
    push_where(
        &mut points,
        number >= 8,
        &[at(middle, near), at(middle, far)],
    );
    push_where(&mut points, takes_centre(number), &[at(middle, middle)]);
    points
}

/// How many of the four corners are taken by this number of stones.
fn first_of(number: u32) -> usize
    ensures { result ≡ min 4 number }
{
    4.min(number as usize)
}

/// Whether this number of stones takes the centre.
fn takes_centre(number: u32) -> bool
    ensures { result ≡ (nat_lt 4 number && number % 2 == 1) }
{
    number > 4 && number % 2 == 1
}

/// The line near an edge that has handicap stones, from 0.
fn near_line(lines: u8) -> u8
    ensures line { result ≡ near lines }
    ensures small { result ≤ 3 }
{
    if lines < 13 { 2 } else { 3 }
}

fn at(col: u8, row: u8) -> Point
    ensures { result ≡ crossing col row }
{
    Point { col, row }
}

/// Appends the points where they are wanted.
fn push_where(points: &mut ArrayVec<Point, 9>, wanted: bool, more: &[Point])
    requires { length points.old.items + length more.now ≤ 9 }
    ensures items { points.new.items ≡ points.old.items ++ where_wanted wanted more.now }
    ensures few { length points.new.items ≤ length points.old.items + length more.now }
{
    if wanted {
        push_all(points, more);
    }
}

fn push_all(points: &mut ArrayVec<Point, 9>, more: &[Point])
    requires { length points.old.items + length more.now ≤ 9 }
    ensures { points.new.items ≡ points.old.items ++ more.now }
{
    for point in more {
        points.push(*point);
    }
}

/// An empty board with black stones on these points, each of which reaches empty where a point of
/// the board is left.
pub fn stones_on(size: Size, points: &[Point]) -> Grid
    requires { All (IsOn size) points.now }
    ensures lines { result.lines ≡ size }
    ensures colours { result.colours ≡ stones_on_board size points.now }
    ensures alive { length points.now < size * size
        → (k : ℕ) → is_dead size result.colours k ≡ false }
{
    laws::one_colour_lives();
    let mut grid = Grid::new(size);
    for point in points {
        grid.set(*point, Some(Colour::Black));
    }
    grid
}
