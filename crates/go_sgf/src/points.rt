//! Values read as points: the vertex of a move, and lists of points, in which a value may be a rectangle.
ghost use Rattle.std.specs.Prelude.{◌≡◌, ◌<◌, ◌==◌, ◌++◌, All, IfOk, IfSome, OnOk, length, option_map, position};
ghost use Rattle.go_board.specs.Points.{IsOn};
ghost use Rattle.go_board.specs.Vertices.{IsOnBoard};
ghost use Rattle.go_sgf.specs.BoardValues.{is_pass_word, names_line, point_in, vertex_in, points_alone, points_by_values, points_listed};
ghost use Rattle.go_sgf.specs.Record.{values_of};
ghost use Rattle.go_sgf.specs.Rectangles.{listed};

use crate::numbers::trim;
use crate::rectangle::{Rectangle, Row};
use go_board::{Point, Size, Vertex};
use std::alloc::{AllocError, Allocator};

/// The vertex of a move: a point or a pass. A point has two lower-case letters: the column from the left and
/// the row from the top, `a` the first. An empty value is a pass, and so is `tt` on boards where it is no
/// point. None where the value is neither a point nor a pass. White space at both ends is skipped.
pub fn point_of(value: &[u8], size: Size) -> Option<Vertex>
    ensures value { result ≡ vertex_in size value.now }
    ensures on { IfSome result (IsOnBoard size) }
{
    let word = trim(value);
    match read_point(word, size) {
        Some(point) => Some(Vertex::At(point)),
        None if is_pass(word) => Some(Vertex::Pass),
        None => None,
    }
}

fn is_pass(word: &[u8]) -> bool
    ensures { result ≡ is_pass_word word.now }
{
    match word {
        [] => true,
        [column, row] => *column == b't' && *row == b't',
        _ => false,
    }
}

fn read_point(word: &[u8], size: Size) -> Option<Point>
    ensures value { result ≡ point_in size word.now }
    ensures on { IfSome result (IsOn size) }
{
    match word {
        [column, row] if is_line(*column, size) && is_line(*row, size) => Some(Point {
            col: *column - b'a',
            row: size.lines() - 1 - (*row - b'a'),
        }),
        _ => None,
    }
}

fn is_line(letter: u8, size: Size) -> bool
    ensures { result ≡ names_line size letter }
{
    b'a' <= letter && letter <= b'z' && letter - b'a' < size.lines()
}

/// The points that one value names. The value spells a point, or two opposite corners of a rectangle
/// with `:` between them. An empty value names no point. White space at both ends of the value or of
/// a corner is skipped. None where the value is malformed.
pub fn points_in(value: &[u8], size: Size) -> Option<Rectangle>
    ensures value { option_map listed result ≡ points_listed size value.now }
    ensures on { IfSome result (λ r. All (IsOn size) (listed r)) }
{
    match colon_in(value) {
        Some(place) => {
            let (first, rest) = value.split_at(place);
            let from = read_point(trim(first), size)?;
            let to = read_point(trim(rest.split_at(1).1), size)?;
            Some(Rectangle::between(from, to))
        }
        None => point_alone(trim(value), size),
    }
}

fn colon_in(value: &[u8]) -> Option<usize>
    ensures value { result ≡ position (λ b. b == 58) value.now }
    ensures bound { IfSome result (λ place. place < length value.now) }
{
    value.iter().position(|byte| *byte == b':')
}

/// The point of a word, or no point where the word is empty.
fn point_alone(word: &[u8], size: Size) -> Option<Rectangle>
    ensures value { option_map listed result ≡ points_alone size word.now }
    ensures on { IfSome result (λ r. All (IsOn size) (listed r)) }
{
    if word.is_empty() {
        return Some(Rectangle::empty());
    }
    let point = read_point(word, size)?;
    Some(Rectangle::of(point))
}

/// The points that a list of values names, value by value, a rectangle's in point order; repeats
/// are kept. An empty value names no point, nor does a list without values. None where a value is
/// malformed, as `tt` is on boards where it is no point.
pub fn points_of<A: Allocator + Copy>(
    alloc: A,
    values: &[&[u8]],
    size: Size,
) -> Result<Option<Vec<Point, A>>, AllocError>
    ensures value { IfOk result (λ found. option_map (λ list. list.items) found
        ≡ points_by_values size (values_of values.now)) }
    ensures on { IfOk result (λ found. IfSome found (λ list. All (IsOn size) list.items)) }
{
    let mut points = Vec::new(alloc);
    for value in values {
        match points_in(value, size) {
            Some(rectangle) => push_rows(&mut points, rectangle)?,
            None => return Ok(None),
        }
    }
    Ok(Some(points))
}

fn push_rows<A: Allocator + Copy>(
    points: &mut Vec<Point, A>,
    rectangle: Rectangle,
) -> Result<(), AllocError>
    ensures { OnOk result (points.new.items ≡ points.old.items ++ listed rectangle) }
{
    for number in 0..rectangle.rows() {
        push_row(points, rectangle.row(number))?;
    }
    Ok(())
}

fn push_row<A: Allocator + Copy>(points: &mut Vec<Point, A>, row: Row) -> Result<(), AllocError>
    ensures { OnOk result (points.new.items ≡ points.old.items ++ row) }
{
    for point in row {
        points.push(point)?;
    }
    Ok(())
}
