//! The points that one value names, as a rectangle and its rows. No list of the points is made: a row is an
//! iterator.
ghost use Rattle.std.specs.Prelude.{◌≡◌, ◌<◌, ◌∷◌, ℕ, []};
ghost use Rattle.std.specs.Iterator.{YieldsFirst, item_count};
ghost use Rattle.go_board.specs.Points.{IsOn};
ghost use Rattle.go_board.specs.declared.size.TheConstants.{MAX_LINES};
ghost use Rattle.go_sgf.specs.BoardValues.{rectangle};
ghost use Rattle.go_sgf.specs.Rectangles.{listed, points_of_row};

use go_board::Point;
use std::marker::Model;

/// The points that a value names, in neighbouring rows and columns. It may have none. Going over
/// its rows, and over the points of each, costs no more than these points.
#[derive(Clone, Copy)]
pub struct Rectangle {
    /// The leftmost column, and how many there are.
    column: u8,
    columns: u8,
    /// The lowest row, and how many there are.
    row: u8,
    rows: u8,
}

impl Model for Rectangle {
    ghost use Rattle.std.specs.Prelude.{◌+◌, ◌≤◌};
    ghost use Rattle.go_board.specs.declared.size.TheConstants.{MAX_LINES};
    ghost use Rattle.go_sgf.specs.Rectangles.{RectangleValue};

    ghost Value = { RectangleValue };

    ghost view = { λ r. record {
      column = r.column;
      columns = r.columns;
      row = r.row;
      rows = r.rows;
    } };

    ghost invariant = { λ r. (r.column + r.columns ≤ MAX_LINES) × (r.row + r.rows ≤ MAX_LINES) };

    ghost inverse = { λ r. record {
      column = r.column;
      columns = r.columns;
      row = r.row;
      rows = r.rows;
    } };
}

impl Rectangle {
    /// The rectangle with no point.
    pub(crate) fn empty() -> Rectangle
        ensures { listed result ≡ [] }
    {
        Rectangle {
            column: 0,
            columns: 0,
            row: 0,
            rows: 0,
        }
    }

    /// The rectangle of one point.
    pub(crate) fn of(point: Point) -> Rectangle
        requires { IsOn MAX_LINES point }
        ensures { listed result ≡ point ∷ [] }
    {
        Rectangle {
            column: point.col,
            columns: 1,
            row: point.row,
            rows: 1,
        }
    }

    /// The rectangle with these opposite corners.
    pub(crate) fn between(from: Point, to: Point) -> Rectangle
        requires from { IsOn MAX_LINES from }
        requires to { IsOn MAX_LINES to }
        ensures { (n : ℕ) → IsOn n from → IsOn n to → listed result ≡ rectangle n from to }
    {
        let column = from.col.min(to.col);
        let row = from.row.min(to.row);
        Rectangle {
            column,
            columns: from.col.max(to.col) - column + 1,
            row,
            rows: from.row.max(to.row) - row + 1,
        }
    }

    /// How many rows it has.
    pub fn rows(self) -> u8
        ensures { result ≡ self.rows }
    {
        self.rows
    }

    /// The row with this number, 0 for the lowest.
    pub fn row(self, number: u8) -> Row
        requires { number < self.rows }
        ensures { result ≡ points_of_row self number }
    {
        Row {
            row: self.row + number,
            column: self.column,
            columns: self.columns,
        }
    }
}

/// Points side by side, from left to right. A contract sees it as the list of those to come.
#[derive(Drop)]
pub struct Row {
    row: u8,
    /// The column of the next point, and how many are to come.
    column: u8,
    columns: u8,
}

impl Model for Row {
    ghost use Rattle.std.specs.Prelude.{◌+◌, ◌≤◌, List};
    ghost use Rattle.go_board.specs.declared.point.Point.{Point};
    ghost use Rattle.go_board.specs.declared.size.TheConstants.{MAX_LINES};
    ghost use Rattle.go_sgf.specs.Rectangles.{row_from};

    ghost Value = { List Point };

    ghost view = { λ r. row_from r.row r.column r.columns };

    ghost invariant = { λ r. r.column + r.columns ≤ MAX_LINES };
}

impl Iterator for Row {
    type Item = Point;

    ghost next_gives = { YieldsFirst (λ points. points) };

    ghost remaining = { item_count (λ points. points) };

    fn next(&mut self) -> Option<Point> {
        if self.columns == 0 {
            return None;
        }
        let point = Point {
            col: self.column,
            row: self.row,
        };
        self.column += 1;
        self.columns -= 1;
        Some(point)
    }
}
