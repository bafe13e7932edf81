//! Points by column and row, their numbers on a board of a given size, and the points beside them.
ghost use Rattle.std.specs.Prelude.{◌≡◌, ◌<◌, ◌≤◌, ◌*◌, ◌/◌, ◌↔◌, [], IsTrue, IsSome, IfSome, All, Contains, map};
ghost use Rattle.std.specs.List.Sorted.{IsStrictlyIncreasing};
ghost use Rattle.go_board.specs.Points.{IsOn, are_beside, number_of, point_at};

use crate::Size;
use arrayvec::ArrayVec;

/// A point by its column from the left and its row from the bottom, both from 0. Point order goes
/// row by row from the bottom, each from the left.
#[derive(Clone, Copy, Debug, Default, PartialEq, Eq, Hash)]
pub struct Point {
    pub col: u8,
    pub row: u8,
}

/// For each number of lines, 65,536 over it, rounded up.
const SHARES: [u32; 26] = [
    0, 65_536, 32_768, 21_846, 16_384, 13_108, 10_923, 9_363, 8_192, 7_282, 6_554, 5_958, 5_462,
    5_042, 4_682, 4_370, 4_096, 3_856, 3_641, 3_450, 3_277, 3_121, 2_979, 2_850, 2_731, 2_622,
];

/// The row of the point with this number. A walk over all points needs each one's row, and a division is
/// slow, so it multiplies.
fn row_at(size: Size, number: u16) -> u16
    requires { number < size * size }
    ensures row { result ≡ number / size }
    ensures before { result * size ≤ number }
{
    let share = SHARES[usize::from(size.lines())];
    (u32::from(number) * share >> 16) as u16
}

impl Point {
    /// The point in this column and row, or none off the board.
    pub fn at(size: Size, col: u8, row: u8) -> Option<Point>
        ensures range { IsSome result ↔ ((col < size) × (row < size)) }
        ensures value { IfSome result (λ p. (p.col ≡ col) × (p.row ≡ row)) }
    {
        let point = Point { col, row };
        if point.on(size) { Some(point) } else { None }
    }

    /// The point with this number in point order, or none past the last.
    pub fn nth(size: Size, number: u16) -> Option<Point>
        ensures range { IsSome result ↔ (number < size * size) }
        ensures value { IfSome result (λ p. p ≡ point_at size number) }
        ensures back { IfSome result (λ p. IsOn size p × (number_of size p ≡ number)) }
    {
        if number < size.points() {
            Some(Point::numbered(size, number))
        } else {
            None
        }
    }

    /// The point with this number in point order, for a number that is known to have one.
    pub fn numbered(size: Size, number: u16) -> Point
        requires { number < size * size }
        ensures value { result ≡ point_at size number }
        ensures on { IsOn size result }
        ensures back { number_of size result ≡ number }
    {
        let row = row_at(size, number);
        Point {
            col: (number - row * u16::from(size.lines())) as u8,
            row: row as u8,
        }
    }

    /// The column from the left, from 0.
    pub fn col(self) -> u8
        ensures { result ≡ self.col }
    {
        self.col
    }

    /// The row from the bottom, from 0.
    pub fn row(self) -> u8
        ensures { result ≡ self.row }
    {
        self.row
    }

    /// Whether the point is on a board of this size.
    pub fn on(self, size: Size) -> bool
        ensures { IsTrue result ↔ IsOn size self }
    {
        self.col < size.lines() && self.row < size.lines()
    }

    /// Its number in point order, from 0.
    pub fn index(self, size: Size) -> u16
        requires { IsOn size self }
        ensures value { result ≡ number_of size self }
        ensures bound { result < size * size }
        ensures back { point_at size result ≡ self }
    {
        u16::from(self.row) * u16::from(size.lines()) + u16::from(self.col)
    }
}

/// The points that share a side with this one, in point order.
pub fn neighbours(p: Point, size: Size) -> ArrayVec<Point, 4>
    requires { IsOn size p }
    ensures on { All (λ q. IsOn size q) result.items }
    ensures beside { All (λ q. IsTrue (are_beside p q)) result.items }
    ensures each { (q : Point) → IsOn size q → IsTrue (are_beside p q) → Contains result.items q }
    ensures order { IsStrictlyIncreasing (map (number_of size) result.items) }
{
    let mut beside = ArrayVec::new();
    put_neighbours(p, size, &mut beside);
    beside
}

/// Puts the points that share a side with this one into an empty list, in point order. A loop that runs
/// often is spared the copy of a list that is returned.
pub fn put_neighbours(p: Point, size: Size, beside: &mut ArrayVec<Point, 4>)
    requires on { IsOn size p }
    requires empty { beside.old.items ≡ [] }
    ensures on { All (λ q. IsOn size q) beside.new.items }
    ensures beside { All (λ q. IsTrue (are_beside p q)) beside.new.items }
    ensures each { (q : Point) → IsOn size q → IsTrue (are_beside p q)
        → Contains beside.new.items q }
    ensures order { IsStrictlyIncreasing (map (number_of size) beside.new.items) }
{
    let last = size.lines() - 1;
    if p.row > 0 {
        beside.push(Point {
            row: p.row - 1,
            ..p
        });
    }
    if p.col > 0 {
        beside.push(Point {
            col: p.col - 1,
            ..p
        });
    }
    if p.col < last {
        beside.push(Point {
            col: p.col + 1,
            ..p
        });
    }
    if p.row < last {
        beside.push(Point {
            row: p.row + 1,
            ..p
        });
    }
}
