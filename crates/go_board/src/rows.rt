//! Sets of points as a word for each row of the board, and areas from those of the stones. From a
//! colour's stones marks spread over the points that the other colour has not, all columns of a row
//! at once.
ghost use Rattle.std.specs.Prelude.{◌≡◌, ◌<◌, ◌≤◌, ◌⊎◌, ◌↔◌, ℕ, IsTrue, Some, true, false, count_by};
ghost use Rattle.std.specs.Int.{bit_at};
ghost use Rattle.std.specs.List.{range_with_len};
ghost use Rattle.go_board.specs.declared.colour.Colour.{Colour};
ghost use Rattle.go_board.specs.declared.rows.TheConstants.{ROWS};
ghost use Rattle.go_board.specs.Colours.{Colouring, other};
ghost use Rattle.go_board.specs.Reaching.{area};
ghost use Rattle.go_board.specs.Rows.{AreHeld, AreStones, IsIn};
ghost use Rattle.go_board.specs.inner.Areas.{is_alone};
ghost use Rattle.go_board.specs.inner.Spreading.{HasNext, IsClosedAt, Spread, sum_of_words};

use crate::colour::is_same;
use crate::{Area, Colour, MAX_LINES, Point};

/// How many rows the largest board has.
pub const ROWS: usize = MAX_LINES as usize;

/// A set of places: a word for each row, with a bit for each column, the lowest for the first.
pub type Rows = [u32; ROWS];

/// One for each colour.
#[derive(Clone, Copy)]
pub struct ByColour<T> {
    pub black: T,
    pub white: T,
}

impl ByColour<Rows> {
    ghost use Rattle.std.specs.Prelude.{replicate};
    ghost use Rattle.go_board.specs.Rows.{rows_of};

    /// No place of either colour.
    pub fn none() -> ByColour<Rows>
        ensures black { result.black ≡ replicate ROWS 0 }
        ensures white { result.white ≡ replicate ROWS 0 }
    {
        ByColour {
            black: [0; ROWS],
            white: [0; ROWS],
        }
    }

    /// Whether a colour has a point.
    pub fn has(&self, colour: Colour, p: Point) -> bool
        requires row { p.row < ROWS }
        requires col { p.col < ROWS }
        ensures { IsTrue result ↔ IsIn (rows_of self.now colour) p.row p.col }
    {
        let (row, col) = row_and_column(p);
        match colour {
            Colour::Black => has_place(&self.black, row, col),
            Colour::White => has_place(&self.white, row, col),
        }
    }

    /// Adds a point to those of a colour.
    pub fn put(&mut self, colour: Colour, p: Point)
        requires row { p.row < ROWS }
        requires col { p.col < ROWS }
        ensures { (c : Colour) (row col : ℕ) → IsIn (rows_of self.new c) row col
            ↔ (((c ≡ colour) × (row ≡ p.row) × (col ≡ p.col)) ⊎ IsIn (rows_of self.old c) row col) }
    {
        let (row, col) = row_and_column(p);
        match colour {
            Colour::Black => put_place(&mut self.black, row, col),
            Colour::White => put_place(&mut self.white, row, col),
        }
    }
}

/// The row and the column of a point, as a place of a set has them.
pub fn row_and_column(p: Point) -> (usize, usize)
    ensures row { result.0 ≡ p.row }
    ensures col { result.1 ≡ p.col }
{
    (usize::from(p.row), usize::from(p.col))
}

/// Whether a set has a place.
pub fn has_place(rows: &Rows, row: usize, col: usize) -> bool
    requires row { row < ROWS }
    requires col { col < ROWS }
    ensures { IsTrue result ↔ IsIn rows.now row col }
{
    rows[row] >> col & 1 == 1
}

/// Puts a place into a set.
pub fn put_place(rows: &mut Rows, row: usize, col: usize)
    requires row { row < ROWS }
    requires col { col < ROWS }
    ensures { (r c : ℕ) → IsIn rows.new r c
        ↔ (((r ≡ row) × (c ≡ col)) ⊎ IsIn rows.old r c) }
{
    rows[row] |= 1 << col;
}

/// A row with this column put in where a point's colour is the own one.
pub fn with_stone(word: u32, col: usize, colour: Option<Colour>, own: Colour) -> u32
    requires { col < 32 }
    ensures { (i : ℕ) → (bit_at result i ≡ 1)
        ↔ (((i ≡ col) × (colour ≡ Some own)) ⊎ (bit_at word i ≡ 1)) }
{
    if is_same(colour, Some(own)) {
        word | 1 << col
    } else {
        word
    }
}

/// The columns of a row of the board that aren't in a word.
fn others_in_row(word: u32, lines: usize) -> u32
    requires { lines ≤ ROWS }
    ensures { (col : ℕ) → (bit_at result col ≡ 1) ↔ ((col < lines) × (bit_at word col ≡ 1 → ⊥)) }
{
    ((1 << lines) - 1) & !word
}

/// The points of the board that aren't in a set.
fn others(rows: &Rows, lines: usize) -> Rows
    requires { lines ≤ ROWS }
    ensures { (row col : ℕ) → IsIn result row col
        ↔ ((row < lines) × (col < lines) × (IsIn rows.now row col → ⊥)) }
{
    let mut rest = [0u32; ROWS];
    for row in 0..lines {
        rest[row] = others_in_row(rows[row], lines);
    }
    rest
}

/// The places of a row that share a side with one of the set.
fn beside(rows: &Rows, row: usize) -> u32
    requires { row < ROWS }
    ensures from { (col : ℕ) → bit_at result col ≡ 1 → HasNext rows.now row col }
    ensures all { (col : ℕ) → col < 32 → HasNext rows.now row col → bit_at result col ≡ 1 }
{
    let word = rows[row];
    let below = if row > 0 { rows[row - 1] } else { 0 };
    let above = if row + 1 < ROWS { rows[row + 1] } else { 0 };
    word << 1 | word >> 1 | below | above
}

/// Marks the free places of a row that are beside marked ones, and says whether that marked any.
fn grow(marks: &mut Rows, free: &Rows, row: usize) -> bool
    requires { row < ROWS }
    ensures spread { Spread marks.old free.now marks.new }
    ensures more { result ≡ true → sum_of_words marks.old < sum_of_words marks.new }
    ensures same { result ≡ false → marks.new ≡ marks.old }
    ensures closed { result ≡ false → IsClosedAt marks.old free.now row }
{
    let before = marks[row];
    let after = before | beside(marks, row) & free[row];
    marks[row] = after;
    after != before
}

/// Grows a row until no place of it can be marked, and says whether that marked any.
fn grow_all(marks: &mut Rows, free: &Rows, row: usize) -> bool
    requires { row < ROWS }
    ensures spread { Spread marks.old free.now marks.new }
    ensures more { result ≡ true → sum_of_words marks.old < sum_of_words marks.new }
    ensures same { result ≡ false → marks.new ≡ marks.old }
    ensures closed { result ≡ false → IsClosedAt marks.old free.now row }
{
    let mut more = false;
    while grow(marks, free, row) {
        more = true;
    }
    more
}

/// Grows each row of the board, from the first to the last and back, and says whether that marked
/// any.
fn sweep(marks: &mut Rows, free: &Rows, lines: usize) -> bool
    requires { lines ≤ ROWS }
    ensures spread { Spread marks.old free.now marks.new }
    ensures more { result ≡ true → sum_of_words marks.old < sum_of_words marks.new }
    ensures closed { result ≡ false → (row : ℕ) → row < lines → IsClosedAt marks.new free.now row }
{
    let mut more = false;
    for row in 0..lines {
        if grow_all(marks, free, row) {
            more = true;
        }
    }
    for passed in 0..lines {
        if grow_all(marks, free, lines - 1 - passed) {
            more = true;
        }
    }
    more
}

/// Marks all free places of the board that marks can spread to.
fn spread(marks: &mut Rows, free: &Rows, lines: usize)
    requires { lines ≤ ROWS }
    ensures spread { Spread marks.old free.now marks.new }
    ensures closed { (row : ℕ) → row < lines → IsClosedAt marks.new free.now row }
{
    while sweep(marks, free, lines) {}
}

/// The points that a colour holds, its stones and the empty points that reach it, from its stones and
/// those of the other colour.
pub fn held(own: &Rows, theirs: &Rows, lines: usize) -> Rows
    requires { lines ≤ ROWS }
    ensures { (g : Colouring) (c : Colour) → AreStones lines g c own.now
        → AreStones lines g (other c) theirs.now → AreHeld lines g c result }
{
    let mut marks = *own;
    spread(&mut marks, &others(theirs, lines), lines);
    marks
}

/// How many columns the one word has that the other has not.
fn count_in_row(own: u32, theirs: u32) -> u16
    ensures counted { result ≡ count_by (is_alone own theirs) (range_with_len 0 32) }
    ensures few { result ≤ 32 }
{
    (own & !theirs).count_ones() as u16
}

/// How many points count for a colour, those that it holds alone, from what it and the other colour
/// hold.
pub fn count_alone(own: &Rows, theirs: &Rows, lines: usize) -> u16
    requires { lines ≤ ROWS }
    ensures { (g : Colouring) (c : Colour) → AreHeld lines g c own.now
        → AreHeld lines g (other c) theirs.now → result ≡ area lines g c }
{
    let mut count = 0;
    for row in 0..lines {
        count += count_in_row(own[row], theirs[row]);
    }
    count
}

/// How many points count for each colour, from the stones of both.
pub fn areas_of(black: &Rows, white: &Rows, lines: usize) -> Area
    requires { lines ≤ ROWS }
    ensures black { (g : Colouring) → AreStones lines g Colour.Black black.now
        → AreStones lines g Colour.White white.now → result.black ≡ area lines g Colour.Black }
    ensures white { (g : Colouring) → AreStones lines g Colour.Black black.now
        → AreStones lines g Colour.White white.now → result.white ≡ area lines g Colour.White }
{
    let black_held = held(black, white, lines);
    let white_held = held(white, black, lines);
    Area {
        black: count_alone(&black_held, &white_held, lines),
        white: count_alone(&white_held, &black_held, lines),
    }
}
