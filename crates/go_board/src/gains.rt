//! What a stone that takes nothing gains for its colour, found from the points around it, so that the areas
//! need not be counted anew. Where they must be counted: what both colours hold with the stone.
ghost use Rattle.std.specs.Prelude.{◌≡◌, ◌<◌, ◌≤◌, ◌+◌, ◌*◌, ◌↔◌, IfSome, IsTrue, None, Some, length, slice_set};
ghost use Rattle.go_board.specs.declared.colour.Colour.{Colour};
ghost use Rattle.go_board.specs.declared.rows.TheConstants.{ROWS};
ghost use Rattle.go_board.specs.Colours.{Colouring, colour_at, other};
ghost use Rattle.go_board.specs.Gains.{Gains};
ghost use Rattle.go_board.specs.Rows.{AreHeld, AreStones, IsIn};
ghost use Rattle.go_board.specs.inner.Around.{AreJoinedRound, IsOpen, gap};

use crate::rows::{ROWS, Rows, has_place, held};

/// Whether a place is on the board and not in a set. A row or column before the first counts as one past
/// the last.
fn is_open(rows: &Rows, lines: usize, row: usize, col: usize) -> bool
    requires { lines ≤ ROWS }
    ensures { IsTrue result ↔ IsOpen rows.now lines row col }
{
    row < lines && col < lines && !has_place(rows, row, col)
}

/// The line before this one, and before the first one past the last of all.
fn line_before(line: usize) -> usize
    ensures before { 0 < line → result + 1 ≡ line }
    ensures none { line ≡ 0 → result ≡ ROWS }
{
    if line == 0 { ROWS } else { line - 1 }
}

/// 1 where a place is there and doesn't lead to the next one around by the corner between them.
fn gap(here: bool, corner: bool, next: bool) -> u8
    ensures value { result ≡ gap here corner next }
    ensures few { result ≤ 1 }
{
    u8::from(here && !(corner && next))
}

/// Whether the open places next to this one lead to each other by those around it: going around,
/// there is one gap between them at most.
fn are_joined_round(rows: &Rows, lines: usize, row: usize, col: usize) -> bool
    requires lines { lines ≤ ROWS }
    requires row { row < lines }
    requires col { col < lines }
    ensures { IsTrue result → AreJoinedRound rows.now lines row col }
{
    let (up, down) = (row + 1, line_before(row));
    let (right, left) = (col + 1, line_before(col));
    let north = is_open(rows, lines, up, col);
    let east = is_open(rows, lines, row, right);
    let south = is_open(rows, lines, down, col);
    let west = is_open(rows, lines, row, left);
    let gaps = gap(north, is_open(rows, lines, up, right), east)
        + gap(east, is_open(rows, lines, down, right), south)
        + gap(south, is_open(rows, lines, down, left), west)
        + gap(west, is_open(rows, lines, up, left), north);
    gaps <= 1
}

/// By how many points a stone on an empty point puts its colour further ahead if it takes nothing, from its
/// colour's stones and what both colours hold without it. It is 0 where its colour alone holds the point.
/// It is 1 where both colours hold it and the open points beside it are connected around it. None where the
/// areas have to be counted anew.
pub fn gain_of(
    own: &Rows,
    own_held: &Rows,
    theirs_held: &Rows,
    lines: usize,
    row: usize,
    col: usize,
) -> Option<u16>
    requires lines { lines ≤ ROWS }
    requires row { row < lines }
    requires col { col < lines }
    ensures gain { IfSome result (λ gain. (g : Colouring) (c : Colour) → length g ≡ lines * lines
        → colour_at g (row * lines + col) ≡ None → AreStones lines g c own.now
        → AreHeld lines g c own_held.now → AreHeld lines g (other c) theirs_held.now
        → Gains lines g c (row * lines + col) gain) }
    ensures few { IfSome result (λ gain. gain ≤ 1) }
    ensures none { IsIn own_held.now row col → (IsIn theirs_held.now row col → ⊥)
        → result ≡ Some 0 }
{
    if !has_place(own_held, row, col) {
        return None;
    }
    if !has_place(theirs_held, row, col) {
        return Some(0);
    }
    if are_joined_round(own, lines, row, col) {
        Some(1)
    } else {
        None
    }
}

/// The points that a colour holds with a stone of its own on an empty point, from what it held without it.
/// Where it held the point, they are the same. The stones include the new one.
pub fn own_held_with(
    own: &Rows,
    theirs: &Rows,
    own_held: &Rows,
    lines: usize,
    row: usize,
    col: usize,
) -> Rows
    requires lines { lines ≤ ROWS }
    requires row { row < lines }
    requires col { col < lines }
    ensures held { (g : Colouring) (c : Colour) → length g ≡ lines * lines
        → colour_at g (row * lines + col) ≡ None → AreHeld lines g c own_held.now
        → AreStones lines (slice_set g (row * lines + col) (Some c)) c own.now
        → AreStones lines (slice_set g (row * lines + col) (Some c)) (other c) theirs.now
        → AreHeld lines (slice_set g (row * lines + col) (Some c)) c result }
    ensures same { IsIn own_held.now row col → result ≡ own_held.now }
{
    if has_place(own_held, row, col) {
        return *own_held;
    }
    held(own, theirs, lines)
}

/// The points that a colour holds with a stone of the other colour on an empty point, from what it held
/// without it. Where it didn't hold the point, they are the same. The stones include the new one.
pub fn theirs_held_with(
    own: &Rows,
    theirs: &Rows,
    theirs_held: &Rows,
    lines: usize,
    row: usize,
    col: usize,
) -> Rows
    requires lines { lines ≤ ROWS }
    requires row { row < lines }
    requires col { col < lines }
    ensures held { (g : Colouring) (c : Colour) → length g ≡ lines * lines
        → colour_at g (row * lines + col) ≡ None → AreHeld lines g (other c) theirs_held.now
        → AreStones lines (slice_set g (row * lines + col) (Some c)) c own.now
        → AreStones lines (slice_set g (row * lines + col) (Some c)) (other c) theirs.now
        → AreHeld lines (slice_set g (row * lines + col) (Some c)) (other c) result }
    ensures same { (IsIn theirs_held.now row col → ⊥) → result ≡ theirs_held.now }
{
    if !has_place(theirs_held, row, col) {
        return *theirs_held;
    }
    held(theirs, own, lines)
}
