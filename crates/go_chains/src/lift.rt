//! Stones are taken off the board, and their points become liberties of the chains beside them.
ghost use Rattle.std.specs.Prelude.{◌≡◌, ◌≢◌, ◌<◌, ◌≤◌, ◌+◌, ◌*◌, ℕ, All, length, vec_capacity, vec_len};
ghost use Rattle.go_board.specs.declared.size.TheConstants.{MAX_POINTS};
ghost use Rattle.go_chains.specs.Cells.{code_at};
ghost use Rattle.go_chains.specs.inner.CellSteps.{chain_size};
ghost use Rattle.go_chains.specs.inner.Edits.{Edited};
ghost use Rattle.go_chains.specs.inner.Writes.{IsGiven, IsLifted};
ghost use Rattle.go_chains.specs.inner.CellSteps.{AreTidy, AreWhole, FitsWith, GivesAll, GivesAt, HasStone, HasTwoColours, Removes};

use crate::beside::put_beside;
use crate::cells::{Cells, LABELS, LINKS, SIZES, word_place};
use crate::change::LoggedChange;
use crate::edits::replace;
use arrayvec::ArrayVec;
use go_board::{Meter, Point, Size};
use std::alloc::Allocator;

/// Makes a point a liberty of a label too.
fn set_liberty<K, A: Allocator + Copy>(
    cells: &mut Cells<K>,
    changes: &mut Vec<LoggedChange, A>,
    meter: &mut Meter<K>,
    label: usize,
    point: usize,
)
    requires label { label < MAX_POINTS }
    requires point { point < MAX_POINTS }
    requires room { vec_len changes.old < vec_capacity changes.old }
    ensures given { IsGiven cells.old.numbers cells.new.numbers point (λ l. l ≡ label) }
    ensures edited { Edited cells.old cells.new changes.old changes.new meter.old meter.new 1 2 }
{
    let place = word_place(label, point / 64);
    let word = cells.get(place, meter);
    replace(cells, changes, meter, place, word, word | 1 << (point % 64));
}

/// Makes a point a liberty of the stone on another point, if one of this colour is there.
fn give_one<K, A: Allocator + Copy>(
    cells: &mut Cells<K>,
    changes: &mut Vec<LoggedChange, A>,
    meter: &mut Meter<K>,
    near: usize,
    point: usize,
    colour: u64,
)
    requires near { near < MAX_POINTS }
    requires point { point < MAX_POINTS }
    requires label { FitsWith cells.old colour near }
    requires room { vec_len changes.old < vec_capacity changes.old }
    ensures given { GivesAt cells.old cells.new point near colour }
    ensures edited { Edited cells.old cells.new changes.old changes.new meter.old meter.new 1 4 }
{
    if cells.get(near, meter) != colour {
        return;
    }
    let label = cells.get(LABELS + near, meter) as usize;
    set_liberty(cells, changes, meter, label, point);
}

/// Makes a point a liberty of the stones of this colour beside it.
fn give_back<K, A: Allocator + Copy>(
    cells: &mut Cells<K>,
    changes: &mut Vec<LoggedChange, A>,
    meter: &mut Meter<K>,
    beside: &[usize],
    point: usize,
    colour: u64,
)
    requires few { length beside.now ≤ 4 }
    requires on { All (λ near. near < MAX_POINTS) beside.now }
    requires point { point < MAX_POINTS }
    requires labels { All (FitsWith cells.old colour) beside.now }
    requires room { vec_len changes.old + 4 ≤ vec_capacity changes.old }
    ensures given { GivesAll cells.old cells.new point beside.now colour }
    ensures edited { Edited cells.old cells.new changes.old changes.new meter.old meter.new 4 16 }
{
    for near in beside {
        give_one(cells, changes, meter, *near, point, colour);
    }
}

/// Takes one stone of the colour `captured_code` off, and makes its point a liberty of the stones of the colour
/// `freed_code` beside it.
fn lift<K, A: Allocator + Copy>(
    cells: &mut Cells<K>,
    changes: &mut Vec<LoggedChange, A>,
    meter: &mut Meter<K>,
    size: Size,
    point: usize,
    captured_code: u64,
    freed_code: u64,
)
    requires point { point < size * size }
    requires taken { code_at cells.old.numbers point ≡ captured_code }
    requires labels { (s : ℕ) → s < size * size → FitsWith cells.old freed_code s }
    requires room { vec_len changes.old + 5 ≤ vec_capacity changes.old }
    ensures lifted { IsLifted size cells.old.numbers cells.new.numbers point freed_code }
    ensures edited { Edited cells.old cells.new changes.old changes.new meter.old meter.new 5 17 }
{
    replace(cells, changes, meter, point, captured_code, 0);
    let mut beside = ArrayVec::new();
    put_beside(size, Point::numbered(size, point as u16), &mut beside);
    give_back(cells, changes, meter, beside.as_slice(), point, freed_code);
}

/// Takes the chain of a stone off, and gives the number of its stones.
pub fn take_off<K, A: Allocator + Copy>(
    cells: &mut Cells<K>,
    changes: &mut Vec<LoggedChange, A>,
    meter: &mut Meter<K>,
    size: Size,
    stone: usize,
    captured_code: u64,
    freed_code: u64,
) -> usize
    requires tidy { AreTidy size cells.old }
    requires whole { AreWhole size cells.old }
    requires stone { HasStone size cells.old stone }
    requires taken { code_at cells.old.numbers stone ≡ captured_code }
    requires rest { 0 < freed_code }
    requires apart { captured_code ≢ freed_code }
    requires two { HasTwoColours size cells.old captured_code freed_code }
    requires room { vec_len changes.old + 5 * MAX_POINTS ≤ vec_capacity changes.old }
    ensures removed { Removes size cells.old cells.new stone }
    ensures stones { result ≡ chain_size cells.old.numbers stone }
    ensures edited { Edited cells.old cells.new changes.old changes.new meter.old meter.new
        (5 * result) (2 + 18 * result) }
{
    let label = cells.get(LABELS + stone, meter) as usize;
    let stones = cells.get(SIZES + label, meter) as usize;
    let mut at = stone;
    for _ in 0..stones {
        let next = cells.get(LINKS + at, meter) as usize;
        lift(cells, changes, meter, size, at, captured_code, freed_code);
        at = next;
    }
    stones
}
