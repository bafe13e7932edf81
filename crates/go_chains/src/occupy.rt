//! A stone is placed on an empty point. It is a chain of its own, and the point is no longer a liberty of
//! the chains beside it.
ghost use Rattle.std.specs.Prelude.{◌≡◌, ◌<◌, ◌≤◌, ◌+◌, ◌*◌, All, length, replicate, vec_capacity, vec_len};
ghost use Rattle.go_board.specs.declared.size.TheConstants.{MAX_POINTS};
ghost use Rattle.go_board.specs.declared.point_set.TheConstants.{WORDS};
ghost use Rattle.go_chains.specs.inner.Beside.{AreBeside};
ghost use Rattle.go_chains.specs.Cells.{code_at};
ghost use Rattle.go_chains.specs.inner.Edits.{Edited};
ghost use Rattle.go_chains.specs.inner.Writes.{IsDeprived, MarksEmpty, MarksOne};
ghost use Rattle.go_chains.specs.inner.CellSteps.{AreTidy, DeprivesAll, DeprivesAt, Fills, Fits, Occupies};

use crate::cells::{Cells, LABELS, LINKS, SIZES, word_place};
use crate::change::LoggedChange;
use crate::edits::{put, replace};
use go_board::point_set::words_of;
use go_board::{MAX_POINTS, Meter, PointSet, Size};
use std::alloc::Allocator;

/// If a point is empty, puts it into a set.
fn put_if_empty<K>(cells: &Cells<K>, meter: &mut Meter<K>, near: usize, set: &mut PointSet)
    requires near { near < MAX_POINTS }
    ensures marked { MarksOne cells.now.numbers set.old set.new near }
    ensures count { meter.new ≡ meter.old + 1 }
{
    if cells.get(near, meter) == 0 {
        set.put(near);
    }
}

/// Adds to `set` the points of `beside` that have no stone. `set` has no point before.
pub(crate) fn put_empty<K>(
    cells: &Cells<K>,
    meter: &mut Meter<K>,
    beside: &[usize],
    set: &mut PointSet,
)
    requires few { length beside.now ≤ 4 }
    requires on { All (λ near. near < MAX_POINTS) beside.now }
    requires none { set.old ≡ replicate WORDS 0 }
    ensures marks { MarksEmpty cells.now.numbers set.new beside.now (length beside.now) }
    ensures count { meter.new ≡ meter.old + length beside.now }
{
    for near in beside {
        put_if_empty(cells, meter, *near, set);
    }
}

/// Takes a point out of the liberties of a label.
fn clear_liberty<K, A: Allocator + Copy>(
    cells: &mut Cells<K>,
    changes: &mut Vec<LoggedChange, A>,
    meter: &mut Meter<K>,
    label: usize,
    point: usize,
)
    requires label { label < MAX_POINTS }
    requires point { point < MAX_POINTS }
    requires room { vec_len changes.old < vec_capacity changes.old }
    ensures deprived { IsDeprived cells.old.numbers cells.new.numbers point (λ l. l ≡ label) }
    ensures edited { Edited cells.old cells.new changes.old changes.new meter.old meter.new 1 2 }
{
    let place = word_place(label, point / 64);
    let word = cells.get(place, meter);
    replace(
        cells,
        changes,
        meter,
        place,
        word,
        word & !(1 << (point % 64)),
    );
}

/// Takes a point out of the liberties of the stone on another point, if one is there.
fn deprive_one<K, A: Allocator + Copy>(
    cells: &mut Cells<K>,
    changes: &mut Vec<LoggedChange, A>,
    meter: &mut Meter<K>,
    near: usize,
    point: usize,
)
    requires near { near < MAX_POINTS }
    requires point { point < MAX_POINTS }
    requires label { Fits cells.old near }
    requires room { vec_len changes.old < vec_capacity changes.old }
    ensures deprived { DeprivesAt cells.old cells.new point near }
    ensures edited { Edited cells.old cells.new changes.old changes.new meter.old meter.new 1 4 }
{
    if cells.get(near, meter) == 0 {
        return;
    }
    let label = cells.get(LABELS + near, meter) as usize;
    clear_liberty(cells, changes, meter, label, point);
}

/// Takes a point out of the liberties of the stones beside it.
fn deprive<K, A: Allocator + Copy>(
    cells: &mut Cells<K>,
    changes: &mut Vec<LoggedChange, A>,
    meter: &mut Meter<K>,
    beside: &[usize],
    point: usize,
)
    requires few { length beside.now ≤ 4 }
    requires on { All (λ near. near < MAX_POINTS) beside.now }
    requires point { point < MAX_POINTS }
    requires labels { All (Fits cells.old) beside.now }
    requires room { vec_len changes.old + 4 ≤ vec_capacity changes.old }
    ensures deprived { DeprivesAll cells.old cells.new point beside.now }
    ensures edited { Edited cells.old cells.new changes.old changes.new meter.old meter.new 4 16 }
{
    for near in beside {
        deprive_one(cells, changes, meter, *near, point);
    }
}

/// Writes a set as a label's liberties, in all words of the board.
fn fill_words<K, A: Allocator + Copy>(
    cells: &mut Cells<K>,
    changes: &mut Vec<LoggedChange, A>,
    meter: &mut Meter<K>,
    size: Size,
    label: usize,
    set: &PointSet,
)
    requires label { label < MAX_POINTS }
    requires room { vec_len changes.old + WORDS ≤ vec_capacity changes.old }
    ensures filled { Fills size cells.old cells.new label set.now }
    ensures edited { Edited cells.old cells.new changes.old changes.new meter.old meter.new
        WORDS (2 * WORDS) }
{
    for word in 0..words_of(size) {
        let place = word_place(label, word);
        put(cells, changes, meter, place, set.word(word));
    }
}

/// Puts a stone of this colour on an empty point.
pub fn occupy<K, A: Allocator + Copy>(
    cells: &mut Cells<K>,
    changes: &mut Vec<LoggedChange, A>,
    meter: &mut Meter<K>,
    size: Size,
    colour: u64,
    point: usize,
    beside: &[usize],
)
    requires tidy { AreTidy size cells.old }
    requires point { point < size * size }
    requires empty { code_at cells.old.numbers point ≡ 0 }
    requires colour { 0 < colour }
    requires beside { AreBeside size point beside.now }
    requires room { vec_len changes.old + (WORDS + 8) ≤ vec_capacity changes.old }
    ensures occupied { Occupies size cells.old cells.new point colour }
    ensures edited { Edited cells.old cells.new changes.old changes.new meter.old meter.new
        (WORDS + 8) (2 * WORDS + 27) }
{
    let mut free = PointSet::new();
    put_empty(cells, meter, beside, &mut free);
    deprive(cells, changes, meter, beside, point);
    replace(cells, changes, meter, point, 0, colour);
    put(cells, changes, meter, LABELS + point, point as u64);
    put(cells, changes, meter, LINKS + point, point as u64);
    put(cells, changes, meter, SIZES + point, 1);
    fill_words(cells, changes, meter, size, point, &free);
}
