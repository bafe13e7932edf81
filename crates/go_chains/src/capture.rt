//! Chains without a liberty are captured.
ghost use Rattle.std.specs.Prelude.{◌<◌, ◌≤◌, ◌+◌, ◌*◌, ◌/◌, ℕ, length, slice_index, vec_capacity, vec_len};
ghost use Rattle.go_board.specs.declared.size.TheConstants.{MAX_POINTS};
ghost use Rattle.go_board.specs.declared.point_set.TheConstants.{WORDS};
ghost use Rattle.go_chains.specs.inner.CellSteps.{chain_size};
ghost use Rattle.go_chains.specs.inner.Edits.{Edited};
ghost use Rattle.go_chains.specs.inner.CellSteps.{AreColours, AreTidy, AreWhole, Captures, CapturesMore, TakesDead, TakesStones};

use crate::cells::{Cells, LABELS};
use crate::change::LoggedChange;
use crate::lift::take_off;
use crate::masks::has_liberty_but;
use go_board::{Meter, Size};
use std::alloc::Allocator;

/// Captures the chain on a point, if it has the colour `captured_code` and no liberty, and returns the number
/// of its stones. Its points become liberties of chains of the colour `freed_code`.
pub fn capture_if_dead<K, A: Allocator + Copy>(
    cells: &mut Cells<K>,
    changes: &mut Vec<LoggedChange, A>,
    meter: &mut Meter<K>,
    size: Size,
    point: usize,
    captured_code: u64,
    freed_code: u64,
) -> usize
    requires tidy { AreTidy size cells.old }
    requires whole { AreWhole size cells.old }
    requires point { point < size * size }
    requires colours { AreColours size cells.old captured_code freed_code }
    requires room { vec_len changes.old + 5 * MAX_POINTS ≤ vec_capacity changes.old }
    ensures capturing { CapturesMore size cells.old cells.new captured_code }
    ensures gone { TakesDead size cells.old cells.new captured_code point }
    ensures stones { TakesStones size cells.old cells.new captured_code result }
    ensures few { result ≤ MAX_POINTS }
    ensures bound { result ≤ chain_size cells.old.numbers point }
    ensures edited { Edited cells.old cells.new changes.old changes.new meter.old meter.new
        (5 * result) (WORDS + 5 + 18 * result) }
{
    if cells.get(point, meter) != captured_code {
        return 0;
    }
    let label = cells.get(LABELS + point, meter) as usize;
    // `point` has a stone, so it excludes no liberty. It only says which word is looked at first.
    if has_liberty_but(cells, meter, size, label, point) {
        return 0;
    }
    take_off(
        cells,
        changes,
        meter,
        size,
        point,
        captured_code,
        freed_code,
    )
}

/// Captures the chains of the colour `captured_code` on these points that have no liberty, and returns the
/// number of their stones.
pub fn capture_beside<K, A: Allocator + Copy>(
    cells: &mut Cells<K>,
    changes: &mut Vec<LoggedChange, A>,
    meter: &mut Meter<K>,
    size: Size,
    beside: &[usize],
    captured_code: u64,
    freed_code: u64,
) -> usize
    requires tidy { AreTidy size cells.old }
    requires whole { AreWhole size cells.old }
    requires few { length beside.now ≤ 4 }
    requires on { (i : ℕ) → i < length beside.now → slice_index beside.now i < size * size }
    requires colours { AreColours size cells.old captured_code freed_code }
    requires room { vec_len changes.old + 20 * MAX_POINTS ≤ vec_capacity changes.old }
    ensures capturing { Captures size cells.old cells.new captured_code }
    ensures gone { (i : ℕ) → i < length beside.now
        → TakesDead size cells.old cells.new captured_code (slice_index beside.now i) }
    ensures stones { TakesStones size cells.old cells.new captured_code result }
    ensures few { result ≤ 4 * MAX_POINTS }
    ensures edited { Edited cells.old cells.new changes.old changes.new meter.old meter.new
        (5 * result) (4 * (WORDS + 5) + 18 * result) }
{
    let mut stones = 0;
    for near in beside {
        stones += capture_if_dead(
            cells,
            changes,
            meter,
            size,
            *near,
            captured_code,
            freed_code,
        );
    }
    stones
}
