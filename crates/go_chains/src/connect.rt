//! The placed stone's chain and those of its colour beside it become one. The larger keeps its label.
ghost use Rattle.std.specs.Prelude.{◌≤◌, ◌+◌, ◌*◌, vec_capacity, vec_len};
ghost use Rattle.go_board.specs.Paths.{IsAdjacent};
ghost use Rattle.go_board.specs.declared.size.TheConstants.{MAX_POINTS};
ghost use Rattle.go_board.specs.declared.point_set.TheConstants.{WORDS};
ghost use Rattle.go_chains.specs.inner.Beside.{AreBeside};
ghost use Rattle.go_chains.specs.inner.CellSteps.{chain_size, growth};
ghost use Rattle.go_chains.specs.inner.Edits.{Edited};
ghost use Rattle.go_chains.specs.inner.CellSteps.{AreTidy, Connects, ConnectsAll, HasStone};

use crate::cells::{Cells, LABELS, SIZES};
use crate::change::LoggedChange;
use crate::join::join;
use go_board::{Meter, Size};
use std::alloc::Allocator;

/// Joins the stone's chain and the one on the point beside it, if they have one colour and aren't one chain
/// already. The smaller of the two is relabelled.
fn connect_one<K, A: Allocator + Copy>(
    cells: &mut Cells<K>,
    changes: &mut Vec<LoggedChange, A>,
    meter: &mut Meter<K>,
    size: Size,
    point: usize,
    near: usize,
)
    requires tidy { AreTidy size cells.old }
    requires stone { HasStone size cells.old point }
    requires beside { IsAdjacent size point near }
    requires room { vec_len changes.old + (MAX_POINTS + WORDS + 3) ≤ vec_capacity changes.old }
    ensures tidy { AreTidy size cells.new }
    ensures connected { Connects size cells.old cells.new point near }
    ensures edited { Edited cells.old cells.new changes.old changes.new meter.old meter.new
        (growth cells.old cells.new point + WORDS + 3)
        (3 * growth cells.old cells.new point + 3 * WORDS + 15) }
{
    if cells.get(near, meter) != cells.get(point, meter) {
        return;
    }
    let there = cells.get(LABELS + near, meter) as usize;
    let here = cells.get(LABELS + point, meter) as usize;
    if there == here {
        return;
    }
    if cells.get(SIZES + there, meter) <= cells.get(SIZES + here, meter) {
        join(cells, changes, meter, size, point, near);
    } else {
        join(cells, changes, meter, size, near, point);
    }
}

/// Joins a stone's chain with all chains of its colour beside it.
pub fn connect<K, A: Allocator + Copy>(
    cells: &mut Cells<K>,
    changes: &mut Vec<LoggedChange, A>,
    meter: &mut Meter<K>,
    size: Size,
    point: usize,
    beside: &[usize],
)
    requires tidy { AreTidy size cells.old }
    requires stone { HasStone size cells.old point }
    requires beside { AreBeside size point beside.now }
    requires room { vec_len changes.old + 4 * (MAX_POINTS + WORDS + 3) ≤ vec_capacity changes.old }
    ensures tidy { AreTidy size cells.new }
    ensures connected { ConnectsAll size cells.old cells.new point beside.now }
    ensures few { chain_size cells.new.numbers point ≤ MAX_POINTS }
    ensures edited { Edited cells.old cells.new changes.old changes.new meter.old meter.new
        (growth cells.old cells.new point + 4 * (WORDS + 3))
        (3 * growth cells.old cells.new point + 4 * (3 * WORDS + 15)) }
{
    for near in beside {
        connect_one(cells, changes, meter, size, point, *near);
    }
}
