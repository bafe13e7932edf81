//! Writes to the cells of a board that are logged.
ghost use Rattle.std.specs.Prelude.{◌≡◌, ◌<◌, slice_index, vec_capacity, vec_len};
ghost use Rattle.go_chains.specs.declared.cells.TheConstants.{CELLS};
ghost use Rattle.go_chains.specs.inner.Writes.{IsWritten};
ghost use Rattle.go_chains.specs.inner.Edits.{Edited};

use crate::cells::Cells;
use crate::change::{Change, LoggedChange};
use go_board::Meter;
use std::alloc::Allocator;

/// Writes a number into a cell that has the number `old`, and logs the change, if the two differ.
pub(crate) fn replace<K, A: Allocator + Copy>(
    cells: &mut Cells<K>,
    changes: &mut Vec<LoggedChange, A>,
    meter: &mut Meter<K>,
    place: usize,
    old: u64,
    number: u64,
)
    requires place { place < CELLS }
    requires old { old ≡ slice_index cells.old.numbers place }
    requires room { vec_len changes.old < vec_capacity changes.old }
    ensures written { IsWritten cells.old.numbers cells.new.numbers place number }
    ensures edited { Edited cells.old cells.new changes.old changes.new meter.old meter.new 1 1 }
{
    if old == number {
        return;
    }
    let pushed = changes.push(LoggedChange::of(Change { place, old }));
    prove!(pushed.is_ok());
    let _ = pushed;
    cells.set(place, number, meter);
}

/// If the cell has another number, writes this one and logs the change.
pub(crate) fn put<K, A: Allocator + Copy>(
    cells: &mut Cells<K>,
    changes: &mut Vec<LoggedChange, A>,
    meter: &mut Meter<K>,
    place: usize,
    number: u64,
)
    requires place { place < CELLS }
    requires room { vec_len changes.old < vec_capacity changes.old }
    ensures written { IsWritten cells.old.numbers cells.new.numbers place number }
    ensures edited { Edited cells.old cells.new changes.old changes.new meter.old meter.new 1 2 }
{
    let old = cells.get(place, meter);
    replace(cells, changes, meter, place, old, number);
}
