//! The numbers in all cells. They have a file of their own, so that other code can't reach one uncounted.
ghost use Rattle.std.specs.Prelude.{◌≡◌, ◌<◌, ◌+◌, replicate, slice_index, slice_set};
ghost use Rattle.go_chains.specs.declared.cells.TheConstants.{CELLS};

use crate::cells::CELLS;
use go_board::{Meter, Open};
use std::marker::{Model, PhantomData};

/// The numbers in the cells of a board. Only the calls below reach them: each reads or writes one
/// number, and counts that with a meter of their kind.
#[derive(Drop)]
pub struct Numbers<K> {
    items: [u64; CELLS],
    kind: PhantomData<K>,
}

impl<K> Model for Numbers<K> {
    ghost use Rattle.std.specs.Prelude.{◌≡◌, ℕ, List, length};
    ghost use Rattle.go_chains.specs.declared.cells.TheConstants.{CELLS};

    ghost Value = { List ℕ };

    ghost view = { λ n. n.items };

    ghost invariant = { λ n. length n.items ≡ CELLS };
}

impl Numbers<Open> {
    /// Numbers that are all 0.
    pub fn new() -> Numbers<Open>
        ensures { result ≡ replicate CELLS 0 }
    {
        Numbers {
            items: [0; CELLS],
            kind: PhantomData,
        }
    }
}

impl<K> Numbers<K> {
    ghost use Rattle.go_chains.specs.inner.Writes.{IsWritten};

    /// The number in a cell.
    pub fn get(&self, place: usize, meter: &mut Meter<K>) -> u64
        requires { place < CELLS }
        ensures value { result ≡ slice_index self.now place }
        ensures count { meter.new ≡ meter.old + 1 }
    {
        meter.tick();
        self.items[place]
    }

    /// Writes a number into a cell.
    pub fn set(&mut self, place: usize, number: u64, meter: &mut Meter<K>)
        requires { place < CELLS }
        ensures value { self.new ≡ slice_set self.old place number }
        ensures written { IsWritten self.old self.new place number }
        ensures count { meter.new ≡ meter.old + 1 }
    {
        meter.tick();
        self.items[place] = number;
    }
}
