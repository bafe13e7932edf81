//! The writes of each play, from which the last play is taken back. Memory for all writes of a play is
//! reserved before the first, so no write of a play can run out of memory.
ghost use Rattle.std.specs.Prelude.{◌≡◌, ◌<◌, ◌≤◌, ◌+◌, ◌++◌, ◌∷◌, ◌⊎◌, [], List, OnErr, OnOk, length, vec_capacity, vec_len};
ghost use Rattle.go_chains.specs.declared.cells.TheConstants.{CELLS};
ghost use Rattle.go_chains.specs.Rewound.{ForLast, NamesCells, rewound, undone};
ghost use Rattle.go_chains.specs.inner.Undoing.{IsPutBack, before_end, end_of};

use crate::cells::Cells;
use crate::change::LoggedChange;
use go_board::Meter;
use std::alloc::{AllocError, Allocator};
use std::marker::Model;

/// The changes that plays made, so that they can be put back. It takes memory as it grows, from the
/// allocator that it was made with.
#[derive(Drop)]
pub struct Log<A: Allocator + Copy> {
    /// The changes of all plays, in the order in which they were made.
    pub(crate) changes: Vec<LoggedChange, A>,
    /// How many changes each play made.
    pub(crate) lengths: Vec<usize, A>,
}

impl<A: Allocator + Copy> Model for Log<A> {
    ghost use Rattle.std.specs.Prelude.{◌≡◌, List, length};
    ghost use Rattle.go_chains.specs.declared.change.Change.{Change};
    ghost use Rattle.go_chains.specs.Rewound.{plays_of, total};

    ghost Value = { List (List Change) };

    ghost view = { λ l. plays_of l.lengths.items l.changes.items };

    ghost invariant = { λ l. total l.lengths.items ≡ length l.changes.items };
}

impl<A: Allocator + Copy> Log<A> {
    ghost use Rattle.go_chains.specs.declared.change.Change.{Change};

    /// A log of no play.
    pub fn new(alloc: A) -> Log<A>
        ensures { result ≡ [] }
    {
        Log {
            changes: Vec::new(alloc),
            lengths: Vec::new(alloc),
        }
    }

    /// How many plays it has.
    pub fn plays(&self) -> usize
        ensures { result ≡ length self.now }
    {
        self.lengths.len()
    }

    /// Puts the last play's changes back, from the last to the first, and drops that play.
    pub(crate) fn put_back<K>(&mut self, cells: &mut Cells<K>, meter: &mut Meter<K>)
        requires play { 0 < length self.old }
        requires names { ForLast self.old (λ earlier changes. NamesCells CELLS changes) }
        ensures { ForLast self.old (λ earlier changes.
            IsPutBack cells.old cells.new self.new earlier changes meter.old meter.new) }
    {
        if let Some(count) = self.lengths.pop() {
            put_back_changes(cells, &mut self.changes, meter, count);
        }
    }
}

/// Puts the last `count` changes back, from the last to the first.
fn put_back_changes<K, A: Allocator + Copy>(
    cells: &mut Cells<K>,
    changes: &mut Vec<LoggedChange, A>,
    meter: &mut Meter<K>,
    count: usize,
)
    requires enough { count ≤ length changes.old.items }
    requires names { NamesCells CELLS (end_of count changes.old.items) }
    ensures cells { cells.new.numbers ≡ rewound cells.old.numbers (end_of count changes.old.items) }
    ensures traced { cells.new.trace ≡ cells.old.trace
        ++ undone cells.old.numbers (end_of count changes.old.items) }
    ensures changes { changes.new.items ≡ before_end count changes.old.items }
    ensures count { meter.new ≡ meter.old + count }
{
    for _ in 0..count {
        if let Some(logged) = changes.pop() {
            let change = logged.change();
            cells.set(change.place, change.old, meter);
        }
    }
}

/// Makes room for one more play, of at most `most` changes. The first play reserves `most` and uses little.
/// Growing that list might copy all its room. So the second play makes a new list for two plays, and copies
/// only the changes in use.
pub(crate) fn reserve_play<A: Allocator + Copy>(
    changes: &mut Vec<LoggedChange, A>,
    lengths: &mut Vec<usize, A>,
    most: usize,
) -> Result<(), AllocError>
    ensures changes { changes.new.items ≡ changes.old.items }
    ensures lengths { lengths.new.items ≡ lengths.old.items }
    ensures room { OnOk result (vec_len changes.new + most ≤ vec_capacity changes.new) }
    ensures play { OnOk result (vec_len lengths.new < vec_capacity lengths.new) }
    ensures needed { OnErr result ((vec_capacity changes.old < vec_len changes.old + most)
        ⊎ (vec_capacity lengths.old ≤ vec_len lengths.old)) }
{
    lengths.reserve(1)?;
    if changes.capacity() != most || changes.is_empty() {
        return changes.reserve(most);
    }
    let wider = Vec::with_capacity(*changes.allocator(), most.saturating_mul(2))?;
    widen(changes, wider);
    Ok(())
}

/// Moves changes to an empty list that has room for them.
fn widen<A: Allocator + Copy>(changes: &mut Vec<LoggedChange, A>, mut wider: Vec<LoggedChange, A>)
    requires empty { wider.items ≡ [] }
    requires room { vec_len changes.old ≤ vec_capacity wider }
    ensures changes { changes.new.items ≡ changes.old.items }
    ensures room { vec_capacity wider ≤ vec_capacity changes.new }
{
    let moved = wider.extend_from_slice(changes.as_slice());
    prove!(moved.is_ok());
    let _ = moved;
    *changes = wider;
}

/// Ends a play of `count` changes, for which there is room.
pub(crate) fn seal<A: Allocator + Copy>(lengths: &mut Vec<usize, A>, count: usize)
    requires { vec_len lengths.old < vec_capacity lengths.old }
    ensures { lengths.new.items ≡ lengths.old.items ++ count ∷ [] }
{
    let pushed = lengths.push(count);
    prove!(pushed.is_ok());
    let _ = pushed;
}
