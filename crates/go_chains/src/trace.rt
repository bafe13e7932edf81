//! The list of all writes to the cells, for contracts alone: the program keeps nothing of it.
ghost use Rattle.std.specs.Prelude.{◌≡◌, ◌++◌, ◌∷◌, [], slice_index};

use crate::numbers::Numbers;
use go_board::Open;
use std::marker::Model;
use std::mem;
use std::snapshot::Snapshot;

/// A list of writes that only contracts see: the writes before and the last one, or no write where there
/// is no list before. Of the last one it has the cell, and the numbers of all cells before it, so that no
/// cell is read for it.
#[derive(Drop)]
struct Writes<K> {
    before: Option<Snapshot<Writes<K>>>,
    place: usize,
    numbers: Snapshot<Numbers<K>>,
}

impl<K> Model for Writes<K> {
    ghost use Rattle.std.specs.Prelude.{List, length};
    ghost use Rattle.go_chains.specs.inner.Traces.{writes_of};
    ghost use Rattle.go_chains.specs.declared.change.Change.{Change};

    ghost Value = { List Change };

    ghost view = { λ w. writes_of w.before w.place w.numbers };

    ghost size = { λ w. length w };
}

/// All writes to some cells, in their order, each by the cell and the number that it wrote over.
/// Contracts see them, and they have no bytes when the program runs.
#[derive(Drop)]
pub struct Trace<K> {
    /// The list of all writes so far.
    at: Snapshot<Writes<K>>,
}

impl<K> Model for Trace<K> {
    ghost use Rattle.std.specs.Prelude.{List};
    ghost use Rattle.go_chains.specs.declared.change.Change.{Change};

    ghost Value = { List Change };

    ghost view = { λ t. t.at.value };
}

impl<K> Trace<K> {
    /// The trace of no write to these numbers.
    pub fn new(numbers: &Numbers<K>) -> Trace<K>
        ensures { result ≡ [] }
    {
        Trace {
            at: Snapshot::of(&Writes {
                before: None,
                place: 0,
                numbers: Snapshot::of(numbers),
            }),
        }
    }

    /// Adds at the end a write that is made next to these numbers.
    pub fn add(&mut self, place: usize, numbers: &Numbers<K>)
        ensures { self.new ≡ self.old
            ++ record { place = place; old = slice_index numbers.now place } ∷ [] }
    {
        let none = Trace::new(numbers).at;
        let before = mem::replace(&mut self.at, none);
        self.at = Snapshot::of(&Writes {
            before: Some(before),
            place,
            numbers: Snapshot::of(numbers),
        });
    }
}

const _: () = prove!(mem::size_of::<Trace<Open>>() == 0);
