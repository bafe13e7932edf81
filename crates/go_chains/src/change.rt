//! A write to a cell as it can be undone, and the ten bytes in which a log keeps it.
ghost use Rattle.std.specs.Prelude.{◌≡◌, ◌<◌};
ghost use Rattle.go_chains.specs.declared.cells.TheConstants.{CELLS};

use std::marker::Model;
use std::mem;

/// A write to a cell, by the cell and the number that it had before.
#[derive(Clone, Copy)]
pub struct Change {
    pub place: usize,
    pub old: u64,
}

/// A change as a log keeps it. A play makes some ten changes, and a long game keeps them all, so the
/// number is kept as bytes, which leave no gap after the place.
#[derive(Clone, Copy)]
pub struct LoggedChange {
    place: u16,
    old: [u8; 8],
}

const _: () = prove!(mem::size_of::<LoggedChange>() == 10);

impl Model for LoggedChange {
    ghost use Rattle.std.specs.Prelude.{◌≡◌, ℕ, List};
    ghost use Rattle.std.proofs.Common.{ap};
    ghost use Rattle.std.specs.Int.{from_le_bytes, to_le_bytes, w64};
    ghost use Rattle.go_chains.specs.declared.change.Change.{Change};

    ghost Value = { Change };

    ghost view = { λ c. record { place = c.place; old = from_le_bytes w64 c.old } };

    ghost inverse = { λ c. record { place = c.place; old = to_le_bytes w64 c.old } };

    ghost invariant = { λ c. to_le_bytes w64 (from_le_bytes w64 c.old) ≡ c.old };

    ghost inverse_ok = { λ c bytes. ap (λ (old : List ℕ). record { place = c.place; old = old }) bytes };
}

impl LoggedChange {
    /// A change of a cell, as a log keeps it.
    pub fn of(change: Change) -> LoggedChange
        requires { change.place < CELLS }
        ensures { result ≡ change }
    {
        LoggedChange {
            place: change.place as u16,
            old: change.old.to_le_bytes(),
        }
    }

    /// The change.
    pub fn change(&self) -> Change
        ensures { result ≡ self.now }
    {
        Change {
            place: usize::from(self.place),
            old: u64::from_le_bytes(self.old),
        }
    }
}
