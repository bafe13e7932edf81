ghost use Rattle.std.specs.Prelude.{◌≡◌};
ghost use Rattle.go_chains.specs.declared.error.PlaceError.TheVariants.{Memory};

use std::alloc::AllocError;
use thiserror::Error;

/// Why a stone can't be placed.
#[derive(Clone, Copy, Debug, PartialEq, Eq, Error)]
pub enum PlaceError {
    /// The point holds a stone.
    #[error("the point is on a stone")]
    Occupied,
    /// There was no memory for the play's changes.
    #[error("out of memory")]
    Memory,
}

impl From<AllocError> for PlaceError {
    ghost from_gives = { λ _ error. error ≡ Memory };

    fn from(_: AllocError) -> PlaceError {
        PlaceError::Memory
    }
}
