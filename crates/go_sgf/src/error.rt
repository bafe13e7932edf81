//! Why a source isn't a record, as an error and as a text. While it reads, the reader uses `ReadError`, which
//! counts the bytes that are left. Its callers get `SgfError`, which counts from the start of the source.
ghost use Rattle.std.specs.Prelude.{◌≡◌};

use std::alloc::{AllocError, AllocFailed};
use std::error::Error;
use std::fmt;

/// Why a source can't be read. A place is a byte's number in the source, from 0.
#[derive(Clone, Copy, Debug, PartialEq, Eq)]
pub enum SgfError {
    /// No `(` has a `;` after it. White space between them doesn't count.
    NoTree,
    /// The source ends inside of a tree. The place is the length of the source.
    EndInside(usize),
    /// The first byte that the grammar doesn't allow at its place.
    Unexpected(usize),
    /// The `(` of the first tree that is nested deeper than [`MAX_DEPTH`](crate::MAX_DEPTH).
    TooDeep(usize),
    /// There was no memory for the trees.
    Memory,
    /// The source has more than [`MAX_RECORD`](crate::MAX_RECORD) bytes.
    TooLong,
}

impl Error for SgfError {}

impl fmt::Display for SgfError {
    ghost use Rattle.std.specs.Prelude.{Some};
    ghost use Rattle.go_sgf.specs.Refusals.{sgf_error_text};

    ghost output = { λ why. Some (sgf_error_text why) };

    fn fmt<W: fmt::Write>(&self, f: &mut fmt::Formatter<W>) -> Result<(), fmt::Error> {
        match self {
            SgfError::NoTree => f.write_str("no game tree"),
            SgfError::EndInside(place) => write!(f, "record ends inside a tree at byte {place}"),
            SgfError::Unexpected(place) => write!(f, "unexpected byte at {place}"),
            SgfError::TooDeep(place) => write!(f, "too deep at byte {place}"),
            SgfError::Memory => f.write_str("out of memory"),
            SgfError::TooLong => f.write_str("record too long"),
        }
    }
}

impl From<AllocError> for SgfError {
    ghost use Rattle.go_sgf.specs.declared.error.SgfError.TheVariants.{Memory};

    ghost from_gives = { λ _ error. error ≡ Memory };

    fn from(_: AllocError) -> SgfError {
        SgfError::Memory
    }
}

/// Why reading stops. Unlike those of `SgfError`, its numbers count the bytes that are left there.
#[derive(Clone, Copy)]
pub(crate) enum ReadError {
    Memory,
    /// The text ends inside of a tree.
    End,
    /// A byte that nothing allows.
    Stray(usize),
    /// A `(` that is nested too deep.
    Deep(usize),
}

impl From<AllocError> for ReadError {
    ghost use Rattle.go_sgf.specs.declared.error.ReadError.TheVariants.{Memory};

    ghost from_gives = { λ _ fault. fault ≡ Memory };

    fn from(_: AllocError) -> ReadError {
        ReadError::Memory
    }
}

impl<T: Drop> From<AllocFailed<T>> for ReadError {
    ghost use Rattle.go_sgf.specs.declared.error.ReadError.TheVariants.{Memory};

    ghost from_gives = { λ _ fault. fault ≡ Memory };

    fn from(_: AllocFailed<T>) -> ReadError {
        ReadError::Memory
    }
}
