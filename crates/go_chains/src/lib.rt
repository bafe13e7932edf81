//! A board that keeps its chains and their liberties in fixed tables. A play changes them in place,
//! and a log of those changes takes it back cell by cell.
//!
//! - [`Board`]: the stones, and what a caller may ask of them, of their chains, and of a stone that
//!   would take nothing.
//! - [`Log`]: the changes of the plays, from which [`Board::rewind`] takes the last play back.
//! - [`Taken`], [`PlaceError`]: what a play took, and why a stone can't be placed.
//! - [`ChainPoints`]: the stones of a chain, or its liberties, one after another.
//! - [`Change`] and [`CELLS`]: a write to a cell and the number of cells, of which contracts speak.
//!
//! A play, and how it is taken back, on a board of 9 lines:
//!
//! ```
//! let size = Size::new(9).expect(&rt, "a size");
//! let p = Point::numbered(size, 40);
//! let mut board = Board::new(size);
//! let mut log = Log::new(rt.alloc());
//! let mut meter = Meter::new();
//! let taken = board.play(&mut log, &mut meter, Colour::Black, p)?;
//! board.rewind(&mut log, &mut meter);
//! ```
//!
//! What is promised is in the clauses of `board.rt`, the files of `board/` and `log.rt`, and, as a
//! law of whole logs, in `laws.rt`. Their words are in `specs/`: `Boards` says what the colours of a
//! board are, `Sound` when its tables are right, `Playing` what a play takes and how many changes it
//! may make, and `Rewound` what putting changes back gives. What `specs/inner/` defines serves
//! private functions alone.
#![tactic(auto)]

mod beside;
mod board;
mod capture;
mod cells;
mod chain_points;
mod change;
mod connect;
mod edits;
mod error;
mod join;
pub mod laws;
mod lift;
mod log;
mod marks;
mod masks;
mod numbers;
mod occupy;
mod packed_colours;
mod place;
mod quiet;
mod trace;

pub use board::Board;
pub use cells::CELLS;
pub use chain_points::ChainPoints;
pub use change::Change;
pub use error::PlaceError;
pub use go_board::Taken;
pub use log::Log;

/// The earlier name of [`CELLS`].
pub const COUNT: usize = CELLS;
