//! Games of Go in records: a record's main line replayed and judged, and a game's record written.
//!
//! - [`replay`], [`replay_on`], [`RecordError`]: the game of a record, or why it has none.
//! - [`judge`], [`Verdict`], [`Stated`]: its score, and whether the record states that score.
//! - [`replay_source`], [`replay_source_on`], [`judge_source`]: the same of the record that a source
//!   spells, without lists of its parts.
//! - [`write_record`], [`put_record`]: the record of a game, which replays to it.
//!
//! The game of a record before its eleventh move:
//!
//! ```
//! let collection = read(rt.alloc(), source)?;
//! let game = replay(rt.alloc(), &collection, Some(11))?;
//! ```
//!
//! The promises are in the clauses of `replaying.rt`, `judging.rt` and `writer.rt`. Their words are in
//! `specs/`: `MainLine` defines the events of a main line, `Walks` and `Games` their outcome, `Verdicts` the
//! verdict, and `Records` the record of a game. `Laws` has what holds of all of them. Only the contracts of
//! private functions use `specs/inner/`.
#![tactic(auto)]

mod error;
mod judging;
mod kind;
pub mod laws;
mod moves;
mod replaying;
mod root;
mod start;
mod state;
mod values;
mod verdict;
mod walk;
mod writer;

pub use error::RecordError;
pub use judging::{judge, judge_source};
pub use replaying::{replay, replay_on, replay_source, replay_source_on};
pub use root::USUAL_LINES;
pub use verdict::{Stated, Verdict};
pub use writer::{put_record, write_record};
