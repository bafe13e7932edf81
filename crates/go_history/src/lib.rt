//! After how many moves each position of a game first came, found by its key: the pack of its
//! colouring, and the colour to move where that tells positions apart.
//!
//! - [`Key`]: a position.
//! - [`History`]: the number of each key that was noted.
//!
//! A position that came after three moves is noted, unless an earlier one is there:
//!
//! ```
//! let mut history = History::new(rt.alloc(), start);
//! let earlier = history.note(&key, 3)?;
//! ```
//!
//! What is promised is in the clauses of `history.rt`, by the words of `specs/Histories` and
//! `specs/Keys`.
#![tactic(auto)]

mod entries;
mod far_keys;
mod hashed;
mod history;
mod key;
mod key_tree;

pub use history::History;
pub use key::Key;
