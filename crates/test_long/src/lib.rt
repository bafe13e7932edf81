//! Tests of long use, with more than 65,536 moves.
//!
//! - `long_games`: plays, undos and the memory that they take
//! - `long_records`: replays and verdicts
#![tactic(auto)]

#[cfg(test)]
mod long_games;
#[cfg(test)]
mod long_records;
