//! Tests of records, and of the two tools over them.
//!
//! - `records`: rows of records: what reads, writes and names values; a value or a refusal goes here
//! - `game_trees`: where each game tree of a text begins and ends
//! - `main_lines`: what a walk along a main line meets
//! - `drawn_records`: random records, beside their canonical spelling
//! - `record_corpus`: records of many kinds and lengths are read, judged and tidied
//! - `replays`: rows of records: their games, verdicts and refusals
//! - `judging`: the tool `judge`
//! - `tidying`: the tool `tidy`
//! - `reading_ends`: when the tools stop reading
//! - `with_memory`: no call runs out of memory where there is enough
//! - `memory_bounds`: calls ask for no more bytes than a bound
//! - `laws`: a call of each law
//! - `help`: what several files need
#![tactic(auto)]

#[cfg(test)]
mod drawn_records;
#[cfg(test)]
mod game_trees;
#[cfg(test)]
mod help;
#[cfg(test)]
mod judging;
#[cfg(test)]
mod laws;
#[cfg(test)]
mod main_lines;
#[cfg(test)]
mod memory_bounds;
#[cfg(test)]
mod reading_ends;
#[cfg(test)]
mod record_corpus;
#[cfg(test)]
mod records;
#[cfg(test)]
mod replays;
#[cfg(test)]
mod tidying;
#[cfg(test)]
mod with_memory;
