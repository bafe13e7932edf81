//! Tests of the protocol: lines, and the answers that they must have.
//!
//! - `scripts`: rows of lines and answers; a command's row goes here
//! - `kept_lines`: what is kept of a line, and the answers to such lines
//! - `plays_and_choices`: rows of plays, legal plays and choices
//! - `handicaps`: rows of handicaps and of time commands
//! - `superko`: rows of `goref-superko`
//! - `boards`: rows of diagrams, chains and scores
//! - `loads`: rows of `loadsgf`
//! - `refused_loads`: a refused `loadsgf` leaves the game
//! - `matches`: a whole game against a small opponent
//! - `undo_boards`: after each `undo` the board is the earlier one
//! - `texts_of_lines`: texts of several lines, answered over one session
//! - `answer_pieces`: the pieces in which an answer is written
//! - `flushes`: what a run flushes, and how often it reads
//! - `faults`: each read, write and flush of a script fails in turn
//! - `refused_memory`: each request for memory of a script is refused in turn
//! - `with_memory`: no line is answered `out of memory` where there is enough
//! - `memory_bounds`: lines ask for no more bytes than a bound
//! - `laws`: a call of each law
//! - `help`: what several files need
#![tactic(auto)]

#[cfg(test)]
mod answer_pieces;
#[cfg(test)]
mod boards;
#[cfg(test)]
mod faults;
#[cfg(test)]
mod flushes;
#[cfg(test)]
mod handicaps;
#[cfg(test)]
mod help;
#[cfg(test)]
mod kept_lines;
#[cfg(test)]
mod laws;
#[cfg(test)]
mod loads;
#[cfg(test)]
mod matches;
#[cfg(test)]
mod memory_bounds;
#[cfg(test)]
mod plays_and_choices;
#[cfg(test)]
mod refused_loads;
#[cfg(test)]
mod refused_memory;
#[cfg(test)]
mod scripts;
#[cfg(test)]
mod superko;
#[cfg(test)]
mod texts_of_lines;
#[cfg(test)]
mod undo_boards;
#[cfg(test)]
mod with_memory;
