//! Tests of boards, chain tables, histories and games, through public calls: worked examples, random
//! games beside the plain body, and refused requests for memory.
//!
//! - `grids`: worked examples of sizes, points, vertices and areas, on grids
//! - `packs`: equal grids have equal packs and hashes
//! - `chain_examples`: worked examples of chains, liberties and captures, on boards of `go_chains`
//! - `chains`: random plays on boards of `go_chains`, beside grids
//! - `histories`: which earlier position a history finds, and how much memory it takes
//! - `games`: worked examples of games and of positions to start from; an example of a rule goes here
//! - `situations`: worked examples by the situational rule
//! - `first_seen`: after how many moves a superko rule saw a position first
//! - `choices`: worked examples of the chosen move and of legal moves
//! - `drawn_games`: random games, beside the plain body of a game
//! - `refused_memory`: each request for memory is refused in turn
//! - `memory_bounds`: calls ask for no more bytes than a bound
//! - `error_texts`: the texts of errors
//! - `laws`: a call of each law
//! - `help`: what several files need
#![tactic(auto)]

#[cfg(test)]
mod chain_examples;
#[cfg(test)]
mod chains;
#[cfg(test)]
mod choices;
#[cfg(test)]
mod drawn_games;
#[cfg(test)]
mod error_texts;
#[cfg(test)]
mod first_seen;
#[cfg(test)]
mod games;
#[cfg(test)]
mod grids;
#[cfg(test)]
mod help;
#[cfg(test)]
mod histories;
#[cfg(test)]
mod laws;
#[cfg(test)]
mod memory_bounds;
#[cfg(test)]
mod packs;
#[cfg(test)]
mod refused_memory;
#[cfg(test)]
mod situations;
