//! The results in the responses about a game: the score, the diagram, the chains, the places of handicap
//! stones and the legal plays. Each is written after a space, as in a response.
#![tactic(auto)]

mod chain_lines;
mod diagram;
pub mod laws;
mod marks;
mod plays;
mod point_text;
mod results;

pub use chain_lines::put_chains;
pub use marks::Plays;
pub use plays::{legal_plays, put_plays};
pub use results::{put_board, put_places, put_score};
