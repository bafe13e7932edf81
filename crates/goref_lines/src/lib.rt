//! The lines of the Go Text Protocol: what is kept of a line, its words and what they ask for.
#![tactic(auto)]

mod gaps;
pub mod laws;
mod line;
mod request;
mod stones;
mod words;

pub use line::{LINE_LIMIT, Line};
pub use request::{Request, id_of_cut};
pub use stones::{ListError, read_stones};
pub use words::Words;
