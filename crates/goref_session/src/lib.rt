//! The engine's side of the Go Text Protocol: it decides on a line, and writes the answer, which the protocol
//! calls a response.
#![tactic(auto)]

mod answer;
mod arguments;
mod command;
mod commands;
mod decision;
mod facts;
mod fetched;
mod flow;
pub mod laws;
mod loading;
mod second;
mod session;

pub use fetched::{Fetched, wants};
pub use flow::Flow;
pub use session::Session;
