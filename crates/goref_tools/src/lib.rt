//! The tools for records: a record is read from a device, and its canonical spelling or the verdict
//! on it is written to one.
#![tactic(auto)]

mod error;
mod flushing;
mod input;
mod judge;
pub mod laws;
mod tidy;
mod verdict_lines;

pub use error::ToolError;
pub use input::{CHUNK, read_input};
pub use judge::judge_run;
pub use tidy::tidy_run;
