//! The command line: the words of the program, and the task that they name.
#![tactic(auto)]

mod task;

pub use task::{Task, task_of};
