//! goref as a library: lines of the Go Text Protocol and their answers, whole runs of lines, the
//! tools for records, and the words of the program.
//!
//! - [`Session`]: answers a [`Line`] over its game; [`Flow`] says whether it goes on.
//! - [`wants`], [`Fetched`]: the file that a line names, and what was fetched for it.
//! - [`run`], [`run_within`]: read lines from a device, fetch the file that a line names from a [`Shelf`],
//!   write the answer, and only then read on. [`RunError`] says why a run broke off.
//! - [`answer_lines`]: answers the lines of a text over a session that goes on afterwards.
//! - [`tidy_run`], [`judge_run`]: write the canonical spelling of a record, and the verdict on it;
//!   [`ToolError`] says why not. [`read_input`] reads a whole input, up to a record's limit.
//! - [`task_of`], [`Task`]: what the program's words ask for.
//!
//! A line that is answered, and a whole run:
//!
//! ```
//! let size = Size::new(9).expect(&rt, "a size");
//! let mut session = Session::new(rt.alloc(), size);
//! session.answer(&Line::of(b"play b e5"), Fetched::None, &mut writer)?;
//! run(rt.alloc(), size, &mut reader, &mut writer, &mut shelf)?;
//! ```
//!
//! The promises are in the clauses of these calls. `specs/` has the definitions of runs, and exports what
//! callers need of the crates below, so that they can prove with them.
#![tactic(auto)]

mod error;
pub mod laws;
mod runs;
mod shelf;

pub use error::RunError;
pub use goref_cli::{Task, task_of};
pub use goref_lines::{LINE_LIMIT, Line};
pub use goref_session::{Fetched, Flow, Session, wants};
pub use goref_tools::{ToolError, judge_run, read_input, tidy_run};
pub use runs::{READS, answer_lines, run, run_within};
pub use shelf::Shelf;
