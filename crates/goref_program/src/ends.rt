//! The message at the end of a task, and the exit status.
ghost use Rattle.std.specs.Prelude.{◌≡◌};
ghost use Rattle.clap.specs.Values.{kind_of};
ghost use Rattle.goref_program.specs.Status.{IsStatusOfText, end_status, fault_status};

use goref::{RunError, ToolError};
use std::io::Write;
use thiserror::Error;

/// The exit status where the words are refused, or there is no memory for them.
pub const WORDS_REFUSED: u8 = 2;

/// The exit status where a stream fails or an input has no end. A tool ends with it also where memory lacks.
pub const DEVICE_OR_MEMORY: u8 = 3;

/// Why a task didn't reach its end.
#[derive(Clone, Copy, Debug, PartialEq, Eq, Error)]
pub enum Fault {
    /// A run of lines met a fault.
    #[error("{0}")]
    Run(RunError),
    /// A tool didn't do its task.
    #[error("{0}")]
    Tool(ToolError),
}

impl Fault {
    /// The exit status: 3 for a run. A tool's error has its own, 1 for a refused record and else 3.
    fn status(&self) -> u8
        ensures { result ≡ fault_status self.now }
    {
        match self {
            Fault::Run(_) => DEVICE_OR_MEMORY,
            Fault::Tool(why) => why.status(),
        }
    }
}

/// If there is a fault, writes it as one line. Returns the exit status.
pub fn report<E: Write>(end: Result<(), Fault>, errors: &mut E) -> u8
    ensures status { result ≡ end_status end }
    ensures silent { result ≡ 0 → errors.new ≡ errors.old }
{
    match end {
        Ok(()) => 0,
        Err(fault) => {
            let _ = writeln!(errors, "goref: {fault}");
            fault.status()
        }
    }
}

/// Writes why the words name no task, or the help or version that they ask for, and returns the exit status.
/// If it can't write the text that they ask for, it writes one line about the fault.
pub fn explain<O: Write, E: Write>(error: &clap::Error, output: &mut O, errors: &mut E) -> u8
    ensures status { IsStatusOfText (kind_of error.now) result }
    ensures silent { result ≡ 0 → errors.new ≡ errors.old }
{
    if error.use_stderr() {
        let _ = write!(errors, "{error}");
        return WORDS_REFUSED;
    }
    match show(error, output) {
        Ok(()) => 0,
        Err(_) => {
            let _ = writeln!(errors, "goref: write fault");
            DEVICE_OR_MEMORY
        }
    }
}

/// Writes a text that was asked for, whole.
fn show<O: Write>(error: &clap::Error, output: &mut O) -> std::io::Result<()> {
    write!(output, "{error}")?;
    output.flush()
}
