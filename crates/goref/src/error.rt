use std::error::Error;
use std::fmt;

/// Why a run did not reach the end of its session.
#[derive(Clone, Copy, Debug, PartialEq, Eq)]
pub enum RunError {
    /// A read failed.
    Read,
    /// A write or a flush failed, or a write took no byte.
    Write,
    /// The input had no end within the reads that the run may make.
    Endless,
}

impl Error for RunError {}

impl fmt::Display for RunError {
    ghost use Rattle.std.specs.Prelude.{Some};
    ghost use Rattle.goref.specs.Runs.{run_error_text};

    ghost output = { λ why. Some (run_error_text why) };

    fn fmt<W: fmt::Write>(&self, f: &mut fmt::Formatter<W>) -> Result<(), fmt::Error> {
        match self {
            RunError::Read => f.write_str("read fault"),
            RunError::Write => f.write_str("write fault"),
            RunError::Endless => f.write_str("input without end"),
        }
    }
}
