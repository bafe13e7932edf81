//! The faults of the tools, with the text and the exit status of each.
ghost use Rattle.std.specs.Prelude.{◌≡◌};
ghost use Rattle.goref_tools.specs.Tools.{tool_error_of_record, tool_error_of_sgf, status_of};
ghost use Rattle.goref_tools.specs.declared.error.ToolError.TheVariants.{Memory};

use go_record::RecordError;
use go_sgf::SgfError;
use std::alloc::AllocError;
use std::error::Error;
use std::fmt;

/// Why a tool didn't do its task.
#[derive(Clone, Copy, Debug, PartialEq, Eq)]
pub enum ToolError {
    /// The input is no record. Lack of memory in reading it is [`ToolError::Memory`].
    Sgf(SgfError),
    /// The record has no game. Lack of memory in replaying it is [`ToolError::Memory`].
    Record(RecordError),
    /// A read failed.
    Read,
    /// A write or a flush failed, or a write took no byte.
    Write,
    /// There was no memory for the record or its game.
    Memory,
}

impl ToolError {
    /// The exit status for it: 1 for a refused record, 3 for a device that fails or lack of memory.
    pub fn status(&self) -> u8
        ensures { result ≡ status_of self.now }
    {
        match self {
            ToolError::Sgf(SgfError::Memory) | ToolError::Record(RecordError::Memory) => 3,
            ToolError::Sgf(_) | ToolError::Record(_) => 1,
            ToolError::Read | ToolError::Write | ToolError::Memory => 3,
        }
    }
}

impl Error for ToolError {}

impl fmt::Display for ToolError {
    ghost use Rattle.std.specs.Prelude.{Some};
    ghost use Rattle.goref_tools.specs.Tools.{tool_error_text};

    ghost output = { λ why. Some (tool_error_text why) };

    fn fmt<W: fmt::Write>(&self, f: &mut fmt::Formatter<W>) -> Result<(), fmt::Error> {
        match self {
            ToolError::Sgf(why) => write!(f, "{why}"),
            ToolError::Record(why) => write!(f, "{why}"),
            ToolError::Read => f.write_str("read fault"),
            ToolError::Write => f.write_str("write fault"),
            ToolError::Memory => f.write_str("out of memory"),
        }
    }
}

impl From<AllocError> for ToolError {
    ghost from_gives = { λ _ error. error ≡ Memory };

    fn from(_: AllocError) -> ToolError {
        ToolError::Memory
    }
}

impl From<SgfError> for ToolError {
    ghost from_gives = { λ why error. error ≡ tool_error_of_sgf why };

    fn from(why: SgfError) -> ToolError {
        match why {
            SgfError::Memory => ToolError::Memory,
            other => ToolError::Sgf(other),
        }
    }
}

impl From<RecordError> for ToolError {
    ghost from_gives = { λ why error. error ≡ tool_error_of_record why };

    fn from(why: RecordError) -> ToolError {
        match why {
            RecordError::Memory => ToolError::Memory,
            other => ToolError::Record(other),
        }
    }
}
