ghost use Rattle.std.specs.Prelude.{◌≡◌, IfErr, OnOk};
ghost use Rattle.goref_tools.specs.Tools.{write_failures_after};
ghost use Rattle.goref_tools.specs.declared.error.ToolError.TheVariants.{Write};

use crate::error::ToolError;
use go_board::{Failed, Sink};

/// Flushes the writer.
pub fn flush<W: Sink>(writer: &mut W) -> Result<(), ToolError>
    ensures bytes { W.taken writer.new ≡ W.taken writer.old }
    ensures passed { OnOk result (W.held writer.new ≡ 0) }
    ensures error { IfErr result (λ error. error ≡ Write) }
    ensures failures { W.failures writer.new ≡ write_failures_after result
        (W.failures writer.old) }
{
    match writer.flush() {
        Ok(()) => Ok(()),
        Err(Failed) => Err(ToolError::Write),
    }
}
