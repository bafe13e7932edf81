ghost use Rattle.std.specs.Prelude.{IfSome, IsErrOf, OnOk};
ghost use Rattle.go_record.specs.declared.error.RecordError.{RecordError};
ghost use Rattle.go_sgf.specs.declared.error.SgfError.{SgfError};
ghost use Rattle.goref_tools.specs.Tidying.{BeginsToTidy, Tidies};
ghost use Rattle.goref_tools.specs.Tools.{Refuses, UsesDevices};
ghost use Rattle.goref_tools.specs.declared.error.ToolError.TheVariants.{Record, Sgf, Write};

use crate::error::ToolError;
use crate::flushing::flush;
use crate::input::read_input;
use go_board::{Sink, Source, WriteFault};
use go_sgf::{check, tidy};
use std::alloc::Allocator;

/// Reads a record up to the end of the input, and writes its canonical spelling. If the input is too long for
/// a record, the tool stops one byte past the largest record, and refuses the input. Nothing is written
/// before the whole record was read. The tool flushes the writer once, after the last byte.
///
/// # Errors
///
/// `Read` and `Write` where a device failed; `Sgf` where the input is no record; `Memory` where there was
/// none for the input. Never `Record`: the game isn't replayed. After any error but `Write` nothing was
/// written.
pub fn tidy_run<A: Allocator + Copy, R: Source, W: Sink>(
    alloc: A,
    reader: &mut R,
    writer: &mut W,
) -> Result<(), ToolError>
    ensures ok { OnOk result (IfSome (R.left reader.old)
        (λ input. Tidies input (W.taken writer.old) (W.taken writer.new))) }
    ensures refused { (why : SgfError) → IsErrOf result (Sgf why)
        → Refuses (R.left reader.old) why }
    ensures no_game_refused { (why : RecordError) → ¬ IsErrOf result (Record why) }
    ensures write { IsErrOf result Write → IfSome (R.left reader.old)
        (λ input. BeginsToTidy input (W.taken writer.old) (W.taken writer.new)) }
    ensures devices { UsesDevices R.Source W.Sink result reader.old reader.new writer.old writer.new }
{
    let text = read_input(alloc, reader)?;
    let checked = check(text.as_slice())?;
    match tidy(&checked, writer) {
        Ok(()) => flush(writer),
        Err(WriteFault) => Err(ToolError::Write),
    }
}
