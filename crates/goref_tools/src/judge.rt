ghost use Rattle.std.specs.Prelude.{IfSome, IsErrOf, OnOk};
ghost use Rattle.go_record.specs.declared.error.RecordError.{RecordError};
ghost use Rattle.go_sgf.specs.declared.error.SgfError.{SgfError};
ghost use Rattle.goref_tools.specs.Judging.{BeginsToJudge, Judges};
ghost use Rattle.goref_tools.specs.Tools.{Refuses, RefusesGame, UsesDevices};
ghost use Rattle.goref_tools.specs.declared.error.ToolError.TheVariants.{Record, Sgf, Write};

use crate::error::ToolError;
use crate::flushing::flush;
use crate::input::read_input;
use crate::verdict_lines::write_verdict;
use go_board::{Sink, Source, WriteFault};
use go_record::judge_source;
use go_sgf::check;
use std::alloc::Allocator;

/// Reads a record up to the end of the input, and writes the verdict on it in three lines: how many moves its
/// main line has, the score after them, and whether the record states that score. If the input is too long
/// for a record, the tool stops one byte past the largest record, and refuses the input. Nothing is written
/// before the whole verdict is there. The tool flushes the writer once, after the last byte.
///
/// # Errors
///
/// `Read` and `Write` where a device failed; `Sgf` where the input is no record, and `Record` where the
/// record has no game; `Memory` where there was none for the record or its game. After any error but `Write`
/// nothing was written.
pub fn judge_run<A: Allocator + Copy, R: Source, W: Sink>(
    alloc: A,
    reader: &mut R,
    writer: &mut W,
) -> Result<(), ToolError>
    ensures ok { OnOk result (IfSome (R.left reader.old)
        (λ input. Judges input (W.taken writer.old) (W.taken writer.new))) }
    ensures refused { (why : SgfError) → IsErrOf result (Sgf why)
        → Refuses (R.left reader.old) why }
    ensures game_refused { (why : RecordError) → IsErrOf result (Record why)
        → RefusesGame (R.left reader.old) why }
    ensures write { IsErrOf result Write → IfSome (R.left reader.old)
        (λ input. BeginsToJudge input (W.taken writer.old) (W.taken writer.new)) }
    ensures devices { UsesDevices R.Source W.Sink result reader.old reader.new writer.old writer.new }
{
    let text = read_input(alloc, reader)?;
    let checked = check(text.as_slice())?;
    let verdict = judge_source(alloc, &checked)?;
    match write_verdict(verdict, writer) {
        Ok(()) => flush(writer),
        Err(WriteFault) => Err(ToolError::Write),
    }
}
