//! The tools for records, from a caller's bytes to a caller's room. The text of a fault goes into the same
//! room.
ghost use Rattle.std.specs.Prelude.{◌≡◌, ◌≢◌, ◌⊎◌};
ghost use Rattle.goref_c.specs.Ends.{IsText, ShowsGameRefusal, ShowsNoMemory, ShowsRefusal, ShowsTidied, ShowsVerdict};
ghost use Rattle.goref_tools.specs.Tools.{status_of, tool_error_text};

use crate::devices::{TextReader, TextWriter};
use crate::room::show;
use go_board::WriteFault;
use goref_tools::{ToolError, judge_run};
use std::alloc::Allocator;

/// Puts the canonical spelling of a record into a room, or why it is none, and gives the status.
pub(crate) fn tidy<A: Allocator + Copy>(
    alloc: A,
    source: &[u8],
    room: &mut [u8],
    length: &mut usize,
) -> u8
    ensures done { result ≡ 0 → ShowsTidied source.now room.old room.new length.new }
    ensures refused { result ≡ 1 → ShowsRefusal source.now room.old room.new length.new }
    ensures fault { result ≢ 0 → result ≢ 1
        → (result ≡ 3) × ShowsNoMemory room.old room.new length.new }
{
    let source = match go_sgf::check(source) {
        Ok(source) => source,
        Err(why) => return refuse(alloc, ToolError::Sgf(why), room, length),
    };
    let mut text = TextWriter::new(alloc);
    match go_sgf::tidy(&source, &mut text) {
        Ok(()) => {
            show(text.bytes(), room, length);
            0
        }
        Err(WriteFault) => refuse(alloc, ToolError::Memory, room, length),
    }
}

/// Puts the verdict on a record into a room, or why there is none, and gives the status.
pub(crate) fn judge<A: Allocator + Copy>(
    alloc: A,
    source: &[u8],
    room: &mut [u8],
    length: &mut usize,
) -> u8
    ensures done { result ≡ 0 → ShowsVerdict source.now room.old room.new length.new }
    ensures refused { result ≡ 1 → ShowsRefusal source.now room.old room.new length.new
        ⊎ ShowsGameRefusal source.now room.old room.new length.new }
    ensures fault { result ≢ 0 → result ≢ 1
        → (result ≡ 3) × ShowsNoMemory room.old room.new length.new }
{
    let mut reader = TextReader::new(source);
    let mut verdict = TextWriter::new(alloc);
    match judge_run(alloc, &mut reader, &mut verdict) {
        Ok(()) => {
            show(verdict.bytes(), room, length);
            0
        }
        Err(ToolError::Read | ToolError::Write) => refuse(alloc, ToolError::Memory, room, length),
        Err(why) => refuse(alloc, why, room, length),
    }
}

/// Puts the text of a fault into a room, and returns its status. If there is no memory for the text, the
/// status is that of lack of memory.
fn refuse<A: Allocator + Copy>(alloc: A, why: ToolError, room: &mut [u8], length: &mut usize) -> u8
    ensures { ((result ≡ status_of why)
        × IsText (tool_error_text why) room.old room.new length.new)
        ⊎ ((result ≡ 3) × ShowsNoMemory room.old room.new length.new) }
{
    match why.to_string(alloc) {
        Ok(text) => {
            show(text.as_bytes(), room, length);
            why.status()
        }
        Err(_) => {
            show(b"out of memory", room, length);
            3
        }
    }
}
