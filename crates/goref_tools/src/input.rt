ghost use Rattle.std.specs.Prelude.{◌≡◌, ◌≤◌, ◌+◌, ◌⊎◌, IfErr, IfOk};
ghost use Rattle.goref_tools.specs.Tools.{IsInput, Reads, read_failures_after};
ghost use Rattle.goref_tools.specs.declared.error.ToolError.TheVariants.{Memory, Read};

use crate::error::ToolError;
use go_board::{Failed, Source};
use go_sgf::MAX_RECORD;
use std::alloc::Allocator;

/// The most bytes of one read of an input.
pub const CHUNK: usize = 4_096;

/// All bytes of a device up to its end. If they are more than a record may have, the first `MAX_RECORD + 1`
/// bytes.
///
/// # Errors
///
/// `Read` where the device failed, and `Memory` where there was none for the bytes.
pub fn read_input<A: Allocator + Copy, R: Source>(
    alloc: A,
    reader: &mut R,
) -> Result<Vec<u8, A>, ToolError>
    ensures input { IfOk result
        (λ bytes. IsInput bytes.items (R.left reader.old) (R.left reader.new)) }
    ensures refused { IfErr result (λ error. (error ≡ Read) ⊎ (error ≡ Memory)) }
    ensures reads { Reads (R.left reader.old) (R.left reader.new) }
    ensures pulls { R.pulls reader.new ≤ R.pulls reader.old + MAX_RECORD + 2 }
    ensures failures { R.failures reader.new ≡ read_failures_after result
        (R.failures reader.old) }
    ensures one_end { R.ends reader.new ≤ R.ends reader.old + 1 }
{
    let mut bytes = Vec::new(alloc);
    let mut buffer = [0u8; CHUNK];
    while bytes.len() <= MAX_RECORD {
        let room = (MAX_RECORD + 1 - bytes.len()).min(buffer.len());
        let count = match reader.pull(buffer.split_at_mut(room).0) {
            Ok(count) => count,
            Err(Failed) => return Err(ToolError::Read),
        };
        if count == 0 {
            break;
        }
        bytes.extend_from_slice(buffer.split_at(count).0)?;
    }
    Ok(bytes)
}
