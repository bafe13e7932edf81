ghost use Rattle.std.specs.Prelude.{◌≡◌, ◌≢◌, ◌⊎◌, ◌<◌, ◌↔◌, []};
ghost use Rattle.go_board.specs.declared.size.TheConstants.{MAX_LINES};
ghost use Rattle.goref_c.specs.Ends.{IsText, ShowsAnswers, ShowsNoMemory};

use crate::devices::TextWriter;
use crate::files::OneFile;
use crate::room::show;
use go_board::{Size, WriteFault};
use goref::{Session, answer_lines};
use std::alloc::Allocator;

/// Puts the answers to lines into a room, and gives the status.
pub(crate) fn answers<A: Allocator + Copy>(
    alloc: A,
    lines: u8,
    text: &[u8],
    room: &mut [u8],
    length: &mut usize,
) -> u8
    ensures done { result ≡ 0 → ShowsAnswers lines text.now room.old room.new length.new }
    ensures size { (result ≡ 2) ↔ ((lines ≡ 0) ⊎ (MAX_LINES < lines)) }
    ensures no_text { result ≡ 2 → IsText [] room.old room.new length.new }
    ensures fault { result ≢ 0 → result ≢ 2
        → (result ≡ 3) × ShowsNoMemory room.old room.new length.new }
{
    let Some(size) = Size::new(lines) else {
        show(b"", room, length);
        return 2;
    };
    let mut session = Session::new(alloc, size);
    let mut writer = TextWriter::new(alloc);
    let mut shelf = OneFile::new(alloc, None);
    match answer_lines(&mut session, text, &mut writer, &mut shelf) {
        Ok(_) => {
            show(writer.bytes(), room, length);
            0
        }
        Err(WriteFault) => {
            show(b"out of memory", room, length);
            3
        }
    }
}
