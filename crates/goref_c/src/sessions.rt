//! Sessions by handles.
ghost use Rattle.std.specs.Prelude.{◌≡◌, ◌≢◌, ◌⊎◌, ◌<◌, ◌↔◌, None, Some};
ghost use Rattle.go_board.specs.declared.size.TheConstants.{MAX_LINES};
ghost use Rattle.goref_c.specs.Ends.{IsText};
ghost use Rattle.goref_c.specs.Files.{bytes_of};
ghost use Rattle.goref_c.specs.Sessions.{ComesTo, ShowsAnswered, ShowsWanted, fresh, line_at_start};

use crate::handle::Handle;
use crate::held::Held;
use crate::room::show;
use go_board::{Size, WriteFault};
use goref::{Flow, Line, wants};
use memchr::memchr;
use std::alloc::Global;
use std::mem;

/// Puts a new session on a board of this many lines into a handle, and returns the status.
pub(crate) fn open(alloc: Global, lines: u8, handle: &mut Handle) -> u8
    ensures done { result ≡ 0 → handle.new.value ≡ Some (fresh lines) }
    ensures size { (result ≡ 2) ↔ ((lines ≡ 0) ⊎ (MAX_LINES < lines)) }
    ensures fault { result ≢ 0 → result ≢ 2 → result ≡ 3 }
    ensures stays { result ≢ 0 → handle.new.value ≡ handle.old.value }
{
    let Some(size) = Size::new(lines) else {
        return 2;
    };
    match Box::new(alloc, Held::new(alloc, size)) {
        Ok(held) => {
            *handle = Handle::of_box(held);
            0
        }
        Err(_) => 3,
    }
}

/// Sends a text, and a file for the lines that ask for one, to the session of a handle. Returns the length of
/// the answers and the status.
pub(crate) fn send(
    alloc: Global,
    handle: &mut Handle,
    text: &[u8],
    file: Option<&[u8]>,
    length: &mut usize,
) -> u8
    ensures { ComesTo result (bytes_of file.entry) text.now handle.old.value handle.new.value length.new }
{
    let Some(mut held) = mem::replace(handle, Handle::shut(alloc)).into_box() else {
        *length = 0;
        return 4;
    };
    let end = held.send(text, file);
    *length = held.answers().len();
    *handle = Handle::of_box(held);
    match end {
        Ok(Flow::More) => 0,
        Ok(Flow::Quit) => 1,
        Err(WriteFault) => 3,
    }
}

/// Puts the answers to the last text into a room, and gives the status.
pub(crate) fn take(alloc: Global, handle: &mut Handle, room: &mut [u8], length: &mut usize) -> u8
    ensures stays { handle.new.value ≡ handle.old.value }
    ensures shown { ShowsAnswered result handle.old.value room.old room.new length.new }
{
    let Some(held) = mem::replace(handle, Handle::shut(alloc)).into_box() else {
        show(b"", room, length);
        return 4;
    };
    show(held.answers(), room, length);
    *handle = Handle::of_box(held);
    0
}

/// Puts the name of the file that the first line of a text asks for into a room, and returns the status.
pub(crate) fn wanted(text: &[u8], room: &mut [u8], length: &mut usize) -> u8
    ensures { ShowsWanted result text.now room.old room.new length.new }
{
    let line = Line::of(first_line(text));
    match wants(&line) {
        Some(name) => {
            show(name, room, length);
            0
        }
        None => {
            show(b"", room, length);
            1
        }
    }
}

/// The bytes of a text before its first line end.
fn first_line(text: &[u8]) -> &[u8]
    ensures { result.now ≡ line_at_start text.now }
{
    match memchr(b'\n', text) {
        Some(end) => text.split_at(end).0,
        None => text,
    }
}
