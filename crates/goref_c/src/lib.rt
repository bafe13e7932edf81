//! goref for other languages: functions from bytes to bytes, which keep nothing between calls, and sessions
//! by handles, which do.
//!
//! A text goes into a room of the caller's, as far as it fits, and the text's whole length into a
//! place of the caller's. `include/goref.h` says what each status means.
#![tactic(auto)]

ghost use Rattle.std.specs.Prelude.{◌≡◌, ◌≢◌, ◌⊎◌, ◌<◌, ◌≤◌, ◌↔◌, [], None, Some};
ghost use Rattle.go_board.specs.declared.size.TheConstants.{MAX_LINES};
ghost use Rattle.goref_c.specs.Calls.{Chooses, IsLegalOn, IsTold, Plays, SetsKomi, SetsRule, ShowsBoard, ShowsLegal, TellsArea, TellsScore, Undoes};
ghost use Rattle.goref_c.specs.Ends.{IsText, ShowsAnswers, ShowsGameRefusal, ShowsNoMemory, ShowsRefusal, ShowsTidied, ShowsVerdict};
ghost use Rattle.goref_c.specs.NextGame.{ShowsBrokenTree, ShowsNoTree, ShowsTree};
ghost use Rattle.goref_c.specs.Sessions.{ComesTo, ShowsAnswered, ShowsWanted, fresh};

mod calls;
mod devices;
mod files;
mod games;
mod handle;
mod held;
mod loose;
mod room;
mod said;
mod session;
mod sessions;
mod tools;

use handle::Handle;
use std::alloc::Global;

/// The answers to lines of the Go Text Protocol, on a board of `lines` lines. There are no files. The status
/// is 0, or 2 where no board has that many lines, or 3 where there was no memory.
#[unsafe(no_mangle)]
pub extern "C" fn goref_answers(
    alloc: Global,
    lines: u8,
    text: &[u8],
    room: &mut [u8],
    length: &mut usize,
) -> u8
    ensures done { result ≡ 0 → ShowsAnswers lines text.now room.old room.new length.new }
    ensures size { (result ≡ 2) ↔ ((lines ≡ 0) ⊎ (MAX_LINES < lines)) }
    ensures no_text { result ≡ 2 → IsText [] room.old room.new length.new }
    ensures fault { result ≢ 0 → result ≢ 2
        → (result ≡ 3) × ShowsNoMemory room.old room.new length.new }
{
    session::answers(alloc, lines, text, room, length)
}

/// The canonical spelling of a record. The status is 0, or 1 where the source is no record, or 3
/// where there was no memory.
#[unsafe(no_mangle)]
pub extern "C" fn goref_tidy(
    alloc: Global,
    source: &[u8],
    room: &mut [u8],
    length: &mut usize,
) -> u8
    ensures done { result ≡ 0 → ShowsTidied source.now room.old room.new length.new }
    ensures refused { result ≡ 1 → ShowsRefusal source.now room.old room.new length.new }
    ensures fault { result ≢ 0 → result ≢ 1
        → (result ≡ 3) × ShowsNoMemory room.old room.new length.new }
{
    tools::tidy(alloc, source, room, length)
}

/// The three lines of the verdict on a record. The status is 0, or 1 where the source is no record
/// or its record has no game, or 3 where there was no memory.
#[unsafe(no_mangle)]
pub extern "C" fn goref_judge(
    alloc: Global,
    source: &[u8],
    room: &mut [u8],
    length: &mut usize,
) -> u8
    ensures done { result ≡ 0 → ShowsVerdict source.now room.old room.new length.new }
    ensures refused { result ≡ 1 → ShowsRefusal source.now room.old room.new length.new
        ⊎ ShowsGameRefusal source.now room.old room.new length.new }
    ensures fault { result ≢ 0 → result ≢ 1
        → (result ≡ 3) × ShowsNoMemory room.old room.new length.new }
{
    tools::judge(alloc, source, room, length)
}

/// Where the first game tree that begins at `from` or later begins and ends. The status is 0, or 1 where no
/// tree begins from there on, or 2 where that tree is broken. No memory is taken.
#[unsafe(no_mangle)]
pub extern "C" fn goref_next_game(
    source: &[u8],
    from: usize,
    begin: &mut usize,
    end: &mut usize,
) -> u8
    ensures statuses { result ≤ 2 }
    ensures found { result ≡ 0 → ShowsTree source.now from begin.new end.new }
    ensures none { result ≡ 1 → ShowsNoTree source.now from begin.new end.new }
    ensures broken { result ≡ 2 → ShowsBrokenTree source.now from begin.new end.new }
{
    games::next_game(source, from, begin, end)
}

/// Opens a session on a board of `lines` lines, and puts it into a handle. The session that was there is
/// closed. The status is 0, or 2 where no board has that many lines, or 3 where there was no memory. After 2
/// and 3 the handle is as it was.
#[unsafe(no_mangle)]
pub extern "C" fn goref_open(alloc: Global, lines: u8, handle: &mut Handle) -> u8
    ensures done { result ≡ 0 → handle.new.value ≡ Some (fresh lines) }
    ensures size { (result ≡ 2) ↔ ((lines ≡ 0) ⊎ (MAX_LINES < lines)) }
    ensures fault { result ≢ 0 → result ≢ 2 → result ≡ 3 }
    ensures stays { result ≢ 0 → handle.new.value ≡ handle.old.value }
{
    sessions::open(alloc, lines, handle)
}

/// Answers the lines of a text over the session of a handle, which keeps the answers. Lines get no file. The
/// status is 0, or 1 where `quit` was answered, now or before, or 3 where there was no memory for an answer,
/// or 4 where the handle has no session.
#[unsafe(no_mangle)]
pub extern "C" fn goref_send(
    alloc: Global,
    handle: &mut Handle,
    text: &[u8],
    length: &mut usize,
) -> u8
    ensures { ComesTo result None text.now handle.old.value handle.new.value length.new }
{
    sessions::send(alloc, handle, text, None, length)
}

/// As `goref_send`, where each line that asks for a file gets this one.
#[unsafe(no_mangle)]
pub extern "C" fn goref_give(
    alloc: Global,
    handle: &mut Handle,
    text: &[u8],
    file: &[u8],
    length: &mut usize,
) -> u8
    ensures { ComesTo result (Some file.now) text.now handle.old.value handle.new.value length.new }
{
    sessions::send(alloc, handle, text, Some(file), length)
}

/// The name of the file that the first line of a text asks for. The status is 0, or 1 where it asks for none.
#[unsafe(no_mangle)]
pub extern "C" fn goref_wants(text: &[u8], room: &mut [u8], length: &mut usize) -> u8
    ensures { ShowsWanted result text.now room.old room.new length.new }
{
    sessions::wanted(text, room, length)
}

/// The answers to the last text. The status is 0, or 4 where the handle has no session.
#[unsafe(no_mangle)]
pub extern "C" fn goref_take(
    alloc: Global,
    handle: &mut Handle,
    room: &mut [u8],
    length: &mut usize,
) -> u8
    ensures stays { handle.new.value ≡ handle.old.value }
    ensures shown { ShowsAnswered result handle.old.value room.old room.new length.new }
{
    sessions::take(alloc, handle, room, length)
}

/// Plays a move on the game of a session: `play` without text. The room gets what the play says of itself.
#[unsafe(no_mangle)]
pub extern "C" fn goref_play(
    alloc: Global,
    handle: &mut Handle,
    colour: u8,
    point: u16,
    played: &mut [u8],
) -> u8
    ensures { Plays result colour point handle.old.value handle.new.value played.old played.new }
{
    calls::play(alloc, handle, colour, point, played)
}

/// Takes so many moves back, or none where there are fewer. It takes no memory.
#[unsafe(no_mangle)]
pub extern "C" fn goref_undo(alloc: Global, handle: &mut Handle, count: usize) -> u8
    ensures { Undoes result count handle.old.value handle.new.value }
{
    calls::undo(alloc, handle, count)
}

/// Whether a move is legal.
#[unsafe(no_mangle)]
pub extern "C" fn goref_is_legal(alloc: Global, handle: &mut Handle, colour: u8, point: u16) -> u8
    ensures stays { handle.new.value ≡ handle.old.value }
    ensures told { IsLegalOn result colour point handle.old.value }
{
    calls::is_legal(alloc, handle, colour, point)
}

/// Whether each point is a legal play of a colour.
#[unsafe(no_mangle)]
pub extern "C" fn goref_legal(
    alloc: Global,
    handle: &mut Handle,
    colour: u8,
    room: &mut [u8],
    length: &mut usize,
) -> u8
    ensures stays { handle.new.value ≡ handle.old.value }
    ensures shown { ShowsLegal result colour handle.old.value room.old room.new length.new }
{
    calls::legal(alloc, handle, colour, room, length)
}

/// The score: Black's margin in hundredths of a point.
#[unsafe(no_mangle)]
pub extern "C" fn goref_score(alloc: Global, handle: &mut Handle, hundredths: &mut i64) -> u8
    ensures stays { handle.new.value ≡ handle.old.value }
    ensures told { IsTold result handle.old.value (TellsScore hundredths.new) }
{
    calls::score(alloc, handle, hundredths)
}

/// The points of each colour.
#[unsafe(no_mangle)]
pub extern "C" fn goref_area(
    alloc: Global,
    handle: &mut Handle,
    black: &mut u16,
    white: &mut u16,
) -> u8
    ensures stays { handle.new.value ≡ handle.old.value }
    ensures told { IsTold result handle.old.value (TellsArea black.new white.new) }
{
    calls::area(alloc, handle, black, white)
}

/// The colour of each point.
#[unsafe(no_mangle)]
pub extern "C" fn goref_board(
    alloc: Global,
    handle: &mut Handle,
    room: &mut [u8],
    length: &mut usize,
) -> u8
    ensures stays { handle.new.value ≡ handle.old.value }
    ensures shown { ShowsBoard result handle.old.value room.old room.new length.new }
{
    calls::board(alloc, handle, room, length)
}

/// What `reg_genmove` answers for a colour.
#[unsafe(no_mangle)]
pub extern "C" fn goref_choose(
    alloc: Global,
    handle: &mut Handle,
    colour: u8,
    point: &mut u16,
) -> u8
    ensures stays { handle.new.value ≡ handle.old.value }
    ensures told { Chooses result point.new colour handle.old.value }
{
    calls::choose(alloc, handle, colour, point)
}

/// Sets the komi in hundredths of a point.
#[unsafe(no_mangle)]
pub extern "C" fn goref_set_komi(alloc: Global, handle: &mut Handle, hundredths: i64) -> u8
    ensures { SetsKomi result hundredths handle.old.value handle.new.value }
{
    calls::set_komi(alloc, handle, hundredths)
}

/// Sets the superko rule, while there is no move: 0 for the positional one, 1 for the situational one.
#[unsafe(no_mangle)]
pub extern "C" fn goref_set_superko(alloc: Global, handle: &mut Handle, superko: u8) -> u8
    ensures { SetsRule result superko handle.old.value handle.new.value }
{
    calls::set_superko(alloc, handle, superko)
}

/// Closes the session of a handle, if there is one.
#[unsafe(no_mangle)]
pub extern "C" fn goref_close(alloc: Global, handle: &mut Handle)
    ensures { handle.new.value ≡ None }
{
    *handle = Handle::shut(alloc);
}

#[cfg(test)]
mod call_tests;
#[cfg(test)]
mod game_tests;
#[cfg(test)]
mod tests;
