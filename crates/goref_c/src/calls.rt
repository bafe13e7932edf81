//! Calls without text, on the session of a handle.
ghost use Rattle.std.specs.Prelude.{◌≡◌, ◌*◌, ◌↔◌, if◌then◌else◌, IfSome, IsTrue, Some, length, take};
ghost use Rattle.go_board.specs.declared.size.TheConstants.{MAX_POINTS};
ghost use Rattle.go_board.specs.Grids.{stone_at};
ghost use Rattle.go_board.specs.Komi.{IsKomi};
ghost use Rattle.go_board.specs.Packs.{code_of, colour_coded};
ghost use Rattle.go_board.specs.Points.{IsOn};
ghost use Rattle.go_game.specs.Standings.{IsOccupied, present};
ghost use Rattle.goref_c.specs.Calls.{Chooses, ChoosesBy, IsLegalBy, IsLegalOn, IsTold, Plays, PlaysBy, SetsKomi, SetsRule, SetsRuleBy, ShowsBoard, ShowsLegal, ShowsLegalBy, TellsArea, TellsScore, Undoes, colours_told, marks_told, rule_numbered, vertex_numbered, with_standing};
ghost use Rattle.goref_c.specs.Ends.{IsText};

use crate::handle::Handle;
use crate::held::Held;
use crate::room::show;
use crate::said::Said;
use go_board::{Colour, MAX_POINTS, Move, Point, Size, Vertex};
use go_game::{Game, PlayError, Superko, laws};
use std::alloc::Global;
use std::mem;

/// The number of a pass. Points have smaller ones.
const PASS: u16 = 65_535;

/// The most hundredths of a point that a komi has, on either side.
const MOST_KOMI: i64 = 99_999_999_999;

/// Plays a move, and puts what is said of it into a room.
pub(crate) fn play(
    alloc: Global,
    handle: &mut Handle,
    colour: u8,
    point: u16,
    room: &mut [u8],
) -> u8
    ensures { Plays result colour point handle.old.value handle.new.value room.old room.new }
{
    let Some(mut held) = mem::replace(handle, Handle::shut(alloc)).into_box() else {
        Said::silent().put(room);
        return 4;
    };
    let (status, said) = play_on(&mut held, colour, point);
    said.put(room);
    *handle = Handle::of_box(held);
    status
}

/// Plays a move by numbers. Returns the status, and what is said of it.
fn play_on(held: &mut Held, colour: u8, point: u16) -> (u8, Said)
    ensures by { PlaysBy result.0 result.1 (colour_coded colour)
        (vertex_numbered held.old.standing.lines point) held.old.standing held.new.standing }
    ensures others { held.new ≡ with_standing held.old held.new.standing }
{
    let Some(colour) = Colour::coded(u64::from(colour)) else {
        return (2, Said::silent());
    };
    let Some(vertex) = vertex_of(held.session().game().size(), point) else {
        return (8, Said::silent());
    };
    match held.play(Move { colour, vertex }) {
        Ok(taken) => (
            0,
            Said {
                captured: taken.theirs,
                lost: taken.own,
                ..Said::silent()
            },
        ),
        Err(PlayError::OffBoard) => (8, Said::silent()),
        Err(PlayError::Occupied) => (5, Said::silent()),
        Err(PlayError::Repeats(moves)) => (
            6,
            Said {
                repeats: moves as u64,
                ..Said::silent()
            },
        ),
        Err(PlayError::Memory) => (3, Said::silent()),
    }
}

/// The vertex that a number means on a board of this size, if it means one.
fn vertex_of(size: Size, point: u16) -> Option<Vertex>
    ensures { result ≡ vertex_numbered size point }
{
    if point == PASS {
        return Some(Vertex::Pass);
    }
    if point < size.points() {
        return Some(Vertex::At(Point::numbered(size, point)));
    }
    None
}

/// Whether a move is legal, as a status.
pub(crate) fn is_legal(alloc: Global, handle: &mut Handle, colour: u8, point: u16) -> u8
    ensures stays { handle.new.value ≡ handle.old.value }
    ensures told { IsLegalOn result colour point handle.old.value }
{
    let Some(mut held) = mem::replace(handle, Handle::shut(alloc)).into_box() else {
        return 4;
    };
    let status = legal_on(&mut held, colour, point);
    *handle = Handle::of_box(held);
    status
}

fn legal_on(held: &mut Held, colour: u8, point: u16) -> u8
    ensures stays { held.new ≡ held.old }
    ensures told { IsLegalBy result (colour_coded colour)
        (vertex_numbered held.old.standing.lines point) held.old.standing }
{
    let Some(colour) = Colour::coded(u64::from(colour)) else {
        return 2;
    };
    let Some(vertex) = vertex_of(held.session().game().size(), point) else {
        return 8;
    };
    match held.legal(Move { colour, vertex }) {
        Ok(true) => 0,
        Ok(false) if is_occupied(held.session().game(), vertex) => 5,
        Ok(false) => 6,
        Err(_) => 3,
    }
}

/// Whether a stone stands on a vertex of the board.
fn is_occupied(game: &Game<Global>, vertex: Vertex) -> bool
    ensures { IsTrue result ↔ IsOccupied game.now.standing vertex }
{
    match vertex {
        Vertex::Pass => false,
        Vertex::At(p) => p.on(game.size()) && game.colour_at(p).is_some(),
    }
}

/// Puts a mark for each point into a room: whether a colour's play there is legal.
pub(crate) fn legal(
    alloc: Global,
    handle: &mut Handle,
    colour: u8,
    room: &mut [u8],
    length: &mut usize,
) -> u8
    ensures stays { handle.new.value ≡ handle.old.value }
    ensures shown { ShowsLegal result colour handle.old.value room.old room.new length.new }
{
    let Some(mut held) = mem::replace(handle, Handle::shut(alloc)).into_box() else {
        show(b"", room, length);
        return 4;
    };
    let status = put_legal(&mut held, colour, room, length);
    *handle = Handle::of_box(held);
    status
}

fn put_legal(held: &mut Held, colour: u8, room: &mut [u8], length: &mut usize) -> u8
    ensures stays { held.new ≡ held.old }
    ensures shown { ShowsLegalBy result (colour_coded colour) held.old.standing
        room.old room.new length.new }
{
    let Some(colour) = Colour::coded(u64::from(colour)) else {
        show(b"", room, length);
        return 2;
    };
    let count = usize::from(held.session().game().size().points());
    match marks_of(held, colour) {
        Some(marks) => {
            show(&marks[..count], room, length);
            0
        }
        None => {
            show(b"", room, length);
            3
        }
    }
}

/// A mark for each point, and none if there was no memory to try a play.
fn marks_of(held: &mut Held, colour: Colour) -> Option<[u8; MAX_POINTS]>
    ensures stays { held.new ≡ held.old }
    ensures marks { IfSome result (λ marks. (length marks ≡ MAX_POINTS)
        × (take (held.old.standing.lines * held.old.standing.lines) marks
        ≡ marks_told held.old.standing colour)) }
{
    let size = held.session().game().size();
    let mut marks = [0; MAX_POINTS];
    for number in 0..size.points() {
        let vertex = Vertex::At(Point::numbered(size, number));
        let Ok(is_legal) = held.legal(Move { colour, vertex }) else {
            return None;
        };
        marks[usize::from(number)] = mark_of(is_legal);
    }
    Some(marks)
}

fn mark_of(is_legal: bool) -> u8
    ensures { result ≡ if is_legal then 1 else 0 }
{
    if is_legal { 1 } else { 0 }
}

/// Takes so many moves back, or none if there are fewer.
pub(crate) fn undo(alloc: Global, handle: &mut Handle, count: usize) -> u8
    ensures { Undoes result count handle.old.value handle.new.value }
{
    let Some(mut held) = mem::replace(handle, Handle::shut(alloc)).into_box() else {
        return 4;
    };
    let status = if count <= held.session().game().move_count() {
        held.undo(count);
        0
    } else {
        1
    };
    *handle = Handle::of_box(held);
    status
}

/// Black's margin in hundredths of a point.
pub(crate) fn score(alloc: Global, handle: &mut Handle, hundredths: &mut i64) -> u8
    ensures stays { handle.new.value ≡ handle.old.value }
    ensures told { IsTold result handle.old.value (TellsScore hundredths.new) }
{
    let Some(held) = mem::replace(handle, Handle::shut(alloc)).into_box() else {
        return 4;
    };
    *hundredths = held.session().game().margin();
    *handle = Handle::of_box(held);
    0
}

/// The area of each colour.
pub(crate) fn area(alloc: Global, handle: &mut Handle, black: &mut u16, white: &mut u16) -> u8
    ensures stays { handle.new.value ≡ handle.old.value }
    ensures told { IsTold result handle.old.value (TellsArea black.new white.new) }
{
    let Some(held) = mem::replace(handle, Handle::shut(alloc)).into_box() else {
        return 4;
    };
    let area = held.session().game().area();
    *black = area.black;
    *white = area.white;
    *handle = Handle::of_box(held);
    0
}

/// Puts the colours of all points into a room.
pub(crate) fn board(alloc: Global, handle: &mut Handle, room: &mut [u8], length: &mut usize) -> u8
    ensures stays { handle.new.value ≡ handle.old.value }
    ensures shown { ShowsBoard result handle.old.value room.old room.new length.new }
{
    let Some(held) = mem::replace(handle, Handle::shut(alloc)).into_box() else {
        show(b"", room, length);
        return 4;
    };
    put_board(held.session().game(), room, length);
    *handle = Handle::of_box(held);
    0
}

fn put_board(game: &Game<Global>, room: &mut [u8], length: &mut usize)
    ensures { IsText (colours_told game.now.standing) room.old room.new length.new }
{
    let size = game.size();
    let mut colours = [0; MAX_POINTS];
    for number in 0..size.points() {
        colours[usize::from(number)] = code_at(game, Point::numbered(size, number));
    }
    show(&colours[..usize::from(size.points())], room, length);
}

/// The number of the colour on a point.
fn code_at(game: &Game<Global>, p: Point) -> u8
    requires { IsOn game.now.standing.lines p }
    ensures { result ≡ code_of (stone_at (present game.now.standing) p) }
{
    match game.colour_at(p) {
        None => 0,
        Some(Colour::Black) => 1,
        Some(Colour::White) => 2,
    }
}

/// Gives the choice for a colour.
pub(crate) fn choose(alloc: Global, handle: &mut Handle, colour: u8, point: &mut u16) -> u8
    ensures stays { handle.new.value ≡ handle.old.value }
    ensures told { Chooses result point.new colour handle.old.value }
{
    let Some(mut held) = mem::replace(handle, Handle::shut(alloc)).into_box() else {
        return 4;
    };
    let status = choose_on(&mut held, colour, point);
    *handle = Handle::of_box(held);
    status
}

fn choose_on(held: &mut Held, colour: u8, point: &mut u16) -> u8
    ensures stays { held.new ≡ held.old }
    ensures told { ChoosesBy result point.new (colour_coded colour) held.old.standing }
{
    let Some(colour) = Colour::coded(u64::from(colour)) else {
        return 2;
    };
    // A choice is on the board.
    laws::choice_is_legal();
    let size = held.session().game().size();
    match held.choose(colour) {
        Ok(Vertex::Pass) => {
            *point = PASS;
            0
        }
        Ok(Vertex::At(p)) => {
            *point = p.index(size);
            0
        }
        Err(_) => 3,
    }
}

/// Sets the komi.
pub(crate) fn set_komi(alloc: Global, handle: &mut Handle, hundredths: i64) -> u8
    ensures { SetsKomi result hundredths handle.old.value handle.new.value }
{
    let Some(mut held) = mem::replace(handle, Handle::shut(alloc)).into_box() else {
        return 4;
    };
    let status = if is_komi(hundredths) {
        held.set_komi(hundredths);
        0
    } else {
        2
    };
    *handle = Handle::of_box(held);
    status
}

/// Whether a number of hundredths is a komi.
fn is_komi(hundredths: i64) -> bool
    ensures { IsTrue result ↔ IsKomi hundredths }
{
    -MOST_KOMI <= hundredths && hundredths <= MOST_KOMI
}

/// Sets the superko rule, while there is no move.
pub(crate) fn set_superko(alloc: Global, handle: &mut Handle, superko: u8) -> u8
    ensures { SetsRule result superko handle.old.value handle.new.value }
{
    let Some(mut held) = mem::replace(handle, Handle::shut(alloc)).into_box() else {
        return 4;
    };
    let status = set_rule(&mut held, superko);
    *handle = Handle::of_box(held);
    status
}

fn set_rule(held: &mut Held, superko: u8) -> u8
    ensures { SetsRuleBy result (rule_numbered superko) held.old.standing.moves held.old (Some held.new) }
{
    let superko = match superko {
        0 => Superko::Positional,
        1 => Superko::Situational,
        _ => return 2,
    };
    if held.session().game().move_count() > 0 {
        return 2;
    }
    held.set_superko(superko);
    0
}
