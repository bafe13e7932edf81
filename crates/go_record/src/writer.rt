//! The record of a game, written: the size, the komi, the colour that moves first, the stones of the start
//! and the moves. Each part goes to the pen at once, so no memory is taken.
ghost use Rattle.std.specs.Prelude.{◌≡◌, ◌++◌, ◌∷◌, [], Some, if◌then◌else◌};
ghost use Rattle.std.specs.List.{flat_map};
ghost use Rattle.go_board.specs.Device.{Sent, failures_after};
ghost use Rattle.go_board.specs.Pens.{Writes};
ghost use Rattle.go_board.specs.Points.{IsOn, number_of};
ghost use Rattle.go_board.specs.Reaching.{has_colour};
ghost use Rattle.go_board.specs.Vertices.{IsOnBoard};
ghost use Rattle.go_record.specs.Records.{point_value, record_body, record_of};
ghost use Rattle.go_record.specs.inner.Texts.{move_text, numbered_text, opening_text, stones_text, first_turn_text};

use crate::start::is_of;
use go_board::{Colour, Move, Pen, Point, Sink, Size, Vertex, WriteFault};
use go_game::{Game, hundredths_text};
use itoa::Buffer;
use std::alloc::Allocator;

/// Writes the record of a game, and LF: its size, komi, start and moves. On a fault the device took a prefix
/// of that text. It takes no memory.
pub fn write_record<A: Allocator + Copy, W: Sink>(
    game: &Game<A>,
    writer: &mut W,
) -> Result<(), WriteFault>
    ensures sent { Sent result (W.taken writer.old) (W.taken writer.new)
        (record_of game.now.standing) }
    ensures failures { W.failures writer.new ≡ failures_after result (W.failures writer.old) }
{
    let mut pen = Pen::new(writer);
    put_record(game, &mut pen);
    pen.put(b"\n");
    pen.finish()
}

/// Writes the record of a game, without the LF after it.
pub fn put_record<A: Allocator + Copy, W: Sink>(game: &Game<A>, pen: &mut Pen<'_, W>)
    ensures { Writes W.Sink pen.old pen.new (record_body game.now.standing) }
{
    put_setting(game, pen);
    put_turn(game, pen);
    put_stones(game, b"AB", Colour::Black, pen);
    put_stones(game, b"AW", Colour::White, pen);
    put_moves(game, pen);
    pen.put(b")");
}

fn put_setting<A: Allocator + Copy, W: Sink>(game: &Game<A>, pen: &mut Pen<'_, W>)
    ensures { Writes W.Sink pen.old pen.new (opening_text game.now.standing) }
{
    pen.put(b"(;GM[1]FF[4]SZ[");
    let mut digits = Buffer::new();
    pen.put(digits.format(game.size().lines()).as_bytes());
    pen.put(b"]KM[");
    pen.put(hundredths_text(game.komi()).as_bytes());
}

fn put_turn<A: Allocator + Copy, W: Sink>(game: &Game<A>, pen: &mut Pen<'_, W>)
    ensures { Writes W.Sink pen.old pen.new (first_turn_text game.now.standing) }
{
    pen.put(b"]PL[");
    pen.put(&[game.start_mover().letter()]);
    pen.put(b"]");
}

/// Writes the stones of a colour at the start, if there are any, after their property's name.
fn put_stones<A: Allocator + Copy, W: Sink>(
    game: &Game<A>,
    name: &[u8],
    colour: Colour,
    pen: &mut Pen<'_, W>,
)
    ensures { Writes W.Sink pen.old pen.new (stones_text game.now.standing name.now colour) }
{
    let size = game.size();
    let mut prefix = name;
    for number in 0..size.points() {
        prefix = put_if_coloured(game, Point::numbered(size, number), colour, prefix, pen);
    }
}

/// Writes `prefix` and a point, if the point has a stone of this colour at the start. Returns the text to
/// write before the next point.
fn put_if_coloured<'a, A: Allocator + Copy, W: Sink>(
    game: &Game<A>,
    at: Point,
    colour: Colour,
    prefix: &'a [u8],
    pen: &mut Pen<'_, W>,
) -> &'a [u8]
    requires { IsOn game.now.standing.lines at }
    ensures stone { Writes W.Sink pen.old pen.new
        (if has_colour game.now.standing.start (number_of game.now.standing.lines at) (Some colour)
        then prefix.now ++ (91 ∷ (point_value game.now.standing.lines at ++ 93 ∷ [])) else []) }
    ensures next { result.now ≡ (if has_colour game.now.standing.start
        (number_of game.now.standing.lines at) (Some colour) then [] else prefix.now) }
{
    if is_of(game.start_at(at), colour) {
        pen.put(prefix);
        put_point(at, game.size(), pen);
        return b"";
    }
    prefix
}

fn put_point<W: Sink>(at: Point, size: Size, pen: &mut Pen<'_, W>)
    requires { IsOn size at }
    ensures { Writes W.Sink pen.old pen.new (91 ∷ (point_value size at ++ 93 ∷ [])) }
{
    let row = size.lines() - 1 - at.row;
    pen.put(&[b'[', b'a' + at.col, b'a' + row, b']']);
}

fn put_moves<A: Allocator + Copy, W: Sink>(game: &Game<A>, pen: &mut Pen<'_, W>)
    ensures { Writes W.Sink pen.old pen.new
        (flat_map (move_text game.now.standing.lines) game.now.standing.moves) }
{
    for number in 0..game.move_count() {
        put_numbered(game, number, pen);
    }
}

/// Writes the move with this number, if there is one.
fn put_numbered<A: Allocator + Copy, W: Sink>(game: &Game<A>, number: usize, pen: &mut Pen<'_, W>)
    ensures { Writes W.Sink pen.old pen.new (numbered_text game.now.standing number) }
{
    if let Some(made) = game.move_at(number) {
        put_move(made, game.size(), pen);
    }
}

fn put_move<W: Sink>(made: Move, size: Size, pen: &mut Pen<'_, W>)
    requires { IsOnBoard size made.vertex }
    ensures { Writes W.Sink pen.old pen.new (move_text size made) }
{
    pen.put(b";");
    pen.put(&[made.colour.letter()]);
    match made.vertex {
        Vertex::Pass => pen.put(b"[]"),
        Vertex::At(p) => put_point(p, size, pen),
    }
}
