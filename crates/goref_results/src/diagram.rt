//! The diagram of a game. Its heading has the size, the komi, the prisoners, the number of moves and the
//! colour to move.
ghost use Rattle.std.specs.Prelude.{◌≡◌, ◌<◌, decimal};
ghost use Rattle.std.specs.List.{flat_map};
ghost use Rattle.go_board.specs.Pens.{Writes};
ghost use Rattle.go_game.specs.Standings.{board_of};
ghost use Rattle.goref_results.specs.Diagrams.{diagram, letters_text, mark_of, marks_text, padding_of, prisoners_text, right_in_two, row_text, rows_text, setting_text, spaced_letter, turn_text};

use go_board::{COLUMN_LETTERS, Colour, Pen, Point, Sink, Size};
use go_game::{Game, hundredths_text};
use itoa::Buffer;
use std::alloc::Allocator;

/// Writes the diagram of a game: a heading, the rows from the top, and the letters of the columns.
pub fn put_diagram<A: Allocator + Copy, W: Sink>(game: &Game<A>, pen: &mut Pen<'_, W>)
    ensures { Writes W.Sink pen.old pen.new (diagram game.now.standing) }
{
    put_setting(game, pen);
    put_prisoners(game, pen);
    put_turn(game, pen);
    put_rows(game, pen);
    put_letters(game.size(), pen);
}

fn put_setting<A: Allocator + Copy, W: Sink>(game: &Game<A>, pen: &mut Pen<'_, W>)
    ensures { Writes W.Sink pen.old pen.new (setting_text game.now.standing) }
{
    pen.put(b"size ");
    put_number(u64::from(game.size().lines()), pen);
    pen.put(b" komi ");
    pen.put(hundredths_text(game.komi()).as_bytes());
}

fn put_prisoners<A: Allocator + Copy, W: Sink>(game: &Game<A>, pen: &mut Pen<'_, W>)
    ensures { Writes W.Sink pen.old pen.new (prisoners_text game.now.standing) }
{
    pen.put(b" prisoners B ");
    put_number(game.prisoners(Colour::Black), pen);
    pen.put(b" W ");
    put_number(game.prisoners(Colour::White), pen);
}

fn put_turn<A: Allocator + Copy, W: Sink>(game: &Game<A>, pen: &mut Pen<'_, W>)
    ensures { Writes W.Sink pen.old pen.new (turn_text game.now.standing) }
{
    pen.put(b" moves ");
    put_number(game.move_count() as u64, pen);
    pen.put(b" next ");
    pen.put(&[game.mover().letter()]);
}

fn put_number<W: Sink>(number: u64, pen: &mut Pen<'_, W>)
    ensures { Writes W.Sink pen.old pen.new (decimal number) }
{
    pen.put(Buffer::new().format(number).as_bytes());
}

fn put_rows<A: Allocator + Copy, W: Sink>(game: &Game<A>, pen: &mut Pen<'_, W>)
    ensures { Writes W.Sink pen.old pen.new
        (rows_text game.now.standing.lines (board_of game.now.standing) game.now.standing.lines) }
{
    let lines = game.size().lines();
    for count in 0..lines {
        put_row(game, lines - 1 - count, pen);
    }
}

fn put_row<A: Allocator + Copy, W: Sink>(game: &Game<A>, row: u8, pen: &mut Pen<'_, W>)
    requires { row < game.now.standing.lines }
    ensures { Writes W.Sink pen.old pen.new
        (row_text game.now.standing.lines (board_of game.now.standing) row) }
{
    pen.put(b"\n");
    put_right_in_two(u64::from(row) + 1, pen);
    put_marks(game, row, pen);
}

/// Writes a number right-aligned in two columns.
fn put_right_in_two<W: Sink>(number: u64, pen: &mut Pen<'_, W>)
    ensures { Writes W.Sink pen.old pen.new (right_in_two number) }
{
    pen.put(padding(number));
    put_number(number, pen);
}

/// What comes before a number that is right-aligned in two columns.
fn padding(number: u64) -> &'static [u8]
    ensures { result.now ≡ padding_of number }
{
    if number < 10 { b" " } else { b"" }
}

fn put_marks<A: Allocator + Copy, W: Sink>(game: &Game<A>, row: u8, pen: &mut Pen<'_, W>)
    requires { row < game.now.standing.lines }
    ensures { Writes W.Sink pen.old pen.new
        (marks_text game.now.standing.lines (board_of game.now.standing) row
        game.now.standing.lines) }
{
    for col in 0..game.size().lines() {
        pen.put(&[b' ', mark(game.colour_at(Point { col, row }))]);
    }
}

/// How a point is drawn.
fn mark(colour: Option<Colour>) -> u8
    ensures { result ≡ mark_of colour }
{
    match colour {
        None => b'.',
        Some(Colour::Black) => b'X',
        Some(Colour::White) => b'O',
    }
}

fn put_letters<W: Sink>(size: Size, pen: &mut Pen<'_, W>)
    ensures { Writes W.Sink pen.old pen.new (letters_text size) }
{
    pen.put(b"\n  ");
    put_columns(COLUMN_LETTERS.split_at(usize::from(size.lines())).0, pen);
}

/// Writes the letters of columns, each after a space.
fn put_columns<W: Sink>(letters: &[u8], pen: &mut Pen<'_, W>)
    ensures { Writes W.Sink pen.old pen.new (flat_map spaced_letter letters.now) }
{
    for letter in letters {
        pen.put(&[b' ', *letter]);
    }
}
