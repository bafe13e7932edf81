ghost use Rattle.std.specs.Prelude.{◌≡◌, IfOk, OnErr};
ghost use Rattle.go_board.specs.Pens.{Writes};
ghost use Rattle.go_game.specs.Counts.{IsAsBefore};
ghost use Rattle.go_game.specs.Legal.{Takes};
ghost use Rattle.goref_results.specs.Plays.{marked_plays, plays_text};
ghost use Rattle.goref_results.specs.Results.{result_text};

use crate::Plays;
use crate::point_text::put_spaced;
use go_board::{Colour, Move, Pen, Point, Sink, Size, Vertex};
use go_game::Game;
use std::alloc::{AllocError, Allocator};

/// The legal plays of a colour. Where the stones around a point don't decide, the play is tried on the game.
/// Afterwards the game is as before, also where there was no memory for a trial.
pub fn legal_plays<A: Allocator + Copy>(
    game: &mut Game<A>,
    colour: Colour,
) -> Result<Plays, AllocError>
    ensures ok { IfOk result (λ plays. plays ≡ marked_plays game.old.standing colour) }
    ensures memory { OnErr result
        ((p : Point) × Takes game.old.standing colour (Vertex.At p)) }
    ensures same { IsAsBefore game.old game.new }
{
    let size = game.size();
    let mut plays = Plays::none();
    for number in 0..size.points() {
        let vertex = Vertex::At(Point::numbered(size, number));
        plays.set(number, game.legal(Move { colour, vertex })?);
    }
    Ok(plays)
}

/// Writes the vertices of plays, each after a space.
pub fn put_plays<W: Sink>(size: Size, plays: &Plays, pen: &mut Pen<'_, W>)
    ensures { Writes W.Sink pen.old pen.new (result_text (plays_text size plays.now)) }
{
    for point in plays.points(size) {
        put_spaced(point, pen);
    }
}
