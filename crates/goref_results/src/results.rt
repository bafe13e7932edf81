ghost use Rattle.std.specs.List.{flat_map};
ghost use Rattle.go_board.specs.Pens.{Writes};
ghost use Rattle.go_game.specs.Handicaps.{fixed};
ghost use Rattle.go_game.specs.Scores.{margin_of, score_word};
ghost use Rattle.goref_results.specs.Diagrams.{diagram};
ghost use Rattle.goref_results.specs.Places.{places_text};
ghost use Rattle.goref_results.specs.inner.Texts.{spaced_point};
ghost use Rattle.goref_results.specs.Results.{result_text};

use crate::diagram::put_diagram;
use crate::point_text::put_spaced;
use go_board::{Pen, Point, Sink};
use go_game::{Game, fixed_points, score_text};
use std::alloc::Allocator;

/// Writes the score, after a space.
pub fn put_score<A: Allocator + Copy, W: Sink>(game: &Game<A>, pen: &mut Pen<'_, W>)
    ensures { Writes W.Sink pen.old pen.new
        (result_text (score_word (margin_of game.now.standing))) }
{
    pen.put(b" ");
    pen.put(score_text(game.margin()).as_bytes());
}

/// Writes the diagram, after a space.
pub fn put_board<A: Allocator + Copy, W: Sink>(game: &Game<A>, pen: &mut Pen<'_, W>)
    ensures { Writes W.Sink pen.old pen.new (result_text (diagram game.now.standing)) }
{
    pen.put(b" ");
    put_diagram(game, pen);
}

/// Writes the places of `number` fixed handicap stones, each after a space.
pub fn put_places<A: Allocator + Copy, W: Sink>(game: &Game<A>, number: u32, pen: &mut Pen<'_, W>)
    ensures { Writes W.Sink pen.old pen.new
        (result_text (places_text (fixed game.now.standing.lines number))) }
{
    match fixed_points(game.size(), number) {
        Some(points) => put_points(points.as_slice(), pen),
        None => {}
    }
}

/// Writes points, each after a space.
fn put_points<W: Sink>(points: &[Point], pen: &mut Pen<'_, W>)
    ensures { Writes W.Sink pen.old pen.new (flat_map spaced_point points.now) }
{
    for point in points {
        put_spaced(*point, pen);
    }
}
