//! The chains of a game, each with its stones and its liberties. A set has the stones that are written
//! already. It shows which stone is the first of its chain.
ghost use Rattle.std.specs.Prelude.{◌≡◌, ◌+◌, ◌∷◌, [], All, IsSome, if◌then◌else◌};
ghost use Rattle.std.specs.List.{flat_map};
ghost use Rattle.go_board.specs.Grids.{is_first_stone, stone_at};
ghost use Rattle.go_board.specs.Pens.{Writes};
ghost use Rattle.go_board.specs.Points.{IsOn, number_of};
ghost use Rattle.go_board.specs.declared.size.TheConstants.{MAX_LINES};
ghost use Rattle.go_game.specs.Standings.{board_of, present};
ghost use Rattle.goref_results.specs.Results.{result_text};
ghost use Rattle.goref_results.specs.ChainLines.{chain_lines, stone_text};
ghost use Rattle.goref_results.specs.inner.Texts.{line_of_chain};
ghost use Rattle.goref_results.specs.inner.Texts.{spaced_point};
ghost use Rattle.goref_results.specs.inner.Seen.{AreSeen, GainsPoints, GainsChain};

use crate::point_text::put_spaced;
use go_board::rows::{ROWS, Rows, has_place, put_place, row_and_column};
use go_board::{Pen, Point, Sink, laws};
use go_game::{ChainPoints, Game};
use std::alloc::Allocator;

/// Writes the chains of a game: the first after a space, each further one on a line of its own.
pub fn put_chains<A: Allocator + Copy, W: Sink>(game: &Game<A>, pen: &mut Pen<'_, W>)
    ensures { Writes W.Sink pen.old pen.new
        (result_text (chain_lines game.now.standing.lines (board_of game.now.standing))) }
{
    let size = game.size();
    let mut seen = [0; ROWS];
    let mut before = b' ';
    for number in 0..size.points() {
        let at = Point::numbered(size, number);
        before = put_if_first(game, at, before, &mut seen, pen);
    }
}

/// Writes the chain of a stone that is its first, and returns the byte to write before the next chain. All
/// stones of written chains are in `seen`, so that no chain is looked up twice.
fn put_if_first<A: Allocator + Copy, W: Sink>(
    game: &Game<A>,
    at: Point,
    before: u8,
    seen: &mut Rows,
    pen: &mut Pen<'_, W>,
) -> u8
    requires on { IsOn game.now.standing.lines at }
    requires seen { AreSeen game.now.standing.lines (board_of game.now.standing)
        (number_of game.now.standing.lines at) seen.old }
    ensures line { Writes W.Sink pen.old pen.new
        (if is_first_stone (present game.now.standing) at
        then before ∷ line_of_chain (present game.now.standing) at else []) }
    ensures next { result
        ≡ (if is_first_stone (present game.now.standing) at then 10 else before) }
    ensures seen { AreSeen game.now.standing.lines (board_of game.now.standing)
        (number_of game.now.standing.lines at + 1) seen.new }
{
    laws::points_by_number();
    laws::joined_by_a_path();
    if is_first(game, seen, at) {
        pen.put(&[before]);
        put_chain(game, at, seen, pen);
        return b'\n';
    }
    before
}

/// Whether a point holds a stone that is the first of its chain: one that isn't in `seen`.
fn is_first<A: Allocator + Copy>(game: &Game<A>, seen: &Rows, at: Point) -> bool
    requires on { IsOn game.now.standing.lines at }
    requires seen { AreSeen game.now.standing.lines (board_of game.now.standing)
        (number_of game.now.standing.lines at) seen.now }
    ensures { result ≡ is_first_stone (present game.now.standing) at }
{
    laws::points_by_number();
    prove!(at.on(game.size()));
    let (row, col) = row_and_column(at);
    game.colour_at(at).is_some() && !has_place(seen, row, col)
}

/// Writes the chain of a stone: the letter of its colour, its stones and its liberties. Adds the stones to
/// `seen`.
fn put_chain<A: Allocator + Copy, W: Sink>(
    game: &Game<A>,
    at: Point,
    seen: &mut Rows,
    pen: &mut Pen<'_, W>,
)
    requires on { IsOn game.now.standing.lines at }
    requires stone { IsSome (stone_at (present game.now.standing) at) }
    ensures line { Writes W.Sink pen.old pen.new (line_of_chain (present game.now.standing) at) }
    ensures seen { GainsChain game.now.standing.lines (board_of game.now.standing)
        (number_of game.now.standing.lines at) seen.old seen.new }
{
    laws::points_by_number();
    prove!(at.on(game.size()));
    put_stone(game, at, pen);
    put_stones(game.chain_points(at), seen, pen);
    pen.put(b" :");
    put_each(game.liberty_points(at), pen);
}

/// Writes the letter of a stone's colour.
fn put_stone<A: Allocator + Copy, W: Sink>(game: &Game<A>, at: Point, pen: &mut Pen<'_, W>)
    requires { IsOn game.now.standing.lines at }
    ensures { Writes W.Sink pen.old pen.new (stone_text (stone_at (present game.now.standing) at)) }
{
    match game.colour_at(at) {
        Some(colour) => pen.put(&[colour.letter()]),
        None => {}
    }
}

/// Writes stones, each after a space, and adds them to `seen`.
fn put_stones<W: Sink>(stones: ChainPoints<'_>, seen: &mut Rows, pen: &mut Pen<'_, W>)
    requires { All (IsOn MAX_LINES) stones }
    ensures written { Writes W.Sink pen.old pen.new (flat_map spaced_point stones.entry) }
    ensures seen { GainsPoints stones.entry seen.old seen.new }
{
    for at in stones {
        put_spaced(at, pen);
        let (row, col) = row_and_column(at);
        put_place(seen, row, col);
    }
}

/// Writes points, each after a space.
fn put_each<W: Sink>(points: ChainPoints<'_>, pen: &mut Pen<'_, W>)
    ensures { Writes W.Sink pen.old pen.new (flat_map spaced_point points.entry) }
{
    for point in points {
        put_spaced(point, pen);
    }
}
