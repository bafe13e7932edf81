//! After how many moves a superko rule saw a position first.
use go_board::{Colour, Grid, Move, Point, Size, Vertex};
use go_game::{Game, Superko};
use std::alloc::Global;
use std::process::Abort;

fn two(rt: &impl Abort) -> Size {
    Size::new(2).expect(rt, "a size")
}

/// The lower left point.
const CORNER: Point = Point { col: 0, row: 0 };

/// A game on two lines by a rule, in which Black plays in the corner and both pass.
fn played(rt: &impl Abort, alloc: Global, rule: Superko) -> Game<Global> {
    let mut game = Game::new(alloc, two(rt));
    game.set_superko(rule);
    for (colour, vertex) in [
        (Colour::Black, Vertex::At(CORNER)),
        (Colour::White, Vertex::Pass),
        (Colour::Black, Vertex::Pass),
    ] {
        assert!(rt; game.play(Move { colour, vertex }).is_ok());
    }
    game
}

/// When a rule saw first: no stone, and a stone of a colour in the corner, each with Black and with
/// White to move.
fn first_seen(
    rt: &impl Abort,
    alloc: Global,
    rule: Superko,
    stone: Option<Colour>,
) -> (Option<usize>, Option<usize>) {
    let game = played(rt, alloc, rule);
    let mut grid = Grid::new(game.size());
    grid.set(CORNER, stone);
    (
        game.first_seen(&grid, Colour::Black),
        game.first_seen(&grid, Colour::White),
    )
}

/// A rule, the stone, and what is seen with it.
type Row = (Superko, Option<Colour>, (Option<usize>, Option<usize>));

const ROWS: &[Row] = &[
    (Superko::Positional, None, (Some(0), Some(0))),
    (Superko::Positional, Some(Colour::Black), (Some(1), Some(1))),
    (Superko::Positional, Some(Colour::White), (None, None)),
    (Superko::Situational, None, (Some(0), None)),
    (
        Superko::Situational,
        Some(Colour::Black),
        (Some(2), Some(1)),
    ),
    (Superko::Situational, Some(Colour::White), (None, None)),
];

#[test]
fn what_a_rule_saw_first(rt: HostRuntime) {
    for (row, (rule, stone, numbers)) in ROWS.iter().enumerate() {
        let seen = first_seen(&rt, rt.alloc(), *rule, *stone);
        assert!(rt; seen == *numbers, "row {row}");
    }
}
