//! Worked examples by the situational rule, some of them by the positional rule beside it.
ghost use Rattle.std.specs.Prelude.{◌≡◌, []};

use crate::games::{CAPTURE, KO, KO_AFTER_PASSES, Step, example, follow, size_of, turn};
use crate::help::twins::{assert_same, plays};
use go_board::{Colour, Grid, Point, Size, Taken, Vertex};
use go_game::{Game, PlayError, Superko};
use std::alloc::{Allocator, Global};
use std::process::Abort;
use test_allocator::Refusing;

const OWN_STONE: Taken = Taken { theirs: 0, own: 1 };

/// A game on `lines` lines by a rule.
fn game_by<A: Allocator + Copy>(rt: &impl Abort, alloc: A, superko: Superko, lines: u8) -> Game<A> {
    let mut game = Game::new(alloc, size_of(rt, lines));
    game.set_superko(superko);
    game
}

/// A game on `lines` lines by the situational rule.
fn situational(rt: &impl Abort, alloc: Global, lines: u8) -> Game<Global> {
    game_by(rt, alloc, Superko::Situational, lines)
}

/// Black takes its own stone where White has taken one, and may not do so again.
const SUICIDE: &[Step] = &[
    Step::HasTaken { black: 1, moves: 3 },
    Step::Allows(Colour::Black, b"A1"),
    Step::Takes(Colour::Black, b"A1", OWN_STONE),
    Step::HasTaken { black: 2, moves: 4 },
    Step::Awaits(Colour::White),
    Step::Refuses(Colour::Black, b"A1", PlayError::Repeats(4)),
    Step::HasTaken { black: 2, moves: 4 },
    Step::Undoes(Colour::Black, b"A1"),
    Step::HasTaken { black: 1, moves: 3 },
    Step::Allows(Colour::Black, b"A1"),
    Step::Takes(Colour::Black, b"A1", OWN_STONE),
];

#[test]
fn a_suicide_passes_the_turn(rt: HostRuntime) {
    let game = situational(&rt, rt.alloc(), 2);
    example(&rt, game, &[CAPTURE, SUICIDE]);
}

const FIRST_SUICIDE: &[Step] = &[Step::Takes(Colour::Black, b"A1", OWN_STONE)];

/// A game in which Black took its own stone where White had taken one.
fn after_suicide(rt: &impl Abort, alloc: Global) -> Game<Global> {
    let mut game = situational(rt, alloc, 2);
    follow(rt, &mut game, CAPTURE);
    follow(rt, &mut game, FIRST_SUICIDE);
    game
}

/// Asserts that a game answers to each step as the step says, and then equals its twin.
fn stays_same(rt: &impl Abort, game: &mut Game<Global>, twin: &Game<Global>, steps: &[Step]) {
    for step in steps {
        follow(rt, game, &[*step]);
        assert_same(rt, game, twin);
    }
}

const SECOND_SUICIDE: &[Step] = &[
    Step::Refuses(Colour::Black, b"A1", PlayError::Repeats(4)),
    Step::Forbids(Colour::Black, b"A1"),
];

const SUICIDE_TAKEN_BACK: &[Step] = &[Step::Undoes(Colour::Black, b"A1")];

#[test]
fn a_refused_suicide_changes_nothing(rt: HostRuntime) {
    let mut game = after_suicide(&rt, rt.alloc());
    let mut twin = after_suicide(&rt, rt.alloc());
    stays_same(&rt, &mut game, &twin, SECOND_SUICIDE);
    follow(&rt, &mut twin, SUICIDE_TAKEN_BACK);
    stays_same(&rt, &mut game, &twin, SUICIDE_TAKEN_BACK);
}

/// Passes after White has taken a stone, and the suicide that would repeat the position of then.
const PASSES: &[Step] = &[
    Step::Plays(Colour::Black, b"pass"),
    Step::Plays(Colour::White, b"pass"),
    Step::Plays(Colour::Black, b"pass"),
    Step::Undoes(Colour::Black, b"pass"),
    Step::Refuses(Colour::Black, b"A1", PlayError::Repeats(4)),
    Step::Undoes(Colour::White, b"pass"),
    Step::Refuses(Colour::Black, b"A1", PlayError::Repeats(4)),
    Step::Undoes(Colour::Black, b"pass"),
    Step::Takes(Colour::Black, b"A1", OWN_STONE),
];

#[test]
fn a_pass_leaves_a_situation(rt: HostRuntime) {
    let game = situational(&rt, rt.alloc(), 2);
    example(&rt, game, &[CAPTURE, PASSES]);
}

const ONE_POINT: &[Step] = &[
    Step::Allows(Colour::Black, b"A1"),
    Step::Forbids(Colour::White, b"A1"),
    Step::Refuses(Colour::White, b"A1", PlayError::Repeats(0)),
    Step::Chooses(Colour::Black, b"pass"),
    Step::Takes(Colour::Black, b"A1", OWN_STONE),
    Step::Refuses(Colour::White, b"A1", PlayError::Repeats(0)),
    Step::Refuses(Colour::Black, b"A1", PlayError::Repeats(1)),
];

#[test]
fn one_point_by_the_situational_rule(rt: HostRuntime) {
    let mut game = situational(&rt, rt.alloc(), 1);
    follow(&rt, &mut game, ONE_POINT);
    game.clear();
    assert!(rt; game.superko() == Superko::Situational);
    follow(&rt, &mut game, FIRST_SUICIDE);
}

const NO_PLAY_ON_ONE_POINT: &[Step] = &[
    Step::Forbids(Colour::Black, b"A1"),
    Step::Refuses(Colour::Black, b"A1", PlayError::Repeats(0)),
    Step::Forbids(Colour::White, b"A1"),
    Step::Refuses(Colour::White, b"A1", PlayError::Repeats(0)),
    Step::Plays(Colour::Black, b"pass"),
    Step::Forbids(Colour::Black, b"A1"),
    Step::Forbids(Colour::White, b"A1"),
];

#[test]
fn one_point_by_the_positional_rule(rt: HostRuntime) {
    let game = Game::new(rt.alloc(), size_of(&rt, 1));
    example(&rt, game, &[NO_PLAY_ON_ONE_POINT]);
}

const KO_NOT_TAKEN_BACK: &[Step] = &[Step::Refuses(Colour::White, b"B2", PlayError::Repeats(7))];

#[test]
fn a_ko_by_both_rules(rt: HostRuntime) {
    for superko in [Superko::Positional, Superko::Situational] {
        let mut game = game_by(&rt, rt.alloc(), superko, 4);
        for steps in [KO, KO_NOT_TAKEN_BACK, KO_AFTER_PASSES] {
            follow(&rt, &mut game, steps);
        }
        assert!(rt; game.superko() == superko);
    }
}

/// Stones of one colour on B1 and A2 of two lines, a first mover, and a game from there.
fn two_stones(rt: &impl Abort, alloc: Global, stones: Colour, first: Colour) -> Game<Global>
    ensures { result.standing.moves ≡ [] }
{
    let mut grid = Grid::new(size_of(rt, 2));
    grid.set(Point { col: 1, row: 0 }, Some(stones));
    grid.set(Point { col: 0, row: 1 }, Some(stones));
    Game::start_from(alloc, &grid, first).expect(rt, "a start")
}

/// The same by the situational rule.
fn two_situational(rt: &impl Abort, alloc: Global, stones: Colour, first: Colour) -> Game<Global>
    ensures { result.standing.moves ≡ [] }
{
    let mut game = two_stones(rt, alloc, stones, first);
    game.set_superko(Superko::Situational);
    game
}

/// Asserts that a rule stays after a play, on another board and on a cleared one.
fn keeps_rule(rt: &impl Abort, game: &mut Game<Global>, superko: Superko)
    ensures { game.new.standing.moves ≡ [] }
{
    assert!(rt; game.superko() == superko);
    follow(rt, game, &[Step::Plays(Colour::Black, b"A1")]);
    assert!(rt; game.superko() == superko);
    game.resize(size_of(rt, 3));
    assert!(rt; game.superko() == superko);
    game.clear();
    assert!(rt; game.superko() == superko);
}

/// Asserts the rule by which a game from a grid is played.
fn starts_positional(rt: &impl Abort, alloc: Global) {
    let start = two_stones(rt, alloc, Colour::White, Colour::White);
    assert!(rt; start.superko() == Superko::Positional);
}

#[test]
fn the_rule_that_stands(rt: HostRuntime) {
    let mut game = Game::new(rt.alloc(), size_of(&rt, 2));
    assert!(rt; game.superko() == Superko::Positional);
    game.set_superko(Superko::Situational);
    keeps_rule(&rt, &mut game, Superko::Situational);
    game.set_superko(Superko::Positional);
    keeps_rule(&rt, &mut game, Superko::Positional);
    starts_positional(&rt, rt.alloc());
}

const BLACK_REPEATS: &[Step] = &[Step::Refuses(Colour::Black, b"A1", PlayError::Repeats(0))];

const WHITE_REPEATS: &[Step] = &[Step::Refuses(Colour::White, b"A1", PlayError::Repeats(0))];

const SUICIDE_OF_BLACK: &[Step] = &[
    Step::Takes(Colour::Black, b"A1", OWN_STONE),
    Step::Refuses(Colour::Black, b"A1", PlayError::Repeats(1)),
];

const SUICIDE_OF_WHITE: &[Step] = &[
    Step::Takes(Colour::White, b"A1", OWN_STONE),
    Step::Refuses(Colour::White, b"A1", PlayError::Repeats(1)),
];

#[test]
fn a_start_with_white_to_move(rt: HostRuntime) {
    let alloc = rt.alloc();
    let game = two_stones(&rt, alloc, Colour::White, Colour::White);
    example(&rt, game, &[BLACK_REPEATS]);
    let game = two_situational(&rt, alloc, Colour::White, Colour::White);
    example(&rt, game, &[BLACK_REPEATS]);
    let game = two_stones(&rt, alloc, Colour::Black, Colour::White);
    example(&rt, game, &[WHITE_REPEATS]);
    let game = two_situational(&rt, alloc, Colour::Black, Colour::White);
    example(&rt, game, &[SUICIDE_OF_WHITE]);
}

#[test]
fn a_start_with_black_to_move(rt: HostRuntime) {
    let alloc = rt.alloc();
    let game = two_situational(&rt, alloc, Colour::White, Colour::Black);
    example(&rt, game, &[SUICIDE_OF_BLACK]);
    let mut game = two_situational(&rt, alloc, Colour::White, Colour::Black);
    game.set_superko(Superko::Positional);
    example(&rt, game, &[BLACK_REPEATS]);
}

/// Twelve passes on one point. Returns how many were refused.
fn twelve_passes<A: Allocator + Copy>(
    rt: &impl Abort,
    alloc: Global,
    superko: Superko,
    game: &mut Game<A>,
) -> u32 {
    let mut twin = game_by(rt, alloc, superko, 1);
    let mut refused = 0u32;
    for _ in 0..6 {
        for colour in [Colour::Black, Colour::White] {
            let pass = turn(rt, twin.size(), colour, b"pass");
            refused = refused.wrapping_add(plays(rt, game, &mut twin, pass));
        }
    }
    refused
}

/// Passes in a game that takes its memory from here, one request of which may be refused. In the end all
/// passes are made: Black on A1 would repeat the start, or by the situational rule the position after the
/// first pass. Returns how many passes were refused.
fn passes_by(rt: &impl Abort, alloc: Global, superko: Superko, failing: &Refusing<Global>) -> u32 {
    let mut game = game_by(rt, failing, superko, 1);
    let refused = twelve_passes(rt, alloc, superko, &mut game);
    if !failing.waits() {
        let first = match superko {
            Superko::Positional => 0,
            Superko::Situational => 1,
        };
        let made = turn(rt, game.size(), Colour::Black, b"A1");
        assert!(rt; game.play(made) == Err(PlayError::Repeats(first)));
    }
    refused
}

/// Whether the passes make a request for memory with this number. Only that request is refused.
fn meets_request(rt: &impl Abort, alloc: Global, superko: Superko, number: u64) -> bool {
    let failing = Refusing::nth_request(alloc, number);
    let refused = passes_by(rt, alloc, superko, &failing);
    let is_met = !failing.waits();
    assert_eq!(rt; refused, u32::from(is_met), "request {number}");
    is_met
}

/// Each request for memory of the passes is refused in turn. How many there are.
fn refused_in_turn(rt: &impl Abort, alloc: Global, superko: Superko) -> u32 {
    let mut met = 0u32;
    for number in 1..20u64 {
        if !meets_request(rt, alloc, superko, number) {
            break;
        }
        met = met.wrapping_add(1);
    }
    assert!(rt; met > 0 && met < 19, "{met} requests");
    met
}

#[test]
fn each_request_of_a_pass_refused(rt: HostRuntime) {
    let positional = refused_in_turn(&rt, rt.alloc(), Superko::Positional);
    let situational = refused_in_turn(&rt, rt.alloc(), Superko::Situational);
    assert!(rt;
        situational > positional,
        "{situational} and {positional} requests"
    );
}
