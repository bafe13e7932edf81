//! Each request for memory of a move, of a question and of a start is refused in turn.
use crate::games::{size_of, turn};
use crate::help::twins::{assert_same, assert_whole, plays};
use go_board::{Colour, Grid, Point};
use go_game::{Game, PlayError, SetupError, Superko};
use std::alloc::{AllocError, Allocator, Global};
use std::process::Abort;
use test_allocator::Refusing;

/// A colour, and the word of a vertex.
type Turn = (Colour, &'static [u8]);

/// A ko on four lines that White may not take back, passes or not, and a suicide.
const KO: &[Turn] = &[
    (Colour::Black, b"B3"),
    (Colour::Black, b"A2"),
    (Colour::Black, b"B1"),
    (Colour::White, b"C3"),
    (Colour::White, b"C1"),
    (Colour::White, b"D2"),
    (Colour::White, b"B2"),
    (Colour::Black, b"C2"),
    (Colour::White, b"B2"),
    (Colour::White, b"pass"),
    (Colour::Black, b"pass"),
    (Colour::White, b"B2"),
    (Colour::White, b"A1"),
    (Colour::Black, b"A1"),
    (Colour::Black, b"B2"),
];

/// A suicide of two stones on three lines, and passes.
const SUICIDE: &[Turn] = &[
    (Colour::Black, b"A1"),
    (Colour::White, b"A2"),
    (Colour::White, b"B2"),
    (Colour::White, b"C1"),
    (Colour::White, b"C1"),
    (Colour::Black, b"B1"),
    (Colour::White, b"pass"),
    (Colour::Black, b"A1"),
    (Colour::Black, b"B1"),
];

/// A game on `lines` lines by a rule, with a komi.
fn game_by<A: Allocator + Copy>(rt: &impl Abort, alloc: A, superko: Superko, lines: u8) -> Game<A> {
    let mut game = Game::new(alloc, size_of(rt, lines));
    game.set_superko(superko);
    game.set_komi(650);
    game
}

/// Turns in a game and its twin. Returns how many calls were refused.
fn make_turns<A: Allocator + Copy>(
    rt: &impl Abort,
    game: &mut Game<A>,
    twin: &mut Game<Global>,
    turns: &[Turn],
) -> u32 {
    let mut refused = 0u32;
    for (colour, word) in turns {
        let made = turn(rt, twin.size(), *colour, word);
        refused = refused.wrapping_add(plays(rt, game, twin, made));
    }
    refused
}

/// A worked example: the number of lines, the rule and the turns.
#[derive(Clone, Copy)]
struct Example {
    superko: Superko,
    lines: u8,
    turns: &'static [Turn],
}

/// The turns of an example in a game that takes its memory from here. Returns how many calls were refused.
fn turns_by(
    rt: &impl Abort,
    alloc: Global,
    example: Example,
    failing: impl Allocator + Copy,
) -> u32 {
    let mut game = game_by(rt, failing, example.superko, example.lines);
    let mut twin = game_by(rt, alloc, example.superko, example.lines);
    make_turns(rt, &mut game, &mut twin, example.turns)
}

/// Whether an example makes a request for memory with this number. Only that request is refused.
fn turns_meet(rt: &impl Abort, alloc: Global, example: Example, number: u64) -> bool {
    let failing = Refusing::nth_request(alloc, number);
    let refused = turns_by(rt, alloc, example, &failing);
    let is_met = !failing.waits();
    assert_eq!(rt; refused, u32::from(is_met), "request {number}");
    is_met
}

/// Each request for memory of turns on `lines` lines is refused in turn, by both rules, until none is
/// refused.
fn each_of_turns(rt: &impl Abort, alloc: Global, lines: u8, turns: &'static [Turn]) {
    for superko in [Superko::Positional, Superko::Situational] {
        let example = Example {
            superko,
            lines,
            turns,
        };
        let mut met = 0u32;
        for number in 1..40u64 {
            if !turns_meet(rt, alloc, example, number) {
                break;
            }
            met = met.wrapping_add(1);
        }
        assert!(rt; met > 2 && met < 39, "{met} requests");
    }
}

#[test]
fn each_request_of_a_ko(rt: HostRuntime) {
    each_of_turns(&rt, rt.alloc(), 4, KO);
}

#[test]
fn each_request_of_a_suicide(rt: HostRuntime) {
    each_of_turns(&rt, rt.alloc(), 3, SUICIDE);
}

/// Asks for a play that repeats the start, and makes it: each again where there was no memory. Returns how
/// often there was none.
fn repeats<A: Allocator + Copy>(
    rt: &impl Abort,
    game: &mut Game<A>,
    twin: &mut Game<Global>,
) -> u32 {
    let made = turn(rt, twin.size(), Colour::Black, b"A1");
    let mut refused = 0u32;
    let mut legal = game.legal(made);
    if legal == Err(AllocError) {
        assert_same(rt, game, twin);
        refused = 1;
        legal = game.legal(made);
    }
    assert!(rt; legal == Ok(false));
    let mut played = game.play(made);
    if played == Err(PlayError::Memory) {
        assert_same(rt, game, twin);
        refused = refused.wrapping_add(1);
        played = game.play(made);
    }
    assert!(rt; played == Err(PlayError::Repeats(0)));
    assert_whole(rt, game, twin);
    refused
}

/// The play on one point, in a game that takes its memory from here. Returns how many calls were refused.
fn repeats_by(rt: &impl Abort, alloc: Global, failing: impl Allocator + Copy) -> u32 {
    let mut game = game_by(rt, failing, Superko::Positional, 1);
    let mut twin = game_by(rt, alloc, Superko::Positional, 1);
    repeats(rt, &mut game, &mut twin)
}

/// Whether a play on one point makes a request for memory with this number. Only that request is refused.
fn repetition_meets(rt: &impl Abort, alloc: Global, number: u64) -> bool {
    let failing = Refusing::nth_request(alloc, number);
    let refused = repeats_by(rt, alloc, &failing);
    let is_met = !failing.waits();
    assert_eq!(rt; refused, u32::from(is_met), "request {number}");
    is_met
}

#[test]
fn each_request_of_a_repetition(rt: HostRuntime) {
    let mut met = 0u32;
    for number in 1..20u64 {
        if !repetition_meets(&rt, rt.alloc(), number) {
            break;
        }
        met = met.wrapping_add(1);
    }
    assert!(rt; met > 0 && met < 19, "{met} requests");
}

/// Five lines with stones of both colours.
fn grid_of_stones(rt: &impl Abort) -> Grid {
    let mut grid = Grid::new(size_of(rt, 5));
    for number in 0..20u16 {
        let p = Point::nth(grid.size(), number).expect(rt, "a point");
        match number % 5 {
            0 | 1 => grid.set(p, Some(Colour::Black)),
            3 | 4 => grid.set(p, Some(Colour::White)),
            _ => {}
        }
    }
    grid
}

/// Asserts that a game from a grid equals one that has enough memory.
fn starts_as_twin<A: Allocator + Copy>(
    rt: &impl Abort,
    alloc: Global,
    grid: &Grid,
    game: &Game<A>,
) {
    let twin = Game::start_from(alloc, grid, Colour::White).expect(rt, "a start");
    assert_same(rt, game, &twin);
}

/// Whether a game from a grid begins. It takes its memory from here, and begins unless there is none.
fn begins_by(rt: &impl Abort, alloc: Global, grid: &Grid, failing: impl Allocator + Copy) -> bool {
    match Game::start_from(failing, grid, Colour::White) {
        Ok(game) => {
            starts_as_twin(rt, alloc, grid, &game);
            true
        }
        Err(why) => {
            assert!(rt; why == SetupError::Memory);
            false
        }
    }
}

/// Whether a start makes a request for memory with this number. Only that request is refused.
fn start_meets(rt: &impl Abort, alloc: Global, grid: &Grid, number: u64) -> bool {
    let failing = Refusing::nth_request(alloc, number);
    let begun = begins_by(rt, alloc, grid, &failing);
    let is_met = !failing.waits();
    assert!(rt; begun != is_met, "request {number}");
    is_met
}

#[test]
fn each_request_of_a_start(rt: HostRuntime) {
    let grid = grid_of_stones(&rt);
    let mut met = 0u32;
    for number in 1..60u64 {
        if !start_meets(&rt, rt.alloc(), &grid, number) {
            break;
        }
        met = met.wrapping_add(1);
    }
    assert!(rt; met > 2 && met < 59, "{met} requests");
}

/// Asserts that a game that had no memory to begin anew from a grid has an empty board of the new
/// size, as its twin gets, and can begin anew once more.
fn begins_again<A: Allocator + Copy>(
    rt: &impl Abort,
    game: &mut Game<A>,
    twin: &mut Game<Global>,
    grid: &Grid,
) {
    twin.resize(grid.size());
    assert_whole(rt, game, twin);
    assert!(rt; game.begin_from(grid, Colour::White) == Ok(()));
}

/// Whether a game that takes its memory from here begins anew from a grid at once.
fn begins_anew_by(
    rt: &impl Abort,
    alloc: Global,
    grid: &Grid,
    failing: impl Allocator + Copy,
) -> bool {
    let mut game = game_by(rt, failing, Superko::Situational, 3);
    let mut twin = game_by(rt, alloc, Superko::Situational, 3);
    let begun = game.begin_from(grid, Colour::White);
    if begun != Ok(()) {
        assert!(rt; begun == Err(SetupError::Memory));
        begins_again(rt, &mut game, &mut twin, grid);
    }
    assert!(rt; twin.begin_from(grid, Colour::White) == Ok(()));
    assert_same(rt, &game, &twin);
    begun == Ok(())
}

/// Whether a game that begins anew makes a request for memory with this number. Only that request is refused.
fn anew_meets(rt: &impl Abort, alloc: Global, grid: &Grid, number: u64) -> bool {
    let failing = Refusing::nth_request(alloc, number);
    let begun = begins_anew_by(rt, alloc, grid, &failing);
    let is_met = !failing.waits();
    assert!(rt; begun != is_met, "request {number}");
    is_met
}

#[test]
fn each_request_of_a_game_begun_anew(rt: HostRuntime) {
    let grid = grid_of_stones(&rt);
    let mut met = 0u32;
    for number in 1..60u64 {
        if !anew_meets(&rt, rt.alloc(), &grid, number) {
            break;
        }
        met = met.wrapping_add(1);
    }
    assert!(rt; met > 2 && met < 59, "{met} requests");
}
