//! Which move a game chooses, and which moves it says are legal: worked examples, and runs in which each
//! request for memory is refused in turn.
use crate::games::{CAPTURE, Step, example, follow, grid_of, size_of};
use crate::help::twins::{assert_same, assert_whole, plays};
use go_board::{Colour, Move, Point, Taken, Vertex};
use go_game::Game;
use std::alloc::{AllocError, Allocator, Global};
use std::process::Abort;
use test_allocator::Refusing;

const ON_ONE_POINT: &[Step] = &[
    Step::Chooses(Colour::Black, b"pass"),
    Step::Forbids(Colour::Black, b"a1"),
];

const ON_THREE_LINES: &[Step] = &[
    Step::Chooses(Colour::Black, b"B2"),
    Step::HasTaken { black: 0, moves: 0 },
    Step::Chooses(Colour::Black, b"B2"),
    Step::Plays(Colour::Black, b"B2"),
    Step::Chooses(Colour::White, b"A1"),
    Step::Plays(Colour::White, b"A1"),
];

#[test]
fn choice_on_tiny_boards(rt: HostRuntime) {
    let mut game = Game::new(rt.alloc(), size_of(&rt, 1));
    follow(&rt, &mut game, ON_ONE_POINT);
    game.resize(size_of(&rt, 3));
    follow(&rt, &mut game, ON_THREE_LINES);
    assert!(rt; game.margin() == 0);
}

const ON_TWO_LINES: &[Step] = &[
    Step::Chooses(Colour::Black, b"A1"),
    Step::Plays(Colour::Black, b"A1"),
    Step::Chooses(Colour::White, b"B2"),
    Step::Plays(Colour::White, b"B2"),
    Step::Chooses(Colour::Black, b"B1"),
    Step::Plays(Colour::Black, b"B1"),
    Step::Chooses(Colour::White, b"A2"),
    Step::Takes(Colour::White, b"A2", Taken { theirs: 2, own: 0 }),
    Step::Chooses(Colour::Black, b"A1"),
    Step::Plays(Colour::Black, b"A1"),
];

#[test]
fn choice_on_two_lines(rt: HostRuntime) {
    let mut game = Game::new(rt.alloc(), size_of(&rt, 2));
    follow(&rt, &mut game, ON_TWO_LINES);
    for _ in 0..5 {
        assert!(rt; game.undo().is_some());
    }
    assert!(rt; game.undo().is_none());
}

const ALL_OPEN: &[Step] = &[
    Step::Allows(Colour::White, b"A1"),
    Step::Allows(Colour::White, b"B1"),
    Step::Allows(Colour::White, b"A2"),
    Step::Allows(Colour::White, b"B2"),
    Step::Allows(Colour::White, b"pass"),
];

#[test]
fn legal_plays_on_two_lines(rt: HostRuntime) {
    let mut game = Game::new(rt.alloc(), size_of(&rt, 2));
    follow(&rt, &mut game, ALL_OPEN);
    let off = Move {
        colour: Colour::White,
        vertex: Vertex::At(Point { col: 2, row: 0 }),
    };
    assert!(rt; !game.legal(off).expect(&rt, "memory"));
    assert_eq!(rt; game.move_count(), 0);
}

const AFTER_A_CAPTURE: &[Step] = &[
    Step::Forbids(Colour::Black, b"A1"),
    Step::Forbids(Colour::Black, b"B1"),
    Step::Forbids(Colour::Black, b"A2"),
    Step::Forbids(Colour::Black, b"B2"),
    Step::Allows(Colour::White, b"A1"),
    Step::Forbids(Colour::White, b"B1"),
    Step::Forbids(Colour::White, b"A2"),
    Step::Allows(Colour::White, b"B2"),
    Step::Chooses(Colour::Black, b"pass"),
    Step::HasTaken { black: 1, moves: 3 },
];

#[test]
fn legal_plays_after_a_capture(rt: HostRuntime) {
    let game = Game::new(rt.alloc(), size_of(&rt, 2));
    example(&rt, game, &[CAPTURE, AFTER_A_CAPTURE]);
}

/// Black's A1 would repeat the position before the suicide, and take nothing.
const AFTER_A_SUICIDE: &[Step] = &[
    Step::Plays(Colour::Black, b"A1"),
    Step::Plays(Colour::White, b"A2"),
    Step::Plays(Colour::White, b"B2"),
    Step::Plays(Colour::White, b"C1"),
    Step::Takes(Colour::Black, b"B1", Taken { theirs: 0, own: 2 }),
    Step::Forbids(Colour::Black, b"A1"),
    Step::Chooses(Colour::Black, b"B3"),
];

#[test]
fn choice_beside_a_quiet_repetition(rt: HostRuntime) {
    let game = Game::new(rt.alloc(), size_of(&rt, 3));
    example(&rt, game, &[AFTER_A_SUICIDE]);
}

/// Asks for the choice, which is this move, and again where there was no memory. Returns how often there was
/// none. The game answers as its twin does, before and after.
fn asks_choice<A: Allocator + Copy>(
    rt: &impl Abort,
    game: &mut Game<A>,
    twin: &mut Game<Global>,
    made: Move,
) -> u32 {
    let mut refused = 0u32;
    if game.choose(made.colour) == Err(AllocError) {
        assert_whole(rt, game, twin);
        refused = 1;
    }
    assert!(rt; game.choose(made.colour) == Ok(made.vertex));
    assert_same(rt, game, twin);
    refused
}

/// Asks whether a move is legal, which it is. The rest is as in `asks_choice`.
fn asks_legal<A: Allocator + Copy>(
    rt: &impl Abort,
    game: &mut Game<A>,
    twin: &mut Game<Global>,
    made: Move,
) -> u32 {
    let mut refused = 0u32;
    if game.legal(made) == Err(AllocError) {
        assert_whole(rt, game, twin);
        refused = 1;
    }
    assert!(rt; game.legal(made) == Ok(true));
    assert_same(rt, game, twin);
    refused
}

/// Asks for a move, and plays it in both games. Returns how many calls were refused.
fn asks_and_plays<A: Allocator + Copy>(
    rt: &impl Abort,
    game: &mut Game<A>,
    twin: &mut Game<Global>,
    made: Move,
    is_chosen: bool,
) -> u32 {
    let asked = if is_chosen {
        asks_choice(rt, game, twin, made)
    } else {
        asks_legal(rt, game, twin, made)
    };
    let played = plays(rt, game, twin, made);
    asked.wrapping_add(played)
}

const A1: Point = Point { col: 0, row: 0 };

const B1: Point = Point { col: 1, row: 0 };

const A2: Point = Point { col: 0, row: 1 };

const B2: Point = Point { col: 1, row: 1 };

/// Five moves on two lines, each asked for and then played. Returns how many calls were refused.
fn five_moves<A: Allocator + Copy>(
    rt: &impl Abort,
    alloc: Global,
    game: &mut Game<A>,
    is_chosen: bool,
) -> u32 {
    let mut twin = Game::new(alloc, size_of(rt, 2));
    let mut refused = 0u32;
    let mut colour = Colour::Black;
    for at in [A1, B2, B1, A2, A1] {
        let vertex = Vertex::At(at);
        let made = Move { colour, vertex };
        let met = asks_and_plays(rt, game, &mut twin, made, is_chosen);
        refused = refused.wrapping_add(met);
        colour = colour.other();
    }
    refused
}

/// The five moves in a game that takes its memory from here. Returns how many calls were refused.
fn five_moves_by(
    rt: &impl Abort,
    alloc: Global,
    failing: impl Allocator + Copy,
    is_chosen: bool,
) -> u32 {
    let mut game = Game::new(failing, size_of(rt, 2));
    five_moves(rt, alloc, &mut game, is_chosen)
}

/// Whether the five moves make a request for memory with this number. Only that request is refused.
fn meets_request(rt: &impl Abort, alloc: Global, number: u64, is_chosen: bool) -> bool {
    let failing = Refusing::nth_request(alloc, number);
    let refused = five_moves_by(rt, alloc, &failing, is_chosen);
    let is_met = !failing.waits();
    assert_eq!(rt; refused, u32::from(is_met), "request {number}");
    is_met
}

/// Each request for memory of the five moves is refused in turn, until a run meets no refusal.
fn refused_in_turn(rt: &impl Abort, alloc: Global, is_chosen: bool) {
    let mut met = 0u32;
    for number in 1..20u64 {
        if !meets_request(rt, alloc, number, is_chosen) {
            break;
        }
        met = met.wrapping_add(1);
    }
    assert!(rt; met > 0 && met < 19, "{met} requests");
}

#[test]
fn each_request_of_a_choice_refused(rt: HostRuntime) {
    refused_in_turn(&rt, rt.alloc(), true);
}

#[test]
fn each_request_of_a_legal_refused(rt: HostRuntime) {
    refused_in_turn(&rt, rt.alloc(), false);
}

/// Whether a choice on one point makes a request for memory with this number. Only that request is refused.
/// The only play there may take a stone, its own, so it is tried.
fn choice_meets_request(rt: &impl Abort, alloc: Global, number: u64) -> bool {
    let failing = Refusing::nth_request(alloc, number);
    let mut game = Game::new(&failing, size_of(rt, 1));
    let mut twin = Game::new(alloc, size_of(rt, 1));
    let pass = Move {
        colour: Colour::Black,
        vertex: Vertex::Pass,
    };
    let refused = asks_choice(rt, &mut game, &mut twin, pass);
    let is_met = !failing.waits();
    assert_eq!(rt; refused, u32::from(is_met), "request {number}");
    is_met
}

#[test]
fn each_request_of_a_tried_play_refused(rt: HostRuntime) {
    let mut met = 0u32;
    for number in 1..10u64 {
        if !choice_meets_request(&rt, rt.alloc(), number) {
            break;
        }
        met = met.wrapping_add(1);
    }
    assert!(rt; met > 0 && met < 9, "{met} requests");
}

/// A black stone in the corner that White takes from B1, and nothing repeats.
const LAST_LIBERTY: &[(Colour, Point)] = &[(Colour::Black, A1), (Colour::White, A2)];

/// Asks for the capture in a game from the grid before it. The game takes its memory from here. Returns how
/// often there was no memory, or None if there was none for the start.
fn asks_capture(
    rt: &impl Abort,
    alloc: Global,
    failing: impl Allocator + Copy,
    is_chosen: bool,
) -> Option<u32> {
    let grid = grid_of(rt, 2, LAST_LIBERTY);
    let mut game = Game::start_from(failing, &grid, Colour::White).ok()?;
    let mut twin = Game::start_from(alloc, &grid, Colour::White).expect(rt, "a start");
    let made = Move {
        colour: Colour::White,
        vertex: Vertex::At(B1),
    };
    Some(if is_chosen {
        asks_choice(rt, &mut game, &mut twin, made)
    } else {
        asks_legal(rt, &mut game, &mut twin, made)
    })
}

/// Each request for memory of the capture is refused in turn, until a run meets no refusal. The log
/// grows for it, and the history notes more.
fn capture_refused_in_turn(rt: &impl Abort, alloc: Global, is_chosen: bool) {
    let mut met = 0u32;
    let mut is_done = false;
    for number in 1..40u64 {
        let failing = Refusing::nth_request(alloc, number);
        let refused = asks_capture(rt, alloc, &failing, is_chosen);
        if failing.waits() {
            assert!(rt; refused == Some(0));
            is_done = true;
            break;
        }
        assert!(rt; refused.is_none() || refused == Some(1), "request {number}");
        met = met.wrapping_add(refused.unwrap_or(0));
    }
    assert!(rt; is_done && met > 1, "{met} requests");
}

#[test]
fn each_request_of_a_chosen_capture_refused(rt: HostRuntime) {
    capture_refused_in_turn(&rt, rt.alloc(), true);
}

#[test]
fn each_request_of_a_legal_capture_refused(rt: HostRuntime) {
    capture_refused_in_turn(&rt, rt.alloc(), false);
}
