//! Boards of `go_chains` compared with grids, after each random play and after each play that is taken back.
//! In other runs each request for memory of a play is refused in turn.
ghost use Rattle.std.specs.Prelude.{◌≡◌};
ghost use Rattle.go_board.specs.Points.{IsOn};

use crate::games::size_of;
use crate::help::drawn::any_colour;
use go_board::{Colour, Grid, Meter, Point, Size, plain};
use go_chains::{Board, Log, PlaceError};
use rand_core::Rng;
use rand_pcg::Pcg32;
use std::alloc::{Allocator, Global};
use std::process::Abort;
use test_allocator::Refusing;

/// Draws a point of a board.
fn any_point(random: &mut Pcg32, size: Size) -> Point
    ensures { IsOn size result }
{
    let number = random.next_u32() % u32::from(size.points());
    Point::numbered(size, number as u16)
}

/// Whether a board and a grid have the same size, the same pack, and the same colour at each point.
fn same_colours(rt: &impl Abort, board: &Board, grid: &Grid) {
    let size = board.size();
    assert!(rt; grid.size() == size);
    assert!(rt; board.pack() == grid.pack());
    let copy = board.grid();
    for number in 0..size.points() {
        let p = Point::numbered(size, number);
        assert!(rt; board.colour_at(p) == grid.get(p));
        assert!(rt; copy.get(p) == grid.get(p));
    }
}

/// Compares each answer about the chain of a stone, by the board and by a grid.
fn same_chain_of(rt: &impl Abort, board: &Board, grid: &Grid, p: Point)
    requires board { IsOn board.now.lines p }
    requires grid { grid.now.lines ≡ board.now.lines }
{
    if board.colour_at(p).is_none() {
        return;
    }
    let size = board.size();
    let mut stones = 0u16;
    for number in 0..size.points() {
        let q = Point::numbered(size, number);
        let is_stone = board.colour_at(q).is_some();
        let joined = is_stone && plain::same_chain(grid, p, q);
        if is_stone {
            assert!(rt; board.same_chain(p, q) == joined);
        }
        stones = stones.wrapping_add(u16::from(joined));
        assert!(rt; board.is_liberty(p, q) == plain::is_liberty(grid, p, q));
    }
    assert!(rt; board.stones_of(p) == stones);
    assert!(rt; board.liberties_of(p) == plain::liberties_of(grid, p));
}

/// Compares the board's answers with those of the grid: about each stone on a small board, else about a few.
fn same_answers(rt: &impl Abort, board: &Board, grid: &Grid, random: &mut Pcg32) {
    same_colours(rt, board, grid);
    let size = board.size();
    assert!(rt; grid.size() == size);
    if size.lines() < 5 {
        for number in 0..size.points() {
            same_chain_of(rt, board, grid, Point::numbered(size, number));
        }
    } else {
        for _ in 0..2 {
            same_chain_of(rt, board, grid, any_point(random, size));
        }
    }
}

/// What drives an exploration: its random numbers, and how many plays it may make yet.
#[derive(Drop)]
struct Walk {
    random: Pcg32,
    left: u32,
}

/// Compares a board and the number of plays in its log with what they must be.
fn agrees<A: Allocator + Copy>(
    rt: &impl Abort,
    board: &Board,
    log: &Log<A>,
    grid: &Grid,
    plays: usize,
    walk: &mut Walk,
) {
    assert_eq!(rt; log.plays(), plays);
    same_answers(rt, board, grid, &mut walk.random);
}

/// Plays on some point, goes on from there, takes the play back, and goes on without it. After each
/// play and each taking back the board is compared with a grid.
fn explore<A: Allocator + Copy>(
    rt: &impl Abort,
    board: &mut Board,
    log: &mut Log<A>,
    grid: &Grid,
    walk: &mut Walk,
    depth: u16,
)
    requires { grid.now.lines ≡ board.old.lines }
    ensures lines { board.new.lines ≡ board.old.lines }
    ensures cells { board.new.cells ≡ board.old.cells }
    ensures log { log.new ≡ log.old }
{
    if depth == 0 || walk.left == 0 {
        return;
    }
    let plays = log.plays();
    let p = any_point(&mut walk.random, board.size());
    let colour = any_colour(&mut walk.random);
    let mut meter = Meter::new();
    let made = board.play(log, &mut meter, colour, p);
    if let Ok(taken) = made {
        walk.left -= 1;
        let mut after = grid.copy();
        assert!(rt; grid.get(p).is_none());
        assert!(rt; plain::place(&mut after, colour, p) == taken);
        agrees(rt, board, log, &after, plays.wrapping_add(1), walk);
        explore(rt, board, log, &after, walk, depth - 1);
        board.rewind(log, &mut meter);
    } else {
        assert!(rt; made == Err(PlaceError::Occupied));
        assert!(rt; grid.get(p).is_some());
    }
    agrees(rt, board, log, grid, plays, walk);
    explore(rt, board, log, grid, walk, depth - 1);
}

/// Explores a board of `lines` lines, from the empty board on.
fn explore_board(rt: &impl Abort, alloc: Global, lines: u8, left: u32, depth: u16) {
    let size = size_of(rt, lines);
    let mut board = Board::new(size);
    let mut log = Log::new(alloc);
    let grid = Grid::new(size);
    let random = Pcg32::new(u64::from(left), u64::from(lines));
    let mut walk = Walk { random, left };
    explore(rt, &mut board, &mut log, &grid, &mut walk, depth);
    assert_eq!(rt; walk.left, 0);
    agrees(rt, &board, &log, &grid, 0, &mut walk);
}

/// Plays on a random point if it is empty, and compares the board with a grid.
fn play_once<A: Allocator + Copy>(
    rt: &impl Abort,
    board: &mut Board,
    log: &mut Log<A>,
    random: &mut Pcg32,
) {
    let p = any_point(random, board.size());
    let colour = any_colour(random);
    let mut after = board.grid();
    if after.get(p).is_some() {
        return;
    }
    plain::place(&mut after, colour, p);
    assert!(rt; board.play(log, &mut Meter::new(), colour, p).is_ok());
    same_answers(rt, board, &after, random);
}

#[test]
fn an_emptied_board_is_as_a_new_one(rt: HostRuntime) {
    let mut random = Pcg32::new(3, 5);
    let mut board = Board::new(size_of(&rt, 4));
    for lines in [4, 9, 2, 25, 4u8] {
        let mut log = Log::new(rt.alloc());
        for _ in 0..40u8 {
            play_once(&rt, &mut board, &mut log, &mut random);
        }
        let size = size_of(&rt, lines);
        board.clear(size);
        same_answers(&rt, &board, &Grid::new(size), &mut random);
    }
}

#[test]
fn small_boards_as_the_plain_body(rt: HostRuntime) {
    for lines in 1..6u8 {
        for left in 300..304u32 {
            explore_board(&rt, rt.alloc(), lines, left, 60);
        }
    }
}

#[test]
fn middle_boards_as_the_plain_body(rt: HostRuntime) {
    for lines in 6..10u8 {
        for left in 400..402u32 {
            explore_board(&rt, rt.alloc(), lines, left, 300);
        }
    }
}

#[test]
fn large_boards_as_the_plain_body(rt: HostRuntime) {
    for left in 700..702u32 {
        explore_board(&rt, rt.alloc(), 19, left, 900);
    }
}

#[test]
fn the_largest_board_as_the_plain_body(rt: HostRuntime) {
    explore_board(&rt, rt.alloc(), 25, 800, 900);
}

/// Plays on each point in turn, and again where memory was refused. Returns how many plays were refused. The
/// last play takes all stones.
fn script<A: Allocator + Copy>(rt: &impl Abort, board: &mut Board, log: &mut Log<A>) -> u32 {
    let mut random = Pcg32::new(1, 1);
    let mut refused = 0u32;
    for number in 0..board.size().points() {
        let p = Point::nth(board.size(), number).expect(rt, "a point");
        let before = board.grid();
        let plays = log.plays();
        let made = board.play(log, &mut Meter::new(), Colour::Black, p);
        if made == Err(PlaceError::Memory) {
            refused = refused.wrapping_add(1);
            assert!(rt; log.plays() == plays);
            same_answers(rt, board, &before, &mut random);
            assert!(rt; board.play(log, &mut Meter::new(), Colour::Black, p).is_ok());
        }
        assert!(rt; log.plays() == plays.wrapping_add(1));
    }
    refused
}

/// The script on four lines, with a log that takes its memory from here. Returns how many plays were refused.
fn script_by(rt: &impl Abort, alloc: impl Allocator + Copy) -> u32 {
    let mut board = Board::new(size_of(rt, 4));
    let mut log = Log::new(alloc);
    script(rt, &mut board, &mut log)
}

/// Whether the script makes a request for memory with this number. Only that request is refused.
fn meets_request(rt: &impl Abort, alloc: Global, number: u64) -> bool {
    let failing = Refusing::nth_request(alloc, number);
    let refused = script_by(rt, &failing);
    let is_met = !failing.waits();
    assert_eq!(rt; refused, u32::from(is_met), "request {number}");
    is_met
}

#[test]
fn each_request_of_a_play_refused(rt: HostRuntime) {
    let mut met = 0u32;
    for number in 1..60u64 {
        if !meets_request(&rt, rt.alloc(), number) {
            break;
        }
        met = met.wrapping_add(1);
    }
    assert!(rt; met > 1 && met < 50, "{met} requests");
}
