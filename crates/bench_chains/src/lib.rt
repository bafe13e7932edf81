//! Random games on chain tables, to be timed: played, asked, and taken back.
#![tactic(auto)]

ghost use Rattle.std.specs.Prelude.{◌≡◌};

use go_board::{Colour, Meter, Point, Size};
use go_chains::{Board, Log};
use std::alloc::{Allocator, Global};

/// A sum that depends on each number that went into it, and on their order.
fn mixed(sum: u64, number: u16) -> u64 {
    sum.wrapping_mul(31).wrapping_add(u64::from(number))
}

/// The sizes and liberties of the chains of all stones.
fn asked(board: &Board, sum: u64) -> u64 {
    let size = board.size();
    let mut sum = sum;
    for number in 0..size.points() {
        let p = Point::numbered(size, number);
        if board.colour_at(p).is_some() {
            sum = mixed(mixed(sum, board.stones_of(p)), board.liberties_of(p));
        }
    }
    sum
}

/// Plays the moves from one of them on, asks the board that is left, and takes all of them back. A
/// move is twice its point's number, and one more for White; on a stone it is left out.
fn play_on<A: Allocator + Copy>(
    board: &mut Board,
    log: &mut Log<A>,
    meter: &mut Meter,
    moves: &[u16],
    from: usize,
    sum: u64,
) -> u64
    ensures lines { board.new.lines ≡ board.old.lines }
    ensures cells { board.new.cells ≡ board.old.cells }
    ensures log { log.new ≡ log.old }
{
    if from >= moves.len() {
        return asked(board, sum);
    }
    let made = moves[from];
    let size = board.size();
    let p = Point::numbered(size, made / 2 % size.points());
    let colour = if made.is_multiple_of(2) {
        Colour::Black
    } else {
        Colour::White
    };
    let Ok(taken) = board.play(log, meter, colour, p) else {
        return play_on(board, log, meter, moves, from + 1, sum);
    };
    let sum = mixed(mixed(sum, taken.theirs), taken.own);
    let sum = play_on(board, log, meter, moves, from + 1, sum);
    board.rewind(log, meter);
    sum
}

/// Plays and takes back games of `length` moves each, one after another, `rounds` times.
#[unsafe(no_mangle)]
pub extern "C" fn goref_bench_chains(
    alloc: Global,
    lines: u8,
    moves: &[u16],
    length: usize,
    rounds: u32,
) -> u64 {
    let Some(size) = Size::new(lines) else {
        return 0;
    };
    if length == 0 {
        return 0;
    }
    let mut sum = 0;
    let mut board = Board::new(size);
    let mut log = Log::new(alloc);
    let mut meter = Meter::new();
    for _ in 0..rounds {
        for game in moves.chunks(length) {
            sum = play_on(&mut board, &mut log, &mut meter, game, 0, sum);
        }
    }
    sum
}
