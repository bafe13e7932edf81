//! No call of a game asks for many times the memory that it needs, on boards of all sizes.
use crate::games::size_of;
use go_board::{Colour, Grid, MAX_LINES, Move, Point, Vertex};
use go_game::Game;
use std::alloc::Allocator;
use std::process::Abort;
use test_allocator::Refusing;

/// What a short game, or a start from a grid, may ask for in all. The log of plays needs some 182
/// kilobytes to begin with, and twice that when it grows; the rest is for stones and moves.
const GAME: u64 = 600_000;

/// What the first play of a game, and its undo, may ask for in all: the log has no room for a second
/// one yet.
const FIRST_PLAY: u64 = 220_000;

/// What a game chooses for a colour is legal, and is played.
fn plays_choice<A: Allocator + Copy>(rt: &impl Abort, game: &mut Game<A>, colour: Colour) {
    let vertex = game.choose(colour).expect(rt, "a choice");
    let made = Move { colour, vertex };
    assert!(rt; game.legal(made) == Ok(true));
    assert!(rt; game.play(made).is_ok());
}

/// How many plays are taken back and made again.
const AGAIN: u8 = 12;

/// Plays of both colours in turn.
fn plays_in_turn<A: Allocator + Copy>(rt: &impl Abort, game: &mut Game<A>) {
    let mut colour = Colour::Black;
    for _ in 0..AGAIN {
        plays_choice(rt, game, colour);
        colour = colour.other();
    }
}

/// Two plays and a pass on `lines` lines, all of them taken back.
fn makes_moves(rt: &impl Abort, alloc: impl Allocator + Copy, lines: u8) {
    let mut game = Game::new(alloc, size_of(rt, lines));
    plays_choice(rt, &mut game, Colour::Black);
    plays_choice(rt, &mut game, Colour::White);
    let pass = Move {
        colour: Colour::Black,
        vertex: Vertex::Pass,
    };
    assert!(rt; game.play(pass).is_ok());
    for _ in 0..3u8 {
        assert!(rt; game.undo().is_some());
    }
}

/// A game on `lines` lines, one play and its undo.
fn plays_once(rt: &impl Abort, alloc: impl Allocator + Copy, lines: u8) {
    let mut game = Game::new(alloc, size_of(rt, lines));
    plays_choice(rt, &mut game, Colour::Black);
    assert!(rt; game.undo().is_some());
}

/// A start on `lines` lines with stones on all points but the first.
fn starts_full(rt: &impl Abort, alloc: impl Allocator + Copy, lines: u8) {
    let mut grid = Grid::new(size_of(rt, lines));
    for number in 1..grid.size().points() {
        let p = Point::nth(grid.size(), number).expect(rt, "a point");
        grid.set(p, Some(Colour::Black));
    }
    assert!(rt; Game::start_from(alloc, &grid, Colour::White).is_ok());
}

#[test]
fn little_memory_on_each_size(rt: HostRuntime) {
    for lines in 1..=MAX_LINES {
        let for_moves = Refusing::beyond_bytes(rt.alloc(), GAME);
        makes_moves(&rt, &for_moves, lines);
        let for_start = Refusing::beyond_bytes(rt.alloc(), GAME);
        starts_full(&rt, &for_start, lines);
    }
}

#[test]
fn room_for_one_play_on_each_size(rt: HostRuntime) {
    for lines in 1..=MAX_LINES {
        let limited = Refusing::beyond_bytes(rt.alloc(), FIRST_PLAY);
        plays_once(&rt, &limited, lines);
    }
}

#[test]
fn no_memory_is_asked_for_where_plays_left_room(rt: HostRuntime) {
    let limited = Refusing::beyond_bytes(rt.alloc(), GAME);
    let mut game = Game::new(&limited, size_of(&rt, 9));
    plays_in_turn(&rt, &mut game);
    let left = limited.left();
    for _ in 0..AGAIN {
        assert!(rt; game.undo().is_some());
    }
    plays_in_turn(&rt, &mut game);
    assert_eq!(rt; limited.left(), left);
}
