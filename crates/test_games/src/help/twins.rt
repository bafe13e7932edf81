//! Two games that must give equal answers: one whose memory may be refused, and a twin that has enough.
use go_board::{Colour, Move, Point, Vertex};
use go_game::{Game, PlayError};
use std::alloc::{Allocator, Global};
use std::process::Abort;

/// Asserts that two games have the same moves, and that it is the same colour's turn.
fn same_turns<A: Allocator + Copy>(rt: &impl Abort, game: &Game<A>, twin: &Game<Global>) {
    assert!(rt; game.mover() == twin.mover() && game.start_mover() == twin.start_mover());
    assert!(rt; game.is_vacant() == twin.is_vacant());
    assert_eq!(rt; game.move_count(), twin.move_count());
    for number in 0..twin.move_count() {
        assert!(rt; game.move_at(number) == twin.move_at(number));
    }
}

/// Asserts that two games have the same colours.
fn same_colours<A: Allocator + Copy>(rt: &impl Abort, game: &Game<A>, twin: &Game<Global>) {
    let size = twin.size();
    for number in 0..size.points() {
        let p = Point::numbered(size, number);
        assert!(rt; p.on(game.size()));
        assert!(rt; game.colour_at(p) == twin.colour_at(p));
        assert!(rt; game.start_at(p) == twin.start_at(p));
    }
}

/// Asserts that two games give a point the same chain and the same liberties.
fn same_chain_of<A: Allocator + Copy>(
    rt: &impl Abort,
    game: &Game<A>,
    twin: &Game<Global>,
    p: Point,
) {
    let size = twin.size();
    for number in 0..size.points() {
        let q = Point::numbered(size, number);
        if p.on(game.size()) && p.on(size) && q.on(game.size()) {
            assert!(rt; game.same_chain(p, q) == twin.same_chain(p, q));
            assert!(rt; game.is_liberty(p, q) == twin.is_liberty(p, q));
        }
    }
}

/// Asserts that two games have the same chains and the same liberties.
fn same_chains<A: Allocator + Copy>(rt: &impl Abort, game: &Game<A>, twin: &Game<Global>) {
    for number in 0..twin.size().points() {
        same_chain_of(rt, game, twin, Point::numbered(twin.size(), number));
    }
}

/// Asserts that two games give equal answers to each question that takes no memory.
pub fn assert_same<A: Allocator + Copy>(rt: &impl Abort, game: &Game<A>, twin: &Game<Global>) {
    assert!(rt; game.size() == twin.size() && game.komi() == twin.komi());
    assert!(rt; game.superko() == twin.superko());
    assert!(rt; game.area() == twin.area() && game.margin() == twin.margin());
    for colour in [Colour::Black, Colour::White] {
        assert!(rt; game.prisoners(colour) == twin.prisoners(colour));
    }
    same_turns(rt, game, twin);
    same_colours(rt, game, twin);
    same_chains(rt, game, twin);
}

/// Asserts that in two games a colour may play on the same points.
fn same_plays<A: Allocator + Copy>(
    rt: &impl Abort,
    game: &mut Game<A>,
    twin: &mut Game<Global>,
    colour: Colour,
) {
    let size = twin.size();
    for number in 0..size.points() {
        let vertex = Vertex::At(Point::numbered(size, number));
        let made = Move { colour, vertex };
        let legal = twin.legal(made).expect(rt, "memory");
        assert!(rt; game.legal(made) == Ok(legal));
    }
}

/// Asserts that two games give equal answers to each question, where there is memory for the answers.
pub fn assert_whole<A: Allocator + Copy>(
    rt: &impl Abort,
    game: &mut Game<A>,
    twin: &mut Game<Global>,
) {
    assert_same(rt, game, twin);
    for colour in [Colour::Black, Colour::White] {
        same_plays(rt, game, twin, colour);
    }
}

/// Makes a move in both games, and again where the first had no memory for it. That game's state is then the
/// state before the move. The answer is the twin's. Returns how often there was no memory.
pub fn plays<A: Allocator + Copy>(
    rt: &impl Abort,
    game: &mut Game<A>,
    twin: &mut Game<Global>,
    made: Move,
) -> u32 {
    let mut refused = 0u32;
    let mut played = game.play(made);
    if played == Err(PlayError::Memory) {
        assert_whole(rt, game, twin);
        refused = 1;
        played = game.play(made);
    }
    assert!(rt; played == twin.play(made));
    assert_same(rt, game, twin);
    refused
}
