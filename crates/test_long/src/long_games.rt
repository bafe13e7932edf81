//! Games of more plays than two bytes count, and the memory that they ask for.
use go_board::{Colour, Grid, Move, Point, Size, Vertex};
use go_game::Game;
use rand_core::Rng;
use rand_pcg::Pcg32;
use std::alloc::{AllocError, Allocator, Global};
use std::process::Abort;
use std::test::Fail;
use test_allocator::Refusing;

/// The size of 19 lines.
pub(crate) fn nineteen(rt: &impl Abort) -> Size {
    Size::new(19).expect(rt, "a size")
}

/// Draws a colour and a point.
fn any_play(rt: &impl Abort, random: &mut Pcg32, size: Size) -> Move {
    let colour = if random.next_u32().is_multiple_of(2) {
        Colour::Black
    } else {
        Colour::White
    };
    let number = random.next_u32() % u32::from(size.points());
    let p = Point::nth(size, number as u16).expect(rt, "a point");
    Move {
        colour,
        vertex: Vertex::At(p),
    }
}

/// Most random points have a stone. At most this many are drawn for a play.
const DRAWN: u32 = 60;

/// Makes plays of random colours on random points, until there are this many more moves, and returns them.
pub(crate) fn plays_on<A: Allocator + Copy>(
    rt: &impl Abort,
    alloc: Global,
    game: &mut Game<A>,
    plays: u32,
) -> Result<Vec<Move>, AllocError> {
    let mut random = Pcg32::new(1, 19);
    let mut moves = Vec::new(alloc);
    for _ in 0..plays.saturating_mul(DRAWN) {
        if moves.len() as u64 == u64::from(plays) {
            break;
        }
        let made = any_play(rt, &mut random, game.size());
        if game.play(made).is_ok() {
            moves.push(made)?;
        }
    }
    assert!(rt; moves.len() as u64 == u64::from(plays));
    Ok(moves)
}

/// The stones on the board.
fn shown<A: Allocator + Copy>(game: &Game<A>) -> Grid {
    let mut grid = Grid::new(game.size());
    for number in 0..game.size().points() {
        let p = Point::numbered(game.size(), number);
        if p.on(game.size()) && p.on(grid.size()) {
            grid.set(p, game.colour_at(p));
        }
    }
    grid
}

/// Asserts that the superko rule saw these stones first after `number` moves.
fn saw_first<A: Allocator + Copy>(rt: &impl Abort, game: &Game<A>, grid: &Grid, number: usize) {
    assert!(rt; grid.size() == game.size());
    let seen = game.first_seen(grid, Colour::Black);
    assert!(rt; seen == Some(number), "the stones after {number} moves");
}

/// Takes all moves back, and asserts that they are these, the last one first.
fn takes_back<A: Allocator + Copy>(rt: &impl Abort, game: &mut Game<A>, moves: &[Move]) {
    for made in moves.iter().rev() {
        assert!(rt; game.undo() == Some(*made));
    }
    assert!(rt; game.undo().is_none() && game.is_vacant());
}

/// More plays than two bytes count, and more positions than are found by their hashes alone.
const PLAYS: u32 = 66_000;

/// How many of them come before the positions are looked up that were noted then.
const EARLY: u32 = 5_000;

#[test]
fn more_plays_than_two_bytes_count(rt: HostRuntime) -> Result<(), Fail> {
    let mut game = Game::new(rt.alloc(), nineteen(&rt));
    let mut moves = plays_on(&rt, rt.alloc(), &mut game, EARLY)?;
    let early = shown(&game);
    let later = plays_on(&rt, rt.alloc(), &mut game, PLAYS - EARLY)?;
    let late = shown(&game);
    assert_eq!(rt; game.move_count(), PLAYS as usize);
    saw_first(&rt, &game, &early, EARLY as usize);
    saw_first(&rt, &game, &late, PLAYS as usize);
    moves.extend_from_slice(later.as_slice())?;
    takes_back(&rt, &mut game, moves.as_slice());
    Ok(())
}

/// The plays of a long game.
const LONG: u32 = 5_000;

/// More bytes than these games ask for in all.
const AMPLE: u64 = 1 << 32;

/// How many bytes a game of `plays` plays asks for in all.
fn asked_for(rt: &impl Abort, alloc: Global, plays: u32) -> Result<u64, AllocError> {
    let limited = Refusing::beyond_bytes(alloc, AMPLE);
    let mut game = Game::new(&limited, nineteen(rt));
    plays_on(rt, alloc, &mut game, plays)?;
    Ok(AMPLE.saturating_sub(limited.left()))
}

/// Lists double as they grow, so twice the plays ask for about twice the bytes. If each play moved them, it
/// would be four times as many.
#[test]
fn twice_the_plays_ask_for_less_than_three_times_the_bytes(rt: HostRuntime) -> Result<(), Fail> {
    let once = asked_for(&rt, rt.alloc(), LONG)?;
    let twice = asked_for(&rt, rt.alloc(), 2 * LONG)?;
    assert!(rt;
        once > 0 && twice < once.saturating_mul(3),
        "{once} and {twice} bytes"
    );
    Ok(())
}
