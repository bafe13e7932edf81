//! Worked examples of the boards of `go_chains`: what plays take, the stones and liberties of chains, and a
//! suicide that is taken back.
ghost use Rattle.std.specs.Prelude.{◌≡◌};
ghost use Rattle.go_board.specs.Points.{IsOn};

use go_board::{Colour, Meter, Point, Size, Taken, Vertex, read_vertex};
use go_chains::{Board, ChainPoints, Log, PlaceError};
use std::alloc::Allocator;
use std::process::Abort;

/// An empty board of `lines` lines.
fn board_of(rt: &impl Abort, lines: u8) -> Board
    ensures { result.lines ≡ lines }
{
    Board::new(Size::new(lines).expect(rt, "a size"))
}

/// The point of a board that a word names.
fn point(rt: &impl Abort, board: &Board, word: &[u8]) -> Point
    ensures { IsOn board.now.lines result }
{
    let size = board.size();
    let vertex = read_vertex(word, size).expect(rt, "a vertex");
    let Vertex::At(p) = vertex else {
        panic!(rt; "a point");
    };
    assert!(rt; p.on(size));
    p
}

/// A play: its colour, the word of its point, and its result.
type Play = (Colour, &'static [u8], Result<Taken, PlaceError>);

const NONE: Taken = Taken { theirs: 0, own: 0 };

/// Makes each play, and asserts its result.
fn plays<A: Allocator + Copy>(
    rt: &impl Abort,
    board: &mut Board,
    log: &mut Log<A>,
    steps: &[Play],
) {
    for (number, (colour, word, outcome)) in steps.iter().enumerate() {
        let p = point(rt, board, word);
        let made = board.play(log, &mut Meter::new(), *colour, p);
        assert!(rt; made == *outcome, "play {number}");
    }
}

/// How many stones and how many liberties the chain on the point has that a word names.
fn chain(rt: &impl Abort, board: &Board, word: &[u8]) -> (u16, u16) {
    let p = point(rt, board, word);
    assert!(rt; board.colour_at(p).is_some());
    (board.stones_of(p), board.liberties_of(p))
}

/// Whether the second point is a liberty of the chain on the first.
fn is_liberty(rt: &impl Abort, board: &Board, stone: &[u8], word: &[u8]) -> bool {
    let p = point(rt, board, stone);
    let q = point(rt, board, word);
    assert!(rt; board.colour_at(p).is_some());
    board.is_liberty(p, q)
}

/// Whether two stones are in one chain.
fn same_chain(rt: &impl Abort, board: &Board, first: &[u8], second: &[u8]) -> bool {
    let p = point(rt, board, first);
    let q = point(rt, board, second);
    assert!(rt; board.colour_at(p).is_some());
    assert!(rt; board.colour_at(q).is_some());
    board.same_chain(p, q)
}

/// Whether points are those that words name, in this order.
fn are(rt: &impl Abort, board: &Board, points: ChainPoints<'_>, words: &[&[u8]]) -> bool {
    let mut points = points;
    for word in words {
        if points.next() != Some(point(rt, board, word)) {
            return false;
        }
    }
    points.next().is_none()
}

#[test]
fn empty_board(rt: HostRuntime) {
    let size = Size::new(9).expect(&rt, "a size");
    let board = Board::new(size);
    assert_eq!(rt; board.size().lines(), 9);
    let grid = board.grid();
    assert_eq!(rt; grid.size().lines(), 9);
    for number in 0..size.points() {
        let at = Point::numbered(size, number);
        assert!(rt; board.colour_at(at).is_none());
        assert!(rt; grid.get(at).is_none());
    }
}

#[test]
fn new_log(rt: HostRuntime) {
    assert_eq!(rt; Log::new(rt.alloc()).plays(), 0);
}

/// A stone of Black, which a second one on B1 takes with itself.
const BEFORE_A_SUICIDE: &[Play] = &[
    (Colour::Black, b"A1", Ok(NONE)),
    (Colour::White, b"A2", Ok(NONE)),
    (Colour::White, b"B2", Ok(NONE)),
    (Colour::White, b"C1", Ok(NONE)),
];

/// Plays the suicide, and takes it back.
fn suicide_taken_back<A: Allocator + Copy>(rt: &impl Abort, board: &mut Board, log: &mut Log<A>) {
    assert_eq!(rt; board.size().lines(), 3);
    let b1 = point(rt, board, b"B1");
    let mut meter = Meter::new();
    let taken = board
        .play(log, &mut meter, Colour::Black, b1)
        .expect(rt, "memory for a play");
    assert!(rt; taken == Taken { theirs: 0, own: 2 });
    assert_eq!(rt; log.plays(), 5);
    assert!(rt; board.colour_at(b1).is_none());
    board.rewind(log, &mut meter);
}

/// Asserts the chains before the suicide.
fn has_chains(rt: &impl Abort, board: &Board) {
    assert!(rt; chain(rt, board, b"A2") == (2, 4));
    assert!(rt; same_chain(rt, board, b"A2", b"B2"));
    assert!(rt; !same_chain(rt, board, b"A2", b"C1"));
    assert!(rt; is_liberty(rt, board, b"A1", b"B1"));
}

#[test]
fn suicide_of_several(rt: HostRuntime) {
    let mut board = board_of(&rt, 3);
    let mut log = Log::new(rt.alloc());
    plays(&rt, &mut board, &mut log, BEFORE_A_SUICIDE);
    suicide_taken_back(&rt, &mut board, &mut log);
    has_chains(&rt, &board);
    assert_eq!(rt; log.plays(), 4);
}

/// Asserts the stones and the liberties of the chain of a stone.
fn has_chain(rt: &impl Abort, board: &Board, at: &[u8], stones: &[&[u8]], free: &[&[u8]]) {
    let at = point(rt, board, at);
    assert!(rt; board.colour_at(at).is_some());
    assert!(rt; are(rt, board, board.chain_points(at), stones));
    assert!(rt; are(rt, board, board.liberty_points(at), free));
}

const CHAINS: &[Play] = &[
    (Colour::Black, b"A1", Ok(NONE)),
    (Colour::White, b"B2", Ok(NONE)),
    (Colour::White, b"A2", Ok(NONE)),
    (Colour::White, b"C1", Ok(NONE)),
];

#[test]
fn points_of_chains(rt: HostRuntime) {
    let mut board = board_of(&rt, 3);
    let mut log = Log::new(rt.alloc());
    plays(&rt, &mut board, &mut log, CHAINS);
    has_chain(
        &rt,
        &board,
        b"B2",
        &[b"A2", b"B2"],
        &[b"B1", b"C2", b"A3", b"B3"],
    );
    has_chain(&rt, &board, b"C1", &[b"C1"], &[b"B1", b"C2"]);
}

const CAPTURE: &[Play] = &[
    (Colour::Black, b"A1", Ok(NONE)),
    (Colour::White, b"B1", Ok(NONE)),
    (Colour::White, b"A2", Ok(Taken { theirs: 1, own: 0 })),
    (Colour::Black, b"A1", Ok(Taken { theirs: 0, own: 1 })),
];

#[test]
fn two_by_two_capture(rt: HostRuntime) {
    let mut board = board_of(&rt, 2);
    let mut log = Log::new(rt.alloc());
    plays(&rt, &mut board, &mut log, CAPTURE);
    assert_eq!(rt; log.plays(), 4);
    let onto = [(Colour::Black, b"B1".as_slice(), Err(PlaceError::Occupied))];
    plays(&rt, &mut board, &mut log, onto.as_slice());
    assert_eq!(rt; log.plays(), 4);
}
