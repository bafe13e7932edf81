//! Random games. After each move every answer is compared with the plain body.
use crate::games::{SUICIDE_OF_ONE, Step, example, size_of};
use crate::help::drawn::{Seen, any_start, next_move};
use crate::help::plain_game::PlainGame;
use go_board::{Colour, Grid, Move, Point, Size, Taken, Vertex, plain};
use go_game::{Game, PlayError, Superko};
use rand_core::Rng;
use rand_pcg::Pcg32;
use std::alloc::Global;
use std::process::Abort;

const KOMI: i64 = 650;

/// By how many points a colour is ahead on a grid, and the liberties of the chain of a point.
fn worth(grid: &Grid, colour: Colour, p: Point) -> (i32, u16) {
    let area = plain::areas(grid);
    let (own, theirs) = match colour {
        Colour::Black => (area.black, area.white),
        Colour::White => (area.white, area.black),
    };
    let lead = i32::from(own) - i32::from(theirs);
    if p.on(grid.size()) && grid.get(p).is_some() {
        (lead, plain::liberties_of(grid, p))
    } else {
        (lead, 0)
    }
}

/// Compares with the plain body whose turn it is.
fn same_turns(rt: &impl Abort, game: &Game<Global>, plain: &PlainGame) {
    let moves = plain.made.len();
    assert_eq!(rt; game.move_count(), moves);
    let unset = plain.start.is_same_as(&Grid::new(game.size()));
    assert!(rt; game.is_vacant() == (unset && moves == 0));
    assert!(rt; game.superko() == plain.superko);
    assert!(rt; game.start_mover() == plain.first);
    assert!(rt; game.mover() == plain.mover());
    same_moves(rt, game, plain);
}

/// Compares the moves of a game with the plain body.
fn same_moves(rt: &impl Abort, game: &Game<Global>, plain: &PlainGame) {
    let moves = plain.made.len();
    for number in 0..moves {
        let made = plain.made.get(number).map(|(made, _)| *made);
        assert!(rt; game.move_at(number) == made, "move {number}");
    }
    assert!(rt; game.move_at(moves).is_none());
}

/// Compares the colours of a game with the plain body.
pub fn same_colours(rt: &impl Abort, game: &Game<Global>, start: &Grid, grid: &Grid) {
    let size = game.size();
    assert!(rt; start.size() == size && grid.size() == size);
    for number in 0..size.points() {
        let p = Point::numbered(size, number);
        if p.on(start.size()) && p.on(grid.size()) {
            assert!(rt; game.colour_at(p) == grid.get(p), "point {number}");
            assert!(rt; game.start_at(p) == start.get(p), "point {number}");
        }
    }
}

/// Compares the prisoners of a game with the plain body.
fn same_prisoners(rt: &impl Abort, game: &Game<Global>, plain: &PlainGame) {
    for colour in [Colour::Black, Colour::White] {
        assert_eq!(rt; game.prisoners(colour), plain.prisoners(colour));
    }
}

/// Compares the area and the score of a game with the plain body.
fn same_score(rt: &impl Abort, game: &Game<Global>, grid: &Grid) {
    let area = plain::areas(grid);
    assert!(rt; game.area() == area);
    assert_eq!(rt; game.komi(), KOMI);
    let margin = i64::from(area.black) * 100 - i64::from(area.white) * 100 - KOMI;
    assert_eq!(rt; game.margin(), margin);
}

/// Compares the chain and the liberties of one point with the plain body.
fn same_chain_of(rt: &impl Abort, game: &Game<Global>, grid: &Grid, p: Point) {
    let size = game.size();
    for number in 0..size.points() {
        let q = Point::numbered(size, number);
        if p.on(size) && grid.size() == size {
            assert!(rt; game.same_chain(p, q) == plain::same_chain(grid, p, q));
            assert!(rt; game.is_liberty(p, q) == plain::is_liberty(grid, p, q));
        }
    }
}

/// Compares the chain and the liberties of each point, a stone or not, with the plain body.
fn same_chains(rt: &impl Abort, game: &Game<Global>, grid: &Grid) {
    let size = game.size();
    assert!(rt; grid.size() == size);
    for number in 0..size.points() {
        same_chain_of(rt, game, grid, Point::numbered(size, number));
    }
}

/// The best play of a colour that was found so far, and what it is worth.
#[derive(Clone, Copy)]
struct Best {
    vertex: Vertex,
    worth: (i32, u16),
}

impl Best {
    /// No play: a pass, than which a play must put the colour further ahead.
    fn pass(grid: &Grid, colour: Colour) -> Best {
        let (lead, _) = worth(grid, colour, Point::default());
        Best {
            vertex: Vertex::Pass,
            worth: (lead, u16::MAX),
        }
    }

    /// Takes a play that is worth more.
    fn weigh(&mut self, p: Point, after: &Grid, colour: Colour) {
        let found = worth(after, colour, p);
        let most = self.worth;
        if found.0 > most.0 || found.0 == most.0 && found.1 > most.1 {
            self.vertex = Vertex::At(p);
            self.worth = found;
        }
    }
}

/// Compares whether a move is legal with the plain body, and weighs it if it is.
fn same_legality(
    rt: &impl Abort,
    game: &mut Game<Global>,
    plain: &PlainGame,
    made: Move,
    best: &mut Best,
) {
    let outcome = plain.outcome(made);
    let legal = game.legal(made).expect(rt, "memory");
    assert!(rt; legal == outcome.is_ok());
    if let (Vertex::At(p), Ok((after, _))) = (made.vertex, outcome) {
        best.weigh(p, &after, made.colour);
    }
}

/// Compares which moves of a colour are legal with the plain body, on each point, next to the board
/// and by a pass, and the choice among them: the first of the best plays.
fn same_plays(rt: &impl Abort, game: &mut Game<Global>, plain: &PlainGame, colour: Colour) {
    let past = game.size().lines() + 1;
    let mut best = Best::pass(&plain.present(), colour);
    for number in 0..u16::from(past) * u16::from(past) {
        let p = Point {
            col: (number % u16::from(past)) as u8,
            row: (number / u16::from(past)) as u8,
        };
        let vertex = Vertex::At(p);
        same_legality(rt, game, plain, Move { colour, vertex }, &mut best);
    }
    let vertex = Vertex::Pass;
    same_legality(rt, game, plain, Move { colour, vertex }, &mut best);
    let chosen = game.choose(colour).expect(rt, "memory");
    assert!(rt; chosen == best.vertex);
}

/// Compares the state of a game with the plain body.
fn same_tellings(rt: &impl Abort, game: &Game<Global>, plain: &PlainGame) {
    let grid = plain.present();
    same_turns(rt, game, plain);
    same_colours(rt, game, &plain.start, &grid);
    same_prisoners(rt, game, plain);
    same_score(rt, game, &grid);
    same_chains(rt, game, &grid);
}

/// Compares what a game answers with the plain body.
fn same_answers(rt: &impl Abort, game: &mut Game<Global>, plain: &PlainGame) {
    same_tellings(rt, game, plain);
    for colour in [Colour::Black, Colour::White] {
        same_plays(rt, game, plain, colour);
    }
}

/// Takes moves back on both, as many of them as there are, and compares everything after each.
fn take_back(
    rt: &impl Abort,
    game: &mut Game<Global>,
    plain: &mut PlainGame,
    moves: u32,
    seen: &mut Seen,
) {
    for _ in 0..moves {
        let back = plain.undo();
        assert!(rt; game.undo() == back);
        if back.is_some() {
            seen.count_undo();
        }
        same_answers(rt, game, plain);
    }
}

/// Makes a move on both, where it is legal, and compares what that answers.
fn play_on_both(
    rt: &impl Abort,
    game: &mut Game<Global>,
    plain: &mut PlainGame,
    made: Move,
    expected: Result<(Grid, Taken), PlayError>,
) {
    match (game.play(made), expected) {
        (Ok(taken), Ok((after, took))) => {
            assert!(rt; taken == took);
            plain.push(made, after, taken).expect(rt, "memory");
        }
        (Err(why), Err(same)) => assert!(rt; why == same),
        _ => panic!(rt; "one of two plays"),
    }
}

/// Plays random moves on both, takes some back, and compares everything after each.
fn play_along(
    rt: &impl Abort,
    game: &mut Game<Global>,
    plain: &mut PlainGame,
    random: &mut Pcg32,
    moves: u32,
    seen: &mut Seen,
) {
    game.set_komi(KOMI);
    for _ in 0..moves {
        if random.next_u32().is_multiple_of(9) {
            let back = random.next_u32() % 6;
            take_back(rt, game, plain, back, seen);
        }
        let made = next_move(random, plain);
        let expected = plain.outcome(made);
        seen.count(made, &expected);
        play_on_both(rt, game, plain, made, expected);
        same_answers(rt, game, plain);
    }
}

/// A random game from the empty board.
fn from_nothing(
    rt: &impl Abort,
    alloc: Global,
    superko: Superko,
    size: Size,
    moves: u32,
    seed: u64,
    seen: &mut Seen,
) {
    let mut random = Pcg32::new(seed, u64::from(size.lines()));
    let mut game = Game::new(alloc, size);
    game.set_superko(superko);
    let mut plain = PlainGame::new(alloc, superko, Grid::new(size), Colour::Black);
    play_along(rt, &mut game, &mut plain, &mut random, moves, seen);
}

/// A random game from a random start, White to move first.
fn from_a_start(
    rt: &impl Abort,
    alloc: Global,
    superko: Superko,
    size: Size,
    moves: u32,
    seed: u64,
    seen: &mut Seen,
) {
    let mut random = Pcg32::new(seed, u64::from(size.lines()));
    let start = any_start(&mut random, size);
    let mut game = Game::start_from(alloc, &start, Colour::White).expect(rt, "a start");
    game.set_superko(superko);
    let mut plain = PlainGame::new(alloc, superko, start, Colour::White);
    play_along(rt, &mut game, &mut plain, &mut random, moves, seen);
}

/// Random games on 1 to 5 lines by a rule.
fn small_games(rt: &impl Abort, alloc: Global, superko: Superko) {
    let mut seen = Seen::new();
    for lines in 1..6u8 {
        let size = size_of(rt, lines);
        for seed in 0..2u64 {
            from_nothing(rt, alloc, superko, size, 300, seed, &mut seen);
            from_a_start(rt, alloc, superko, size, 300, seed, &mut seen);
        }
    }
    assert!(rt; seen.has_all());
    assert!(rt; seen.has_returns() == (superko == Superko::Situational));
}

#[test]
fn small_games_as_the_plain_body(rt: HostRuntime) {
    small_games(&rt, rt.alloc(), Superko::Positional);
}

#[test]
fn small_situational_games_as_the_plain_body(rt: HostRuntime) {
    small_games(&rt, rt.alloc(), Superko::Situational);
}

/// Random games on 6 to 9 lines by a rule.
fn middle_games(rt: &impl Abort, alloc: Global, superko: Superko) {
    let mut seen = Seen::new();
    for lines in 6..10u8 {
        from_nothing(rt, alloc, superko, size_of(rt, lines), 150, 1, &mut seen);
    }
    assert!(rt; seen.has_all());
}

#[test]
fn middle_games_as_the_plain_body(rt: HostRuntime) {
    middle_games(&rt, rt.alloc(), Superko::Positional);
}

#[test]
fn middle_situational_games_as_the_plain_body(rt: HostRuntime) {
    middle_games(&rt, rt.alloc(), Superko::Situational);
}

#[test]
fn a_large_game_as_the_plain_body(rt: HostRuntime) {
    let mut seen = Seen::new();
    let size = size_of(&rt, 19);
    from_a_start(&rt, rt.alloc(), Superko::Positional, size, 60, 0, &mut seen);
    assert!(rt; seen.has_all());
}

#[test]
fn a_large_situational_game_as_the_plain_body(rt: HostRuntime) {
    let mut seen = Seen::new();
    let size = size_of(&rt, 19);
    from_a_start(
        &rt,
        rt.alloc(),
        Superko::Situational,
        size,
        25,
        0,
        &mut seen,
    );
}

#[test]
fn the_largest_game_as_the_plain_body(rt: HostRuntime) {
    let mut seen = Seen::new();
    let size = size_of(&rt, 25);
    from_a_start(&rt, rt.alloc(), Superko::Positional, size, 6, 0, &mut seen);
}

const TWO_PASSES: &[Step] = &[Step::HasTaken { black: 0, moves: 2 }];

#[test]
fn a_board_of_one_point(rt: HostRuntime) {
    let game = Game::new(rt.alloc(), size_of(&rt, 1));
    example(&rt, game, &[SUICIDE_OF_ONE, TWO_PASSES]);
}
