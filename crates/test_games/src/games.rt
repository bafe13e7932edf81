//! Worked examples of games, of starts and of score texts. The steps in which they are written serve other
//! files of the crate too.
ghost use Rattle.std.specs.Prelude.{◌≡◌};

use crate::drawn_games::same_colours;
use go_board::{Colour, Grid, Move, Point, Size, Taken, Vertex, read_vertex};
use go_game::{Game, PlayError, SetupError, hundredths_text, score_text};
use std::alloc::Global;
use std::process::Abort;

/// The size of `lines` lines.
pub fn size_of(rt: &impl Abort, lines: u8) -> Size
    ensures { result ≡ lines }
{
    Size::new(lines).expect(rt, "a size")
}

/// The move of a colour that a word spells.
pub fn turn(rt: &impl Abort, size: Size, colour: Colour, word: &[u8]) -> Move {
    let vertex = read_vertex(word, size).expect(rt, "a vertex");
    Move { colour, vertex }
}

/// Plays the move that a word spells.
fn play(
    rt: &impl Abort,
    game: &mut Game<Global>,
    colour: Colour,
    word: &[u8],
) -> Result<Taken, PlayError> {
    let made = turn(rt, game.size(), colour, word);
    game.play(made)
}

/// Whether the move that a word spells is legal.
fn is_legal(rt: &impl Abort, game: &mut Game<Global>, colour: Colour, word: &[u8]) -> bool {
    let made = turn(rt, game.size(), colour, word);
    game.legal(made).expect(rt, "memory")
}

/// What a play answers that takes no stone.
pub const NONE: Taken = Taken { theirs: 0, own: 0 };

/// A step of a worked example. A play is a colour and the word of a vertex.
#[derive(Clone, Copy)]
pub enum Step {
    /// The play is made, and takes no stone.
    Plays(Colour, &'static [u8]),
    /// The play is made, and takes these stones.
    Takes(Colour, &'static [u8], Taken),
    /// The play is refused.
    Refuses(Colour, &'static [u8], PlayError),
    /// The play was the last one, and is taken back.
    Undoes(Colour, &'static [u8]),
    /// The play is legal.
    Allows(Colour, &'static [u8]),
    /// The play isn't legal.
    Forbids(Colour, &'static [u8]),
    /// The play is the colour's choice.
    Chooses(Colour, &'static [u8]),
    /// The colour is to move.
    Awaits(Colour),
    /// `black` black stones were taken in `moves` moves.
    HasTaken { black: u64, moves: usize },
}

impl Step {
    /// Whether a game answers as the step says.
    fn is_met(self, rt: &impl Abort, game: &mut Game<Global>) -> bool {
        match self {
            Step::Plays(colour, word) => play(rt, game, colour, word) == Ok(NONE),
            Step::Takes(colour, word, taken) => play(rt, game, colour, word) == Ok(taken),
            Step::Refuses(colour, word, why) => play(rt, game, colour, word) == Err(why),
            Step::Undoes(colour, word) => game.undo() == Some(turn(rt, game.size(), colour, word)),
            Step::Allows(colour, word) => is_legal(rt, game, colour, word),
            Step::Forbids(colour, word) => !is_legal(rt, game, colour, word),
            Step::Chooses(colour, word) => {
                let vertex = turn(rt, game.size(), colour, word).vertex;
                game.choose(colour) == Ok(vertex)
            }
            Step::Awaits(colour) => game.mover() == colour,
            Step::HasTaken { black, moves } => {
                game.prisoners(Colour::Black) == black && game.move_count() == moves
            }
        }
    }
}

/// Asserts that a game answers to each step of a worked example as the step says.
pub fn follow(rt: &impl Abort, game: &mut Game<Global>, steps: &[Step]) {
    for (number, step) in steps.iter().enumerate() {
        assert!(rt; step.is_met(rt, game), "step {number}");
    }
}

/// Takes a game through the parts of a worked example, to its end.
pub fn example(rt: &impl Abort, mut game: Game<Global>, parts: &[&[Step]]) {
    for steps in parts {
        follow(rt, &mut game, steps);
    }
}

/// White takes a black stone on A1 of two lines.
pub const CAPTURE: &[Step] = &[
    Step::Plays(Colour::Black, b"A1"),
    Step::Plays(Colour::White, b"B1"),
    Step::Takes(Colour::White, b"A2", Taken { theirs: 1, own: 0 }),
];

/// The plays up to the capture of a ko on four lines.
pub const KO: &[Step] = &[
    Step::Plays(Colour::Black, b"B3"),
    Step::Plays(Colour::Black, b"A2"),
    Step::Plays(Colour::Black, b"B1"),
    Step::Plays(Colour::White, b"C3"),
    Step::Plays(Colour::White, b"C1"),
    Step::Plays(Colour::White, b"D2"),
    Step::Plays(Colour::White, b"B2"),
    Step::Takes(Colour::Black, b"C2", Taken { theirs: 1, own: 0 }),
];

#[test]
fn nothing_to_undo(rt: HostRuntime) {
    let mut game = Game::new(rt.alloc(), size_of(&rt, 19));
    assert!(rt; game.undo().is_none());
    assert!(rt; game.mover() == Colour::Black);
    assert_eq!(rt; game.move_count(), 0);
}

const REFUSALS: &[Step] = &[
    Step::Plays(Colour::Black, b"e5"),
    Step::Refuses(Colour::White, b"e5", PlayError::Occupied),
    Step::Awaits(Colour::White),
];

#[test]
fn refusals_in_order(rt: HostRuntime) {
    let mut game = Game::new(rt.alloc(), size_of(&rt, 9));
    let off = Move {
        colour: Colour::Black,
        vertex: Vertex::At(Point { col: 9, row: 0 }),
    };
    assert!(rt; game.play(off) == Err(PlayError::OffBoard));
    follow(&rt, &mut game, REFUSALS);
    assert_eq!(rt; game.move_count(), 1);
}

const RETAKING: &[Step] = &[
    Step::Refuses(Colour::Black, b"A1", PlayError::Repeats(3)),
    Step::HasTaken { black: 1, moves: 3 },
];

#[test]
fn repetition_refused(rt: HostRuntime) {
    let mut game = Game::new(rt.alloc(), size_of(&rt, 2));
    follow(&rt, &mut game, CAPTURE);
    follow(&rt, &mut game, RETAKING);
    assert_eq!(rt; game.prisoners(Colour::White), 0);
}

const SUICIDE: &[Step] = &[
    Step::Plays(Colour::Black, b"A1"),
    Step::Plays(Colour::White, b"A2"),
    Step::Plays(Colour::White, b"B2"),
    Step::Plays(Colour::White, b"C1"),
    Step::Takes(Colour::Black, b"B1", Taken { theirs: 0, own: 2 }),
    Step::Awaits(Colour::White),
    Step::HasTaken { black: 2, moves: 5 },
    Step::Undoes(Colour::Black, b"B1"),
    Step::HasTaken { black: 0, moves: 4 },
];

#[test]
fn suicide_of_several(rt: HostRuntime) {
    let mut game = Game::new(rt.alloc(), size_of(&rt, 3));
    follow(&rt, &mut game, SUICIDE);
    assert!(rt; game.colour_at(Point::numbered(game.size(), 0)) == Some(Colour::Black));
}

const KO_TAKEN_AGAIN: &[Step] = &[
    Step::Refuses(Colour::White, b"B2", PlayError::Repeats(7)),
    Step::Undoes(Colour::Black, b"C2"),
    Step::Takes(Colour::Black, b"C2", Taken { theirs: 1, own: 0 }),
];

#[test]
fn ko(rt: HostRuntime) {
    let game = Game::new(rt.alloc(), size_of(&rt, 4));
    example(&rt, game, &[KO, KO_TAKEN_AGAIN]);
}

/// White may not take the ko back when both have passed.
pub const KO_AFTER_PASSES: &[Step] = &[
    Step::Plays(Colour::White, b"pass"),
    Step::Plays(Colour::Black, b"pass"),
    Step::Refuses(Colour::White, b"B2", PlayError::Repeats(7)),
];

#[test]
fn ko_after_passes(rt: HostRuntime) {
    let game = Game::new(rt.alloc(), size_of(&rt, 4));
    example(&rt, game, &[KO, KO_AFTER_PASSES]);
}

pub const SUICIDE_OF_ONE: &[Step] = &[
    Step::Refuses(Colour::Black, b"A1", PlayError::Repeats(0)),
    Step::Plays(Colour::Black, b"pass"),
    Step::Plays(Colour::White, b"pass"),
    Step::Refuses(Colour::Black, b"A1", PlayError::Repeats(0)),
];

#[test]
fn suicide_of_one_repeats(rt: HostRuntime) {
    let game = Game::new(rt.alloc(), size_of(&rt, 1));
    example(&rt, game, &[SUICIDE_OF_ONE]);
}

#[test]
fn komi_is_no_move(rt: HostRuntime) {
    let mut game = Game::new(rt.alloc(), size_of(&rt, 9));
    game.set_komi(300);
    follow(&rt, &mut game, &[Step::Plays(Colour::Black, b"a1")]);
    game.set_komi(400);
    assert!(rt; game.undo().is_some());
    assert!(rt; game.komi() == 400);
    game.clear();
    assert!(rt; game.komi() == 400);
}

const TEXTS_OF_HUNDREDTHS: &[(i64, &str)] = &[
    (5, "0.05"),
    (50, "0.5"),
    (600, "6"),
    (-5, "-0.05"),
    (i64::MIN, "-92233720368547758.08"),
];

#[test]
fn texts_of_hundredths(rt: HostRuntime) {
    for (hundredths, text) in TEXTS_OF_HUNDREDTHS {
        assert!(rt; hundredths_text(*hundredths).as_str() == *text, "{text}");
    }
}

const TEXTS_OF_SCORES: &[(i64, &str)] = &[
    (5, "B+0.05"),
    (50, "B+0.5"),
    (600, "B+6"),
    (-5, "W+0.05"),
    (i64::MIN, "W+92233720368547758.08"),
    (0, "0"),
];

#[test]
fn texts_of_scores(rt: HostRuntime) {
    for (hundredths, text) in TEXTS_OF_SCORES {
        assert!(rt; score_text(*hundredths).as_str() == *text, "{text}");
    }
}

/// A grid of `lines` lines with these stones.
pub fn grid_of(rt: &impl Abort, lines: u8, stones: &[(Colour, Point)]) -> Grid {
    let mut grid = Grid::new(size_of(rt, lines));
    for (colour, at) in stones {
        assert!(rt; at.on(grid.size()));
        grid.set(*at, Some(*colour));
    }
    grid
}

/// Asserts that no game starts from a grid, since the chain of a stone has no liberty.
fn no_start(rt: &impl Abort, alloc: Global, grid: &Grid, stone: Point) {
    let refused = Game::start_from(alloc, grid, Colour::Black);
    assert!(rt; refused.err() == Some(SetupError::NoLiberty(stone)));
}

const FULL: &[(Colour, Point)] = &[
    (Colour::Black, Point { col: 0, row: 0 }),
    (Colour::Black, Point { col: 1, row: 0 }),
    (Colour::Black, Point { col: 0, row: 1 }),
    (Colour::Black, Point { col: 1, row: 1 }),
];

const CORNER: Point = Point { col: 0, row: 8 };

const DEAD_CORNER: &[(Colour, Point)] = &[
    (Colour::Black, CORNER),
    (Colour::White, Point { col: 0, row: 7 }),
    (Colour::White, Point { col: 1, row: 8 }),
];

#[test]
fn starts(rt: HostRuntime) {
    let full = grid_of(&rt, 2, FULL);
    no_start(&rt, rt.alloc(), &full, Point { col: 0, row: 0 });
    let mut grid = grid_of(&rt, 9, DEAD_CORNER);
    no_start(&rt, rt.alloc(), &grid, CORNER);

    assert!(rt; CORNER.on(grid.size()));
    grid.set(CORNER, None);
    let mut game = Game::start_from(rt.alloc(), &grid, Colour::Black).expect(&rt, "a start");
    assert!(rt; game.mover() == Colour::Black && game.start_mover() == Colour::Black);
    assert!(rt; game.undo().is_none());
}

/// Asserts that a game starts from a grid, with nothing made.
fn starts_as(rt: &impl Abort, alloc: Global, grid: &Grid) {
    let game = Game::start_from(alloc, grid, Colour::White).expect(rt, "a start");
    assert!(rt; game.start_mover() == Colour::White && game.move_count() == 0);
    same_colours(rt, &game, grid, grid);
}

#[test]
fn starts_with_few_and_many_stones(rt: HostRuntime) {
    let mut grid = Grid::new(size_of(&rt, 25));
    starts_as(&rt, rt.alloc(), &grid);
    for number in 25..625u16 {
        let at = Point::nth(grid.size(), number).expect(&rt, "a point");
        let colour = if number % 25 < 13 {
            Colour::Black
        } else {
            Colour::White
        };
        grid.set(at, Some(colour));
        if number == 25 {
            starts_as(&rt, rt.alloc(), &grid);
        }
    }
    starts_as(&rt, rt.alloc(), &grid);
}
