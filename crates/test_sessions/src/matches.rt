//! A game of goref against a small opponent, held by a controller that judges each answer by a game
//! of its own.
use crate::help::sessions::result_of;
use go_board::{Colour, Move, Point, Size, Vertex, read_vertex, vertex_text};
use go_game::{Game, score_text};
use goref::Session;
use std::alloc::{AllocError, Global};
use std::process::Abort;

/// A vertex after a space.
fn spaced(alloc: Global, vertex: Vertex) -> Result<Vec<u8>, AllocError> {
    let mut text = Vec::new(alloc);
    text.push(b' ')?;
    text.extend_from_slice(vertex_text(vertex).as_bytes())?;
    Ok(text)
}

/// The legal plays of White as the judge finds them, each after a space.
fn legal_for_white(
    rt: &impl Abort,
    alloc: Global,
    judge: &mut Game<Global>,
) -> Result<Vec<u8>, AllocError> {
    let size = judge.size();
    let mut text = Vec::new(alloc);
    for number in 0..size.points() {
        let vertex = Vertex::At(Point::numbered(size, number));
        let made = Move {
            colour: Colour::White,
            vertex,
        };
        if judge.legal(made).expect(rt, "memory") {
            text.extend_from_slice(spaced(alloc, vertex)?.as_slice())?;
        }
    }
    Ok(text)
}

/// The last of some words, each after a space.
fn last_word(words: &[u8]) -> &[u8] {
    let mut from = 0usize;
    for (place, byte) in words.iter().enumerate() {
        if *byte == b' ' {
            from = place;
        }
    }
    words.split_at(from.min(words.len())).1
}

/// A word without the space before it.
fn bare(word: &[u8]) -> &[u8] {
    match word.split_first() {
        Some((_, name)) => name,
        None => word,
    }
}

/// goref's move for Black: a vertex, by its own word.
fn goref_moves(
    rt: &impl Abort,
    alloc: Global,
    session: &mut Session<Global>,
    judge: &Game<Global>,
) -> Result<Vertex, AllocError> {
    let word = result_of(rt, alloc, session, b"genmove b")?;
    assert!(rt; word.first() == Some(&b' '));
    let read = read_vertex(bare(word.as_slice()), judge.size());
    let vertex = read.expect(rt, "a vertex");
    assert!(rt; spaced(alloc, vertex)?.as_slice() == word.as_slice());
    Ok(vertex)
}

/// The opponent's choice for White, after a space: the last of its legal plays, or a pass late in the game.
fn choice(legal: &[u8], moves: usize) -> &[u8] {
    if moves < 30 && !legal.is_empty() {
        last_word(legal)
    } else {
        b" pass"
    }
}

/// Plays for White the vertex after a space, which goref must accept.
fn plays_white(
    rt: &impl Abort,
    alloc: Global,
    session: &mut Session<Global>,
    word: &[u8],
) -> Result<(), AllocError> {
    let mut line = b"play w".to_vec(alloc)?;
    line.extend_from_slice(word)?;
    let answer = result_of(rt, alloc, session, line.as_slice())?;
    assert!(rt; answer.is_empty());
    Ok(())
}

/// The opponent's move for White.
fn opponent_moves(
    rt: &impl Abort,
    alloc: Global,
    session: &mut Session<Global>,
    judge: &mut Game<Global>,
) -> Result<Vertex, AllocError> {
    let legal = result_of(rt, alloc, session, b"goref-legal w")?;
    let expected = legal_for_white(rt, alloc, judge)?;
    assert!(rt; legal.as_slice() == expected.as_slice());
    let word = choice(legal.as_slice(), judge.move_count());
    plays_white(rt, alloc, session, word)?;
    Ok(read_vertex(bare(word), judge.size()).expect(rt, "a vertex"))
}

/// Asserts that goref's board is the judge's.
fn same_board(rt: &impl Abort, session: &Session<Global>, judge: &Game<Global>) {
    let size = judge.size();
    assert!(rt; session.game().move_count() == judge.move_count());
    assert!(rt; session.game().size() == size);
    for number in 0..size.points() {
        let p = Point::numbered(size, number);
        assert!(rt; session.game().colour_at(p) == judge.colour_at(p));
    }
}

/// The move of the colour whose turn it is, made on both boards.
fn next_move(
    rt: &impl Abort,
    alloc: Global,
    session: &mut Session<Global>,
    judge: &mut Game<Global>,
) -> Vertex {
    let colour = judge.mover();
    let moved = match colour {
        Colour::Black => goref_moves(rt, alloc, session, judge),
        Colour::White => opponent_moves(rt, alloc, session, judge),
    };
    let vertex = moved.expect(rt, "memory");
    assert!(rt; judge.play(Move { colour, vertex }).is_ok());
    same_board(rt, session, judge);
    vertex
}

/// Plays until both pass.
fn plays_to_the_end(
    rt: &impl Abort,
    alloc: Global,
    session: &mut Session<Global>,
    judge: &mut Game<Global>,
) {
    let mut passes = 0u32;
    for _ in 0..300u32 {
        passes = if next_move(rt, alloc, session, judge) == Vertex::Pass {
            passes.wrapping_add(1)
        } else {
            0
        };
        if passes == 2 {
            break;
        }
    }
    assert_eq!(rt; passes, 2);
}

/// Asserts that goref's score is the judge's.
fn same_score(rt: &impl Abort, alloc: Global, session: &mut Session<Global>, judge: &Game<Global>) {
    let score = result_of(rt, alloc, session, b"final_score").expect(rt, "memory");
    assert!(rt; bare(score.as_slice()) == score_text(judge.margin()).as_bytes());
}

/// Asserts that goref takes each move back, to the board of the judge.
fn undoes(rt: &impl Abort, alloc: Global, session: &mut Session<Global>, judge: &mut Game<Global>) {
    for _ in 0..300u32 {
        if judge.undo().is_none() {
            break;
        }
        let answer = result_of(rt, alloc, session, b"undo").expect(rt, "memory");
        assert!(rt; answer.is_empty());
        same_board(rt, session, judge);
    }
    assert_eq!(rt; judge.move_count(), 0);
}

#[test]
fn a_game_to_its_end(rt: HostRuntime) {
    let size = Size::new(5).expect(&rt, "a size");
    let mut session = Session::new(rt.alloc(), size);
    let mut judge = Game::new(rt.alloc(), size);
    plays_to_the_end(&rt, rt.alloc(), &mut session, &mut judge);
    assert!(rt; judge.move_count() > 30);
    same_score(&rt, rt.alloc(), &mut session, &judge);
    undoes(&rt, rt.alloc(), &mut session, &mut judge);
}
