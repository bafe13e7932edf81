//! Calls that take memory, on small and on large records, where there is enough of it.
use crate::help::tools::Tool;
use crate::records::copies;
use crate::replays::{Judged, game_of, has_verdict, is_written_as};
use go_board::{Colour, Move, Point, Vertex};
use go_game::Game;
use go_record::Stated;
use std::alloc::{AllocError, Global};
use std::process::Abort;
use std::test::Fail;

/// How many moves the long record has.
const MOVES: u16 = 1_200;

/// The colour of a move of the long record. They are counted from 0.
fn colour_of(number: u16) -> Colour {
    if number.is_multiple_of(2) {
        Colour::Black
    } else {
        Colour::White
    }
}

/// The point of a move of the long record, from the left and from the top: each twelfth move is a
/// play, row by row from the upper left on. The others are passes.
fn place_of(number: u16) -> Option<(u8, u8)> {
    if number.is_multiple_of(12) {
        let play = number / 12;
        Some(((play % 19) as u8, (play / 19 % 19) as u8))
    } else {
        None
    }
}

/// A move of the long record, as a game has it.
fn move_numbered(number: u16) -> Move {
    let vertex = match place_of(number) {
        Some((column, row)) => Vertex::At(Point {
            col: column,
            row: 18u8.saturating_sub(row),
        }),
        None => Vertex::Pass,
    };
    Move {
        colour: colour_of(number),
        vertex,
    }
}

/// Adds a move of the long record, as a record spells it.
fn push_move(text: &mut Vec<u8>, number: u16) -> Result<(), AllocError> {
    text.extend_from_slice(match colour_of(number) {
        Colour::Black => b";B[",
        Colour::White => b";W[",
    })?;
    if let Some((column, row)) = place_of(number) {
        text.push(b'a'.saturating_add(column))?;
        text.push(b'a'.saturating_add(row))?;
    }
    text.push(b']')?;
    Ok(())
}

/// The long record, with this text after its size.
pub(crate) fn long_record(alloc: Global, root: &[u8]) -> Result<Vec<u8>, AllocError> {
    let mut text = b"(;SZ[19]".to_vec(alloc)?;
    text.extend_from_slice(root)?;
    for number in 0..MOVES {
        push_move(&mut text, number)?;
    }
    text.push(b')')?;
    Ok(text)
}

/// Asserts that a game has made the first `moves` moves of the long record, and no other.
fn has_made(rt: &impl Abort, game: &Game<Global>, moves: u16) {
    assert_eq!(rt; game.move_count(), usize::from(moves));
    for number in 0..moves {
        let made = Some(move_numbered(number));
        assert!(rt; game.move_at(usize::from(number)) == made, "move {number}");
    }
}

/// How many points of a game have a stone of a colour.
fn count_of(game: &Game<Global>, colour: Colour) -> u16 {
    let size = game.size();
    let mut count = 0u16;
    for number in 0..size.points() {
        if game.colour_at(Point::numbered(size, number)) == Some(colour) {
            count = count.wrapping_add(1);
        }
    }
    count
}

/// Prefixes of the long record: up to which move, how many moves these are, and how many stones are then on
/// the board, all of them black.
const PREFIXES: &[(Option<u32>, u16, u16)] = &[
    (Some(1), 0, 0),
    (Some(1_000), 999, 84),
    (Some(1_001), 1_000, 84),
    (Some(1_150), 1_149, 96),
    (Some(1_200), 1_199, 100),
    (Some(1_201), 1_200, 100),
    (Some(2_147_483_647), 1_200, 100),
    (None, 1_200, 100),
];

/// Whether a game has `stones` black stones and no white one.
fn has_stones(game: &Game<Global>, stones: u16) -> bool {
    count_of(game, Colour::Black) == stones && count_of(game, Colour::White) == 0
}

#[test]
fn a_long_record_up_to_a_move(rt: HostRuntime) -> Result<(), Fail> {
    let record = long_record(rt.alloc(), b"")?;
    for (row, (number, moves, stones)) in PREFIXES.iter().enumerate() {
        let game = game_of(&rt, rt.alloc(), record.as_slice(), *number);
        has_made(&rt, &game, *moves);
        assert!(rt; has_stones(&game, *stones), "row {row}");
    }
    Ok(())
}

#[test]
fn the_verdict_on_a_long_record(rt: HostRuntime) -> Result<(), Fail> {
    let record = long_record(rt.alloc(), b"RE[B+361]")?;
    let source = record.as_slice();
    let verdict = (1_200, "B+361", Stated::Agrees);
    assert!(rt; has_verdict(&rt, rt.alloc(), source, verdict));
    let text = b"moves 1200\nscore B+361\nstated agrees\n";
    assert!(rt; Tool::Judge.writes(rt.alloc(), source, text));
    Ok(())
}

#[test]
fn a_long_record_is_tidied(rt: HostRuntime) -> Result<(), Fail> {
    let record = long_record(rt.alloc(), b"")?;
    let text = copies(rt.alloc(), record.as_slice(), 1, b"\n")?;
    for blanks in [0u32, 2_000] {
        let source = copies(rt.alloc(), b" \n\t", blanks, record.as_slice())?;
        let is_tidy = Tool::Tidy.writes(rt.alloc(), source.as_slice(), text.as_slice());
        assert!(rt; is_tidy, "{blanks} blanks");
    }
    Ok(())
}

/// A record with a comment of `letters` letters, and what follows it.
fn commented(alloc: Global, letters: u32, suffix: &[u8]) -> Result<Vec<u8>, AllocError> {
    let comment = copies(alloc, b"a", letters, suffix)?;
    copies(alloc, b"(;C[", 1, comment.as_slice())
}

#[test]
fn a_long_comment(rt: HostRuntime) -> Result<(), Fail> {
    let record = commented(rt.alloc(), 200_000, b"])")?;
    let text = commented(rt.alloc(), 200_000, b"])\n")?;
    assert!(rt; Tool::Tidy.writes(rt.alloc(), record.as_slice(), text.as_slice()));
    let verdict = b"moves 0\nscore 0\nstated none\n";
    assert!(rt; Tool::Judge.writes(rt.alloc(), record.as_slice(), verdict));
    Ok(())
}

/// Small records, and what is written of their games: without a move, with passes, with variations
/// and with a stone.
const WRITTEN: &[(&[u8], &[u8])] = &[
    (b"(;)", b"(;GM[1]FF[4]SZ[19]KM[0]PL[B])\n"),
    (b" ( ; ) ", b"(;GM[1]FF[4]SZ[19]KM[0]PL[B])\n"),
    (b"(;(;))", b"(;GM[1]FF[4]SZ[19]KM[0]PL[B])\n"),
    (
        b"(;SZ[9]KM[0.5];B[];W[tt];W[ ])",
        b"(;GM[1]FF[4]SZ[9]KM[0.5]PL[B];B[];W[];W[])\n",
    ),
    (
        b"(;SZ[9];B[aa](;W[bb];B[cc](;W[dd];B[])(;W[ee]))(;W[ff];B[gg]))(;SZ[5];B[aa])",
        b"(;GM[1]FF[4]SZ[9]KM[0]PL[B];B[aa];W[bb];B[cc];W[dd];B[])\n",
    ),
    (
        b"(;SZ[2]AW[ab];B[bb])",
        b"(;GM[1]FF[4]SZ[2]KM[0]PL[B]AW[ab];B[bb])\n",
    ),
];

#[test]
fn small_records_are_written(rt: HostRuntime) {
    for (number, (source, text)) in WRITTEN.iter().enumerate() {
        assert!(rt;
            is_written_as(&rt, rt.alloc(), source, text),
            "row {number}"
        );
    }
}

/// The verdicts on small records, and on two with as many stones as there can be.
const VERDICTS: &[(&[u8], Judged)] = &[
    (b"(;)", (0, "0", Stated::None)),
    (b" ( ; ) ", (0, "0", Stated::None)),
    (b"(;(;))", (0, "0", Stated::None)),
    (
        b"(;SZ[9]KM[0.5];B[];W[tt];W[ ])",
        (3, "W+0.5", Stated::None),
    ),
    (
        b"(;SZ[9];B[aa](;W[bb];B[cc](;W[dd];B[])(;W[ee]))(;W[ff];B[gg]))(;SZ[5];B[aa])",
        (5, "0", Stated::None),
    ),
    (
        b"(;SZ[25]AB[aa:yy]AE[mm];W[];B[])",
        (2, "B+625", Stated::None),
    ),
    (
        b"(;SZ[25]AB[aa:ly]AW[na:yy]PL[W];W[];B[])",
        (2, "0", Stated::None),
    ),
];

#[test]
fn verdicts_without_a_stated_score(rt: HostRuntime) {
    for (number, (source, verdict)) in VERDICTS.iter().enumerate() {
        assert!(rt;
            has_verdict(&rt, rt.alloc(), source, *verdict),
            "row {number}"
        );
    }
}

#[test]
fn empty_records_are_judged(rt: HostRuntime) {
    let text = b"moves 0\nscore 0\nstated none\n";
    for record in [b"(;)".as_slice(), b" ( ; ) ", b"(;(;))"] {
        assert!(rt; Tool::Judge.writes(rt.alloc(), record, text));
    }
}

#[test]
fn an_empty_record_is_tidied(rt: HostRuntime) {
    assert!(rt; Tool::Tidy.writes(rt.alloc(), b" ( ; ) ", b"(;)\n"));
}
