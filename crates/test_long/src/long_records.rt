//! Records of more moves and nodes than two bytes count, set-up far from the root, and a long result.
use crate::long_games::nineteen;
use go_game::Game;
use go_record::{RecordError, Stated, Verdict, judge_source, replay_source, replay_source_on};
use go_sgf::{SgfError, check};
use std::alloc::{AllocError, Global};
use std::process::Abort;
use std::test::Fail;

/// A text: its prefix, copies of a piece, and its end.
fn repeated(
    alloc: Global,
    prefix: &[u8],
    piece: &[u8],
    count: u32,
    end: &[u8],
) -> Result<Vec<u8>, AllocError> {
    let mut text = prefix.to_vec(alloc)?;
    for _ in 0..count {
        text.extend_from_slice(piece)?;
    }
    text.extend_from_slice(end)?;
    Ok(text)
}

/// More moves and nodes than two bytes count.
const MANY: u32 = 66_000;

/// What is judged of a text that spells a record.
fn judged(rt: &impl Abort, alloc: Global, text: &[u8]) -> Result<Verdict, RecordError> {
    let source = check(text).expect(rt, "a record");
    judge_source(alloc, &source)
}

/// How many moves are replayed of a text that spells a record.
fn replayed(
    rt: &impl Abort,
    alloc: Global,
    text: &[u8],
    number: Option<u32>,
) -> Result<usize, RecordError> {
    let source = check(text).expect(rt, "a record");
    Ok(replay_source(alloc, &source, number)?.move_count())
}

#[test]
fn more_moves_than_two_bytes_count(rt: HostRuntime) -> Result<(), Fail> {
    let text = repeated(rt.alloc(), b"(;SZ[9];B[ee]", b";W[]", MANY - 1, b")")?;
    let verdict = Verdict {
        moves: MANY as usize,
        margin: 8_100,
        stated: Stated::None,
    };
    assert_eq!(rt; judged(&rt, rt.alloc(), text.as_slice()), Ok(verdict));
    assert_eq!(rt;
        replayed(&rt, rt.alloc(), text.as_slice(), None),
        Ok(MANY as usize)
    );
    for number in [65_537, MANY] {
        let moves = replayed(&rt, rt.alloc(), text.as_slice(), Some(number));
        assert_eq!(rt; moves, Ok(number as usize - 1));
    }
    Ok(())
}

#[test]
fn a_fault_far_from_the_root_has_its_number(rt: HostRuntime) -> Result<(), Fail> {
    for (end, why) in [
        (
            b";B[zz])".as_slice(),
            RecordError::BadValue(MANY as usize + 1),
        ),
        (
            b";AB[aa])".as_slice(),
            RecordError::SetupAfterMove(MANY as usize + 1),
        ),
    ] {
        let text = repeated(rt.alloc(), b"(;SZ[9]", b";W[]", MANY, end)?;
        assert_eq!(rt; judged(&rt, rt.alloc(), text.as_slice()), Err(why));
    }
    Ok(())
}

#[test]
fn stones_are_set_up_far_from_the_root(rt: HostRuntime) -> Result<(), Fail> {
    for nodes in [39, 40, 41, 50, 70_000u32] {
        let text = repeated(rt.alloc(), b"(;SZ[9]", b";", nodes, b"AB[aa];W[])")?;
        let verdict = Verdict {
            moves: 1,
            margin: 8_100,
            stated: Stated::None,
        };
        assert_eq!(rt; judged(&rt, rt.alloc(), text.as_slice()), Ok(verdict));
    }
    Ok(())
}

#[test]
fn a_long_result_is_read(rt: HostRuntime) -> Result<(), Fail> {
    for (end, stated) in [
        (b"])".as_slice(), Stated::Agrees),
        (b"1])".as_slice(), Stated::None),
    ] {
        let text = repeated(rt.alloc(), b"(;SZ[9]AB[aa]RE[B+81", b" ", 1_000, end)?;
        let verdict = judged(&rt, rt.alloc(), text.as_slice());
        let is_so = matches!(verdict, Ok(verdict) if verdict.stated == stated);
        assert!(rt; is_so);
    }
    Ok(())
}

/// A record with each kind of part that a replay looks at.
const WHOLE: &[u8] = b"(;GM[1]SZ[9]KM[6.5]AB[cc:dd]PL[W];W[ee]C[a\\]b];B[];W[ff](;B[gg])(;B[hh]))";

#[test]
fn a_record_that_is_cut_is_told_by_check(rt: HostRuntime) -> Result<(), Fail> {
    for end in 0..WHOLE.len() {
        let (prefix, _) = WHOLE.split_at(end);
        let why = if end < 2 {
            SgfError::NoTree
        } else {
            SgfError::EndInside(end)
        };
        assert_eq!(rt; check(prefix).err(), Some(why), "{end} bytes");
    }
    assert_eq!(rt; replayed(&rt, rt.alloc(), WHOLE, None), Ok(4));
    Ok(())
}

#[test]
fn a_refused_record_leaves_a_vacant_game(rt: HostRuntime) {
    let mut game = Game::new(rt.alloc(), nineteen(&rt));
    let source = check(b"(;SZ[9];B[ee];W[ee])").expect(&rt, "a record");
    let end = replay_source_on(&mut game, &source, None);
    let is_so = matches!(end, Err(RecordError::Illegal(2, _)));
    assert!(rt; is_so && game.is_vacant());
    assert!(rt; replay_source_on(&mut game, &source, Some(2)) == Ok(()));
    assert_eq!(rt; game.move_count(), 1);
}
