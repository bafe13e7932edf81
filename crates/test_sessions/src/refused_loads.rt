//! A refused `loadsgf` leaves the game as it was: a session that got one answers all later lines as a session
//! that got none.
use crate::loads::{Gift, answers_over};
use std::alloc::{AllocError, Global};
use std::process::Abort;
use std::test::Fail;

/// A game with handicap stones, komi, a superko rule, a pass and a ko that White may not take back.
const BEFORE: &[u8] = b"boardsize 4\nkomi 0.5\ngoref-superko situational\n\
    set_free_handicap b3 a2\nplay w c3\nplay b b1\nplay w c1\nplay b pass\nplay w d2\nplay w b2\n\
    play b c2\n";

/// Each question about the game, and then each move taken back.
const AFTER: &[u8] = b"showboard\ngoref-printsgf\ngoref-chains\ngoref-legal b\ngoref-legal w\n\
    final_score\nplay w b2\nreg_genmove b\nreg_genmove w\n\
    undo\nshowboard\ngoref-legal w\nundo\nshowboard\ngoref-legal b\nundo\nshowboard\nundo\nshowboard\n\
    undo\nshowboard\nundo\nshowboard\nundo\nshowboard\nundo\ngoref-printsgf\ngoref-legal w\n";

/// Three texts, one after another.
fn joined(alloc: Global, prefix: &[u8], text: &[u8], suffix: &[u8]) -> Result<Vec<u8>, AllocError> {
    let mut whole = prefix.to_vec(alloc)?;
    whole.extend_from_slice(text)?;
    whole.extend_from_slice(suffix)?;
    Ok(whole)
}

/// The answers where one line in the middle is refused so. All others are those of a session without it.
fn with_refusal(
    rt: &impl Abort,
    alloc: Global,
    gift: Gift<'_>,
    refusal: &[u8],
) -> Result<Vec<u8>, AllocError> {
    let early = answers_over(rt, alloc, gift, BEFORE)?;
    let without = joined(alloc, BEFORE, b"", AFTER)?;
    let all = answers_over(rt, alloc, gift, without.as_slice())?;
    assert!(rt; all.as_slice().starts_with(early.as_slice()));
    let (_, late) = all.as_slice().split_at(early.len().min(all.len()));
    joined(alloc, early.as_slice(), refusal, late)
}

/// Asserts the answer to a line in the middle of the game, and that all answers around it are those of a
/// session without it.
fn is_refused(
    rt: &impl Abort,
    alloc: Global,
    gift: Gift<'_>,
    line: &[u8],
    refusal: &[u8],
) -> Result<(), AllocError> {
    let script = joined(alloc, BEFORE, line, AFTER)?;
    let expected = with_refusal(rt, alloc, gift, refusal)?;
    let answers = answers_over(rt, alloc, gift, script.as_slice())?;
    assert!(rt; answers.as_slice() == expected.as_slice());
    Ok(())
}

/// Asserts that a load of what a shelf gives is refused so, and leaves the game.
fn load_is_refused(
    rt: &impl Abort,
    alloc: Global,
    gift: Gift<'_>,
    refusal: &[u8],
) -> Result<(), AllocError> {
    is_refused(rt, alloc, gift, b"loadsgf f\n", refusal)
}

#[test]
fn the_game_before(rt: HostRuntime) -> Result<(), Fail> {
    let alloc = rt.alloc();
    let script = joined(alloc, BEFORE, b"goref-printsgf\n", b"play w b2\n")?;
    let answers = answers_over(&rt, alloc, Gift::Missing, script.as_slice())?;
    assert!(rt;
        answers.as_slice()
            == b"=\n\n=\n\n=\n\n=\n\n=\n\n=\n\n=\n\n=\n\n=\n\n=\n\n=\n\n\
            = (;GM[1]FF[4]SZ[4]KM[0.5]PL[W]AB[ac][bb];W[cb];B[bd];W[cd];B[];W[dc];W[bc];B[cc])\n\n\
            ? illegal move\n\n"
                .as_slice()
    );
    Ok(())
}

#[test]
fn files_that_cannot_be_loaded(rt: HostRuntime) -> Result<(), Fail> {
    for gift in [
        Gift::Missing,
        Gift::TooLarge,
        Gift::Bytes(b""),
        Gift::Bytes(b"no record"),
        Gift::Bytes(b"(;SZ[9];B[aa]"),
        Gift::Bytes(b"(;SZ[9]KM[7.5];B[aa];W[aa])"),
        Gift::Bytes(b"(;SZ[2];B[aa];W[ba];W[ab];B[aa])"),
        Gift::Bytes(b"(;SZ[9]AB[aa]AW[ab][ba])"),
        Gift::Bytes(b"(;SZ[9];B[aa];AB[bb])"),
        Gift::Bytes(b"(;SZ[26])"),
    ] {
        load_is_refused(&rt, rt.alloc(), gift, b"? cannot load file\n\n")?;
    }
    Ok(())
}

#[test]
fn a_record_that_is_too_long(rt: HostRuntime) -> Result<(), Fail> {
    let alloc = rt.alloc();
    let mut text = b"(;SZ[9];B[aa])".to_vec(alloc)?;
    let blanks = vec![in alloc; b' '; 16_777_203]?;
    text.extend_from_slice(blanks.as_slice())?;
    assert!(rt; text.len() == 16_777_217);
    let gift = Gift::Bytes(text.as_slice());
    load_is_refused(&rt, alloc, gift, b"? cannot load file\n\n")?;
    Ok(())
}

#[test]
fn memory_that_a_shelf_wants(rt: HostRuntime) -> Result<(), Fail> {
    load_is_refused(&rt, rt.alloc(), Gift::Memory, b"? out of memory\n\n")?;
    Ok(())
}

#[test]
fn arguments_that_ask_for_nothing(rt: HostRuntime) -> Result<(), Fail> {
    for line in [
        b"loadsgf\n".as_slice(),
        b"loadsgf f x\n",
        b"loadsgf f -1\n",
        b"loadsgf f 2147483648\n",
    ] {
        let gift = Gift::Bytes(b"(;SZ[9];B[aa])");
        is_refused(&rt, rt.alloc(), gift, line, b"? syntax error\n\n")?;
    }
    Ok(())
}
