//! Lines that take memory, on boards of all sizes and in a long game, where there is enough of it: each of
//! them is accepted.
use crate::help::sessions::{begun, result_of};
use crate::help::shared_rows::KO_AFTER_PASSES;
use crate::loads::{Gift, OneFile, answers_over};
use crate::scripts::ends;
use go_board::{MAX_LINES, Point, Size, Vertex, vertex_text};
use goref::{Session, run};
use std::alloc::{AllocError, Global};
use std::process::Abort;
use std::test::Fail;
use test_devices::{Reader, Writer};

/// Whether a session accepts a line.
fn accepts(rt: &impl Abort, alloc: Global, session: &mut Session<Global>, line: &[u8]) -> bool {
    result_of(rt, alloc, session, line).is_ok()
}

/// Lines that are accepted on a board of any size. On a single point all moves are passes.
const LINES: &[&[u8]] = &[
    b"goref-legal b",
    b"reg_genmove w",
    b"genmove b",
    b"goref-legal w",
    b"reg_genmove b",
    b"genmove w",
    b"play b pass",
    b"genmove b",
    b"goref-printsgf",
    b"undo",
    b"undo",
    b"undo",
    b"undo",
    b"clear_board",
];

/// Asserts that all of these lines are accepted.
fn takes_all(rt: &impl Abort, alloc: Global, session: &mut Session<Global>) {
    for line in LINES {
        assert!(rt; accepts(rt, alloc, session, line));
    }
}

#[test]
fn lines_on_each_size(rt: HostRuntime) {
    for lines in 1..=MAX_LINES {
        takes_all(&rt, rt.alloc(), &mut begun(&rt, rt.alloc(), lines));
    }
}

/// How many handicap stones there are at most on a board of `lines` lines.
fn most_stones(lines: u8) -> u32 {
    match lines {
        0..=6 => 0,
        7 => 4,
        _ if lines % 2 == 0 => 4,
        _ => 9,
    }
}

/// Asserts that a line that sets up a handicap is accepted.
fn takes_handicap(rt: &impl Abort, alloc: Global, session: &mut Session<Global>, line: &[u8]) {
    assert!(rt; accepts(rt, alloc, session, line));
    assert!(rt; accepts(rt, alloc, session, b"clear_board"));
}

/// Asserts that handicap stones are accepted, up to the most.
fn takes_stones(
    rt: &impl Abort,
    alloc: Global,
    session: &mut Session<Global>,
    most: u32,
) -> Result<(), Fail> {
    for stones in 2..=most {
        let fixed = format!(in alloc; "fixed_handicap {stones}")?;
        takes_handicap(rt, alloc, session, fixed.as_str().as_bytes());
        let free = format!(in alloc; "place_free_handicap {stones}")?;
        takes_handicap(rt, alloc, session, free.as_str().as_bytes());
    }
    Ok(())
}

/// Asserts the same of each handicap on a board of `lines` lines.
fn takes_handicaps(rt: &impl Abort, alloc: Global, lines: u8) -> Result<(), Fail> {
    let mut session = begun(rt, alloc, lines);
    takes_stones(rt, alloc, &mut session, most_stones(lines))
}

#[test]
fn each_handicap(rt: HostRuntime) -> Result<(), Fail> {
    for lines in 1..=MAX_LINES {
        takes_handicaps(&rt, rt.alloc(), lines)?;
    }
    Ok(())
}

/// Adds a space and the vertex of a point.
fn push_vertex(
    rt: &impl Abort,
    line: &mut Vec<u8>,
    size: Size,
    number: u16,
) -> Result<(), AllocError> {
    assert!(rt; number < size.points());
    line.push(b' ')?;
    let vertex = Vertex::At(Point::numbered(size, number));
    line.extend_from_slice(vertex_text(vertex).as_bytes())
}

/// Whether a list of `count` vertices is tried: each on boards of up to 9 lines, and each forty-first and the
/// longest on larger ones.
fn is_tried(size: Size, count: u16) -> bool {
    size.lines() <= 9 || count % 41 == 2 || count.saturating_add(1) == size.points()
}

/// Asserts that lists of 2 vertices up to all but one are accepted.
fn takes_lists(
    rt: &impl Abort,
    alloc: Global,
    session: &mut Session<Global>,
    size: Size,
) -> Result<(), AllocError> {
    let mut line = b"set_free_handicap".to_vec(alloc)?;
    push_vertex(rt, &mut line, size, 0)?;
    for number in 1..size.points().saturating_sub(1) {
        push_vertex(rt, &mut line, size, number)?;
        if is_tried(size, number.saturating_add(1)) {
            takes_handicap(rt, alloc, session, line.as_slice());
        }
    }
    Ok(())
}

/// Asserts the same on a board of `lines` lines.
fn takes_lists_on(rt: &impl Abort, alloc: Global, lines: u8) -> Result<(), AllocError> {
    let size = Size::new(lines).expect(rt, "a size");
    let mut session = Session::new(alloc, size);
    takes_lists(rt, alloc, &mut session, size)
}

#[test]
fn lists_of_handicap_stones(rt: HostRuntime) -> Result<(), Fail> {
    for lines in 2..=MAX_LINES {
        takes_lists_on(&rt, rt.alloc(), lines)?;
    }
    Ok(())
}

/// Puts white stones on all points but the first.
fn fill_with_white(
    rt: &impl Abort,
    alloc: Global,
    session: &mut Session<Global>,
    size: Size,
) -> Result<(), AllocError> {
    for number in 1..size.points() {
        let mut line = b"play w".to_vec(alloc)?;
        push_vertex(rt, &mut line, size, number)?;
        assert!(rt; accepts(rt, alloc, session, line.as_slice()));
    }
    Ok(())
}

/// What chains there are once White has all points but the first, and Black plays there.
fn chains_after(
    rt: &impl Abort,
    alloc: Global,
    session: &mut Session<Global>,
    size: Size,
) -> Result<Vec<u8>, AllocError> {
    fill_with_white(rt, alloc, session, size)?;
    assert!(rt; accepts(rt, alloc, session, b"play b a1"));
    result_of(rt, alloc, session, b"goref-chains")
}

/// The same on a new board of `lines` lines.
fn chains_after_capture(rt: &impl Abort, alloc: Global, lines: u8) -> Result<Vec<u8>, AllocError> {
    let size = Size::new(lines).expect(rt, "a size");
    let mut session = Session::new(alloc, size);
    chains_after(rt, alloc, &mut session, size)
}

/// White has 48 of 49 points, and Black takes them all.
#[test]
fn a_large_capture(rt: HostRuntime) -> Result<(), Fail> {
    let chains = chains_after_capture(&rt, rt.alloc(), 7)?;
    assert!(rt; chains.as_slice() == b" B A1 : B1 A2".as_slice());
    Ok(())
}

/// Adds a text `count` times.
fn push_copies(script: &mut Vec<u8>, text: &[u8], count: u32) -> Result<(), AllocError> {
    for _ in 0..count {
        script.extend_from_slice(text)?;
    }
    Ok(())
}

/// After 2,000 passes more a ko still repeats, and a pass and a play are still accepted.
#[test]
fn a_long_game(rt: HostRuntime) -> Result<(), Fail> {
    let alloc = rt.alloc();
    let mut script = KO_AFTER_PASSES.script.to_vec(alloc)?;
    let mut answers = KO_AFTER_PASSES.answers.to_vec(alloc)?;
    push_copies(&mut script, b"play b pass\n", 2_000)?;
    push_copies(&mut answers, b"=\n\n", 2_000)?;
    script.extend_from_slice(b"play w b2\nplay w pass\nplay b d4\ngenmove w\n")?;
    answers.extend_from_slice(b"? illegal move\n\n=\n\n=\n\n")?;
    let mut writer = Writer::new(alloc);
    let reader = Reader::new(script.as_slice());
    assert!(rt; ends(&rt, alloc, reader, &mut writer) == Ok(()));
    assert!(rt; writer.bytes().starts_with(answers.as_slice()));
    assert!(rt; writer.bytes().split_at(answers.len()).1.starts_with(b"= "));
    Ok(())
}

/// A record with a comment of `letters` letters, and a move.
fn commented(alloc: Global, letters: u32) -> Result<Vec<u8>, AllocError> {
    let mut record = b"(;SZ[9]C[".to_vec(alloc)?;
    push_copies(&mut record, b"abcdefgh", letters / 8)?;
    record.extend_from_slice(b"];B[ee])")?;
    Ok(record)
}

#[test]
fn large_files_are_loaded(rt: HostRuntime) -> Result<(), Fail> {
    let alloc = rt.alloc();
    let size = Size::new(19).expect(&rt, "a size");
    for letters in [5_000, 12_000, 20_000, 500_000, 2_000_000, 16_000_000] {
        let record = commented(alloc, letters)?;
        let mut shelf = OneFile::named(b"f", alloc, Gift::Bytes(record.as_slice()));
        let mut reader = Reader::new(b"loadsgf f\nfinal_score\n");
        let mut writer = Writer::new(alloc);
        let end = run(alloc, size, &mut reader, &mut writer, &mut shelf);
        assert!(rt; end == Ok(()));
        assert!(rt;
            writer.bytes() == b"=\n\n= B+81\n\n".as_slice(),
            "{letters} letters"
        );
    }
    Ok(())
}

#[test]
fn records_of_each_size_are_loaded(rt: HostRuntime) -> Result<(), Fail> {
    let alloc = rt.alloc();
    for lines in 1..=MAX_LINES {
        let record = format!(in alloc; "(;SZ[{lines}];B[])")?;
        let gift = Gift::Bytes(record.as_str().as_bytes());
        let answers = answers_over(&rt, alloc, gift, b"loadsgf f\n")?;
        assert!(rt; answers.as_slice() == b"=\n\n".as_slice(), "{lines} lines");
    }
    Ok(())
}
