//! Answers to a writer of fixed room, which takes each piece whole or nothing of it: what it holds is
//! as many of an answer's first pieces as it has room for.
use crate::help::sessions::{Answered, answers, begun};
use go_board::{Failed, Meter, Sink, WriteFault};
use goref::{Fetched, Flow, Line, Session};
use std::alloc::{AllocError, Global};
use std::process::Abort;
use std::test::Fail;

/// A writer that has this much room left.
#[derive(Drop)]
struct TightWriter {
    bytes: Vec<u8, Global>,
    room: usize,
    failures: Meter,
}

impl TightWriter {
    /// A writer that took nothing so far.
    fn with_room(alloc: Global, room: usize) -> TightWriter {
        TightWriter {
            bytes: Vec::new(alloc),
            room,
            failures: Meter::new(),
        }
    }
}

impl Sink for TightWriter {
    ghost use Rattle.std.specs.Prelude.{Some};

    ghost taken = { λ writer. Some writer.bytes.items };

    ghost failures = { λ writer. writer.failures };

    ghost held = { λ _. 0 };

    /// It fails if it has no room, and if there is no memory.
    fn put(&mut self, bytes: &[u8]) -> Result<usize, Failed> {
        if bytes.len() > self.room || self.bytes.extend_from_slice(bytes).is_err() {
            self.failures.tick();
            return Err(Failed);
        }
        self.room -= bytes.len();
        Ok(bytes.len())
    }

    fn flush(&mut self) -> Result<(), Failed> {
        Ok(())
    }
}

/// A number of lines, the lines of a session on that board, and the pieces of the answer to the last one.
struct Row {
    lines: u8,
    before: &'static [Answered],
    asked: &'static [u8],
    pieces: &'static [&'static [u8]],
}

const DONE: &[u8] = b"=\n\n";

const ROWS: &[Row] = &[
    Row {
        lines: 11,
        before: &[
            (b"play b A11", DONE),
            (b"play w C11", DONE),
            (b"play b B11", DONE),
        ],
        asked: b"goref-chains",
        pieces: &[
            b"=", b" ", b"B", b" ", b"A11", b" ", b"B11", b" :", b" ", b"A10", b" ", b"B10", b"\n",
            b"W", b" ", b"C11", b" :", b" ", b"C10", b" ", b"D11", b"\n\n",
        ],
    },
    Row {
        lines: 2,
        before: &[],
        asked: b"7 goref-legal b",
        pieces: &[
            b"=", b"7", b" ", b"A1", b" ", b"B1", b" ", b"A2", b" ", b"B2", b"\n\n",
        ],
    },
    Row {
        lines: 9,
        before: &[],
        asked: b"fixed_handicap 3",
        pieces: &[b"=", b" ", b"C3", b" ", b"G7", b" ", b"C7", b"\n\n"],
    },
    Row {
        lines: 19,
        before: &[],
        asked: b"1 place_free_handicap 2",
        pieces: &[b"=", b"1", b" ", b"D4", b" ", b"Q16", b"\n\n"],
    },
    Row {
        lines: 19,
        before: &[],
        asked: b"2147483647 boardsize 9",
        pieces: &[b"=", b"2147483647", b"\n\n"],
    },
    Row {
        lines: 19,
        before: &[],
        asked: b"boardsize 9",
        pieces: &[DONE],
    },
];

/// As many of the first pieces as there is room for.
fn first_pieces(
    alloc: Global,
    pieces: &[&'static [u8]],
    room: usize,
) -> Result<Vec<u8, Global>, AllocError> {
    let mut text = Vec::new(alloc);
    for piece in pieces {
        if text.len() + piece.len() > room {
            return Ok(text);
        }
        text.extend_from_slice(piece)?;
    }
    Ok(text)
}

/// Answers a row's last line, after the lines before it.
fn answer_last(
    rt: &impl Abort,
    alloc: Global,
    session: &mut Session<Global>,
    row: &Row,
    writer: &mut TightWriter,
) -> Result<Flow, WriteFault> {
    assert!(rt; answers(alloc, session, row.before));
    session.answer(&Line::of(row.asked), Fetched::None, writer)
}

/// Asserts what a writer of this room holds of a row's answer. The answer has `length` bytes.
fn holds_pieces(
    rt: &impl Abort,
    alloc: Global,
    row: &Row,
    room: usize,
    length: usize,
) -> Result<(), AllocError> {
    let mut writer = TightWriter::with_room(alloc, room);
    let end = answer_last(
        rt,
        alloc,
        &mut begun(rt, alloc, row.lines),
        row,
        &mut writer,
    );
    let held = first_pieces(alloc, row.pieces, room)?;
    assert!(rt; writer.bytes.as_slice() == held.as_slice(), "room {room}");
    let wanted = if held.len() < length {
        Err(WriteFault)
    } else {
        Ok(Flow::More)
    };
    assert!(rt; end == wanted, "room {room}");
    Ok(())
}

/// Asserts the same of each room up to that of the answer.
fn holds_in_each_room(rt: &impl Abort, alloc: Global, row: &Row) -> Result<(), AllocError> {
    let length = first_pieces(alloc, row.pieces, usize::MAX)?.len();
    for room in 0..=length {
        holds_pieces(rt, alloc, row, room, length)?;
    }
    Ok(())
}

#[test]
fn an_answer_leaves_in_pieces(rt: HostRuntime) -> Result<(), Fail> {
    for row in ROWS {
        holds_in_each_room(&rt, rt.alloc(), row)?;
    }
    Ok(())
}
