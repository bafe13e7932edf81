//! Tests of the functions for C on records, on lines and on sessions: the status, the length and the text
//! that each call gives.
use crate::handle::Handle;
use crate::{
    goref_answers, goref_close, goref_give, goref_judge, goref_open, goref_send, goref_take,
    goref_tidy, goref_wants,
};
use std::test::Fail;

/// The result of a call: its status, and the text in a room of this many bytes.
type End = (u8, usize, &'static [u8]);

/// Records, the room that is given, and the result of `goref_tidy` with each.
const TIDIED: &[(&[u8], usize, End)] = &[
    (
        b"( ;FF[4] SZ[9]; B[ee] )",
        99,
        (0, 20, b"(;FF[4]SZ[9];B[ee])\n"),
    ),
    (
        b"( ;FF[4] SZ[9]; B[ee] )",
        20,
        (0, 20, b"(;FF[4]SZ[9];B[ee])\n"),
    ),
    (
        b"( ;FF[4] SZ[9]; B[ee] )",
        19,
        (0, 20, b"(;FF[4]SZ[9];B[ee])"),
    ),
    (b"( ;FF[4] SZ[9]; B[ee] )", 0, (0, 20, b"")),
    (b"", 99, (1, 12, b"no game tree")),
    (b"(;B[aa]7)", 99, (1, 20, b"unexpected byte at 7")),
    (b"(;B[aa]7)", 10, (1, 20, b"unexpected")),
];

/// The same of `goref_judge`.
const JUDGED: &[(&[u8], usize, End)] = &[
    (
        b"(;SZ[5];B[cc];W[])",
        99,
        (0, 31, b"moves 2\nscore B+25\nstated none\n"),
    ),
    (b"(;SZ[5];B[cc];W[])", 7, (0, 31, b"moves 2")),
    (
        b"(;SZ[5];B[cc];W[cc])",
        99,
        (1, 20, b"move 2 is on a stone"),
    ),
    (b"(", 99, (1, 12, b"no game tree")),
];

/// Lines for a board of five lines, and the result of `goref_answers` with them.
const ANSWERED: &[(u8, &[u8], usize, End)] = &[
    (
        5,
        b"1 name\nplay b e5\nquit\nname\n",
        99,
        (0, 16, b"=1 goref\n\n=\n\n=\n\n"),
    ),
    (5, b"play b f6", 99, (0, 16, b"? illegal move\n\n")),
    (
        5,
        b"loadsgf a.sgf\n",
        99,
        (0, 20, b"? cannot load file\n\n"),
    ),
    (5, b"", 99, (0, 0, b"")),
    (0, b"name\n", 99, (2, 0, b"")),
    (26, b"name\n", 99, (2, 0, b"")),
];

#[test]
fn records_are_tidied(rt: HostRuntime) -> Result<(), Fail> {
    for (number, (source, size, (status, whole, text))) in TIDIED.iter().enumerate() {
        let mut room = Vec::new(rt.alloc());
        room.resize(*size, 0)?;
        let mut length = 7;
        let end = goref_tidy(rt.alloc(), source, room.as_mut_slice(), &mut length);
        assert!(rt; end == *status && length == *whole, "row {number}");
        assert!(rt; room.as_slice().starts_with(text), "row {number}");
    }
    Ok(())
}

#[test]
fn records_are_judged(rt: HostRuntime) -> Result<(), Fail> {
    for (number, (source, size, (status, whole, text))) in JUDGED.iter().enumerate() {
        let mut room = Vec::new(rt.alloc());
        room.resize(*size, 0)?;
        let mut length = 7;
        let end = goref_judge(rt.alloc(), source, room.as_mut_slice(), &mut length);
        assert!(rt; end == *status && length == *whole, "row {number}");
        assert!(rt; room.as_slice().starts_with(text), "row {number}");
    }
    Ok(())
}

#[test]
fn lines_are_answered(rt: HostRuntime) -> Result<(), Fail> {
    for (number, (lines, input, size, (status, whole, text))) in ANSWERED.iter().enumerate() {
        let mut room = Vec::new(rt.alloc());
        room.resize(*size, 0)?;
        let mut length = 7;
        let end = goref_answers(rt.alloc(), *lines, input, room.as_mut_slice(), &mut length);
        assert!(rt; end == *status && length == *whole, "row {number}");
        assert!(rt; room.as_slice().starts_with(text), "row {number}");
    }
    Ok(())
}

/// A text, the file that is given with it, and the result of sending it: the status and the answers.
type Sent = (&'static [u8], Option<&'static [u8]>, u8, &'static [u8]);

/// A record on three lines, whose one stone has the whole board.
const SMALL: &[u8] = b"(;SZ[3];B[bb])";

/// Texts for one session on five lines, one after another.
const SENT: &[Sent] = &[
    (b"play b c3\n", None, 0, b"=\n\n"),
    (
        b"1 play w c3\n2 play w b2",
        None,
        0,
        b"?1 illegal move\n\n=2\n\n",
    ),
    (b"", None, 0, b""),
    (b"\n # nothing", None, 0, b""),
    (b"loadsgf a\n", None, 0, b"? cannot load file\n\n"),
    (
        b"loadsgf a\nfinal_score\n",
        Some(SMALL),
        0,
        b"=\n\n= B+9\n\n",
    ),
    (b"loadsgf b 1\nfinal_score", Some(SMALL), 0, b"=\n\n= 0\n\n"),
    (
        b"play w a1\nloadsgf c\n",
        Some(b"(;SZ[3]"),
        0,
        b"=\n\n? cannot load file\n\n",
    ),
    (b"final_score\n", Some(SMALL), 0, b"= W+9\n\n"),
    (b"name\nquit\nname\n", None, 1, b"= goref\n\n=\n\n"),
    (b"name\n", None, 1, b""),
    (b"name\n", Some(SMALL), 1, b""),
];

/// Lines, the room that is given, and the result of `goref_wants` with them.
const WANTED: &[(&[u8], usize, End)] = &[
    (b"loadsgf a.sgf", 9, (0, 5, b"a.sgf")),
    (b"7 loadsgf\ta.sgf  # it\nname", 4, (0, 5, b"a.sg")),
    (b"loadsgf a.sgf x", 9, (1, 0, b"")),
    (b"name\nloadsgf a.sgf\n", 9, (1, 0, b"")),
    (b"", 9, (1, 0, b"")),
];

/// Sends a text with its file, and returns whether the answers are those of the row.
fn is_answered(rt: &HostRuntime, handle: &mut Handle, sent: &Sent) -> bool {
    let (text, file, status, answers) = sent;
    let mut length = 7;
    let end = match file {
        Some(file) => goref_give(rt.alloc(), handle, text, file, &mut length),
        None => goref_send(rt.alloc(), handle, text, &mut length),
    };
    let mut room = [0; 64];
    let mut whole = 7;
    let taken = goref_take(rt.alloc(), handle, &mut room, &mut whole);
    let is_told = end == *status && taken == 0 && length == answers.len() && whole == length;
    is_told && room.as_slice().starts_with(answers)
}

#[test]
fn a_session_goes_on_from_text_to_text(rt: HostRuntime) {
    let mut handle = Handle::shut(rt.alloc());
    assert!(rt; goref_open(rt.alloc(), 5, &mut handle) == 0);
    for (number, sent) in SENT.iter().enumerate() {
        assert!(rt; is_answered(&rt, &mut handle, sent), "row {number}");
    }
    // A handle that is opened anew has a session of its own.
    assert!(rt; goref_open(rt.alloc(), 5, &mut handle) == 0);
    assert!(rt; is_answered(&rt, &mut handle, &SENT[0]));
    assert!(rt; goref_open(rt.alloc(), 26, &mut handle) == 2);
    assert!(rt; goref_open(rt.alloc(), 0, &mut handle) == 2);
    assert!(rt; is_answered(&rt, &mut handle, &SENT[1]));
    goref_close(rt.alloc(), &mut handle);
}

#[test]
fn a_handle_without_a_session_is_told(rt: HostRuntime) {
    let mut handle = Handle::shut(rt.alloc());
    let mut room = [0; 8];
    for _ in 0..2 {
        let mut length = 7;
        assert!(rt; goref_send(rt.alloc(), &mut handle, b"name\n", &mut length) == 4);
        assert!(rt; length == 0);
        length = 7;
        assert!(rt; goref_give(rt.alloc(), &mut handle, b"name\n", SMALL, &mut length) == 4);
        assert!(rt; length == 0);
        length = 7;
        assert!(rt; goref_take(rt.alloc(), &mut handle, &mut room, &mut length) == 4);
        assert!(rt; length == 0 && room == [0; 8]);
        assert!(rt; goref_open(rt.alloc(), 19, &mut handle) == 0);
        goref_close(rt.alloc(), &mut handle);
        goref_close(rt.alloc(), &mut handle);
    }
}

#[test]
fn lines_want_files(rt: HostRuntime) -> Result<(), Fail> {
    for (number, (line, size, (status, whole, name))) in WANTED.iter().enumerate() {
        let mut room = Vec::new(rt.alloc());
        room.resize(*size, 0)?;
        let mut length = 7;
        let end = goref_wants(line, room.as_mut_slice(), &mut length);
        assert!(rt; end == *status && length == *whole, "row {number}");
        assert!(rt; room.as_slice().starts_with(name), "row {number}");
    }
    Ok(())
}
