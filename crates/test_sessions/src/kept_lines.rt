//! What is kept of a line: control characters, comments and needless blanks are left out, and at most 8,192
//! bytes are kept. And what such lines are answered.
use crate::help::sessions::{answers_line, begun};
use goref::Line;
use std::alloc::Global;
use std::process::Abort;

fn same(bytes: &[u8], text: &[u8]) -> bool {
    let line = Line::of(bytes);
    line.text() == text && !line.is_long()
}

/// What is kept of a prefix, copies of a byte, and a suffix.
fn filled(prefix: &[u8], byte: u8, count: u32, suffix: &[u8]) -> Line {
    let mut line = Line::of(prefix);
    for _ in 0..count {
        line.push(byte);
    }
    line.extend(suffix);
    line
}

/// Lines, and what is kept of them.
const KEPT: &[(&[u8], &[u8])] = &[
    (b"", b""),
    (b"# note", b""),
    (b" \t ", b""),
    (b"na\r\x07me\r", b"name"),
    (b"name#x", b"name"),
    (b"\t12\t\tversion", b"12 version"),
    (b"  play  b\tA1 \x7f # the corner", b"play b A1"),
    (b"\xc3\xa9 \xff", b"\xc3\xa9 \xff"),
];

#[test]
fn lines_as_sent(rt: HostRuntime) {
    for (row, (bytes, text)) in KEPT.iter().enumerate() {
        assert!(rt; same(bytes, text), "row {row}");
    }
}

/// A prefix, a byte, its count, and a suffix.
type Filled = (&'static [u8], u8, u32, &'static [u8]);

/// Whether a line is long, and how many bytes are kept of it.
const LONG: &[(Filled, bool, usize)] = &[
    ((b"play ", b'a', 8_188, b""), true, 8_192),
    ((b"play ", b'a', 8_187, b""), false, 8_192),
    ((b"play ", b'a', 8_187, b"   # and more"), false, 8_192),
    ((b"9 play ", b'a', 8_186, b""), true, 8_192),
    ((b"", 7, 10_000, b""), false, 0),
    ((b"", b' ', 1_000_000, b""), false, 0),
    ((b"", b'a', 8_192, b""), false, 8_192),
    ((b"", b'a', 8_193, b""), true, 8_192),
    ((b"", b'1', 5_000, b""), false, 5_000),
    ((b"2147483648 ", b'a', 5_000, b""), false, 5_011),
    ((b"", b'1', 9_000, b""), true, 8_192),
    ((b"2147483648 ", b'a', 9_000, b""), true, 8_192),
];

#[test]
fn long_lines(rt: HostRuntime) {
    for (row, ((prefix, byte, count, suffix), long, length)) in LONG.iter().enumerate() {
        let line = filled(prefix, *byte, *count, suffix);
        assert!(rt; line.is_long() == *long, "row {row}");
        assert!(rt; line.text().len() == *length, "row {row}");
    }
}

#[test]
fn the_prefix_of_a_long_line(rt: HostRuntime) {
    let with_id = filled(b"9 play ", b'a', 8_186, b"");
    assert!(rt; with_id.text().starts_with(b"9 play a"));
}

#[test]
fn a_line_is_used_again(rt: HostRuntime) {
    let mut reused = filled(b"", b'a', 9_000, b"#");
    reused.clear();
    reused.extend(b"quit");
    assert!(rt; reused.text() == b"quit".as_slice() && !reused.is_long());
}

/// Whether a line is answered so over an empty board.
fn answers(rt: &impl Abort, alloc: Global, line: &Line, text: &[u8]) -> bool {
    answers_line(alloc, &mut begun(rt, alloc, 19), line, text)
}

/// Lines, and what they are answered.
const ANSWERED: &[(Filled, &[u8])] = &[
    ((b"play ", b'a', 8_188, b""), b"? line too long\n\n"),
    ((b"play ", b'a', 8_187, b""), b"? syntax error\n\n"),
    ((b"9 play ", b'a', 8_186, b""), b"?9 line too long\n\n"),
    ((b"", b'a', 8_192, b""), b"? unknown command\n\n"),
    ((b"", b'a', 8_193, b""), b"? line too long\n\n"),
    ((b"", b'1', 5_000, b""), b"? unknown command\n\n"),
    ((b"2147483648 ", b'a', 5_000, b""), b"? unknown command\n\n"),
    ((b"", b'1', 9_000, b""), b"? line too long\n\n"),
    ((b"2147483648 ", b'a', 9_000, b""), b"? line too long\n\n"),
    ((b"", 7, 10_000, b""), b""),
    ((b"", b' ', 1_000_000, b""), b""),
    ((b"# note", b'#', 0, b""), b""),
];

#[test]
fn long_lines_are_answered(rt: HostRuntime) {
    for (row, ((prefix, byte, count, suffix), text)) in ANSWERED.iter().enumerate() {
        let line = filled(prefix, *byte, *count, suffix);
        assert!(rt; answers(&rt, rt.alloc(), &line, text), "row {row}");
    }
}

#[test]
fn a_long_comment(rt: HostRuntime) {
    let mut commented = filled(b"play ", b'a', 8_187, b"   #");
    for _ in 0..9_000u16 {
        commented.push(b'x');
    }
    assert!(rt; answers(&rt, rt.alloc(), &commented, b"? syntax error\n\n"));
}
