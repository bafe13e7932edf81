//! Texts whose lines are answered over one session, one text after another.
use crate::help::sessions::begun;
use crate::scripts::NoFiles;
use go_board::WriteFault;
use goref::{Flow, Session, answer_lines};
use std::alloc::Global;
use std::process::Abort;
use test_devices::Writer;

/// A text, the write that fails, if one does, how the call ends, and what was written.
type Text = (
    &'static [u8],
    Option<u64>,
    Result<Flow, WriteFault>,
    &'static [u8],
);

/// Bytes are written one by one. The command whose answer breaks off was carried out, and no line
/// after it.
const TEXTS: &[Text] = &[
    (b"", None, Ok(Flow::More), b""),
    (
        b"play b a1\nplay w",
        None,
        Ok(Flow::More),
        b"=\n\n? syntax error\n\n",
    ),
    (b"\n# none\n \t", None, Ok(Flow::More), b""),
    (
        b"play w b1\nplay b c1\nundo\n",
        Some(5),
        Err(WriteFault),
        b"=\n\n=",
    ),
    (
        b"undo\nundo\nundo\nundo",
        None,
        Ok(Flow::More),
        b"=\n\n=\n\n=\n\n? cannot undo\n\n",
    ),
    (
        b"play b c1\nloadsgf a\nquit",
        Some(4),
        Err(WriteFault),
        b"=\n\n",
    ),
    (b"name", Some(1), Err(WriteFault), b""),
    (
        b"undo\nquit\nplay b a1\n",
        None,
        Ok(Flow::Quit),
        b"=\n\n=\n\n",
    ),
    (b"undo", None, Ok(Flow::More), b"? cannot undo\n\n"),
    (b"quit", Some(1), Err(WriteFault), b""),
];

/// Whether a text is answered so.
fn is_answered(alloc: Global, session: &mut Session<Global>, row: &Text) -> bool {
    let (text, put, end, written) = row;
    let mut writer = Writer::new(alloc).in_pieces_of(1);
    if let Some(put) = put {
        writer = writer.failing_at_put(*put);
    }
    let ended = answer_lines(session, text, &mut writer, &mut NoFiles);
    ended == *end && writer.bytes() == *written
}

/// Asserts that each text is answered as its row says.
fn are_answered(rt: &impl Abort, alloc: Global, session: &mut Session<Global>) {
    for (number, row) in TEXTS.iter().enumerate() {
        assert!(rt; is_answered(alloc, session, row), "row {number}");
    }
}

#[test]
fn texts_are_one_session(rt: HostRuntime) {
    are_answered(&rt, rt.alloc(), &mut begun(&rt, rt.alloc(), 5));
}
