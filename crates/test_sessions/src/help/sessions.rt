//! Functions that give a session one line and check its answer, without a run and without a file.
use go_board::{Size, WriteFault};
use goref::{Fetched, Flow, Line, Session};
use std::alloc::{AllocError, Global};
use std::process::Abort;
use test_devices::Writer;

/// A session on a board of `lines` lines.
pub(crate) fn begun(rt: &impl Abort, alloc: Global, lines: u8) -> Session<Global> {
    Session::new(alloc, Size::new(lines).expect(rt, "a size"))
}

/// Answers a line, where no file was fetched for it.
pub(crate) fn answered(
    session: &mut Session<Global>,
    line: &Line,
    writer: &mut Writer<Global>,
) -> Result<Flow, WriteFault> {
    session.answer(line, Fetched::None, writer)
}

/// Whether a session answers a line so.
pub(crate) fn answers_line(
    alloc: Global,
    session: &mut Session<Global>,
    line: &Line,
    text: &[u8],
) -> bool {
    let mut writer = Writer::new(alloc);
    answered(session, line, &mut writer) == Ok(Flow::More) && writer.bytes() == text
}

/// A line, and its answer.
pub(crate) type Answered = (&'static [u8], &'static [u8]);

/// Whether a session answers each of these lines so.
pub(crate) fn answers(alloc: Global, session: &mut Session<Global>, lines: &[Answered]) -> bool {
    for (line, text) in lines {
        if !answers_line(alloc, session, &Line::of(line), text) {
            return false;
        }
    }
    true
}

/// Whether the answer to a line breaks off at the write with this number, and is a prefix of this text.
pub(crate) fn fails_at(
    alloc: Global,
    session: &mut Session<Global>,
    line: Answered,
    put: u64,
) -> bool {
    let (line, text) = line;
    let mut writer = Writer::new(alloc).in_pieces_of(1).failing_at_put(put);
    answered(session, &Line::of(line), &mut writer) == Err(WriteFault)
        && text.starts_with(writer.bytes())
        && writer.bytes().len() as u64 == put.saturating_sub(1)
}

/// The result in the answer to a line that must be accepted, with the space before it if it isn't empty.
pub(crate) fn result_of(
    rt: &impl Abort,
    alloc: Global,
    session: &mut Session<Global>,
    line: &[u8],
) -> Result<Vec<u8>, AllocError> {
    let mut writer = Writer::new(alloc);
    let end = answered(session, &Line::of(line), &mut writer);
    assert!(rt; end == Ok(Flow::More));
    let answer = writer.bytes();
    assert!(rt; answer.len() > 2 && answer.starts_with(b"=") && answer.ends_with(b"\n\n"));
    let (result, _) = answer.split_at(answer.len().wrapping_sub(2));
    result.split_at(1).1.to_vec(alloc)
}
