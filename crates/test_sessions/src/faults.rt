//! A script in which each read, each write and each flush fails in turn: what was written is a prefix of its
//! answers. And what a session answers after a fault.
use crate::help::sessions::{Answered, answers, begun, fails_at};
use crate::help::shared_rows::CAPTURE;
use crate::scripts::ends;
use goref::{RunError, Session};
use std::alloc::Global;
use std::process::Abort;
use test_devices::{Reader, Writer};

/// How many lines end in a text.
fn lines_in(text: &[u8]) -> usize {
    text.iter().filter(|byte| **byte == b'\n').count()
}

/// The first `count` answers of a text. An answer ends at the first empty line.
fn first_answers(text: &[u8], count: usize) -> &[u8] {
    let mut left = count;
    let mut last = b' ';
    for (place, byte) in text.iter().enumerate() {
        if left == 0 {
            return text.split_at(place.min(text.len())).0;
        }
        if last == b'\n' && *byte == b'\n' {
            left -= 1;
        }
        last = *byte;
    }
    text
}

/// Whether a run of the script ends so, and wrote this.
fn breaks_off(
    rt: &impl Abort,
    alloc: Global,
    reader: Reader<'_>,
    mut writer: Writer<Global>,
    fault: RunError,
    written: &[u8],
) -> bool {
    ends(rt, alloc, reader, &mut writer) == Err(fault) && writer.bytes() == written
}

/// Whether a run reads no further than this reader, and wrote this.
fn stops_reading(rt: &impl Abort, alloc: Global, reader: Reader<'_>, written: &[u8]) -> bool {
    breaks_off(
        rt,
        alloc,
        reader,
        Writer::new(alloc),
        RunError::Read,
        written,
    )
}

/// Whether a run writes no further than this writer, and wrote this.
fn stops_writing(rt: &impl Abort, alloc: Global, writer: Writer<Global>, written: &[u8]) -> bool {
    let reader = Reader::new(CAPTURE.script);
    breaks_off(rt, alloc, reader, writer, RunError::Write, written)
}

/// Those answers are written whose lines were read.
#[test]
fn each_read_fails(rt: HostRuntime) {
    let script = CAPTURE.script;
    for pull in 1..=script.len() as u64 + 1 {
        let read = script.split_at((pull as usize - 1).min(script.len())).0;
        let written = first_answers(CAPTURE.answers, lines_in(read));
        let reader = Reader::new(script).in_pieces_of(1).failing_at(pull);
        assert!(rt;
            stops_reading(&rt, rt.alloc(), reader, written),
            "read {pull}"
        );
    }
}

/// Those answers are written whose lines were read, where each read gives a line.
#[test]
fn each_read_of_a_line_fails(rt: HostRuntime) {
    for pull in 1..=8u64 {
        let written = first_answers(CAPTURE.answers, pull as usize - 1);
        let reader = Reader::new(CAPTURE.script).in_lines().failing_at(pull);
        assert!(rt;
            stops_reading(&rt, rt.alloc(), reader, written),
            "read {pull}"
        );
    }
}

/// Only a prefix of the answers is written, where the write of the byte after it fails or takes nothing.
#[test]
fn each_write_fails(rt: HostRuntime) {
    let answers = CAPTURE.answers;
    for put in 1..=answers.len() as u64 {
        let written = answers.split_at((put as usize - 1).min(answers.len())).0;
        let failing = Writer::new(rt.alloc()).in_pieces_of(1).failing_at_put(put);
        assert!(rt;
            stops_writing(&rt, rt.alloc(), failing, written),
            "write {put}"
        );
        let stalling = Writer::new(rt.alloc()).in_pieces_of(1).stalling_at_put(put);
        assert!(rt;
            stops_writing(&rt, rt.alloc(), stalling, written),
            "write {put}"
        );
    }
}

#[test]
fn each_flush_fails(rt: HostRuntime) {
    for flush in 1..=7u64 {
        let written = first_answers(CAPTURE.answers, flush as usize);
        let writer = Writer::new(rt.alloc()).failing_at_flush(flush);
        assert!(rt;
            stops_writing(&rt, rt.alloc(), writer, written),
            "flush {flush}"
        );
    }
}

/// A call with a number that the script doesn't reach never fails.
#[test]
fn no_call_fails(rt: HostRuntime) {
    let puts = CAPTURE.answers.len() as u64 + 1;
    let reader = Reader::new(CAPTURE.script).failing_at(3);
    let mut writer = Writer::new(rt.alloc())
        .in_pieces_of(1)
        .failing_at_put(puts)
        .stalling_at_put(puts)
        .failing_at_flush(8);
    assert!(rt; ends(&rt, rt.alloc(), reader, &mut writer) == Ok(()));
    assert!(rt; writer.bytes() == CAPTURE.answers);
}

/// Lines on a board of two lines, one whose answer fails, and the answers after that.
struct Broken {
    before: &'static [Answered],
    failing: Answered,
    after: &'static [Answered],
}

const DONE: &[u8] = b"=\n\n";

/// A play whose answer fails is made.
const PLAY: Broken = Broken {
    before: &[(b"play b A1", DONE), (b"play w B1", DONE)],
    failing: (b"play w A2", DONE),
    after: &[
        (b"goref-chains", b"= W B1 : A1 B2\nW A2 : A1 B2\n\n"),
        (b"undo", DONE),
        (b"goref-chains", b"= B A1 : A2\nW B1 : B2\n\n"),
    ],
};

/// An undo whose answer fails is done.
const UNDO: Broken = Broken {
    before: &[(b"play b A1", DONE), (b"play w B1", DONE)],
    failing: (b"undo", DONE),
    after: &[(b"undo", DONE), (b"undo", b"? cannot undo\n\n")],
};

/// A list that fails changes nothing.
const LIST: Broken = Broken {
    before: &[
        (b"play b A1", DONE),
        (b"play w B1", DONE),
        (b"play w A2", DONE),
    ],
    failing: (b"goref-chains", b"= W B1 : A1 B2\nW A2 : A1 B2\n\n"),
    after: &[
        (b"goref-chains", b"= W B1 : A1 B2\nW A2 : A1 B2\n\n"),
        (b"undo", DONE),
    ],
};

/// Whether a session answers as a row says, where the answer fails at the write with this number.
fn breaks(alloc: Global, session: &mut Session<Global>, row: &Broken, put: u64) -> bool {
    answers(alloc, session, row.before)
        && fails_at(alloc, session, row.failing, put)
        && answers(alloc, session, row.after)
}

/// Asserts the answers before and after an answer that fails at each write in turn.
fn each_breaks(rt: &impl Abort, alloc: Global, row: &Broken) {
    for put in 1..=row.failing.1.len() as u64 {
        assert!(rt;
            breaks(alloc, &mut begun(rt, alloc, 2), row, put),
            "write {put}"
        );
    }
}

#[test]
fn a_play_whose_answer_fails_stands(rt: HostRuntime) {
    each_breaks(&rt, rt.alloc(), &PLAY);
}

#[test]
fn an_undo_whose_answer_fails_is_done(rt: HostRuntime) {
    each_breaks(&rt, rt.alloc(), &UNDO);
}

#[test]
fn a_list_that_fails_changes_nothing(rt: HostRuntime) {
    each_breaks(&rt, rt.alloc(), &LIST);
}
