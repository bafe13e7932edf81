//! The tool that judges a record: verdicts, why a record has none, and runs in which a device fails or memory
//! is refused.
use crate::help::tools::{Tool, assert_fault_text};
use go_board::Point;
use go_game::PlayError;
use go_record::RecordError;
use go_sgf::SgfError;
use goref_tools::ToolError;
use std::alloc::{Allocator, Global};
use std::process::Abort;
use test_allocator::Refusing;
use test_devices::{Reader, Writer};

const SAMPLE: &[u8] = b"(;GM[1]SZ[9]KM[6.5]RE[B+74.5];B[ee])";

const VERDICT: &[u8] = b"moves 1\nscore B+74.5\nstated agrees\n";

/// A record whose fourth move repeats the position after the third.
const REPEATING: &[u8] = b"(;SZ[2];B[aa];W[ba];W[ab];B[aa])";

/// Records, and the verdicts on them.
const VERDICTS: &[(&[u8], &[u8])] = &[
    (SAMPLE, VERDICT),
    (
        b"(;SZ[9]KM[0.5]RE[W+0.5])",
        b"moves 0\nscore W+0.5\nstated agrees\n",
    ),
    (
        b"(;SZ[9]KM[0.5]RE[ Draw ])",
        b"moves 0\nscore W+0.5\nstated differs\n",
    ),
    (
        b"(;SZ[9]KM[0.5]RE[B+R])",
        b"moves 0\nscore W+0.5\nstated none\n",
    ),
    (b"(;)", b"moves 0\nscore 0\nstated none\n"),
    (
        b"(;SZ[2]AB[aa:bb]AE[ab])",
        b"moves 0\nscore B+4\nstated none\n",
    ),
    (
        b"(;SZ[2]AB[aa:bb]AE[ab];W[ab])",
        b"moves 1\nscore W+4\nstated none\n",
    ),
];

#[test]
fn judge_a_record(rt: HostRuntime) {
    for (number, (record, verdict)) in VERDICTS.iter().enumerate() {
        assert!(rt;
            Tool::Judge.writes(rt.alloc(), record, verdict),
            "row {number}"
        );
    }
}

/// Whether there is no verdict on a source, for this reason.
fn is_refused(alloc: Global, source: &[u8], fault: ToolError) -> bool {
    Tool::Judge.fails(alloc, Reader::new(source), fault)
}

/// Inputs that spell no record, the first of them the sample without its last byte, and why.
const NO_RECORDS: &[(&[u8], SgfError)] = &[
    (
        b"(;GM[1]SZ[9]KM[6.5]RE[B+74.5];B[ee]",
        SgfError::EndInside(35),
    ),
    (b"", SgfError::NoTree),
    (b"(;B[aa]7)", SgfError::Unexpected(7)),
];

#[test]
fn inputs_without_a_record(rt: HostRuntime) {
    for (number, (source, why)) in NO_RECORDS.iter().enumerate() {
        assert!(rt;
            is_refused(rt.alloc(), source, ToolError::Sgf(*why)),
            "row {number}"
        );
    }
}

/// Records without a game, why, and the texts of that.
const ILLEGAL: &[(&[u8], RecordError, &str)] = &[
    (
        REPEATING,
        RecordError::Illegal(4, PlayError::Repeats(3)),
        "move 4 repeats the position after 3 moves",
    ),
    (b"(;GM[2])", RecordError::NotGo, "not a Go record"),
    (b"(;SZ[26])", RecordError::BadSize, "bad board size"),
    (b"(;KM[x])", RecordError::BadKomi, "bad komi"),
    (
        b"(;SZ[2];B[aa:ab])",
        RecordError::BadValue(1),
        "bad value in node 1",
    ),
    (
        b"(;SZ[9];B[aa];AB[bb])",
        RecordError::SetupAfterMove(2),
        "set-up after a move in node 2",
    ),
    (
        b"(;SZ[9]AB[aa]AW[ab][ba])",
        RecordError::DeadSetup(Point { col: 0, row: 8 }),
        "set-up without liberty at A9",
    ),
    (
        b"(;SZ[9];B[aa];W[aa])",
        RecordError::Illegal(2, PlayError::Occupied),
        "move 2 is on a stone",
    ),
];

#[test]
fn records_without_a_game(rt: HostRuntime) {
    for (number, (source, why, text)) in ILLEGAL.iter().enumerate() {
        let fault = ToolError::Record(*why);
        assert!(rt; is_refused(rt.alloc(), source, fault), "row {number}");
        assert_fault_text(&rt, rt.alloc(), fault, text, 1);
    }
}

#[test]
fn a_move_off_the_board(rt: HostRuntime) {
    let fault = ToolError::Record(RecordError::Illegal(7, PlayError::OffBoard));
    assert_fault_text(&rt, rt.alloc(), fault, "move 7 is off the board", 1);
}

#[test]
fn failing_devices(rt: HostRuntime) {
    Tool::Judge.meets_faults(&rt, rt.alloc(), SAMPLE, VERDICT);
}

/// Why there is no verdict on the record that repeats a position.
const REPEATS: ToolError = ToolError::Record(RecordError::Illegal(4, PlayError::Repeats(3)));

/// Each read up to the end fails.
#[test]
fn failing_reads_of_a_refused_record(rt: HostRuntime) {
    assert!(rt; REPEATING.len() == 32);
    for pull in 1..=34u64 {
        let reader = Reader::new(REPEATING).in_pieces_of(1).failing_at(pull);
        let fault = if pull <= 33 { ToolError::Read } else { REPEATS };
        assert!(rt; Tool::Judge.fails(rt.alloc(), reader, fault), "pull {pull}");
    }
}

/// A write or a flush cannot fail, since none is made.
#[test]
fn no_write_of_a_refused_record(rt: HostRuntime) {
    let mut writer = Writer::new(rt.alloc())
        .failing_at_put(1)
        .failing_at_flush(1);
    let end = Tool::Judge.run(rt.alloc(), &mut Reader::new(REPEATING), &mut writer);
    assert!(rt; end == Err(REPEATS));
    assert!(rt; writer.put_count() == 0 && writer.flush_count() == 0);
}

/// Whether a record is refused for its repetition with this allocator. If not, asserts that there was no
/// memory. Nothing is written either way.
fn refuses_repetition<A: Allocator + Copy>(rt: &impl Abort, alloc: A, ample: Global) -> bool {
    let mut writer = Writer::new(ample);
    let result = Tool::Judge.run(alloc, &mut Reader::new(REPEATING), &mut writer);
    assert!(rt; writer.put_count() == 0 && writer.flush_count() == 0);
    let done = result == Err(REPEATS);
    assert!(rt; done || result == Err(ToolError::Memory));
    done
}

#[test]
fn each_request_at_a_refused_record(rt: HostRuntime) {
    let alloc = rt.alloc();
    let mut requests = 0;
    for number in 1..200u64 {
        let failing = Refusing::nth_request(alloc, number);
        let done = refuses_repetition(&rt, &failing, alloc);
        assert!(rt; done == failing.waits(), "request {number}");
        if done {
            requests = number - 1;
            break;
        }
    }
    assert!(rt; requests > 5 && requests < 100, "{requests} requests");
}

#[test]
fn each_request_for_memory_refused(rt: HostRuntime) {
    let requests = Tool::Judge.requests(&rt, rt.alloc(), SAMPLE, VERDICT);
    assert!(rt; requests > 5 && requests < 100, "{requests} requests");
}
