//! When the tools stop reading, and what they pass on.
use crate::help::tools::Tool;
use go_sgf::SgfError;
use goref_tools::{ToolError, judge_run, read_input, tidy_run};
use std::alloc::{Allocator, Global};
use std::cell::Cell;
use std::process::Abort;
use std::test::Fail;
use test_allocator::Refusing;
use test_devices::{HoldingWriter, Reader, Writer};

const SAMPLE: &[u8] = b"(;GM[1]SZ[9]KM[6.5]RE[B+74.5];B[ee])";

/// Whether both tools end so on a source that is read in pieces of at most this length, and met its end this
/// often.
fn meet_ends(
    alloc: Global,
    source: &[u8],
    most: usize,
    end: Result<(), ToolError>,
    count: u64,
) -> bool {
    for tool in [Tool::Tidy, Tool::Judge] {
        let mut reader = Reader::new(source).in_pieces_of(most);
        if tool.run(alloc, &mut reader, &mut Writer::new(alloc)) != end
            || reader.end_count() != count
        {
            return false;
        }
    }
    true
}

/// Sources, and how both tools end on them.
const ENDS: &[(&[u8], Result<(), ToolError>)] = &[
    (b"", Err(ToolError::Sgf(SgfError::NoTree))),
    (b"(;)", Ok(())),
    (SAMPLE, Ok(())),
    (b"(;7)", Err(ToolError::Sgf(SgfError::Unexpected(2)))),
];

#[test]
fn nothing_is_read_after_the_end(rt: HostRuntime) {
    for (number, (source, end)) in ENDS.iter().enumerate() {
        for most in [1, 3, 4_096] {
            assert!(rt;
                meet_ends(rt.alloc(), source, most, *end, 1),
                "row {number}"
            );
        }
    }
}

#[test]
fn the_longest_input_is_read_to_its_end(rt: HostRuntime) -> Result<(), Fail> {
    let blank = vec![in rt.alloc(); b' '; 16_777_216]?;
    let no_tree = Err(ToolError::Sgf(SgfError::NoTree));
    assert!(rt; meet_ends(rt.alloc(), blank.as_slice(), 4_096, no_tree, 1));
    Ok(())
}

#[test]
fn a_longer_input_is_not(rt: HostRuntime) -> Result<(), Fail> {
    let blank = vec![in rt.alloc(); b' '; 16_777_217]?;
    let too_long = Err(ToolError::Sgf(SgfError::TooLong));
    assert!(rt; meet_ends(rt.alloc(), blank.as_slice(), 4_096, too_long, 0));
    Ok(())
}

#[test]
fn nothing_is_read_after_a_fault(rt: HostRuntime) {
    for tool in [Tool::Tidy, Tool::Judge] {
        let mut reader = Reader::new(SAMPLE).in_pieces_of(5).failing_at(3);
        let end = tool.run(rt.alloc(), &mut reader, &mut Writer::new(rt.alloc()));
        assert!(rt; end == Err(ToolError::Read));
        assert!(rt; reader.pull_count() == 3);
    }
}

#[test]
fn a_tidy_record_is_passed_on_whole(rt: HostRuntime) {
    let passed = Cell::new(0);
    let mut writer = HoldingWriter::new(rt.alloc(), &passed);
    let end = tidy_run(rt.alloc(), &mut Reader::new(SAMPLE), &mut writer);
    assert!(rt; end == Ok(()));
    assert!(rt; writer.ends() == [37].as_slice());
}

#[test]
fn a_verdict_is_passed_on_whole(rt: HostRuntime) {
    let passed = Cell::new(0);
    let mut writer = HoldingWriter::new(rt.alloc(), &passed);
    let end = judge_run(rt.alloc(), &mut Reader::new(SAMPLE), &mut writer);
    assert!(rt; end == Ok(()));
    assert!(rt; writer.ends() == [35].as_slice());
}

/// Whether a whole input is read with this allocator. If not, asserts that there was no memory.
fn reads_input<A: Allocator + Copy>(rt: &impl Abort, alloc: A) -> bool {
    let mut reader = Reader::new(SAMPLE).in_pieces_of(5);
    match read_input(alloc, &mut reader) {
        Ok(bytes) => {
            assert!(rt; bytes.as_slice() == SAMPLE);
            true
        }
        Err(why) => {
            assert!(rt; why == ToolError::Memory);
            false
        }
    }
}

#[test]
fn each_request_of_an_input(rt: HostRuntime) {
    let mut requests = 0u64;
    for number in 1..50u64 {
        let failing = Refusing::nth_request(rt.alloc(), number);
        let done = reads_input(&rt, &failing);
        assert!(rt; done == failing.waits(), "request {number}");
        if done {
            requests = number - 1;
            break;
        }
    }
    assert!(rt; requests > 0, "{requests} requests");
}
