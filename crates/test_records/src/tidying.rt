//! The tool that tidies a record: worked examples, refusals, records at the limit of length, and the texts
//! and exit statuses of faults.
use crate::help::tools::{Tool, assert_fault_text};
use go_sgf::SgfError;
use goref_tools::ToolError;
use std::alloc::{AllocError, Global};
use std::process::Abort;
use test_devices::{Reader, Writer};

const SAMPLE: &[u8] = b"x(;GM[1] FF[4] ;B[aa](;W[bb])(;W[cc]C[a\\]b]))";

const TIDY: &[u8] = b"(;GM[1]FF[4];B[aa](;W[bb])(;W[cc]C[a\\]b]))\n";

/// Records, and what they are written as.
const TIDIED: &[(&[u8], &[u8])] = &[
    (SAMPLE, TIDY),
    (TIDY, TIDY),
    (b"(;B[aa])x(;W[bb])", b"(;B[aa])\n"),
    (b"(;CoPyright [x] [y])(;)", b"(;CP[x][y])\n(;)\n"),
];

#[test]
fn tidy_a_record(rt: HostRuntime) {
    for (number, (source, text)) in TIDIED.iter().enumerate() {
        assert!(rt; Tool::Tidy.writes(rt.alloc(), source, text), "row {number}");
    }
}

/// Whether a source is refused with this.
fn is_refused(alloc: Global, source: &[u8], why: SgfError) -> bool {
    Tool::Tidy.fails(alloc, Reader::new(source), ToolError::Sgf(why))
}

/// Inputs that spell no record, the first of them the sample without its last byte, and why.
const NO_RECORDS: &[(&[u8], SgfError)] = &[
    (
        b"x(;GM[1] FF[4] ;B[aa](;W[bb])(;W[cc]C[a\\]b])",
        SgfError::EndInside(44),
    ),
    (b"", SgfError::NoTree),
    (b"(;B[aa]7)", SgfError::Unexpected(7)),
];

#[test]
fn inputs_without_a_record(rt: HostRuntime) {
    for (number, (source, why)) in NO_RECORDS.iter().enumerate() {
        assert!(rt; is_refused(rt.alloc(), source, *why), "row {number}");
    }
}

/// A tree after `spaces` spaces.
fn tree_after(alloc: Global, spaces: usize) -> Result<Vec<u8>, AllocError> {
    let mut text = vec![in alloc; b' '; spaces]?;
    text.extend_from_slice(b"(;)")?;
    Ok(text)
}

/// Asserts that a tree after `spaces` spaces is written alone.
fn tree_alone(rt: &impl Abort, alloc: Global, spaces: usize) {
    let source = tree_after(alloc, spaces).expect(rt, "memory");
    let mut writer = Writer::new(alloc);
    let end = Tool::Tidy.run(alloc, &mut Reader::new(source.as_slice()), &mut writer);
    assert!(rt; end == Ok(()));
    assert!(rt; writer.bytes() == b"(;)\n".as_slice());
}

/// Asserts that a tree after `spaces` spaces is too long.
fn too_long(rt: &impl Abort, alloc: Global, spaces: usize) {
    let source = tree_after(alloc, spaces).expect(rt, "memory");
    assert!(rt; is_refused(alloc, source.as_slice(), SgfError::TooLong));
}

/// How many pulls of 4,096 bytes are made for a tree after `spaces` spaces, which is too long.
fn pulls_of_too_long(rt: &impl Abort, alloc: Global, spaces: usize) -> u64 {
    let source = tree_after(alloc, spaces).expect(rt, "memory");
    let mut reader = Reader::new(source.as_slice()).in_pieces_of(4_096);
    let end = Tool::Tidy.run(alloc, &mut reader, &mut Writer::new(alloc));
    assert!(rt; end == Err(ToolError::Sgf(SgfError::TooLong)));
    reader.pull_count()
}

#[test]
fn records_at_the_limit(rt: HostRuntime) {
    let alloc = rt.alloc();
    tree_alone(&rt, alloc, 16_777_213);
    too_long(&rt, alloc, 16_777_214);
    assert!(rt; pulls_of_too_long(&rt, alloc, 16_785_408) == 4_097);
}

#[test]
fn failing_devices(rt: HostRuntime) {
    Tool::Tidy.meets_faults(&rt, rt.alloc(), SAMPLE, TIDY);
}

#[test]
fn each_request_for_memory_refused(rt: HostRuntime) {
    // it takes memory for its input, and for nothing else
    let requests = Tool::Tidy.requests(&rt, rt.alloc(), SAMPLE, TIDY);
    assert_eq!(rt; requests, 1);
}

/// Faults, their texts, and the statuses that the program ends with.
const TEXTS: &[(ToolError, &str, u8)] = &[
    (ToolError::Sgf(SgfError::NoTree), "no game tree", 1),
    (
        ToolError::Sgf(SgfError::EndInside(44)),
        "record ends inside a tree at byte 44",
        1,
    ),
    (
        ToolError::Sgf(SgfError::Unexpected(7)),
        "unexpected byte at 7",
        1,
    ),
    (
        ToolError::Sgf(SgfError::TooDeep(2_000)),
        "too deep at byte 2000",
        1,
    ),
    (ToolError::Sgf(SgfError::TooLong), "record too long", 1),
    (ToolError::Read, "read fault", 3),
    (ToolError::Write, "write fault", 3),
    (ToolError::Memory, "out of memory", 3),
];

#[test]
fn texts_and_statuses(rt: HostRuntime) {
    for (fault, text, status) in TEXTS {
        assert_fault_text(&rt, rt.alloc(), *fault, text, *status);
    }
}
