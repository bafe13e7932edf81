//! Calls on a record ask for little more memory than they need.
use crate::help::tools::Tool;
use crate::records::copies;
use crate::with_memory::long_record;
use go_board::Size;
use go_sgf::{cook_simple, cook_text, escape, points_of, read};
use std::alloc::{AllocError, Global};
use std::process::Abort;
use std::test::Fail;
use test_allocator::Refusing;
use test_devices::{Reader, Writer};

/// How many bytes a list of `count` items of `each` bytes asks for. It doubles as it grows, so it asks for at
/// most four times its length in all.
fn for_list(count: u64, each: u64) -> u64 {
    count.saturating_mul(each).saturating_mul(4)
}

/// Whether a tool does its work with this many bytes.
fn does(tool: Tool, alloc: Global, source: &[u8], bytes: u64) -> bool {
    let limited = Refusing::beyond_bytes(alloc, bytes);
    let mut writer = Writer::new(alloc);
    tool.run(&limited, &mut Reader::new(source), &mut writer) == Ok(())
}

/// Asserts that a record is read with `to_read` bytes, tidied with the bytes that a copy of it takes, and
/// judged with those and `to_play` bytes more. Neither tool makes lists of its parts.
fn needs_little(rt: &impl Abort, alloc: Global, source: &[u8], to_read: u64, to_play: u64) {
    let limited = Refusing::beyond_bytes(alloc, to_read);
    assert!(rt; read(&limited, source).is_ok());
    let to_tidy = for_list(source.len() as u64, 1);
    assert!(rt; does(Tool::Tidy, alloc, source, to_tidy));
    let to_judge = to_tidy.saturating_add(to_play);
    assert!(rt; does(Tool::Judge, alloc, source, to_judge));
}

/// Asserts that little memory is enough to cook and to escape a text.
fn cooks_with_little(rt: &impl Abort, alloc: Global, text: &[u8]) {
    for call in 0..3u8 {
        let limited = Refusing::beyond_bytes(alloc, for_list(text.len() as u64, 1));
        let done = match call {
            0 => cook_text(&limited, text).is_ok(),
            1 => cook_simple(&limited, text).is_ok(),
            _ => escape(&limited, text).is_ok(),
        };
        assert!(rt; done, "call {call}");
    }
}

/// What begins a record, the piece that is in it again and again, what ends it, and how many bytes each piece
/// takes where it is read. The pieces are a tree, a node, a property, a value, a pass and a letter. A tree
/// has two lists and a node one, each of which keeps the allocator.
const RECORDS: &[(&[u8], &[u8], &[u8], u64)] = &[
    (b"", b"(;)", b"", 80),
    (b"(", b";", b")", 40),
    (b"(;", b"A[]", b")", 24),
    (b"(;A", b"[]", b")", 16),
    (b"(", b";B[]", b")", 40),
    (b"(;C[", b"a", b"])", 0),
];

/// One more than there is room for before a list grows, so that it asks for most.
const COPIES: u32 = 4_097;

/// What a record has besides: its tree and its first node.
const REST: u64 = 200;

/// How many bytes a pass takes in the list of moves.
const PASS: u64 = 8;

/// A record of many copies of a piece.
fn repeating(
    alloc: Global,
    prefix: &[u8],
    piece: &[u8],
    suffix: &[u8],
) -> Result<Vec<u8>, AllocError> {
    let middle_and_suffix = copies(alloc, piece, COPIES, suffix)?;
    copies(alloc, prefix, 1, middle_and_suffix.as_slice())
}

#[test]
fn little_memory_for_a_record(rt: HostRuntime) -> Result<(), Fail> {
    for (prefix, piece, suffix, each) in RECORDS {
        let record = repeating(rt.alloc(), prefix, piece, suffix)?;
        let count = u64::from(COPIES);
        let to_read = for_list(count, *each).saturating_add(REST);
        let to_play = for_list(count, PASS);
        needs_little(&rt, rt.alloc(), record.as_slice(), to_read, to_play);
        cooks_with_little(&rt, rt.alloc(), record.as_slice());
    }
    Ok(())
}

/// What the game of the long record asks for. The log of plays needs some 182 kilobytes to begin
/// with, and twice that when it grows; the rest is for 1,200 moves, 100 of them plays.
const GAME: u64 = 700_000;

#[test]
fn little_memory_for_a_long_record(rt: HostRuntime) -> Result<(), Fail> {
    let record = long_record(rt.alloc(), b"")?;
    let to_read = for_list(1_201, 40).saturating_add(REST);
    needs_little(&rt, rt.alloc(), record.as_slice(), to_read, GAME);
    Ok(())
}

#[test]
fn little_memory_for_points(rt: HostRuntime) {
    let size = Size::new(25).expect(&rt, "a size");
    let limited = Refusing::beyond_bytes(rt.alloc(), for_list(625, 2));
    assert!(rt; points_of(&limited, &[b"aa:yy".as_slice()], size).is_ok());
}
