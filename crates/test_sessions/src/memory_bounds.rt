//! No line of a session asks for many times the memory that it needs.
use crate::help::shared_rows::Row;
use crate::loads::{Gift, HANDICAP_GAME, OneFile};
use crate::refused_memory::{READS, ROWS};
use go_board::Size;
use goref::run_within;
use std::alloc::Global;
use std::process::Abort;
use test_allocator::Refusing;
use test_devices::{Reader, Writer};

/// What the lines of a row may ask for in all. A log of plays needs some 182 kilobytes to begin
/// with, and twice that when it grows. A row begins two of them at most, for two games or for the
/// stones of a record and its moves, and one of the two grows. The second game of a session, which
/// the first record needs, has 72 kilobytes. The rest is for moves and records.
const ROW: u64 = 880_000;

/// Asserts what a row is answered by a session that may ask for little memory.
fn needs_little(rt: &impl Abort, alloc: Global, row: Row) {
    let limited = Refusing::beyond_bytes(alloc, ROW);
    let mut reader = Reader::new(row.script);
    let mut writer = Writer::new(alloc);
    let mut shelf = OneFile::named(b"f", &limited, Gift::Bytes(HANDICAP_GAME));
    let size = Size::new(19).expect(rt, "a size");
    let end = run_within(&limited, READS, size, &mut reader, &mut writer, &mut shelf);
    let name = row.name;
    assert!(rt; end == Ok(()) && writer.bytes() == row.answers, "{name}");
}

#[test]
fn little_memory_for_each_row(rt: HostRuntime) {
    for row in ROWS {
        needs_little(&rt, rt.alloc(), *row);
    }
}
