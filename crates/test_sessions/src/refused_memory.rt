//! Scripts in which each request for memory of the session, and of the shelf that it fetches from, is refused
//! in turn. A line that was answered `out of memory` is sent again, and its file is fetched again: all other
//! answers must be those with enough memory.
use crate::help::resending::{Resending, Sifting};
use crate::help::shared_rows::{
    CHOICE_ON_TINY_BOARDS, CHOICE_ON_TWO_LINES, FREE_HANDICAP, HANDICAP, HANDICAP_AFTER_PASS, KO,
    KO_AFTER_PASSES, LOAD, PRINTED, REPETITION, Row,
};
use crate::loads::{Gift, HANDICAP_GAME, OneFile};
use go_board::Size;
use goref::run_within;
use std::alloc::Global;
use std::cell::Cell;
use std::process::Abort;
use test_allocator::Refusing;

/// More reads than a script needs. A session that is always out of memory would go on for ever.
pub(crate) const READS: u64 = 50;

/// Whether a session makes a request for memory with this number. Only that request is refused. The file of a
/// `loadsgf` is fetched as often as the line is sent.
fn meets_request(rt: &impl Abort, alloc: Global, row: Row, number: u64) -> bool {
    let failing = Refusing::nth_request(alloc, number);
    let asks_again = Cell::new(false);
    let mut reader = Resending::new(row.script, &asks_again);
    let mut writer = Sifting::new(alloc, &asks_again);
    let mut shelf = OneFile::named(b"f", &failing, Gift::Bytes(HANDICAP_GAME));
    let size = Size::new(19).expect(rt, "a size");
    let end = run_within(&failing, READS, size, &mut reader, &mut writer, &mut shelf);
    let is_met = !failing.waits();
    let holds = end == Ok(())
        && writer.kept() == row.answers
        && writer.refusals() == u32::from(is_met)
        && shelf.asked() == fetches(row, is_met);
    let name = row.name;
    assert!(rt; holds, "{name}, request {number}");
    is_met
}

/// How often the file of a row is fetched: once more where a request was refused.
fn fetches(row: Row, is_met: bool) -> usize {
    if row.script.starts_with(b"loadsgf f") {
        1 + usize::from(is_met)
    } else {
        0
    }
}

/// Asserts what a row is answered, whichever of its requests for memory is refused, until a run
/// meets no refusal.
fn each_refused(rt: &impl Abort, alloc: Global, row: Row) {
    let name = row.name;
    let mut met = 0u32;
    for number in 1..100u64 {
        if !meets_request(rt, alloc, row, number) {
            break;
        }
        met = met.wrapping_add(1);
    }
    assert!(rt; met > 0 && met < 99, "{met} requests of {name}");
}

/// Rows that ask for memory. That of a handicap after a pass asks for nothing but by the handicap,
/// which is refused for the pass.
pub(crate) const ROWS: &[Row] = &[
    REPETITION,
    KO,
    KO_AFTER_PASSES,
    HANDICAP,
    HANDICAP_AFTER_PASS,
    CHOICE_ON_TINY_BOARDS,
    CHOICE_ON_TWO_LINES,
    LOAD,
    PRINTED,
    FREE_HANDICAP,
];

#[test]
fn each_request_for_memory_refused(rt: HostRuntime) {
    for row in ROWS {
        each_refused(&rt, rt.alloc(), *row);
    }
}
