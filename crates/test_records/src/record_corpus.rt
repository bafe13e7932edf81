//! Records of many kinds and lengths, where there is enough memory: each is read, judged and tidied.
use crate::help::tools::Tool;
use crate::records::copies;
use crate::replays::{Judged, has_verdict};
use go_record::Stated;
use go_sgf::{check, cook_simple, cook_text, escape, read};
use std::alloc::{AllocError, Global};
use std::test::Fail;
use test_devices::{Reader, Writer};

/// Komi below 0 and large ones, results that are no score, sizes up to 24, set-up in late nodes, a
/// colour to move and no move, deep trees, and several trees and variations.
const VERDICTS: &[(&[u8], Judged)] = &[
    (b"(;SZ[9]KM[-7.5];B[ee])", (1, "B+88.5", Stated::None)),
    (b"(;SZ[9]KM[100];W[ee];B[])", (2, "W+181", Stated::None)),
    (
        b"(;SZ[9]RE[Black won by a great many points, all in all];B[ee])",
        (1, "B+81", Stated::None),
    ),
    (b"(;SZ[20];B[aa])", (1, "B+400", Stated::None)),
    (b"(;SZ[21];B[aa])", (1, "B+441", Stated::None)),
    (b"(;SZ[22];B[aa])", (1, "B+484", Stated::None)),
    (b"(;SZ[23];W[aa])", (1, "W+529", Stated::None)),
    (b"(;SZ[24];B[aa])", (1, "B+576", Stated::None)),
    (b"(;SZ[9]PL[W]AB[aa]AW[ii])", (0, "0", Stated::None)),
    (
        b"(;SZ[9];;;;;;AB[aa];PL[W];AE[aa];AW[bb];;PL[B];AW[aa])",
        (0, "W+81", Stated::None),
    ),
    (
        b"(;SZ[9](;(;(;(;(;(;(;(;(;(;(;(;B[aa])))))))))))))",
        (1, "B+81", Stated::None),
    ),
    (
        b"(;SZ[9];B[aa](;W[bb])(;W[cc])(;W[dd])(;W[ee]))(;SZ[1])(;)(;)",
        (2, "0", Stated::None),
    ),
];

#[test]
fn verdicts(rt: HostRuntime) {
    for (row, (source, verdict)) in VERDICTS.iter().enumerate() {
        assert!(rt; has_verdict(&rt, rt.alloc(), source, *verdict), "row {row}");
    }
}

#[test]
fn a_game_of_many_passes(rt: HostRuntime) -> Result<(), Fail> {
    let suffix = b";W[ee];B[])".as_slice();
    let moves = copies(rt.alloc(), b";B[];W[]", 1_200, suffix)?;
    let record = copies(rt.alloc(), b"(;SZ[9]", 1, moves.as_slice())?;
    let verdict = b"moves 2402\nscore W+81\nstated none\n";
    assert!(rt; Tool::Judge.writes(rt.alloc(), record.as_slice(), verdict));
    Ok(())
}

/// A record with a comment of `letters` letters.
fn commented(alloc: Global, letters: u32) -> Result<Vec<u8>, AllocError> {
    let comment = copies(alloc, b"a", letters, b"])")?;
    copies(alloc, b"(;C[", 1, comment.as_slice())
}

/// How often a tool reads a source: 4,096 bytes at once, and then the end.
fn reads(source: &[u8]) -> u64 {
    (source.len() as u64).div_ceil(4_096).saturating_add(1)
}

/// Whether a record with a comment of `letters` letters is read, judged and tidied, in as many reads as that
/// takes.
fn is_taken(alloc: Global, letters: u32) -> Result<bool, AllocError> {
    let record = commented(alloc, letters)?;
    let source = record.as_slice();
    let mut writer = Writer::new(alloc);
    for tool in [Tool::Judge, Tool::Tidy] {
        let mut reader = Reader::new(source);
        let is_done = tool.run(alloc, &mut reader, &mut writer).is_ok();
        if !is_done || reader.pull_count() != reads(source) {
            return Ok(false);
        }
    }
    Ok(read(alloc, source).is_ok() && check(source).is_ok())
}

/// The last is as long as a record may be: six of its bytes are no letters of the comment.
#[test]
fn comments_of_many_lengths(rt: HostRuntime) -> Result<(), Fail> {
    for letters in [0, 5_000, 20_000, 2_000_000, 5_000_000, 16_777_210] {
        assert!(rt; is_taken(rt.alloc(), letters)?, "{letters} letters");
    }
    Ok(())
}

/// Each `]` and each `\` is escaped by one `\` before it.
#[test]
fn long_texts_are_cooked_and_escaped(rt: HostRuntime) -> Result<(), Fail> {
    let alloc = rt.alloc();
    let given = copies(alloc, b"a]b\\ ", 2_000, b"")?;
    let value = copies(alloc, b"a\\]b\\\\ ", 2_000, b"")?;
    assert!(rt; escape(alloc, given.as_slice())?.as_slice() == value.as_slice());
    assert!(rt; cook_text(alloc, value.as_slice())?.as_slice() == given.as_slice());
    assert!(rt; cook_simple(alloc, value.as_slice())?.as_slice() == given.as_slice());
    Ok(())
}
