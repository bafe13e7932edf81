//! Tests of the whole program over streams in memory: its output, its errors and its exit status. Then tests
//! of the files that it reads by their names.
mod streams;
mod words;

use crate::files::NamedFiles;
use crate::words::follow_words;
use go_sgf::MAX_RECORD;
use goref::{Fetched, Shelf};
use std::alloc::{AllocError, Global};
use std::fs;
use std::io::{self, Read, Write};
use std::test::Fail;

/// A stream that keeps the bytes written to it, while it has room for them, and knows how many of
/// them were flushed.
#[derive(Drop)]
struct Page {
    bytes: Vec<u8>,
    room: usize,
    flushed: usize,
}

impl Page {
    fn new(alloc: Global, room: usize) -> Page {
        Page {
            bytes: Vec::new(alloc),
            room,
            flushed: 0,
        }
    }

    /// Whether it got this text, and all of it was flushed.
    fn has_passed_on(&self, text: &[u8]) -> bool {
        self.bytes.as_slice() == text && self.flushed == text.len()
    }
}

impl Write for Page {
    fn write(&mut self, bytes: &[u8]) -> io::Result<usize> {
        if bytes.len() > self.room {
            return Err(io::Error::from(io::ErrorKind::StorageFull));
        }
        self.room -= bytes.len();
        self.bytes.extend_from_slice(bytes)?;
        Ok(bytes.len())
    }

    fn flush(&mut self) -> io::Result<()> {
        self.flushed = self.bytes.len();
        Ok(())
    }
}

/// A stream that can't be read.
#[derive(Drop)]
struct Broken;

impl Read for Broken {
    fn read(&mut self, _: &mut [u8]) -> io::Result<usize> {
        Err(io::Error::from(io::ErrorKind::Other))
    }
}

/// The words that the program is started with, its own name first.
fn started_with(alloc: Global, words: &[&str]) -> Result<Vec<String>, AllocError> {
    let mut all = Vec::new(alloc);
    all.push(format!(in alloc; "goref")?)?;
    for word in words {
        all.push(format!(in alloc; "{word}")?)?;
    }
    Ok(all)
}

/// Whether words write this and no more to an output with this much room, write this to the errors, and end
/// with this status.
fn comes_to(
    rt: &HostRuntime,
    words: &[&str],
    input: impl Read + Drop,
    room: usize,
    written: &[u8],
    told: &[u8],
    status: u8,
) -> bool {
    let mut output = Page::new(rt.alloc(), room);
    let mut errors = Page::new(rt.alloc(), 10_000);
    let mut files = NamedFiles::new(rt.alloc(), rt);
    let words = started_with(rt.alloc(), words).ok();
    let end = follow_words(
        rt.alloc(),
        words,
        input,
        &mut output,
        &mut errors,
        &mut files,
    );
    end == status && output.has_passed_on(written) && errors.bytes.as_slice() == told
}

#[test]
fn judging_from_stream_to_stream(rt: HostRuntime) {
    let agrees = b"moves 1\nscore B+74.5\nstated agrees\n".as_slice();
    let record = b"(;GM[1]SZ[9]KM[6.5]RE[B+74.5];B[ee])".as_slice();
    assert!(rt; comes_to(&rt, &["judge"], record, 1_000, agrees, b"", 0));
    let repeating = b"(;SZ[2];B[ab];W[bb];W[aa];B[ab])".as_slice();
    let told = b"goref: move 4 repeats the position after 3 moves\n".as_slice();
    assert!(rt; comes_to(&rt, &["judge"], repeating, 1_000, b"", told, 1));
}

#[test]
fn tidying_from_stream_to_stream(rt: HostRuntime) {
    let record = b"x(;GM[1] FF[4] ;B[aa](;W[bb])(;W[cc]C[a\\]b]))".as_slice();
    let tidy = b"(;GM[1]FF[4];B[aa](;W[bb])(;W[cc]C[a\\]b]))\n".as_slice();
    assert!(rt; comes_to(&rt, &["tidy"], record, 1_000, tidy, b"", 0));
    let prefix = record.split_at(44).0;
    let told = b"goref: record ends inside a tree at byte 44\n".as_slice();
    assert!(rt; comes_to(&rt, &["tidy"], prefix, 1_000, b"", told, 1));
}

#[test]
fn a_session_from_stream_to_stream(rt: HostRuntime) {
    let lines = b"goref-printsgf\nplay b k10\nquit\n".as_slice();
    let answers = b"= (;GM[1]FF[4]SZ[9]KM[0]PL[B])\n\n? illegal move\n\n=\n\n".as_slice();
    assert!(rt; comes_to(&rt, &["gtp", "--size", "9"], lines, 1_000, answers, b"", 0));
    let lines = b"showboard\n".as_slice();
    let diagram = b"= size 2 komi 0 prisoners B 0 W 0 moves 0 next B
 2 . .
 1 . .
   A B

"
        .as_slice();
    assert!(rt; comes_to(&rt, &["gtp", "--size=2"], lines, 1_000, diagram, b"", 0));
    let usual = b"= (;GM[1]FF[4]SZ[19]KM[0]PL[B])\n\n".as_slice();
    let line = b"goref-printsgf".as_slice();
    assert!(rt; comes_to(&rt, &["gtp"], line, 1_000, usual, b"", 0));
    assert!(rt; comes_to(&rt, &["gtp"], b"".as_slice(), 0, b"", b"", 0));
}

#[test]
fn streams_that_fail(rt: HostRuntime) {
    let told = b"goref: read fault\n".as_slice();
    for word in ["gtp", "judge", "tidy"] {
        assert!(rt; comes_to(&rt, &[word], Broken, 1_000, b"", told, 3));
    }
    let told = b"goref: write fault\n".as_slice();
    for word in ["judge", "tidy"] {
        assert!(rt; comes_to(&rt, &[word], b"(;SZ[1])".as_slice(), 0, b"", told, 3));
    }
    assert!(rt; comes_to(&rt, &["gtp"], b"name\n".as_slice(), 0, b"", told, 3));
}

/// How many bytes are written to an output with this much room and flushed, and to the errors, and the
/// status.
fn explained_to(rt: &HostRuntime, words: &[&str], room: usize) -> (usize, usize, u8) {
    let mut output = Page::new(rt.alloc(), room);
    let mut errors = Page::new(rt.alloc(), 10_000);
    let mut files = NamedFiles::new(rt.alloc(), rt);
    let words = started_with(rt.alloc(), words).ok();
    let status = follow_words(
        rt.alloc(),
        words,
        Broken,
        &mut output,
        &mut errors,
        &mut files,
    );
    (output.flushed, errors.bytes.len(), status)
}

/// Whether the words are answered by a text on the output alone, and by a message of one line where the
/// output is full.
fn are_answered(rt: &HostRuntime, words: &[&str]) -> bool {
    let (shown, told, status) = explained_to(rt, words, 10_000);
    let fault = b"goref: write fault\n".as_slice();
    shown > 0 && told == 0 && status == 0 && comes_to(rt, words, Broken, 0, b"", fault, 3)
}

/// Whether the words are refused, with a text among the errors alone.
fn are_refused(rt: &HostRuntime, words: &[&str]) -> bool {
    let (shown, told, status) = explained_to(rt, words, 10_000);
    shown == 0 && told > 0 && status == 2
}

#[test]
fn words_that_name_no_task(rt: HostRuntime) {
    assert!(rt; are_answered(&rt, &["--help"]));
    assert!(rt; are_answered(&rt, &["gtp", "--help"]));
    assert!(rt; are_answered(&rt, &["judge", "--help"]));
    assert!(rt; comes_to(&rt, &["--version"], Broken, 10, b"goref 1.0\n", b"", 0));
    assert!(rt; are_refused(&rt, &[]));
    assert!(rt; are_refused(&rt, &["gtp", "--size", "26"]));
}

#[test]
fn a_refusal_is_told(rt: HostRuntime) {
    let told = b"error: unexpected argument 'game.sgf' found

Usage: goref judge < RECORD

For more information, try '--help'.
"
        .as_slice();
    let words = &["judge", "game.sgf"];
    assert!(rt; comes_to(&rt, words, Broken, 0, b"", told, 2));
}

#[test]
fn words_that_cannot_be_read(rt: HostRuntime) {
    let mut output = Page::new(rt.alloc(), 1_000);
    let mut errors = Page::new(rt.alloc(), 1_000);
    let mut files = NamedFiles::new(rt.alloc(), &rt);
    let status = follow_words(
        rt.alloc(),
        None,
        Broken,
        &mut output,
        &mut errors,
        &mut files,
    );
    assert_eq!(rt; status, 2);
    assert!(rt; output.has_passed_on(b""));
    assert!(rt; errors.bytes.as_slice() == b"goref: the words cannot be read\n".as_slice());
}

/// What is fetched by a name.
fn fetched(rt: &HostRuntime, name: &[u8]) -> Fetched<Global> {
    NamedFiles::new(rt.alloc(), rt).fetch(name)
}

/// What is fetched of a file that has these bytes for so long.
fn fetched_of(rt: &HostRuntime, path: &str, bytes: &[u8]) -> Result<Fetched<Global>, Fail> {
    fs::write(rt, path, bytes)?;
    let outcome = fetched(rt, path.as_bytes());
    fs::remove_file(rt, path)?;
    Ok(outcome)
}

/// Whether these bytes were fetched.
fn holds(outcome: &Fetched<Global>, text: &[u8]) -> bool {
    match outcome {
        Fetched::Bytes(bytes) => bytes.as_slice() == text,
        _ => false,
    }
}

#[test]
fn files_are_read_whole(rt: HostRuntime) -> Result<(), Fail> {
    let text = b"(;SZ[9];B[ee])\n".as_slice();
    assert!(rt; holds(&fetched_of(&rt, "short.sgf", text)?, text));
    assert!(rt; holds(&fetched_of(&rt, "empty.sgf", b"")?, b""));
    assert!(rt; holds(&fetched_of(&rt, "\u{e9}.sgf", b"(;)")?, b"(;)"));
    Ok(())
}

#[test]
fn files_by_their_names(rt: HostRuntime) -> Result<(), Fail> {
    fs::write(&rt, "one.sgf", b"(;SZ[1])".as_slice())?;
    fs::write(&rt, "two.sgf", b"(;SZ[2])".as_slice())?;
    let mut files = NamedFiles::new(rt.alloc(), &rt);
    let first = files.fetch(b"one.sgf");
    let second = files.fetch(b"two.sgf");
    let again = files.fetch(b"one.sgf");
    fs::remove_file(&rt, "one.sgf")?;
    fs::remove_file(&rt, "two.sgf")?;
    assert!(rt; holds(&first, b"(;SZ[1])"));
    assert!(rt; holds(&second, b"(;SZ[2])"));
    assert!(rt; holds(&again, b"(;SZ[1])"));
    Ok(())
}

#[test]
fn files_by_whole_paths(rt: HostRuntime) -> Result<(), Fail> {
    let mut path = std::env::current_dir(&rt)?;
    path.push("whole.sgf")?;
    assert!(rt; path.as_str().starts_with("/"));
    assert!(rt; holds(&fetched_of(&rt, path.as_str(), b"(;)")?, b"(;)"));
    assert!(rt; matches!(fetched(&rt, path.as_str().as_bytes()), Fetched::Missing));
    Ok(())
}

/// A path may be longer than the name of a file may be.
#[test]
fn files_by_long_paths(rt: HostRuntime) -> Result<(), Fail> {
    let alloc = rt.alloc();
    let mut path = Vec::new(alloc);
    for _ in 0..150u32 {
        path.extend_from_slice(b"./")?;
    }
    path.extend_from_slice(b"long.sgf")?;
    fs::write(&rt, "long.sgf", b"(;)".as_slice())?;
    let outcome = fetched(&rt, path.as_slice());
    fs::remove_file(&rt, "long.sgf")?;
    assert!(rt; path.len() == 308);
    assert!(rt; holds(&outcome, b"(;)"));
    Ok(())
}

#[test]
fn files_that_are_missing(rt: HostRuntime) -> Result<(), Fail> {
    assert!(rt; matches!(fetched_of(&rt, "gone.sgf", b"(;)")?, Fetched::Bytes(_)));
    assert!(rt; matches!(fetched(&rt, b"gone.sgf"), Fetched::Missing));
    assert!(rt; matches!(fetched(&rt, b"nowhere/game.sgf"), Fetched::Missing));
    assert!(rt; matches!(fetched(&rt, b"."), Fetched::Missing));
    assert!(rt; matches!(fetched(&rt, b""), Fetched::Missing));
    Ok(())
}

/// The second has no end, and a run without a terminal has none of the third.
#[test]
fn devices_are_missing(rt: HostRuntime) {
    for name in [b"/dev/null".as_slice(), b"/dev/zero", b"/dev/tty"] {
        assert!(rt; matches!(fetched(&rt, name), Fetched::Missing));
    }
}

/// The memory of a process is a file that begins with what cannot be read.
#[test]
fn a_file_that_cannot_be_read(rt: HostRuntime) {
    assert!(rt; matches!(fetched(&rt, b"/proc/self/mem"), Fetched::Missing));
}

#[test]
fn names_that_are_no_text(rt: HostRuntime) -> Result<(), Fail> {
    fs::write(&rt, "\u{fffd}.sgf", b"(;)".as_slice())?;
    let outcome = fetched(&rt, b"\xff.sgf");
    fs::remove_file(&rt, "\u{fffd}.sgf")?;
    assert!(rt; matches!(outcome, Fetched::Missing));
    Ok(())
}

#[test]
fn files_at_the_limit(rt: HostRuntime) -> Result<(), Fail> {
    let alloc = rt.alloc();
    let mut text = vec![in alloc; b' '; MAX_RECORD]?;
    let large = text.split_at(2_000_000).0;
    assert!(rt; holds(&fetched_of(&rt, "large.sgf", large)?, large));
    let longest = fetched_of(&rt, "longest.sgf", text.as_slice())?;
    assert!(rt; holds(&longest, text.as_slice()));
    text.push(b' ')?;
    let longer = fetched_of(&rt, "longer.sgf", text.as_slice())?;
    assert!(rt; matches!(longer, Fetched::TooLarge));
    Ok(())
}
