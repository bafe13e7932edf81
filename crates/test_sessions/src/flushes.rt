//! What a run flushes, what was flushed before each read, and how often it reads.
use crate::scripts::{NoFiles, long_line};
use go_board::Size;
use goref::{RunError, run};
use std::alloc::{AllocError, Global};
use std::cell::Cell;
use std::process::Abort;
use std::test::Fail;
use test_devices::{HoldingWriter, NotingReader, Reader, Writer};

const SHORT: &[u8] = b"boardsize 9\nplay b e5\nundo\nquit\n";

const QUITTING: &[u8] = b"loadsgf f\nname\nquit\nname\n";

/// Lines that are accepted, refused, silent and too long, and a last one without a line end.
fn mixed(alloc: Global) -> Result<Vec<u8>, AllocError> {
    let mut script = b"boardsize 9\nplay b e5\nplay w e5\n\nplay\n# note\n".to_vec(alloc)?;
    script.extend_from_slice(long_line(alloc, b"play ", 8_188)?.as_slice())?;
    script.extend_from_slice(b"7 x\nname\nundo")?;
    Ok(script)
}

/// Runs from a reader to a writer, and asserts that the run ends without a fault.
fn runs(
    rt: &impl Abort,
    alloc: Global,
    reader: &mut NotingReader<'_, Global>,
    writer: &mut HoldingWriter<'_, Global>,
) {
    let size = Size::new(19).expect(rt, "a size");
    let end = run(alloc, size, reader, writer, &mut NoFiles);
    assert!(rt; end == Ok(()));
}

/// How a script is read.
#[derive(Clone, Copy)]
enum Way {
    Whole,
    Lines,
    Bytes,
}

impl Way {
    /// A reader of a script.
    fn reader(self, script: &[u8]) -> Reader<'_> {
        match self {
            Way::Whole => Reader::new(script),
            Way::Lines => Reader::new(script).in_lines(),
            Way::Bytes => Reader::new(script).in_pieces_of(1),
        }
    }
}

/// Whether these numbers of bytes of the answers were passed on at the flushes, and none is held back at the
/// end.
fn flushes(rt: &impl Abort, alloc: Global, reader: Reader<'_>, ends: &[usize]) -> bool {
    let passed = Cell::new(0);
    let mut noting = NotingReader::new(alloc, reader, &passed);
    let mut writer = HoldingWriter::new(alloc, &passed);
    runs(rt, alloc, &mut noting, &mut writer);
    writer.ends() == ends && writer.bytes().len() == passed.get()
}

/// Whether there are flushes after these bytes of the answers to a script, however it is read.
fn is_flushed(rt: &impl Abort, alloc: Global, script: &[u8], ends: &[usize]) -> bool {
    for way in [Way::Whole, Way::Lines, Way::Bytes] {
        if !flushes(rt, alloc, way.reader(script), ends) {
            return false;
        }
    }
    true
}

/// Scripts, and after which bytes of their answers there are flushes: none after silent lines.
const FLUSHED: &[(&[u8], &[usize])] = &[
    (SHORT, &[3, 6, 9, 12]),
    (QUITTING, &[20, 29, 32]),
    (b"quit", &[3]),
    (b"name\n7", &[9, 29]),
    (b"", &[]),
    (b"\n", &[]),
    (b" \t\n\n# name\n\x07", &[]),
];

#[test]
fn each_answer_is_flushed(rt: HostRuntime) {
    for (row, (script, ends)) in FLUSHED.iter().enumerate() {
        assert!(rt; is_flushed(&rt, rt.alloc(), script, ends), "row {row}");
    }
}

#[test]
fn each_answer_to_mixed_lines_is_flushed(rt: HostRuntime) -> Result<(), Fail> {
    let script = mixed(rt.alloc())?;
    let ends = &[3, 6, 22, 38, 55, 75, 84, 87];
    assert!(rt; is_flushed(&rt, rt.alloc(), script.as_slice(), ends));
    Ok(())
}

/// Whether these numbers of bytes had been passed on before the reads. Each pair is a number of reads and the
/// bytes before each of them.
fn sees(rt: &impl Abort, alloc: Global, reader: Reader<'_>, counts: &[(u32, usize)]) -> bool {
    let passed = Cell::new(0);
    let mut noting = NotingReader::new(alloc, reader, &passed);
    let mut writer = HoldingWriter::new(alloc, &passed);
    runs(rt, alloc, &mut noting, &mut writer);
    are(noting.seen(), counts)
}

/// Whether the numbers are these. Each pair is how many of them are equal, and their value.
fn are(numbers: &[usize], counts: &[(u32, usize)]) -> bool {
    let mut numbers = numbers.iter();
    for (reads, count) in counts {
        for _ in 0..*reads {
            if numbers.next() != Some(count) {
                return false;
            }
        }
    }
    numbers.next().is_none()
}

/// Scripts and how they are read, and how many bytes had been passed on before each read.
const SEEN: &[(&[u8], Way, &[(u32, usize)])] = &[
    (SHORT, Way::Bytes, &[(12, 0), (10, 3), (5, 6), (5, 9)]),
    (SHORT, Way::Lines, &[(1, 0), (1, 3), (1, 6), (1, 9)]),
    (SHORT, Way::Whole, &[(1, 0)]),
    (QUITTING, Way::Lines, &[(1, 0), (1, 20), (1, 29)]),
];

/// A run that answers only at the end fails this.
#[test]
fn answers_only_at_end(rt: HostRuntime) {
    for (row, (script, way, counts)) in SEEN.iter().enumerate() {
        assert!(rt;
            sees(&rt, rt.alloc(), way.reader(script), counts),
            "row {row}"
        );
    }
}

/// How the mixed lines are read, and how many bytes had been passed on before each read.
const SEEN_OF_MIXED: &[(Way, &[(u32, usize)])] = &[
    (
        Way::Lines,
        &[
            (1, 0),
            (1, 3),
            (1, 6),
            (2, 22),
            (4, 38),
            (1, 55),
            (1, 75),
            (2, 84),
        ],
    ),
    (Way::Whole, &[(1, 0), (2, 38), (1, 84)]),
];

#[test]
fn answers_leave_before_the_next_read(rt: HostRuntime) -> Result<(), Fail> {
    let script = mixed(rt.alloc())?;
    for (row, (way, counts)) in SEEN_OF_MIXED.iter().enumerate() {
        let reader = way.reader(script.as_slice());
        assert!(rt; sees(&rt, rt.alloc(), reader, counts), "row {row}");
    }
    Ok(())
}

/// How a run ends, where the answers are taken as they come.
fn ends(rt: &impl Abort, alloc: Global, reader: &mut Reader<'_>) -> Result<(), RunError> {
    let size = Size::new(19).expect(rt, "a size");
    let mut writer = Writer::new(alloc);
    run(alloc, size, reader, &mut writer, &mut NoFiles)
}

/// Whether the end of a script is met this often, however it is read.
fn meets_ends(rt: &impl Abort, alloc: Global, script: &[u8], count: u64) -> bool {
    for most in [1, 3, 4_096] {
        let mut reader = Reader::new(script).in_pieces_of(most);
        if ends(rt, alloc, &mut reader) != Ok(()) || reader.end_count() != count {
            return false;
        }
    }
    true
}

/// Scripts, and how often their ends are met.
const ENDS: &[(&[u8], u64)] = &[
    (b"", 1),
    (b"undo", 1),
    (b"undo\n", 1),
    (b"\n", 1),
    (b"# note", 1),
    (b"name\n\n", 1),
    (b"quit\n", 0),
    (b"name\nquit\nname\n", 0),
    (b"quit", 1),
];

#[test]
fn nothing_is_read_after_the_end(rt: HostRuntime) {
    for (row, (script, count)) in ENDS.iter().enumerate() {
        assert!(rt; meets_ends(&rt, rt.alloc(), script, *count), "row {row}");
    }
}

#[test]
fn nothing_is_read_after_a_fault(rt: HostRuntime) {
    let mut reader = Reader::new(b"boardsize 9\nplay b e5\nundo\n")
        .in_lines()
        .failing_at(2);
    assert!(rt; ends(&rt, rt.alloc(), &mut reader) == Err(RunError::Read));
    assert!(rt; reader.pull_count() == 2);
}
