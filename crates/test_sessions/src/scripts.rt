//! Runs of whole scripts: their bytes come and go in pieces, devices fail, and reads are limited. The
//! functions that check rows of other files are here too.
use crate::help::sessions::{answered, answers, fails_at};
use crate::help::shared_rows::{KO, KO_AFTER_PASSES, Row};
use go_board::Size;
use goref::{Fetched, Line, RunError, Session, Shelf, run, run_within};
use std::alloc::{AllocError, Allocator, Global};
use std::process::Abort;
use std::test::Fail;
use test_devices::{Reader, Writer};

/// A shelf without files.
#[derive(Drop)]
pub(crate) struct NoFiles;

impl<A: Allocator> Shelf<A> for NoFiles {
    ghost use Rattle.std.specs.Prelude.{None};

    ghost given = { λ _. None };

    fn fetch(&mut self, _name: &[u8]) -> Fetched<A> {
        Fetched::Missing
    }
}

/// The default size of a session.
fn usual(rt: &impl Abort) -> Size {
    Size::new(19).expect(rt, "a board may have 19 lines")
}

/// Whether a script is answered by this text, however its bytes come in and the answers leave.
pub(crate) fn says(rt: &impl Abort, alloc: Global, script: &[u8], answers: &[u8]) -> bool {
    for most in [1, 2, 7, usize::MAX] {
        let reader = Reader::new(script).in_pieces_of(most);
        if !is_answered(rt, alloc, reader, answers) {
            return false;
        }
    }
    let single = Writer::new(alloc).in_pieces_of(1);
    is_answered(rt, alloc, Reader::new(script).in_lines(), answers)
        && is_answered_to(rt, alloc, Reader::new(script), single, answers)
}

/// Whether what is read is answered by this text, to a writer that takes it whole.
fn is_answered(rt: &impl Abort, alloc: Global, reader: Reader<'_>, answers: &[u8]) -> bool {
    is_answered_to(rt, alloc, reader, Writer::new(alloc), answers)
}

/// Whether what is read is answered by this text.
fn is_answered_to(
    rt: &impl Abort,
    alloc: Global,
    reader: Reader<'_>,
    mut writer: Writer<Global>,
    answers: &[u8],
) -> bool {
    ends(rt, alloc, reader, &mut writer) == Ok(()) && writer.bytes() == answers
}

/// Asserts that the lines of each row are answered so.
pub(crate) fn all_say(rt: &impl Abort, alloc: Global, rows: &[Row]) {
    for (number, row) in rows.iter().enumerate() {
        let name = row.name;
        assert!(rt;
            says(rt, alloc, row.script, row.answers),
            "row {number}: {name}"
        );
    }
}

/// How a run ends.
pub(crate) fn ends(
    rt: &impl Abort,
    alloc: Global,
    mut reader: Reader<'_>,
    writer: &mut Writer<Global>,
) -> Result<(), RunError> {
    run(alloc, usual(rt), &mut reader, writer, &mut NoFiles)
}

/// Commands, lines and their arguments.
const TALKS: &[Row] = &[
    Row {
        name: "first run",
        script: b"boardsize 9\nplay b e5\nundo\nquit\n",
        answers: b"=\n\n=\n\n=\n\n=\n\n",
    },
    Row {
        name: "nothing to undo",
        script: b"undo\n",
        answers: b"? cannot undo\n\n",
    },
    Row {
        name: "ids and known commands",
        script: b"007 name\n5\n2147483647 name\n2147483648 name\nknown_command play\nknown_command Play\n0 name\n00 quit\n",
        answers: b"=7 goref\n\n?5 unknown command\n\n=2147483647 goref\n\n? unknown command\n\n= true\n\n= false\n\n=0 goref\n\n=0\n\n",
    },
    Row {
        name: "an id after tabs",
        script: b"known_command\nprotocol_version 7\n\t12\t\tversion\n",
        answers: b"? syntax error\n\n= 2\n\n=12 1.0\n\n",
    },
    Row {
        name: "commands are known",
        script: b"known_command komi\nknown_command goref-superko\nknown_command goref-Superko\nknown_command superko\n",
        answers: b"= true\n\n= true\n\n= false\n\n= false\n\n",
    },
    Row {
        name: "commands are listed",
        script: b"list_commands\n",
        answers: b"= protocol_version\nname\nversion\nknown_command\nlist_commands\nquit\nboardsize\nclear_board\nkomi\nplay\ngenmove\nundo\nreg_genmove\nloadsgf\nfixed_handicap\nplace_free_handicap\nset_free_handicap\nfinal_score\nshowboard\ntime_settings\ntime_left\ngoref-chains\ngoref-legal\ngoref-printsgf\ngoref-superko\n\n",
    },
    Row {
        name: "lines as sent",
        script: b" \t\n# note\nna\r\x07me\r\nname#x",
        answers: b"= goref\n\n= goref\n\n",
    },
    Row {
        name: "sizes and vertices",
        script: b"boardsize 20\nboardsize 0\nboardsize x\nboardsize 2147483648\nboardsize 9\nplay b k1\n",
        answers: b"=\n\n? unacceptable size\n\n? syntax error\n\n? syntax error\n\n=\n\n? illegal move\n\n",
    },
    Row {
        name: "malformed vertices, and vertices off the board",
        script: b"boardsize 9\nplay b i5\nplay b a25\nplay b a26\nplay b a0\nplay b A05\nplay b a5\n",
        answers: b"=\n\n? syntax error\n\n? illegal move\n\n? syntax error\n\n? syntax error\n\n=\n\n? illegal move\n\n",
    },
    Row {
        name: "empty input and quit",
        script: b"",
        answers: b"",
    },
    Row {
        name: "no answer after quit",
        script: b"quit\nname\n",
        answers: b"=\n\n",
    },
    KO,
    KO_AFTER_PASSES,
    Row {
        name: "komi",
        script: b"komi .5\nkomi 6.\nkomi -0.05\nkomi 999999999.99\nkomi +6.500\n",
        answers: b"=\n\n=\n\n=\n\n=\n\n=\n\n",
    },
    Row {
        name: "malformed and large komi",
        script: b"komi .\nkomi +\nkomi 999999999.991\nkomi\nkomi 1000000000\nkomi 6.505\n",
        answers: b"? syntax error\n\n? syntax error\n\n? syntax error\n\n? syntax error\n\n? syntax error\n\n? syntax error\n\n",
    },
    Row {
        name: "an undo keeps the komi",
        script: b"komi 3\nplay b a1\nkomi 4\nundo\nundo\n",
        answers: b"=\n\n=\n\n=\n\n=\n\n? cannot undo\n\n",
    },
];

#[test]
fn commands_and_lines(rt: HostRuntime) {
    all_say(&rt, rt.alloc(), TALKS);
}

/// A line of a prefix and `letters` letters, with its end.
pub(crate) fn long_line(alloc: Global, prefix: &[u8], letters: u32) -> Result<Vec<u8>, AllocError> {
    let mut line = prefix.to_vec(alloc)?;
    for _ in 0..letters {
        line.push(b'a')?;
    }
    line.push(b'\n')?;
    Ok(line)
}

#[test]
fn long_lines(rt: HostRuntime) -> Result<(), Fail> {
    let alloc = rt.alloc();
    let mut script = Vec::new(alloc);
    for (prefix, letters) in [
        (b"play ".as_slice(), 8_188u32),
        (b"play ".as_slice(), 8_187),
        (b"9 play ".as_slice(), 8_186),
    ] {
        script.extend_from_slice(long_line(alloc, prefix, letters)?.as_slice())?;
    }
    let answers = b"? line too long\n\n? syntax error\n\n?9 line too long\n\n";
    assert!(rt; says(&rt, alloc, script.as_slice(), answers));
    Ok(())
}

/// A board, a play with 8,192 bytes and one with a byte more.
fn longest_lines(alloc: Global) -> Result<Vec<u8>, AllocError> {
    let mut script = b"boardsize 9\n".to_vec(alloc)?;
    script.extend_from_slice(long_line(alloc, b"play b e5 ", 8_182)?.as_slice())?;
    script.extend_from_slice(long_line(alloc, b"play w e6 ", 8_183)?.as_slice())?;
    script.extend_from_slice(b"goref-chains\n")?;
    Ok(script)
}

#[test]
fn the_longest_line_is_done(rt: HostRuntime) -> Result<(), Fail> {
    let script = longest_lines(rt.alloc())?;
    let text = b"=\n\n=\n\n? line too long\n\n= B E5 : E4 D5 F5 E6\n\n";
    assert!(rt; says(&rt, rt.alloc(), script.as_slice(), text));
    for most in [3, 64, 1_000, 2_731, 4_095] {
        let reader = Reader::new(script.as_slice()).in_pieces_of(most);
        assert!(rt; is_answered(&rt, rt.alloc(), reader, text), "{most} bytes");
    }
    Ok(())
}

/// Writes that fail and that take nothing, and flushes that fail, by their numbers, of which 0 is
/// none; and what was written then.
const FAULTS: &[(u64, u64, u64, &[u8])] = &[
    (5, 0, 0, b"=\n\n="),
    (0, 1, 0, b""),
    (0, 0, 1, b"=\n\n"),
];

#[test]
fn a_writer_fails(rt: HostRuntime) {
    for (row, (put, stalling, flush, taken)) in FAULTS.iter().enumerate() {
        let mut writer = Writer::new(rt.alloc())
            .in_pieces_of(1)
            .failing_at_put(*put)
            .stalling_at_put(*stalling)
            .failing_at_flush(*flush);
        let reader = Reader::new(b"boardsize 9\nplay b e5\nundo\nquit\n");
        let end = ends(&rt, rt.alloc(), reader, &mut writer);
        assert!(rt; end == Err(RunError::Write), "row {row}");
        assert!(rt; writer.bytes() == *taken, "row {row}");
    }
}

#[test]
fn a_reader_fails(rt: HostRuntime) {
    let reader = Reader::new(b"boardsize 9\nplay b").failing_at(2);
    let mut writer = Writer::new(rt.alloc());
    let end = ends(&rt, rt.alloc(), reader, &mut writer);
    assert!(rt; end == Err(RunError::Read));
    assert!(rt; writer.bytes() == b"=\n\n".as_slice());
}

/// How many reads a run may make, how it ends, what it wrote, and how often it read.
type Limit = (u64, Result<(), RunError>, &'static [u8], u64);

const LIMITS: &[Limit] = &[
    (5, Err(RunError::Endless), b"? cannot undo\n\n", 5),
    (6, Ok(()), b"? cannot undo\n\n", 6),
    (0, Err(RunError::Endless), b"", 0),
];

/// Whether a run of `undo`, one byte at a time, ends so.
fn ends_within(alloc: Global, size: Size, row: Limit) -> bool {
    let (limit, end, taken, pulls) = row;
    let mut reader = Reader::new(b"undo\n").in_pieces_of(1);
    let mut writer = Writer::new(alloc);
    let ended = run_within(alloc, limit, size, &mut reader, &mut writer, &mut NoFiles);
    ended == end && writer.bytes() == taken && reader.pull_count() == pulls
}

#[test]
fn reads_are_limited(rt: HostRuntime) {
    for (number, row) in LIMITS.iter().enumerate() {
        assert!(rt; ends_within(rt.alloc(), usual(&rt), *row), "row {number}");
    }
}

#[test]
fn an_answer_that_fails_was_decided(rt: HostRuntime) {
    let mut session = Session::new(rt.alloc(), usual(&rt));
    assert!(rt; fails_at(rt.alloc(), &mut session, (b"play b e5", b"=\n\n"), 1));
    assert!(rt; answers(rt.alloc(), &mut session, &[(b"undo", b"=\n\n")]));
}

const FAULT_TEXTS: &[(RunError, &str)] = &[
    (RunError::Read, "read fault"),
    (RunError::Write, "write fault"),
    (RunError::Endless, "input without end"),
];

#[test]
fn fault_texts(rt: HostRuntime) -> Result<(), Fail> {
    for (fault, text) in FAULT_TEXTS {
        let shown = format!(in rt.alloc(); "{fault}")?;
        assert!(rt; shown.as_str() == *text, "{shown}");
    }
    Ok(())
}

/// The komi after a line, in hundredths.
fn komi_after(alloc: Global, size: Size, line: &[u8]) -> i64 {
    let mut session = Session::new(alloc, size);
    let mut writer = Writer::new(alloc);
    let _ = answered(&mut session, &Line::of(line), &mut writer);
    session.game().komi()
}

const KOMI: &[(&[u8], i64)] = &[
    (b"komi .5", 50),
    (b"komi 6.", 600),
    (b"komi -0.05", -5),
    (b"komi 999999999.99", 99_999_999_999),
];

#[test]
fn komi_in_hundredths(rt: HostRuntime) {
    for (row, (line, hundredths)) in KOMI.iter().enumerate() {
        let komi = komi_after(rt.alloc(), usual(&rt), line);
        assert!(rt; komi == *hundredths, "row {row}");
    }
}
