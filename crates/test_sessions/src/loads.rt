//! `loadsgf` over a shelf that gives one file: names, prefixes of a record, records that are refused, and how
//! often the file is asked for.
use crate::help::sessions::{answers, begun};
use crate::help::shared_rows::{LOAD, PRINTED, Row};
use go_board::Size;
use goref::{Fetched, Shelf, run};
use std::alloc::{AllocError, Allocator, Global};
use std::process::Abort;
use std::test::Fail;
use test_devices::{Reader, Writer};

pub(crate) const HANDICAP_GAME: &[u8] = b"(;GM[1]SZ[9]KM[5.5]AB[cc][gg];W[ee];B[])";

/// What a shelf gives for each name.
#[derive(Clone, Copy)]
pub(crate) enum Gift<'a> {
    Bytes(&'a [u8]),
    Missing,
    TooLarge,
    Memory,
}

/// A shelf that gives the same for each name, and counts how often it is asked for one of them.
#[derive(Drop)]
pub(crate) struct OneFile<'a, A: Allocator + Copy> {
    alloc: A,
    gift: Gift<'a>,
    name: &'a [u8],
    asked: usize,
}

impl<'a, A: Allocator + Copy> OneFile<'a, A> {
    pub(crate) fn named(name: &'a [u8], alloc: A, gift: Gift<'a>) -> OneFile<'a, A> {
        OneFile {
            alloc,
            gift,
            name,
            asked: 0,
        }
    }

    /// How often it was asked for that name.
    pub(crate) fn asked(&self) -> usize {
        self.asked
    }

    fn given(&self) -> Fetched<A> {
        match self.gift {
            Gift::Bytes(bytes) => match bytes.to_vec(self.alloc) {
                Ok(copy) => Fetched::Bytes(copy),
                Err(_) => Fetched::Memory,
            },
            Gift::Missing => Fetched::Missing,
            Gift::TooLarge => Fetched::TooLarge,
            Gift::Memory => Fetched::Memory,
        }
    }
}

impl<A: Allocator + Copy> Shelf<A> for OneFile<'_, A> {
    ghost use Rattle.std.specs.Prelude.{None};

    ghost given = { λ _. None };

    fn fetch(&mut self, name: &[u8]) -> Fetched<A> {
        if name == self.name {
            self.asked = self.asked.wrapping_add(1);
        }
        self.given()
    }
}

/// Runs over a shelf, and asserts that the run ends without a fault.
fn runs(
    rt: &impl Abort,
    alloc: Global,
    mut reader: Reader<'_>,
    writer: &mut Writer<Global>,
    shelf: &mut OneFile<'_, Global>,
) {
    let size = Size::new(19).expect(rt, "a size");
    let end = run(alloc, size, &mut reader, writer, shelf);
    assert!(rt; end == Ok(()));
}

/// Whether a script is answered so over such a shelf, and `f` asked for so often.
fn says(
    rt: &impl Abort,
    alloc: Global,
    gift: Gift<'_>,
    script: &[u8],
    answers: &[u8],
    asked: usize,
) -> bool {
    for most in [1, 4_096] {
        let reader = Reader::new(script).in_pieces_of(most);
        if !is_answered(rt, alloc, gift, reader, answers, asked) {
            return false;
        }
    }
    true
}

/// Whether what is read is answered so over such a shelf, and `f` asked for so often.
fn is_answered(
    rt: &impl Abort,
    alloc: Global,
    gift: Gift<'_>,
    reader: Reader<'_>,
    answers: &[u8],
    asked: usize,
) -> bool {
    let mut shelf = OneFile::named(b"f", alloc, gift);
    let mut writer = Writer::new(alloc);
    runs(rt, alloc, reader, &mut writer, &mut shelf);
    writer.bytes() == answers && shelf.asked() == asked
}

/// What a script is answered over a shelf that gives this for `f`.
pub(crate) fn answers_over(
    rt: &impl Abort,
    alloc: Global,
    gift: Gift<'_>,
    script: &[u8],
) -> Result<Vec<u8>, AllocError> {
    let mut shelf = OneFile::named(b"f", alloc, gift);
    let mut writer = Writer::new(alloc);
    runs(rt, alloc, Reader::new(script), &mut writer, &mut shelf);
    writer.bytes().to_vec(alloc)
}

/// Whether the answers to a script begin so, over a shelf that gives this record.
fn begins(rt: &impl Abort, alloc: Global, record: &[u8], script: &[u8], heading: &[u8]) -> bool {
    let answers = answers_over(rt, alloc, Gift::Bytes(record), script).expect(rt, "memory");
    answers.as_slice().starts_with(heading)
}

/// A load of a file with this name.
fn load_of(alloc: Global, name: &[u8]) -> Result<Vec<u8>, AllocError> {
    let mut script = b"loadsgf ".to_vec(alloc)?;
    script.extend_from_slice(name)?;
    script.push(b'\n')?;
    Ok(script)
}

/// Whether a file with this name is loaded, and asked for once.
fn is_loaded(rt: &impl Abort, alloc: Global, name: &[u8], script: &[u8]) -> bool {
    let mut shelf = OneFile::named(name, alloc, Gift::Bytes(HANDICAP_GAME));
    let mut writer = Writer::new(alloc);
    runs(rt, alloc, Reader::new(script), &mut writer, &mut shelf);
    writer.bytes() == b"=\n\n".as_slice() && shelf.asked() == 1
}

#[test]
fn a_long_name(rt: HostRuntime) -> Result<(), Fail> {
    let name = vec![in rt.alloc(); b'a'; 4_095]?;
    let script = load_of(rt.alloc(), name.as_slice())?;
    assert!(rt; is_loaded(&rt, rt.alloc(), name.as_slice(), script.as_slice()));
    Ok(())
}

/// What `f` has, a row of lines, and how often `f` is asked for.
struct Load {
    gift: Gift<'static>,
    row: Row,
    asked: usize,
}

const SIZELESS: Row = Row {
    name: "a record without a size has nineteen lines",
    script: b"boardsize 9\nplay w t19\nloadsgf f\ngoref-chains\nplay w t18\nplay w u1\n",
    answers: b"=\n\n? illegal move\n\n=\n\n= B T19 : T18 S19\n\n=\n\n? illegal move\n\n",
};

const REFUSED: &[u8] = b"boardsize 2\nplay b a1\nloadsgf f\ngoref-chains\nundo\n";

const REFUSED_BY_SITUATIONS: &[u8] =
    b"boardsize 1\ngoref-superko situational\nloadsgf f\ngoref-legal b\n";

const LOADS: &[Load] = &[
    Load {
        gift: Gift::Bytes(HANDICAP_GAME),
        row: LOAD,
        asked: 1,
    },
    Load {
        gift: Gift::Bytes(HANDICAP_GAME),
        row: Row {
            name: "arguments that ask for nothing",
            script: b"loadsgf f x\nloadsgf\nloadsgf f 2147483648\n# loadsgf f\n",
            answers: b"? syntax error\n\n? syntax error\n\n? syntax error\n\n",
        },
        asked: 0,
    },
    Load {
        gift: Gift::Bytes(b"(;B[sa])"),
        row: SIZELESS,
        asked: 1,
    },
    Load {
        gift: Gift::Bytes(b"(;SZ[];B[sa])"),
        row: SIZELESS,
        asked: 1,
    },
    Load {
        gift: Gift::Bytes(b"(;SZ[ \t];B[sa])"),
        row: SIZELESS,
        asked: 1,
    },
    Load {
        gift: Gift::Memory,
        row: Row {
            name: "want of memory leaves the board",
            script: REFUSED,
            answers: b"=\n\n=\n\n? out of memory\n\n= B A1 : B1 A2\n\n=\n\n",
        },
        asked: 1,
    },
    Load {
        gift: Gift::Memory,
        row: Row {
            name: "want of memory leaves the rule",
            script: REFUSED_BY_SITUATIONS,
            answers: b"=\n\n=\n\n? out of memory\n\n= A1\n\n",
        },
        asked: 1,
    },
    Load {
        gift: Gift::Bytes(b"(;SZ[1])"),
        row: Row {
            name: "a loaded record has the positional rule",
            script: b"boardsize 1\ngoref-superko situational\ngoref-legal b\nloadsgf f\n\
            goref-legal b\ngoref-superko situational\ngoref-legal b\n",
            answers: b"=\n\n=\n\n= A1\n\n=\n\n=\n\n=\n\n= A1\n\n",
        },
        asked: 1,
    },
    Load {
        gift: Gift::Bytes(b"(;SZ[2];B[ab];W[bb];W[aa])"),
        row: Row {
            name: "a loaded record is judged by positions",
            script: b"goref-superko situational\nloadsgf f\ngoref-superko situational\nplay b a1\n",
            answers: b"=\n\n=\n\n? game in progress\n\n? illegal move\n\n",
        },
        asked: 1,
    },
    Load {
        gift: Gift::Missing,
        row: PRINTED,
        asked: 0,
    },
    Load {
        gift: Gift::Bytes(HANDICAP_GAME),
        row: Row {
            name: "a loaded record is printed",
            script: b"7 loadsgf f\n8 goref-printsgf\n",
            answers: b"=7\n\n=8 (;GM[1]FF[4]SZ[9]KM[5.5]PL[W]AB[gg][cc];W[ee];B[])\n\n",
        },
        asked: 1,
    },
];

#[test]
fn loads(rt: HostRuntime) {
    for (number, load) in LOADS.iter().enumerate() {
        let Row {
            name,
            script,
            answers,
        } = load.row;
        let is_said = says(&rt, rt.alloc(), load.gift, script, answers, load.asked);
        assert!(rt; is_said, "row {number}: {name}");
    }
}

/// Loads of a part of the record, and how the answers begin.
const PREFIXES: &[(&[u8], &[u8])] = &[
    (
        b"loadsgf f 0\nshowboard\n",
        b"=\n\n= size 9 komi 5.5 prisoners B 0 W 0 moves 0 next W\n",
    ),
    (
        b"loadsgf f 99\nshowboard\n",
        b"=\n\n= size 9 komi 5.5 prisoners B 0 W 0 moves 2 next W\n",
    ),
];

#[test]
fn prefixes_of_a_record(rt: HostRuntime) {
    for (row, (script, heading)) in PREFIXES.iter().enumerate() {
        assert!(rt;
            begins(&rt, rt.alloc(), HANDICAP_GAME, script, heading),
            "row {row}"
        );
    }
}

/// A record of 1,200 passes.
fn passes(alloc: Global) -> Result<Vec<u8>, AllocError> {
    let mut record = b"(;SZ[9]".to_vec(alloc)?;
    for _ in 0..1_200u16 {
        record.extend_from_slice(b";B[]")?;
    }
    record.push(b')')?;
    Ok(record)
}

/// Loads of a part of that record, and how the answers begin.
const PREFIXES_OF_PASSES: &[(&[u8], &[u8])] = &[
    (
        b"loadsgf f 1000\nshowboard\n",
        b"=\n\n= size 9 komi 0 prisoners B 0 W 0 moves 999 next W\n",
    ),
    (
        b"loadsgf f 1001\nshowboard\n",
        b"=\n\n= size 9 komi 0 prisoners B 0 W 0 moves 1000 next W\n",
    ),
    (
        b"loadsgf f\nshowboard\n",
        b"=\n\n= size 9 komi 0 prisoners B 0 W 0 moves 1200 next W\n",
    ),
];

#[test]
fn a_long_record(rt: HostRuntime) -> Result<(), Fail> {
    let record = passes(rt.alloc())?;
    for (row, (script, heading)) in PREFIXES_OF_PASSES.iter().enumerate() {
        let is_said = begins(&rt, rt.alloc(), record.as_slice(), script, heading);
        assert!(rt; is_said, "row {row}");
    }
    Ok(())
}

/// What cannot be loaded on a small board.
const NO_GAMES: &[Gift<'static>] = &[
    Gift::Bytes(b"(;SZ[9]AB[aa]AW[ab][ba])"),
    Gift::Bytes(b"(;SZ[2];B[aa];W[ba];W[ab];B[aa])"),
    Gift::Bytes(b"(;SZ[1];B[aa])"),
    Gift::Bytes(b"no record"),
    Gift::Missing,
    Gift::TooLarge,
];

#[test]
fn records_refused(rt: HostRuntime) {
    let answers = b"=\n\n=\n\n? cannot load file\n\n= B A1 : B1 A2\n\n=\n\n";
    for (row, gift) in NO_GAMES.iter().enumerate() {
        assert!(rt;
            says(&rt, rt.alloc(), *gift, REFUSED, answers, 1),
            "row {row}"
        );
    }
}

#[test]
fn a_refused_record_keeps_the_rule(rt: HostRuntime) {
    let answers = b"=\n\n=\n\n? cannot load file\n\n= A1\n\n";
    for (row, gift) in NO_GAMES.iter().enumerate() {
        let is_said = says(&rt, rt.alloc(), *gift, REFUSED_BY_SITUATIONS, answers, 1);
        assert!(rt; is_said, "row {row}");
    }
}

#[test]
fn nothing_fetched(rt: HostRuntime) {
    let refusal = (
        b"loadsgf f".as_slice(),
        b"? cannot load file\n\n".as_slice(),
    );
    assert!(rt; answers(rt.alloc(), &mut begun(&rt, rt.alloc(), 19), &[refusal]));
}
