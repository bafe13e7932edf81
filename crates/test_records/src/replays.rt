//! Rows of replays and verdicts beside what is wanted of each: one subject, as long as its tables are.
use go_board::{Area, Colour, Move, Pen, Point, Size, Vertex, WriteFault, read_vertex};
use go_game::{Game, PlayError, Superko, hundredths_text, score_text};
use go_record::{RecordError, Stated, Verdict, judge, put_record, replay, replay_on, write_record};
use go_sgf::{Collection, SgfError, read, trim};
use std::alloc::{Allocator, Global};
use std::process::Abort;
use test_allocator::Refusing;
use test_devices::Writer;

/// A record whose fourth move repeats the position after the third.
const REPEATING: &[u8] = b"(;SZ[2];B[aa];W[ba];W[ab];B[aa])";

/// A record with two stones set up and two moves.
const SET_UP: &[u8] = b"(;GM[1]SZ[9]KM[5.5]AB[cc][gg];W[ee];B[])";

/// The game of a source, up to a move, or why it has none.
fn replayed(
    rt: &impl Abort,
    alloc: Global,
    source: &[u8],
    number: Option<u32>,
) -> Result<Game<Global>, RecordError> {
    let collection = read(alloc, source).expect(rt, "a record");
    replay(alloc, &collection, number)
}

/// The game of a source that has one, up to a move.
pub(crate) fn game_of(
    rt: &impl Abort,
    alloc: Global,
    source: &[u8],
    number: Option<u32>,
) -> Game<Global> {
    replayed(rt, alloc, source, number).expect(rt, "a game")
}

/// Whether the replay of a source is refused with this.
fn is_refused(rt: &impl Abort, alloc: Global, source: &[u8], why: RecordError) -> bool {
    replayed(rt, alloc, source, None).err() == Some(why)
}

/// Asserts the text of a refusal.
fn has_text(rt: &impl Abort, alloc: Global, error: RecordError, text: &str) {
    let shown = format!(in alloc; "{error}").expect(rt, "a text");
    assert!(rt; shown.as_str() == text, "{shown}");
}

/// Records without a game, why, and the texts of that.
const REFUSALS: &[(&[u8], RecordError, &str)] = &[
    (b"(;GM[2])", RecordError::NotGo, "not a Go record"),
    (b"(;SZ[0])", RecordError::BadSize, "bad board size"),
    (b"(;SZ[26])", RecordError::BadSize, "bad board size"),
    (b"(;SZ[9:8])", RecordError::BadSize, "bad board size"),
    (b"(;KM[x])", RecordError::BadKomi, "bad komi"),
    (b"(;B[zz])", RecordError::BadValue(0), "bad value in node 0"),
    (
        b"(;SZ[2];B[aa:ab])",
        RecordError::BadValue(1),
        "bad value in node 1",
    ),
    (
        b"(;SZ[9];B[aa];AB[bb])",
        RecordError::SetupAfterMove(2),
        "set-up after a move in node 2",
    ),
    (
        b"(;SZ[9];B[aa];W[aa])",
        RecordError::Illegal(2, PlayError::Occupied),
        "move 2 is on a stone",
    ),
    (
        b"(;SZ[9]AB[aa]AW[ab][ba])",
        RecordError::DeadSetup(Point { col: 0, row: 8 }),
        "set-up without liberty at A9",
    ),
    (
        REPEATING,
        RecordError::Illegal(4, PlayError::Repeats(3)),
        "move 4 repeats the position after 3 moves",
    ),
    (
        b"(;SZ[1]AB[aa])",
        RecordError::DeadSetup(Point { col: 0, row: 0 }),
        "set-up without liberty at A1",
    ),
    (
        b"(;SZ[2]AB[aa:bb])",
        RecordError::DeadSetup(Point { col: 0, row: 0 }),
        "set-up without liberty at A1",
    ),
];

#[test]
fn refusals_of_replay(rt: HostRuntime) {
    for (number, (source, why, text)) in REFUSALS.iter().enumerate() {
        assert!(rt; is_refused(&rt, rt.alloc(), source, *why), "row {number}");
        has_text(&rt, rt.alloc(), *why, text);
    }
}

#[test]
fn texts_of_other_refusals(rt: HostRuntime) {
    let off = RecordError::Illegal(7, PlayError::OffBoard);
    has_text(&rt, rt.alloc(), off, "move 7 is off the board");
    has_text(&rt, rt.alloc(), RecordError::Memory, "out of memory");
}

/// A point's word, and the stone there.
type Stone = (&'static [u8], Option<Colour>);

/// Whether a game has these stones.
fn has_stones(rt: &impl Abort, game: &Game<Global>, stones: &[Stone]) -> bool {
    for (word, colour) in stones {
        if stone(rt, game, word) != *colour {
            return false;
        }
    }
    true
}

fn stone(rt: &impl Abort, game: &Game<Global>, word: &[u8]) -> Option<Colour> {
    match read_vertex(word, game.size()) {
        Ok(Vertex::At(point)) => game.colour_at(point),
        _ => panic!(rt; "no point"),
    }
}

/// A prefix of a record, and the game after it: how many lines the board has, how many moves were made, and
/// some stones.
type Standing = (&'static [u8], Option<u32>, u8, usize, &'static [Stone]);

const STANDINGS: &[Standing] = &[
    (b"(;SZ[9];B[aa];W[aa])", Some(2), 9, 1, &[]),
    (b"(;SZ[9:9]AB[])", None, 9, 0, &[]),
    (b"(;B[pd])", None, 19, 1, &[(b"q16", Some(Colour::Black))]),
    (b"(;B[sa])", None, 19, 1, &[(b"t19", Some(Colour::Black))]),
    (
        b"(;SZ[20];B[tt])",
        None,
        20,
        1,
        &[(b"u1", Some(Colour::Black))],
    ),
    (b"(;SZ[19];B[tt])", None, 19, 1, &[]),
    (
        b"(;SZ[25]AB[yy])",
        None,
        25,
        0,
        &[(b"z1", Some(Colour::Black))],
    ),
    // Nodes of several moves. Set-up comes before them, wherever it is in the node.
    (
        b"(;SZ[9];B[aa]W[bb]AB[cc];B[dd])",
        None,
        9,
        3,
        &[
            (b"a9", Some(Colour::Black)),
            (b"b8", Some(Colour::White)),
            (b"c7", Some(Colour::Black)),
            (b"d6", Some(Colour::Black)),
        ],
    ),
    (
        b"(;SZ[9];B[aa]W[bb]AB[cc];B[dd])",
        Some(2),
        9,
        1,
        &[(b"b8", None), (b"c7", Some(Colour::Black))],
    ),
    (
        b"(;SZ[9]B[aa]W[bb]B[cc]PL[W])",
        Some(3),
        9,
        2,
        &[(b"b8", Some(Colour::White)), (b"c7", None)],
    ),
];

/// Whether a game is as its row says.
fn stands(rt: &impl Abort, game: &Game<Global>, standing: &Standing) -> bool {
    let (_, _, lines, moves, stones) = standing;
    game.size().lines() == *lines && game.move_count() == *moves && has_stones(rt, game, stones)
}

#[test]
fn standings(rt: HostRuntime) {
    for (row, standing) in STANDINGS.iter().enumerate() {
        let (source, number, _, _, _) = standing;
        let game = game_of(&rt, rt.alloc(), source, *number);
        assert!(rt; stands(&rt, &game, standing), "row {row}");
    }
}

/// A board is vacant where a list of stones is empty, and two letters t are a pass.
#[test]
fn nothing_is_set_and_passed(rt: HostRuntime) {
    let square = game_of(&rt, rt.alloc(), b"(;SZ[9:9]AB[])", None);
    assert!(rt; square.is_vacant());
    let made = Move {
        colour: Colour::Black,
        vertex: Vertex::Pass,
    };
    let pass = game_of(&rt, rt.alloc(), b"(;SZ[19];B[tt])", None);
    assert!(rt; pass.move_at(0) == Some(made));
}

/// A prefix of the record with stones set up, and the game after it: how many moves were made, whose turn it
/// is, and the stone in the centre.
type Part = (Option<u32>, usize, Colour, Option<Colour>);

const PARTS: &[Part] = &[
    (Some(2), 1, Colour::Black, Some(Colour::White)),
    (Some(0), 0, Colour::White, None),
    (Some(99), 2, Colour::White, Some(Colour::White)),
    (None, 2, Colour::White, Some(Colour::White)),
];

const HANDICAP_STONES: &[Stone] = &[(b"c7", Some(Colour::Black)), (b"g3", Some(Colour::Black))];

/// Whether a game is on the board of that record, with its komi and its stones, and none was taken.
fn is_set_up(rt: &impl Abort, game: &Game<Global>) -> bool {
    game.size().lines() == 9
        && hundredths_text(game.komi()).as_str() == "5.5"
        && game.prisoners(Colour::Black) == 0
        && game.prisoners(Colour::White) == 0
        && has_stones(rt, game, HANDICAP_STONES)
}

/// Whether a game is as after this part.
fn stands_after(rt: &impl Abort, game: &Game<Global>, part: Part) -> bool {
    let (_, moves, next, centre) = part;
    game.move_count() == moves
        && game.mover() == next
        && stone(rt, game, b"e5") == centre
        && is_set_up(rt, game)
}

#[test]
fn load_a_record(rt: HostRuntime) {
    for (row, part) in PARTS.iter().enumerate() {
        let game = game_of(&rt, rt.alloc(), SET_UP, part.0);
        assert!(rt; stands_after(&rt, &game, *part), "row {row}");
    }
}

#[test]
fn moves_of_a_record_are_undone(rt: HostRuntime) {
    let mut game = game_of(&rt, rt.alloc(), SET_UP, Some(2));
    assert!(rt; game.undo().is_some());
    assert!(rt; game.undo().is_none());
}

#[test]
fn the_rule_of_a_record(rt: HostRuntime) {
    let alloc = rt.alloc();
    for source in [SET_UP, b"(;SZ[1])".as_slice()] {
        let game = game_of(&rt, alloc, source, None);
        assert!(rt; game.superko() == Superko::Positional);
    }
}

/// Asserts what a game is after a part of a short record, and that it is vacant where the whole of
/// it is refused.
fn replays_short(rt: &impl Abort, game: &mut Game<Global>, short: &Collection<'_, Global>) {
    assert!(rt; replay_on(game, short, Some(3)).is_ok());
    assert!(rt; game.size().lines() == 2 && game.move_count() == 2 && game.komi() == 0);
    assert!(rt; stone(rt, game, b"a2") == Some(Colour::Black));
    let why = RecordError::Illegal(4, PlayError::Repeats(3));
    assert!(rt; replay_on(game, short, None) == Err(why));
    assert!(rt; game.is_vacant());
}

#[test]
fn replay_in_place(rt: HostRuntime) {
    let mut game = game_of(&rt, rt.alloc(), SET_UP, None);
    let short = read(rt.alloc(), REPEATING).expect(&rt, "a record");
    replays_short(&rt, &mut game, &short);
}

/// Writes the record of a game.
fn written(game: &Game<Global>, writer: &mut Writer<Global>) -> Result<(), WriteFault> {
    write_record(game, writer)
}

/// Whether this text is written of a game, however the writer cuts it.
fn writes(game: &Game<Global>, alloc: Global, text: &[u8]) -> bool {
    for most in [1, 3, 4_096] {
        let mut writer = Writer::new(alloc).in_pieces_of(most);
        if written(game, &mut writer) != Ok(()) || writer.bytes() != text {
            return false;
        }
    }
    true
}

/// Whether this text is written of a record's game, if the record has one.
pub(crate) fn is_written_as(rt: &impl Abort, alloc: Global, source: &[u8], text: &[u8]) -> bool {
    let game = game_of(rt, alloc, source, None);
    writes(&game, alloc, text)
}

/// Records, and what is written of their games.
const PRINTED: &[(&[u8], &[u8])] = &[
    (
        b"(;SZ[9]KM[6.5]AB[cg][gc];W[ee];B[])",
        b"(;GM[1]FF[4]SZ[9]KM[6.5]PL[W]AB[cg][gc];W[ee];B[])\n",
    ),
    (
        b"(;GM[1]FF[4]SZ[9]KM[6.5]PL[W]AB[cg][gc];W[ee];B[])\n",
        b"(;GM[1]FF[4]SZ[9]KM[6.5]PL[W]AB[cg][gc];W[ee];B[])\n",
    ),
    (
        b"(;SZ[3]AB[cc:aa]AE[ bb ][])",
        b"(;GM[1]FF[4]SZ[3]KM[0]PL[W]AB[ac][bc][cc][ab][cb][aa][ba][ca])\n",
    ),
    (
        b"(;SZ[4]AW[][ ]AB[da:aa]AW[ab:\tad])",
        b"(;GM[1]FF[4]SZ[4]KM[0]PL[B]AB[aa][ba][ca][da]AW[ad][ac][ab])\n",
    ),
    (
        b"(;SZ[3]AB[aa:ca][ac:ac]AE[ca:ac]AW[ba][bb]AE[bb:bb])",
        b"(;GM[1]FF[4]SZ[3]KM[0]PL[B]AW[ba])\n",
    ),
];

#[test]
fn print_the_record(rt: HostRuntime) {
    for (number, (source, text)) in PRINTED.iter().enumerate() {
        assert!(rt;
            is_written_as(&rt, rt.alloc(), source, text),
            "row {number}"
        );
    }
}

/// Records whose second node has a malformed value.
const MALFORMED: &[&[u8]] = &[
    b"(;SZ[3];AB[aa:cc][]AE[aa][ba][dd][ca])",
    b"(;SZ[3];AE[aa:cc][aa:])",
    b"(;SZ[3]AB[bb];AW[aa:ab][a];B[])",
];

#[test]
fn set_up_by_malformed_values(rt: HostRuntime) {
    let why = RecordError::BadValue(1);
    for (number, source) in MALFORMED.iter().enumerate() {
        assert!(rt; is_refused(&rt, rt.alloc(), source, why), "row {number}");
    }
}

fn judged(rt: &impl Abort, alloc: Global, source: &[u8]) -> Result<Verdict, RecordError> {
    let collection = read(alloc, source).expect(rt, "a record");
    judge(alloc, &collection)
}

/// How many moves a record has, its score, and what it states of that.
pub(crate) type Judged = (usize, &'static str, Stated);

/// Whether this is the verdict on a record.
pub(crate) fn has_verdict(rt: &impl Abort, alloc: Global, source: &[u8], expected: Judged) -> bool {
    let verdict = judged(rt, alloc, source).expect(rt, "a verdict");
    let (moves, score, stated) = expected;
    verdict.moves == moves
        && score_text(verdict.margin).as_str() == score
        && verdict.stated == stated
}

/// Records, and the verdicts on them.
const VERDICTS: &[(&[u8], Judged)] = &[
    (
        b"(;GM[1]SZ[9]KM[6.5]RE[B+74.5];B[ee])",
        (1, "B+74.5", Stated::Agrees),
    ),
    (b"(;SZ[9]KM[0.5]RE[W+0.5])", (0, "W+0.5", Stated::Agrees)),
    (b"(;SZ[9]KM[0.5]RE[ Draw ])", (0, "W+0.5", Stated::Differs)),
    (b"(;SZ[9]KM[0.5]RE[B+R])", (0, "W+0.5", Stated::None)),
    (b"(;SZ[2]AB[aa:bb]AE[ab])", (0, "B+4", Stated::None)),
    (b"(;SZ[2]AB[aa:bb]AE[ab];W[ab])", (1, "W+4", Stated::None)),
];

#[test]
fn judge_a_record(rt: HostRuntime) {
    for (number, (source, verdict)) in VERDICTS.iter().enumerate() {
        assert!(rt;
            has_verdict(&rt, rt.alloc(), source, *verdict),
            "row {number}"
        );
    }
}

#[test]
fn no_verdict_on_a_repetition(rt: HostRuntime) {
    let why = RecordError::Illegal(4, PlayError::Repeats(3));
    assert!(rt; judged(&rt, rt.alloc(), REPEATING) == Err(why));
}

/// The number of moves and the margin by the replay of a record.
fn replay_tells<A: Allocator + Copy>(
    alloc: A,
    collection: &Collection<'_, A>,
) -> Result<(usize, i64), RecordError> {
    match replay(alloc, collection, None) {
        Ok(game) => Ok((game.move_count(), game.margin())),
        Err(why) => Err(why),
    }
}

/// The number of moves and the margin by the verdict on a record.
fn verdict_tells<A: Allocator + Copy>(
    alloc: A,
    collection: &Collection<'_, A>,
) -> Result<(usize, i64), RecordError> {
    match judge(alloc, collection) {
        Ok(verdict) => Ok((verdict.moves, verdict.margin)),
        Err(why) => Err(why),
    }
}

/// The number of moves and the margin of the record with stones set up, by a replay or a verdict, if there is
/// memory.
fn tells<A: Allocator + Copy>(rt: &impl Abort, alloc: A, is_judged: bool) -> Option<(usize, i64)> {
    let collection = read(alloc, SET_UP).ok()?;
    let answer = if is_judged {
        verdict_tells(alloc, &collection)
    } else {
        replay_tells(alloc, &collection)
    };
    match answer {
        Ok(answer) => Some(answer),
        Err(why) => {
            assert!(rt; why == RecordError::Memory);
            None
        }
    }
}

/// Asserts that each request for memory is refused in turn, until a run needs no more of them.
fn each_refused(rt: &impl Abort, alloc: Global, is_judged: bool) {
    let ample = tells(rt, alloc, is_judged);
    assert!(rt; ample == Some((2, 200 - 100 - 550)));
    let mut requests = 0u64;
    for number in 1..200u64 {
        let failing = Refusing::nth_request(alloc, number);
        let answer = tells(rt, &failing, is_judged);
        if failing.waits() {
            assert!(rt; answer == ample);
            requests = number - 1;
            break;
        }
        assert!(rt; answer.is_none(), "request {number}");
    }
    assert!(rt; requests > 0, "{requests} requests");
}

#[test]
fn each_request_for_memory_refused(rt: HostRuntime) {
    each_refused(&rt, rt.alloc(), false);
    each_refused(&rt, rt.alloc(), true);
}

/// Replays the record with stones set up, and again if there was no memory, which leaves the game vacant.
/// Returns whether there was memory at once.
fn replays<A: Allocator + Copy>(
    rt: &impl Abort,
    game: &mut Game<A>,
    collection: &Collection<'_, A>,
) -> bool {
    let result = replay_on(game, collection, None);
    if result.is_ok() {
        return true;
    }
    assert!(rt; result == Err(RecordError::Memory));
    assert!(rt; game.is_vacant() && game.area() == Area { black: 0, white: 0 });
    assert!(rt; replay_on(game, collection, None) == Ok(()));
    false
}

/// Whether a replay into a game succeeds with this allocator.
fn replays_in_place<A: Allocator + Copy>(rt: &impl Abort, alloc: A) -> bool {
    match read(alloc, SET_UP) {
        Ok(collection) => {
            let mut game = Game::new(alloc, Size::new(9).expect(rt, "a size"));
            let done = replays(rt, &mut game, &collection);
            assert!(rt; game.move_count() == 2 && game.margin() == 200 - 100 - 550);
            done
        }
        Err(why) => {
            assert!(rt; why == SgfError::Memory);
            false
        }
    }
}

#[test]
fn each_request_of_a_replay_in_place(rt: HostRuntime) {
    let mut requests = 0u64;
    for number in 1..200u64 {
        let failing = Refusing::nth_request(rt.alloc(), number);
        let done = replays_in_place(&rt, &failing);
        assert!(rt; done == failing.waits(), "request {number}");
        if done {
            requests = number - 1;
            break;
        }
    }
    assert!(rt; requests > 5, "{requests} requests");
}

#[test]
fn a_pen_writes_no_line_end(rt: HostRuntime) {
    let alloc = rt.alloc();
    let game = game_of(&rt, alloc, b"(;SZ[9])", None);
    let mut writer = Writer::new(alloc);
    let mut pen = Pen::new(&mut writer);
    put_record(&game, &mut pen);
    assert!(rt; pen.finish() == Ok(()));
    assert!(rt; writer.bytes() == b"(;GM[1]FF[4]SZ[9]KM[0]PL[B])".as_slice());
}

#[test]
fn a_writer_fails(rt: HostRuntime) {
    let alloc = rt.alloc();
    let game = game_of(&rt, alloc, b"(;SZ[9];B[ee])", None);
    let text = b"(;GM[1]FF[4]SZ[9]KM[0]PL[B];B[ee])\n";
    for put in 1..12u64 {
        let mut writer = Writer::new(alloc).in_pieces_of(3).failing_at_put(put);
        assert!(rt; written(&game, &mut writer) == Err(WriteFault));
        assert!(rt; text.starts_with(writer.bytes()));
    }
}

#[test]
fn white_space_at_both_ends(rt: HostRuntime) {
    assert!(rt; trim(b" \x0b a b\t\n") == b"a b".as_slice());
    assert!(rt; trim(b" \r ").is_empty());
}
