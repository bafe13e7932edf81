//! Tests of the calls without text: a status and what it says for each step of a game on three lines.
use crate::handle::Handle;
use crate::{
    goref_area, goref_board, goref_choose, goref_close, goref_is_legal, goref_legal, goref_open,
    goref_play, goref_score, goref_send, goref_set_komi, goref_set_superko, goref_undo,
};

/// A call, and what is to come of it: the status last.
enum Step {
    /// Colour, point, and the bytes of what is said: moves before it stood, captured, lost.
    Play(u8, u16, [u8; 16], u8),
    /// How many moves.
    Undo(usize, u8),
    /// Colour and point.
    Legal(u8, u16, u8),
    /// The margin.
    Score(i64, u8),
    /// The points of Black and of White.
    Area(u16, u16),
    /// The colours of the points.
    Board([u8; 9]),
    /// A colour, and the marks of the points.
    Marks(u8, [u8; 9]),
    /// A colour, and the point that is chosen.
    Choose(u8, u16, u8),
    /// The komi.
    Komi(i64, u8),
    /// The superko rule.
    Rule(u8, u8),
}

/// Nothing is said.
const SILENT: [u8; 16] = [
    255, 255, 255, 255, 255, 255, 255, 255, 255, 255, 255, 255, 0, 0, 0, 0,
];

/// No position stood before, and so many stones of the opponent were taken, and none of its own.
const NONE: [u8; 16] = [
    255, 255, 255, 255, 255, 255, 255, 255, 0, 0, 0, 0, 0, 0, 0, 0,
];

const ONE: [u8; 16] = [
    255, 255, 255, 255, 255, 255, 255, 255, 1, 0, 0, 0, 0, 0, 0, 0,
];

/// The position stood after three moves.
const THREE: [u8; 16] = [3, 0, 0, 0, 0, 0, 0, 0, 255, 255, 255, 255, 0, 0, 0, 0];

/// White takes the stone at A1, where another of Black's would take itself and leave the position as it is.
const STEPS: &[Step] = &[
    Step::Score(0, 0),
    Step::Play(1, 0, NONE, 0),
    Step::Score(900, 0),
    Step::Legal(2, 0, 5),
    Step::Play(2, 0, SILENT, 5),
    Step::Play(2, 1, NONE, 0),
    Step::Legal(2, 3, 0),
    Step::Play(2, 3, ONE, 0),
    Step::Legal(1, 0, 6),
    Step::Play(1, 0, THREE, 6),
    Step::Play(1, 9, SILENT, 8),
    Step::Legal(1, 65_534, 8),
    Step::Play(0, 0, SILENT, 2),
    Step::Legal(3, 0, 2),
    Step::Play(1, 65_535, NONE, 0),
    Step::Legal(1, 65_535, 0),
    Step::Score(-900, 0),
    Step::Area(0, 9),
    Step::Board([0, 2, 0, 2, 0, 0, 0, 0, 0]),
    Step::Marks(1, [0, 0, 1, 0, 1, 1, 1, 1, 1]),
    Step::Marks(2, [1, 0, 1, 0, 1, 1, 1, 1, 1]),
    Step::Komi(-99_999_999_999, 0),
    Step::Score(99_999_999_099, 0),
    Step::Komi(99_999_999_999, 0),
    Step::Komi(100_000_000_000, 2),
    Step::Komi(-100_000_000_000, 2),
    Step::Komi(i64::MIN, 2),
    Step::Score(-100_000_000_899, 0),
    Step::Komi(0, 0),
    Step::Rule(0, 2),
    Step::Choose(2, 65_535, 0),
    Step::Choose(0, 7, 2),
    Step::Undo(1, 0),
    Step::Undo(4, 1),
    Step::Score(-900, 0),
    Step::Undo(0, 0),
    Step::Undo(3, 0),
    Step::Score(0, 0),
    Step::Undo(1, 1),
    Step::Area(0, 0),
    Step::Board([0; 9]),
    Step::Choose(1, 4, 0),
    Step::Rule(2, 2),
    Step::Rule(1, 0),
    // By the situational rule Black may play at A1, and take the stone itself: the colours stay, but White moves.
    Step::Play(2, 1, NONE, 0),
    Step::Play(2, 3, NONE, 0),
    Step::Legal(2, 0, 0),
    Step::Legal(1, 0, 0),
];

/// Whether a step comes to what it is to come to.
fn is_so(rt: &HostRuntime, handle: &mut Handle, step: &Step) -> bool {
    match step {
        Step::Play(colour, point, said, status) => {
            let mut room = [7; 16];
            goref_play(rt.alloc(), handle, *colour, *point, &mut room) == *status && room == *said
        }
        Step::Undo(count, status) => goref_undo(rt.alloc(), handle, *count) == *status,
        Step::Legal(colour, point, status) => {
            goref_is_legal(rt.alloc(), handle, *colour, *point) == *status
        }
        Step::Score(margin, status) => {
            let mut found = 7;
            goref_score(rt.alloc(), handle, &mut found) == *status && found == *margin
        }
        Step::Area(black, white) => {
            let mut found = (7, 7);
            let end = goref_area(rt.alloc(), handle, &mut found.0, &mut found.1);
            end == 0 && found == (*black, *white)
        }
        Step::Board(colours) => {
            let mut room = [7; 9];
            let mut length = 7;
            let end = goref_board(rt.alloc(), handle, &mut room, &mut length);
            end == 0 && length == 9 && room == *colours
        }
        Step::Marks(colour, marks) => {
            let mut room = [7; 9];
            let mut length = 7;
            let end = goref_legal(rt.alloc(), handle, *colour, &mut room, &mut length);
            end == 0 && length == 9 && room == *marks
        }
        Step::Choose(colour, point, status) => {
            let mut found = 7;
            goref_choose(rt.alloc(), handle, *colour, &mut found) == *status && found == *point
        }
        Step::Komi(hundredths, status) => {
            goref_set_komi(rt.alloc(), handle, *hundredths) == *status
        }
        Step::Rule(superko, status) => goref_set_superko(rt.alloc(), handle, *superko) == *status,
    }
}

#[test]
fn a_game_goes_by_calls(rt: HostRuntime) {
    let mut handle = Handle::shut(rt.alloc());
    assert!(rt; goref_open(rt.alloc(), 3, &mut handle) == 0);
    for (number, step) in STEPS.iter().enumerate() {
        assert!(rt; is_so(&rt, &mut handle, step), "step {number}");
    }
    goref_close(rt.alloc(), &mut handle);
}

#[test]
fn lines_and_calls_are_of_one_game(rt: HostRuntime) {
    let mut handle = Handle::shut(rt.alloc());
    let mut length = 7;
    assert!(rt; goref_open(rt.alloc(), 3, &mut handle) == 0);
    assert!(rt; goref_send(rt.alloc(), &mut handle, b"play b a1\nquit\n", &mut length) == 1);
    // No call ends by `quit`.
    assert!(rt; goref_play(rt.alloc(), &mut handle, 2, 0, &mut []) == 5);
    assert!(rt; goref_undo(rt.alloc(), &mut handle, 1) == 0);
    assert!(rt; goref_undo(rt.alloc(), &mut handle, 1) == 1);
}

#[test]
fn a_call_on_no_session_is_told(rt: HostRuntime) {
    let mut handle = Handle::shut(rt.alloc());
    let mut room = [7; 16];
    let mut margin = 7;
    assert!(rt; goref_play(rt.alloc(), &mut handle, 1, 0, &mut room) == 4 && room == SILENT);
    assert!(rt; goref_undo(rt.alloc(), &mut handle, 0) == 4);
    assert!(rt; goref_is_legal(rt.alloc(), &mut handle, 1, 0) == 4);
    assert!(rt; goref_score(rt.alloc(), &mut handle, &mut margin) == 4 && margin == 7);
    let mut found = (7, 7);
    let mut length = 7;
    assert!(rt; goref_area(rt.alloc(), &mut handle, &mut found.0, &mut found.1) == 4);
    assert!(rt; goref_choose(rt.alloc(), &mut handle, 1, &mut found.0) == 4 && found == (7, 7));
    assert!(rt; goref_board(rt.alloc(), &mut handle, &mut room, &mut length) == 4 && length == 0);
    assert!(rt; goref_legal(rt.alloc(), &mut handle, 1, &mut room, &mut length) == 4);
    assert!(rt; length == 0 && room == SILENT);
    assert!(rt; goref_set_komi(rt.alloc(), &mut handle, 0) == 4);
    assert!(rt; goref_set_superko(rt.alloc(), &mut handle, 0) == 4);
}

#[test]
fn a_board_is_cut_where_there_is_no_room(rt: HostRuntime) {
    let mut handle = Handle::shut(rt.alloc());
    let mut room = [7; 3];
    let mut length = 7;
    assert!(rt; goref_open(rt.alloc(), 25, &mut handle) == 0);
    assert!(rt; goref_play(rt.alloc(), &mut handle, 1, 1, &mut []) == 0);
    assert!(rt; goref_board(rt.alloc(), &mut handle, &mut room, &mut length) == 0);
    assert!(rt; length == 625 && room == [0, 1, 0]);
    assert!(rt; goref_legal(rt.alloc(), &mut handle, 2, &mut room, &mut length) == 0);
    assert!(rt; length == 625 && room == [1, 0, 1]);
    assert!(rt; goref_legal(rt.alloc(), &mut handle, 0, &mut room, &mut length) == 2);
    assert!(rt; length == 0 && room == [1, 0, 1]);
}
