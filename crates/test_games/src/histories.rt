//! What a history finds: what was noted, and not what was taken back. Some tests note more keys than are kept
//! by their hashes, and some measure the memory that keys take.
use go_board::{Colour, Grid, PACK_BYTES, Packed, Point, Size};
use go_history::{History, Key};
use std::alloc::{AllocError, Allocator, Global};
use std::process::Abort;
use std::test::Fail;
use test_allocator::Refusing;

/// The pack of a board with one stone, or of one with none where no point has this number.
fn pack_with(rt: &impl Abort, number: u16) -> Packed {
    let size = Size::new(19).expect(rt, "a size");
    let mut grid = Grid::new(size);
    if let Some(point) = Point::nth(size, number) {
        grid.set(point, Some(Colour::White));
    }
    grid.pack()
}

/// Its key, whoever is to move.
fn key_with(rt: &impl Abort, number: u16) -> Key {
    key_before(rt, number, None)
}

/// Its key where this colour is to move.
fn key_before(rt: &impl Abort, number: u16, mover: Option<Colour>) -> Key {
    Key {
        pack: pack_with(rt, number),
        mover,
    }
}

const NO_STONE: u16 = 361;

/// A history of `moves` moves on the empty board. Each stone is taken away by the next.
fn history_of(rt: &impl Abort, alloc: Global, moves: u16) -> Result<History<Global>, AllocError> {
    let mut history = History::new(alloc, key_with(rt, NO_STONE));
    for number in 0..moves {
        history.note(&key_with(rt, number), usize::from(number) + 1)?;
    }
    Ok(history)
}

/// A note: the stone and the mover of its key, its number, and the number that is found.
type Note = (u16, Option<Colour>, usize, Option<usize>);

/// Makes each note, and asserts what is found.
fn notes(rt: &impl Abort, history: &mut History<Global>, notes: &[Note]) -> Result<(), AllocError> {
    for (stone, mover, number, stood) in notes {
        let found = history.note(&key_before(rt, *stone, *mover), *number)?;
        assert!(rt; found == *stood, "stone {stone}, number {number}");
    }
    Ok(())
}

/// Asserts that the first 300 stones are found, and the others not.
fn first_are_found(rt: &impl Abort, history: &mut History<Global>) -> Result<(), Fail> {
    assert!(rt; history.note(&key_with(rt, NO_STONE), 1)? == Some(0));
    // Asked once more, since to ask is to note.
    for number in (0..300u16).chain(0..300u16) {
        let found = history.note(&key_with(rt, number), 1)?;
        assert!(rt; found == Some(usize::from(number) + 1), "stone {number}");
    }
    for number in 300..NO_STONE {
        assert!(rt;
            history.note(&key_with(rt, number), 1)?.is_none(),
            "stone {number}"
        );
    }
    Ok(())
}

#[test]
fn what_is_noted_is_found(rt: HostRuntime) -> Result<(), Fail> {
    first_are_found(&rt, &mut history_of(&rt, rt.alloc(), 300)?)
}

/// Takes back the second half of 300 stones, and asserts that the first alone is found.
fn second_half_is_forgotten(rt: &impl Abort, history: &mut History<Global>) -> Result<(), Fail> {
    for number in 150..300u16 {
        history.forget(&key_with(rt, 449 - number));
    }
    history.forget(&key_with(rt, 320));
    history.forget(&key_with(rt, NO_STONE));
    assert!(rt; history.note(&key_with(rt, NO_STONE), 1)? == Some(0));
    for number in 0..300u16 {
        let found = history.note(&key_with(rt, number), 1)?.is_some();
        assert!(rt; found == (number < 150), "stone {number}");
    }
    Ok(())
}

#[test]
fn what_is_taken_back_is_not_found(rt: HostRuntime) -> Result<(), Fail> {
    second_half_is_forgotten(&rt, &mut history_of(&rt, rt.alloc(), 300)?)
}

/// Begins anew, and asserts that the start alone is found.
fn restarts(rt: &impl Abort, history: &mut History<Global>) -> Result<(), Fail> {
    history.restart(key_with(rt, 7));
    for number in 0..NO_STONE {
        let found = history.note(&key_with(rt, number), 1)?.is_some();
        assert!(rt; found == (number == 7), "stone {number}");
    }
    assert!(rt; history.note(&key_with(rt, NO_STONE), 1)?.is_none());
    assert!(rt; history.note(&key_with(rt, NO_STONE), 2)? == Some(1));
    Ok(())
}

#[test]
fn begun_anew_the_start_alone_is_found(rt: HostRuntime) -> Result<(), Fail> {
    restarts(&rt, &mut history_of(&rt, rt.alloc(), 40)?)
}

/// Numbers that other keys have.
const OTHER_NUMBERS: &[(u16, usize)] = &[(3, 0), (3, 3), (3, 5), (3, 9), (NO_STONE, 0)];

const STILL_FOUND: &[Note] = &[(3, None, 10, Some(4)), (NO_STONE, None, 10, Some(0))];

#[test]
fn another_number_is_not_taken_back(rt: HostRuntime) -> Result<(), Fail> {
    let mut history = history_of(&rt, rt.alloc(), 9)?;
    for (stone, number) in OTHER_NUMBERS {
        history.forget_at(&key_with(&rt, *stone), *number);
    }
    notes(&rt, &mut history, STILL_FOUND)?;
    history.forget_at(&key_with(&rt, 3), 4);
    notes(&rt, &mut history, &[(3, None, 10, None)])?;
    Ok(())
}

/// After a start with Black to move: the same stone with each mover.
const EACH_MOVER: &[Note] = &[
    (5, Some(Colour::White), 1, None),
    (5, None, 2, None),
    (5, Some(Colour::Black), 3, Some(0)),
    (5, Some(Colour::White), 3, Some(1)),
    (5, None, 3, Some(2)),
];

const WHITE_FORGOTTEN: &[Note] = &[
    (5, Some(Colour::Black), 3, Some(0)),
    (5, None, 3, Some(2)),
    (5, Some(Colour::White), 3, None),
];

#[test]
fn movers_are_told_apart(rt: HostRuntime) -> Result<(), Fail> {
    let mut history = History::new(rt.alloc(), key_before(&rt, 5, Some(Colour::Black)));
    notes(&rt, &mut history, EACH_MOVER)?;
    history.forget(&key_before(&rt, 5, Some(Colour::White)));
    notes(&rt, &mut history, WHITE_FORGOTTEN)?;
    Ok(())
}

/// More keys than are kept by their hashes.
const MANY: u16 = 5_000;

/// Puts a black stone on the point with this number.
fn put_black(rt: &impl Abort, grid: &mut Grid, number: u16) {
    let point = Point::nth(grid.size(), number).expect(rt, "a point");
    grid.set(point, Some(Colour::Black));
}

/// The key of one of many boards with two stones. Every other one has 25 lines, and a stone where no
/// board of 19 lines has a point.
fn key_of_two(rt: &impl Abort, number: u16) -> Key {
    let (lines, first) = if number % 2 == 0 { (19, 0) } else { (25, 364) };
    let mut grid = Grid::new(Size::new(lines).expect(rt, "a size"));
    put_black(rt, &mut grid, first + number / 300);
    put_black(rt, &mut grid, 20 + number % 300);
    Key {
        pack: grid.pack(),
        mover: None,
    }
}

/// Notes each of the many with the number after its own. Asserts whether it is found, by the remainder of its
/// own number divided by 3.
fn note_many(
    rt: &impl Abort,
    history: &mut History<Global>,
    is_found: [bool; 3],
) -> Result<(), AllocError> {
    for number in 0..MANY {
        let found = history.note(&key_of_two(rt, number), usize::from(number) + 1)?;
        let stood = if is_found[usize::from(number % 3)] {
            Some(usize::from(number) + 1)
        } else {
            None
        };
        assert!(rt; found == stood, "board {number}");
    }
    Ok(())
}

/// Takes every third of the many out, and of the others none, since each has another number.
fn forget_thirds(rt: &impl Abort, history: &mut History<Global>) {
    for number in 0..MANY {
        let key = key_of_two(rt, number);
        if number % 3 == 0 {
            history.forget(&key);
        } else {
            history.forget_at(&key, usize::from(number));
        }
    }
}

/// Notes the many, takes thirds out and begins anew, and asserts what is found each time.
fn note_and_take_back(rt: &impl Abort, history: &mut History<Global>) -> Result<(), Fail> {
    // None is found, and then each.
    note_many(rt, history, [false; 3])?;
    note_many(rt, history, [true; 3])?;
    forget_thirds(rt, history);
    note_many(rt, history, [false, true, true])?;
    note_many(rt, history, [true; 3])?;
    history.restart(key_with(rt, NO_STONE));
    note_many(rt, history, [false; 3])?;
    Ok(())
}

#[test]
fn many_keys_are_found_and_taken_back(rt: HostRuntime) -> Result<(), Fail> {
    let mut history = History::new(rt.alloc(), key_with(&rt, NO_STONE));
    note_and_take_back(&rt, &mut history)
}

/// How many bytes a history of the many keys may ask for in all.
const HISTORY: u64 = 3_000_000;

/// Of the many, those that are kept, and then those that are noted and taken back, one lot after the
/// other: of each lot the last are in the tree.
const KEPT: u16 = 4_000;

const FIRST_LOT: (u16, u16) = (4_000, 4_200);

const LATER_LOTS: &[(u16, u16)] = &[
    (4_200, 4_400),
    (4_400, 4_600),
    (4_600, 4_800),
    (4_800, 5_000),
];

/// Notes the keys from one of the many to another, none of which is found.
fn note_new<A: Allocator + Copy>(
    rt: &impl Abort,
    history: &mut History<A>,
    from: u16,
    to: u16,
) -> Result<(), AllocError> {
    for number in from..to {
        let found = history.note(&key_of_two(rt, number), usize::from(number) + 1)?;
        assert!(rt; found.is_none(), "board {number}");
    }
    Ok(())
}

/// Notes a lot, and takes it out in the opposite order.
fn note_and_forget<A: Allocator + Copy>(
    rt: &impl Abort,
    history: &mut History<A>,
    lot: (u16, u16),
) -> Result<(), AllocError> {
    note_new(rt, history, lot.0, lot.1)?;
    for number in (lot.0..lot.1).rev() {
        history.forget(&key_of_two(rt, number));
    }
    Ok(())
}

#[test]
fn keys_that_are_taken_back_leave_their_room(rt: HostRuntime) -> Result<(), Fail> {
    let limited = Refusing::beyond_bytes(rt.alloc(), HISTORY);
    let mut history = History::new(&limited, key_with(&rt, NO_STONE));
    note_new(&rt, &mut history, 0, KEPT)?;
    note_and_forget(&rt, &mut history, FIRST_LOT)?;
    let left = limited.left();
    for lot in LATER_LOTS {
        note_and_forget(&rt, &mut history, *lot)?;
        assert_eq!(rt; limited.left(), left, "boards from {}", lot.0);
    }
    Ok(())
}

/// The key of a pack with these first bytes, and with this last one.
fn key_of_bytes(first: u16, last: u8) -> Key {
    let mut pack = Packed::of_front(&first.to_le_bytes());
    pack.set(PACK_BYTES - 1, last);
    Key { pack, mover: None }
}

/// How many bytes the many keys take whose packs have this last byte.
fn taken_by_many(rt: &impl Abort, alloc: Global, last: u8) -> Result<u64, AllocError> {
    let limited = Refusing::beyond_bytes(alloc, HISTORY);
    let mut history = History::new(&limited, key_with(rt, NO_STONE));
    for number in 1..MANY + 1 {
        let found = history.note(&key_of_bytes(number, last), usize::from(number))?;
        assert!(rt; found.is_none(), "pack {number}");
    }
    Ok(HISTORY.saturating_sub(limited.left()))
}

/// How many bytes fewer the many keys take if their packs have no byte after those of 19 lines: 60 for each
/// key after the first 4,096.
const FEWER: u64 = 60 * 904;

#[test]
fn keys_of_usual_boards_take_less_room(rt: HostRuntime) -> Result<(), Fail> {
    let usual = taken_by_many(&rt, rt.alloc(), 0)?;
    let large = taken_by_many(&rt, rt.alloc(), 1)?;
    assert!(rt; usual < large.saturating_sub(FEWER), "{usual} and {large}");
    Ok(())
}
