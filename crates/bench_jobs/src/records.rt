//! Records as archives have them: games with comments now and then, and problems with stones that
//! are set up; variations in half of them.
use crate::drawn::{Drawn, any_size, colour_of};
use crate::random::Random;
use crate::texts::{put_comment, put_move, put_number, put_value};
use go_board::{Colour, Point, Size};
use goref::{Fetched, Shelf};
use std::alloc::{AllocError, Allocator};

/// Appends a record.
pub fn put_record<A: Allocator + Copy>(
    text: &mut Vec<u8, A>,
    random: &mut Random,
) -> Result<(), AllocError> {
    let size = any_size(random);
    let mut drawn = Drawn::new(size);
    put_root(text, size, random)?;
    let moves = if random.one_in(2) {
        put_setup(text, &mut drawn, random)?;
        random.below(24)
    } else {
        put_players(text, random)?;
        20 + random.below(12 * u32::from(size.lines()))
    };
    put_moves(text, &mut drawn, moves, random)?;
    text.extend_from_slice(b"\n")
}

fn put_root<A: Allocator + Copy>(
    text: &mut Vec<u8, A>,
    size: Size,
    random: &mut Random,
) -> Result<(), AllocError> {
    text.extend_from_slice(b"(;GM[1]FF[4]CA[UTF-8]SZ[")?;
    put_number(text, u32::from(size.lines()))?;
    text.extend_from_slice(b"]\nKM[")?;
    put_number(text, random.below(9))?;
    text.extend_from_slice(b".5]")
}

fn put_players<A: Allocator + Copy>(
    text: &mut Vec<u8, A>,
    random: &mut Random,
) -> Result<(), AllocError> {
    text.extend_from_slice(b"PB[Player ")?;
    put_number(text, random.below(1_000))?;
    text.extend_from_slice(b"]BR[5 dan]\nPW[Player ")?;
    put_number(text, random.below(1_000))?;
    text.extend_from_slice(b"]WR[1 kyu]\nDT[1998-07-12]RE[W+")?;
    put_number(text, random.below(30))?;
    text.extend_from_slice(b".5]\n")
}

/// Stones of a problem: some 25 on a part of the board, and none on points of which each other one
/// has one beside it, so that no chain lacks a liberty.
fn put_setup<A: Allocator + Copy>(
    text: &mut Vec<u8, A>,
    drawn: &mut Drawn,
    random: &mut Random,
) -> Result<(), AllocError> {
    put_stones(text, b"AB", drawn, Colour::Black, random)?;
    put_stones(text, b"\nAW", drawn, Colour::White, random)?;
    if random.one_in(8) {
        text.extend_from_slice(b"\nAE[aa:ba]")?;
    }
    put_comment(text, random)
}

fn put_stones<A: Allocator + Copy>(
    text: &mut Vec<u8, A>,
    name: &[u8],
    drawn: &mut Drawn,
    colour: Colour,
    random: &mut Random,
) -> Result<(), AllocError> {
    text.extend_from_slice(name)?;
    put_value(text, Point { col: 1, row: 1 }, drawn.size())?;
    for _ in 0..8 + random.below(14) {
        put_stone(text, drawn, colour, random)?;
    }
    Ok(())
}

fn put_stone<A: Allocator + Copy>(
    text: &mut Vec<u8, A>,
    drawn: &mut Drawn,
    colour: Colour,
    random: &mut Random,
) -> Result<(), AllocError> {
    let at = Point {
        col: 1 + random.below(7) as u8,
        row: 1 + random.below(7) as u8,
    };
    let is_kept_empty = (at.col + 2 * at.row) % 5 == 0;
    if !is_kept_empty && drawn.is_free(at) {
        drawn.put(at, colour);
        put_value(text, at, drawn.size())?;
    }
    Ok(())
}

/// Moves, a number of them on the main line, with variations where the record has any, and all that
/// closes the trees.
fn put_moves<A: Allocator + Copy>(
    text: &mut Vec<u8, A>,
    drawn: &mut Drawn,
    moves: u32,
    random: &mut Random,
) -> Result<(), AllocError> {
    let branches = if random.one_in(2) {
        1 + random.below(6)
    } else {
        0
    };
    let mut open = 0u32;
    for number in 0..moves {
        if open < branches && random.one_in(8) {
            text.push(b'(')?;
            open = open.wrapping_add(1);
        }
        put_turn(text, drawn, number, random)?;
    }
    for number in 0..open {
        text.extend_from_slice(b")\n(")?;
        put_branch(text, drawn, number, random)?;
        text.push(b')')?;
    }
    text.push(b')')?;
    Ok(())
}

fn put_turn<A: Allocator + Copy>(
    text: &mut Vec<u8, A>,
    drawn: &mut Drawn,
    number: u32,
    random: &mut Random,
) -> Result<(), AllocError> {
    let colour = colour_of(number);
    match drawn.draw(colour, random) {
        Some(at) => put_move(text, colour, at, drawn.size())?,
        None => text.extend_from_slice(&[b';', colour.letter(), b'[', b']'])?,
    }
    if random.one_in(20) {
        put_comment(text, random)?;
    }
    if random.one_in(10) {
        text.push(b'\n')?;
    }
    Ok(())
}

/// A variation of a few moves and a comment.
fn put_branch<A: Allocator + Copy>(
    text: &mut Vec<u8, A>,
    drawn: &mut Drawn,
    first: u32,
    random: &mut Random,
) -> Result<(), AllocError> {
    text.push(b';')?;
    put_comment(text, random)?;
    for number in 0..1 + random.below(9) {
        put_turn(text, drawn, first.wrapping_add(number), random)?;
    }
    Ok(())
}

/// A shelf with another record for each name.
#[derive(Drop)]
pub struct Archive<A: Allocator> {
    alloc: A,
    random: Random,
}

impl<A: Allocator> Archive<A> {
    pub fn new(alloc: A, random: Random) -> Archive<A> {
        Archive { alloc, random }
    }
}

impl<A: Allocator + Copy> Shelf<A> for Archive<A> {
    ghost use Rattle.std.specs.Prelude.{None};

    ghost given = { λ _. None };

    fn fetch(&mut self, _: &[u8]) -> Fetched<A> {
        let mut text = Vec::new(self.alloc);
        match put_record(&mut text, &mut self.random) {
            Ok(()) => Fetched::Bytes(text),
            Err(_) => Fetched::Memory,
        }
    }
}
