//! Pieces of lines and records.
use crate::random::Random;
use go_board::{Colour, Point, Size, Vertex, vertex_text};
use itoa::Buffer;
use std::alloc::{AllocError, Allocator};

/// Appends a number in digits.
pub fn put_number<A: Allocator + Copy>(
    text: &mut Vec<u8, A>,
    number: u32,
) -> Result<(), AllocError> {
    text.extend_from_slice(Buffer::new().format(number).as_bytes())
}

/// Appends a play as a line of the protocol has it.
pub fn put_play<A: Allocator + Copy>(
    text: &mut Vec<u8, A>,
    colour: Colour,
    at: Point,
) -> Result<(), AllocError> {
    text.extend_from_slice(b"play ")?;
    text.push(colour.letter())?;
    text.push(b' ')?;
    text.extend_from_slice(vertex_text(Vertex::At(at)).as_bytes())
}

/// Appends a point as a value of a record has it, with its brackets.
pub fn put_value<A: Allocator + Copy>(
    text: &mut Vec<u8, A>,
    at: Point,
    size: Size,
) -> Result<(), AllocError> {
    let col = b'a'.wrapping_add(at.col);
    let row = b'a'.wrapping_add(size.lines().wrapping_sub(1).wrapping_sub(at.row));
    text.extend_from_slice(&[b'[', col, row, b']'])
}

/// Appends a node with a move.
pub fn put_move<A: Allocator + Copy>(
    text: &mut Vec<u8, A>,
    colour: Colour,
    at: Point,
    size: Size,
) -> Result<(), AllocError> {
    text.extend_from_slice(&[b';', colour.letter()])?;
    put_value(text, at, size)
}

/// Words of which comments are made.
const WORDS: &[&[u8]] = &[
    b"Black", b"White", b"hane", b"the", b"corner", b"is", b"now", b"alive,", b"so", b"this",
    b"move", b"was", b"too", b"slow.", b"A", b"better", b"way", b"[see\\]", b"to", b"play\n",
];

/// Appends a comment.
pub fn put_comment<A: Allocator + Copy>(
    text: &mut Vec<u8, A>,
    random: &mut Random,
) -> Result<(), AllocError> {
    text.extend_from_slice(b"C[")?;
    for _ in 0..random.below(24) {
        if let Some(word) = WORDS.get(random.below(20) as usize) {
            text.extend_from_slice(word)?;
        }
        text.push(b' ')?;
    }
    text.push(b']')?;
    Ok(())
}
