//! Moves and vertices. A vertex is read from a word of the Go Text Protocol, and written as one.
ghost use Rattle.std.specs.Prelude.{◌≡◌, ◌<◌, ◌↔◌, ◌∷◌, ◌+◌, ◌==◌, [], Some, None, Err, IfOk, IfSome, decimal, option_map, position};
ghost use Rattle.go_board.specs.Vertices.{IsOnBoard, SpellsOffBoard, column_letters, column_of, letter_of_column, point_of, row_numbered, row_of, vertex_of, vertex_on, vertex_word};

use crate::{Colour, Point, Size};
use arrayvec::ArrayString;
use itoa::Buffer;
use thiserror::Error;

/// The letters that name the columns from the left: the alphabet without I.
pub const COLUMN_LETTERS: &[u8] = b"ABCDEFGHJKLMNOPQRSTUVWXYZ";

/// The greatest number of a row that a vertex can name.
pub const MAX_ROW_NUMBER: u8 = 25;

/// Where a stone is played, or a pass.
#[derive(Clone, Copy, Debug, PartialEq, Eq, Hash)]
pub enum Vertex {
    Pass,
    At(Point),
}

/// What a player of one colour does in a turn.
#[derive(Clone, Copy, Debug, PartialEq, Eq, Hash)]
pub struct Move {
    pub colour: Colour,
    pub vertex: Vertex,
}

/// Why a word is no vertex of a board.
#[derive(Clone, Copy, Debug, PartialEq, Eq, Error)]
pub enum VertexError {
    /// The word spells no vertex of any board.
    #[error("not a vertex")]
    Malformed,
    /// The word spells a point that is past the board's edge.
    #[error("off the board")]
    OffBoard,
}

/// The vertex that a word spells on a board of this size: `pass`, or the letter of a column and the number of
/// a row from 1 in one or two digits. Case doesn't count (Go Text Protocol version 2).
pub fn read_vertex(word: &[u8], size: Size) -> Result<Vertex, VertexError>
    ensures value { result ≡ vertex_on size (vertex_of word.now) }
    ensures malformed { (result ≡ Err VertexError.Malformed) ↔ (vertex_of word.now ≡ None) }
    ensures off_board { (result ≡ Err VertexError.OffBoard)
        ↔ SpellsOffBoard size (vertex_of word.now) }
    ensures ok { IfOk result (λ v. (vertex_of word.now ≡ Some v) × IsOnBoard size v) }
{
    read_spelled(word, size)
}

fn read_spelled(word: &[u8], size: Size) -> Result<Vertex, VertexError>
    ensures { result ≡ vertex_on size (vertex_of word.now) }
{
    if word.eq_ignore_ascii_case(b"pass".as_slice()) {
        return Ok(Vertex::Pass);
    }
    match read_point(word) {
        Some(point) => on_board(point, size),
        None => Err(VertexError::Malformed),
    }
}

fn on_board(point: Point, size: Size) -> Result<Vertex, VertexError>
    ensures { result ≡ vertex_on size (Some (Vertex.At point)) }
{
    if point.on(size) {
        Ok(Vertex::At(point))
    } else {
        Err(VertexError::OffBoard)
    }
}

/// The point that a letter and a row name, on a board of 25 lines.
fn read_point(word: &[u8]) -> Option<Point>
    ensures { option_map (λ p. Vertex.At p) result ≡ point_of word.now }
{
    let (letter, digits) = word.split_first()?;
    let col = read_column(*letter)?;
    let row = read_row(digits)?;
    Some(Point { col, row })
}

/// The column of a letter in either case.
fn read_column(letter: u8) -> Option<u8>
    ensures { result ≡ column_of letter }
{
    match place_of(letter.to_ascii_uppercase()) {
        Some(col) => Some(col as u8),
        None => None,
    }
}

/// The place of an upper-case letter among those of the columns.
fn place_of(letter: u8) -> Option<usize>
    ensures value { result ≡ position (λ b. b == letter) column_letters }
    ensures bound { IfSome result (λ place. place < 25) }
{
    COLUMN_LETTERS.iter().position(|b| *b == letter)
}

fn read_row(digits: &[u8]) -> Option<u8>
    ensures { result ≡ row_of digits.now }
{
    match digits {
        [ones] if ones.is_ascii_digit() => row_numbered(*ones - b'0'),
        [tens, ones] if tens.is_ascii_digit() && ones.is_ascii_digit() => {
            row_numbered((*tens - b'0') * 10 + (*ones - b'0'))
        }
        _ => None,
    }
}

fn row_numbered(number: u8) -> Option<u8>
    ensures { result ≡ row_numbered number }
{
    if 1 <= number && number <= MAX_ROW_NUMBER {
        Some(number - 1)
    } else {
        None
    }
}

/// The upper-case letter and the row number of a point, or `pass`. A column past the last letter
/// has a question mark: no board has one.
pub fn vertex_text(vertex: Vertex) -> ArrayString<4>
    ensures text { result.bytes ≡ vertex_word vertex }
    ensures reads_back { IsOnBoard MAX_ROW_NUMBER vertex → vertex_of result.bytes ≡ Some vertex }
{
    let mut text = ArrayString::new();
    match vertex {
        Vertex::Pass => text.push_str("pass"),
        Vertex::At(point) => push_point(&mut text, point),
    }
    text
}

fn push_point(text: &mut ArrayString<4>, point: Point)
    requires { text.old.bytes ≡ [] }
    ensures { text.new.bytes ≡ letter_of_column point.col ∷ decimal (point.row + 1) }
{
    text.push(column_letter(point.col));
    let mut digits = Buffer::new();
    text.push_str(digits.format(u16::from(point.row) + 1));
}

/// The upper-case letter of a column, or a question mark past the last letter.
pub fn column_letter(col: u8) -> char
    ensures letter { result ≡ letter_of_column col }
    ensures ascii { result < 128 }
{
    let col = usize::from(col);
    if col < COLUMN_LETTERS.len() {
        char::from(COLUMN_LETTERS[col])
    } else {
        '?'
    }
}
