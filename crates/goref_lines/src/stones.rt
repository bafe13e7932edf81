//! The points that a list for a free handicap names, checked one word after another. A word that is no vertex
//! counts before any other fault of the list.
ghost use Rattle.std.specs.Prelude.{◌≡◌, ◌<◌, ◌*◌, ◌∷◌, ◌==◌, ℕ, [], List, Option, All, IfErr, IfOk, OnOk, length};
ghost use Rattle.std.specs.List.{list_any};
ghost use Rattle.go_board.specs.declared.vertex.Vertex.{Vertex};
ghost use Rattle.go_board.specs.Points.{IsOn, number_of};
ghost use Rattle.goref_lines.specs.Stones.{spelled, stones_listed, with_first};
ghost use Rattle.goref_lines.specs.inner.Gathered.{may_follow, gathers};

use crate::words::Words;
use arrayvec::ArrayVec;
use go_board::{MAX_POINTS, Point, Size, Vertex, VertexError, read_vertex};
use std::marker::Model;

/// Why a list gives no stones of a free handicap.
#[derive(Clone, Copy, Debug, PartialEq, Eq)]
pub enum ListError {
    /// There is no word, or one that spells no vertex.
    Malformed,
    /// The list has a pass, a point off the board, a point twice or fewer than two points, or it leaves no
    /// point of the board.
    Bad,
}

/// The points of the stones of a free handicap, as words list them.
pub fn read_stones(
    mut words: Words<'_>,
    size: Size,
) -> Result<ArrayVec<Point, MAX_POINTS>, ListError>
    ensures ok { IfOk result
        (λ points. stones_listed size words.entry ≡ Ok points.items) }
    ensures err { IfErr result (λ error. stones_listed size words.entry ≡ Err error) }
    ensures on { IfOk result (λ points. All (IsOn size) points.items) }
    ensures few { IfOk result
        (λ points. length points.items < size * size) }
{
    let mut stones = Stones::new(size);
    match words.next_word() {
        Some(word) => stones.push(word)?,
        None => return Err(ListError::Malformed),
    }
    while let Some(word) = words.next_word() {
        stones.push(word)?;
    }
    stones.finish()
}

/// The points of a list so far.
#[derive(Drop)]
struct Stones {
    size: Size,
    points: ArrayVec<Point, MAX_POINTS>,
    is_bad: bool,
}

impl Model for Stones {
    ghost use Rattle.std.specs.Prelude.{if◌then◌else◌, Some, None};
    ghost use Rattle.goref_lines.specs.inner.Gathered.{AreApart, Gathered};

    ghost Value = { Gathered };

    ghost view = { λ s. record {
      lines = s.size;
      points = if s.is_bad then None else Some s.points.items;
    } };

    ghost invariant = { λ s. AreApart s.size s.points.items };
}

impl Stones {
    fn new(size: Size) -> Stones
        ensures lines { result.lines ≡ size }
        ensures points { result.points ≡ Some [] }
    {
        Stones {
            size,
            points: ArrayVec::new(),
            is_bad: false,
        }
    }

    /// Takes the next word. A bad list is read to its end, since a malformed word in it counts first.
    fn push(&mut self, word: &[u8]) -> Result<(), ListError>
        ensures lines { self.new.lines ≡ self.old.lines }
        ensures ok { OnOk result ((rest : List (List ℕ))
            → gathers self.old (spelled (word.now ∷ rest)) ≡ gathers self.new (spelled rest)) }
        ensures err { IfErr result (λ error. (rest : List (List ℕ))
            → gathers self.old (spelled (word.now ∷ rest)) ≡ Err error) }
    {
        match read_vertex(word, self.size) {
            Ok(Vertex::At(point)) => self.add(point),
            Ok(Vertex::Pass) => self.is_bad = true,
            Err(VertexError::OffBoard) => self.is_bad = true,
            Err(VertexError::Malformed) => return Err(ListError::Malformed),
        }
        Ok(())
    }

    fn add(&mut self, point: Point)
        requires { IsOn self.old.lines point }
        ensures lines { self.new.lines ≡ self.old.lines }
        ensures goes_on { (rest : Option (List Vertex))
            → gathers self.old (with_first (Some (Vertex.At point)) rest)
            ≡ gathers self.new rest }
    {
        if can_follow(&self.points, point, self.size) {
            self.points.push(point);
        } else {
            self.is_bad = true;
        }
    }

    /// The stones of the list that ends here.
    fn finish(self) -> Result<ArrayVec<Point, MAX_POINTS>, ListError>
        ensures ok { IfOk result (λ points. gathers self (Some []) ≡ Ok points.items) }
        ensures err { IfErr result (λ error. gathers self (Some []) ≡ Err error) }
        ensures on { IfOk result (λ points. All (IsOn self.lines) points.items) }
        ensures few { IfOk result (λ points. length points.items < self.lines * self.lines) }
    {
        if self.is_bad || self.points.len() < 2 {
            return Err(ListError::Bad);
        }
        Ok(self.points)
    }
}

/// Whether a point is new among these points, and leaves one point of the board.
fn can_follow(points: &[Point], point: Point, size: Size) -> bool
    requires points { All (IsOn size) points.now }
    requires point { IsOn size point }
    ensures { result ≡ may_follow size points.now point }
{
    points.len() + 1 < usize::from(size.points()) && !has_number(points, point.index(size), size)
}

/// Whether the point with this number is among these points.
fn has_number(points: &[Point], number: u16, size: Size) -> bool
    requires { All (IsOn size) points.now }
    ensures { result ≡ list_any (λ p. number_of size p == number) points.now }
{
    for point in points {
        if point.index(size) == number {
            return true;
        }
    }
    false
}
