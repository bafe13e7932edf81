//! Sets of points by their numbers: a word for each 64, with a bit for each.
ghost use Rattle.std.specs.Prelude.{◌≡◌, ◌≢◌, ◌<◌, ◌≤◌, ◌+◌, ◌*◌, ◌/◌, ◌%◌, ◌∷◌, ◌⊎◌, ◌↔◌, ℕ, [], Bool, List, IfNone, IfSome, IsTrue, filter, length, replicate, slice_index};
ghost use Rattle.std.specs.Int.{bit_at};
ghost use Rattle.std.specs.Iterator.{YieldsFirst, item_count};
ghost use Rattle.go_board.specs.Points.{point_at};
ghost use Rattle.go_board.specs.PointSets.{HasPoint, has_point, points_from, words_for};
ghost use Rattle.go_board.specs.Reaching.{points};
ghost use Rattle.go_board.specs.inner.PointCounts.{count_in_word};
ghost use Rattle.go_board.specs.declared.point_set.TheConstants.{WORDS};
ghost use Rattle.go_board.specs.declared.size.TheConstants.{MAX_POINTS};

use crate::{MAX_POINTS, Point, Size};
use std::marker::Model;

/// How many words have a bit for each point of the largest board.
pub const WORDS: usize = (MAX_POINTS + 63) / 64;

/// A set of points by their numbers. A contract sees its words. There may be numbers in it that a
/// board has no point for.
#[derive(Drop)]
pub struct PointSet {
    words: [u64; WORDS],
}

impl Model for PointSet {
    ghost use Rattle.std.specs.Prelude.{◌≡◌, ℕ, List, length};
    ghost use Rattle.go_board.specs.declared.point_set.TheConstants.{WORDS};

    ghost Value = { List ℕ };

    ghost view = { λ s. s.words };

    ghost invariant = { λ s. length s.words ≡ WORDS };
}

impl PointSet {
    /// A set without a point.
    pub fn new() -> PointSet
        ensures { result ≡ replicate WORDS 0 }
    {
        PointSet { words: [0; WORDS] }
    }

    /// Whether the set has a point.
    pub fn has(&self, number: usize) -> bool
        requires { number < MAX_POINTS }
        ensures { IsTrue result ↔ HasPoint self.now number }
    {
        self.words[number / 64] >> (number % 64) & 1 == 1
    }

    /// Puts a point into the set.
    pub fn put(&mut self, number: usize)
        requires { number < MAX_POINTS }
        ensures { (q : ℕ) → HasPoint self.new q ↔ ((q ≡ number) ⊎ HasPoint self.old q) }
    {
        self.words[number / 64] |= 1 << (number % 64);
    }

    /// Takes a point out of the set.
    pub fn leave_out(&mut self, number: usize)
        requires { number < MAX_POINTS }
        ensures { (q : ℕ) → HasPoint self.new q ↔ ((q ≢ number) × HasPoint self.old q) }
    {
        self.words[number / 64] &= !(1 << (number % 64));
    }

    /// One of the words: the bits of 64 points, the first for the lowest number.
    pub fn word(&self, place: usize) -> u64
        requires { place < WORDS }
        ensures { result ≡ slice_index self.now place }
    {
        self.words[place]
    }

    /// Puts the points of one word into the set.
    pub fn put_word(&mut self, place: usize, bits: u64)
        requires { place < WORDS }
        ensures { (q : ℕ) → HasPoint self.new q
            ↔ (((q / 64 ≡ place) × (bit_at bits (q % 64) ≡ 1)) ⊎ HasPoint self.old q) }
    {
        self.words[place] |= bits;
    }

    /// How many points of a board are in the set.
    pub fn count(&self, size: Size) -> u16
        ensures { (test : ℕ → Bool) → ((q : ℕ) → q < size * size → has_point self.now q ≡ test q)
            → result ≡ length (filter test (points size)) }
    {
        let points = usize::from(size.points());
        let full = points / 64;
        let mut count = 0;
        for word in 0..full {
            count += count_in(self.words[word], u64::MAX, points, word);
        }
        count + count_in(self.words[full], mask_of(points, full), points, full)
    }

    /// The first point of a board in the set, from a number on.
    #[inline]
    pub fn next(&self, size: Size, first: u16) -> Option<u16>
        ensures none { IfNone result (points_from size self.now first ≡ []) }
        ensures some { IfSome result (λ q. points_from size self.now first
            ≡ point_at size q ∷ points_from size self.now (q + 1)) }
        ensures on { IfSome result (λ q. q < size * size) }
    {
        let points = usize::from(size.points());
        let first = usize::from(first);
        for word in first / 64..words_of(size) {
            let bits = bits_from(self.words[word], word, first);
            if bits != 0 {
                let number = 64 * word + bits.trailing_zeros() as usize;
                return if number < points {
                    Some(number as u16)
                } else {
                    None
                };
            }
        }
        None
    }

    /// The points of a board that are in the set, in point order.
    pub fn points(&self, size: Size) -> Points<'_>
        ensures { result ≡ points_from size self.now 0 }
    {
        Points {
            set: self,
            size,
            first: 0,
        }
    }
}

/// The points of a set on a board, in point order. A contract sees it as the list of those to come.
#[derive(Drop)]
pub struct Points<'a> {
    set: &'a PointSet,
    size: Size,
    /// The number from which on they are to come.
    first: u16,
}

impl<'a> Model for Points<'a> {
    ghost use Rattle.std.specs.Prelude.{List};
    ghost use Rattle.go_board.specs.PointSets.{points_from};
    ghost use Rattle.go_board.specs.declared.point.Point.{Point};

    ghost Value = { List Point };

    ghost view = { λ p. points_from p.size p.set.now p.first };
}

impl<'a> Iterator for Points<'a> {
    type Item = Point;

    ghost next_gives = { YieldsFirst (λ points. points) };

    ghost remaining = { item_count (λ points. points) };

    #[inline]
    fn next(&mut self) -> Option<Point> {
        let number = self.set.next(self.size, self.first)?;
        prove!(number < self.size.points());
        self.first = number + 1;
        Some(Point::numbered(self.size, number))
    }
}

/// How many words have a bit for each point of a board.
pub fn words_of(size: Size) -> usize
    ensures value { result ≡ words_for (size * size) }
    ensures bound { result ≤ WORDS }
{
    (usize::from(size.points()) + 63) / 64
}

/// The bits of a word that belong to the first `points` points.
pub fn mask_of(points: usize, word: usize) -> u64
    requires word { word < WORDS }
    ensures inside { (i : ℕ) → i < 64 → 64 * word + i < points → bit_at result i ≡ 1 }
    ensures outside { (i : ℕ) → i < 64 → points ≤ 64 * word + i → bit_at result i ≡ 0 }
{
    let first = 64 * word;
    if points <= first {
        return 0;
    }
    if first + 64 <= points {
        return u64::MAX;
    }
    (1 << (points - first)) - 1
}

/// How many points of one word are set among the first `points` points. The mask has the bits of those
/// points.
fn count_in(bits: u64, mask: u64, points: usize, word: usize) -> u16
    requires inside { (i : ℕ) → i < 64 → 64 * word + i < points → bit_at mask i ≡ 1 }
    requires outside { (i : ℕ) → i < 64 → points ≤ 64 * word + i → bit_at mask i ≡ 0 }
    ensures counted { (words : List ℕ) → bits ≡ slice_index words word
        → result ≡ count_in_word words points word }
    ensures few { result ≤ 64 }
{
    (bits & mask).count_ones() as u16
}

/// The bits of one of the words, without those of points before a number, which is in that word or
/// an earlier one.
fn bits_from(bits: u64, word: usize, first: usize) -> u64
    requires { first < 64 * (word + 1) }
    ensures { (i : ℕ) → i < 64 → (bit_at result i ≡ 1)
        ↔ ((first ≤ 64 * word + i) × (bit_at bits i ≡ 1)) }
{
    if word == first / 64 {
        bits & !((1 << (first % 64)) - 1)
    } else {
        bits
    }
}
