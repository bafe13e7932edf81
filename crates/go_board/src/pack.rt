//! Grids in two bits a point, which are compared and hashed as bytes. A pack that ends in zeros can be kept
//! as its first bytes.
ghost use Rattle.std.specs.Prelude.{◌≡◌, ◌<◌, ◌≤◌, ◌+◌, ◌*◌, IfNone, IfSome, drop, false, length, replicate, slice_index, slice_set};
ghost use Rattle.go_board.specs.declared.pack.TheConstants.{PACK_BYTES};
ghost use Rattle.go_board.specs.PackBytes.{are_zero, bytes_of, pack_of_front};
ghost use Rattle.go_board.specs.Packs.{byte_of, code_of, packed_of};

use crate::{Grid, MAX_POINTS};
use std::hash::{Hash, Hasher};

/// How many bytes hold two bits for each point of the largest board.
pub const PACK_BYTES: usize = (MAX_POINTS + 3) / 4;

/// The colours of a grid in two bits a point. Packs of grids of one size are equal exactly where
/// the grids are.
#[derive(Clone, Copy, Debug, PartialEq, Eq, PartialOrd, Ord)]
pub struct Packed {
    /// Four points a byte, the first in its lowest bits.
    bytes: [u8; PACK_BYTES],
}

impl Hash for Packed {
    ghost use Rattle.std.specs.Cmp.Rules.{hashing};
    ghost use Rattle.std.specs.Prelude.{◌∷◌, []};
    ghost use Rattle.std.proofs.Common.{rules};

    ghost hash_input = { λ p. bytes_of p ∷ [] };

    ghost respects_eq = { Prim.search (hashing, rules) };

    // All bytes at once: a derived one would take them one after the other.
    fn hash<H: Hasher>(&self, state: &mut H) {
        state.write(&self.bytes);
    }
}

impl Packed {
    /// The pack of a board without stones.
    pub fn empty() -> Packed
        ensures { bytes_of result ≡ replicate PACK_BYTES 0 }
    {
        Packed {
            bytes: [0; PACK_BYTES],
        }
    }

    /// The first `count` bytes, if all bytes after them are 0, as they are in packs of small boards. None if
    /// they aren't, or if a pack has fewer bytes.
    pub fn front(&self, count: usize) -> Option<&[u8]>
        ensures some { IfSome result (λ prefix. (length prefix.now ≡ count)
            × (pack_of_front prefix.now ≡ self.now)) }
        ensures none { IfNone result (count ≤ PACK_BYTES
            → are_zero (drop count (bytes_of self.now)) ≡ false) }
    {
        let (prefix, rest) = self.bytes().split_at_checked(count)?;
        if are_all_zero(rest) {
            Some(prefix)
        } else {
            None
        }
    }

    /// All bytes.
    pub fn bytes(&self) -> &[u8]
        ensures value { result.now ≡ bytes_of self.now }
        ensures long { length result.now ≡ PACK_BYTES }
        ensures pack { pack_of_front result.now ≡ self.now }
    {
        &self.bytes
    }

    /// The pack with these first bytes, and 0 after them.
    pub fn of_front(front: &[u8]) -> Packed
        requires { length front.now ≤ PACK_BYTES }
        ensures { result ≡ pack_of_front front.now }
    {
        let mut bytes = [0; PACK_BYTES];
        bytes.split_at_mut(front.len()).0.copy_from_slice(front);
        Packed { bytes }
    }

    /// The byte at a place: of four points, the first of which has four times the place's number.
    pub fn byte(&self, at: usize) -> u8
        requires { at < PACK_BYTES }
        ensures { result ≡ slice_index (bytes_of self.now) at }
    {
        self.bytes[at]
    }

    /// Writes the byte of four points: the first has four times the place's number, and the others
    /// follow it in point order.
    pub fn set(&mut self, place: usize, byte: u8)
        requires { place < PACK_BYTES }
        ensures { bytes_of self.new ≡ slice_set (bytes_of self.old) place byte }
    {
        self.bytes[place] = byte;
    }
}

fn are_all_zero(bytes: &[u8]) -> bool
    ensures { result ≡ are_zero bytes.now }
{
    bytes.iter().all(|byte| *byte == 0)
}

/// The byte of four codes, the first lowest. A code is 0 for an empty point, 1 for Black, 2 for
/// White, and 0 for what is past the board.
pub fn packed_byte(first: u8, second: u8, third: u8, fourth: u8) -> u8
    requires low { (first ≤ 2) × (second ≤ 2) }
    requires high { (third ≤ 2) × (fourth ≤ 2) }
    ensures { result ≡ first + 4 * second + 16 * (third + 4 * fourth) }
{
    let low = first + 4 * second;
    let high = third + 4 * fourth;
    low + 16 * high
}

impl Grid {
    ghost use Rattle.go_board.specs.Colours.{colour_at};

    /// The colours in two bits a point.
    pub fn pack(&self) -> Packed
        ensures { bytes_of result ≡ packed_of self.now.colours }
    {
        let mut packed = Packed::empty();
        for place in 0..PACK_BYTES {
            packed.set(place, self.byte_at(place));
        }
        packed
    }

    /// The byte of four points.
    fn byte_at(&self, place: usize) -> u8
        requires { place < PACK_BYTES }
        ensures { result ≡ byte_of self.now.colours place }
    {
        let first = 4 * place;
        packed_byte(
            self.code_at(first),
            self.code_at(first + 1),
            self.code_at(first + 2),
            self.code_at(first + 3),
        )
    }

    /// The code of a point's colour; a point past the board counts as empty.
    fn code_at(&self, number: usize) -> u8
        ensures value { result ≡ code_of (colour_at self.now.colours number) }
        ensures few { result ≤ 2 }
    {
        match self.colour_of(number) {
            None => 0,
            Some(colour) => colour.code() as u8,
        }
    }
}
