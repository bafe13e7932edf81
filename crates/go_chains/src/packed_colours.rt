//! The colours of a board's cells in two bits a point. They have a file of their own, so that no play can
//! look at a colour that it doesn't count.
ghost use Rattle.std.specs.Prelude.{◌≡◌, ◌≢◌, ◌<◌, ◌≤◌, ℕ, List, replicate, slice_index, slice_set};
ghost use Rattle.go_board.specs.PackBytes.{bytes_of};
ghost use Rattle.go_board.specs.Packs.{code_of, colour_coded, packed_of};
ghost use Rattle.go_board.specs.declared.pack.TheConstants.{PACK_BYTES};
ghost use Rattle.go_board.specs.declared.size.TheConstants.{MAX_LINES, MAX_POINTS};
ghost use Rattle.go_chains.specs.Boards.{colouring_of};
ghost use Rattle.go_chains.specs.inner.Codes.{code_in};

use go_board::{Colour, Open, Packed};
use std::marker::{Model, PhantomData};

/// The pack of all colour cells, by number, those past this board's points too. A play writes it, and reads
/// nothing of it: only open colours have `pack`.
#[derive(Drop)]
pub struct PackedColours<K> {
    pack: Packed,
    kind: PhantomData<K>,
}

impl<K> Model for PackedColours<K> {
    ghost use Rattle.std.specs.Prelude.{ℕ, List};
    ghost use Rattle.go_board.specs.PackBytes.{bytes_of};

    ghost Value = { List ℕ };

    ghost view = { λ c. bytes_of c.pack };
}

impl PackedColours<Open> {
    /// The colours of a board without stones.
    pub fn new() -> PackedColours<Open>
        ensures { result ≡ replicate PACK_BYTES 0 }
    {
        PackedColours {
            pack: Packed::empty(),
            kind: PhantomData,
        }
    }

    /// The pack.
    pub fn pack(&self) -> &Packed
        ensures { bytes_of result.now ≡ self.now }
    {
        &self.pack
    }
}

impl<K> PackedColours<K> {
    /// Gives a point the colour that a number means, when its cell is written.
    pub fn put(&mut self, place: usize, number: u64)
        requires { place < MAX_POINTS }
        ensures { (cells : List ℕ) → slice_index (slice_set cells place number) place ≡ number
            → self.old ≡ packed_of (colouring_of MAX_LINES cells)
            → self.new ≡ packed_of (colouring_of MAX_LINES (slice_set cells place number)) }
    {
        let byte = self.pack.byte(place / 4);
        let code = colour_code(number);
        self.pack.set(place / 4, with_code(byte, place % 4, code));
    }
}

/// The code of the colour that a number means. A number of no colour means an empty point.
fn colour_code(number: u64) -> u8
    ensures value { result ≡ code_of (colour_coded number) }
    ensures few { result ≤ 2 }
{
    match Colour::coded(number) {
        None => 0,
        Some(colour) => colour.code() as u8,
    }
}

/// The byte of four codes with another code at one of its places.
pub(crate) fn with_code(byte: u8, at: usize, code: u8) -> u8
    requires at { at < 4 }
    requires code { code ≤ 2 }
    ensures code { code_in result at ≡ code }
    ensures others { (k : ℕ) → k < 4 → k ≢ at → code_in result k ≡ code_in byte k }
{
    let shift = 2 * at;
    let old = (byte >> shift) % 4;
    byte - (old << shift) + (code << shift)
}
