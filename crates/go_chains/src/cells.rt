//! All tables of a board in one array of numbers, and where each table begins. A meter counts each read and
//! each write. Each write is traced, and a write of a colour also changes the pack. Meter and trace are for
//! contracts alone: they have no bytes when the program runs.
ghost use Rattle.std.specs.Prelude.{◌≡◌, ◌<◌, ◌+◌, ◌*◌, ◌++◌, ◌∷◌, [], slice_index, slice_set};
ghost use Rattle.go_board.specs.PackBytes.{bytes_of};
ghost use Rattle.go_board.specs.Packs.{packed_of};
ghost use Rattle.go_board.specs.declared.size.TheConstants.{MAX_LINES, MAX_POINTS};
ghost use Rattle.go_chains.specs.declared.cells.TheConstants.{CELLS, LIBERTIES};
ghost use Rattle.go_board.specs.declared.point_set.TheConstants.{WORDS};
ghost use Rattle.go_chains.specs.Boards.{colouring_of};

use crate::numbers::Numbers;
use crate::packed_colours::PackedColours;
use crate::trace::Trace;
use go_board::point_set::WORDS;
use go_board::{MAX_POINTS, Meter, Open, Packed};
use std::marker::Model;

/// Where the labels begin, after the colours.
pub const LABELS: usize = MAX_POINTS;

/// Where the ring links begin.
pub const LINKS: usize = LABELS + MAX_POINTS;

/// Where the sizes of chains begin.
pub const SIZES: usize = LINKS + MAX_POINTS;

/// Where the words of liberties begin.
pub const LIBERTIES: usize = SIZES + MAX_POINTS;

/// How many cells a board has, whatever its size.
pub const CELLS: usize = LIBERTIES + WORDS * MAX_POINTS;

/// The cells of a board: the colour, the label and the ring link of each point, and the size and the words of
/// liberties of each label. Only the methods of this type read or write them. A meter counts each read and
/// each write, and the trace has each write. `K` is the kind of the meter (`go_board/src/meter.rt`). Beside
/// the cells is the pack of all colour cells, by number.
#[derive(Drop)]
pub struct Cells<K = Open> {
    numbers: Numbers<K>,
    colours: PackedColours<K>,
    trace: Trace<K>,
}

impl<K> Model for Cells<K> {
    ghost use Rattle.std.specs.Prelude.{◌≡◌};
    ghost use Rattle.go_board.specs.Packs.{packed_of};
    ghost use Rattle.go_board.specs.declared.size.TheConstants.{MAX_LINES};
    ghost use Rattle.go_chains.specs.Cells.{CellsValue};
    ghost use Rattle.go_chains.specs.Boards.{colouring_of};

    ghost Value = { CellsValue };

    ghost view = { λ c. record { numbers = c.numbers; trace = c.trace } };

    ghost invariant = { λ c. c.colours ≡ packed_of (colouring_of MAX_LINES c.numbers) };
}

impl Cells<Open> {
    ghost use Rattle.std.specs.Prelude.{replicate};

    /// Cells that are all 0.
    pub fn new() -> Cells<Open>
        ensures numbers { result.numbers ≡ replicate CELLS 0 }
        ensures trace { result.trace ≡ [] }
    {
        let numbers = Numbers::new();
        let trace = Trace::new(&numbers);
        Cells {
            numbers,
            colours: PackedColours::new(),
            trace,
        }
    }

    /// The pack of all colour cells, by number. A play is generic over `K`, and only `Cells<Open>` has this
    /// method. So a play reads a colour only by `get`, which counts it.
    pub fn pack(&self) -> &Packed
        ensures { bytes_of result.now ≡ packed_of (colouring_of MAX_LINES self.now.numbers) }
    {
        self.colours.pack()
    }
}

impl<K> Cells<K> {
    ghost use Rattle.go_chains.specs.inner.Writes.{IsWritten};

    /// The number in a cell.
    pub fn get(&self, place: usize, meter: &mut Meter<K>) -> u64
        requires { place < CELLS }
        ensures value { result ≡ slice_index self.now.numbers place }
        ensures count { meter.new ≡ meter.old + 1 }
    {
        self.numbers.get(place, meter)
    }

    /// Writes a number into a cell.
    pub fn set(&mut self, place: usize, number: u64, meter: &mut Meter<K>)
        requires { place < CELLS }
        ensures value { self.new.numbers ≡ slice_set self.old.numbers place number }
        ensures written { IsWritten self.old.numbers self.new.numbers place number }
        ensures traced { self.new.trace ≡ self.old.trace
            ++ record { place = place; old = slice_index self.old.numbers place } ∷ [] }
        ensures count { meter.new ≡ meter.old + 1 }
    {
        self.trace.add(place, &self.numbers);
        self.numbers.set(place, number, meter);
        if place < MAX_POINTS {
            self.colours.put(place, number);
        }
    }
}

/// The cell of a word of a label's liberties.
pub fn word_place(label: usize, word: usize) -> usize
    requires label { label < MAX_POINTS }
    requires word { word < WORDS }
    ensures value { result ≡ LIBERTIES + WORDS * label + word }
    ensures bound { result < CELLS }
{
    LIBERTIES + WORDS * label + word
}
