//! The colours of a board in two bits a point. `Open` is the kind of meter that any code may make. A play is
//! generic over the kind, so it can't call these.
ghost use Rattle.std.specs.Prelude.{◌≡◌, ◌<◌, ◌≤◌, ◌+◌, ◌*◌, ◌/◌, Some, slice_set};
ghost use Rattle.go_board.specs.Colours.{colour_at};
ghost use Rattle.go_board.specs.PackBytes.{bytes_of};
ghost use Rattle.go_board.specs.Packs.{byte_of, code_of, packed_of};
ghost use Rattle.go_board.specs.Points.{IsOn, number_of};
ghost use Rattle.go_board.specs.declared.size.TheConstants.{MAX_LINES};
ghost use Rattle.go_chains.specs.Boards.{colouring_of, grid_of};

use super::Board;
use crate::packed_colours::with_code;
use go_board::{Colour, Meter, Open, PACK_BYTES, Packed, Point, laws, packed_byte};

impl Board<Open> {
    /// The colours in two bits a point, as `Grid::pack` has them.
    pub fn pack(&self) -> Packed
        ensures { bytes_of result ≡ packed_of (grid_of self.now) }
    {
        let mut packed = Packed::empty();
        self.write_pack(&mut packed);
        packed
    }

    /// Writes the colours in two bits a point over a pack, as [`Board::pack`] gives them. A play calls this on
    /// its key's pack. `pack` would cost one more copy.
    pub fn write_pack(&self, packed: &mut Packed)
        ensures { bytes_of packed.new ≡ packed_of (grid_of self.now) }
    {
        laws::bytes_make_a_pack();
        let full = usize::from(self.size().points()) / 4;
        *packed = *self.pack_of_cells();
        packed.set(full, self.last_byte());
        for place in full + 1..PACK_BYTES {
            packed.set(place, 0);
        }
    }

    /// The pack of all colour cells: cell n is point n of the present board. A byte has four points. The bytes
    /// whose four points are all on this board are right. Later bytes may still hold stones of an earlier,
    /// larger board.
    fn pack_of_cells(&self) -> &Packed
        ensures { bytes_of result.now ≡ packed_of (colouring_of MAX_LINES self.now.cells) }
    {
        self.cells.pack()
    }

    /// The byte after the last full one: that of the last point on boards of odd size, else 0.
    fn last_byte(&self) -> u8
        ensures { result ≡ byte_of (grid_of self.now) (self.now.lines * self.now.lines / 4) }
    {
        let first = usize::from(self.size().points()) / 4 * 4;
        packed_byte(
            self.code_past(first),
            self.code_past(first + 1),
            self.code_past(first + 2),
            self.code_past(first + 3),
        )
    }

    /// The code of a point: its colour cell.
    fn code_at(&self, number: usize) -> u8
        requires { number < self.now.lines * self.now.lines }
        ensures value { result ≡ code_of (colour_at (grid_of self.now) number) }
        ensures few { result ≤ 2 }
    {
        self.cells.get(number, &mut Meter::new()) as u8
    }

    /// The code of a point; one past the board counts as empty.
    fn code_past(&self, number: usize) -> u8
        ensures value { result ≡ code_of (colour_at (grid_of self.now) number) }
        ensures few { result ≤ 2 }
    {
        if number < usize::from(self.size().points()) {
            self.code_at(number)
        } else {
            0
        }
    }

    /// The pack with a stone on an empty point too.
    pub fn pack_with(&self, colour: Colour, p: Point) -> Packed
        requires { IsOn self.now.lines p }
        ensures { bytes_of result ≡ packed_of (slice_set (grid_of self.now)
            (number_of self.now.lines p) (Some colour)) }
    {
        laws::points_by_number();
        let size = self.size();
        let point = usize::from(p.index(size));
        let mut packed = self.pack();
        let byte = packed.byte(point / 4);
        packed.set(point / 4, with_code(byte, point % 4, colour.code() as u8));
        packed
    }
}
