//! Plays a stone, takes plays back, and tells which stones would take nothing. `K` is the kind of the meter.
//! Code that is generic over `K` can't make a meter, so it counts with its caller's.
ghost use Rattle.std.specs.Prelude.{◌≡◌, ◌<◌, ◌≤◌, ◌+◌, ◌↔◌, IfOk, IsErrOf, IsTrue, OnOk, Some, length, slice_set};
ghost use Rattle.go_board.specs.Chains.{liberties};
ghost use Rattle.go_board.specs.Colours.{other};
ghost use Rattle.go_board.specs.Points.{IsOn, number_of};
ghost use Rattle.go_chains.specs.declared.cells.TheConstants.{CELLS};
ghost use Rattle.go_chains.specs.Playing.{PlayCosts, most_at, played, reads_around, went};
ghost use Rattle.go_chains.specs.Rewound.{ForLast, IsRewound, NamesCells, rewound};
ghost use Rattle.go_chains.specs.Sound.{IsKept};
ghost use Rattle.go_chains.specs.Boards.{HoldsStone, grid_of};

use super::Board;
use crate::beside::put_beside;
use crate::error::PlaceError;
use crate::log::{Log, reserve_play, seal};
use crate::place::{ROOM, place};
use crate::quiet::{put_lent, takes_nothing};
use arrayvec::ArrayVec;
use go_board::{Colour, Meter, Point, PointSet, Taken, laws};
use std::alloc::Allocator;

impl<K> Board<K> {
    /// Places a stone, takes off the opponent's chains that have no liberty then, and after them the
    /// stone's own chain if it has none. It returns how many stones of each colour it took off. Repetitions
    /// aren't looked for, and suicide is allowed. The log gets the play's changes.
    pub fn play<A: Allocator + Copy>(
        &mut self,
        log: &mut Log<A>,
        meter: &mut Meter<K>,
        colour: Colour,
        p: Point,
    ) -> Result<Taken, PlaceError>
        requires { IsOn self.old.lines p }
        ensures lines { self.new.lines ≡ self.old.lines }
        ensures occupied { IsErrOf result PlaceError.Occupied ↔ HoldsStone self.old p }
        ensures moved { OnOk result (grid_of self.new ≡ played self.old colour p) }
        ensures theirs { IfOk result (λ taken. taken.theirs
            ≡ went self.old self.new colour p (other colour)) }
        ensures own { IfOk result (λ taken. taken.own ≡ went self.old self.new colour p colour) }
        ensures costs { PlayCosts result self.old self.new log.old log.new meter.old meter.new
            (most_at self.old colour p) }
        ensures kept { IsKept self.new.lines self.new.cells }
    {
        laws::points_by_number();
        let size = self.size;
        let point = usize::from(p.index(size));
        if self.cells.get(point, meter) != 0 {
            return Err(PlaceError::Occupied);
        }
        reserve_play(&mut log.changes, &mut log.lengths, ROOM)?;
        let mut beside = ArrayVec::new();
        put_beside(size, p, &mut beside);
        let before = log.changes.len();
        let taken = place(
            &mut self.cells,
            &mut log.changes,
            meter,
            size,
            colour,
            point,
            beside.as_slice(),
        );
        let count = log.changes.len() - before;
        seal(&mut log.lengths, count);
        Ok(taken)
    }

    /// Whether a stone on an empty point takes nothing, itself included, as its neighbours show.
    pub fn is_quiet(&self, meter: &mut Meter<K>, colour: Colour, p: Point) -> bool
        requires on { IsOn self.now.lines p }
        requires empty { HoldsStone self.now p → ⊥ }
        ensures quiet { IsTrue result ↔ played self.now colour p
            ≡ slice_set (grid_of self.now) (number_of self.now.lines p) (Some colour) }
        ensures count { meter.new ≤ meter.old + reads_around }
        ensures onward { meter.old ≤ meter.new }
    {
        laws::points_by_number();
        laws::reaches_by_a_path();
        laws::liberty_by_a_path();
        let size = self.size();
        let mut beside = ArrayVec::new();
        put_beside(size, p, &mut beside);
        let point = usize::from(p.index(size));
        takes_nothing(
            &self.cells,
            meter,
            size,
            colour.code(),
            point,
            beside.as_slice(),
        )
    }

    /// How many liberties the chain of a stone on an empty point has, where it takes nothing.
    pub fn liberties_with(&self, meter: &mut Meter<K>, colour: Colour, p: Point) -> u16
        requires on { IsOn self.now.lines p }
        requires empty { HoldsStone self.now p → ⊥ }
        ensures liberties { result ≡ length (liberties self.now.lines
            (slice_set (grid_of self.now) (number_of self.now.lines p) (Some colour))
            (number_of self.now.lines p)) }
        ensures count { meter.new ≤ meter.old + reads_around }
        ensures onward { meter.old ≤ meter.new }
    {
        laws::points_by_number();
        laws::liberty_by_a_path();
        let size = self.size();
        let mut beside = ArrayVec::new();
        put_beside(size, p, &mut beside);
        let point = usize::from(p.index(size));
        let mut lent = PointSet::new();
        put_lent(
            &self.cells,
            meter,
            size,
            colour.code(),
            point,
            beside.as_slice(),
            &mut lent,
        );
        lent.count(size)
    }

    /// Takes back the last play of a log, change by change from the last to the first. It takes no
    /// memory.
    pub fn rewind<A: Allocator + Copy>(&mut self, log: &mut Log<A>, meter: &mut Meter<K>)
        requires play { 0 < length log.old }
        requires cells { ForLast log.old (λ earlier changes.
            NamesCells CELLS changes × IsKept self.old.lines (rewound self.old.cells changes)) }
        ensures rewound { ForLast log.old (λ earlier changes.
            IsRewound self.old self.new log.new earlier changes meter.old meter.new) }
        ensures kept { IsKept self.new.lines self.new.cells }
    {
        log.put_back(&mut self.cells, meter);
    }
}
