//! A play over the cells: the stone is placed and joined. The opponent's chains without a liberty are captured.
//! If the stone's own chain still has none, it is captured too.
ghost use Rattle.std.specs.Prelude.{◌≡◌, ◌<◌, ◌≤◌, ◌+◌, ◌-◌, ◌*◌, vec_capacity, vec_len};
ghost use Rattle.go_board.specs.Colours.{other};
ghost use Rattle.go_board.specs.Reaching.{moved};
ghost use Rattle.go_chains.specs.declared.place.TheConstants.{ROOM};
ghost use Rattle.go_chains.specs.inner.Beside.{AreBeside};
ghost use Rattle.go_chains.specs.Cells.{code_at};
ghost use Rattle.go_chains.specs.Playing.{lost, most_of, reads_around};
ghost use Rattle.go_chains.specs.inner.Edits.{Edited};
ghost use Rattle.go_chains.specs.Sound.{IsKept};
ghost use Rattle.go_chains.specs.inner.CellSteps.{colours_in};

use crate::capture::{capture_beside, capture_if_dead};
use crate::cells::Cells;
use crate::change::LoggedChange;
use crate::connect::connect;
use crate::occupy::occupy;
use go_board::point_set::WORDS;
use go_board::{Colour, MAX_POINTS, Meter, Size, Taken, laws};
use std::alloc::Allocator;

/// More changes than any play makes: those of the stone, of at most four joins, of the chains
/// captured at four points, and of the own chain.
pub const ROOM: usize = (WORDS + 8) + 4 * (MAX_POINTS + WORDS + 3) + 25 * MAX_POINTS;

/// Plays a stone on an empty point, whose neighbours are given, and says what that took.
pub fn place<K, A: Allocator + Copy>(
    cells: &mut Cells<K>,
    changes: &mut Vec<LoggedChange, A>,
    meter: &mut Meter<K>,
    size: Size,
    colour: Colour,
    point: usize,
    beside: &[usize],
) -> Taken
    requires kept { IsKept size cells.old.numbers }
    requires point { point < size * size }
    requires empty { code_at cells.old.numbers point ≡ 0 }
    requires beside { AreBeside size point beside.now }
    requires room { vec_len changes.old + ROOM ≤ vec_capacity changes.old }
    ensures kept { IsKept size cells.new.numbers }
    ensures colours { colours_in size cells.new
        ≡ moved size (colours_in size cells.old) colour point }
    ensures theirs { result.theirs ≡ lost size (colours_in size cells.old)
        (colours_in size cells.new) colour point (other colour) }
    ensures own { result.own ≡ lost size (colours_in size cells.old)
        (colours_in size cells.new) colour point colour }
    ensures edited { let most = most_of size (colours_in size cells.old) colour point in
        Edited cells.old cells.new changes.old changes.new meter.old meter.new most
        (3 * most - (reads_around + 1)) }
{
    laws::joined_by_a_path();
    laws::reaches_by_a_path();
    let own_code = colour.code();
    let other_code = colour.other().code();
    occupy(cells, changes, meter, size, own_code, point, beside);
    connect(cells, changes, meter, size, point, beside);
    let captured = capture_beside(cells, changes, meter, size, beside, other_code, own_code);
    let suicide = capture_if_dead(cells, changes, meter, size, point, own_code, other_code);
    Taken {
        theirs: captured as u16,
        own: suicide as u16,
    }
}
