//! Finds without a play whether a stone takes nothing, and which liberties it has then.
ghost use Rattle.std.specs.Prelude.{◌≡◌, ◌≢◌, ◌<◌, ◌≤◌, ◌+◌, ◌*◌, ◌⊎◌, ◌↔◌, ℕ, IsTrue, replicate};
ghost use Rattle.go_board.specs.declared.size.TheConstants.{MAX_POINTS};
ghost use Rattle.go_board.specs.declared.point_set.TheConstants.{WORDS};
ghost use Rattle.go_board.specs.PointSets.{HasPoint};
ghost use Rattle.go_chains.specs.Cells.{code_at, label_of, lib_of};
ghost use Rattle.go_chains.specs.Playing.{reads_around};
ghost use Rattle.go_chains.specs.Sound.{IsKept};
ghost use Rattle.go_chains.specs.inner.Beside.{AreBeside};
ghost use Rattle.go_chains.specs.inner.Quiet.{IsLent, IsOutlook, IsQuiet};

use crate::cells::{Cells, LABELS};
use crate::marks::put_liberties;
use crate::masks::has_liberty_but;
use crate::occupy::put_empty;
use go_board::{Meter, PointSet, Size};

/// What a stone on an empty point means for a point beside it.
#[derive(Clone, Copy)]
pub(crate) enum Outlook {
    /// A chain that it takes.
    Falls,
    /// Nothing that it takes.
    Stays,
    /// Nothing that it takes, and a liberty for it.
    Breathes,
}

/// What a stone of the colour with this code on an empty point means for a point beside it.
fn outlook_on<K>(
    cells: &Cells<K>,
    meter: &mut Meter<K>,
    size: Size,
    own: u64,
    point: usize,
    near: usize,
) -> Outlook
    requires kept { IsKept size cells.now.numbers }
    requires point { point < size * size }
    requires near { near < size * size }
    ensures outlook { IsOutlook size cells.now.numbers point own near result }
    ensures count { meter.new ≤ meter.old + (WORDS + 3) }
    ensures onward { meter.old ≤ meter.new }
{
    let code = cells.get(near, meter);
    if code == 0 {
        return Outlook::Breathes;
    }
    let label = cells.get(LABELS + near, meter) as usize;
    let lives = has_liberty_but(cells, meter, size, label, point);
    match (code == own, lives) {
        (true, true) => Outlook::Breathes,
        (false, false) => Outlook::Falls,
        _ => Outlook::Stays,
    }
}

/// Whether a stone of the colour with this code on an empty point takes nothing, itself included, as
/// its neighbours show: none of them is a chain of the other colour without another liberty, and one
/// of them lends it a liberty.
pub(crate) fn takes_nothing<K>(
    cells: &Cells<K>,
    meter: &mut Meter<K>,
    size: Size,
    own: u64,
    point: usize,
    beside: &[usize],
) -> bool
    requires kept { IsKept size cells.now.numbers }
    requires point { point < size * size }
    requires beside { AreBeside size point beside.now }
    ensures quiet { IsTrue result ↔ IsQuiet size cells.now.numbers point own }
    ensures count { meter.new ≤ meter.old + reads_around }
    ensures onward { meter.old ≤ meter.new }
{
    let mut breathes = false;
    for near in beside {
        match outlook_on(cells, meter, size, own, point, *near) {
            Outlook::Falls => return false,
            Outlook::Stays => {}
            Outlook::Breathes => breathes = true,
        }
    }
    breathes
}

/// Adds the liberties of the stone on a point, if it has the colour with this code.
fn add_own<K>(
    cells: &Cells<K>,
    meter: &mut Meter<K>,
    size: Size,
    own: u64,
    near: usize,
    set: &mut PointSet,
)
    requires kept { IsKept size cells.now.numbers }
    requires own { 0 < own }
    requires near { near < size * size }
    ensures added { (q : ℕ) → q < size * size → HasPoint set.new q
        ↔ (HasPoint set.old q ⊎ ((code_at cells.now.numbers near ≡ own)
        × (lib_of cells.now.numbers (label_of cells.now.numbers near) q ≡ 1))) }
    ensures count { meter.new ≤ meter.old + (WORDS + 2) }
    ensures onward { meter.old ≤ meter.new }
{
    if cells.get(near, meter) != own {
        return;
    }
    let label = cells.get(LABELS + near, meter) as usize;
    put_liberties(cells, meter, size, label, set);
}

/// Puts the liberties that a stone on a point gets into a set that has no point yet: the empty points
/// beside it, and the other liberties of the chains beside it that have its colour, by its code.
pub(crate) fn put_lent<K>(
    cells: &Cells<K>,
    meter: &mut Meter<K>,
    size: Size,
    own: u64,
    point: usize,
    beside: &[usize],
    set: &mut PointSet,
)
    requires kept { IsKept size cells.now.numbers }
    requires own { 0 < own }
    requires point { point < size * size }
    requires beside { AreBeside size point beside.now }
    requires none { set.old ≡ replicate WORDS 0 }
    ensures lent { (q : ℕ) → q < size * size → HasPoint set.new q
        ↔ ((q ≢ point) × IsLent size cells.now.numbers point own q) }
    ensures count { meter.new ≤ meter.old + reads_around }
    ensures onward { meter.old ≤ meter.new }
{
    put_empty(cells, meter, beside, set);
    for near in beside {
        add_own(cells, meter, size, own, *near, set);
    }
    set.leave_out(point);
}
