//! The stones and the liberties of a chain, put into sets of points.
ghost use Rattle.std.specs.Prelude.{◌≡◌, ◌<◌, ◌≤◌, ◌+◌, ◌*◌, ◌⊎◌, ◌↔◌, ℕ, replicate};
ghost use Rattle.go_board.specs.PointSets.{HasPoint};
ghost use Rattle.go_board.specs.declared.point_set.TheConstants.{WORDS};
ghost use Rattle.go_board.specs.declared.size.TheConstants.{MAX_POINTS};
ghost use Rattle.go_chains.specs.Cells.{lib_of, next_of};
ghost use Rattle.go_chains.specs.inner.Rings.{IsOnRing, steps};

use crate::cells::{Cells, LINKS, word_place};
use go_board::point_set::words_of;
use go_board::{Meter, PointSet, Size};

/// Puts the first `stones` points along a ring into a set that has none.
pub(crate) fn put_ring(cells: &Cells, from: usize, stones: usize, set: &mut PointSet)
    requires on { (i : ℕ) → i < stones → steps (next_of cells.now.numbers) i from < MAX_POINTS }
    requires none { set.old ≡ replicate WORDS 0 }
    ensures { (q : ℕ) → HasPoint set.new q ↔ IsOnRing (next_of cells.now.numbers) stones from q }
{
    let mut meter = Meter::new();
    let mut at = from;
    for _ in 0..stones {
        set.put(at);
        at = cells.get(LINKS + at, &mut meter) as usize;
    }
}

/// The lowest of the first `points` points along a ring. Not inlined, since its caller mostly needs no ring.
#[inline(never)]
pub(crate) fn lowest_on_ring(cells: &Cells, from: usize, points: usize) -> usize
    requires from { from < MAX_POINTS }
    requires on { (i : ℕ) → i < points → steps (next_of cells.now.numbers) i from < MAX_POINTS }
    ensures on { (result ≡ from) ⊎ IsOnRing (next_of cells.now.numbers) points from result }
    ensures lowest { (q : ℕ) → IsOnRing (next_of cells.now.numbers) points from q → result ≤ q }
{
    let mut meter = Meter::new();
    let mut lowest = from;
    let mut at = from;
    for _ in 0..points {
        lowest = lowest.min(at);
        at = cells.get(LINKS + at, &mut meter) as usize;
    }
    lowest
}

/// Puts a label's liberties into a set.
pub(crate) fn put_liberties<K>(
    cells: &Cells<K>,
    meter: &mut Meter<K>,
    size: Size,
    label: usize,
    set: &mut PointSet,
)
    requires label { label < MAX_POINTS }
    ensures put { (q : ℕ) → q < size * size → HasPoint set.new q
        ↔ (HasPoint set.old q ⊎ (lib_of cells.now.numbers label q ≡ 1)) }
    ensures count { meter.new ≤ meter.old + WORDS }
    ensures onward { meter.old ≤ meter.new }
{
    for word in 0..words_of(size) {
        set.put_word(word, cells.get(word_place(label, word), meter));
    }
}
