//! Words of a label's liberties, looked at through a mask.
ghost use Rattle.std.specs.Prelude.{◌≡◌, ◌≢◌, ◌<◌, ◌≤◌, ◌+◌, ◌*◌, ◌/◌, ◌%◌, ◌↔◌, ℕ, IsTrue, false};
ghost use Rattle.std.specs.Int.{bit_at};
ghost use Rattle.go_board.specs.declared.size.TheConstants.{MAX_POINTS};
ghost use Rattle.go_board.specs.declared.point_set.TheConstants.{WORDS};
ghost use Rattle.go_chains.specs.Cells.{lib_of};
ghost use Rattle.go_chains.specs.inner.Quiet.{HasLibertyBut};

use crate::cells::{Cells, word_place};
use go_board::point_set::{mask_of, words_of};
use go_board::{Meter, Size};

/// The bits of a word that belong to the first `points` points, without the bit of one point.
fn mask_but(points: usize, word: usize, point: usize) -> u64
    requires points { points ≤ MAX_POINTS }
    requires word { word < WORDS }
    ensures { (i : ℕ) → i < 64 → (bit_at result i ≡ 1)
        ↔ ((64 * word + i < points) × (64 * word + i ≢ point)) }
{
    let mask = mask_of(points, word);
    if point / 64 == word {
        mask & !(1 << (point % 64))
    } else {
        mask
    }
}

/// Whether one word of a label has a liberty that is in a mask.
fn has_liberty_in<K>(
    cells: &Cells<K>,
    meter: &mut Meter<K>,
    label: usize,
    word: usize,
    mask: u64,
) -> bool
    requires label { label < MAX_POINTS }
    requires word { word < WORDS }
    ensures some { IsTrue result → (q : ℕ) × (q / 64 ≡ word) × (bit_at mask (q % 64) ≡ 1)
        × (lib_of cells.now.numbers label q ≡ 1) }
    ensures none { result ≡ false → (q : ℕ) → q / 64 ≡ word → bit_at mask (q % 64) ≡ 1
        → lib_of cells.now.numbers label q ≡ 1 → ⊥ }
    ensures count { meter.new ≡ meter.old + 1 }
{
    cells.get(word_place(label, word), meter) & mask != 0
}

/// Whether a label has a liberty other than this point. Liberties are mostly close by, so the word with the
/// bit of the point is looked at first.
pub(crate) fn has_liberty_but<K>(
    cells: &Cells<K>,
    meter: &mut Meter<K>,
    size: Size,
    label: usize,
    point: usize,
) -> bool
    requires label { label < MAX_POINTS }
    requires point { point < size * size }
    ensures other { IsTrue result ↔ HasLibertyBut size cells.now.numbers point label }
    ensures count { meter.new ≤ meter.old + (WORDS + 1) }
    ensures onward { meter.old ≤ meter.new }
{
    let points = usize::from(size.points());
    let first = point / 64;
    if has_liberty_in(cells, meter, label, first, mask_but(points, first, point)) {
        return true;
    }
    for word in 0..words_of(size) {
        if has_liberty_in(cells, meter, label, word, mask_but(points, word, point)) {
            return true;
        }
    }
    false
}
