//! Two chains become one: the second gets the first one's label, their rings are spliced, and their
//! liberties merged.
ghost use Rattle.std.specs.Prelude.{◌≡◌, ◌≢◌, ◌<◌, ◌≤◌, ◌+◌, ◌*◌, ℕ, vec_capacity, vec_len};
ghost use Rattle.go_board.specs.declared.size.TheConstants.{MAX_POINTS};
ghost use Rattle.go_board.specs.declared.point_set.TheConstants.{WORDS};
ghost use Rattle.go_chains.specs.Cells.{code_at, label_of, next_of};
ghost use Rattle.go_chains.specs.inner.CellSteps.{chain_size};
ghost use Rattle.go_chains.specs.inner.Edits.{Edited};
ghost use Rattle.go_chains.specs.inner.Rings.{steps};
ghost use Rattle.go_chains.specs.inner.CellSteps.{AreTidy, HasStone, Joins, Merges, Relabels};

use crate::cells::{Cells, LABELS, LINKS, SIZES, word_place};
use crate::change::LoggedChange;
use crate::edits::{put, replace};
use go_board::point_set::words_of;
use go_board::{Meter, Size};
use std::alloc::Allocator;

/// Gives the first `stones` points along a ring one label.
fn relabel<K, A: Allocator + Copy>(
    cells: &mut Cells<K>,
    changes: &mut Vec<LoggedChange, A>,
    meter: &mut Meter<K>,
    from: usize,
    stones: usize,
    to: usize,
)
    requires on { (i : ℕ) → i < stones → steps (next_of cells.old.numbers) i from < MAX_POINTS }
    requires room { vec_len changes.old + stones ≤ vec_capacity changes.old }
    ensures relabelled { Relabels cells.old cells.new from stones to }
    ensures edited { Edited cells.old cells.new changes.old changes.new meter.old meter.new
        stones (3 * stones) }
{
    let mut at = from;
    for _ in 0..stones {
        put(cells, changes, meter, LABELS + at, to as u64);
        at = cells.get(LINKS + at, meter) as usize;
    }
}

/// Gives one label the liberties of another too.
fn merge_words<K, A: Allocator + Copy>(
    cells: &mut Cells<K>,
    changes: &mut Vec<LoggedChange, A>,
    meter: &mut Meter<K>,
    size: Size,
    kept: usize,
    gone: usize,
)
    requires kept { kept < MAX_POINTS }
    requires gone { gone < MAX_POINTS }
    requires apart { kept ≢ gone }
    requires room { vec_len changes.old + WORDS ≤ vec_capacity changes.old }
    ensures merged { Merges size cells.old cells.new kept gone }
    ensures edited { Edited cells.old cells.new changes.old changes.new meter.old meter.new
        WORDS (3 * WORDS) }
{
    for word in 0..words_of(size) {
        let place = word_place(kept, word);
        let here = cells.get(place, meter);
        let there = cells.get(word_place(gone, word), meter);
        replace(cells, changes, meter, place, here, here | there);
    }
}

/// Makes the second stone's chain part of the first one's, which keeps its label.
pub fn join<K, A: Allocator + Copy>(
    cells: &mut Cells<K>,
    changes: &mut Vec<LoggedChange, A>,
    meter: &mut Meter<K>,
    size: Size,
    first: usize,
    second: usize,
)
    requires tidy { AreTidy size cells.old }
    requires first { HasStone size cells.old first }
    requires second { HasStone size cells.old second }
    requires same { code_at cells.old.numbers first ≡ code_at cells.old.numbers second }
    requires apart { label_of cells.old.numbers first ≢ label_of cells.old.numbers second }
    requires room { vec_len changes.old
        + (chain_size cells.old.numbers second + WORDS + 3) ≤ vec_capacity changes.old }
    ensures joined { Joins size cells.old cells.new first second }
    ensures edited { Edited cells.old cells.new changes.old changes.new meter.old meter.new
        (chain_size cells.old.numbers second + WORDS + 3)
        (3 * chain_size cells.old.numbers second + 3 * WORDS + 9) }
{
    let kept = cells.get(LABELS + first, meter) as usize;
    let gone = cells.get(LABELS + second, meter) as usize;
    let kept_size = cells.get(SIZES + kept, meter);
    let gone_size = cells.get(SIZES + gone, meter);
    relabel(cells, changes, meter, second, gone_size as usize, kept);
    let first_next = cells.get(LINKS + first, meter);
    let second_next = cells.get(LINKS + second, meter);
    replace(
        cells,
        changes,
        meter,
        LINKS + first,
        first_next,
        second_next,
    );
    replace(
        cells,
        changes,
        meter,
        LINKS + second,
        second_next,
        first_next,
    );
    replace(
        cells,
        changes,
        meter,
        SIZES + kept,
        kept_size,
        gone_size + kept_size,
    );
    merge_words(cells, changes, meter, size, kept, gone);
}
