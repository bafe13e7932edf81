//! Questions about a board's chains and their liberties.
ghost use Rattle.std.specs.Prelude.{◌≡◌, ◌<◌, ◌+◌, ◌*◌, ◌/◌, ◌∷◌, if◌then◌else◌, None, Some, drop, replicate};
ghost use Rattle.go_board.specs.Points.{IsOn, number_of, point_at};
ghost use Rattle.go_board.specs.PointSets.{points_from};
ghost use Rattle.go_board.specs.declared.point_set.TheConstants.{WORDS};
ghost use Rattle.go_board.specs.declared.size.TheConstants.{MAX_POINTS};
ghost use Rattle.go_chains.specs.Cells.{label_of};
ghost use Rattle.go_chains.specs.Sound.{IsKept};
ghost use Rattle.go_chains.specs.Boards.{HoldsStone, shown};
ghost use Rattle.go_chains.specs.inner.Marked.{has_label, points_of};
ghost use Rattle.go_board.specs.Grids.{are_joined, chain_liberties, chain_stones, has_liberty, liberty_count, stone_count};

use super::Board;
use crate::cells::{LABELS, SIZES, word_place};
use crate::chain_points::{ChainPoints, Part};
use crate::marks::{lowest_on_ring, put_liberties, put_ring};
use go_board::{Colour, Meter, Open, Point, PointSet, laws};

impl Board<Open> {
    /// Whether two stones are in one chain: a path of their colour joins them.
    pub fn same_chain(&self, p: Point, q: Point) -> bool
        requires p_on { IsOn self.now.lines p }
        requires q_on { IsOn self.now.lines q }
        requires p_stone { HoldsStone self.now p }
        requires q_stone { HoldsStone self.now q }
        ensures { result ≡ are_joined (shown self.now) p q }
    {
        laws::points_by_number();
        laws::joined_by_a_path();
        let mut meter = Meter::new();
        self.label_at(p, &mut meter) == self.label_at(q, &mut meter)
    }

    /// Whether a point is a liberty of a stone's chain: it is empty and adjacent to a stone of it.
    pub fn is_liberty(&self, p: Point, q: Point) -> bool
        requires p_on { IsOn self.now.lines p }
        requires q_on { IsOn self.now.lines q }
        requires p_stone { HoldsStone self.now p }
        ensures { result ≡ has_liberty (shown self.now) p q }
    {
        laws::points_by_number();
        laws::liberty_by_a_path();
        let mut meter = Meter::new();
        let label = self.label_at(p, &mut meter);
        let point = usize::from(q.index(self.size));
        let word = self.cells.get(word_place(label, point / 64), &mut meter);
        word >> (point % 64) & 1 == 1
    }

    /// The stones of the chain of a stone, in point order.
    pub fn chain_points(&self, p: Point) -> ChainPoints<'_>
        requires on { IsOn self.now.lines p }
        requires stone { HoldsStone self.now p }
        ensures { result ≡ chain_stones (shown self.now) p }
    {
        ChainPoints::new(self, p, Part::Stones)
    }

    /// The liberties of the chain of a stone, in point order.
    pub fn liberty_points(&self, p: Point) -> ChainPoints<'_>
        requires on { IsOn self.now.lines p }
        requires stone { HoldsStone self.now p }
        ensures { result ≡ chain_liberties (shown self.now) p }
    {
        ChainPoints::new(self, p, Part::Liberties)
    }

    /// How many stones the chain of a stone has.
    pub fn stones_of(&self, p: Point) -> u16
        requires on { IsOn self.now.lines p }
        requires stone { HoldsStone self.now p }
        ensures { result ≡ stone_count (shown self.now) p }
    {
        laws::points_by_number();
        laws::joined_by_a_path();
        let mut meter = Meter::new();
        let label = self.label_at(p, &mut meter);
        self.cells.get(SIZES + label, &mut meter) as u16
    }

    /// How many liberties the chain of a stone has.
    pub fn liberties_of(&self, p: Point) -> u16
        requires on { IsOn self.now.lines p }
        requires stone { HoldsStone self.now p }
        ensures { result ≡ liberty_count (shown self.now) p }
    {
        laws::points_by_number();
        laws::liberty_by_a_path();
        let mut meter = Meter::new();
        let size = self.size();
        let label = self.label_at(p, &mut meter);
        let mut free = PointSet::new();
        put_liberties(&self.cells, &mut meter, size, label, &mut free);
        free.count(size)
    }

    /// The first stone of the chain of a stone. As many of the board's first points as the chain has
    /// stones are asked for their label, before its ring is walked.
    #[inline]
    pub(crate) fn first_stone(&self, p: Point) -> u16
        requires on { IsOn self.now.lines p }
        requires stone { HoldsStone self.now p }
        ensures first { chain_stones (shown self.now) p
            ≡ point_at self.now.lines result ∷ drop 1 (chain_stones (shown self.now) p) }
        ensures on { result < self.now.lines * self.now.lines }
    {
        laws::points_by_number();
        laws::joined_by_a_path();
        let mut meter = Meter::new();
        let label = self.label_at(p, &mut meter);
        let stones = self.cells.get(SIZES + label, &mut meter) as usize;
        for number in 0..stones {
            if self.has_label(number, label) {
                return number as u16;
            }
        }
        lowest_on_ring(&self.cells, usize::from(p.index(self.size)), stones) as u16
    }

    /// Fills a set with the points of a part of a stone's chain, and gives the number where the walk over
    /// them goes on: after the first point, if that was given. Not inlined, so that the loop that walks over
    /// the set stays short.
    #[inline(never)]
    pub(crate) fn fill(&self, part: Part, p: Point, first_given: bool, set: &mut PointSet) -> u16
        requires on { IsOn self.now.lines p }
        requires stone { HoldsStone self.now p }
        ensures { points_from self.now.lines set.new result
            ≡ (if first_given then drop 1 (points_of self.now part p) else points_of self.now part p) }
    {
        *set = PointSet::new();
        match part {
            Part::Stones => self.fill_stones(p, set),
            Part::Liberties => self.fill_liberties(p, set),
        }
        if !first_given {
            return 0;
        }
        match set.next(self.size, 0) {
            Some(first) => first + 1,
            None => 0,
        }
    }

    /// Puts the stones of the chain of a stone into a set that has none.
    fn fill_stones(&self, p: Point, set: &mut PointSet)
        requires on { IsOn self.now.lines p }
        requires stone { HoldsStone self.now p }
        requires none { set.old ≡ replicate WORDS 0 }
        ensures { points_from self.now.lines set.new 0 ≡ chain_stones (shown self.now) p }
    {
        laws::points_by_number();
        laws::joined_by_a_path();
        let mut meter = Meter::new();
        let label = self.label_at(p, &mut meter);
        let stones = self.cells.get(SIZES + label, &mut meter) as usize;
        let first = usize::from(p.index(self.size));
        put_ring(&self.cells, first, stones, set);
    }

    /// Puts the liberties of the chain of a stone into a set that has none.
    fn fill_liberties(&self, p: Point, set: &mut PointSet)
        requires on { IsOn self.now.lines p }
        requires stone { HoldsStone self.now p }
        requires none { set.old ≡ replicate WORDS 0 }
        ensures { points_from self.now.lines set.new 0 ≡ chain_liberties (shown self.now) p }
    {
        laws::points_by_number();
        laws::liberty_by_a_path();
        let mut meter = Meter::new();
        let label = self.label_at(p, &mut meter);
        put_liberties(&self.cells, &mut meter, self.size(), label, set);
    }

    /// The label of a stone's chain.
    fn label_at(&self, p: Point, meter: &mut Meter) -> usize
        requires on { IsOn self.now.lines p }
        requires stone { HoldsStone self.now p }
        ensures label { result ≡ label_of self.now.cells (number_of self.now.lines p) }
        ensures bound { result < MAX_POINTS }
        ensures kept { IsKept self.now.lines self.now.cells }
    {
        laws::points_by_number();
        self.cells
            .get(LABELS + usize::from(p.index(self.size)), meter) as usize
    }

    /// Whether a point holds a stone with this label.
    fn has_label(&self, number: usize, label: usize) -> bool
        requires { number < MAX_POINTS }
        ensures { result ≡ has_label self.now.cells label number }
    {
        let mut meter = Meter::new();
        match Colour::coded(self.cells.get(number, &mut meter)) {
            Some(_) => label == self.cells.get(LABELS + number, &mut meter) as usize,
            None => false,
        }
    }
}
