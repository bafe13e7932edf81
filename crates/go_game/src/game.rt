//! A game with its komi and its superko rule, and the questions about its moves and its board. Other files
//! have the start from a grid, the plays and undo, and the choice.
ghost use Rattle.std.specs.Prelude.{◌≡◌, ◌<◌, ◌+◌, ◌*◌, [], pos, false, IsSome, length, map, slice_get};

use crate::Superko;
use crate::prisoners::Prisoners;
use crate::step::Step;
use go_board::plain::{is_liberty, same_chain};
use go_board::rows::{ByColour, Rows};
use go_board::{Area, Colour, Grid, Meter, Move, Point, Size, laws};
use go_chains::{Board, ChainPoints, Log};
use go_history::History;
use std::alloc::Allocator;
use std::marker::Model;

/// A game: its start, the komi, the superko rule, and the moves played since. It takes memory as
/// moves are played, from the allocator that it was made with.
#[derive(Drop)]
pub struct Game<A: Allocator + Copy> {
    /// The grid before the first move.
    pub(crate) start: Grid,
    /// In hundredths of a point.
    pub(crate) komi: i64,
    pub(crate) superko: Superko,
    /// Who is to move at the start.
    pub(crate) first: Colour,
    /// The board after the last move, and the log of its plays.
    pub(crate) board: Board,
    pub(crate) log: Log<A>,
    /// What moves, undos and tests of quiet plays read and wrote in the tables. Other questions aren't counted.
    pub(crate) meter: Meter,
    /// The moves, each with what it took.
    pub(crate) steps: Vec<Step, A>,
    /// What the superko rule saw, and after how many moves first.
    pub(crate) history: History<A>,
    /// The stones of each colour that were taken.
    pub(crate) prisoners: Prisoners,
    /// Where stones were placed since the start, also by plays that `undo` took back. The stones of the start
    /// are in `start`. If a colour never had a stone on a point, its play there that takes nothing repeats no
    /// position.
    pub(crate) placed: ByColour<Rows>,
}

impl<A: Allocator + Copy> Model for Game<A> {
    ghost use Rattle.std.specs.Prelude.{map};
    ghost use Rattle.go_game.specs.Changes.{changes_of};
    ghost use Rattle.go_game.specs.inner.Held.{IsKeeping, made_of, standing_of, start_of};
    ghost use Rattle.go_game.specs.inner.Placed.{AreOfPlaced};
    ghost use Rattle.go_game.specs.Standings.{GameValue, stood};

    ghost Value = { GameValue };

    ghost view = { λ a. record {
      standing = standing_of (start_of a.superko a.start a.komi a.first) a.steps.items;
      cells = a.board.cells;
      changes = changes_of (map made_of a.steps.items) a.log;
      trace = a.board.trace;
      count = a.meter;
    } };

    ghost invariant = { λ a. IsKeeping (start_of a.superko a.start a.komi a.first) a.steps.items
        a.board a.log a.history a.prisoners.black a.prisoners.white
        × AreOfPlaced a.start.lines a.start.colours a.placed
        (stood a.superko a.start.lines a.start.colours a.first (map made_of a.steps.items)) };
}

impl<A: Allocator + Copy> Game<A> {
    ghost use Rattle.go_board.specs.Colours.{colour_at};
    ghost use Rattle.go_board.specs.Grids.{are_joined, chain_liberties, chain_stones, has_liberty, stone_at};
    ghost use Rattle.go_board.specs.Points.{IsOn, number_of};
    ghost use Rattle.go_board.specs.declared.colour.Colour.{Colour};
    ghost use Rattle.go_board.specs.declared.point.Point.{Point};
    ghost use Rattle.go_chains.specs.Sound.{IsKept};
    ghost use Rattle.go_chains.specs.Boards.{colouring_of};
    ghost use Rattle.go_game.specs.declared.superko.Superko.{Superko};
    ghost use Rattle.go_game.specs.inner.Trials.{liberties_at};
    ghost use Rattle.go_game.specs.Prisoners.{prisoners_of};
    ghost use Rattle.go_board.specs.Komi.{IsKomi};
    ghost use Rattle.go_game.specs.Standings.{IsSound, board_of, empty_start, present, is_vacant_standing, mover_of, seen_by};
    ghost use Rattle.go_game.specs.Scores.{area_of, margin_of};
    ghost use Rattle.go_game.specs.Whole.{whole_of};

    /// An empty board, Black to move, komi 0, positional superko.
    pub fn new(alloc: A, size: Size) -> Game<A>
        ensures start { result.standing ≡ empty_start size (pos 0) Superko.Positional }
        ensures trace { result.trace ≡ [] }
        ensures count { result.count ≡ 0 }
    {
        laws::packs_tell_colourings_apart();
        let start = Grid::new(size);
        let superko = Superko::Positional;
        let history = History::new(alloc, superko.key(start.pack(), Colour::Black));
        Game {
            start,
            komi: 0,
            superko,
            first: Colour::Black,
            board: Board::new(size),
            log: Log::new(alloc),
            meter: Meter::new(),
            steps: Vec::new(alloc),
            history,
            prisoners: Prisoners { black: 0, white: 0 },
            placed: ByColour::none(),
        }
    }

    /// The size of the board.
    pub fn size(&self) -> Size
        ensures lines { result ≡ self.now.standing.lines }
        ensures sound { IsSound self.now.standing }
        ensures kept { IsKept self.now.standing.lines self.now.cells }
        ensures colours { colouring_of self.now.standing.lines self.now.cells
            ≡ board_of self.now.standing }
        ensures changes { length self.now.changes ≡ length self.now.standing.moves }
    {
        self.start.size()
    }

    /// The komi in hundredths of a point.
    pub fn komi(&self) -> i64
        ensures { result ≡ self.now.standing.komi }
    {
        self.komi
    }

    /// Sets the komi, in hundredths of a point. It is no move: undo leaves it.
    pub fn set_komi(&mut self, komi: i64)
        requires { IsKomi komi }
        ensures komi { self.new.standing ≡ record self.old.standing { komi = komi } }
        ensures others { self.new ≡ record self.old { standing = self.new.standing } }
    {
        self.komi = komi;
    }

    /// The superko rule.
    pub fn superko(&self) -> Superko
        ensures { result ≡ self.now.standing.rule }
    {
        self.superko
    }

    /// Sets the superko rule, where no move was played. It is no move: undo leaves it. It takes no memory.
    pub fn set_superko(&mut self, superko: Superko)
        requires { self.old.standing.moves ≡ [] }
        ensures rule { self.new.standing ≡ record self.old.standing { rule = superko } }
        ensures others { self.new ≡ record self.old { standing = self.new.standing } }
    {
        laws::packs_tell_colourings_apart();
        self.superko = superko;
        let key = superko.key(self.start.pack(), self.first);
        self.history.restart(key);
    }

    /// The number of moves.
    pub fn move_count(&self) -> usize
        ensures { result ≡ length self.now.standing.moves }
    {
        self.steps.len()
    }

    /// The move with this number, from 0.
    pub fn move_at(&self, number: usize) -> Option<Move>
        ensures { result ≡ slice_get self.now.standing.moves number }
    {
        match self.steps.get(number) {
            Some(step) => Some(step.made),
            None => None,
        }
    }

    /// The colour that is to move first.
    pub fn start_mover(&self) -> Colour
        ensures { result ≡ self.now.standing.first }
    {
        self.first
    }

    /// The colour of a point before the first move.
    pub fn start_at(&self, p: Point) -> Option<Colour>
        requires { IsOn self.now.standing.lines p }
        ensures { result ≡ colour_at self.now.standing.start (number_of self.now.standing.lines p) }
    {
        self.start.get(p)
    }

    /// Whether there is neither a stone nor a move.
    pub fn is_vacant(&self) -> bool
        ensures { result ≡ is_vacant_standing self.now.standing }
    {
        self.move_count() == 0 && self.start.is_vacant()
    }

    /// Back to the empty board, Black to move. The komi and the superko rule stay.
    pub fn clear(&mut self)
        ensures start { self.new.standing ≡ empty_start self.old.standing.lines
            self.old.standing.komi self.old.standing.rule }
        ensures writes { length self.new.trace ≡ length self.old.trace
            + self.old.standing.lines * self.old.standing.lines }
        ensures count { self.new.count ≡ self.old.count }
    {
        self.resize(self.size());
    }

    /// An empty board of this size, Black to move. The komi and the superko rule stay. The memory of the
    /// moves is freed list by list, without a look at any move.
    pub fn resize(&mut self, size: Size)
        ensures start { self.new.standing ≡ empty_start size self.old.standing.komi
            self.old.standing.rule }
        ensures writes { length self.new.trace
            ≡ length self.old.trace + size * size }
        ensures count { self.new.count ≡ self.old.count }
    {
        laws::packs_tell_colourings_apart();
        let alloc = *self.steps.allocator();
        self.start = Grid::new(size);
        self.first = Colour::Black;
        self.board.clear(size);
        self.log = Log::new(alloc);
        self.steps = Vec::new(alloc);
        let key = self.superko.key(self.board.pack(), self.first);
        self.history.restart(key);
        self.prisoners = Prisoners { black: 0, white: 0 };
        self.placed = ByColour::none();
    }

    /// The grid after the last move.
    fn present(&self) -> Grid
        ensures lines { result.lines ≡ self.now.standing.lines }
        ensures colours { result.colours ≡ board_of self.now.standing }
    {
        self.board.grid()
    }

    /// The colour of a point.
    pub fn colour_at(&self, p: Point) -> Option<Colour>
        requires { IsOn self.now.standing.lines p }
        ensures { result ≡ stone_at (present self.now.standing) p }
    {
        self.board.colour_at(p)
    }

    /// Whether two stones are in one chain.
    pub fn same_chain(&self, p: Point, q: Point) -> bool
        requires p_on { IsOn self.now.standing.lines p }
        requires q_on { IsOn self.now.standing.lines q }
        ensures { result ≡ are_joined (present self.now.standing) p q }
    {
        laws::joined_by_a_path();
        laws::points_by_number();
        let colour = self.colour_at(p);
        if colour != self.colour_at(q) {
            return false;
        }
        if colour.is_none() {
            return same_chain(&self.present(), p, q);
        }
        self.board.same_chain(p, q)
    }

    /// Whether a point is a liberty of a stone's chain.
    pub fn is_liberty(&self, p: Point, q: Point) -> bool
        requires p_on { IsOn self.now.standing.lines p }
        requires q_on { IsOn self.now.standing.lines q }
        ensures { result ≡ has_liberty (present self.now.standing) p q }
    {
        if self.colour_at(p).is_none() {
            return is_liberty(&self.present(), p, q);
        }
        self.board.is_liberty(p, q)
    }

    /// The stones of the chain of the stone on a point, in point order.
    pub fn chain_points(&self, p: Point) -> ChainPoints<'_>
        requires on { IsOn self.now.standing.lines p }
        requires stone { IsSome (stone_at (present self.now.standing) p) }
        ensures { result ≡ chain_stones (present self.now.standing) p }
    {
        self.board.chain_points(p)
    }

    /// The liberties of the chain of the stone on a point, in point order.
    pub fn liberty_points(&self, p: Point) -> ChainPoints<'_>
        requires on { IsOn self.now.standing.lines p }
        requires stone { IsSome (stone_at (present self.now.standing) p) }
        ensures { result ≡ chain_liberties (present self.now.standing) p }
    {
        self.board.liberty_points(p)
    }

    /// How many liberties the chain of the stone on a point has, and 0 where none is there.
    pub(crate) fn liberties_of(&self, p: Point) -> u16
        requires { IsOn self.now.standing.lines p }
        ensures { result ≡ liberties_at (present self.now.standing) p }
    {
        if self.colour_at(p).is_none() {
            return 0;
        }
        self.board.liberties_of(p)
    }

    /// How many points count for each colour.
    pub fn area(&self) -> Area
        ensures black { result.black ≡ area_of self.now.standing Colour.Black }
        ensures white { result.white ≡ area_of self.now.standing Colour.White }
    {
        self.board.area()
    }

    /// After how many moves the superko rule first saw these colours with this colour to move, or
    /// none where it didn't see them.
    pub fn first_seen(&self, grid: &Grid, mover: Colour) -> Option<usize>
        requires { grid.now.lines ≡ self.now.standing.lines }
        ensures { result ≡ (whole_of self.now.standing).history
            (seen_by self.now.standing.rule (grid.now.colours, mover)) }
    {
        laws::packs_tell_colourings_apart();
        prove!(grid.size() == self.size());
        let key = self.superko.key(grid.pack(), mover);
        self.history.look_up(&key)
    }

    /// By how many hundredths of a point Black is ahead, with komi.
    pub fn margin(&self) -> i64
        ensures { result ≡ margin_of self.now.standing }
    {
        let area = self.area();
        let black = i64::from(area.black) * 100;
        let white = i64::from(area.white) * 100;
        black - white - self.komi
    }

    /// The colour that is to move: the other than the last mover's, or the first mover.
    pub fn mover(&self) -> Colour
        ensures { result ≡ mover_of self.now.standing }
    {
        match self.steps.last() {
            Some(step) => step.made.colour.other(),
            None => self.first,
        }
    }

    /// How many stones of a colour were taken, suicides among them.
    pub fn prisoners(&self, colour: Colour) -> u64
        ensures { result ≡ prisoners_of self.now.standing colour }
    {
        self.prisoners.of(colour)
    }
}
