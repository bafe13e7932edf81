//! An iterator over the stones of a chain or its liberties. It fills its set of points late, so a caller who
//! wants only the first stone doesn't pay for the others.
ghost use Rattle.std.specs.Prelude.{◌≡◌};
ghost use Rattle.std.specs.Iterator.{YieldsFirst, item_count};
ghost use Rattle.go_board.specs.Points.{IsOn};
ghost use Rattle.go_chains.specs.Boards.{HoldsStone};
ghost use Rattle.go_chains.specs.inner.Marked.{points_of};

use crate::Board;
use go_board::{Point, PointSet};
use std::marker::Model;

/// What belongs to a chain.
#[derive(Clone, Copy)]
pub(crate) enum Part {
    Stones,
    Liberties,
}

/// How many of the points were given.
#[derive(Clone, Copy)]
enum Progress {
    /// None.
    Fresh,
    /// The first stone alone. The set has no points yet.
    FirstGiven,
    /// Those before the point with this number, from the set.
    Walking(u16),
}

/// The stones of a chain, or its liberties, in point order. A contract sees it as the list of the points
/// that are still to come.
#[derive(Drop)]
pub struct ChainPoints<'a> {
    board: &'a Board,
    /// A stone of the chain.
    stone: Point,
    part: Part,
    points: PointSet,
    progress: Progress,
}

impl<'a> Model for ChainPoints<'a> {
    ghost use Rattle.std.specs.Prelude.{List};
    ghost use Rattle.go_board.specs.Points.{IsOn};
    ghost use Rattle.go_board.specs.declared.point.Point.{Point};
    ghost use Rattle.go_chains.specs.Boards.{HoldsStone};
    ghost use Rattle.go_chains.specs.inner.Marked.{to_come};

    ghost Value = { List Point };

    ghost view = { λ c. to_come c.board.now c.part c.stone c.points c.progress };

    ghost invariant = { λ c. IsOn c.board.now.lines c.stone × HoldsStone c.board.now c.stone };
}

impl<'a> ChainPoints<'a> {
    /// All points of a part of the chain of a stone.
    pub(crate) fn new(board: &'a Board, stone: Point, part: Part) -> ChainPoints<'a>
        requires on { IsOn board.now.lines stone }
        requires stone { HoldsStone board.now stone }
        ensures { result ≡ points_of board.entry.now part stone }
    {
        ChainPoints {
            board,
            stone,
            part,
            points: PointSet::new(),
            progress: Progress::Fresh,
        }
    }
}

impl<'a> Iterator for ChainPoints<'a> {
    type Item = Point;

    ghost next_gives = { YieldsFirst (λ points. points) };

    ghost remaining = { item_count (λ points. points) };

    // Inlined into the caller's loop: a call for each point took half as many steps again, and twice as
    // many where only the first stone was wanted.
    #[inline(always)]
    fn next(&mut self) -> Option<Point> {
        let size = self.board.size();
        let first = match (self.progress, self.part) {
            (Progress::Walking(number), _) => number,
            (Progress::Fresh, Part::Stones) => {
                self.progress = Progress::FirstGiven;
                return Some(Point::numbered(size, self.board.first_stone(self.stone)));
            }
            (progress, part) => {
                let first_given = matches!(progress, Progress::FirstGiven);
                self.board
                    .fill(part, self.stone, first_given, &mut self.points)
            }
        };
        let number = self.points.next(size, first)?;
        self.progress = Progress::Walking(number + 1);
        Some(Point::numbered(size, number))
    }
}
