//! The set of points on which a play is legal. `plays.rt` fills it. It is a type of its own, and small,
//! because a decision carries it.
ghost use Rattle.std.specs.Prelude.{◌≡◌, ◌<◌, false, filter, map, replicate, slice_index_or, slice_set};
ghost use Rattle.go_board.specs.Points.{point_at};
ghost use Rattle.go_board.specs.Reaching.{points};
ghost use Rattle.go_board.specs.declared.size.TheConstants.{MAX_POINTS};

use go_board::{MAX_POINTS, PointSet, Points, Size};
use std::marker::Model;

/// For the number of each point, whether a play there is legal. None is where the board has no such point. It
/// is as small as the number of points allows, since a decision carries it.
#[derive(Drop)]
pub struct Plays {
    points: PointSet,
}

impl Model for Plays {
    ghost use Rattle.std.specs.Prelude.{Bool, List};
    ghost use Rattle.goref_results.specs.Marks.{marks_of};

    ghost Value = { List Bool };

    ghost view = { λ p. marks_of p.points };
}

impl Plays {
    /// No play is legal.
    pub fn none() -> Plays
        ensures { result ≡ replicate MAX_POINTS false }
    {
        Plays {
            points: PointSet::new(),
        }
    }

    /// Whether a play on the point with this number is legal.
    pub fn has(&self, number: u16) -> bool
        requires { number < MAX_POINTS }
        ensures { result ≡ slice_index_or self.now number false }
    {
        self.points.has(usize::from(number))
    }

    /// The points of a board on which a play is legal, in point order.
    pub(crate) fn points(&self, size: Size) -> Points<'_>
        ensures { result ≡ map (point_at size)
            (filter (λ p. slice_index_or self.now p false) (points size)) }
    {
        self.points.points(size)
    }

    /// Says whether a play on the point with this number is legal.
    pub fn set(&mut self, number: u16, is_legal: bool)
        requires { number < MAX_POINTS }
        ensures { self.new ≡ slice_set self.old number is_legal }
    {
        let number = usize::from(number);
        if is_legal {
            self.points.put(number);
        } else {
            self.points.leave_out(number);
        }
    }
}
