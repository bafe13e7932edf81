//! What is legal, and the plain choice of a play. Plays that take nothing are judged without being
//! played. Others are tried on the game itself, and taken back.
ghost use Rattle.std.specs.Prelude.{◌≡◌, ◌≢◌, ◌<◌, ◌≤◌, ◌+◌, ◌*◌, ◌↔◌, false, true, Contains, IfOk, IsTrue, OnErr, None, Some, slice_set};
ghost use Rattle.go_game.specs.inner.Trials.{better_of};

use crate::holdings::{Holdings, ahead};
use crate::{Game, PlayError};
use go_board::{Colour, Move, Point, Vertex, laws};
use std::alloc::{AllocError, Allocator};

/// What is found of a play on an empty point.
pub enum Judged {
    /// It leaves what the superko rule saw before.
    Illegal,
    /// It is legal and takes nothing. It wasn't played.
    Quiet,
    /// It is legal and takes stones. Its stone is still placed: the caller takes it back.
    StillPlaced,
}

/// A play, and what its colour gains by it.
#[derive(Clone, Copy)]
pub struct Trial {
    pub point: Point,
    /// By how many points the colour is ahead after the play, without komi.
    pub lead: i32,
    /// How many liberties the placed stone's chain has then, and 0 if it is gone.
    pub liberties: u16,
}

impl Trial {
    ghost use Rattle.go_game.specs.inner.Trials.{beats};

    /// Whether it leads by more than another, or by no less and with more liberties.
    fn beats(self, other: Trial) -> bool
        ensures { result ≡ beats self other }
    {
        self.lead > other.lead || self.lead == other.lead && self.liberties > other.liberties
    }
}

/// The better one of two trials, and the earlier where neither is.
fn better_of(earlier: Option<Trial>, later: Option<Trial>) -> Option<Trial>
    ensures { result ≡ better_of earlier later }
{
    match (earlier, later) {
        (None, _) => later,
        (Some(best), Some(next)) if next.beats(best) => later,
        _ => earlier,
    }
}

impl<A: Allocator + Copy> Game<A> {
    ghost use Rattle.go_chains.specs.Playing.{reads_around};
    ghost use Rattle.go_game.specs.Choices.{chosen, lead_of};
    ghost use Rattle.go_game.specs.Counts.{IsAsBefore, most_for, most_on_all};
    ghost use Rattle.go_game.specs.Legal.{Takes, TakesNothing, is_legal, is_open};
    ghost use Rattle.go_game.specs.Standings.{IsLegal, IsOccupied, IsOffBoard, Seen, after_vertex, board_of, present, stood_of};
    ghost use Rattle.go_board.specs.Colours.{colour_at};
    ghost use Rattle.go_game.specs.inner.Trials.{AreHoldings, IsBestTrial, IsJudged, tried_on};
    ghost use Rattle.go_board.specs.Grids.{stone_at};
    ghost use Rattle.go_board.specs.Points.{IsOn, number_of};

    /// Whether the rules allow a move; one off the board isn't legal. A play that takes stones is tried on
    /// the game, and taken back also where there was no memory for it. No other move needs memory: a pass,
    /// a point off the board or with a stone, and a play that takes nothing.
    pub fn legal(&mut self, made: Move) -> Result<bool, AllocError>
        ensures rules { IfOk result
            (λ legal. IsTrue legal ↔ IsLegal self.old.standing made.colour made.vertex) }
        ensures test { IfOk result
            (λ legal. legal ≡ is_legal self.old.standing made.colour made.vertex) }
        ensures tried { OnErr result ((IsOffBoard self.old.standing made.vertex → ⊥)
            × (IsOccupied self.old.standing made.vertex → ⊥)) }
        ensures memory { OnErr result (Takes self.old.standing made.colour made.vertex) }
        ensures same { IsAsBefore self.old self.new }
        ensures count { self.new.count
            ≤ self.old.count + 4 * most_for self.old.standing made.colour made.vertex }
        ensures glance { (p : Point) → made.vertex ≡ Vertex.At p
            → TakesNothing self.old.standing made.colour p
            → self.new.count ≤ self.old.count + reads_around }
    {
        match made.vertex {
            Vertex::Pass => Ok(true),
            Vertex::At(p) if !self.is_open(p) => Ok(false),
            Vertex::At(p) => match self.judge(made.colour, p)? {
                Judged::Illegal => Ok(false),
                Judged::Quiet => Ok(true),
                Judged::StillPlaced => {
                    self.undo();
                    Ok(true)
                }
            },
        }
    }

    /// Whether a point is on the board and empty.
    fn is_open(&self, p: Point) -> bool
        ensures point { IsTrue result ↔ (IsOn self.now.standing.lines p
            × (stone_at (present self.now.standing) p ≡ None)) }
        ensures test { result ≡ is_open self.now.standing (Vertex.At p) }
    {
        p.on(self.size()) && self.colour_at(p).is_none()
    }

    /// Judges a play on an empty point: by its neighbours where it takes nothing, else by playing it.
    fn judge(&mut self, colour: Colour, p: Point) -> Result<Judged, AllocError>
        requires on { IsOn self.old.standing.lines p }
        requires vacant { stone_at (present self.old.standing) p ≡ None }
        ensures judged { IfOk result (λ judged. IsJudged colour p judged self.old self.new) }
        ensures memory { OnErr result (Takes self.old.standing colour (Vertex.At p)) }
        ensures err { OnErr result (IsAsBefore self.old self.new) }
        ensures most { self.new.count
            ≤ self.old.count + 4 * most_for self.old.standing colour (Vertex.At p) }
        ensures glance { TakesNothing self.old.standing colour p
            → self.new.count ≤ self.old.count + reads_around }
    {
        if self.board.is_quiet(&mut self.meter, colour, p) {
            let new = self.leaves_new(colour, p);
            return Ok(if new { Judged::Quiet } else { Judged::Illegal });
        }
        match self.place_stone(colour, p) {
            Ok(_) => Ok(Judged::StillPlaced),
            Err(PlayError::Repeats(_)) => Ok(Judged::Illegal),
            Err(_) => Err(AllocError),
        }
    }

    /// The plain choice for a colour, whoever is to move: among its legal plays the one after which
    /// it is ahead by most points, then with most liberties of the placed stone's chain, then the
    /// first in point order; or a pass where no play puts it further ahead than it is. A play that
    /// takes stones is tried on the game, and taken back also where there was no memory for it.
    pub fn choose(&mut self, colour: Colour) -> Result<Vertex, AllocError>
        ensures ok { IfOk result (λ vertex. vertex ≡ chosen self.old.standing colour) }
        ensures memory { OnErr result
            ((p : Point) × Takes self.old.standing colour (Vertex.At p)) }
        ensures same { IsAsBefore self.old self.new }
        ensures count { self.new.count
            ≤ self.old.count + 4 * most_on_all self.old.standing colour }
    {
        let holdings = self.holdings(colour);
        let standing_lead = holdings.lead();
        match self.best_trial(&holdings, colour)? {
            Some(best) if best.lead > standing_lead => Ok(Vertex::At(best.point)),
            _ => Ok(Vertex::Pass),
        }
    }

    /// What both colours hold now, for this one.
    fn holdings(&self, colour: Colour) -> Holdings
        ensures { AreHoldings self.now.standing.lines (board_of self.now.standing) colour result }
    {
        Holdings::new(&self.board, colour)
    }

    /// The first of the best among a colour's legal plays, or none where it has none.
    fn best_trial(
        &mut self,
        holdings: &Holdings,
        colour: Colour,
    ) -> Result<Option<Trial>, AllocError>
        requires holdings { AreHoldings self.old.standing.lines (board_of self.old.standing) colour
            holdings.now }
        ensures ok { IfOk result (IsBestTrial self.old.standing colour
            (self.old.standing.lines * self.old.standing.lines)) }
        ensures memory { OnErr result
            ((p : Point) × Takes self.old.standing colour (Vertex.At p)) }
        ensures same { IsAsBefore self.old self.new }
        ensures count { self.new.count
            ≤ self.old.count + 4 * most_on_all self.old.standing colour }
    {
        let size = self.size();
        let mut best = None;
        for number in 0..size.points() {
            let trial = self.try_at(holdings, colour, Point::numbered(size, number))?;
            best = better_of(best, trial);
        }
        Ok(best)
    }

    /// The trial of the play on a point, or none where it isn't legal. It is played only where it may take
    /// stones.
    fn try_at(
        &mut self,
        holdings: &Holdings,
        colour: Colour,
        point: Point,
    ) -> Result<Option<Trial>, AllocError>
        requires on { IsOn self.old.standing.lines point }
        requires holdings { AreHoldings self.old.standing.lines (board_of self.old.standing) colour
            holdings.now }
        ensures ok { IfOk result (λ trial. trial ≡ tried_on self.old.standing colour point) }
        ensures memory { OnErr result (Takes self.old.standing colour (Vertex.At point)) }
        ensures same { IsAsBefore self.old self.new }
        ensures count { self.new.count
            ≤ self.old.count + 4 * most_for self.old.standing colour (Vertex.At point) }
        ensures glance { TakesNothing self.old.standing colour point
            → self.new.count ≤ self.old.count + 2 * reads_around }
    {
        prove!(point.on(self.size()));
        if self.colour_at(point).is_some() {
            return Ok(None);
        }
        match self.judge(colour, point)? {
            Judged::Illegal => Ok(None),
            Judged::Quiet => {
                let lead = holdings.lead_with(&self.board, colour, point);
                let liberties = self.board.liberties_with(&mut self.meter, colour, point);
                Ok(Some(Trial {
                    point,
                    lead,
                    liberties,
                }))
            }
            Judged::StillPlaced => {
                let trial = Trial {
                    point,
                    lead: self.lead(colour),
                    liberties: self.liberties_of(point),
                };
                self.undo();
                Ok(Some(trial))
            }
        }
    }

    /// Whether a play on an empty point that takes nothing is legal: whether the superko rule didn't see what
    /// it leaves.
    fn leaves_new(&self, colour: Colour, p: Point) -> bool
        requires on { IsOn self.now.standing.lines p }
        requires vacant { stone_at (present self.now.standing) p ≡ None }
        requires quiet { after_vertex self.now.standing.lines (board_of self.now.standing) colour
            (Vertex.At p) ≡ slice_set (board_of self.now.standing)
            (number_of self.now.standing.lines p) (Some colour) }
        ensures { result ≡ is_legal self.now.standing colour (Vertex.At p) }
    {
        laws::points_by_number();
        prove!(p.on(self.size()));
        if self.is_first_there(colour, p) {
            return true;
        }
        let pack = self.board.pack_with(colour, p);
        let key = self.superko.key(pack, colour.other());
        self.history.look_up(&key).is_none()
    }

    /// Whether no stone of this colour was on a point since the start. Its contract says only what yes
    /// means, since plays that were taken back count too.
    fn is_first_there(&self, colour: Colour, p: Point) -> bool
        requires { IsOn self.now.standing.lines p }
        ensures { (x : Seen) → IsTrue result → Contains (stood_of self.now.standing) x
            → colour_at x.0 (number_of self.now.standing.lines p) ≢ Some colour }
    {
        !self.placed.has(colour, p) && self.start_at(p) != Some(colour)
    }

    /// By how many points a colour is ahead, without komi.
    fn lead(&self, colour: Colour) -> i32
        ensures { result ≡ lead_of self.now.standing colour }
    {
        let area = self.area();
        match colour {
            Colour::Black => ahead(area.black, area.white),
            Colour::White => ahead(area.white, area.black),
        }
    }
}
