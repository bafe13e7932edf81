//! What each colour of a board holds. Plays that take nothing are judged from that.
ghost use Rattle.std.specs.Prelude.{◌≡◌, ◌<◌, ◌≤◌, ◌+◌, ◌*◌, ◌-ℤ◌, pos, ℕ, Some, None, slice_set};
ghost use Rattle.go_board.specs.Colours.{Colouring, colour_at, other};
ghost use Rattle.go_board.specs.Points.{IsOn, number_of};
ghost use Rattle.go_board.specs.Rows.{rows_of};
ghost use Rattle.go_board.specs.declared.colour.Colour.{Colour};
ghost use Rattle.go_board.specs.declared.rows.TheConstants.{ROWS};
ghost use Rattle.go_chains.specs.Boards.{HoldsStone, grid_of};
ghost use Rattle.go_chains.specs.Playing.{played};
ghost use Rattle.go_game.specs.Choices.{lead_on};
ghost use Rattle.go_game.specs.inner.Trials.{AreHoldings};

use go_board::gains::{gain_of, own_held_with, theirs_held_with};
use go_board::rows::{ByColour, ROWS, Rows, count_alone, held, put_place, row_and_column};
use go_board::{Colour, Point, laws};
use go_chains::Board;

/// By how many points the one area is ahead of the other.
pub(crate) fn ahead(own: u16, theirs: u16) -> i32
    ensures { result ≡ pos own -ℤ pos theirs }
{
    i32::from(own) - i32::from(theirs)
}

/// The stones of a colour, and those of the other.
fn own_and_theirs(stones: &ByColour<Rows>, colour: Colour) -> (Rows, Rows)
    ensures own { result.0 ≡ rows_of stones.now colour }
    ensures theirs { result.1 ≡ rows_of stones.now (other colour) }
{
    match colour {
        Colour::Black => (stones.black, stones.white),
        Colour::White => (stones.white, stones.black),
    }
}

/// What a colour and the other have on a board. A colour holds its stones, and each empty point that
/// is joined to one of them by empty points alone; an empty point may be held by both. `own` and
/// `theirs` are the places of the stones, `own_held` and `theirs_held` those of all points held, and
/// an area counts the points that one colour holds and the other doesn't.
#[derive(Drop)]
pub(crate) struct Holdings {
    pub(crate) own: Rows,
    pub(crate) theirs: Rows,
    pub(crate) own_held: Rows,
    pub(crate) theirs_held: Rows,
    pub(crate) own_area: u16,
    pub(crate) theirs_area: u16,
}

impl Holdings {
    /// What the colours of a board hold, the own one first.
    pub(crate) fn new(board: &Board, colour: Colour) -> Holdings
        ensures { AreHoldings board.now.lines (grid_of board.now) colour result }
    {
        let lines = usize::from(board.size().lines());
        let (own, theirs) = own_and_theirs(&board.stones(), colour);
        let own_held = held(&own, &theirs, lines);
        let theirs_held = held(&theirs, &own, lines);
        let own_area = count_alone(&own_held, &theirs_held, lines);
        let theirs_area = count_alone(&theirs_held, &own_held, lines);
        Holdings {
            own,
            theirs,
            own_held,
            theirs_held,
            own_area,
            theirs_area,
        }
    }

    /// By how many points the colour is ahead, without komi.
    pub(crate) fn lead(&self) -> i32
        ensures { (n : ℕ) (g : Colouring) (c : Colour) → AreHoldings n g c self.now
            → result ≡ lead_on n g c }
    {
        ahead(self.own_area, self.theirs_area)
    }

    /// By how many points this colour is ahead after a play on an empty point that takes nothing, without
    /// komi.
    pub(crate) fn lead_with(&self, board: &Board, colour: Colour, p: Point) -> i32
        requires holdings { AreHoldings board.now.lines (grid_of board.now) colour self.now }
        requires on { IsOn board.now.lines p }
        requires empty { HoldsStone board.now p → ⊥ }
        requires quiet { played board.now colour p
            ≡ slice_set (grid_of board.now) (number_of board.now.lines p) (Some colour) }
        ensures { result ≡ lead_on board.now.lines (played board.now colour p) colour }
    {
        let lines = usize::from(board.size().lines());
        let (row, col) = row_and_column(p);
        self.lead_where(lines, row, col)
    }

    /// By how many points the colour is ahead with a stone on the empty point in this row and column,
    /// without komi: what the stone gains by its neighbours, or else by counting the areas anew.
    fn lead_where(&self, lines: usize, row: usize, col: usize) -> i32
        requires lines { lines ≤ ROWS }
        requires row { row < lines }
        requires col { col < lines }
        ensures { (g : Colouring) (c : Colour) → AreHoldings lines g c self.now
            → colour_at g (row * lines + col) ≡ None
            → result ≡ lead_on lines (slice_set g (row * lines + col) (Some c)) c }
    {
        let gain = gain_of(
            &self.own,
            &self.own_held,
            &self.theirs_held,
            lines,
            row,
            col,
        );
        match gain {
            Some(gain) => {
                i32::from(self.own_area) + i32::from(gain) - i32::from(self.theirs_area)
            }
            None => self.lead_counted(lines, row, col),
        }
    }

    /// The result of `lead_where`, by counting the areas anew.
    fn lead_counted(&self, lines: usize, row: usize, col: usize) -> i32
        requires lines { lines ≤ ROWS }
        requires row { row < lines }
        requires col { col < lines }
        ensures { (g : Colouring) (c : Colour) → AreHoldings lines g c self.now
            → colour_at g (row * lines + col) ≡ None
            → result ≡ lead_on lines (slice_set g (row * lines + col) (Some c)) c }
    {
        laws::points_by_number();
        let mut own = self.own;
        put_place(&mut own, row, col);
        let own_held = own_held_with(&own, &self.theirs, &self.own_held, lines, row, col);
        let theirs_held = theirs_held_with(&own, &self.theirs, &self.theirs_held, lines, row, col);
        ahead(
            count_alone(&own_held, &theirs_held, lines),
            count_alone(&theirs_held, &own_held, lines),
        )
    }
}
