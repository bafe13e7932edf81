//! Games that start from a grid.
ghost use Rattle.std.specs.Prelude.{◌≡◌, ◌<◌, ◌≤◌, ◌+◌, ◌*◌, Err, IfOk, IsErrOf, None, OnOk, length, replicate};
ghost use Rattle.go_board.specs.Living.{AreAlive, IsFirstDead};
ghost use Rattle.go_board.specs.declared.colour.Colour.{Colour};
ghost use Rattle.go_board.specs.declared.point.Point.{Point};
ghost use Rattle.go_board.specs.declared.size.TheConstants.{MAX_LINES};
ghost use Rattle.go_chains.specs.Sound.{IsKept};
ghost use Rattle.go_chains.specs.Boards.{grid_of};
ghost use Rattle.go_game.specs.Counts.{most_to_fill};
ghost use Rattle.go_game.specs.inner.Building.{IsFilledTo, most_to_put};
ghost use Rattle.go_game.specs.Standings.{empty_start, started};

use crate::{Game, SetupError, Superko};
use go_board::plain::first_dead;
use go_board::{Colour, Grid, Meter, Point, laws};
use go_chains::{Board, Log};
use std::alloc::{AllocError, Allocator};

impl<A: Allocator + Copy> Game<A> {
    /// A game that starts from this grid, with komi 0, positional superko and this colour to move.
    pub fn start_from(alloc: A, grid: &Grid, first: Colour) -> Result<Game<A>, SetupError>
        ensures ok { IfOk result (λ game. game.standing ≡ started grid.now first) }
        ensures count { IfOk result (λ game. game.count ≡ 0) }
        ensures no_liberty { (p : Point) → result ≡ Err (SetupError.NoLiberty p)
            → IsFirstDead grid.now.lines grid.now.colours p }
        ensures alive { OnOk result (AreAlive grid.now.lines grid.now.colours) }
        ensures memory_alive { IsErrOf result SetupError.Memory
            → AreAlive grid.now.lines grid.now.colours }
    {
        let mut game = Game::new(alloc, grid.size());
        match game.begin_from(grid, first) {
            Ok(()) => Ok(game),
            Err(why) => Err(why),
        }
    }

    /// Begins anew from this grid, with komi 0, positional superko and this colour to move. If a chain
    /// has no liberty, the game stays as it was. If there is no memory for the plays that place the
    /// stones, its board is empty, as after `resize`.
    pub fn begin_from(&mut self, grid: &Grid, first: Colour) -> Result<(), SetupError>
        ensures ok { OnOk result (self.new.standing ≡ started grid.now first) }
        ensures count { self.new.count ≡ self.old.count }
        ensures no_liberty { (p : Point) → result ≡ Err (SetupError.NoLiberty p)
            → IsFirstDead grid.now.lines grid.now.colours p × (self.new ≡ self.old) }
        ensures memory { IsErrOf result SetupError.Memory
            → self.new.standing ≡ empty_start grid.now.lines self.old.standing.komi
            self.old.standing.rule }
        ensures alive { OnOk result (AreAlive grid.now.lines grid.now.colours) }
        ensures memory_alive { IsErrOf result SetupError.Memory
            → AreAlive grid.now.lines grid.now.colours }
        ensures writes { length self.new.trace ≤ length self.old.trace
            + 2 * (grid.now.lines * grid.now.lines) + most_to_fill grid.now }
    {
        laws::packs_tell_colourings_apart();
        if let Some(p) = first_dead(grid) {
            return Err(SetupError::NoLiberty(p));
        }
        let size = grid.size();
        self.resize(size);
        // The game's own log stays empty, so `undo` stops at the start.
        let mut log = Log::new(*self.steps.allocator());
        let Ok(()) = fill(&mut self.board, grid, &mut log) else {
            self.board.clear(size);
            return Err(SetupError::Memory);
        };
        self.start = grid.copy();
        self.komi = 0;
        self.superko = Superko::Positional;
        self.first = first;
        let key = self.superko.key(self.board.pack(), first);
        self.history.restart(key);
        Ok(())
    }
}

/// Places the stones of a grid, each of which reaches an empty point, on an empty board. They are played
/// one after the other, and none of these plays takes a stone.
fn fill<A: Allocator + Copy>(
    board: &mut Board,
    grid: &Grid,
    log: &mut Log<A>,
) -> Result<(), AllocError>
    requires alive { AreAlive grid.now.lines grid.now.colours }
    requires lines { board.old.lines ≡ grid.now.lines }
    requires empty { grid_of board.old ≡ replicate (grid.now.lines * grid.now.lines) None }
    requires kept { IsKept board.old.lines board.old.cells }
    ensures size { (0 < grid.now.lines) × (grid.now.lines ≤ MAX_LINES) }
    ensures whole { length grid.now.colours ≡ grid.now.lines * grid.now.lines }
    ensures lines { board.new.lines ≡ grid.now.lines }
    ensures kept { IsKept board.new.lines board.new.cells }
    ensures colours { OnOk result (grid_of board.new ≡ grid.now.colours) }
    ensures writes { length board.new.trace ≤ length board.old.trace + most_to_fill grid.now }
{
    let mut meter = Meter::new();
    for number in 0..grid.size().points() {
        put_stone(grid, number, board, log, &mut meter)?;
    }
    Ok(())
}

/// Plays the stone of a grid's point on the board, if there is one.
fn put_stone<A: Allocator + Copy>(
    grid: &Grid,
    number: u16,
    board: &mut Board,
    log: &mut Log<A>,
    meter: &mut Meter,
) -> Result<(), AllocError>
    requires number { number < grid.now.lines * grid.now.lines }
    requires alive { AreAlive grid.now.lines grid.now.colours }
    requires lines { board.old.lines ≡ grid.now.lines }
    requires kept { IsKept board.old.lines board.old.cells }
    requires filled { IsFilledTo grid.now.lines grid.now.colours number (grid_of board.old) }
    ensures lines { board.new.lines ≡ grid.now.lines }
    ensures kept { IsKept board.new.lines board.new.cells }
    ensures filled { OnOk result (IsFilledTo grid.now.lines grid.now.colours (number + 1)
        (grid_of board.new)) }
    ensures writes { length board.new.trace
        ≤ length board.old.trace + most_to_put grid.now number }
{
    laws::points_by_number();
    laws::reaches_by_a_path();
    let at = Point::numbered(grid.size(), number);
    match grid.get(at) {
        None => Ok(()),
        Some(colour) => match board.play(log, meter, colour, at) {
            Ok(_) => Ok(()),
            Err(_) => Err(AllocError),
        },
    }
}
