//! The second game of a session, and whether it is the current one. The first load takes the memory for it.
ghost use Rattle.std.specs.Prelude.{◌≡◌, IfOk, OnErr, Some, false};
ghost use Rattle.go_game.specs.Standings.{Standing};
ghost use Rattle.goref_session.specs.Record.{DecidesBytes};
ghost use Rattle.goref_session.specs.inner.Refusing.{after_load};
ghost use Rattle.goref_session.specs.inner.Current.{current_of};

use crate::commands::record::{BytesToLoad, load_into};
use crate::decision::Refusal;
use go_board::Size;
use go_game::Game;
use std::alloc::{AllocError, Allocator};

/// The second game, and whether it is the current one. A record is loaded into the game that isn't current. So
/// a refused record leaves the current game as it is, and no game is copied.
#[derive(Drop)]
pub struct Second<A: Allocator + Copy> {
    pub game: Box<Game<A>, A>,
    pub is_current: bool,
}

impl<A: Allocator + Copy> Second<A> {
    /// A second game that isn't current.
    pub fn new(alloc: A, size: Size) -> Result<Second<A>, AllocError>
        ensures { IfOk result (λ second. second.is_current ≡ false) }
    {
        let game = Box::new(alloc, Game::new(alloc, size))?;
        Ok(Second {
            game,
            is_current: false,
        })
    }

    /// Loads a record into the game that isn't current. Then that game is current, under the positional superko
    /// rule, and the game that was current before is cleared. Of the memory taken for moves, the cleared game
    /// keeps at most a hash table for 1,024 keys.
    pub fn load(&mut self, first: &mut Game<A>, to_load: &BytesToLoad) -> Result<(), Refusal>
        ensures decides { (s : Standing) → s ≡ current_of first.old.standing (Some self.old) →
            DecidesBytes s to_load.now.bytes.now to_load.now.number
            (after_load s (current_of first.new.standing (Some self.new)) result) }
        ensures stays { OnErr result (current_of first.new.standing (Some self.new)
            ≡ current_of first.old.standing (Some self.old)) }
    {
        if self.is_current {
            load_into(first, to_load)?;
            self.game.clear();
        } else {
            load_into(&mut self.game, to_load)?;
            first.clear();
        }
        self.is_current = !self.is_current;
        Ok(())
    }
}
