//! What one node does to a walk: its set-up comes first, then its moves. A node with at most one move is read
//! once. A node with more is read again, for its moves.
ghost use Rattle.std.specs.Prelude.{◌≡◌, ◌≢◌, ◌≤◌, ◌+◌, ◌++◌, ℕ, [], ◌∷◌, Err, IfErr, IfOk, List, Ok, OnOk, Some, false, length, true};
ghost use Rattle.go_record.specs.declared.error.RecordError.{RecordError};
ghost use Rattle.go_record.specs.declared.error.RecordError.TheVariants.{Memory};
ghost use Rattle.go_record.specs.MainLine.{events_of, Event, move_met, move_event, setup_event, stones, turn};
ghost use Rattle.go_record.specs.inner.Kinds.{move_by, setup_by};
ghost use Rattle.go_record.specs.inner.Progress.{AreMoves, Goes, GoesFrom, IsAmongValues, Walked, is_nothing, playing};
ghost use Rattle.go_game.specs.Standings.{GameValue};
ghost use Rattle.go_board.specs.Living.{AreAlive};
ghost use Rattle.go_record.specs.Walks.{IsDeadSetup, Outcome, Plays, start_of};
ghost use Rattle.go_sgf.specs.MainLine.{IsLeft};
ghost use Rattle.go_sgf.specs.Record.{Property};
ghost use Rattle.std.specs.List.{flat_map};

use crate::error::RecordError;
use crate::kind::{Kind, kind_of};
use crate::moves::MovesMet;
use crate::start::{colour_of, first_mover, set_points};
use crate::state::{Remaining, Walk};
use crate::values::first_value;
use go_board::{Colour, Grid, Move, Vertex};
use go_game::{Game, PlayError, SetupError};
use go_sgf::{MainLine, point_of};
use std::alloc::Allocator;

impl Walk {
    /// Visits the node that was entered, which has the number `node`: its set-up, and then its moves.
    pub(crate) fn visit_node<A: Allocator + Copy>(
        &mut self,
        game: &mut Game<A>,
        cursor: &mut MainLine<'_>,
        node: usize,
    ) -> Result<(), RecordError>
        ensures walked { (properties : List Property) (nodes : List (List Property))
            → IsLeft cursor.old [] properties nodes
            → Walked result (self.old, game.old) (events_of node properties)
            (self.new, game.new) }
        ensures cursor { (properties : List Property) (nodes : List (List Property))
            → IsLeft cursor.old [] properties nodes → OnOk result (IsLeft cursor.new [] [] nodes) }
        ensures onward { length cursor.new ≤ length cursor.old }
    {
        let mut again = cursor.fork();
        match self.visit_properties(cursor, node)? {
            MovesMet::NoMove => Ok(()),
            MovesMet::OneMove(colour, value) => self.play_unless_over(game, colour, value, node),
            MovesMet::MoreMoves => self.play_moves(game, &mut again, node),
        }
    }

    /// Visits the set-up properties of a node, and returns the moves that were met.
    fn visit_properties<'a>(
        &mut self,
        cursor: &mut MainLine<'a>,
        node: usize,
    ) -> Result<MovesMet<'a>, RecordError>
        ensures walked { (properties : List Property) (nodes : List (List Property))
            → IsLeft cursor.old [] properties nodes → (game : GameValue)
            → Walked result (self.old, game) (flat_map (setup_event node) properties)
            (self.new, game) }
        ensures moves { (properties : List Property) (nodes : List (List Property))
            → IsLeft cursor.old [] properties nodes → IfOk result (λ moves.
            AreMoves node moves (flat_map (move_event node) properties)) }
        ensures cursor { (properties : List Property) (nodes : List (List Property))
            → IsLeft cursor.old [] properties nodes → OnOk result (IsLeft cursor.new [] [] nodes) }
        ensures onward { length cursor.new ≤ length cursor.old }
    {
        let mut moves = MovesMet::NoMove;
        while let Some(name) = cursor.next_name() {
            self.visit_property(kind_of(name), cursor, node, &mut moves)?;
        }
        Ok(moves)
    }

    /// Visits a property of this kind. It sets up stones at once, and only notes a move.
    fn visit_property<'a>(
        &mut self,
        kind: Kind,
        cursor: &mut MainLine<'a>,
        node: usize,
        moves: &mut MovesMet<'a>,
    ) -> Result<(), RecordError>
        ensures walked { (values : List (List ℕ)) (later : List Property)
            (nodes : List (List Property)) → IsLeft cursor.old values later nodes
            → (game : GameValue)
            → Walked result (self.old, game) (setup_by node kind values) (self.new, game) }
        ensures moves { (values : List (List ℕ)) (later : List Property)
            (nodes : List (List Property)) → IsLeft cursor.old values later nodes
            → (before : List Event) → AreMoves node moves.old before
            → AreMoves node moves.new (before ++ move_by node kind values) }
        ensures cursor { (later : List Property) (nodes : List (List Property))
            → IsAmongValues cursor.old later nodes → IsAmongValues cursor.new later nodes }
        ensures onward { length cursor.new ≤ length cursor.old }
    {
        match kind {
            Kind::Stones(colour) => self.set_stones(colour, cursor, node),
            Kind::Turn => self.set_turn(first_value(cursor), node),
            Kind::Move(colour) => {
                moves.meet(colour, first_value(cursor));
                Ok(())
            }
            Kind::Other => Ok(()),
        }
    }

    /// Plays the moves among the properties of a node.
    fn play_moves<A: Allocator + Copy>(
        &mut self,
        game: &mut Game<A>,
        cursor: &mut MainLine<'_>,
        node: usize,
    ) -> Result<(), RecordError>
        ensures { (properties : List Property) (nodes : List (List Property))
            → IsLeft cursor.old [] properties nodes
            → Walked result (self.old, game.old) (flat_map (move_event node) properties)
            (self.new, game.new) }
    {
        while let Some(name) = cursor.next_name() {
            self.visit_move(game, kind_of(name), cursor, node)?;
        }
        Ok(())
    }

    /// Plays the move of a property, if it is a move.
    fn visit_move<A: Allocator + Copy>(
        &mut self,
        game: &mut Game<A>,
        kind: Kind,
        cursor: &mut MainLine<'_>,
        node: usize,
    ) -> Result<(), RecordError>
        ensures walked { (values : List (List ℕ)) (later : List Property)
            (nodes : List (List Property)) → IsLeft cursor.old values later nodes
            → Walked result (self.old, game.old) (move_by node kind values)
            (self.new, game.new) }
        ensures cursor { (later : List Property) (nodes : List (List Property))
            → IsAmongValues cursor.old later nodes → IsAmongValues cursor.new later nodes }
        ensures onward { length cursor.new ≤ length cursor.old }
    {
        match kind {
            Kind::Move(colour) => self.play_unless_over(game, colour, first_value(cursor), node),
            Kind::Stones(_) | Kind::Turn | Kind::Other => Ok(()),
        }
    }

    /// Gives the points of a property's values a colour, or empties them. No caller reaches this function
    /// after the end of the walk. Its contract allows such a call, so it tests for the end.
    fn set_stones(
        &mut self,
        colour: Option<Colour>,
        cursor: &mut MainLine<'_>,
        node: usize,
    ) -> Result<(), RecordError>
        ensures walked { (values : List (List ℕ)) (later : List Property)
            (nodes : List (List Property)) → IsLeft cursor.old values later nodes
            → (game : GameValue)
            → Walked result (self.old, game) (stones node colour values ∷ []) (self.new, game) }
        ensures cursor { (later : List Property) (nodes : List (List Property))
            → IsAmongValues cursor.old later nodes → IsAmongValues cursor.new later nodes }
        ensures onward { length cursor.new ≤ length cursor.old }
    {
        if self.is_over() {
            return Ok(());
        }
        if self.has_played {
            return Err(RecordError::SetupAfterMove(node));
        }
        match set_points(&mut self.grid, colour, cursor) {
            Some(()) => Ok(()),
            None => Err(RecordError::BadValue(node)),
        }
    }

    /// Gives the turn to the colour that a value names. After a move it does nothing.
    fn set_turn(&mut self, value: &[u8], node: usize) -> Result<(), RecordError>
        ensures { (game : GameValue) → Walked result (self.old, game) (turn node value.now ∷ [])
            (self.new, game) }
    {
        if self.is_over() || self.has_played {
            return Ok(());
        }
        match colour_of(value) {
            Some(colour) => {
                self.given_mover = Some(colour);
                Ok(())
            }
            None => Err(RecordError::BadValue(node)),
        }
    }

    /// Whether the walk is over.
    pub(crate) fn is_over(&self) -> bool
        ensures { result ≡ is_nothing self.now.remaining }
    {
        matches!(self.remaining, Remaining::Nothing)
    }

    /// Plays the move of a value, unless the walk ends before it.
    fn play_unless_over<A: Allocator + Copy>(
        &mut self,
        game: &mut Game<A>,
        colour: Colour,
        value: &[u8],
        node: usize,
    ) -> Result<(), RecordError>
        ensures { Walked result (self.old, game.old) (move_met node colour value.now ∷ [])
            (self.new, game.new) }
    {
        match self.remaining {
            Remaining::All => self.play(game, colour, value, node),
            Remaining::Moves(remaining) => {
                if remaining == 0 {
                    self.remaining = Remaining::Nothing;
                    return Ok(());
                }
                self.remaining = Remaining::Moves(remaining - 1);
                self.play(game, colour, value, node)
            }
            Remaining::Nothing => Ok(()),
        }
    }

    /// Plays the move of a value. Before the first one it begins the game from the set-up.
    fn play<A: Allocator + Copy>(
        &mut self,
        game: &mut Game<A>,
        colour: Colour,
        value: &[u8],
        node: usize,
    ) -> Result<(), RecordError>
        ensures remaining { self.new.remaining ≡ self.old.remaining }
        ensures ok { OnOk result ((events : List Event) (outcome : Outcome)
            → GoesFrom self.new (playing (self.new, game.new)) events outcome
            → GoesFrom self.old (playing (self.old, game.old))
            (move_met node colour value.now ∷ events) outcome) }
        ensures err { IfErr result (λ e. e ≢ Memory → (events : List Event)
            → GoesFrom self.old (playing (self.old, game.old))
            (move_met node colour value.now ∷ events) (Err e)) }
    {
        if self.has_played {
            return play_value(game, colour, value, node);
        }
        self.begin(game)?;
        self.has_played = true;
        play_value(game, colour, value, node)
    }

    /// Begins the game from the stones set up, under the positional superko rule.
    fn begin<A: Allocator + Copy>(&self, game: &mut Game<A>) -> Result<(), RecordError>
        ensures ok { OnOk result (AreAlive self.now.grid.lines self.now.grid.colours
            × (game.new.standing
            ≡ start_of self.now.grid.lines self.now.komi self.now.grid.colours self.now.given_mover)) }
        ensures err { IfErr result (λ e. e ≢ Memory
            → IsDeadSetup self.now.grid.lines self.now.grid.colours (Err e)) }
    {
        match game.begin_from(&self.grid, first_mover(&self.grid, self.given_mover)) {
            Ok(()) => {
                game.set_komi(self.komi);
                Ok(())
            }
            Err(SetupError::NoLiberty(p)) => Err(RecordError::DeadSetup(p)),
            Err(SetupError::Memory) => Err(RecordError::Memory),
        }
    }

    /// Ends the walk. If it played no move, the game begins from the stones set up.
    pub(crate) fn finish<A: Allocator + Copy>(&self, game: &mut Game<A>) -> Result<(), RecordError>
        ensures ok { OnOk result (Goes (self.now, game.old) [] (Ok game.new.standing)) }
        ensures err { IfErr result (λ e. e ≢ Memory → Goes (self.now, game.old) [] (Err e)) }
    {
        if self.has_played {
            return Ok(());
        }
        self.begin(game)
    }
}

/// Plays the move of a value on a game.
fn play_value<A: Allocator + Copy>(
    game: &mut Game<A>,
    colour: Colour,
    value: &[u8],
    node: usize,
) -> Result<(), RecordError>
    ensures ok { OnOk result ((events : List Event) (outcome : Outcome)
        → Plays game.new.standing events outcome
        → Plays game.old.standing (move_met node colour value.now ∷ events) outcome) }
    ensures err { IfErr result (λ e. e ≢ Memory → (events : List Event)
        → Plays game.old.standing (move_met node colour value.now ∷ events) (Err e)) }
{
    let Some(vertex) = point_of(value, game.size()) else {
        return Err(RecordError::BadValue(node));
    };
    let count = game.move_count();
    match game.play(Move { colour, vertex }) {
        Ok(_) => Ok(()),
        Err(why) => Err(refusal(count, why)),
    }
}

/// The refusal of the move after `count` moves.
fn refusal(count: usize, why: PlayError) -> RecordError
    ensures { result ≢ Memory
        → (result ≡ RecordError.Illegal (count + 1) why) × (why ≢ PlayError.Memory) }
{
    match (why, next_number(count)) {
        (PlayError::Memory, _) => RecordError::Memory,
        (_, Ok(number)) => RecordError::Illegal(number, why),
        (_, Err(error)) => error,
    }
}

/// The number after this one, of a node or a move. It refuses `usize::MAX`, but no record is that long.
pub(crate) fn next_number(number: usize) -> Result<usize, RecordError>
    ensures ok { IfOk result (λ after. after ≡ number + 1) }
    ensures err { IfErr result (λ e. e ≡ Memory) }
{
    match number.checked_add(1) {
        Some(after) => Ok(after),
        None => Err(RecordError::Memory),
    }
}
