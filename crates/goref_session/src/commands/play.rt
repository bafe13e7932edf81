//! play, genmove, reg_genmove, undo and goref-legal: the moves of a game.
ghost use Rattle.std.specs.Prelude.{◌≡◌, Some};
ghost use Rattle.goref_session.specs.Arguments.{colour_given, vertex_given};
ghost use Rattle.goref_session.specs.Decisions.{MayDecide};
ghost use Rattle.goref_session.specs.Play.{DecidesPlay, decided_choice, decided_genmove, decided_legal, decided_undo};
ghost use Rattle.goref_session.specs.inner.Refusing.{move_refusal};

use crate::arguments::{colour_argument, vertex_argument};
use crate::decision::{Decision, Fact, Refusal};
use go_board::{Colour, Move, VertexError};
use go_game::{Game, PlayError, laws};
use goref_lines::Request;
use goref_results::legal_plays;
use std::alloc::Allocator;

/// `play`: makes a move of a colour.
pub fn play<A: Allocator + Copy>(game: &mut Game<A>, request: &Request) -> Decision
    ensures { DecidesPlay game.old.standing
        (colour_given request.now.arguments 0)
        (vertex_given request.now.arguments 1)
        (record { decision = result; standing = game.new.standing }) }
{
    match colour_argument(request, 0) {
        None => Decision::Refused(Refusal::SyntaxError),
        Some(colour) => match vertex_argument(request, 1, game.size()) {
            Err(VertexError::Malformed) => Decision::Refused(Refusal::SyntaxError),
            Err(VertexError::OffBoard) => Decision::Refused(Refusal::IllegalMove),
            Ok(vertex) => play_move(game, Move { colour, vertex }),
        },
    }
}

/// Makes a move, if it is legal.
fn play_move<A: Allocator + Copy>(game: &mut Game<A>, made: Move) -> Decision
    ensures { DecidesPlay game.old.standing (Some made.colour) (Some made.vertex)
        (record { decision = result; standing = game.new.standing }) }
{
    laws::legal_by_the_rules();
    match game.play(made) {
        Ok(_) => Decision::Done,
        Err(error) => Decision::Refused(refusal_of(error)),
    }
}

/// Why a move is refused, as the answer says it.
fn refusal_of(error: PlayError) -> Refusal
    ensures { result ≡ move_refusal error }
{
    match error {
        PlayError::OffBoard => Refusal::IllegalMove,
        PlayError::Occupied => Refusal::IllegalMove,
        PlayError::Repeats(_) => Refusal::IllegalMove,
        PlayError::Memory => Refusal::OutOfMemory,
    }
}

/// `genmove`: plays the choice for a colour, and answers it.
pub fn genmove<A: Allocator + Copy>(game: &mut Game<A>, request: &Request) -> Decision
    ensures { MayDecide game.old.standing (decided_genmove game.old.standing
        (colour_given request.now.arguments 0))
        (record { decision = result; standing = game.new.standing }) }
{
    match colour_argument(request, 0) {
        None => Decision::Refused(Refusal::SyntaxError),
        Some(colour) => play_choice(game, colour),
    }
}

/// Plays the choice for a colour. It is legal, so only lack of memory can refuse it.
fn play_choice<A: Allocator + Copy>(game: &mut Game<A>, colour: Colour) -> Decision
    ensures { MayDecide game.old.standing (decided_genmove game.old.standing (Some colour))
        (record { decision = result; standing = game.new.standing }) }
{
    let Ok(vertex) = game.choose(colour) else {
        return Decision::Refused(Refusal::OutOfMemory);
    };
    match game.play(Move { colour, vertex }) {
        Ok(_) => Decision::Tells(Fact::Choice(vertex)),
        Err(_) => Decision::Refused(Refusal::OutOfMemory),
    }
}

/// `reg_genmove`: answers the choice, and doesn't play it.
pub fn reg_genmove<A: Allocator + Copy>(game: &mut Game<A>, request: &Request) -> Decision
    ensures { MayDecide game.old.standing (decided_choice game.old.standing
        (colour_given request.now.arguments 0))
        (record { decision = result; standing = game.new.standing }) }
{
    match colour_argument(request, 0) {
        None => Decision::Refused(Refusal::SyntaxError),
        Some(colour) => match game.choose(colour) {
            Ok(vertex) => Decision::Tells(Fact::Choice(vertex)),
            Err(_) => Decision::Refused(Refusal::OutOfMemory),
        },
    }
}

/// `undo`: takes back the last move.
pub fn undo<A: Allocator + Copy>(game: &mut Game<A>) -> Decision
    ensures { record { decision = result; standing = game.new.standing }
        ≡ decided_undo game.old.standing game.old.standing.moves }
{
    match game.undo() {
        Some(_) => Decision::Done,
        None => Decision::Refused(Refusal::CannotUndo),
    }
}

/// `goref-legal`: answers the legal plays of a colour.
pub fn legal<A: Allocator + Copy>(game: &mut Game<A>, request: &Request) -> Decision
    ensures { MayDecide game.old.standing (decided_legal game.old.standing
        (colour_given request.now.arguments 0))
        (record { decision = result; standing = game.new.standing }) }
{
    match colour_argument(request, 0) {
        None => Decision::Refused(Refusal::SyntaxError),
        Some(colour) => match legal_plays(game, colour) {
            Ok(plays) => Decision::Tells(Fact::Plays(plays)),
            Err(_) => Decision::Refused(Refusal::OutOfMemory),
        },
    }
}
