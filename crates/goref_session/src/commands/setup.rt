//! boardsize, clear_board, komi and goref-superko: what is set before a game.
ghost use Rattle.std.specs.Prelude.{◌≡◌};
ghost use Rattle.goref_session.specs.Arguments.{int_given, komi_given, rule_given};
ghost use Rattle.goref_session.specs.Decisions.{comes_to};
ghost use Rattle.goref_session.specs.Setup.{decided_komi, decided_size, decided_superko};
ghost use Rattle.goref_session.specs.Starts.{emptied};

use crate::arguments::{int_argument, komi_argument, rule_argument};
use crate::decision::{Decision, Refusal};
use go_board::Size;
use go_game::Game;
use goref_lines::Request;
use std::alloc::Allocator;

/// `boardsize`: begins anew on an empty board of this many lines.
pub fn boardsize<A: Allocator + Copy>(game: &mut Game<A>, request: &Request) -> Decision
    ensures { record { decision = result; standing = game.new.standing }
        ≡ decided_size game.old.standing
        (int_given request.now.arguments 0) }
{
    match int_argument(request, 0) {
        None => Decision::Refused(Refusal::SyntaxError),
        Some(lines) => match Size::of(lines) {
            None => Decision::Refused(Refusal::UnacceptableSize),
            Some(size) => {
                game.resize(size);
                Decision::Done
            }
        },
    }
}

/// `clear_board`: begins anew on an empty board.
pub fn clear_board<A: Allocator + Copy>(game: &mut Game<A>) -> Decision
    ensures { record { decision = result; standing = game.new.standing }
        ≡ comes_to (emptied game.old.standing game.old.standing.lines) }
{
    game.clear();
    Decision::Done
}

/// `komi`: sets the komi.
pub fn komi<A: Allocator + Copy>(game: &mut Game<A>, request: &Request) -> Decision
    ensures { record { decision = result; standing = game.new.standing }
        ≡ decided_komi game.old.standing
        (komi_given request.now.arguments 0) }
{
    match komi_argument(request, 0) {
        None => Decision::Refused(Refusal::SyntaxError),
        Some(komi) => {
            game.set_komi(komi);
            Decision::Done
        }
    }
}

/// `goref-superko`: sets the superko rule, if there is no move.
pub fn superko<A: Allocator + Copy>(game: &mut Game<A>, request: &Request) -> Decision
    ensures { record { decision = result; standing = game.new.standing }
        ≡ decided_superko game.old.standing game.old.standing.moves
        (rule_given request.now.arguments 0) }
{
    match rule_argument(request, 0) {
        None => Decision::Refused(Refusal::SyntaxError),
        Some(_) if game.move_count() > 0 => Decision::Refused(Refusal::GameInProgress),
        Some(superko) => {
            game.set_superko(superko);
            Decision::Done
        }
    }
}
