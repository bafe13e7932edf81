//! known_command. The other questions have nothing to decide.
ghost use Rattle.std.specs.Prelude.{◌≡◌, slice_get};
ghost use Rattle.go_game.specs.Standings.{Standing};
ghost use Rattle.goref_session.specs.Telling.{decided_known};

use crate::command::command_named;
use crate::decision::{Decision, Fact, Refusal};
use goref_lines::Request;

/// `known_command`: answers whether a name is that of a command.
pub fn known_command(request: &Request) -> Decision
    ensures { (s : Standing) → record { decision = result; standing = s }
        ≡ decided_known s (slice_get request.now.arguments 0) }
{
    match request.argument(0) {
        None => Decision::Refused(Refusal::SyntaxError),
        Some(word) => Decision::Tells(Fact::Known(command_named(word).is_some())),
    }
}
