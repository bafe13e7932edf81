//! time_settings and time_left: the times are read, and nothing is done with them.
ghost use Rattle.std.specs.Prelude.{◌≡◌};
ghost use Rattle.go_game.specs.Standings.{Standing};
ghost use Rattle.goref_session.specs.Arguments.{colour_given, int_given};
ghost use Rattle.goref_session.specs.Time.{decided_left, decided_settings};

use crate::arguments::{colour_argument, int_argument};
use crate::decision::{Decision, Refusal};
use goref_lines::Request;

/// `time_settings`: main time, byo-yomi time and its stones.
pub fn time_settings(request: &Request) -> Decision
    ensures { (s : Standing) → record { decision = result; standing = s } ≡ decided_settings s
        (int_given request.now.arguments 0)
        (int_given request.now.arguments 1)
        (int_given request.now.arguments 2) }
{
    match (
        int_argument(request, 0),
        int_argument(request, 1),
        int_argument(request, 2),
    ) {
        (Some(_), Some(_), Some(_)) => Decision::Done,
        _ => Decision::Refused(Refusal::SyntaxError),
    }
}

/// `time_left`: a colour, its time and its stones.
pub fn time_left(request: &Request) -> Decision
    ensures { (s : Standing) → record { decision = result; standing = s } ≡ decided_left s
        (colour_given request.now.arguments 0)
        (int_given request.now.arguments 1)
        (int_given request.now.arguments 2) }
{
    match (
        colour_argument(request, 0),
        int_argument(request, 1),
        int_argument(request, 2),
    ) {
        (Some(_), Some(_), Some(_)) => Decision::Done,
        _ => Decision::Refused(Refusal::SyntaxError),
    }
}
