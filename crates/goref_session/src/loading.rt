//! What a request asks to load.
ghost use Rattle.std.specs.Prelude.{◌≡◌, Some, option_map};
ghost use Rattle.std.specs.Bool.{Decides};
ghost use Rattle.std.specs.Option.{option_and_then};
ghost use Rattle.goref_session.specs.Commands.{command_of};
ghost use Rattle.goref_session.specs.Record.{load_of};
ghost use Rattle.goref_session.specs.declared.command.Command.{Command};

use crate::arguments::optional_int_argument;
use goref_lines::Request;

/// A file to load. With a number, only the moves before that move.
#[derive(Clone, Copy)]
pub struct Load<'a> {
    pub name: &'a [u8],
    pub number: Option<u32>,
}

/// Whether a request names `loadsgf`. It compares the name with `loadsgf` only.
pub fn asks_to_load(request: &Request) -> bool
    ensures { Decides result (option_and_then command_of request.now.name ≡ Some Command.Loadsgf) }
{
    match request.name() {
        Some(name) => name == b"loadsgf".as_slice(),
        None => false,
    }
}

/// What the arguments of `loadsgf` ask for.
pub fn parse_load<'a>(request: &Request<'a>) -> Option<Load<'a>>
    ensures { option_map (λ load. record { name = load.name.now; number = load.number }) result
        ≡ load_of request.now.arguments }
{
    let name = request.argument(0)?;
    let number = optional_int_argument(request, 1)?;
    Some(Load { name, number })
}
