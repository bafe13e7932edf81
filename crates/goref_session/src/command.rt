//! The commands and the topics that a line can ask for, the list of their names, and the look-up by name.
ghost use Rattle.std.specs.Prelude.{◌≡◌};
ghost use Rattle.std.specs.Option.{option_and_then};
ghost use Rattle.goref_session.specs.Commands.{command_of};

use goref_lines::Request;

/// What a line can ask for.
#[derive(Clone, Copy, Debug, PartialEq, Eq)]
pub enum Command {
    /// A question about a topic. There are no arguments.
    Asks(Topic),
    KnownCommand,
    Quit,
    Boardsize,
    ClearBoard,
    Komi,
    Play,
    Genmove,
    Undo,
    RegGenmove,
    Loadsgf,
    FixedHandicap,
    PlaceFreeHandicap,
    SetFreeHandicap,
    TimeSettings,
    TimeLeft,
    Legal,
    Superko,
}

/// The topics of questions without arguments.
#[derive(Clone, Copy, Debug, PartialEq, Eq)]
pub enum Topic {
    /// The version of the protocol.
    Protocol,
    /// The name of the program.
    Program,
    /// The version of the program.
    Release,
    /// The names of all commands.
    Commands,
    /// Who is ahead, and by how much.
    Score,
    /// The diagram of the board.
    Board,
    /// The chains with their liberties.
    Chains,
    /// The record of the game.
    Record,
}

/// All commands with their names, in the order in which they are listed.
pub const COMMANDS: &[(&[u8], Command)] = &[
    (b"protocol_version", Command::Asks(Topic::Protocol)),
    (b"name", Command::Asks(Topic::Program)),
    (b"version", Command::Asks(Topic::Release)),
    (b"known_command", Command::KnownCommand),
    (b"list_commands", Command::Asks(Topic::Commands)),
    (b"quit", Command::Quit),
    (b"boardsize", Command::Boardsize),
    (b"clear_board", Command::ClearBoard),
    (b"komi", Command::Komi),
    (b"play", Command::Play),
    (b"genmove", Command::Genmove),
    (b"undo", Command::Undo),
    (b"reg_genmove", Command::RegGenmove),
    (b"loadsgf", Command::Loadsgf),
    (b"fixed_handicap", Command::FixedHandicap),
    (b"place_free_handicap", Command::PlaceFreeHandicap),
    (b"set_free_handicap", Command::SetFreeHandicap),
    (b"final_score", Command::Asks(Topic::Score)),
    (b"showboard", Command::Asks(Topic::Board)),
    (b"time_settings", Command::TimeSettings),
    (b"time_left", Command::TimeLeft),
    (b"goref-chains", Command::Asks(Topic::Chains)),
    (b"goref-legal", Command::Legal),
    (b"goref-printsgf", Command::Asks(Topic::Record)),
    (b"goref-superko", Command::Superko),
];

/// The command that a request names.
pub fn command_asked(request: &Request) -> Option<Command>
    ensures { result ≡ option_and_then command_of request.now.name }
{
    match request.name() {
        Some(name) => command_named(name),
        None => None,
    }
}

/// The command of this name. `play` and `undo`, which most lines ask for, are compared first.
pub fn command_named(name: &[u8]) -> Option<Command>
    ensures { result ≡ command_of name.now }
{
    if name == b"play".as_slice() {
        return Some(Command::Play);
    }
    if name == b"undo".as_slice() {
        return Some(Command::Undo);
    }
    command_listed(name)
}

/// The command that is listed by this name.
fn command_listed(name: &[u8]) -> Option<Command>
    ensures { result ≡ command_of name.now }
{
    for (known, command) in COMMANDS {
        if name == *known {
            return Some(*command);
        }
    }
    None
}
