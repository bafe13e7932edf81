//! loadsgf: a game from a record.
ghost use Rattle.std.specs.Prelude.{◌≡◌, IfErr, IfOk, IsErrOf, OnOk};
ghost use Rattle.go_game.specs.Standings.{Standing};
ghost use Rattle.goref_session.specs.Contents.{content_of};
ghost use Rattle.goref_session.specs.Record.{DecidesBytes, DecidesLoad, Loads, LoadsNone, load_error_of_record, load_of, load_error_of_sgf};
ghost use Rattle.goref_session.specs.Decisions.{Decided, keeps};
ghost use Rattle.goref_session.specs.declared.decision.Decision.{Decision};
ghost use Rattle.goref_session.specs.inner.Refusing.{after_load};

use crate::decision::Refusal;
use crate::fetched::Fetched;
use crate::loading::parse_load;
use go_game::Game;
use go_record::{RecordError, replay_source_on};
use go_sgf::{SgfError, check};
use goref_lines::Request;
use std::alloc::Allocator;

/// The bytes of a file, not yet checked. If there is a number, the load stops before the move of that number.
#[derive(Clone, Copy)]
pub struct BytesToLoad<'a> {
    pub bytes: &'a [u8],
    pub number: Option<u32>,
}

/// The fetched bytes and the number that a request asks to load, or why there is nothing to load.
pub fn bytes_to_load<'a, A: Allocator + Copy>(
    request: &Request,
    fetched: &'a Fetched<A>,
) -> Result<BytesToLoad<'a>, Refusal>
    ensures asked { IfOk result (λ to_load. (s : Standing) (d : Decided) →
        DecidesBytes s to_load.bytes.now to_load.number d →
        DecidesLoad s (load_of request.now.arguments) (content_of fetched.now) d) }
    ensures refused { IfErr result (λ why. (s : Standing) →
        DecidesLoad s (load_of request.now.arguments) (content_of fetched.now)
        (keeps s (Decision.Refused why))) }
{
    let Some(load) = parse_load(request) else {
        return Err(Refusal::SyntaxError);
    };
    match fetched {
        Fetched::Bytes(bytes) => Ok(BytesToLoad {
            bytes: bytes.as_slice(),
            number: load.number,
        }),
        Fetched::Memory => Err(Refusal::OutOfMemory),
        Fetched::None => Err(Refusal::CannotLoad),
        Fetched::Missing => Err(Refusal::CannotLoad),
        Fetched::TooLarge => Err(Refusal::CannotLoad),
    }
}

/// Replays a record into a game, whatever the game held, or returns why not. If the bytes are no record, the
/// game stays as it was. After any other refusal it is empty.
pub fn load_into<A: Allocator + Copy>(
    game: &mut Game<A>,
    to_load: &BytesToLoad,
) -> Result<(), Refusal>
    ensures { (s : Standing) → DecidesBytes s to_load.now.bytes.now to_load.now.number
        (after_load s game.new.standing result) }
{
    match check_and_replay(game, to_load) {
        Ok(()) => Ok(()),
        Err(LoadError::Cannot) => Err(Refusal::CannotLoad),
        Err(LoadError::Memory) => Err(Refusal::OutOfMemory),
    }
}

/// Replays a record into a game. The error tells lack of memory from other refusals.
fn check_and_replay<A: Allocator + Copy>(
    game: &mut Game<A>,
    to_load: &BytesToLoad,
) -> Result<(), LoadError>
    ensures ok { OnOk result (Loads to_load.now.bytes.now to_load.now.number game.new.standing) }
    ensures cannot { IsErrOf result LoadError.Cannot
        → LoadsNone to_load.now.bytes.now to_load.now.number }
{
    let checked = check(to_load.bytes)?;
    replay_source_on(game, &checked, to_load.number)?;
    Ok(())
}

/// Why no game was loaded.
#[derive(Clone, Copy)]
pub enum LoadError {
    /// The bytes are no record, or its game is refused.
    Cannot,
    /// There was no memory for it.
    Memory,
}

impl From<SgfError> for LoadError {
    ghost from_gives = { λ why error. error ≡ load_error_of_sgf why };

    fn from(why: SgfError) -> LoadError {
        match why {
            SgfError::Memory => LoadError::Memory,
            _ => LoadError::Cannot,
        }
    }
}

impl From<RecordError> for LoadError {
    ghost from_gives = { λ why error. error ≡ load_error_of_record why };

    fn from(why: RecordError) -> LoadError {
        match why {
            RecordError::Memory => LoadError::Memory,
            _ => LoadError::Cannot,
        }
    }
}
