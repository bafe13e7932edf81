//! fixed_handicap, place_free_handicap and set_free_handicap: starts with black stones.
ghost use Rattle.std.specs.Prelude.{◌≡◌, ◌<◌, ◌*◌, All, IfErr, Ok, OnErr, OnOk, if◌then◌else◌, length};
ghost use Rattle.go_board.specs.Points.{IsOn};
ghost use Rattle.go_game.specs.Standings.{is_vacant_standing};
ghost use Rattle.goref_session.specs.Arguments.{int_given};
ghost use Rattle.goref_session.specs.Decisions.{MayDecide};
ghost use Rattle.goref_session.specs.Handicap.{decided_fixed, decided_free, decided_handicap, decided_stones, with_stones};
ghost use Rattle.goref_lines.specs.Stones.{stones_listed};

use crate::arguments::int_argument;
use crate::decision::{Decision, Fact, Refusal};
use go_board::{Colour, Point};
use go_game::{Game, SetupError, fixed_points, greatest_handicap, stones_on};
use goref_lines::{ListError, Request, read_stones};
use std::alloc::Allocator;

/// `fixed_handicap`: begins anew with this number of stones on their places, and answers the places.
pub fn fixed_handicap<A: Allocator + Copy>(
    game: &mut Game<A>,
    alloc: A,
    request: &Request,
) -> Decision
    ensures { MayDecide game.old.standing (decided_fixed game.old.standing
        (int_given request.now.arguments 0))
        (record { decision = result; standing = game.new.standing }) }
{
    match int_argument(request, 0) {
        None => Decision::Refused(Refusal::SyntaxError),
        Some(number) => place_handicap(game, alloc, number),
    }
}

/// `place_free_handicap`: the same, with at most as many stones as have places.
pub fn place_free_handicap<A: Allocator + Copy>(
    game: &mut Game<A>,
    alloc: A,
    request: &Request,
) -> Decision
    ensures { MayDecide game.old.standing (decided_free game.old.standing
        (int_given request.now.arguments 0))
        (record { decision = result; standing = game.new.standing }) }
{
    let greatest = greatest_handicap(game.size());
    match int_argument(request, 0) {
        None => Decision::Refused(Refusal::SyntaxError),
        Some(number) => place_handicap(game, alloc, number.min(greatest)),
    }
}

/// Begins anew with this number of handicap stones on their places, and answers the places.
fn place_handicap<A: Allocator + Copy>(game: &mut Game<A>, alloc: A, number: u32) -> Decision
    ensures { MayDecide game.old.standing (decided_handicap game.old.standing number)
        (record { decision = result; standing = game.new.standing }) }
{
    if !game.is_vacant() {
        return Decision::Refused(Refusal::BoardNotEmpty);
    }
    match fixed_points(game.size(), number) {
        None => Decision::Refused(Refusal::InvalidNumber),
        Some(points) => match begin_with(game, alloc, points.as_slice()) {
            Ok(()) => Decision::Tells(Fact::Places(number)),
            Err(_) => Decision::Refused(Refusal::OutOfMemory),
        },
    }
}

/// `set_free_handicap`: begins anew with stones on the vertices that are listed.
pub fn set_free_handicap<A: Allocator + Copy>(
    game: &mut Game<A>,
    alloc: A,
    request: &Request,
) -> Decision
    ensures { MayDecide game.old.standing (decided_stones game.old.standing
        (stones_listed game.old.standing.lines request.now.arguments))
        (record { decision = result; standing = game.new.standing }) }
{
    match read_stones(request.arguments(), game.size()) {
        Err(ListError::Malformed) => Decision::Refused(Refusal::SyntaxError),
        Err(ListError::Bad) => refuse_list(game),
        Ok(points) => place_stones(game, alloc, points.as_slice()),
    }
}

/// A list that no handicap can have is refused for that only in a vacant game.
fn refuse_list<A: Allocator + Copy>(game: &Game<A>) -> Decision
    ensures { result ≡ Decision.Refused (if is_vacant_standing game.now.standing then Refusal.BadVertexList
        else Refusal.BoardNotEmpty) }
{
    if game.is_vacant() {
        Decision::Refused(Refusal::BadVertexList)
    } else {
        Decision::Refused(Refusal::BoardNotEmpty)
    }
}

/// Begins anew with stones on these points, if the game is vacant.
fn place_stones<A: Allocator + Copy>(game: &mut Game<A>, alloc: A, points: &[Point]) -> Decision
    requires on { All (IsOn game.old.standing.lines) points.now }
    requires few { length points.now < game.old.standing.lines * game.old.standing.lines }
    ensures { MayDecide game.old.standing (decided_stones game.old.standing (Ok points.now))
        (record { decision = result; standing = game.new.standing }) }
{
    if game.is_vacant() {
        match begin_with(game, alloc, points) {
            Ok(()) => Decision::Done,
            Err(_) => Decision::Refused(Refusal::OutOfMemory),
        }
    } else {
        Decision::Refused(Refusal::BoardNotEmpty)
    }
}

/// Begins anew with these black stones: White is to move, and the komi and the superko rule stay. Only lack
/// of memory can refuse it, since each of the stones reaches the point that is left.
fn begin_with<A: Allocator + Copy>(
    game: &mut Game<A>,
    alloc: A,
    points: &[Point],
) -> Result<(), SetupError>
    requires on { All (IsOn game.old.standing.lines) points.now }
    requires few { length points.now < game.old.standing.lines * game.old.standing.lines }
    ensures ok { OnOk result (game.new.standing ≡ with_stones game.old.standing points.now) }
    ensures err { OnErr result (game.new.standing ≡ game.old.standing) }
    ensures memory { IfErr result (λ e. e ≡ SetupError.Memory) }
{
    let komi = game.komi();
    let superko = game.superko();
    let stones = stones_on(game.size(), points);
    match Game::start_from(alloc, &stones, Colour::White) {
        Ok(mut begun) => {
            begun.set_komi(komi);
            begun.set_superko(superko);
            *game = begun;
            Ok(())
        }
        Err(error) => Err(error),
    }
}
