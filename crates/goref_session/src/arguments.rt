//! What the arguments of a request spell.
ghost use Rattle.std.specs.Prelude.{◌≡◌, IfSome, slice_get};
ghost use Rattle.go_board.specs.Vertices.{vertex_on};
ghost use Rattle.go_board.specs.Komi.{IsKomi};
ghost use Rattle.goref_session.specs.Arguments.{colour_given, int_given, komi_given, rule_given, vertex_given};
ghost use Rattle.goref_session.specs.Record.{number_asked};
ghost use Rattle.goref_session.specs.Setup.{rule_of};

use go_board::{Colour, Size, Vertex, VertexError, read_int, read_vertex};
use go_game::Superko;
use goref_lines::Request;

/// The number that an argument spells.
pub fn int_argument(request: &Request, place: u16) -> Option<u32>
    ensures { result ≡ int_given request.now.arguments place }
{
    read_int(request.argument(place)?)
}

/// The number that an argument spells, or `Some(None)` where the argument is missing. `None` where it is no
/// number.
pub fn optional_int_argument(request: &Request, place: u16) -> Option<Option<u32>>
    ensures { result ≡ number_asked (slice_get request.now.arguments place) }
{
    match request.argument(place) {
        None => Some(None),
        Some(word) => match read_int(word) {
            Some(number) => Some(Some(number)),
            None => None,
        },
    }
}

/// The colour that an argument names.
pub fn colour_argument(request: &Request, place: u16) -> Option<Colour>
    ensures { result ≡ colour_given request.now.arguments place }
{
    Colour::named(request.argument(place)?)
}

/// The vertex that an argument spells, or `Malformed` if there is no argument.
pub fn vertex_argument(request: &Request, place: u16, size: Size) -> Result<Vertex, VertexError>
    ensures { result ≡ vertex_on size
        (vertex_given request.now.arguments place) }
{
    match request.argument(place) {
        Some(word) => read_vertex(word, size),
        None => Err(VertexError::Malformed),
    }
}

/// The komi in hundredths.
pub fn komi_argument(request: &Request, place: u16) -> Option<i64>
    ensures value { result ≡ komi_given request.now.arguments place }
    ensures bound { IfSome result IsKomi }
{
    go_sgf::hundredths_of(request.argument(place)?)
}

/// The superko rule that an argument names.
pub fn rule_argument(request: &Request, place: u16) -> Option<Superko>
    ensures { result ≡ rule_given request.now.arguments place }
{
    rule_named(request.argument(place)?)
}

/// The superko rule of this name.
fn rule_named(word: &[u8]) -> Option<Superko>
    ensures { result ≡ rule_of word.now }
{
    if word == b"positional".as_slice() {
        return Some(Superko::Positional);
    }
    if word == b"situational".as_slice() {
        return Some(Superko::Situational);
    }
    None
}
