ghost use Rattle.std.specs.Prelude.{◌≡◌};
ghost use Rattle.go_sgf.specs.Record.{Property};
ghost use Rattle.go_record.specs.inner.Kinds.{IsOfKind};

use go_board::Colour;
use go_sgf::is_named;

/// What a property is for.
#[derive(Clone, Copy)]
pub(crate) enum Kind {
    /// Points that get a colour, or are emptied.
    Stones(Option<Colour>),
    /// The colour to move.
    Turn,
    /// A move of a colour.
    Move(Colour),
    /// Nothing that bears on the game.
    Other,
}

/// What a property with this name is for.
pub(crate) fn kind_of(name: &[u8]) -> Kind
    ensures { (p : Property) → name.now ≡ p.name → IsOfKind p result }
{
    if is_named(name, b"B") {
        Kind::Move(Colour::Black)
    } else if is_named(name, b"W") {
        Kind::Move(Colour::White)
    } else if is_named(name, b"AB") {
        Kind::Stones(Some(Colour::Black))
    } else if is_named(name, b"AW") {
        Kind::Stones(Some(Colour::White))
    } else if is_named(name, b"AE") {
        Kind::Stones(None)
    } else if is_named(name, b"PL") {
        Kind::Turn
    } else {
        Kind::Other
    }
}
