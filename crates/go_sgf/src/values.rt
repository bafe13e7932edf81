//! Where a value ends. A short search finds a `]` that is near. Where it finds none, a second function, which
//! isn't inlined, reads a value of any length and with any escapes.
ghost use Rattle.std.specs.Prelude.{◌≡◌, ◌∷◌, ◌++◌, ℕ, Err, IfNone, IfSome, take};
ghost use Rattle.go_sgf.specs.inner.Reads.{HasNoEnd, IsBracketAt};
ghost use Rattle.go_sgf.specs.declared.error.ReadError.TheVariants.{End};
ghost use Rattle.go_sgf.specs.declared.limits.TheConstants.{MAX_DEPTH};
ghost use Rattle.go_sgf.specs.inner.Outcome.{IsWithin, outcome};
ghost use Rattle.go_sgf.specs.inner.Tidied.{NeverEnds};
ghost use Rattle.go_sgf.specs.Record.{IsValue};
ghost use Rattle.go_sgf.specs.Stands.{in_value};

use crate::scan::{near_bracket, split_at_stop};

/// The value and the text after its `]`, where `bytes` begins just after the value's `[`. None where the value
/// has no end.
#[inline]
pub(crate) fn value(bytes: &[u8]) -> Option<(&[u8], &[u8])>
    ensures inside { IfSome result (λ v. IsValue v.0.now) }
    ensures whole { IfSome result (λ v. bytes.now ≡ v.0.now ++ (93 ∷ v.1.now)) }
    ensures none { IfNone result ((d : ℕ) → IsWithin MAX_DEPTH d
        → outcome MAX_DEPTH in_value d bytes.now ≡ Err End) }
    ensures unended { IfNone result (NeverEnds bytes.now) }
    ensures no_end { IfNone result (HasNoEnd bytes.now) }
{
    match value_end(bytes) {
        Some(place) => Some((bytes.split_at(place).0, bytes.split_at(place + 1).1)),
        None => None,
    }
}

/// The place of a value's `]`, counted from after its `[`; none where the value has no end.
#[inline]
pub(crate) fn value_end(bytes: &[u8]) -> Option<usize>
    ensures inside { IfSome result (λ place. IsValue (take place bytes.now)) }
    ensures bracket { IfSome result (λ place. IsBracketAt bytes.now place) }
    ensures none { IfNone result ((d : ℕ) → IsWithin MAX_DEPTH d
        → outcome MAX_DEPTH in_value d bytes.now ≡ Err End) }
    ensures unended { IfNone result (NeverEnds bytes.now) }
    ensures no_end { IfNone result (HasNoEnd bytes.now) }
{
    match near_bracket(bytes) {
        Some(place) => Some(place),
        None => far_end(bytes),
    }
}

/// As `value_end`, by a search that isn't limited to the first 16 bytes.
#[inline(never)]
fn far_end(bytes: &[u8]) -> Option<usize>
    ensures inside { IfSome result (λ place. IsValue (take place bytes.now)) }
    ensures bracket { IfSome result (λ place. IsBracketAt bytes.now place) }
    ensures none { IfNone result ((d : ℕ) → IsWithin MAX_DEPTH d
        → outcome MAX_DEPTH in_value d bytes.now ≡ Err End) }
    ensures unended { IfNone result (NeverEnds bytes.now) }
    ensures no_end { IfNone result (HasNoEnd bytes.now) }
{
    let mut read = 0;
    while let Some((prefix, byte, more)) = split_at_stop(bytes.split_at(read).1) {
        let place = read + prefix.len();
        if byte == b']' {
            return Some(place);
        }
        if more.is_empty() {
            return None;
        }
        read = place + 2;
    }
    None
}
