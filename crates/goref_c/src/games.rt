ghost use Rattle.std.specs.Prelude.{◌≡◌, ◌≤◌};
ghost use Rattle.goref_c.specs.NextGame.{ShowsBrokenTree, ShowsNoTree, ShowsTree, place_named};

use go_sgf::{SgfError, next_tree, tree_begin};

/// Puts where the next game tree begins and ends into two places, or where it is broken, and returns the
/// status.
pub(crate) fn next_game(source: &[u8], from: usize, begin: &mut usize, end: &mut usize) -> u8
    ensures statuses { result ≤ 2 }
    ensures found { result ≡ 0 → ShowsTree source.now from begin.new end.new }
    ensures none { result ≡ 1 → ShowsNoTree source.now from begin.new end.new }
    ensures broken { result ≡ 2 → ShowsBrokenTree source.now from begin.new end.new }
{
    match next_tree(source, from) {
        Ok(Some(span)) => {
            *begin = span.begin;
            *end = span.end;
            0
        }
        Ok(None) => {
            *begin = source.len();
            *end = source.len();
            1
        }
        Err(why) => {
            *begin = tree_begin(source, from).unwrap();
            *end = place_of(why).unwrap();
            2
        }
    }
}

/// The byte that a refusal names.
fn place_of(why: SgfError) -> Option<usize>
    ensures { result ≡ place_named why }
{
    match why {
        SgfError::EndInside(place) | SgfError::Unexpected(place) | SgfError::TooDeep(place) => {
            Some(place)
        }
        SgfError::NoTree | SgfError::Memory | SgfError::TooLong => None,
    }
}
