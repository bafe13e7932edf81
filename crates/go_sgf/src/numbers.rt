ghost use Rattle.std.specs.Prelude.{◌≡◌, ◌≤◌, IfSome};
ghost use Rattle.go_board.specs.declared.decimals.TheConstants.{MAX_INT};
ghost use Rattle.go_sgf.specs.Numbers.{number_in, trimmed, trimmed_end};

use crate::scan::{after_space, is_white};
use go_board::{MAX_INT, read_int};

/// The number that a value spells: one or more digits after an optional `+`, at most
/// [`MAX_INT`], with white space at both ends skipped. None where it spells no number.
pub fn number_of(value: &[u8]) -> Option<u32>
    ensures value { result ≡ number_in value.now }
    ensures bound { IfSome result (λ number. number ≤ MAX_INT) }
{
    let word = trim(value);
    match word.split_first() {
        Some((b'+', digits)) => read_int(digits),
        _ => read_int(word),
    }
}

/// A value without the white space at both ends: space, HT, LF, VT, FF and CR.
pub fn trim(bytes: &[u8]) -> &[u8]
    ensures { result.now ≡ trimmed bytes.now }
{
    trim_end(after_space(bytes))
}

fn trim_end(bytes: &[u8]) -> &[u8]
    ensures { result.now ≡ trimmed_end bytes.now }
{
    let mut rest = bytes;
    while let Some((last, prefix)) = rest.split_last() {
        if !is_white(*last) {
            return rest;
        }
        rest = prefix;
    }
    rest
}
