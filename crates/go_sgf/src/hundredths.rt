//! Komi values, read as hundredths of a point. Unlike the numbers of `numbers.rt` they may have a minus sign
//! and decimals.
ghost use Rattle.std.specs.Prelude.{◌≡◌, ◌+◌, ◌-◌, ◌*◌, ◌<◌, ◌≤◌, ◌==◌, drop, length, min, option_map, position, IfSome, slice_index_or, true};
ghost use Rattle.std.specs.Char.{is_ascii_digit};
ghost use Rattle.std.specs.List.{list_all};
ghost use Rattle.go_board.specs.Komi.{IsKomi};
ghost use Rattle.go_board.specs.declared.decimals.TheConstants.{MAX_KOMI};
ghost use Rattle.go_sgf.specs.Numbers.{hundredths_in, hundredths_by, is_decimal, komi_of, point_place, size_by, size_of_number, with_sign};

use crate::numbers::trim;
use go_board::{MAX_KOMI, are_digits, value_of_digits, with_digit};

const PAST_MOST: u64 = MAX_KOMI + 1;

/// The komi that a value spells, in hundredths of a point: an optional sign, digits, and an
/// optional decimal point before, among or after them, with white space at both ends skipped. Digits past the
/// second decimal must be 0. None where it spells no komi, or one of more than 999,999,999.99.
pub fn hundredths_of(value: &[u8]) -> Option<i64>
    ensures value { result ≡ hundredths_by value.now }
    ensures range { IfSome result IsKomi }
{
    read_komi(trim(value))
}

fn read_komi(word: &[u8]) -> Option<i64>
    ensures value { result ≡ komi_of word.now }
    ensures range { IfSome result IsKomi }
{
    match word.split_first() {
        Some((b'-', number)) => signed(true, read_size(number)),
        Some((b'+', number)) => signed(false, read_size(number)),
        _ => signed(false, read_size(word)),
    }
}

fn signed(minus: bool, size: Option<u64>) -> Option<i64>
    requires { IfSome size (λ n. n ≤ MAX_KOMI) }
    ensures value { result ≡ option_map (with_sign minus) size }
    ensures range { IfSome result IsKomi }
{
    match size {
        None => None,
        Some(size) => Some(if minus { 0 - size as i64 } else { size as i64 }),
    }
}

/// The size of a number without a sign, in hundredths.
fn read_size(number: &[u8]) -> Option<u64>
    ensures value { result ≡ size_of_number number.now }
    ensures bound { IfSome result (λ n. n ≤ MAX_KOMI) }
{
    let (whole, tail) = number.split_at(place_of_point(number));
    let decimals = match tail.split_first() {
        Some((_, decimals)) => decimals,
        None => tail,
    };
    size_of_parts(whole, decimals)
}

fn place_of_point(number: &[u8]) -> usize
    ensures place { result ≡ point_place number.now }
    ensures bound { result ≤ length number.now }
{
    match first_point(number) {
        Some(place) => place,
        None => number.len(),
    }
}

fn first_point(number: &[u8]) -> Option<usize>
    ensures value { result ≡ position (λ b. b == 46) number.now }
    ensures bound { IfSome result (λ place. place < length number.now) }
{
    number.iter().position(|byte| *byte == b'.')
}

fn size_of_parts(whole: &[u8], decimals: &[u8]) -> Option<u64>
    ensures value { result ≡ size_by whole.now decimals.now }
    ensures bound { IfSome result (λ n. n ≤ MAX_KOMI) }
{
    if !are_decimal(whole, decimals) {
        return None;
    }
    let size = hundredths(whole, decimals);
    if size > MAX_KOMI { None } else { Some(size) }
}

/// Whether the parts are digits, at least one in all, with none but 0 after the second decimal.
fn are_decimal(whole: &[u8], decimals: &[u8]) -> bool
    ensures { result ≡ is_decimal whole.now decimals.now }
{
    are_digits(whole)
        && are_digits(decimals)
        && (!whole.is_empty() || !decimals.is_empty())
        && are_zeros_after_two(decimals)
}

fn are_zeros_after_two(decimals: &[u8]) -> bool
    ensures { result ≡ list_all (λ b. b == 48) (drop 2 decimals.now) }
{
    decimals.iter().skip(2).all(|byte| *byte == b'0')
}

/// The hundredths, or [`PAST_MOST`] where there are more.
fn hundredths(whole: &[u8], decimals: &[u8]) -> u64
    requires whole { list_all is_ascii_digit whole.now ≡ true }
    requires decimals { list_all is_ascii_digit decimals.now ≡ true }
    ensures { result ≡ min (hundredths_in whole.now decimals.now) PAST_MOST }
{
    let units = value_of_digits(whole, PAST_MOST);
    let tenths = with_digit(units, decimal_at(decimals, 0), PAST_MOST);
    with_digit(tenths, decimal_at(decimals, 1), PAST_MOST)
}

/// The decimal at this place, 0 past the last.
fn decimal_at(decimals: &[u8], place: usize) -> u8
    requires { list_all is_ascii_digit decimals.now ≡ true }
    ensures value { result ≡ slice_index_or decimals.now place 48 - 48 }
    ensures digit { result < 10 }
{
    if place < decimals.len() {
        decimals[place] - b'0'
    } else {
        0
    }
}
