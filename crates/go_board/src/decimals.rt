ghost use Rattle.std.specs.Prelude.{◌≡◌, ◌+◌, ◌*◌, ◌<◌, ◌≤◌, ◌^◌, IfSome, min, true};
ghost use Rattle.std.specs.Char.{is_ascii_digit};
ghost use Rattle.std.specs.List.{list_all};
ghost use Rattle.go_board.specs.Decimals.{int_of, digits_value};

/// The greatest number that a word spells.
pub const MAX_INT: u32 = 2_147_483_647;

/// The most hundredths of a point that a komi has, on either side: 999,999,999.99 points.
pub const MAX_KOMI: u64 = 99_999_999_999;

/// The number that one or more decimal digits spell, at most [`MAX_INT`]. None for any other word.
pub fn read_int(word: &[u8]) -> Option<u32>
    ensures value { result ≡ int_of word.now }
    ensures bound { IfSome result (λ number. number ≤ MAX_INT) }
{
    if word.is_empty() || !are_digits(word) {
        return None;
    }
    let value = value_of_digits(word, u64::from(MAX_INT) + 1);
    if value > u64::from(MAX_INT) {
        None
    } else {
        Some(value as u32)
    }
}

/// Whether all bytes are decimal digits.
pub fn are_digits(bytes: &[u8]) -> bool
    ensures { result ≡ list_all is_ascii_digit bytes.now }
{
    bytes.iter().all(|byte| byte.is_ascii_digit())
}

/// The value of digits, or `most` where it is more.
pub fn value_of_digits(digits: &[u8], most: u64) -> u64
    requires digits { list_all is_ascii_digit digits.now ≡ true }
    requires most { most < 2 ^ 60 }
    ensures { result ≡ min (digits_value digits.now) most }
{
    let mut value = 0;
    for byte in digits {
        value = with_digit(value, *byte - b'0', most);
    }
    value
}

/// A number with one more digit, at most `most`.
pub fn with_digit(value: u64, digit: u8, most: u64) -> u64
    requires value { value ≤ most }
    requires digit { digit < 10 }
    requires most { most < 2 ^ 60 }
    ensures { result ≡ min (10 * value + digit) most }
{
    (10 * value + u64::from(digit)).min(most)
}
