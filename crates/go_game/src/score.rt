ghost use Rattle.std.specs.Prelude.{◌≡◌, ◌≤◌, ◌<◌, ◌++◌, ◌^◌, length};
ghost use Rattle.go_game.specs.Scores.{decimals_of, hundredths_word, score_word, size_text};

use arrayvec::ArrayString;
use itoa::Buffer;

/// Hundredths of a point as a decimal number: a minus sign where it is negative, the whole part, and at
/// most two decimals without zeros at their end.
pub fn hundredths_text(hundredths: i64) -> ArrayString<24>
    ensures { result.bytes ≡ hundredths_word hundredths }
{
    if hundredths < 0 {
        return sized("-", hundredths.unsigned_abs());
    }
    sized("", hundredths.unsigned_abs())
}

/// A score by Black's margin in hundredths of a point: `B+` or `W+` and the margin's size, or `0`.
pub fn score_text(margin: i64) -> ArrayString<24>
    ensures { result.bytes ≡ score_word margin }
{
    if margin < 0 {
        return sized("W+", margin.unsigned_abs());
    }
    if margin > 0 {
        return sized("B+", margin.unsigned_abs());
    }
    sized("", 0)
}

/// A prefix, and a number of hundredths as a decimal number.
fn sized(prefix: &str, hundredths: u64) -> ArrayString<24>
    requires room { length prefix.now ≤ 2 }
    requires size { hundredths ≤ 2 ^ 63 }
    ensures { result.bytes ≡ prefix.now ++ size_text hundredths }
{
    let mut text = ArrayString::new();
    text.push_str(prefix);
    let mut digits = Buffer::new();
    text.push_str(digits.format(hundredths / 100));
    push_decimals(&mut text, (hundredths % 100) as u8);
    text
}

/// Appends a point and these hundredths, without zeros at the end.
fn push_decimals(text: &mut ArrayString<24>, hundredths: u8)
    requires room { length text.old.bytes ≤ 20 }
    requires few { hundredths < 100 }
    ensures { text.new.bytes ≡ text.old.bytes ++ decimals_of hundredths }
{
    if hundredths == 0 {
        return;
    }
    text.push('.');
    text.push(char::from(b'0' + hundredths / 10));
    if hundredths % 10 != 0 {
        text.push(char::from(b'0' + hundredths % 10));
    }
}
