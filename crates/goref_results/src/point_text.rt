//! Points after spaces.
ghost use Rattle.std.specs.Prelude.{◌≡◌, ◌<◌, ◌≤◌, ◌+◌, ◌++◌, decimal, length};
ghost use Rattle.go_board.specs.Pens.{Writes};
ghost use Rattle.goref_results.specs.Places.{point_word};
ghost use Rattle.goref_results.specs.inner.Texts.{spaced_point};

use arrayvec::ArrayVec;
use go_board::{Pen, Point, Sink, column_letter};

/// The most bytes of a point: no row has a number of more than three digits.
const POINT_LEN: usize = 4;

/// Writes a space and a point. The space is a piece of its own: a device that has no room for the point may
/// take it.
pub(crate) fn put_spaced<W: Sink>(at: Point, pen: &mut Pen<'_, W>)
    ensures { Writes W.Sink pen.old pen.new (spaced_point at) }
{
    pen.put(b" ");
    pen.put(letter_and_number(at).as_slice());
}

/// The letter of the column and the number of the row from 1.
fn letter_and_number(at: Point) -> ArrayVec<u8, POINT_LEN>
    ensures { result.items ≡ point_word at }
{
    let mut text = ArrayVec::new();
    text.push(column_letter(at.col) as u8);
    push_number(&mut text, u16::from(at.row) + 1);
    text
}

/// Adds a row's number.
fn push_number(text: &mut ArrayVec<u8, POINT_LEN>, number: u16)
    requires room { length text.old.items ≤ 1 }
    requires small { number ≤ 256 }
    ensures { text.new.items ≡ text.old.items ++ decimal number }
{
    if number >= 100 {
        text.push(digit(number / 100));
        text.push(digit(number / 10 % 10));
    } else if number >= 10 {
        text.push(digit(number / 10));
    }
    text.push(digit(number % 10));
}

fn digit(value: u16) -> u8
    requires { value < 10 }
    ensures { result ≡ 48 + value }
{
    b'0' + value as u8
}
