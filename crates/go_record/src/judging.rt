//! The verdict on a record: its game is replayed, and its margin is compared with the one that RE states. The
//! functions that read an RE value are here too: nothing else calls them.
ghost use Rattle.std.specs.Prelude.{◌≡◌, ◌≢◌, ◌-ℤ◌, Err, IfErr, IfOk, IfSome, bytes_eq, option_map, pos};
ghost use Rattle.go_board.specs.Komi.{IsKomi};
ghost use Rattle.go_record.specs.declared.error.RecordError.TheVariants.{Memory};
ghost use Rattle.go_record.specs.Games.{IsGameOf};
ghost use Rattle.go_record.specs.Verdicts.{IsStated, IsVerdict, is_number_first, margin_spelled, size_spelled};
ghost use Rattle.go_sgf.specs.Cooked.{cooked_simple};
ghost use Rattle.go_sgf.specs.Numbers.{trimmed};
ghost use Rattle.go_sgf.specs.Spelling.{OfRecord};

use crate::error::RecordError;
use crate::replaying::walk_on;
use crate::root::{root_of, root_values};
use crate::verdict::{Stated, Verdict};
use go_game::Game;
use go_sgf::{Checked, Collection, cook_simple, hundredths_of, laws, trim};
use std::alloc::{AllocError, Allocator};

/// The verdict on a record: its game's moves and margin, and whether that is the margin that its RE states.
/// `0` and `Draw` state an even score, `B+` and `W+` before a number of whole hundredths that margin, and
/// anything else states none. It refuses what [`replay`] without a number refuses.
pub fn judge<A: Allocator + Copy>(
    alloc: A,
    collection: &Collection<'_, A>,
) -> Result<Verdict, RecordError>
    ensures ok { IfOk result (IsVerdict collection.now) }
    ensures err { IfErr result
        (λ e. e ≢ Memory → IsGameOf collection.now None (Err e)) }
{
    laws::one_record();
    judge_source(alloc, &collection.checked())
}

/// The verdict on the record that a source spells, as [`judge`] gives it, without lists of its parts.
pub fn judge_source<A: Allocator + Copy>(
    alloc: A,
    checked: &Checked<'_>,
) -> Result<Verdict, RecordError>
    ensures ok { OfRecord checked.now (λ c. IfOk result (IsVerdict c)) }
    ensures err { OfRecord checked.now (λ c. IfErr result
        (λ e. e ≢ Memory → IsGameOf c None (Err e))) }
{
    let values = root_values(checked);
    let stated = margin_stated(alloc, values.result)?;
    let root = root_of(&values)?;
    let mut game = Game::new(alloc, root.size);
    walk_on(&mut game, &root, checked, None)?;
    let margin = game.margin();
    Ok(Verdict {
        moves: game.move_count(),
        margin,
        stated: compared(stated, margin),
    })
}

fn compared(stated: Option<i64>, margin: i64) -> Stated
    ensures { IsStated stated margin result }
{
    match stated {
        None => Stated::None,
        Some(stated) if stated == margin => Stated::Agrees,
        Some(_) => Stated::Differs,
    }
}

/// The margin that an RE value states, on Black's side. It isn't inlined into `judge_source`: there the
/// compiler would empty more of the room for a `Game`.
#[inline(never)]
fn margin_stated<A: Allocator + Copy>(alloc: A, value: &[u8]) -> Result<Option<i64>, AllocError>
    ensures { IfOk result
        (λ stated. stated ≡ margin_spelled (trimmed (cooked_simple value.now))) }
{
    let text = cook_simple(alloc, value)?;
    Ok(margin_in(trim(&text)))
}

fn margin_in(word: &[u8]) -> Option<i64>
    ensures { result ≡ margin_spelled word.now }
{
    if is_text(word, b"0") || is_text(word, b"Draw") {
        return Some(0);
    }
    if word.len() < 2 {
        return None;
    }
    let (prefix, size) = word.split_at(2);
    if is_text(prefix, b"B+") {
        size_stated(size)
    } else if is_text(prefix, b"W+") {
        negated(size_stated(size))
    } else {
        None
    }
}

fn is_text(word: &[u8], text: &[u8]) -> bool
    ensures { result ≡ bytes_eq word.now text.now }
{
    word == text
}

/// The margin of a number that begins with a digit or a point.
fn size_stated(text: &[u8]) -> Option<i64>
    ensures value { result ≡ size_spelled text.now }
    ensures range { IfSome result IsKomi }
{
    if begins_number(text) {
        hundredths_of(text)
    } else {
        None
    }
}

fn begins_number(text: &[u8]) -> bool
    ensures { result ≡ is_number_first text.now }
{
    match text.first() {
        Some(byte) => byte.is_ascii_digit() || *byte == b'.',
        None => false,
    }
}

fn negated(size: Option<i64>) -> Option<i64>
    requires { IfSome size IsKomi }
    ensures { result ≡ option_map (λ n. pos 0 -ℤ n) size }
{
    match size {
        Some(size) => Some(0 - size),
        None => None,
    }
}
