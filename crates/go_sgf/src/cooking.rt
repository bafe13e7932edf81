//! Values read as Text and as SimpleText, and a text written as a value. A value is read byte by byte: `Mode`
//! keeps what the bytes before left open.
ghost use Rattle.std.specs.Prelude.{◌≡◌, ◌++◌, IfOk, OnOk, option_to_list};
ghost use Rattle.go_sgf.specs.Cooked.{cooked, cooked_simple, cooked_text, escaped, escaped_byte, is_line_break, unblanked};
ghost use Rattle.go_sgf.specs.inner.Cooking.{cooked_alone, cooked_next};

use std::alloc::{AllocError, Allocator};

/// What is open before a byte of a text: nothing, a `\`, or a line break that began with a byte.
#[derive(Clone, Copy)]
pub(crate) enum Mode {
    Text,
    Escape,
    Broke(u8),
}

/// What a value says as Text: `\` and a line break vanish, `\` and another byte give that byte,
/// a line break gives LF, and HT, VT and FF give a space. CR LF, LF CR, CR and LF are one line
/// break each.
pub fn cook_text<A: Allocator + Copy>(alloc: A, value: &[u8]) -> Result<Vec<u8, A>, AllocError>
    ensures { IfOk result (λ text. text.items ≡ cooked_text value.now) }
{
    cook(alloc, value, b'\n')
}

/// What a value says as SimpleText: as Text, but a line break without a `\` gives a space.
pub fn cook_simple<A: Allocator + Copy>(alloc: A, value: &[u8]) -> Result<Vec<u8, A>, AllocError>
    ensures { IfOk result (λ text. text.items ≡ cooked_simple value.now) }
{
    cook(alloc, value, b' ')
}

/// The value that says a text: a `\` before each `\` and `]`.
pub fn escape<A: Allocator + Copy>(alloc: A, text: &[u8]) -> Result<Vec<u8, A>, AllocError>
    ensures { IfOk result (λ value. value.items ≡ escaped text.now) }
{
    let mut value = Vec::with_capacity(alloc, text.len())?;
    for byte in text {
        push_escaped(&mut value, *byte)?;
    }
    Ok(value)
}

fn push_escaped<A: Allocator + Copy>(value: &mut Vec<u8, A>, byte: u8) -> Result<(), AllocError>
    ensures { OnOk result (value.new.items ≡ value.old.items ++ escaped_byte byte) }
{
    if byte == b'\\' || byte == b']' {
        value.push(b'\\')?;
    }
    value.push(byte)?;
    Ok(())
}

/// What a value says, where a line break without a `\` gives this byte.
fn cook<A: Allocator + Copy>(
    alloc: A,
    value: &[u8],
    line_break: u8,
) -> Result<Vec<u8, A>, AllocError>
    ensures { IfOk result (λ text. text.items ≡ cooked line_break value.now) }
{
    let mut text = Vec::with_capacity(alloc, value.len())?;
    let mut mode = Mode::Text;
    for byte in value {
        let (next, given) = step(line_break, mode, *byte);
        push_given(&mut text, given)?;
        mode = next;
    }
    Ok(text)
}

fn push_given<A: Allocator + Copy>(
    text: &mut Vec<u8, A>,
    given: Option<u8>,
) -> Result<(), AllocError>
    ensures { OnOk result (text.new.items ≡ text.old.items ++ option_to_list given) }
{
    if let Some(byte) = given {
        text.push(byte)?;
    }
    Ok(())
}

/// What is open after a byte, and what the byte gives.
fn step(line_break: u8, mode: Mode, byte: u8) -> (Mode, Option<u8>)
    ensures { result ≡ cooked_next line_break mode byte }
{
    match mode {
        Mode::Text => plain_step(line_break, byte),
        Mode::Escape if is_break(byte) => (Mode::Broke(byte), None),
        Mode::Escape => (Mode::Text, Some(unblank(byte))),
        Mode::Broke(first) if is_break(byte) && byte != first => (Mode::Text, None),
        Mode::Broke(_) => plain_step(line_break, byte),
    }
}

fn plain_step(line_break: u8, byte: u8) -> (Mode, Option<u8>)
    ensures { result ≡ cooked_alone line_break byte }
{
    if byte == b'\\' {
        (Mode::Escape, None)
    } else if is_break(byte) {
        (Mode::Broke(byte), Some(line_break))
    } else {
        (Mode::Text, Some(unblank(byte)))
    }
}

fn is_break(byte: u8) -> bool
    ensures { result ≡ is_line_break byte }
{
    byte == b'\n' || byte == b'\r'
}

/// A space in place of HT, VT and FF.
fn unblank(byte: u8) -> u8
    ensures { result ≡ unblanked byte }
{
    match byte {
        9 | 11 | 12 => b' ',
        _ => byte,
    }
}
