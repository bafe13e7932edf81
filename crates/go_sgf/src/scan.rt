//! What a text begins with: white space, letters, a name, a tree. The searches for `]` and `\` are here too.
//! A search tests 16 bytes at once. It tests a rest of fewer bytes one by one. `first_stop` makes at most four
//! tests. Then `memchr2` searches the rest.
ghost use Rattle.std.specs.Prelude.{◌≡◌, ◌≢◌, ◌≤◌, ◌*◌, ◌∷◌, ◌++◌, ◌||◌, ◌==◌, ℕ, IfNone, IfSome, Some, false, length, map, min, take, true};
ghost use Rattle.std.specs.List.{list_all, list_any};
ghost use Rattle.std.specs.Simd.Lanes.{mask_l};
ghost use Rattle.memchr.specs.Find.{IsFirst, IsFirstByte, Nowhere, Passes, is_byte2};
ghost use Rattle.go_sgf.specs.inner.Reads.{IsBracketAt, is_letter_first, is_ordinary};
ghost use Rattle.go_sgf.specs.inner.Tidied.{Outside, rest_from, is_left_out_byte, is_left_out_first, tidied_from};
ghost use Rattle.go_sgf.specs.Record.{is_letter_byte, is_upper_byte};
ghost use Rattle.go_sgf.specs.Spelling.{without_space, is_tree_first, is_first, tree_in, is_space};

use memchr::memchr2;
use std::simd::prelude::*;

/// Whether a byte is white space: space, HT, LF, VT, FF or CR.
pub(crate) fn is_white(byte: u8) -> bool
    ensures { result ≡ is_space byte }
{
    // The first comparison decides for most bytes, since they are above a space.
    byte <= b' ' && (byte == b' ' || (9 <= byte && byte <= 13))
}

fn is_letter(byte: u8) -> bool
    ensures { result ≡ is_letter_byte byte }
{
    (b'A' <= byte && byte <= b'Z') || (b'a' <= byte && byte <= b'z')
}

/// Whether a byte is an upper-case letter.
pub(crate) fn is_upper(byte: u8) -> bool
    ensures { result ≡ is_upper_byte byte }
{
    b'A' <= byte && byte <= b'Z'
}

/// Whether one of the bytes is an upper-case letter.
fn has_upper(bytes: &[u8]) -> bool
    ensures { result ≡ list_any is_upper_byte bytes.now }
{
    bytes.iter().any(|byte| is_upper(*byte))
}

/// Whether a byte outside of values isn't written: white space and lower-case letters.
pub(crate) fn is_left_out(byte: u8) -> bool
    ensures { result ≡ is_left_out_byte byte }
{
    is_white(byte) || (b'a' <= byte && byte <= b'z')
}

/// Skips the bytes that the canonical spelling leaves out, and returns the rest.
pub(crate) fn after_left_out(bytes: &[u8]) -> &[u8]
    ensures written { (d : ℕ) → d ≢ 0
        → tidied_from Outside d bytes.now ≡ tidied_from Outside d result.now }
    ensures after { (d : ℕ) → d ≢ 0
        → rest_from Outside d bytes.now ≡ rest_from Outside d result.now }
    ensures stopped { is_left_out_first result.now ≡ false }
    ensures shorter { length result.now ≤ length bytes.now }
{
    let mut rest = bytes;
    while let Some((first, more)) = rest.split_first() {
        if !is_left_out(*first) {
            return rest;
        }
        rest = more;
    }
    rest
}

/// The bytes after the white space that comes first. Most texts here begin with none.
#[inline]
#[tactic(auto, using(crate::proofs::Scanning::space_steps))]
pub(crate) fn after_space(bytes: &[u8]) -> &[u8]
    ensures { result.now ≡ without_space bytes.now }
{
    match bytes.split_first() {
        Some((first, more)) if is_white(*first) => after_more_space(more),
        _ => bytes,
    }
}

/// The bytes after white space of any length.
#[tactic(auto, using(crate::proofs::Scanning::space_steps))]
fn after_more_space(bytes: &[u8]) -> &[u8]
    ensures { result.now ≡ without_space bytes.now }
{
    let mut rest = bytes;
    while let Some((first, more)) = rest.split_first() {
        if !is_white(*first) {
            return rest;
        }
        rest = more;
    }
    rest
}

/// Whether the first byte is this one.
pub(crate) fn begins_with(bytes: &[u8], byte: u8) -> bool
    ensures { result ≡ is_first byte bytes.now }
{
    match bytes.split_first() {
        Some((first, _)) => *first == byte,
        None => false,
    }
}

/// Whether the first byte is a letter.
pub(crate) fn begins_letter(bytes: &[u8]) -> bool
    ensures { result ≡ is_letter_first bytes.now }
{
    match bytes.split_first() {
        Some((first, _)) => is_letter(*first),
        None => false,
    }
}

/// The bytes after this one, where it is the first.
pub(crate) fn strip(bytes: &[u8], byte: u8) -> Option<&[u8]>
    ensures stripped { IfSome result (λ rest. bytes.now ≡ byte ∷ rest.now) }
    ensures other { IfNone result (is_first byte bytes.now ≡ false) }
{
    match bytes.split_first() {
        Some((first, rest)) if *first == byte => Some(rest),
        _ => None,
    }
}

/// The letters that come first, and the bytes after them.
fn letters(bytes: &[u8]) -> (&[u8], &[u8])
    ensures whole { bytes.now ≡ result.0.now ++ result.1.now }
    ensures letters { list_all is_letter_byte result.0.now ≡ true }
    ensures stopped { is_letter_first result.1.now ≡ false }
{
    for (place, byte) in bytes.iter().enumerate() {
        if !is_letter(*byte) {
            return bytes.split_at(place);
        }
    }
    (bytes, &[])
}

/// The letters that come first, the bytes after them, and whether one of the letters is an upper-case one.
/// Without an upper-case letter they are no name.
#[inline]
pub(crate) fn name_at(bytes: &[u8]) -> (&[u8], &[u8], bool)
    ensures whole { bytes.now ≡ result.0.now ++ result.1.now }
    ensures letters { list_all is_letter_byte result.0.now ≡ true }
    ensures upper { result.2 ≡ list_any is_upper_byte result.0.now }
    ensures stopped { is_letter_first result.1.now ≡ false }
{
    // Most names have one letter.
    if let Some((first, after)) = bytes.split_first() {
        if is_upper(*first) && begins_with(after, b'[') {
            return (bytes.split_at(1).0, after, true);
        }
    }
    let (name, after) = letters(bytes);
    (name, after, has_upper(name))
}

/// Whether a tree begins here: `(`, and then `;`, with white space between them or none.
pub(crate) fn begins_tree(bytes: &[u8]) -> bool
    ensures { result ≡ is_tree_first bytes.now }
{
    match bytes.split_first() {
        Some((b'(', rest)) => begins_with(after_space(rest), b';'),
        _ => false,
    }
}

/// The bytes after a tree's `(`, where a tree begins.
pub(crate) fn inside_tree(bytes: &[u8]) -> Option<&[u8]>
    ensures stripped { IfSome result (λ rest. bytes.now ≡ 40 ∷ rest.now) }
    ensures begins { IfSome result (λ _. is_tree_first bytes.now ≡ true) }
    ensures other { IfNone result (is_tree_first bytes.now ≡ false) }
{
    if begins_tree(bytes) {
        strip(bytes, b'(')
    } else {
        None
    }
}

/// The bytes from the first tree on.
#[tactic(auto, using(crate::proofs::Scanning::tree_steps))]
pub(crate) fn from_first_tree(bytes: &[u8]) -> &[u8]
    ensures { result.now ≡ tree_in bytes.now }
{
    for (place, byte) in bytes.iter().enumerate() {
        if *byte == b'(' {
            let (_, rest) = bytes.split_at(place);
            if begins_tree(rest) {
                return rest;
            }
        }
    }
    &[]
}

/// Whether a byte is `]` or `\`.
fn is_stop(byte: u8) -> bool
    ensures { result ≡ is_byte2 93 92 byte }
{
    byte == b']' || byte == b'\\'
}

/// The number of bytes that one test looks at.
const LANES: usize = 16;

/// The number of tests before `memchr2`, which takes time to start.
const BLOCKS: usize = 4;

/// Which of the bytes are `]` or `\`, as bits.
#[inline]
fn stops(bytes: u8x16) -> u64
    ensures { result ≡ mask_l (map (is_byte2 93 92) bytes) }
{
    (bytes.simd_eq(u8x16::splat(b']')) | bytes.simd_eq(u8x16::splat(b'\\'))).to_bitmask()
}

/// The place of the first `]` or `\`, where it is within this number of blocks.
#[inline]
fn near_stop(bytes: &[u8], blocks: usize) -> Option<usize>
    ensures some { IfSome result
        (λ place. IsFirstByte (is_byte2 93 92) bytes.now (Some place)) }
    ensures none { IfNone result
        (Nowhere (Passes (is_byte2 93 92) bytes.now) 0 (min (blocks * 16) (length bytes.now))) }
{
    for block in 0..blocks {
        let from = block * LANES;
        if bytes.len() - from < LANES {
            return stop_from(bytes, from);
        }
        let found = stops(u8x16::from_slice(&bytes[from..]));
        if found != 0 {
            return Some(from + found.trailing_zeros() as usize);
        }
    }
    None
}

/// The place of the first `]` or `\` from a place on.
#[inline(never)]
fn stop_from(bytes: &[u8], from: usize) -> Option<usize>
    ensures { IsFirst (Passes (is_byte2 93 92) bytes.now) from (length bytes.now) result }
{
    for place in from..bytes.len() {
        if is_stop(bytes[place]) {
            return Some(place);
        }
    }
    None
}

/// The place of the first `]` within the first 16 bytes, if no `\` comes first.
#[inline]
pub(crate) fn near_bracket(bytes: &[u8]) -> Option<usize>
    ensures bracket { IfSome result (λ place. IsBracketAt bytes.now place) }
    ensures prefix { IfSome result
        (λ place. list_all is_ordinary (take place bytes.now) ≡ true) }
{
    let place = near_stop(bytes, 1)?;
    if bytes[place] == b']' {
        Some(place)
    } else {
        None
    }
}

/// The place of the first `]` or `\`.
fn first_stop(bytes: &[u8]) -> Option<usize>
    ensures { IsFirstByte (is_byte2 93 92) bytes.now result }
{
    if let Some(place) = near_stop(bytes, BLOCKS) {
        return Some(place);
    }
    let passed = bytes.len().min(BLOCKS * LANES);
    let place = memchr2(b']', b'\\', bytes.split_at(passed).1)?;
    Some(passed + place)
}

/// The bytes before the first `]` or `\`, that byte, and the bytes after it.
pub(crate) fn split_at_stop(bytes: &[u8]) -> Option<(&[u8], u8, &[u8])>
    ensures whole { IfSome result (λ r. bytes.now ≡ r.0.now ++ (r.1 ∷ r.2.now)) }
    ensures prefix { IfSome result (λ r. list_all is_ordinary r.0.now ≡ true) }
    ensures stopped { IfSome result (λ r. is_ordinary r.1 ≡ false) }
    ensures none { IfNone result (list_all is_ordinary bytes.now ≡ true) }
{
    let place = first_stop(bytes)?;
    let (prefix, rest) = bytes.split_at(place);
    match rest.split_first() {
        Some((byte, more)) => Some((prefix, *byte, more)),
        None => None,
    }
}
