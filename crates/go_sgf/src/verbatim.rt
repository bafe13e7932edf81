//! Finds the longest prefix of a tree's text that the canonical spelling keeps as it is. `writer.rt` writes
//! that prefix in one piece.
ghost use Rattle.std.specs.Prelude.{◌≡◌, ◌≢◌, ◌≤◌, ◌<◌, ◌+◌, ◌^◌, ◌++◌, ℕ, [], IfNone, IfSome, false, length};
ghost use Rattle.go_sgf.specs.Spelling.{is_first};
ghost use Rattle.go_sgf.specs.inner.Tidied.{Outside, StaysTo, rest_from, is_left_out_first, open_after, tidied_from};

use crate::scan::{is_left_out, is_upper};
use crate::values::value_end;

/// The prefix of a tree's text that the canonical spelling keeps as it is, the text after it, and the number
/// of trees that are open there. `depth` trees are open at the beginning. None if the canonical spelling
/// leaves the first byte out, if no tree is open, or if the text is empty.
pub(crate) fn verbatim(text: &[u8], depth: usize) -> Option<(&[u8], &[u8], usize)>
    requires { depth + length text.now ≤ 2 ^ 63 }
    ensures whole { IfSome result (λ r. text.now ≡ r.0.now ++ r.1.now) }
    ensures written { IfSome result
        (λ r. tidied_from Outside depth text.now ≡ r.0.now ++ tidied_from Outside r.2 r.1.now) }
    ensures after { IfSome result
        (λ r. rest_from Outside depth text.now ≡ rest_from Outside r.2 r.1.now) }
    ensures bound { IfSome result (λ r. r.2 + length r.1.now ≤ depth + length text.now) }
    ensures shorter { IfSome result (λ r. length r.1.now < length text.now) }
    ensures none { IfNone result
        (is_left_out_first text.now ≡ false → depth ≢ 0 → text.now ≡ []) }
{
    if depth == 0 {
        return None;
    }
    let mut rest = after_verbatim(text);
    let mut open = depth;
    while let Some((more, still_open)) = after_next(rest, open) {
        rest = more;
        open = still_open;
    }
    let (prefix, _) = text.split_at(text.len() - rest.len());
    if prefix.is_empty() {
        return None;
    }
    Some((prefix, rest, open))
}

/// Passes over one byte, unless the spelling leaves it out. If a tree is still open then, it also passes over
/// values, upper-case letters and `;`. Returns the rest and the number of open trees there. `None` if the
/// byte is left out, no tree is open, or the text is empty.
#[inline]
fn after_next(text: &[u8], depth: usize) -> Option<(&[u8], usize)>
    requires bound { depth + length text.now ≤ 2 ^ 63 }
    requires outside { depth ≢ 0 → is_first 91 text.now ≡ false }
    ensures stays { IfSome result (λ r. StaysTo Outside depth text.now r.1 r.0.now) }
    ensures outside { IfSome result (λ r. r.1 ≢ 0 → is_first 91 r.0.now ≡ false) }
    ensures bound { IfSome result (λ r. r.1 + length r.0.now ≤ depth + length text.now) }
    ensures shorter { IfSome result (λ r. length r.0.now < length text.now) }
    ensures none { IfNone result
        (is_left_out_first text.now ≡ false → depth ≢ 0 → text.now ≡ []) }
{
    if depth == 0 {
        return None;
    }
    let (byte, more) = text.split_first()?;
    if is_left_out(*byte) {
        return None;
    }
    let open = depth_after(*byte, depth);
    if open == 0 {
        return Some((more, open));
    }
    Some((after_verbatim(more), open))
}

/// The number of trees that are open after a byte outside of values.
fn depth_after(byte: u8, depth: usize) -> usize
    requires some { depth ≢ 0 }
    requires bound { depth < 2 ^ 63 }
    ensures open { result ≡ open_after Outside depth byte }
    ensures bound { result ≤ depth + 1 }
{
    match byte {
        b'(' => depth + 1,
        b')' => depth - 1,
        _ => depth,
    }
}

/// Passes over values, upper-case letters and `;`, and returns the rest. All of these are written as they
/// are, and a record has little else. It uses an index, which is faster than a slice for each byte. It isn't
/// inlined, so text and index stay in registers.
#[inline(never)]
fn after_verbatim(text: &[u8]) -> &[u8]
    ensures stays { (d : ℕ) → d ≢ 0 → StaysTo Outside d text.now d result.now }
    ensures stopped { is_first 91 result.now ≡ false }
    ensures shorter { length result.now ≤ length text.now }
{
    let mut place = 0;
    while place < text.len() {
        let byte = text[place];
        if byte == b'[' {
            let Some(length) = value_end(text.split_at(place + 1).1) else {
                return &[];
            };
            place = place + length + 2;
        } else if byte == b';' || is_upper(byte) {
            place += 1;
        } else {
            return text.split_at(place).1;
        }
    }
    &[]
}
