//! Runs of white space and controls in a line. Only white space separates words.
ghost use Rattle.std.specs.Prelude.{◌≡◌, ◌<◌, ◌≤◌, ◌++◌, IfSome, List, ℕ, length, take};
ghost use Rattle.std.specs.List.{list_all, list_any, prefix_len};
ghost use Rattle.goref_lines.specs.Kept.{is_control_byte};
ghost use Rattle.goref_lines.specs.inner.Prefixes.{AreBetweenWords, is_blank_byte, is_gap_byte};

/// The number of bytes that one test looks at.
const BLOCK: usize = 64;

/// Whether a byte is a control, which a line drops. A tab is no control but white space.
pub(crate) fn is_control(byte: u8) -> bool
    ensures { result ≡ is_control_byte byte }
{
    byte < 32 && byte != b'\t' || byte == 127
}

/// Whether a byte is a space or a tab.
pub(crate) fn is_blank(byte: u8) -> bool
    ensures { result ≡ is_blank_byte byte }
{
    byte == b' ' || byte == b'\t'
}

/// Whether there is a space or a tab. Whole blocks of controls are skipped.
pub(crate) fn has_blank(bytes: &[u8]) -> bool
    ensures { result ≡ list_any is_blank_byte bytes.now }
{
    let mut rest = bytes;
    while let Some(more) = after_controls(rest) {
        rest = more;
    }
    finds_blank(rest)
}

/// Whether there is a space or a tab. It stops at the first one.
fn finds_blank(bytes: &[u8]) -> bool
    ensures { result ≡ list_any is_blank_byte bytes.now }
{
    bytes.iter().any(|byte| is_blank(*byte))
}

/// The bytes after the first block, if that block is all controls.
fn after_controls(bytes: &[u8]) -> Option<&[u8]>
    ensures same { IfSome result (λ more. list_any is_blank_byte more.now
        ≡ list_any is_blank_byte bytes.now) }
    ensures shorter { IfSome result (λ more. length more.now < length bytes.now) }
{
    if bytes.len() < BLOCK {
        return None;
    }
    let (block, more) = bytes.split_at(BLOCK);
    if are_controls(block) {
        Some(more)
    } else {
        None
    }
}

/// Whether all bytes are controls. It never stops early, so the compiler can test many bytes at once.
fn are_controls(bytes: &[u8]) -> bool
    ensures { result ≡ list_all is_control_byte bytes.now }
{
    let mut all = true;
    for byte in bytes {
        all &= is_control(*byte);
    }
    all
}

/// Whether a byte is white space or a control.
fn is_of_gap(byte: u8) -> bool
    ensures { result ≡ is_gap_byte byte }
{
    byte <= b' ' || byte == 127
}

/// The length of a prefix of controls and white space. If the first block is all of these, it counts whole
/// blocks only.
pub(crate) fn gap_prefix(bytes: &[u8]) -> usize
    ensures gap { AreBetweenWords (take result bytes.now) }
    ensures bound { result ≤ length bytes.now }
{
    let count = bytes.len() - after_blocks(bytes).len();
    if count > 0 {
        return count;
    }
    gap_len(bytes)
}

/// The bytes after the first blocks of controls and white space.
fn after_blocks(bytes: &[u8]) -> &[u8]
    ensures { (gap : List ℕ) × (bytes.now ≡ gap ++ result.now) × AreBetweenWords gap }
{
    let mut rest = bytes;
    while let Some(more) = after_block(rest) {
        rest = more;
    }
    rest
}

/// The bytes after the first block, if that block is all controls and white space.
fn after_block(bytes: &[u8]) -> Option<&[u8]>
    ensures gap { IfSome result (λ more. (gap : List ℕ) × (bytes.now ≡ gap ++ more.now)
        × AreBetweenWords gap) }
    ensures shorter { IfSome result (λ more. length more.now < length bytes.now) }
{
    if bytes.len() < BLOCK {
        return None;
    }
    let (block, more) = bytes.split_at(BLOCK);
    if is_gap(block) { Some(more) } else { None }
}

/// The number of bytes of controls and white space that come first.
fn gap_len(bytes: &[u8]) -> usize
    ensures value { result ≡ prefix_len is_gap_byte bytes.now }
    ensures bound { result ≤ length bytes.now }
{
    bytes.iter().take_while(|byte| is_of_gap(**byte)).count()
}

/// Whether all bytes are controls and white space. It never stops early, so the compiler can test many bytes
/// at once.
fn is_gap(bytes: &[u8]) -> bool
    ensures { result ≡ list_all is_gap_byte bytes.now }
{
    let mut all = true;
    for byte in bytes {
        all &= is_of_gap(*byte);
    }
    all
}
