ghost use Rattle.std.specs.Prelude.{◌≡◌, option_copied};
ghost use Rattle.goref_session.specs.Replies.{wanted};
ghost use Rattle.goref_session.specs.inner.Wanting.{may_load};

use crate::loading::{asks_to_load, parse_load};
use goref_lines::{Line, Request};
use std::alloc::Allocator;

/// What was fetched for a line.
#[derive(Drop)]
pub enum Fetched<A: Allocator> {
    /// No file was wanted.
    None,
    /// What the file holds.
    Bytes(Vec<u8, A>),
    /// There is no such file, it is no regular file, or it can't be read.
    Missing,
    /// The file has more bytes than a record may have.
    TooLarge,
    /// There was no memory for what the file holds.
    Memory,
}

/// The name of the file that a line asks for: that of a `loadsgf` with well-formed arguments.
pub fn wants(line: &Line) -> Option<&[u8]>
    ensures { option_copied result ≡ wanted line.now }
{
    if line.is_long() {
        return None;
    }
    let text = line.text();
    if !may_ask_to_load(text) {
        return None;
    }
    let request = Request::of(text);
    if !asks_to_load(&request) {
        return None;
    }
    match parse_load(&request) {
        Some(load) => Some(load.name),
        None => None,
    }
}

/// Whether a text may ask for `loadsgf`. Only an id can come before the name `loadsgf`. Digits and spaces
/// aren't above `9`. So in a `loadsgf` line the first byte above `9` is `l`. This test settles most lines
/// before they are cut into words.
fn may_ask_to_load(text: &[u8]) -> bool
    ensures { result ≡ may_load text.now }
{
    for byte in text {
        if *byte > b'9' {
            return *byte == b'l';
        }
    }
    false
}
