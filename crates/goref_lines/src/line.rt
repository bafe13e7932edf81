//! A line as its bytes come in: its words are kept, joined by single spaces. It drops comments, controls and
//! all that is past the limit, and notes whether anything was past it.
ghost use Rattle.std.specs.Prelude.{◌≡◌, ◌+◌, ◌<◌, ◌≤◌, ℕ, List, [], ◌∷◌, ◌++◌, length, take, false, true};
ghost use Rattle.std.specs.List.{list_any, prefix_len};
ghost use Rattle.goref_lines.specs.Kept.{Kept, kept, is_hash, printable};
ghost use Rattle.goref_lines.specs.Words.{has_bytes};
ghost use Rattle.goref_lines.specs.inner.Prefixes.{AreBetweenWords, AreJoined, KeepsPrefix, end_of_words, is_word_byte, last_of, with_space};

use crate::gaps::{gap_prefix, has_blank, is_blank, is_control};
use arrayvec::ArrayVec;
use memchr::memchr;
use std::marker::Model;

/// The most bytes that are kept of a line's words, joined by single spaces.
pub const LINE_LIMIT: usize = 8192;

/// What is kept of a line as its bytes come in.
#[derive(Drop)]
pub struct Line {
    /// The words so far, joined by single spaces.
    text: ArrayVec<u8, LINE_LIMIT>,
    /// Whether the words have more bytes than there is room for.
    is_long: bool,
    /// Whether a `#` came, after which nothing is kept.
    has_comment: bool,
    /// Whether white space came after the last word.
    has_space: bool,
}

impl Model for Line {
    ghost Value = { Kept };

    ghost view = { λ l. record {
      text = l.text.items;
      is_long = l.is_long;
      has_comment = l.has_comment;
      has_space = l.has_space;
    } };
}

impl Line {
    /// A line of which no byte has come yet.
    #[tactic(auto, unfolding(crate::specs::Kept::kept))]
    pub fn new() -> Line
        ensures { result ≡ kept [] }
    {
        Line {
            text: ArrayVec::new(),
            is_long: false,
            has_comment: false,
            has_space: false,
        }
    }

    /// The line with these bytes.
    pub fn of(bytes: &[u8]) -> Line
        ensures { result ≡ kept bytes.now }
    {
        let mut line = Line::new();
        line.extend(bytes);
        line
    }

    /// Begins a new line.
    #[tactic(auto, unfolding(crate::specs::Kept::kept))]
    pub fn clear(&mut self)
        ensures { self.new ≡ kept [] }
    {
        self.text.clear();
        self.is_long = false;
        self.has_comment = false;
        self.has_space = false;
    }

    /// Takes the line's next byte.
    pub fn push(&mut self, byte: u8)
        ensures { (line : List ℕ) → self.old ≡ kept line → self.new ≡ kept (line ++ byte ∷ []) }
    {
        if self.has_comment {
            return;
        }
        if is_control(byte) {
            return;
        }
        if byte == b'#' {
            self.has_comment = true;
            return;
        }
        if is_blank(byte) {
            self.has_space = !self.text.is_empty();
            return;
        }
        append_to_words(&mut self.text, &mut self.is_long, self.has_space, &[byte]);
        self.has_space = false;
    }

    /// Takes the line's next bytes.
    pub fn extend(&mut self, bytes: &[u8])
        ensures { (line : List ℕ) → self.old ≡ kept line → self.new ≡ kept (line ++ bytes.now) }
    {
        if self.is_long {
            self.skip(bytes);
            return;
        }
        let mut rest = bytes;
        while !rest.is_empty() && !self.has_comment {
            let count = self.push_prefix(rest);
            rest = rest.split_at(count).1;
        }
    }

    /// Takes the next bytes of a line whose words are over the limit: none of them is kept.
    fn skip(&mut self, bytes: &[u8])
        requires { self.old.is_long ≡ true }
        ensures { (line : List ℕ) → self.old ≡ kept line → self.new ≡ kept (line ++ bytes.now) }
    {
        if self.has_comment {
            return;
        }
        match memchr(b'#', bytes) {
            Some(place) => {
                self.skip_before_comment(bytes.split_at(place).0);
                self.has_comment = true;
            }
            None => self.skip_before_comment(bytes),
        }
    }

    /// Takes bytes without a `#` in a line whose words are over the limit.
    fn skip_before_comment(&mut self, bytes: &[u8])
        requires long { self.old.is_long ≡ true }
        requires no_comment { self.old.has_comment ≡ false }
        requires bytes { list_any is_hash bytes.now ≡ false }
        ensures line { (line : List ℕ) → self.old ≡ kept line
            → self.new ≡ kept (line ++ bytes.now) }
        ensures no_comment { self.new.has_comment ≡ self.old.has_comment }
    {
        if let Some(last) = last_printable(bytes) {
            self.has_space = is_blank(last);
        }
    }

    /// Takes a prefix of the bytes, and returns its length. The prefix is words, a gap, or a single `#`. A
    /// gap is white space and controls, anywhere in the line. A gap without white space doesn't end a word.
    fn push_prefix(&mut self, bytes: &[u8]) -> usize
        requires no_comment { self.old.has_comment ≡ false }
        requires bytes { 0 < length bytes.now }
        ensures some { 0 < result }
        ensures most { result ≤ length bytes.now }
        ensures prefix { (line : List ℕ) → self.old ≡ kept line
            → self.new ≡ kept (line ++ take result bytes.now) }
    {
        let count = words_prefix(bytes);
        if count > 0 {
            self.push_words(bytes.split_at(count).0);
            return count;
        }
        let count = gap_prefix(bytes);
        if count > 0 {
            self.push_gap(bytes.split_at(count).0);
            return count;
        }
        self.push(bytes[0]);
        1
    }

    /// Takes words that are joined by single spaces, as the line keeps them.
    fn push_words(&mut self, words: &[u8])
        requires no_comment { self.old.has_comment ≡ false }
        requires words { AreJoined words.now }
        ensures { (line : List ℕ) → self.old ≡ kept line → self.new ≡ kept (line ++ words.now) }
    {
        append_to_words(&mut self.text, &mut self.is_long, self.has_space, words);
        self.has_space = false;
    }

    /// Takes controls and white space. They change nothing where no word came yet, or where white space came
    /// after the last word already.
    fn push_gap(&mut self, gap: &[u8])
        requires no_comment { self.old.has_comment ≡ false }
        requires gap { AreBetweenWords gap.now }
        ensures { (line : List ℕ) → self.old ≡ kept line → self.new ≡ kept (line ++ gap.now) }
    {
        if !self.has_space && !self.text.is_empty() {
            self.has_space = has_blank(gap);
        }
    }

    /// The words so far, joined by single spaces, and of these the first [`LINE_LIMIT`] bytes.
    pub fn text(&self) -> &[u8]
        ensures value { result.now ≡ self.now.text }
        ensures fits { length result.now ≤ LINE_LIMIT }
    {
        self.text.as_slice()
    }

    /// Whether a word has come.
    pub fn has_words(&self) -> bool
        ensures { result ≡ has_bytes self.now.text }
    {
        !self.text.is_empty()
    }

    /// Whether the words have more bytes than a line may have.
    pub fn is_long(&self) -> bool
        ensures { result ≡ self.now.is_long }
    {
        self.is_long
    }
}

/// Whether a byte is part of a word.
fn is_of_word(byte: u8) -> bool
    ensures { result ≡ is_word_byte byte }
{
    byte > b' ' && byte != b'#' && byte != 127
}

/// The length of a prefix of words that are joined by single spaces. It ends with a word.
fn words_prefix(bytes: &[u8]) -> usize
    ensures joined { 0 < result → AreJoined (take result bytes.now) }
    ensures word { prefix_len is_word_byte bytes.now ≤ result }
    ensures bound { result ≤ length bytes.now }
{
    let mut start = 0;
    for (place, byte) in bytes.iter().enumerate() {
        if !is_of_word(*byte) {
            if *byte != b' ' || place == start {
                return words_end(start, place);
            }
            start = place + 1;
        }
    }
    words_end(start, bytes.len())
}

/// Where the words before `place` end. `start` is the place after the last single space, or 0. If a word begins
/// there, the words end at `place`. If none does, they end before that space.
fn words_end(start: usize, place: usize) -> usize
    ensures { result ≡ end_of_words start place }
{
    if start < place {
        place
    } else {
        start.saturating_sub(1)
    }
}

/// The last byte that isn't a control.
fn last_printable(bytes: &[u8]) -> Option<u8>
    ensures { result ≡ last_of (printable bytes.now) }
{
    let mut rest = bytes;
    while let Some((last, prefix)) = rest.split_last() {
        if !is_control(*last) {
            return Some(*last);
        }
        rest = prefix;
    }
    None
}

/// Appends words that are joined by single spaces, with a space before them if one is due.
fn append_to_words(
    text: &mut ArrayVec<u8, LINE_LIMIT>,
    is_long: &mut bool,
    has_space: bool,
    word: &[u8],
)
    ensures { (whole : List ℕ) → KeepsPrefix text.old.items is_long.old whole
        → KeepsPrefix text.new.items is_long.new (whole ++ with_space has_space word.now) }
{
    if has_space {
        append(text, is_long, b" ");
    }
    append(text, is_long, word);
}

/// Appends what there is room for.
fn append(text: &mut ArrayVec<u8, LINE_LIMIT>, is_long: &mut bool, bytes: &[u8])
    ensures { (whole : List ℕ) → KeepsPrefix text.old.items is_long.old whole
        → KeepsPrefix text.new.items is_long.new (whole ++ bytes.now) }
{
    let room = text.remaining_capacity();
    if bytes.len() <= room {
        extend_text(text, bytes);
    } else {
        extend_text(text, bytes.split_at(room).0);
        *is_long = true;
    }
}

fn extend_text(text: &mut ArrayVec<u8, LINE_LIMIT>, bytes: &[u8])
    requires { length text.old.items + length bytes.now ≤ LINE_LIMIT }
    ensures { text.new.items ≡ text.old.items ++ bytes.now }
{
    match text.try_extend_from_slice(bytes) {
        Ok(()) | Err(_) => {}
    }
}
