//! The words of a text, given one after another, each as a slice of that text.
ghost use Rattle.std.specs.Prelude.{◌≡◌, ◌≤◌, ◌∷◌, [], IfNone, IfSome, length, not, option_copied, slice_get};
ghost use Rattle.std.specs.List.{prefix_len};
ghost use Rattle.goref_lines.specs.Words.{is_plain_space, words};

use std::marker::Model;

/// The words of a text that weren't taken yet.
#[derive(Drop)]
pub struct Words<'a> {
    /// The rest of the text: spaces, if any, then words with spaces between them.
    text: &'a [u8],
}

impl<'a> Model for Words<'a> {
    ghost use Rattle.std.specs.Prelude.{ℕ, List};
    ghost use Rattle.goref_lines.specs.Words.{words};

    ghost Value = { List (List ℕ) };

    ghost view = { λ w. words w.text.now };
}

impl<'a> Words<'a> {
    /// All the words of a text.
    pub(crate) fn of(text: &'a [u8]) -> Words<'a>
        ensures { result ≡ words text.entry.now }
    {
        Words { text }
    }

    /// Takes the next word. None: no word is left.
    pub fn next_word(&mut self) -> Option<&'a [u8]>
        ensures none { IfNone result ((self.old ≡ []) × (self.new ≡ [])) }
        ensures some { IfSome result (λ w. self.old ≡ w.now ∷ self.new) }
    {
        let (_, text) = self.text.split_at(count_spaces(self.text));
        let (word, rest) = text.split_at(word_len(text));
        self.text = rest;
        if word.is_empty() {
            return None;
        }
        Some(word)
    }

    /// The word at this place among those that weren't taken yet, from 0.
    pub(crate) fn word(&self, place: usize) -> Option<&'a [u8]>
        ensures { option_copied result ≡ slice_get self.now place }
    {
        word(self.text, place)
    }

    /// The same words, to be taken again.
    pub(crate) fn again(&self) -> Words<'a>
        ensures { result ≡ self.now }
    {
        Words { text: self.text }
    }
}

/// The word of a text at this place, from 0.
pub(crate) fn word(text: &[u8], place: usize) -> Option<&[u8]>
    ensures { option_copied result ≡ slice_get (words text.now) place }
{
    text.split(|byte| *byte == b' ')
        .filter(|word| !word.is_empty())
        .nth(place)
}

/// How many spaces a text begins with.
fn count_spaces(text: &[u8]) -> usize
    ensures value { result ≡ prefix_len is_plain_space text.now }
    ensures bound { result ≤ length text.now }
{
    text.iter().take_while(|byte| **byte == b' ').count()
}

/// How many bytes come before the first space of a text.
fn word_len(text: &[u8]) -> usize
    ensures value { result ≡ prefix_len (λ b. not (is_plain_space b)) text.now }
    ensures bound { result ≤ length text.now }
{
    text.iter().take_while(|byte| **byte != b' ').count()
}
