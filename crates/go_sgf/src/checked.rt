//! A source that was checked. Code that reads it needs no error for a broken record.
ghost use Rattle.std.specs.Prelude.{◌≡◌};
ghost use Rattle.go_sgf.specs.Record.{Trees};
ghost use Rattle.go_sgf.specs.Spelling.{Spells};

use std::marker::Model;

/// A source that spells a record. Only [`check`](crate::check) and
/// [`Collection::checked`](crate::Collection::checked) make one.
#[derive(Drop)]
pub struct Checked<'a> {
    pub(crate) text: &'a [u8],
}

impl<'a> Model for Checked<'a> {
    ghost use Rattle.std.specs.Prelude.{ℕ, List};
    ghost use Rattle.go_sgf.specs.Record.{Trees};
    ghost use Rattle.go_sgf.specs.Spelling.{Spells};

    ghost Value = { List ℕ };

    ghost view = { λ c. c.text.now };

    ghost invariant = { λ c. (t : Trees) × Spells c.text.now t };
}

impl<'a> Checked<'a> {
    /// The text of the source.
    pub fn text(&self) -> &'a [u8]
        ensures text { result.now ≡ self.now }
        ensures spelled { (c : Trees) × Spells self.now c }
    {
        self.text
    }
}
