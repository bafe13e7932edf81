//! What the words of this crate's contracts mean: laws about definitions, each the contract of a
//! function that does nothing.
ghost use Rattle.std.specs.Prelude.{◌≡◌};
ghost use Rattle.goref_lines.specs.declared.line.TheConstants.{LINE_LIMIT};

/// The most bytes that a line keeps of its words.
pub fn limits()
    ensures bytes { LINE_LIMIT ≡ 8192 }
{}
