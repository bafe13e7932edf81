//! What the words of this crate's contracts mean: laws about definitions, each the contract of a
//! function that does nothing.
ghost use Rattle.goref_results.specs.Plays.{MarksAreLegal};

/// The text of the marked plays of a colour is the list of its legal plays.
pub fn marks_are_legal()
    ensures { MarksAreLegal }
{}
