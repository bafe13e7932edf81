//! What the words of this crate's contracts mean: laws about definitions, each the contract of a
//! function that does nothing.
ghost use Rattle.std.specs.Prelude.{◌≡◌, ℕ};
ghost use Rattle.go_sgf.specs.Cooked.{CookedByFront, CookingUndoesEscaping};
ghost use Rattle.go_sgf.specs.GameTrees.{RefusedAlike, SpelledAreWalked};
ghost use Rattle.go_sgf.specs.Laws.{CanonicalSpellsPlain, FrontsStand, OneRecord, SpelledIsFit, SpelledIsRead};
ghost use Rattle.go_sgf.specs.Numbers.{KomiIsSpelled};
ghost use Rattle.go_sgf.specs.declared.limits.TheConstants.{MAX_DEPTH, MAX_RECORD};

/// The most bytes and the deepest nesting of a record.
pub fn limits()
    ensures bytes { MAX_RECORD ≡ 16777216 }
    ensures depth { MAX_DEPTH ≡ 1000 }
{}

/// The canonical text of a record spells it with plain names, and is their canonical text too.
pub fn canonical_spells_plain()
    ensures { CanonicalSpellsPlain }
{}

/// What a text spells can be spelled: it has a tree, its names and values are well formed, and it
/// isn't nested too deep.
pub fn spelled_is_fit()
    ensures { SpelledIsFit }
{}

/// A text that spells a record and isn't too long is refused only where memory lacks.
pub fn spelled_is_read()
    ensures { SpelledIsRead }
{}

/// No text spells two records.
pub fn one_record()
    ensures { OneRecord }
{}

/// Each prefix of a tree's text stands, of a tree of any depth, and as a whole tree exactly where
/// it is all of the text.
pub fn fronts_stand()
    ensures { FrontsStand }
{}

/// A walk over a text's game trees meets the trees that the text spells, one after another, and no
/// others with white space alone between them.
pub fn spelled_are_walked()
    ensures { SpelledAreWalked }
{}

/// What [`next_tree`](crate::next_tree) refuses, [`check`](crate::check) refuses by the same reason
/// of the text from there on, if it isn't too long.
pub fn refused_alike()
    ensures { RefusedAlike }
{}

/// What a value says, prefix by prefix, is what cooking gives, whatever a line break gives.
pub fn cooked_by_front()
    ensures { (line_break : ℕ) → CookedByFront line_break }
{}

/// Cooking an escaped text as Text gives the text, where it has no CR, HT, VT and FF.
pub fn cooking_undoes_escaping()
    ensures { CookingUndoesEscaping }
{}

/// A word is read as the komi that it spells: a sign or none, digits, and decimals after a point.
pub fn komi_is_spelled()
    ensures { KomiIsSpelled }
{}
