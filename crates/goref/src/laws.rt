//! What the words of this crate's contracts mean: laws about definitions, each the contract of a
//! function that does nothing.
ghost use Rattle.std.specs.Prelude.{◌≡◌};
ghost use Rattle.goref.specs.declared.runs.TheConstants.{READS};

/// The most reads that a run makes: 2^40.
pub fn limits()
    ensures reads { READS ≡ 1099511627776 }
{}
