//! A law about a limit of this crate: the contract of a function that does nothing.
ghost use Rattle.std.specs.Prelude.{◌≡◌};
ghost use Rattle.goref_streams.specs.declared.TheConstants.{KEPT};

/// The most bytes that an output keeps back.
pub fn limits()
    ensures { KEPT ≡ 16384 }
{}
