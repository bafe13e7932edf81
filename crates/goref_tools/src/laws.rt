//! What follows from the contracts of the tools: laws about definitions, each the contract of a
//! function that does nothing.
ghost use Rattle.std.specs.Prelude.{◌≡◌};
ghost use Rattle.goref_tools.specs.Tidying.{TidyIsTidy};
ghost use Rattle.goref_tools.specs.declared.input.TheConstants.{CHUNK};

use go_sgf::laws::{canonical_spells_plain, one_record, spelled_is_fit, spelled_is_read};

/// The most bytes of one read.
pub fn limits()
    ensures { CHUNK ≡ 4096 }
{}

/// The canonical text of a record that was read is a record, if it isn't too long for one, and is
/// written as itself.
pub fn tidy_is_tidy()
    ensures { TidyIsTidy }
{
    canonical_spells_plain();
    one_record();
    spelled_is_fit();
    spelled_is_read();
}
