//! What the words of this crate's contracts mean: laws about definitions, each the contract of a
//! function that does nothing.
ghost use Rattle.std.specs.Prelude.{◌≡◌};
ghost use Rattle.go_record.specs.Laws.{JudgedByPositions, OneOutcome, RecordLaw, SoundGames};
ghost use Rattle.go_record.specs.declared.root.TheConstants.{USUAL_LINES};

use go_sgf::laws::{canonical_spells_plain, one_record, spelled_is_read};

/// A record has one outcome, a standing or a refusal, and no other.
pub fn one_outcome()
    ensures { OneOutcome }
{}

/// The game of a record is a standing that play can reach.
pub fn sound_games()
    ensures { SoundGames }
{}

/// The game of a record is under the positional rule, by which every record is judged.
pub fn judged_by_positions()
    ensures { JudgedByPositions }
{}

/// The record of a standing that play can reach is spelled by its text. That text spells nothing else. It is
/// read, if it isn't too long and there is memory. Under the positional rule its game is the standing.
pub fn record_law()
    ensures { RecordLaw }
{
    canonical_spells_plain();
    one_record();
    spelled_is_read();
}

/// A board whose record says nothing of its size has 19 lines.
pub fn usual_lines()
    ensures { USUAL_LINES ≡ 19 }
{}
