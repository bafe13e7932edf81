//! What the words of this crate's contracts mean: laws about definitions, each the contract of a
//! function that does nothing.
ghost use Rattle.std.specs.Prelude.{◌≡◌};
ghost use Rattle.go_board.specs.declared.decimals.TheConstants.{MAX_INT, MAX_KOMI};
ghost use Rattle.go_board.specs.declared.rows.TheConstants.{ROWS};
ghost use Rattle.go_board.specs.declared.size.TheConstants.{MAX_LINES, MAX_POINTS};
ghost use Rattle.go_board.specs.Laws.{BytesMakeAPack, JoinedByPath, LibertyByPath, OneColourLives, PacksTellApart, PointsByNumber, ReachesByPath, TakenAndLeft, VanishedAtMostAll};

/// The numbers of lines, points and rows of the largest board, the greatest number that a word
/// spells, and the most hundredths of a komi.
pub fn limits()
    ensures lines { MAX_LINES ≡ 25 }
    ensures points { MAX_POINTS ≡ 625 }
    ensures rows { ROWS ≡ 25 }
    ensures int { MAX_INT ≡ 2147483647 }
    ensures komi { MAX_KOMI ≡ 99999999999 }
{}

/// The test whether a point reaches a colour holds exactly where a path leads there.
pub fn reaches_by_a_path()
    ensures { ReachesByPath }
{}

/// The test whether two points are joined holds exactly where a path joins them.
pub fn joined_by_a_path()
    ensures { JoinedByPath }
{}

/// A liberty of a stone's chain is an empty point adjacent to a stone that a path joins to it.
pub fn liberty_by_a_path()
    ensures { LibertyByPath }
{}

/// No more stones of a colour vanish than the board has points.
pub fn vanished_at_most_all()
    ensures { VanishedAtMostAll }
{}

/// On a board with an empty point, stones of one colour alone all reach empty.
pub fn one_colour_lives()
    ensures { OneColourLives }
{}

/// A point of the board and its number determine each other.
pub fn points_by_number()
    ensures { PointsByNumber }
{}

/// Of each colour, the stones that a play takes and those that it leaves are together the stones before it
/// and the placed one, so at most one more than before.
pub fn taken_and_left()
    ensures { TakenAndLeft }
{}

/// The packs of two colourings of one length are equal exactly where the colourings are.
pub fn packs_tell_colourings_apart()
    ensures { PacksTellApart }
{}

/// Bytes of which each is that of its four points are the pack of a colouring.
pub fn bytes_make_a_pack()
    ensures { BytesMakeAPack }
{}
