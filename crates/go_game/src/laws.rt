//! Laws about the standing of a game, each the contract of a function that does nothing.
ghost use Rattle.go_game.specs.Laws.{CellsRestored, ChoiceByTheRule, ChoiceIsLegal, CostsOfATurn, LegalByTheRules, MovesTakenBack, PositionalByPositions, SituationalBySituations, WholeStateRestored};

use go_board::laws::points_by_number;

/// Any moves, then as many taken back, leave the standing as it was.
pub fn moves_taken_back()
    ensures { MovesTakenBack }
{}

/// Any moves, then as many taken back, leave all that the game holds as it was: colouring, chains,
/// prisoners, history and mover.
pub fn whole_state_restored()
    ensures { WholeStateRestored }
{}

/// A play and its undo leave each cell of a game's board with its old value, by what `play` and
/// `undo` promise of the cells.
pub fn cells_restored()
    ensures { CellsRestored }
{}

/// What the costs of a turn come to: how much is counted after a move and after a refusal, that
/// nothing is counted or written off the board or on a stone, and nothing counted of a pass.
pub fn costs_of_a_turn()
    ensures { CostsOfATurn }
{}

/// Under the positional rule what may not come again is a colouring.
pub fn positional_by_positions()
    ensures { PositionalByPositions }
{}

/// Under the situational rule it is a colouring together with the colour to move.
pub fn situational_by_situations()
    ensures { SituationalBySituations }
{}

/// The test whether a move is legal holds exactly where the rules say that it is.
pub fn legal_by_the_rules()
    ensures { LegalByTheRules }
{}

/// The choice is what its rule asks for, and nothing else is.
pub fn choice_by_the_rule()
    ensures { ChoiceByTheRule }
{
    points_by_number();
}

/// The choice is always a legal move.
pub fn choice_is_legal()
    ensures { ChoiceIsLegal }
{
    choice_by_the_rule();
}
