//! What a caller does to a session's current game without lines. Each call has the effect of a command, and the
//! lines that follow answer over the game as it is then.
ghost use Rattle.std.specs.Prelude.{◌≡◌, ◌++◌, ◌∷◌, ◌↔◌, [], ℕ, Err, IfNone, IfOk, IfSome, IsTrue, OnErr, OnOk};
ghost use Rattle.go_board.specs.Komi.{IsKomi};
ghost use Rattle.go_board.specs.declared.colour.Colour.{Colour};
ghost use Rattle.go_game.specs.Choices.{chosen};
ghost use Rattle.go_game.specs.Legal.{is_legal};
ghost use Rattle.go_game.specs.Prisoners.{share_of, stones_taken};
ghost use Rattle.go_game.specs.Standings.{IsLegal, IsOccupied, IsOffBoard, IsRepeat, with_move, without_last};

use crate::Session;
use go_board::{Colour, Move, Taken, Vertex};
use go_game::{PlayError, Superko};
use std::alloc::{AllocError, Allocator};

impl<A: Allocator + Copy> Session<A> {
    /// Plays a move, as `play` does. A refused move changes nothing.
    pub fn play(&mut self, made: Move) -> Result<Taken, PlayError>
        ensures off_board { (result ≡ Err PlayError.OffBoard) ↔ IsOffBoard self.old made.vertex }
        ensures occupied { (result ≡ Err PlayError.Occupied) ↔ IsOccupied self.old made.vertex }
        ensures repeats { (k : ℕ) → result ≡ Err (PlayError.Repeats k)
            → IsRepeat self.old made.colour made.vertex k }
        ensures legal { OnOk result (IsLegal self.old made.colour made.vertex) }
        ensures played { OnOk result (self.new ≡ with_move self.old made) }
        ensures taken { IfOk result (λ taken. (of : Colour) → share_of made.colour taken of
            ≡ stones_taken self.old made.colour made.vertex of) }
        ensures stays { OnErr result (self.new ≡ self.old) }
    {
        match &mut self.second {
            Some(second) if second.is_current => second.game.play(made),
            _ => self.first.play(made),
        }
    }

    /// Takes the last move back, as `undo` does, and returns it. It takes no memory.
    pub fn undo(&mut self) -> Option<Move>
        ensures none { IfNone result (self.old.moves ≡ []) }
        ensures some { IfSome result (λ m. self.old.moves ≡ self.new.moves ++ m ∷ []) }
        ensures after { self.new ≡ without_last 1 self.old }
    {
        match &mut self.second {
            Some(second) if second.is_current => second.game.undo(),
            _ => self.first.undo(),
        }
    }

    /// Whether the rules allow a move; one off the board isn't legal. A play that takes stones may lack memory.
    pub fn legal(&mut self, made: Move) -> Result<bool, AllocError>
        ensures rules { IfOk result
            (λ legal. IsTrue legal ↔ IsLegal self.old made.colour made.vertex) }
        ensures test { IfOk result (λ legal. legal ≡ is_legal self.old made.colour made.vertex) }
        ensures tried { OnErr result ((IsOffBoard self.old made.vertex → ⊥)
            × (IsOccupied self.old made.vertex → ⊥)) }
        ensures stays { self.new ≡ self.old }
    {
        match &mut self.second {
            Some(second) if second.is_current => second.game.legal(made),
            _ => self.first.legal(made),
        }
    }

    /// What `reg_genmove` answers for a colour, whoever is to move. A play that takes stones is tried, so there may
    /// be no memory for it.
    pub fn choose(&mut self, colour: Colour) -> Result<Vertex, AllocError>
        ensures ok { IfOk result (λ vertex. vertex ≡ chosen self.old colour) }
        ensures stays { self.new ≡ self.old }
    {
        match &mut self.second {
            Some(second) if second.is_current => second.game.choose(colour),
            _ => self.first.choose(colour),
        }
    }

    /// Sets the komi in hundredths of a point, as `komi` does.
    pub fn set_komi(&mut self, komi: i64)
        requires { IsKomi komi }
        ensures { self.new ≡ record self.old { komi = komi } }
    {
        match &mut self.second {
            Some(second) if second.is_current => second.game.set_komi(komi),
            _ => self.first.set_komi(komi),
        }
    }

    /// Sets the superko rule while there is no move, as `goref-superko` does.
    pub fn set_superko(&mut self, superko: Superko)
        requires { self.old.moves ≡ [] }
        ensures { self.new ≡ record self.old { rule = superko } }
    {
        match &mut self.second {
            Some(second) if second.is_current => second.game.set_superko(superko),
            _ => self.first.set_superko(superko),
        }
    }
}
