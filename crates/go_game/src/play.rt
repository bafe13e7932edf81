//! Moves played and taken back.
ghost use Rattle.std.specs.Prelude.{◌≡◌, ◌++◌, ◌∷◌, [], ◌↔◌, ℕ, Err, IfErr, IfNone, IfOk, IfSome, OnErr, OnOk, Some, None, ◌+◌, ◌⊎◌, length};
ghost use Rattle.go_board.specs.Grids.{stone_at};
ghost use Rattle.go_board.specs.Points.{IsOn};
ghost use Rattle.go_game.specs.Counts.{IsTakenBack, TurnCosts};
ghost use Rattle.go_history.specs.Histories.{IsChangedAt, IsUnchanged, number_at};
ghost use Rattle.go_game.specs.Prisoners.{share_of, stones_taken};
ghost use Rattle.go_game.specs.Standings.{IsLegal, IsOccupied, IsOffBoard, IsRepeat, present, with_move, without_last};

use crate::step::Step;
use crate::{Game, PlayError};
use go_board::{Colour, Move, Packed, Point, Taken, Vertex, laws};
use go_chains::PlaceError;
use go_history::{History, Key};
use std::alloc::Allocator;

impl<A: Allocator + Copy> Game<A> {
    /// Plays a move: a pass, or a stone on an empty point. If the move is a stone, the superko rule must allow
    /// the position that results.
    /// The move takes the opponent's chains that have no liberty. Then it takes the stone's own chain, if
    /// that has none. A refused move changes nothing.
    pub fn play(&mut self, made: Move) -> Result<Taken, PlayError>
        ensures off_board { (result ≡ Err PlayError.OffBoard)
            ↔ IsOffBoard self.old.standing made.vertex }
        ensures occupied { (result ≡ Err PlayError.Occupied)
            ↔ IsOccupied self.old.standing made.vertex }
        ensures repeats { (k : ℕ) → result ≡ Err (PlayError.Repeats k)
            → IsRepeat self.old.standing made.colour made.vertex k }
        ensures legal { OnOk result (IsLegal self.old.standing made.colour made.vertex) }
        ensures played { OnOk result (self.new.standing ≡ with_move self.old.standing made) }
        ensures taken { IfOk result (λ taken. (of : Colour) → share_of made.colour taken of
            ≡ stones_taken self.old.standing made.colour made.vertex of) }
        ensures costs { TurnCosts made result self.old self.new }
    {
        let p = match made.vertex {
            Vertex::Pass => return self.pass(made.colour),
            Vertex::At(p) => p,
        };
        if !p.on(self.size()) {
            return Err(PlayError::OffBoard);
        }
        if self.colour_at(p).is_some() {
            return Err(PlayError::Occupied);
        }
        self.place_stone(made.colour, p)
    }

    /// Passes. A pass is always legal; it is refused only where there is no memory for it.
    fn pass(&mut self, colour: Colour) -> Result<Taken, PlayError>
        ensures ok { IfOk result (λ taken. (taken.theirs ≡ 0) × (taken.own ≡ 0)) }
        ensures played { OnOk result (self.new.standing
            ≡ with_move self.old.standing (record { colour = colour; vertex = Vertex.Pass })) }
        ensures memory { IfErr result (λ e. e ≡ PlayError.Memory) }
        ensures costs { TurnCosts (record { colour = colour; vertex = Vertex.Pass }) result
            self.old self.new }
    {
        laws::packs_tell_colourings_apart();
        if self.steps.reserve(1).is_err() {
            return Err(PlayError::Memory);
        }
        let mut key = self.superko.key(Packed::empty(), colour.other());
        self.board.write_pack(&mut key.pack);
        match self.history.note(&key, self.steps.len() + 1) {
            Ok(_known) => {}
            Err(_) => return Err(PlayError::Memory),
        }
        let taken = Taken { theirs: 0, own: 0 };
        let made = Move {
            colour,
            vertex: Vertex::Pass,
        };
        let pushed = self.steps.push(Step { made, taken });
        prove!(pushed.is_ok());
        let _ = pushed;
        Ok(taken)
    }

    /// Places a stone on an empty point where that is legal. It plays on the board first, and undoes that at
    /// once where the play repeats, or where there is no memory to keep it.
    pub(crate) fn place_stone(&mut self, colour: Colour, p: Point) -> Result<Taken, PlayError>
        requires on { IsOn self.old.standing.lines p }
        requires vacant { stone_at (present self.old.standing) p ≡ None }
        ensures repeats { (k : ℕ) → result ≡ Err (PlayError.Repeats k)
            → IsRepeat self.old.standing colour (Vertex.At p) k }
        ensures legal { OnOk result (IsLegal self.old.standing colour (Vertex.At p)) }
        ensures played { OnOk result (self.new.standing
            ≡ with_move self.old.standing (record { colour = colour; vertex = Vertex.At p })) }
        ensures taken { IfOk result (λ taken. (of : Colour) → share_of colour taken of
            ≡ stones_taken self.old.standing colour (Vertex.At p) of) }
        ensures others { IfErr result (λ e. (e ≡ PlayError.Memory)
            ⊎ ((k : ℕ) × (e ≡ PlayError.Repeats k))) }
        ensures costs { TurnCosts (record { colour = colour; vertex = Vertex.At p }) result
            self.old self.new }
    {
        laws::taken_and_left();
        laws::packs_tell_colourings_apart();
        laws::points_by_number();
        let taken = match self.board.play(&mut self.log, &mut self.meter, colour, p) {
            Ok(taken) => taken,
            Err(PlaceError::Occupied) => return Err(PlayError::Occupied),
            Err(PlaceError::Memory) => return Err(PlayError::Memory),
        };
        let made = Move {
            colour,
            vertex: Vertex::At(p),
        };
        let step = Step { made, taken };
        // `write_pack` writes into the key's own pack, so no pack is copied.
        let mut key = self.superko.key(Packed::empty(), colour.other());
        self.board.write_pack(&mut key.pack);
        match note_step(&key, &mut self.history, &mut self.steps, step) {
            Ok(()) => {
                self.prisoners.add(colour, taken);
                self.placed.put(colour, p);
                Ok(taken)
            }
            Err(error) => {
                self.board.rewind(&mut self.log, &mut self.meter);
                Err(error)
            }
        }
    }

    /// Takes back the last move, and returns it. It takes no memory.
    pub fn undo(&mut self) -> Option<Move>
        ensures none { IfNone result ((self.old.standing.moves ≡ []) × (self.new ≡ self.old)) }
        ensures some { IfSome result
            (λ m. self.old.standing.moves ≡ self.new.standing.moves ++ m ∷ []) }
        ensures after { self.new.standing ≡ without_last 1 self.old.standing }
        ensures back { IfSome result (λ m. IsTakenBack self.old self.new) }
    {
        laws::packs_tell_colourings_apart();
        let step = self.steps.pop()?;
        let mut key = self.superko.key(Packed::empty(), step.made.colour.other());
        self.board.write_pack(&mut key.pack);
        match step.made.vertex {
            Vertex::Pass => {
                self.history.forget_at(&key, self.steps.len() + 1);
                Some(step.made)
            }
            // A legal play repeated nothing, so it noted its key itself.
            Vertex::At(_) => {
                self.history.forget(&key);
                self.board.rewind(&mut self.log, &mut self.meter);
                self.prisoners.give_back(step.made.colour, step.taken);
                Some(step.made)
            }
        }
    }
}

/// Adds a step to the steps, and its key to the history, unless the key came before.
fn note_step<A: Allocator + Copy>(
    key: &Key,
    history: &mut History<A>,
    steps: &mut Vec<Step, A>,
    step: Step,
) -> Result<(), PlayError>
    ensures noted { OnOk result (IsChangedAt history.old history.new key.now
        (Some (length steps.old.items + 1))) }
    ensures lacked { OnOk result (number_at history.old key.now ≡ None) }
    ensures pushed { OnOk result (steps.new.items ≡ steps.old.items ++ step ∷ []) }
    ensures repeats { (k : ℕ) → result ≡ Err (PlayError.Repeats k)
        → number_at history.old key.now ≡ Some k }
    ensures history { OnErr result (IsUnchanged history.old history.new) }
    ensures steps { OnErr result (steps.new.items ≡ steps.old.items) }
    ensures others { IfErr result (λ e. (e ≡ PlayError.Memory)
        ⊎ ((k : ℕ) × (e ≡ PlayError.Repeats k))) }
{
    if steps.reserve(1).is_err() {
        return Err(PlayError::Memory);
    }
    match history.note(key, steps.len() + 1) {
        Ok(None) => {}
        Ok(Some(number)) => return Err(PlayError::Repeats(number)),
        Err(_) => return Err(PlayError::Memory),
    }
    let pushed = steps.push(step);
    prove!(pushed.is_ok());
    let _ = pushed;
    Ok(())
}
