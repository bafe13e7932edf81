//! A session that is kept between calls, with the answers to the last text.
ghost use Rattle.std.specs.Prelude.{◌≡◌, ◌↔◌, ◌≤◌, [], ℕ, Err, IfOk, IsTrue, OnErr, OnOk, false, length};
ghost use Rattle.go_board.specs.Komi.{IsKomi};
ghost use Rattle.go_board.specs.declared.colour.Colour.{Colour};
ghost use Rattle.go_game.specs.Choices.{chosen};
ghost use Rattle.go_game.specs.Legal.{is_legal};
ghost use Rattle.go_game.specs.Prisoners.{share_of, stones_taken};
ghost use Rattle.go_game.specs.Standings.{IsLegal, IsOccupied, IsOffBoard, IsRepeat, with_move, without_last};
ghost use Rattle.goref_c.specs.Calls.{with_standing};
ghost use Rattle.goref_c.specs.Files.{bytes_of};
ghost use Rattle.goref_c.specs.Sessions.{Sends};
ghost use Rattle.goref_session.specs.Starts.{begun};

use crate::devices::TextWriter;
use crate::files::OneFile;
use go_board::{Colour, Move, Size, Taken, Vertex, WriteFault};
use go_game::{PlayError, Superko};
use goref::{Flow, Session, answer_lines};
use std::alloc::{AllocError, Global};
use std::marker::Model;

/// A session, the answers to the last text that was sent to it, and whether `quit` was answered.
#[derive(Drop)]
pub struct Held {
    session: Session<Global>,
    answers: TextWriter<Global>,
    is_over: bool,
    alloc: Global,
}

impl Model for Held {
    ghost use Rattle.goref_c.specs.Sessions.{Holding};

    ghost Value = { Holding };

    ghost view = { λ h. record {
      standing = h.session;
      answers = h.answers.taken;
      is_over = h.is_over;
    } };
}

impl Held {
    /// A session that was sent nothing so far.
    pub(crate) fn new(alloc: Global, size: Size) -> Held
        ensures { result ≡ record { standing = begun size; answers = []; is_over = false } }
    {
        Held {
            session: Session::new(alloc, size),
            answers: TextWriter::new(alloc),
            is_over: false,
            alloc,
        }
    }

    /// Answers the lines of a text. Each line that asks for a file gets this one, if there is one. After
    /// `quit` nothing is answered.
    pub(crate) fn send(&mut self, text: &[u8], file: Option<&[u8]>) -> Result<Flow, WriteFault>
        ensures { Sends result (bytes_of file.entry) text.now self.old self.new }
    {
        self.answers.clear();
        if self.is_over {
            return Ok(Flow::Quit);
        }
        let mut shelf = OneFile::new(self.alloc, file);
        match answer_lines(&mut self.session, text, &mut self.answers, &mut shelf) {
            Ok(Flow::More) => Ok(Flow::More),
            Ok(Flow::Quit) => {
                self.is_over = true;
                Ok(Flow::Quit)
            }
            Err(WriteFault) => Err(WriteFault),
        }
    }

    /// The session, for calls without text.
    pub(crate) fn session(&self) -> &Session<Global>
        ensures { result.now ≡ self.now.standing }
    {
        &self.session
    }

    /// Plays a move.
    pub(crate) fn play(&mut self, made: Move) -> Result<Taken, PlayError>
        ensures off_board { (result ≡ Err PlayError.OffBoard) ↔ IsOffBoard self.old.standing made.vertex }
        ensures occupied { (result ≡ Err PlayError.Occupied) ↔ IsOccupied self.old.standing made.vertex }
        ensures repeats { (k : ℕ) → result ≡ Err (PlayError.Repeats k)
            → IsRepeat self.old.standing made.colour made.vertex k }
        ensures legal { OnOk result (IsLegal self.old.standing made.colour made.vertex) }
        ensures played { OnOk result (self.new ≡ with_standing self.old (with_move self.old.standing made)) }
        ensures taken { IfOk result (λ taken. (of : Colour) → share_of made.colour taken of
            ≡ stones_taken self.old.standing made.colour made.vertex of) }
        ensures stays { OnErr result (self.new ≡ self.old) }
    {
        self.session.play(made)
    }

    /// Whether a move is legal.
    pub(crate) fn legal(&mut self, made: Move) -> Result<bool, AllocError>
        ensures rules { IfOk result
            (λ legal. IsTrue legal ↔ IsLegal self.old.standing made.colour made.vertex) }
        ensures test { IfOk result
            (λ legal. legal ≡ is_legal self.old.standing made.colour made.vertex) }
        ensures tried { OnErr result (IsOccupied self.old.standing made.vertex → ⊥) }
        ensures stays { self.new ≡ self.old }
    {
        self.session.legal(made)
    }

    /// The choice for a colour.
    pub(crate) fn choose(&mut self, colour: Colour) -> Result<Vertex, AllocError>
        ensures ok { IfOk result (λ vertex. vertex ≡ chosen self.old.standing colour) }
        ensures stays { self.new ≡ self.old }
    {
        self.session.choose(colour)
    }

    /// Sets the komi.
    pub(crate) fn set_komi(&mut self, komi: i64)
        requires { IsKomi komi }
        ensures { self.new ≡ with_standing self.old (record self.old.standing { komi = komi }) }
    {
        self.session.set_komi(komi);
    }

    /// Sets the superko rule, while there is no move.
    pub(crate) fn set_superko(&mut self, superko: Superko)
        requires { self.old.standing.moves ≡ [] }
        ensures { self.new ≡ with_standing self.old (record self.old.standing { rule = superko }) }
    {
        self.session.set_superko(superko);
    }

    /// Takes the last moves back, of which there are so many.
    pub(crate) fn undo(&mut self, count: usize)
        requires { count ≤ length self.old.standing.moves }
        ensures { self.new ≡ with_standing self.old (without_last count self.old.standing) }
    {
        for _ in 0..count {
            self.session.undo();
        }
    }

    /// The answers to the last text.
    pub(crate) fn answers(&self) -> &[u8]
        ensures { result.now ≡ self.now.answers }
    {
        self.answers.bytes()
    }
}
