//! Why a record has no game, as an error and as a text. The text for an illegal move adds the reason that the
//! game gave.
ghost use Rattle.std.specs.Prelude.{◌≡◌};
ghost use Rattle.go_record.specs.declared.error.RecordError.TheVariants.{Memory};

use go_board::{Point, Vertex, vertex_text};
use go_game::PlayError;
use std::alloc::AllocError;
use std::error::Error;
use std::fmt;

/// Why a record has no game. Nodes are counted from 0 along the main line, moves from 1.
#[derive(Clone, Copy, Debug, PartialEq, Eq)]
pub enum RecordError {
    /// The record is of another game.
    NotGo,
    /// The size is no number of lines of a square board.
    BadSize,
    /// The komi is no number of whole hundredths, or too large.
    BadKomi,
    /// A value in this node is malformed.
    BadValue(usize),
    /// Stones are set up in this node, after a move.
    SetupAfterMove(usize),
    /// The first point in point order whose chain has no liberty at the start.
    DeadSetup(Point),
    /// The move with this number isn't legal. The reason is never that there was no memory.
    Illegal(usize, PlayError),
    /// There was no memory for the game.
    Memory,
}

impl Error for RecordError {}

impl fmt::Display for RecordError {
    ghost use Rattle.std.specs.Prelude.{Some};
    ghost use Rattle.go_record.specs.Reasons.{record_error_text};

    ghost output = { λ why. Some (record_error_text why) };

    fn fmt<W: fmt::Write>(&self, f: &mut fmt::Formatter<W>) -> Result<(), fmt::Error> {
        match self {
            RecordError::NotGo => f.write_str("not a Go record"),
            RecordError::BadSize => f.write_str("bad board size"),
            RecordError::BadKomi => f.write_str("bad komi"),
            RecordError::BadValue(node) => write!(f, "bad value in node {node}"),
            RecordError::SetupAfterMove(node) => write!(f, "set-up after a move in node {node}"),
            RecordError::DeadSetup(point) => {
                let at = vertex_text(Vertex::At(*point));
                write!(f, "set-up without liberty at {at}")
            }
            RecordError::Illegal(number, why) => {
                let why = Reason(*why);
                write!(f, "move {number} {why}")
            }
            RecordError::Memory => f.write_str("out of memory"),
        }
    }
}

impl From<AllocError> for RecordError {
    ghost from_gives = { λ _ error. error ≡ Memory };

    fn from(_: AllocError) -> RecordError {
        RecordError::Memory
    }
}

/// Why a move isn't legal, as the text that follows the move.
#[derive(Clone, Copy)]
struct Reason(PlayError);

impl fmt::Display for Reason {
    ghost use Rattle.std.specs.Prelude.{Some};
    ghost use Rattle.go_record.specs.Reasons.{reason_text};

    ghost output = { λ r. Some (reason_text r.0) };

    fn fmt<W: fmt::Write>(&self, f: &mut fmt::Formatter<W>) -> Result<(), fmt::Error> {
        match self.0 {
            PlayError::Occupied => f.write_str("is on a stone"),
            PlayError::OffBoard => f.write_str("is off the board"),
            PlayError::Repeats(count) => write!(f, "repeats the position after {count} moves"),
            PlayError::Memory => f.write_str("found no memory"),
        }
    }
}
