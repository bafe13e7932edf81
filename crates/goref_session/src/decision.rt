use crate::command::Topic;
use go_board::Vertex;
use goref_results::Plays;

/// What is decided on a command, while it is carried out. Its text is written afterwards.
#[derive(Drop)]
pub enum Decision {
    /// Done. The answer has no text.
    Done,
    /// Done, and the session ends.
    Ends,
    /// Done, with a text to answer.
    Tells(Fact),
    /// Refused: nothing changes.
    Refused(Refusal),
}

/// What an answer tells. `facts.rt` writes its text.
#[derive(Drop)]
pub enum Fact {
    /// The answer to a topic.
    About(Topic),
    /// Whether a name is that of a command.
    Known(bool),
    /// The places of this number of handicap stones.
    Places(u32),
    /// The vertex that is chosen.
    Choice(Vertex),
    /// The plays that are legal.
    Plays(Plays),
}

/// Why a command is refused.
#[derive(Clone, Copy, Debug, PartialEq, Eq)]
pub enum Refusal {
    LineTooLong,
    UnknownCommand,
    SyntaxError,
    UnacceptableSize,
    IllegalMove,
    CannotUndo,
    BoardNotEmpty,
    InvalidNumber,
    BadVertexList,
    CannotLoad,
    GameInProgress,
    OutOfMemory,
}
