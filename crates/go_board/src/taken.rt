/// How many stones a move took from the board.
#[derive(Clone, Copy, Debug, PartialEq, Eq)]
pub struct Taken {
    /// Stones of the opponent.
    pub theirs: u16,
    /// Stones of the player's own colour: 0, or after a suicide the chain's stones with the placed one.
    pub own: u16,
}
