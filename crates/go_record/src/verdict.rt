/// Whether the score that a record states is the score of its game.
#[derive(Clone, Copy, Debug, PartialEq, Eq)]
pub enum Stated {
    /// The record states no score.
    None,
    /// It states the score that the game has.
    Agrees,
    /// It states another.
    Differs,
}

/// The verdict on a record: how many moves its main line has, by how many hundredths of a point
/// Black is ahead after them, komi counted, and what the record states of that.
#[derive(Clone, Copy, Debug, PartialEq, Eq)]
pub struct Verdict {
    pub moves: usize,
    pub margin: i64,
    pub stated: Stated,
}
