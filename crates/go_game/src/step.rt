use go_board::{Move, Taken};

/// A move, and what it took.
#[derive(Clone, Copy)]
pub struct Step {
    pub made: Move,
    pub taken: Taken,
}
