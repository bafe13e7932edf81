//! A game of Go: its start and its moves, what is legal, prisoners, and exact undo.
//!
//! - [`Game`]: begins empty, with handicap stones or from a grid; plays moves and takes them back;
//!   answers for the board, its chains, prisoners, areas and margin; tries moves and chooses one.
//! - [`Superko`]: which repetitions are refused.
//! - [`Taken`]: how many stones a move took.
//! - [`PlayError`], [`SetupError`]: why a move or a start is refused.
//! - [`Area`]: how many points count for each colour.
//! - [`fixed_points`], [`greatest_handicap`], [`stones_on`]: where handicap stones go.
//! - [`ChainPoints`]: the stones of a chain, or its liberties, one after another.
//! - [`score_text`], [`hundredths_text`]: scores and komi as they are written.
//!
//! A move and its undo, on a board of 9 lines:
//!
//! ```
//! let mut game = Game::new(rt.alloc(), Size::new(9).expect(&rt, "a size"));
//! let vertex = Vertex::At(Point { col: 4, row: 4 });
//! let taken = game.play(Move { colour: Colour::Black, vertex })?;
//! let made = game.undo();
//! ```
//!
//! A game is seen as its standing (`specs/Standings`): the start, komi, rule and moves, of which
//! all else is a function. What is promised is in the clauses of `game.rt`, `start.rt`, `play.rt`
//! and `choice.rt`, by the words of `Standings`, `Legal`, `Prisoners`, `Scores`, `Choices` and
//! `Counts`. `Laws` has what holds of all games, that any moves and as many undos give the same
//! game among it. What `specs/inner/` defines serves private functions alone.
#![tactic(auto)]

mod choice;
mod error;
mod game;
mod handicap;
mod holdings;
pub mod laws;
mod play;
mod prisoners;
mod score;
mod start;
mod step;
mod superko;

pub use error::{PlayError, SetupError};
pub use game::Game;
pub use go_board::{Area, Taken};
pub use go_chains::ChainPoints;
pub use handicap::{fixed_points, greatest_handicap, stones_on};
pub use score::{hundredths_text, score_text};
pub use superko::Superko;
