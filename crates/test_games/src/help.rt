//! What several files of tests need. No test is here.
//!
//! - `drawn`: random grids, moves and plays
//! - `plain_game`: a game that keeps all its grids and compares each of them
//! - `twins`: two games that answer alike, one of which has little memory

pub(crate) mod drawn;
pub(crate) mod plain_game;
pub(crate) mod twins;
