//! The commands by subject: what is decided on each.
pub mod handicap;
pub mod play;
pub mod record;
pub mod setup;
pub mod telling;
pub mod time;
