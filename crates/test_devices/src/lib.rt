//! Devices in memory, for tests: a reader that gives a text in pieces and a writer that takes one
//! in pieces, each of which can fail at a call that is chosen by its number; and a writer that
//! holds back what it took until it is flushed, beside a reader that notes what was passed on.
#![tactic(auto)]

mod calls;
mod holding;
mod noting;
mod reader;
mod writer;

pub use holding::HoldingWriter;
pub use noting::NotingReader;
pub use reader::Reader;
pub use writer::Writer;

#[cfg(test)]
mod tests;
