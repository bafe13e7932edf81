//! Both ends of a conversation in which a line that was answered `out of memory` is sent again.
ghost use Rattle.std.specs.Prelude.{None};

use go_board::{Failed, Meter, Sink, Source};
use std::alloc::Global;
use std::cell::Cell;

const REFUSAL: &[u8] = b"? out of memory\n\n";

/// A reader that gives a line a pull, and the same one again where the cell asks for that.
#[derive(Drop)]
pub(crate) struct Resending<'a> {
    rest: &'a [u8],
    line: &'a [u8],
    asks_again: &'a Cell<bool>,
    pulls: Meter,
    failures: Meter,
    ends: Meter,
}

impl<'a> Resending<'a> {
    pub(crate) fn new(script: &'a [u8], asks_again: &'a Cell<bool>) -> Resending<'a> {
        Resending {
            rest: script,
            line: b"",
            asks_again,
            pulls: Meter::new(),
            failures: Meter::new(),
            ends: Meter::new(),
        }
    }
}

/// The first line of a text, with its end, and what follows it.
fn first_line(text: &[u8]) -> (&[u8], &[u8]) {
    let length = match text.iter().position(|byte| *byte == b'\n') {
        Some(end) => end.saturating_add(1),
        None => text.len(),
    };
    text.split_at(length.min(text.len()))
}

impl Source for Resending<'_> {
    ghost left = { λ _. None };

    ghost pulls = { λ reader. reader.pulls };

    ghost failures = { λ reader. reader.failures };

    ghost ends = { λ reader. reader.ends };

    fn pull(&mut self, buffer: &mut [u8]) -> Result<usize, Failed> {
        self.pulls.tick();
        if !self.asks_again.get() {
            let (line, rest) = first_line(self.rest);
            self.line = line;
            self.rest = rest;
        }
        self.asks_again.set(false);
        let count = self.line.len().min(buffer.len());
        buffer[..count].copy_from_slice(&self.line[..count]);
        if count == 0 && !buffer.is_empty() {
            self.ends.tick();
        }
        Ok(count)
    }
}

/// A writer that keeps the answers. An answer `out of memory` it counts instead, and asks by the cell for its
/// line again.
#[derive(Drop)]
pub(crate) struct Sifting<'a> {
    kept: Vec<u8>,
    refusals: u32,
    asks_again: &'a Cell<bool>,
    failures: Meter,
}

impl<'a> Sifting<'a> {
    pub(crate) fn new(alloc: Global, asks_again: &'a Cell<bool>) -> Sifting<'a> {
        Sifting {
            kept: Vec::new(alloc),
            refusals: 0,
            asks_again,
            failures: Meter::new(),
        }
    }

    /// The answers, without those that say `out of memory`.
    pub(crate) fn kept(&self) -> &[u8] {
        self.kept.as_slice()
    }

    /// How many answers said `out of memory`.
    pub(crate) fn refusals(&self) -> u32 {
        self.refusals
    }
}

impl Sink for Sifting<'_> {
    ghost taken = { λ _. None };

    ghost failures = { λ writer. writer.failures };

    ghost held = { λ _. 0 };

    fn put(&mut self, bytes: &[u8]) -> Result<usize, Failed> {
        if self.kept.extend_from_slice(bytes).is_err() {
            self.failures.tick();
            return Err(Failed);
        }
        Ok(bytes.len())
    }

    fn flush(&mut self) -> Result<(), Failed> {
        if self.kept.as_slice().ends_with(REFUSAL) {
            self.kept
                .truncate(self.kept.len().saturating_sub(REFUSAL.len()));
            self.refusals = self.refusals.saturating_add(1);
            self.asks_again.set(true);
        }
        Ok(())
    }
}
