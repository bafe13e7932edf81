//! Devices in memory: one reads from a caller's text, the other collects what is written in a list.
ghost use Rattle.std.specs.Prelude.{◌≡◌, Some, []};

use go_board::{Failed, Meter, Sink, Source};
use std::alloc::Allocator;
use std::marker::Model;

/// A text that is read as a device is, as far as there is room for it.
#[derive(Drop)]
pub(crate) struct TextReader<'a> {
    rest: &'a [u8],
    pulls: Meter,
    ends: Meter,
}

impl<'a> Model for TextReader<'a> {
    ghost use Rattle.goref_c.specs.Devices.{Reading};

    ghost Value = { Reading };

    ghost view = { λ reader.
        record { left = reader.rest.now; pulls = reader.pulls; ends = reader.ends } };
}

impl<'a> TextReader<'a> {
    /// A reader of this text.
    pub(crate) fn new(text: &'a [u8]) -> TextReader<'a>
        ensures { result ≡ record { left = text.entry.now; pulls = 0; ends = 0 } }
    {
        TextReader {
            rest: text,
            pulls: Meter::new(),
            ends: Meter::new(),
        }
    }
}

impl Source for TextReader<'_> {
    ghost left = { λ reader. Some reader.left };

    ghost pulls = { λ reader. reader.pulls };

    ghost failures = { λ _. 0 };

    ghost ends = { λ reader. reader.ends };

    fn pull(&mut self, buffer: &mut [u8]) -> Result<usize, Failed> {
        self.pulls.tick();
        let count = self.rest.len().min(buffer.len());
        let (piece, rest) = self.rest.split_at(count);
        buffer[..count].copy_from_slice(piece);
        self.rest = rest;
        if count == 0 && !buffer.is_empty() {
            self.ends.tick();
        }
        Ok(count)
    }
}

/// A list of the bytes that are written. It fails where there is no memory for more.
#[derive(Drop)]
pub(crate) struct TextWriter<A: Allocator> {
    bytes: Vec<u8, A>,
    failures: Meter,
}

impl<A: Allocator> Model for TextWriter<A> {
    ghost use Rattle.goref_c.specs.Devices.{Writing};

    ghost Value = { Writing };

    ghost view = { λ writer. record { taken = writer.bytes.items; failures = writer.failures } };
}

impl<A: Allocator> TextWriter<A> {
    /// A writer that took nothing so far.
    pub(crate) fn new(alloc: A) -> TextWriter<A>
        ensures { result ≡ record { taken = []; failures = 0 } }
    {
        TextWriter {
            bytes: Vec::new(alloc),
            failures: Meter::new(),
        }
    }

    /// Forgets what it took. The memory for it is kept.
    pub(crate) fn clear(&mut self)
        ensures { self.new ≡ record { taken = []; failures = self.old.failures } }
    {
        self.bytes.clear();
    }

    /// What it took.
    pub(crate) fn bytes(&self) -> &[u8]
        ensures { result.now ≡ self.now.taken }
    {
        self.bytes.as_slice()
    }
}

impl<A: Allocator> Sink for TextWriter<A> {
    ghost taken = { λ writer. Some writer.taken };

    ghost failures = { λ writer. writer.failures };

    ghost held = { λ _. 0 };

    fn put(&mut self, bytes: &[u8]) -> Result<usize, Failed> {
        if self.bytes.extend_from_slice(bytes).is_err() {
            self.failures.tick();
            return Err(Failed);
        }
        if bytes.is_empty() {
            return Ok(0);
        }
        Ok(bytes.len())
    }

    fn flush(&mut self) -> Result<(), Failed> {
        Ok(())
    }
}
