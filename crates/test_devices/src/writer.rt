//! A writer that keeps its bytes in memory. A test chooses how much each put takes, which put fails or takes
//! nothing, and which flush fails. The writer counts its puts and flushes.
ghost use Rattle.std.specs.Prelude.{◌≡◌, Some, []};

use crate::calls::Calls;
use go_board::{Failed, Meter, Sink};
use std::alloc::Allocator;
use std::marker::Model;

/// A writer that keeps the bytes it took. By default it takes all that it is given.
#[derive(Drop)]
pub struct Writer<A: Allocator> {
    bytes: Vec<u8, A>,
    most: usize,
    puts: Calls,
    stalls: Calls,
    flushes: Calls,
    failures: Meter,
}

impl<A: Allocator> Model for Writer<A> {
    ghost use Rattle.test_devices.specs.States.{Writing};

    ghost Value = { Writing };

    ghost view = { λ writer. record { taken = writer.bytes.items; failures = writer.failures } };
}

impl<A: Allocator> Writer<A> {
    /// A writer that took nothing so far.
    pub fn new(alloc: A) -> Writer<A>
        ensures { result ≡ record { taken = []; failures = 0 } }
    {
        Writer {
            bytes: Vec::new(alloc),
            most: usize::MAX,
            puts: Calls::with_chosen(0),
            stalls: Calls::with_chosen(0),
            flushes: Calls::with_chosen(0),
            failures: Meter::new(),
        }
    }

    /// Each put takes at most `most` bytes.
    pub fn in_pieces_of(mut self, most: usize) -> Writer<A>
        ensures { result ≡ self }
    {
        self.most = most;
        self
    }

    /// The put of this number, counted from 1, fails.
    pub fn failing_at_put(mut self, put: u64) -> Writer<A>
        ensures { result ≡ self }
    {
        self.puts = Calls::with_chosen(put);
        self
    }

    /// The put of this number, counted from 1, takes nothing.
    pub fn stalling_at_put(mut self, put: u64) -> Writer<A>
        ensures { result ≡ self }
    {
        self.stalls = Calls::with_chosen(put);
        self
    }

    /// The flush of this number, counted from 1, fails.
    pub fn failing_at_flush(mut self, flush: u64) -> Writer<A>
        ensures { result ≡ self }
    {
        self.flushes = Calls::with_chosen(flush);
        self
    }

    /// What it took.
    pub fn bytes(&self) -> &[u8]
        ensures { result.now ≡ self.now.taken }
    {
        self.bytes.as_slice()
    }

    /// How often it was given something.
    pub fn put_count(&self) -> u64 {
        self.puts.made()
    }

    /// How often it was flushed.
    pub fn flush_count(&self) -> u64 {
        self.flushes.made()
    }
}

impl<A: Allocator> Sink for Writer<A> {
    ghost taken = { λ writer. Some writer.taken };

    ghost failures = { λ writer. writer.failures };

    ghost held = { λ _. 0 };

    /// It fails if there is no memory, too.
    fn put(&mut self, bytes: &[u8]) -> Result<usize, Failed> {
        let most = if self.stalls.count() { 0 } else { self.most };
        let count = bytes.len().min(most);
        if self.puts.count() || self.bytes.extend_from_slice(&bytes[..count]).is_err() {
            self.failures.tick();
            return Err(Failed);
        }
        if count == 0 && !bytes.is_empty() {
            self.failures.tick();
        }
        Ok(count)
    }

    fn flush(&mut self) -> Result<(), Failed> {
        if self.flushes.count() {
            self.failures.tick();
            return Err(Failed);
        }
        Ok(())
    }
}
