//! A writer that passes nothing on before a flush. It keeps the count of bytes passed on after each flush,
//! and shares that count with a reader through a cell.
ghost use Rattle.std.specs.Prelude.{◌≡◌, Some, []};

use go_board::{Failed, Meter, Sink};
use std::alloc::Allocator;
use std::cell::Cell;
use std::marker::Model;

/// A writer that holds back all that it is given, and passes it on only at a flush. A reader can see how many
/// bytes it passed on.
#[derive(Drop)]
pub struct HoldingWriter<'a, A: Allocator> {
    bytes: Vec<u8, A>,
    ends: Vec<usize, A>,
    passed: &'a Cell<usize>,
    /// How many bytes it holds back.
    held: usize,
    failures: Meter,
}

impl<'a, A: Allocator> Model for HoldingWriter<'a, A> {
    ghost use Rattle.test_devices.specs.States.{Holding};

    ghost Value = { Holding };

    ghost view = { λ writer. record {
      taken = writer.bytes.items;
      held = writer.held;
      failures = writer.failures;
    } };
}

impl<'a, A: Allocator + Copy> HoldingWriter<'a, A> {
    /// A writer that took nothing so far. It keeps in this cell how many bytes it passed on.
    pub fn new(alloc: A, passed: &'a Cell<usize>) -> HoldingWriter<'a, A>
        ensures { result ≡ record { taken = []; held = 0; failures = 0 } }
    {
        passed.set(0);
        HoldingWriter {
            bytes: Vec::new(alloc),
            ends: Vec::new(alloc),
            passed,
            held: 0,
            failures: Meter::new(),
        }
    }

    /// What it took, passed on or not.
    pub fn bytes(&self) -> &[u8]
        ensures { result.now ≡ self.now.taken }
    {
        self.bytes.as_slice()
    }

    /// How many bytes it had passed on after each flush.
    pub fn ends(&self) -> &[usize] {
        self.ends.as_slice()
    }
}

impl<A: Allocator> Sink for HoldingWriter<'_, A> {
    ghost taken = { λ writer. Some writer.taken };

    ghost failures = { λ writer. writer.failures };

    ghost held = { λ writer. writer.held };

    /// It fails if there is no memory.
    fn put(&mut self, bytes: &[u8]) -> Result<usize, Failed> {
        if self.bytes.extend_from_slice(bytes).is_err() {
            self.failures.tick();
            return Err(Failed);
        }
        self.held = self.held.saturating_add(bytes.len());
        Ok(bytes.len())
    }

    /// It fails if there is no memory, and passes nothing on then.
    fn flush(&mut self) -> Result<(), Failed> {
        if self.ends.push(self.bytes.len()).is_err() {
            self.failures.tick();
            return Err(Failed);
        }
        self.passed.set(self.bytes.len());
        self.held = 0;
        Ok(())
    }
}
