//! A reader that sees what a writer passed on.
ghost use Rattle.std.specs.Prelude.{◌≡◌, Some};

use crate::reader::Reader;
use go_board::{Failed, Source};
use std::alloc::Allocator;
use std::cell::Cell;
use std::marker::Model;

/// A reader that notes at each pull how many bytes a writer had passed on.
#[derive(Drop)]
pub struct NotingReader<'a, A: Allocator> {
    reader: Reader<'a>,
    passed: &'a Cell<usize>,
    seen: Vec<usize, A>,
}

impl<'a, A: Allocator> Model for NotingReader<'a, A> {
    ghost use Rattle.test_devices.specs.States.{Reading};

    ghost Value = { Reading };

    ghost view = { λ noting. noting.reader };
}

impl<'a, A: Allocator> NotingReader<'a, A> {
    /// Reads as this reader does, and looks into the cell of a writer.
    pub fn new(alloc: A, reader: Reader<'a>, passed: &'a Cell<usize>) -> NotingReader<'a, A>
        ensures { result ≡ reader.entry }
    {
        NotingReader {
            reader,
            passed,
            seen: Vec::new(alloc),
        }
    }

    /// How many bytes had been passed on before each pull.
    pub fn seen(&self) -> &[usize] {
        self.seen.as_slice()
    }
}

impl<A: Allocator> Source for NotingReader<'_, A> {
    ghost left = { λ noting. Some noting.left };

    ghost pulls = { λ noting. noting.pulls };

    ghost failures = { λ noting. noting.failures };

    ghost ends = { λ noting. noting.ends };

    /// It fails if there is no memory.
    fn pull(&mut self, buffer: &mut [u8]) -> Result<usize, Failed> {
        if self.seen.push(self.passed.get()).is_err() {
            return Err(self.reader.fail());
        }
        self.reader.pull(buffer)
    }
}
