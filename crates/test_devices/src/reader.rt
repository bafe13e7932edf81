//! A reader of a text in memory. A test chooses how much each pull gives and which pull fails. The reader
//! counts its pulls, and how often a pull met the end.
ghost use Rattle.std.specs.Prelude.{◌≡◌, ◌≤◌, ◌+◌, Some};

use crate::calls::Calls;
use go_board::{Failed, Meter, Source};
use std::marker::Model;

/// What a pull gives of a text, as far as there is room for it.
#[derive(Clone, Copy)]
enum Piece {
    /// This many bytes, and at least one.
    Bytes(usize),
    /// The bytes up to the end of a line.
    Line,
}

impl Piece {
    /// How many bytes of this text a pull gives at most.
    fn most(self, text: &[u8]) -> usize
        ensures { 1 ≤ result }
    {
        match self {
            Piece::Bytes(most) => most.max(1),
            Piece::Line => match text.iter().position(|byte| *byte == b'\n') {
                Some(end) => end.saturating_add(1),
                None => usize::MAX,
            },
        }
    }
}

/// A text that is read. By default a pull gives all of it that there is room for.
#[derive(Drop)]
pub struct Reader<'a> {
    rest: &'a [u8],
    piece: Piece,
    calls: Calls,
    ends: Calls,
    pulls: Meter,
    failures: Meter,
    found: Meter,
}

impl<'a> Model for Reader<'a> {
    ghost use Rattle.test_devices.specs.States.{Reading};

    ghost Value = { Reading };

    ghost view = { λ reader.
        record {
          left = reader.rest.now;
          pulls = reader.pulls;
          failures = reader.failures;
          ends = reader.found;
        } };
}

impl<'a> Reader<'a> {
    /// A reader of this text.
    pub fn new(text: &'a [u8]) -> Reader<'a>
        ensures { result ≡ record {
          left = text.entry.now;
          pulls = 0;
          failures = 0;
          ends = 0;
        } }
    {
        Reader {
            rest: text,
            piece: Piece::Bytes(usize::MAX),
            calls: Calls::with_chosen(0),
            ends: Calls::with_chosen(0),
            pulls: Meter::new(),
            failures: Meter::new(),
            found: Meter::new(),
        }
    }

    /// Each pull gives at most `most` bytes, and at least one.
    pub fn in_pieces_of(mut self, most: usize) -> Reader<'a>
        ensures { result ≡ self.entry }
    {
        self.piece = Piece::Bytes(most);
        self
    }

    /// Each pull gives at most one line, or a prefix of one.
    pub fn in_lines(mut self) -> Reader<'a>
        ensures { result ≡ self.entry }
    {
        self.piece = Piece::Line;
        self
    }

    /// The pull of this number, counted from 1, fails.
    pub fn failing_at(mut self, pull: u64) -> Reader<'a>
        ensures { result ≡ self.entry }
    {
        self.calls = Calls::with_chosen(pull);
        self
    }

    /// How often it was read from.
    pub fn pull_count(&self) -> u64 {
        self.calls.made()
    }

    /// How many pulls met the end: those that had room and gave nothing.
    pub fn end_count(&self) -> u64 {
        self.ends.made()
    }

    /// Counts a pull that fails.
    pub(crate) fn fail(&mut self) -> Failed
        ensures { self.new ≡ record {
          left = self.old.left;
          pulls = self.old.pulls + 1;
          failures = self.old.failures + 1;
          ends = self.old.ends;
        } }
    {
        self.pulls.tick();
        self.failures.tick();
        Failed
    }
}

impl Source for Reader<'_> {
    ghost left = { λ reader. Some reader.left };

    ghost pulls = { λ reader. reader.pulls };

    ghost failures = { λ reader. reader.failures };

    ghost ends = { λ reader. reader.ends };

    fn pull(&mut self, buffer: &mut [u8]) -> Result<usize, Failed> {
        if self.calls.count() {
            return Err(self.fail());
        }
        self.pulls.tick();
        let count = self
            .rest
            .len()
            .min(buffer.len())
            .min(self.piece.most(self.rest));
        let (piece, rest) = self.rest.split_at(count);
        buffer[..count].copy_from_slice(piece);
        self.rest = rest;
        if count == 0 && !buffer.is_empty() {
            self.found.tick();
            let _ = self.ends.count();
        }
        Ok(count)
    }
}
