//! Streams, such as standard input and output, as devices. For contracts each device counts its failures. An
//! input also counts its reads, and how often a read found the end. An output holds bytes back until it is
//! flushed, or is full and gets more.
#![tactic(auto)]

ghost use Rattle.std.specs.Prelude.{◌≡◌, ◌≤◌, ◌<◌, ◌+◌, IfOk, None, OnOk, [], length, min};
ghost use Rattle.std.specs.Prelude.{take};
ghost use Rattle.std.specs.Io.KnownBytes.{Appends, Consumes, IsAtEnd};
ghost use Rattle.go_board.specs.Device.{ends_after, failures_after, put_failures_after};
ghost use Rattle.goref_streams.specs.Streams.{given_to, room};

use arrayvec::ArrayVec;
use go_board::{Failed, Meter, Sink, Source};
use std::io::{self, ErrorKind, Read, Write};
use std::marker::Model;

pub mod laws;

/// The output keeps back at most this many bytes. Any diagram or list of chains fits.
pub const KEPT: usize = 16_384;

/// A stream that is read, as a device. As a [`Source`] it doesn't show its bytes; the calls here say which of
/// the stream's bytes they take.
#[derive(Drop)]
pub struct Input<R: Read> {
    stream: R,
    /// How often it was read, how often that failed, and how often it was at its end: for contracts.
    pulls: Meter,
    failures: Meter,
    ends: Meter,
}

impl<R: Read> Model for Input<R> {
    ghost use Rattle.goref_streams.specs.Streams.{Reading};

    ghost Value = { Reading };

    ghost view = { λ input. record {
      remaining = R.remaining input.stream;
      pulls = input.pulls;
      failures = input.failures;
      ends = input.ends;
    } };
}

impl<R: Read> Input<R> {
    /// A device over this stream. It has read nothing yet.
    pub fn new(stream: R) -> Input<R>
        ensures { result ≡ record {
          remaining = R.remaining stream;
          pulls = 0;
          failures = 0;
          ends = 0;
        } }
    {
        Input {
            stream,
            pulls: Meter::new(),
            failures: Meter::new(),
            ends: Meter::new(),
        }
    }
}

impl<R: Read> Source for Input<R> {
    ghost left = { λ _. None };

    ghost pulls = { λ input. input.pulls };

    ghost failures = { λ input. input.failures };

    ghost ends = { λ input. input.ends };

    fn pull(&mut self, buffer: &mut [u8]) -> Result<usize, Failed>
        ensures within { IfOk result (λ n. n ≤ length buffer.new) }
        ensures read { IfOk result (λ n. Consumes self.old.remaining self.new.remaining (take n buffer.new)) }
        ensures end { IfOk result (λ n. n ≡ 0 → 0 < length buffer.new → IsAtEnd self.new.remaining) }
        ensures pulls { self.new.pulls ≡ self.old.pulls + 1 }
        ensures failures { self.new.failures ≡ failures_after result self.old.failures }
        ensures ends { self.new.ends ≡ ends_after result (length buffer.new) self.old.ends }
    {
        self.pulls.tick();
        match read_again(&mut self.stream, buffer) {
            Ok(count) => {
                if count == 0 && !buffer.is_empty() {
                    self.ends.tick();
                }
                Ok(count)
            }
            Err(_) => {
                self.failures.tick();
                Err(Failed)
            }
        }
    }
}

/// Reads from a stream, and again where a signal interrupted that.
fn read_again<R: Read>(stream: &mut R, buffer: &mut [u8]) -> io::Result<usize>
    ensures within { IfOk result (λ n. n ≤ length buffer.new) }
    ensures read { IfOk result (λ n. Consumes (R.remaining stream.old) (R.remaining stream.new)
        (take n buffer.new)) }
    ensures end { IfOk result
        (λ n. n ≡ 0 → 0 < length buffer.new → IsAtEnd (R.remaining stream.new)) }
{
    for _ in 0..u64::MAX {
        match stream.read(buffer) {
            Err(why) if why.kind() == ErrorKind::Interrupted => {}
            outcome => return outcome,
        }
    }
    Err(io::Error::from(ErrorKind::Interrupted))
}

/// A stream that is written, as a device. As a [`Sink`] it doesn't show its bytes. It keeps bytes
/// until it is flushed, or is full and gets more. If the stream then fails, the kept bytes are lost.
#[derive(Drop)]
pub struct Output<W: Write> {
    stream: W,
    /// What was not passed on yet.
    kept: ArrayVec<u8, KEPT>,
    /// How often it failed: for contracts.
    failures: Meter,
}

impl<W: Write> Model for Output<W> {
    ghost use Rattle.goref_streams.specs.Streams.{Writing};

    ghost Value = { Writing };

    ghost view = { λ output. record {
      contents = W.contents output.stream;
      kept = output.kept.items;
      failures = output.failures;
    } };
}

impl<W: Write> Output<W> {
    /// A device over this stream, which keeps nothing back so far.
    pub fn new(stream: W) -> Output<W>
        ensures { result ≡ record { contents = W.contents stream; kept = []; failures = 0 } }
    {
        Output {
            stream,
            kept: ArrayVec::new(),
            failures: Meter::new(),
        }
    }
}

impl<W: Write> Sink for Output<W> {
    ghost taken = { λ _. None };

    ghost failures = { λ output. output.failures };

    ghost held = { λ output. length output.kept };

    fn put(&mut self, bytes: &[u8]) -> Result<usize, Failed>
        ensures within { IfOk result (λ n. n ≤ length bytes.now) }
        ensures count { IfOk result
            (λ n. n ≡ min (length bytes.now) (room KEPT (length self.old.kept))) }
        ensures given { IfOk result
            (λ n. Appends (given_to self.old) (given_to self.new) (take n bytes.now)) }
        ensures failures { self.new.failures ≡ put_failures_after result (length bytes.now)
            self.old.failures }
    {
        if self.kept.is_full() {
            self.flush()?;
        }
        let count = bytes.len().min(self.kept.remaining_capacity());
        let _ = self.kept.try_extend_from_slice(&bytes[..count]);
        Ok(count)
    }

    fn flush(&mut self) -> Result<(), Failed>
        ensures emptied { OnOk result (self.new.kept ≡ []) }
        ensures passed { OnOk result (Appends self.old.contents self.new.contents self.old.kept) }
        ensures failures { self.new.failures ≡ failures_after result self.old.failures }
    {
        let outcome = flush_bytes(&mut self.stream, self.kept.as_slice());
        self.kept.clear();
        match outcome {
            Ok(()) => Ok(()),
            Err(_) => {
                self.failures.tick();
                Err(Failed)
            }
        }
    }
}

/// Writes the bytes to a stream, and flushes it.
#[tactic(auto, using(crate::proofs::Given::appends_keeps))]
fn flush_bytes<W: Write>(stream: &mut W, bytes: &[u8]) -> io::Result<()>
    ensures { OnOk result (Appends (W.contents stream.old) (W.contents stream.new) bytes.now) }
{
    stream.write_all(bytes)?;
    stream.flush()
}
