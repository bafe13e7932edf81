//! Traits for devices that bytes are read from and for devices that bytes are written to. Their contracts say
//! which bytes a call moves, and count the calls that fail.
ghost use Rattle.std.specs.Prelude.{◌≡◌, ◌≤◌, ◌<◌, ◌+◌, ℕ, List, [], Option, IfOk, IfSome, OnErr, OnOk, length, take};
ghost use Rattle.go_board.specs.Device.{then_bytes, after_bytes, ends_after, failures_after, put_failures_after};

use thiserror::Error;

/// A device refused a call.
#[derive(Clone, Copy, Debug, PartialEq, Eq, Error)]
#[error("device failed")]
pub struct Failed;

/// A text could not be written and flushed whole.
#[derive(Clone, Copy, Debug, PartialEq, Eq, Error)]
#[error("write fault")]
pub struct WriteFault;

/// A device that bytes are read from.
pub trait Source {
    /// The bytes that are left to read, if the device knows them.
    ghost left: { Self → Option (List ℕ) };

    /// How often it was read from.
    ghost pulls: { Self → ℕ };

    /// How often that failed.
    ghost failures: { Self → ℕ };

    /// How often it found the end of the input.
    ghost ends: { Self → ℕ };

    /// Reads into the buffer, and returns the number of bytes read. If the buffer isn't
    /// empty, 0 means the end of the input.
    fn pull(&mut self, buffer: &mut [u8]) -> Result<usize, Failed>
        ensures within { IfOk result (λ n. n ≤ length buffer.new) }
        ensures bytes { IfOk result
            (λ n. left self.old ≡ after_bytes (take n buffer.new) (left self.new)) }
        ensures end { IfOk result
            (λ n. n ≡ 0 → 0 < length buffer.new → IfSome (left self.new) (λ xs. xs ≡ [])) }
        ensures failed { OnErr result (left self.new ≡ left self.old) }
        ensures pulls { pulls self.new ≡ pulls self.old + 1 }
        ensures failures { failures self.new ≡ failures_after result (failures self.old) }
        ensures ends { ends self.new ≡ ends_after result (length buffer.new) (ends self.old) };
}

/// A device that bytes are written to.
pub trait Sink {
    /// The bytes that it took so far, if the device knows them.
    ghost taken: { Self → Option (List ℕ) };

    /// How often a call failed. If `put` gets bytes and takes none of them, that counts
    /// as a failure.
    ghost failures: { Self → ℕ };

    /// The number of bytes that the device took and hasn't passed on.
    ghost held: { Self → ℕ };

    /// Takes a prefix of a slice, and returns the prefix's length.
    fn put(&mut self, bytes: &[u8]) -> Result<usize, Failed>
        ensures within { IfOk result (λ n. n ≤ length bytes.now) }
        ensures bytes { IfOk result
            (λ n. taken self.new ≡ then_bytes (taken self.old) (take n bytes.now)) }
        ensures failed { OnErr result (taken self.new ≡ taken self.old) }
        ensures failures { failures self.new ≡ put_failures_after result (length bytes.now)
            (failures self.old) };

    /// Passes on what it still holds.
    fn flush(&mut self) -> Result<(), Failed>
        ensures bytes { taken self.new ≡ taken self.old }
        ensures passed { OnOk result (held self.new ≡ 0) }
        ensures failures { failures self.new ≡ failures_after result (failures self.old) };
}
