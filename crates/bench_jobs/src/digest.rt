use std::io::{self, Write};

/// A stream that keeps a number of all that was written to it, eight bytes at a time where eight
/// are left (after FNV-1a, whose constants these are).
#[derive(Drop)]
pub struct Digest {
    number: u64,
}

impl Digest {
    pub fn new() -> Digest {
        Digest {
            number: 0xcbf2_9ce4_8422_2325,
        }
    }

    pub fn number(&self) -> u64 {
        self.number
    }

    fn add(&mut self, word: u64) {
        self.number = (self.number ^ word)
            .wrapping_mul(0x0100_0000_01b3)
            .rotate_left(29);
    }
}

impl Write for Digest {
    fn write(&mut self, bytes: &[u8]) -> io::Result<usize> {
        let (words, rest) = bytes.as_chunks::<8>();
        for word in words {
            self.add(u64::from_le_bytes(*word));
        }
        for byte in rest {
            self.add(u64::from(*byte));
        }
        Ok(bytes.len())
    }

    fn flush(&mut self) -> io::Result<()> {
        Ok(())
    }
}
