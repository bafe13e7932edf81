//! What a play says of itself, in a struct of its caller's.
ghost use Rattle.std.specs.Prelude.{◌≡◌};
ghost use Rattle.goref_c.specs.Calls.{Fills, said_bytes, silent};

use crate::room::show;

/// What a play says of itself. A number that it doesn't say has all bits set.
#[derive(Clone, Copy)]
pub(crate) struct Said {
    /// The number of moves after which the position stood first.
    pub repeats: u64,
    /// How many stones of the opponent were taken.
    pub captured: u16,
    /// How many stones of its own colour were taken.
    pub lost: u16,
}

impl Said {
    /// Nothing is said.
    pub(crate) fn silent() -> Said
        ensures { result ≡ silent }
    {
        Said {
            repeats: u64::MAX,
            captured: u16::MAX,
            lost: u16::MAX,
        }
    }

    /// Puts it into a room, as far as it fits.
    pub(crate) fn put(self, room: &mut [u8])
        ensures { Fills (said_bytes self) room.old room.new }
    {
        let mut bytes = [0; 16];
        bytes[..8].copy_from_slice(&self.repeats.to_le_bytes());
        bytes[8..10].copy_from_slice(&self.captured.to_le_bytes());
        bytes[10..12].copy_from_slice(&self.lost.to_le_bytes());
        show(&bytes, room, &mut 0);
    }
}
