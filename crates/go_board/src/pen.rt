//! Texts written whole to a device, although one call may take only a part of the bytes.
ghost use Rattle.std.specs.Prelude.{◌≡◌, if◌then◌else◌, false, Ok, Err};
ghost use Rattle.go_board.specs.Device.{Sent, failures_after};

use crate::device::{Failed, Sink, WriteFault};

/// Writes a whole text, in as many puts as the device needs. On a fault the device took a prefix of the
/// text.
pub fn send<W: Sink>(text: &[u8], writer: &mut W) -> Result<(), WriteFault>
    ensures sent { Sent result (W.taken writer.old) (W.taken writer.new) text.now }
    ensures failures { W.failures writer.new ≡ failures_after result (W.failures writer.old) }
{
    let mut rest = text;
    while !rest.is_empty() {
        match writer.put(rest) {
            Ok(0) => return Err(WriteFault),
            Ok(count) => rest = rest.split_at(count).1,
            Err(Failed) => return Err(WriteFault),
        }
    }
    Ok(())
}

/// Writes a text to a device piece by piece. After a fault it writes nothing more, and `finish` reports
/// the fault.
pub struct Pen<'a, W: Sink> {
    pub writer: &'a mut W,
    pub has_failed: bool,
}

impl<'a, W: Sink> Pen<'a, W> {
    ghost use Rattle.go_board.specs.Pens.{Writes};

    /// A pen that has written nothing.
    pub fn new(writer: &'a mut W) -> Pen<'a, W>
        ensures same { result.writer.ghost_name ≡ writer.entry.ghost_name }
        ensures writer { result.writer.now ≡ writer.old }
        ensures fresh { result.has_failed ≡ false }
    {
        Pen {
            writer,
            has_failed: false,
        }
    }

    /// Writes one more piece.
    pub fn put(&mut self, piece: &[u8])
        ensures { Writes W.Sink self.old self.new piece.now }
    {
        if !self.has_failed {
            self.has_failed = send(piece, self.writer).is_err();
        }
    }

    /// Ends the writing, and returns whether all pieces were written.
    pub fn finish(self) -> Result<(), WriteFault>
        ensures value { result ≡ (if self.entry.has_failed then Err record {} else Ok tt) }
        ensures writer { self.exit.0.now ≡ self.entry.writer.now }
    {
        let Pen {
            writer: _,
            has_failed,
        } = self;
        if has_failed { Err(WriteFault) } else { Ok(()) }
    }
}
