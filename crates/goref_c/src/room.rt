ghost use Rattle.goref_c.specs.Ends.{IsText};

/// Puts a text into a room as far as it fits, and the text's length into its place.
pub(crate) fn show(text: &[u8], room: &mut [u8], length: &mut usize)
    ensures { IsText text.now room.old room.new length.new }
{
    let count = text.len().min(room.len());
    room[..count].copy_from_slice(&text[..count]);
    *length = text.len();
}
