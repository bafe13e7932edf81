ghost use Rattle.std.specs.Prelude.{◌≡◌};
ghost use Rattle.go_board.specs.Device.{Sent, failures_after};
ghost use Rattle.go_board.specs.Pens.{Writes};
ghost use Rattle.goref_tools.specs.Judging.{line_of, word_of_stated, verdict_text};

use go_board::{Pen, Sink, WriteFault};
use go_game::score_text;
use go_record::{Stated, Verdict};
use itoa::Buffer;

/// Writes the three lines of a verdict. On a fault the device took a prefix of them.
pub fn write_verdict<W: Sink>(verdict: Verdict, writer: &mut W) -> Result<(), WriteFault>
    ensures sent { Sent result (W.taken writer.old) (W.taken writer.new) (verdict_text verdict) }
    ensures failures { W.failures writer.new ≡ failures_after result (W.failures writer.old) }
{
    let mut pen = Pen::new(writer);
    let mut digits = Buffer::new();
    let moves = digits.format(verdict.moves).as_bytes();
    put_line(b"moves ", moves, &mut pen);
    let score = score_text(verdict.margin);
    put_line(b"score ", score.as_bytes(), &mut pen);
    put_line(b"stated ", stated_word(verdict.stated), &mut pen);
    pen.finish()
}

fn put_line<W: Sink>(name: &[u8], value: &[u8], pen: &mut Pen<'_, W>)
    ensures { Writes W.Sink pen.old pen.new (line_of name.now value.now) }
{
    pen.put(name);
    pen.put(value);
    pen.put(b"\n");
}

/// How the stated score compares, in a word.
fn stated_word(stated: Stated) -> &'static [u8]
    ensures { result.now ≡ word_of_stated stated }
{
    match stated {
        Stated::None => b"none",
        Stated::Agrees => b"agrees",
        Stated::Differs => b"differs",
    }
}
