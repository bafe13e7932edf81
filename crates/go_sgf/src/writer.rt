//! The canonical spelling of a record. `write` calls `tidy`, which writes from the source and takes no memory.
ghost use Rattle.std.specs.Prelude.{◌≡◌, ◌≤◌, ℕ, List, length};
ghost use Rattle.go_board.specs.Device.{Sent, failures_after};
ghost use Rattle.go_board.specs.Pens.{Writes};
ghost use Rattle.go_sgf.specs.inner.Tidied.{Outside, rest_from, tidied_from};
ghost use Rattle.go_sgf.specs.Record.{Trees};
ghost use Rattle.go_sgf.specs.Spelling.{OfRecord, Spells, canonical, without_space};

use crate::checked::Checked;
use crate::laws;
use crate::record::Collection;
use crate::scan::{after_left_out, after_space, from_first_tree, inside_tree};
use crate::verbatim::verbatim;
use go_board::{Pen, Sink, WriteFault};
use std::alloc::Allocator;

/// Writes a record in its canonical spelling. It leaves out white space and lower-case letters outside of
/// values, and writes LF after each outermost tree. On a fault the device took a prefix of that text.
pub fn write<A: Allocator + Copy, W: Sink>(
    collection: &Collection<'_, A>,
    writer: &mut W,
) -> Result<(), WriteFault>
    ensures sent { Sent result (W.taken writer.old) (W.taken writer.new)
        (canonical collection.now) }
    ensures failures { W.failures writer.new ≡ failures_after result (W.failures writer.old) }
{
    laws::one_record();
    tidy(&collection.checked(), writer)
}

/// Writes the canonical spelling of the record that a source spells. It leaves out white space and lower-case
/// letters outside of values, and writes LF after each outermost tree. On a fault the device took a prefix of
/// that text. It takes no memory.
pub fn tidy<W: Sink>(checked: &Checked<'_>, writer: &mut W) -> Result<(), WriteFault>
    ensures sent { OfRecord checked.now (λ c.
        Sent result (W.taken writer.old) (W.taken writer.new) (canonical c)) }
    ensures failures { W.failures writer.new ≡ failures_after result (W.failures writer.old) }
{
    let mut pen = Pen::new(writer);
    put_trees(checked.text(), &mut pen);
    pen.finish()
}

fn put_trees<W: Sink>(source: &[u8], pen: &mut Pen<'_, W>)
    ensures { (more : List ℕ)
        × Writes W.Sink pen.old pen.new more
        × ((c : Trees) → Spells source.now c → more ≡ canonical c) }
{
    let mut rest = from_first_tree(source);
    while let Some(inside) = inside_tree(rest) {
        pen.put(b"(");
        rest = put_tree(inside, pen);
        pen.put(b"\n");
    }
}

/// Writes a tree's text after its `(`, with its `)`. It then skips white space, and returns the
/// text from there. It writes each run of unchanged bytes in one piece. In a checked source each tree ends,
/// so it never returns early.
fn put_tree<'a, W: Sink>(text: &'a [u8], pen: &mut Pen<'_, W>) -> &'a [u8]
    ensures written { Writes W.Sink pen.old pen.new (tidied_from Outside 1 text.now) }
    ensures rest { result.now ≡ without_space (rest_from Outside 1 text.now) }
    ensures shorter { length result.now ≤ length text.now }
{
    let mut rest = text;
    let mut depth = 1;
    while depth != 0 {
        let Some((prefix, more, open)) = verbatim(after_left_out(rest), depth) else {
            return &[];
        };
        pen.put(prefix);
        rest = more;
        depth = open;
    }
    after_space(rest)
}
