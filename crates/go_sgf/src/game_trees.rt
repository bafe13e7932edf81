//! The game trees of a source, found one after another: an archive may have many, with anything
//! between them.
ghost use Rattle.std.specs.Prelude.{◌≡◌, List, [], IfErr, IfNone, IfOk, IfSome, drop};
ghost use Rattle.go_sgf.specs.GameTrees.{BeginsAt, IsRefusalFrom, IsTreeAt};
ghost use Rattle.go_sgf.specs.Record.{Property, Trees};
ghost use Rattle.go_sgf.specs.Spelling.{tree_in};

use crate::error::SgfError;
use crate::keep::Nothing;
use crate::reader::{error_of, read_tree};
use crate::scan::from_first_tree;

/// Where a game tree is in a source. A place is a byte's number in the source, from 0.
#[derive(Clone, Copy, Debug, PartialEq, Eq)]
pub struct TreeSpan {
    /// The place of its `(`.
    pub begin: usize,
    /// The place after its `)`.
    pub end: usize,
}

/// The first place from `from` on where a game tree begins: a `(` and then a `;`, with white space between
/// them or none. None where no tree begins there, as where `from` is past the end of the source. It doesn't
/// look whether the tree is whole.
pub fn tree_begin(source: &[u8], from: usize) -> Option<usize>
    ensures begins { IfSome result (BeginsAt source.now from) }
    ensures none { IfNone result (tree_in (drop from source.now) ≡ []) }
{
    let (_, text) = source.split_at(from.min(source.len()));
    let found = from_first_tree(text);
    if found.is_empty() {
        return None;
    }
    Some(source.len() - found.len())
}

/// Reads the first game tree that begins at `from` or later, and says where it is; none where no tree begins
/// there. A caller that begins at 0 and goes on from the end of each tree reads the source once. The source
/// may have any length. The function keeps nothing and takes no memory.
///
/// # Errors
///
/// `EndInside`, `Unexpected` and `TooDeep` where that first tree isn't whole, with the first place that shows
/// it, counted in the whole source. The other errors never come. That tree begins at [`tree_begin`] of the
/// same `from`. A caller that goes on from the place that shows it still reads the source once. It then also
/// finds what begins inside of the broken tree.
pub fn next_tree(source: &[u8], from: usize) -> Result<Option<TreeSpan>, SgfError>
    ensures begins { IfOk result (λ found. IfSome found (λ span. BeginsAt source.now from span.begin)) }
    ensures tree { IfOk result (λ found. IfSome found (λ span.
        (nodes : List (List Property)) × (children : Trees) × IsTreeAt source.now span nodes children)) }
    ensures none { IfOk result (λ found. IfNone found (tree_in (drop from source.now) ≡ [])) }
    ensures refused { IfErr result (IsRefusalFrom source.now from) }
{
    let Some(begin) = tree_begin(source, from) else {
        return Ok(None);
    };
    let (_, inside) = source.split_at(begin + 1);
    match read_tree(Nothing, &mut None, inside, 1) {
        Ok(after) => Ok(Some(TreeSpan {
            begin,
            end: source.len() - after.len(),
        })),
        Err(stop) => Err(error_of(stop, source.len())),
    }
}
