//! The types of a whole record and of its trees. A record also keeps its source: an invariant says that the
//! source spells the trees.
ghost use Rattle.std.specs.Prelude.{◌≡◌, ◌≢◌, []};
ghost use Rattle.go_sgf.specs.Spelling.{Spells};
ghost use Rattle.go_sgf.specs.View.{tree_of, trees_of};

use crate::checked::Checked;
use crate::nodes::{Node, Sequence};
use std::alloc::Allocator;
use std::marker::Model;

/// A tree: its nodes, then the trees that go on from the last of them.
#[derive(Drop)]
pub struct Tree<'a, A: Allocator + Copy> {
    pub(crate) nodes: Sequence<'a, A>,
    pub(crate) children: Vec<Tree<'a, A>, A>,
}

/// The trees of a record. Their names and values are parts of the source.
#[derive(Drop)]
pub struct Collection<'a, A: Allocator + Copy> {
    pub(crate) source: &'a [u8],
    pub(crate) trees: Vec<Tree<'a, A>, A>,
}

impl<'a, A: Allocator + Copy> Model for Collection<'a, A> {
    ghost use Rattle.go_sgf.specs.Record.{Trees};
    ghost use Rattle.go_sgf.specs.Spelling.{Spells};
    ghost use Rattle.go_sgf.specs.View.{trees_of};
    ghost use Rattle.go_sgf.specs.inner.Coded.{trees_code};

    ghost Value = { Trees };

    ghost coded = { trees_code };

    ghost view = { λ c. trees_of c.trees.items };

    ghost invariant = { λ c. Spells c.source.now (trees_of c.trees.items) };
}

impl<'a, A: Allocator + Copy> Collection<'a, A> {
    /// The source, which spells the trees.
    pub fn source(&self) -> &'a [u8]
        ensures { Spells result.now self.now }
    {
        self.source
    }

    /// The source, as one that was checked.
    pub fn checked(&self) -> Checked<'a>
        ensures { Spells result self.now }
    {
        Checked { text: self.source }
    }

    /// The trees, in the source's order. There is at least one.
    pub fn trees(&self) -> &[Tree<'a, A>]
        ensures trees { trees_of result.now ≡ self.now }
        ensures some { result.now ≢ [] }
    {
        self.trees.as_slice()
    }
}

impl<'a, A: Allocator + Copy> Tree<'a, A> {
    /// The nodes, in the source's order. There is at least one.
    pub fn nodes(&self) -> &[Node<'a, A>]
        ensures nodes { result.now ≡ (tree_of self.now).0 }
        ensures some { result.now ≢ [] }
    {
        self.nodes.as_slice()
    }

    /// The trees that go on from the last node, in the source's order.
    pub fn children(&self) -> &[Tree<'a, A>]
        ensures { trees_of result.now ≡ (tree_of self.now).1 }
    {
        self.children.as_slice()
    }
}
