ghost use Rattle.std.specs.Prelude.{IfNone, IfSome};

use std::alloc::{Allocator, Global};

/// Whether a reader keeps what it reads.
pub(crate) trait Keep: Copy {
    type Alloc: Allocator + Copy;

    ghost keeps: { Type 0 };

    /// The allocator for what is kept. `None` if nothing is kept.
    fn alloc(self) -> Option<Self::Alloc>
        ensures kept { IfSome result (λ _. keeps) }
        ensures none { IfNone result (keeps → ⊥) };
}

/// Keeps all that is read, in lists.
#[derive(Clone, Copy)]
pub(crate) struct Lists<A: Allocator + Copy> {
    pub(crate) alloc: A,
}

impl<A: Allocator + Copy> Keep for Lists<A> {
    type Alloc = A;

    ghost keeps = { Unit {0} };

    fn alloc(self) -> Option<A> {
        Some(self.alloc)
    }
}

/// Keeps nothing, and takes no memory.
#[derive(Clone, Copy)]
pub(crate) struct Nothing;

impl Keep for Nothing {
    type Alloc = Global;

    ghost keeps = { ⊥ };

    fn alloc(self) -> Option<Global> {
        None
    }
}
