//! One element that can be lent as a slice of one. Proofs must know that such a slice takes less than half of
//! all memory. A generic type doesn't tell them, so the size is checked when the element is kept.
ghost use Rattle.std.specs.Prelude.{◌≡◌, ◌<◌, ◌^◌, ◌∷◌, ℕ, [], IfOk};

use std::alloc::AllocError;
use std::marker::{Model, PhantomData};
use std::mem::size_of_val;
use std::slice;

/// A type whose size in bytes is known to proofs.
trait Measured {
    ghost bytes: { ℕ };
}

/// Stands for a type.
#[derive(Drop)]
struct Place<T> {
    of: PhantomData<T>,
}

impl<T> Measured for Place<T> {
    ghost use Rattle.std.specs.Mem.{type_size};

    ghost bytes = { type_size T.row };
}

/// Shows that a type's values take less than half of all memory, as whatever a slice lends does. Of
/// a type with parameters proofs don't know that.
#[derive(Drop)]
struct Small<S: Measured> {
    of: PhantomData<S>,
}

impl<S: Measured> Model for Small<S> {
    ghost use Rattle.std.specs.Prelude.{◌<◌, ◌^◌};

    ghost Value = { Unit {0} };

    ghost view = { λ _. tt };

    ghost invariant = { λ _. S.bytes < 2 ^ 63 };
}

impl<S: Measured> Small<S> {
    /// Tells proofs what this shows.
    fn tell(&self)
        ensures { S.bytes < 2 ^ 63 }
    {
        let _ = &self.of;
    }
}

/// An element that can be lent as a slice.
#[derive(Drop)]
pub(crate) struct Single<T: Drop> {
    pub(crate) item: T,
    small: Small<Place<T>>,
}

impl<T: Drop> Single<T> {
    /// Keeps an element. One that takes half of all memory or more is refused.
    pub(crate) fn new(item: T) -> Result<Single<T>, AllocError>
        ensures { IfOk result (λ single. single.item ≡ item) }
    {
        if size_of_val(&item) >= 1 << 63 {
            return Err(AllocError);
        }
        let small = Small { of: PhantomData };
        Ok(Single { item, small })
    }

    /// The element, as a slice of one.
    pub(crate) fn as_slice(&self) -> &[T]
        ensures { result.now ≡ self.now.item ∷ [] }
    {
        self.small.tell();
        slice::from_ref(&self.item)
    }
}
