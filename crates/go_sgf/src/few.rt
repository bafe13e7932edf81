//! A list that holds one element in place and takes memory only from the second on, since most lists of a
//! record have one element.
ghost use Rattle.std.specs.Prelude.{◌≡◌, ◌∷◌, ◌++◌, [], IfOk, IfSome, OnOk};
ghost use Rattle.go_sgf.specs.inner.Few.{items_in};

use crate::small::Single;
use std::alloc::{AllocError, Allocator};
use std::marker::Model;
use std::mem;

/// A list with room for one element in place: most lists of a record have one.
#[derive(Drop)]
pub(crate) struct Few<T: Drop, A: Allocator + Copy> {
    held: Held<T, A>,
}

#[derive(Drop)]
enum Held<T: Drop, A: Allocator + Copy> {
    None,
    One(Single<T>),
    Many(Vec<T, A>),
}

impl<T: Drop, A: Allocator + Copy> Model for Few<T, A> {
    ghost use Rattle.std.specs.Prelude.{List};
    ghost use Rattle.go_sgf.specs.inner.Few.{items_in};

    ghost Value = { List T };

    ghost view = { λ f. items_in f.held };
}

impl<T: Drop, A: Allocator + Copy> Few<T, A> {
    /// A list without elements.
    pub(crate) fn new() -> Few<T, A>
        ensures { result ≡ [] }
    {
        Few { held: Held::None }
    }

    /// The elements, in their order.
    pub(crate) fn as_slice(&self) -> &[T]
        ensures { result.now ≡ self.now }
    {
        match &self.held {
            Held::None => &[],
            Held::One(single) => single.as_slice(),
            Held::Many(list) => list.as_slice(),
        }
    }

    /// The element, where there is one alone.
    pub(crate) fn only(&self) -> Option<&T>
        ensures { IfSome result (λ item. self.now ≡ item.now ∷ []) }
    {
        match &self.held {
            Held::One(single) => Some(&single.item),
            _ => None,
        }
    }

    /// Adds one more. Where there is no room for it, the list may be empty then.
    pub(crate) fn push(&mut self, alloc: A, item: T) -> Result<(), AllocError>
        ensures { OnOk result (self.new ≡ self.old ++ item ∷ []) }
    {
        // A long list stays where it is.
        if let Held::Many(list) = &mut self.held {
            list.push(item)?;
            return Ok(());
        }
        let held = mem::replace(&mut self.held, Held::None);
        self.held = with_item(alloc, held, item)?;
        Ok(())
    }
}

/// What is held with one more element.
fn with_item<T: Drop, A: Allocator + Copy>(
    alloc: A,
    held: Held<T, A>,
    item: T,
) -> Result<Held<T, A>, AllocError>
    ensures { IfOk result (λ more. items_in more ≡ items_in held ++ item ∷ []) }
{
    match held {
        Held::None => Ok(Held::One(Single::new(item)?)),
        Held::One(single) => Ok(Held::Many(pair(alloc, single.item, item)?)),
        Held::Many(mut list) => {
            list.push(item)?;
            Ok(Held::Many(list))
        }
    }
}

fn pair<T: Drop, A: Allocator + Copy>(
    alloc: A,
    first: T,
    second: T,
) -> Result<Vec<T, A>, AllocError>
    ensures { IfOk result (λ list. list.items ≡ first ∷ second ∷ []) }
{
    let mut list = Vec::new(alloc);
    list.push(first)?;
    list.push(second)?;
    Ok(list)
}
