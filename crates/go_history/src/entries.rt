//! The entries of a tree of keys, in lists. To save memory, an entry keeps only the first bytes of its pack,
//! and no hash.
ghost use Rattle.std.specs.Prelude.{◌≡◌, ◌<◌, ◌≤◌, ◌-◌, ◌++◌, ◌∷◌, [], OnErr, OnOk, Some, length, slice_index_or, slice_set, take};
ghost use Rattle.go_board.specs.PackBytes.{pack_of_front};
ghost use Rattle.go_board.specs.declared.pack.TheConstants.{PACK_BYTES};
ghost use Rattle.go_history.specs.Keys.{key_eq};
ghost use Rattle.go_history.specs.declared.entries.Entry.{Entry};
ghost use Rattle.go_history.specs.inner.Trees.{IsOwn};

use crate::Key;
use crate::hashed::Hashed;
use go_board::{Colour, Packed};
use std::alloc::{AllocError, Allocator};
use std::marker::Model;

/// A key of a tree as contracts see it.
#[derive(Clone, Copy)]
pub struct Entry {
    pub hashed: Hashed,
    /// The number that the key was noted with, or none once it was taken out.
    pub number: Option<usize>,
    /// The slot among the links that leads to it. None leads to the first.
    pub link: Option<usize>,
}

/// What is kept of an entry beside its pack.
#[derive(Clone, Copy)]
pub struct Rest {
    pub mover: Option<Colour>,
    pub number: Option<usize>,
    pub link: Option<usize>,
}

/// Entries in the order in which they were noted. A long game has many, so only the first `width` bytes
/// of each pack are kept, after which all are 0, and no hash is.
#[derive(Drop)]
pub struct Entries<A: Allocator + Copy> {
    /// How many bytes are kept of each pack.
    width: usize,
    prefixes: Vec<u8, A>,
    rests: Vec<Rest, A>,
}

impl<A: Allocator + Copy> Model for Entries<A> {
    ghost use Rattle.std.specs.Prelude.{◌≡◌, ◌≤◌, ◌*◌, length};
    ghost use Rattle.go_board.specs.declared.pack.TheConstants.{PACK_BYTES};
    ghost use Rattle.go_history.specs.inner.Entries.{EntriesValue, entries_of};

    ghost Value = { EntriesValue };

    ghost view = { λ e. record {
      width = e.width;
      list = entries_of e.width e.prefixes.items e.rests.items;
    } };

    ghost invariant = { λ e. (e.width ≤ PACK_BYTES)
        × (length e.prefixes.items ≡ e.width * length e.rests.items) };
}

impl<A: Allocator + Copy> Entries<A> {
    /// No entries. Of each pack it will keep `width` bytes. It takes no memory.
    pub fn new(alloc: A, width: usize) -> Entries<A>
        requires { width ≤ PACK_BYTES }
        ensures width { result.width ≡ width }
        ensures list { result.list ≡ [] }
    {
        Entries {
            width,
            prefixes: Vec::new(alloc),
            rests: Vec::new(alloc),
        }
    }

    /// How many there are.
    pub fn len(&self) -> usize
        ensures { result ≡ length self.now.list }
    {
        self.rests.len()
    }

    /// Whether an entry is that of a key.
    pub fn is_of(&self, at: usize, key: &Key) -> bool
        requires { at < length self.now.list }
        ensures { (d : Entry) → result
            ≡ key_eq key.now (slice_index_or self.now.list at d).hashed.key }
    {
        let own = Key {
            pack: Packed::of_front(self.prefix(at)),
            mover: self.rests[at].mover,
        };
        *key == own
    }

    /// The bytes that are kept of an entry's pack.
    fn prefix(&self, at: usize) -> &[u8]
        requires { at < length self.now.list }
        ensures few { length result.now ≤ PACK_BYTES }
        ensures pack { (d : Entry) → pack_of_front result.now
            ≡ (slice_index_or self.now.list at d).hashed.key.pack }
    {
        let rest = self.prefixes.as_slice().split_at(self.width * at).1;
        rest.split_at(self.width).0
    }

    /// The number that an entry's key was noted with, or none once it was taken out.
    pub fn number(&self, at: usize) -> Option<usize>
        requires { at < length self.now.list }
        ensures { (d : Entry) → result ≡ (slice_index_or self.now.list at d).number }
    {
        self.rests[at].number
    }

    /// The slot that leads to an entry. None leads to the first.
    pub fn link(&self, at: usize) -> Option<usize>
        requires { at < length self.now.list }
        ensures { (d : Entry) → result ≡ (slice_index_or self.now.list at d).link }
    {
        self.rests[at].link
    }

    /// Notes an entry's key with this number, or takes it out.
    pub fn set_number(&mut self, at: usize, number: Option<usize>)
        requires { at < length self.old.list }
        ensures width { self.new.width ≡ self.old.width }
        ensures list { (d : Entry) → self.new.list ≡ slice_set self.old.list at (record {
          hashed = (slice_index_or self.old.list at d).hashed;
          number = number;
          link = (slice_index_or self.old.list at d).link;
        }) }
    {
        self.rests[at].number = number;
    }

    /// Adds the entry of a key after the others, noted with this number.
    pub fn push(
        &mut self,
        hashed: &Hashed,
        prefix: &[u8],
        number: usize,
        link: Option<usize>,
    ) -> Result<(), AllocError>
        requires own { IsOwn hashed.now }
        requires width { length prefix.now ≡ self.old.width }
        requires pack { pack_of_front prefix.now ≡ hashed.now.key.pack }
        ensures width { self.new.width ≡ self.old.width }
        ensures added { OnOk result (self.new.list ≡ self.old.list
            ++ record { hashed = hashed.now; number = Some number; link = link } ∷ []) }
        ensures err { OnErr result (self.new.list ≡ self.old.list) }
    {
        self.rests.reserve(1)?;
        self.prefixes.extend_from_slice(prefix)?;
        let pushed = self.rests.push(Rest {
            mover: hashed.key.mover,
            number: Some(number),
            link,
        });
        prove!(pushed.is_ok());
        let _ = pushed;
        Ok(())
    }

    /// Takes the last entry away.
    pub fn pop(&mut self)
        requires { 0 < length self.old.list }
        ensures width { self.new.width ≡ self.old.width }
        ensures list { self.new.list ≡ take (length self.old.list - 1) self.old.list }
    {
        self.rests.pop();
        self.prefixes.truncate(self.width * self.rests.len());
    }
}
