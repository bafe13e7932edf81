//! The keys that a history's hash table has no place for, in two trees. One has the packs that fit a board of
//! 19 lines, the other has the rest.
ghost use Rattle.std.specs.Prelude.{◌≡◌, ℕ, cond, IfOk, None, Ok, OnErr, Some, []};
ghost use Rattle.std.specs.Map.{lookup};
ghost use Rattle.go_history.specs.Keys.{key_eq};
ghost use Rattle.go_history.specs.declared.key.Key.{Key};

use crate::Key;
use crate::hashed::Hashed;
use crate::key_tree::KeyTree;
use go_board::PACK_BYTES;
use std::alloc::{AllocError, Allocator};
use std::marker::Model;

/// How many bytes the pack of a board of 19 lines, the usual size, has before those that are 0.
const NARROW_BYTES: usize = 91;

/// The keys that were noted after the first ones, with their numbers. The keys of the usual boards have a
/// tree of their own, so that they take no more room than they need.
#[derive(Drop)]
pub struct FarKeys<A: Allocator + Copy> {
    /// Keys whose packs are 0 after `NARROW_BYTES` bytes.
    narrow: KeyTree<A>,
    /// The others.
    wide: KeyTree<A>,
}

impl<A: Allocator + Copy> Model for FarKeys<A> {
    ghost use Rattle.std.specs.Prelude.{◌≡◌, ◌++◌, ℕ, List};
    ghost use Rattle.go_board.specs.declared.pack.TheConstants.{PACK_BYTES};
    ghost use Rattle.go_history.specs.declared.far_keys.TheConstants.{NARROW_BYTES};
    ghost use Rattle.go_history.specs.inner.Trees.{AreApart};
    ghost use Rattle.go_history.specs.declared.key.Key.{Key};

    ghost Value = { List (Key × ℕ) };

    ghost view = { λ f. f.narrow.noted ++ f.wide.noted };

    ghost invariant = { λ f. (f.narrow.width ≡ NARROW_BYTES) × (f.wide.width ≡ PACK_BYTES)
        × AreApart f.narrow.noted f.wide.noted };
}

impl<A: Allocator + Copy> FarKeys<A> {
    ghost use Rattle.std.specs.Prelude.{IsTrue};

    /// No keys. It takes no memory.
    pub fn new(alloc: A) -> FarKeys<A>
        ensures { result ≡ [] }
    {
        FarKeys {
            narrow: KeyTree::new(alloc, NARROW_BYTES),
            wide: KeyTree::new(alloc, PACK_BYTES),
        }
    }

    /// Whether its trees have no entry. Keys that are removed in the opposite order leave none.
    pub fn is_empty(&self) -> bool
        ensures { IsTrue result → self.now ≡ [] }
    {
        self.narrow.is_empty() && self.wide.is_empty()
    }

    /// The number of a key, or none where it has none.
    pub fn get(&self, key: &Key) -> Option<usize>
        ensures { result ≡ lookup (key_eq key.now) self.now }
    {
        let hashed = Hashed::new(key);
        if let Some(number) = self.narrow.get(&hashed) {
            return Some(number);
        }
        self.wide.get(&hashed)
    }

    /// The number of a key, or none where it has none, and then the key is noted with this number.
    pub fn note(&mut self, key: &Key, number: usize) -> Result<Option<usize>, AllocError>
        ensures known { IfOk result (λ known. known ≡ lookup (key_eq key.now) self.old) }
        ensures noted { result ≡ Ok None → (q : Key) → lookup (key_eq q) self.new
            ≡ cond (key_eq key.now q) (Some number) (lookup (key_eq q) self.old) }
        ensures stood { (k : ℕ) → result ≡ Ok (Some k) → self.new ≡ self.old }
        ensures err { OnErr result (self.new ≡ self.old) }
    {
        let hashed = Hashed::new(key);
        if let Some(prefix) = key.pack.front(NARROW_BYTES) {
            if let Some(known) = self.wide.get(&hashed) {
                return Ok(Some(known));
            }
            return self.narrow.note(&hashed, prefix, number);
        }
        if let Some(known) = self.narrow.get(&hashed) {
            return Ok(Some(known));
        }
        self.wide.note(&hashed, key.pack.bytes(), number)
    }

    /// Takes a key out. It takes no memory.
    pub fn remove(&mut self, key: &Key)
        ensures { (q : Key) → lookup (key_eq q) self.new
            ≡ cond (key_eq key.now q) None (lookup (key_eq q) self.old) }
    {
        let hashed = Hashed::new(key);
        self.narrow.remove(&hashed);
        self.wide.remove(&hashed);
    }
}
