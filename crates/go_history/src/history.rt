//! The positions of a game, each with the number of moves after which it first came. A hash table has the
//! first 4,096 keys. Trees have the rest, so that no choice of moves makes a look-up long.
ghost use Rattle.std.specs.Prelude.{◌≡◌, ℕ, cond, IfOk, None, Ok, OnErr, Some};
ghost use Rattle.std.specs.Map.{lookup};
ghost use Rattle.go_history.specs.Keys.{key_eq};
ghost use Rattle.go_history.specs.declared.key.Key.{Key};
ghost use Rattle.go_history.specs.Histories.{IsBegun, IsChangedAt, IsForgotten, IsUnchanged, later_at, number_at};

use crate::Key;
use crate::far_keys::FarKeys;
use std::alloc::{AllocError, Allocator};
use std::collections::HashMap;
use std::hash::{BuildHasherDefault, FoldHasher};
use std::marker::Model;

/// How many keys the hash table has at most: more than a usual game has moves. The seed is fixed, so somebody
/// may pick moves whose keys lie side by side. That makes a look-up slow, so the table is limited.
const FIRST_KEYS: usize = 4_096;

/// A history that begins anew keeps the memory of its hash table up to this many keys.
const KEPT_KEYS: usize = 1_024;

/// After how many moves each position first came. The start's key is kept beside the others, so that a
/// game without moves takes no memory. It takes memory as keys are noted, from the allocator that it was
/// made with.
pub struct History<A: Allocator + Copy> {
    /// The position after no move.
    start: Key,
    /// After how many moves each other key first came, for the first `FIRST_KEYS` keys.
    first: HashMap<Key, usize, BuildHasherDefault<FoldHasher>, A>,
    /// The same of the keys that were noted after them.
    further: FarKeys<A>,
    alloc: A,
}

// This `Drop` is written by hand, so that a caller that drops a history proves one call, and not the drop of
// each tree.
impl<A: Allocator + Copy> Drop for History<A> {
    /// Drops its keys.
    fn drop(self) {
        let History {
            start: _,
            first: _,
            further: _,
            alloc: _,
        } = self;
    }
}

impl<A: Allocator + Copy> Model for History<A> {
    ghost use Rattle.go_history.specs.Histories.{HistoryValue};
    ghost use Rattle.std.specs.Prelude.{◌++◌};

    ghost Value = { HistoryValue };

    ghost view = { λ h. record {
      start = h.start;
      later = h.first.entries ++ h.further;
    } };
}

impl<A: Allocator + Copy> History<A> {
    /// The history of a game without moves. It takes no memory.
    pub fn new(alloc: A, start: Key) -> History<A>
        ensures { IsBegun result start }
    {
        History {
            start,
            first: HashMap::new(alloc),
            further: FarKeys::new(alloc),
            alloc,
        }
    }

    /// After how many moves the position of this key first came, or none where it didn't come.
    pub fn look_up(&self, key: &Key) -> Option<usize>
        ensures { result ≡ number_at self.now key.now }
    {
        if self.start == *key {
            return Some(0);
        }
        self.look_up_later(key)
    }

    /// The same without the start.
    fn look_up_later(&self, key: &Key) -> Option<usize>
        ensures { result ≡ later_at self.now key.now }
    {
        if let Some(number) = self.first.get(key).copied() {
            return Some(number);
        }
        if self.further.is_empty() {
            return None;
        }
        self.further.get(key)
    }

    /// After how many moves the position of this key first came. If it didn't come, notes the key with this
    /// number, and returns none.
    pub fn note(&mut self, key: &Key, number: usize) -> Result<Option<usize>, AllocError>
        ensures known { IfOk result (λ known. known ≡ number_at self.old key.now) }
        ensures noted { result ≡ Ok None → IsChangedAt self.old self.new key.now (Some number) }
        ensures stood { (k : ℕ) → result ≡ Ok (Some k) → IsUnchanged self.old self.new }
        ensures err { OnErr result (IsUnchanged self.old self.new) }
    {
        if self.start == *key {
            return Ok(Some(0));
        }
        if self.further.is_empty() && self.first.len() < FIRST_KEYS {
            return note_first(&mut self.first, key, number);
        }
        if let Some(known) = self.first.get(key).copied() {
            return Ok(Some(known));
        }
        self.further.note(key, number)
    }

    /// Takes out what was noted of a key. It takes no memory.
    pub fn forget(&mut self, key: &Key)
        ensures { IsChangedAt self.old self.new key.now None }
    {
        self.first.remove(key);
        if !self.further.is_empty() {
            self.further.remove(key);
        }
    }

    /// Takes out a key that was noted with this number; one that was noted with another stays. It
    /// takes no memory.
    pub fn forget_at(&mut self, key: &Key, number: usize)
        ensures { IsForgotten self.old self.new key.now number }
    {
        if self.look_up_later(key) == Some(number) {
            self.forget(key);
        }
    }

    /// Begins anew. It takes no memory, and gives back that of a long game at once, list by list: it looks at
    /// no key.
    pub fn restart(&mut self, start: Key)
        ensures { IsBegun self.new start }
    {
        self.start = start;
        self.further = FarKeys::new(self.alloc);
        if self.first.capacity() > KEPT_KEYS {
            self.first = HashMap::new(self.alloc);
        } else {
            self.first.clear();
        }
    }
}

/// The number of a key among the first. If it has none, notes the key there with this number, and returns
/// none.
fn note_first<A: Allocator + Copy>(
    first: &mut HashMap<Key, usize, BuildHasherDefault<FoldHasher>, A>,
    key: &Key,
    number: usize,
) -> Result<Option<usize>, AllocError>
    ensures known { IfOk result (λ known. known ≡ lookup (key_eq key.now) first.old.entries) }
    ensures noted { result ≡ Ok None → (q : Key) → lookup (key_eq q) first.new.entries
        ≡ cond (key_eq key.now q) (Some number) (lookup (key_eq q) first.old.entries) }
    ensures stood { (k : ℕ) → result ≡ Ok (Some k) → (q : Key) → lookup (key_eq q)
        first.new.entries ≡ lookup (key_eq q) first.old.entries }
    ensures err { OnErr result ((q : Key) → lookup (key_eq q) first.new.entries
        ≡ lookup (key_eq q) first.old.entries) }
{
    // Most keys are new, so it inserts first. If the key was there, it puts the earlier number back.
    let known = first.insert(*key, number)?;
    match known {
        None => Ok(None),
        Some(earlier) => {
            first.insert(*key, earlier)?;
            Ok(Some(earlier))
        }
    }
}
