//! A tree of keys, in which the digits of a key's hash lead to its entry. Its nodes are in lists, so all
//! their memory is given back at once.
ghost use Rattle.std.specs.Prelude.{◌≡◌, ◌≢◌, ◌<◌, ◌≤◌, ◌-◌, ◌++◌, ◌∷◌, ◌⊎◌, [], ℕ, List, cond, IfNone, IfOk, IfSome, IsTrue, None, Ok, OnErr, OnOk, Some, length, slice_index, slice_index_or, take, false, true};
ghost use Rattle.std.specs.Map.{lookup};
ghost use Rattle.go_board.specs.PackBytes.{pack_of_front};
ghost use Rattle.go_board.specs.declared.pack.TheConstants.{PACK_BYTES};
ghost use Rattle.go_history.specs.Keys.{key_eq};
ghost use Rattle.go_history.specs.declared.key.Key.{Key};
ghost use Rattle.go_history.specs.declared.entries.Entry.{Entry};
ghost use Rattle.go_history.specs.inner.Trees.{IsOwn, IsTree, IsFoundAt, IsMissing, hashed_eq};

use crate::entries::Entries;
use crate::hashed::{CHILDREN, Hashed};
use std::alloc::{AllocError, Allocator};
use std::marker::Model;

/// How many numbers an entry has among the links: its hash, and a slot for each child.
const STRIDE: usize = CHILDREN + 1;

/// Where a key is in a tree, or where its entry is to go.
#[derive(Clone, Copy)]
struct Place {
    /// The number of its entry, if it has one.
    entry: Option<usize>,
    /// The slot that leads there, or is to lead there. None leads to the first entry.
    link: Option<usize>,
}

/// Keys with their numbers. The digits of a key's hash lead from the first entry to its own, so a tree is
/// no deeper than a hash has digits, except for keys with one hash, each of which is a child of the one before.
#[derive(Drop)]
pub struct KeyTree<A: Allocator + Copy> {
    entries: Entries<A>,
    /// For each entry its hash, which tells most entries apart, and then the numbers of its children.
    links: Vec<usize, A>,
}

impl<A: Allocator + Copy> Model for KeyTree<A> {
    ghost use Rattle.go_history.specs.inner.Trees.{IsTree, TreeValue, noted, places_of};

    ghost Value = { TreeValue };

    ghost view = { λ t. record {
      width = t.entries.width;
      noted = noted t.entries.list;
      places = places_of t.entries.list;
    } };

    ghost invariant = { λ t. IsTree t.entries.list t.links.items };
}

impl<A: Allocator + Copy> KeyTree<A> {
    /// A tree without keys, which keeps `width` bytes of each pack. It takes no memory.
    pub fn new(alloc: A, width: usize) -> KeyTree<A>
        requires { width ≤ PACK_BYTES }
        ensures width { result.width ≡ width }
        ensures noted { result.noted ≡ [] }
        ensures places { result.places ≡ [] }
    {
        KeyTree {
            entries: Entries::new(alloc, width),
            links: Vec::new(alloc),
        }
    }

    /// Whether it has no entry. Keys that are removed in the opposite order leave none.
    pub fn is_empty(&self) -> bool
        ensures { IsTrue result → self.now.noted ≡ [] }
    {
        self.entries.len() == 0
    }

    /// The number of a key, or none where it has none.
    pub fn get(&self, hashed: &Hashed) -> Option<usize>
        requires { IsOwn hashed.now }
        ensures { result ≡ lookup (key_eq hashed.now.key) self.now.noted }
    {
        match find(&self.entries, &self.links, hashed).entry {
            Some(at) => self.entries.number(at),
            None => None,
        }
    }

    /// The number of a key, or none where it has none, and then the key is noted with this number.
    /// `prefix` is what is kept of its pack.
    pub fn note(
        &mut self,
        hashed: &Hashed,
        prefix: &[u8],
        number: usize,
    ) -> Result<Option<usize>, AllocError>
        requires own { IsOwn hashed.now }
        requires width { length prefix.now ≡ self.old.width }
        requires pack { pack_of_front prefix.now ≡ hashed.now.key.pack }
        ensures width { self.new.width ≡ self.old.width }
        ensures known { IfOk result (λ known. known ≡ lookup (key_eq hashed.now.key) self.old.noted) }
        ensures noted { result ≡ Ok None → (q : Key) → lookup (key_eq q) self.new.noted
            ≡ cond (key_eq hashed.now.key q) (Some number) (lookup (key_eq q) self.old.noted) }
        ensures stood { (k : ℕ) → result ≡ Ok (Some k) → self.new ≡ self.old }
        ensures err { OnErr result (self.new ≡ self.old) }
        ensures places { (self.new.places ≡ self.old.places)
            ⊎ (self.new.places ≡ self.old.places ++ hashed.now.key ∷ []) }
    {
        let place = find(&self.entries, &self.links, hashed);
        let Some(at) = place.entry else {
            insert(
                &mut self.entries,
                &mut self.links,
                hashed,
                prefix,
                number,
                place.link,
            )?;
            return Ok(None);
        };
        let known = self.entries.number(at);
        if known.is_none() {
            self.entries.set_number(at, Some(number));
        }
        Ok(known)
    }

    /// Takes a key out. If it was noted last, its entry goes too; any other entry stays, without a number.
    /// It takes no memory.
    pub fn remove(&mut self, hashed: &Hashed)
        requires { IsOwn hashed.now }
        ensures width { self.new.width ≡ self.old.width }
        ensures noted { (q : Key) → lookup (key_eq q) self.new.noted
            ≡ cond (key_eq hashed.now.key q) None (lookup (key_eq q) self.old.noted) }
        ensures last { (k : Key) (places : List Key) → self.old.places ≡ places ++ k ∷ []
            → key_eq hashed.now.key k ≡ true → self.new.places ≡ places }
    {
        if is_last(&self.entries, &self.links, hashed) {
            pop(&mut self.entries, &mut self.links);
            return;
        }
        if let Some(at) = find(&self.entries, &self.links, hashed).entry {
            self.entries.set_number(at, None);
        }
    }
}

/// Where a key is, or where its entry is to go.
fn find<A: Allocator + Copy>(entries: &Entries<A>, links: &[usize], hashed: &Hashed) -> Place
    requires tree { IsTree entries.now.list links.now }
    requires own { IsOwn hashed.now }
    ensures found { IfSome result.entry (λ i.
        IsFoundAt entries.now.list links.now hashed.now.key i result.link) }
    ensures none { IfNone result.entry
        (IsMissing entries.now.list links.now hashed.now.key result.link) }
{
    let mut at = 0;
    let mut depth = 0;
    let mut link = None;
    while at < entries.len() {
        if is_entry(entries, links, at, hashed) {
            return Place {
                entry: Some(at),
                link,
            };
        }
        let slot = STRIDE * at + 1 + hashed.digit(depth);
        link = Some(slot);
        let Some(next) = child(links, at, slot) else {
            break;
        };
        at = next;
        depth += 1;
    }
    Place { entry: None, link }
}

/// The child in a slot of an entry. A child comes after its parent, so any other number is none.
fn child(links: &[usize], parent: usize, slot: usize) -> Option<usize>
    requires { slot < length links.now }
    ensures some { IfSome result (λ child. child ≡ slice_index links.now slot) }
    ensures after { IfSome result (λ child. parent < child) }
    ensures none { IfNone result (slice_index links.now slot ≤ parent) }
{
    let child = links[slot];
    if child > parent { Some(child) } else { None }
}

/// Whether an entry has a key. Its hash among the links tells most apart.
fn is_entry<A: Allocator + Copy>(
    entries: &Entries<A>,
    links: &[usize],
    at: usize,
    hashed: &Hashed,
) -> bool
    requires tree { IsTree entries.now.list links.now }
    requires at { at < length entries.now.list }
    ensures { (d : Entry) → result ≡ hashed_eq hashed.now (slice_index_or entries.now.list at d).hashed }
{
    links[STRIDE * at] == hashed.hash as usize && entries.is_of(at, &hashed.key)
}

/// Whether the last entry has this key. Moves are mostly taken back in the opposite order.
fn is_last<A: Allocator + Copy>(entries: &Entries<A>, links: &[usize], hashed: &Hashed) -> bool
    requires { IsTree entries.now.list links.now }
    ensures some { IsTrue result → 0 < length entries.now.list }
    ensures same { (d : Entry) → 0 < length entries.now.list → result
        ≡ hashed_eq hashed.now (slice_index_or entries.now.list (length entries.now.list - 1) d).hashed }
{
    entries.len() > 0 && is_entry(entries, links, entries.len() - 1, hashed)
}

/// Adds the entry of a key after the others, as the child that `link` leads to.
fn insert<A: Allocator + Copy>(
    entries: &mut Entries<A>,
    links: &mut Vec<usize, A>,
    hashed: &Hashed,
    prefix: &[u8],
    number: usize,
    link: Option<usize>,
) -> Result<(), AllocError>
    requires tree { IsTree entries.old.list links.old.items }
    requires own { IsOwn hashed.now }
    requires width { length prefix.now ≡ entries.old.width }
    requires pack { pack_of_front prefix.now ≡ hashed.now.key.pack }
    requires none { IsMissing entries.old.list links.old.items hashed.now.key link }
    ensures width { entries.new.width ≡ entries.old.width }
    ensures added { OnOk result (entries.new.list ≡ entries.old.list
        ++ record { hashed = hashed.now; number = Some number; link = link } ∷ []) }
    ensures tree { IsTree entries.new.list links.new.items }
    ensures err { OnErr result (entries.new.list ≡ entries.old.list) }
{
    links.reserve(STRIDE)?;
    entries.push(hashed, prefix, number, link)?;
    // `STRIDE` numbers: the hash, and slots without a child.
    let extended = links.extend_from_slice(&[hashed.hash as usize, 0, 0, 0, 0]);
    prove!(extended.is_ok());
    let _ = extended;
    set_child(links, link, entries.len() - 1);
    Ok(())
}

/// Writes an entry into the slot that a link names.
fn set_child<A: Allocator + Copy>(links: &mut Vec<usize, A>, link: Option<usize>, entry: usize)
    requires { IfSome link (λ slot. slot < length links.old.items) }
    ensures long { length links.new.items ≡ length links.old.items }
    ensures to { (slot : ℕ) → link ≡ Some slot → slice_index links.new.items slot ≡ entry }
    ensures others { (slot : ℕ) → link ≢ Some slot
        → slice_index links.new.items slot ≡ slice_index links.old.items slot }
{
    if let Some(slot) = link {
        links[slot] = entry;
    }
}

/// Takes the last entry away, and the link that leads to it.
fn pop<A: Allocator + Copy>(entries: &mut Entries<A>, links: &mut Vec<usize, A>)
    requires tree { IsTree entries.old.list links.old.items }
    requires some { 0 < length entries.old.list }
    ensures width { entries.new.width ≡ entries.old.width }
    ensures popped { entries.new.list ≡ take (length entries.old.list - 1) entries.old.list }
    ensures tree { IsTree entries.new.list links.new.items }
{
    let link = entries.link(entries.len() - 1);
    set_child(links, link, 0);
    entries.pop();
    links.truncate(STRIDE * entries.len());
}
