ghost use Rattle.std.specs.Prelude.{◌≡◌, ◌<◌};
ghost use Rattle.go_history.specs.declared.hashed.TheConstants.{CHILDREN};
ghost use Rattle.go_history.specs.inner.Trees.{digit_of, hashed};

use crate::Key;
use std::hash::{FoldHasher, Hash, Hasher};

/// How many children an entry of a tree can have.
pub const CHILDREN: usize = 4;

/// How many digits a hash has. Each names a child.
const DIGITS: usize = 32;

/// A key and its hash, which tells most keys apart.
#[derive(Clone, Copy, PartialEq, Eq)]
pub struct Hashed {
    pub hash: u64,
    pub key: Key,
}

impl Hashed {
    /// The key with its hash, which is reckoned here alone.
    pub fn new(key: &Key) -> Hashed
        ensures { result ≡ hashed key.now }
    {
        let mut state = FoldHasher::default();
        key.hash(&mut state);
        Hashed {
            hash: state.finish(),
            key: *key,
        }
    }

    /// The digit of the hash that names the child at this depth. After the last digit comes the first again.
    pub fn digit(&self, depth: usize) -> usize
        ensures value { result ≡ digit_of self.now depth }
        ensures few { result < CHILDREN }
    {
        (self.hash >> (2 * (depth % DIGITS))) as usize % CHILDREN
    }
}
