ghost use Rattle.std.specs.Prelude.{◌≡◌, ◌∷◌, [], List, Option};
ghost use Rattle.goref_session.specs.Contents.{content_of};
ghost use Rattle.goref.specs.Shelves.{Pair, then_pairs};

use goref_session::Fetched;
use std::alloc::Allocator;

/// Where files are fetched from.
pub trait Shelf<A: Allocator> {
    /// The names asked for so far with what was given for each, where the shelf shows them.
    ghost given: { Self → Option (List Pair) };

    /// Fetches the file of this name.
    fn fetch(&mut self, name: &[u8]) -> Fetched<A>
        ensures { given self.new ≡ then_pairs (given self.old)
            ((name.now, content_of result) ∷ []) };
}
