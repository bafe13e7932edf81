//! The file that a caller gives with lines, as a shelf.
ghost use Rattle.std.specs.Prelude.{◌≡◌, []};
ghost use Rattle.goref_c.specs.Files.{bytes_of, content_given};
ghost use Rattle.goref_session.specs.Contents.{content_of};

use go_sgf::MAX_RECORD;
use goref::{Fetched, Shelf};
use std::alloc::Allocator;
use std::marker::Model;
use std::mem;
use std::snapshot::Snapshot;

/// A text that only contracts see: that before and a byte, or no byte where there is none before.
#[derive(Drop)]
struct Letters {
    before: Option<Snapshot<Letters>>,
    last: u8,
}

impl Model for Letters {
    ghost use Rattle.std.specs.Prelude.{List, ℕ, length};
    ghost use Rattle.goref_c.specs.Files.{one_after};

    ghost Value = { List ℕ };

    ghost view = { λ l. one_after l.before l.last };

    ghost size = { λ l. length l };
}

/// What contracts see of a text.
fn letters_of(text: &[u8]) -> Snapshot<Letters>
    ensures { result.value ≡ text.now }
{
    let mut letters = Snapshot::of(&Letters {
        before: None,
        last: 0,
    });
    for byte in text {
        letters = Snapshot::of(&Letters {
            before: Some(letters),
            last: *byte,
        });
    }
    letters
}

/// Names that only contracts see, each with whether there was memory for a file: those before and
/// one, or none where there are none before.
#[derive(Drop)]
struct Names {
    before: Option<Snapshot<Names>>,
    last: Snapshot<Letters>,
    has_memory: bool,
}

impl Model for Names {
    ghost use Rattle.std.specs.Prelude.{List, length};
    ghost use Rattle.goref_c.specs.Files.{Asking, one_after};

    ghost Value = { List Asking };

    ghost view = { λ n. one_after n.before (n.last.value, n.has_memory) };

    ghost size = { λ n. length n };
}

/// A shelf that gives the same file under each name, or none. Contracts see the names that it was
/// asked for.
#[derive(Drop)]
pub(crate) struct OneFile<'a, A: Allocator + Copy> {
    alloc: A,
    file: Option<&'a [u8]>,
    asked: Snapshot<Names>,
}

impl<'a, A: Allocator + Copy> Model for OneFile<'a, A> {
    ghost use Rattle.goref_c.specs.Files.{Shown, bytes_of};

    ghost Value = { Shown };

    ghost view = { λ s. record { file = bytes_of s.file; asked = s.asked.value } };
}

impl<'a, A: Allocator + Copy> OneFile<'a, A> {
    /// A shelf that was asked for nothing so far.
    pub(crate) fn new(alloc: A, file: Option<&'a [u8]>) -> OneFile<'a, A>
        ensures { result ≡ record { file = bytes_of file.entry; asked = [] } }
    {
        OneFile {
            alloc,
            file,
            asked: no_names(),
        }
    }
}

fn no_names() -> Snapshot<Names>
    ensures { result.value ≡ [] }
{
    Snapshot::of(&Names {
        before: None,
        last: letters_of(b""),
        has_memory: true,
    })
}

/// What is fetched of a file that its caller has, or hasn't.
fn fetched_of<A: Allocator + Copy>(alloc: A, file: Option<&[u8]>) -> (Fetched<A>, bool)
    ensures { content_of result.0 ≡ content_given (bytes_of file.entry) result.1 }
{
    let Some(bytes) = file else {
        return (Fetched::Missing, true);
    };
    if bytes.len() > MAX_RECORD {
        return (Fetched::TooLarge, true);
    }
    match Vec::from_slice(alloc, bytes) {
        Ok(copy) => (Fetched::Bytes(copy), true),
        Err(_) => (Fetched::Memory, false),
    }
}

impl<A: Allocator + Copy> Shelf<A> for OneFile<'_, A> {
    ghost use Rattle.std.specs.Prelude.{Some};
    ghost use Rattle.goref_c.specs.Files.{told_of};

    ghost given = { λ s. Some (told_of s.file s.asked) };

    fn fetch(&mut self, name: &[u8]) -> Fetched<A> {
        let (fetched, has_memory) = fetched_of(self.alloc, self.file);
        let before = mem::replace(&mut self.asked, no_names());
        self.asked = Snapshot::of(&Names {
            before: Some(before),
            last: letters_of(name),
            has_memory,
        });
        fetched
    }
}

const _: () = prove!(mem::size_of::<Snapshot<Names>>() == 0);
