//! A counter that contracts read and that takes no memory when the program runs. Only an open meter can be
//! made. Code that is generic over the kind counts with the meter that it is given.
ghost use Rattle.std.specs.Prelude.{◌≡◌, ◌+◌, ℕ};

use std::marker::{Model, PhantomData};
use std::mem;
use std::snapshot::Snapshot;

/// A number that only contracts see: none, or one more than the number before.
#[derive(Drop)]
struct Number {
    before: Option<Snapshot<Number>>,
}

impl Model for Number {
    ghost use Rattle.std.specs.Prelude.{ℕ};
    ghost use Rattle.go_board.specs.Meters.{value_after};

    ghost Value = { ℕ };

    ghost view = { λ n. value_after n.before };

    ghost size = { λ n. n };
}

/// The kind of meters that anyone may make.
pub struct Open;

/// A count of calls that contracts see and that has no bytes when the program runs. Only an open meter can
/// be made. So code for meters of every kind counts with the meter that it was given: it can make no other
/// to hide a call.
#[derive(Drop)]
pub struct Meter<K = Open> {
    /// The count, which contracts alone see.
    at: Snapshot<Number>,
    kind: PhantomData<K>,
}

impl<K> Model for Meter<K> {
    ghost Value = { ℕ };

    ghost view = { λ m. m.at.value };
}

impl Meter<Open> {
    /// A meter at 0.
    pub fn new() -> Meter<Open>
        ensures { result ≡ 0 }
    {
        Meter {
            at: Snapshot::of(&Number { before: None }),
            kind: PhantomData,
        }
    }
}

impl<K> Meter<K> {
    /// Counts one more.
    pub fn tick(&mut self)
        ensures { self.new ≡ self.old + 1 }
    {
        let zero = Snapshot::of(&Number { before: None });
        let before = mem::replace(&mut self.at, zero);
        self.at = Snapshot::of(&Number {
            before: Some(before),
        });
    }
}

const _: () = prove!(mem::size_of::<Meter>() == 0);
