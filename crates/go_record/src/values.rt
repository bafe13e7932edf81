ghost use Rattle.std.specs.Prelude.{◌≡◌, ◌≤◌, ℕ, List, [], length};
ghost use Rattle.go_sgf.specs.MainLine.{IsLeft};
ghost use Rattle.go_sgf.specs.Record.{Property};
ghost use Rattle.go_record.specs.MainLine.{leading_value};
ghost use Rattle.go_record.specs.inner.Progress.{IsAmongValues};

use go_sgf::MainLine;

/// The first value of a property whose name was read, or an empty one if it has none.
pub(crate) fn first_value<'a>(cursor: &mut MainLine<'a>) -> &'a [u8]
    ensures value { (values : List (List ℕ)) (later : List Property) (nodes : List (List Property))
        → IsLeft cursor.old values later nodes → result.now ≡ leading_value values }
    ensures cursor { (later : List Property) (nodes : List (List Property))
        → IsAmongValues cursor.old later nodes → IsAmongValues cursor.new later nodes }
    ensures onward { length cursor.new ≤ length cursor.old }
{
    match cursor.next_value() {
        Some(value) => value,
        None => b"",
    }
}
