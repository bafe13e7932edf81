ghost use Rattle.std.specs.Prelude.{◌≡◌, ◌<◌, ◌++◌, ◌∷◌, [], if◌then◌else◌, length};
ghost use Rattle.go_board.specs.Points.{IsOn, number_of};
ghost use Rattle.go_chains.specs.inner.Beside.{AreBeside};

use arrayvec::ArrayVec;
use go_board::{Point, Size, laws};

/// Puts the numbers of the points that share a side with this one into an empty list. Each play and each
/// question about a play needs them, and a list that was returned would be copied.
pub fn put_beside(size: Size, p: Point, numbers: &mut ArrayVec<usize, 4>)
    requires on { IsOn size p }
    requires empty { numbers.old.items ≡ [] }
    ensures { AreBeside size (number_of size p) numbers.new.items }
{
    laws::points_by_number();
    let lines = usize::from(size.lines());
    let point = usize::from(p.index(size));
    let (col, row) = (usize::from(p.col), usize::from(p.row));
    // Each number is computed also where the board ends, and isn't used then.
    push_if(numbers, row > 0, point.saturating_sub(lines));
    push_if(numbers, col > 0, point.saturating_sub(1));
    push_if(numbers, col + 1 < lines, point + 1);
    push_if(numbers, row + 1 < lines, point + lines);
}

/// Adds a number, if it is that of a point.
fn push_if(numbers: &mut ArrayVec<usize, 4>, there: bool, number: usize)
    requires { length numbers.old.items < 4 }
    ensures { numbers.new.items
        ≡ numbers.old.items ++ (if there then number ∷ [] else []) }
{
    if there {
        numbers.push(number);
    }
}
