//! The rules of the board computed from its colours alone, by floods: what clears, what a move
//! leaves, whose area a point is. Faster tables are compared with these.
ghost use Rattle.std.specs.Prelude.{◌≡◌, ◌<◌, ◌&&◌, ◌||◌, Some, None, IfSome, IfNone, if◌then◌else◌, length, not, slice_set, true, false};
ghost use Rattle.go_board.specs.Chains.{liberties};
ghost use Rattle.go_board.specs.Colours.{colour_at, other};
ghost use Rattle.go_board.specs.Points.{IsOn, is_adjacent, number_of};
ghost use Rattle.go_board.specs.Reaching.{area, cleared, connects, has_colour, is_liberty_of, joined, moved, vanished};
ghost use Rattle.go_board.specs.inner.Flood.{AreJoined, AreReaching};
ghost use Rattle.go_board.specs.Living.{AreAlive, IsFirstDead};
ghost use Rattle.go_board.specs.inner.Areas.{is_area_marked};

use crate::colour::is_same;
use crate::flood::Marks;
use crate::seeds::{joined_to, reaching};
use crate::{Area, Colour, Grid, Point, Taken, neighbours};

/// Empties a stone of this colour unless it lives, and says whether it did.
fn empty_dead(grid: &mut Grid, at: Point, colour: Colour, lives: bool) -> bool
    requires { IsOn grid.old.lines at }
    ensures lines { grid.new.lines ≡ grid.old.lines }
    ensures colours { grid.new.colours
        ≡ (if result then slice_set grid.old.colours (number_of grid.old.lines at) None
        else grid.old.colours) }
    ensures taken { result
        ≡ (has_colour grid.old.colours (number_of grid.old.lines at) (Some colour) && not lives) }
{
    if lives {
        return false;
    }
    let dies = is_same(grid.get(at), Some(colour));
    if dies {
        grid.set(at, None);
    }
    dies
}

/// Empties the points of a colour that don't reach empty, and says how many stones that took.
pub fn clear(grid: &mut Grid, colour: Colour) -> u16
    ensures lines { grid.new.lines ≡ grid.old.lines }
    ensures colours { grid.new.colours ≡ cleared grid.old.lines grid.old.colours colour }
    ensures taken { result ≡ vanished grid.old.lines grid.old.colours grid.new.colours colour }
{
    let alive = reaching(grid, Some(colour), None);
    let size = grid.size();
    let mut taken = 0u16;
    for number in 0..size.points() {
        let at = Point::numbered(size, number);
        if empty_dead(grid, at, colour, alive[usize::from(number)]) {
            taken += 1;
        }
    }
    taken
}

/// Places a stone, clears the opponent's colour and then the player's own.
pub fn place(grid: &mut Grid, colour: Colour, p: Point) -> Taken
    requires { IsOn grid.old.lines p }
    ensures lines { grid.new.lines ≡ grid.old.lines }
    ensures colours { grid.new.colours ≡ moved grid.old.lines grid.old.colours colour
        (number_of grid.old.lines p) }
    ensures theirs { result.theirs ≡ vanished grid.old.lines
        (slice_set grid.old.colours (number_of grid.old.lines p) (Some colour)) grid.new.colours
        (other colour) }
    ensures own { result.own ≡ vanished grid.old.lines
        (slice_set grid.old.colours (number_of grid.old.lines p) (Some colour)) grid.new.colours
        colour }
{
    grid.set(p, Some(colour));
    let theirs = clear(grid, colour.other());
    let own = clear(grid, colour);
    Taken { theirs, own }
}

/// Whether a point counts for a colour, by what it reaches.
fn is_area_of(grid: &Grid, at: Point, colour: Colour, own: bool, theirs: bool) -> bool
    requires { IsOn grid.now.lines at }
    ensures { result ≡ is_area_marked (colour_at grid.now.colours (number_of grid.now.lines at))
        colour own theirs }
{
    match grid.get(at) {
        Some(stone) => stone == colour,
        None => own && !theirs,
    }
}

/// How many points count for each colour: its stones, and the empty points that reach that colour
/// alone.
pub fn areas(grid: &Grid) -> Area
    ensures black { result.black ≡ area grid.now.lines grid.now.colours Colour.Black }
    ensures white { result.white ≡ area grid.now.lines grid.now.colours Colour.White }
{
    let black_reached = reaching(grid, None, Some(Colour::Black));
    let white_reached = reaching(grid, None, Some(Colour::White));
    Area {
        black: area_of(grid, Colour::Black, &black_reached, &white_reached),
        white: area_of(grid, Colour::White, &white_reached, &black_reached),
    }
}

/// Counts a colour's area, from the empty points that reach it and those that reach the other.
fn area_of(grid: &Grid, colour: Colour, own: &Marks, theirs: &Marks) -> u16
    requires own { AreReaching grid.now.lines grid.now.colours None (Some colour) own.now }
    requires theirs { AreReaching grid.now.lines grid.now.colours None (Some (other colour))
        theirs.now }
    ensures { result ≡ area grid.now.lines grid.now.colours colour }
{
    let size = grid.size();
    let mut count = 0u16;
    for number in 0..size.points() {
        let place = usize::from(number);
        if is_area_of(
            grid,
            Point::numbered(size, number),
            colour,
            own[place],
            theirs[place],
        ) {
            count += 1;
        }
    }
    count
}

/// Whether two stones are in one chain: a path of their colour joins them.
pub fn same_chain(grid: &Grid, p: Point, q: Point) -> bool
    requires p_on { IsOn grid.now.lines p }
    requires q_on { IsOn grid.now.lines q }
    ensures { result ≡ joined grid.now.lines grid.now.colours (number_of grid.now.lines p)
        (number_of grid.now.lines q) }
{
    joined_to(grid, p)[usize::from(q.index(grid.size()))]
}

/// Whether a point is a liberty of a stone's chain: it is empty and adjacent to a stone of it.
pub fn is_liberty(grid: &Grid, p: Point, q: Point) -> bool
    requires p_on { IsOn grid.now.lines p }
    requires q_on { IsOn grid.now.lines q }
    ensures { result ≡ is_liberty_of grid.now.lines grid.now.colours (number_of grid.now.lines p)
        (number_of grid.now.lines q) }
{
    is_liberty_of_chain(grid, &joined_to(grid, p), p, q)
}

/// How many liberties the chain of a stone has.
pub fn liberties_of(grid: &Grid, p: Point) -> u16
    requires { IsOn grid.now.lines p }
    ensures { result ≡ length
        (liberties grid.now.lines grid.now.colours (number_of grid.now.lines p)) }
{
    let chain = joined_to(grid, p);
    let size = grid.size();
    let mut count = 0u16;
    for number in 0..size.points() {
        if is_liberty_of_chain(grid, &chain, p, Point::numbered(size, number)) {
            count += 1;
        }
    }
    count
}

/// Whether a point is a liberty of p's chain, whose stones are marked.
fn is_liberty_of_chain(grid: &Grid, chain: &Marks, p: Point, q: Point) -> bool
    requires p_on { IsOn grid.now.lines p }
    requires q_on { IsOn grid.now.lines q }
    requires chain { AreJoined grid.now.lines grid.now.colours (number_of grid.now.lines p)
        chain.now }
    ensures { result ≡ is_liberty_of grid.now.lines grid.now.colours (number_of grid.now.lines p)
        (number_of grid.now.lines q) }
{
    is_same(grid.get(q), None) && is_beside_chain(grid, chain, p, q)
}

/// Whether a point is adjacent to one of the marked stones of p's chain.
fn is_beside_chain(grid: &Grid, chain: &Marks, p: Point, q: Point) -> bool
    requires p_on { IsOn grid.now.lines p }
    requires q_on { IsOn grid.now.lines q }
    requires chain { AreJoined grid.now.lines grid.now.colours (number_of grid.now.lines p)
        chain.now }
    ensures { result ≡ connects grid.now.lines grid.now.colours (number_of grid.now.lines p)
        (λ r. is_adjacent grid.now.lines r (number_of grid.now.lines q)) }
{
    let size = grid.size();
    let beside = neighbours(q, size);
    for r in beside.as_slice() {
        if chain[usize::from(r.index(size))] {
            return true;
        }
    }
    false
}

/// The first point in point order whose stone doesn't reach empty.
pub fn first_dead(grid: &Grid) -> Option<Point>
    ensures found { IfSome result (IsFirstDead grid.now.lines grid.now.colours) }
    ensures none { IfNone result (AreAlive grid.now.lines grid.now.colours) }
{
    if grid.is_vacant() {
        return None;
    }
    let black = reaching(grid, Some(Colour::Black), None);
    let white = reaching(grid, Some(Colour::White), None);
    let size = grid.size();
    for number in 0..size.points() {
        let at = Point::numbered(size, number);
        let place = usize::from(number);
        if is_dead_stone(grid, at, black[place], white[place]) {
            return Some(at);
        }
    }
    None
}

/// Whether a point holds a stone that lives for neither colour.
fn is_dead_stone(grid: &Grid, at: Point, black: bool, white: bool) -> bool
    requires { IsOn grid.now.lines at }
    ensures { result ≡ (not (has_colour grid.now.colours (number_of grid.now.lines at) None)
        && not (black || white)) }
{
    grid.get(at).is_some() && !(black || white)
}
