//! Packs on boards of all sizes: equal grids have equal packs and hashes, and one changed point changes the
//! pack.
use go_board::{Colour, Grid, Packed, Point, Size};
use std::hash::{BuildHasher, BuildHasherDefault, FoldHasher};

fn hash_of(pack: Packed) -> u64 {
    let hasher: BuildHasherDefault<FoldHasher> = BuildHasherDefault::new();
    hasher.hash_one(pack)
}

/// A colour for each point, by its number.
fn colour_for(number: u16) -> Option<Colour> {
    match number % 3 {
        0 => Some(Colour::Black),
        1 => Some(Colour::White),
        _ => None,
    }
}

/// Gives the point with this number a colour.
fn paint(grid: &mut Grid, number: u16, colour: Option<Colour>) {
    if let Some(point) = Point::nth(grid.size(), number) {
        grid.set(point, colour);
    }
}

/// The colours set from the first point to the last.
fn upward(size: Size) -> Grid {
    let mut grid = Grid::new(size);
    for number in 0..size.points() {
        paint(&mut grid, number, colour_for(number));
    }
    grid
}

/// The colours set from the last point to the first, over other stones.
fn downward(size: Size) -> Grid {
    let mut grid = Grid::new(size);
    for number in 0..size.points() {
        paint(&mut grid, number, Some(Colour::White));
    }
    for number in (0..size.points()).rev() {
        paint(&mut grid, number, colour_for(number));
    }
    grid
}

#[test]
fn equal_grids_have_equal_packs(rt: HostRuntime) {
    for lines in 1..26u8 {
        let size = Size::new(lines).expect(&rt, "a size");
        let up = upward(size).pack();
        let down = downward(size).pack();
        assert!(rt; up == down, "{lines} lines");
        assert!(rt; hash_of(up) == hash_of(down), "{lines} lines");
    }
}

#[test]
fn one_point_changes_the_pack(rt: HostRuntime) {
    for lines in 1..26u8 {
        let size = Size::new(lines).expect(&rt, "a size");
        let pack = upward(size).pack();
        for number in 0..size.points() {
            for shift in 1..3u16 {
                let mut other = upward(size);
                paint(&mut other, number, colour_for(number + shift));
                assert!(rt; other.pack() != pack, "point {number} of {lines} lines");
            }
        }
    }
}

#[test]
fn the_last_point_of_the_largest_board(rt: HostRuntime) {
    let size = Size::new(25).expect(&rt, "a size");
    let pack = downward(size).pack();
    let mut other = upward(size);
    paint(&mut other, 624, colour_for(625));
    assert!(rt; other.pack() != pack);
    assert!(rt; hash_of(other.pack()) != hash_of(pack));
    paint(&mut other, 624, colour_for(624));
    assert!(rt; other.pack() == pack);
}
