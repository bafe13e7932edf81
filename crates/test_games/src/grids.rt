//! Worked examples of sizes, vertices, neighbours, captures and areas. They use a grid and the plain
//! functions on it, not the boards of `go_chains`.
ghost use Rattle.go_board.specs.Points.{IsOn};

use crate::games::size_of;
use go_board::plain::{areas, first_dead, place, same_chain};
use go_board::{
    Area, Colour, Grid, Point, Size, Taken, Vertex, VertexError, neighbours, read_vertex,
    vertex_text,
};
use std::process::Abort;

/// The point that a word names.
fn point(rt: &impl Abort, size: Size, word: &[u8]) -> Point
    ensures { IsOn size result }
{
    match read_vertex(word, size).expect(rt, "a vertex") {
        Vertex::At(point) => point,
        Vertex::Pass => panic!(rt; "a pass"),
    }
}

/// A play: its colour, the word of its point, and the stones that it takes.
type Play = (Colour, &'static [u8], Taken);

const NONE: Taken = Taken { theirs: 0, own: 0 };

/// Makes each play, and asserts how many stones it takes.
fn plays(rt: &impl Abort, grid: &mut Grid, steps: &[Play]) {
    for (number, (colour, word, taken)) in steps.iter().enumerate() {
        let at = point(rt, grid.size(), word);
        assert!(rt; place(grid, *colour, at) == *taken, "play {number}");
    }
}

/// Asserts which stone, if any, is at each of these points.
fn shows(rt: &impl Abort, grid: &Grid, colours: &[(&'static [u8], Option<Colour>)]) {
    for (number, (word, colour)) in colours.iter().enumerate() {
        let at = point(rt, grid.size(), word);
        assert!(rt; grid.get(at) == *colour, "point {number}");
    }
}

/// A number of lines, and how many points a board of that size has, if there is one.
const SIZES: &[(u8, Option<u16>)] = &[
    (0, None),
    (1, Some(1)),
    (19, Some(361)),
    (25, Some(625)),
    (26, None),
];

#[test]
fn sizes(rt: HostRuntime) {
    for (lines, points) in SIZES {
        let size = Size::new(*lines);
        assert!(rt; size.map(|size| size.points()) == *points, "{lines} lines");
    }
}

/// A word, and the vertex that it spells or why it spells none.
type Reading = (&'static [u8], Result<Vertex, VertexError>);

/// Asserts what words spell on `lines` lines.
fn reads(rt: &impl Abort, lines: u8, readings: &[Reading]) {
    let size = size_of(rt, lines);
    for (number, (word, vertex)) in readings.iter().enumerate() {
        assert!(rt; read_vertex(word, size) == *vertex, "word {number}");
    }
}

const LAST: Point = Point { col: 24, row: 24 };

const ON_THE_LARGEST_BOARD: &[Reading] = &[
    (b"z25", Ok(Vertex::At(LAST))),
    (b"Z26", Err(VertexError::Malformed)),
];

#[test]
fn the_last_point_of_the_largest_board(rt: HostRuntime) {
    let size = size_of(&rt, 25);
    assert!(rt; LAST.on(size));
    assert!(rt; !Point { col: 25, row: 24 }.on(size));
    assert!(rt; !Point { col: 24, row: 25 }.on(size));
    assert!(rt; Point::nth(size, 624) == Some(LAST));
    assert!(rt; Point::nth(size, 625).is_none());
    reads(&rt, 25, ON_THE_LARGEST_BOARD);
    reads(&rt, 24, &[(b"Z25", Err(VertexError::OffBoard))]);
    assert!(rt; vertex_text(Vertex::At(LAST)).as_str() == "Z25");
    has_neighbours(
        &rt,
        size,
        b"Z25",
        [Point { col: 24, row: 23 }, Point { col: 23, row: 24 }].as_slice(),
    );
}

const CORNER: Vertex = Vertex::At(Point { col: 0, row: 4 });

const ON_NINE_LINES: &[Reading] = &[
    (b"A05", Ok(CORNER)),
    (b"a5", Ok(CORNER)),
    (b"j9", Ok(Vertex::At(Point { col: 8, row: 8 }))),
    (b"pAsS", Ok(Vertex::Pass)),
    (b"k1", Err(VertexError::OffBoard)),
    (b"a25", Err(VertexError::OffBoard)),
    (b"t19", Err(VertexError::OffBoard)),
    (b"Z25", Err(VertexError::OffBoard)),
];

#[test]
fn vertices(rt: HostRuntime) {
    reads(&rt, 9, ON_NINE_LINES);
}

const MALFORMED: &[&[u8]] = &[
    b"", b"a", b"i5", b"I5", b"a26", b"a0", b"a00", b"5b", b"a123", b"a5b", b"a-1", b"passs",
];

#[test]
fn malformed_vertices(rt: HostRuntime) {
    for word in MALFORMED {
        reads(&rt, 9, &[(word, Err(VertexError::Malformed))]);
    }
}

/// Asserts that a vertex's text spells it.
fn reads_back(rt: &impl Abort, size: Size, vertex: Vertex) {
    let text = vertex_text(vertex);
    assert!(rt; read_vertex(text.as_str().as_bytes(), size) == Ok(vertex));
}

#[test]
fn each_vertex_reads_back(rt: HostRuntime) {
    let size = size_of(&rt, 25);
    for number in 0..size.points() {
        reads_back(&rt, size, Vertex::At(Point::numbered(size, number)));
    }
    assert!(rt; vertex_text(Vertex::Pass).as_str() == "pass");
    assert!(rt; vertex_text(Vertex::At(Point { col: 8, row: 9 })).as_str() == "J10");
    assert!(rt; vertex_text(Vertex::At(Point { col: 18, row: 18 })).as_str() == "T19");
}

/// Asserts which neighbours a point has, in order.
fn has_neighbours(rt: &impl Abort, size: Size, word: &[u8], points: &[Point]) {
    assert!(rt; neighbours(point(rt, size, word), size).as_slice() == points);
}

#[test]
fn neighbours_in_order(rt: HostRuntime) {
    let b1 = Point { col: 1, row: 0 };
    let a2 = Point { col: 0, row: 1 };
    let c2 = Point { col: 2, row: 1 };
    let b3 = Point { col: 1, row: 2 };
    let size = size_of(&rt, 3);
    has_neighbours(&rt, size, b"b2", [b1, a2, c2, b3].as_slice());
    has_neighbours(&rt, size, b"a1", [b1, a2].as_slice());
    has_neighbours(&rt, size_of(&rt, 1), b"a1", [].as_slice());
}

const CAPTURE: &[Play] = &[
    (Colour::Black, b"A1", NONE),
    (Colour::White, b"B1", NONE),
    (Colour::White, b"A2", Taken { theirs: 1, own: 0 }),
];

const CAPTURED: &[(&[u8], Option<Colour>)] = &[
    (b"A1", None),
    (b"B1", Some(Colour::White)),
    (b"A2", Some(Colour::White)),
    (b"B2", None),
];

#[test]
fn two_by_two_capture(rt: HostRuntime) {
    let mut grid = Grid::new(size_of(&rt, 2));
    plays(&rt, &mut grid, CAPTURE);
    shows(&rt, &grid, CAPTURED);
}

const SUICIDE: &[Play] = &[
    (Colour::Black, b"A1", NONE),
    (Colour::White, b"A2", NONE),
    (Colour::White, b"B2", NONE),
    (Colour::White, b"C1", NONE),
    (Colour::Black, b"B1", Taken { theirs: 0, own: 2 }),
];

const AFTER_SUICIDE: &[(&[u8], Option<Colour>)] = &[
    (b"A1", None),
    (b"B1", None),
    (b"C1", Some(Colour::White)),
];

#[test]
fn suicide_of_several(rt: HostRuntime) {
    let mut grid = Grid::new(size_of(&rt, 3));
    plays(&rt, &mut grid, SUICIDE);
    shows(&rt, &grid, AFTER_SUICIDE);
    let a2 = point(&rt, grid.size(), b"A2");
    assert!(rt; same_chain(&grid, a2, point(&rt, grid.size(), b"B2")));
    assert!(rt; !same_chain(&grid, a2, point(&rt, grid.size(), b"C1")));
}

/// Asserts how many points count for each colour.
fn has_areas(rt: &impl Abort, grid: &Grid, black: u16, white: u16) {
    assert!(rt; areas(grid) == Area { black, white });
}

#[test]
fn area_of_one_stone(rt: HostRuntime) {
    let mut grid = Grid::new(size_of(&rt, 9));
    has_areas(&rt, &grid, 0, 0);
    plays(&rt, &mut grid, &[(Colour::Black, b"E5", NONE)]);
    has_areas(&rt, &grid, 81, 0);
    assert!(rt; first_dead(&grid).is_none());
}

#[test]
fn first_of_the_dead_stones(rt: HostRuntime) {
    let mut full = Grid::new(size_of(&rt, 2));
    for word in [
        b"A1".as_slice(),
        b"B1".as_slice(),
        b"A2".as_slice(),
        b"B2".as_slice(),
    ] {
        let at = point(&rt, full.size(), word);
        full.set(at, Some(Colour::Black));
    }
    assert!(rt; first_dead(&full) == Some(Point { col: 0, row: 0 }));
}
