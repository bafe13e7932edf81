//! What the errors of boards and games say where they are shown.
use go_board::{Failed, Point, Size, VertexError, WriteFault};
use go_chains::PlaceError;
use go_game::{PlayError, SetupError};
use std::alloc::Global;
use std::fmt::Display;
use std::process::Abort;

/// Asserts the text of an error.
fn says<E: Display + Drop>(rt: &impl Abort, alloc: Global, error: E, text: &str) {
    let shown = format!(in alloc; "{error}").expect(rt, "a text");
    assert!(rt; shown.as_str() == text, "{shown}");
}

#[test]
fn each_error_says_what_it_is(rt: HostRuntime) {
    let alloc = rt.alloc();
    says(&rt, alloc, Failed, "device failed");
    says(&rt, alloc, WriteFault, "write fault");
    says(&rt, alloc, VertexError::Malformed, "not a vertex");
    says(&rt, alloc, VertexError::OffBoard, "off the board");
    says(&rt, alloc, PlaceError::Occupied, "the point is on a stone");
    says(&rt, alloc, PlaceError::Memory, "out of memory");
    says(&rt, alloc, PlayError::Occupied, "the point is on a stone");
    says(
        &rt,
        alloc,
        PlayError::OffBoard,
        "the point is off the board",
    );
    says(
        &rt,
        alloc,
        PlayError::Repeats(12),
        "the play repeats the position after 12 moves",
    );
    says(&rt, alloc, PlayError::Memory, "out of memory");
    let size = Size::of(9).expect(&rt, "a size");
    let corner = Point::nth(size, 0).expect(&rt, "a point");
    says(
        &rt,
        alloc,
        SetupError::NoLiberty(corner),
        "a chain has no liberty",
    );
    says(&rt, alloc, SetupError::Memory, "out of memory");
}
