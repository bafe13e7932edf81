//! The board of Go: its sizes, points and colourings, paths over them, and the devices that text is
//! read from and written to.
//!
//! - [`Size`], [`Point`], [`Colour`], [`Grid`]: a board of some lines, a point of it, and the
//!   colour of each point.
//! - [`Vertex`], [`Move`]: a point or a pass, and who makes it; [`read_vertex`], [`vertex_text`]
//!   and [`column_letter`] for their words.
//! - [`plain`]: what a play leaves and who holds which points, found by floods of a whole grid. The
//!   faster bodies above have to agree with it.
//! - [`PointSet`], [`rows`], [`Packed`]: sets of points by their numbers and in words of rows, and a
//!   colouring in two bits a point.
//! - [`gains`]: what a stone that takes nothing gains, found from the points around it, and what is
//!   held with it.
//! - [`Source`], [`Sink`], [`Pen`]: where bytes come from and go to, and a text that is written in
//!   pieces.
//! - [`read_int`]: a number in decimal digits.
//!
//! A stone on the middle of a board of 9 lines:
//!
//! ```
//! let size = Size::new(9).expect(&rt, "a size");
//! let mut grid = Grid::new(size);
//! grid.set(Point { col: 4, row: 4 }, Some(Colour::Black));
//! ```
//!
//! What is promised is in the clauses of each file. Their words are in `specs/`: `Colours` and
//! `Points` say what a colouring and a point are, `Paths` and `Reaching` what reaches what and what
//! a play leaves, `PointSets` when a set has a point, `Rows` which rows mean stones and what they
//! hold, `Gains` what a stone gains, `Vertices` how a vertex is spelled, and `Device` and `Pens`
//! what a device was given.
//! `Laws` says how these words belong together. What `specs/inner/` defines serves private
//! functions alone.
#![tactic(auto)]

mod area;
mod colour;
mod decimals;
mod device;
mod flood;
pub mod gains;
mod grid;
pub mod laws;
mod meter;
mod pack;
mod pen;
pub mod plain;
mod point;
pub mod point_set;
pub mod rows;
mod seeds;
mod size;
mod taken;
mod vertex;

pub use area::Area;
pub use colour::Colour;
pub use decimals::{MAX_INT, MAX_KOMI, are_digits, read_int, value_of_digits, with_digit};
pub use device::{Failed, Sink, Source, WriteFault};
pub use grid::Grid;
pub use meter::{Meter, Open};
pub use pack::{PACK_BYTES, Packed, packed_byte};
pub use pen::{Pen, send};
pub use point::{Point, neighbours, put_neighbours};
pub use point_set::{PointSet, Points};
pub use size::{MAX_LINES, MAX_POINTS, Size};
pub use taken::Taken;
pub use vertex::{
    COLUMN_LETTERS, MAX_ROW_NUMBER, Move, Vertex, VertexError, column_letter, read_vertex,
    vertex_text,
};
