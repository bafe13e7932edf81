//! Records of games in the Smart Game Format: read, written, and the values in them.
//!
//! - [`read`], [`SgfError`]: a record from its bytes, or why they are none, and at which byte.
//! - [`check`], [`Checked`]: checks a source without memory. Calls that need a record, and no
//!   lists of its parts, take a `Checked`.
//! - [`next_tree`], [`TreeSpan`], [`tree_begin`]: where the game trees of a source are, one after
//!   another, with anything between them.
//! - [`Collection`], [`Tree`], [`Node`], [`Property`]: the parts of a record, as lists of the parts
//!   below them. Names and values are parts of the source, which isn't copied.
//! - [`MainLine`]: a cursor along a record's main line, from value to value, without lists.
//! - [`write`], [`tidy`]: the one canonical spelling, of a record that was read or of a source.
//! - [`number_of`], [`hundredths_of`], [`point_of`], [`points_of`], [`trim`]: what values say.
//! - [`points_in`], [`Rectangle`], [`Row`]: the points of one value, without a list of them.
//! - [`cook_simple`], [`cook_text`], [`escape`]: texts without and with their escapes.
//!
//! This reads a record and writes it in its canonical spelling:
//!
//! ```
//! let collection = read(rt.alloc(), b"( ;FF[4] SZ[9]; B[ee] )")?;
//! write(&collection, &mut writer)?;
//! ```
//!
//! The clauses of `reader.rt`, `checked.rt`, `writer.rt`, `game_trees.rt`, `record.rt`, `nodes.rt`,
//! `main_line.rt` and the files of values (`numbers.rt`, `hundredths.rt`, `points.rt`, `rectangle.rt` and
//! `cooking.rt`) say what is promised. Their words are in `specs/`: `Spelling` says which bytes spell a
//! record, `Record` what it is as plain data, `View` which of that each type shows, `MainLine` what is left
//! of a main line, `GameTrees` where game trees are, `Refusals` and `Stands` why a text is refused, and
//! `Numbers`, `BoardValues`, `Rectangles` and `Cooked` what values say. `Laws` has what holds of all records.
//! Only private functions use what `specs/inner/` defines.
#![tactic(auto)]

mod checked;
mod cooking;
mod error;
mod few;
mod game_trees;
mod hundredths;
mod keep;
pub mod laws;
mod limits;
mod main_line;
mod nodes;
mod numbers;
mod points;
mod reader;
mod record;
mod rectangle;
mod scan;
mod small;
mod values;
mod verbatim;
mod writer;

pub use checked::Checked;
pub use cooking::{cook_simple, cook_text, escape};
pub use error::SgfError;
pub use game_trees::{TreeSpan, next_tree, tree_begin};
pub use hundredths::hundredths_of;
pub use limits::{MAX_DEPTH, MAX_RECORD};
pub use main_line::MainLine;
pub use nodes::{Node, Property, is_named};
pub use numbers::{number_of, trim};
pub use points::{point_of, points_in, points_of};
pub use reader::{check, read};
pub use record::{Collection, Tree};
pub use rectangle::{Rectangle, Row};
pub use writer::{tidy, write};
