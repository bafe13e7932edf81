//! What several files of tests need. No test is here.
//!
//! - `shared_rows`: rows that several files check
//! - `sessions`: answers to single lines, without a run
//! - `resending`: a reader and a writer that send a line again after `out of memory`

pub(crate) mod resending;
pub(crate) mod sessions;
pub(crate) mod shared_rows;
