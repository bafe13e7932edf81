//! What several files of tests need. No test is here.
//!
//! - `tools`: runs a tool, also where a device fails or memory is refused

pub(crate) mod tools;
