/// The most bytes that a record has.
pub const MAX_RECORD: usize = 16_777_216;

/// How deep the trees of a record may be nested.
pub const MAX_DEPTH: usize = 1_000;
