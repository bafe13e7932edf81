//! An allocator for tests, [`Refusing`], which refuses one request, chosen by its number, or each request
//! that doesn't fit into what is left of a number of bytes.
#![tactic(auto)]

mod refusing;

pub use refusing::Refusing;
