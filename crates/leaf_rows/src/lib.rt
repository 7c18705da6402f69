//! Sets of leaf numbers as rows of bits, which take no memory and are compared a word at a time.
#![tactic(auto)]

mod leaf_set;

pub use leaf_set::LeafSet;

/// The words of a set that has room for each leaf that a workflow may have.
pub const LEAF_WORDS: usize = 64;
