//! Matching a path against a pattern on the way down a tree. A mask keeps how many parts of a pattern may have taken the names
//! so far, and each node on the way gives the next mask. The crate sees patterns and one node at a time; it knows nothing of how
//! a tree is kept. No memory is taken.
#![tactic(auto)]

mod mask;
mod path;

pub use mask::Mask;
pub use path::MaskPath;
