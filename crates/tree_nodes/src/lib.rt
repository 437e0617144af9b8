//! The tree of nodes, and drafts of what it is to become. A tree is seen as a map from paths to nodes, of which the root stands and
//! with each path all its fronts; a draft is seen as the tree it began from, the tree it is now, and the paths that were touched.
//! Each read of a node through this crate counts a step. It knows paths, payloads and watches; it knows nothing of
//! commands, of limits, or of when a watch is met.
#![tactic(auto)]

mod draft;
mod parts;
mod tree;
mod walk;

pub use draft::{Changes, Draft};
pub use tree::Tree;
pub use walk::Walk;
