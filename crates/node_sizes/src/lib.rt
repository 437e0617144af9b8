//! What a node measures, how it is copied, and how it is shown: the bytes that it counts for, copies with memory of their own, and
//! the view of it that conditions see. It knows one node and its path; it knows nothing of trees.
#![tactic(auto)]

mod copies;
mod sizes;
mod views;

pub use copies::{fresh_node, part_node, raised_node, watched_node, written_node};
pub use sizes::{grown, node_len};
pub use views::shown;
