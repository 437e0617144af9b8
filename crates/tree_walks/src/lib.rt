//! The changes of one command to a draft, each made of single changes of a node, and walks in order of path: over the nodes of a
//! tree, keeping the way, and from one path of a draft to the next. It knows paths, payloads and watches; it counts no steps, and
//! knows nothing of how nodes are kept.
#![tactic(auto)]

mod descent;
mod drops;
mod grow;
mod raises;
mod sweeps;
mod walk;
mod write;

pub use descent::Walk;
pub use drops::drop_all;
pub use grow::set;
pub use walk::{next_under, path_after};
pub use write::set_watches;
