//! Projections in order of name, and the row that one takes from a node.
#![tactic(auto)]

pub mod laws;
mod projections;
mod sources;

pub use projections::Projections;
pub use sources::row_of;
