// A node as conditions see it.
use crate::node::Payload;
use crate::watch::Watch;
use khepri_terms::Name;

/// A standing node, with what its place in the tree adds.
#[derive(Clone, Copy)]
pub struct NodeView<'a> {
    /// The last name of its path, none at the root.
    pub name: Option<&'a Name>,
    pub payload: &'a Payload,
    /// The payload version.
    pub pv: u64,
    /// The child-list version.
    pub cv: u64,
    /// How many child nodes it has.
    pub kids: u64,
    pub watches: &'a [Watch],
}
