// What a command comes to.
use khepri_terms::Path;
use khepri_types::Reply;
use tree_nodes::Changes;

/// What is answered, and what becomes of the tree.
#[derive(Drop)]
pub(crate) enum Outcome {
    /// The tree stays.
    Same(Reply),
    /// The tree becomes what a draft came to, which keeps the watches of all nodes but those at these paths.
    Changed(Reply, Changes, Vec<Path>),
}
