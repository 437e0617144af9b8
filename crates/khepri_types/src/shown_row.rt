// Rows as a read shows them.
use crate::key::Key;
use khepri_terms::Path;

/// A row that was asked for: the key is not shown.
#[derive(Drop)]
pub struct ShownRow {
    /// The path of the node that the row was taken from.
    pub path: Path,
    pub value: Key,
}
