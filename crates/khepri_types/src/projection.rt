// Projections.
use crate::pattern::Pattern;
use khepri_terms::Name;
use sqlite_items::Items;

/// Where a scalar of a row comes from.
#[derive(Drop)]
pub enum Origin {
    /// The bytes of a name of the path, counted from 1.
    Seg(u8),
    /// A field of the payload.
    Field(Name),
    /// The payload version.
    Version,
}

/// What rows a table has: one for each node that the pattern matches and that has all sources.
#[derive(Drop)]
pub struct Projection {
    pub name: Name,
    /// Whether a look-up shows all rows of a key, or the first in order of path.
    pub bag: bool,
    pub pattern: Pattern,
    /// What a row is found by: one source to four.
    pub keys: Items<Origin>,
    /// What a row shows: up to eight sources.
    pub values: Items<Origin>,
}
