// Rows, and the changes that lead from tables to tables.
ghost use Rattle.std.specs.Prelude.{◌≡◌, IfOk};

use crate::key::Key;
use khepri_terms::{Name, Path};
use sqlite_items::Items;
use std::alloc::{AllocError, Global};

/// A row of a table.
#[derive(Drop)]
pub struct Row {
    pub path: Path,
    pub key: Key,
    pub value: Key,
}

impl Row {
    /// A copy with memory of its own.
    pub fn copy(&self) -> Result<Row, AllocError>
        ensures { IfOk result (λ r. r ≡ self.now) }
    {
        Ok(Row {
            path: self.path.copy()?,
            key: self.key.copy()?,
            value: self.value.copy()?,
        })
    }
}

/// A change of one table. One that names no table, or drops what is not there, changes nothing.
#[derive(Drop)]
pub enum RowChange {
    /// The table is made, and emptied where it stood.
    AddTable { name: Name, bag: bool },
    DropTable { name: Name },
    /// A row of the same key and path is replaced.
    PutRow { name: Name, row: Row },
    DropRow { name: Name, key: Key, path: Path },
}

impl RowChange {
    /// A copy with memory of its own.
    pub fn copy(&self) -> Result<RowChange, AllocError>
        ensures { IfOk result (λ c. c ≡ self.now) }
    {
        match self {
            RowChange::AddTable { name, bag } => Ok(RowChange::AddTable {
                name: name.copy()?,
                bag: *bag,
            }),
            RowChange::DropTable { name } => Ok(RowChange::DropTable { name: name.copy()? }),
            RowChange::PutRow { name, row } => Ok(RowChange::PutRow {
                name: name.copy()?,
                row: row.copy()?,
            }),
            RowChange::DropRow { name, key, path } => Ok(RowChange::DropRow {
                name: name.copy()?,
                key: key.copy()?,
                path: path.copy()?,
            }),
        }
    }
}

/// What an entry changes in the tables.
#[derive(Drop)]
pub struct RowStep {
    /// How many entries the tables are then of.
    pub position: u64,
    pub changes: Items<RowChange>,
    /// Whether the tables are emptied first.
    pub whole: bool,
}

/// A copy of changes, in their order.
pub fn copy_changes(alloc: Global, changes: &[RowChange]) -> Result<Vec<RowChange>, AllocError>
    ensures { IfOk result (λ v. v.items ≡ changes.now) }
{
    let mut copy = Vec::with_capacity(alloc, changes.len())?;
    for change in changes {
        copy.push(change.copy()?)?;
    }
    Ok(copy)
}
