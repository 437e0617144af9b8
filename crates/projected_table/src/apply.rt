// Row changes in tables that stand: room for all of them first, and then each of them with no memory.
ghost use Rattle.std.specs.Prelude.{◌≡◌, ◌<◌, ◌++◌, ◌∷◌, [], List, IfOk, OnOk, OnErr, IsTrue};
ghost use Rattle.std.specs.List.{AllByRecursion};
ghost use Rattle.khepri_terms.specs.Terms.{NameText};
ghost use Rattle.khepri_terms.specs.declared.scalar.Scalar.{Scalar};
ghost use Rattle.khepri_types.specs.declared.row.RowChange.{RowChange as Change};
ghost use Rattle.khepri_types.specs.declared.row.RowChange.TheVariants.{AddTable, DropTable, PutRow, DropRow};
ghost use Rattle.khepri_types.specs.Tables.{change as changed, changes as all_changed};
ghost use Rattle.projected_table.specs.Shelves.{AreTables, tables_of, owed_at, stands, Room, RoomMade, RoomUsed, is_row};

use crate::table::Table;
use khepri_terms::{Name, Path};
use khepri_types::{Key, Row, RowChange};
use std::alloc::{AllocError, Global};
use std::collections::BTreeMap;

// Makes room for one more row of a key, where the table stands.
fn claim_row(tables: &mut BTreeMap<Name, Table>, name: &Name, key: &Key) -> Result<(), AllocError>
    requires tables { AreTables tables.old.entries }
    ensures tables { AreTables tables.new.entries }
    ensures value { tables_of tables.new.entries ≡ tables_of tables.old.entries }
    ensures names { (n : NameText) → stands tables.new.entries n ≡ stands tables.old.entries n }
    ensures owed { OnOk result (RoomMade tables.old.entries tables.new.entries name.now key.now) }
{
    let Some(table) = tables.get_mut(name) else {
        return Ok(());
    };
    table.claim(key)
}

// Puts a row, where the table stands. It takes no memory.
fn put_row(tables: &mut BTreeMap<Name, Table>, name: &Name, row: Row)
    requires tables { AreTables tables.old.entries }
    requires room { IsTrue (stands tables.old.entries name.now) → 0 < owed_at tables.old.entries name.now row.key }
    ensures tables { AreTables tables.new.entries }
    ensures value { tables_of tables.new.entries ≡ changed (PutRow name.now row) (tables_of tables.old.entries) }
    ensures names { (n : NameText) → stands tables.new.entries n ≡ stands tables.old.entries n }
    ensures owed { RoomUsed tables.old.entries tables.new.entries name.now row.key }
{
    let Some(table) = tables.get_mut(name) else {
        return;
    };
    table.put(row);
}

// Drops a row, where it is there. It takes no memory.
fn cut_row(tables: &mut BTreeMap<Name, Table>, name: &Name, key: &Key, path: &Path)
    requires tables { AreTables tables.old.entries }
    ensures tables { AreTables tables.new.entries }
    ensures value { tables_of tables.new.entries ≡ changed (DropRow name.now key.now path.now) (tables_of tables.old.entries) }
    ensures names { (n : NameText) → stands tables.new.entries n ≡ stands tables.old.entries n }
    ensures owed { (n : NameText) (k : List Scalar) → owed_at tables.new.entries n k ≡ owed_at tables.old.entries n k }
{
    let Some(table) = tables.get_mut(name) else {
        return;
    };
    table.cut(key, path);
}

// Makes room for what a change puts.
fn claim(tables: &mut BTreeMap<Name, Table>, change: &RowChange) -> Result<(), AllocError>
    requires tables { AreTables tables.old.entries }
    ensures tables { AreTables tables.new.entries }
    ensures value { tables_of tables.new.entries ≡ tables_of tables.old.entries }
    ensures room { OnOk result ((done : List Change) → Room tables.old.entries done → Room tables.new.entries (done ++ change.now ∷ [])) }
{
    match change {
        RowChange::PutRow { name, row } => claim_row(tables, name, &row.key),
        RowChange::AddTable { name: _, bag: _ } => Ok(()),
        RowChange::DropTable { name: _ } => Ok(()),
        RowChange::DropRow {
            name: _,
            key: _,
            path: _,
        } => Ok(()),
    }
}

/// Makes room for what the changes put. The tables stay as they are.
pub(crate) fn claim_all(
    tables: &mut BTreeMap<Name, Table>,
    changes: &[RowChange],
) -> Result<(), AllocError>
    requires tables { AreTables tables.old.entries }
    ensures tables { AreTables tables.new.entries }
    ensures value { tables_of tables.new.entries ≡ tables_of tables.old.entries }
    ensures room { OnOk result (Room tables.new.entries changes.now) }
{
    for change in changes {
        claim(tables, change)?;
    }
    Ok(())
}

// Makes one change of rows, for which there is room. It takes no memory.
fn apply(tables: &mut BTreeMap<Name, Table>, change: RowChange)
    requires row { IsTrue (is_row change) }
    requires tables { AreTables tables.old.entries }
    requires room { Room tables.old.entries (change ∷ []) }
    ensures tables { AreTables tables.new.entries }
    ensures value { tables_of tables.new.entries ≡ changed change (tables_of tables.old.entries) }
    ensures room { (rest : List Change) → Room tables.old.entries (change ∷ rest) → Room tables.new.entries rest }
{
    match change {
        RowChange::PutRow { name, row } => put_row(tables, &name, row),
        RowChange::DropRow { name, key, path } => cut_row(tables, &name, &key, &path),
        RowChange::AddTable { name: _, bag: _ } => unreachable!(),
        RowChange::DropTable { name: _ } => unreachable!(),
    }
}

/// Makes changes of rows, for which there is room. It takes no memory.
pub(crate) fn apply_all(tables: &mut BTreeMap<Name, Table>, changes: Vec<RowChange>)
    requires rows { AllByRecursion (λ c. IsTrue (is_row c)) changes.items }
    requires tables { AreTables tables.old.entries }
    requires room { Room tables.old.entries changes.items }
    ensures tables { AreTables tables.new.entries }
    ensures value { tables_of tables.new.entries ≡ all_changed changes.items (tables_of tables.old.entries) }
{
    for change in changes {
        apply(tables, change);
    }
}

// Makes any change. After `AllocError` it may be made in part.
fn make(
    alloc: Global,
    tables: &mut BTreeMap<Name, Table>,
    change: &RowChange,
) -> Result<(), AllocError>
    requires tables { AreTables tables.old.entries }
    ensures tables { AreTables tables.new.entries }
    ensures value { OnOk result (tables_of tables.new.entries ≡ changed change.now (tables_of tables.old.entries)) }
{
    match change {
        RowChange::AddTable { name, bag } => add_table(alloc, tables, name, *bag),
        RowChange::DropTable { name } => {
            drop_table(tables, name);
            Ok(())
        }
        RowChange::PutRow { name, row } => {
            claim_row(tables, name, &row.key)?;
            let row = row.copy()?;
            put_row(tables, name, row);
            Ok(())
        }
        RowChange::DropRow { name, key, path } => {
            cut_row(tables, name, key, path);
            Ok(())
        }
    }
}

// An empty table of the name.
pub(crate) fn add_table(
    alloc: Global,
    tables: &mut BTreeMap<Name, Table>,
    name: &Name,
    bag: bool,
) -> Result<(), AllocError>
    requires tables { AreTables tables.old.entries }
    ensures tables { AreTables tables.new.entries }
    ensures value { OnOk result (tables_of tables.new.entries ≡ changed (AddTable name.now bag) (tables_of tables.old.entries)) }
    ensures err { OnErr result (tables_of tables.new.entries ≡ tables_of tables.old.entries) }
{
    tables.insert(name.copy()?, Table::new(alloc, bag))?;
    Ok(())
}

// No table of the name. It takes no memory.
pub(crate) fn drop_table(tables: &mut BTreeMap<Name, Table>, name: &Name)
    requires tables { AreTables tables.old.entries }
    ensures tables { AreTables tables.new.entries }
    ensures value { tables_of tables.new.entries ≡ changed (DropTable name.now) (tables_of tables.old.entries) }
{
    tables.remove(name);
}

/// Makes all changes, one after another. After `AllocError` some may be made.
pub(crate) fn make_all(
    alloc: Global,
    tables: &mut BTreeMap<Name, Table>,
    changes: &[RowChange],
) -> Result<(), AllocError>
    requires tables { AreTables tables.old.entries }
    ensures tables { AreTables tables.new.entries }
    ensures value { OnOk result (tables_of tables.new.entries ≡ all_changed changes.now (tables_of tables.old.entries)) }
{
    'changes: for change in changes {
        make(alloc, tables, change)?;
    }
    Ok(())
}

/// Whether all changes put or drop a row.
pub(crate) fn are_rows(changes: &[RowChange]) -> bool
    ensures { IsTrue result → AllByRecursion (λ c. IsTrue (is_row c)) changes.now }
{
    'changes: for change in changes {
        match change {
            RowChange::PutRow { name: _, row: _ } => {}
            RowChange::DropRow {
                name: _,
                key: _,
                path: _,
            } => {}
            RowChange::AddTable { name: _, bag: _ } => return false,
            RowChange::DropTable { name: _ } => return false,
        }
    }
    true
}

// Takes a key of a table out where it has no row, and gives up the room that was made for rows of it.
fn tidy_key(tables: &mut BTreeMap<Name, Table>, name: &Name, key: &Key)
    requires tables { AreTables tables.old.entries }
    ensures tables { AreTables tables.new.entries }
    ensures value { tables_of tables.new.entries ≡ tables_of tables.old.entries }
{
    let Some(table) = tables.get_mut(name) else {
        return;
    };
    table.tidy(key);
}

// Tidies the key that a change puts a row to, or drops one of.
fn tidy(tables: &mut BTreeMap<Name, Table>, change: &RowChange)
    requires tables { AreTables tables.old.entries }
    ensures tables { AreTables tables.new.entries }
    ensures value { tables_of tables.new.entries ≡ tables_of tables.old.entries }
{
    match change {
        RowChange::PutRow { name, row } => tidy_key(tables, name, &row.key),
        RowChange::DropRow { name, key, path: _ } => tidy_key(tables, name, key),
        RowChange::AddTable { name: _, bag: _ } => {}
        RowChange::DropTable { name: _ } => {}
    }
}

/// Tidies each key that the changes put a row to, or drop one of, so that no memory is kept for rows that are gone. The tables stay as
/// they are.
pub(crate) fn tidy_all(tables: &mut BTreeMap<Name, Table>, changes: &[RowChange])
    requires tables { AreTables tables.old.entries }
    ensures tables { AreTables tables.new.entries }
    ensures value { tables_of tables.new.entries ≡ tables_of tables.old.entries }
{
    for change in changes {
        tidy(tables, change);
    }
}

/// A copy of the tables.
pub(crate) fn copy_tables(
    alloc: Global,
    tables: &BTreeMap<Name, Table>,
) -> Result<BTreeMap<Name, Table>, AllocError>
    requires { AreTables tables.now.entries }
    ensures tables { IfOk result (λ all. AreTables all.entries) }
    ensures value { IfOk result (λ all. tables_of all.entries ≡ tables_of tables.now.entries) }
{
    let mut all = BTreeMap::new(alloc);
    for (name, table) in tables {
        all.insert(name.copy()?, table.copy()?)?;
    }
    Ok(all)
}
