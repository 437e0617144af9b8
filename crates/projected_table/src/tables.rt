// All tables.
ghost use Rattle.std.specs.Prelude.{◌≡◌, OnOk, OnErr, IsTrue, false, is_some};
ghost use Rattle.std.specs.FinMap.{empty, get, insert as with_key, remove as without_key};
ghost use Rattle.std.specs.List.{AllByRecursion};
ghost use Rattle.khepri_types.specs.Tables.{stepped, look_up, changes as all_changed};
ghost use Rattle.projected_table.specs.Buckets.{cell};
ghost use Rattle.projected_table.specs.Shelves.{AreTables, tables_of, is_row};
ghost use Rattle.std.specs.Option.{option_map};
ghost use Rattle.projected_table.specs.Reads.{cells_of};

use crate::apply::{
    add_table, apply_all, are_rows, claim_all, copy_tables, drop_table, make_all, tidy_all,
};
use crate::table::Table;
use khepri_terms::Name;
use khepri_types::{Key, Row, RowChange, RowStep, copy_changes};
use std::alloc::{AllocError, Global};
use std::collections::BTreeMap;
use std::marker::Model;

/// The tables by their names, and how many entries they are of.
#[derive(Drop)]
pub struct Tables {
    position: u64,
    tables: BTreeMap<Name, Table>,
    alloc: Global,
}

impl Model for Tables {
    ghost use Rattle.std.specs.Coded.{codes};
    ghost use Rattle.std.specs.FinMap.{code};
    ghost use Rattle.khepri_types.specs.Tables.{TablesAt};
    ghost use Rattle.projected_table.specs.Shelves.{AreTables, tables_of};

    ghost Value = { TablesAt };

    ghost coded = { Prim.hlevel (code, codes) };

    ghost view = { λ t. record { position = t.position; tables = tables_of t.tables.entries } };

    ghost invariant = { λ t. AreTables t.tables.entries };
}

impl Tables {
    /// No table, at position 0. It takes no memory.
    pub fn fresh(alloc: Global) -> Tables
        ensures { result ≡ record { position = 0; tables = empty } }
    {
        Tables {
            position: 0,
            tables: BTreeMap::new(alloc),
            alloc,
        }
    }

    /// How many entries the tables are of.
    pub fn position(&self) -> u64
        ensures { result ≡ self.now.position }
    {
        self.position
    }

    /// The rows of a look-up: a set shows the first row of the key. `None` where there is no such table. It takes no memory.
    pub fn rows(&self, name: &Name, key: &Key) -> Option<&[Row]>
        ensures { cells_of result ≡ look_up self.now.tables name.now key.now }
    {
        match self.tables.get(name) {
            None => None,
            Some(table) => Some(table.shown(key)),
        }
    }

    // Whether there is a table of the name.
    fn has(&self, name: &Name) -> bool
        ensures { result ≡ is_some (get self.now.tables name.now) }
    {
        self.tables.contains_key(name)
    }

    // The tables of a whole step.
    fn absorb_whole(&mut self, changes: &[RowChange], position: u64) -> Result<(), AllocError>
        ensures ok { OnOk result (self.new ≡ record { position = position; tables = all_changed changes.now empty }) }
        ensures err { OnErr result (self.new ≡ self.old) }
    {
        let mut tables = BTreeMap::new(self.alloc);
        make_all(self.alloc, &mut tables, changes)?;
        self.tables = tables;
        self.position = position;
        Ok(())
    }

    // Changes of rows alone: room for all of them first, then the changes with no memory.
    fn absorb_rows(&mut self, changes: Vec<RowChange>, position: u64) -> Result<(), AllocError>
        requires { AllByRecursion (λ c. IsTrue (is_row c)) changes.items }
        ensures ok { OnOk result (self.new ≡ record { position = position; tables = all_changed changes.items self.old.tables }) }
        ensures err { OnErr result (self.new ≡ self.old) }
    {
        claim_all(&mut self.tables, changes.as_slice())?;
        apply_all(&mut self.tables, changes);
        self.position = position;
        Ok(())
    }

    // A table that did not stand, and changes of rows: what takes memory comes first, and a table that was made goes again.
    fn absorb_table(
        &mut self,
        name: &Name,
        bag: bool,
        changes: Vec<RowChange>,
        position: u64,
    ) -> Result<(), AllocError>
        requires absent { is_some (get self.old.tables name.now) ≡ false }
        requires rows { AllByRecursion (λ c. IsTrue (is_row c)) changes.items }
        ensures ok { OnOk result (self.new ≡ record { position = position; tables = all_changed changes.items (with_key self.old.tables name.now (record { bag = bag; rows = empty })) }) }
        ensures err { OnErr result (self.new ≡ self.old) }
    {
        add_table(self.alloc, &mut self.tables, name, bag)?;
        if claim_all(&mut self.tables, changes.as_slice()).is_err() {
            drop_table(&mut self.tables, name);
            return Err(AllocError);
        }
        apply_all(&mut self.tables, changes);
        self.position = position;
        Ok(())
    }

    // One table goes. It takes no memory.
    fn absorb_drop(&mut self, name: &Name, position: u64)
        ensures { self.new ≡ record { position = position; tables = without_key self.old.tables name.now } }
    {
        drop_table(&mut self.tables, name);
        self.position = position;
    }

    /// The tables after a step. Where memory is wanting they are as they were. What was kept for rows that are gone is given up.
    pub fn absorb(&mut self, step: &RowStep) -> Result<(), AllocError>
        ensures ok { OnOk result (self.new ≡ stepped step.now self.old) }
        ensures err { OnErr result (self.new ≡ self.old) }
    {
        let result = self.absorb_step(step);
        self.tidy(step.changes.as_slice());
        result
    }

    // Gives up what was kept for rows that are gone.
    fn tidy(&mut self, changes: &[RowChange])
        ensures { self.new ≡ self.old }
    {
        tidy_all(&mut self.tables, changes);
    }

    // The tables after a step.
    fn absorb_step(&mut self, step: &RowStep) -> Result<(), AllocError>
        ensures ok { OnOk result (self.new ≡ stepped step.now self.old) }
        ensures err { OnErr result (self.new ≡ self.old) }
    {
        let changes = step.changes.as_slice();
        if step.whole {
            return self.absorb_whole(changes, step.position);
        }
        self.absorb_changes(changes, step.position)
    }

    // The tables after changes.
    fn absorb_changes(&mut self, changes: &[RowChange], position: u64) -> Result<(), AllocError>
        ensures ok { OnOk result (self.new ≡ record { position = position; tables = all_changed changes.now self.old.tables }) }
        ensures err { OnErr result (self.new ≡ self.old) }
    {
        if are_rows(changes) {
            return self.absorb_rows(copy_changes(self.alloc, changes)?, position);
        }
        match changes {
            [RowChange::DropTable { name }] => {
                self.absorb_drop(name, position);
                Ok(())
            }
            [RowChange::AddTable { name, bag }, rest @ ..] => {
                if !are_rows(rest) || self.has(name) {
                    return self.absorb_mixed(changes, position);
                }
                self.absorb_table(name, *bag, copy_changes(self.alloc, rest)?, position)
            }
            _ => self.absorb_mixed(changes, position),
        }
    }

    // Changes of any other form: they are made on a copy, which is then put in place.
    fn absorb_mixed(&mut self, changes: &[RowChange], position: u64) -> Result<(), AllocError>
        ensures ok { OnOk result (self.new ≡ record { position = position; tables = all_changed changes.now self.old.tables }) }
        ensures err { OnErr result (self.new ≡ self.old) }
    {
        let mut tables = copy_tables(self.alloc, &self.tables)?;
        make_all(self.alloc, &mut tables, changes)?;
        self.tables = tables;
        self.position = position;
        Ok(())
    }
}
