// One table.
ghost use Rattle.std.specs.Prelude.{◌≡◌, ◌<◌, ◌+◌, [], List, map, cond, IfOk, OnOk, IsTrue, is_some, None};
ghost use Rattle.std.specs.Ordering.{eq_by_cmp};
ghost use Rattle.std.specs.FinMap.{find, entries, empty, insert as with_key, remove as without_key};
ghost use Rattle.khepri_terms.specs.declared.scalar.Scalar.{Scalar};
ghost use Rattle.khepri_types.specs.Keys.{key_cmp};
ghost use Rattle.khepri_types.specs.Tables.{rows_at, shown_of};
ghost use Rattle.projected_table.specs.Buckets.{cell};
ghost use Rattle.projected_table.specs.Spreads.{IsTable, table_of, owed_in};

use crate::bucket::Bucket;
use khepri_terms::Path;
use khepri_types::{Key, Row};
use std::alloc::{AllocError, Global};
use std::collections::BTreeMap;

/// The rows of a table by their keys. A key may have no row.
#[derive(Drop)]
pub(crate) struct Table {
    pub(crate) bag: bool,
    pub(crate) rows: BTreeMap<Key, Bucket>,
    pub(crate) alloc: Global,
}

impl Table {
    /// A table with no row. It takes no memory.
    pub fn new(alloc: Global, bag: bool) -> Table
        ensures value { table_of result ≡ record { bag = bag; rows = empty } }
        ensures table { IsTable result }
    {
        Table {
            bag,
            rows: BTreeMap::new(alloc),
            alloc,
        }
    }

    /// The rows of a key, in order of path: a search.
    pub fn rows(&self, key: &Key) -> &[Row]
        requires { IsTable self.now }
        ensures { map cell result.now ≡ rows_at key.now (entries (table_of self.now).rows) }
    {
        match self.rows.get(key) {
            Some(bucket) => bucket.rows(),
            None => &[],
        }
    }

    /// The rows of a look-up: a bag shows all rows of the key, a set the first.
    pub fn shown(&self, key: &Key) -> &[Row]
        requires { IsTable self.now }
        ensures { map cell result.now ≡ shown_of self.now.bag (rows_at key.now (entries (table_of self.now).rows)) }
    {
        let rows = self.rows(key);
        if self.bag {
            return rows;
        }
        match rows {
            [] => rows,
            [_, ..] => rows.split_at(1).0,
        }
    }

    // Opens a key: it has no row then, if it had none.
    fn open(&mut self, key: &Key) -> Result<(), AllocError>
        requires table { IsTable self.old }
        ensures table { IsTable self.new }
        ensures value { table_of self.new ≡ table_of self.old }
        ensures there { OnOk result (IsTrue (is_some (find key_cmp key.now self.new.rows.entries))) }
        ensures owed { (k : List Scalar) → owed_in self.new.rows.entries k ≡ owed_in self.old.rows.entries k }
    {
        if self.rows.contains_key(key) {
            return Ok(());
        }
        self.rows.insert(key.copy()?, Bucket::new(self.alloc))?;
        Ok(())
    }

    /// Makes room for one more row of a key.
    pub fn claim(&mut self, key: &Key) -> Result<(), AllocError>
        requires table { IsTable self.old }
        ensures table { IsTable self.new }
        ensures value { table_of self.new ≡ table_of self.old }
        ensures ok { OnOk result ((k : List Scalar) → owed_in self.new.rows.entries k ≡ owed_in self.old.rows.entries k + cond (eq_by_cmp key_cmp k key.now) 1 0) }
    {
        self.open(key)?;
        let Some(bucket) = self.rows.get_mut(key) else {
            unreachable!()
        };
        bucket.claim()
    }

    /// Puts a row, for which there is room. It takes no memory.
    pub fn put(&mut self, row: Row)
        requires table { IsTable self.old }
        requires room { 0 < owed_in self.old.rows.entries row.key }
        ensures table { IsTable self.new }
        ensures value { table_of self.new ≡ record { bag = self.old.bag; rows = with_key (table_of self.old).rows (row.key, row.path) row.value } }
        ensures owed { (k : List Scalar) → owed_in self.new.rows.entries k + cond (eq_by_cmp key_cmp k row.key) 1 0 ≡ owed_in self.old.rows.entries k }
    {
        let Some(bucket) = self.rows.get_mut(&row.key) else {
            unreachable!()
        };
        bucket.put(row);
    }

    /// Drops a row, if it is there. It takes no memory.
    pub fn cut(&mut self, key: &Key, path: &Path)
        requires table { IsTable self.old }
        ensures table { IsTable self.new }
        ensures value { table_of self.new ≡ record { bag = self.old.bag; rows = without_key (table_of self.old).rows (key.now, path.now) } }
        ensures owed { (k : List Scalar) → owed_in self.new.rows.entries k ≡ owed_in self.old.rows.entries k }
    {
        if let Some(bucket) = self.rows.get_mut(key) {
            bucket.cut(path);
        }
    }

    /// Takes the key out where it has no row, and gives up the room that was made for rows of it. It takes no memory.
    pub fn tidy(&mut self, key: &Key)
        requires table { IsTable self.old }
        ensures table { IsTable self.new }
        ensures value { table_of self.new ≡ table_of self.old }
        ensures room { owed_in self.new.rows.entries key.now ≡ 0 }
        ensures bare { rows_at key.now (entries (table_of self.old).rows) ≡ [] → find key_cmp key.now self.new.rows.entries ≡ None }
    {
        if self.rows(key).len() == 0 {
            self.rows.remove(key);
            return;
        }
        if let Some(bucket) = self.rows.get_mut(key) {
            bucket.forgo();
        }
    }

    /// A copy with memory of its own.
    pub fn copy(&self) -> Result<Table, AllocError>
        requires { IsTable self.now }
        ensures table { IfOk result (λ t. IsTable t) }
        ensures value { IfOk result (λ t. table_of t ≡ table_of self.now) }
    {
        let mut rows = BTreeMap::new(self.alloc);
        for (key, bucket) in &self.rows {
            rows.insert(key.copy()?, bucket.copy(self.alloc)?)?;
        }
        Ok(Table {
            bag: self.bag,
            rows,
            alloc: self.alloc,
        })
    }
}
