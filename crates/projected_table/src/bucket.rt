// The rows of one key.
ghost use Rattle.std.specs.Prelude.{◌≡◌, ◌<◌, ◌≤◌, ◌+◌, ℕ, List, length, map, slice_set, insert, IfOk, IfErr, OnOk, OnErr, IsTrue};
ghost use Rattle.std.specs.Vec.{vec_capacity};
ghost use Rattle.std.specs.List.{remove};
ghost use Rattle.std.specs.FinMap.{put, is_sorted, entries, empty, insert as with_key, remove as without_key};
ghost use Rattle.khepri_terms.specs.declared.scalar.Scalar.{Scalar};
ghost use Rattle.khepri_terms.specs.Order.{path_cmp};
ghost use Rattle.projected_table.specs.Buckets.{cell, without};

use khepri_terms::Path;
use khepri_types::Row;
use std::alloc::{AllocError, Global};
use std::cmp::Ordering;
use std::marker::Model;

// Where the row of the path stands, or where it would.
fn slot(rows: &[Row], path: &Path) -> Result<usize, usize>
    requires sorted { IsTrue (is_sorted path_cmp (map cell rows.now)) }
    ensures within { IfOk result (λ i. i < length rows.now) }
    ensures place { IfErr result (λ i. i ≤ length rows.now) }
    ensures sets { IfOk result (λ i. (v : List Scalar) → put path_cmp path.now v (map cell rows.now) ≡ slice_set (map cell rows.now) i (path.now, v)) }
    ensures goes { IfOk result (λ i. without path.now (map cell rows.now) ≡ remove (map cell rows.now) i) }
    ensures adds { IfErr result (λ i. (v : List Scalar) → put path_cmp path.now v (map cell rows.now) ≡ insert (map cell rows.now) i (path.now, v)) }
    ensures stays { IfErr result (λ i. without path.now (map cell rows.now) ≡ map cell rows.now) }
{
    let mut low = 0;
    let mut high = rows.len();
    'halves: while low < high {
        let middle = low + (high - low) / 2;
        match path.compare(&rows[middle].path) {
            Ordering::Less => high = middle,
            Ordering::Equal => return Ok(middle),
            Ordering::Greater => low = middle + 1,
        }
    }
    Err(low)
}

// A copy of rows, in their order.
fn copy_rows(alloc: Global, rows: &[Row]) -> Result<Vec<Row>, AllocError>
    ensures value { IfOk result (λ all. all.items ≡ rows.now) }
    ensures room { IfOk result (λ all. length rows.now ≤ vec_capacity all) }
{
    let mut all = Vec::with_capacity(alloc, rows.len())?;
    for row in rows {
        all.push(row.copy()?)?;
    }
    Ok(all)
}

/// The rows of one key, in order of path. `owed` is for how many more rows there is room.
#[derive(Drop)]
pub(crate) struct Bucket {
    rows: Vec<Row>,
    owed: usize,
}

impl Model for Bucket {
    ghost use Rattle.std.specs.Prelude.{◌≤◌, ◌+◌, length, map, IsTrue};
    ghost use Rattle.std.specs.Coded.{codes};
    ghost use Rattle.std.specs.FinMap.{from_sorted, is_sorted, code};
    ghost use Rattle.std.specs.Vec.{vec_capacity};
    ghost use Rattle.khepri_terms.specs.Order.{path_cmp};
    ghost use Rattle.projected_table.specs.Buckets.{Bucketed, cell};

    ghost Value = { Bucketed };

    ghost coded = { Prim.hlevel (code, codes) };

    ghost view = { λ b. record { cells = from_sorted {R = path_cmp} (map cell b.rows.items); owed = b.owed } };

    ghost invariant = { λ b. IsTrue (is_sorted path_cmp (map cell b.rows.items)) × (length b.rows.items + b.owed ≤ vec_capacity b.rows) };
}

impl Bucket {
    /// No row. It takes no memory.
    pub fn new(alloc: Global) -> Bucket
        ensures cells { result.cells ≡ empty }
        ensures owed { result.owed ≡ 0 }
    {
        Bucket {
            rows: Vec::new(alloc),
            owed: 0,
        }
    }

    /// The rows, in order of path.
    pub fn rows(&self) -> &[Row]
        ensures { map cell result.now ≡ entries self.now.cells }
    {
        self.rows.as_slice()
    }

    /// Makes room for one more row.
    pub fn claim(&mut self) -> Result<(), AllocError>
        ensures cells { self.new.cells ≡ self.old.cells }
        ensures ok { OnOk result (self.new.owed ≡ self.old.owed + 1) }
        ensures err { OnErr result (self.new.owed ≡ self.old.owed) }
    {
        let Some(owed) = self.owed.checked_add(1) else {
            return Err(AllocError);
        };
        self.rows.reserve(owed)?;
        self.owed = owed;
        Ok(())
    }

    /// Puts a row, for which there is room. It takes no memory.
    pub fn put(&mut self, row: Row)
        requires room { 0 < self.old.owed }
        ensures cells { self.new.cells ≡ with_key self.old.cells row.path row.value }
        ensures owed { self.new.owed + 1 ≡ self.old.owed }
    {
        self.owed -= 1;
        match slot(self.rows.as_slice(), &row.path) {
            Ok(at) => self.rows[at] = row,
            Err(at) => {
                let Ok(()) = self.rows.insert(at, row) else {
                    unreachable!()
                };
            }
        }
    }

    /// Drops the row of a path, if there is one. It takes no memory.
    pub fn cut(&mut self, path: &Path)
        ensures cells { self.new.cells ≡ without_key self.old.cells path.now }
        ensures owed { self.new.owed ≡ self.old.owed }
    {
        if let Ok(at) = slot(self.rows.as_slice(), path) {
            self.rows.remove(at);
        }
    }

    /// Gives up the room that was made.
    pub fn forgo(&mut self)
        ensures cells { self.new.cells ≡ self.old.cells }
        ensures owed { self.new.owed ≡ 0 }
    {
        self.owed = 0;
    }

    /// A copy with memory of its own.
    pub fn copy(&self, alloc: Global) -> Result<Bucket, AllocError>
        ensures { IfOk result (λ b. b.cells ≡ self.now.cells) }
    {
        Ok(Bucket {
            rows: copy_rows(alloc, self.rows.as_slice())?,
            owed: 0,
        })
    }
}
