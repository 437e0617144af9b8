// Projections in order of name.
ghost use Rattle.std.specs.Prelude.{◌≡◌, ◌<◌, ◌≤◌, [], length, insert, is_ok, if◌then◌else◌, not, Some, slice_get, IfOk, IfErr, OnErr};
ghost use Rattle.std.specs.List.{remove};
ghost use Rattle.khepri_types.specs.declared.projection.Projection.{Projection as Kept};
ghost use Rattle.khepri_types.specs.Projecting.{IsInOrder, has_projection, with_projection, without_projection};

use khepri_terms::Name;
use khepri_types::Projection;
use std::alloc::{AllocError, Global};
use std::cmp::Ordering;
use std::marker::Model;

/// Projections by their names, seen as a list in order of name.
#[derive(Drop)]
pub struct Projections {
    all: Vec<Projection>,
}

impl Model for Projections {
    ghost use Rattle.std.specs.Prelude.{List};
    ghost use Rattle.std.specs.Coded.{codes};
    ghost use Rattle.khepri_types.specs.contracts.condition.Condition as condition;
    ghost use Rattle.khepri_types.specs.declared.projection.Projection.{Projection};
    ghost use Rattle.khepri_types.specs.Projecting.{IsInOrder};

    ghost Value = { List Projection };

    ghost coded = { Prim.hlevel (codes, condition.the_row.coded) };

    ghost view = { λ p. p.all.items };

    ghost invariant = { λ p. IsInOrder p.all.items };
}

// Where the projection of a name stands, or where it would.
fn place(all: &[Projection], name: &Name) -> Result<usize, usize>
    requires { IsInOrder all.now }
    ensures within { IfOk result (λ i. i < length all.now) }
    ensures place { IfErr result (λ i. i ≤ length all.now) }
    ensures there { has_projection name.now all.now ≡ is_ok result }
    ensures goes { IfOk result (λ i. without_projection name.now all.now ≡ remove all.now i) }
    ensures adds { IfErr result (λ i. (J : Kept) → J.name ≡ name.now → with_projection J all.now ≡ insert all.now i J) }
{
    let mut at = 0;
    'places: while at < all.len() {
        match name.compare(&all[at].name) {
            Ordering::Less => return Err(at),
            Ordering::Equal => return Ok(at),
            Ordering::Greater => at += 1,
        }
    }
    Err(at)
}

impl Projections {
    /// None. It takes no memory.
    pub fn fresh(alloc: Global) -> Projections
        ensures { result ≡ [] }
    {
        Projections {
            all: Vec::new(alloc),
        }
    }

    /// Adds a projection in its place, unless there is one of its name. `false` where there is.
    pub fn add(&mut self, projection: Projection) -> Result<bool, AllocError>
        ensures ok { IfOk result (λ is_new. is_new ≡ not (has_projection projection.name self.old)) }
        ensures added { IfOk result (λ is_new. self.new ≡ (if is_new then with_projection projection self.old else self.old)) }
        ensures err { OnErr result (self.new ≡ self.old) }
    {
        match place(self.all.as_slice(), &projection.name) {
            Ok(_) => Ok(false),
            Err(at) => {
                self.all.insert(at, projection)?;
                Ok(true)
            }
        }
    }

    /// Takes out the projection of a name. `false` where there is none.
    pub fn remove(&mut self, name: &Name) -> bool
        ensures there { result ≡ has_projection name.now self.old }
        ensures removed { self.new ≡ (if result then without_projection name.now self.old else self.old) }
    {
        match place(self.all.as_slice(), name) {
            Ok(at) => {
                self.all.remove(at);
                true
            }
            Err(_) => false,
        }
    }

    /// How many there are.
    pub fn len(&self) -> usize
        ensures { result ≡ length self.now }
    {
        self.all.len()
    }

    /// The i-th in order of name, counted from 0.
    pub fn at(&self, i: usize) -> &Projection
        requires { i < length self.now }
        ensures { Some result.now ≡ slice_get self.now i }
    {
        &self.all[i]
    }
}
