// What a node watches.
ghost use Rattle.std.specs.Prelude.{◌≡◌, ◌↔◌, ◌≤◌, [], length, IfOk, IfSome, IsTrue, is_some};
ghost use Rattle.khepri_types.specs.declared.limits.TheConstants.{MAX_WATCHES};

use crate::condition::Condition;
use crate::limits::MAX_WATCHES;
use khepri_terms::Path;
use std::alloc::{AllocError, Global};
use std::marker::Model;

/// A path, and what has to hold there for the node that has the watch to stay.
#[derive(Drop)]
pub struct Watch {
    pub target: Path,
    pub cond: Condition,
}

impl Watch {
    /// A copy with memory of its own.
    pub fn copy(&self, alloc: Global) -> Result<Watch, AllocError>
        ensures { IfOk result (λ w. w ≡ self.now) }
    {
        Ok(Watch {
            target: self.target.copy()?,
            cond: self.cond.copy(alloc)?,
        })
    }
}

/// The watches of a node, in the order in which they were given: at most 16.
#[derive(Drop)]
pub struct Watches {
    items: Vec<Watch>,
}

impl Model for Watches {
    ghost use Rattle.std.specs.Prelude.{◌≤◌, List, length};
    ghost use Rattle.std.specs.Coded.{codes};
    ghost use Rattle.khepri_types.specs.declared.limits.TheConstants.{MAX_WATCHES};
    ghost use Rattle.khepri_types.specs.declared.watch.Watch.{Watch};
    ghost use Rattle.khepri_types.specs.contracts.condition.Condition as condition;

    ghost Value = { List Watch };

    ghost coded = { Prim.hlevel (codes, condition.the_row.coded) };

    ghost view = { λ w. w.items.items };

    ghost invariant = { λ w. length w.items.items ≤ MAX_WATCHES };
}

impl Watches {
    /// No watches. It takes no memory.
    pub fn none(alloc: Global) -> Watches
        ensures { result ≡ [] }
    {
        Watches {
            items: Vec::new(alloc),
        }
    }

    /// These watches, unless they are more than a node may have.
    pub fn from_vec(items: Vec<Watch>) -> Option<Watches>
        ensures value { IfSome result (λ w. w ≡ items.items) }
        ensures few { IsTrue (is_some result) ↔ (length items.items ≤ MAX_WATCHES) }
    {
        if items.len() > MAX_WATCHES {
            return None;
        }
        Some(Watches { items })
    }

    /// The watches, in the order in which they were given.
    pub fn as_slice(&self) -> &[Watch]
        ensures value { result.now ≡ self.now }
        ensures few { length self.now ≤ MAX_WATCHES }
    {
        self.items.as_slice()
    }

    /// How many there are.
    pub fn len(&self) -> usize
        ensures { result ≡ length self.now }
    {
        self.items.len()
    }

    /// A copy with memory of its own.
    pub fn copy(&self, alloc: Global) -> Result<Watches, AllocError>
        ensures { IfOk result (λ w. w ≡ self.now) }
    {
        Ok(Watches {
            items: copies(alloc, self.as_slice())?,
        })
    }
}

fn copies(alloc: Global, watches: &[Watch]) -> Result<Vec<Watch>, AllocError>
    ensures { IfOk result (λ all. all.items ≡ watches.now) }
{
    let mut all = Vec::new(alloc);
    for watch in watches {
        all.push(watch.copy(alloc)?)?;
    }
    Ok(all)
}

/// What a command says of the watches of the node that it writes.
#[derive(Drop)]
pub enum Watching {
    /// Nothing: the node keeps its watches.
    Stay,
    /// The node has no watches then.
    Free,
    /// The node has these watches then.
    While(Watches),
}
