// A node and its payload.
ghost use Rattle.std.specs.Prelude.{◌≡◌, IfOk};

use crate::script::Script;
use crate::watch::Watches;
use khepri_terms::{Path, Rec};
use std::alloc::{AllocError, Global};

/// What a node carries.
#[derive(Drop)]
pub enum Payload {
    Empty,
    Fields(Rec),
    Proc(Script),
}

impl Payload {
    ghost use Rattle.khepri_types.specs.Tree.{same_payload};

    /// A copy with memory of its own.
    pub fn copy(&self, alloc: Global) -> Result<Payload, AllocError>
        ensures { IfOk result (λ p. p ≡ self.now) }
    {
        match self {
            Payload::Empty => Ok(Payload::Empty),
            Payload::Fields(rec) => Ok(Payload::Fields(rec.copy()?)),
            Payload::Proc(script) => Ok(Payload::Proc(script.copy(alloc)?)),
        }
    }

    /// Whether one may take the other's place without a new version.
    pub fn is_same(&self, other: &Payload) -> bool
        ensures { result ≡ same_payload self.now other.now }
    {
        match self {
            Payload::Empty => match other {
                Payload::Empty => true,
                Payload::Fields(_) => false,
                Payload::Proc(_) => false,
            },
            Payload::Fields(a) => match other {
                Payload::Empty => false,
                Payload::Fields(b) => a == b,
                Payload::Proc(_) => false,
            },
            Payload::Proc(a) => match other {
                Payload::Empty => false,
                Payload::Fields(_) => false,
                Payload::Proc(b) => a.is_same(b),
            },
        }
    }
}

/// A node of the tree.
#[derive(Drop)]
pub struct Node {
    pub payload: Payload,
    /// The payload version: 1 where the node was made, and one more at each payload that differs. At 2^64 - 1 it stays.
    pub pv: u64,
    /// The child-list version: 1 where the node was made, and one more at each round in which a child comes or goes. At 2^64 - 1 it stays.
    pub cv: u64,
    /// What has to hold for the node to stay. The root has none.
    pub watches: Watches,
}

/// A node with its path, as a tree is built from.
#[derive(Drop)]
pub struct NodePart {
    pub path: Path,
    pub payload: Payload,
    /// The payload version.
    pub pv: u64,
    /// The child-list version.
    pub cv: u64,
    pub watches: Watches,
}
