// Nodes as a reply lists them.
ghost use Rattle.std.specs.Prelude.{◌≡◌, [], length};

use crate::node::Payload;
use khepri_terms::Path;
use std::alloc::Global;
use std::marker::Model;

/// A node with its path.
#[derive(Drop)]
pub struct ShownNode {
    pub path: Path,
    /// The payload version.
    pub pv: u64,
    /// The child-list version.
    pub cv: u64,
    /// How many child nodes it has.
    pub kids: u64,
    pub payload: Payload,
}

/// Nodes, in the order in which a reply lists them.
#[derive(Drop)]
pub struct ShownNodes {
    items: Vec<ShownNode>,
}

impl Model for ShownNodes {
    ghost use Rattle.std.specs.Prelude.{List};
    ghost use Rattle.khepri_types.specs.declared.shown.ShownNode.{ShownNode};
    ghost use Rattle.khepri_types.specs.contracts.script.Statement as statement;
    ghost use Rattle.std.specs.Coded.{codes};

    ghost Value = { List ShownNode };

    ghost coded = { Prim.hlevel (codes, statement.the_row.coded) };

    ghost view = { λ n. n.items.items };
}

impl ShownNodes {
    /// No nodes. It takes no memory.
    pub fn none(alloc: Global) -> ShownNodes
        ensures { result ≡ [] }
    {
        ShownNodes {
            items: Vec::new(alloc),
        }
    }

    /// The nodes of a vector, in its order.
    pub fn from_vec(items: Vec<ShownNode>) -> ShownNodes
        ensures { result ≡ items.items }
    {
        ShownNodes { items }
    }

    /// The nodes, lent.
    pub fn as_slice(&self) -> &[ShownNode]
        ensures { result.now ≡ self.now }
    {
        self.items.as_slice()
    }

    /// How many there are.
    pub fn len(&self) -> usize
        ensures { result ≡ length self.now }
    {
        self.items.len()
    }
}
