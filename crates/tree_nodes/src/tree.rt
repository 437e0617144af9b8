// The tree.
ghost use Rattle.std.specs.Prelude.{◌≡◌, ◌+◌, ◌≤◌, IfOk, OnOk, IfSome, IsTrue, [], length, map, Some};
ghost use Rattle.std.specs.Option.{option_copied};
ghost use Rattle.std.specs.FinMap.{get, is_sorted, len};
ghost use Rattle.khepri_terms.specs.Order.{name_cmp, path_cmp};
ghost use Rattle.khepri_terms.specs.Lengths.{capped};
ghost use Rattle.khepri_types.specs.declared.limits.TheConstants.{MAX_WATCHES};
ghost use Rattle.khepri_types.specs.Conditions.{seen_at};
ghost use Rattle.khepri_types.specs.Sizes.{bytes};
ghost use Rattle.khepri_types.specs.Tree.{IsTree, opening_tree};
ghost use Rattle.khepri_types.specs.Views.{seen_of, node_of};
ghost use Rattle.tree_nodes.specs.Drafts.{IsShallow};
ghost use Rattle.tree_nodes.specs.Next.{HasChild, IsNext};
ghost use Rattle.tree_nodes.specs.Parts.{entry_of, tree_of};

use crate::draft::{Changes, Draft};
use crate::parts::changes_of;
use khepri_terms::{Name, Path};
use khepri_types::{NodePart, NodeView};
use std::alloc::{AllocError, Global};
use std::marker::Model;
use std::sync::ledger::Ledger;
use step_count::Steps;

/// The nodes by their paths. The root stands, with each path all its fronts, and no path has more than 32 names.
#[derive(Drop)]
pub struct Tree {
    pub(crate) nested: tree_overlay::Tree,
}

impl Model for Tree {
    ghost use Rattle.std.specs.Coded.{codes};
    ghost use Rattle.std.specs.FinMap.{code};
    ghost use Rattle.khepri_types.specs.contracts.condition.Condition as condition;
    ghost use Rattle.khepri_types.specs.contracts.script.Statement as statement;
    ghost use Rattle.khepri_types.specs.Tree.{Tree as Nodes};

    ghost Value = { Nodes };

    ghost coded = { Prim.hlevel (code, codes, condition.the_row.coded, statement.the_row.coded) };

    ghost view = { λ t. t.nested };
}

impl Tree {
    /// The root alone, with no payload.
    pub fn fresh(alloc: Global) -> Result<Tree, AllocError>
        ensures { IfOk result (λ t. t ≡ opening_tree) }
    {
        Ok(Tree {
            nested: tree_overlay::Tree::fresh(alloc),
        })
    }

    /// The tree of these nodes. They come in strictly rising order of path, the root and all fronts among them, and none has more
    /// than 32 names.
    pub fn of(alloc: Global, nodes: &[NodePart]) -> Result<Tree, AllocError>
        requires sorted { IsTrue (is_sorted path_cmp (map entry_of nodes.now)) }
        requires tree { IsTree (tree_of nodes.now) }
        requires shallow { IsShallow (tree_of nodes.now) }
        ensures { IfOk result (λ t. t ≡ tree_of nodes.now) }
    {
        let mut nested = tree_overlay::Tree::fresh(alloc);
        let changes = changes_of(&nested, nodes)?;
        nested.absorb(changes)?;
        Ok(Tree { nested })
    }

    /// How many nodes stand.
    pub fn nodes(&self) -> u64
        ensures count { result ≡ len self.now }
        ensures tree { IsTree self.now }
        ensures shallow { IsShallow self.now }
    {
        self.nested.nodes()
    }

    /// The bytes of all nodes; at 2^64 - 1 and beyond, 2^64 - 1.
    pub fn bytes(&self) -> u64
        ensures { result ≡ capped (bytes self.now) }
    {
        self.nested.bytes()
    }

    /// The node at a path: one step. It takes no memory.
    pub fn node<L: Ledger>(&self, path: &Path, steps: &mut Steps<L>) -> Option<NodeView>
        ensures node { seen_of result ≡ seen_at self.now path.now }
        ensures watches { IfSome result (λ v. get self.now path.now ≡ Some (node_of v)) }
        ensures few { IfSome result (λ v. length v.watches.now ≤ MAX_WATCHES) }
        ensures steps { steps.new ≡ steps.old + 1 }
    {
        steps.tick();
        self.nested.node(path)
    }

    /// The least name of a child of the path that comes after the other name; the least of all after none: one step. It takes no
    /// memory.
    pub fn child_after<L: Ledger>(
        &self,
        path: &Path,
        after: Option<&Name>,
        steps: &mut Steps<L>,
    ) -> Option<&Name>
        ensures next { IsNext name_cmp (HasChild self.now path.now) (option_copied after.entry) (option_copied result) }
        ensures steps { steps.new ≡ steps.old + 1 }
    {
        steps.tick();
        self.nested.child_after(path, after)
    }

    /// A draft of what the tree is to become. It takes no memory.
    pub fn draft(&self) -> Draft
        ensures base { result.base ≡ self.now }
        ensures tree { result.tree ≡ self.now }
        ensures touched { result.touched ≡ [] }
    {
        Draft::over(self)
    }

    /// The tree becomes what the draft came to from which the changes are: a step for each touched path. No payload is copied. After
    /// `AllocError` the tree may only be dropped.
    pub fn absorb<L: Ledger>(
        &mut self,
        changes: Changes,
        steps: &mut Steps<L>,
    ) -> Result<(), AllocError>
        requires same { self.old ≡ changes.base }
        ensures tree { OnOk result (self.new ≡ changes.tree) }
        ensures steps { steps.new ≡ steps.old + length changes.touched }
    {
        steps.add(changes.nested.touched());
        self.nested.absorb(changes.nested)
    }
}
