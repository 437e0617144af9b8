// The nodes in order of path, one after another.
ghost use Rattle.std.specs.Prelude.{◌≡◌, ◌+◌, ◌≤◌, IfOk, IfSome, IsTrue, List, [], Option, Some, None, length};
ghost use Rattle.std.specs.Option.{option_copied};
ghost use Rattle.std.specs.FinMap.{get, entries};
ghost use Rattle.khepri_terms.specs.Order.{path_cmp};
ghost use Rattle.khepri_terms.specs.Terms.{NameText};
ghost use Rattle.khepri_types.specs.Conditions.{seen_at};
ghost use Rattle.khepri_types.specs.Paths.{is_front};
ghost use Rattle.khepri_types.specs.Tree.{Tree as Nodes, IsTree};
ghost use Rattle.khepri_types.specs.Views.{as_seen, node_of};
ghost use Rattle.tree_nodes.specs.Drafts.{IsShallow};
ghost use Rattle.tree_nodes.specs.Next.{ahead, ComesNext, Ends, GoesOn, GoesOnFromParent, IsNext, IsNextNode, IsUnder, path_or_root};

use crate::draft::Draft;
use crate::tree::Tree;
use khepri_terms::Path;
use khepri_types::NodeView;
use std::alloc::{AllocError, Global};
use std::marker::Model;
use std::sync::ledger::Ledger;
use step_count::Steps;
use tree_walks::{next_under, path_after};

/// Goes over the nodes of a tree in order of path: one look at each, and no search from the root.
#[derive(Drop)]
pub struct Walk<'t> {
    nested: tree_walks::Walk<'t>,
}

impl<'t> Model for Walk<'t> {
    ghost use Rattle.std.specs.Coded.{codes};
    ghost use Rattle.std.specs.FinMap.{code};
    ghost use Rattle.khepri_types.specs.contracts.condition.Condition as condition;
    ghost use Rattle.khepri_types.specs.contracts.script.Statement as statement;
    ghost use Rattle.tree_nodes.specs.Next.{Walked};

    ghost Value = { Walked };

    ghost coded = { Prim.hlevel (code, codes, condition.the_row.coded, statement.the_row.coded) };

    ghost view = { λ w. w.nested };
}

impl Tree {
    /// A walk over all nodes, which comes to the root first. Here alone it takes memory.
    pub fn walk(&self) -> Result<Walk, AllocError>
        ensures tree { IfOk result (λ w. w.tree ≡ self.now) }
        ensures begins { IfOk result (λ w. w.last ≡ None) }
    {
        let nested = tree_walks::Walk::over(&self.nested)?;
        Ok(Walk { nested })
    }
}

impl<'t> Walk<'t> {
    /// How many names the path has to which the walk has come.
    pub fn len(&self) -> usize
        ensures len { result ≡ length (path_or_root self.now.last) }
        ensures tree { IsTree self.now.tree }
        ensures shallow { IsShallow self.now.tree }
    {
        self.nested.len()
    }

    /// The path to which the walk has come; before the first node the root.
    pub fn path(&self, alloc: Global) -> Result<Path, AllocError>
        ensures { IfOk result (λ p. p ≡ path_or_root self.now.last) }
    {
        self.nested.path(alloc)
    }

    /// Goes on to the node that comes next: one step, and none where no node is left.
    pub fn next<L: Ledger>(&mut self, steps: &mut Steps<L>) -> Option<NodeView<'t>>
        ensures tree { self.new.tree ≡ self.old.tree }
        ensures next { IfSome result (λ v. GoesOn self.old.tree self.old.last self.new.last) }
        ensures node { IfSome result (λ v. Some (as_seen v) ≡ seen_at self.old.tree (path_or_root self.new.last)) }
        ensures watches { IfSome result (λ v. get self.old.tree (path_or_root self.new.last) ≡ Some (node_of v)) }
        ensures ends { result ≡ None → Ends self.old.tree self.old.last }
        ensures stays { result ≡ None → self.new ≡ self.old }
        ensures steps { IfSome result (λ v. steps.new ≡ steps.old + 1) }
        ensures idle { result ≡ None → steps.new ≡ steps.old }
    {
        let Some(node) = self.nested.next() else {
            return None;
        };
        steps.tick();
        Some(node)
    }
}

impl<'a> Draft<'a> {
    /// The least path of a node that comes after the other path; the least of all after none: one step.
    pub fn path_after<L: Ledger>(
        &self,
        after: Option<&Path>,
        steps: &mut Steps<L>,
    ) -> Result<Option<Path>, AllocError>
        ensures next { IfOk result (λ o. IsNextNode self.now.tree (option_copied after.entry) o) }
        ensures steps { steps.new ≡ steps.old + 1 }
    {
        steps.tick();
        path_after(&self.nested, after)
    }

    /// The least path of a node at or below the top that comes after this one, which is at or below it too: one step. It looks at no
    /// node beside or above the top.
    pub fn next_under<L: Ledger>(
        &self,
        top: &Path,
        at: &Path,
        steps: &mut Steps<L>,
    ) -> Result<Option<Path>, AllocError>
        requires under { IsTrue (is_front top.now at.now) }
        ensures next { IfOk result (λ o. IsNext path_cmp (IsUnder self.now.tree top.now) (Some at.now) o) }
        ensures steps { steps.new ≡ steps.old + 1 }
    {
        steps.tick();
        next_under(&self.nested, top, at)
    }
}

/// To go on from none by the path that comes next is to go over all nodes in order of path: before the first step all are ahead, a
/// step takes the first of those that are ahead, and where no path comes next none is. The first is the root, and the parent of each
/// later one is a front of the path before it.
pub fn walks_go_over_all()
    ensures begins { (T : Nodes) → ahead T None ≡ entries T }
    ensures goes_on { (T : Nodes) (after : Option (List NameText)) (x : List NameText) → IsNextNode T after (Some x) → ComesNext T after x }
    ensures ends { (T : Nodes) (after : Option (List NameText)) → IsNextNode T after None → ahead T after ≡ [] }
    ensures root { (T : Nodes) (x : List NameText) → IsTree T → IsNextNode T None (Some x) → x ≡ [] }
    ensures parent { (T : Nodes) (a x p : List NameText) → IsTree T → GoesOnFromParent T a x p }
{}
