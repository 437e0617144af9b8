// Drafts of trees.
ghost use Rattle.std.specs.Prelude.{◌≡◌, ◌+◌, ◌-◌, ◌≤◌, ◌||◌, List, [], false, IsTrue, IfOk, OnErr, OnOk, length, IfSome, Some};
ghost use Rattle.std.specs.Option.{option_copied};
ghost use Rattle.std.specs.Ordering.{is_eq};
ghost use Rattle.std.specs.FinMap.{get, len};
ghost use Rattle.khepri_terms.specs.Terms.{NameText};
ghost use Rattle.khepri_terms.specs.Order.{name_cmp, path_cmp};
ghost use Rattle.khepri_types.specs.declared.limits.TheConstants.{MAX_PATH_NAMES, MAX_WATCHES};
ghost use Rattle.khepri_terms.specs.Lengths.{capped};
ghost use Rattle.khepri_types.specs.Conditions.{seen_at};
ghost use Rattle.khepri_types.specs.Drop.{drop};
ghost use Rattle.khepri_types.specs.Exec.{pv_of};
ghost use Rattle.khepri_types.specs.Paths.{is_under};
ghost use Rattle.khepri_types.specs.Sizes.{bytes};
ghost use Rattle.khepri_types.specs.Tree.{IsTree, set, stands};
ghost use Rattle.khepri_types.specs.Views.{seen_of, node_of};
ghost use Rattle.khepri_types.specs.Watching.{given_watches};
ghost use Rattle.tree_nodes.specs.Next.{HasChild, IsNext};
ghost use Rattle.tree_nodes.specs.Drafts.{is_touched, IsCovered, IsRising, IsShallow, IsTouched, StaysTouched, Touches};

use crate::tree::Tree;
use khepri_terms::{Name, Path};
use khepri_types::{NodeView, Payload, Watches};
use std::alloc::{AllocError, Global};
use std::marker::Model;
use std::sync::ledger::Ledger;
use step_count::Steps;
use tree_walks::{drop_all, set, set_watches};

/// What a tree is to become, over the tree that it began from: the changed nodes alone. A draft may pass the limits of a tree. After
/// a call that answered `AllocError` it may only be dropped.
#[derive(Drop)]
pub struct Draft<'a> {
    base: &'a Tree,
    pub(crate) nested: tree_overlay::Draft<'a>,
}

impl<'a> Model for Draft<'a> {
    ghost use Rattle.std.specs.Prelude.{◌≡◌};
    ghost use Rattle.std.specs.Coded.{codes};
    ghost use Rattle.std.specs.FinMap.{code};
    ghost use Rattle.khepri_types.specs.contracts.condition.Condition as condition;
    ghost use Rattle.khepri_types.specs.contracts.script.Statement as statement;
    ghost use Rattle.tree_nodes.specs.Drafts.{Drafted};

    ghost Value = { Drafted };

    ghost coded = { Prim.hlevel (code, codes, condition.the_row.coded, statement.the_row.coded) };

    ghost view = { λ d. d.nested };

    ghost invariant = { λ d. d.nested.base ≡ d.base.now };
}

impl<'a> Draft<'a> {
    // A draft that is the tree itself, with nothing touched.
    pub(crate) fn over(base: &'a Tree) -> Draft<'a>
        ensures base { result.base ≡ base.now }
        ensures tree { result.tree ≡ base.now }
        ensures touched { result.touched ≡ [] }
    {
        Draft {
            base,
            nested: base.nested.draft(),
        }
    }

    /// The tree under the draft.
    pub fn base(&self) -> &Tree
        ensures { result.now ≡ self.now.base }
    {
        self.base
    }

    /// The allocator of the draft's nodes.
    pub fn alloc(&self) -> Global {
        self.nested.alloc()
    }

    /// How many nodes stand.
    pub fn nodes(&self) -> u64
        ensures count { result ≡ len self.now.tree }
        ensures tree { IsTree self.now.tree }
        ensures shallow { IsShallow self.now.tree }
    {
        self.nested.nodes()
    }

    /// The bytes of all nodes; at 2^64 - 1 and beyond, 2^64 - 1.
    pub fn bytes(&self) -> u64
        ensures { result ≡ capped (bytes self.now.tree) }
    {
        self.nested.bytes()
    }

    /// The node at a path: one step. It takes no memory.
    pub fn node<L: Ledger>(&self, path: &Path, steps: &mut Steps<L>) -> Option<NodeView>
        ensures node { seen_of result ≡ seen_at self.now.tree path.now }
        ensures watches { IfSome result (λ v. get self.now.tree path.now ≡ Some (node_of v)) }
        ensures few { IfSome result (λ v. length v.watches.now ≤ MAX_WATCHES) }
        ensures steps { steps.new ≡ steps.old + 1 }
    {
        steps.tick();
        self.nested.node(path)
    }

    /// The least name of a child of the path that comes after the other name; the least of all after none: one step. It takes no
    /// memory.
    pub fn child_after<L: Ledger>(
        &self,
        path: &Path,
        after: Option<&Name>,
        steps: &mut Steps<L>,
    ) -> Option<&Name>
        ensures next { IsNext name_cmp (HasChild self.now.tree path.now) (option_copied after.entry) (option_copied result) }
        ensures steps { steps.new ≡ steps.old + 1 }
    {
        steps.tick();
        self.nested.child_after(path, after)
    }

    /// The least touched path that comes after the other path; the least of all after none: one step. It takes no memory. A call on
    /// the draft touches each path at which it makes, drops or changes a node, its versions and watches included. Watches that are
    /// given again count as a change.
    pub fn touched_after<L: Ledger>(
        &self,
        after: Option<&Path>,
        steps: &mut Steps<L>,
    ) -> Option<&Path>
        ensures next { IsNext path_cmp (IsTouched self.now.touched) (option_copied after.entry) (option_copied result) }
        ensures covered { IsCovered self.now.base self.now.tree self.now.touched }
        ensures rising { IsRising self.now.touched }
        ensures steps { steps.new ≡ steps.old + 1 }
    {
        steps.tick();
        self.nested.touched_after(after)
    }

    /// Sets a payload at a path, with the nodes that are missing on the way; answers the payload version after that. The steps are
    /// those of the way to the path.
    pub fn set<L: Ledger>(
        &mut self,
        path: &Path,
        payload: &Payload,
        steps: &mut Steps<L>,
    ) -> Result<u64, AllocError>
        requires short { length path.now ≤ MAX_PATH_NAMES }
        ensures base { self.new.base ≡ self.old.base }
        ensures tree { OnOk result (self.new.tree ≡ set self.old.tree path.now payload.now) }
        ensures version { IfOk result (λ v. v ≡ pv_of (get self.new.tree path.now)) }
        ensures touches { OnOk result (Touches self.old.tree self.new.tree self.old.touched self.new.touched) }
        ensures stays { StaysTouched self.old.touched self.new.touched }
        ensures steps { steps.new ≡ steps.old + length path.now + 1 }
    {
        steps.add(path.len() as u64);
        steps.tick();
        set(&mut self.nested, path, payload)
    }

    /// Drops the nodes at these paths and all below them, in one round; answers how many they were. The steps are one for each path
    /// and one for each node that went.
    pub fn drop_all<L: Ledger>(
        &mut self,
        paths: &[Path],
        steps: &mut Steps<L>,
    ) -> Result<u64, AllocError>
        requires below { is_under paths.now [] ≡ false }
        ensures base { self.new.base ≡ self.old.base }
        ensures tree { OnOk result (self.new.tree ≡ drop self.old.tree paths.now) }
        ensures count { IfOk result (λ n. n ≡ len self.old.tree - len self.new.tree) }
        ensures touches { OnOk result (Touches self.old.tree self.new.tree self.old.touched self.new.touched) }
        ensures stays { StaysTouched self.old.touched self.new.touched }
        ensures steps { IfOk result (λ n. steps.new ≡ steps.old + length paths.now + n) }
        ensures idle { OnErr result (steps.new ≡ steps.old) }
    {
        let count = drop_all(&mut self.nested, paths)?;
        steps.add(paths.len() as u64);
        steps.add(count);
        Ok(count)
    }

    /// Gives the node at the path these watches in place of its own: one step.
    pub fn set_watches<L: Ledger>(
        &mut self,
        path: &Path,
        watches: &Watches,
        steps: &mut Steps<L>,
    ) -> Result<(), AllocError>
        requires stands { IsTrue (stands self.old.tree path.now) }
        ensures base { self.new.base ≡ self.old.base }
        ensures tree { OnOk result (self.new.tree ≡ given_watches self.old.tree path.now watches.now (get self.old.tree path.now)) }
        ensures touches { OnOk result ((q : List NameText) → is_touched self.new.touched q ≡ (is_eq (path_cmp path.now q) || is_touched self.old.touched q)) }
        ensures stays { StaysTouched self.old.touched self.new.touched }
        ensures steps { steps.new ≡ steps.old + 1 }
    {
        steps.tick();
        set_watches(&mut self.nested, path, watches)
    }

    /// What the draft came to, for a tree to absorb that equals the one under it. No payload is copied.
    pub fn into_changes(self) -> Changes
        ensures base { result.base ≡ self.entry.base }
        ensures tree { result.tree ≡ self.entry.tree }
        ensures touched { result.touched ≡ self.entry.touched }
        ensures rising { IsRising result.touched }
    {
        Changes {
            nested: self.nested.into_changes(),
        }
    }
}

/// What a draft came to.
#[derive(Drop)]
pub struct Changes {
    pub(crate) nested: tree_overlay::Changes,
}

impl Model for Changes {
    ghost use Rattle.std.specs.Coded.{codes};
    ghost use Rattle.std.specs.FinMap.{code};
    ghost use Rattle.khepri_types.specs.contracts.condition.Condition as condition;
    ghost use Rattle.khepri_types.specs.contracts.script.Statement as statement;
    ghost use Rattle.tree_nodes.specs.Drafts.{Drafted};

    ghost Value = { Drafted };

    ghost coded = { Prim.hlevel (code, codes, condition.the_row.coded, statement.the_row.coded) };

    ghost view = { λ c. c.nested };
}
