// The tree.
ghost use Rattle.std.specs.Prelude.{◌≡◌, ◌≤◌, OnOk, IsTrue, [], Some, IfSome, length};
ghost use Rattle.std.specs.Option.{option_copied};
ghost use Rattle.std.specs.FinMap.{from_sorted, get, len};
ghost use Rattle.khepri_terms.specs.Lengths.{capped};
ghost use Rattle.khepri_terms.specs.Order.{name_cmp, path_cmp};
ghost use Rattle.khepri_types.specs.declared.limits.TheConstants.{MAX_WATCHES};
ghost use Rattle.khepri_types.specs.Conditions.{seen_at};
ghost use Rattle.khepri_types.specs.Sizes.{bytes, kids};
ghost use Rattle.khepri_types.specs.Tree.{IsTree, opening_tree};
ghost use Rattle.khepri_types.specs.Views.{seen_of, node_of};
ghost use Rattle.nested_nodes.specs.Nests.{IsNest};
ghost use Rattle.nested_nodes.specs.Next.{IsNext};
ghost use Rattle.tree_overlay.specs.Kept.{IsKept};
ghost use Rattle.tree_overlay.specs.Over.{HasChild, IsShallow};

use crate::apply::{apply, empty};
use crate::draft::{Changes, Draft};
use khepri_terms::{Name, Path};
use khepri_types::NodeView;
use nested_nodes::Nest;
use node_sizes::shown;
use std::alloc::{AllocError, Global};
use std::marker::Model;

// The bytes of a root with no payload, which is spelled `-`.
const OPENING_BYTES: u64 = 1;

/// The nodes by their paths, each of at most 32 names. The root owns them all.
#[derive(Drop)]
pub struct Tree {
    pub(crate) root: Nest,
    nodes: u64,
    bytes: u64,
    pub(crate) alloc: Global,
}

impl Model for Tree {
    ghost use Rattle.std.specs.Prelude.{◌≡◌, length};
    ghost use Rattle.std.specs.Coded.{codes};
    ghost use Rattle.std.specs.FinMap.{from_sorted, code};
    ghost use Rattle.khepri_terms.specs.Order.{name_cmp, path_cmp};
    ghost use Rattle.khepri_types.specs.contracts.condition.Condition as condition;
    ghost use Rattle.khepri_types.specs.contracts.script.Statement as statement;
    ghost use Rattle.khepri_types.specs.Tree.{Tree as Nodes};
    ghost use Rattle.khepri_types.specs.Sizes.{bytes as tree_bytes};
    ghost use Rattle.nested_nodes.specs.Nests.{IsNest};
    ghost use Rattle.tree_overlay.specs.Over.{IsShallow};

    ghost Value = { Nodes };

    ghost coded = { Prim.hlevel (code, codes, condition.the_row.coded, statement.the_row.coded) };

    ghost view = { λ t. from_sorted {R = path_cmp} t.root };

    ghost invariant = { λ t. IsNest name_cmp t.root × (t.nodes ≡ length t.root) × (t.bytes ≡ tree_bytes (from_sorted {R = path_cmp} t.root)) × IsShallow (from_sorted {R = path_cmp} t.root) };
}

impl Tree {
    /// The root alone, with no payload. It takes no memory.
    pub fn fresh(alloc: Global) -> Tree
        ensures { result ≡ opening_tree }
    {
        Tree {
            root: empty(alloc),
            nodes: 1,
            bytes: OPENING_BYTES,
            alloc,
        }
    }

    /// How many nodes stand.
    pub fn nodes(&self) -> u64
        ensures count { result ≡ len self.now }
        ensures tree { IsTree self.now }
        ensures shallow { IsShallow self.now }
    {
        self.nodes
    }

    /// The bytes of all nodes.
    pub fn bytes(&self) -> u64
        ensures exact { result ≡ bytes self.now }
        ensures capped { result ≡ capped (bytes self.now) }
    {
        self.bytes
    }

    /// The root with all below it, for walks that go down.
    pub fn root(&self) -> &Nest
        ensures nest { IsNest name_cmp result.now }
        ensures tree { from_sorted {R = path_cmp} result.now ≡ self.now }
        ensures shallow { IsShallow self.now }
    {
        &self.root
    }

    /// The allocator of the nodes.
    pub fn alloc(&self) -> Global {
        self.alloc
    }

    /// The node at a path: a search for each name. It takes no memory.
    pub fn node(&self, path: &Path) -> Option<NodeView>
        ensures node { seen_of result ≡ seen_at self.now path.now }
        ensures watches { IfSome result (λ v. get self.now path.now ≡ Some (node_of v)) }
        ensures few { IfSome result (λ v. length v.watches.now ≤ MAX_WATCHES) }
    {
        let Some((last, above)) = path.names().split_last() else {
            return Some(shown(None, self.root.node(), self.root.kids()));
        };
        let Some(parent) = self.root.seek(above) else {
            return None;
        };
        let Some((name, nest)) = parent.kid(last) else {
            return None;
        };
        Some(shown(Some(name), nest.node(), nest.kids()))
    }

    // The node at a path with all below it: a search for each name.
    pub(crate) fn seek(&self, path: &Path) -> Option<&Nest>
        ensures { IsKept self.now path.now (option_copied result) }
    {
        match self.root.seek(path.names()) {
            None => None,
            Some(nest) => Some(nest),
        }
    }

    /// The least name of a child of the path that comes after the other name; the least of all after none.
    pub fn child_after(&self, path: &Path, after: Option<&Name>) -> Option<&Name>
        ensures { IsNext name_cmp (HasChild self.now path.now) (option_copied after.entry) (option_copied result) }
    {
        match self.root.seek(path.names()) {
            None => None,
            Some(nest) => match nest.next_kid(after) {
                Some((name, _)) => Some(name),
                None => None,
            },
        }
    }

    /// How many children of the path stand.
    pub fn kids(&self, path: &Path) -> u64
        ensures { result ≡ kids self.now path.now }
    {
        match self.root.seek(path.names()) {
            None => 0,
            Some(nest) => nest.kids(),
        }
    }

    /// A draft of what the tree is to become. It takes no memory.
    pub fn draft(&self) -> Draft
        ensures base { result.base ≡ self.now }
        ensures tree { result.tree ≡ self.now }
        ensures touched { result.touched ≡ [] }
    {
        Draft::over(self)
    }

    /// The tree becomes what the draft came to from which the changes are, in the time of the changed paths. After `AllocError` it
    /// may only be dropped.
    pub fn absorb(&mut self, changes: Changes) -> Result<(), AllocError>
        requires same { self.old ≡ changes.base }
        ensures tree { OnOk result (self.new ≡ changes.tree) }
    {
        let Changes {
            base: _,
            changed,
            nodes,
            bytes,
        } = changes;
        if apply(self.alloc, &mut self.root, changed).is_err() {
            self.root = empty(self.alloc);
            self.nodes = 1;
            self.bytes = OPENING_BYTES;
            return Err(AllocError);
        }
        self.nodes = nodes;
        self.bytes = bytes;
        Ok(())
    }
}
