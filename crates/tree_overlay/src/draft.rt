// Drafts of trees.
ghost use Rattle.std.specs.Prelude.{◌≡◌, ◌+◌, ◌<◌, ◌≤◌, ◌||◌, ℕ, List, [], IsTrue, is_some, IfOk, IfSome, OnOk, OnErr, Some, None, length, take, false, ◌++◌, ◌∷◌};
ghost use Rattle.std.specs.Option.{option_copied};
ghost use Rattle.std.specs.Ordering.{is_eq};
ghost use Rattle.std.specs.FinMap.{get, len, insert, remove};
ghost use Rattle.khepri_terms.specs.Lengths.{capped};
ghost use Rattle.khepri_terms.specs.Terms.{NameText};
ghost use Rattle.khepri_terms.specs.Order.{name_cmp, path_cmp};
ghost use Rattle.khepri_types.specs.declared.limits.TheConstants.{MAX_PATH_NAMES, MAX_WATCHES};
ghost use Rattle.khepri_types.specs.declared.node.Node.{Node};
ghost use Rattle.khepri_types.specs.Conditions.{last_name, seen_at};
ghost use Rattle.khepri_types.specs.Sizes.{bytes, kids, node_bytes};
ghost use Rattle.khepri_types.specs.Tree.{IsTree, stands};
ghost use Rattle.khepri_types.specs.Views.{seen_of, node_of};
ghost use Rattle.nested_nodes.specs.Next.{IsNext};
ghost use Rattle.tree_overlay.specs.Kept.{IsKept};
ghost use Rattle.tree_overlay.specs.Measures.{HasBytes, HasSiblings, IsNextChild, Measures};
ghost use Rattle.tree_overlay.specs.Over.{is_touched, HasChild, IsCovered, IsRising, IsShallow, IsTouched};

use crate::brood::{Brood, flip, mark, open};
use crate::kept::{bytes_of, kid_of, kids_of, left_name, next_name};
use crate::tree::Tree;
use khepri_terms::{Name, Path};
use khepri_types::{Node, NodeView};
use nested_nodes::{Nest, first_here, lesser};
use node_sizes::{grown, node_len, shown};
use std::alloc::{AllocError, Global};
use std::collections::BTreeMap;
use std::marker::Model;
use std::ops::Bound;
use std::snapshot::Snapshot;

// The last name of a path.
fn last_name(path: &Path) -> Option<&Name>
    ensures { option_copied result ≡ last_name path.now }
{
    let names = path.len();
    if names == 0 {
        return None;
    }
    Some(path.name(names - 1))
}

/// What a look at a node finds out for one who takes it out or changes it: how many bytes it has, and how many children.
#[derive(Clone, Copy, Drop)]
pub struct Measure {
    pub bytes: u64,
    pub kids: u64,
}

/// What a tree is to become: the changed nodes alone, over the tree. A path with no node goes. The paths that have an entry are
/// those that were touched.
#[derive(Drop)]
pub struct Draft<'a> {
    base: &'a Tree,
    changed: BTreeMap<Path, Option<Node>>,
    // For each path whose children came or went: which, and how many there are now.
    broods: BTreeMap<Path, Brood>,
    nodes: u64,
    bytes: u64,
}

impl<'a> Model for Draft<'a> {
    ghost use Rattle.std.specs.Coded.{codes};
    ghost use Rattle.std.specs.Map.{keys_of};
    ghost use Rattle.std.specs.FinMap.{code};
    ghost use Rattle.khepri_types.specs.contracts.condition.Condition as condition;
    ghost use Rattle.khepri_types.specs.contracts.script.Statement as statement;
    ghost use Rattle.std.specs.Prelude.{◌≡◌};
    ghost use Rattle.khepri_types.specs.Sizes.{bytes as tree_bytes};
    ghost use Rattle.tree_overlay.specs.Over.{Drafted, IsShallow, over};
    ghost use Rattle.tree_overlay.specs.Broods.{IsDrafted};

    ghost Value = { Drafted };

    ghost coded = { Prim.hlevel (code, codes, condition.the_row.coded, statement.the_row.coded) };

    ghost view = { λ d. record { base = d.base.now; tree = over d.base.now d.changed.entries; touched = keys_of d.changed.entries } };

    ghost invariant = { λ d. IsDrafted d.base.now (over d.base.now d.changed.entries) d.broods.entries d.nodes × (d.bytes ≡ tree_bytes (over d.base.now d.changed.entries)) × IsShallow (over d.base.now d.changed.entries) };
}

impl<'a> Draft<'a> {
    // A draft that is the tree itself, with nothing touched.
    pub(crate) fn over(base: &'a Tree) -> Draft<'a>
        ensures base { result.base ≡ base.now }
        ensures tree { result.tree ≡ base.now }
        ensures touched { result.touched ≡ [] }
    {
        Draft {
            base,
            changed: BTreeMap::new(base.alloc),
            broods: BTreeMap::new(base.alloc),
            nodes: base.nodes(),
            bytes: base.bytes(),
        }
    }

    /// The allocator of the changed nodes.
    pub fn alloc(&self) -> Global {
        let base = self.base;
        base.alloc
    }

    /// How many nodes stand.
    pub fn nodes(&self) -> u64
        ensures count { result ≡ len self.now.tree }
        ensures tree { IsTree self.now.tree }
        ensures shallow { IsShallow self.now.tree }
    {
        self.nodes
    }

    /// The bytes of all nodes.
    pub fn bytes(&self) -> u64
        ensures exact { result ≡ bytes self.now.tree }
        ensures capped { result ≡ capped (bytes self.now.tree) }
    {
        self.bytes
    }

    /// The node at a path: a search among the changes, and one in the tree. It takes no memory.
    pub fn node(&self, path: &Path) -> Option<NodeView>
        ensures node { seen_of result ≡ seen_at self.now.tree path.now }
        ensures watches { IfSome result (λ v. get self.now.tree path.now ≡ Some (node_of v)) }
        ensures few { IfSome result (λ v. length v.watches.now ≤ MAX_WATCHES) }
    {
        let Some((own, change)) = self.changed.get_key_value(path) else {
            return self.unchanged(path);
        };
        let Some(node) = change else {
            return None;
        };
        Some(shown(last_name(own), node, self.kids(path)))
    }

    /// Whether a node stands at the path. It takes no memory.
    pub fn stands(&self, path: &Path) -> bool
        ensures { result ≡ stands self.now.tree path.now }
    {
        self.node(path).is_some()
    }

    // The node at a path that has no entry, with the number of children that it has in the draft.
    fn unchanged(&self, path: &Path) -> Option<NodeView>
        requires same { get self.now.base path.now ≡ get self.now.tree path.now }
        ensures node { seen_of result ≡ seen_at self.now.tree path.now }
        ensures watches { IfSome result (λ v. get self.now.tree path.now ≡ Some (node_of v)) }
        ensures few { IfSome result (λ v. length v.watches.now ≤ MAX_WATCHES) }
    {
        let Some(node) = self.base.node(path) else {
            return None;
        };
        let Some(brood) = self.broods.get(path) else {
            return Some(node);
        };
        Some(NodeView {
            name: node.name,
            payload: node.payload,
            pv: node.pv,
            cv: node.cv,
            kids: brood.count,
            watches: node.watches,
        })
    }

    // The bytes of all nodes but the one at the path, which has so many.
    fn bytes_beside(&self, path: &Path, was: u64) -> u64
        requires stands { IsTrue (stands self.now.tree path.now) }
        requires was { HasBytes self.now.tree path.now was }
        ensures { (n : Node) → get self.now.tree path.now ≡ Some n → result + node_bytes (path.now, n) ≡ bytes self.now.tree }
    {
        let _path = path;
        self.bytes() - was
    }

    /// What the node at a path measures, in one look; none where no node stands. It takes no memory.
    pub fn measure(&self, path: &Path) -> Option<Measure>
        ensures stands { is_some result ≡ stands self.now.tree path.now }
        ensures measures { IfSome result (λ m. Measures self.now.tree path.now m) }
    {
        let Some(node) = self.node(path) else {
            return None;
        };
        Some(Measure {
            bytes: node_len(path, &node),
            kids: node.kids,
        })
    }

    /// How many children of the path stand. It takes no memory.
    pub fn kids(&self, path: &Path) -> u64
        ensures { result ≡ kids self.now.tree path.now }
    {
        match self.broods.get(path) {
            Some(brood) => brood.count,
            None => self.base.kids(path),
        }
    }

    // The same of a path at which this nested node stands in the tree.
    fn child_over<'b>(
        &'b self,
        nest: Option<&'b Nest>,
        path: &Path,
        after: Option<&Name>,
    ) -> Option<&'b Name>
        requires kept { IsKept self.now.base path.now (option_copied nest) }
        ensures { IsNext name_cmp (HasChild self.now.tree path.now) (option_copied after.entry) (option_copied result) }
    {
        let _nodes = self.base.nodes();
        match self.broods.get(path) {
            None => next_name(nest, after),
            Some(brood) => lesser(
                left_name(nest, &brood.names, after),
                first_here(&brood.names, after),
            ),
        }
    }

    /// The least name of a child of the path that comes after the other name: a search in the tree, and one among those that came.
    /// It takes no memory.
    pub fn child_after(&self, path: &Path, after: Option<&Name>) -> Option<&Name>
        ensures { IsNext name_cmp (HasChild self.now.tree path.now) (option_copied after.entry) (option_copied result) }
    {
        self.child_over(self.base.seek(path), path, after)
    }

    // How many children of the path stand, where this nested node stands in the tree.
    fn kids_over(&self, path: &Path, nest: Option<&Nest>) -> u64
        requires kept { IsKept self.now.base path.now (option_copied nest) }
        ensures { result ≡ kids self.now.tree path.now }
    {
        let _nodes = self.base.nodes();
        match self.broods.get(path) {
            Some(here) => here.count,
            None => kids_of(nest),
        }
    }

    // The bytes of a node that stands, where this nested node stands in the tree.
    fn bytes_over(&self, path: &Path, nest: Option<&Nest>) -> u64
        requires stands { IsTrue (stands self.now.tree path.now) }
        requires kept { IsKept self.now.base path.now (option_copied nest) }
        ensures { HasBytes self.now.tree path.now result }
    {
        let Some(change) = self.changed.get(path) else {
            let Some(nest) = nest else { unreachable!() };
            return bytes_of(path, nest.node());
        };
        let Some(node) = change else { unreachable!() };
        bytes_of(path, node)
    }

    /// The path of the next child of a path, and what the node there measures, in one look: a search in the tree for the path, and
    /// then what is below it.
    pub fn next_child(
        &self,
        path: &Path,
        after: Option<&Name>,
    ) -> Result<Option<(Path, Measure)>, AllocError>
        ensures { IfOk result (λ o. IsNextChild self.now.tree path.now (option_copied after.entry) o) }
    {
        let _nodes = self.base.nodes();
        let nest = self.base.seek(path);
        let Some(name) = self.child_over(nest, path, after) else {
            return Ok(None);
        };
        let child = path.child(name)?;
        let below = kid_of(nest, name);
        let measure = Measure {
            bytes: self.bytes_over(&child, below),
            kids: self.kids_over(&child, below),
        };
        Ok(Some((child, measure)))
    }

    // The least touched path that comes after the other path.
    fn next_touched(&self, after: Option<&Path>) -> Option<&Path>
        ensures { IsNext path_cmp (IsTouched self.now.touched) (option_copied after.entry) (option_copied result) }
    {
        match after {
            None => match self.changed.first_key_value() {
                Some((first, _)) => Some(first),
                None => None,
            },
            Some(path) => match self
                .changed
                .range((Bound::Excluded(path), Bound::Unbounded))
                .next()
            {
                Some((next, _)) => Some(next),
                None => None,
            },
        }
    }

    /// The least touched path that comes after the other path; the least of all after none. It takes no memory.
    pub fn touched_after(&self, after: Option<&Path>) -> Option<&Path>
        ensures next { IsNext path_cmp (IsTouched self.now.touched) (option_copied after.entry) (option_copied result) }
        ensures covered { IsCovered self.now.base self.now.tree self.now.touched }
        ensures rising { IsRising self.now.touched }
    {
        let _paths = self.changed.len();
        self.next_touched(after)
    }

    /// Another node at a standing path, where one of so many bytes was seen.
    pub fn rewrite(&mut self, path: &Path, node: Node, was: u64) -> Result<(), AllocError>
        requires stands { IsTrue (stands self.old.tree path.now) }
        requires was { HasBytes self.old.tree path.now was }
        ensures base { self.new.base ≡ self.old.base }
        ensures tree { OnOk result (self.new.tree ≡ insert self.old.tree path.now node) }
        ensures touched { OnOk result ((q : List NameText) → is_touched self.new.touched q ≡ (is_eq (path_cmp path.now q) || is_touched self.old.touched q)) }
        ensures kept { OnErr result (self.new ≡ self.old) }
    {
        let bytes = grown(self.bytes_beside(path, was), path, &node)?;
        self.changed.insert(path.copy()?, Some(node))?;
        self.bytes = bytes;
        Ok(())
    }

    /// A node at a missing path below a standing one, which had so many children before.
    pub fn make(&mut self, path: &Path, node: Node, before: u64) -> Result<(), AllocError>
        requires short { length path.now ≤ MAX_PATH_NAMES }
        requires below { 0 < length path.now }
        requires parent { (i : ℕ) → i < length path.now → IsTrue (stands self.old.tree (take i path.now)) }
        requires absent { get self.old.tree path.now ≡ None }
        requires before { HasSiblings self.old.tree path.now before }
        ensures base { self.new.base ≡ self.old.base }
        ensures tree { OnOk result (self.new.tree ≡ insert self.old.tree path.now node) }
        ensures touched { OnOk result ((q : List NameText) → is_touched self.new.touched q ≡ (is_eq (path_cmp path.now q) || is_touched self.old.touched q)) }
        ensures kept { OnErr result (self.new ≡ self.old) }
    {
        let Some((name, _)) = path.names().split_last() else {
            unreachable!()
        };
        let above = path.front(path.len() - 1)?;
        let bytes = grown(self.bytes, path, &node)?;
        if self.nodes == u64::MAX {
            return Err(AllocError);
        }
        let base = self.base;
        open(base.alloc, &mut self.broods, &above, before)?;
        mark(&mut self.broods, &above, name, false)?;
        self.changed.insert(path.copy()?, Some(node))?;
        flip(&mut self.broods, &above, name, true, before + 1);
        self.nodes += 1;
        self.bytes = bytes;
        Ok(())
    }

    /// Takes out a standing path that has no child. A node of so many bytes was seen there, and its parent had so many children before.
    pub fn unmake(&mut self, path: &Path, was: u64, before: u64) -> Result<(), AllocError>
        requires below { 0 < length path.now }
        requires stands { IsTrue (stands self.old.tree path.now) }
        requires alone { (m : NameText) → stands self.old.tree (path.now ++ m ∷ []) ≡ false }
        requires was { HasBytes self.old.tree path.now was }
        requires before { HasSiblings self.old.tree path.now before }
        ensures base { self.new.base ≡ self.old.base }
        ensures tree { OnOk result (self.new.tree ≡ remove self.old.tree path.now) }
        ensures touched { OnOk result ((q : List NameText) → is_touched self.new.touched q ≡ (is_eq (path_cmp path.now q) || is_touched self.old.touched q)) }
        ensures kept { OnErr result (self.new ≡ self.old) }
    {
        let Some((name, _)) = path.names().split_last() else {
            unreachable!()
        };
        let above = path.front(path.len() - 1)?;
        let bytes = self.bytes_beside(path, was);
        let base = self.base;
        open(base.alloc, &mut self.broods, &above, before)?;
        mark(&mut self.broods, &above, name, true)?;
        self.changed.insert(path.copy()?, None)?;
        flip(&mut self.broods, &above, name, false, before - 1);
        self.nodes -= 1;
        self.bytes = bytes;
        Ok(())
    }

    /// What the draft came to, for a tree to absorb that equals the one under it.
    pub fn into_changes(self) -> Changes
        ensures base { result.base ≡ self.entry.base }
        ensures tree { result.tree ≡ self.entry.tree }
        ensures touched { result.touched ≡ self.entry.touched }
        ensures rising { IsRising result.touched }
    {
        let _paths = self.changed.len();
        Changes {
            base: Snapshot::of(self.base),
            changed: self.changed,
            nodes: self.nodes,
            bytes: self.bytes,
        }
    }
}

/// What a draft came to.
#[derive(Drop)]
pub struct Changes {
    // The tree under the draft. It takes no bytes: it is there for contracts alone.
    pub(crate) base: Snapshot<Tree>,
    pub(crate) changed: BTreeMap<Path, Option<Node>>,
    pub(crate) nodes: u64,
    pub(crate) bytes: u64,
}

impl Changes {
    /// How many paths the draft touched.
    pub fn touched(&self) -> u64
        ensures { result ≡ length self.now.touched }
    {
        self.changed.len() as u64
    }
}

impl Model for Changes {
    ghost use Rattle.std.specs.Prelude.{◌≡◌};
    ghost use Rattle.std.specs.Coded.{codes};
    ghost use Rattle.std.specs.Map.{keys_of};
    ghost use Rattle.std.specs.FinMap.{code, len};
    ghost use Rattle.khepri_types.specs.contracts.condition.Condition as condition;
    ghost use Rattle.khepri_types.specs.contracts.script.Statement as statement;
    ghost use Rattle.khepri_types.specs.Sizes.{bytes as tree_bytes};
    ghost use Rattle.khepri_types.specs.Tree.{IsTree};
    ghost use Rattle.tree_overlay.specs.Over.{Drafted, IsShallow, over};

    ghost Value = { Drafted };

    ghost coded = { Prim.hlevel (code, codes, condition.the_row.coded, statement.the_row.coded) };

    ghost view = { λ c. record { base = c.base.value; tree = over c.base.value c.changed.entries; touched = keys_of c.changed.entries } };

    ghost invariant = { λ c. IsTree (over c.base.value c.changed.entries) × (c.nodes ≡ len (over c.base.value c.changed.entries)) × (c.bytes ≡ tree_bytes (over c.base.value c.changed.entries)) × IsShallow (over c.base.value c.changed.entries) };
}
