// A walk down nested nodes, in order of path.
ghost use Rattle.std.specs.Prelude.{◌≡◌, ◌≤◌, IfOk, IfSome, None, Some, length};
ghost use Rattle.std.specs.FinMap.{get};
ghost use Rattle.khepri_terms.specs.Order.{name_cmp};
ghost use Rattle.khepri_types.specs.Conditions.{seen_at};
ghost use Rattle.khepri_types.specs.Tree.{IsTree};
ghost use Rattle.khepri_types.specs.Views.{as_seen, node_of};
ghost use Rattle.nested_nodes.specs.Nests.{IsNest};
ghost use Rattle.tree_overlay.specs.Over.{IsShallow};
ghost use Rattle.tree_walks.specs.Turns.{IsLeaf, Leads, TurnsNext, turned, way_end, way_path};
ghost use Rattle.tree_walks.specs.Walks.{Ends, GoesOn, path_or_root};

use khepri_terms::{Name, Path};
use khepri_types::NodeView;
use khepri_types::limits::MAX_PATH_NAMES;
use nested_nodes::Nest;
use node_sizes::shown;
use std::alloc::{AllocError, Global};
use std::marker::Model;
use tree_overlay::Tree;

// One step down: a child, and its name.
#[derive(Clone, Copy, Drop)]
pub(crate) struct Turn<'t> {
    name: &'t Name,
    nest: &'t Nest,
}

// The node at which a way down from the root ends.
fn end_of<'t>(root: &'t Nest, way: &[Turn<'t>]) -> &'t Nest
    ensures { result.now ≡ way_end root.now way.now }
{
    match way.split_last() {
        None => root,
        Some((last, _)) => last.nest,
    }
}

// The next child of the nearest node above the end of the way that has one.
fn turn_beside<'t>(root: &'t Nest, way: &[Turn<'t>]) -> Option<(usize, Turn<'t>)>
    requires nest { IsNest name_cmp root.now }
    requires leads { Leads root.now way.now }
    requires leaf { IsLeaf (way_end root.now way.now) }
    ensures within { IfSome result (λ r. r.0 ≤ length way.now) }
    ensures leads { IfSome result (λ r. Leads root.now (turned way.now r)) }
    ensures next { TurnsNext root.now way.now result }
{
    let mut len = way.len();
    'up: while len > 0 {
        let (rest, _) = way.split_at(len);
        let Some((last, above)) = rest.split_last() else {
            unreachable!()
        };
        len -= 1;
        if let Some((name, nest)) = end_of(root, above).next_kid(Some(last.name)) {
            return Some((len, Turn { name, nest }));
        }
    }
    None
}

// The turn to the node that comes next: to the first child where the way ends, or beside the way.
fn next_turn<'t>(root: &'t Nest, way: &[Turn<'t>]) -> Option<(usize, Turn<'t>)>
    requires nest { IsNest name_cmp root.now }
    requires leads { Leads root.now way.now }
    ensures within { IfSome result (λ r. r.0 ≤ length way.now) }
    ensures leads { IfSome result (λ r. Leads root.now (turned way.now r)) }
    ensures next { TurnsNext root.now way.now result }
{
    if let Some((name, nest)) = end_of(root, way).next_kid(None) {
        return Some((way.len(), Turn { name, nest }));
    }
    turn_beside(root, way)
}

// The names of a way, as a path.
fn path_of(alloc: Global, way: &[Turn]) -> Result<Path, AllocError>
    ensures { IfOk result (λ p. p ≡ way_path way.now) }
{
    match way.split_last() {
        None => Ok(Path::root(alloc)),
        Some((last, above)) => path_of(alloc, above)?.child(last.name),
    }
}

/// Goes over the nodes of a tree in order of path. It keeps the way from the root down to the node that it has come to, and goes on
/// from there: nothing is looked up from the root again.
#[derive(Drop)]
pub struct Walk<'t> {
    root: &'t Nest,
    begun: bool,
    // There is room for the longest path.
    way: Vec<Turn<'t>>,
}

impl<'t> Model for Walk<'t> {
    ghost use Rattle.std.specs.Prelude.{◌≡◌, ◌≤◌, [], false, vec_capacity};
    ghost use Rattle.std.specs.Coded.{codes};
    ghost use Rattle.std.specs.FinMap.{from_sorted, code};
    ghost use Rattle.khepri_terms.specs.Order.{name_cmp, path_cmp};
    ghost use Rattle.khepri_types.specs.contracts.condition.Condition as condition;
    ghost use Rattle.khepri_types.specs.contracts.script.Statement as statement;
    ghost use Rattle.khepri_types.specs.declared.limits.TheConstants.{MAX_PATH_NAMES};
    ghost use Rattle.nested_nodes.specs.Nests.{IsNest};
    ghost use Rattle.tree_overlay.specs.Over.{IsShallow};
    ghost use Rattle.tree_walks.specs.Turns.{Leads, way_path};
    ghost use Rattle.tree_walks.specs.Walks.{Walked, come_to};

    ghost Value = { Walked };

    ghost coded = { Prim.hlevel (code, codes, condition.the_row.coded, statement.the_row.coded) };

    ghost view = { λ w. record { tree = from_sorted {R = path_cmp} w.root.now; last = come_to w.begun (way_path w.way.items) } };

    ghost invariant = { λ w. IsNest name_cmp w.root.now × IsShallow (from_sorted {R = path_cmp} w.root.now) × Leads w.root.now w.way.items × (MAX_PATH_NAMES ≤ vec_capacity w.way) × (w.begun ≡ false → w.way.items ≡ []) };
}

impl<'t> Walk<'t> {
    /// A walk that comes to the root first. Here alone it takes memory: the room for a way.
    pub fn over(tree: &'t Tree) -> Result<Walk<'t>, AllocError>
        ensures tree { IfOk result (λ w. w.tree ≡ tree.now) }
        ensures begins { IfOk result (λ w. w.last ≡ None) }
    {
        Ok(Walk {
            root: tree.root(),
            begun: false,
            way: Vec::with_capacity(tree.alloc(), MAX_PATH_NAMES)?,
        })
    }

    /// How many names the path has to which the walk has come.
    pub fn len(&self) -> usize
        ensures len { result ≡ length (path_or_root self.now.last) }
        ensures tree { IsTree self.now.tree }
        ensures shallow { IsShallow self.now.tree }
    {
        self.way.len()
    }

    /// The path to which the walk has come; before the first node the root.
    pub fn path(&self, alloc: Global) -> Result<Path, AllocError>
        ensures { IfOk result (λ p. p ≡ path_or_root self.now.last) }
    {
        path_of(alloc, self.way.as_slice())
    }

    /// Goes on to the node that comes next, by one search among the children of a node for each name by which the way changes. It
    /// takes no memory.
    pub fn next(&mut self) -> Option<NodeView<'t>>
        ensures tree { self.new.tree ≡ self.old.tree }
        ensures next { IfSome result (λ v. GoesOn self.old.tree self.old.last self.new.last) }
        ensures node { IfSome result (λ v. Some (as_seen v) ≡ seen_at self.old.tree (path_or_root self.new.last)) }
        ensures watches { IfSome result (λ v. get self.old.tree (path_or_root self.new.last) ≡ Some (node_of v)) }
        ensures ends { result ≡ None → Ends self.old.tree self.old.last }
        ensures stays { result ≡ None → self.new ≡ self.old }
    {
        let root = self.root;
        if !self.begun {
            self.begun = true;
            return Some(shown(None, root.node(), root.kids()));
        }
        let Some((len, turn)) = next_turn(root, self.way.as_slice()) else {
            return None;
        };
        self.way.truncate(len);
        self.way.push_reserved(turn);
        Some(shown(Some(turn.name), turn.nest.node(), turn.nest.kids()))
    }
}
