// Scans over all nodes in order of path.
ghost use Rattle.std.specs.Prelude.{◌≡◌, ◌<◌, ◌≤◌, ◌+◌, ◌^◌, IfOk, OnOk, length, map, take};
ghost use Rattle.std.specs.FinMap.{len};
ghost use Rattle.khepri_types.specs.Conditions.{seen_at};
ghost use Rattle.khepri_types.specs.Exec.{shown_node};
ghost use Rattle.khepri_types.specs.Patterns.{matching, matching_nodes};
ghost use Rattle.khepri_types.specs.Views.{as_seen};
ghost use Rattle.tree_commands.specs.Scans.{ahead, AreBehind, AreClimbed, Passes, path_or_root};
ghost use Rattle.tree_commands.specs.Listing.{IsListed, ListsOneMore};

use khepri_terms::Path;
use khepri_types::{NodeView, Pattern, ShownNode};
use pattern_match::MaskPath;
use std::alloc::{AllocError, Global};
use std::sync::ledger::Ledger;
use step_count::Steps;
use tree_nodes::{Draft, Tree, Walk};

/// What a scan found of the nodes that a pattern matches.
#[derive(Drop)]
pub(crate) struct Found {
    /// How many there are.
    pub(crate) count: u64,
    /// The first of them.
    pub(crate) nodes: Vec<ShownNode>,
}

// From the masks of a path to those of a front of it.
fn climb(masks: &mut MaskPath, from: usize, to: usize)
    requires within { to ≤ from }
    requires len { length masks.old ≡ from + 1 }
    ensures len { length masks.new ≡ to + 1 }
    ensures masks { AreClimbed from to masks.old masks.new }
{
    let mut names = from;
    'up: while names > to {
        masks.leave();
        names -= 1;
    }
}

// Goes on to the node that comes next, with the masks of its path in place of those of the path before it.
fn visit<'t, L: Ledger>(
    walk: &mut Walk<'t>,
    pattern: &Pattern,
    masks: &mut MaskPath,
    steps: &mut Steps<L>,
) -> NodeView<'t>
    requires more { 0 < length (ahead walk.old.tree walk.old.last) }
    requires behind { AreBehind pattern.now walk.old.tree walk.old.last masks.old }
    ensures tree { walk.new.tree ≡ walk.old.tree }
    ensures next { Passes walk.old.tree walk.old.last walk.new.last }
    ensures node { Some (as_seen result) ≡ seen_at walk.old.tree (path_or_root walk.new.last) }
    ensures masks { AreBehind pattern.now walk.old.tree walk.new.last masks.new }
    ensures steps { steps.new ≡ steps.old + 1 }
{
    let from = walk.len();
    let Some(node) = walk.next(steps) else {
        unreachable!()
    };
    let names = walk.len();
    if names == 0 {
        return node;
    }
    climb(masks, from, names - 1);
    masks.enter(pattern, &node);
    node
}

// The node at the path, as a reply lists it.
fn listed(alloc: Global, path: Path, node: &NodeView) -> Result<ShownNode, AllocError>
    ensures { IfOk result (λ s. IsListed path (as_seen node.now) s) }
{
    Ok(ShownNode {
        path,
        pv: node.pv,
        cv: node.cv,
        kids: node.kids,
        payload: node.payload.copy(alloc)?,
    })
}

impl Found {
    // The node to which the walk has come is one more, of which only the first so many are listed.
    fn add(
        &mut self,
        alloc: Global,
        walk: &Walk,
        node: &NodeView,
        limit: u64,
    ) -> Result<(), AllocError>
        requires room { self.old.count + 1 < 2 ^ 64 }
        ensures { OnOk result (ListsOneMore (path_or_root walk.now.last) (as_seen node.now) limit self.old self.new) }
    {
        if self.count < limit {
            self.nodes.push(listed(alloc, walk.path(alloc)?, node)?)?;
        }
        self.count += 1;
        Ok(())
    }

    // The node at the path is one more, of which only the first so many are listed.
    fn add_at(
        &mut self,
        alloc: Global,
        path: &Path,
        node: &NodeView,
        limit: u64,
    ) -> Result<(), AllocError>
        requires room { self.old.count + 1 < 2 ^ 64 }
        ensures { OnOk result (ListsOneMore path.now (as_seen node.now) limit self.old self.new) }
    {
        if self.count < limit {
            self.nodes.push(listed(alloc, path.copy()?, node)?)?;
        }
        self.count += 1;
        Ok(())
    }
}

// How many nodes a pattern matches, and the first so many of them: one look at each node.
pub(crate) fn find<L: Ledger>(
    alloc: Global,
    tree: &Tree,
    pattern: &Pattern,
    limit: u64,
    steps: &mut Steps<L>,
) -> Result<Found, AllocError>
    ensures count { IfOk result (λ f. f.count ≡ length (matching pattern.now tree.now)) }
    ensures nodes { IfOk result (λ f. f.nodes.items ≡ map (shown_node tree.now) (take limit (matching_nodes pattern.now tree.now))) }
    ensures steps { OnOk result (steps.new ≡ steps.old + len tree.now) }
{
    let mut walk = tree.walk()?;
    let mut masks = MaskPath::start(alloc, pattern);
    let mut found = Found {
        count: 0,
        nodes: Vec::new(alloc),
    };
    'nodes: for _ in 0..tree.nodes() {
        let node = visit(&mut walk, pattern, &mut masks, steps);
        if masks.top().accepts(pattern) {
            found.add(alloc, &walk, &node, limit)?;
        }
    }
    Ok(found)
}

// All paths that a pattern matches in a tree: one look at each node.
pub(crate) fn matching_in_tree<L: Ledger>(
    alloc: Global,
    tree: &Tree,
    pattern: &Pattern,
    steps: &mut Steps<L>,
) -> Result<Vec<Path>, AllocError>
    ensures paths { IfOk result (λ v. v.items ≡ matching pattern.now tree.now) }
    ensures steps { OnOk result (steps.new ≡ steps.old + len tree.now) }
{
    let mut walk = tree.walk()?;
    let mut masks = MaskPath::start(alloc, pattern);
    let mut paths = Vec::new(alloc);
    'nodes: for _ in 0..tree.nodes() {
        visit(&mut walk, pattern, &mut masks, steps);
        if masks.top().accepts(pattern) {
            paths.push(walk.path(alloc)?)?;
        }
    }
    Ok(paths)
}

// How many nodes a pattern matches in a draft, and the first so many of them: one look at each node, and one more at each that it
// matches.
pub(crate) fn find_in_draft<L: Ledger>(
    draft: &Draft,
    pattern: &Pattern,
    limit: u64,
    steps: &mut Steps<L>,
) -> Result<Found, AllocError>
    ensures count { IfOk result (λ f. f.count ≡ length (matching pattern.now draft.now.tree)) }
    ensures nodes { IfOk result (λ f. f.nodes.items ≡ map (shown_node draft.now.tree) (take limit (matching_nodes pattern.now draft.now.tree))) }
{
    let alloc = draft.alloc();
    // For the proof alone: the call tells that so many nodes can be counted.
    let _nodes = draft.nodes();
    let paths = draft_scene::matching_paths(draft, pattern, steps)?;
    let mut found = Found {
        count: 0,
        nodes: Vec::new(alloc),
    };
    'each: for path in &paths {
        let Some(node) = draft.node(path, steps) else {
            unreachable!()
        };
        found.add_at(alloc, path, &node, limit)?;
    }
    Ok(found)
}
