// Trees of given nodes.
ghost use Rattle.std.specs.Prelude.{◌≡◌, ◌<◌, IfOk, OnOk, IsTrue, length, map};
ghost use Rattle.std.specs.FinMap.{is_sorted};
ghost use Rattle.khepri_terms.specs.Order.{path_cmp};
ghost use Rattle.khepri_types.specs.Tree.{IsTree, opening_tree};
ghost use Rattle.tree_overlay.specs.Measures.{HasSiblings};
ghost use Rattle.tree_nodes.specs.Drafts.{IsShallow};
ghost use Rattle.tree_nodes.specs.Parts.{entry_of, tree_of};

use khepri_terms::Path;
use khepri_types::NodePart;
use node_sizes::part_node;
use std::alloc::AllocError;
use tree_overlay::{Changes, Draft, Tree};

// How many children the path above has.
fn siblings(draft: &Draft, path: &Path) -> Result<u64, AllocError>
    requires below { 0 < length path.now }
    ensures { IfOk result (λ n. HasSiblings draft.now.tree path.now n) }
{
    let above = path.front(path.len() - 1)?;
    Ok(draft.kids(&above))
}

// Lays the nodes over the root alone, each below those before it.
fn lay(draft: &mut Draft, nodes: &[NodePart]) -> Result<(), AllocError>
    requires fresh { draft.old.tree ≡ opening_tree }
    requires sorted { IsTrue (is_sorted path_cmp (map entry_of nodes.now)) }
    requires tree { IsTree (tree_of nodes.now) }
    requires shallow { IsShallow (tree_of nodes.now) }
    ensures base { draft.new.base ≡ draft.old.base }
    ensures tree { OnOk result (draft.new.tree ≡ tree_of nodes.now) }
{
    let alloc = draft.alloc();
    'nodes: for part in nodes {
        let _nodes = draft.nodes();
        let node = part_node(alloc, part)?;
        let Some(seen) = draft.measure(&part.path) else {
            let before = siblings(draft, &part.path)?;
            draft.make(&part.path, node, before)?;
            continue 'nodes;
        };
        draft.rewrite(&part.path, node, seen.bytes)?;
    }
    Ok(())
}

// The changes from the root alone to these nodes.
pub(crate) fn changes_of(tree: &Tree, nodes: &[NodePart]) -> Result<Changes, AllocError>
    requires fresh { tree.now ≡ opening_tree }
    requires sorted { IsTrue (is_sorted path_cmp (map entry_of nodes.now)) }
    requires tree { IsTree (tree_of nodes.now) }
    requires shallow { IsShallow (tree_of nodes.now) }
    ensures base { IfOk result (λ c. c.base ≡ tree.now) }
    ensures tree { IfOk result (λ c. c.tree ≡ tree_of nodes.now) }
{
    let mut draft = tree.draft();
    lay(&mut draft, nodes)?;
    Ok(draft.into_changes())
}
