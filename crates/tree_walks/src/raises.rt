// Nodes that a child came to or went from.
ghost use Rattle.std.specs.Prelude.{◌≡◌, List, IsTrue, IfOk, OnOk, OnErr, Some};
ghost use Rattle.std.specs.FinMap.{get, insert};
ghost use Rattle.khepri_terms.specs.Terms.{NameText};
ghost use Rattle.khepri_types.specs.declared.node.Node.{Node};
ghost use Rattle.khepri_types.specs.Sizes.{kids};
ghost use Rattle.khepri_types.specs.Tree.{raised_children, stands};
ghost use Rattle.khepri_types.specs.Views.{node_of};
ghost use Rattle.tree_walks.specs.Notes.{Adds, rises};

use khepri_terms::Path;
use khepri_types::NodeView;
use node_sizes::{node_len, raised_node};
use std::alloc::AllocError;
use tree_overlay::Draft;

// Whether the child-list version of the node can rise.
fn can_rise(node: &NodeView) -> bool
    ensures { result ≡ rises (node_of node.now) }
{
    node.cv.saturating_add(1) != node.cv
}

// A child of the node at the path came or went; answers how many it has.
pub(crate) fn raise(draft: &mut Draft, path: &Path) -> Result<u64, AllocError>
    requires stands { IsTrue (stands draft.old.tree path.now) }
    ensures base { draft.new.base ≡ draft.old.base }
    ensures tree { OnOk result ((n : Node) → get draft.old.tree path.now ≡ Some n → draft.new.tree ≡ insert draft.old.tree path.now (raised_children n)) }
    ensures touched { OnOk result ((n : Node) → get draft.old.tree path.now ≡ Some n → Adds (rises n) path.now draft.old.touched draft.new.touched) }
    ensures kids { OnOk result ((q : List NameText) → kids draft.new.tree q ≡ kids draft.old.tree q) }
    ensures count { IfOk result (λ n. n ≡ kids draft.old.tree path.now) }
    ensures kept { OnErr result (draft.new ≡ draft.old) }
{
    let alloc = draft.alloc();
    let Some(node) = draft.node(path) else {
        unreachable!()
    };
    let count = node.kids;
    if !can_rise(&node) {
        return Ok(count);
    }
    let was = node_len(path, &node);
    let raised = raised_node(alloc, &node)?;
    draft.rewrite(path, raised, was)?;
    Ok(count)
}
