// Watches of a node that stands.
ghost use Rattle.std.specs.Prelude.{◌≡◌, ◌||◌, List, IsTrue, OnOk};
ghost use Rattle.std.specs.Ordering.{is_eq};
ghost use Rattle.std.specs.FinMap.{get};
ghost use Rattle.khepri_terms.specs.Terms.{NameText};
ghost use Rattle.khepri_terms.specs.Order.{path_cmp};
ghost use Rattle.khepri_types.specs.Tree.{stands};
ghost use Rattle.khepri_types.specs.Watching.{given_watches};
ghost use Rattle.tree_overlay.specs.Over.{is_touched, StaysTouched};

use khepri_terms::Path;
use khepri_types::Watches;
use node_sizes::{node_len, watched_node};
use std::alloc::AllocError;
use tree_overlay::Draft;

/// Gives the node at the path these watches in place of its own.
pub fn set_watches(draft: &mut Draft, path: &Path, watches: &Watches) -> Result<(), AllocError>
    requires stands { IsTrue (stands draft.old.tree path.now) }
    ensures base { draft.new.base ≡ draft.old.base }
    ensures tree { OnOk result (draft.new.tree ≡ given_watches draft.old.tree path.now watches.now (get draft.old.tree path.now)) }
    ensures touches { OnOk result ((q : List NameText) → is_touched draft.new.touched q ≡ (is_eq (path_cmp path.now q) || is_touched draft.old.touched q)) }
    ensures stays { StaysTouched draft.old.touched draft.new.touched }
{
    let alloc = draft.alloc();
    let Some(node) = draft.node(path) else {
        unreachable!()
    };
    let was = node_len(path, &node);
    let watched = watched_node(alloc, &node, watches)?;
    draft.rewrite(path, watched, was)?;
    Ok(())
}
