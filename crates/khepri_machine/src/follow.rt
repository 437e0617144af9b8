// The index of watches follows the tree.
ghost use Rattle.std.specs.Prelude.{◌≡◌, false, List, OnOk};
ghost use Rattle.std.specs.FinMap.{get};
ghost use Rattle.std.specs.Ordering.{is_eq};
ghost use Rattle.khepri_terms.specs.Terms.{NameText};
ghost use Rattle.khepri_terms.specs.Order.{path_cmp};
ghost use Rattle.worklist_laws.specs.Links.{targets_at, targets_of};
ghost use Rattle.khepri_machine.specs.Following.{Follows};

use khepri_terms::Path;
use reverse_watch::Watchers;
use std::alloc::AllocError;
use std::sync::ledger::Ledger;
use step_count::Steps;
use tree_nodes::Tree;

// The path is linked to what the node there watches now, and to nothing where none stands.
fn relink<L: Ledger>(
    tree: &Tree,
    path: &Path,
    watchers: &mut Watchers,
    steps: &mut Steps<L>,
) -> Result<(), AllocError>
    ensures here { OnOk result (targets_at (get watchers.new path.now) ≡ targets_of (get tree.now path.now)) }
    ensures others { OnOk result ((q : List NameText) → is_eq (path_cmp q path.now) ≡ false → get watchers.new q ≡ get watchers.old q) }
{
    watchers.unlink_all(path);
    let Some(node) = tree.node(path, steps) else {
        return Ok(());
    };
    if node.watches.len() == 0 {
        return Ok(());
    }
    watchers.link(path, node.watches)
}

// Each of the paths is linked anew.
pub(crate) fn follow<L: Ledger>(
    tree: &Tree,
    paths: &[Path],
    watchers: &mut Watchers,
    steps: &mut Steps<L>,
) -> Result<(), AllocError>
    ensures { OnOk result (Follows tree.now paths.now watchers.old watchers.new) }
{
    for path in paths {
        relink(tree, path, watchers, steps)?;
    }
    Ok(())
}
