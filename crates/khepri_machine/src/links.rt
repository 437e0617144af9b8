// Where the index may have to follow a draft.
ghost use Rattle.std.specs.Prelude.{◌≡◌, false, IfOk, OnOk};
ghost use Rattle.std.specs.FinMap.{get};
ghost use Rattle.worklist_laws.specs.Candidates.{IsWithin};
ghost use Rattle.worklist_laws.specs.Links.{HoldsWatches, targets_of};
ghost use Rattle.khepri_machine.specs.Following.{KeepsTargets, KeepsTargetsAt};

use khepri_terms::Path;
use reverse_watch::Watchers;
use std::alloc::AllocError;
use std::sync::ledger::Ledger;
use step_count::Steps;
use tree_nodes::Draft;

// Whether the node at the path watches something in the draft, or is linked by the index of the tree under it.
fn watches_or_watched<L: Ledger>(
    draft: &Draft,
    watchers: &Watchers,
    path: &Path,
    steps: &mut Steps<L>,
) -> bool
    requires index { HoldsWatches draft.now.base watchers.now }
    ensures { result ≡ false → targets_of (get draft.now.base path.now) ≡ targets_of (get draft.now.tree path.now) }
{
    if watchers.is_linked(path) {
        return true;
    }
    let Some(node) = draft.node(path, steps) else {
        return false;
    };
    if node.watches.len() == 0 {
        return false;
    }
    true
}

// Notes the path, if the node there watches something in the draft, or is linked by the index of the tree under it.
fn note_link<L: Ledger>(
    draft: &Draft,
    watchers: &Watchers,
    paths: &mut Vec<Path>,
    path: &Path,
    steps: &mut Steps<L>,
) -> Result<(), AllocError>
    requires index { HoldsWatches draft.now.base watchers.now }
    ensures stays { OnOk result (IsWithin paths.old.items paths.new.items) }
    ensures noted { OnOk result (KeepsTargetsAt draft.now.base draft.now.tree paths.new.items path.now) }
{
    if !watches_or_watched(draft, watchers, path, steps) {
        return Ok(());
    }
    paths.push(path.copy()?)?;
    Ok(())
}

// The touched paths at which the index may have to follow, in order: those that it links, and those whose nodes watch something now.
pub(crate) fn paths_to_link<L: Ledger>(
    draft: &Draft,
    watchers: &Watchers,
    steps: &mut Steps<L>,
) -> Result<Vec<Path>, AllocError>
    requires index { HoldsWatches draft.now.base watchers.now }
    ensures { IfOk result (λ paths. KeepsTargets draft.now.base draft.now.tree paths.items) }
{
    let mut paths = Vec::new(draft.alloc());
    let mut after = None;
    'touched: while let Some(path) = draft.touched_after(after, steps) {
        note_link(draft, watchers, &mut paths, path, steps)?;
        after = Some(path);
    }
    Ok(paths)
}
