// Whether anything fails at all.
ghost use Rattle.std.specs.Prelude.{◌≡◌, ◌+◌, ◌*◌, ◌≤◌, length, List, [], IfOk, OnOk, IsTrue, false};
ghost use Rattle.khepri_terms.specs.Terms.{NameText};
ghost use Rattle.khepri_types.specs.declared.limits.TheConstants.{MAX_WATCHES};
ghost use Rattle.khepri_types.specs.Conditions.{seen_at};
ghost use Rattle.khepri_types.specs.Settling.{stable};
ghost use Rattle.tree_nodes.specs.Drafts.{IsCovered};
ghost use Rattle.worklist_laws.specs.Candidates.{is_in, IsWithin, IsEnough};
ghost use Rattle.worklist_laws.specs.Counts.{watching};
ghost use Rattle.worklist_laws.specs.Links.{HoldsWatches, linked_to};
ghost use Rattle.keep_while.specs.Costs.{AreAnew, IsGlance, IsLook, OnlyAnew};
ghost use Rattle.keep_while.specs.Gathering.{IsNoted, NoneFails, NoneFailsAnew, NotesAsked, PassesAll};

use crate::first::{came_or_went, is_seen_anew};
use crate::gather::{parent, put};
use crate::unmet::fails;
use khepri_terms::Path;
use reverse_watch::Watchers;
use std::alloc::AllocError;
use std::collections::BTreeSet;
use std::sync::ledger::Ledger;
use step_count::Steps;
use tree_nodes::Draft;

// Whether a node of these paths fails.
fn some_fail<L: Ledger>(draft: &Draft, paths: &[Path], steps: &mut Steps<L>) -> bool
    ensures none { result ≡ false → NoneFails draft.now.tree paths.now }
    ensures cost { steps.new ≤ steps.old + (1 + MAX_WATCHES) * length paths.now }
    ensures risen { steps.old ≤ steps.new }
{
    for node in paths {
        if fails(draft, node, steps) {
            return true;
        }
    }
    false
}

// Whether something else is seen at the path, and the index lists a node there.
fn is_asked<L: Ledger>(
    draft: &Draft,
    watchers: &Watchers,
    path: &Path,
    steps: &mut Steps<L>,
) -> bool
    ensures none { result ≡ false → NoneFailsAnew draft.now.base draft.now.tree (linked_to watchers.now) path.now }
    ensures anew { IsTrue result → seen_at draft.now.base path.now ≡ seen_at draft.now.tree path.now → ⊥ }
    ensures cost { steps.new ≤ steps.old + 2 }
    ensures risen { steps.old ≤ steps.new }
{
    if watchers.of(path).len() == 0 {
        return false;
    }
    is_seen_anew(draft, path, steps)
}

// Whether something else is seen at the path, and a node that watches it fails.
fn watcher_fails<L: Ledger>(
    draft: &Draft,
    watchers: &Watchers,
    path: &Path,
    steps: &mut Steps<L>,
) -> bool
    requires index { HoldsWatches draft.now.base watchers.now }
    ensures none { result ≡ false → NoneFailsAnew draft.now.base draft.now.tree (linked_to watchers.now) path.now }
    ensures cost { IsLook draft.now path.now steps.old steps.new }
    ensures risen { steps.old ≤ steps.new }
{
    if !is_asked(draft, watchers, path, steps) {
        return false;
    }
    some_fail(draft, watchers.of(path), steps)
}

// Notes the path, if something else is seen at it and the index lists a node there.
fn note_asked<L: Ledger>(
    draft: &Draft,
    watchers: &Watchers,
    above: &mut BTreeSet<Path>,
    path: Path,
    steps: &mut Steps<L>,
) -> Result<(), AllocError>
    ensures stays { OnOk result (IsWithin above.old.keys above.new.keys) }
    ensures asked { OnOk result (IsNoted draft.now.base draft.now.tree (linked_to watchers.now) path above.new.keys) }
    ensures only { OnOk result (OnlyAnew draft.now.base draft.now.tree above.old.keys above.new.keys) }
    ensures cost { steps.new ≤ steps.old + 2 }
    ensures risen { steps.old ≤ steps.new }
{
    if !is_asked(draft, watchers, &path, steps) {
        return Ok(());
    }
    put(above, path)
}

// Notes the parent of the path, where the node came or went, if something else is seen at the parent and the index lists a node there.
fn note_parent<L: Ledger>(
    draft: &Draft,
    watchers: &Watchers,
    above: &mut BTreeSet<Path>,
    path: &Path,
    steps: &mut Steps<L>,
) -> Result<(), AllocError>
    ensures stays { OnOk result (IsWithin above.old.keys above.new.keys) }
    ensures above { OnOk result (NotesAsked draft.now.base draft.now.tree (linked_to watchers.now) path.now above.new.keys) }
    ensures only { OnOk result (OnlyAnew draft.now.base draft.now.tree above.old.keys above.new.keys) }
    ensures cost { steps.new ≤ steps.old + 4 }
    ensures risen { steps.old ≤ steps.new }
{
    if watchers.is_empty() {
        return Ok(());
    }
    if !came_or_went(draft, path, steps) {
        return Ok(());
    }
    match parent(path)? {
        None => Ok(()),
        Some(parent) => note_asked(draft, watchers, above, parent, steps),
    }
}

// Whether a touched node fails, or one that watches a touched path at which something else is seen. Where none does, those parents of
// nodes that came or went are noted whose watchers are to be tested too.
fn touched_fails<L: Ledger>(
    draft: &Draft,
    watchers: &Watchers,
    above: &mut BTreeSet<Path>,
    steps: &mut Steps<L>,
) -> Result<bool, AllocError>
    requires index { HoldsWatches draft.now.base watchers.now }
    requires bare { above.old.keys ≡ [] }
    ensures none { IfOk result (λ b. b ≡ false → PassesAll draft.now (linked_to watchers.now) above.new.keys) }
    ensures covered { IsCovered draft.now.base draft.now.tree draft.now.touched }
    ensures anew { OnOk result (AreAnew draft.now.base draft.now.tree above.new.keys) }
    ensures cost { OnOk result (IsGlance draft.now 17 steps.old steps.new) }
    ensures risen { steps.old ≤ steps.new }
{
    let mut after = None;
    'touched: while let Some(path) = draft.touched_after(after, steps) {
        if fails(draft, path, steps) {
            return Ok(true);
        }
        if watcher_fails(draft, watchers, path, steps) {
            return Ok(true);
        }
        note_parent(draft, watchers, above, path, steps)?;
        after = Some(path);
    }
    Ok(false)
}

// Whether a node fails that watches one of these paths.
fn above_fails<L: Ledger>(
    draft: &Draft,
    watchers: &Watchers,
    above: &BTreeSet<Path>,
    steps: &mut Steps<L>,
) -> bool
    requires index { HoldsWatches draft.now.base watchers.now }
    ensures none { result ≡ false → (q : List NameText) → IsTrue (is_in above.now.keys q) → NoneFails draft.now.tree (linked_to watchers.now q) }
    ensures cost { steps.new ≤ steps.old + 17 * watching draft.now.base above.now.keys }
    ensures risen { steps.old ≤ steps.new }
{
    for path in above {
        if some_fail(draft, watchers.of(path), steps) {
            return true;
        }
    }
    false
}

// Whether some node fails: the touched nodes are tested, and those who watch a path at which something else is seen. No path is copied
// but the parents of nodes that came or went, where the index lists any node at all.
pub(crate) fn some_node_fails<L: Ledger>(
    draft: &Draft,
    watchers: &Watchers,
    steps: &mut Steps<L>,
) -> Result<bool, AllocError>
    requires settled { IsTrue (stable draft.now.base) }
    requires index { HoldsWatches draft.now.base watchers.now }
    ensures none { IfOk result (λ b. b ≡ false → IsEnough draft.now.tree []) }
    ensures cost { OnOk result (IsGlance draft.now 34 steps.old steps.new) }
    ensures risen { steps.old ≤ steps.new }
{
    let mut above = BTreeSet::new(draft.alloc());
    if touched_fails(draft, watchers, &mut above, steps)? {
        return Ok(true);
    }
    // For the proof alone: the call tells that the paths rise.
    let _count = above.len();
    Ok(above_fails(draft, watchers, &above, steps))
}
