// What a round tests.
ghost use Rattle.std.specs.Prelude.{◌≡◌, ◌≤◌, ◌+◌, ◌||◌, ◌++◌, List, OnOk, IfOk, IsTrue, false, Some, [], ◌∷◌, ◌*◌, length};
ghost use Rattle.std.specs.List.Sorted.{IsStrictlySortedBy};
ghost use Rattle.std.specs.Ordering.{is_eq};
ghost use Rattle.khepri_terms.specs.Order.{path_cmp};
ghost use Rattle.khepri_terms.specs.Terms.{NameText};
ghost use Rattle.khepri_types.specs.declared.limits.TheConstants.{MAX_WATCHES};
ghost use Rattle.khepri_types.specs.Paths.{is_child, is_front, is_under};
ghost use Rattle.khepri_types.specs.Tree.{stands};
ghost use Rattle.worklist_laws.specs.Candidates.{is_in, IsWithin, tested, SameBelow};
ghost use Rattle.worklist_laws.specs.Links.{linked_to};
ghost use Rattle.keep_while.specs.Costs.{AreApart, below, EndsApart, KeepsBelow, KeepsUnder, OnlyAbove, OnlyAsks, OnlyBelow, OnlyNear, walks};
ghost use Rattle.keep_while.specs.Gathering.{Asks, asked, GoesUnder, HasAbove, HasBelow, HasNear, without};

use crate::unmet::fails;
use khepri_terms::Path;
use reverse_watch::Watchers;
use std::alloc::AllocError;
use std::collections::BTreeSet;
use std::sync::ledger::Ledger;
use step_count::Steps;
use tree_nodes::Draft;

// The nodes that need not be asked for again: of the base's index the touched ones and those that went, and of the index of the
// touched ones those that went.
#[derive(Drop)]
pub(crate) struct Out {
    pub(crate) left: BTreeSet<Path>,
    pub(crate) gone: BTreeSet<Path>,
}

// Adds the path, and makes no copy of it.
pub(crate) fn put(set: &mut BTreeSet<Path>, path: Path) -> Result<(), AllocError>
    ensures { OnOk result ((q : List NameText) → is_in set.new.keys q ≡ (is_eq (path_cmp path q) || is_in set.old.keys q)) }
{
    set.insert(path)?;
    Ok(())
}

// Adds the path.
fn add(set: &mut BTreeSet<Path>, path: &Path) -> Result<(), AllocError>
    ensures { OnOk result ((q : List NameText) → is_in set.new.keys q ≡ (is_eq (path_cmp path.now q) || is_in set.old.keys q)) }
{
    set.insert(path.copy()?)?;
    Ok(())
}

// Notes the path.
pub(crate) fn note(set: &mut BTreeSet<Path>, path: &Path) -> Result<(), AllocError>
    ensures adds { OnOk result ((q : List NameText) → is_in set.new.keys q ≡ (is_eq (path_cmp path.now q) || is_in set.old.keys q)) }
    ensures stays { OnOk result (IsWithin set.old.keys set.new.keys) }
    ensures itself { OnOk result (IsTrue (is_in set.new.keys path.now)) }
{
    add(set, path)
}

// Notes the path, if it isn't left out.
fn note_one(set: &mut BTreeSet<Path>, path: &Path, left: &BTreeSet<Path>) -> Result<(), AllocError>
    ensures stays { OnOk result (IsWithin set.old.keys set.new.keys) }
    ensures itself { OnOk result (is_in left.now.keys path.now ≡ false → IsTrue (is_in set.new.keys path.now)) }
    ensures only { OnOk result (IsWithin set.new.keys (set.old.keys ++ without left.now.keys (path.now ∷ []))) }
{
    if left.contains(path) {
        return Ok(());
    }
    note(set, path)
}

// Notes these paths, but for those left out.
fn note_all(
    set: &mut BTreeSet<Path>,
    paths: &[Path],
    left: &BTreeSet<Path>,
) -> Result<(), AllocError>
    ensures stays { OnOk result (IsWithin set.old.keys set.new.keys) }
    ensures these { OnOk result (IsWithin (without left.now.keys paths.now) set.new.keys) }
    ensures only { OnOk result (IsWithin set.new.keys (set.old.keys ++ without left.now.keys paths.now)) }
{
    for path in paths {
        note_one(set, path, left)?;
    }
    Ok(())
}

// Notes who watches the path, but for those that `Out` leaves out.
fn note_watchers(
    set: &mut BTreeSet<Path>,
    watchers: &Watchers,
    written: &Watchers,
    out: &Out,
    path: &Path,
) -> Result<(), AllocError>
    ensures stays { OnOk result (IsWithin set.old.keys set.new.keys) }
    ensures asks { OnOk result (IsWithin (asked out.now.left.keys out.now.gone.keys (linked_to watchers.now) (linked_to written.now) path.now) set.new.keys) }
    ensures only { OnOk result (IsWithin set.new.keys (set.old.keys ++ asked out.now.left.keys out.now.gone.keys (linked_to watchers.now) (linked_to written.now) path.now)) }
{
    note_all(set, watchers.of(path), &out.left)?;
    note_all(set, written.of(path), &out.gone)
}

// The candidates, and who watches one of the changed paths, but for those that `Out` leaves out.
pub(crate) fn watching(
    watchers: &Watchers,
    written: &Watchers,
    out: &Out,
    changed: &BTreeSet<Path>,
    candidates: BTreeSet<Path>,
) -> Result<BTreeSet<Path>, AllocError>
    ensures stays { IfOk result (λ set. IsWithin candidates.keys set.keys) }
    ensures asks { IfOk result (λ set. Asks (asked out.now.left.keys out.now.gone.keys (linked_to watchers.now) (linked_to written.now)) changed.now.keys set.keys) }
    ensures only { IfOk result (λ set. OnlyAsks (asked out.now.left.keys out.now.gone.keys (linked_to watchers.now) (linked_to written.now)) changed.now.keys candidates.keys set.keys) }
    ensures rising { IfOk result (λ set. IsStrictlySortedBy path_cmp set.keys) }
{
    let mut set = candidates;
    for path in changed {
        note_watchers(&mut set, watchers, written, out, path)?;
    }
    // For the proof alone: the call tells that the paths rise.
    let _count = set.len();
    Ok(set)
}

// Whether the other path begins with this one.
fn begins(path: &Path, other: &Path) -> bool
    ensures { result ≡ is_front path.now other.now }
{
    if other.len() < path.len() {
        return false;
    }
    other.compare_front(path.len(), path).is_eq()
}

// Notes a path that goes.
fn note_gone(set: &mut BTreeSet<Path>, out: &mut Out, path: &Path) -> Result<(), AllocError>
    ensures adds { OnOk result ((q : List NameText) → is_in set.new.keys q ≡ (is_eq (path_cmp path.now q) || is_in set.old.keys q)) }
    ensures left { OnOk result ((q : List NameText) → is_in out.new.left.keys q ≡ (is_eq (path_cmp path.now q) || is_in out.old.left.keys q)) }
    ensures gone { OnOk result ((q : List NameText) → is_in out.new.gone.keys q ≡ (is_eq (path_cmp path.now q) || is_in out.old.gone.keys q)) }
{
    note(set, path)?;
    note(&mut out.left, path)?;
    note(&mut out.gone, path)
}

// Notes what stands below the path, and the path itself.
fn add_below<L: Ledger>(
    draft: &Draft,
    set: &mut BTreeSet<Path>,
    out: &mut Out,
    top: &Path,
    steps: &mut Steps<L>,
) -> Result<(), AllocError>
    ensures stays { OnOk result (IsWithin set.old.keys set.new.keys) }
    ensures below { OnOk result (HasBelow draft.now.tree top.now set.new.keys) }
    ensures left { OnOk result (GoesUnder (top.now ∷ []) out.old.left.keys out.new.left.keys) }
    ensures gone { OnOk result (GoesUnder (top.now ∷ []) out.old.gone.keys out.new.gone.keys) }
    ensures only { OnOk result (OnlyBelow draft.now.tree top.now set.old.keys set.new.keys) }
    ensures out { OnOk result (KeepsBelow draft.now.tree top.now out.old.left.keys out.new.left.keys × KeepsBelow draft.now.tree top.now out.old.gone.keys out.new.gone.keys) }
    ensures cost { OnOk result (steps.new ≤ steps.old + (1 + below draft.now.tree top.now)) }
    ensures risen { steps.old ≤ steps.new }
{
    note_gone(set, out, top)?;
    let mut at = top.copy()?;
    'walk: while let Some(path) = draft.next_under(top, &at, steps)? {
        note_gone(set, out, &path)?;
        at = path;
    }
    Ok(())
}

// The parent of the path; none of the root.
pub(crate) fn parent(path: &Path) -> Result<Option<Path>, AllocError>
    ensures parent { IfOk result (λ o. (r : List NameText) → IsTrue (is_child r path.now) → o ≡ Some r) }
    ensures child { IfOk result (λ o. (r : List NameText) → o ≡ Some r → IsTrue (is_child r path.now)) }
{
    let names = path.len();
    if names == 0 {
        return Ok(None);
    }
    Ok(Some(path.front(names - 1)?))
}

// Adds the parent of the path.
fn add_above(set: &mut BTreeSet<Path>, path: &Path) -> Result<(), AllocError>
    ensures stays { OnOk result (IsWithin set.old.keys set.new.keys) }
    ensures above { OnOk result (HasAbove path.now set.new.keys) }
    ensures only { OnOk result (OnlyAbove path.now set.old.keys set.new.keys) }
{
    match parent(path)? {
        None => Ok(()),
        Some(parent) => note(set, &parent),
    }
}

// What a round changes that drops these paths; what goes is left out from then on.
pub(crate) fn changed_by<L: Ledger>(
    draft: &Draft,
    tops: &[Path],
    out: &mut Out,
    steps: &mut Steps<L>,
) -> Result<BTreeSet<Path>, AllocError>
    ensures near { IfOk result (λ set. HasNear draft.now.tree tops.now set.keys) }
    ensures left { OnOk result (GoesUnder tops.now out.old.left.keys out.new.left.keys) }
    ensures gone { OnOk result (GoesUnder tops.now out.old.gone.keys out.new.gone.keys) }
    ensures only { IfOk result (λ set. OnlyNear draft.now.tree tops.now set.keys) }
    ensures out { OnOk result (KeepsUnder draft.now.tree tops.now out.old.left.keys out.new.left.keys × KeepsUnder draft.now.tree tops.now out.old.gone.keys out.new.gone.keys) }
    ensures cost { OnOk result (steps.new ≤ steps.old + walks draft.now.tree tops.now) }
    ensures risen { steps.old ≤ steps.new }
{
    // For the proof alone: the call tells that each front of a standing path stands.
    let _nodes = draft.nodes();
    let mut set = BTreeSet::new(draft.alloc());
    for top in tops {
        add_above(&mut set, top)?;
        add_below(draft, &mut set, out, top, steps)?;
    }
    Ok(set)
}

// Whether the path is the last of these or below it.
fn is_covered(tops: &[Path], path: &Path) -> bool
    ensures covered { IsTrue result → IsTrue (is_under tops.now path.now) }
    ensures apart { result ≡ false → EndsApart tops.now path.now }
{
    match tops {
        [] => false,
        [.., last] => begins(last, path),
    }
}

// The paths of the candidates that fail, but for those below another.
pub(crate) fn failing_tops<L: Ledger>(
    draft: &Draft,
    candidates: &BTreeSet<Path>,
    steps: &mut Steps<L>,
) -> Result<Vec<Path>, AllocError>
    ensures tops { IfOk result (λ v. SameBelow v.items (tested draft.now.tree candidates.now.keys)) }
    ensures standing { IfOk result (λ v. (p : List NameText) → IsTrue (is_in v.items p) → IsTrue (stands draft.now.tree p)) }
    ensures rising { IfOk result (λ v. IsStrictlySortedBy path_cmp v.items) }
    ensures apart { IfOk result (λ v. AreApart v.items) }
    ensures cost { OnOk result (steps.new ≤ steps.old + (1 + MAX_WATCHES) * length candidates.now.keys) }
    ensures risen { steps.old ≤ steps.new }
{
    // For the proof alone: the call tells that the paths rise.
    let _count = candidates.len();
    let mut tops = Vec::new(draft.alloc());
    for path in candidates {
        if fails(draft, path, steps) && !is_covered(tops.as_slice(), path) {
            tops.push(path.copy()?)?;
        }
    }
    Ok(tops)
}
