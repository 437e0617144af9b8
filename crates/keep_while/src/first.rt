// What the first round tests.
ghost use Rattle.std.specs.Prelude.{◌≡◌, ℕ, ◌+◌, ◌*◌, ◌≤◌, length, List, [], IfOk, OnOk, IsTrue, false, None, ◌||◌, ◌⊎◌};
ghost use Rattle.std.specs.Ordering.{is_eq};
ghost use Rattle.khepri_terms.specs.Order.{path_cmp};
ghost use Rattle.khepri_terms.specs.Terms.{NameText};
ghost use Rattle.khepri_types.specs.Conditions.{seen_at};
ghost use Rattle.khepri_types.specs.Settling.{stable};
ghost use Rattle.khepri_types.specs.Tree.{stands};
ghost use Rattle.tree_nodes.specs.Drafts.{IsCovered, IsTouched};
ghost use Rattle.worklist_laws.specs.Candidates.{is_in, IsWithin, IsEnough, watches_at, ListsAll};
ghost use Rattle.worklist_laws.specs.Links.{HoldsWatches, linked_to};
ghost use Rattle.std.specs.FinMap.{get, empty};
ghost use Rattle.keep_while.specs.Costs.{AreAnew, IsFirst, LinksTouched, OnlyAnew, OnlyLinks, OnlyWatch};
ghost use Rattle.keep_while.specs.Gathering.{AreOut, asked, both, IsShownAlike, LooksAt, NotesAbove};

use crate::gather::{Out, note, parent, watching};
use khepri_terms::Path;
use khepri_types::NodeView;
use reverse_watch::Watchers;
use std::alloc::AllocError;
use std::collections::BTreeSet;
use std::sync::ledger::Ledger;
use step_count::Steps;
use tree_nodes::Draft;

// Whether two views of one path show something else.
fn shows_else(old: &NodeView, new: &NodeView) -> bool
    ensures same { result ≡ false → IsShownAlike old.now new.now }
    ensures differs { IsTrue result → IsShownAlike old.now new.now → ⊥ }
{
    if !old.payload.is_same(new.payload) {
        return true;
    }
    if old.pv != new.pv {
        return true;
    }
    if old.cv != new.cv {
        return true;
    }
    if old.kids != new.kids {
        return true;
    }
    false
}

// Whether something else is seen at the path than in the tree under the draft.
pub(crate) fn is_seen_anew<L: Ledger>(draft: &Draft, path: &Path, steps: &mut Steps<L>) -> bool
    ensures same { result ≡ false → seen_at draft.now.base path.now ≡ seen_at draft.now.tree path.now }
    ensures differs { IsTrue result → seen_at draft.now.base path.now ≡ seen_at draft.now.tree path.now → ⊥ }
    ensures steps { steps.new ≡ steps.old + 2 }
{
    match (draft.base().node(path, steps), draft.node(path, steps)) {
        (None, None) => false,
        (Some(old), Some(new)) => shows_else(&old, &new),
        _ => true,
    }
}

// Whether the node at the path came or went.
pub(crate) fn came_or_went<L: Ledger>(draft: &Draft, path: &Path, steps: &mut Steps<L>) -> bool
    ensures same { result ≡ false → stands draft.now.base path.now ≡ stands draft.now.tree path.now }
    ensures steps { steps.new ≡ steps.old + 2 }
{
    draft.base().node(path, steps).is_some() != draft.node(path, steps).is_some()
}

// Notes the path, where it is seen anew.
fn note_seen<L: Ledger>(
    draft: &Draft,
    changed: &mut BTreeSet<Path>,
    path: &Path,
    steps: &mut Steps<L>,
) -> Result<(), AllocError>
    ensures stays { OnOk result (IsWithin changed.old.keys changed.new.keys) }
    ensures anew { OnOk result ((seen_at draft.now.base path.now ≡ seen_at draft.now.tree path.now → ⊥) → IsTrue (is_in changed.new.keys path.now)) }
    ensures only { OnOk result (OnlyAnew draft.now.base draft.now.tree changed.old.keys changed.new.keys) }
    ensures steps { steps.new ≡ steps.old + 2 }
{
    if !is_seen_anew(draft, path, steps) {
        return Ok(());
    }
    note(changed, path)
}

// Notes the parent of the path, where the node came or went and something else is seen at the parent.
fn note_moved<L: Ledger>(
    draft: &Draft,
    changed: &mut BTreeSet<Path>,
    path: &Path,
    steps: &mut Steps<L>,
) -> Result<(), AllocError>
    ensures stays { OnOk result (IsWithin changed.old.keys changed.new.keys) }
    ensures above { OnOk result (NotesAbove draft.now.base draft.now.tree path.now changed.new.keys) }
    ensures only { OnOk result (OnlyAnew draft.now.base draft.now.tree changed.old.keys changed.new.keys) }
    ensures cost { steps.new ≤ steps.old + 4 }
    ensures risen { steps.old ≤ steps.new }
{
    if !came_or_went(draft, path, steps) {
        return Ok(());
    }
    match parent(path)? {
        None => Ok(()),
        Some(parent) => note_seen(draft, changed, &parent, steps),
    }
}

// Links the node at the path, where one stands, to what it watches in the draft, and notes it as gone where none does.
fn link<L: Ledger>(
    draft: &Draft,
    written: &mut Watchers,
    gone: &mut BTreeSet<Path>,
    path: &Path,
    steps: &mut Steps<L>,
) -> Result<(), AllocError>
    requires unlinked { get written.old path.now ≡ None }
    ensures linked { OnOk result ((t : List NameText) → IsTrue (watches_at draft.now.tree path.now t) → IsTrue (is_in (linked_to written.new t) path.now)) }
    ensures stays { OnOk result ((t : List NameText) → IsWithin (linked_to written.old t) (linked_to written.new t)) }
    ensures others { OnOk result ((p : List NameText) → (p ≡ path.now → ⊥) → get written.old p ≡ None → get written.new p ≡ None) }
    ensures gone { OnOk result ((p : List NameText) → IsTrue (is_in gone.new.keys p) → IsTrue (is_in gone.old.keys p) ⊎ (stands draft.now.tree p ≡ false)) }
    ensures only { OnOk result (OnlyLinks draft.now.tree path.now (linked_to written.old) (linked_to written.new)) }
    ensures steps { steps.new ≡ steps.old + 1 }
{
    match draft.node(path, steps) {
        None => note(gone, path),
        Some(node) => written.link(path, node.watches),
    }
}

// Looks at a touched path.
fn look<L: Ledger>(
    draft: &Draft,
    tests: &mut BTreeSet<Path>,
    changed: &mut BTreeSet<Path>,
    written: &mut Watchers,
    out: &mut Out,
    path: &Path,
    steps: &mut Steps<L>,
) -> Result<(), AllocError>
    requires unlinked { get written.old path.now ≡ None }
    ensures looks { OnOk result (LooksAt draft.now.base draft.now.tree (linked_to written.new) tests.new.keys changed.new.keys path.now) }
    ensures tests { OnOk result (IsWithin tests.old.keys tests.new.keys) }
    ensures changed { OnOk result (IsWithin changed.old.keys changed.new.keys) }
    ensures linked { OnOk result ((t : List NameText) → IsWithin (linked_to written.old t) (linked_to written.new t)) }
    ensures others { OnOk result ((p : List NameText) → (p ≡ path.now → ⊥) → get written.old p ≡ None → get written.new p ≡ None) }
    ensures left { OnOk result ((q : List NameText) → is_in out.new.left.keys q ≡ (is_eq (path_cmp path.now q) || is_in out.old.left.keys q)) }
    ensures gone { OnOk result ((p : List NameText) → IsTrue (is_in out.new.gone.keys p) → IsTrue (is_in out.old.gone.keys p) ⊎ (stands draft.now.tree p ≡ false)) }
    ensures tested { OnOk result ((q : List NameText) → is_in tests.new.keys q ≡ (is_eq (path_cmp path.now q) || is_in tests.old.keys q)) }
    ensures anew { OnOk result (OnlyAnew draft.now.base draft.now.tree changed.old.keys changed.new.keys) }
    ensures only { OnOk result (OnlyLinks draft.now.tree path.now (linked_to written.old) (linked_to written.new)) }
    ensures cost { OnOk result (steps.new ≤ steps.old + 7) }
    ensures risen { steps.old ≤ steps.new }
{
    note(tests, path)?;
    note(&mut out.left, path)?;
    note_seen(draft, changed, path, steps)?;
    note_moved(draft, changed, path, steps)?;
    link(draft, written, &mut out.gone, path, steps)
}

// Looks at all touched paths: which nodes to test, which paths the change has changed, and what the touched nodes watch now.
pub(crate) fn look_at_all<L: Ledger>(
    draft: &Draft,
    tests: &mut BTreeSet<Path>,
    changed: &mut BTreeSet<Path>,
    written: &mut Watchers,
    out: &mut Out,
    steps: &mut Steps<L>,
) -> Result<(), AllocError>
    requires none { written.old ≡ empty }
    requires out { (out.old.left.keys ≡ []) × (out.old.gone.keys ≡ []) }
    requires bare { (tests.old.keys ≡ []) × (changed.old.keys ≡ []) }
    ensures looks { OnOk result ((q : List NameText) → IsTouched draft.now.touched q → LooksAt draft.now.base draft.now.tree (linked_to written.new) tests.new.keys changed.new.keys q) }
    ensures covered { OnOk result (IsCovered draft.now.base draft.now.tree draft.now.touched) }
    ensures left { OnOk result (IsWithin out.new.left.keys draft.now.touched) }
    ensures gone { OnOk result (AreOut [] draft.now.tree out.new.gone.keys) }
    ensures tested { OnOk result (IsWithin tests.new.keys draft.now.touched) }
    ensures leaves { OnOk result (IsWithin draft.now.touched out.new.left.keys) }
    ensures anew { OnOk result (AreAnew draft.now.base draft.now.tree changed.new.keys) }
    ensures only { OnOk result (LinksTouched draft.now.tree draft.now.touched (linked_to written.new)) }
    ensures cost { OnOk result (steps.new ≤ steps.old + 8 * length draft.now.touched + 1) }
    ensures risen { steps.old ≤ steps.new }
{
    let mut after = None;
    'touched: while let Some(path) = draft.touched_after(after, steps) {
        look(draft, tests, changed, written, out, path, steps)?;
        after = Some(path);
    }
    Ok(())
}

// The candidates of the first round; what the touched nodes watch goes into `written`, and what need not be asked for into `out`.
pub(crate) fn first<L: Ledger>(
    draft: &Draft,
    watchers: &Watchers,
    written: &mut Watchers,
    out: &mut Out,
    steps: &mut Steps<L>,
) -> Result<BTreeSet<Path>, AllocError>
    requires settled { IsTrue (stable draft.now.base) }
    requires index { HoldsWatches draft.now.base watchers.now }
    requires none { written.old ≡ empty }
    requires out { (out.old.left.keys ≡ []) × (out.old.gone.keys ≡ []) }
    ensures enough { IfOk result (λ set. IsEnough draft.now.tree set.keys) }
    ensures lists { OnOk result (ListsAll draft.now.tree (both draft.now.touched (linked_to watchers.now) (linked_to written.new))) }
    ensures left { OnOk result (AreOut draft.now.touched draft.now.tree out.new.left.keys) }
    ensures gone { OnOk result (AreOut [] draft.now.tree out.new.gone.keys) }
    ensures asked { OnOk result (OnlyWatch draft.now.tree (asked out.new.left.keys out.new.gone.keys (linked_to watchers.now) (linked_to written.new))) }
    ensures few { IfOk result (λ set. IsFirst draft.now set.keys) }
    ensures cost { OnOk result (steps.new ≤ steps.old + 8 * length draft.now.touched + 1) }
    ensures risen { steps.old ≤ steps.new }
{
    let mut tests = BTreeSet::new(draft.alloc());
    let mut changed = BTreeSet::new(draft.alloc());
    look_at_all(draft, &mut tests, &mut changed, written, out, steps)?;
    // For the proof alone: the call tells that the paths rise.
    let _count = changed.len();
    watching(watchers, written, out, &changed, tests)
}
