// Paths that are dropped in one round.
ghost use Rattle.std.specs.Prelude.{◌≡◌, ◌<◌, ◌-◌, ◌&&◌, ◌||◌, List, [], IsTrue, IfOk, OnOk, None, cond, not, false, length, take};
ghost use Rattle.std.specs.Option.{option_map};
ghost use Rattle.std.specs.Ordering.{is_eq};
ghost use Rattle.std.specs.FinMap.{get, len};
ghost use Rattle.khepri_terms.specs.Terms.{NameText};
ghost use Rattle.khepri_terms.specs.Order.{path_cmp};
ghost use Rattle.khepri_types.specs.Drop.{drop};
ghost use Rattle.khepri_types.specs.Paths.{is_under};
ghost use Rattle.khepri_types.specs.Sizes.{kids};
ghost use Rattle.khepri_types.specs.Tree.{stands};
ghost use Rattle.tree_overlay.specs.Over.{is_touched, StaysTouched, Touches};
ghost use Rattle.tree_walks.specs.Notes.{is_parent, lost_if, rises_at};

use crate::raises::raise;
use crate::sweeps::sweep;
use khepri_terms::Path;
use std::alloc::AllocError;
use std::collections::BTreeSet;
use tree_overlay::Draft;

// The path above.
fn parent_of(path: &Path) -> Result<Path, AllocError>
    requires below { 0 < length path.now }
    ensures { IfOk result (λ p. p ≡ take (length path.now - 1) path.now) }
{
    path.front(path.len() - 1)
}

// The node at the path loses a child, in one look, and answers how many it has: it changes unless it is one of those that already
// lost one.
fn lose(draft: &mut Draft, losers: &mut BTreeSet<Path>, path: Path) -> Result<u64, AllocError>
    requires stands { IsTrue (stands draft.old.tree path) }
    ensures base { draft.new.base ≡ draft.old.base }
    ensures tree { OnOk result ((q : List NameText) → get draft.new.tree q ≡ option_map (lost_if (is_eq (path_cmp path q) && not (is_touched losers.old.keys q))) (get draft.old.tree q)) }
    ensures touched { OnOk result ((q : List NameText) → is_touched draft.new.touched q ≡ (((is_eq (path_cmp path q) && not (is_touched losers.old.keys q)) && rises_at (get draft.old.tree q)) || is_touched draft.old.touched q)) }
    ensures losers { OnOk result ((q : List NameText) → is_touched losers.new.keys q ≡ (is_eq (path_cmp path q) || is_touched losers.old.keys q)) }
    ensures kids { OnOk result ((q : List NameText) → kids draft.new.tree q ≡ kids draft.old.tree q) }
    ensures count { IfOk result (λ n. n ≡ kids draft.old.tree path) }
    ensures stays { StaysTouched draft.old.touched draft.new.touched }
{
    if losers.contains(&path) {
        return Ok(draft.kids(&path));
    }
    let count = raise(draft, &path)?;
    losers.insert(path)?;
    Ok(count)
}

// Takes out the nodes at the paths and all below them. Of each path that stands the parent is looked at, and changes the first time.
fn drop_each(draft: &mut Draft, paths: &[Path]) -> Result<(), AllocError>
    requires below { is_under paths.now [] ≡ false }
    ensures base { draft.new.base ≡ draft.old.base }
    ensures tree { OnOk result ((q : List NameText) → get draft.new.tree q ≡ cond (is_under paths.now q) None (option_map (lost_if (is_parent draft.old.tree paths.now q)) (get draft.old.tree q))) }
    ensures touched { OnOk result ((q : List NameText) → is_touched draft.new.touched q ≡ ((is_under paths.now q && stands draft.old.tree q) || ((is_parent draft.old.tree paths.now q && rises_at (get draft.old.tree q)) || is_touched draft.old.touched q))) }
    ensures stays { StaysTouched draft.old.touched draft.new.touched }
{
    let mut losers = BTreeSet::new(draft.alloc());
    'paths: for path in paths {
        let _nodes = draft.nodes();
        let Some(seen) = draft.measure(path) else {
            continue 'paths;
        };
        let above = parent_of(path)?;
        let before = lose(draft, &mut losers, above)?;
        sweep(draft, path, seen, before)?;
    }
    Ok(())
}

/// Drops the nodes at these paths and all below them, in one round; answers how many they were. Each node that stays and lost a
/// child has its child-list version raised, once. The looks are one at each path, and one for each node that goes: the nodes below a
/// path, and the parent of the path.
pub fn drop_all(draft: &mut Draft, paths: &[Path]) -> Result<u64, AllocError>
    requires below { is_under paths.now [] ≡ false }
    ensures base { draft.new.base ≡ draft.old.base }
    ensures tree { OnOk result (draft.new.tree ≡ drop draft.old.tree paths.now) }
    ensures count { IfOk result (λ n. n ≡ len draft.old.tree - len draft.new.tree) }
    ensures touches { OnOk result (Touches draft.old.tree draft.new.tree draft.old.touched draft.new.touched) }
    ensures stays { StaysTouched draft.old.touched draft.new.touched }
{
    let before = draft.nodes();
    drop_each(draft, paths)?;
    Ok(before - draft.nodes())
}
