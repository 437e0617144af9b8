// Which watch of the written nodes isn't met.
ghost use Rattle.std.specs.Prelude.{◌≡◌, ◌||◌, List, IfOk, OnOk};
ghost use Rattle.std.specs.List.Sorted.{IsStrictlySortedBy};
ghost use Rattle.std.specs.Option.{option_map};
ghost use Rattle.std.specs.Ordering.{is_eq};
ghost use Rattle.std.specs.FinMap.{get};
ghost use Rattle.khepri_terms.specs.Order.{path_cmp};
ghost use Rattle.khepri_terms.specs.Terms.{NameText};
ghost use Rattle.khepri_types.specs.Watching.{unmet_of};
ghost use Rattle.worklist_laws.specs.Candidates.{is_in};
ghost use Rattle.khepri_types.specs.Transactions.{unmet_among};

use keep_while::first_unmet;
use khepri_terms::Path;
use std::alloc::{AllocError, Global};
use std::collections::BTreeSet;
use std::sync::ledger::Ledger;
use step_count::Steps;
use tree_nodes::Draft;

// Adds the path.
fn add(set: &mut BTreeSet<Path>, path: &Path) -> Result<(), AllocError>
    ensures { OnOk result ((q : List NameText) → is_in set.new.keys q ≡ (is_eq (path_cmp path.now q) || is_in set.old.keys q)) }
{
    set.insert(path.copy()?)?;
    Ok(())
}

// The paths in order, each once.
fn in_order(alloc: Global, written: &[Path]) -> Result<BTreeSet<Path>, AllocError>
    ensures same { IfOk result (λ set. (q : List NameText) → is_in set.keys q ≡ is_in written.now q) }
    ensures rising { IfOk result (λ set. IsStrictlySortedBy path_cmp set.keys) }
{
    let mut set = BTreeSet::new(alloc);
    for path in written {
        add(&mut set, path)?;
    }
    // For the proof alone: the call tells that the paths rise.
    let _count = set.len();
    Ok(set)
}

// The target of the first watch of the node at the path that isn't met.
fn unmet<L: Ledger>(
    draft: &Draft,
    path: &Path,
    steps: &mut Steps<L>,
) -> Result<Option<Path>, AllocError>
    ensures { IfOk result (λ o. o ≡ option_map (λ w. w.target) (unmet_of draft.now.tree (get draft.now.tree path.now))) }
{
    match first_unmet(draft, path, steps) {
        None => Ok(None),
        Some(target) => Ok(Some(target.copy()?)),
    }
}

/// The target of the first watch that isn't met of the nodes that stand at the written paths, by the node's path and then by the
/// watch's place; none where all are met. The paths may come in any order, and more than once.
pub fn first_unmet_written<L: Ledger>(
    draft: &Draft,
    written: &[Path],
    steps: &mut Steps<L>,
) -> Result<Option<Path>, AllocError>
    ensures { IfOk result (λ o. o ≡ option_map (λ w. w.target) (unmet_among draft.now.tree written.now)) }
{
    let paths = in_order(draft.alloc(), written)?;
    for path in &paths {
        if let Some(target) = unmet(draft, path, steps)? {
            return Ok(Some(target));
        }
    }
    Ok(None)
}
