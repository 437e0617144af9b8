// Settling by a worklist.
ghost use Rattle.std.specs.Prelude.{◌≡◌, ℕ, ◌≤◌, IfOk, OnOk, IsTrue, []};
ghost use Rattle.khepri_types.specs.Settling.{stable, settle, gone};
ghost use Rattle.worklist_laws.specs.Candidates.{IsEnough, ListsAll};
ghost use Rattle.worklist_laws.specs.Links.{HoldsWatches, linked_to};
ghost use Rattle.keep_while.specs.Costs.{IsPaidFor, IsPaidSoFar, OnlyWatch};
ghost use Rattle.keep_while.specs.Gathering.{AreOut, asked, both};

use crate::first::first;
use crate::gather::{Out, changed_by, failing_tops, watching};
use crate::glance::some_node_fails;
use khepri_terms::Path;
use reverse_watch::Watchers;
use std::alloc::AllocError;
use std::collections::BTreeSet;
use std::sync::ledger::Ledger;
use step_count::Steps;
use tree_nodes::Draft;

// Rounds over candidates, as long as one of them fails; how many nodes went.
fn rounds<L: Ledger>(
    draft: &mut Draft,
    watchers: &Watchers,
    written: &Watchers,
    out: &mut Out,
    first: BTreeSet<Path>,
    steps: &mut Steps<L>,
) -> Result<u64, AllocError>
    requires enough { IsEnough draft.old.tree first.keys }
    requires lists { ListsAll draft.old.tree (both draft.old.touched (linked_to watchers.now) (linked_to written.now)) }
    requires left { AreOut draft.old.touched draft.old.tree out.old.left.keys }
    requires gone { AreOut [] draft.old.tree out.old.gone.keys }
    requires asked { OnlyWatch draft.old.tree (asked out.old.left.keys out.old.gone.keys (linked_to watchers.now) (linked_to written.now)) }
    ensures base { draft.new.base ≡ draft.old.base }
    ensures tree { OnOk result (draft.new.tree ≡ settle draft.old.tree) }
    ensures count { IfOk result (λ n. n ≡ gone draft.old.tree) }
    ensures cost { OnOk result ((start : ℕ) → IsPaidSoFar draft.old draft.old.tree first.keys start steps.old → IsPaidFor draft.old start steps.new) }
    ensures risen { steps.old ≤ steps.new }
{
    let before = draft.nodes();
    let mut candidates = first;
    'rounds: loop {
        let tops = failing_tops(draft, &candidates, steps)?;
        if tops.len() == 0 {
            return Ok(before - draft.nodes());
        }
        let changed = changed_by(draft, tops.as_slice(), out, steps)?;
        draft.drop_all(tops.as_slice(), steps)?;
        let none = BTreeSet::new(draft.alloc());
        candidates = watching(watchers, written, out, &changed, none)?;
    }
}

/// Settles the draft: as long as some node fails, a round drops all nodes that fail, with all nodes below them. It answers how many
/// nodes went. No node fails in the tree under the draft, and the index holds the watches of that tree. A look over the touched nodes
/// and those who watch what is seen anew comes first; where one of these fails, the first round tests them all, and each later round
/// those who watch what the round before it changed.
pub fn settle<L: Ledger>(
    draft: &mut Draft,
    watchers: &Watchers,
    steps: &mut Steps<L>,
) -> Result<u64, AllocError>
    requires settled { IsTrue (stable draft.old.base) }
    requires index { HoldsWatches draft.old.base watchers.now }
    ensures base { draft.new.base ≡ draft.old.base }
    ensures tree { OnOk result (draft.new.tree ≡ settle draft.old.tree) }
    ensures count { IfOk result (λ n. n ≡ gone draft.old.tree) }
    ensures cost { OnOk result (IsPaidFor draft.old steps.old steps.new) }
    ensures risen { steps.old ≤ steps.new }
{
    if !some_node_fails(draft, watchers, steps)? {
        return Ok(0);
    }
    let mut written = Watchers::fresh(draft.alloc());
    let mut out = Out {
        left: BTreeSet::new(draft.alloc()),
        gone: BTreeSet::new(draft.alloc()),
    };
    let candidates = first(draft, watchers, &mut written, &mut out, steps)?;
    rounds(draft, watchers, &written, &mut out, candidates, steps)
}
