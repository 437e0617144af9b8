// Running a script on a draft.
ghost use Rattle.std.specs.Prelude.{◌≡◌, [], IfOk, OnOk};
ghost use Rattle.khepri_types.specs.Statements.{script, outcome_of, end_of};

use crate::scene::DraftScene;
use khepri_terms::{Path, Rec};
use khepri_types::Outcome;
use std::alloc::AllocError;
use std::sync::ledger::Ledger;
use step_count::Steps;
use tree_nodes::Draft;
use tx_script::{Checked, run_script};

/// Runs a script with these arguments and this path on a draft. The paths that it writes are noted in order of writing, a path as
/// often as it is written. Nothing settles, no watch is tested and no limit of a tree: the draft is as the script's last statement,
/// or the one that stopped it, left it. After `AllocError` it may only be dropped. Each read of the script counts a step.
pub fn run_on_draft<L: Ledger>(
    checked: &Checked,
    args: &Rec,
    at: &Path,
    draft: &mut Draft,
    written: &mut Vec<Path>,
    steps: &mut Steps<L>,
) -> Result<Outcome, AllocError>
    requires fresh { written.old.items ≡ [] }
    ensures base { draft.new.base ≡ draft.old.base }
    ensures outcome { IfOk result (λ o. o ≡ outcome_of (script checked.now args.now at.now draft.old.tree)) }
    ensures tree { OnOk result (draft.new.tree ≡ (end_of (script checked.now args.now at.now draft.old.tree)).scene.tree) }
    ensures written { OnOk result (written.new.items ≡ (end_of (script checked.now args.now at.now draft.old.tree)).scene.written) }
{
    let alloc = draft.alloc();
    let mut scene = DraftScene {
        draft,
        steps,
        written,
    };
    run_script(alloc, checked, args, at, &mut scene)
}
