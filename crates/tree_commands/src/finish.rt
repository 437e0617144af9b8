// How a command that changed its draft ends.
ghost use Rattle.std.specs.Prelude.{◌≡◌, None, IfOk, OnOk, IsTrue};
ghost use Rattle.std.specs.Option.{option_map};
ghost use Rattle.std.specs.FinMap.{get};
ghost use Rattle.khepri_types.specs.Exec.{State, pv_of, settle_within_limits, finish_write, done_unless};
ghost use Rattle.khepri_types.specs.Settling.{stable};
ghost use Rattle.khepri_types.specs.Sizes.{fits};
ghost use Rattle.khepri_types.specs.Transactions.{unmet_among};
ghost use Rattle.khepri_types.specs.Watching.{unmet_of};
ghost use Rattle.worklist_laws.specs.Links.{HoldsWatches};
ghost use Rattle.tree_commands.specs.Replies.{answered, IsSettled};

use draft_scene::first_unmet_written;
use keep_while::{first_unmet, settle};
use khepri_terms::Path;
use khepri_types::limits::{MAX_TREE_BYTES, MAX_TREE_NODES};
use khepri_types::{Reply, Value};
use reverse_watch::Watchers;
use sqlite_items::Items;
use std::alloc::AllocError;
use std::sync::ledger::Ledger;
use step_count::Steps;
use tree_nodes::Draft;

// Whether the draft keeps the limits of a tree.
fn fits(draft: &Draft) -> bool
    ensures { result ≡ fits draft.now.tree }
{
    draft.nodes() <= MAX_TREE_NODES as u64 && draft.bytes() <= MAX_TREE_BYTES
}

// The draft settles, and keeps what is left unless it passes a limit. The reply has this number.
pub(crate) fn settle_within_limits<L: Ledger>(
    draft: &mut Draft,
    watchers: &Watchers,
    number: u64,
    steps: &mut Steps<L>,
) -> Result<Reply, AllocError>
    requires settled { IsTrue (stable draft.old.base) }
    requires index { HoldsWatches draft.old.base watchers.now }
    ensures base { draft.new.base ≡ draft.old.base }
    ensures value { IfOk result (λ r. (S : State) → settle_within_limits S draft.old.tree number ≡ answered S r draft.new.tree) }
    ensures settled { IfOk result (λ r. IsSettled r draft.new.tree) }
{
    let gone = settle(draft, watchers, steps)?;
    if !fits(draft) {
        return Ok(Reply::NoFull);
    }
    Ok(Reply::Changed {
        count: number,
        gone,
    })
}

// A watch of the written node that isn't met refuses the command.
fn unmet<L: Ledger>(
    draft: &Draft,
    path: &Path,
    steps: &mut Steps<L>,
) -> Result<Option<Path>, AllocError>
    ensures { IfOk result (λ o. o ≡ option_map (λ w. w.target) (unmet_of draft.now.tree (get draft.now.tree path.now))) }
{
    match first_unmet(draft, path, steps) {
        None => Ok(None),
        Some(target) => Ok(Some(target.copy()?)),
    }
}

// The node at the path was written in the draft, and has this payload version.
pub(crate) fn finish_write<L: Ledger>(
    draft: &mut Draft,
    watchers: &Watchers,
    path: &Path,
    version: u64,
    steps: &mut Steps<L>,
) -> Result<Reply, AllocError>
    requires settled { IsTrue (stable draft.old.base) }
    requires index { HoldsWatches draft.old.base watchers.now }
    requires version { version ≡ pv_of (get draft.old.tree path.now) }
    ensures base { draft.new.base ≡ draft.old.base }
    ensures value { IfOk result (λ r. (S : State) → finish_write S path.now draft.old.tree ≡ answered S r draft.new.tree) }
    ensures settled { IfOk result (λ r. IsSettled r draft.new.tree) }
{
    if let Some(target) = unmet(draft, path, steps)? {
        return Ok(Reply::NoWhile { target });
    }
    settle_within_limits(draft, watchers, version, steps)
}

// What a script made of the draft settles, and is kept unless it passes a limit. The reply has what the script emitted.
fn settle_done<L: Ledger>(
    draft: &mut Draft,
    watchers: &Watchers,
    values: Items<Value>,
    steps: &mut Steps<L>,
) -> Result<Reply, AllocError>
    requires settled { IsTrue (stable draft.old.base) }
    requires index { HoldsWatches draft.old.base watchers.now }
    ensures base { draft.new.base ≡ draft.old.base }
    ensures value { IfOk result (λ r. (S : State) → done_unless None S draft.old.tree values ≡ answered S r draft.new.tree) }
    ensures settled { IfOk result (λ r. IsSettled r draft.new.tree) }
{
    let removed = settle(draft, watchers, steps)?;
    if !fits(draft) {
        return Ok(Reply::NoFull);
    }
    Ok(Reply::Done {
        gone: removed,
        values,
    })
}

// A script ran to its end on the draft, wrote these paths and emitted these values.
pub(crate) fn finish_run<L: Ledger>(
    draft: &mut Draft,
    watchers: &Watchers,
    written: &[Path],
    values: Items<Value>,
    steps: &mut Steps<L>,
) -> Result<Reply, AllocError>
    requires settled { IsTrue (stable draft.old.base) }
    requires index { HoldsWatches draft.old.base watchers.now }
    ensures base { draft.new.base ≡ draft.old.base }
    ensures value { IfOk result (λ r. (S : State) → done_unless (unmet_among draft.old.tree written.now) S draft.old.tree values ≡ answered S r draft.new.tree) }
    ensures settled { IfOk result (λ r. IsSettled r draft.new.tree) }
{
    if let Some(target) = first_unmet_written(draft, written, steps)? {
        return Ok(Reply::NoWhile { target });
    }
    settle_done(draft, watchers, values, steps)
}
