// Commands that write or drop nodes.
ghost use Rattle.std.specs.Prelude.{◌≡◌, ◌≤◌, [], false, IfOk, OnOk, IsTrue, length};
ghost use Rattle.khepri_types.specs.declared.command.Command.TheVariants as command;
ghost use Rattle.khepri_types.specs.declared.limits.TheConstants.{MAX_PATH_NAMES};
ghost use Rattle.khepri_types.specs.Conditions.{holds_at};
ghost use Rattle.khepri_types.specs.Exec.{write, dropped};
ghost use Rattle.khepri_types.specs.Paths.{is_under};
ghost use Rattle.khepri_types.specs.Settling.{stable};
ghost use Rattle.khepri_types.specs.Tree.{stands};
ghost use Rattle.khepri_types.specs.Watching.{watch};
ghost use Rattle.worklist_laws.specs.Links.{HoldsWatches};
ghost use Rattle.tree_commands.specs.Replies.{Answers, IsAnswered, IsSettled};

use crate::finish::{finish_write, settle_within_limits};
use crate::read::matching;
use crate::refusal::unwritable;
use khepri_terms::Path;
use khepri_types::{Condition, Pattern, Payload, Reply, Watches, Watching};
use reverse_watch::Watchers;
use std::alloc::AllocError;
use std::sync::ledger::Ledger;
use step_count::Steps;
use tree_nodes::Draft;

// Whether a node stands at the path.
#[tactic(auto, using(crate::proofs::Seeing::view_stands))]
fn stands<L: Ledger>(draft: &Draft, path: &Path, steps: &mut Steps<L>) -> bool
    ensures value { result ≡ stands draft.now.tree path.now }
    ensures short { IsTrue result → length path.now ≤ MAX_PATH_NAMES }
{
    // For the proof alone: the call tells that no path of a node has more than 32 names.
    let _nodes = draft.nodes();
    draft.node(path, steps).is_some()
}

// Whether the condition holds at the path.
fn meets<L: Ledger>(draft: &Draft, path: &Path, cond: &Condition, steps: &mut Steps<L>) -> bool
    ensures { result ≡ holds_at cond.now draft.now.tree path.now }
{
    let seen = draft.node(path, steps);
    cond.holds(seen.as_ref())
}

// Gives the node at the path the watches that are said.
fn give_watches<L: Ledger>(
    draft: &mut Draft,
    path: &Path,
    said: &Watching,
    steps: &mut Steps<L>,
) -> Result<(), AllocError>
    requires stands { IsTrue (stands draft.old.tree path.now) }
    ensures base { draft.new.base ≡ draft.old.base }
    ensures tree { OnOk result (draft.new.tree ≡ watch draft.old.tree path.now said.now) }
{
    match said {
        Watching::Stay => Ok(()),
        Watching::Free => {
            let none = Watches::none(draft.alloc());
            draft.set_watches(path, &none, steps)
        }
        Watching::While(watches) => draft.set_watches(path, watches, steps),
    }
}

// The payload is set at the path, and then the watches of its node.
fn write<L: Ledger>(
    path: &Path,
    payload: &Payload,
    watch: &Watching,
    draft: &mut Draft,
    watchers: &Watchers,
    steps: &mut Steps<L>,
) -> Result<Reply, AllocError>
    requires short { length path.now ≤ MAX_PATH_NAMES }
    requires settled { IsTrue (stable draft.old.base) }
    requires index { HoldsWatches draft.old.base watchers.now }
    ensures base { draft.new.base ≡ draft.old.base }
    ensures value { IfOk result (λ r. Answers (λ S. write S path.now payload.now watch.now) draft.old.tree r draft.new.tree) }
    ensures settled { IfOk result (λ r. IsSettled r draft.new.tree) }
{
    let version = draft.set(path, payload, steps)?;
    give_watches(draft, path, watch, steps)?;
    finish_write(draft, watchers, path, version, steps)
}

pub(crate) fn put<L: Ledger>(
    path: &Path,
    payload: &Payload,
    watch: &Watching,
    draft: &mut Draft,
    watchers: &Watchers,
    steps: &mut Steps<L>,
) -> Result<Reply, AllocError>
    requires settled { IsTrue (stable draft.old.base) }
    requires index { HoldsWatches draft.old.base watchers.now }
    ensures base { draft.new.base ≡ draft.old.base }
    ensures value { IfOk result (λ r. IsAnswered (command.Put path.now payload.now watch.now) draft.old.tree r draft.new.tree) }
    ensures settled { IfOk result (λ r. IsSettled r draft.new.tree) }
{
    if let Some(reply) = unwritable(path, payload, watch) {
        return Ok(reply);
    }
    write(path, payload, watch, draft, watchers, steps)
}

pub(crate) fn create<L: Ledger>(
    path: &Path,
    payload: &Payload,
    watch: &Watching,
    draft: &mut Draft,
    watchers: &Watchers,
    steps: &mut Steps<L>,
) -> Result<Reply, AllocError>
    requires settled { IsTrue (stable draft.old.base) }
    requires index { HoldsWatches draft.old.base watchers.now }
    ensures base { draft.new.base ≡ draft.old.base }
    ensures value { IfOk result (λ r. IsAnswered (command.Create path.now payload.now watch.now) draft.old.tree r draft.new.tree) }
    ensures settled { IfOk result (λ r. IsSettled r draft.new.tree) }
{
    if let Some(reply) = unwritable(path, payload, watch) {
        return Ok(reply);
    }
    if stands(draft, path, steps) {
        return Ok(Reply::NoExists);
    }
    write(path, payload, watch, draft, watchers, steps)
}

pub(crate) fn update<L: Ledger>(
    path: &Path,
    payload: &Payload,
    watch: &Watching,
    draft: &mut Draft,
    watchers: &Watchers,
    steps: &mut Steps<L>,
) -> Result<Reply, AllocError>
    requires settled { IsTrue (stable draft.old.base) }
    requires index { HoldsWatches draft.old.base watchers.now }
    ensures base { draft.new.base ≡ draft.old.base }
    ensures value { IfOk result (λ r. IsAnswered (command.Update path.now payload.now watch.now) draft.old.tree r draft.new.tree) }
    ensures settled { IfOk result (λ r. IsSettled r draft.new.tree) }
{
    if let Some(reply) = unwritable(path, payload, watch) {
        return Ok(reply);
    }
    if !stands(draft, path, steps) {
        return Ok(Reply::NoAbsent);
    }
    write(path, payload, watch, draft, watchers, steps)
}

pub(crate) fn cas<L: Ledger>(
    path: &Path,
    cond: &Condition,
    payload: &Payload,
    watch: &Watching,
    draft: &mut Draft,
    watchers: &Watchers,
    steps: &mut Steps<L>,
) -> Result<Reply, AllocError>
    requires settled { IsTrue (stable draft.old.base) }
    requires index { HoldsWatches draft.old.base watchers.now }
    ensures base { draft.new.base ≡ draft.old.base }
    ensures value { IfOk result (λ r. IsAnswered (command.Cas path.now cond.now payload.now watch.now) draft.old.tree r draft.new.tree) }
    ensures settled { IfOk result (λ r. IsSettled r draft.new.tree) }
{
    if let Some(reply) = unwritable(path, payload, watch) {
        return Ok(reply);
    }
    if !meets(draft, path, cond, steps) {
        return Ok(Reply::NoMismatch);
    }
    write(path, payload, watch, draft, watchers, steps)
}

pub(crate) fn clear<L: Ledger>(
    path: &Path,
    draft: &mut Draft,
    watchers: &Watchers,
    steps: &mut Steps<L>,
) -> Result<Reply, AllocError>
    requires settled { IsTrue (stable draft.old.base) }
    requires index { HoldsWatches draft.old.base watchers.now }
    ensures base { draft.new.base ≡ draft.old.base }
    ensures value { IfOk result (λ r. IsAnswered (command.Clear path.now) draft.old.tree r draft.new.tree) }
    ensures settled { IfOk result (λ r. IsSettled r draft.new.tree) }
{
    if !stands(draft, path, steps) {
        return Ok(Reply::NoAbsent);
    }
    write(
        path,
        &Payload::Empty,
        &Watching::Stay,
        draft,
        watchers,
        steps,
    )
}

// The nodes at the paths and all below them are dropped.
fn drop_nodes<L: Ledger>(
    paths: &[Path],
    draft: &mut Draft,
    watchers: &Watchers,
    steps: &mut Steps<L>,
) -> Result<Reply, AllocError>
    requires below { is_under paths.now [] ≡ false }
    requires settled { IsTrue (stable draft.old.base) }
    requires index { HoldsWatches draft.old.base watchers.now }
    ensures base { draft.new.base ≡ draft.old.base }
    ensures value { IfOk result (λ r. Answers (λ S. dropped S paths.now) draft.old.tree r draft.new.tree) }
    ensures settled { IfOk result (λ r. IsSettled r draft.new.tree) }
{
    let count = draft.drop_all(paths, steps)?;
    settle_within_limits(draft, watchers, count, steps)
}

pub(crate) fn del<L: Ledger>(
    path: &Path,
    draft: &mut Draft,
    watchers: &Watchers,
    steps: &mut Steps<L>,
) -> Result<Reply, AllocError>
    requires settled { IsTrue (stable draft.old.base) }
    requires index { HoldsWatches draft.old.base watchers.now }
    ensures base { draft.new.base ≡ draft.old.base }
    ensures value { IfOk result (λ r. IsAnswered (command.Del path.now) draft.old.tree r draft.new.tree) }
    ensures settled { IfOk result (λ r. IsSettled r draft.new.tree) }
{
    if path.len() == 0 {
        return Ok(Reply::NoRoot);
    }
    let alloc = draft.alloc();
    let paths = vec![in alloc; path.copy()?]?;
    drop_nodes(paths.as_slice(), draft, watchers, steps)
}

pub(crate) fn delmany<L: Ledger>(
    pattern: &Pattern,
    draft: &mut Draft,
    watchers: &Watchers,
    steps: &mut Steps<L>,
) -> Result<Reply, AllocError>
    requires settled { IsTrue (stable draft.old.base) }
    requires index { HoldsWatches draft.old.base watchers.now }
    ensures base { draft.new.base ≡ draft.old.base }
    ensures value { IfOk result (λ r. IsAnswered (command.Delmany pattern.now) draft.old.tree r draft.new.tree) }
    ensures settled { IfOk result (λ r. IsSettled r draft.new.tree) }
{
    if pattern.parts().len() == 0 {
        return Ok(Reply::NoRoot);
    }
    let paths = matching(draft, pattern, steps)?;
    drop_nodes(paths.as_slice(), draft, watchers, steps)
}
