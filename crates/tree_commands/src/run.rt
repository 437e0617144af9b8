// Scripts run on the draft.
ghost use Rattle.std.specs.Prelude.{◌≡◌, List, IfOk, IsTrue};
ghost use Rattle.std.specs.FinMap.{get};
ghost use Rattle.khepri_terms.specs.Terms.{NameText};
ghost use Rattle.khepri_types.specs.declared.command.Command.TheVariants as command;
ghost use Rattle.khepri_types.specs.Exec.{ended, run_node, run_script};
ghost use Rattle.khepri_types.specs.Settling.{stable};
ghost use Rattle.khepri_types.specs.Statements.{script};
ghost use Rattle.worklist_laws.specs.Links.{HoldsWatches};
ghost use Rattle.tree_commands.specs.Replies.{Answers, IsAnswered, IsSettled};
ghost use Rattle.tree_commands.specs.Starts.{NodeStartsAs, StartsAs};

use crate::finish::finish_run;
use draft_scene::run_on_draft;
use khepri_terms::{Path, Rec};
use khepri_types::{Outcome, Payload, Reply, Script};
use reverse_watch::Watchers;
use std::alloc::{AllocError, Global};
use std::sync::ledger::Ledger;
use step_count::Steps;
use tree_nodes::Draft;
use tx_script::{Checked, ScriptFault, check};

// What the run of a script comes to before its first statement.
#[derive(Drop)]
pub(crate) enum Ready {
    Runs(Checked),
    Refused(Reply),
}

// A script that runs, unless it is ill typed.
fn checked(alloc: Global, script: &Script) -> Result<Ready, AllocError>
    ensures { IfOk result (λ r. StartsAs script.now r) }
{
    match check(alloc, script) {
        Ok(checked) => Ok(Ready::Runs(checked)),
        Err(ScriptFault::Ill) => Ok(Ready::Refused(Reply::NoScript)),
        Err(ScriptFault::NoMemory) => Err(AllocError),
    }
}

// The script that the node at a path holds.
fn script_at<L: Ledger>(
    draft: &Draft,
    path: &Path,
    steps: &mut Steps<L>,
) -> Result<Ready, AllocError>
    ensures { IfOk result (λ r. NodeStartsAs (get draft.now.tree path.now) r) }
{
    let Some(node) = draft.node(path, steps) else {
        return Ok(Ready::Refused(Reply::NoAbsent));
    };
    match node.payload {
        Payload::Empty => Ok(Ready::Refused(Reply::NoScript)),
        Payload::Fields(_) => Ok(Ready::Refused(Reply::NoScript)),
        Payload::Proc(script) => checked(draft.alloc(), script),
    }
}

// A script runs with these arguments and this path; then watches are tested, the draft settles, and the limits are kept.
fn run_checked<L: Ledger>(
    checked: &Checked,
    args: &Rec,
    at: &Path,
    draft: &mut Draft,
    watchers: &Watchers,
    steps: &mut Steps<L>,
) -> Result<Reply, AllocError>
    requires settled { IsTrue (stable draft.old.base) }
    requires index { HoldsWatches draft.old.base watchers.now }
    ensures base { draft.new.base ≡ draft.old.base }
    ensures value { IfOk result (λ r. Answers (λ S. ended S (script checked.now args.now at.now S.tree)) draft.old.tree r draft.new.tree) }
    ensures settled { IfOk result (λ r. IsSettled r draft.new.tree) }
{
    let mut written = Vec::new(draft.alloc());
    match run_on_draft(checked, args, at, draft, &mut written, steps)? {
        Outcome::Done(values) => finish_run(draft, watchers, written.as_slice(), values, steps),
        Outcome::Abort(text) => Ok(Reply::NoAbort { text }),
        Outcome::Spent => Ok(Reply::NoSpent),
        Outcome::Refused(reply) => Ok(reply),
    }
}

pub(crate) fn tx<L: Ledger>(
    args: &Rec,
    script: &Script,
    draft: &mut Draft,
    watchers: &Watchers,
    steps: &mut Steps<L>,
) -> Result<Reply, AllocError>
    requires settled { IsTrue (stable draft.old.base) }
    requires index { HoldsWatches draft.old.base watchers.now }
    ensures base { draft.new.base ≡ draft.old.base }
    ensures value { IfOk result (λ r. IsAnswered (command.Tx args.now script.now) draft.old.tree r draft.new.tree) }
    ensures settled { IfOk result (λ r. IsSettled r draft.new.tree) }
{
    let alloc = draft.alloc();
    match checked(alloc, script)? {
        Ready::Refused(reply) => Ok(reply),
        Ready::Runs(checked) => {
            run_checked(&checked, args, &Path::root(alloc), draft, watchers, steps)
        }
    }
}

/// Runs the script that the node at `proc_at` holds, with these arguments as its first record and this path as its first path; then
/// watches are tested, the draft settles, and the limits are kept. It is refused where no node stands at `proc_at`, or none with a
/// script.
pub fn tree_fire<L: Ledger>(
    proc_at: &Path,
    args: &Rec,
    at: &Path,
    draft: &mut Draft,
    watchers: &Watchers,
    steps: &mut Steps<L>,
) -> Result<Reply, AllocError>
    requires settled { IsTrue (stable draft.old.base) }
    requires index { HoldsWatches draft.old.base watchers.now }
    ensures base { draft.new.base ≡ draft.old.base }
    ensures value { IfOk result (λ r. Answers (λ S. run_node S args.now at.now (get S.tree proc_at.now)) draft.old.tree r draft.new.tree) }
    ensures settled { IfOk result (λ r. IsSettled r draft.new.tree) }
{
    match script_at(draft, proc_at, steps)? {
        Ready::Refused(reply) => Ok(reply),
        Ready::Runs(checked) => run_checked(&checked, args, at, draft, watchers, steps),
    }
}
