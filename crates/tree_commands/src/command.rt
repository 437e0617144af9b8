// Commands.
ghost use Rattle.std.specs.Prelude.{◌≡◌, IfOk, IsTrue};
ghost use Rattle.khepri_types.specs.Settling.{stable};
ghost use Rattle.worklist_laws.specs.Links.{HoldsWatches};
ghost use Rattle.tree_commands.specs.Replies.{is_change, IsAnswered, IsSettled};

use crate::read::{count, get, many};
use crate::run::{tree_fire, tx};
use crate::write::{cas, clear, create, del, delmany, put, update};
use khepri_terms::Path;
use khepri_types::{Command, Reply};
use reverse_watch::Watchers;
use std::alloc::AllocError;
use std::sync::ledger::Ledger;
use step_count::Steps;
use tree_nodes::Draft;

/// Whether the draft of a command with this reply takes the tree's place. Of any other reply the draft may only be dropped.
pub fn is_change(reply: &Reply) -> bool
    ensures { result ≡ is_change reply.now }
{
    match reply {
        Reply::Changed { count: _, gone: _ } => true,
        Reply::Node {
            pv: _,
            cv: _,
            kids: _,
            payload: _,
        } => false,
        Reply::Nodes { count: _, nodes: _ } => false,
        Reply::Count { count: _ } => false,
        Reply::Done { gone: _, values: _ } => true,
        Reply::NoRoot => false,
        Reply::NoDeep => false,
        Reply::NoScript => false,
        Reply::NoExists => false,
        Reply::NoAbsent => false,
        Reply::NoMismatch => false,
        Reply::NoWhile { target: _ } => false,
        Reply::NoName => false,
        Reply::NoSpent => false,
        Reply::NoAbort { text: _ } => false,
        Reply::NoFull => false,
    }
}

/// Does to the draft what the command does to its tree, and answers it. Where `is_change` of the reply holds the draft is the tree that
/// follows; else, and after `AllocError`, it may only be dropped. The index holds the watches of the tree under the draft.
pub fn tree_command<L: Ledger>(
    cmd: &Command,
    draft: &mut Draft,
    watchers: &Watchers,
    steps: &mut Steps<L>,
) -> Result<Reply, AllocError>
    requires settled { IsTrue (stable draft.old.base) }
    requires index { HoldsWatches draft.old.base watchers.now }
    ensures base { draft.new.base ≡ draft.old.base }
    ensures value { IfOk result (λ r. IsAnswered cmd.now draft.old.tree r draft.new.tree) }
    ensures settled { IfOk result (λ r. IsSettled r draft.new.tree) }
{
    match cmd {
        Command::Put {
            path,
            payload,
            watch,
        } => put(path, payload, watch, draft, watchers, steps),
        Command::Create {
            path,
            payload,
            watch,
        } => create(path, payload, watch, draft, watchers, steps),
        Command::Update {
            path,
            payload,
            watch,
        } => update(path, payload, watch, draft, watchers, steps),
        Command::Cas {
            path,
            cond,
            payload,
            watch,
        } => cas(path, cond, payload, watch, draft, watchers, steps),
        Command::Clear { path } => clear(path, draft, watchers, steps),
        Command::Del { path } => del(path, draft, watchers, steps),
        Command::Delmany { pattern } => delmany(pattern, draft, watchers, steps),
        Command::Get { path } => get(draft, path, steps),
        Command::Many { pattern, limit } => many(draft, pattern, *limit, steps),
        Command::Count { pattern } => count(draft, pattern, steps),
        Command::Tx { args, script } => tx(args, script, draft, watchers, steps),
        Command::Run { path, args } => {
            let root = Path::root(draft.alloc());
            tree_fire(path, args, &root, draft, watchers, steps)
        }
    }
}
