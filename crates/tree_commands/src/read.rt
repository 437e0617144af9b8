// Commands that ask, and the paths that a pattern matches.
ghost use Rattle.std.specs.Prelude.{◌≡◌, IfOk, IsTrue, length, map, take};
ghost use Rattle.khepri_types.specs.declared.command.Command.TheVariants as command;
ghost use Rattle.khepri_types.specs.Exec.{shown_node};
ghost use Rattle.khepri_types.specs.Patterns.{matching, matching_nodes};
ghost use Rattle.tree_commands.specs.Replies.{IsAnswered, IsSettled};

use crate::scan::{Found, find, find_in_draft, matching_in_tree};
use khepri_terms::Path;
use khepri_types::{Pattern, Reply, ShownNodes};
use std::alloc::AllocError;
use std::sync::ledger::Ledger;
use step_count::Steps;
use tree_nodes::Draft;

// Whether the draft is the tree under it for sure: nothing in it is touched.
#[tactic(auto, using(crate::proofs::Touching::untouched))]
fn is_untouched<L: Ledger>(draft: &Draft, steps: &mut Steps<L>) -> bool
    ensures { IsTrue result → draft.now.base ≡ draft.now.tree }
{
    match draft.touched_after(None, steps) {
        None => true,
        Some(_) => false,
    }
}

// All paths that a pattern matches, in order: one look at each node. The tree under an untouched draft is walked without a search for
// each node.
pub(crate) fn matching<L: Ledger>(
    draft: &Draft,
    pattern: &Pattern,
    steps: &mut Steps<L>,
) -> Result<Vec<Path>, AllocError>
    ensures { IfOk result (λ v. v.items ≡ matching pattern.now draft.now.tree) }
{
    if is_untouched(draft, steps) {
        return matching_in_tree(draft.alloc(), draft.base(), pattern, steps);
    }
    draft_scene::matching_paths(draft, pattern, steps)
}

// How many nodes a pattern matches, and the first so many of them.
fn find_in<L: Ledger>(
    draft: &Draft,
    pattern: &Pattern,
    limit: u64,
    steps: &mut Steps<L>,
) -> Result<Found, AllocError>
    ensures count { IfOk result (λ f. f.count ≡ length (matching pattern.now draft.now.tree)) }
    ensures nodes { IfOk result (λ f. f.nodes.items ≡ map (shown_node draft.now.tree) (take limit (matching_nodes pattern.now draft.now.tree))) }
{
    if is_untouched(draft, steps) {
        return find(draft.alloc(), draft.base(), pattern, limit, steps);
    }
    find_in_draft(draft, pattern, limit, steps)
}

pub(crate) fn get<L: Ledger>(
    draft: &Draft,
    path: &Path,
    steps: &mut Steps<L>,
) -> Result<Reply, AllocError>
    ensures value { IfOk result (λ r. IsAnswered (command.Get path.now) draft.now.tree r draft.now.tree) }
    ensures settled { IfOk result (λ r. IsSettled r draft.now.tree) }
{
    let Some(node) = draft.node(path, steps) else {
        return Ok(Reply::NoAbsent);
    };
    Ok(Reply::Node {
        pv: node.pv,
        cv: node.cv,
        kids: node.kids,
        payload: node.payload.copy(draft.alloc())?,
    })
}

pub(crate) fn many<L: Ledger>(
    draft: &Draft,
    pattern: &Pattern,
    limit: u64,
    steps: &mut Steps<L>,
) -> Result<Reply, AllocError>
    ensures value { IfOk result (λ r. IsAnswered (command.Many pattern.now limit) draft.now.tree r draft.now.tree) }
    ensures settled { IfOk result (λ r. IsSettled r draft.now.tree) }
{
    let found = find_in(draft, pattern, limit, steps)?;
    Ok(Reply::Nodes {
        count: found.count,
        nodes: ShownNodes::from_vec(found.nodes),
    })
}

pub(crate) fn count<L: Ledger>(
    draft: &Draft,
    pattern: &Pattern,
    steps: &mut Steps<L>,
) -> Result<Reply, AllocError>
    ensures value { IfOk result (λ r. IsAnswered (command.Count pattern.now) draft.now.tree r draft.now.tree) }
    ensures settled { IfOk result (λ r. IsSettled r draft.now.tree) }
{
    let found = find_in(draft, pattern, 0, steps)?;
    Ok(Reply::Count { count: found.count })
}
