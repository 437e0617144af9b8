// Looks at a draft whose answer is lent on.
ghost use Rattle.std.specs.Prelude.{◌≡◌, ◌<◌, ◌≤◌, IfSome, OnSome, Some, length};
ghost use Rattle.std.specs.FinMap.{get};
ghost use Rattle.khepri_types.specs.declared.limits.TheConstants.{MAX_PATH_NAMES};
ghost use Rattle.khepri_types.specs.Conditions.{seen_at};
ghost use Rattle.khepri_types.specs.Views.{seen_of, node_of};
ghost use Rattle.tree_nodes.specs.Drafts.{IsShallow};

use khepri_terms::Path;
use khepri_types::NodeView;
use std::marker::Brand;
use std::sync::ledger::{Blank, Ledger};
use step_count::Steps;
use tree_nodes::Draft;

// The node at a path, counted from none.
fn seen_from<'t, L: Ledger>(draft: &'t Draft, path: &Path, blank: Blank) -> Option<NodeView<'t>>
    requires blank { (blank.name ≡ L.name) × (blank.parts ≡ L.parts) × (0 < L.parts) }
    ensures node { seen_of result ≡ seen_at draft.now.tree path.now }
    ensures found { IfSome result (λ v. get draft.now.tree path.now ≡ Some (node_of v)) }
    ensures shallow { IsShallow draft.now.tree }
{
    // For the proof alone: the call tells that no path of a node has more than 32 names.
    let _nodes = draft.nodes();
    let mut steps = Steps::<L>::open(blank);
    draft.node(path, &mut steps)
}

// The node at a path, for a caller that counts the step. A call that is lent the count too can't answer for a method that is lent
// both: what its answer leaves of them is not told.
#[tactic(auto, using(crate::proofs::Looking::short_where_found))]
pub(crate) fn seen<'t>(draft: &'t Draft, path: &Path) -> Option<NodeView<'t>>
    ensures node { seen_of result ≡ seen_at draft.now.tree path.now }
    ensures found { IfSome result (λ v. get draft.now.tree path.now ≡ Some (node_of v)) }
    ensures short { OnSome result (length path.now ≤ MAX_PATH_NAMES) }
{
    seen_from::<Brand>(draft, path, Blank::new(1))
}
