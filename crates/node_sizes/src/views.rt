// Nodes as conditions see them.
ghost use Rattle.std.specs.Prelude.{◌≡◌, ◌≤◌, length};
ghost use Rattle.std.specs.Option.{option_copied};
ghost use Rattle.khepri_types.specs.declared.limits.TheConstants.{MAX_WATCHES};
ghost use Rattle.khepri_types.specs.Views.{as_seen, node_of};

use khepri_terms::Name;
use khepri_types::{Node, NodeView};

/// The node as conditions see it, with the last name of its path and the number of its children.
pub fn shown<'b>(name: Option<&'b Name>, node: &'b Node, kids: u64) -> NodeView<'b>
    ensures seen { as_seen result ≡ record { name = option_copied name.entry; payload = node.now.payload; pv = node.now.pv; cv = node.now.cv; kids = kids } }
    ensures node { node_of result ≡ node.now }
    ensures few { length result.watches.now ≤ MAX_WATCHES }
{
    NodeView {
        name,
        payload: &node.payload,
        pv: node.pv,
        cv: node.cv,
        kids,
        watches: node.watches.as_slice(),
    }
}
