// The bytes of nodes.
ghost use Rattle.std.specs.Prelude.{◌≡◌, ◌+◌, IfOk, length};
ghost use Rattle.std.specs.List.{sum_by};
ghost use Rattle.khepri_types.specs.Sizes.{node_bytes, watch_bytes};
ghost use Rattle.khepri_types.specs.Texts.{payload_text, last_text};
ghost use Rattle.khepri_types.specs.Views.{node_of};
ghost use Rattle.khepri_terms.specs.Lengths.{capped};

use khepri_terms::Path;
use khepri_types::{Node, NodeView, Payload, Watch};
use std::alloc::AllocError;

// How long the spelling of a payload is.
#[tactic(auto, unfolding(khepri_types::specs::Texts::payload_text))]
fn payload_len(payload: &Payload) -> u64
    ensures { result ≡ capped (length (payload_text payload.now)) }
{
    match payload {
        Payload::Empty => 1,
        Payload::Fields(rec) => rec.text_len() as u64,
        Payload::Proc(script) => script.text().len() as u64,
    }
}

// How long the spelling of the last name of a path is.
fn last_len(path: &Path) -> u64
    ensures { result ≡ capped (length (last_text path.now)) }
{
    let names = path.len();
    if names == 0 {
        return 0;
    }
    path.name(names - 1).text_len() as u64
}

// How long the spelling of a watch is.
fn watch_len(watch: &Watch) -> u64
    ensures { result ≡ capped (watch_bytes watch.now) }
{
    (watch.target.text_len() as u64).saturating_add(watch.cond.text_len())
}

fn watches_len(watches: &[Watch]) -> u64
    ensures { result ≡ capped (sum_by watch_bytes watches.now) }
{
    let mut len: u64 = 0;
    for watch in watches {
        len = len.saturating_add(watch_len(watch));
    }
    len
}

/// The bytes of a node at a path; at 2^64 - 1 and beyond, 2^64 - 1.
pub fn node_len(path: &Path, node: &NodeView) -> u64
    ensures { result ≡ capped (node_bytes (path.now, node_of node.now)) }
{
    last_len(path)
        .saturating_add(payload_len(node.payload))
        .saturating_add(watches_len(node.watches))
}

/// The bytes, once those of the node at the path are counted too. A sum beyond 2^64 - 1 stands for more than any memory holds.
pub fn grown(bytes: u64, path: &Path, node: &Node) -> Result<u64, AllocError>
    ensures { IfOk result (λ sum. sum ≡ bytes + node_bytes (path.now, node.now)) }
{
    let came = last_len(path)
        .saturating_add(payload_len(&node.payload))
        .saturating_add(watches_len(node.watches.as_slice()));
    if came == u64::MAX {
        return Err(AllocError);
    }
    match bytes.checked_add(came) {
        Some(sum) => Ok(sum),
        None => Err(AllocError),
    }
}
