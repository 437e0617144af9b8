// Nodes made from others, with memory of their own.
ghost use Rattle.std.specs.Prelude.{◌≡◌, ◌≤◌, length, IfOk};
ghost use Rattle.khepri_types.specs.declared.limits.TheConstants.{MAX_WATCHES};
ghost use Rattle.khepri_types.specs.Tree.{fresh, raised, raised_children, written};
ghost use Rattle.khepri_types.specs.Views.{node_of};

use khepri_types::{Node, NodePart, NodeView, Payload, Watch, Watches};
use std::alloc::{AllocError, Global};

fn copy_watch(alloc: Global, watch: &Watch) -> Result<Watch, AllocError>
    ensures { IfOk result (λ w. w ≡ watch.now) }
{
    Ok(Watch {
        target: watch.target.copy()?,
        cond: watch.cond.copy(alloc)?,
    })
}

fn copy_watches(alloc: Global, watches: &[Watch]) -> Result<Watches, AllocError>
    requires few { length watches.now ≤ MAX_WATCHES }
    ensures { IfOk result (λ w. w ≡ watches.now) }
{
    let mut all = Vec::new(alloc);
    for watch in watches {
        all.push(copy_watch(alloc, watch)?)?;
    }
    match Watches::from_vec(all) {
        Some(watches) => Ok(watches),
        None => unreachable!(),
    }
}

// A node of these parts.
fn copy_node(
    alloc: Global,
    payload: &Payload,
    pv: u64,
    cv: u64,
    watches: &[Watch],
) -> Result<Node, AllocError>
    requires few { length watches.now ≤ MAX_WATCHES }
    ensures { IfOk result (λ n. n ≡ record { payload = payload.now; pv = pv; cv = cv; watches = watches.now }) }
{
    Ok(Node {
        payload: payload.copy(alloc)?,
        watches: copy_watches(alloc, watches)?,
        pv,
        cv,
    })
}

// The version after this one.
fn raise(version: u64) -> u64
    ensures { result ≡ raised version }
{
    version.saturating_add(1)
}

/// A node as it is made. It takes no memory.
pub fn fresh_node(alloc: Global, payload: Payload) -> Node
    ensures { result ≡ fresh payload }
{
    Node {
        payload,
        pv: 1,
        cv: 1,
        watches: Watches::none(alloc),
    }
}

/// The node of a part.
pub fn part_node(alloc: Global, part: &NodePart) -> Result<Node, AllocError>
    ensures { IfOk result (λ n. n ≡ record { payload = part.now.payload; pv = part.now.pv; cv = part.now.cv; watches = part.now.watches }) }
{
    copy_node(
        alloc,
        &part.payload,
        part.pv,
        part.cv,
        part.watches.as_slice(),
    )
}

/// The node that is shown, once another payload is set.
pub fn written_node(alloc: Global, node: &NodeView, payload: &Payload) -> Result<Node, AllocError>
    requires few { length node.now.watches.now ≤ MAX_WATCHES }
    ensures { IfOk result (λ n. n ≡ written (node_of node.now) payload.now) }
{
    let pv = if payload.is_same(node.payload) {
        node.pv
    } else {
        raise(node.pv)
    };
    copy_node(alloc, payload, pv, node.cv, node.watches)
}

/// The node that is shown, once a child came or went.
pub fn raised_node(alloc: Global, node: &NodeView) -> Result<Node, AllocError>
    requires few { length node.now.watches.now ≤ MAX_WATCHES }
    ensures { IfOk result (λ n. n ≡ raised_children (node_of node.now)) }
{
    copy_node(alloc, node.payload, node.pv, raise(node.cv), node.watches)
}

/// The node that is shown, with these watches in place of its own.
pub fn watched_node(alloc: Global, node: &NodeView, watches: &Watches) -> Result<Node, AllocError>
    ensures { IfOk result (λ n. n ≡ record (node_of node.now) { watches = watches.now }) }
{
    copy_node(alloc, node.payload, node.pv, node.cv, watches.as_slice())
}
