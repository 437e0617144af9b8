// Payloads that are set, with the nodes that are missing on the way.
ghost use Rattle.std.specs.Prelude.{◌≡◌, ◌<◌, ◌≤◌, ◌+◌, ◌-◌, IsTrue, IfOk, OnOk, None, length, take};
ghost use Rattle.std.specs.FinMap.{get};
ghost use Rattle.khepri_types.specs.declared.limits.TheConstants.{MAX_PATH_NAMES};
ghost use Rattle.khepri_types.specs.Exec.{pv_of};
ghost use Rattle.khepri_types.specs.Sizes.{kids};
ghost use Rattle.khepri_types.specs.Tree.{set, set_from, stands};
ghost use Rattle.tree_overlay.specs.Over.{StaysTouched, Touches};
ghost use Rattle.tree_walks.specs.Notes.{NotesWay};

use crate::raises::raise;
use khepri_terms::Path;
use khepri_types::Payload;
use node_sizes::{fresh_node, node_len, written_node};
use std::alloc::AllocError;
use tree_overlay::Draft;

// How many names the longest front that stands has, where the path itself is missing.
fn standing_front(draft: &Draft, path: &Path) -> Result<usize, AllocError>
    requires absent { get draft.now.tree path.now ≡ None }
    ensures within { IfOk result (λ i. i < length path.now) }
    ensures standing { IfOk result (λ i. IsTrue (stands draft.now.tree (take i path.now))) }
    ensures missing { IfOk result (λ i. get draft.now.tree (take (i + 1) path.now) ≡ None) }
{
    let _nodes = draft.nodes();
    let mut above = path.len() - 1;
    'up: while above > 0 {
        let front = path.front(above)?;
        if draft.stands(&front) {
            return Ok(above);
        }
        above -= 1;
    }
    Ok(above)
}

// Makes the nodes that are missing on the way to a path from a standing front on, and the path itself. The front has so many children.
fn build(
    draft: &mut Draft,
    path: &Path,
    above: usize,
    payload: Payload,
    before: u64,
) -> Result<(), AllocError>
    requires within { above < length path.now }
    requires short { length path.now ≤ MAX_PATH_NAMES }
    requires stands { IsTrue (stands draft.old.tree (take above path.now)) }
    requires missing { get draft.old.tree (take (above + 1) path.now) ≡ None }
    requires before { before ≡ kids draft.old.tree (take above path.now) }
    ensures base { draft.new.base ≡ draft.old.base }
    ensures tree { OnOk result (draft.new.tree ≡ set_from (length path.now - 1 - above) (above + 1) draft.old.tree path.now payload) }
    ensures noted { OnOk result (NotesWay path.now above (length path.now) draft.old.touched draft.new.touched) }
    ensures stays { StaysTouched draft.old.touched draft.new.touched }
{
    let alloc = draft.alloc();
    let _nodes = draft.nodes();
    let last = path.len() - 1;
    let mut siblings = before;
    'way: for len in above..last {
        let _nodes = draft.nodes();
        let front = path.front(len + 1)?;
        draft.make(&front, fresh_node(alloc, Payload::Empty), siblings)?;
        siblings = 0;
    }
    let _nodes = draft.nodes();
    draft.make(path, fresh_node(alloc, payload), siblings)?;
    Ok(())
}

// Sets a payload at a missing path, with the nodes that are missing on the way.
fn grow(draft: &mut Draft, path: &Path, payload: &Payload) -> Result<u64, AllocError>
    requires short { length path.now ≤ MAX_PATH_NAMES }
    requires absent { get draft.old.tree path.now ≡ None }
    ensures base { draft.new.base ≡ draft.old.base }
    ensures tree { OnOk result (draft.new.tree ≡ set draft.old.tree path.now payload.now) }
    ensures version { IfOk result (λ v. v ≡ pv_of (get draft.new.tree path.now)) }
    ensures touches { OnOk result (Touches draft.old.tree draft.new.tree draft.old.touched draft.new.touched) }
    ensures stays { StaysTouched draft.old.touched draft.new.touched }
{
    let _nodes = draft.nodes();
    let above = standing_front(draft, path)?;
    let parent = path.front(above)?;
    let payload = payload.copy(draft.alloc())?;
    let before = raise(draft, &parent)?;
    build(draft, path, above, payload, before)?;
    Ok(1)
}

/// Sets a payload at a path, with the nodes that are missing on the way; answers the payload version after that.
pub fn set(draft: &mut Draft, path: &Path, payload: &Payload) -> Result<u64, AllocError>
    requires short { length path.now ≤ MAX_PATH_NAMES }
    ensures base { draft.new.base ≡ draft.old.base }
    ensures tree { OnOk result (draft.new.tree ≡ set draft.old.tree path.now payload.now) }
    ensures version { IfOk result (λ v. v ≡ pv_of (get draft.new.tree path.now)) }
    ensures touches { OnOk result (Touches draft.old.tree draft.new.tree draft.old.touched draft.new.touched) }
    ensures stays { StaysTouched draft.old.touched draft.new.touched }
{
    let alloc = draft.alloc();
    let _nodes = draft.nodes();
    let Some(node) = draft.node(path) else {
        return grow(draft, path, payload);
    };
    if payload.is_same(node.payload) {
        return Ok(node.pv);
    }
    let was = node_len(path, &node);
    let written = written_node(alloc, &node, payload)?;
    let version = written.pv;
    draft.rewrite(path, written, was)?;
    Ok(version)
}
