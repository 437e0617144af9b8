// How a node goes from a draft, with all below it.
ghost use Rattle.std.specs.Prelude.{◌≡◌, ◌+◌, ◌<◌, ◌||◌, ◌&&◌, List, IsTrue, OnOk, None, cond, length, false};
ghost use Rattle.std.specs.FinMap.{get};
ghost use Rattle.khepri_terms.specs.Terms.{NameText};
ghost use Rattle.khepri_types.specs.Paths.{is_child, is_front};
ghost use Rattle.khepri_types.specs.Sizes.{kids};
ghost use Rattle.khepri_types.specs.Tree.{stands};
ghost use Rattle.tree_overlay.specs.Measures.{HasSiblings, Measures};
ghost use Rattle.tree_overlay.specs.Over.{is_touched, StaysTouched};

use khepri_terms::{Name, Path};
use std::alloc::AllocError;
use tree_overlay::{Draft, Measure};

// Takes out the node at the path and all below it, each after all its children; it was looked at before, and its parent had so many
// children. Each node below is looked at once, where it is found among the children of the one above.
pub(crate) fn sweep(
    draft: &mut Draft,
    path: &Path,
    seen: Measure,
    before: u64,
) -> Result<(), AllocError>
    requires below { 0 < length path.now }
    requires stands { IsTrue (stands draft.old.tree path.now) }
    requires seen { Measures draft.old.tree path.now seen }
    requires before { HasSiblings draft.old.tree path.now before }
    ensures base { draft.new.base ≡ draft.old.base }
    ensures tree { OnOk result ((q : List NameText) → get draft.new.tree q ≡ cond (is_front path.now q) None (get draft.old.tree q)) }
    ensures touched { OnOk result ((q : List NameText) → is_touched draft.new.touched q ≡ ((is_front path.now q && stands draft.old.tree q) || is_touched draft.old.touched q)) }
    ensures kids { OnOk result ((q : List NameText) → is_front path.now q ≡ false → kids draft.new.tree q + cond (is_child q path.now) 1 0 ≡ kids draft.old.tree q) }
    ensures stays { StaysTouched draft.old.touched draft.new.touched }
{
    let mut last: Option<Name> = None;
    let mut left = seen.kids;
    'children: while left > 0 {
        let _nodes = draft.nodes();
        let Some((child, below)) = draft.next_child(path, last.as_ref())? else {
            unreachable!()
        };
        sweep(draft, &child, below, left)?;
        last = Some(child.name(path.len()).copy()?);
        left -= 1;
    }
    let _nodes = draft.nodes();
    draft.unmake(path, seen.bytes, before)?;
    let _nodes = draft.nodes();
    Ok(())
}
