// The nodes under a path, in order of path, one after another.
ghost use Rattle.std.specs.Prelude.{◌≡◌, IsTrue, IfOk, Some};
ghost use Rattle.std.specs.Option.{option_copied};
ghost use Rattle.khepri_terms.specs.Order.{path_cmp};
ghost use Rattle.khepri_types.specs.Paths.{is_front};
ghost use Rattle.khepri_types.specs.Tree.{IsTree, stands};
ghost use Rattle.nested_nodes.specs.Next.{IsNext};
ghost use Rattle.tree_walks.specs.Under.{IsUnder};

use khepri_terms::Path;
use std::alloc::AllocError;
use tree_overlay::Draft;

/// The least path of a node under the root that comes after this one: its first child, or the next child of the nearest path above
/// that has one. It costs a search for the path, and one for each name by which it climbs, and it climbs no higher than the root.
pub fn next_under(draft: &Draft, root: &Path, at: &Path) -> Result<Option<Path>, AllocError>
    requires under { IsTrue (is_front root.now at.now) }
    ensures { IfOk result (λ o. IsNext path_cmp (IsUnder draft.now.tree root.now) (Some at.now) o) }
{
    let _nodes = draft.nodes();
    if let Some(name) = draft.child_after(at, None) {
        return Ok(Some(at.child(name)?));
    }
    let mut len = at.len();
    'up: while len > root.len() {
        len -= 1;
        let above = at.front(len)?;
        if let Some(name) = draft.child_after(&above, Some(at.name(len))) {
            return Ok(Some(above.child(name)?));
        }
    }
    Ok(None)
}

/// The least path of a node that comes after the other path; the least of all after none. It costs a search for the path, and one for
/// each name by which it climbs.
pub fn path_after(draft: &Draft, after: Option<&Path>) -> Result<Option<Path>, AllocError>
    ensures { IfOk result (λ o. IsNext path_cmp (λ q. IsTrue (stands draft.now.tree q)) (option_copied after.entry) o) }
{
    let _nodes = draft.nodes();
    let root = Path::root(draft.alloc());
    let Some(at) = after else {
        return Ok(Some(root));
    };
    let next = next_under(draft, &root, at)?;
    Ok(next)
}
