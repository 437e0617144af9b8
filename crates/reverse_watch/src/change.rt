// Nodes come into the lists of their targets, and go.
ghost use Rattle.std.specs.Prelude.{◌≡◌, ◌∷◌, [], List, OnOk, OnErr, ◌||◌, ◌&&◌, not, false, length, IsTrue, Some};
ghost use Rattle.std.specs.FinMap.{find};
ghost use Rattle.khepri_terms.specs.Order.{path_cmp};
ghost use Rattle.khepri_terms.specs.Terms.{NameText};
ghost use Rattle.reverse_watch.specs.Listing.{has, is_link, Same};

use crate::list::Listed;
use khepri_terms::Path;
use std::alloc::{AllocError, Global};
use std::collections::HashMap;

// The node comes into the list of a target.
pub(crate) fn put(
    alloc: Global,
    lists: &mut HashMap<Path, Listed>,
    target: &Path,
    node: &Path,
) -> Result<(), AllocError>
    ensures ok { OnOk result ((q p : List NameText) → has lists.new.entries q p ≡ (has lists.old.entries q p || is_link (target.now ∷ []) node.now q p)) }
    ensures err { OnErr result (Same lists.old.entries lists.new.entries) }
{
    let name = node.copy()?;
    let Some(list) = lists.get_mut(target) else {
        let mut list = Listed::none(alloc);
        list.add(name)?;
        lists.insert(target.copy()?, list)?;
        return Ok(());
    };
    list.add(name)
}

// The node goes from the list of a target. It takes no memory. The answer tells that the list has nobody any more.
fn cut_from(lists: &mut HashMap<Path, Listed>, target: &Path, node: &Path) -> bool
    ensures others { (q p : List NameText) → has lists.new.entries q p ≡ (has lists.old.entries q p && not (is_link (target.now ∷ []) node.now q p)) }
    ensures emptied { IsTrue result → find path_cmp target.now lists.new.entries ≡ Some [] }
{
    let Some(list) = lists.get_mut(target) else {
        return false;
    };
    list.cut(node);
    list.is_empty()
}

// The node goes from the list of a target, and the list where it was the last. It takes no memory.
pub(crate) fn take(lists: &mut HashMap<Path, Listed>, target: &Path, node: &Path)
    ensures { (q p : List NameText) → has lists.new.entries q p ≡ (has lists.old.entries q p && not (is_link (target.now ∷ []) node.now q p)) }
{
    if cut_from(lists, target, node) {
        lists.remove(target);
    }
}

// The node comes into the lists of all targets, or of some where memory is wanting.
pub(crate) fn put_all(
    alloc: Global,
    lists: &mut HashMap<Path, Listed>,
    targets: &[Path],
    node: &Path,
) -> Result<(), AllocError>
    ensures ok { OnOk result ((q p : List NameText) → has lists.new.entries q p ≡ (has lists.old.entries q p || is_link targets.now node.now q p)) }
    ensures others { (q p : List NameText) → is_link targets.now node.now q p ≡ false → has lists.new.entries q p ≡ has lists.old.entries q p }
{
    let Some((target, rest)) = targets.split_first() else {
        return Ok(());
    };
    put(alloc, lists, target, node)?;
    put_all(alloc, lists, rest, node)
}

// The node goes from the lists of all targets. It takes no memory.
pub(crate) fn take_all(lists: &mut HashMap<Path, Listed>, targets: &[Path], node: &Path)
    ensures { (q p : List NameText) → has lists.new.entries q p ≡ (has lists.old.entries q p && not (is_link targets.now node.now q p)) }
{
    let Some((target, rest)) = targets.split_first() else {
        return;
    };
    take(lists, target, node);
    take_all(lists, rest, node);
}
