// The nested node of a tree that stands at a path, or none, and what is below it.
ghost use Rattle.std.specs.Prelude.{◌≡◌, ◌∷◌, ◌++◌, ◌&&◌, [], List, IsTrue, not};
ghost use Rattle.std.specs.Option.{option_copied};
ghost use Rattle.khepri_terms.specs.Lengths.{capped};
ghost use Rattle.khepri_terms.specs.Terms.{NameText};
ghost use Rattle.khepri_terms.specs.Order.{name_cmp};
ghost use Rattle.khepri_types.specs.Sizes.{kids, node_bytes};
ghost use Rattle.khepri_types.specs.Tree.{Tree, IsTree, stands};
ghost use Rattle.nested_nodes.specs.Marks.{is_gone};
ghost use Rattle.nested_nodes.specs.Next.{IsNext};
ghost use Rattle.tree_overlay.specs.Kept.{IsKept};
ghost use Rattle.tree_overlay.specs.Over.{HasChild};

use khepri_terms::{Name, Path};
use khepri_types::Node;
use nested_nodes::Nest;
use node_sizes::{node_len, shown};
use std::collections::BTreeMap;

// The least name of a child that comes after the other name.
pub(crate) fn next_name<'b>(nest: Option<&'b Nest>, after: Option<&Name>) -> Option<&'b Name>
    ensures { (B : Tree) (p : List NameText) → IsTree B → IsKept B p (option_copied nest.entry) → IsNext name_cmp (HasChild B p) (option_copied after.entry) (option_copied result) }
{
    match nest {
        None => None,
        Some(nest) => match nest.next_kid(after) {
            Some((name, _)) => Some(name),
            None => None,
        },
    }
}

// The least name of a child that comes after the other name and is not marked as gone.
pub(crate) fn left_name<'b>(
    nest: Option<&'b Nest>,
    marks: &BTreeMap<Name, bool>,
    after: Option<&Name>,
) -> Option<&'b Name>
    ensures { (B : Tree) (p : List NameText) → IsTree B → IsKept B p (option_copied nest.entry) → IsNext name_cmp (λ n. IsTrue (stands B (p ++ n ∷ []) && not (is_gone marks.now.entries n))) (option_copied after.entry) (option_copied result) }
{
    match nest {
        None => None,
        Some(nest) => nest.next_left(marks, after),
    }
}

// The child of this name.
pub(crate) fn kid_of<'b>(nest: Option<&'b Nest>, name: &Name) -> Option<&'b Nest>
    ensures { (B : Tree) (p : List NameText) → IsTree B → IsKept B p (option_copied nest.entry) → IsKept B (p ++ name.now ∷ []) (option_copied result) }
{
    match nest {
        None => None,
        Some(nest) => match nest.kid(name) {
            None => None,
            Some((_, kid)) => Some(kid),
        },
    }
}

// How many children there are.
pub(crate) fn kids_of(nest: Option<&Nest>) -> u64
    ensures { (B : Tree) (p : List NameText) → IsTree B → IsKept B p (option_copied nest.entry) → result ≡ kids B p }
{
    match nest {
        None => 0,
        Some(nest) => nest.kids(),
    }
}

// The bytes of a node; at 2^64 - 1 and beyond, 2^64 - 1.
pub(crate) fn bytes_of(path: &Path, node: &Node) -> u64
    ensures { result ≡ capped (node_bytes (path.now, node.now)) }
{
    node_len(path, &shown(None, node, 0))
}
