// A node with its children.
ghost use Rattle.std.specs.Prelude.{◌≡◌, ◌∷◌, ◌++◌, [], ◌<◌, List, length, IsTrue, OnOk, IfSome, Some, None, is_some, cond, not, ◌&&◌};
ghost use Rattle.std.specs.Option.{option_copied, option_map};
ghost use Rattle.std.specs.FinMap.{find};
ghost use Rattle.khepri_terms.specs.Terms.{NameText};
ghost use Rattle.khepri_terms.specs.Order.{name_cmp, path_cmp};
ghost use Rattle.khepri_types.specs.Paths.{is_front};
ghost use Rattle.nested_nodes.specs.Nests.{IsNest, IsSub, Puts, Cuts, children};
ghost use Rattle.nested_nodes.specs.Marks.{is_gone};
ghost use Rattle.nested_nodes.specs.Next.{IsNext};

use crate::kept::next_kept;
use crate::next::next_key;
use khepri_terms::Name;
use khepri_types::Node;
use std::alloc::{AllocError, Global};
use std::collections::BTreeMap;
use std::marker::Model;

/// A node, which owns its children by their names.
#[derive(Drop)]
pub struct Nest {
    node: Node,
    kids: BTreeMap<Name, Nest>,
}

impl Model for Nest {
    ghost use Rattle.std.specs.Prelude.{List, length};
    ghost use Rattle.std.specs.Coded.{codes};
    ghost use Rattle.std.proofs.Common.{arith};
    ghost use Rattle.khepri_terms.specs.Terms.{NameText};
    ghost use Rattle.khepri_terms.specs.Order.{name_cmp};
    ghost use Rattle.khepri_types.specs.contracts.condition.Condition as condition;
    ghost use Rattle.khepri_types.specs.contracts.script.Statement as statement;
    ghost use Rattle.khepri_types.specs.declared.node.Node.{Node};
    ghost use Rattle.nested_nodes.specs.Nests.{whole, AreNests, most-spread};

    ghost Value = { List (List NameText × Node) };

    ghost coded = { Prim.hlevel (codes, condition.the_row.coded, statement.the_row.coded) };

    ghost view = { λ n. whole n.node n.kids.entries };

    ghost invariant = { λ n. AreNests name_cmp n.kids.entries };

    ghost size = { length };

    ghost size_decreases = { λ a h. Prim.omega (arith, most-spread a.kids.entries) };
}

impl Nest {
    /// A node with no children.
    pub fn new(alloc: Global, node: Node) -> Nest
        ensures { result ≡ ([], node) ∷ [] }
    {
        Nest {
            node,
            kids: BTreeMap::new(alloc),
        }
    }

    /// The node itself.
    pub fn node(&self) -> &Node
        ensures node { find path_cmp [] self.now ≡ Some result.now }
        ensures nest { IsNest name_cmp self.now }
    {
        &self.node
    }

    /// How many children it has.
    pub fn kids(&self) -> u64
        ensures { result ≡ children self.now [] }
    {
        self.kids.len() as u64
    }

    /// The least name of a child that comes after the other name, and the child: one search among the children.
    pub fn next_kid(&self, after: Option<&Name>) -> Option<(&Name, &Nest)>
        ensures next { IsNext name_cmp (λ n. IsTrue (is_some (find path_cmp (n ∷ []) self.now))) (option_copied after.entry) (option_map (λ r. r.0.now) result) }
        ensures some { IfSome result (λ r. IsSub (r.0.now ∷ []) self.now r.1.now) }
    {
        next_key(&self.kids, after)
    }

    /// The least name of a child that comes after the other name and is not marked as gone.
    pub fn next_left(&self, marks: &BTreeMap<Name, bool>, after: Option<&Name>) -> Option<&Name>
        ensures { IsNext name_cmp (λ n. IsTrue (is_some (find path_cmp (n ∷ []) self.now) && not (is_gone marks.now.entries n))) (option_copied after.entry) (option_copied result) }
    {
        next_kept(&self.kids, marks, after)
    }

    /// The child of this name, and the name as it is kept.
    pub fn kid(&self, name: &Name) -> Option<(&Name, &Nest)>
        ensures name { IfSome result (λ r. r.0.now ≡ name.now) }
        ensures some { IfSome result (λ r. IsSub (name.now ∷ []) self.now r.1.now) }
        ensures stands { is_some result ≡ is_some (find path_cmp (name.now ∷ []) self.now) }
    {
        let Some((own, kid)) = self.kids.get_key_value(name) else {
            return None;
        };
        Some((own, kid))
    }

    /// What stands at a path below: a search for each name.
    pub fn seek(&self, path: &[Name]) -> Option<&Nest>
        ensures some { IfSome result (λ r. IsSub path.now self.now r.now) }
        ensures stands { is_some result ≡ is_some (find path_cmp path.now self.now) }
    {
        match path.split_first() {
            None => Some(self),
            Some((first, rest)) => match self.kids.get(first) {
                Some(kid) => kid.seek(rest),
                None => None,
            },
        }
    }

    /// Another node at a standing path. It takes no memory.
    pub fn give(&mut self, path: &[Name], node: Node)
        requires stands { IsTrue (is_some (find path_cmp path.now self.old)) }
        ensures nest { IsNest name_cmp self.new }
        ensures gives { Puts name_cmp path.now node self.old self.new }
    {
        match path.split_first() {
            None => self.node = node,
            Some((first, rest)) => {
                let Some(kid) = self.kids.get_mut(first) else {
                    unreachable!()
                };
                kid.give(rest, node);
            }
        }
    }

    /// A new child of a standing node.
    pub fn add(&mut self, path: &[Name], name: Name, kid: Nest) -> Result<(), AllocError>
        requires parent { IsTrue (is_some (find path_cmp path.now self.old)) }
        requires absent { find path_cmp (path.now ++ name ∷ []) self.old ≡ None }
        requires leaf { (node : _) × (kid ≡ ([], node) ∷ []) }
        ensures nest { IsNest name_cmp self.new }
        ensures adds { (node : _) → kid ≡ ([], node) ∷ [] → OnOk result (Puts name_cmp (path.now ++ name ∷ []) node self.old self.new) }
    {
        match path.split_first() {
            None => {
                self.kids.insert(name, kid)?;
                Ok(())
            }
            Some((first, rest)) => {
                let Some(inner) = self.kids.get_mut(first) else {
                    unreachable!()
                };
                inner.add(rest, name, kid)
            }
        }
    }

    /// Takes a child out, with all below it, and gives it. It takes no memory.
    pub fn cut(&mut self, path: &[Name], name: &Name) -> Option<Nest>
        ensures nest { IsNest name_cmp self.new }
        ensures cuts { Cuts (path.now ++ name.now ∷ []) self.old self.new }
    {
        match path.split_first() {
            None => self.kids.remove(name),
            Some((first, rest)) => {
                let Some(kid) = self.kids.get_mut(first) else {
                    return None;
                };
                kid.cut(rest, name)
            }
        }
    }
}
