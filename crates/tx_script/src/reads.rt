// What scripts read of a tree.
ghost use Rattle.std.specs.Prelude.{◌≡◌, ◌≤◌, IfOk, IsTrue, [], length, pos};
ghost use Rattle.std.specs.Int.{saturate_signed, w64};
ghost use Rattle.std.specs.Option.{option_copied};
ghost use Rattle.khepri_types.specs.Conditions.{seen_at};
ghost use Rattle.khepri_types.specs.Tree.{stands};
ghost use Rattle.khepri_types.specs.Views.{seen_of};
ghost use Rattle.khepri_types.specs.declared.limits.TheConstants.{MAX_PATH_NAMES};
ghost use Rattle.khepri_types.specs.Expressions.{tested, cut, number_seen, fields_seen};
ghost use Rattle.khepri_types.specs.Values.{path};

use crate::operands::into_path;
use khepri_terms::{Path, Rec};
use khepri_types::{Condition, NodeView, Operand, Payload, ScriptTree};
use std::alloc::{AllocError, Global};

// A version or a count as an Int.
fn cut(n: u64) -> i64
    ensures { result ≡ saturate_signed w64 (pos n) }
{
    0i64.saturating_add_unsigned(n)
}

fn pv_seen(seen: Option<&NodeView>) -> u64
    ensures { result ≡ number_seen (λ s. s.pv) (seen_of (option_copied seen.entry)) }
{
    match seen {
        Some(node) => node.pv,
        None => 0,
    }
}

fn cv_seen(seen: Option<&NodeView>) -> u64
    ensures { result ≡ number_seen (λ s. s.cv) (seen_of (option_copied seen.entry)) }
{
    match seen {
        Some(node) => node.cv,
        None => 0,
    }
}

fn kids_seen(seen: Option<&NodeView>) -> u64
    ensures { result ≡ number_seen (λ s. s.kids) (seen_of (option_copied seen.entry)) }
{
    match seen {
        Some(node) => node.kids,
        None => 0,
    }
}

fn fields_seen(alloc: Global, seen: Option<&NodeView>) -> Result<Rec, AllocError>
    ensures { IfOk result (λ r. r ≡ fields_seen (seen_of (option_copied seen.entry))) }
{
    match seen {
        Some(node) => match node.payload {
            Payload::Empty => Ok(Rec::empty(alloc)),
            Payload::Fields(rec) => rec.copy(),
            Payload::Proc(_) => Ok(Rec::empty(alloc)),
        },
        None => Ok(Rec::empty(alloc)),
    }
}

pub(crate) fn pv<T: ScriptTree>(alloc: Global, p: Operand, tree: &mut T) -> Operand
    ensures value { result ≡ cut (pos (number_seen (λ s. s.pv) (seen_at (T.scene tree.old).tree (path p)))) }
    ensures same { T.scene tree.new ≡ T.scene tree.old }
    ensures over { T.over tree.new ≡ T.over tree.old }
{
    let at = into_path(alloc, p);
    let seen = tree.node(&at);
    Operand::Int(cut(pv_seen(seen.as_ref())))
}

pub(crate) fn cv<T: ScriptTree>(alloc: Global, p: Operand, tree: &mut T) -> Operand
    ensures value { result ≡ cut (pos (number_seen (λ s. s.cv) (seen_at (T.scene tree.old).tree (path p)))) }
    ensures same { T.scene tree.new ≡ T.scene tree.old }
    ensures over { T.over tree.new ≡ T.over tree.old }
{
    let at = into_path(alloc, p);
    let seen = tree.node(&at);
    Operand::Int(cut(cv_seen(seen.as_ref())))
}

pub(crate) fn kids<T: ScriptTree>(alloc: Global, p: Operand, tree: &mut T) -> Operand
    ensures value { result ≡ cut (pos (number_seen (λ s. s.kids) (seen_at (T.scene tree.old).tree (path p)))) }
    ensures same { T.scene tree.new ≡ T.scene tree.old }
    ensures over { T.over tree.new ≡ T.over tree.old }
{
    let at = into_path(alloc, p);
    let seen = tree.node(&at);
    Operand::Int(cut(kids_seen(seen.as_ref())))
}

pub(crate) fn data<T: ScriptTree>(
    alloc: Global,
    p: Operand,
    tree: &mut T,
) -> Result<Operand, AllocError>
    ensures value { IfOk result (λ v. v ≡ Operand.Rec (fields_seen (seen_at (T.scene tree.old).tree (path p)))) }
    ensures same { T.scene tree.new ≡ T.scene tree.old }
    ensures over { T.over tree.new ≡ T.over tree.old }
{
    let at = into_path(alloc, p);
    let seen = tree.node(&at);
    Ok(Operand::Rec(fields_seen(alloc, seen.as_ref())?))
}

#[tactic(auto, unfolding(khepri_types::specs::Expressions::tested))]
pub(crate) fn test<T: ScriptTree>(
    alloc: Global,
    p: Operand,
    cond: &Condition,
    tree: &mut T,
) -> Operand
    ensures value { result ≡ Operand.Bool (tested cond.now (T.scene tree.old).tree (path p)) }
    ensures same { T.scene tree.new ≡ T.scene tree.old }
    ensures over { T.over tree.new ≡ T.over tree.old }
{
    let at = into_path(alloc, p);
    let seen = tree.node(&at);
    Operand::Bool(cond.holds(seen.as_ref()))
}

#[tactic(auto, using(crate::proofs::Seeing::view_stands))]
pub(crate) fn stands<T: ScriptTree>(at: &Path, tree: &mut T) -> bool
    ensures value { result ≡ stands (T.scene tree.old).tree at.now }
    ensures short { IsTrue result → length at.now ≤ MAX_PATH_NAMES }
    ensures same { T.scene tree.new ≡ T.scene tree.old }
    ensures over { T.over tree.new ≡ T.over tree.old }
{
    tree.node(at).is_some()
}
