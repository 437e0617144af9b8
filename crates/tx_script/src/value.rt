// Evaluating expressions.
ghost use Rattle.std.specs.Prelude.{◌≡◌};
ghost use Rattle.khepri_types.specs.Expressions.{value_of};
ghost use Rattle.tx_script.specs.Answers.{Gives, GivesTwo};

use crate::forms::{
    add, all, any, cat, child, compare, int_field, last, not, sub, text_field, with,
};
use crate::halt::Unvalued;
use crate::reads::{cv, data, kids, pv, test};
use crate::registers::read;
use khepri_types::{Expr, Operand, Registers, ScriptTree};
use std::alloc::Global;

/// The values of two expressions, from the left.
#[cycle(values)]
pub(crate) fn pair<T: ScriptTree>(
    alloc: Global,
    a: &Expr,
    b: &Expr,
    registers: &Registers,
    tree: &mut T,
) -> Result<(Operand, Operand), Unvalued>
    ensures values { GivesTwo result (value_of a.now registers.now (T.scene tree.old).tree) (value_of b.now registers.now (T.scene tree.old).tree) }
    ensures same { T.scene tree.new ≡ T.scene tree.old }
    ensures over { T.over tree.new ≡ T.over tree.old }
{
    let x = value(alloc, a, registers, tree)?;
    let y = value(alloc, b, registers, tree)?;
    Ok((x, y))
}

/// The value of an expression.
#[cycle(values)]
#[tactic(auto, using(crate::proofs::Pairs::two_refused))]
pub(crate) fn value<T: ScriptTree>(
    alloc: Global,
    e: &Expr,
    registers: &Registers,
    tree: &mut T,
) -> Result<Operand, Unvalued>
    ensures value { Gives result (value_of e.now registers.now (T.scene tree.old).tree) }
    ensures same { T.scene tree.new ≡ T.scene tree.old }
    ensures over { T.over tree.new ≡ T.over tree.old }
{
    match e {
        Expr::Int(z) => Ok(Operand::Int(*z)),
        Expr::Text(b) => Ok(Operand::Text(b.copy()?)),
        Expr::Path(p) => Ok(Operand::Path(p.copy()?)),
        Expr::Rec(f) => Ok(Operand::Rec(f.copy()?)),
        Expr::Register(reg) => Ok(read(alloc, *reg, registers)?),
        Expr::Add(a, b) => {
            let (x, y) = pair(alloc, a.get(), b.get(), registers, tree)?;
            Ok(add(x, y))
        }
        Expr::Sub(a, b) => {
            let (x, y) = pair(alloc, a.get(), b.get(), registers, tree)?;
            Ok(sub(x, y))
        }
        Expr::Cat(a, b) => {
            let (x, y) = pair(alloc, a.get(), b.get(), registers, tree)?;
            Ok(cat(alloc, x, y)?)
        }
        Expr::IntField(a, key, z) => {
            let d = value(alloc, a.get(), registers, tree)?;
            Ok(int_field(alloc, d, key, *z))
        }
        Expr::TextField(a, key, b) => {
            let d = value(alloc, a.get(), registers, tree)?;
            Ok(text_field(alloc, d, key, b)?)
        }
        Expr::Data(a) => {
            let p = value(alloc, a.get(), registers, tree)?;
            Ok(data(alloc, p, tree)?)
        }
        Expr::Pv(a) => {
            let p = value(alloc, a.get(), registers, tree)?;
            Ok(pv(alloc, p, tree))
        }
        Expr::Cv(a) => {
            let p = value(alloc, a.get(), registers, tree)?;
            Ok(cv(alloc, p, tree))
        }
        Expr::Kids(a) => {
            let p = value(alloc, a.get(), registers, tree)?;
            Ok(kids(alloc, p, tree))
        }
        Expr::Last(a) => {
            let p = value(alloc, a.get(), registers, tree)?;
            Ok(last(alloc, p)?)
        }
        Expr::Child(a, b) => {
            let (p, t) = pair(alloc, a.get(), b.get(), registers, tree)?;
            child(alloc, p, t)
        }
        Expr::With(a, key, b) => {
            let (d, x) = pair(alloc, a.get(), b.get(), registers, tree)?;
            with(alloc, d, key, x)
        }
        Expr::Compare(op, a, b) => {
            let (x, y) = pair(alloc, a.get(), b.get(), registers, tree)?;
            Ok(compare(*op, x, y))
        }
        Expr::Test(a, cond) => {
            let p = value(alloc, a.get(), registers, tree)?;
            Ok(test(alloc, p, cond, tree))
        }
        Expr::Not(a) => {
            let x = value(alloc, a.get(), registers, tree)?;
            Ok(not(x))
        }
        Expr::All(a, b) => {
            let (x, y) = pair(alloc, a.get(), b.get(), registers, tree)?;
            Ok(all(x, y))
        }
        Expr::Any(a, b) => {
            let (x, y) = pair(alloc, a.get(), b.get(), registers, tree)?;
            Ok(any(x, y))
        }
    }
}
