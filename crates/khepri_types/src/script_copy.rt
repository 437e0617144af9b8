// Copies of scripts.
ghost use Rattle.std.specs.Prelude.{◌≡◌, IfOk};

use crate::condition::Condition;
use crate::pattern::Pattern;
use crate::register::Register;
use crate::script::{Expr, Statement};
use sqlite_items::{Boxed, Items};
use std::alloc::{AllocError, Global};

#[cycle(copying)]
fn boxed(alloc: Global, e: &Expr) -> Result<Boxed<Expr>, AllocError>
    ensures { IfOk result (λ c. c ≡ e.now) }
{
    Boxed::new(alloc, copy_expr(alloc, e)?)
}

#[cycle(copying)]
fn copy_expr(alloc: Global, e: &Expr) -> Result<Expr, AllocError>
    ensures { IfOk result (λ c. c ≡ e.now) }
{
    match e {
        Expr::Int(z) => Ok(Expr::Int(*z)),
        Expr::Text(b) => Ok(Expr::Text(b.copy()?)),
        Expr::Path(p) => Ok(Expr::Path(p.copy()?)),
        Expr::Rec(f) => Ok(Expr::Rec(f.copy()?)),
        Expr::Register(reg) => Ok(Expr::Register(*reg)),
        Expr::Add(a, b) => Ok(Expr::Add(boxed(alloc, a.get())?, boxed(alloc, b.get())?)),
        Expr::Sub(a, b) => Ok(Expr::Sub(boxed(alloc, a.get())?, boxed(alloc, b.get())?)),
        Expr::Cat(a, b) => Ok(Expr::Cat(boxed(alloc, a.get())?, boxed(alloc, b.get())?)),
        Expr::IntField(a, key, z) => Ok(Expr::IntField(boxed(alloc, a.get())?, key.copy()?, *z)),
        Expr::TextField(a, key, b) => Ok(Expr::TextField(
            boxed(alloc, a.get())?,
            key.copy()?,
            b.copy()?,
        )),
        Expr::Data(a) => Ok(Expr::Data(boxed(alloc, a.get())?)),
        Expr::Pv(a) => Ok(Expr::Pv(boxed(alloc, a.get())?)),
        Expr::Cv(a) => Ok(Expr::Cv(boxed(alloc, a.get())?)),
        Expr::Kids(a) => Ok(Expr::Kids(boxed(alloc, a.get())?)),
        Expr::Last(a) => Ok(Expr::Last(boxed(alloc, a.get())?)),
        Expr::Child(a, b) => Ok(Expr::Child(boxed(alloc, a.get())?, boxed(alloc, b.get())?)),
        Expr::With(a, key, b) => Ok(Expr::With(
            boxed(alloc, a.get())?,
            key.copy()?,
            boxed(alloc, b.get())?,
        )),
        Expr::Compare(op, a, b) => Ok(Expr::Compare(
            *op,
            boxed(alloc, a.get())?,
            boxed(alloc, b.get())?,
        )),
        Expr::Test(a, cond) => Ok(Expr::Test(boxed(alloc, a.get())?, cond.copy(alloc)?)),
        Expr::Not(a) => Ok(Expr::Not(boxed(alloc, a.get())?)),
        Expr::All(a, b) => Ok(Expr::All(boxed(alloc, a.get())?, boxed(alloc, b.get())?)),
        Expr::Any(a, b) => Ok(Expr::Any(boxed(alloc, a.get())?, boxed(alloc, b.get())?)),
    }
}

fn let_of(alloc: Global, reg: Register, e: &Expr) -> Result<Statement, AllocError>
    ensures { IfOk result (λ s. s ≡ Statement.Let reg e.now) }
{
    Ok(Statement::Let(reg, copy_expr(alloc, e)?))
}

fn put_of(alloc: Global, a: &Expr, b: &Expr) -> Result<Statement, AllocError>
    ensures { IfOk result (λ s. s ≡ Statement.Put a.now b.now) }
{
    Ok(Statement::Put(copy_expr(alloc, a)?, copy_expr(alloc, b)?))
}

fn clear_of(alloc: Global, a: &Expr) -> Result<Statement, AllocError>
    ensures { IfOk result (λ s. s ≡ Statement.Clear a.now) }
{
    Ok(Statement::Clear(copy_expr(alloc, a)?))
}

fn del_of(alloc: Global, a: &Expr) -> Result<Statement, AllocError>
    ensures { IfOk result (λ s. s ≡ Statement.Del a.now) }
{
    Ok(Statement::Del(copy_expr(alloc, a)?))
}

fn free_of(alloc: Global, a: &Expr) -> Result<Statement, AllocError>
    ensures { IfOk result (λ s. s ≡ Statement.Free a.now) }
{
    Ok(Statement::Free(copy_expr(alloc, a)?))
}

fn emit_of(alloc: Global, a: &Expr) -> Result<Statement, AllocError>
    ensures { IfOk result (λ s. s ≡ Statement.Emit a.now) }
{
    Ok(Statement::Emit(copy_expr(alloc, a)?))
}

fn abort_of(alloc: Global, a: &Expr) -> Result<Statement, AllocError>
    ensures { IfOk result (λ s. s ≡ Statement.Abort a.now) }
{
    Ok(Statement::Abort(copy_expr(alloc, a)?))
}

fn hold_of(alloc: Global, a: &Expr, b: &Expr, cond: &Condition) -> Result<Statement, AllocError>
    ensures { IfOk result (λ s. s ≡ Statement.Hold a.now b.now cond.now) }
{
    Ok(Statement::Hold(
        copy_expr(alloc, a)?,
        copy_expr(alloc, b)?,
        cond.copy(alloc)?,
    ))
}

fn if_of(
    alloc: Global,
    e: &Expr,
    a: Items<Statement>,
    b: Items<Statement>,
) -> Result<Statement, AllocError>
    ensures { IfOk result (λ s. s ≡ Statement.If e.now a b) }
{
    Ok(Statement::If(copy_expr(alloc, e)?, a, b))
}

fn each_of(
    alloc: Global,
    reg: Register,
    pattern: &Pattern,
    body: Items<Statement>,
) -> Result<Statement, AllocError>
    ensures { IfOk result (λ s. s ≡ Statement.Each reg pattern.now body) }
{
    Ok(Statement::Each(reg, pattern.copy(alloc)?, body))
}

#[cycle(block_copying)]
fn copy_statement(alloc: Global, s: &Statement) -> Result<Statement, AllocError>
    ensures { IfOk result (λ c. c ≡ s.now) }
{
    match s {
        Statement::Let(reg, e) => let_of(alloc, *reg, e),
        Statement::Put(a, b) => put_of(alloc, a, b),
        Statement::Clear(a) => clear_of(alloc, a),
        Statement::Del(a) => del_of(alloc, a),
        Statement::Hold(a, b, cond) => hold_of(alloc, a, b, cond),
        Statement::Free(a) => free_of(alloc, a),
        Statement::Emit(a) => emit_of(alloc, a),
        Statement::Abort(a) => abort_of(alloc, a),
        Statement::If(e, a, b) => {
            let a = copy_block(alloc, a.as_slice())?;
            let b = copy_block(alloc, b.as_slice())?;
            if_of(alloc, e, a, b)
        }
        Statement::Each(reg, pattern, body) => {
            let body = copy_block(alloc, body.as_slice())?;
            each_of(alloc, *reg, pattern, body)
        }
    }
}

#[cycle(block_copying)]
pub(crate) fn copy_block(alloc: Global, block: &[Statement]) -> Result<Items<Statement>, AllocError>
    ensures { IfOk result (λ c. c ≡ block.now) }
{
    let mut all = Items::new(alloc);
    for one in block {
        all.push(copy_statement(alloc, one)?)?;
    }
    Ok(all)
}
