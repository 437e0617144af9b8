// Which scripts are well typed.
ghost use Rattle.std.specs.Prelude.{◌≡◌, true, false, Some, map, IfOk, OnOk, Err};
ghost use Rattle.khepri_types.specs.Conditions.{all_true};
ghost use Rattle.khepri_types.specs.Exec.{is_checked};
ghost use Rattle.khepri_types.specs.ScriptTexts.{IsScript};
ghost use Rattle.khepri_types.specs.Typing.{is_int, is_text, is_path, is_rec, is_bool, register_type, gives, takes, type_of, typed, well_typed};

use khepri_types::{Expr, Payload, Register, Script, Statement, ValueType};
use std::alloc::Global;
use std::marker::Model;
use thiserror::Error;

/// Why a script is not checked.
#[derive(Debug, Drop, Error)]
pub enum ScriptFault {
    /// A part of it takes another type than it is given.
    #[error("the script is ill typed")]
    Ill,
    #[error("no memory")]
    NoMemory,
}

/// A script that is well typed.
#[derive(Drop)]
pub struct Checked {
    script: Script,
}

impl Model for Checked {
    ghost use Rattle.std.specs.Prelude.{◌≡◌, List, true};
    ghost use Rattle.std.specs.Coded.{codes};
    ghost use Rattle.khepri_types.specs.declared.script.Statement.{Statement};
    ghost use Rattle.khepri_types.specs.contracts.script.Statement as statement;
    ghost use Rattle.khepri_types.specs.ScriptTexts.{IsScript};
    ghost use Rattle.khepri_types.specs.Typing.{well_typed};

    ghost Value = { List Statement };

    ghost coded = { Prim.hlevel (codes, statement.the_row.coded) };

    ghost view = { λ c. c.script };

    ghost invariant = { λ c. (well_typed c.script ≡ true) × IsScript c.script };
}

impl Checked {
    /// The statements, from the first.
    pub fn block(&self) -> &[Statement]
        ensures value { result.now ≡ self.now }
        ensures typed { well_typed self.now ≡ true }
        ensures is { IsScript self.now }
    {
        self.script.block()
    }
}

#[tactic(auto, unfolding(khepri_types::specs::Typing::is_int))]
fn is_int(t: Option<ValueType>) -> bool
    ensures { result ≡ is_int t }
{
    matches!(&t, Some(ValueType::Int))
}

#[tactic(auto, unfolding(khepri_types::specs::Typing::is_text))]
fn is_text(t: Option<ValueType>) -> bool
    ensures { result ≡ is_text t }
{
    matches!(&t, Some(ValueType::Text))
}

#[tactic(auto, unfolding(khepri_types::specs::Typing::is_path))]
fn is_path(t: Option<ValueType>) -> bool
    ensures { result ≡ is_path t }
{
    matches!(&t, Some(ValueType::Path))
}

#[tactic(auto, unfolding(khepri_types::specs::Typing::is_rec))]
fn is_rec(t: Option<ValueType>) -> bool
    ensures { result ≡ is_rec t }
{
    matches!(&t, Some(ValueType::Rec))
}

#[tactic(auto, unfolding(khepri_types::specs::Typing::is_bool))]
fn is_bool(t: Option<ValueType>) -> bool
    ensures { result ≡ is_bool t }
{
    matches!(&t, Some(ValueType::Bool))
}

fn register_type(reg: Register) -> ValueType
    ensures { result ≡ register_type reg }
{
    match reg {
        Register::Int(_) => ValueType::Int,
        Register::Text(_) => ValueType::Text,
        Register::Path(_) => ValueType::Path,
        Register::Rec(_) => ValueType::Rec,
    }
}

fn gives(fits: bool, given: ValueType) -> Option<ValueType>
    ensures { result ≡ gives fits given }
{
    if fits { Some(given) } else { None }
}

/// The type of what an expression gives, none where it is ill typed.
fn type_of(e: &Expr) -> Option<ValueType>
    ensures { result ≡ type_of e.now }
{
    match e {
        Expr::Int(_) => Some(ValueType::Int),
        Expr::Text(_) => Some(ValueType::Text),
        Expr::Path(_) => Some(ValueType::Path),
        Expr::Rec(_) => Some(ValueType::Rec),
        Expr::Register(reg) => Some(register_type(*reg)),
        Expr::Add(a, b) => gives(
            is_int(type_of(a.get())) && is_int(type_of(b.get())),
            ValueType::Int,
        ),
        Expr::Sub(a, b) => gives(
            is_int(type_of(a.get())) && is_int(type_of(b.get())),
            ValueType::Int,
        ),
        Expr::Cat(a, b) => gives(
            is_text(type_of(a.get())) && is_text(type_of(b.get())),
            ValueType::Text,
        ),
        Expr::IntField(a, _, _) => gives(is_rec(type_of(a.get())), ValueType::Int),
        Expr::TextField(a, _, _) => gives(is_rec(type_of(a.get())), ValueType::Text),
        Expr::Data(a) => gives(is_path(type_of(a.get())), ValueType::Rec),
        Expr::Pv(a) => gives(is_path(type_of(a.get())), ValueType::Int),
        Expr::Cv(a) => gives(is_path(type_of(a.get())), ValueType::Int),
        Expr::Kids(a) => gives(is_path(type_of(a.get())), ValueType::Int),
        Expr::Last(a) => gives(is_path(type_of(a.get())), ValueType::Text),
        Expr::Child(a, b) => gives(
            is_path(type_of(a.get())) && is_text(type_of(b.get())),
            ValueType::Path,
        ),
        Expr::With(a, _, b) => {
            let b = type_of(b.get());
            gives(
                is_rec(type_of(a.get())) && (is_int(b) || is_text(b)),
                ValueType::Rec,
            )
        }
        Expr::Compare(_, a, b) => {
            let a = type_of(a.get());
            let b = type_of(b.get());
            gives(
                (is_int(a) && is_int(b)) || (is_text(a) && is_text(b)),
                ValueType::Bool,
            )
        }
        Expr::Test(a, _) => gives(is_path(type_of(a.get())), ValueType::Bool),
        Expr::Not(a) => gives(is_bool(type_of(a.get())), ValueType::Bool),
        Expr::All(a, b) => gives(
            is_bool(type_of(a.get())) && is_bool(type_of(b.get())),
            ValueType::Bool,
        ),
        Expr::Any(a, b) => gives(
            is_bool(type_of(a.get())) && is_bool(type_of(b.get())),
            ValueType::Bool,
        ),
    }
}

fn takes(reg: Register, t: Option<ValueType>) -> bool
    ensures { result ≡ takes reg t }
{
    match reg {
        Register::Int(_) => is_int(t),
        Register::Text(_) => is_text(t),
        Register::Path(_) => is_path(t),
        Register::Rec(_) => is_rec(t),
    }
}

/// Whether all the statements are well typed, those of their blocks too.
#[cycle(typing)]
fn all_typed(block: &[Statement]) -> bool
    ensures { result ≡ all_true (map typed block.now) }
{
    for one in block {
        if !typed(one) {
            return false;
        }
    }
    true
}

#[cycle(typing)]
fn typed(s: &Statement) -> bool
    ensures { result ≡ typed s.now }
{
    match s {
        Statement::Let(reg, e) => takes(*reg, type_of(e)),
        Statement::Put(a, b) => is_path(type_of(a)) && is_rec(type_of(b)),
        Statement::Clear(a) => is_path(type_of(a)),
        Statement::Del(a) => is_path(type_of(a)),
        Statement::Hold(a, b, _) => is_path(type_of(a)) && is_path(type_of(b)),
        Statement::Free(a) => is_path(type_of(a)),
        Statement::Emit(a) => {
            let a = type_of(a);
            is_int(a) || is_text(a) || is_path(a) || is_rec(a)
        }
        Statement::Abort(a) => is_text(type_of(a)),
        Statement::If(e, a, b) => {
            is_bool(type_of(e)) && (all_typed(a.as_slice()) && all_typed(b.as_slice()))
        }
        Statement::Each(reg, _, body) => is_path(Some(register_type(*reg)))
            && all_typed(body.as_slice()),
    }
}

/// Checks a script: `Ill` says that it is ill typed.
pub fn check(alloc: Global, script: &Script) -> Result<Checked, ScriptFault>
    ensures ok { IfOk result (λ c. c ≡ script.now) }
    ensures typed { OnOk result (well_typed script.now ≡ true) }
    ensures ill { result ≡ Err ScriptFault.Ill → well_typed script.now ≡ false }
{
    if !all_typed(script.block()) {
        return Err(ScriptFault::Ill);
    }
    match script.copy(alloc) {
        Ok(script) => Ok(Checked { script }),
        Err(_) => Err(ScriptFault::NoMemory),
    }
}

/// Whether a payload may be set: a script only where it is well typed. It takes no memory.
pub fn is_checked(payload: &Payload) -> bool
    ensures { result ≡ is_checked payload.now }
{
    match payload {
        Payload::Empty => true,
        Payload::Fields(_) => true,
        Payload::Proc(script) => all_typed(script.block()),
    }
}
