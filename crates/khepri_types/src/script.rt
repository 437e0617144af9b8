// What a script is made of.
ghost use Rattle.std.specs.Prelude.{◌≡◌, IfOk};
ghost use Rattle.khepri_types.specs.SameScripts.{same_script};
ghost use Rattle.khepri_types.specs.ScriptTexts.{IsScript, script_text};

use crate::compare::Compare;
use crate::condition::Condition;
use crate::pattern::Pattern;
use crate::register::Register;
use crate::script_copy::copy_block;
use khepri_terms::{Bytes, Name, Path, Rec};
use sqlite_items::{Boxed, Items};
use std::alloc::{AllocError, Global};
use std::marker::Model;

/// An expression, one variant for each form.
#[derive(Drop)]
pub enum Expr {
    Int(i64),
    Text(Bytes),
    Path(Path),
    Rec(Rec),
    Register(Register),
    Add(Boxed<Expr>, Boxed<Expr>),
    Sub(Boxed<Expr>, Boxed<Expr>),
    Cat(Boxed<Expr>, Boxed<Expr>),
    /// `int(e,KEY,INT)`
    IntField(Boxed<Expr>, Name, i64),
    /// `text(e,KEY,'BYTES)`
    TextField(Boxed<Expr>, Name, Bytes),
    Data(Boxed<Expr>),
    Pv(Boxed<Expr>),
    Cv(Boxed<Expr>),
    Kids(Boxed<Expr>),
    Last(Boxed<Expr>),
    Child(Boxed<Expr>, Boxed<Expr>),
    With(Boxed<Expr>, Name, Boxed<Expr>),
    Compare(Compare, Boxed<Expr>, Boxed<Expr>),
    Test(Boxed<Expr>, Condition),
    Not(Boxed<Expr>),
    All(Boxed<Expr>, Boxed<Expr>),
    Any(Boxed<Expr>, Boxed<Expr>),
}

/// A statement, one variant for each form. A block is a list of statements.
#[derive(Drop)]
pub enum Statement {
    Let(Register, Expr),
    Put(Expr, Expr),
    Clear(Expr),
    Del(Expr),
    Hold(Expr, Expr, Condition),
    Free(Expr),
    Emit(Expr),
    Abort(Expr),
    If(Expr, Items<Statement>, Items<Statement>),
    Each(Register, Pattern, Items<Statement>),
}

/// A block of at most 256 statements and expressions, with at most 8 blocks and at most 8 expressions in one another, and of at most
/// 8,192 bytes of text. It keeps its text, so that it is compared and measured as bytes are.
#[derive(Drop)]
pub struct Script {
    block: Items<Statement>,
    text: Bytes,
}

impl Model for Script {
    ghost use Rattle.std.specs.Prelude.{List};
    ghost use Rattle.std.specs.Coded.{codes};
    ghost use Rattle.khepri_types.specs.declared.script.Statement.{Statement};
    ghost use Rattle.khepri_types.specs.contracts.script.Statement as statement;
    ghost use Rattle.std.specs.Prelude.{◌≡◌};
    ghost use Rattle.khepri_types.specs.ScriptTexts.{IsScript, script_text};

    ghost Value = { List Statement };

    ghost coded = { Prim.hlevel (codes, statement.the_row.coded) };

    ghost view = { λ s. s.block };

    ghost invariant = { λ s. IsScript s.block × (s.text ≡ script_text s.block) };
}

impl Script {
    /// A script of statements that have a spelling together, and that spelling.
    pub fn new(block: Items<Statement>, text: Bytes) -> Script
        requires spelled { IsScript block }
        requires text { text ≡ script_text block }
        ensures { result ≡ block }
    {
        Script { block, text }
    }

    /// The statements, from the first.
    pub fn block(&self) -> &[Statement]
        ensures value { result.now ≡ self.now }
        ensures is { IsScript self.now }
    {
        self.block.as_slice()
    }

    /// The spelling.
    pub fn text(&self) -> &[u8]
        ensures value { result.now ≡ script_text self.now }
        ensures is { IsScript self.now }
    {
        self.text.as_slice()
    }

    /// Whether the other is the same.
    #[tactic(auto, using(crate::proofs::Sameness::texts_decide))]
    pub fn is_same(&self, other: &Script) -> bool
        ensures { result ≡ same_script self.now other.now }
    {
        self.text() == other.text()
    }

    /// A copy with memory of its own.
    pub fn copy(&self, alloc: Global) -> Result<Script, AllocError>
        ensures { IfOk result (λ s. s ≡ self.now) }
    {
        Ok(Script {
            block: copy_block(alloc, self.block.as_slice())?,
            text: self.text.copy()?,
        })
    }
}
