// The words with which the forms of scripts begin.
use crate::compare::Compare;

/// A form of two expressions.
#[derive(Clone, Copy, PartialEq, Eq)]
pub enum PairWord {
    Add,
    Sub,
    Cat,
    Child,
    All,
    Any,
    Compare(Compare),
}

/// A form of one expression.
#[derive(Clone, Copy, PartialEq, Eq)]
pub enum OneWord {
    Data,
    Pv,
    Cv,
    Kids,
    Last,
    Not,
}

/// A form of expressions.
#[derive(Clone, Copy, PartialEq, Eq)]
pub enum ExprWord {
    Pair(PairWord),
    One(OneWord),
    Int,
    Text,
    With,
    Test,
}

/// A statement of one expression.
#[derive(Clone, Copy, PartialEq, Eq)]
pub enum DeedWord {
    Clear,
    Del,
    Free,
    Emit,
    Abort,
}

/// A statement.
#[derive(Clone, Copy, PartialEq, Eq)]
pub enum StatementWord {
    Deed(DeedWord),
    Let,
    Put,
    Hold,
    If,
    Each,
}
