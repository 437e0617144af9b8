// Values, and how a script ends.
use crate::reply::Reply;
use khepri_terms::{Bytes, Path, Rec};
use sqlite_items::Items;

/// The types of what expressions give.
#[derive(Clone, Copy, PartialEq, Eq)]
pub enum ValueType {
    Int,
    Text,
    Path,
    Rec,
    Bool,
}

/// What an expression gives.
#[derive(Drop)]
pub enum Operand {
    Int(i64),
    Text(Bytes),
    Path(Path),
    Rec(Rec),
    Bool(bool),
}

/// What a script emits.
#[derive(Drop)]
pub enum Value {
    Int(i64),
    Text(Bytes),
    Path(Path),
    Rec(Rec),
}

/// What refuses a script.
#[derive(Clone, Copy, PartialEq, Eq)]
pub enum Refusal {
    /// The root isn't dropped, and has no watches.
    Root,
    /// A path would have too many names, or too long a text.
    Deep,
    /// No node stands at the path.
    Absent,
    /// A limit of values, watches or records would be passed.
    Full,
    /// The text is no name: it has no byte, or too many.
    Name,
}

/// Why a script ends before its last statement has.
#[derive(Drop)]
pub enum Stop {
    /// By `abort`, with this text.
    Abort(Bytes),
    /// The next statement or turn would be one unit too many.
    Spent,
    Refused(Refusal),
}

/// How a script ended.
#[derive(Drop)]
pub enum Outcome {
    /// All of it ran, and emitted these values.
    Done(Items<Value>),
    Abort(Bytes),
    Spent,
    /// What refuses the script answers the command that ran it.
    Refused(Reply),
}
