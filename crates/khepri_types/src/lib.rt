//! What the store is made of and what it means. Here stand the types of nodes, commands, entries, replies and lines, the one
//! spelling of each, and the definitions that everything above is proved against: the tree as a map from paths to nodes, what an
//! entry does to it, which output is legal for which input, and what a calm session writes. The crate knows names, paths and
//! records; it knows nothing of streams, of how a tree is kept, or of the program.
#![tactic(auto)]

mod command;
mod compare;
mod condition;
mod glob;
mod key;
pub mod laws;
mod lengths;
pub mod limits;
mod node;
mod out;
mod pattern;
mod projection;
mod register;
mod reply;
mod row;
mod script;
mod script_copy;
mod script_tree;
mod script_words;
pub mod settling_laws;
mod shown;
mod shown_row;
pub mod spellings;
mod value;
mod view;
mod watch;

pub use command::{Command, Entry, Line};
pub use compare::Compare;
pub use condition::Condition;
pub use glob::{Glob, GlobPiece};
pub use key::Key;
pub use node::{Node, NodePart, Payload};
pub use out::{EntryText, OutLine, Reason, Rows, StopWord};
pub use pattern::{Pattern, PatternPart};
pub use projection::{Origin, Projection};
pub use register::{Register, Registers};
pub use reply::Reply;
pub use row::{Row, RowChange, RowStep, copy_changes};
pub use script::{Expr, Script, Statement};
pub use script_tree::ScriptTree;
pub use script_words::{DeedWord, ExprWord, OneWord, PairWord, StatementWord};
pub use shown::{ShownNode, ShownNodes};
pub use shown_row::ShownRow;
pub use value::{Operand, Outcome, Refusal, Stop, Value, ValueType};
pub use view::NodeView;
pub use watch::{Watch, Watches, Watching};
