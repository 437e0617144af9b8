//! Scripts as bytes, both ways: a script is read from the front of a text and printed. Its limits (bytes, statements and expressions,
//! nesting) are those of the grammar: a text that passes one is no script. The crate knows nothing of types, of what a script does, or
//! of the lines that scripts stand in.
#![tactic(auto)]

mod expression;
mod leaf;
mod parts;
mod print_expr;
mod print_statement;
mod printing;
mod script;
mod statement;
mod value;
mod words;

pub use leaf::read_quoted;
pub use printing::append_quoted;
pub use script::{print_script, read_script};
pub use value::{append_values, read_value};
