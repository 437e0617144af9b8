//! Conditions and patterns as bytes, both ways, and what every text of the store is read and printed with: words, numbers, marks, keys,
//! comparisons, and items one after another. A reader takes what is spelled at the front of a text and gives what is after it; a
//! printer appends. The crate knows nothing of lines, of commands, or of what a condition asks of a tree.
#![tactic(auto)]

mod atom;
mod condition;
mod glob;
pub mod many;
mod pattern;
pub mod words;

pub use atom::{compare_word, read_compare, read_key};
pub use condition::{append_condition, read_condition};
pub use pattern::{append_pattern, read_pattern};
