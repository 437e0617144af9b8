//! Checks scripts and runs them. A script that is well typed runs on any tree that implements `ScriptTree`, and does to it exactly
//! what the definition of a script's meaning says. The crate knows nothing of texts, of settling, or of how a tree is kept.
#![tactic(auto)]

mod forms;
mod halt;
mod operands;
mod reads;
mod registers;
mod run;
mod typing;
mod value;

pub use run::run_script;
pub use typing::{Checked, ScriptFault, check, is_checked};
