//! What each command does to a tree, with the test of watches, settling and the limits of a tree, and what a fire of a script does. It
//! works on a draft: a command that is refused leaves a draft that may only be dropped. It knows nothing of how many entries there were,
//! of the index's own changes, of lines, or of who asked.
#![tactic(auto)]

mod command;
mod finish;
mod read;
mod refusal;
mod run;
mod scan;
mod write;

pub use command::{is_change, tree_command};
pub use run::tree_fire;
