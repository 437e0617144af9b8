//! When nodes stay: which watch of a node isn't met, and settling, which drops all nodes that fail, round by round, until none does.
//! A round tests only nodes that what changed since can make fail. It reads and changes a tree only by the calls of a draft; it knows
//! nothing of commands, of lines or of limits.
#![tactic(auto)]

mod first;
mod gather;
mod glance;
mod unmet;
mod worklist;

pub use unmet::first_unmet;
pub use worklist::settle;
