//! The machine that the log drives. It applies one entry at a time to a tree and answers exactly what the definitions of
//! `khepri_types` say. Each command is first worked out over the tree as it stands, in a draft where it changes something, and only
//! what keeps every rule becomes the tree. It may know of commands, entries and replies; it knows nothing of lines, of streams, of how
//! a tree is kept, or of who asked.
#![tactic(auto)]

mod follow;
mod kept;
mod links;
mod machine;
mod outcome;

pub use machine::KhepriMachine;
