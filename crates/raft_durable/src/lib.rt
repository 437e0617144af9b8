//! What a node keeps in its vault: its term, its vote, its log and the snapshot that the log stands on, as a list of items of
//! bytes. Each list is read by one set of rules, which refuse every list that no node writes, and what was read is spelled again as
//! a list that says the same. The crate knows nothing of vaults, of what a snapshot or an entry means, or of when items are written.
#![tactic(auto)]

pub mod items;
pub mod kept;
pub mod laws;
pub mod limits;
mod numbers;
mod reading;
