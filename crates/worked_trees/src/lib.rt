//! Worked examples of the tree, its drafts and settling: tests that call them through their public faces alone.
#![tactic(auto)]

#[cfg(test)]
mod changes;
#[cfg(test)]
mod nodes;
#[cfg(test)]
mod settling;
