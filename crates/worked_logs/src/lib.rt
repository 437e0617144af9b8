//! Worked examples of the replicated log. Two scripts of three nodes say what happens, step by step, and what is then told. That the
//! definition of a node's step tells just that is proved here, and the tests run cores through the same scripts. The other tests
//! call the log and the vault in memory through their public faces.
#![tactic(auto)]

#[cfg(test)]
mod cores;
pub mod definition;
#[cfg(test)]
mod firsts;
#[cfg(test)]
mod logs;
pub mod losses;
pub mod rules;
pub mod script;
#[cfg(test)]
mod spelled;
#[cfg(test)]
mod telling;
#[cfg(test)]
mod vaults;
