//! Settling as it is defined: each round tests each watch of each node that stands. It is slow, and stands beside `keep_while` only so
//! that a test can compare the two.
#![tactic(auto)]

mod rounds;

pub use rounds::settle;
