//! Names, paths, scalars and records: the small values that every command, reply and stored form is made of.
//! Each has exactly one spelling; a value is printed as it, and nothing else is read. The crate knows nothing of
//! trees, lines or machines.
#![tactic(auto)]

mod bytes;
mod fault;
pub mod laws;
pub mod limits;
mod name;
pub mod numbers;
mod path;
mod rec;
mod scalar;
pub mod texts;

pub use bytes::Bytes;
pub use fault::{NameFault, RecFault, TextFault};
pub use name::{Kind, Name};
pub use path::Path;
pub use rec::{Field, Rec};
pub use scalar::Scalar;
