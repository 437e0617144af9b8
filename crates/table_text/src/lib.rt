//! The texts of tables as bytes, both ways: sources, keys and values, projections and the commands that register and remove them, reads,
//! and the rows that a read shows. A reader refuses what is no spelling; a printer appends. The crate knows nothing of trees, of what a
//! table holds, or of the lines that these texts stand in.
#![tactic(auto)]

mod command;
mod list;
mod lookup;
mod projection;
mod rows;
mod scalars;
mod source;

pub use command::{append_proj, append_unproj, read_proj, read_unproj};
pub use lookup::{append_lookup, read_lookup};
pub use projection::{append_projection, read_projection};
pub use rows::{append_found, append_rows, read_found};
