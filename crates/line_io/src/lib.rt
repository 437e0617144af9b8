//! Lines from a source of bytes, and bytes to a sink: the traits of the two, their forms in memory, the cutting of
//! whatever pieces come into lines under a limit and a budget, and the writing of lines. It knows nothing of what
//! the lines say.
#![tactic(auto)]

mod cutting;
mod lines;
mod memory;
mod next;
mod progress;
mod streams;

pub use lines::Lines;
pub use memory::{MemSink, MemSource};
pub use next::{LineFault, Next};
pub use progress::progress_of_calls;
pub use streams::{Failed, Sink, Source, put_all, put_line, writing_in_turn};
