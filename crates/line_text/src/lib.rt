//! The lines of a session as bytes, both ways: input lines and commands are read, replies and output lines are printed, and what
//! is printed is read again. A text has one reading at most, and a text that is no spelling is refused whole. The crate knows the
//! values that lines carry; it knows nothing of streams, of where a line ends, or of what a line does.
#![tactic(auto)]

mod command;
mod entry;
mod line;
mod output;
mod payload;
mod reply;
mod shown;
mod values;
mod watch;
mod words;

pub use command::{print_command, read_command};
pub use line::read_line;
pub use output::{print_out, read_out};
pub use reply::print_reply;
