//! A session: lines are read to the end of the input, and each is answered before the next is read. The crate joins the reader of
//! lines, the texts and the machine; what a line means, how lines are cut and how a tree is kept stand below it. It knows nothing of
//! the words of a command line, or of what the source and the sink are.
#![tactic(auto)]

mod answer;
mod status;
mod turns;

pub use status::Status;
pub use turns::session;
