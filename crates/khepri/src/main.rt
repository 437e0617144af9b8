//! The program. It reads its words, runs the work that they ask for over standard input and output, and ends with the
//! status. So far the work is a session of one node: lines are read to the end of the input, and each is answered before
//! the next is read.
#![tactic(auto)]

mod adapters;
mod run;
mod words;

use adapters::{StdSink, StdSource};
use run::run;
use session_core::Status;
use std::process::ExitCode;
use words::given_words;

fn main(rt: HostRuntime) -> ExitCode {
    let mut source = StdSource::new(rt.stdin());
    let mut sink = StdSink::new(rt.stdout());
    let status = match given_words(&rt, rt.alloc()) {
        Ok(words) => run(rt.alloc(), words.as_slice(), &mut source, &mut sink),
        Err(_) => Status::NoMemory,
    };
    ExitCode::from(status.code())
}

#[cfg(test)]
mod tests;
