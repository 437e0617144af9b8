//! Runs transcripts, and prints the names of all: two that are made, of trees that are full, and each that lies beside it as two
//! files, the lines in (`NAME.in`) and the lines out (`NAME.out`). The lines in go through a session over memory, in one piece and
//! then, of those that are files, at one byte a take and a put; where one of the two doesn't write the lines out, the first line
//! that differs is printed below the name, with both texts.
#![tactic(auto)]

mod compare;
mod made;
mod memory;
mod transcript;

use made::{full_of_bytes, full_of_nodes};
use memory::Pace;
use std::io;
use transcript::{kept, names_in, report};

fn main(rt: HostRuntime) -> io::Result<()> {
    report(&rt, &full_of_nodes(rt.alloc())?, &[Pace::Whole])?;
    report(&rt, &full_of_bytes(rt.alloc())?, &[Pace::Whole])?;
    for name in names_in(&rt, ".")?.iter() {
        report(
            &rt,
            &kept(&rt, name.as_str())?,
            &[Pace::Whole, Pace::Single],
        )?;
    }
    Ok(())
}
