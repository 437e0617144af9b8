//! Reads each row of the file `scripts`, and runs the script that it has. A row is a script, `|`, and how it must end: `bad` where the
//! text is no script, `ill` where it is ill typed, else `done` and the values, or `no` and why. The script of the first row makes a
//! small tree, and each row runs on a tree of its own that was made so. Where a script is printed otherwise than it is spelled, or ends
//! otherwise, the row is printed, with what was told.
#![tactic(auto)]

mod answer;
mod run;

use run::tell;
use std::fs;
use std::io::{self, Write};

fn main(rt: HostRuntime) -> io::Result<()> {
    let text = fs::read_to_string(&rt, "scripts")?;
    let first = script_of(text.as_str().lines().next().unwrap_or(""));
    let mut rows: u64 = 0;
    for row in text.as_str().lines() {
        compare(&rt, first, row)?;
        rows = rows.saturating_add(1);
    }
    println!(rt; "scripts: {rows} rows")
}

// Prints a row that says something else.
fn compare(rt: &HostRuntime, first: &str, row: &str) -> io::Result<()> {
    let told = tell(rt.alloc(), first, script_of(row))?;
    if told.as_slice() != row.as_bytes() {
        print!(rt; "{row} but ")?;
        rt.stdout().write_all(told.as_slice())?;
        println!(rt; "")?;
    }
    Ok(())
}

// The script of a row.
fn script_of(row: &str) -> &str {
    match row.split_once("|") {
        Some((script, _)) => script,
        None => row,
    }
}
