//! Reads each file of rows that lies beside it, and asks the libraries of a session and of tables what the row asks. A row is what
//! is given, `|`, and what must come of it. Where something else comes, the row is printed, with what was wanted and what was told.
#![tactic(auto)]

mod cuts;
mod fault;
mod lines;
mod rows;
mod tables;
mod terms;

use fault::{Fault, word_of};
use rows::{cut_at, pieces, unescaped};
use std::alloc::{AllocError, Global};
use std::fs;
use std::io::{self, Write};
use tables::Shelf;

// What the rows of a file are about.
#[derive(Clone, Copy)]
enum Subject {
    Terms,
    Lines,
    Cuts,
    Tables,
}

fn name_of(subject: Subject) -> &'static str {
    match subject {
        Subject::Terms => "terms",
        Subject::Lines => "lines",
        Subject::Cuts => "cuts",
        Subject::Tables => "tables",
    }
}

fn main(rt: HostRuntime) -> io::Result<()> {
    report(&rt, Subject::Terms)?;
    report(&rt, Subject::Lines)?;
    report(&rt, Subject::Cuts)?;
    report(&rt, Subject::Tables)
}

// Prints each row of a file that says something else, and how many rows there are.
fn report(rt: &HostRuntime, subject: Subject) -> io::Result<()> {
    let alloc = rt.alloc();
    let text = fs::read(rt, name_of(subject))?;
    let mut shelf = Shelf::fresh(alloc);
    let mut rows: u64 = 0;
    for line in pieces(alloc, b'\n', text.as_slice())?.iter() {
        if !line.starts_with(b"#") {
            compare(rt, subject, &mut shelf, line)?;
            rows = rows.saturating_add(1);
        }
    }
    println!(rt; "{}: {rows} rows", name_of(subject))
}

fn compare(rt: &HostRuntime, subject: Subject, shelf: &mut Shelf, line: &[u8]) -> io::Result<()> {
    let (given, wanted) = cut_at(b'|', line);
    let told = answer(rt.alloc(), subject, shelf, given)?;
    if told.as_slice() != wanted {
        println!(rt; "{}", name_of(subject))?;
        print_text(rt, "  given: ", given)?;
        print_text(rt, "  wanted: ", wanted)?;
        print_text(rt, "  told: ", told.as_slice())?;
    }
    Ok(())
}

fn print_text(rt: &HostRuntime, label: &str, text: &[u8]) -> io::Result<()> {
    print!(rt; "{label}")?;
    rt.stdout().write_all(text)?;
    println!(rt; "")
}

fn answer(
    alloc: Global,
    subject: Subject,
    shelf: &mut Shelf,
    given: &[u8],
) -> Result<Vec<u8>, AllocError> {
    let given = unescaped(alloc, given)?;
    let mut out = Vec::new(alloc);
    if let Err(fault) = tell(alloc, subject, shelf, given.as_slice(), &mut out) {
        out.extend_from_slice(word_of(fault))?;
    }
    Ok(out)
}

// Appends what the libraries answer to what is given.
fn tell(
    alloc: Global,
    subject: Subject,
    shelf: &mut Shelf,
    given: &[u8],
    out: &mut Vec<u8>,
) -> Result<(), Fault> {
    let (form, rest) = cut_at(b' ', given);
    match subject {
        Subject::Terms => terms::tell(alloc, form, rest, out),
        Subject::Lines => lines::tell(alloc, form, rest, out),
        Subject::Cuts => cuts::tell(alloc, form, rest, out),
        Subject::Tables => shelf.tell(form, rest, out),
    }
}
